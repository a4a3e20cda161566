// The program as a function: from the bytes of standard input to the bytes printed.
#![tactic(auto)]

ghost use Rattle.std.specs.Prelude.{◌≡◌, ◌/◌, ◌≤◌, length, take};
ghost use Rattle.desk.specs.Buffers.{Buffers};
ghost use Rattle.input.specs.Input.{decided, decided_words};
ghost use Rattle.meaning.specs.Limits.{output_size, work_size};
ghost use Rattle.meaning.specs.Program.{program};
ghost use Rattle.text.specs.Text.{Shows, text_size};

use containment::compliance;
use input::{decode, is_exact, is_short, next_part, part};
use meaning::Verdict;
use meaning::refusals::Refusal;
use text::put_verdict;

// The verdict on the words of an input of so many bytes.
fn decide_words(
    bytes: usize,
    words: &[u32],
    work: &mut [u32],
    out: &mut [u32],
) -> Result<Verdict, Refusal>
    requires { (length words.now ≡ bytes / 4) × (length work.old ≡ work_size) × (length out.old ≡ output_size) }
    ensures { Shows result out.new (decided_words bytes words.now) }
{
    if !is_exact(bytes, words) {
        return Err(Refusal::Input);
    }
    let p = next_part(words, 0);
    let q = next_part(words, p);
    compliance(part(words, 0), part(words, p), part(words, q), work, out)
}

// The verdict on an input; one that is too long is not read.
fn decide_input(
    input: &[u8],
    words: &mut [u32],
    work: &mut [u32],
    out: &mut [u32],
) -> Result<Verdict, Refusal>
    requires { Buffers words.old work.old out.old }
    ensures { Shows result out.new (decided input.now) }
{
    if !is_short(input.len()) {
        return Err(Refusal::Input);
    }
    decode(input, words);
    let n = input.len() / 4;
    decide_words(input.len(), &words[..n], work, out)
}

// The program: the bytes of standard input in, the number of bytes printed out.
pub fn answer(
    input: &[u8],
    words: &mut [u32],
    work: &mut [u32],
    out: &mut [u32],
    text: &mut [u8],
) -> usize
    requires { Buffers words.old work.old out.old × (text_size ≤ length text.old) }
    ensures { (result ≤ length text.new) × (take result text.new ≡ program input.now) }
{
    let verdict = decide_input(input, words, work, out);
    put_verdict(text, out, verdict)
}
