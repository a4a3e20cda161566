// Reads a vocabulary and two policies from standard input, and says whether the first policy complies with the second.
#![tactic(auto)]

ghost use Rattle.comply.specs.Run.{Ran};

use meaning::limits::{MOST_BYTES, OUTPUT_SIZE, WORK_SIZE};
use std::io::{Read, Write};
use text::TEXT;

// What came of a run.
#[derive(Clone, Copy)]
enum Ending {
    Answered,
    Unread,
    Unanswered,
}

// The program, whatever it reads from and writes to.
fn run<I: Read, O: Write>(rt: &impl Eprint, input: &mut I, output: &mut O) -> Ending
    ensures { Ran (I.remaining input.old) (O.contents output.old) (O.contents output.new) result }
{
    // one byte more than the longest input, so that a longer one shows
    let mut bytes = [0u8; MOST_BYTES + 1];
    let mut words = [0u32; MOST_BYTES / 4];
    let mut work = [0u32; WORK_SIZE];
    let mut out = [0u32; OUTPUT_SIZE];
    let mut text = [0u8; TEXT];
    let Ok(n) = streams::read_input(rt, input, &mut bytes) else {
        return Ending::Unread;
    };
    let r = desk::answer(&bytes[..n], &mut words, &mut work, &mut out, &mut text);
    match streams::write_answer(
        rt,
        output,
        &text[..r],
        "comply: the answer cannot be written",
    ) {
        Ok(()) => Ending::Answered,
        Err(_) => Ending::Unanswered,
    }
}

fn main(rt: HostRuntime) {
    run(&rt, &mut rt.stdin(), &mut rt.stdout());
}
