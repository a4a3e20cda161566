// The program's output: the lines that it prints.
#![tactic(auto)]

ghost use Rattle.std.specs.Prelude.{◌∷◌, ◌*◌, ◌+◌, ◌<◌, ◌≤◌, length};
ghost use Rattle.meaning.specs.Lists.{flat_map};
ghost use Rattle.meaning.specs.Model.{fact_at};
ghost use Rattle.meaning.specs.Program.{decimal, fact_line, line, printed};
ghost use Rattle.frames.specs.Rows.{Put};
ghost use Rattle.text.specs.Text.{Reported, most_line, records_to, shown, text_size};

use meaning::Verdict;
use meaning::refusals::Refusal;
use printing::{put_byte, put_decimal, put_name};
use records::word;

// The bytes of a text that every answer fits in.
pub const TEXT: usize = 41 * 3277;

// A space and a number.
fn put_number(text: &mut [u8], at: usize, n: u32) -> usize
    requires { at + 11 ≤ length text.old }
    ensures put { Put text.old at (32 ∷ decimal n) text.new result }
    ensures upper_bound { result ≤ at + 11 }
{
    let next = put_byte(text, at, b' ');
    put_decimal(text, next, n)
}

// A name, numbers with a space before each, and a line feed.
fn put_line(text: &mut [u8], at: usize, name: &[u8], numbers: &[u32]) -> usize
    requires { at + (length name.now + 11 * length numbers.now + 1) ≤ length text.old }
    ensures put { Put text.old at (line name.now numbers.now) text.new result }
    ensures upper_bound { result ≤ at + (length name.now + 11 * length numbers.now + 1) }
{
    let mut next = put_name(text, at, name);
    for &n in numbers {
        next = put_number(text, next, n);
    }
    put_byte(text, next, b'\n')
}

// Record k of a model's words.
fn put_fact(text: &mut [u8], at: usize, out: &[u32], k: usize) -> usize
    requires { (at + most_line ≤ length text.old) × (k ≤ 4294967296) }
    ensures put { Put text.old at (fact_line (fact_at out.now k)) text.new result }
    ensures upper_bound { result ≤ at + most_line }
{
    let kind = word(out, 5 * k);
    let name = word(out, 5 * k + 1);
    let owner = word(out, 5 * k + 2);
    let other = word(out, 5 * k + 3);
    match kind {
        1 => put_line(text, at, b"member", &[name, owner]),
        2 => put_line(text, at, b"edge", &[name, owner, other]),
        _ => put_line(text, at, b"value", &[name, owner, other]),
    }
}

// Records 1 to n.
fn put_facts(text: &mut [u8], at: usize, out: &[u32], n: usize) -> usize
    requires { (at + most_line * n ≤ length text.old) × (n < 4294967296) }
    ensures { Put text.old at (flat_map fact_line (records_to out.now n)) text.new result }
{
    let mut next = at;
    for k in 0..n {
        next = put_fact(text, next, out, k + 1);
    }
    next
}

fn put_outside(text: &mut [u8], out: &[u32], s: u32, q: u32, n: usize) -> usize
    requires { (text_size ≤ length text.old) × Reported (Ok (Verdict.Outside s q n)) out.now }
    ensures { Put text.old 0 (printed (shown (Ok (Verdict.Outside s q n)) out.now))
        text.new result }
{
    let next = put_line(text, 0, b"outside", &[s, q]);
    put_facts(text, next, out, n / 5 - 1)
}

// The answer's line and, where it reports a countermodel, a line for each of its records.
pub fn put_verdict(text: &mut [u8], out: &[u32], verdict: Result<Verdict, Refusal>) -> usize
    requires { (text_size ≤ length text.old) × Reported verdict out.now }
    ensures { Put text.old 0 (printed (shown verdict out.now)) text.new result }
{
    match verdict {
        Ok(Verdict::Compliant) => put_line(text, 0, b"compliant", &[]),
        Ok(Verdict::Outside(s, q, n)) => put_outside(text, out, s, q, n),
        Err(e) => put_line(text, 0, b"refused", &[e.number()]),
    }
}
