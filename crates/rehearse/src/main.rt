// rehearse SEED CLASSES TERMS: writes the load that is drawn from a seed to standard output, as the program comply reads it.
// Which arguments come, and where the bytes go, no contract can say: `put_load` is the program as a function.
#![tactic(auto)]

ghost use Rattle.std.specs.Prelude.{◌≡◌, ◌*◌, ◌-◌, ◌≤◌, IfSome, length, take};
ghost use Rattle.rehearse.specs.Arguments.{is_digit, load_bytes, most_load, number_of};
ghost use Rattle.rehearse.specs.Delivery.{WasWritten};

use input::encode;
use meaning::limits::MOST_CLASSES;
use rehearsal::{MOST_TERMS, rehearse};
use std::env::{Env, FillError};
use std::io::Write;
use streams::write_answer;

// The words of the longest load.
const MOST_LOAD: usize = 3 + 4 * (MOST_CLASSES as usize + 1) + 12 * (3 * MOST_TERMS as usize + 1);

// The greatest number that a word holds.
const MOST_WORD: u64 = 4294967295;

// ---- the arguments

fn is_digit(b: u8) -> bool
    ensures { result ≡ is_digit b }
{
    b.is_ascii_digit()
}

fn digit(b: u8) -> u64
    requires { (48 ≤ b) × (b ≤ 57) }
    ensures { (result ≡ b - 48) × (result ≤ 9) }
{
    u64::from(b - b'0')
}

// The number that an argument is. No argument may be 0, so that stands for one that is no number, or that no word holds.
fn number(text: &[u8]) -> u32
    ensures { result ≡ number_of text.now }
{
    let mut value = 0;
    for &b in text {
        if !is_digit(b) {
            return 0;
        }
        value = 10 * value + digit(b);
        if value > MOST_WORD {
            return 0;
        }
    }
    value as u32
}

// ---- the load

// From the arguments to the bytes that are written. Where the load is refused there are none.
fn put_load(seed: &[u8], classes: &[u8], terms: &[u8], words: &mut [u32], bytes: &mut [u8]) -> usize
    requires { (length words.old ≡ most_load) × (4 * most_load ≤ length bytes.old) }
    ensures { (result ≤ length bytes.new)
        × (take result bytes.new ≡ load_bytes seed.now classes.now terms.now) }
{
    let Ok(n) = rehearse(number(seed), number(classes), number(terms), words) else {
        return 0;
    };
    encode(&words[..n], bytes)
}

// ---- the program

// An argument stands at the front of the buffer, in so many bytes; there may be no such argument. One that is longer than the buffer is
// read as none, and none is no number.
fn argument<E: Env>(rt: &E, i: usize, buffer: &mut [u8]) -> Option<usize>
    ensures { IfSome result (λ n. n ≤ length buffer.new) }
{
    match rt.arg(i, buffer) {
        Ok(n) => Some(n),
        Err(FillError::TooLong) => Some(0),
        Err(FillError::NotPresent) => None,
    }
}

fn tell_usage(rt: &impl Eprint) {
    let _ = eprintln!(rt; "usage: rehearse SEED CLASSES TERMS");
}

// A text cannot cite MOST_SEED, MOST_CLASSES and MOST_TERMS.
fn tell_refused(rt: &impl Eprint) {
    let _ = eprintln!(rt;
        "rehearse: refused 45: SEED is from 1 to 2147483646, CLASSES from 1 to 256, TERMS from 1 to 100"
    );
}

// What came of writing a load.
#[derive(Clone, Copy)]
pub enum Delivery {
    Written,
    Refused,
    Failed,
}

fn write_load<W: Write>(rt: &impl Eprint, output: &mut W, bytes: &[u8]) -> Delivery
    ensures { WasWritten (W.contents output.old) (W.contents output.new) result bytes.now }
{
    if bytes.is_empty() {
        tell_refused(rt);
        return Delivery::Refused;
    }
    match write_answer(rt, output, bytes, "rehearse: the load cannot be written") {
        Ok(()) => Delivery::Written,
        Err(_) => Delivery::Failed,
    }
}

// From the arguments to what is written, whatever the writer.
fn give_load<W: Write>(
    rt: &impl Eprint,
    seed: &[u8],
    classes: &[u8],
    terms: &[u8],
    output: &mut W,
) -> Delivery
    ensures { WasWritten (W.contents output.old) (W.contents output.new) result
        (load_bytes seed.now classes.now terms.now) }
{
    let mut words = [0u32; MOST_LOAD];
    let mut bytes = [0u8; 4 * MOST_LOAD];
    let n = put_load(seed, classes, terms, &mut words, &mut bytes);
    write_load(rt, output, &bytes[..n])
}

fn main(rt: HostRuntime) {
    let mut seed = [0u8; 16];
    let mut classes = [0u8; 16];
    let mut terms = [0u8; 16];
    let (Some(s), Some(c), Some(t), None) = (
        argument(&rt, 1, &mut seed),
        argument(&rt, 2, &mut classes),
        argument(&rt, 3, &mut terms),
        argument(&rt, 4, &mut []),
    ) else {
        tell_usage(&rt);
        return;
    };
    give_load(
        &rt,
        &seed[..s],
        &classes[..c],
        &terms[..t],
        &mut rt.stdout(),
    );
}
