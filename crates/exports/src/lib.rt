// The operations for C: gimbuka.h says how each is called. A function returns the kind of answer and writes the answer's values through
// references. Kind 0 is a refusal, with its number.
#![tactic(auto)]

ghost use Rattle.exports.specs.Codes.{Coded, CodedComparison, CodedFilling, CodedVerdict, ComplianceCoded, EqualityCoded};
ghost use Rattle.exports.specs.Codes.{ModelCheckCoded, OwlCoded, PossibleCoded, RehearseCoded, SpellCoded, check_code, possibility_code, reading_code};
ghost use Rattle.meaning.specs.Answers.{checked_answer, comparison_answer, filling_answer, possibility_answer, reading_answer, verdict_answer};
ghost use Rattle.meaning.specs.Operations.{read_policy, read_second_policy, read_vocabulary};

use containment::{compliance, possible};
use equality::equality;
use meaning::refusals::Refusal;
use meaning::{Comparison, Verdict};
use model_check::model_check;
use owl::read_owl;
use policy::{read_policy, read_second_policy};
use rehearsal::rehearse;
use spell::spell;
use vocabulary::read_vocabulary;

fn reading(r: Result<(), Refusal>, number: &mut u32) -> u32
    ensures { Coded (reading_code (reading_answer r)) result number.new }
{
    match r {
        Ok(()) => {
            *number = 0;
            1
        }
        Err(e) => {
            *number = e.number();
            0
        }
    }
}

fn possibility(r: Result<Option<u32>, Refusal>, number: &mut u32) -> u32
    ensures { Coded (possibility_code (possibility_answer r)) result number.new }
{
    match r {
        Ok(Some(s)) => {
            *number = s;
            1
        }
        Ok(None) => {
            *number = 0;
            2
        }
        Err(e) => {
            *number = e.number();
            0
        }
    }
}

fn verdict(
    r: Result<Verdict, Refusal>,
    number: &mut u32,
    combination: &mut u32,
    words: &mut usize,
) -> u32
    ensures { CodedVerdict (verdict_answer r) result number.new combination.new words.new }
{
    *number = 0;
    *combination = 0;
    *words = 0;
    match r {
        Ok(Verdict::Compliant) => 1,
        Ok(Verdict::Outside(s, q, n)) => {
            *number = s;
            *combination = q;
            *words = n;
            2
        }
        Err(e) => {
            *number = e.number();
            0
        }
    }
}

fn comparison(
    r: Result<Comparison, Refusal>,
    number: &mut u32,
    term: &mut u32,
    combination: &mut u32,
    words: &mut usize,
) -> u32
    ensures { CodedComparison (comparison_answer r) result number.new term.new
        combination.new words.new }
{
    *number = 0;
    *term = 0;
    *combination = 0;
    *words = 0;
    match r {
        Ok(Comparison::Equal) => 1,
        Ok(Comparison::Differs(side, s, q, n)) => {
            *number = side;
            *term = s;
            *combination = q;
            *words = n;
            2
        }
        Err(e) => {
            *number = e.number();
            0
        }
    }
}

fn checked(r: Result<bool, Refusal>, number: &mut u32) -> u32
    ensures { Coded (check_code (checked_answer r)) result number.new }
{
    *number = 0;
    match r {
        Ok(true) => 1,
        Ok(false) => 2,
        Err(e) => {
            *number = e.number();
            0
        }
    }
}

fn filling(r: Result<usize, Refusal>, number: &mut u32, words: &mut usize) -> u32
    ensures { CodedFilling (filling_answer r) result number.new words.new }
{
    match r {
        Ok(n) => {
            *number = 0;
            *words = n;
            1
        }
        Err(e) => {
            *number = e.number();
            *words = 0;
            0
        }
    }
}

// Read vocabulary: 1 accepted.
#[unsafe(no_mangle)]
pub extern "C" fn gimbuka_read_vocabulary(v: &[u32], number: &mut u32) -> u32
    ensures { Coded (reading_code (read_vocabulary v.now)) result number.new }
{
    reading(read_vocabulary(v), number)
}

// Read policy: 1 accepted.
#[unsafe(no_mangle)]
pub extern "C" fn gimbuka_read_policy(v: &[u32], p: &[u32], number: &mut u32) -> u32
    ensures { Coded (reading_code (read_policy v.now p.now)) result number.new }
{
    reading(read_policy(v, p), number)
}

// Read policy with the numbers of a second policy: 1 accepted.
#[unsafe(no_mangle)]
pub extern "C" fn gimbuka_read_second_policy(v: &[u32], q: &[u32], number: &mut u32) -> u32
    ensures { Coded (reading_code (read_second_policy v.now q.now)) result number.new }
{
    reading(read_second_policy(v, q), number)
}

// Possible: 1 with the first possible term, 2 impossible.
#[unsafe(no_mangle)]
pub extern "C" fn gimbuka_possible(v: &[u32], p: &[u32], work: &mut [u32], number: &mut u32) -> u32
    ensures { PossibleCoded v.now p.now work.old work.new result number.new }
{
    possibility(possible(v, p, work), number)
}

// Compliance: 1 compliant; 2 outside, with term, combination and the words written.
#[unsafe(no_mangle)]
pub extern "C" fn gimbuka_compliance(
    v: &[u32],
    p: &[u32],
    q: &[u32],
    work: &mut [u32],
    out: &mut [u32],
    number: &mut u32,
    combination: &mut u32,
    words: &mut usize,
) -> u32
    ensures { ComplianceCoded v.now p.now q.now work.old work.new
        out.old out.new result number.new combination.new words.new }
{
    verdict(compliance(v, p, q, work, out), number, combination, words)
}

// Equality: 1 equal; 2 different, with side, term, combination and the words written.
#[unsafe(no_mangle)]
pub extern "C" fn gimbuka_equality(
    v: &[u32],
    p: &[u32],
    q: &[u32],
    work: &mut [u32],
    out: &mut [u32],
    number: &mut u32,
    term: &mut u32,
    combination: &mut u32,
    words: &mut usize,
) -> u32
    ensures { EqualityCoded v.now p.now q.now work.old work.new
        out.old out.new result number.new term.new combination.new words.new }
{
    comparison(
        equality(v, p, q, work, out),
        number,
        term,
        combination,
        words,
    )
}

// Model check: 1 yes, 2 no.
#[unsafe(no_mangle)]
pub extern "C" fn gimbuka_model_check(
    v: &[u32],
    p: &[u32],
    q: &[u32],
    m: &[u32],
    work: &mut [u32],
    number: &mut u32,
) -> u32
    ensures { ModelCheckCoded v.now p.now q.now m.now
        work.old work.new result number.new }
{
    checked(model_check(v, p, q, m, work), number)
}

// Read OWL: 1 with the words written.
#[unsafe(no_mangle)]
pub extern "C" fn gimbuka_read_owl(
    text: &[u8],
    out: &mut [u32],
    number: &mut u32,
    words: &mut usize,
) -> u32
    ensures { OwlCoded text.now out.old out.new result number.new words.new }
{
    filling(read_owl(text, out), number, words)
}

// Spell: 1 with the words written.
#[unsafe(no_mangle)]
pub extern "C" fn gimbuka_spell(
    v: &[u32],
    p: &[u32],
    work: &mut [u32],
    out: &mut [u32],
    number: &mut u32,
    words: &mut usize,
) -> u32
    ensures { SpellCoded v.now p.now work.old work.new
        out.old out.new result number.new words.new }
{
    filling(spell(v, p, work, out), number, words)
}

// Rehearse: 1 with the words written.
#[unsafe(no_mangle)]
pub extern "C" fn gimbuka_rehearse(
    seed: u32,
    classes: u32,
    terms: u32,
    out: &mut [u32],
    number: &mut u32,
    words: &mut usize,
) -> u32
    ensures { RehearseCoded seed classes terms out.old out.new result number.new words.new }
{
    filling(rehearse(seed, classes, terms, out), number, words)
}
