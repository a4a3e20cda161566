// The operation Rehearse: a load of a vocabulary and two policies, drawn from a seed, as the program reads them.
#![tactic(auto)]

ghost use Rattle.std.specs.Prelude.{cond, [], ◌≡◌, ◌*◌, ◌+◌, ◌-◌, ◌<◌, ◌≤◌, eqb, length};
ghost use Rattle.meaning.specs.Limits.{most_classes};
ghost use Rattle.meaning.specs.PolicyWords.{chain_words, policy_words, record_words, term_words};
ghost use Rattle.meaning.specs.Records.{Name, chained_words};
ghost use Rattle.meaning.specs.Vocabulary.{axiom_words};
ghost use Rattle.rehearsal.specs.Drawing.{Drawn, Drawable, load_size};
ghost use Rattle.rehearsal.specs.Load.{RehearsePost, advance, advance_by, counted, draw, is_load, load_policy, load_term, load_vocabulary};
ghost use Rattle.rehearsal.specs.Load.{most_terms, vocabulary_part};

use meaning::limits::MOST_CLASSES;
use meaning::refusals::Refusal;
use meaning::{ClassNo, FeatureNo};
use records::{is_name, put_record, put_word};
use words::place;

// The greatest seed, one less than the modulus.
pub const MOST_SEED: u32 = 2147483646;

// The most terms of a policy.
pub const MOST_TERMS: u32 = 100;

// The one feature.
const FEATURE: FeatureNo = FeatureNo(1);

// Where the next word goes, and the seed that the next draw moves.
#[derive(Clone, Copy)]
pub struct Cursor {
    pub at: usize,
    pub seed: u32,
}

impl Cursor {
    // A draw moves the seed, which is then reduced: the generator of Park and Miller, with the numbers of C++'s minstd_rand.
    #[tactic(auto, unfolding(crate::specs::Load::advance))]
    fn draw(&mut self, n: u32) -> u32
        requires { 0 < n }
        ensures value { result ≡ draw self.old.seed n }
        ensures at { self.new.at ≡ self.old.at }
        ensures seed { self.new.seed ≡ advance self.old.seed }
    {
        self.seed = (48271 * u64::from(self.seed) % 2147483647) as u32;
        self.seed % n
    }

    // One of n classes.
    fn draw_class(&mut self, n: u32) -> ClassNo
        requires { Name most_classes n }
        ensures value { result.0 ≡ 1 + draw self.old.seed n }
        ensures at { self.new.at ≡ self.old.at }
        ensures seed { self.new.seed ≡ advance self.old.seed }
    {
        ClassNo(1 + self.draw(n))
    }
}

// ---- the vocabulary

// Its records. Class k, from 2 to n, is below one that is drawn from those before it; its record is k - 1 and links to record k. The last
// record makes the feature functional.
fn put_axioms(out: &mut [u32], c: Cursor, n: u32) -> Cursor
    requires { Name most_classes n × (c.at + 4 * n ≤ length out.old) }
    ensures { Drawn out.old c (chained_words axiom_words 1 (load_vocabulary c.seed n).axioms)
        (advance_by (n - 1) c.seed) out.new result }
{
    let mut cursor = c;
    for k in 2..n + 1 {
        let above = cursor.draw_class(k - 1);
        cursor.at = put_record(out, cursor.at, [1, k, above.0, k]);
    }
    cursor.at = put_record(out, cursor.at, [4, FEATURE.0, 0, 0]);
    cursor
}

// Its part, the first: its words behind their count.
fn put_vocabulary(out: &mut [u32], seed: u32, n: u32) -> Cursor
    requires { Name most_classes n × (1 + 4 * (n + 1) ≤ length out.old) }
    ensures { Drawn out.old (record { at = 0; seed = seed }) (counted (vocabulary_part seed n))
        (advance_by (n - 1) seed) out.new result }
{
    put_word(out, 0, 4 * (n + 1));
    let at = put_record(out, 1, [n, 0, 1, 1]);
    put_axioms(out, Cursor { at, seed }, n)
}

// ---- a policy

// A term from record k on, its class and its interval behind it; next is the record of the term after it.
fn put_term(out: &mut [u32], c: Cursor, n: u32, k: u32, next: u32) -> Cursor
    requires { Name most_classes n × (c.at + 18 ≤ length out.old) × (k ≤ 3 * most_terms) }
    ensures { Drawn out.old c (record_words 5 0 0 0 (k + 1) next (chain_words (k + 1) (load_term c.seed n) []))
        (advance_by 3 c.seed) out.new result }
{
    let mut cursor = c;
    let class = cursor.draw_class(n);
    let lo = cursor.draw(100);
    let hi = lo + cursor.draw(100);
    let class_at = put_record(out, c.at, [5, 0, 0, 0, k + 1, next]);
    let interval_at = put_record(out, class_at, [1, class.0, 0, 0, 0, k + 2]);
    cursor.at = put_record(out, interval_at, [4, FEATURE.0, lo, hi, 0, 0]);
    cursor
}

// The record of the term after term t of m, counted from 0; the last has none.
fn next_term(t: u32, m: u32) -> u32
    requires { t < most_terms }
    ensures { result ≡ cond (eqb (t + 1) m) 0 (3 * t + 4) }
{
    if t + 1 == m { 0 } else { 3 * t + 4 }
}

// Its terms, from record 1 on.
fn put_terms(out: &mut [u32], c: Cursor, n: u32, m: u32) -> Cursor
    requires { Drawable out.old c (18 * m) n m }
    ensures { Drawn out.old c (term_words 1 (load_policy c.seed n m))
        (advance_by (3 * m) c.seed) out.new result }
{
    let mut cursor = c;
    for t in 0..m {
        cursor = put_term(out, cursor, n, 3 * t + 1, next_term(t, m));
    }
    cursor
}

// Its part: its words behind their count.
fn put_policy(out: &mut [u32], c: Cursor, n: u32, m: u32) -> Cursor
    requires { Drawable out.old c (1 + 6 * (3 * m + 1)) n m }
    ensures { Drawn out.old c (counted (policy_words (load_policy c.seed n m)))
        (advance_by (3 * m) c.seed) out.new result }
{
    let from = c.at;
    let seed = c.seed;
    put_word(out, from, 6 * (3 * m + 1));
    let at = put_record(out, from + 1, [1, 0, 0, 0, 0, 0]);
    put_terms(out, Cursor { at, seed }, n, m)
}

// ---- the operation

fn is_load(seed: u32, classes: u32, terms: u32) -> bool
    ensures { result ≡ is_load seed classes terms }
{
    is_name(MOST_SEED, seed) && (is_name(MOST_CLASSES, classes) && is_name(MOST_TERMS, terms))
}

// How many words a load takes.
fn size(classes: u32, terms: u32) -> usize
    requires { (classes ≤ most_classes) × (terms ≤ most_terms) }
    ensures { result ≡ load_size classes terms }
{
    3 + 4 * (place(classes) + 1) + 12 * (3 * place(terms) + 1)
}

// Rehearse. The time grows with the words that are written.
pub fn rehearse(seed: u32, classes: u32, terms: u32, out: &mut [u32]) -> Result<usize, Refusal>
    ensures { RehearsePost seed classes terms out.old out.new result }
{
    if !is_load(seed, classes, terms) {
        return Err(Refusal::Load);
    }
    let words = size(classes, terms);
    if out.len() < words {
        return Err(Refusal::Output);
    }
    let first = put_vocabulary(out, seed, classes);
    let second = put_policy(out, first, classes, terms);
    put_policy(out, second, classes, terms);
    Ok(words)
}
