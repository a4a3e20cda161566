// The classes above each class, and above each role's ranges, worked out once a call: the rows in front of the work slice.
#![tactic(auto)]

ghost use Rattle.std.specs.Prelude.{◌*◌, ◌+◌, ◌≤◌, true, ◌≡◌, length};
ghost use mathlib.Core.List.{foldl};
ghost use Rattle.closure.specs.Index.{Enterable, Heads, HeadsTaken, Nexts, Raisable, Raised, records};
ghost use Rattle.closure.specs.Rows.{Closed, ClosedRows, ContainsAbove, ContainsRanged, Grown, Ranged, RoleRoom, begun, emptied};
ghost use Rattle.closure.specs.Rows.{joined, lifted, row_of, widened};
ghost use Rattle.layout.specs.Places.{role_row};
ghost use Rattle.meaning.specs.Limits.{most_roles};
ghost use Rattle.meaning.specs.Vocabulary.{axiom_at, axiom_fits, class_count, role_count, vocabulary_of, vocabulary_refusal};
ghost use Rattle.words.specs.Rows.{class_words};

use layout::{ROLE_ROWS, row_at};
use meaning::limits::{MOST_AXIOMS, MOST_CLASSES};
use meaning::{ClassNo, RoleNo};
use vocabulary::{Axiom, axiom_at, axiom_next, axiom_right, class_count, first_axiom, role_count};
use words::{ClassSet, place};

fn row(work: &[u32], i: u32) -> ClassSet
    requires { (1 ≤ i) × (i * class_words ≤ length work.now) }
    ensures { result.words ≡ row_of work.now i }
{
    ClassSet::load(work, row_at(i))
}

// Row i takes in row j; whether it grew.
fn join(work: &mut [u32], i: u32, j: u32) -> bool
    requires { (1 ≤ i) × (1 ≤ j) × (i * class_words ≤ length work.old) × (j * class_words ≤ length work.old) }
    ensures work_after { work.new ≡ joined work.old i j }
    ensures grown { Grown result work.old work.new }
{
    let lower = row(work, i);
    let upper = row(work, j);
    if lower.covers(upper) {
        return false;
    }
    lower.union(upper).store(work, row_at(i));
    true
}

// Each class is above itself.
fn begin(work: &mut [u32], n: u32)
    requires { n * class_words ≤ length work.old }
    ensures { work.new ≡ begun n work.old }
{
    for c in 1..=n {
        ClassSet::new().with(ClassNo(c)).store(work, row_at(c));
    }
}

// What record k says, where it says that a class is below another; whether a row grew.
fn lift(v: &[u32], work: &mut [u32], k: u32) -> bool
    requires { (axiom_fits v.now k ≡ true) × (class_count v.now * class_words ≤ length work.old) }
    ensures work_after { work.new ≡ lifted work.old (axiom_at v.now k) }
    ensures grown { Grown result work.old work.new }
{
    let Some(Axiom::Below(a, b)) = axiom_at(v, k) else {
        return false;
    };
    join(work, a.0, b.0)
}

// One pass over the records, in the chain's order; whether a row grew.
fn pass(v: &[u32], work: &mut [u32]) -> bool
    requires { (vocabulary_refusal v.now ≡ 0) × (class_count v.now * class_words ≤ length work.old) }
    ensures work_after { work.new ≡ foldl lifted work.old (vocabulary_of v.now).axioms }
    ensures grown { Grown result work.old work.new }
{
    let mut grown = false;
    let mut k = first_axiom(v);
    // The chain of records ends at 0, which a record's own word says.
    while k != 0 {
        if lift(v, work, k) {
            grown = true;
        }
        k = axiom_next(v, k);
    }
    grown
}

// A head for each class, and a next for each record that a vocabulary may have: both count from 1.
// 0 is none, as it ends the records' chain: an Option would take twice the stack.
const HEADS: usize = MOST_CLASSES as usize + 1;

const NEXTS: usize = MOST_AXIOMS + 1;

// Record k becomes the head of its class, where it says that the class is below another.
fn enter(v: &[u32], heads: &mut [u32; HEADS], next: &mut [u32; NEXTS], k: u32)
    requires { Enterable v.now heads.old next.old k }
    ensures { Heads v.now heads.new (k + 1) × Nexts v.now next.new }
{
    let Some(Axiom::Below(a, _)) = axiom_at(v, k) else {
        return;
    };
    let at = place(a.0);
    next[place(k)] = heads[at];
    heads[at] = k;
}

// The records that put a class below another, class by class: a class's head is its last one in the chain, and a record's next the
// one before.
fn index(v: &[u32], heads: &mut [u32; HEADS], next: &mut [u32; NEXTS])
    requires { (vocabulary_refusal v.now ≡ 0) × Heads v.now heads.old 0 × Nexts v.now next.old }
    ensures { Heads v.now heads.new records × Nexts v.now next.new }
{
    let mut k = first_axiom(v);
    while k != 0 {
        enter(v, heads, next, k);
        k = axiom_next(v, k);
    }
}

// Row c takes in the rows of the classes that its records put it below, after they are raised. A class's head is taken when the class
// is met: so none is met twice, and a cycle ends.
fn raise(v: &[u32], work: &mut [u32], heads: &mut [u32; HEADS], next: &[u32; NEXTS], c: u32)
    requires { Raisable v.now work.old heads.old next.now c }
    ensures raised { Raised v.now work.old work.new }
    ensures heads_taken { HeadsTaken v.now heads.old heads.new }
{
    let at = place(c);
    let mut k = heads[at];
    heads[at] = 0;
    while k != 0 {
        // Each record of the index puts its first class below its second: only the second is asked here.
        raise(v, work, heads, next, axiom_right(v, k));
        lift(v, work, k);
        k = next[place(k)];
    }
}

// Raises each class's row, the upper first, whatever the records' order: without a cycle nothing is left to the passes. Without a record
// nothing is raised.
fn raise_all(v: &[u32], work: &mut [u32])
    requires { (vocabulary_refusal v.now ≡ 0) × (class_count v.now * class_words ≤ length work.old) }
    ensures { Raised v.now work.old work.new }
{
    if first_axiom(v) == 0 {
        return;
    }
    let mut heads = [0; HEADS];
    let mut next = [0; NEXTS];
    index(v, &mut heads, &mut next);
    for c in 1..=class_count(v) {
        raise(v, work, &mut heads, &next, c);
    }
}

// Writes the rows of the classes, then makes passes until one changes nothing. Time grows with passes, records and words of a set: one
// pass where the records have no cycle, at worst as many as classes.
pub fn close(v: &[u32], work: &mut [u32])
    requires { (vocabulary_refusal v.now ≡ 0) × (class_count v.now * class_words ≤ length work.old) }
    ensures { Closed v.now work.old work.new }
{
    begin(work, class_count(v));
    raise_all(v, work);
    while pass(v, work) {}
}

// The classes above c.
pub fn above(work: &[u32], c: ClassNo) -> ClassSet
    requires { (1 ≤ c.0) × (c.0 * class_words ≤ length work.now) }
    ensures words_value { result.words ≡ row_of work.now c.0 }
    ensures contains_above { ContainsAbove work.now c.0 result.words }
{
    row(work, c.0)
}

// No class is above a range.
fn empty_ranges(work: &mut [u32], n: u32)
    requires { (n ≤ most_roles) × (role_row n * class_words ≤ length work.old) }
    ensures { work.new ≡ emptied n work.old }
{
    for r in 1..=n {
        ClassSet::new().store(work, row_at(ROLE_ROWS + r));
    }
}

// What record k says, where it says that a class is a range of a role: what is above the class is above the range.
fn widen(v: &[u32], work: &mut [u32], k: u32)
    requires { (axiom_fits v.now k ≡ true) × RoleRoom v.now work.old }
    ensures { work.new ≡ widened work.old (axiom_at v.now k) }
{
    let Some(Axiom::Range(r, c)) = axiom_at(v, k) else {
        return;
    };
    join(work, ROLE_ROWS + r.0, c.0);
}

// Writes the rows of the roles from those of the classes, by one walk over the records.
pub fn close_ranges(v: &[u32], work: &mut [u32])
    requires v_value { vocabulary_refusal v.now ≡ 0 }
    requires closed_rows { ClosedRows v.now work.old × (role_row (role_count v.now) * class_words ≤ length work.old) }
    ensures { Ranged v.now work.old work.new }
{
    empty_ranges(work, role_count(v));
    let mut k = first_axiom(v);
    while k != 0 {
        widen(v, work, k);
        k = axiom_next(v, k);
    }
}

// The classes above the ranges of r: what every value of r is in.
pub fn range_above(work: &[u32], r: RoleNo) -> ClassSet
    requires { (r.0 ≤ most_roles) × (role_row r.0 * class_words ≤ length work.now) }
    ensures words_value { result.words ≡ row_of work.now (role_row r.0) }
    ensures contains_ranged { ContainsRanged work.now r.0 result.words }
{
    row(work, ROLE_ROWS + r.0)
}
