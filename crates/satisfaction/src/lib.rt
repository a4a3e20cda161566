// Satisfaction: whether the interpretation that a model's words stand for satisfies the vocabulary.
//
// The tables that the model check keeps in the work slice, one after another. A set of classes takes 8 words, and 10 at 320 classes.
//
//     table                                        entries    words    from at 256 classes    from at 320 classes
//     the classes of an individual                     512   8 / 10                      0                      0
//     the classes of all targets of a role              64   8 / 10                  4,096                  5,120
//     what an individual has two values of             128    1 bit                  4,608                  5,760
//     the record that first gave a value       512 times 16        1                  4,612                  5,764
//     the end of these                                                              12,804                 13,956
//     the policy's records that hold of an individual  512       16                  4,612                  5,764
//     how deep the chain from a policy's record is     513        1                 12,804                 13,956
//     the end of these, of 16,384                                                   13,317                 14,469
//
// The records of first values are needed no more when the sets of a policy's records are put in their place. The facts are walked over once
// for the classes; once for the ranges, when a record of the vocabulary first states one; and, after all records, once for each block of 16
// roles and features in one series, which begins with the first functional one that the block before did not reach: at most ten times,
// whatever the number of records. What is stated is then one bit or, for a pair of classes, a look at each individual.
#![tactic(auto)]

ghost use Rattle.std.specs.Prelude.{◌≡◌, not, List, ◌*◌, ◌+◌, ◌<◌, ◌≤◌, ℕ, length, unwrap_or};
ghost use Rattle.frames.specs.Frames.{Cleared};
ghost use Rattle.functional.specs.FunctionalNames.{FunctionalNames};
ghost use Rattle.meaning.specs.Limits.{most_individuals, most_roles, work_size};
ghost use Rattle.meaning.specs.Lists.{all, counting};
ghost use Rattle.meaning.specs.Model.{fact_at, facts_of, individual_count};
ghost use Rattle.meaning.specs.Records.{Name};
ghost use Rattle.meaning.specs.Vocabulary.{axiom_at, vocabulary_of, vocabulary_refusal};
ghost use Rattle.model.specs.Chain.{Readable, Stated};
ghost use Rattle.satisfaction.specs.Classes.{AllEntered, Interpreted, Satisfied, entered, follows};
ghost use Rattle.satisfaction.specs.Holding.{Askable, NumbersHeld, RecordsHeld, is_functional_number, is_held};
ghost use Rattle.satisfaction.specs.Links.{BlockCompared, Comparable, Compared, Telling, number_of};
ghost use Rattle.satisfaction.specs.Places.{block_size, class_place, classes_of, clashes_of, put_in, range_place, range_words};
ghost use Rattle.satisfaction.specs.Places.{ranges_of, series_count, value_place};
ghost use Rattle.satisfaction.specs.Ranges.{Intersected, Narrowed, Opened, RangedIf, RangesMade};
ghost use Rattle.words.specs.Rows.{class_words};
ghost use Rattle.words.specs.Sets.{in_set};

use frames::clear;
use functional::Functional;
use meaning::limits::{MOST_FEATURES, MOST_INDIVIDUALS, MOST_RECORDS, MOST_ROLES};
use meaning::{ClassNo, FeatureNo, RoleNo};
use model::{
    fact_kind, fact_name, fact_next, fact_other, fact_owner, first_fact, individual_count,
};
use records::is_name;
use vocabulary::{Axiom, axiom_at, axiom_next, first_axiom};
use words::{ClassSet, has, insert, place};

const INDIVIDUALS: usize = MOST_INDIVIDUALS as usize;

const RANGES: usize = INDIVIDUALS * ClassSet::WORDS;

const RANGE_WORDS: usize = MOST_ROLES as usize * ClassSet::WORDS;

// Roles and features in one series.
const SERIES: u32 = MOST_ROLES + MOST_FEATURES;

const CLASHES: usize = RANGES + RANGE_WORDS;

const CLASH_WORDS: usize = SERIES as usize / 32;

// How many numbers of the series one walk looks at.
const BLOCK_SIZE: u32 = 16;

const BLOCK: usize = BLOCK_SIZE as usize;

const VALUES: usize = CLASHES + CLASH_WORDS;

// The sets of a policy's records, which crate extension makes where the values stood: how many words each takes, and what follows them.
pub const SETS: usize = VALUES;

pub const SET_WORDS: usize = MOST_RECORDS / 32;

pub const HEIGHTS: usize = SETS + INDIVIDUALS * SET_WORDS;

// Puts x into the set of n words at a place.
pub fn put(work: &mut [u32], at: usize, n: usize, x: u32)
    requires { at + n ≤ length work.old }
    ensures { work.new ≡ put_in n work.old at x }
{
    let end = at + n;
    insert(&mut work[at..end], x);
}

// A row of n words for each individual of the model becomes 0, from a place on.
fn clear_rows(m: &[u32], work: &mut [u32], at: usize, n: usize)
    requires { at + individual_count m.now * n ≤ length work.old }
    ensures { Cleared at (individual_count m.now * n) work.old work.new }
{
    clear(work, at, place(individual_count(m)) * n);
}

// Where the set of individual i's classes starts.
fn class_place(i: u32) -> usize
    requires { Name most_individuals i }
    ensures { result ≡ class_place i }
{
    place(i - 1) * ClassSet::WORDS
}

// Whether individual i is in class c.
pub fn is_member(work: &[u32], i: u32, c: ClassNo) -> bool
    requires { Name most_individuals i × (work_size ≤ length work.now) }
    ensures { result ≡ in_set (classes_of work.now i) c.0 }
{
    ClassSet::has_at(work, class_place(i), c)
}

// What record f says, where it says that an individual is in a class.
fn enter(m: &[u32], work: &mut [u32], f: u32)
    requires { Stated m.now f × Readable m.now × (work_size ≤ length work.old) }
    ensures { work.new ≡ entered work.old (fact_at m.now f) }
{
    if fact_kind(m, f) != 1 {
        return;
    }
    let at = class_place(fact_owner(m, f));
    put(work, at, ClassSet::WORDS, fact_name(m, f));
}

// The classes of every individual, by one walk over the records.
fn enter_all(m: &[u32], work: &mut [u32])
    requires { Readable m.now × (work_size ≤ length work.old) }
    ensures { AllEntered m.now work.old work.new }
{
    clear_rows(m, work, 0, ClassSet::WORDS);
    let mut f = first_fact(m);
    // The chain of records ends at 0, which a record's own word says.
    while f != 0 {
        enter(m, work, f);
        f = fact_next(m, f);
    }
}

// Whether individual i, where it is in class a, is in class b, or with `apart` is not.
fn does_follow(work: &[u32], i: u32, a: ClassNo, b: ClassNo, apart: bool) -> bool
    requires { Name most_individuals i × (work_size ≤ length work.now) }
    ensures { result ≡ follows work.now a.0 b.0 apart i }
{
    !is_member(work, i, a) || is_member(work, i, b) != apart
}

// Whether each of n individuals does.
fn do_follow(work: &[u32], n: u32, a: ClassNo, b: ClassNo, apart: bool) -> bool
    requires { (n ≤ most_individuals) × (work_size ≤ length work.now) }
    ensures { result ≡ all (follows work.now a.0 b.0 apart) (counting 1 n) }
{
    (0..n).all(|i| does_follow(work, i + 1, a, b, apart))
}

// Where the set of role r's classes starts: those that every target of its edges has.
fn range_place(r: RoleNo) -> usize
    requires { Name most_roles r.0 }
    ensures { result ≡ range_place r.0 }
{
    RANGES + place(r.0 - 1) * ClassSet::WORDS
}

// While no edge was seen, the targets of each role have every class.
fn open_ranges(work: &mut [u32])
    requires { work_size ≤ length work.old }
    ensures { Opened range_words work.old work.new }
{
    work[RANGES..CLASHES].fill(u32::MAX);
}

// Leaves those classes in the set at a place that the set at an earlier one has. No branch, so that it is done in a few wide steps.
fn intersect(work: &mut [u32], at: usize, from: usize)
    requires { (from + class_words ≤ at) × (at + class_words ≤ length work.old) }
    ensures { Intersected class_words at from work.old work.new }
{
    // By index: both rows stand in the middle of one slice.
    for i in 0..ClassSet::WORDS {
        work[at + i] &= work[from + i];
    }
}

// What record f leaves of its role's set, where it is an edge: the classes of its target. A role past the most is in no vocabulary.
fn narrow(m: &[u32], work: &mut [u32], f: u32)
    requires { Stated m.now f × Interpreted m.now work.old }
    ensures { Narrowed m.now work.old work.new (fact_at m.now f) }
{
    if fact_kind(m, f) != 2 {
        return;
    }
    let r = fact_name(m, f);
    if !is_name(MOST_ROLES, r) {
        return;
    }
    let target = fact_other(m, f);
    intersect(work, range_place(RoleNo(r)), class_place(target));
}

// Makes the sets of all roles, by one walk over the records, for the first record that states a range; the answer is whether they are made.
fn make_ranges(m: &[u32], work: &mut [u32], made: bool, stated: Option<Axiom>) -> bool
    requires { RangedIf made m.now work.old }
    ensures { RangesMade stated m.now work.old work.new result }
{
    if made {
        return true;
    }
    let Some(Axiom::Range(..)) = stated else {
        return false;
    };
    open_ranges(work);
    let mut f = first_fact(m);
    while f != 0 {
        narrow(m, work, f);
        f = fact_next(m, f);
    }
    true
}

// Whether every edge of role r leads into class c.
fn is_range(work: &[u32], r: RoleNo, c: ClassNo) -> bool
    requires { Name most_roles r.0 × (work_size ≤ length work.now) }
    ensures { result ≡ in_set (ranges_of work.now r.0) c.0 }
{
    ClassSet::has_at(work, range_place(r), c)
}

// The number of what record f is of, where roles and features are one series, the features after the roles; none for a class and for a
// name past the most, which no vocabulary has.
fn series_number(m: &[u32], f: u32) -> Option<u32>
    requires { Stated m.now f }
    ensures { unwrap_or result 0 ≡ number_of (fact_at m.now f) }
{
    let kind = fact_kind(m, f);
    let a = fact_name(m, f);
    match kind {
        2 if is_name(MOST_ROLES, a) => Some(a),
        3 if is_name(MOST_FEATURES, a) => Some(MOST_ROLES + a),
        _ => None,
    }
}

// Where the record is noted that first gave individual i a value of a block's number n, from 0 on.
fn value_place(i: u32, n: u32) -> usize
    requires { Name most_individuals i × (n < block_size) }
    ensures { result ≡ value_place i n }
{
    VALUES + place(i - 1) * BLOCK + place(n)
}

// Holds record f, where its number is of the block, to the first of the same number and individual: a second value is a clash.
fn compare(m: &[u32], work: &mut [u32], f: u32, base: u32)
    requires { Stated m.now f × Comparable m.now work.old f base (number_of (fact_at m.now f)) }
    ensures { Compared m.now base work.old work.new f (number_of (fact_at m.now f)) }
{
    let Some(u) = series_number(m, f) else {
        return;
    };
    if u <= base {
        return;
    }
    if base + BLOCK_SIZE < u {
        return;
    }
    let at = value_place(fact_owner(m, f), u - base - 1);
    let first = work[at];
    let before = fact_other(m, first);
    if first == 0 {
        work[at] = f;
        return;
    }
    if before != fact_other(m, f) {
        put(work, CLASHES, CLASH_WORDS, u);
    }
}

// Finds the numbers of the block behind `base` with which an individual has two values, by one walk over the records. Where the next number
// is not behind `end`, up to which they are known, there is nothing to do; the answer is the new end.
fn compare_block(m: &[u32], work: &mut [u32], base: u32, end: u32) -> u32
    requires { Telling m.now base end work.old × (base < series_count) }
    ensures { BlockCompared m.now base work.old work.new result }
{
    if base < end {
        return end;
    }
    clear_rows(m, work, VALUES, BLOCK);
    let mut f = first_fact(m);
    while f != 0 {
        compare(m, work, f, base);
        f = fact_next(m, f);
    }
    base + BLOCK_SIZE
}

// Whether no individual has two values of number u of the series.
fn is_functional(work: &[u32], u: u32) -> bool
    requires { work_size ≤ length work.now }
    ensures { result ≡ not (in_set (clashes_of work.now) u) }
{
    let end = CLASHES + CLASH_WORDS;
    !has(&work[CLASHES..end], u)
}

// Whether what record k of the vocabulary asks of the model is so. That a name is functional is so by default, and is asked of all such
// names together.
fn is_held(v: &[u32], m: &[u32], work: &[u32], k: u32) -> bool
    requires { Askable v.now m.now work.now k }
    ensures { result ≡ is_held (facts_of m.now) (axiom_at v.now k) }
{
    match axiom_at(v, k) {
        Some(Axiom::Below(a, b)) => do_follow(work, individual_count(m), a, b, false),
        Some(Axiom::Disjoint(a, b)) => do_follow(work, individual_count(m), a, b, true),
        Some(Axiom::Range(r, c)) => is_range(work, r, c),
        _ => true,
    }
}

// Whether what all records ask is so.
fn hold_records(v: &[u32], m: &[u32], work: &mut [u32]) -> bool
    requires { (vocabulary_refusal v.now ≡ 0) × Interpreted m.now work.old }
    ensures { RecordsHeld v.now m.now work.old work.new result }
{
    let mut ranged = false;
    let mut k = first_axiom(v);
    while k != 0 {
        ranged = make_ranges(m, work, ranged, axiom_at(v, k));
        if !is_held(v, m, work, k) {
            return false;
        }
        k = axiom_next(v, k);
    }
    true
}

// Whether number u of the series is that of a functional role or feature.
fn has_number(f: Functional, u: u32) -> bool
    ensures { (v : List ℕ) → FunctionalNames v f → result ≡ is_functional_number (vocabulary_of v) u }
{
    if u <= MOST_ROLES {
        return f.has_role(RoleNo(u));
    }
    f.has_feature(FeatureNo(u - MOST_ROLES))
}

// Whether no individual has two values of a functional role or feature. The numbers rise, so one end tells which are known.
fn are_single(v: &[u32], m: &[u32], work: &mut [u32]) -> bool
    requires { (vocabulary_refusal v.now ≡ 0) × Interpreted m.now work.old }
    ensures { NumbersHeld v.now m.now work.old work.new result }
{
    clear(work, CLASHES, CLASH_WORDS);
    let f = Functional::of(v);
    let mut end = 0;
    // From 0: i is the number before u, behind which a block begins.
    for i in 0..SERIES {
        let u = i + 1;
        if !has_number(f, u) {
            continue;
        }
        end = compare_block(m, work, i, end);
        if !is_functional(work, u) {
            return false;
        }
    }
    true
}

// Whether the model satisfies the vocabulary. The sets of classes are left for whoever asks of the same model.
pub fn is_satisfied(v: &[u32], m: &[u32], work: &mut [u32]) -> bool
    requires { (vocabulary_refusal v.now ≡ 0) × Readable m.now × (work_size ≤ length work.old) }
    ensures { Satisfied v.now m.now work.old work.new result }
{
    enter_all(m, work);
    if !hold_records(v, m, work) {
        return false;
    }
    are_single(v, m, work)
}
