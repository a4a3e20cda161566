// The entries of the order in which a policy is written: each stands for a role with the individual that it reaches, or for a constraint.
// An entry's run is the entry with all that stand below it, which follow it; two runs compare as the records do that they are written as.
#![tactic(auto)]

ghost use Rattle.std.specs.Option.{MatchOption};
ghost use Rattle.std.specs.Prelude.{◌<◌, ◌||◌, not, [], ◌≡◌, eqb, get_or};
ghost use Rattle.entries.specs.Entries.{AlikeTo, Beside, Comparable, ComparesClasses, ComparesNext, FirstDifference, HasItem, HasItems, HasSame, Steps};
ghost use Rattle.entries.specs.Entries.{classes_at, depth_at, fields_at, items_of, owner_at, rank_of, rest_fields, run_key, sibling_fields};
ghost use Rattle.entries.specs.Order.{order_of};
ghost use Rattle.words.specs.Members.{next_member};
ghost use Rattle.words.specs.Rows.{class_words};

use layout::{classes_of, feature_of, holder_of, parent_of, role_of};
use meaning::ClassNo;
use meaning::limits::MOST_RECORDS;
use records::word;
use std::cmp::Ordering;
use words::{ClassSet, place};

// Entry e is row e of the individuals, and from here on constraint e - CONSTRAINT_ENTRIES.
pub const CONSTRAINT_ENTRIES: u32 = MOST_RECORDS as u32;

// What is compared of an entry's record; an individual's classes have records of their own, behind it.
#[derive(Clone, Copy, PartialEq, Eq, PartialOrd, Ord)]
pub struct Fields {
    pub kind: u32,
    pub name: u32,
    pub lo: u32,
    pub hi: u32,
    pub depth: u32,
}

// The individual that the entry is a conjunct of: 0 for a term.
fn owner_of(work: &[u32], e: u32) -> u32
    requires { HasItem e work.now }
    ensures { result ≡ owner_at work.now e }
{
    if e < CONSTRAINT_ENTRIES {
        return parent_of(work, place(e));
    }
    holder_of(work, place(e - CONSTRAINT_ENTRIES))
}

// The depth of the entry's record. depths has for each individual the depth of its conjuncts.
pub fn depth_of(work: &[u32], depths: &[u32], e: u32) -> u32
    requires { HasItem e work.now }
    ensures { result ≡ depth_at work.now depths.now e }
{
    word(depths, place(owner_of(work, e)))
}

// The classes of the entry's individual.
pub fn classes_at(work: &[u32], e: u32) -> ClassSet
    requires { HasItem e work.now }
    ensures { result.words ≡ classes_at work.now e }
{
    if e < CONSTRAINT_ENTRIES {
        return classes_of(work, place(e));
    }
    ClassSet::new()
}

pub fn fields_of(work: &[u32], depths: &[u32], e: u32) -> Fields
    requires { HasItem e work.now }
    ensures { result ≡ fields_at work.now depths.now e }
{
    let depth = depth_of(work, depths, e);
    if e < CONSTRAINT_ENTRIES {
        let r = role_of(work, place(e));
        return Fields {
            kind: 3,
            name: r.0,
            lo: 0,
            hi: 0,
            depth,
        };
    }
    let m = place(e - CONSTRAINT_ENTRIES);
    let f = feature_of(work, m);
    Fields {
        kind: 4,
        name: f.0,
        lo: layout::lo_of(work, m),
        hi: layout::hi_of(work, m),
        depth,
    }
}

// Of one individual the constraints stand before the roles.
fn rank(kind: u32) -> u32
    ensures { result ≡ rank_of kind }
{
    if kind == 4 { 2 } else { 3 }
}

// Entries of one individual.
fn compare_siblings(a: Fields, b: Fields) -> Ordering
    ensures { result ≡ order_of (sibling_fields a []) (sibling_fields b []) }
{
    let a = Fields {
        kind: rank(a.kind),
        ..a
    };
    let b = Fields {
        kind: rank(b.kind),
        ..b
    };
    a.cmp(&b)
}

// The first word in which the sets differ.
fn first_word(s: ClassSet, t: ClassSet) -> Option<usize>
    ensures { MatchOption result (AlikeTo s.words t.words class_words)
        (λ i. (i < class_words) × AlikeTo s.words t.words i × (get_or s.words i 0 ≡ get_or t.words i 0 → ⊥)) }
{
    s.words.iter().zip(t.words.iter()).position(|(a, b)| a != b)
}

// The least class that is in one set alone: the lowest bit that differs, in the first word that does.
fn first_difference(s: ClassSet, t: ClassSet) -> Option<ClassNo>
    ensures { MatchOption result (HasSame s.words t.words) (λ c. FirstDifference s.words t.words c.0) }
{
    let from = first_word(s, t)?;
    let apart = s.words[from] ^ t.words[from];
    Some(ClassNo(32 * from as u32 + apart.trailing_zeros() + 1))
}

// Whether a list of records goes on behind class c.
fn does_continue(s: ClassSet, c: ClassNo, more: bool) -> bool
    ensures { result ≡ (more || not (eqb (next_member s.words c.0) 0)) }
{
    more || s.next(c).0 != 0
}

// The records of two sets of classes, with more records behind each or none. Records of classes go before all others, and a shorter
// beginning goes first.
fn compare_classes(s: ClassSet, t: ClassSet, more: bool, other: bool) -> Ordering
    ensures { ComparesClasses s.words t.words more other result }
{
    let Some(c) = first_difference(s, t) else {
        return Ordering::Equal;
    };
    if s.has(c) {
        return if does_continue(t, c, other) {
            Ordering::Less
        } else {
            Ordering::Greater
        };
    }
    if does_continue(s, c, more) {
        Ordering::Greater
    } else {
        Ordering::Less
    }
}

// The records of the first entries of what is left of two runs: there may be one, both or none.
fn compare_next(work: &[u32], depths: &[u32], x: &[u32], y: &[u32]) -> Ordering
    requires { HasItems work.now x.now × HasItems work.now y.now }
    ensures { ComparesNext work.now depths.now x.now y.now result }
{
    let Some(&e) = x.first() else {
        return if y.is_empty() {
            Ordering::Equal
        } else {
            Ordering::Less
        };
    };
    let Some(&f) = y.first() else {
        return Ordering::Greater;
    };
    fields_of(work, depths, e).cmp(&fields_of(work, depths, f))
}

// From the classes of the first entries of what is left of two runs to the records of the entries behind them.
fn compare_step(work: &[u32], depths: &[u32], x: &[u32], y: &[u32]) -> Ordering
    requires { Comparable work.now x.now y.now × Beside work.now depths.now x.now y.now }
    ensures { Steps work.now depths.now x.now y.now result }
{
    let s = classes_at(work, x[0]);
    let t = classes_at(work, y[0]);
    let classes = compare_classes(s, t, 1 < x.len(), 1 < y.len());
    classes.then_with(|| compare_next(work, depths, &x[1..], &y[1..]))
}

// Two runs behind the records of their first entries.
fn compare_rest(work: &[u32], depths: &[u32], x: &[u32], y: &[u32]) -> Ordering
    requires { Comparable work.now x.now y.now × Beside work.now depths.now x.now y.now }
    ensures { result ≡ order_of (rest_fields (items_of work.now depths.now x.now))
        (rest_fields (items_of work.now depths.now y.now)) }
{
    // By index: each step reads what is left of both runs.
    for i in 0..x.len() {
        let step = compare_step(work, depths, &x[i..], &y[i..]);
        if step.is_ne() {
            return step;
        }
    }
    Ordering::Equal
}

// Two runs of entries of one individual. Time grows with the entries of the shorter.
pub fn compare_runs(work: &[u32], depths: &[u32], x: &[u32], y: &[u32]) -> Ordering
    requires { Comparable work.now x.now y.now }
    ensures { result ≡ order_of (run_key (items_of work.now depths.now x.now)) (run_key (items_of work.now depths.now y.now)) }
{
    let first = compare_siblings(fields_of(work, depths, x[0]), fields_of(work, depths, y[0]));
    first.then_with(|| compare_rest(work, depths, x, y))
}
