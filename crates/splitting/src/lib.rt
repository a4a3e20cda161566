// Splitting: the ends of the second policy, and the pieces of a constraint between them.
// A piece needs no more than its two ends: the one after it starts at the next number, and a search among the ends, which rise, tells
// where it stops.
// Kinds and links of records are numbers, as crate policy reads them; link 0 ends a chain.
#![tactic(auto)]

ghost use Rattle.std.specs.Prelude.{false, [], ◌∷◌, ◌≡◌, ◌+◌, ◌<◌, ◌≤◌, length};
ghost use Rattle.keys.specs.Keys.{Gathered, key_of};
ghost use Rattle.layout.specs.Tables.{interval_of};
ghost use Rattle.meaning.specs.Intervals.{NonEmpty};
ghost use Rattle.meaning.specs.Accepted.{interval_count};
ghost use Rattle.meaning.specs.Policy.{Policy, policy_of, term_at};
ghost use Rattle.meaning.specs.Splitting.{pieces};
ghost use Rattle.policy.specs.Terms.{conjunct_of, conjuncts_at};
ghost use Rattle.splitting.specs.Ends.{Chained, Collectable, Collected, Ends, NextEnd, NextUpper, Single, keys_of};
ghost use Rattle.splitting.specs.Constraints.{Few, Multiplied, Splittable, Started};
ghost use Rattle.splitting.specs.Intervals.{ChainCounted, OneCounted, TermCounted};

use keys::{add, key, rank};
use layout::{feature_of, put_piece};
use meaning::FeatureNo;
use meaning::limits::{MOST_COMBINATIONS, MOST_DEPTH};
use policy::{child_of, first_term, hi_of, kind_of, lo_of, name_of, next_of};

// The keys of a constraint's two ends.
fn add_ends(ends: &mut [u64], n: usize, f: FeatureNo, lo: u32, hi: u32) -> usize
    requires { n + 2 ≤ length ends.old }
    ensures { Gathered (key_of f.0 lo ∷ (key_of f.0 hi ∷ [])) n ends.old ends.new result }
{
    let m = add(ends, n, key(f, lo));
    add(ends, m, key(f, hi))
}

// The keys of record k, among the first n: its own, or those of its child chain, with a level less.
#[cycle(collect_at_collect_from)]
fn collect_at(q: &[u32], ends: &mut [u64], left: u32, k: u32, n: usize) -> usize
    requires { Single q.now ends.old left k n }
    ensures { Gathered (keys_of (conjunct_of q.now k)) n ends.old ends.new result }
{
    match kind_of(q, k) {
        3 => collect_from(q, ends, left - 1, child_of(q, k), n),
        4 => add_ends(ends, n, FeatureNo(name_of(q, k)), lo_of(q, k), hi_of(q, k)),
        _ => n,
    }
}

// The keys of the chain from record first on, among the first m. left counts the levels of conjuncts that may still stand. It ends,
// since levels fall into a child chain and links rise along a chain.
#[cycle(collect_at_collect_from)]
fn collect_from(q: &[u32], ends: &mut [u64], left: u32, first: u32, m: usize) -> usize
    requires { Chained q.now ends.old left first m }
    ensures { Gathered (keys_of (conjuncts_at q.now first)) m ends.old ends.new result }
{
    let mut k = first;
    let mut n = m;
    while k != 0 {
        n = collect_at(q, ends, left, k, n);
        k = next_of(q, k);
    }
    n
}

// Room for the ends of a policy: two keys for each of its records.
pub const ENDS: usize = 1024;

// The ends of every constraint that the policy reaches, as given: the keys rise, each once. The answer counts them.
pub fn collect(q: &[u32], ends: &mut [u64]) -> usize
    requires { Collectable q.now ends.old }
    ensures { Collected (policy_of q.now) ends.old ends.new result }
{
    let mut n: usize = 0;
    let mut k = first_term(q);
    while k != 0 {
        n = collect_from(q, ends, MOST_DEPTH, child_of(q, k), n);
        k = next_of(q, k);
    }
    n
}

// The least end on f above x and below hi, else hi.
fn next_end(ends: &[u64], f: FeatureNo, x: u32, hi: u32) -> u32
    requires { x < hi }
    ensures lower_bound { (x < result) × (result ≤ hi) }
    ensures next_end { NextEnd ends.now f.0 x hi result }
{
    let base = key(f, 0);
    let at = rank(ends, ends.len(), base + u64::from(x) + 1);
    if ends.len() <= at {
        return hi;
    }
    let y = ends[at];
    if base + u64::from(hi) <= y {
        return hi;
    }
    (y - base) as u32
}

// The upper end of the piece after the one that ends at p: the next end itself, or the gap in front of it.
pub fn next_upper(ends: &[u64], f: FeatureNo, hi: u32, p: u32) -> u32
    requires { p < hi }
    ensures lower_bound { (p < result) × (result ≤ hi) }
    ensures next_upper { NextUpper ends.now f.0 hi p result }
{
    let y = next_end(ends, f, p, hi);
    if y == p + 1 {
        return y;
    }
    y - 1
}

// How many pieces the constraint lo..hi on f has.
pub fn count(ends: &[u64], f: FeatureNo, lo: u32, hi: u32) -> usize
    requires { NonEmpty lo hi }
    ensures lower_bound { (1 ≤ result) × (result ≤ 4294967296) }
    ensures value { (Q : Policy) → Ends Q ends.now → result ≡ length (pieces Q (interval_of f.0 lo hi)) }
{
    let mut c: usize = 1;
    let mut x = lo;
    while x < hi {
        x = next_upper(ends, f, hi, x);
        c += 1;
    }
    c
}

// It is a walk of its own, and not collect_at with a closure: one hands on a slice of keys, the other a number.
// How many intervals record k has: its own, or those of its child chain, with a level less.
#[cycle(intervals_at_intervals_from)]
fn intervals_at(p: &[u32], left: u32, k: u32) -> usize
    requires { OneCounted p.now left k }
    ensures { result ≡ interval_count (conjunct_of p.now k) }
{
    match kind_of(p, k) {
        3 => intervals_from(p, left - 1, child_of(p, k)),
        4 => 1,
        _ => 0,
    }
}

// How many intervals the chain from record first on has. left counts the levels of conjuncts that may still stand. It ends as
// collect_from does.
#[cycle(intervals_at_intervals_from)]
fn intervals_from(p: &[u32], left: u32, first: u32) -> usize
    requires { ChainCounted p.now left first }
    ensures { result ≡ interval_count (conjuncts_at p.now first) }
{
    let mut n: usize = 0;
    let mut k = first;
    while k != 0 {
        n += intervals_at(p, left, k);
        k = next_of(p, k);
    }
    n
}

// How many intervals the term at record k has: its normal form has no more constraints.
pub fn count_intervals(p: &[u32], k: u32) -> usize
    requires { TermCounted p.now k }
    ensures { result ≡ interval_count (term_at p.now k) }
{
    intervals_from(p, MOST_DEPTH, child_of(p, k))
}

// Whether n constraints may have over 65,536 combinations, by how many ends there are alone: a constraint has at most two pieces for
// each end, and three more.
pub fn may_exceed(ends: &[u64], n: usize) -> bool
    ensures { result ≡ false → Few ends.now n }
{
    let most = 2 * ends.len() + 3;
    let room = MOST_COMBINATIONS / most;
    let mut all: usize = 1;
    for _constraint in 0..n {
        if room < all {
            return true;
        }
        all *= most;
    }
    false
}

// How many combinations the first n constraints have, 65,537 where they are more than 65,536.
pub fn combinations(ends: &[u64], work: &[u32], n: usize) -> usize
    requires { Splittable work.now n }
    ensures { Multiplied ends.now work.now n result }
{
    let mut all: usize = 1;
    // By index: the constraints stand in the middle of the work slice.
    for i in 0..n {
        let f = feature_of(work, i);
        let lo = layout::lo_of(work, i);
        let hi = layout::hi_of(work, i);
        all *= count(ends, f, lo, hi);
        if MOST_COMBINATIONS < all {
            return MOST_COMBINATIONS + 1;
        }
    }
    all
}

// The first combination: each of the first n constraints at its first piece.
pub fn start(work: &mut [u32], n: usize)
    requires { Splittable work.old n }
    ensures { Started n work.old work.new }
{
    // By index: the constraints stand in the middle of the work slice.
    for i in 0..n {
        let lo = layout::lo_of(work, i);
        put_piece(work, i, lo, lo);
    }
}
