// What stands in the tables of the work slice, put into the order in which a policy is written. Entries go to the end of the order one
// after another, the last one first: so each finds those below it behind it in order, and behind these the runs of its own individual.
#![tactic(auto)]

ghost use Rattle.std.specs.Prelude.{◌≡◌};
ghost use Rattle.std.specs.Result.{MatchResult};
ghost use Rattle.arrangement.specs.Listing.{Arrangeable, Arranged, HasLast, last_entry, owns_last};
ghost use Rattle.arrangement.specs.Steps.{BelongsAt, Depths, Listable, Ready, Rotatable, RunEnds, Settled, StandsAt, is_next, rotated};

use entries::{CONSTRAINT_ENTRIES, compare_runs, depth_of};
use layout::{Tables, holder_of, parent_of};
use meaning::limits::MOST_RECORDS;
use records::word;
use std::cmp::Ordering;
use words::place;

// A place for individual 0, of which the terms are, and for each that there may be.
pub const DEPTHS: usize = MOST_RECORDS + 1;

// The depth of each individual's conjuncts: those of individual 0, the terms, stand at 0.
pub fn find_depths(work: &[u32], n: u32, depths: &mut [u32])
    requires { Listable work.now n depths.old }
    ensures { Depths work.now n depths.new }
{
    depths[0] = 0;
    // By index: an individual's depth is one more than its parent's, which stands before it.
    for i in 0..n {
        let parent = parent_of(work, place(i));
        depths[place(i) + 1] = word(depths, place(parent)) + 1;
    }
}

// The end of the run at place i.
fn run_end(work: &[u32], depths: &[u32], order: &[u32], i: usize) -> usize
    requires { Ready work.now order.now i }
    ensures { RunEnds work.now depths.now order.now i result }
{
    let d = depth_of(work, depths, order[i]);
    for at in i + 1..order.len() {
        if depth_of(work, depths, order[at]) <= d {
            return at;
        }
    }
    order.len()
}

// Whether an entry of depth d stands at a place.
fn is_at(work: &[u32], depths: &[u32], order: &[u32], at: usize, d: u32) -> bool
    requires { Ready work.now order.now 0 }
    ensures { result ≡ is_next work.now depths.now order.now at d }
{
    at < order.len() && depth_of(work, depths, order[at]) == d
}

// Of the runs behind the one from a to before b, of the same individual, the first that it does not go behind: where an equal one stands, or
// else where it belongs.
fn find_place(
    work: &[u32],
    depths: &[u32],
    order: &[u32],
    a: usize,
    b: usize,
) -> Result<usize, usize>
    requires { Ready work.now order.now a × RunEnds work.now depths.now order.now a b }
    ensures { MatchResult result (StandsAt work.now depths.now order.now a b) (BelongsAt work.now depths.now order.now a b) }
{
    let d = depth_of(work, depths, order[a]);
    let mut at = b;
    while is_at(work, depths, order, at, d) {
        let end = run_end(work, depths, order, at);
        match compare_runs(work, depths, &order[a..b], &order[at..end]) {
            Ordering::Less => {
                return Err(at);
            }
            Ordering::Equal => {
                return Ok(at);
            }
            Ordering::Greater => {
                at = end;
            }
        }
    }
    Err(at)
}

// The entries from a to before b go behind those from b to before c.
// By hand: `rotate_left` has spare words of its own, twice as many, and wants `memmove` of the C library.
fn rotate(order: &mut [u32], a: usize, b: usize, c: usize)
    requires { Rotatable order.old a b c }
    ensures { order.new ≡ rotated order.old a b c }
{
    let mut spare = [0; MOST_RECORDS];
    let moved = &mut spare[..c - a];
    moved[..c - b].copy_from_slice(&order[b..c]);
    moved[c - b..].copy_from_slice(&order[a..b]);
    order[a..c].copy_from_slice(moved);
}

// The run at place top goes to its place among those behind it, or is dropped where an equal one stands there; where the order starts then.
fn settle(work: &[u32], depths: &[u32], order: &mut [u32], top: usize) -> usize
    requires { Ready work.now order.old top }
    ensures { Settled work.now depths.now top order.old order.new result }
{
    let b = run_end(work, depths, order, top);
    match find_place(work, depths, order, top, b) {
        Ok(_) => b,
        Err(at) => {
            if b < at {
                rotate(order, top, b, at);
            }
            top
        }
    }
}

// Whether the last of m constraints is individual i's.
fn owns_last(work: &[u32], i: u32, m: usize) -> bool
    requires { HasLast i m work.now }
    ensures { result ≡ owns_last work.now m i }
{
    0 < m && holder_of(work, m - 1) == i
}

// The last entry of the first i individuals and m constraints: a constraint stands behind its individual and in front of those below it.
fn last_entry(work: &[u32], i: u32, m: usize) -> u32
    requires { HasLast i m work.now }
    ensures { result ≡ last_entry work.now i m }
{
    if owns_last(work, i, m) {
        return CONSTRAINT_ENTRIES + (m - 1) as u32;
    }
    i - 1
}

// The entries of the tables in order, at the end of the slice; where they start. Time grows with the entries, times those of one
// individual, times the depth.
pub fn arrange(work: &[u32], t: Tables, depths: &[u32], order: &mut [u32]) -> usize
    requires { Arrangeable work.now t order.old }
    ensures { Arranged work.now depths.now t order.old order.new result }
{
    let mut top = order.len();
    let mut i = t.individuals;
    let mut m = t.constraints;
    while i != 0 {
        let e = last_entry(work, i, m);
        top -= 1;
        order[top] = e;
        top = settle(work, depths, order, top);
        if e < CONSTRAINT_ENTRIES {
            i -= 1;
        } else {
            m -= 1;
        }
    }
    top
}
