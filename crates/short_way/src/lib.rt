// The short way: the terms of a policy with their constraints whole, one after another, until one is not taken by the other policy.
// Kinds and links of records are numbers, as crate policy reads them; link 0 ends a chain.
#![tactic(auto)]

ghost use Rattle.std.specs.Prelude.{List, ℕ};
ghost use Rattle.frames.specs.Frames.{Only};
ghost use Rattle.layout.specs.Places.{InTables};
ghost use Rattle.meaning.specs.Policy.{term_at};
ghost use Rattle.short_way.specs.Stops.{Askable, PassesBy, PreparedPair, StopsBy};

use functional::Functional;
use policy::{first_term, next_of};
use tabulation::{is_clean, shape};
use trial::is_taken_whole;

// The first term that does not pass whole, and its place among the terms, counted from 1.
#[derive(Clone, Copy)]
pub struct Stop {
    pub term: u32,
    pub place: u32,
}

// Whether the term at record k is impossible, or a term of q takes its constraints whole. Most are taken, so the look at the pairs
// comes last.
fn does_pass(p: &[u32], q: &[u32], work: &mut [u32], f: Functional, k: u32) -> bool
    requires { (v : List ℕ) × Askable v p.now q.now work.old f k }
    ensures passes_by { PassesBy (term_at p.now k) q.now work.old f result }
    ensures only { Only InTables work.old work.new }
{
    let t = shape(p, work, f, k);
    if t.impossible {
        return true;
    }
    if is_taken_whole(q, work, t) {
        return true;
    }
    !is_clean(work, t)
}

// Where the short way of p in q stops, if it does.
pub fn find_stop(p: &[u32], q: &[u32], work: &mut [u32], f: Functional) -> Option<Stop>
    requires { (v : List ℕ) × PreparedPair v p.now q.now work.old f }
    ensures stops_by { StopsBy p.now q.now work.old f result }
    ensures only { Only InTables work.old work.new }
{
    let mut s: u32 = 1;
    let mut k = first_term(p);
    while k != 0 {
        if !does_pass(p, q, work, f, k) {
            return Some(Stop { term: k, place: s });
        }
        s += 1;
        k = next_of(p, k);
    }
    None
}
