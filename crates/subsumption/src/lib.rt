// Algorithm 1: the structural test of a term's normal form, which the tables of the work slice hold, against a term, its constraints whole.
// Kinds and links of records are numbers, as crate policy reads them; link 0 ends a chain.
#![tactic(auto)]

ghost use Rattle.std.specs.Prelude.{◌≡◌, ◌-◌, ◌≤◌};
ghost use Rattle.layout.specs.Nesting.{Nested};
ghost use Rattle.layout.specs.Tables.{HasEntry, Standing, constraint_at};
ghost use Rattle.meaning.specs.Subsumption.{includes};
ghost use Rattle.policy.specs.Terms.{conjunct_of, conjuncts_at};
ghost use Rattle.subsumption.specs.Tests.{Asked, FirstOf, Individual, Testable, has_successor, has_whole, holds_whole};

use intervals::is_inside;
use layout::{Tables, feature_of, has_class, hi_of, holder_of, lo_of, next_successor, role_of};
use meaning::{ClassNo, FeatureNo, RoleNo};
use policy::{child_of, kind_of, name_of, next_of};
use words::place;

// The first constraint of individual x, or where it would stand: constraints go by individual, so that halving finds it.
pub fn first_constraint(work: &[u32], t: Tables, x: u32) -> usize
    requires { Standing work.now t × Nested work.now t }
    ensures { FirstOf work.now t.constraints x result }
{
    // By hand: the constraints stand in the middle of the work slice, six words each, and are no slice of their own to be parted.
    let mut low: usize = 0;
    let mut high = t.constraints;
    while low < high {
        let middle = low + (high - low) / 2;
        if holder_of(work, middle) < x {
            low = middle + 1;
        } else {
            high = middle;
        }
    }
    low
}

// Whether constraint m is on f and lies from lo to hi.
pub fn is_whole_inside(work: &[u32], m: usize, f: FeatureNo, lo: u32, hi: u32) -> bool
    requires { HasEntry m work.now }
    ensures { result ≡ includes f.0 lo hi (constraint_at work.now m) }
{
    let g = feature_of(work, m);
    g.0 == f.0 && is_inside(lo, hi, lo_of(work, m), hi_of(work, m))
}

// Line 4: some constraint of individual x.
fn test_constraints(work: &[u32], t: Tables, x: u32, f: FeatureNo, lo: u32, hi: u32) -> bool
    requires { Standing work.now t × Nested work.now t }
    ensures { result ≡ has_whole work.now t.constraints x f.0 lo hi }
{
    for m in first_constraint(work, t, x)..t.constraints {
        if holder_of(work, m) != x {
            return false;
        }
        if is_whole_inside(work, m, f, lo, hi) {
            return true;
        }
    }
    false
}

// Line 5: some successor of individual x by role r passes the conjuncts from record k on, which stand a level below x's.
#[cycle(test_test_conjunct_test_successors)]
fn test_successors(q: &[u32], work: &[u32], t: Tables, left: u32, k: u32, x: u32, r: RoleNo) -> bool
    requires { (1 ≤ left) × Testable q.now work.now t (left - 1) k × Individual t x }
    ensures { result ≡ has_successor work.now t.individuals x r.0
        (holds_whole work.now t (conjuncts_at q.now k)) }
{
    let n = place(t.individuals);
    let mut j = next_successor(work, n, x, place(x));
    // By hand: the row to go on at is told by next_successor.
    while j < n {
        let y = j as u32 + 1;
        let role = role_of(work, j);
        if role.0 == r.0 && test(q, work, t, left - 1, k, y) {
            return true;
        }
        j = next_successor(work, n, x, j + 1);
    }
    false
}

// One conjunct, record k, of individual x. Line 3: its set is closed upward, so one bit tells.
#[cycle(test_test_conjunct_test_successors)]
fn test_conjunct(q: &[u32], work: &[u32], t: Tables, left: u32, k: u32, x: u32) -> bool
    requires { Asked q.now work.now t left k × Individual t x }
    ensures { result ≡ holds_whole work.now t (conjunct_of q.now k) x }
{
    let kind = kind_of(q, k);
    let a = name_of(q, k);
    match kind {
        1 => has_class(work, place(x - 1), ClassNo(a)),
        2 => false,
        3 => test_successors(q, work, t, left, child_of(q, k), x, RoleNo(a)),
        _ => test_constraints(
            work,
            t,
            x,
            FeatureNo(a),
            policy::lo_of(q, k),
            policy::hi_of(q, k),
        ),
    }
}

// Whether individual x passes the conjuncts from record k on. left counts the levels of conjuncts that may still stand, theirs among
// them. It ends, since levels fall into a child chain and links rise along a chain.
#[cycle(test_test_conjunct_test_successors)]
pub fn test(q: &[u32], work: &[u32], t: Tables, left: u32, k: u32, x: u32) -> bool
    requires { Testable q.now work.now t left k × Individual t x }
    ensures { result ≡ holds_whole work.now t (conjuncts_at q.now k) x }
{
    let mut at = k;
    while at != 0 {
        if !test_conjunct(q, work, t, left, at, x) {
            return false;
        }
        at = next_of(q, at);
    }
    true
}
