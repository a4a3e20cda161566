// Algorithm 1 again: the structural test of a combination, which the tables of the work slice hold, against a term. With its answer it
// names the dials that it relies on: every combination that has the same pieces there gets the same answer.
//
// A term is tested against many combinations, and most of what is tested has no dial. So an answer that relies on none is remembered, by
// the conjunct and the individual; and where such a pair has to be tested again, what has no dial is not looked at again. An individual
// has its place by the lowest dial at or below it: those that one conjunct is held to stand on one level and have different ones, so
// that none takes another's place. An empty memory remembers nothing.
// Kinds and links of records are numbers, as crate policy reads them; link 0 ends a chain.
#![tactic(auto)]

ghost use Rattle.std.specs.Prelude.{cond, false, ◌≡◌, ◌-◌, ◌<◌, ◌≤◌, eqb};
ghost use Rattle.layout.specs.Nesting.{Nested};
ghost use Rattle.layout.specs.Tables.{HasEntry, Standing, holder_at};
ghost use Rattle.meaning.specs.Limits.{most_records};
ghost use Rattle.meaning.specs.Policy.{kind_of};
ghost use Rattle.retest.specs.Memory.{Asked, Below, Pending, TellsAll, TellsCarried, TellsOne, TellsRow, TellsStill, Testable};
ghost use Rattle.retest.specs.Memory.{memory_place, recalled, remembered, state_of};
ghost use Rattle.retest.specs.declared.State.TheVariants.{Fails, Passes, Rests};
ghost use Rattle.retest.specs.Reasons.{Spanned, SpannedBy, TellsDial, TellsPiece, Testing, may_pass};
ghost use Rattle.subsumption.specs.Tests.{Individual, has_whole};

use carriers::{first_carrier, next_carrier, slot_of};
use intervals::{does_touch, is_inside};
use layout::{
    Tables, feature_of, has_class, holder_of, next_successor, piece_hi, piece_lo, role_of,
};
use meaning::limits::MOST_RECORDS;
use meaning::{ClassNo, FeatureNo, RoleNo};
use policy::{child_of, hi_of, kind_of, lo_of, name_of, next_of};
use records::{put_word, word};
use subsumption::{first_constraint, is_whole_inside};
use words::place;

// What is asked of a combination: the other policy, the tables with the combination, its dials and its carriers. A dial is a constraint with
// several pieces; dial d is the one at place dials[d].
#[derive(Clone, Copy)]
pub struct Asking<'a> {
    pub q: &'a [u32],
    pub work: &'a [u32],
    pub dials: &'a [u32],
    pub carriers: &'a [u32],
    pub t: Tables,
}

#[derive(Clone, Copy)]
pub struct Reason {
    pub holds: bool,
    // A bit for each dial that the answer relies on.
    pub dials: u32,
}

const YES: Reason = Reason {
    holds: true,
    dials: 0,
};

const NO: Reason = Reason {
    holds: false,
    dials: 0,
};

// ---- the memory

// A place for each record of the policy and each dial, counted from 1, or none.
const WIDTH: usize = 17;

pub const MEMORY: usize = WIDTH * (MOST_RECORDS + 1);

// What is known of a conjunct and an individual.
#[derive(Clone, Copy, PartialEq, Eq)]
pub enum State {
    Passes = 1,
    Fails = 2,
    // Nothing that has no dial makes it pass.
    Rests = 3,
}

// The state that a number is kept for; 0 is kept for none.
fn state_of(number: u32) -> Option<State>
    ensures { result ≡ state_of number }
{
    match number {
        1 => Some(State::Passes),
        2 => Some(State::Fails),
        3 => Some(State::Rests),
        _ => None,
    }
}

fn memory_place(k: u32, slot: u32) -> usize
    ensures { result ≡ memory_place k slot }
{
    place(k) * WIDTH + place(slot)
}

// What is remembered of record k and individual x.
fn recall(memory: &[u32], k: u32, slot: u32, x: u32) -> Option<State>
    ensures { result ≡ recalled memory.now k slot x }
{
    let known = word(memory, memory_place(k, slot));
    if known / 4 == x {
        state_of(known % 4)
    } else {
        None
    }
}

fn remember(memory: &mut [u32], k: u32, slot: u32, x: u32, state: State)
    requires { x ≤ most_records }
    ensures { memory.new ≡ remembered memory.old k slot x state }
{
    put_word(memory, memory_place(k, slot), 4 * x + state as u32);
}

// That nothing without a dial makes it pass, where that relies on none of the dials.
fn remember_open(memory: &mut [u32], k: u32, slot: u32, x: u32, dials: u32)
    requires { x ≤ most_records }
    ensures { memory.new ≡ cond (eqb dials 0) (remembered memory.old k slot x Rests) memory.old }
{
    if dials == 0 {
        remember(memory, k, slot, x, State::Rests);
    }
}

// What is remembered of an answer that relies on no dial.
fn settled(holds: bool) -> State
    ensures { result ≡ cond holds Passes Fails }
{
    if holds { State::Passes } else { State::Fails }
}

// ---- constraints

// Whether constraint m, of individual x and on f, has a value from lo to hi: else none of its pieces lies inside.
fn may_pass(work: &[u32], m: usize, x: u32, f: FeatureNo, lo: u32, hi: u32) -> bool
    requires { HasEntry m work.now }
    ensures { result ≡ may_pass work.now x f.0 lo hi m }
{
    let g = feature_of(work, m);
    holder_of(work, m) == x
        && g.0 == f.0
        && does_touch(lo, hi, layout::lo_of(work, m), layout::hi_of(work, m))
}

// Of one constraint of individual x: it lies from lo to hi whole; or it has no value there, or is on another feature; or a piece may.
fn constraint_state(work: &[u32], m: usize, x: u32, f: FeatureNo, lo: u32, hi: u32) -> State
    requires { HasEntry m work.now × (holder_at work.now m ≡ x) }
    ensures { SpannedBy work.now x f.0 lo hi m result }
{
    if is_whole_inside(work, m, f, lo, hi) {
        return State::Passes;
    }
    if may_pass(work, m, x, f, lo, hi) {
        return State::Rests;
    }
    State::Fails
}

// Line 4, whatever the pieces: some constraint of individual x lies inside whole, none of them may pass, or a dial's piece may.
fn span_state(work: &[u32], t: Tables, x: u32, f: FeatureNo, lo: u32, hi: u32) -> State
    requires { Standing work.now t × Nested work.now t }
    ensures { Spanned work.now t.constraints x f.0 lo hi result }
{
    let mut state = State::Fails;
    for m in first_constraint(work, t, x)..t.constraints {
        if holder_of(work, m) != x {
            return state;
        }
        match constraint_state(work, m, x, f, lo, hi) {
            State::Passes => return State::Passes,
            State::Fails => {}
            State::Rests => state = State::Rests,
        }
    }
    state
}

// Dial d, constraint m, of individual x and on f: whether its piece lies from lo to hi. What may not pass is not relied on.
fn test_dial(work: &[u32], m: usize, d: usize, x: u32, f: FeatureNo, lo: u32, hi: u32) -> Reason
    requires { HasEntry m work.now × (d < 16) }
    ensures { TellsDial work.now m d x f.0 lo hi result }
{
    if !may_pass(work, m, x, f, lo, hi) {
        return NO;
    }
    Reason {
        holds: is_inside(lo, hi, piece_lo(work, m), piece_hi(work, m)),
        dials: 1 << d,
    }
}

// Line 4, where no constraint lies inside whole: some dial's piece of individual x.
fn test_dials(a: &Asking, x: u32, f: FeatureNo, lo: u32, hi: u32) -> Reason
    requires { Testing a.now.dials.now a.now.work.now a.now.t × (has_whole a.now.work.now a.now.t.constraints x f.0 lo hi ≡ false) }
    ensures { TellsPiece a.now.dials.now a.now.work.now a.now.t x f.0 lo hi result }
{
    let mut all: u32 = 0;
    for (d, m) in a.dials.iter().enumerate() {
        let one = test_dial(a.work, place(*m), d, x, f, lo, hi);
        if one.holds {
            return one;
        }
        all |= one.dials;
    }
    Reason {
        holds: false,
        dials: all,
    }
}

// A feature's conjunct, record k, of individual x.
fn test_feature(
    a: &Asking,
    memory: &mut [u32],
    left: u32,
    k: u32,
    x: u32,
    slot: u32,
    state: Option<State>,
) -> Reason
    requires pending { Pending a.now.q.now a.now.dials.now a.now.carriers.now a.now.work.now a.now.t memory.old left k x slot state }
    requires fact { kind_of a.now.q.now k ≡ 3 → ⊥ }
    ensures { TellsOne a.now.q.now a.now.dials.now a.now.carriers.now a.now.work.now a.now.t k x memory.new result }
{
    let f = FeatureNo(name_of(a.q, k));
    let lo = lo_of(a.q, k);
    let hi = hi_of(a.q, k);
    if let Some(State::Rests) = state {
        return test_dials(a, x, f, lo, hi);
    }
    match span_state(a.work, a.t, x, f, lo, hi) {
        State::Passes => YES,
        State::Fails => NO,
        State::Rests => {
            remember(memory, k, slot, x, State::Rests);
            test_dials(a, x, f, lo, hi)
        }
    }
}

// ---- the levels

// Individual x, where its parent reaches it by role r, against the conjuncts from record k on, which stand on its level, one below left.
#[cycle(test_test_anew_test_carriers_test_conjunct_test_recalled_test_role_test_row_test_still)]
fn test_row(a: &Asking, memory: &mut [u32], left: u32, k: u32, x: u32, r: RoleNo) -> Reason
    requires { Below a.now.q.now a.now.dials.now a.now.carriers.now a.now.work.now a.now.t memory.old left k x }
    ensures { TellsRow a.now.q.now a.now.dials.now a.now.carriers.now a.now.work.now a.now.t k x r.0 memory.new result }
{
    let role = role_of(a.work, place(x - 1));
    if role.0 != r.0 {
        return NO;
    }
    test(a, memory, left - 1, k, x)
}

// Line 5, what has no dial: some successor of individual x by role r that is in no list of carriers passes the conjuncts from record k on.
#[cycle(test_test_anew_test_carriers_test_conjunct_test_recalled_test_role_test_row_test_still)]
fn test_still(a: &Asking, memory: &mut [u32], left: u32, k: u32, x: u32, r: RoleNo) -> Reason
    requires { Below a.now.q.now a.now.dials.now a.now.carriers.now a.now.work.now a.now.t memory.old left k x }
    ensures { TellsStill a.now.q.now a.now.dials.now a.now.carriers.now a.now.work.now a.now.t k x r.0 memory.new result }
{
    let n = place(a.t.individuals);
    let mut all: u32 = 0;
    let mut j = next_successor(a.work, n, x, place(x));
    // By hand: the row to go on at is told by next_successor.
    while j < n {
        let y = j as u32 + 1;
        j = next_successor(a.work, n, x, j + 1);
        if slot_of(a.carriers, y) != 0 {
            continue;
        }
        let one = test_row(a, memory, left, k, y, r);
        if one.holds {
            return one;
        }
        all |= one.dials;
    }
    Reason {
        holds: false,
        dials: all,
    }
}

// Line 5, what has a dial: some successor that is in the list of carriers does.
#[cycle(test_test_anew_test_carriers_test_conjunct_test_recalled_test_role_test_row_test_still)]
fn test_carriers(a: &Asking, memory: &mut [u32], left: u32, k: u32, x: u32, r: RoleNo) -> Reason
    requires { Below a.now.q.now a.now.dials.now a.now.carriers.now a.now.work.now a.now.t memory.old left k x }
    ensures { TellsCarried a.now.q.now a.now.dials.now a.now.carriers.now a.now.work.now a.now.t k x r.0 memory.new result }
{
    let mut all: u32 = 0;
    let mut next = first_carrier(a.carriers, x);
    while let Some(y) = next {
        let one = test_row(a, memory, left, k, y, r);
        if one.holds {
            return one;
        }
        all |= one.dials;
        next = next_carrier(a.carriers, y);
    }
    Reason {
        holds: false,
        dials: all,
    }
}

// A role's conjunct, record k, of individual x.
#[cycle(test_test_anew_test_carriers_test_conjunct_test_recalled_test_role_test_row_test_still)]
fn test_role(
    a: &Asking,
    memory: &mut [u32],
    left: u32,
    k: u32,
    x: u32,
    slot: u32,
    state: Option<State>,
) -> Reason
    requires pending { Pending a.now.q.now a.now.dials.now a.now.carriers.now a.now.work.now a.now.t memory.old left k x slot state }
    requires k_value { kind_of a.now.q.now k ≡ 3 }
    ensures { TellsOne a.now.q.now a.now.dials.now a.now.carriers.now a.now.work.now a.now.t k x memory.new result }
{
    let r = RoleNo(name_of(a.q, k));
    let child = child_of(a.q, k);
    if let Some(State::Rests) = state {
        return test_carriers(a, memory, left, child, x, r);
    }
    let still = test_still(a, memory, left, child, x, r);
    if still.holds {
        return still;
    }
    remember_open(memory, k, slot, x, still.dials);
    let one = test_carriers(a, memory, left, child, x, r);
    if one.holds {
        return one;
    }
    Reason {
        holds: false,
        dials: still.dials | one.dials,
    }
}

// A role's or a feature's conjunct, record k, of individual x, where it is not known to pass or to fail.
#[cycle(test_test_anew_test_carriers_test_conjunct_test_recalled_test_role_test_row_test_still)]
fn test_anew(
    a: &Asking,
    memory: &mut [u32],
    left: u32,
    k: u32,
    x: u32,
    slot: u32,
    state: Option<State>,
) -> Reason
    requires { Pending a.now.q.now a.now.dials.now a.now.carriers.now a.now.work.now a.now.t memory.old left k x slot state }
    ensures { TellsOne a.now.q.now a.now.dials.now a.now.carriers.now a.now.work.now a.now.t k x memory.new result }
{
    if kind_of(a.q, k) == 3 {
        return test_role(a, memory, left, k, x, slot, state);
    }
    test_feature(a, memory, left, k, x, slot, state)
}

// The same, by what is remembered; an answer that relies on no dial is remembered.
#[cycle(test_test_anew_test_carriers_test_conjunct_test_recalled_test_role_test_row_test_still)]
fn test_recalled(a: &Asking, memory: &mut [u32], left: u32, k: u32, x: u32) -> Reason
    requires asked { Asked a.now.q.now a.now.dials.now a.now.carriers.now a.now.work.now a.now.t memory.old left k x }
    requires fact { (kind_of a.now.q.now k ≡ 1 → ⊥) × (kind_of a.now.q.now k ≡ 2 → ⊥) }
    ensures { TellsOne a.now.q.now a.now.dials.now a.now.carriers.now a.now.work.now a.now.t k x memory.new result }
{
    let slot = slot_of(a.carriers, x);
    let state = recall(memory, k, slot, x);
    match state {
        Some(State::Passes) => return YES,
        Some(State::Fails) => return NO,
        _ => {}
    }
    let one = test_anew(a, memory, left, k, x, slot, state);
    if one.dials == 0 {
        remember(memory, k, slot, x, settled(one.holds));
    }
    one
}

// One conjunct, record k, of individual x. Line 3: its set is closed upward, so one bit tells.
#[cycle(test_test_anew_test_carriers_test_conjunct_test_recalled_test_role_test_row_test_still)]
fn test_conjunct(a: &Asking, memory: &mut [u32], left: u32, k: u32, x: u32) -> Reason
    requires { Asked a.now.q.now a.now.dials.now a.now.carriers.now a.now.work.now a.now.t memory.old left k x }
    ensures { TellsOne a.now.q.now a.now.dials.now a.now.carriers.now a.now.work.now a.now.t k x memory.new result }
{
    let kind = kind_of(a.q, k);
    match kind {
        1 => Reason {
            holds: has_class(a.work, place(x - 1), ClassNo(name_of(a.q, k))),
            dials: 0,
        },
        2 => NO,
        _ => test_recalled(a, memory, left, k, x),
    }
}

// Whether individual x passes the conjuncts from record k on. left counts the levels of conjuncts that may still stand, theirs among
// them. It ends, since levels fall into a child chain and links rise along a chain.
#[cycle(test_test_anew_test_carriers_test_conjunct_test_recalled_test_role_test_row_test_still)]
pub fn test(a: &Asking, memory: &mut [u32], left: u32, k: u32, x: u32) -> Reason
    requires { Testable a.now.q.now a.now.dials.now a.now.carriers.now a.now.work.now a.now.t memory.old left k × Individual a.now.t x }
    ensures { TellsAll a.now.q.now a.now.dials.now a.now.carriers.now a.now.work.now a.now.t k x memory.new result }
{
    let mut all: u32 = 0;
    let mut at = k;
    while at != 0 {
        let one = test_conjunct(a, memory, left, at, x);
        if !one.holds {
            return one;
        }
        all |= one.dials;
        at = next_of(a.q, at);
    }
    Reason {
        holds: true,
        dials: all,
    }
}
