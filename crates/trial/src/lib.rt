// A term against the other policy: its constraints whole, else its combinations, of which those are skipped that are known to pass.
//
// While more than two combinations are tried, three tables are kept beside the work slice: the individuals with a dial at or below (crate
// carriers), what the structural test remembers (crate retest), and who took the last combination whose number ended alike. They take
// 46 KB of stack, and 15 KB for a policy of at most 119 records.
// Kinds and links of records are numbers, as crate policy reads them; link 0 ends a chain.
#![tactic(auto)]

ghost use Rattle.std.specs.Prelude.{IfSome, ◌≡◌, ◌≤◌, length};
ghost use Rattle.carriers.specs.Carriers.{carriers_end};
ghost use Rattle.meaning.specs.Lists.{any};
ghost use Rattle.meaning.specs.Policy.{policy_of};
ghost use Rattle.subsumption.specs.Tests.{holds_whole};
ghost use Rattle.trial.specs.Trials.{Askable, Blank, Formed, Positive, Remembers, Searchable};
ghost use Rattle.trial.specs.Trials.{TakenBy, Taker, Term, Triable, Tried, Turnable};

use carriers::{CARRIERS, list_carriers, named};
use layout::Tables;
use meaning::limits::MOST_DEPTH;
use odometer::{DIALS, count_pieces, find_dials, skip};
use policy::{child_of, first_term, next_of};
use records::{put_word, word};
use retest::{Asking, MEMORY, test};
use splitting::start;
use words::place;

// A term that takes a combination, and the dials that it relies on.
#[derive(Clone, Copy)]
pub struct Taken {
    pub term: u32,
    pub dials: u32,
}

// What the combinations of a term are tried by: the other policy and its ends, the term's tables, its dials and how many pieces each has.
#[derive(Clone, Copy)]
struct Trial<'a> {
    q: &'a [u32],
    ends: &'a [u64],
    t: Tables,
    dials: &'a [u32],
    counts: &'a [u32],
}

// The individual that is asked of.
const FIRST: u32 = 1;

// Term k of q, where one is asked of and it takes the combination that the tables hold.
fn taken_by(a: &Asking, memory: &mut [u32], k: Option<u32>) -> Option<Taken>
    requires { Askable a.now.q.now a.now.dials.now a.now.carriers.now a.now.work.now a.now.t memory.old × IfSome k (Term a.now.q.now) }
    ensures { TakenBy a.now.q.now a.now.dials.now a.now.carriers.now a.now.work.now a.now.t memory.new k result }
{
    let term = k?;
    let one = test(a, memory, MOST_DEPTH, child_of(a.q, term), FIRST);
    if one.holds {
        Some(Taken {
            term,
            dials: one.dials,
        })
    } else {
        None
    }
}

// A term of q that takes the combination that the tables hold, asked from the first on.
fn first_taker(a: &Asking, memory: &mut [u32]) -> Option<Taken>
    requires { Askable a.now.q.now a.now.dials.now a.now.carriers.now a.now.work.now a.now.t memory.old }
    ensures { Taker a.now.q.now a.now.dials.now a.now.carriers.now a.now.work.now a.now.t memory.new result }
{
    let mut k = first_term(a.q);
    while k != 0 {
        let one = taken_by(a, memory, Some(k));
        if one.is_some() {
            return one;
        }
        k = next_of(a.q, k);
    }
    None
}

// The same, with two asked first: the one that took the last combination whose number ended alike, and the one that took the last.
fn taker(a: &Asking, memory: &mut [u32], alike: Option<u32>, last: Option<u32>) -> Option<Taken>
    requires askable { Askable a.now.q.now a.now.dials.now a.now.carriers.now a.now.work.now a.now.t memory.old }
    requires known { IfSome alike (Term a.now.q.now) × IfSome last (Term a.now.q.now) }
    ensures { Taker a.now.q.now a.now.dials.now a.now.carriers.now a.now.work.now a.now.t memory.new result }
{
    let one = taken_by(a, memory, alike);
    if one.is_some() {
        return one;
    }
    let other = taken_by(a, memory, last);
    if other.is_some() {
        return other;
    }
    first_taker(a, memory)
}

// From the first combination on, the first that fails, counted from 1, if any; the tables are left at it. Numbers end alike that leave the
// same remainder by round. Time grows with the other policy's records times the individuals, once, and then with the combinations that
// are looked at times the other policy's records, each held to at most 16 individuals with a dial at or below.
fn search(
    a: &Trial,
    work: &mut [u32],
    earlier: &mut [u32],
    carriers: &[u32],
    memory: &mut [u32],
    takers: &mut [u32],
    round: u32,
) -> Option<u32>
    requires searchable { Searchable a.now.q.now a.now.ends.now a.now.dials.now a.now.counts.now earlier.old work.old a.now.t × (1 ≤ round) }
    requires remembers { Remembers a.now.q.now carriers.now work.old a.now.t memory.old takers.old }
    ensures { Tried (policy_of a.now.q.now) work.old work.new a.now.t result }
{
    let mut next = Some(1);
    let mut last = None;
    while let Some(c) = next {
        let at = place((c - 1) % round);
        let alike = named(word(takers, at));
        let asking = Asking {
            q: a.q,
            work: &*work,
            dials: a.dials,
            carriers,
            t: a.t,
        };
        let Some(taken) = taker(&asking, memory, alike, last) else {
            return Some(c);
        };
        put_word(takers, at, taken.term);
        last = Some(taken.term);
        next = skip(
            a.ends,
            work,
            a.t.constraints,
            a.dials,
            a.counts,
            earlier,
            taken.dials,
            c,
        );
    }
    None
}

// Room for who took the last combination whose number ended alike.
const TAKERS: u32 = 1024;

const TAKER_WORDS: usize = TAKERS as usize;

// Of how many combinations numbers end alike: as many as the last dials have that there is room for.
fn round_of(counts: &[u32]) -> u32
    requires { Positive counts.now }
    ensures { 1 ≤ result }
{
    let mut round: u32 = 1;
    for more in counts.iter().rev() {
        if TAKERS / round < *more {
            return round;
        }
        round *= *more;
    }
    round
}

// The search in tables that are lent, of which the last two are 0.
fn search_in(
    a: &Trial,
    work: &mut [u32],
    earlier: &mut [u32],
    carriers: &mut [u32],
    memory: &mut [u32],
    takers: &mut [u32],
) -> Option<u32>
    requires searchable { Searchable a.now.q.now a.now.ends.now a.now.dials.now a.now.counts.now earlier.old work.old a.now.t }
    requires carriers_end_in_bounds { (carriers_end ≤ length carriers.old) × Blank memory.old × Blank takers.old }
    ensures { Tried (policy_of a.now.q.now) work.old work.new a.now.t result }
{
    list_carriers(work, a.t, a.dials, carriers);
    let round = round_of(a.counts);
    search(a, work, earlier, carriers, memory, takers, round)
}

// In tables of so many words. What there is no room for is not remembered.
fn search_with<const REMEMBERED: usize, const TAKEN: usize>(
    a: &Trial,
    work: &mut [u32],
    earlier: &mut [u32],
) -> Option<u32>
    requires searchable { Searchable a.now.q.now a.now.ends.now a.now.dials.now a.now.counts.now earlier.old work.old a.now.t }
    requires sizes { (REMEMBERED ≤ 65536) × (TAKEN ≤ 65536) }
    ensures { Tried (policy_of a.now.q.now) work.old work.new a.now.t result }
{
    let mut carriers = [0; CARRIERS];
    let mut memory = [0; REMEMBERED];
    let mut takers = [0; TAKEN];
    search_in(a, work, earlier, &mut carriers, &mut memory, &mut takers)
}

// With nothing remembered: so few combinations are looked at sooner than tables are cleared.
fn search_few(a: &Trial, work: &mut [u32], earlier: &mut [u32]) -> Option<u32>
    requires { Searchable a.now.q.now a.now.ends.now a.now.dials.now a.now.counts.now earlier.old work.old a.now.t }
    ensures { Tried (policy_of a.now.q.now) work.old work.new a.now.t result }
{
    search(a, work, earlier, &[], &mut [], &mut [], 1)
}

// A policy that is not long: small tables serve, which are cleared sooner.
const SHORT: usize = 720;

// How many combinations are few.
const FEW: u32 = 2;

fn are_few(counts: &[u32]) -> bool
    requires { Positive counts.now }
{
    let mut all: u32 = 1;
    for more in counts {
        if FEW / all < *more {
            return false;
        }
        all *= *more;
    }
    true
}

// The combinations, from the first on; counts and earlier have a word for each dial.
fn try_pieces(
    q: &[u32],
    work: &mut [u32],
    ends: &[u64],
    t: Tables,
    dials: &[u32],
    counts: &mut [u32],
    earlier: &mut [u32],
) -> Option<u32>
    requires turnable { Turnable q.now ends.now dials.now work.old t }
    requires counts_len { (length counts.old ≡ length dials.now) × (length earlier.old ≡ length dials.now) }
    ensures { Tried (policy_of q.now) work.old work.new t result }
{
    start(work, t.constraints);
    count_pieces(ends, work, t.constraints, dials, counts);
    let trial = Trial {
        q,
        ends,
        t,
        dials,
        counts: &*counts,
    };
    if are_few(trial.counts) {
        return search_few(&trial, work, earlier);
    }
    if q.len() <= SHORT {
        return search_with::<2048, 256>(&trial, work, earlier);
    }
    search_with::<MEMORY, TAKER_WORDS>(&trial, work, earlier)
}

// Whether a term of q takes the constraints whole.
pub fn is_taken_whole(q: &[u32], work: &[u32], t: Tables) -> bool
    requires { Formed q.now work.now t }
    ensures { result ≡ any (λ c. holds_whole work.now t c 1) (policy_of q.now) }
{
    let mut term = first_term(q);
    while term != 0 {
        if subsumption::test(q, work, t, MOST_DEPTH, child_of(q, term), FIRST) {
            return true;
        }
        term = next_of(q, term);
    }
    false
}

// The first combination that fails, counted from 1, if any; the tables are left at it. Nothing is held to the other policy whole.
pub fn first_split_failure(q: &[u32], work: &mut [u32], ends: &[u64], t: Tables) -> Option<u32>
    requires { Triable q.now ends.now work.old t }
    ensures { Tried (policy_of q.now) work.old work.new t result }
{
    let mut dials = [0; DIALS];
    let n = find_dials(work, t.constraints, &mut dials);
    let mut counts = [0; DIALS];
    let mut earlier = [0; DIALS];
    try_pieces(
        q,
        work,
        ends,
        t,
        &dials[..n],
        &mut counts[..n],
        &mut earlier[..n],
    )
}

// The same, with the constraints whole first: who takes them takes every combination, and then none is tried.
pub fn first_failure(q: &[u32], work: &mut [u32], ends: &[u64], t: Tables) -> Option<u32>
    requires { Triable q.now ends.now work.old t }
    ensures { Tried (policy_of q.now) work.old work.new t result }
{
    if is_taken_whole(q, work, t) {
        return None;
    }
    first_split_failure(q, work, ends, t)
}
