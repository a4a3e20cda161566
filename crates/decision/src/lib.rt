// One policy against another, from where the short way stops: whether a term has too many combinations, and the first combination
// to fail.
// Kinds and links of records are numbers, as crate policy reads them; link 0 ends a chain.
#![tactic(auto)]

ghost use Rattle.std.specs.Prelude.{false, List, ◌≡◌, ◌≤◌, ℕ, length};
ghost use Rattle.decision.specs.Decisions.{Countable, Counts, Decides, Exceeds, Failed, Reports, SettlesFrom, StoppedPair};
ghost use Rattle.frames.specs.Frames.{Only};
ghost use Rattle.layout.specs.Places.{InTables, most_pairs};
ghost use Rattle.layout.specs.Tables.{Standing};
ghost use Rattle.meaning.specs.Accepted.{depth};
ghost use Rattle.meaning.specs.Limits.{most_depth, work_size};
ghost use Rattle.meaning.specs.Policy.{policy_of, term_at};
ghost use Rattle.normal_form.specs.Tables.{Fit};
ghost use Rattle.pairs.specs.Pairs.{pair_count};
ghost use Rattle.preparation.specs.Prepared.{Accepting};
ghost use Rattle.splitting.specs.Ends.{Ends};
ghost use Rattle.trial.specs.Trials.{Triable};

use functional::Functional;
use layout::Tables;
use meaning::Verdict;
use meaning::limits::MOST_COMBINATIONS;
use meaning::refusals::Refusal;
use policy::{first_term, next_of};
use short_way::Stop;
use splitting::{ENDS, collect, combinations, count_intervals, may_exceed};
use tabulation::{is_clean, shape, tabulate};
use trial::{first_failure, first_split_failure};

// Whether the term at record k is possible and has too many combinations. Mostly a glance at the numbers of ends and of intervals tells
// that it has not; few have, so the look at the pairs comes last.
fn is_too_many(p: &[u32], work: &mut [u32], f: Functional, ends: &[u64], k: u32) -> bool
    requires { Fit p.now work.old k × (pair_count work.old ≤ most_pairs) × (depth (term_at p.now k) ≤ most_depth) }
    ensures exceeds { Exceeds (term_at p.now k) ends.now work.old f result }
    ensures only { Only InTables work.old work.new }
{
    if !may_exceed(ends, count_intervals(p, k)) {
        return false;
    }
    let t = shape(p, work, f, k);
    if t.impossible {
        return false;
    }
    if combinations(ends, work, t.constraints) <= MOST_COMBINATIONS {
        return false;
    }
    is_clean(work, t)
}

// Whether some term of p is, wherever it stands.
pub fn has_too_many(p: &[u32], work: &mut [u32], f: Functional, ends: &[u64]) -> bool
    requires { (work_size ≤ length work.old) × ((v : List ℕ) × Accepting v p.now work.old f) }
    ensures counts { Counts p.now ends.now work.old f result }
    ensures only { Only InTables work.old work.new }
{
    let first = first_term(p);
    let mut k = first;
    while k != 0 {
        if is_too_many(p, work, f, ends, k) {
            return true;
        }
        k = next_of(p, k);
    }
    false
}

// The first combination to fail of the term that the tables hold, counted from 1; none where it is impossible or all pass. Where it is known
// that no term takes it whole, none is asked again.
fn failure_of(q: &[u32], work: &mut [u32], ends: &[u64], t: Tables, known: bool) -> Option<u32>
    requires { t.impossible ≡ false → Triable q.now ends.now work.old t }
    ensures { Failed (policy_of q.now) work.old work.new t result }
{
    if t.impossible {
        return None;
    }
    if known {
        return first_split_failure(q, work, ends, t);
    }
    first_failure(q, work, ends, t)
}

// Term s and combination c, which the tables hold, with the words of its countermodel; where these do not fit, that is refused before
// a word is written.
fn report(work: &[u32], t: Tables, s: u32, c: u32, out: &mut [u32]) -> Result<Verdict, Refusal>
    requires { Standing work.now t }
    ensures reports { Reports s c work.now t out.old out.new result }
    ensures out_len_unchanged { length out.new ≡ length out.old }
{
    let records = countermodel::size(work, t);
    let words = 5 * (records + 1);
    if out.len() < words {
        return Err(Refusal::Output);
    }
    countermodel::write(work, t, records, out);
    Ok(Verdict::Outside(s, c, words))
}

// From the stop on, the first term of p with a combination that fails, and the first of those: the terms before it pass whole.
pub fn decide(
    p: &[u32],
    q: &[u32],
    work: &mut [u32],
    f: Functional,
    ends: &[u64],
    stop: Stop,
    out: &mut [u32],
) -> Result<Verdict, Refusal>
    requires { ((v : List ℕ) × Countable v p.now q.now work.old f stop.place stop.term) × Ends (policy_of q.now) ends.now }
    ensures decides { Decides p.now q.now work.old f stop
        out.old out.new result }
    ensures only { Only InTables work.old work.new }
    ensures out_len_unchanged { length out.new ≡ length out.old }
{
    let first = stop.term;
    let mut s = stop.place;
    let mut k = first;
    while k != 0 {
        let t = tabulate(p, work, f, k);
        if let Some(c) = failure_of(q, work, ends, t, k == first) {
            return report(work, t, s, c, out);
        }
        s += 1;
        k = next_of(p, k);
    }
    Ok(Verdict::Compliant)
}

// What Compliance answers once the work slice is full, from where the short way of p in q stopped, if it did: compliant where it succeeds;
// else too many combinations are refused, for every term before any verdict, and then comes the verdict.
pub fn settle_from(
    p: &[u32],
    q: &[u32],
    work: &mut [u32],
    f: Functional,
    stop: Option<Stop>,
    out: &mut [u32],
) -> Result<Verdict, Refusal>
    requires { (v : List ℕ) × StoppedPair v p.now q.now work.old f stop }
    ensures settles_from { SettlesFrom p.now q.now work.old f stop
        out.old out.new result }
    ensures only { Only InTables work.old work.new }
    ensures out_len_unchanged { length out.new ≡ length out.old }
{
    let Some(stop) = stop else {
        return Ok(Verdict::Compliant);
    };
    let mut space = [0; ENDS];
    let n = collect(q, &mut space);
    let ends = &space[..n];
    let many = has_too_many(p, work, f, ends);
    if many {
        return Err(Refusal::Combinations);
    }
    decide(p, q, work, f, ends, stop, out)
}
