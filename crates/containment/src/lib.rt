// The operations Possible and Compliance.
#![tactic(auto)]

ghost use Rattle.std.specs.Prelude.{List, ◌≡◌, ◌≤◌, ℕ, length};
ghost use Rattle.containment.specs.Verdicts.{CompliancePost, PossibleBy, PossiblePost, SettledBy};
ghost use Rattle.frames.specs.Frames.{Only};
ghost use Rattle.layout.specs.Places.{InTables};
ghost use Rattle.meaning.specs.Limits.{work_size};
ghost use Rattle.preparation.specs.Prepared.{Accepting};
ghost use Rattle.short_way.specs.Stops.{PreparedPair};

use decision::settle_from;
use frames::{check_work, clear};
use functional::Functional;
use meaning::Verdict;
use meaning::limits::WORK_SIZE;
use meaning::refusals::Refusal;
use policy::{check_input, first_term, next_of, read_policy};
use preparation::prepare;
use short_way::find_stop;
use tabulation::tabulate;

// The first term that is possible, counted from 1, impossible ones too.
fn first_possible(p: &[u32], work: &mut [u32], f: Functional) -> Option<u32>
    requires { (work_size ≤ length work.old) × ((v : List ℕ) × Accepting v p.now work.old f) }
    ensures possible_by { PossibleBy p.now work.old f result }
    ensures only { Only InTables work.old work.new }
{
    let mut s: u32 = 1;
    let mut k = first_term(p);
    while k != 0 {
        let t = tabulate(p, work, f, k);
        if !t.impossible {
            return Some(s);
        }
        s += 1;
        k = next_of(p, k);
    }
    None
}

// What Compliance answers once the work slice is full: the short way, and what is left from where it stops.
fn settle(
    p: &[u32],
    q: &[u32],
    work: &mut [u32],
    f: Functional,
    out: &mut [u32],
) -> Result<Verdict, Refusal>
    requires { (v : List ℕ) × PreparedPair v p.now q.now work.old f }
    ensures settled_by { SettledBy p.now q.now work.old f
        out.old out.new result }
    ensures only { Only InTables work.old work.new }
    ensures out_len_unchanged { length out.new ≡ length out.old }
{
    let stop = find_stop(p, q, work, f);
    settle_from(p, q, work, f, stop, out)
}

// Possible: the first term that is possible, or none is, after the refusals of the vocabulary, the policy and the work slice. Time grows
// with the vocabulary's records times its classes, and with the policy's records.
pub fn possible(v: &[u32], p: &[u32], work: &mut [u32]) -> Result<Option<u32>, Refusal>
    ensures { PossiblePost v.now p.now work.old work.new result }
{
    read_policy(v, p)?;
    check_work(work)?;
    let f = prepare(v, work);
    let answer = first_possible(p, work, f);
    clear(work, 0, WORK_SIZE);
    Ok(answer)
}

// Compliance: the refusals of the vocabulary, the first policy, the second and the work slice, too many combinations where the short way
// fails, then the verdict, and too short an output where a countermodel does not fit. Time grows with the vocabulary's records times its
// classes, with the product of both policies' records, and, where the short way fails, with the combinations that have to be looked at
// times the second policy's records.
pub fn compliance(
    v: &[u32],
    p: &[u32],
    q: &[u32],
    work: &mut [u32],
    out: &mut [u32],
) -> Result<Verdict, Refusal>
    ensures { CompliancePost v.now p.now q.now work.old work.new
        out.old out.new result }
{
    check_input(v, p, q)?;
    check_work(work)?;
    let f = prepare(v, work);
    let verdict = settle(p, q, work, f, out);
    clear(work, 0, WORK_SIZE);
    verdict
}
