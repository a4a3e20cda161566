// The operation Equality.
#![tactic(auto)]

ghost use Rattle.std.specs.Prelude.{List, Some, ◌≡◌, ℕ, length};
ghost use Rattle.equality.specs.Comparisons.{BothEnds, BothStopped, Comparable, ComparedBy, ComparedFrom};
ghost use Rattle.equality.specs.Comparisons.{DifferenceBy, EqualityPost, sided_answer};
ghost use Rattle.frames.specs.Frames.{Only};
ghost use Rattle.layout.specs.Places.{InTables};
ghost use Rattle.meaning.specs.Answers.{comparison_answer, verdict_answer};
ghost use Rattle.short_way.specs.Stops.{PreparedPair};

use decision::{decide, has_too_many, settle_from};
use frames::{check_work, clear};
use functional::Functional;
use meaning::limits::WORK_SIZE;
use meaning::refusals::Refusal;
use meaning::{Comparison, Verdict};
use policy::check_input;
use preparation::prepare;
use short_way::{Stop, find_stop};
use splitting::{ENDS, collect};

// The verdict of one direction as an answer of Equality.
fn sided(side: u32, verdict: Result<Verdict, Refusal>) -> Result<Comparison, Refusal>
    ensures { comparison_answer result ≡ sided_answer side (verdict_answer verdict) }
{
    match verdict? {
        Verdict::Compliant => Ok(Comparison::Equal),
        Verdict::Outside(s, c, n) => Ok(Comparison::Differs(side, s, c, n)),
    }
}

// From the stops on, the first direction's difference, else the second's.
fn differ(
    p: &[u32],
    q: &[u32],
    work: &mut [u32],
    f: Functional,
    first: &[u64],
    second: &[u64],
    forth: Stop,
    back: Stop,
    out: &mut [u32],
) -> Result<Comparison, Refusal>
    requires prepared { (v : List ℕ) × Comparable v p.now q.now work.old f forth back }
    requires both_ends { BothEnds p.now q.now first.now second.now }
    ensures difference_by { DifferenceBy p.now q.now work.old f forth back
        out.old out.new result }
    ensures only { Only InTables work.old work.new }
    ensures out_len_unchanged { length out.new ≡ length out.old }
{
    let verdict = decide(p, q, work, f, second, forth, out)?;
    match verdict {
        Verdict::Compliant => sided(2, decide(q, p, work, f, first, back, out)),
        Verdict::Outside(s, c, n) => Ok(Comparison::Differs(1, s, c, n)),
    }
}

// What Equality answers where both short ways fail: too many combinations of either direction before any verdict.
fn compare_split(
    p: &[u32],
    q: &[u32],
    work: &mut [u32],
    f: Functional,
    forth: Stop,
    back: Stop,
    out: &mut [u32],
) -> Result<Comparison, Refusal>
    requires { (v : List ℕ) × BothStopped v p.now q.now work.old f (Some forth) (Some back) }
    ensures compared_from { ComparedFrom p.now q.now work.old f forth back
        out.old out.new result }
    ensures only { Only InTables work.old work.new }
    ensures out_len_unchanged { length out.new ≡ length out.old }
{
    let mut room = [0; ENDS];
    let n = collect(p, &mut room);
    let first = &room[..n];
    let mut space = [0; ENDS];
    let m = collect(q, &mut space);
    let second = &space[..m];
    let many = has_too_many(p, work, f, second);
    let more = has_too_many(q, work, f, first);
    if many | more {
        return Err(Refusal::Combinations);
    }
    differ(p, q, work, f, first, second, forth, back, out)
}

// What Equality answers once the work slice is full: the short way in both directions. Where it succeeds in one, the other is settled as in Compliance.
fn compare(
    p: &[u32],
    q: &[u32],
    work: &mut [u32],
    f: Functional,
    out: &mut [u32],
) -> Result<Comparison, Refusal>
    requires { (v : List ℕ) × PreparedPair v p.now q.now work.old f }
    ensures compared_by { ComparedBy p.now q.now work.old f
        out.old out.new result }
    ensures only { Only InTables work.old work.new }
    ensures out_len_unchanged { length out.new ≡ length out.old }
{
    let forth = find_stop(p, q, work, f);
    let back = find_stop(q, p, work, f);
    let Some(first) = forth else {
        return sided(2, settle_from(q, p, work, f, back, out));
    };
    let Some(second) = back else {
        return sided(1, settle_from(p, q, work, f, forth, out));
    };
    compare_split(p, q, work, f, first, second, out)
}

// Equality: the same refusals in the same order, too many combinations of each direction whose short way fails; then the first
// direction's difference, the second's, or equal. Time grows as that of two calls of Compliance.
pub fn equality(
    v: &[u32],
    p: &[u32],
    q: &[u32],
    work: &mut [u32],
    out: &mut [u32],
) -> Result<Comparison, Refusal>
    ensures { EqualityPost v.now p.now q.now work.old work.new
        out.old out.new result }
{
    check_input(v, p, q)?;
    check_work(work)?;
    let f = prepare(v, work);
    let comparison = compare(p, q, work, f, out);
    clear(work, 0, WORK_SIZE);
    comparison
}
