// What a call may change of a slice that it is lent, and the work slice at the two ends of an operation: refused where it is not full,
// and 0 in every word that was worked in. Words copied from slice to slice.
#![tactic(auto)]

ghost use Rattle.std.specs.Prelude.{◌≡◌, ◌+◌, ◌≤◌, length};
ghost use Rattle.frames.specs.Frames.{Cleared};
ghost use Rattle.frames.specs.Rows.{put_at, row_at};
ghost use Rattle.meaning.specs.Operations.{work_refusal};
ghost use Rattle.meaning.specs.Refusals.{fault_in, refusal_number};

use meaning::limits::WORK_SIZE;
use meaning::refusals::Refusal;

// Whether the work slice is full.
pub fn check_work(work: &[u32]) -> Result<(), Refusal>
    ensures { fault_in refusal_number result ≡ work_refusal (length work.now) }
{
    if work.len() < WORK_SIZE {
        return Err(Refusal::Work);
    }
    Ok(())
}

// The n words from a place on become 0: a table before it is filled, and the first WORK_SIZE words when an operation ends.
pub fn clear(work: &mut [u32], at: usize, n: usize)
    requires { at + n ≤ length work.old }
    ensures { Cleared at n work.old work.new }
{
    let end = at + n;
    work[at..end].fill(0);
}

// n words, from place i of one slice to place j of another.
pub fn copy(from: &[u32], i: usize, to: &mut [u32], j: usize, n: usize)
    requires { (i + n ≤ length from.now) × (j + n ≤ length to.old) }
    ensures { to.new ≡ put_at to.old j (row_at n from.now i) }
{
    let stop = i + n;
    let end = j + n;
    to[j..end].copy_from_slice(&from[i..stop]);
}
