// The odometer over the combinations of a term. A dial is a constraint with several pieces; the others stand still. Where a combination
// passes by some of the dials alone, all that have the same pieces there pass, and the odometer goes on behind them.
#![tactic(auto)]

ghost use Rattle.std.specs.Prelude.{cond, ◌≡◌, ◌<◌, ◌≤◌, length};
ghost use Rattle.std.specs.Int.Bits.{bit_or};
ghost use Rattle.odometer.specs.Odometer.{Counted, DialsFound, Limited, PiecesCountable, Skippable, Skipped, Split, Turned};
ghost use Rattle.odometer.specs.Odometer.{most_dials, next_number};
ghost use Rattle.meaning.specs.Limits.{most_combinations};
ghost use Rattle.words.specs.Sets.{test_bit};

use layout::{feature_of, piece_hi, put_piece};
use splitting::{count, next_upper};
use words::place;

// Room for the dials: each has two pieces or more, and there are at most 65,536 combinations.
pub const DIALS: usize = 16;

// The places of the dials among the first n constraints, rising, and how many there are.
pub fn find_dials(work: &[u32], n: usize, dials: &mut [u32]) -> usize
    requires { Limited work.now n × (most_dials ≤ length dials.old) }
    ensures { DialsFound work.now n dials.old dials.new result }
{
    let mut found: usize = 0;
    // By index: the constraints stand in the middle of the work slice, and m is what is noted.
    for m in 0..n {
        if layout::hi_of(work, m) <= layout::lo_of(work, m) {
            continue;
        }
        dials[found] = m as u32;
        found += 1;
    }
    found
}

// How many pieces each dial has.
pub fn count_pieces(ends: &[u64], work: &[u32], n: usize, dials: &[u32], counts: &mut [u32])
    requires { PiecesCountable ends.now dials.now work.now counts.old n }
    ensures { Counted ends.now dials.now work.now counts.new }
{
    // counts by index: no proof knows what an adapter of iter_mut wrote.
    for (d, m) in dials.iter().enumerate() {
        let m = place(*m);
        counts[d] = count(
            ends,
            feature_of(work, m),
            layout::lo_of(work, m),
            layout::hi_of(work, m),
        ) as u32;
    }
}

// Whether dial d is in the mask.
fn has_dial(mask: u32, d: u32) -> bool
    requires { d < 32 }
    ensures { result ≡ test_bit mask d }
{
    mask >> d & 1 == 1
}

// What a yes relies on, once dial d is passed: where it is relied on, what its earlier pieces relied on is joined.
fn joined(mask: u32, earlier: u32, relied: bool) -> u32
    ensures { result ≡ cond relied (bit_or mask earlier) mask }
{
    if relied { mask | earlier } else { mask }
}

// Constraint m takes its next piece, where it is relied on and has one: then the answer is yes. Else it starts again.
fn turn(ends: &[u64], work: &mut [u32], n: usize, m: usize, relied: bool) -> bool
    requires { Split ends.now work.old n × (m < n) }
    ensures { Turned ends.now m relied work.old work.new result }
{
    let lo = layout::lo_of(work, m);
    let hi = layout::hi_of(work, m);
    let p = piece_hi(work, m);
    if relied && p < hi {
        let up = next_upper(ends, feature_of(work, m), hi, p);
        put_piece(work, m, p + 1, up);
        return true;
    }
    put_piece(work, m, lo, lo);
    false
}

// The number of the next combination, counted from 1, where those behind a dial have so many: the next multiple of that.
#[tactic(auto, unfolding(crate::specs::Odometer::next_number))]
fn onward(q: u32, weight: u32) -> u32
    requires { (1 ≤ q) × (q ≤ most_combinations) × (1 ≤ weight) × (weight ≤ most_combinations) }
    ensures { result ≡ next_number q weight }
{
    let k = q - 1;
    k - k % weight + weight + 1
}

// From combination q, counted from 1, which passes by the dials of the mask, to the next that has to be looked at, whose number is told;
// none where all pass. Dials that are not relied on start again; the last of the others that has a next piece takes it, and keeps what its
// earlier pieces relied on; one that has none hands that on. Parameters stand one by one: a struct of them would be made for each call.
pub fn skip(
    ends: &[u64],
    work: &mut [u32],
    n: usize,
    dials: &[u32],
    counts: &[u32],
    earlier: &mut [u32],
    reason: u32,
    q: u32,
) -> Option<u32>
    requires { Skippable ends.now dials.now counts.now earlier.old work.old n q }
    ensures { Skipped ends.now dials.now earlier.old earlier.new n reason q
        work.old work.new result }
{
    let mut mask = reason;
    let mut weight: u32 = 1;
    // By index: d is the dial's bit in the mask.
    for d in (0..dials.len()).rev() {
        let relied = has_dial(mask, d as u32);
        mask = joined(mask, earlier[d], relied);
        if turn(ends, work, n, place(dials[d]), relied) {
            earlier[d] = mask;
            return Some(onward(q, weight));
        }
        earlier[d] = 0;
        weight *= counts[d];
    }
    None
}
