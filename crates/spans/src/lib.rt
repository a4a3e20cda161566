// Spans: a policy's records that ask for a value of a feature from lo to hi are put into the sets of the individuals that have one.
//
// The records are taken 256 at a time, and one walk over the facts does them all. A record's span is the keys from lo's to hi's. Where
// the spans that hold a key change, there is a cut: a span's last key, and the last before it. The cuts rise, and each has a row, the
// set of the records whose span holds it. A key is in the same spans as the first cut at or above it, which is found by halving. The rows
// stand in a slice beside the work slice, and a fact joins one of them into its individual's set, as an edge does in crate extension.
// So time grows with the model's records times the logarithm of the cuts, and with the square of the records that have them.
#![tactic(auto)]

ghost use Rattle.std.specs.Prelude.{◌≡◌, ◌+◌, ◌-◌, ◌≤◌, min, length};
ghost use Rattle.keys.specs.Keys.{Gathered};
ghost use Rattle.meaning.specs.Limits.{most_individuals};
ghost use Rattle.meaning.specs.Model.{fact_at};
ghost use Rattle.meaning.specs.Records.{Name};
ghost use Rattle.satisfaction.specs.Places.{record_words, set_place};
ghost use Rattle.spans.specs.Cuts.{AllCut, Cuttable, Rowed, SpanMarkable, SpanMarked, SpansMarkable, cut_count, cuts_at, high_key};
ghost use Rattle.spans.specs.Cuts.{low_key, row_marked, row_place};
ghost use Rattle.spans.specs.Joining.{Joinable, Joined, Met};
ghost use Rattle.spans.specs.Values.{Batched, Markable, ValueMarkable, ValueMarked, ValuesMarked};

use frames::clear;
use intervals::is_within;
use keys::{add, key, rank};
use meaning::FeatureNo;
use model::{fact_kind, fact_name, fact_next, fact_other, fact_owner, first_fact};
use policy::{hi_of, kind_of, lo_of, name_of};
use satisfaction::{SET_WORDS, SETS, put};
use words::place;

// How many records one walk does, and two cuts for each.
const BATCH: u32 = 256;

const CUTS: usize = 2 * BATCH as usize;

// Where the set of the records that hold of individual i starts.
pub fn set_place(i: u32) -> usize
    requires { Name most_individuals i }
    ensures { result ≡ set_place i }
{
    SETS + place(i - 1) * SET_WORDS
}

// The records of two sets at places of the columns, as a set by value.
fn meet(columns: &[u32], from: usize, mask: usize) -> [u32; SET_WORDS]
    requires { (from + record_words ≤ length columns.now) × (mask + record_words ≤ length columns.now) }
    ensures { Met from mask columns.now result }
{
    let mut words = [0; SET_WORDS];
    // By index: both rows stand in the middle of one slice.
    for i in 0..SET_WORDS {
        words[i] = columns[from + i] & columns[mask + i];
    }
    words
}

// Puts those records of the set at a place of the columns that are in a second such set into the set at a place of the work slice.
// All is read before the first word is written, and there is no branch, so that it is done in a few wide steps.
pub fn join(work: &mut [u32], at: usize, columns: &[u32], from: usize, mask: usize)
    requires { Joinable at from mask work.old columns.now }
    ensures { Joined record_words at from mask columns.now work.old work.new }
{
    let row = meet(columns, from, mask);
    // By index: the row stands in the middle of the work slice.
    for i in 0..SET_WORDS {
        work[at + i] |= row[i];
    }
}

// The first key of record k's span.
fn low_key(p: &[u32], k: u32) -> u64
    ensures { result ≡ low_key p.now k }
{
    key(FeatureNo(name_of(p, k)), lo_of(p, k))
}

// The last key of record k's span.
fn high_key(p: &[u32], k: u32) -> u64
    ensures { result ≡ high_key p.now k }
{
    key(FeatureNo(name_of(p, k)), hi_of(p, k))
}

// The cuts of record k among the first n, where it is a feature's: the last key before its span, and the last in it.
fn add_cuts(p: &[u32], cuts: &mut [u64], n: usize, k: u32) -> usize
    requires { n + 2 ≤ length cuts.old }
    ensures { Gathered (cuts_at p.now k) n cuts.old cuts.new result }
{
    if kind_of(p, k) != 4 {
        return n;
    }
    let low = low_key(p, k);
    let high = high_key(p, k);
    let m = add(cuts, n, low.saturating_sub(1));
    add(cuts, m, high)
}

// The cuts of the records after the first up to the last: they rise. The answer counts them.
fn cut_all(p: &[u32], cuts: &mut [u64], first: u32, last: u32) -> usize
    requires { Cuttable first last cuts.old }
    ensures { AllCut p.now first last cuts.new result }
{
    let mut n: usize = 0;
    for k in first + 1..=last {
        n = add_cuts(p, cuts, n, k);
    }
    n
}

// Puts record k into row r, where its span, from low to high, holds the row's cut.
fn mark_row(columns: &mut [u32], r: usize, cut: u64, low: u64, high: u64, k: u32)
    requires { row_place r + record_words ≤ length columns.old }
    ensures { columns.new ≡ row_marked columns.old r cut low high k }
{
    if is_within(low, high, cut) {
        put(columns, r * SET_WORDS, SET_WORDS, k);
    }
}

// Puts record k, where it is a feature's, into the rows of the cuts in its span.
// The count stands beside the cuts here: with a slice of just these the model check took longer.
fn mark_span(p: &[u32], cuts: &[u64], n: usize, columns: &mut [u32], k: u32)
    requires { SpanMarkable cuts.now columns.old n k }
    ensures { SpanMarked p.now cuts.now n k columns.old columns.new }
{
    if kind_of(p, k) != 4 {
        return;
    }
    let low = low_key(p, k);
    let high = high_key(p, k);
    for (r, cut) in cuts[..n].iter().enumerate() {
        mark_row(columns, r, *cut, low, high, k);
    }
}

// The rows of the first n cuts, of the records after the first up to the last.
fn mark_spans(p: &[u32], cuts: &[u64], n: usize, columns: &mut [u32], first: u32, last: u32)
    requires { SpansMarkable cuts.now columns.old n first last }
    ensures { Rowed p.now first last cuts.now columns.new n }
{
    clear(columns, 0, n * SET_WORDS);
    for k in first + 1..=last {
        mark_span(p, cuts, n, columns, k);
    }
}

// Where record f of the model is a value, its individual has the records of the row that its key belongs to.
fn mark_value(m: &[u32], work: &mut [u32], columns: &[u32], cuts: &[u64], n: usize, f: u32)
    requires { ValueMarkable m.now work.old columns.now cuts.now n f }
    ensures { ValueMarked cuts.now columns.now n (fact_at m.now f)
        work.old work.new }
{
    if fact_kind(m, f) != 3 {
        return;
    }
    let x = key(FeatureNo(fact_name(m, f)), fact_other(m, f));
    let r = rank(cuts, n, x);
    if n <= r {
        return;
    }
    let from = r * SET_WORDS;
    join(work, set_place(fact_owner(m, f)), columns, from, from);
}

// The records after the first up to the last that are a feature's, by one walk over the facts; none where there is no such record.
fn mark_batch(
    p: &[u32],
    m: &[u32],
    work: &mut [u32],
    columns: &mut [u32],
    cuts: &mut [u64],
    first: u32,
    last: u32,
)
    requires { Batched m.now work.old columns.old cuts.old first last }
    ensures { ValuesMarked p.now m.now first last work.old work.new }
{
    let n = cut_all(p, cuts, first, last);
    if n == 0 {
        return;
    }
    mark_spans(p, cuts, n, columns, first, last);
    let mut f = first_fact(m);
    while f != 0 {
        mark_value(m, work, columns, cuts, n, f);
        f = fact_next(m, f);
    }
}

// All records up to the last that are a feature's, one batch after another.
fn mark_batches(
    p: &[u32],
    m: &[u32],
    work: &mut [u32],
    columns: &mut [u32],
    cuts: &mut [u64],
    last: u32,
)
    requires { Markable m.now work.old columns.old last × (cut_count ≤ length cuts.old) }
    ensures { ValuesMarked p.now m.now 0 last work.old work.new }
{
    let mut first: u32 = 0;
    // A batch ends where the next one begins, and the last where the records do.
    while first < last {
        let end = last.min(first + BATCH);
        mark_batch(p, m, work, columns, cuts, first, end);
        first = end;
    }
}

// Puts every record up to the last that is a feature's into the sets of the individuals that have a value of it.
pub fn mark_values(p: &[u32], m: &[u32], work: &mut [u32], columns: &mut [u32], last: u32)
    requires { Markable m.now work.old columns.old last }
    ensures { ValuesMarked p.now m.now 0 last work.old work.new }
{
    let mut cuts = [0; CUTS];
    mark_batches(p, m, work, columns, &mut cuts, last);
}
