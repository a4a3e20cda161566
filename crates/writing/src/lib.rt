// What stands in order, counted and written as a policy's records.
#![tactic(auto)]

ghost use Rattle.std.specs.Prelude.{◌*◌, ◌+◌, ◌≤◌, ℕ, cond, List, [], ◌≡◌, eqb, length};
ghost use Rattle.entries.specs.Entries.{HasItem, item_at, items_of};
ghost use Rattle.frames.specs.Rows.{put_at};
ghost use Rattle.meaning.specs.Limits.{most_records};
ghost use Rattle.meaning.specs.Lists.{any};
ghost use Rattle.meaning.specs.Operations.{output_after};
ghost use Rattle.meaning.specs.Records.{link_to};
ghost use Rattle.meaning.specs.PolicyWords.{record_words};
ghost use Rattle.words.specs.Members.{members};
ghost use Rattle.writing.specs.Written.{CountsEntry, Ordered, RoomFrom, Writable, are_too_long, class_records, first_records};
ghost use Rattle.writing.specs.Written.{is_deep, item_words, link_below, link_beside, record_count, records_in};

use entries::{classes_at, depth_of, fields_of};
use meaning::ClassNo;
use meaning::limits::{MOST_DEPTH, MOST_RECORDS};
use records::put_record;
use words::{ClassSet, place};

// ---- how many, and how deep

// How many records the entry is written as: its own, and one for each class of its individual.
fn count_at(work: &[u32], e: u32) -> u32
    requires { HasItem e work.now }
    ensures { CountsEntry work.now e result }
{
    1 + classes_at(work, e).count()
}

// How many records the entries of the order are written as.
pub fn count_records(work: &[u32], order: &[u32]) -> u32
    requires { Ordered work.now order.now }
    ensures { (ds : List ℕ) → result ≡ records_in (items_of work.now ds order.now) }
{
    let mut n = 0;
    for &e in order {
        n += count_at(work, e);
    }
    n
}

// How many words, with the header's.
pub fn size(work: &[u32], order: &[u32]) -> usize
    requires { Ordered work.now order.now }
    ensures { (ds : List ℕ) → result ≡ 6 * (records_in (items_of work.now ds order.now) + 1) }
{
    6 * (place(count_records(work, order)) + 1)
}

// Whether a record that the entry is written as is deeper than a policy's may be. Classes stand one deeper than the entry.
fn is_deep(work: &[u32], depths: &[u32], e: u32) -> bool
    requires { HasItem e work.now }
    ensures { result ≡ is_deep (item_at work.now depths.now e) }
{
    let depth = depth_of(work, depths, e);
    if classes_at(work, e).count() == 0 {
        return MOST_DEPTH < depth;
    }
    MOST_DEPTH <= depth
}

// Whether a record is too deep.
fn is_too_deep(work: &[u32], depths: &[u32], order: &[u32]) -> bool
    requires { Ordered work.now order.now }
    ensures { result ≡ any is_deep (items_of work.now depths.now order.now) }
{
    for &e in order {
        if is_deep(work, depths, e) {
            return true;
        }
    }
    false
}

// 43: more records than a policy may have, or one that is too deep.
pub fn is_too_long(work: &[u32], depths: &[u32], order: &[u32]) -> bool
    requires { Ordered work.now order.now }
    ensures { result ≡ are_too_long (items_of work.now depths.now order.now) }
{
    MOST_RECORDS < place(count_records(work, order)) || is_too_deep(work, depths, order)
}

// ---- the links

// x where n, a count or the class that follows, is not 0.
fn where_any(n: u32, x: u32, none: u32) -> u32
    ensures { result ≡ cond (eqb n 0) none x }
{
    if n == 0 { none } else { x }
}

// A link to record k, where an entry deeper than d follows.
fn link_below(work: &[u32], depths: &[u32], rest: &[u32], d: u32, k: u32) -> u32
    requires { Ordered work.now rest.now }
    ensures { result ≡ link_below k d (items_of work.now depths.now rest.now) }
{
    let Some(&e) = rest.first() else {
        return 0;
    };
    if d < depth_of(work, depths, e) { k } else { 0 }
}

// A link to the next entry of depth d of those that follow, whose records are numbered from first on: 0 where one of a smaller depth comes
// first.
fn link_beside(work: &[u32], depths: &[u32], rest: &[u32], d: u32, first: u32) -> u32
    requires { Ordered work.now rest.now × (first ≤ most_records + 1) }
    ensures { result ≡ link_beside first d (items_of work.now depths.now rest.now) }
{
    let mut k = first;
    for &e in rest {
        let depth = depth_of(work, depths, e);
        if depth <= d {
            return if depth == d { k } else { 0 };
        }
        k += count_at(work, e);
    }
    0
}

// ---- the words

// Record k's six words.
fn put(out: &mut [u32], k: u32, kind: u32, a: u32, lo: u32, hi: u32, child: u32, next: u32)
    requires { 6 * (k + 1) ≤ length out.old }
    ensures { out.new ≡ put_at out.old (6 * k) (record_words kind a lo hi child next []) }
{
    put_record(out, 6 * place(k), [kind, a, lo, hi, child, next]);
}

// The records of the classes from record first on, each with a link to the next, and the last with a link to what follows. Behind the last
// class `ClassSet::next` answers 0.
fn write_classes(out: &mut [u32], s: ClassSet, first: u32, last: u32)
    requires { RoomFrom first (length (members s.words)) out.old }
    ensures { out.new ≡ put_at out.old (6 * first) (class_records first (members s.words) last []) }
{
    let mut k = first;
    let mut c = s.next(ClassNo(0));
    while c.0 != 0 {
        let next = s.next(c);
        put(out, k, 1, c.0, 0, 0, 0, where_any(next.0, k + 1, last));
        k += 1;
        c = next;
    }
}

// The records of an entry in front of others, from record k on. A term's is of kind 5.
fn write_entry(work: &[u32], depths: &[u32], e: u32, rest: &[u32], k: u32, out: &mut [u32])
    requires item { HasItem e work.now }
    requires ordered { Ordered work.now rest.now }
    requires room_from { RoomFrom k (record_count (item_at work.now depths.now e)) out.old }
    ensures { out.new ≡ put_at out.old (6 * k)
        (first_records k (item_at work.now depths.now e) (items_of work.now depths.now rest.now) []) }
{
    let x = fields_of(work, depths, e);
    let s = classes_at(work, e);
    let n = s.count();
    let first = k + 1;
    let after = first + n;
    let below = link_below(work, depths, rest, x.depth, after);
    let beside = link_beside(work, depths, rest, x.depth, after);
    let kind = where_any(x.depth, x.kind, 5);
    let child = where_any(n, first, below);
    put(out, k, kind, x.name, x.lo, x.hi, child, beside);
    write_classes(out, s, first, below);
}

// A link to the first record, where there is one.
fn first_link(order: &[u32]) -> u32
    ensures { (w ds : List ℕ) → result ≡ link_to 1 (items_of w ds order.now) }
{
    u32::from(!order.is_empty())
}

// The header, and the records of the entries. Time grows with the records, times the depth.
pub fn write(work: &[u32], depths: &[u32], order: &[u32], out: &mut [u32])
    requires { Writable work.now depths.now order.now out.old }
    ensures { out.new ≡ output_after (item_words (items_of work.now depths.now order.now)) out.old }
{
    put(out, 0, first_link(order), 0, 0, 0, 0, 0);
    let mut k = 1;
    for (i, &e) in order.iter().enumerate() {
        write_entry(work, depths, e, &order[i + 1..], k, out);
        k += count_at(work, e);
    }
}
