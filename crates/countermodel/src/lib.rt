// The canonical model of the combination that the tables of the work slice hold: how many records it has, and its words.
#![tactic(auto)]

ghost use Rattle.std.specs.Prelude.{◌≡◌, ◌<◌, ◌≤◌, IfSome, length};
ghost use Rattle.countermodel.specs.Facts.{CountsModel, ModelWritten, NextPair, Writable, edge_facts, facts_at, is_above, is_better, is_under, member_facts};
ghost use Rattle.countermodel.specs.Facts.{record_count, table_facts, value_facts};
ghost use Rattle.countermodel.specs.Written.{RecordPut, facts};
ghost use Rattle.layout.specs.Tables.{HasEntries, HasEntry, Standing, piece_at};
ghost use Rattle.meaning.specs.Countermodel.{pair_before};
ghost use Rattle.records.specs.Written.{Room, RoomFor, Written, recorded};

use layout::{Tables, classes_of, feature_of, holder_of, next_successor, piece_hi, role_of};
use meaning::ClassNo;
use records::link;
use words::place;

// ---- the pairs of an individual, rising

// Whether constraint a's pair stands before constraint b's: by feature, then by upper end.
fn is_before(work: &[u32], a: usize, b: usize) -> bool
    requires { HasEntry a work.now × HasEntry b work.now }
    ensures { result ≡ pair_before (piece_at work.now a) (piece_at work.now b) }
{
    let f = feature_of(work, a);
    let g = feature_of(work, b);
    if f.0 == g.0 {
        return piece_hi(work, a) < piece_hi(work, b);
    }
    f.0 < g.0
}

// Whether constraint i's pair stands above constraint m's, where there is one.
fn is_above(work: &[u32], m: Option<usize>, i: usize) -> bool
    requires { IfSome m (λ k. HasEntry k work.now) × HasEntry i work.now }
    ensures { result ≡ is_above work.now m (piece_at work.now i) }
{
    match m {
        Some(k) => is_before(work, k, i),
        None => true,
    }
}

// Whether constraint i's pair stands before that of the best so far, where there is one.
fn is_under(work: &[u32], i: usize, best: Option<usize>) -> bool
    requires { IfSome best (λ k. HasEntry k work.now) × HasEntry i work.now }
    ensures { result ≡ is_under work.now (piece_at work.now i) best }
{
    match best {
        Some(k) => is_before(work, i, k),
        None => true,
    }
}

// Whether constraint i is individual x's and its pair stands above constraint m's and before that of the best so far.
fn is_better(work: &[u32], x: u32, m: Option<usize>, best: Option<usize>, i: usize) -> bool
    requires { IfSome m (λ k. HasEntry k work.now) × IfSome best (λ k. HasEntry k work.now)
        × HasEntry i work.now }
    ensures { result ≡ is_better work.now x m best i }
{
    holder_of(work, i) == x && is_above(work, m, i) && is_under(work, i, best)
}

// Of n constraints, one of individual x whose pair is the least above constraint m's; where there is no m, the least of all.
fn next_pair(work: &[u32], n: usize, x: u32, m: Option<usize>) -> Option<usize>
    requires { IfSome m (λ k. k < n) × HasEntries n work.now }
    ensures { NextPair work.now n x m result }
{
    let mut best = None;
    for i in 0..n {
        // Most are another's: these are passed before there is a look at the best.
        if holder_of(work, i) != x {
            continue;
        }
        if is_better(work, x, m, best, i) {
            best = Some(i);
        }
    }
    best
}

// ---- how many records

fn count_values(work: &[u32], n: usize, x: u32) -> usize
    requires { HasEntries n work.now }
    ensures { result ≡ length (value_facts work.now n x) }
{
    let mut found = 0;
    let mut m = next_pair(work, n, x, None);
    while let Some(k) = m {
        found += 1;
        m = next_pair(work, n, x, Some(k));
    }
    found
}

fn count_edges(work: &[u32], n: usize, x: u32) -> usize
    requires { (x ≤ n) × HasEntries n work.now }
    ensures { result ≡ length (edge_facts work.now n x) }
{
    let mut found = 0;
    let mut j = next_successor(work, n, x, place(x));
    while j < n {
        found += 1;
        j = next_successor(work, n, x, j + 1);
    }
    found
}

// The records of row i, individual i + 1.
fn count_row(work: &[u32], t: Tables, i: u32) -> usize
    requires { Standing work.now t × (i < t.individuals) }
    ensures { result ≡ length (facts_at work.now t i) }
{
    let classes = classes_of(work, place(i)).count();
    let values = count_values(work, t.constraints, i + 1);
    let edges = count_edges(work, place(t.individuals), i + 1);
    place(classes) + values + edges
}

// How many records the model has.
pub fn size(work: &[u32], t: Tables) -> usize
    requires { Standing work.now t }
    ensures value { result ≡ record_count work.now t }
    ensures counts_model { CountsModel work.now t result }
{
    let n = t.individuals;
    let mut records = 0;
    for i in 0..n {
        records += count_row(work, t, i);
    }
    records
}

// ---- their words

// Record k: kind, name, individual, other, next.
fn put(out: &mut [u32], k: usize, last: usize, kind: u32, name: u32, x: u32, other: u32)
    requires { (k ≤ last) × Room 5 last out.old }
    ensures { RecordPut last k kind name x other out.old out.new }
{
    let at = 5 * k;
    let end = at + 5;
    out[at..end].copy_from_slice(&[kind, name, x, other, link(k, last)]);
}

// The classes of row i, individual i + 1, rising; behind the last `ClassSet::next` answers 0.
fn write_classes(work: &[u32], i: u32, out: &mut [u32], k: usize, last: usize) -> usize
    requires { HasEntry i work.now × RoomFor 5 last k (member_facts work.now i) out.old }
    ensures { Written facts last k (member_facts work.now i) out.old out.new result }
{
    let classes = classes_of(work, place(i));
    let mut at = k;
    let mut c = classes.next(ClassNo(0));
    while c.0 != 0 {
        put(out, at, last, 1, c.0, i + 1, 0);
        at += 1;
        c = classes.next(c);
    }
    at
}

// The pairs of individual x, rising.
fn write_values(work: &[u32], n: usize, x: u32, out: &mut [u32], k: usize, last: usize) -> usize
    requires { HasEntries n work.now × RoomFor 5 last k (value_facts work.now n x) out.old }
    ensures { Written facts last k (value_facts work.now n x) out.old out.new result }
{
    let mut at = k;
    let mut m = next_pair(work, n, x, None);
    while let Some(k) = m {
        let f = feature_of(work, k);
        let v = piece_hi(work, k);
        put(out, at, last, 3, f.0, x, v);
        at += 1;
        m = next_pair(work, n, x, Some(k));
    }
    at
}

// The edges of individual x, by target; behind the last `next_successor` answers n.
fn write_edges(work: &[u32], n: usize, x: u32, out: &mut [u32], k: usize, last: usize) -> usize
    requires { (x ≤ n) × HasEntries n work.now × RoomFor 5 last k (edge_facts work.now n x) out.old }
    ensures { Written facts last k (edge_facts work.now n x) out.old out.new result }
{
    let mut at = k;
    let mut j = next_successor(work, n, x, place(x));
    while j < n {
        let r = role_of(work, j);
        put(out, at, last, 2, r.0, x, j as u32 + 1);
        at += 1;
        j = next_successor(work, n, x, j + 1);
    }
    at
}

// The records of row i, individual i + 1, from record k on.
fn write_row(work: &[u32], t: Tables, i: u32, out: &mut [u32], k: usize, last: usize) -> usize
    requires { Standing work.now t × (i < t.individuals) × RoomFor 5 last k (facts_at work.now t i) out.old }
    ensures { Written facts last k (facts_at work.now t i) out.old out.new result }
{
    let a = write_classes(work, i, out, k, last);
    let b = write_values(work, t.constraints, i + 1, out, a, last);
    write_edges(work, place(t.individuals), i + 1, out, b, last)
}

// All records, in the order of SPECIFICATION 8.4: for each individual in turn its classes, its pairs, its edges.
fn write_rows(work: &[u32], t: Tables, last: usize, out: &mut [u32])
    requires { Standing work.now t × RoomFor 5 last 1 (table_facts work.now t) out.old }
    ensures { out.new ≡ recorded facts last 1 (table_facts work.now t) out.old }
{
    let n = t.individuals;
    let mut k = 1;
    for i in 0..n {
        k = write_row(work, t, i, out, k, last);
    }
}

// Writes the model: the header, and as many records as `size` tells.
pub fn write(work: &[u32], t: Tables, records: usize, out: &mut [u32])
    requires { Writable work.now t records out.old }
    ensures out_len_unchanged { length out.new ≡ length out.old }
    ensures model_written { ModelWritten work.now t out.old out.new }
{
    out[..5].copy_from_slice(&[link(0, records), t.individuals, 0, 0, 0]);
    write_rows(work, t, records, out);
}
