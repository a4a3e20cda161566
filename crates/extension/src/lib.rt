// Extensions: for each individual the set of the policy's records whose conjunct holds of it, and so whether individual 1 is in the policy.
//
// The records of features come first (crate spans, one walk over the facts for 256 of them), then those of classes. A role's record waits
// for the chain below it: these are taken in rounds, by how deep that chain is, and one walk over the facts does all of a round. An edge
// hands the records of its role that hold below its target to its owner, 16 words at a time. So time grows with the model's records
// times the policy's depth, and with the individuals times the policy's records. What no individual of the model needs is not cleared.
#![tactic(auto)]

ghost use Rattle.std.specs.Prelude.{false, ◌≡◌, ◌+◌, ◌≤◌, max, length};
ghost use Rattle.extension.specs.Columns.{AllFilled, CellFillable, CellFilled, ColumnFilled, EdgeMarkable, EdgeMarked, EdgesMarked};
ghost use Rattle.extension.specs.Columns.{Fillable, MaskFilled, RecordFilled, column_place, columns_end, mask_place};
ghost use Rattle.extension.specs.Depths.{AllMeasured, NoneDueTo, Passes, Settled, Topped, height_at, is_due, own_height};
ghost use Rattle.extension.specs.Sets.{AllMarked, ClassMarked, Extended, Linked, MembersMarked, Sized, Taken, marked_member};
ghost use Rattle.frames.specs.Frames.{Only, Span};
ghost use Rattle.meaning.specs.Limits.{most_individuals, most_records, most_roles, work_size};
ghost use Rattle.meaning.specs.Model.{fact_at, facts_of};
ghost use Rattle.meaning.specs.ModelCheck.{is_in};
ghost use Rattle.meaning.specs.Policy.{policy_of};
ghost use Rattle.meaning.specs.Records.{Name, last_of};
ghost use Rattle.model.specs.Chain.{Readable};
ghost use Rattle.satisfaction.specs.Classes.{Interpreted};
ghost use Rattle.satisfaction.specs.Places.{sets_at, sets_end};

use frames::clear;
use meaning::limits::{MOST_DEPTH, MOST_INDIVIDUALS, MOST_ROLES};
use meaning::{ClassNo, RoleNo};
use model::{
    fact_kind, fact_name, fact_next, fact_other, fact_owner, first_fact, individual_count,
};
use policy::{child_of, first_term, kind_of, name_of, next_of};
use records::is_name;
use satisfaction::{HEIGHTS, SET_WORDS, SETS, is_member, put};
use spans::{join, mark_values, set_place};
use words::{has, place};

// The individual that is asked of.
const FIRST: u32 = 1;

// Beside the work slice: for each role its records, and behind them for each individual those that hold below it.
const BELOW: usize = MOST_ROLES as usize * SET_WORDS;

pub const COLUMNS: usize = BELOW + MOST_INDIVIDUALS as usize * SET_WORDS;

// Where the set of the records that hold below individual j starts.
fn column_place(j: u32) -> usize
    requires { Name most_individuals j }
    ensures { result ≡ column_place j }
{
    BELOW + place(j - 1) * SET_WORDS
}

// Where the set of role r's records starts.
fn mask_place(r: RoleNo) -> usize
    requires { Name most_roles r.0 }
    ensures { result ≡ mask_place r.0 }
{
    place(r.0 - 1) * SET_WORDS
}

fn last_record(p: &[u32]) -> u32
    requires { Sized p.now }
    ensures { result ≡ last_of 6 p.now }
{
    (p.len() / 6 - 1) as u32
}

// Record k's link x where it goes onward, else 0. Links of records that nothing reaches may lead anywhere.
// 0 stands for none as in the words, and the table of depths has an entry for it, so that no test comes before a look.
fn link_of(p: &[u32], k: u32, x: u32) -> u32
    requires { Sized p.now }
    ensures { Linked p.now k x result }
{
    if k < x && x <= last_record(p) { x } else { 0 }
}

// Puts record k into the set of individual i, where i is in the record's class.
fn mark_member(p: &[u32], work: &mut [u32], k: u32, i: u32)
    requires { Name most_individuals i × (work_size ≤ length work.old) }
    ensures { work.new ≡ marked_member p.now k work.old i }
{
    if is_member(work, i, ClassNo(name_of(p, k))) {
        put(work, set_place(i), SET_WORDS, k);
    }
}

// Puts record k into the sets of the individuals in its class.
fn mark_all_members(p: &[u32], m: &[u32], work: &mut [u32], k: u32)
    requires { Name most_records k × Interpreted m.now work.old }
    ensures { MembersMarked p.now m.now k work.old work.new }
{
    for i in 1..=individual_count(m) {
        mark_member(p, work, k, i);
    }
}

// Puts record k, where it is a class's, into the sets of the individuals in the class.
fn mark_class(p: &[u32], m: &[u32], work: &mut [u32], k: u32)
    requires { Name most_records k × Interpreted m.now work.old }
    ensures { ClassMarked p.now m.now k work.old work.new }
{
    if kind_of(p, k) == 1 {
        mark_all_members(p, m, work, k);
    }
}

// All records that need no other record's sets, those of features, then those of classes, in sets that are empty before.
fn mark_all(p: &[u32], m: &[u32], work: &mut [u32], columns: &mut [u32])
    requires { Sized p.now × Interpreted m.now work.old × (columns_end ≤ length columns.old) }
    ensures { AllMarked p.now m.now work.old work.new }
{
    clear(work, SETS, place(individual_count(m)) * SET_WORDS);
    let last = last_record(p);
    mark_values(p, m, work, columns, last);
    for k in 1..=last {
        mark_class(p, m, work, k);
    }
}

// How deep the conjunct at record k is: one deeper than the chain below it, where it is a role's. What is past the most is not reached.
fn own_height(p: &[u32], work: &[u32], k: u32) -> u32
    requires { Sized p.now × (work_size ≤ length work.now) }
    ensures { result ≡ own_height p.now work.now k }
{
    if kind_of(p, k) != 3 {
        return 1;
    }
    let below = work[HEIGHTS + place(link_of(p, k, child_of(p, k)))];
    if below < MOST_DEPTH {
        below + 1
    } else {
        MOST_DEPTH
    }
}

// How deep the chain from record k on is, from those of the records that its links lead to.
fn height(p: &[u32], work: &[u32], k: u32) -> u32
    requires { Sized p.now × (work_size ≤ length work.now) }
    ensures { result ≡ height_at p.now work.now k }
{
    let own = own_height(p, work, k);
    let rest = work[HEIGHTS + place(link_of(p, k, next_of(p, k)))];
    own.max(rest)
}

// How deep the chain from each record on is, from the last record to the first, and how deep the deepest.
fn measure_all(p: &[u32], work: &mut [u32]) -> u32
    requires { Sized p.now × (work_size ≤ length work.old) }
    ensures { AllMeasured p.now work.old work.new result }
{
    work[HEIGHTS] = 0;
    let mut top: u32 = 0;
    for k in (1..=last_record(p)).rev() {
        let h = height(p, work, k);
        work[HEIGHTS + place(k)] = h;
        top = top.max(h);
    }
    top
}

// Whether the chain from record k on holds of individual i, by the set of i.
fn does_hold(p: &[u32], work: &[u32], i: u32, k: u32) -> bool
    requires { Sized p.now × Name most_individuals i × (k ≤ last_of 6 p.now) × (work_size ≤ length work.now) }
    ensures { Passes p.now work.now i k result }
{
    let at = set_place(i);
    let end = at + SET_WORDS;
    let mut j = k;
    while j != 0 {
        if !has(&work[at..end], j) {
            return false;
        }
        j = link_of(p, j, next_of(p, j));
    }
    true
}

// Whether record k is a role's, with a chain so deep below it.
fn is_due(p: &[u32], work: &[u32], k: u32, n: u32) -> bool
    requires { Sized p.now × (work_size ≤ length work.now) }
    ensures { result ≡ is_due p.now work.now k n }
{
    kind_of(p, k) == 3 && work[HEIGHTS + place(link_of(p, k, child_of(p, k)))] == n
}

// Whether some record's turn has come.
fn is_any_due(p: &[u32], work: &[u32], n: u32) -> bool
    requires { Sized p.now × (work_size ≤ length work.now) }
    ensures { result ≡ false → NoneDueTo p.now work.now n (last_of 6 p.now) }
{
    (0..last_record(p)).any(|k| is_due(p, work, k + 1, n))
}

// Puts record k into the column of individual j, where the chain below the record holds of j.
fn fill_cell(p: &[u32], work: &[u32], columns: &mut [u32], k: u32, j: u32)
    requires { CellFillable p.now work.now columns.old j }
    ensures { CellFilled p.now work.now k j columns.old columns.new }
{
    let child = link_of(p, k, child_of(p, k));
    if does_hold(p, work, j, child) {
        put(columns, column_place(j), SET_WORDS, k);
    }
}

// Puts record k into the columns of the individuals of which the chain below it holds.
fn fill_column(p: &[u32], m: &[u32], work: &[u32], columns: &mut [u32], k: u32)
    requires { Fillable p.now m.now work.now columns.old k }
    ensures { ColumnFilled p.now m.now work.now k
        columns.old columns.new }
{
    for j in 1..=individual_count(m) {
        fill_cell(p, work, columns, k, j);
    }
}

// Puts record k into the set of its role.
fn fill_mask(p: &[u32], columns: &mut [u32], k: u32)
    requires { Name most_records k × (columns_end ≤ length columns.old) }
    ensures { MaskFilled p.now k columns.old columns.new }
{
    let r = name_of(p, k);
    if is_name(MOST_ROLES, r) {
        put(columns, mask_place(RoleNo(r)), SET_WORDS, k);
    }
}

// Puts record k into its columns and its role's set, where its turn has come.
fn fill(p: &[u32], m: &[u32], work: &[u32], columns: &mut [u32], k: u32, n: u32)
    requires { Fillable p.now m.now work.now columns.old k }
    ensures { RecordFilled p.now m.now work.now k n
        columns.old columns.new }
{
    if !is_due(p, work, k, n) {
        return;
    }
    fill_column(p, m, work, columns, k);
    fill_mask(p, columns, k);
}

// The roles' sets, and the columns of the model's individuals, of the records whose turn has come.
fn fill_all(p: &[u32], m: &[u32], work: &[u32], columns: &mut [u32], n: u32)
    requires { Sized p.now × Interpreted m.now work.now × (columns_end ≤ length columns.old) }
    ensures { AllFilled p.now m.now work.now n columns.new }
{
    clear(columns, 0, BELOW + place(individual_count(m)) * SET_WORDS);
    for k in 1..=last_record(p) {
        fill(p, m, work, columns, k, n);
    }
}

// Where record f is an edge, its owner has the records of its role that hold below its target. A role past the most has none.
fn mark_edge(m: &[u32], work: &mut [u32], columns: &[u32], f: u32)
    requires { EdgeMarkable m.now work.old columns.now f }
    ensures { EdgeMarked columns.now (fact_at m.now f) work.old work.new }
{
    if fact_kind(m, f) != 2 {
        return;
    }
    let r = fact_name(m, f);
    if !is_name(MOST_ROLES, r) {
        return;
    }
    let at = set_place(fact_owner(m, f));
    let target = fact_other(m, f);
    join(
        work,
        at,
        columns,
        column_place(target),
        mask_place(RoleNo(r)),
    );
}

// The records of roles whose turn has come, by one walk over the facts.
fn mark_edges(m: &[u32], work: &mut [u32], columns: &[u32])
    requires { Readable m.now × (work_size ≤ length work.old) × (columns_end ≤ length columns.now) }
    ensures { EdgesMarked m.now columns.now work.old work.new }
{
    let mut f = first_fact(m);
    // The chain of facts ends at 0, which a record's own word says; the policy's do too.
    while f != 0 {
        mark_edge(m, work, columns, f);
        f = fact_next(m, f);
    }
}

// The records whose chain below is n deep.
fn settle(p: &[u32], m: &[u32], work: &mut [u32], columns: &mut [u32], n: u32)
    requires { Sized p.now × Settled p.now m.now n work.old × (columns_end ≤ length columns.old) }
    ensures settled { Settled p.now m.now (n + 1) work.new }
    ensures only { Only (Span sets_at sets_end) work.old work.new }
{
    if is_any_due(p, work, n) {
        fill_all(p, m, work, columns, n);
        mark_edges(m, work, columns);
    }
}

// All records, those of the deepest chains last.
fn settle_all(p: &[u32], m: &[u32], work: &mut [u32], columns: &mut [u32], top: u32)
    requires { Sized p.now × Settled p.now m.now 0 work.old × (columns_end ≤ length columns.old) }
    ensures settled { Settled p.now m.now top work.new }
    ensures only { Only (Span sets_at sets_end) work.old work.new }
{
    for n in 0..top {
        settle(p, m, work, columns, n);
    }
}

// Whether individual 1 is in one of the policy's terms.
fn is_in_some(p: &[u32], m: &[u32], work: &[u32], top: u32) -> bool
    requires { Taken p.now × Settled p.now m.now top work.now × Topped p.now top }
    ensures { result ≡ is_in (facts_of m.now) (policy_of p.now) 1 }
{
    let mut k = first_term(p);
    while k != 0 {
        let conjuncts = child_of(p, k);
        if does_hold(p, work, FIRST, conjuncts) {
            return true;
        }
        k = next_of(p, k);
    }
    false
}

// Whether individual 1 is in the policy, with columns to work in.
pub fn is_inside(p: &[u32], m: &[u32], work: &mut [u32], columns: &mut [u32]) -> bool
    requires { Interpreted m.now work.old × Taken p.now × (columns_end ≤ length columns.old) }
    ensures { Extended p.now m.now work.old work.new result }
{
    mark_all(p, m, work, columns);
    let top = measure_all(p, work);
    settle_all(p, m, work, columns, top);
    is_in_some(p, m, work, top)
}
