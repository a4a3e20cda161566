// The normal form of a term, as flat tables of the work slice: one walk, no tree, no numbering afterwards.
#![tactic(auto)]

ghost use Rattle.std.specs.Prelude.{◌&&◌, ◌≡◌, ◌≤◌, max, min, eqb, length};
ghost use Rattle.frames.specs.Rows.{row_at};
ghost use Rattle.layout.specs.Places.{tables_end};
ghost use Rattle.layout.specs.Tables.{HasEntry};
ghost use Rattle.meaning.specs.Limits.{most_roles};
ghost use Rattle.meaning.specs.Policy.{term_at};
ghost use Rattle.normal_form.specs.Parts.{arm_at, joins};
ghost use Rattle.policy.specs.Terms.{conjunct_of, conjuncts_at};
ghost use Rattle.normal_form.specs.Steps.{Adding, BuiltFrom, Gatherable, Gathered, Good, HasRoomFor, NodedFrom, Placed, Room, Single, Waiting, front};
ghost use Rattle.normal_form.specs.Steps.{start_of};
ghost use Rattle.normal_form.specs.Tables.{Fit, FitAll, Normalised, NormalisedAll};
ghost use Rattle.words.specs.Sets.{in_set};

use closure::{above, range_above};
use frames::copy;
use functional::Functional;
use layout::{PENDING, Tables, feature_of, put_constraint, put_individual};
use meaning::{ClassNo, FeatureNo, RoleNo};
use policy::{child_of, hi_of, kind_of, lo_of, name_of, next_of};
use words::{ClassSet, place};

// What the conjuncts of an individual have given: its classes, the ends of the pending roles and of the constraints, and whether
// one is the impossible concept.
#[derive(Clone, Copy)]
struct Draft {
    classes: ClassSet,
    pending: usize,
    constraints: usize,
    impossible: bool,
}

// The constraint of individual x joins the first of its feature from place first on, where the feature is functional; else it stands
// last.
fn add_interval(
    work: &mut [u32],
    one: bool,
    x: u32,
    first: usize,
    top: usize,
    f: FeatureNo,
    lo: u32,
    hi: u32,
) -> usize
    requires { (first ≤ top) × HasEntry top work.old }
    ensures { Placed one x first top f.0 lo hi work.old work.new result }
{
    // By number: it stands for a place in the middle of the work slice, which is written.
    for i in first..top {
        if one && feature_of(work, i).0 == f.0 {
            let a = layout::lo_of(work, i).max(lo);
            let b = layout::hi_of(work, i).min(hi);
            put_constraint(work, i, x, f, a, b);
            return top;
        }
    }
    put_constraint(work, top, x, f, lo, hi);
    top + 1
}

// The classes of a new individual by role r: those above r's ranges. The first individual is by no role, which its row says by 0.
fn start_classes(work: &[u32], r: RoleNo) -> ClassSet
    requires { (r.0 ≤ most_roles) × (tables_end ≤ length work.now) }
    ensures { result.words ≡ start_of (front work.now) r.0 }
{
    if r.0 == 0 {
        ClassSet::new()
    } else {
        range_above(work, r)
    }
}

// One conjunct of individual x, whose constraints start at place first.
fn conjunct(
    p: &[u32],
    work: &mut [u32],
    f: Functional,
    k: u32,
    x: u32,
    first: usize,
    g: Draft,
) -> Draft
    requires { Single p.now work.old first g k }
    ensures { Adding (in_set f.features) p.now x first (conjunct_of p.now k)
        work.old work.new g result }
{
    let kind = kind_of(p, k);
    let a = name_of(p, k);
    match kind {
        1 => Draft {
            classes: g.classes.union(above(work, ClassNo(a))),
            ..g
        },
        2 => Draft {
            impossible: true,
            ..g
        },
        3 => {
            let at = g.pending;
            work[at] = k;
            Draft {
                pending: at + 1,
                ..g
            }
        }
        _ => {
            let feature = FeatureNo(a);
            let one = f.has_feature(feature);
            let top = add_interval(
                work,
                one,
                x,
                first,
                g.constraints,
                feature,
                lo_of(p, k),
                hi_of(p, k),
            );
            Draft {
                constraints: top,
                ..g
            }
        }
    }
}

// The conjuncts from record k on.
fn chain(
    p: &[u32],
    work: &mut [u32],
    f: Functional,
    k: u32,
    x: u32,
    first: usize,
    g: Draft,
) -> Draft
    requires { Good p.now k × HasRoomFor work.old first g (conjuncts_at p.now k) }
    ensures { Adding (in_set f.features) p.now x first (conjuncts_at p.now k)
        work.old work.new g result }
{
    let mut at = k;
    let mut h = g;
    while at != 0 {
        h = conjunct(p, work, f, at, x, first, h);
        at = next_of(p, at);
    }
    h
}

// Whether record k's role is r and functional: then it reaches the individual that another record of r has made.
fn does_join(p: &[u32], f: Functional, k: u32, r: RoleNo) -> bool
    ensures { result ≡ joins (in_set f.roles) r.0 (arm_at p.now k) }
{
    let a = RoleNo(name_of(p, k));
    f.has_role(a) && a.0 == r.0
}

// Of the pending roles from j to stop, those that join role r give their conjuncts to individual x and are struck out.
fn gather(
    p: &[u32],
    work: &mut [u32],
    f: Functional,
    r: RoleNo,
    j: usize,
    stop: usize,
    x: u32,
    first: usize,
    g: Draft,
) -> Draft
    requires { Gatherable p.now work.old j stop first g }
    ensures { Gathered f p.now r.0 j stop x first work.old work.new g result }
{
    let mut h = g;
    // By place, in the middle of the work slice: what joins is struck out there by 0, as no record.
    for at in j..stop {
        let k = work[at];
        if k == 0 || !does_join(p, f, k, r) {
            continue;
        }
        work[at] = 0;
        h = chain(p, work, f, child_of(p, k), x, first, h);
    }
    h
}

// The individual of the pending role at j, record k: its row and constraints, and its own roles pending from stop on.
fn node(
    p: &[u32],
    work: &mut [u32],
    f: Functional,
    j: usize,
    k: u32,
    stop: usize,
    parent: u32,
    t: Tables,
) -> Draft
    requires { Waiting p.now work.old j k stop t }
    ensures { NodedFrom f p.now j k stop parent t work.old work.new result }
{
    let r = RoleNo(name_of(p, k));
    let child = child_of(p, k);
    let x = t.individuals + 1;
    let first = t.constraints;
    let start = Draft {
        classes: start_classes(work, r),
        pending: stop,
        constraints: first,
        impossible: t.impossible,
    };
    let own = chain(p, work, f, child, x, first, start);
    let all = gather(p, work, f, r, j + 1, stop, x, first, own);
    put_individual(work, place(t.individuals), parent, r, all.classes);
    all
}

// The individuals of the pending roles from j to stop, each followed by those below it: for these it calls itself, so that the stack
// grows with the policy's depth alone.
fn successors(
    p: &[u32],
    work: &mut [u32],
    f: Functional,
    j: usize,
    stop: usize,
    parent: u32,
    t: Tables,
) -> Tables
    requires { Room p.now work.old j stop t.individuals t.constraints }
    ensures { BuiltFrom f p.now j stop parent t work.old work.new result }
{
    let mut u = t;
    for at in j..stop {
        let k = work[at];
        if k == 0 {
            continue;
        }
        let g = node(p, work, f, at, k, stop, parent, u);
        let here = u.individuals + 1;
        u = successors(
            p,
            work,
            f,
            stop,
            g.pending,
            here,
            Tables {
                individuals: here,
                constraints: g.constraints,
                impossible: g.impossible,
            },
        );
    }
    u
}

// Tables of no individual yet.
const NOTHING: Tables = Tables {
    individuals: 0,
    constraints: 0,
    impossible: false,
};

// The term at record s. Its record is the first pending role, with no name. Time grows with the term's records, times the
// roles that wait beside one another and the constraints of one individual.
pub fn normalise(p: &[u32], work: &mut [u32], f: Functional, s: u32) -> Tables
    requires { Fit p.now work.old s }
    ensures { Normalised f (term_at p.now s) work.old work.new result }
{
    work[PENDING] = s;
    successors(p, work, f, PENDING, PENDING + 1, 0, NOTHING)
}

// The terms at the first n records of a list, one behind another: individuals by no role, below none.
pub fn normalise_all(p: &[u32], work: &mut [u32], f: Functional, terms: &[u32], n: usize) -> Tables
    requires { FitAll p.now work.old (row_at n terms.now 0) × (n ≤ length terms.now) }
    ensures { NormalisedAll f p.now (row_at n terms.now 0) work.old work.new result }
{
    copy(terms, 0, work, PENDING, n);
    let stop = PENDING + n;
    successors(p, work, f, PENDING, stop, 0, NOTHING)
}
