// The work slice of Possible, Compliance and Equality: where each of its tables stands, and what reads and writes an entry of one.
//
//   table          entries                             words an entry              from, at 256 classes    at 320
//   class rows     256 classes (320)                   8 (10): the classes above           0                   0
//   role rows      64 roles                            8 (10): the classes above       2,048               3,200
//   pairs          their number, then 1,024 pairs      2: classes                      2,560               3,840
//   pending        512 roles that are to be followed   1: record                       4,609               5,889
//   individuals    512                                 10 (12): parent, role, classes  5,121               6,401
//   constraints    512                                 6: individual, feature, lo,    10,241              12,545
//                                                         hi, the piece's lo and hi
//   end                                                                               13,313              15,617
//
// So 3,071 of the 16,384 words are left over at 256 classes, and 767 at 320.
#![tactic(auto)]

ghost use Rattle.std.specs.Prelude.{◌≡◌, ◌-◌, ◌≤◌};
ghost use Rattle.layout.specs.Combination.{next_successor};
ghost use Rattle.layout.specs.Places.{pair_place, row_place};
ghost use Rattle.layout.specs.Tables.{ConstraintPut, HasEntries, HasEntry, IndividualPut, PiecePut, holder_at, parent_at, role_at, set_at};
ghost use Rattle.layout.specs.Tables.{constraint_at, piece_at};
ghost use Rattle.words.specs.Sets.{in_set};

use meaning::limits::{MOST_AXIOMS, MOST_CLASSES, MOST_RECORDS, MOST_ROLES};
use meaning::{ClassNo, FeatureNo, RoleNo};
use words::{ClassSet, place};

// ---- where the tables stand

// Rows are counted from 1: row c is class c's, and row ROLE_ROWS + r role r's.
pub const ROLE_ROWS: u32 = MOST_CLASSES;

// The number of the pairs of disjoint classes stands here, and the pairs after it.
pub const PAIRS: usize = (MOST_CLASSES + MOST_ROLES) as usize * ClassSet::WORDS;

pub const PENDING: usize = PAIRS + 1 + 2 * MOST_AXIOMS;

const INDIVIDUALS: usize = PENDING + MOST_RECORDS;

const INDIVIDUAL: usize = 2 + ClassSet::WORDS;

const CONSTRAINTS: usize = INDIVIDUALS + INDIVIDUAL * MOST_RECORDS;

const CONSTRAINT: usize = 6;

// Where row i starts.
pub fn row_at(i: u32) -> usize
    requires { 1 ≤ i }
    ensures { result ≡ row_place i }
{
    place(i - 1) * ClassSet::WORDS
}

// Where pair i starts, counted from 0.
pub fn pair_at(i: u32) -> usize
    ensures { result ≡ pair_place i }
{
    PAIRS + 1 + 2 * place(i)
}

// What the last two tables hold: a form of so many individuals and constraints, or an impossible one.
#[derive(Clone, Copy)]
pub struct Tables {
    pub individuals: u32,
    pub constraints: usize,
    pub impossible: bool,
}

// ---- individuals: row n, counted from 0, is individual n + 1's

pub fn parent_of(work: &[u32], n: usize) -> u32
    requires { HasEntry n work.now }
    ensures { result ≡ parent_at work.now n }
{
    work[INDIVIDUALS + INDIVIDUAL * n]
}

// The role by which the parent reaches it; the first individual has none.
pub fn role_of(work: &[u32], n: usize) -> RoleNo
    requires { HasEntry n work.now }
    ensures { result.0 ≡ role_at work.now n }
{
    RoleNo(work[INDIVIDUALS + INDIVIDUAL * n + 1])
}

pub fn classes_of(work: &[u32], n: usize) -> ClassSet
    requires { HasEntry n work.now }
    ensures { result.words ≡ set_at work.now n }
{
    ClassSet::load(work, INDIVIDUALS + INDIVIDUAL * n + 2)
}

// Whether the individual is in class c. Its set is closed upward, so one bit tells.
pub fn has_class(work: &[u32], n: usize, c: ClassNo) -> bool
    requires { HasEntry n work.now }
    ensures { result ≡ in_set (set_at work.now n) c.0 }
{
    ClassSet::has_at(work, INDIVIDUALS + INDIVIDUAL * n + 2, c)
}

pub fn put_individual(work: &mut [u32], n: usize, parent: u32, r: RoleNo, classes: ClassSet)
    requires { HasEntry n work.old }
    ensures { IndividualPut n parent r.0 classes.words work.old work.new }
{
    let at = INDIVIDUALS + INDIVIDUAL * n;
    work[at] = parent;
    work[at + 1] = r.0;
    classes.store(work, at + 2);
}

// From row j on, the next successor of individual x, or n, the number of rows. What is below x stands together, after x, and a
// smaller parent's row ends it.
pub fn next_successor(work: &[u32], n: usize, x: u32, j: usize) -> usize
    requires { (j ≤ n) × HasEntries n work.now }
    ensures { result ≡ next_successor work.now x (n - j) j }
{
    for i in j..n {
        let parent = parent_of(work, i);
        if parent < x {
            return n;
        }
        if parent == x {
            return i;
        }
    }
    n
}

// ---- constraints, counted from 0, each with one of its pieces

// The individual that the constraint is of.
pub fn holder_of(work: &[u32], m: usize) -> u32
    requires { HasEntry m work.now }
    ensures { result ≡ holder_at work.now m }
{
    work[CONSTRAINTS + CONSTRAINT * m]
}

pub fn feature_of(work: &[u32], m: usize) -> FeatureNo
    requires { HasEntry m work.now }
    ensures { result.0 ≡ (constraint_at work.now m).feature }
{
    FeatureNo(work[CONSTRAINTS + CONSTRAINT * m + 1])
}

pub fn lo_of(work: &[u32], m: usize) -> u32
    requires { HasEntry m work.now }
    ensures { result ≡ (constraint_at work.now m).lo }
{
    work[CONSTRAINTS + CONSTRAINT * m + 2]
}

pub fn hi_of(work: &[u32], m: usize) -> u32
    requires { HasEntry m work.now }
    ensures { result ≡ (constraint_at work.now m).hi }
{
    work[CONSTRAINTS + CONSTRAINT * m + 3]
}

pub fn piece_lo(work: &[u32], m: usize) -> u32
    requires { HasEntry m work.now }
    ensures { result ≡ (piece_at work.now m).lo }
{
    work[CONSTRAINTS + CONSTRAINT * m + 4]
}

pub fn piece_hi(work: &[u32], m: usize) -> u32
    requires { HasEntry m work.now }
    ensures { result ≡ (piece_at work.now m).hi }
{
    work[CONSTRAINTS + CONSTRAINT * m + 5]
}

// The constraint of individual x; its piece is left as it is.
pub fn put_constraint(work: &mut [u32], m: usize, x: u32, f: FeatureNo, lo: u32, hi: u32)
    requires { HasEntry m work.old }
    ensures { ConstraintPut m x f.0 lo hi work.old work.new }
{
    let at = CONSTRAINTS + CONSTRAINT * m;
    work[at] = x;
    work[at + 1] = f.0;
    work[at + 2] = lo;
    work[at + 3] = hi;
}

pub fn put_piece(work: &mut [u32], m: usize, lo: u32, hi: u32)
    requires { HasEntry m work.old }
    ensures { PiecePut m lo hi work.old work.new }
{
    let at = CONSTRAINTS + CONSTRAINT * m;
    work[at + 4] = lo;
    work[at + 5] = hi;
}
