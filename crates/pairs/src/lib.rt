// The pairs of disjoint classes, listed once a call after the rows of the work slice.
#![tactic(auto)]

ghost use Rattle.std.specs.Prelude.{◌<◌, ◌≤◌, ◌≡◌, length};
ghost use Rattle.layout.specs.Places.{most_pairs, pairs_end};
ghost use Rattle.meaning.specs.Vocabulary.{axiom_at, vocabulary_refusal};
ghost use Rattle.pairs.specs.Pairs.{Listed, PairRoom, agree_in, enlisted, has_both, pair_at, pair_count, with_pair};

use layout::{PAIRS, pair_at};
use meaning::ClassNo;
use vocabulary::{Axiom, axiom_at, axiom_next, first_axiom};
use words::ClassSet;

fn add_pair(work: &mut [u32], a: ClassNo, b: ClassNo)
    requires { PairRoom work.old }
    ensures { work.new ≡ with_pair work.old a.0 b.0 }
{
    let n = work[PAIRS];
    let at = pair_at(n);
    work[at] = a.0;
    work[at + 1] = b.0;
    work[PAIRS] = n + 1;
}

// What record k says, where it says that two classes share no individual.
fn enlist(v: &[u32], work: &mut [u32], k: u32)
    requires { PairRoom work.old }
    ensures { work.new ≡ enlisted work.old (axiom_at v.now k) }
{
    let Some(Axiom::Disjoint(a, b)) = axiom_at(v, k) else {
        return;
    };
    add_pair(work, a, b);
}

// Writes the list of the pairs, by one walk over the records.
pub fn list_pairs(v: &[u32], work: &mut [u32])
    requires { (vocabulary_refusal v.now ≡ 0) × (pairs_end ≤ length work.old) }
    ensures { Listed v.now work.old work.new }
{
    work[PAIRS] = 0;
    let mut k = first_axiom(v);
    // The chain of records ends at 0, which a record's own word says.
    while k != 0 {
        enlist(v, work, k);
        k = axiom_next(v, k);
    }
}

// Whether both classes of pair i are in the set.
fn has_both(work: &[u32], i: u32, s: ClassSet) -> bool
    requires { (i < most_pairs) × (pairs_end ≤ length work.now) }
    ensures { result ≡ has_both s.words (pair_at work.now i) }
{
    let at = pair_at(i);
    let a = ClassNo(work[at]);
    let b = ClassNo(work[at + 1]);
    s.has(a) && s.has(b)
}

// Whether that is so of no pair. The set is closed upward, so a look at the pairs that are stated is enough.
pub fn is_compatible(work: &[u32], s: ClassSet) -> bool
    requires { (pair_count work.now ≤ most_pairs) × (pairs_end ≤ length work.now) }
    ensures { result ≡ agree_in work.now s.words }
{
    (0..work[PAIRS]).all(|i| !has_both(work, i, s))
}
