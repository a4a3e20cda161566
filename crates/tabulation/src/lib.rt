// One term in the tables of the work slice: its normal form, and whether it is possible.
#![tactic(auto)]

ghost use Rattle.std.specs.Prelude.{◌≤◌, ◌≡◌};
ghost use Rattle.layout.specs.Places.{most_pairs};
ghost use Rattle.layout.specs.Tables.{HasEntries, Standing, set_at};
ghost use Rattle.meaning.specs.Lists.{all, counting};
ghost use Rattle.meaning.specs.Policy.{term_at};
ghost use Rattle.normal_form.specs.Tables.{Fit};
ghost use Rattle.pairs.specs.Pairs.{agree_in, pair_count};
ghost use Rattle.tabulation.specs.Clean.{DecidesClean, non_empty_at};
ghost use Rattle.tabulation.specs.Tabulation.{Shaped, Tabulated};

use functional::Functional;
use intervals::is_nonempty;
use layout::{Tables, classes_of, hi_of, lo_of};
use normal_form::normalise;
use pairs::is_compatible;
use words::place;

// Rule 7 at each of the first n individuals.
fn are_compatible(work: &[u32], n: u32) -> bool
    requires { (pair_count work.now ≤ most_pairs) × HasEntries n work.now }
    ensures { result ≡ all (λ i. agree_in work.now (set_at work.now i)) (counting 0 n) }
{
    (0..n).all(|i| is_compatible(work, classes_of(work, place(i))))
}

// Rule 3 at each of the first n constraints.
pub fn are_nonempty(work: &[u32], n: usize) -> bool
    requires { HasEntries n work.now }
    ensures { result ≡ all (non_empty_at work.now) (counting 0 n) }
{
    (0..n).all(|i| is_nonempty(lo_of(work, i), hi_of(work, i)))
}

// Whether rules 3 and 7 find nothing in the form that the tables hold. Time grows with the individuals times the pairs.
pub fn is_clean(work: &[u32], t: Tables) -> bool
    requires { (pair_count work.now ≤ most_pairs) × Standing work.now t }
    ensures { DecidesClean work.now t result }
{
    are_nonempty(work, t.constraints) && are_compatible(work, t.individuals)
}

// The normal form of the term at record k in the tables, and whether rules 1 to 3 make it impossible: no look at the pairs.
pub fn shape(p: &[u32], work: &mut [u32], f: Functional, k: u32) -> Tables
    requires { Fit p.now work.old k }
    ensures { Shaped (term_at p.now k) f work.old work.new result }
{
    let t = normalise(p, work, f, k);
    if t.impossible {
        return t;
    }
    let nonempty = are_nonempty(work, t.constraints);
    Tables {
        impossible: !nonempty,
        ..t
    }
}

// The same, and whether it is impossible.
pub fn tabulate(p: &[u32], work: &mut [u32], f: Functional, k: u32) -> Tables
    requires { Fit p.now work.old k × (pair_count work.old ≤ most_pairs) }
    ensures { Tabulated (term_at p.now k) f work.old work.new result }
{
    let t = shape(p, work, f, k);
    if t.impossible {
        return t;
    }
    let clean = is_clean(work, t);
    Tables {
        impossible: !clean,
        ..t
    }
}
