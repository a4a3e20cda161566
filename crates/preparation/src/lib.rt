// What an accepted vocabulary states, worked out once a call into the front of the work slice: nothing else looks through its records.
#![tactic(auto)]

ghost use Rattle.std.specs.Prelude.{◌≤◌, ◌≡◌, length};
ghost use Rattle.frames.specs.Frames.{Only, Span};
ghost use Rattle.layout.specs.Places.{pairs_end};
ghost use Rattle.meaning.specs.Limits.{work_size};
ghost use Rattle.meaning.specs.Vocabulary.{vocabulary_refusal};
ghost use Rattle.preparation.specs.Prepared.{Prepared};

use functional::Functional;

// What does not change inside a call: the closed rows of classes and roles, the pairs of disjoint classes, and the functional names.
pub fn prepare(v: &[u32], work: &mut [u32]) -> Functional
    requires { (vocabulary_refusal v.now ≡ 0) × (work_size ≤ length work.old) }
    ensures prepared { Prepared v.now work.new result }
    ensures only { Only (Span 0 pairs_end) work.old work.new }
{
    closure::close(v, work);
    closure::close_ranges(v, work);
    pairs::list_pairs(v, work);
    Functional::of(v)
}
