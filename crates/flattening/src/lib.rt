// A vocabulary in which every class that is below another is below itself instead. The normal forms by it are the same, and its rows hold
// no more than the classes that are stated: so the tables of a term have what is written of it.
#![tactic(auto)]

ghost use Rattle.std.specs.Prelude.{◌≤◌, ◌≡◌, length};
ghost use Rattle.flattening.specs.Flat.{Flattens, flat_word_at, flat_words};
ghost use Rattle.frames.specs.Frames.{Only, Span};
ghost use Rattle.layout.specs.Places.{pairs_end};
ghost use Rattle.meaning.specs.Limits.{work_size};
ghost use Rattle.meaning.specs.Vocabulary.{vocabulary_refusal};
ghost use Rattle.preparation.specs.Prepared.{Prepared};

use functional::Functional;
use meaning::limits::MOST_VOCABULARY_WORDS;
use preparation::prepare;
use records::word;

// Word i of it: in a record of kind 1 the second name is the first.
#[tactic(auto, unfolding(crate::specs::Flat::flat_word_at))]
fn flat_word(v: &[u32], i: usize) -> u32
    ensures { result ≡ flat_word_at v.now i }
{
    if 4 <= i && i % 4 == 2 && word(v, i - 2) == 1 {
        word(v, i - 1)
    } else {
        word(v, i)
    }
}

// All of them, in front of flat.
fn flatten(v: &[u32], flat: &mut [u32])
    requires { length v.now ≤ length flat.old }
    ensures { Flattens v.now flat.old flat.new }
{
    for (i, to) in flat[..v.len()].iter_mut().enumerate() {
        *to = flat_word(v, i);
    }
}

// Prepares it, in place of v.
pub fn prepare_flat(v: &[u32], work: &mut [u32]) -> Functional
    requires { (vocabulary_refusal v.now ≡ 0) × (work_size ≤ length work.old) }
    ensures prepared { Prepared (flat_words v.now) work.new result }
    ensures only { Only (Span 0 pairs_end) work.old work.new }
{
    let mut flat = [0; MOST_VOCABULARY_WORDS];
    flatten(v, &mut flat[..]);
    prepare(&flat[..v.len()], work)
}
