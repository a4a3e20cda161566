// Spell: a policy written in one order and without repeats, so that policies with one spelling mean the same.
#![tactic(auto)]

ghost use Rattle.std.specs.Prelude.{◌≤◌, ℕ, List, ◌≡◌, length};
ghost use Rattle.frames.specs.Frames.{Only, Span};
ghost use Rattle.layout.specs.Places.{InTables};
ghost use Rattle.meaning.specs.Limits.{most_records, work_size};
ghost use Rattle.meaning.specs.Policy.{policy_refusal};
ghost use Rattle.meaning.specs.Vocabulary.{vocabulary_refusal};
ghost use Rattle.preparation.specs.Prepared.{Accepting};
ghost use Rattle.spell.specs.Filing.{CollectedBy, FiledBy, LaidOut, Listed};
ghost use Rattle.spelling.specs.Operation.{SpellPost};

use arrangement::{DEPTHS, arrange, find_depths};
use flattening::prepare_flat;
use frames::{check_work, clear};
use functional::Functional;
use layout::Tables;
use meaning::limits::{MOST_RECORDS, WORK_SIZE};
use meaning::refusals::Refusal;
use normal_form::normalise_all;
use policy::{first_term, next_of, read_policy};
use preparation::prepare;
use tabulation::tabulate;
use writing::{is_too_long, size, write};

// The records of the possible terms, in front of the slice; how many there are.
fn collect_possible(p: &[u32], work: &mut [u32], f: Functional, terms: &mut [u32]) -> usize
    requires { (work_size ≤ length work.old) × (most_records ≤ length terms.old) × ((v : List ℕ) × Accepting v p.now work.old f) }
    ensures collected_by { CollectedBy p.now work.old f terms.new result }
    ensures only { Only InTables work.old work.new }
    ensures terms_len_unchanged { length terms.new ≡ length terms.old }
{
    let mut n = 0;
    let mut k = first_term(p);
    while k != 0 {
        let t = tabulate(p, work, f, k);
        let next = next_of(p, k);
        if t.impossible {
            k = next;
            continue;
        }
        terms[n] = k;
        n += 1;
        k = next;
    }
    n
}

// The normal forms of the possible terms in the tables, one behind another, each individual with the classes that are stated of it.
fn lay_out(v: &[u32], p: &[u32], work: &mut [u32]) -> Tables
    requires { (vocabulary_refusal v.now ≡ 0) × (policy_refusal v.now p.now ≡ 0) × (work_size ≤ length work.old) }
    ensures laid_out { LaidOut v.now p.now work.new result }
    ensures only { Only (Span 0 work_size) work.old work.new }
{
    let mut terms = [0; MOST_RECORDS];
    let f = prepare(v, work);
    let n = collect_possible(p, work, f, &mut terms[..]);
    let g = prepare_flat(v, work);
    normalise_all(p, work, g, &terms[..], n)
}

// What the tables hold, in order: too long a spelling, too short an output, or the words.
fn file(work: &[u32], t: Tables, out: &mut [u32]) -> Result<usize, Refusal>
    requires { Listed work.now t }
    ensures filed_by { FiledBy work.now t out.old out.new result }
    ensures out_len_unchanged { length out.new ≡ length out.old }
{
    let mut depths = [0; DEPTHS];
    let mut order = [0; MOST_RECORDS];
    find_depths(work, t.individuals, &mut depths[..]);
    let top = arrange(work, t, &depths[..], &mut order[..]);
    let arranged = &order[top..];
    if is_too_long(work, &depths[..], arranged) {
        return Err(Refusal::Spelling);
    }
    let n = size(work, arranged);
    if out.len() < n {
        return Err(Refusal::Output);
    }
    write(work, &depths[..], arranged, out);
    Ok(n)
}

// Spell: the words written, after the refusals of the vocabulary, the policy and the work slice, of too long a spelling and of too short
// an output. Time grows with the vocabulary's records times its classes, with the policy's records, and with the square of those of one
// individual.
pub fn spell(v: &[u32], p: &[u32], work: &mut [u32], out: &mut [u32]) -> Result<usize, Refusal>
    ensures { SpellPost v.now p.now work.old work.new out.old out.new result }
{
    read_policy(v, p)?;
    check_work(work)?;
    let t = lay_out(v, p, work);
    let answer = file(work, t, out);
    clear(work, 0, WORK_SIZE);
    answer
}
