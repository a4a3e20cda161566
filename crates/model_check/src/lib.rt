// Model check: whether the interpretation that a model's words stand for satisfies the vocabulary and has its first individual in
// the first policy and outside the second. Time grows with the model's records times the policies' depth, and with the individuals
// times the records of the vocabulary and of the policies; spans of features take two walks over the facts at most for each policy.
#![tactic(auto)]

ghost use Rattle.std.specs.Prelude.{◌≡◌};
ghost use Rattle.frames.specs.Frames.{Only, Span};
ghost use Rattle.meaning.specs.Limits.{work_size};
ghost use Rattle.meaning.specs.Refusals.{fault_in, refusal_number};
ghost use Rattle.model_check.specs.Judging.{Checkable, ModelCheckPost, Partable, Parted, is_refuted, tables_refusal};

use extension::{COLUMNS, is_inside};
use frames::{check_work, clear};
use meaning::limits::WORK_SIZE;
use meaning::refusals::Refusal;
use model::check_model;
use policy::check_input;
use satisfaction::is_satisfied;

// Whether the model tells the policies apart, with columns to work in.
fn does_part(p: &[u32], q: &[u32], m: &[u32], work: &mut [u32], columns: &mut [u32]) -> bool
    requires { Partable p.now q.now m.now work.old columns.old }
    ensures { Parted p.now q.now m.now work.old work.new result }
{
    if !is_inside(p, m, work, columns) {
        return false;
    }
    !is_inside(q, m, work, columns)
}

// Whether the model satisfies the vocabulary and tells the policies apart.
fn does_refute(v: &[u32], p: &[u32], q: &[u32], m: &[u32], work: &mut [u32]) -> bool
    requires { Checkable v.now p.now q.now m.now work.old }
    ensures value { result ≡ is_refuted v.now p.now q.now m.now }
    ensures only { Only (Span 0 work_size) work.old work.new }
{
    if !is_satisfied(v, m, work) {
        return false;
    }
    let mut columns = [0; COLUMNS];
    does_part(p, q, m, work, &mut columns)
}

// The four tables: the vocabulary, the policies, the model.
fn check_tables(v: &[u32], p: &[u32], q: &[u32], m: &[u32]) -> Result<(), Refusal>
    ensures { fault_in refusal_number result ≡ tables_refusal v.now p.now q.now m.now }
{
    check_input(v, p, q)?;
    check_model(v, m)?;
    Ok(())
}

// Model check: the refusals of the vocabulary, the policies and the model, that of the work slice, then the answer.
pub fn model_check(
    v: &[u32],
    p: &[u32],
    q: &[u32],
    m: &[u32],
    work: &mut [u32],
) -> Result<bool, Refusal>
    ensures { ModelCheckPost v.now p.now q.now m.now
        work.old work.new result }
{
    check_tables(v, p, q, m)?;
    check_work(work)?;
    let yes = does_refute(v, p, q, m, work);
    clear(work, 0, WORK_SIZE);
    Ok(yes)
}
