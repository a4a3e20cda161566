// A model's words: records of five words after a header, chained by links that rise.
#![tactic(auto)]

ghost use Rattle.std.specs.Prelude.{◌≡◌, ◌≤◌, length};
ghost use Rattle.meaning.specs.Model.{fact_fits, fact_kind, fact_name, fact_next, fact_other, fact_owner, first_fact};
ghost use Rattle.meaning.specs.Model.{headed_model, individual_count, model_refusal, sound_fact};
ghost use Rattle.meaning.specs.Records.{last_of};
ghost use Rattle.meaning.specs.Refusals.{fault_in, model_number};
ghost use Rattle.model.specs.Chain.{chain_refusal};

use meaning::limits::{MOST_INDIVIDUALS, MOST_MODEL_WORDS};
use meaning::refusals::ModelFault;
use meaning::{ClassNo, FeatureNo, RoleNo};
use records::{is_name, is_onward, word};
use vocabulary::{is_class, is_feature, is_role};

pub fn fact_kind(m: &[u32], k: u32) -> u32
    ensures { result ≡ fact_kind m.now k }
{
    word(m, 5 * (k as usize))
}

pub fn fact_name(m: &[u32], k: u32) -> u32
    ensures { result ≡ fact_name m.now k }
{
    word(m, 5 * (k as usize) + 1)
}

pub fn fact_owner(m: &[u32], k: u32) -> u32
    ensures { result ≡ fact_owner m.now k }
{
    word(m, 5 * (k as usize) + 2)
}

pub fn fact_other(m: &[u32], k: u32) -> u32
    ensures { result ≡ fact_other m.now k }
{
    word(m, 5 * (k as usize) + 3)
}

pub fn fact_next(m: &[u32], k: u32) -> u32
    ensures { result ≡ fact_next m.now k }
{
    word(m, 5 * (k as usize) + 4)
}

pub fn first_fact(m: &[u32]) -> u32
    ensures { result ≡ first_fact m.now }
{
    word(m, 0)
}

pub fn individual_count(m: &[u32]) -> u32
    ensures { result ≡ individual_count m.now }
{
    word(m, 1)
}

// The header is record 0.
fn last_fact(m: &[u32]) -> usize
    requires { 5 ≤ length m.now }
    ensures { result ≡ last_of 5 m.now }
{
    m.len() / 5 - 1
}

// Record k's kind, names and zeros. Tests that have no order are joined by `&`, which does not branch.
fn is_fit(v: &[u32], m: &[u32], k: u32) -> bool
    ensures { result ≡ fact_fits v.now m.now k }
{
    let n = individual_count(m);
    let owned = is_name(n, fact_owner(m, k));
    let kind = fact_kind(m, k);
    let a = fact_name(m, k);
    let x = fact_other(m, k);
    match kind {
        1 => owned & (is_class(v, ClassNo(a)) & (x == 0)),
        2 => owned & (is_role(v, RoleNo(a)) & is_name(n, x)),
        3 => owned & is_feature(v, FeatureNo(a)),
        _ => false,
    }
}

// The whole record: its link as well.
fn is_sound(v: &[u32], m: &[u32], k: u32) -> bool
    requires { 5 ≤ length m.now }
    ensures { result ≡ sound_fact v.now m.now k }
{
    is_fit(v, m, k) & is_onward(last_fact(m), k, fact_next(m, k))
}

// The first fault along the chain, which ends: a link that does not rise is refused before it is followed.
fn check_facts(v: &[u32], m: &[u32]) -> Result<(), ModelFault>
    requires { (5 ≤ length m.now) × (first_fact m.now ≤ last_of 5 m.now) }
    ensures { fault_in model_number result ≡ chain_refusal v.now m.now }
{
    let mut k = first_fact(m);
    while k != 0 {
        if !is_sound(v, m, k) {
            return Err(ModelFault::Record);
        }
        k = fact_next(m, k);
    }
    Ok(())
}

fn is_headed(m: &[u32]) -> bool
    requires { 5 ≤ length m.now }
    ensures { result ≡ headed_model m.now }
{
    (first_fact(m) as usize <= last_fact(m))
        & (is_name(MOST_INDIVIDUALS, individual_count(m))
            & ((word(m, 2) == 0) & ((word(m, 3) == 0) & (word(m, 4) == 0))))
}

// The first fault: the operation that reads a model passes it on.
pub fn check_model(v: &[u32], m: &[u32]) -> Result<(), ModelFault>
    ensures { fault_in model_number result ≡ model_refusal v.now m.now }
{
    if !records::is_sized(5, MOST_MODEL_WORDS, m.len()) {
        return Err(ModelFault::Length);
    }
    if !is_headed(m) {
        return Err(ModelFault::Header);
    }
    check_facts(v, m)
}
