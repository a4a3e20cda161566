// Read policy: records of six words after a header, walked a record, its child chain, its next.
#![tactic(auto)]

ghost use Rattle.std.specs.Prelude.{◌≡◌, cond, false, not, ◌≤◌, eqb, length};
ghost use Rattle.meaning.specs.Answers.{reading_answer};
ghost use Rattle.meaning.specs.Operations.{input_refusal, read_policy, read_second_policy};
ghost use Rattle.meaning.specs.Policy.{child_of, first_term, headed_policy, hi_of, kind_of, lo_of, name_of, next_of, policy_refusal};
ghost use Rattle.meaning.specs.Policy.{record_fits, second_refusal, sound_record};
ghost use Rattle.meaning.specs.Records.{last_of, or_else};
ghost use Rattle.meaning.specs.Refusals.{fault_in, policy_number, refusal_number};
ghost use Rattle.meaning.specs.Vocabulary.{vocabulary_refusal};
ghost use Rattle.policy.specs.Trails.{Follows, Walkable, depth_at, fault_at, levels};

use meaning::limits::{MOST_DEPTH, MOST_POLICY_WORDS, MOST_RECORDS};
use meaning::refusals::{PolicyFault, Refusal};
use meaning::{ClassNo, FeatureNo, RoleNo};
use records::{is_onward, word};
use vocabulary::{check_vocabulary, is_class, is_feature, is_role};
use words::{has, insert};

pub fn kind_of(p: &[u32], k: u32) -> u32
    ensures { result ≡ kind_of p.now k }
{
    word(p, 6 * (k as usize))
}

pub fn name_of(p: &[u32], k: u32) -> u32
    ensures { result ≡ name_of p.now k }
{
    word(p, 6 * (k as usize) + 1)
}

pub fn lo_of(p: &[u32], k: u32) -> u32
    ensures { result ≡ lo_of p.now k }
{
    word(p, 6 * (k as usize) + 2)
}

pub fn hi_of(p: &[u32], k: u32) -> u32
    ensures { result ≡ hi_of p.now k }
{
    word(p, 6 * (k as usize) + 3)
}

pub fn child_of(p: &[u32], k: u32) -> u32
    ensures { result ≡ child_of p.now k }
{
    word(p, 6 * (k as usize) + 4)
}

pub fn next_of(p: &[u32], k: u32) -> u32
    ensures { result ≡ next_of p.now k }
{
    word(p, 6 * (k as usize) + 5)
}

pub fn first_term(p: &[u32]) -> u32
    ensures { result ≡ first_term p.now }
{
    word(p, 0)
}

// The header is record 0.
fn last_record(p: &[u32]) -> usize
    requires { 6 ≤ length p.now }
    ensures { result ≡ last_of 6 p.now }
{
    p.len() / 6 - 1
}

// SPECIFICATION 4.3: kind 5 in the header's chain, the others below it.
fn is_placed(depth: u32, kind: u32) -> bool
    ensures { result ≡ cond (eqb depth 0) (eqb kind 5) (not (eqb kind 5)) }
{
    if depth == 0 { kind == 5 } else { kind != 5 }
}

// Record k's kind, name and zeros. Tests that have no order are joined by `&`, which does not branch.
fn is_fit(v: &[u32], p: &[u32], depth: u32, k: u32) -> bool
    ensures { result ≡ record_fits v.now p.now depth k }
{
    let kind = kind_of(p, k);
    if !is_placed(depth, kind) {
        return false;
    }
    let a = name_of(p, k);
    let plain = (lo_of(p, k) == 0) & (hi_of(p, k) == 0);
    let leaf = child_of(p, k) == 0;
    match kind {
        1 => is_class(v, ClassNo(a)) & (plain & leaf),
        2 => (a == 0) & (plain & leaf),
        3 => is_role(v, RoleNo(a)) & plain,
        4 => is_feature(v, FeatureNo(a)) & leaf,
        5 => (a == 0) & plain,
        _ => false,
    }
}

// The whole record: its links as well.
fn is_sound(v: &[u32], p: &[u32], depth: u32, k: u32) -> bool
    requires { 6 ≤ length p.now }
    ensures { result ≡ sound_record v.now p.now depth k }
{
    let last = last_record(p);
    is_fit(v, p, depth, k)
        & (is_onward(last, k, child_of(p, k)) & is_onward(last, k, next_of(p, k)))
}

// Words with a bit for each record.
const MARKS: usize = MOST_RECORDS / 32;

// The header's chain is a level too.
const LEVELS: u32 = MOST_DEPTH + 1;

// What is wrong at record k, looked for in this order: it was reached before, it is not sound, it is too deep. left counts the levels
// that may still stand, the record's own among them.
fn check_record(v: &[u32], p: &[u32], left: u32, k: u32, seen: &[u32]) -> Result<(), PolicyFault>
    requires { (6 ≤ length p.now) × (left ≤ levels) }
    ensures { fault_in policy_number result ≡ fault_at v.now p.now (depth_at left) k seen.now }
{
    let reached = has(seen, k);
    let sound = is_sound(v, p, LEVELS - left, k);
    if reached {
        return Err(PolicyFault::ReachedTwice);
    }
    if !sound {
        return Err(PolicyFault::Record);
    }
    if left == 0 {
        return Err(PolicyFault::TooDeep);
    }
    Ok(())
}

// The first fault of the walk from record first on; the records reached are marked. It ends, since levels fall into a child chain and
// links rise along a chain. Only the former is a call: the stack does not grow with a chain's length.
fn walk_from(
    v: &[u32],
    p: &[u32],
    left: u32,
    first: u32,
    seen: &mut [u32],
) -> Result<(), PolicyFault>
    requires { Walkable p.now left first }
    ensures { Follows v.now p.now left first seen.old seen.new (fault_in policy_number result) }
{
    let mut k = first;
    while k != 0 {
        check_record(v, p, left, k, seen)?;
        let child = child_of(p, k);
        insert(seen, k);
        k = next_of(p, k);
        if child == 0 {
            continue;
        }
        walk_from(v, p, left - 1, child, seen)?;
    }
    Ok(())
}

fn is_headed(p: &[u32]) -> bool
    requires { 6 ≤ length p.now }
    ensures { result ≡ headed_policy p.now }
{
    (first_term(p) as usize <= last_record(p))
        & ((word(p, 1) == 0)
            & ((word(p, 2) == 0) & ((word(p, 3) == 0) & ((word(p, 4) == 0) & (word(p, 5) == 0)))))
}

// The first fault: the operations that read a policy pass it on.
pub fn check_policy(v: &[u32], p: &[u32]) -> Result<(), PolicyFault>
    ensures { fault_in policy_number result ≡ policy_refusal v.now p.now }
{
    if !records::is_sized(6, MOST_POLICY_WORDS, p.len()) {
        return Err(PolicyFault::Length);
    }
    if !is_headed(p) {
        return Err(PolicyFault::Header);
    }
    let mut seen = [0; MARKS];
    walk_from(v, p, LEVELS, first_term(p), &mut seen)
}

// The vocabulary, then the policy.
pub fn read_policy(v: &[u32], p: &[u32]) -> Result<(), Refusal>
    ensures answer { reading_answer result ≡ read_policy v.now p.now }
    ensures number { fault_in refusal_number result ≡ or_else (vocabulary_refusal v.now) (policy_refusal v.now p.now) }
{
    check_vocabulary(v)?;
    check_policy(v, p)?;
    Ok(())
}

// The policy as the second of two.
fn check_second(v: &[u32], q: &[u32]) -> Result<(), Refusal>
    ensures { fault_in refusal_number result ≡ second_refusal (policy_refusal v.now q.now) }
{
    match check_policy(v, q) {
        Ok(()) => Ok(()),
        Err(f) => Err(Refusal::SecondPolicy(f)),
    }
}

pub fn read_second_policy(v: &[u32], q: &[u32]) -> Result<(), Refusal>
    ensures { reading_answer result ≡ read_second_policy v.now q.now }
{
    check_vocabulary(v)?;
    check_second(v, q)
}

// The three tables of an operation: the vocabulary, the first policy, the second.
pub fn check_input(v: &[u32], p: &[u32], q: &[u32]) -> Result<(), Refusal>
    ensures { fault_in refusal_number result ≡ input_refusal v.now p.now q.now }
{
    read_policy(v, p)?;
    check_second(v, q)?;
    Ok(())
}
