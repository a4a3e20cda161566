// Read vocabulary: records of four words after a header, chained by links that rise.
#![tactic(auto)]

ghost use Rattle.std.specs.Prelude.{◌≡◌, ◌&&◌, cond, true, ◌≤◌, IsOk, length};
ghost use Rattle.meaning.specs.Answers.{reading_answer};
ghost use Rattle.meaning.specs.Operations.{read_vocabulary};
ghost use Rattle.meaning.specs.Records.{is_name, last_of};
ghost use Rattle.meaning.specs.Refusals.{fault_in, vocabulary_number};
ghost use Rattle.meaning.specs.Vocabulary.{axiom_kind, axiom_left, axiom_next, axiom_right, axioms_refusal, class_count, feature_count};
ghost use Rattle.meaning.specs.Vocabulary.{first_axiom, headed_vocabulary, role_count, sound_axiom, vocabulary_refusal};
ghost use Rattle.vocabulary.specs.Names.{Noted, chain_refusal, name_at};
ghost use Rattle.vocabulary.specs.Axioms.{AxiomRead};
ghost use Rattle.words.specs.Sets.{including_all};

use meaning::limits::{MOST_CLASSES, MOST_FEATURES, MOST_ROLES, MOST_VOCABULARY_WORDS};
use meaning::refusals::{Refusal, VocabularyFault};
use meaning::{ClassNo, FeatureNo, RoleNo};
use records::{is_name, is_onward, word};
use words::{NAME_WORDS, do_meet, insert};

pub fn class_count(v: &[u32]) -> u32
    ensures { result ≡ class_count v.now }
{
    word(v, 0)
}

pub fn role_count(v: &[u32]) -> u32
    ensures { result ≡ role_count v.now }
{
    word(v, 1)
}

pub fn feature_count(v: &[u32]) -> u32
    ensures { result ≡ feature_count v.now }
{
    word(v, 2)
}

pub fn first_axiom(v: &[u32]) -> u32
    ensures { result ≡ first_axiom v.now }
{
    word(v, 3)
}

pub fn axiom_kind(v: &[u32], k: u32) -> u32
    ensures { result ≡ axiom_kind v.now k }
{
    word(v, 4 * (k as usize))
}

pub fn axiom_left(v: &[u32], k: u32) -> u32
    ensures { result ≡ axiom_left v.now k }
{
    word(v, 4 * (k as usize) + 1)
}

pub fn axiom_right(v: &[u32], k: u32) -> u32
    ensures { result ≡ axiom_right v.now k }
{
    word(v, 4 * (k as usize) + 2)
}

pub fn axiom_next(v: &[u32], k: u32) -> u32
    ensures { result ≡ axiom_next v.now k }
{
    word(v, 4 * (k as usize) + 3)
}

// What a record states, SPECIFICATION 3.2.
#[derive(Clone, Copy)]
pub enum Axiom {
    Below(ClassNo, ClassNo),
    Disjoint(ClassNo, ClassNo),
    FunctionalRole(RoleNo),
    FunctionalFeature(FeatureNo),
    Range(RoleNo, ClassNo),
    ManyRole(RoleNo),
    ManyFeature(FeatureNo),
}

// What record k states, or none where its kind is no kind of record. It holds the names that the words have, whether or not they fit.
pub fn axiom_at(v: &[u32], k: u32) -> Option<Axiom>
    ensures { AxiomRead v.now k result }
{
    let a = axiom_left(v, k);
    let b = axiom_right(v, k);
    match axiom_kind(v, k) {
        1 => Some(Axiom::Below(ClassNo(a), ClassNo(b))),
        2 => Some(Axiom::Disjoint(ClassNo(a), ClassNo(b))),
        3 => Some(Axiom::FunctionalRole(RoleNo(a))),
        4 => Some(Axiom::FunctionalFeature(FeatureNo(a))),
        5 => Some(Axiom::Range(RoleNo(a), ClassNo(b))),
        6 => Some(Axiom::ManyRole(RoleNo(a))),
        7 => Some(Axiom::ManyFeature(FeatureNo(a))),
        _ => None,
    }
}

pub fn is_class(v: &[u32], c: ClassNo) -> bool
    ensures { result ≡ is_name (class_count v.now) c.0 }
{
    is_name(class_count(v), c.0)
}

pub fn is_role(v: &[u32], p: RoleNo) -> bool
    ensures { result ≡ is_name (role_count v.now) p.0 }
{
    is_name(role_count(v), p.0)
}

pub fn is_feature(v: &[u32], f: FeatureNo) -> bool
    ensures { result ≡ is_name (feature_count v.now) f.0 }
{
    is_name(feature_count(v), f.0)
}

// The header is record 0.
fn last_axiom(v: &[u32]) -> usize
    requires { 4 ≤ length v.now }
    ensures { result ≡ last_of 4 v.now }
{
    v.len() / 4 - 1
}

fn is_headed(v: &[u32]) -> bool
    requires { 4 ≤ length v.now }
    ensures { result ≡ headed_vocabulary v.now }
{
    is_name(MOST_CLASSES, class_count(v))
        && (role_count(v) <= MOST_ROLES
            && (feature_count(v) <= MOST_FEATURES && first_axiom(v) as usize <= last_axiom(v)))
}

// A record names two things, and both must be right.
fn check_names(left: bool, right: bool) -> Result<(), VocabularyFault>
    ensures { fault_in vocabulary_number result ≡ cond (left && right) 0 3 }
{
    if left && right {
        Ok(())
    } else {
        Err(VocabularyFault::Record)
    }
}

// Record k's kind, names, zeros and link.
fn check_axiom(v: &[u32], k: u32) -> Result<(), VocabularyFault>
    requires { 4 ≤ length v.now }
    ensures { fault_in vocabulary_number result ≡ cond (sound_axiom v.now k) 0 3 }
{
    if !is_onward(last_axiom(v), k, axiom_next(v, k)) {
        return Err(VocabularyFault::Record);
    }
    let b = axiom_right(v, k);
    match axiom_at(v, k) {
        Some(Axiom::Below(c, d)) => check_names(is_class(v, c), is_class(v, d)),
        Some(Axiom::Disjoint(c, d)) => check_names(is_class(v, c), is_class(v, d)),
        Some(Axiom::FunctionalRole(r)) => check_names(is_role(v, r), b == 0),
        Some(Axiom::FunctionalFeature(f)) => check_names(is_feature(v, f), b == 0),
        Some(Axiom::Range(r, c)) => check_names(is_role(v, r), is_class(v, c)),
        Some(Axiom::ManyRole(r)) => check_names(is_role(v, r), b == 0),
        Some(Axiom::ManyFeature(f)) => check_names(is_feature(v, f), b == 0),
        None => Err(VocabularyFault::Record),
    }
}

// Puts the name of record k into a set, where the record is of a kind.
pub fn insert_name(v: &[u32], k: u32, kind: u32, names: &mut [u32])
    ensures { names.new ≡ including_all names.old (name_at v.now kind k) }
{
    if axiom_kind(v, k) == kind {
        insert(names, axiom_left(v, k));
    }
}

// The names that records state functional, and those that they let have many values.
#[derive(Clone, Copy)]
struct Sides {
    functional_roles: [u32; NAME_WORDS],
    functional_features: [u32; NAME_WORDS],
    many_roles: [u32; NAME_WORDS],
    many_features: [u32; NAME_WORDS],
}

impl Sides {
    const NONE: Sides = Sides {
        functional_roles: [0; NAME_WORDS],
        functional_features: [0; NAME_WORDS],
        many_roles: [0; NAME_WORDS],
        many_features: [0; NAME_WORDS],
    };

    // Puts the name of record k into the set of its kind.
    fn note(&mut self, v: &[u32], k: u32)
        ensures functional_roles { self.new.functional_roles ≡ including_all self.old.functional_roles (name_at v.now 3 k) }
        ensures functional_features { self.new.functional_features ≡ including_all self.old.functional_features (name_at v.now 4 k) }
        ensures many_roles { self.new.many_roles ≡ including_all self.old.many_roles (name_at v.now 6 k) }
        ensures many_features { self.new.many_features ≡ including_all self.old.many_features (name_at v.now 7 k) }
    {
        insert_name(v, k, 3, &mut self.functional_roles);
        insert_name(v, k, 4, &mut self.functional_features);
        insert_name(v, k, 6, &mut self.many_roles);
        insert_name(v, k, 7, &mut self.many_features);
    }
}

// The first fault along the chain, which ends: a link that does not rise is refused before it is followed. On the way the names that
// may stand both ways are noted, so that the chain is walked once.
fn check_axioms(v: &[u32], sides: &mut Sides) -> Result<(), VocabularyFault>
    requires { (4 ≤ length v.now) × (first_axiom v.now ≤ last_of 4 v.now) }
    ensures value { fault_in vocabulary_number result ≡ axioms_refusal (length v.now) v.now (first_axiom v.now) }
    ensures functional_roles { IsOk result → Noted v.now 3 sides.old.functional_roles sides.new.functional_roles }
    ensures functional_features { IsOk result → Noted v.now 4 sides.old.functional_features sides.new.functional_features }
    ensures many_roles { IsOk result → Noted v.now 6 sides.old.many_roles sides.new.many_roles }
    ensures many_features { IsOk result → Noted v.now 7 sides.old.many_features sides.new.many_features }
{
    let mut k = first_axiom(v);
    while k != 0 {
        check_axiom(v, k)?;
        sides.note(v, k);
        k = axiom_next(v, k);
    }
    Ok(())
}

// The chain's first fault; then whether a role or a feature is said to be functional and many-valued.
fn check_chain(v: &[u32]) -> Result<(), VocabularyFault>
    requires { (4 ≤ length v.now) × (headed_vocabulary v.now ≡ true) }
    ensures { fault_in vocabulary_number result ≡ chain_refusal v.now }
{
    let mut sides = Sides::NONE;
    check_axioms(v, &mut sides)?;
    if do_meet(&sides.functional_roles, &sides.many_roles) {
        return Err(VocabularyFault::Opposed);
    }
    if do_meet(&sides.functional_features, &sides.many_features) {
        return Err(VocabularyFault::Opposed);
    }
    Ok(())
}

// The first fault: the operations that read a vocabulary first pass it on.
pub fn check_vocabulary(v: &[u32]) -> Result<(), VocabularyFault>
    ensures { fault_in vocabulary_number result ≡ vocabulary_refusal v.now }
{
    if !records::is_sized(4, MOST_VOCABULARY_WORDS, v.len()) {
        return Err(VocabularyFault::Length);
    }
    if !is_headed(v) {
        return Err(VocabularyFault::Header);
    }
    check_chain(v)
}

pub fn read_vocabulary(v: &[u32]) -> Result<(), Refusal>
    ensures { reading_answer result ≡ read_vocabulary v.now }
{
    check_vocabulary(v)?;
    Ok(())
}
