// The functional roles and features of a vocabulary, worked out once a call.
#![tactic(auto)]

ghost use Rattle.std.specs.Prelude.{ℕ, List, ◌≡◌, replicate};
ghost use Rattle.functional.specs.FunctionalNames.{FunctionalNames};
ghost use Rattle.meaning.specs.Stated.{is_functional_feature, is_functional_role};
ghost use Rattle.meaning.specs.Vocabulary.{vocabulary_of, vocabulary_refusal};
ghost use Rattle.vocabulary.specs.Names.{Noted, name_at};
ghost use Rattle.words.specs.Members.{others_of};
ghost use Rattle.words.specs.Sets.{in_set, including_all};

use meaning::{FeatureNo, RoleNo};
use vocabulary::{axiom_next, feature_count, first_axiom, insert_name, role_count};
use words::{NAME_WORDS, has, insert_others};

// Puts the name that record k lets have many values into the set of its series.
fn note(v: &[u32], k: u32, roles: &mut [u32], features: &mut [u32])
    ensures roles { roles.new ≡ including_all roles.old (name_at v.now 6 k) }
    ensures features { features.new ≡ including_all features.old (name_at v.now 7 k) }
{
    insert_name(v, k, 6, roles);
    insert_name(v, k, 7, features);
}

// Puts the names that records let have many values into two sets, by one walk.
fn insert_many(v: &[u32], roles: &mut [u32], features: &mut [u32])
    requires { vocabulary_refusal v.now ≡ 0 }
    ensures roles { Noted v.now 6 roles.old roles.new }
    ensures features { Noted v.now 7 features.old features.new }
{
    let mut k = first_axiom(v);
    // The chain of records ends at 0, which a record's own word says.
    while k != 0 {
        note(v, k, roles, features);
        k = axiom_next(v, k);
    }
}

// Those of the numbers 1 to n that a set lacks.
fn others(named: &[u32], n: u32) -> [u32; NAME_WORDS]
    ensures { result ≡ including_all (replicate 2 0) (others_of named.now n) }
{
    let mut names = [0; NAME_WORDS];
    insert_others(&mut names, named, n);
    names
}

// The names of which no individual has two values.
#[derive(Clone, Copy)]
pub struct Functional {
    pub roles: [u32; NAME_WORDS],
    pub features: [u32; NAME_WORDS],
}

impl Functional {
    // A name is functional unless a record lets it have many values; what kinds 3 and 4 say is so by default.
    pub fn of(v: &[u32]) -> Self
        requires { vocabulary_refusal v.now ≡ 0 }
        ensures { FunctionalNames v.now result }
    {
        let mut many_roles = [0; NAME_WORDS];
        let mut many_features = [0; NAME_WORDS];
        insert_many(v, &mut many_roles, &mut many_features);
        Functional {
            roles: others(&many_roles, role_count(v)),
            features: others(&many_features, feature_count(v)),
        }
    }

    // A method for roles and one for features: the type of a number says which of the sets is asked.
    pub fn has_role(self, r: RoleNo) -> bool
        ensures value { result ≡ in_set self.roles r.0 }
        ensures functional { (v : List ℕ) → FunctionalNames v self → result ≡ is_functional_role (vocabulary_of v) r.0 }
    {
        has(&self.roles, r.0)
    }

    pub fn has_feature(self, f: FeatureNo) -> bool
        ensures value { result ≡ in_set self.features f.0 }
        ensures functional { (v : List ℕ) → FunctionalNames v self → result ≡ is_functional_feature (vocabulary_of v) f.0 }
    {
        has(&self.features, f.0)
    }
}
