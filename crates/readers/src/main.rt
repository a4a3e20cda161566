// Runs the readers over damaged tables and prints each refusal's number, 0 where a table is accepted. What it must print is
// worked out from the rules of SPECIFICATION 9.2 to 9.4 by tests/readers.py.
#![tactic(auto)]

ghost use Rattle.std.specs.Prelude.{◌<◌};

use meaning::refusals::Refusal;

// A record of each kind; damage makes names that stand both ways, too.
const VOCABULARY: [u32; 44] = [
    4, 3, 2, 1, 1, 2, 1, 2, 1, 4, 1, 3, 1, 4, 3, 4, 2, 1, 3, 5, 3, 1, 0, 6, 3, 2, 0, 7, 4, 1, 0, 8,
    5, 3, 1, 9, 6, 3, 0, 10, 7, 2, 0, 0,
];

// Two terms with a record of each kind, and a record that nothing reaches.
const POLICY: [u32; 60] = [
    1, 0, 0, 0, 0, 0, 5, 0, 0, 0, 2, 6, 3, 1, 0, 0, 3, 5, 1, 2, 0, 0, 0, 4, 4, 1, 3, 9, 0, 0, 1, 1,
    0, 0, 0, 0, 5, 0, 0, 0, 7, 0, 3, 3, 0, 0, 0, 8, 2, 0, 0, 0, 0, 0, 9, 9, 9, 9, 9, 9,
];

const VALUES: [u32; 15] = [0, 1, 2, 3, 4, 5, 6, 7, 8, 9, 10, 65, 256, 257, 4294967295];

// What cannot be printed is left out: what must be printed shows it.
fn print(rt: &impl Print, n: u32) {
    let _ = println!(rt; "{n}");
}

fn say(rt: &impl Print, r: Result<(), Refusal>) {
    match r {
        Ok(()) => print(rt, 0),
        Err(e) => print(rt, e.number()),
    }
}

// The first n words.
fn vocabulary_to(rt: &impl Print, v: &[u32], n: usize) {
    if let Some(words) = v.get(..n) {
        say(rt, vocabulary::read_vocabulary(words));
    }
}

fn policy_to(rt: &impl Print, v: &[u32], p: &[u32], n: usize) {
    if let Some(words) = p.get(..n) {
        say(rt, policy::read_policy(v, words));
    }
}

fn vocabularies(rt: &impl Print) {
    for n in 0..VOCABULARY.len() + 1 {
        vocabulary_to(rt, &VOCABULARY, n);
    }
    for i in 0..VOCABULARY.len() {
        for &value in &VALUES {
            let mut damaged = VOCABULARY;
            damaged[i] = value;
            say(rt, vocabulary::read_vocabulary(&damaged));
        }
    }
}

fn policies(rt: &impl Print) {
    for n in 0..POLICY.len() + 1 {
        policy_to(rt, &VOCABULARY, &POLICY, n);
    }
    for i in 0..POLICY.len() {
        for &value in &VALUES {
            let mut damaged = POLICY;
            damaged[i] = value;
            say(rt, policy::read_policy(&VOCABULARY, &damaged));
            say(rt, policy::read_second_policy(&VOCABULARY, &damaged));
        }
    }
}

// A term of n roles, each the child of the one before: 16 are read, and one more is too deep.
fn nested(rt: &impl Print, n: usize)
    requires { n < 20 }
{
    let mut p = [0u32; 132];
    p[0] = 1;
    p[6] = 5;
    p[10] = 2;
    for k in 2..21usize {
        p[6 * k] = 3;
        p[6 * k + 1] = 1;
        p[6 * k + 4] = (k + 1) as u32;
    }
    p[6 * (n + 1) + 4] = 0;
    policy_to(rt, &VOCABULARY, &p, 6 * (n + 2));
}

fn main(rt: HostRuntime) {
    vocabularies(&rt);
    policies(&rt);
    for n in 1..20usize {
        nested(&rt, n);
    }
}
