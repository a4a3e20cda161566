// The three series of names, the answers of the operations, and their refusals. The definitions stand in specs/, the theorems about them
// in crate theory.
#![tactic(auto)]

pub mod limits;
pub mod refusals;

// A class's number, from 1.
#[derive(Clone, Copy)]
pub struct ClassNo(pub u32);

// A role's number, from 1.
#[derive(Clone, Copy)]
pub struct RoleNo(pub u32);

// A feature's number, from 1.
#[derive(Clone, Copy)]
pub struct FeatureNo(pub u32);

// Compliance: compliant, or term s and combination q with the words written. An Option would not say which of the two is the yes.
#[derive(Clone, Copy)]
pub enum Verdict {
    Compliant,
    Outside(u32, u32, usize),
}

// Equality: equal, or a side with its s and q and the words written. Of both, as of a verdict, the yes has a name.
#[derive(Clone, Copy)]
pub enum Comparison {
    Equal,
    Differs(u32, u32, u32, usize),
}
