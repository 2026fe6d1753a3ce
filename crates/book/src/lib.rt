//! The subject's types, and the rulebook as definitions in specs/: what each call on a house answers and leaves.
#![tactic(auto)]

pub mod account;
pub mod market;
pub mod refusal;
pub mod worked;
