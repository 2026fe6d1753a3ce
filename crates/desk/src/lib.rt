//! Giving the calls of a script to a house, and keeping the tickets in hand.
#![tactic(auto)]

pub mod calls;
pub mod session;
