//! One account at a time: its equity balance, its requirements, what its orders need, and its margin call.
#![tactic(auto)]

pub mod calls;
pub mod equity;
pub mod figures;
pub mod fill;
pub mod listing;
pub mod market;
pub mod orders;
pub mod prices;
pub mod requirements;
pub mod settle;
