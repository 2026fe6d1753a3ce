//! Margin levels of one lot, and the margin rules that turn the lots on two sides of a product into margin levels.
#![tactic(auto)]

pub mod freed;
pub mod levels;
pub mod rule;
pub mod worked;
