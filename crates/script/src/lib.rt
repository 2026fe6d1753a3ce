//! How a line of a script names a call on a house, and how an answer is printed.
#![tactic(auto)]

pub mod answer;
pub mod command;
mod fields;
pub mod line;
mod number;
pub mod worked;
