//! What the text of a rate sheet says, and how the margin levels of a product are laid out in columns.
#![tactic(auto)]

pub mod amount;
pub mod layout;
pub mod name;
pub mod number;
pub mod row;
pub mod word;
pub mod worked;
