//! A house: the calls on products, series and accounts, generic over the margin rule.
#![tactic(auto)]

mod accounts;
mod cash;
mod closing;
pub mod day;
mod house;
mod listing;
mod orders;
mod sent;
pub mod states;
pub mod ticket;
