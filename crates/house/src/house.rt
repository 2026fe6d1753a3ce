//! What a house holds.
ghost use Rattle.std.specs.Prelude.{◌≡◌, ℕ, ◌<◌, ◌≤◌, true, vec_len, vec_capacity, slice_index_or};
ghost use Rattle.book.specs.declared.account.Account.{Account};
ghost use Rattle.book.specs.declared.account.Placement.{Placement};
ghost use Rattle.house.specs.Places.{Within};
ghost use Rattle.house.specs.Sound.{sound};

use account::market::Market;
use book::account::{Account, Placement};

/// How many orders are placed in a day.
pub(crate) const MAX_ORDERS: usize = 9_999;

/// A house, closed or trading.
#[derive(Drop)]
pub struct House<R> {
    pub(crate) number: u32,
    pub(crate) market: Market<R>,
    pub(crate) accounts: Vec<Account>,
    /// The minute of the trading day.
    pub(crate) minute: u32,
    /// The orders of the trading day, by number.
    pub(crate) placed: Vec<Placement>,
    ghost few: { vec_len accounts ≤ 32 },
    ghost room: { 32 ≤ vec_capacity accounts },
    ghost numbers: { vec_len placed ≤ 9_999 },
    ghost number_room: { 9_999 ≤ vec_capacity placed },
    ghost sound: { (k : ℕ) (d : Account) → k < vec_len accounts → sound market.series.items (vec_len placed) (slice_index_or accounts.items k d) ≡ true },
    ghost within: { (k : ℕ) (d : Placement) → k < vec_len placed → Within (vec_len accounts) (slice_index_or placed.items k d) },
}
