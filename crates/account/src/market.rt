//! What an account's figures depend on besides the account.
ghost use Rattle.std.specs.Prelude.{ℕ, ◌<◌, ◌≤◌, get_or, vec_len, vec_capacity, slice_index_or};
ghost use Rattle.rules.specs.declared.levels.RiskMargins.{RiskMargins};
ghost use Rattle.rules.specs.PerLot.{Fits};
ghost use Rattle.book.specs.declared.market.Series.{Series};

use book::market::Series;
use rules::levels::RiskMargins;

/// A house's margin rule, its products with their risk margins, and its series with their prices.
#[derive(Drop)]
pub struct Market<R> {
    pub rule: R,
    pub products: Vec<RiskMargins>,
    pub series: Vec<Series>,
    ghost few_products: { vec_len products ≤ 8 },
    ghost few_series: { vec_len series ≤ 24 },
    ghost product_room: { 8 ≤ vec_capacity products },
    ghost series_room: { 24 ≤ vec_capacity series },
    ghost fits: { (q : ℕ) (d : RiskMargins) → q < vec_len products → Fits (slice_index_or products.items q d) },
    ghost known: { (i : ℕ) (d : Series) → i < vec_len series → (get_or series.items i d).product < vec_len products },
}
