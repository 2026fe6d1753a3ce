//! Sides and margin requirements.
ghost use Rattle.std.specs.Prelude.{◌≡◌, ℕ, ◌+◌, ◌^◌, ◌<◌, ◌≤◌, length, slice_index_or, unsigned_abs};
ghost use Rattle.book.specs.Market.{holdings};
ghost use Rattle.rules.specs.Laws.{most};
ghost use Rattle.book.specs.Requirements.{long, short, long_side, short_side, requirements};
ghost use Rattle.account.specs.Bounds.{SmallNets, Under};
ghost use Rattle.account.specs.View.{the_market};

use crate::market::Market;
use book::account::{MAX_PRODUCTS, Position};
use rules::rule::{MarginRule, plus};

/// The lots on the two sides of a product, on each at most 1,000 in each of 24 series.
#[derive(Clone, Copy, PartialEq, Eq, Debug)]
struct Sides {
    long: u16,
    short: u16,
    ghost most_long: { long ≤ most },
    ghost most_short: { short ≤ most },
}

impl Sides {
    /// The lots of one more position.
    fn add(&mut self, net: i32)
        requires small { unsigned_abs net ≤ 1_000 }
        requires room_long { self.old.long ≤ 23_000 }
        requires room_short { self.old.short ≤ 23_000 }
        ensures long { self.new.long ≡ self.old.long + long net }
        ensures short { self.new.short ≡ self.old.short + short net }
    {
        let lots = net.unsigned_abs() as u16;
        if net < 0 {
            self.short += lots;
        } else {
            self.long += lots;
        }
    }
}

impl<R> Market<R> {
    /// The sides of positions in each product.
    fn sides_of(&self, positions: &[Position]) -> [Sides; MAX_PRODUCTS]
        requires room { 24 ≤ length positions.now }
        requires small { SmallNets positions.now }
        ensures long { (q : ℕ) (d : Sides) → q < 8 → (slice_index_or result q d).long ≡ long_side q (holdings self.now.series.items positions.now) }
        ensures short { (q : ℕ) (d : Sides) → q < 8 → (slice_index_or result q d).short ≡ short_side q (holdings self.now.series.items positions.now) }
    {
        let mut sides = [Sides { long: 0, short: 0 }; MAX_PRODUCTS];
        for (i, held) in self.series.iter().enumerate() {
            sides[held.product].add(positions[i].net);
        }
        sides
    }
}

impl<R: MarginRule> Market<R> {
    /// The initial, maintenance and force requirement of positions.
    pub fn requirements(&self, positions: &[Position]) -> (u64, u64, u64)
        requires room { 24 ≤ length positions.now }
        requires small { SmallNets positions.now }
        ensures value { result ≡ requirements (the_market R.meaning self.now) positions.now }
        ensures size { Under (2 ^ 49) result }
    {
        let sides = self.sides_of(positions);
        let mut all = (0, 0, 0);
        for (q, margins) in self.products.iter().enumerate() {
            let lots = sides[q];
            all = plus(all, self.rule.charged(*margins, lots.long, lots.short));
        }
        all
    }
}
