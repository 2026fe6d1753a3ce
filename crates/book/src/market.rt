//! Series and their prices.

/// The prices of a series, in hundredths of a quoted point: 1 to 10,000,000.
#[derive(Clone, Copy, PartialEq, Eq, Debug)]
pub struct Quote {
    /// The latest settlement price.
    pub settlement: u32,
    /// The last print of this trading day.
    pub last: Option<u32>,
}

/// A series of a product.
#[derive(Clone, Copy, PartialEq, Eq, Debug)]
pub struct Series {
    pub product: usize,
    /// Baht per point, 1 to 10,000.
    pub multiplier: u32,
    pub quote: Quote,
}
