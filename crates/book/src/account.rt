//! What an account holds.

/// How many series a house holds.
pub const MAX_SERIES: usize = 24;

/// How many products a house holds.
pub const MAX_PRODUCTS: usize = 8;

/// How many accounts a house holds.
pub const MAX_ACCOUNTS: usize = 32;

/// An account's lots in a series.
#[derive(Clone, Copy, PartialEq, Eq, Debug)]
pub struct Position {
    /// Plus is long, minus is short: −1,000 to 1,000.
    pub net: i32,
    /// Net lots × the last settlement price, and lots × price of each fill since: at most 10^14 in size.
    pub carry: i64,
}

/// Signed lots of a series, and the opposite lots of a second one, if any: the terms of an order, and a line of a forced list.
#[derive(Clone, Copy, PartialEq, Eq, Debug)]
pub struct Trade {
    pub series: usize,
    /// Plus is bought, minus is sold: −1,000 to 1,000 and not 0.
    pub lots: i32,
    pub second: Option<usize>,
}

/// An open order is held until its ticket is spent, and then sent.
#[derive(Clone, Copy, PartialEq, Eq, Debug)]
pub enum Stage {
    Held,
    Sent,
}

#[derive(Clone, Copy, PartialEq, Eq, Debug)]
pub struct Order {
    /// The day's order number, 1 to 9,999.
    pub number: u32,
    pub stage: Stage,
    pub trade: Trade,
}

#[derive(Clone, Copy, PartialEq, Eq, Debug)]
pub struct MarginCall {
    /// In satang, above 0.
    pub amount: u64,
    /// Deposits and released margin since the issue, below the amount.
    pub credit: u64,
    /// Openings since the issue: 0, 1 or 2 for two and more.
    pub age: u8,
    /// Equity was below the force requirement at a closing since the issue.
    pub low: bool,
}

#[derive(Clone, Copy, PartialEq, Eq, Debug)]
pub struct Account {
    /// In satang, at most 10^17 in size.
    pub cash: i64,
    /// By series.
    pub positions: [Position; MAX_SERIES],
    /// The open order in each product.
    pub orders: [Option<Order>; MAX_PRODUCTS],
    pub call: Option<MarginCall>,
}

/// Where an order of the day was placed.
#[derive(Clone, Copy, PartialEq, Eq, Debug)]
pub struct Placement {
    pub account: usize,
    pub product: usize,
}

/// What Figures answers of an account, in satang.
#[derive(Clone, Copy, PartialEq, Eq, Debug)]
pub struct Figures {
    pub equity: i128,
    pub initial: u64,
    pub maintenance: u64,
    pub force: u64,
    pub free: i128,
    pub call: Option<MarginCall>,
}
