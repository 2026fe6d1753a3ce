//! Margin calls.
ghost use Rattle.std.specs.Prelude.{◌≡◌, ◌^◌, ◌≤◌, pos, ◌-ℤ◌, unsigned_abs};
ghost use Rattle.book.specs.MarginCalls.{at_least_zero, below, call_at_closing, call_at_opening, credited};
ghost use Rattle.account.specs.Bounds.{Under};

use book::account::MarginCall;

/// A call with credit added, or none where its credit reaches its amount.
pub fn credited(call: Option<MarginCall>, amount: u64) -> Option<MarginCall>
    ensures { result ≡ credited amount call }
{
    let open = call?;
    let credit = open.credit.saturating_add(amount);
    if credit >= open.amount {
        return None;
    }
    Some(MarginCall { credit, ..open })
}

/// An open call a day older.
pub fn call_at_opening(call: Option<MarginCall>) -> Option<MarginCall>
    ensures { result ≡ call_at_opening call }
{
    call.map(|open| MarginCall {
        age: open.age.saturating_add(1).min(2),
        ..open
    })
}

/// Equity below a requirement.
fn below(equity: i128, level: u64) -> bool
    ensures { result ≡ below equity level }
{
    equity < level as i128
}

/// How far equity is short of the initial requirement.
fn shortfall(equity: i128, initial: u64) -> u64
    requires equity { unsigned_abs equity ≤ 2 ^ 60 }
    requires initial { initial ≤ 2 ^ 60 }
    ensures { result ≡ at_least_zero (pos initial -ℤ equity) }
{
    (initial as i128 - equity).max(0) as u64
}

/// The call that a closing leaves, at an equity balance and its initial, maintenance and force requirement.
pub fn call_at_closing(
    equity: i128,
    levels: (u64, u64, u64),
    call: Option<MarginCall>,
) -> Option<MarginCall>
    requires equity { unsigned_abs equity ≤ 2 ^ 60 }
    requires levels { Under (2 ^ 49) levels }
    ensures { result ≡ call_at_closing equity levels call }
{
    let (initial, maintenance, force) = levels;
    let low = below(equity, force);
    match call {
        Some(open) => Some(MarginCall {
            low: open.low || low,
            ..open
        }),
        None => below(equity, maintenance).then(|| MarginCall {
            amount: shortfall(equity, initial),
            credit: 0,
            age: 0,
            low,
        }),
    }
}
