//! Of which models a range is told.
ghost use Rattle.std.specs.Prelude.{◌≡◌, ◌↔◌, IsTrue, IfNone, IfSome, None, Some};
ghost use Rattle.mcf_flows.specs.Limits.{limits};
ghost use Rattle.mcf_flows.specs.WellFormed.{IsUpTo};

use mcf_flows::{BOUND_LIMIT, SUPPLY_LIMIT};

/// The number of units that are looked at: 10^15. So supplies stay within their limit, 10^18, for
/// all models but the greatest.
pub const UNITS_LIMIT: u64 = 1_000_000_000_000_000;

/// Returns whether a supply is within the limit of supplies.
pub(crate) fn is_small_supply(supply: i64) -> bool
    ensures { IsTrue result ↔ IsUpTo limits.supply supply }
{
    let limit = SUPPLY_LIMIT as i64;
    -limit <= supply && supply <= limit
}

/// Returns whether an amount is within the limit of bounds.
pub(crate) fn is_small_bound(amount: i128) -> bool
    ensures { IsTrue result ↔ IsUpTo limits.bound amount }
{
    let limit = i128::from(BOUND_LIMIT);
    -limit <= amount && amount <= limit
}

/// Returns whether an amount, if there is one, is within the limit of bounds.
pub(crate) fn is_small_limit(amount: Option<i128>) -> bool
    ensures { IsTrue result ↔ IfSome amount (IsUpTo limits.bound) }
{
    match amount {
        Some(most) => is_small_bound(most),
        None => true,
    }
}
