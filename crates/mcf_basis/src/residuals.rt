//! The residual capacities of the tree arcs.
ghost use Rattle.std.specs.Prelude.{◌≡◌, min};
ghost use Rattle.mcf_basis.specs.Private.Layouts.{artificial_residuals, room_limit};

/// The residual capacity of the arc between a node and its parent, toward the parent and away from
/// it, in 16 bytes.
///
/// For an artificial arc it is at most 2^64 - 1: it has no upper bound, and its amount, which may
/// need more than 64 bits, is stored separately.
#[derive(Clone, Copy, Debug)]
pub(crate) struct Residuals {
    pub(crate) up: u64,
    pub(crate) down: u64,
}

/// The residual capacities of the artificial arc of a node that sends or takes, by its amount.
pub(crate) fn artificial_residuals(sends: bool, amount: u128) -> Residuals
    ensures { result ≡ artificial_residuals sends amount }
{
    let back = capped(amount);
    if sends {
        Residuals {
            up: u64::MAX,
            down: back,
        }
    } else {
        Residuals {
            up: back,
            down: u64::MAX,
        }
    }
}

// An amount, or the greatest residual capacity that is stored.
fn capped(amount: u128) -> u64
    ensures { result ≡ min amount room_limit }
{
    if amount < u128::from(u64::MAX) {
        amount as u64
    } else {
        u64::MAX
    }
}
