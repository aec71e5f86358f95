//! Sets of places, told by the other places.
ghost use Rattle.std.specs.Prelude.{◌≡◌};
ghost use Rattle.mcf_model.specs.Complements.{side_told, turned_if};

use mcf_flows::Side;

/// Returns a test, turned if it has to be: whether a place is one of those that are told.
pub fn turned_if(turned: bool, test: bool) -> bool
    ensures { result ≡ turned_if turned test }
{
    if turned { !test } else { test }
}

/// Returns a side, turned if it has to be: if a set of places must send more than it can, the other
/// places must take more than they can, and the other way round.
pub fn side_told(turned: bool, side: Side) -> Side
    ensures { result ≡ side_told turned side }
{
    if !turned {
        return side;
    }
    match side {
        Side::Send => Side::Take,
        Side::Take => Side::Send,
    }
}
