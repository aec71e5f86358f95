//! The prices of a part of the tree.

ghost use Rattle.std.specs.Prelude.{◌≡◌, ◌+◌, length};
ghost use Rattle.mcf_basis.specs.Private.Layouts.{limit_in};
ghost use Rattle.mcf_basis.specs.Private.Turned.{AreRaised, CanRaise};

use mcf_numbers::{Column, Number, Width};
use mcf_text::NodeId;

/// Adds a change to the prices of listed nodes.
pub(crate) fn reprice<W: Width>(prices: &mut Column<Number<W>>, part: &[NodeId], change: Number<W>)
    requires { CanRaise part.now change (limit_in W.room) prices.old.entries }
    ensures prices { AreRaised part.now change prices.old.entries prices.new.entries }
    ensures counted { prices.new.written ≡ prices.old.written + length part.now }
{
    'part: for v in part {
        let place = v.get() as usize;
        let price = prices.entries()[place].plus(change);
        prices.write(place, price);
    }
}
