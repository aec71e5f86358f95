//! A flow with prices that show it.
ghost use Rattle.std.specs.Prelude.{◌≡◌, ◌*◌, ◌<ℤ◌, ◌↔◌, IsTrue, pos};
ghost use Rattle.mcf_flows.specs.Flow.{reduced_cost};
ghost use Rattle.mcf_flows.specs.Network.{IsArcNumber};
ghost use Rattle.mcf_flows.specs.WellFormed.{IsUpTo};
ghost use Rattle.mcf_network.specs.Removal.{net_of};
ghost use Rattle.mcf_network.specs.Residual.{arc_at};
ghost use Rattle.mcf_engine.specs.SmallPrices.{price_limit};
ghost use Rattle.mcf_ranges.specs.Private.Distances.{room_in};
ghost use Rattle.mcf_ranges.specs.Private.Shown.{IsShown};

use mcf_flows::Instance;
use mcf_network::{Net, Rid};
use mcf_text::ArcId;
use std::marker::Model;

/// An instance with a flow, prices that show it, and its net, which tells the arcs of each node.
#[derive(Drop)]
pub(crate) struct Shown<'a> {
    pub(crate) instance: &'a Instance,
    pub(crate) net: &'a Net,
    pub(crate) flow: &'a [i128],
    pub(crate) prices: &'a [i128],
}

impl<'a> Model for Shown<'a> {
    ghost use Rattle.mcf_ranges.specs.Private.Shown.{IsShownWith, ShownFlow};

    ghost Value = { ShownFlow };

    ghost view = { λ s. record { network = s.instance.now; flow = s.flow.now; prices = s.prices.now } };

    ghost invariant = { λ s. IsShownWith s.net.now (record { network = s.instance.now; flow = s.flow.now; prices = s.prices.now }) };
}

impl<'a> Shown<'a> {
    /// Returns the net.
    pub(crate) fn net(&self) -> &'a Net
        ensures value { result.now ≡ net_of self.now.network }
        ensures shown { IsShown self.now }
    {
        self.net
    }

    /// Returns whether a residual arc can carry more.
    pub(crate) fn has_room(&self, r: Rid) -> bool
        requires { IsArcNumber self.now.network r.arc }
        ensures { IsTrue result ↔ (pos 0 <ℤ room_in self.now.network self.now.flow r) }
    {
        let arc = self.instance.arc(r.arc);
        let carried = self.flow[r.arc.place()];
        if r.back {
            arc.low < carried
        } else {
            carried < arc.cap
        }
    }

    /// Returns the reduced cost of an arc.
    pub(crate) fn reduced_cost(&self, k: ArcId) -> i128
        requires { IsArcNumber self.now.network k }
        ensures value { result ≡ reduced_cost self.now.prices (arc_at self.now.network k) }
        ensures small { IsUpTo (3 * price_limit) result }
    {
        let arc = self.instance.arc(k);
        arc.cost - self.prices[arc.src.place()] + self.prices[arc.dst.place()]
    }
}
