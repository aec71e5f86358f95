//! One pivot of the network simplex.
ghost use Rattle.std.specs.Prelude.{◌≡◌, ℕ, ◌-◌, ◌<◌, ◌≤◌, ◌<ℤ◌, ℤ, length, pos, unsigned_abs};
ghost use Rattle.mcf_flows.specs.Network.{IsArcNumber};
ghost use Rattle.mcf_network.specs.Residual.{arc_at};
ghost use Rattle.mcf_tree.specs.SpanningTree.{size_of};
ghost use Rattle.mcf_basis.specs.declared.pivot.PivotStep.TheVariants.{Moved, Still};
ghost use Rattle.mcf_basis.specs.Bases.{IsBasis};
ghost use Rattle.mcf_basis.specs.Pivots.{IsEligible, IsPivot, PairFalls};
ghost use Rattle.mcf_basis.specs.Private.Climbs.{CanReplace, IsReplaced};
ghost use Rattle.mcf_basis.specs.Steps.{moved_by};

use crate::basis::Basis;
use crate::climb::Climb;
use crate::cycle::{Cycle, Leaving};
use crate::exchange::{exchange, keep};
use crate::offer::ArcOffer;
use crate::price_table::PriceTable;
use crate::push::push;
use crate::residuals::Residuals;
use mcf_network::Net;
use mcf_text::{ArcId, NodeId};
use mcf_tree::Tree;

/// What one pivot moved.
#[derive(Clone, Copy, Debug, PartialEq, Eq)]
pub enum PivotStep {
    /// This amount, above 0, was pushed around the cycle.
    Moved(i128),
    /// Nothing was pushed: only the tree changed (a degenerate pivot).
    Still,
}

impl<'n> Basis<'n> {
    /// Lets an eligible arc enter: the least residual capacity of the cycle that it closes with the
    /// tree is pushed around this cycle, and the last blocking arc leaves, counted from the apex in
    /// the direction in which the cost falls.
    ///
    /// So the tree stays strongly feasible, and the pair of the cost and the sum of the prices
    /// falls (Cunningham; Ahuja, Magnanti and Orlin, Network Flows, sections 11.5 and 11.6). The
    /// time is proportional to the cycle and to the part of the tree that moves: as many depths are
    /// written as prices, each once.
    pub fn pivot(&mut self, k: ArcId) -> PivotStep
        requires { IsEligible self.old k }
        ensures step { IsPivot self.old k (moved_by result) self.new }
        ensures above { (x : ℤ) → result ≡ Moved x → pos 0 <ℤ x }
        ensures basis { IsBasis self.new }
        ensures falls { PairFalls self.old self.new }
    {
        self.pivots.add_one();
        let offer = self.offers[k.place()];
        let reduced = self.table.reduced(offer);
        let climb = Climb::of(&self.tree, &self.residuals, offer.from, offer.to);
        self.climbed = climb.steps;
        let cycle = climb.cycle(k, self.net.width(k) as u64, reduced, offer);
        push(
            self.net,
            &self.tree,
            &mut self.residuals,
            &mut self.artificial,
            &cycle,
        );
        replace(
            self.net,
            &mut self.tree,
            &mut self.offers,
            &mut self.residuals,
            &mut self.table,
            &cycle,
        );
        step_of(cycle.amount)
    }
}

// The result of a pivot that moved this amount.
fn step_of(amount: u64) -> PivotStep
    ensures value { moved_by result ≡ pos amount }
    ensures above { (x : ℤ) → result ≡ Moved x → pos 0 <ℤ x }
{
    if amount > 0 {
        PivotStep::Moved(i128::from(amount))
    } else {
        PivotStep::Still
    }
}

// The entering arc replaces the leaving one.
fn replace(
    net: &Net,
    tree: &mut Tree,
    offers: &mut [ArcOffer],
    residuals: &mut [Residuals],
    table: &mut PriceTable,
    cycle: &Cycle,
)
    requires { CanReplace net.now tree.old offers.old residuals.old table.old cycle.now }
    ensures { IsReplaced net.now tree.old tree.new offers.old offers.new residuals.old residuals.new table.old table.new cycle.now }
{
    match cycle.leaving {
        Leaving::Entering => keep(offers, cycle.arc),
        Leaving::Down => exchange(net, tree, offers, residuals, table, cycle),
        Leaving::Up => exchange(net, tree, offers, residuals, table, cycle),
    }
}
