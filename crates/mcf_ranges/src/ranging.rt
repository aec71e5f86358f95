//! The ranges of the costs of arcs.
ghost use Rattle.std.specs.Prelude.{◌≡◌, ◌≤◌, IfOk, OnErr, length};
ghost use Rattle.std.specs.List.{All, AllZip};
ghost use Rattle.mcf_flows.specs.Flow.{IsFeasible, Shows};
ghost use Rattle.mcf_flows.specs.Network.{IsArcNumber, node_count};
ghost use Rattle.mcf_flows.specs.WellFormed.{IsUpTo};
ghost use Rattle.mcf_engine.specs.SmallPrices.{price_limit};
ghost use Rattle.mcf_ranges.specs.Ranges.{IsCostRange, IsShownInRange};
ghost use Rattle.mcf_ranges.specs.Private.Distances.{IsFall, IsRise};

use crate::range::CostRange;
use crate::search::Search;
use crate::shown::Shown;
use mcf_flows::Instance;
use mcf_network::{Net, Rid};
use mcf_text::{ArcId, NoMemory};
use std::alloc::Global;

/// Returns for each of some arcs how far its cost may fall, and how far it may rise, such that a
/// flow stays least, if all other costs stay as they are (sensitivity analysis; Ahuja, Magnanti and
/// Orlin, Network Flows, section 9.11). The flow is least, since prices show it.
///
/// For each end that has a limit it searches a shortest walk in the residual network without the
/// arc. At each cost in a range some prices show the flow. The result doesn't depend on the prices,
/// which are at most 10^21 from 0.
///
/// # Errors
///
/// `NoMemory` if an allocation is refused; an instance without nodes needs none.
pub fn cost_ranges(
    alloc: Global,
    instance: &Instance,
    flow: &[i128],
    prices: &[i128],
    arcs: &[ArcId],
) -> Result<Vec<CostRange>, NoMemory>
    requires feasible { IsFeasible instance.now flow.now }
    requires shown { Shows instance.now.arcs prices.now flow.now }
    requires one_per_node { length prices.now ≡ node_count instance.now }
    requires small { All (IsUpTo price_limit) prices.now }
    requires arcs { All (IsArcNumber instance.now) arcs.now }
    ensures ranges { IfOk result (λ ranges. AllZip (IsCostRange instance.now flow.now) arcs.now ranges.items) }
    ensures shown { IfOk result (λ ranges. AllZip (IsShownInRange instance.now flow.now) arcs.now ranges.items) }
    ensures wants { OnErr result (1 ≤ node_count instance.now) }
{
    // Called only for its clause: the instance is within the limits.
    let _nodes = instance.node_count();
    let net = Net::of(alloc, instance)?;
    let shown = Shown {
        instance,
        net: &net,
        flow,
        prices,
    };
    shown.ranges(alloc, arcs)
}

impl<'a> Shown<'a> {
    // Returns the range of the cost of each of some arcs.
    fn ranges(&self, alloc: Global, arcs: &[ArcId]) -> Result<Vec<CostRange>, NoMemory>
        requires { All (IsArcNumber self.now.network) arcs.now }
        ensures ranges { IfOk result (λ ranges. AllZip (IsCostRange self.now.network self.now.flow) arcs.now ranges.items) }
        ensures shown { IfOk result (λ ranges. AllZip (IsShownInRange self.now.network self.now.flow) arcs.now ranges.items) }
        ensures wants { OnErr result (1 ≤ length arcs.now) }
    {
        let mut ranges = Vec::with_capacity(alloc, arcs.len())?;
        for k in arcs {
            let range = self.range(alloc, *k)?;
            ranges.push(range)?;
        }
        Ok(ranges)
    }

    // Returns the range of the cost of an arc.
    fn range(&self, alloc: Global, k: ArcId) -> Result<CostRange, NoMemory>
        requires { IsArcNumber self.now.network k }
        ensures exact { IfOk result (IsCostRange self.now.network self.now.flow k) }
        ensures shown { IfOk result (IsShownInRange self.now.network self.now.flow k) }
    {
        // Called only for its clause: prices show the flow.
        let _net = self.net();
        let up = self.rise(alloc, k)?;
        let down = self.fall(alloc, k)?;
        Ok(CostRange { down, up })
    }

    // Returns how far the cost of an arc may rise: if the arc carries more than it has to, a unit
    // of that must not be cheaper on another way.
    fn rise(&self, alloc: Global, k: ArcId) -> Result<Option<i128>, NoMemory>
        requires { IsArcNumber self.now.network k }
        ensures { IfOk result (IsRise self.now.network self.now.flow self.now.prices k) }
    {
        if !self.has_room(Rid { arc: k, back: true }) {
            return Ok(None);
        }
        let reduced = self.reduced_cost(k);
        let (from, to) = self.net().ends(k);
        let search = Search {
            shown: self,
            without: k,
            from,
            to,
        };
        match search.distance(alloc)? {
            Some(distance) => Ok(Some(distance - reduced)),
            None => Ok(None),
        }
    }

    // Returns how far the cost of an arc may fall: if the arc isn't full, a unit more on it must
    // not save anything on another way.
    fn fall(&self, alloc: Global, k: ArcId) -> Result<Option<i128>, NoMemory>
        requires { IsArcNumber self.now.network k }
        ensures { IfOk result (IsFall self.now.network self.now.flow self.now.prices k) }
    {
        if !self.has_room(Rid {
            arc: k,
            back: false,
        }) {
            return Ok(None);
        }
        let reduced = self.reduced_cost(k);
        let (to, from) = self.net().ends(k);
        let search = Search {
            shown: self,
            without: k,
            from,
            to,
        };
        match search.distance(alloc)? {
            Some(distance) => Ok(Some(distance + reduced)),
            None => Ok(None),
        }
    }
}
