//! Removal of lower bounds.
ghost use Rattle.std.specs.Prelude.{◌≡◌, ◌≤◌, IfOk, IfSome, OnErr, OnOk, length, map};
ghost use Rattle.std.specs.List.{range_with_len};
ghost use Rattle.mcf_flows.specs.Limits.{limits};
ghost use Rattle.mcf_flows.specs.Network.{node_count};
ghost use Rattle.mcf_flows.specs.WellFormed.{IsArcWithinLimits};
ghost use Rattle.mcf_network.specs.Nets.{IsNet};
ghost use Rattle.mcf_network.specs.Private.StoredLinks.{IsItsOwnNet, links_in};
ghost use Rattle.mcf_network.specs.Removal.{net_of, supply_left, without_low};
ghost use Rattle.mcf_network.specs.Stored.{stored_arc, stored_arcs};

use crate::links::Links;
use crate::net::Net;
use crate::star::{forward_star, gap_for};
use crate::surplus::move_surplus;
use crate::widths::put_width;
use mcf_flows::{Arc, Instance, Link, Problem};
use mcf_text::{ArcId, NoMemory, NodeId};
use std::alloc::Global;
use std::rc::Rc;

impl Net {
    /// The net of an instance: each arc keeps its number, its ends and its cost; its width is its
    /// capacity less its lower bound, or 0 for a loop; the supplies are those left when each arc
    /// carries its lower bound (Ahuja, Magnanti and Orlin, Network Flows, section 2.4).
    ///
    /// # Errors
    ///
    /// `NoMemory` if an allocation is refused; an instance without nodes needs none.
    pub fn of(alloc: Global, instance: &Instance) -> Result<Net, NoMemory>
        ensures value { IfOk result (λ made. made ≡ net_of instance.now) }
        ensures of_net { IfOk result IsNet }
        ensures wants { OnErr result (1 ≤ node_count instance.now) }
    {
        let nodes = instance.node_count();
        let mut supplies = supplies_of(alloc, instance)?;
        let (links, widths) = links_of(alloc, instance, &mut supplies)?;
        let list = links.as_slice();
        let gap = gap_for(nodes, list.len());
        let (firsts, outs) = forward_star(alloc, list, nodes, gap)?;
        Ok(Net {
            problem: instance.problem(),
            links,
            widths,
            supplies,
            gap,
            firsts,
            outs,
        })
    }
}

// The links and the widths of the arcs without their lower bounds, and the remaining supplies. If
// an assignment shares its arcs, nothing changes, and no arc is read.
fn links_of(
    alloc: Global,
    instance: &Instance,
    left: &mut Vec<i128>,
) -> Result<(Links, Vec<i64>), NoMemory>
    requires { left.old.items ≡ instance.now.supplies }
    ensures value { IfOk result (λ made. stored_arcs (links_in made.0) made.1.items ≡ map without_low instance.now.arcs) }
    ensures left { OnOk result (left.new.items ≡ map (supply_left instance.now) (range_with_len 1 (node_count instance.now))) }
    ensures wants { OnErr result (1 ≤ length instance.now.arcs) }
{
    if let Some(links) = shared_links(instance) {
        return Ok((Links::Shared(links), Vec::new(alloc)));
    }
    let (links, widths) = arcs_without_lows(alloc, instance, left)?;
    Ok((Links::of(alloc, links)?, widths))
}

// The links of an assignment, if the instance shares them.
fn shared_links(instance: &Instance) -> Option<Rc<Vec<Link>>>
    ensures { IfSome result (λ links. IsItsOwnNet instance.now links.value.items) }
{
    match instance.problem() {
        Problem::Min => None,
        Problem::Asn => instance.shared_links(),
    }
}

// The links and the widths of the arcs without their lower bounds, in one pass that also reduces
// the supplies to what each node still has to send.
fn arcs_without_lows(
    alloc: Global,
    instance: &Instance,
    left: &mut Vec<i128>,
) -> Result<(Vec<Link>, Vec<i64>), NoMemory>
    requires { left.old.items ≡ instance.now.supplies }
    ensures value { IfOk result (λ made. stored_arcs made.0.items made.1.items ≡ map without_low instance.now.arcs) }
    ensures left { OnOk result (left.new.items ≡ map (supply_left instance.now) (range_with_len 1 (node_count instance.now))) }
    ensures wants { OnErr result (1 ≤ length instance.now.arcs) }
{
    let count = instance.arc_count();
    let mut links = Vec::with_capacity(alloc, count as usize)?;
    let mut widths = Vec::new(alloc);
    for i in 0..count {
        let a = instance.arc(ArcId::at(i));
        move_surplus(left, a.src, a.dst, a.low);
        let (link, width) = without_low(a);
        links.push(link)?;
        put_width(&mut widths, i as usize, width, count as usize)?;
    }
    Ok((links, widths))
}

// The arc without its lower bound, and its width.
fn without_low(a: Arc) -> (Link, i64)
    requires { IsArcWithinLimits limits a }
    ensures { stored_arc result.0 result.1 ≡ without_low a }
{
    let src = a.src.get();
    let dst = a.dst.get();
    let link = Link {
        src,
        dst,
        cost: a.cost as i64,
    };
    let width = if src == dst {
        0
    } else {
        (a.cap - a.low) as i64
    };
    (link, width)
}

// The supplies of the nodes.
fn supplies_of(alloc: Global, instance: &Instance) -> Result<Vec<i128>, NoMemory>
    ensures value { IfOk result (λ supplies. supplies.items ≡ instance.now.supplies) }
    ensures wants { OnErr result (1 ≤ node_count instance.now) }
{
    let count = instance.node_count();
    let mut supplies = Vec::with_capacity(alloc, count as usize)?;
    for i in 0..count {
        supplies.push(instance.supply(NodeId::at(i)))?;
    }
    Ok(supplies)
}
