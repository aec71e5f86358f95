//! The few residual arcs of a dense net that may lower a price, by the nodes that they enter.
ghost use Rattle.std.specs.Prelude.{◌≡◌, ◌++◌, ◌∷◌, ◌+◌, ◌-◌, ◌^◌, ◌<◌, ◌≤◌, ◌≤ℤ◌, ℕ, ℤ, List, [], false, true, pos, length, slice_index_or, slice_set, vec_capacity};
ghost use Rattle.std.specs.Prelude.{OnErr};
ghost use Rattle.std.specs.List.{All};
ghost use Rattle.mcf_flows.specs.Network.{IsArcNumber, IsNode, at_node, node_count};
ghost use Rattle.mcf_network.specs.declared.rid.Rid.{Rid};
ghost use Rattle.mcf_network.specs.Residual.{head};
ghost use Rattle.mcf_network.specs.States.{IsPseudoflow, room_of};
ghost use Rattle.mcf_engine.specs.declared.shortlist.ChainEntry.{ChainEntry};
ghost use Rattle.mcf_engine.specs.Private.Raisings.{CostsAtLeast};
ghost use Rattle.mcf_engine.specs.Private.Shortlists.{AreChains, IsFilled, IsPut, IsWhole, entry_at};

use crate::near_state::NearState;
use crate::pricer::passing_cost;
use mcf_flows::Problem;
use mcf_network::{Net, Rid, State};
use mcf_text::{ArcId, NoMemory, NodeId, copies};
use std::alloc::Global;

/// A residual arc that leaves a node, and the place of the previous entry of that node plus one, or
/// 0 if there is none.
#[derive(Clone, Copy)]
pub(crate) struct ChainEntry {
    pub(crate) arc: u32,
    pub(crate) back: bool,
    pub(crate) next: u32,
}

// A net with at least this many arcs per node is dense.
const DENSE: u32 = 192;

// The same for the net of an assignment: the pass over its arcs reads one byte of each amount.
const DENSE_ASSIGNMENT: u32 = 96;

// The number of entries per node.
const SHORT: usize = 16;

// No label is below this.
const LEAST_LABEL: i128 = -1_000_000_000_000_000_000_000_000_000_000;

// There are no more entries than this.
const ENTRY_LIMIT: usize = 1 << 31;

/// For each node of a dense net a threshold, and the reverses of the residual arcs with room that
/// enter it and cost less.
///
/// One pass over all arcs in their order finds them, since the arcs that enter a node are far apart
/// in memory. Those of a node form a chain: its head has the place of the last of them, and each
/// entry that of the previous one. If there was no place for all, or the net isn't dense, the list
/// isn't whole, and complete for no node. Only `start` allocates.
#[derive(Drop)]
pub(crate) struct Shortlist {
    passed: Vec<i128>,
    heads: Vec<u32>,
    pub(crate) entries: Vec<ChainEntry>,
    whole: bool,
}

impl Shortlist {
    /// Space for the list of a dense net, and none for another net.
    pub(crate) fn start(alloc: Global, net: &Net) -> Result<Shortlist, NoMemory>
        ensures wants { OnErr result (1 ≤ node_count net.now) }
    {
        let nodes = listed_nodes(net);
        let passed = copies(alloc, nodes, 0)?;
        let heads = copies(alloc, nodes, 0)?;
        let entries = Vec::with_capacity(alloc, nodes * SHORT)?;
        Ok(Shortlist {
            passed,
            heads,
            entries,
            whole: false,
        })
    }

    /// Lists the residual arcs of a state that may lower a key in a search from its prices, if the
    /// net is dense.
    pub(crate) fn fill(&mut self, near: &NearState<'_, '_>)
        ensures list { IsFilled near.now self.new }
        ensures valid { IsPseudoflow near.now.state.now }
    {
        self.whole = self.fill_dense(near);
    }

    /// Whether the list has all residual arcs with room that enter a node and cost less than
    /// `passed`.
    pub(crate) fn is_complete(&self, w: NodeId, passed: i128) -> bool
        requires { self.now.whole ≡ true → IsNode (length self.now.passed.items) w }
        ensures whole { result ≡ true → self.now.whole ≡ true }
        ensures passed { result ≡ true → passed ≤ℤ at_node self.now.passed.items w }
    {
        if !self.whole {
            return false;
        }
        passed <= self.passed[w.place()]
    }

    /// The place of the last entry of a node plus one, or 0 if there is none.
    pub(crate) fn last_of(&self, w: NodeId) -> u32
        requires { IsNode (length self.now.heads.items) w }
        ensures { result ≡ slice_index_or self.now.heads.items (w - 1) 0 }
    {
        self.heads[w.place()]
    }

    // Lists them, and returns whether the list is whole.
    fn fill_dense(&mut self, near: &NearState<'_, '_>) -> bool
        ensures count { result ≡ true → length self.new.passed.items ≡ node_count near.now.state.now.net }
        ensures whole { result ≡ true → IsWhole near.now.state.now self.new.passed.items self.new.heads.items self.new.entries.items }
        ensures valid { IsPseudoflow near.now.state.now }
    {
        if !self.is_for(near.state.net()) {
            return false;
        }
        put_thresholds(&mut self.passed, near.scale, near.prices);
        self.entries.clear();
        clear_heads(&mut self.heads);
        put_arcs(
            self.passed.as_slice(),
            &mut self.heads,
            &mut self.entries,
            near.state,
        )
    }

    // Whether there is a list for a net.
    fn is_for(&self, net: &Net) -> bool
        ensures passed { result ≡ true → length self.now.passed.items ≡ node_count net.now }
        ensures heads { result ≡ true → length self.now.heads.items ≡ node_count net.now }
    {
        let nodes = net.node_count() as usize;
        if self.passed.len() != nodes {
            return false;
        }
        self.heads.len() == nodes
    }
}

// The number of nodes of a net that have a list: all if it is dense, otherwise none.
fn listed_nodes(net: &Net) -> usize
    ensures few { result ≤ node_count net.now }
    ensures small { result < 2 ^ 31 }
{
    let nodes = net.node_count();
    if net.arc_count() / dense_from(net) < nodes {
        return 0;
    }
    nodes as usize
}

// The least number of arcs per node of a dense net.
fn dense_from(net: &Net) -> u32
    ensures { 1 ≤ result }
{
    match net.problem() {
        Problem::Min => DENSE,
        Problem::Asn => DENSE_ASSIGNMENT,
    }
}

// Makes the thresholds of all nodes. No key falls below the negative of the greatest price, so no
// label falls below the price less that one. Nothing depends on it, since a threshold is compared
// with that of the label itself.
fn put_thresholds(passed: &mut Vec<i128>, scale: u32, prices: &[i128])
    requires scale { 1 ≤ scale }
    requires count { length passed.old.items ≡ length prices.now }
    ensures { length passed.new.items ≡ length passed.old.items }
{
    let top = greatest(prices);
    'nodes: for i in 0..prices.len() {
        let floor = prices[i].saturating_sub(top);
        passed[i] = passing_cost(floor.max(LEAST_LABEL).min(0), scale);
    }
}

// The greatest price.
fn greatest(prices: &[i128]) -> i128 {
    let mut top = i128::MIN;
    'nodes: for price in prices {
        top = top.max(*price);
    }
    top
}

// Removes the entries of all nodes.
fn clear_heads(heads: &mut Vec<u32>)
    ensures count { length heads.new.items ≡ length heads.old.items }
    ensures zero { (i : ℕ) → i < length heads.old.items → slice_index_or heads.new.items i 0 ≡ 0 }
{
    'nodes: for i in 0..heads.len() {
        heads[i] = 0;
    }
}

// Puts all residual arcs below the thresholds into an empty list, and returns whether there was a
// place for them.
fn put_arcs(
    passed: &[i128],
    heads: &mut Vec<u32>,
    entries: &mut Vec<ChainEntry>,
    state: &State<'_>,
) -> bool
    requires passed { length passed.now ≡ node_count state.now.net }
    requires chains { AreChains state.now.net heads.old.items entries.old.items }
    ensures { result ≡ true → IsWhole state.now passed.now heads.new.items entries.new.items }
{
    'arcs: for number in 0..state.net().arc_count() {
        let arc = ArcId::at(number);
        let forward = put(passed, heads, entries, state, arc, false);
        if !forward {
            return false;
        }
        let backward = put(passed, heads, entries, state, arc, true);
        if !backward {
            return false;
        }
    }
    true
}

// Puts a residual arc into the list if it has room and costs less than the threshold of its head,
// and returns whether there was a place for it.
#[inline(always)]
fn put(
    passed: &[i128],
    heads: &mut Vec<u32>,
    entries: &mut Vec<ChainEntry>,
    state: &State<'_>,
    arc: ArcId,
    back: bool,
) -> bool
    requires passed { length passed.now ≡ node_count state.now.net }
    requires chains { AreChains state.now.net heads.old.items entries.old.items }
    requires arc { IsArcNumber state.now.net arc }
    ensures { result ≡ true → IsPut state.now passed.now heads.new.items entries.old.items entries.new.items (record { arc = arc; back = back }) }
{
    if !is_below(passed, state, arc, back) {
        return true;
    }
    put_below(heads, entries, state, arc, back)
}

// Puts a residual arc into the list, and returns whether there was a place for it.
fn put_below(
    heads: &mut Vec<u32>,
    entries: &mut Vec<ChainEntry>,
    state: &State<'_>,
    arc: ArcId,
    back: bool,
) -> bool
    requires chains { AreChains state.now.net heads.old.items entries.old.items }
    requires arc { IsArcNumber state.now.net arc }
    ensures { (passed : List ℤ) → result ≡ true →
        IsPut state.now passed heads.new.items entries.old.items entries.new.items (record { arc = arc; back = back }) }
{
    if !has_place(entries) {
        return false;
    }
    let (_, to) = state.net().route(Rid { arc, back });
    push(heads, entries, to.place(), arc, !back);
    true
}

// Whether there is a place for another entry.
fn has_place(entries: &Vec<ChainEntry>) -> bool
    ensures room { result ≡ true → length entries.now.items < vec_capacity entries.now }
    ensures small { result ≡ true → length entries.now.items < 2 ^ 31 }
{
    let count = entries.len();
    if ENTRY_LIMIT <= count {
        return false;
    }
    count < entries.capacity()
}

// Appends an entry to the list of the node at a place.
fn push(heads: &mut Vec<u32>, entries: &mut Vec<ChainEntry>, place: usize, arc: ArcId, back: bool)
    requires place { place < length heads.old.items }
    requires room { length entries.old.items < vec_capacity entries.old }
    requires small { length entries.old.items < 2 ^ 31 }
    ensures entries { entries.new.items
        ≡ entries.old.items ++ record { arc = arc; back = back; next = slice_index_or heads.old.items place 0 } ∷ [] }
    ensures heads { heads.new.items ≡ slice_set heads.old.items place (length entries.old.items + 1) }
{
    let next = heads[place];
    let count = entries.len() as u32 + 1;
    entries.push_reserved(ChainEntry {
        arc: arc.get(),
        back,
        next,
    });
    heads[place] = count;
}

// Whether a residual arc may have room and cost less than the threshold of its head. Backward the
// room is tested first, as most arcs carry nothing; forward the cost.
#[inline(always)]
fn is_below(passed: &[i128], state: &State<'_>, arc: ArcId, back: bool) -> bool
    requires passed { length passed.now ≡ node_count state.now.net }
    requires arc { IsArcNumber state.now.net arc }
    ensures { result ≡ false →
        CostsAtLeast state.now (at_node passed.now (head state.now.net (record { arc = arc; back = back }))) (record { arc = arc; back = back }) }
{
    if back && is_full(state, arc, back) {
        return false;
    }
    if is_dear(passed, state, arc, back) {
        return false;
    }
    !is_full(state, arc, back)
}

// Whether a residual arc has no room.
#[inline(always)]
fn is_full(state: &State<'_>, arc: ArcId, back: bool) -> bool
    requires { IsArcNumber state.now.net arc }
    ensures { result ≡ true → room_of state.now (record { arc = arc; back = back }) ≤ℤ pos 0 }
{
    state.room(Rid { arc, back }) <= 0
}

// Whether a residual arc costs no less than the threshold of its head.
#[inline(always)]
fn is_dear(passed: &[i128], state: &State<'_>, arc: ArcId, back: bool) -> bool
    requires passed { length passed.now ≡ node_count state.now.net }
    requires arc { IsArcNumber state.now.net arc }
    ensures { result ≡ true →
        CostsAtLeast state.now (at_node passed.now (head state.now.net (record { arc = arc; back = back }))) (record { arc = arc; back = back }) }
{
    let (_, to) = state.net().route(Rid { arc, back });
    passed[to.place()] <= state.net().unit_cost(Rid { arc, back })
}

/// The entry before a place, counted from 1.
pub(crate) fn entry_before(entries: &[ChainEntry], cursor: u32) -> ChainEntry
    requires low { 1 ≤ cursor }
    requires high { cursor ≤ length entries.now }
    ensures { result ≡ entry_at entries.now (cursor - 1) }
{
    entries[cursor as usize - 1]
}
