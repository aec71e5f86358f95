//! The results of a basis at the end: its flow, its prices, and the cut that blocks if there is no
//! feasible flow.
ghost use Rattle.std.specs.Prelude.{◌≡◌, ◌≢◌, ℕ, ◌+◌, ◌-◌, ◌*◌, ◌^◌, ◌<◌, ◌≤◌, ◌==◌, ◌↔◌, Bool, IsTrue, drop, if◌then◌else◌, int_lt, length, pos};
ghost use Rattle.std.specs.Prelude.{slice_index_or, slice_set, true, ◌≤ℤ◌};
ghost use Rattle.std.specs.List.{All};
ghost use Rattle.mcf_flows.specs.Blocking.{Blocks, in_table, supply_in};
ghost use Rattle.mcf_flows.specs.declared.problem.Side.TheVariants.{Send};
ghost use Rattle.mcf_flows.specs.Network.{IsArcNumber, IsNode, node_count};
ghost use Rattle.mcf_flows.specs.WellFormed.{IsUpTo};
ghost use Rattle.mcf_network.specs.NodeSets.{with_node};
ghost use Rattle.mcf_network.specs.Residual.{arc_at};
ghost use Rattle.mcf_network.specs.States.{IsPseudoflow, amount_at};
ghost use Rattle.mcf_tree.specs.SpanningTree.{IsSpanning, label_of, size_of};
ghost use Rattle.mcf_basis.specs.Bases.{IsBasis};
ghost use Rattle.mcf_basis.specs.Laws.{HasNoArtificial};
ghost use Rattle.mcf_basis.specs.Private.Layouts.{no_offer, no_residuals};
ghost use Rattle.mcf_basis.specs.Structures.{price_at, state_of, price_limit};
ghost use Rattle.mcf_basis.specs.Violations.{HasNoEligible};

use crate::basis::Basis;
use crate::offer::ArcOffer;
use crate::residuals::Residuals;
use mcf_network::{Net, NodeSet, Rid, State};
use mcf_numbers::Count;
use mcf_text::{ArcId, NodeId};
use mcf_tree::Tree;

impl<'n> Basis<'n> {
    /// The number of pivots that led here.
    pub fn into_pivots(self) -> Count
        ensures { result.number ≡ self.entry.pivots }
    {
        self.pivots
    }

    /// Writes the amounts of the arcs of the net into a state of this net, in time linear in the
    /// arcs and the nodes.
    pub fn write_flow(&self, state: &mut State<'_>)
        requires { state.old.net ≡ self.now.net }
        ensures value { state.new ≡ state_of self.now }
        ensures valid { IsPseudoflow state.new }
        ensures basis { IsBasis self.now }
    {
        write_outside(self.net, &self.offers, state);
        write_tree(&self.tree, &self.residuals, state);
    }

    /// Whether no artificial arc carries anything, so that the flow is one of the net.
    pub fn has_no_artificial(&self) -> bool
        ensures value { IsTrue result ↔ HasNoArtificial self.now }
        ensures basis { IsBasis self.now }
    {
        all_zero(&self.artificial)
    }

    /// The number of artificial arcs that carry something: a hint for whoever watches a run; no
    /// clause states it.
    pub fn loaded_count(&self) -> usize
        ensures { IsBasis self.now }
    {
        loaded(&self.artificial)
    }

    /// Writes the prices of the nodes, without that of the root; each is at most 3 * 10^36 from 0.
    pub fn write_prices(&self, prices: &mut [i128])
        requires { length prices.old ≡ node_count self.now.net }
        ensures value { prices.new ≡ drop 1 self.now.prices }
        ensures count { length prices.new ≡ node_count self.now.net }
        ensures small { All (IsUpTo price_limit) prices.new }
        ensures basis { IsBasis self.now }
    {
        self.table.write_nodes(prices);
    }

    /// Marks the nodes of price above 0: if no arc is eligible and the supplies sum to 0, but an
    /// artificial arc still carries something, these nodes must send more than they can (Ahuja,
    /// Magnanti and Orlin, Network Flows, chapter 6).
    pub fn mark_cut(&self, set: &mut NodeSet)
        requires room { length set.old ≡ node_count self.now.net }
        requires last { HasNoEligible self.now }
        requires balanced { supply_in self.now.net.supplies (λ _. true) ≡ pos 0 }
        requires uneven { ¬ HasNoArtificial self.now }
        ensures room { length set.new ≡ node_count self.now.net }
        ensures marks { (v : ℕ) → IsNode (node_count self.now.net) v → in_table set.new v ≡ int_lt (pos 0) (price_at self.now v) }
        ensures blocks { Blocks self.now.net (in_table set.new) Send }
        ensures basis { IsBasis self.now }
    {
        set.clear();
        for i in 0..self.net.node_count() {
            let v = NodeId::at(i);
            mark(set, v, 0 < self.price(v));
        }
    }
}

// Puts a node into a set, if requested.
fn mark(set: &mut NodeSet, v: NodeId, wanted: bool)
    requires { IsNode (length set.old) v }
    ensures { set.new ≡ (if wanted then with_node set.old v else set.old) }
{
    if wanted {
        set.insert(v);
    }
}

// Whether all numbers except the first are 0.
fn all_zero(numbers: &[i128]) -> bool
    ensures { IsTrue result ↔ ((v : ℕ) → 1 ≤ v → v < length numbers.now → slice_index_or numbers.now v (pos 0) ≡ pos 0) }
{
    for v in 1..numbers.len() {
        if numbers[v] != 0 {
            return false;
        }
    }
    true
}

// The number of numbers that aren't 0, without the first.
fn loaded(numbers: &[i128]) -> usize {
    let mut count = 0usize;
    for v in 1..numbers.len() {
        if numbers[v] != 0 {
            count = count.wrapping_add(1);
        }
    }
    count
}

// Writes the amount of each arc outside the tree: its width if its offer leaves its head, otherwise
// 0.
fn write_outside(net: &Net, offers: &[ArcOffer], state: &mut State<'_>)
    requires net { state.old.net ≡ net.now }
    requires offers { length offers.now ≡ length net.now.arcs }
    ensures net { state.new.net ≡ net.now }
    ensures each { (k : ℕ) → IsArcNumber net.now k → amount_at state.new k
        ≡ (if (slice_index_or offers.now (k - 1) no_offer).from == (arc_at net.now k).src then pos 0 else (arc_at net.now k).cap) }
{
    for i in 0..net.arc_count() {
        let k = ArcId::at(i);
        set_amount(state, k, amount_outside(net, offers[i as usize], k));
    }
}

// The amount of an arc outside the tree with this offer.
fn amount_outside(net: &Net, offer: ArcOffer, k: ArcId) -> i128
    requires { IsArcNumber net.now k }
    ensures value { result ≡ (if offer.from == (arc_at net.now k).src then pos 0 else (arc_at net.now k).cap) }
    ensures low { pos 0 ≤ℤ result }
    ensures high { result ≤ℤ (arc_at net.now k).cap }
{
    let (src, _) = net.ends(k);
    let width = net.width(k);
    if offer.from == src.get() { 0 } else { width }
}

// Writes the amount of each arc of the net that is in the tree.
fn write_tree(tree: &Tree, residuals: &[Residuals], state: &mut State<'_>)
    requires size { size_of tree.now ≡ node_count state.old.net + 1 }
    requires residuals { length residuals.now ≡ node_count state.old.net + 1 }
    requires low { (v : ℕ) → IsNode (node_count state.old.net) v → 1 ≤ label_of tree.now v }
    requires apart { (u v : ℕ) → IsNode (node_count state.old.net) u → IsNode (node_count state.old.net) v → label_of tree.now u ≡ label_of tree.now v → u ≡ v }
    requires widths { (v : ℕ) → IsNode (node_count state.old.net) v → label_of tree.now v ≤ length state.old.net.arcs
        → pos ((slice_index_or residuals.now v no_residuals).up + (slice_index_or residuals.now v no_residuals).down) ≡ (arc_at state.old.net (label_of tree.now v)).cap }
    ensures net { state.new.net ≡ state.old.net }
    ensures valid { IsPseudoflow state.new }
    ensures inside { (v : ℕ) → IsNode (node_count state.old.net) v → label_of tree.now v ≤ length state.old.net.arcs → amount_at state.new (label_of tree.now v)
        ≡ (if (arc_at state.old.net (label_of tree.now v)).src == v then pos (slice_index_or residuals.now v no_residuals).down
        else pos (slice_index_or residuals.now v no_residuals).up) }
    ensures outside { (k : ℕ) → IsArcNumber state.old.net k → ((v : ℕ) → IsNode (node_count state.old.net) v → label_of tree.now v ≢ k)
        → amount_at state.new k ≡ amount_at state.old k }
{
    let net = state.net();
    for i in 0..net.node_count() {
        let v = NodeId::at(i);
        write_inside(
            net,
            tree.parent_arc(v),
            v,
            residuals[v.get() as usize],
            state,
        );
    }
}

// Writes the amount of a tree arc, if it is an arc of the net: the residual capacity from its head,
// where `v` is the node below it.
fn write_inside(net: &Net, k: ArcId, v: NodeId, room: Residuals, state: &mut State<'_>)
    requires net { state.old.net ≡ net.now }
    requires low { 1 ≤ k }
    requires width { k ≤ length net.now.arcs → pos (room.up + room.down) ≡ (arc_at net.now k).cap }
    requires flow { IsPseudoflow state.old }
    ensures net { state.new.net ≡ net.now }
    ensures flow { IsPseudoflow state.new }
    ensures value { k ≤ length net.now.arcs → amount_at state.new k ≡ (if (arc_at net.now k).src == v then pos room.down else pos room.up) }
    ensures others { (j : ℕ) → IsArcNumber net.now j → j ≢ k → amount_at state.new j ≡ amount_at state.old j }
{
    if net.arc_count() < k.get() {
        return;
    }
    let (src, _) = net.ends(k);
    let amount = if src.get() == v.get() {
        room.down
    } else {
        room.up
    };
    set_amount(state, k, i128::from(amount));
}

// Sets the amount of an arc.
fn set_amount(state: &mut State<'_>, k: ArcId, amount: i128)
    requires arc { IsArcNumber state.old.net k }
    requires low { pos 0 ≤ℤ amount }
    requires high { amount ≤ℤ (arc_at state.old.net k).cap }
    ensures net { state.new.net ≡ state.old.net }
    ensures flow { IsPseudoflow state.new }
    ensures value { amount_at state.new k ≡ amount }
    ensures others { (j : ℕ) → IsArcNumber state.old.net j → j ≢ k → amount_at state.new j ≡ amount_at state.old j }
{
    let old = state.amount(k);
    let back = amount < old;
    let change = if back { old - amount } else { amount - old };
    state.push(Rid { arc: k, back }, change);
}
