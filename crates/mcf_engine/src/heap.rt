//! A priority queue of the nodes of a net.
ghost use Rattle.std.specs.Prelude.{◌≡◌, ◌<◌, ◌≤◌, ◌<ℤ◌, ◌≤ℤ◌, ◌∷◌, ◌++◌, [], true, false, IfNone, IfOk, IfSome, IsTrue, OnErr, length, map, neg_ℤ, ◌↔◌};
ghost use Rattle.std.specs.Prelude.{vec_capacity};
ghost use Rattle.std.specs.BinaryHeap.{heap_capacity, heap_items, heap_len};
ghost use Rattle.std.specs.Bool.{MatchBool};
ghost use Rattle.std.specs.List.{All};
ghost use Rattle.std.specs.List.Sorted.{IsPermutation};
ghost use Rattle.mcf_flows.specs.Limits.{node_limit};
ghost use Rattle.mcf_flows.specs.Network.{IsNode, at_node, node_count};
ghost use Rattle.mcf_flows.specs.WellFormed.{IsUpTo};
ghost use Rattle.mcf_engine.specs.Heaps.{IsFirst, Keyed, NoneWaits, Waits, no_keys, waiting_with, with_key, without};
ghost use Rattle.mcf_engine.specs.NearPrices.{near_limit};
ghost use Rattle.mcf_engine.specs.Private.Queues.{AreOrdered, IsCurrent, IsQueue, Precedes, all_waiting};

use mcf_network::Net;
use mcf_text::{NoMemory, NodeId, copies};
use std::alloc::Global;
use std::cmp::Reverse;
use std::collections::BinaryHeap;
use std::marker::Model;

/// A key with which a node was queued; nodes are counted from 0 here.
#[derive(Clone, Copy, PartialEq, Eq, PartialOrd, Ord)]
pub(crate) struct KeyEntry {
    key: i128,
    item: u32,
}

/// A priority queue of nodes, each of which has a key and may be queued: the one with the least key
/// comes first, and of equal keys the one with the least number (Cormen, Leiserson, Rivest and
/// Stein, Introduction to Algorithms, sections 6.5 and 24.3).
///
/// Each key with which a node was queued has an entry, in a sorted list or in a binary heap; first
/// comes the last of the list or the top of the heap. The list is for nodes that are queued all at
/// once: to sort their entries and to take them off its end takes less time than as many pushes and
/// pops. Each later key goes into the heap. An entry is skipped if its node isn't queued, or has
/// another key. If the heap has no place for another entry, the list is made anew from the
/// queued nodes, and the heap is emptied. Only `new` allocates. Clauses see the keys of all nodes,
/// and the table of those that are queued.
#[derive(Drop)]
pub struct Heap {
    keys: Vec<i128>,
    waiting: Vec<bool>,
    order: Vec<Reverse<KeyEntry>>,
    entries: BinaryHeap<Reverse<KeyEntry>>,
}

impl Model for Heap {
    ghost use Rattle.mcf_engine.specs.Heaps.{Keyed};

    ghost Value = { Keyed };

    ghost use Rattle.mcf_engine.specs.Private.Queues.{IsQueue};

    ghost view = { λ h. record { keys = h.keys.items; waiting = h.waiting.items } };

    ghost use Rattle.std.specs.Prelude.{vec_capacity};
    ghost use Rattle.std.specs.BinaryHeap.{heap_capacity, heap_items};

    ghost invariant = { λ h. IsQueue (record { keys = h.keys.items; waiting = h.waiting.items }) h.order.items (heap_items h.entries) (vec_capacity h.order) (heap_capacity h.entries) };
}

impl Heap {
    /// Makes the heap of a net's nodes, in which no node is queued and each has key 0.
    ///
    /// # Errors
    ///
    /// `NoMemory` if an allocation is refused; a net without nodes needs none.
    pub fn new(alloc: Global, net: &Net) -> Result<Heap, NoMemory>
        ensures value { IfOk result (λ h. h ≡ no_keys (node_count net.now)) }
        ensures wants { OnErr result (1 ≤ node_count net.now) }
    {
        let nodes = net.node_count() as usize;
        let keys = copies(alloc, nodes, 0)?;
        let waiting = copies(alloc, nodes, false)?;
        let order = Vec::with_capacity(alloc, nodes)?;
        let mut entries = BinaryHeap::new(alloc);
        entries.reserve(nodes)?;
        Ok(Heap {
            keys,
            waiting,
            order,
            entries,
        })
    }

    /// Returns the key of a node: the one with which it is queued, or its last one.
    pub fn key(&self, v: NodeId) -> i128
        requires { IsNode (length self.now.keys) v }
        ensures { result ≡ at_node self.now.keys v }
    {
        self.keys[v.place()]
    }

    /// Returns whether a node is queued.
    pub fn waits(&self, v: NodeId) -> bool
        requires { IsNode (length self.now.waiting) v }
        ensures { IsTrue result ↔ Waits self.now v }
    {
        self.waiting[v.place()]
    }

    /// Queues each node with the negative of its price.
    pub(crate) fn wait_all(&mut self, prices: &[i128])
        requires count { length self.old.waiting ≡ length prices.now }
        requires small { All (IsUpTo near_limit) prices.now }
        ensures { self.new ≡ all_waiting prices.now }
    {
        put_opposites(self.keys.as_mut_slice(), prices);
        self.waiting.as_mut_slice().fill(true);
        queue_anew(
            &mut self.order,
            &mut self.entries,
            self.keys.as_slice(),
            self.waiting.as_slice(),
        );
    }

    /// Queues a node with a key, unless it is queued with one that is no greater, and returns
    /// whether it is now queued with this one.
    pub fn offer(&mut self, v: NodeId, key: i128) -> bool
        requires node { IsNode (length self.old.waiting) v }
        ensures lowered { result ≡ true → self.new ≡ waiting_with self.old v key }
        ensures less { result ≡ true → Waits self.old v → key <ℤ at_node self.old.keys v }
        ensures same { result ≡ false → self.new ≡ self.old }
        ensures waits { result ≡ false → Waits self.old v × (at_node self.old.keys v ≤ℤ key) }
    {
        let i = v.place();
        if self.waiting[i] && self.keys[i] <= key {
            return false;
        }
        make_room(
            &mut self.order,
            &mut self.entries,
            self.keys.as_slice(),
            self.waiting.as_slice(),
        );
        let item = i as u32;
        let _ = self.entries.push(Reverse(KeyEntry { key, item }));
        self.keys[i] = key;
        self.waiting[i] = true;
        true
    }

    /// Removes the node that comes first from the queue and returns it, if any is queued. It keeps
    /// its key.
    pub fn pop(&mut self) -> Option<NodeId>
        ensures first { IfSome result (IsFirst self.old) }
        ensures taken { IfSome result (λ v. self.new ≡ without self.old v) }
        ensures none { IfNone result (NoneWaits self.old) }
        ensures same { IfNone result (self.new ≡ self.old) }
    {
        'entries: loop {
            let Reverse(entry) = take(&mut self.order, &mut self.entries)?;
            if is_current(self.keys.as_slice(), self.waiting.as_slice(), entry) {
                self.waiting[entry.item as usize] = false;
                return Some(NodeId::at(entry.item));
            }
        }
    }

    /// Gives a queued node its final key: it is removed from the queue, wherever it is.
    pub fn settle(&mut self, v: NodeId, key: i128)
        requires node { IsNode (length self.old.waiting) v }
        requires waits { Waits self.old v }
        ensures { self.new ≡ without (with_key self.old v key) v }
    {
        let place = v.place();
        self.keys[place] = key;
        self.waiting[place] = false;
    }
}

// Returns whether the node of an entry is queued with the key of the entry.
fn is_current(keys: &[i128], waiting: &[bool], entry: KeyEntry) -> bool
    requires key { entry.item < length keys.now }
    requires mark { entry.item < length waiting.now }
    ensures { MatchBool result (IsCurrent (record { keys = keys.now; waiting = waiting.now }) entry) (¬ IsCurrent (record { keys = keys.now; waiting = waiting.now }) entry) }
{
    let i = entry.item as usize;
    waiting[i] && keys[i] == entry.key
}

// Removes the entry that comes first, the last of the list or the top of the heap, and returns it,
// if there is one.
fn take(
    order: &mut Vec<Reverse<KeyEntry>>,
    entries: &mut BinaryHeap<Reverse<KeyEntry>>,
) -> Option<Reverse<KeyEntry>>
    requires ordered { AreOrdered order.old.items (heap_items entries.old) }
    ensures ordered { AreOrdered order.new.items (heap_items entries.new) }
    ensures taken { IfSome result (λ e. IsPermutation (order.old.items ++ heap_items entries.old) (e ∷ (order.new.items ++ heap_items entries.new))) }
    ensures first { IfSome result (λ e. All (Precedes e) (order.new.items ++ heap_items entries.new)) }
    ensures none { IfNone result (order.old.items ++ heap_items entries.old ≡ []) }
    ensures over { IfNone result (order.new.items ++ heap_items entries.new ≡ []) }
    ensures room { vec_capacity order.new ≡ vec_capacity order.old }
    ensures more { heap_capacity entries.new ≡ heap_capacity entries.old }
{
    if order.last() < entries.peek() {
        entries.pop()
    } else {
        order.pop()
    }
}

// Makes a place for one more entry in the heap.
fn make_room(
    order: &mut Vec<Reverse<KeyEntry>>,
    entries: &mut BinaryHeap<Reverse<KeyEntry>>,
    keys: &[i128],
    waiting: &[bool],
)
    requires queue { IsQueue (record { keys = keys.now; waiting = waiting.now }) order.old.items (heap_items entries.old) (vec_capacity order.old) (heap_capacity entries.old) }
    requires some { 1 ≤ length waiting.now }
    ensures queue { IsQueue (record { keys = keys.now; waiting = waiting.now }) order.new.items (heap_items entries.new) (vec_capacity order.new) (heap_capacity entries.new) }
    ensures room { heap_len entries.new < heap_capacity entries.new }
{
    if entries.len() == entries.capacity() {
        queue_anew(order, entries, keys, waiting);
    }
}

// Lists one entry for each queued node, in order, instead of all earlier entries, and empties the
// heap.
fn queue_anew(
    order: &mut Vec<Reverse<KeyEntry>>,
    entries: &mut BinaryHeap<Reverse<KeyEntry>>,
    keys: &[i128],
    waiting: &[bool],
)
    requires keys { length keys.now ≡ length waiting.now }
    requires few { length waiting.now ≤ node_limit }
    requires enough { length waiting.now ≤ vec_capacity order.old }
    requires room { length waiting.now ≤ heap_capacity entries.old }
    ensures queue { IsQueue (record { keys = keys.now; waiting = waiting.now }) order.new.items (heap_items entries.new) (vec_capacity order.new) (heap_capacity entries.new) }
    ensures empty { heap_len entries.new ≡ 0 }
{
    entries.clear();
    order.clear();
    'items: for i in 0..waiting.len() {
        if waiting[i] {
            let (key, item) = (keys[i], i as u32);
            order.push_reserved(Reverse(KeyEntry { key, item }));
        }
    }
    order.as_mut_slice().sort_unstable();
}

// Writes the negatives of prices over keys.
fn put_opposites(keys: &mut [i128], prices: &[i128])
    requires count { length keys.old ≡ length prices.now }
    requires small { All (IsUpTo near_limit) prices.now }
    ensures { keys.new ≡ map neg_ℤ prices.now }
{
    'keys: for i in 0..prices.len() {
        keys[i] = -prices[i];
    }
}
