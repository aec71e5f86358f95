//! A phase: the flow becomes optimal within the slack, and balanced.

use crate::spreading::Update;
use crate::star::{NOTHING, Star};
use crate::tables::{Buckets, Queue};
use crate::tuning::{LATE_FIFTHS, MOST_ARCS, MOST_NODES};
use mcf_columns::{NOWHERE, at, put};

// A path from an active node: its residual arcs, by their places, and the nodes that they leave and
// enter.
#[derive(Drop)]
struct Path {
    places: [u32; MOST_ARCS],
    nodes: [u32; MOST_NODES],
    len: u32,
}

impl Path {
    // The last node.
    fn tip(&self) -> u32 {
        at(&self.nodes, self.len, NOWHERE)
    }

    // Puts a residual arc to a node behind it.
    fn push(&mut self, place: u32, node: u32) {
        put(&mut self.places, self.len, place);
        self.len = self.len.wrapping_add(1);
        put(&mut self.nodes, self.len, node);
    }
}

/// A phase that augments the flow along paths. It begins with an empty queue, and ends with one if
/// it succeeds.
#[derive(Drop)]
pub(crate) struct Phase<'a> {
    pub(crate) star: &'a mut Star,
    // for each node the place of its current arc
    pub(crate) currents: &'a mut [u32],
    // the active nodes: those with a surplus
    pub(crate) queue: &'a mut Queue,
    pub(crate) buckets: &'a mut Buckets,
    // how often prices were lowered since the last update
    pub(crate) relabels: u32,
}

impl Phase<'_> {
    /// Fills what is far from optimal, and augments the flow until no node is active. It returns
    /// false where some surplus can't go anywhere, and where it takes too long.
    pub(crate) fn run(&mut self) -> bool {
        self.star.write_firsts(self.currents, 0);
        self.fill_all();
        self.queue_active();
        'nodes: for _ in 0..u64::MAX {
            let Some(node) = self.queue.pop() else {
                return true;
            };
            if !self.discharge(node) {
                return false;
            }
        }
        false
    }

    // Fills each residual arc whose reduced cost is further below 0 than the slack.
    fn fill_all(&mut self) {
        'nodes: for node in 0..self.star.node_count() {
            self.fill(node);
        }
    }

    // Fills those that leave a node.
    fn fill(&mut self, node: u32) {
        let least = self.star.slack().wrapping_neg();
        let (mut from, end) = (self.star.first(node), self.star.end(node));
        self.star.pay_degree(node);
        'arcs: for _ in 0..u32::MAX {
            let Some(arc) = self.star.seek(node, from, end, least).0 else {
                break;
            };
            let room = self.star.room(arc.place);
            self.star.push_along(arc.place, node, arc.head, room);
            from = arc.place.wrapping_add(1);
        }
    }

    // Lets the active nodes wait, in their order.
    fn queue_active(&mut self) {
        'nodes: for node in 0..self.star.node_count() {
            if self.star.surplus(node) > 0 {
                self.queue.push(node);
            }
        }
    }

    // Augments along paths from a node until it isn't active. After an update it goes to the end of
    // the queue, so that none starves the others.
    fn discharge(&mut self, node: u32) -> bool {
        'paths: for _ in 0..u64::MAX {
            if self.star.surplus(node) <= 0 {
                return true;
            }
            let mut path = Path {
                places: [NOWHERE; MOST_ARCS],
                nodes: [node; MOST_NODES],
                len: 0,
            };
            if self.star.budget.is_spent() || !self.extend(&mut path) {
                return false;
            }
            self.augment(&path);
            if self.is_late() {
                self.queue.push(node);
                return self.update_prices();
            }
        }
        false
    }

    // Extends a path by admissible arcs, and relabels if there is none.
    fn extend(&mut self, path: &mut Path) -> bool {
        'arcs: for _ in 0..u32::MAX {
            let tip = path.tip();
            let is_over = path.len as usize >= MOST_ARCS || self.is_late();
            if is_over || self.star.surplus(tip) < 0 {
                return true;
            }
            let current = at(self.currents, tip, 0);
            let (found, least) = self.star.seek(tip, current, self.star.end(tip), 0);
            if let Some(arc) = found {
                self.star.budget.pay(arc.place.wrapping_sub(current));
                put(self.currents, tip, arc.place);
                path.push(arc.place, arc.head);
            } else {
                self.star.pay_degree(tip);
                let (_, before) = self.star.seek(tip, self.star.first(tip), current, 0);
                if !self.relabel(path, least.min(before)) {
                    return false;
                }
            }
        }
        true
    }

    // Takes the last arc off a path, and lowers the price of its last node, which no admissible arc
    // leaves, by the slack and the least reduced cost, or by the slack alone where there is only
    // the way back. The node begins with its first arc then.
    fn relabel(&mut self, path: &mut Path, least: i64) -> bool {
        if least == NOTHING && path.len == 0 {
            return false;
        }
        let tip = path.tip();
        path.len = path.len.saturating_sub(1);
        let fall = if least == NOTHING { 0 } else { least };
        let lowered = self.star.price(tip).wrapping_sub(fall);
        let lowered = lowered.wrapping_sub(self.star.slack());
        self.relabels = self.relabels.wrapping_add(1);
        put(self.currents, tip, self.star.first(tip));
        self.star.set_price(tip, lowered)
    }

    // Whether an update of all prices is due.
    fn is_late(&self) -> bool {
        self.relabels > self.star.node_count() / 5 * LATE_FIFTHS
    }

    // Updates all prices. Each node begins with its first arc then.
    fn update_prices(&mut self) -> bool {
        self.relabels = 0;
        self.star.write_firsts(self.currents, 0);
        let mut update = Update {
            star: self.star,
            buckets: self.buckets,
        };
        update.raise_prices()
    }

    // Pushes along each arc of a path in turn, as much as its tail has and it has room for. Its
    // head waits then if it has a surplus.
    fn augment(&mut self, path: &Path) {
        'arcs: for i in 0..path.len {
            let place = at(&path.places, i, NOWHERE);
            let from = at(&path.nodes, i, NOWHERE);
            let to = at(&path.nodes, i.wrapping_add(1), NOWHERE);
            let amount = self.star.surplus(from).min(self.star.room(place));
            if amount > 0 && self.star.push_along(place, from, to, amount) > 0 {
                self.queue.push(to);
            }
        }
    }
}
