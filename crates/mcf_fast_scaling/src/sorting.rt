//! Depth-first searches along residual arcs of low reduced cost, and the negative cycles that they
//! close.

use crate::star::{LIMIT, LeavingArc, Star};
use mcf_columns::{NOWHERE, at, put};
use mcf_text::{NoMemory, copies};
use std::alloc::Global;

// The progress of a search at a node: not to be visited, to be visited, on the path, or left.
#[derive(Clone, Copy, PartialEq, Eq)]
enum Mark {
    Quiet,
    Labelled,
    Entered,
    Left,
}

// How a search reached a node: from which node, at which depth, and the depth at which the last
// arc of negative reduced cost above it ends; and the place of its current arc. For a node that the
// search has left, the node that it left before.
#[derive(Clone, Copy, Default)]
struct Visit {
    before: u32,
    depth: u32,
    deepest: u32,
    current: u32,
}

/// The labels of nodes, and a list of nodes that a search has left, the last one first.
#[derive(Drop)]
pub(crate) struct Order {
    marks: Vec<Mark>,
    visits: Vec<Visit>,
    last: u32,
}

impl Order {
    /// An empty list of so many nodes, none of which is labelled.
    pub(crate) fn start(alloc: Global, nodes: usize) -> Result<Order, NoMemory> {
        Ok(Order {
            marks: copies(alloc, nodes, Mark::Quiet)?,
            visits: copies(alloc, nodes, Visit::default())?,
            last: NOWHERE,
        })
    }

    /// Labels all nodes.
    pub(crate) fn label_all(&mut self) {
        self.marks.as_mut_slice().fill(Mark::Labelled);
    }

    /// Labels a node.
    pub(crate) fn label(&mut self, node: u32) {
        put(&mut self.marks, node, Mark::Labelled);
    }

    /// Whether the list is empty.
    pub(crate) fn is_empty(&self) -> bool {
        self.last == NOWHERE
    }

    /// Removes the last node of the list, if there is one, and its label.
    pub(crate) fn pop(&mut self) -> Option<u32> {
        let node = self.last;
        if node == NOWHERE {
            return None;
        }
        self.last = self.visit(node).before;
        put(&mut self.marks, node, Mark::Quiet);
        Some(node)
    }

    // How the search reached a node.
    fn visit(&self, node: u32) -> Visit {
        at(&self.visits, node, Visit::default())
    }

    // Leaves a node, which is then the last of the list, and returns the node from which the search
    // reached it.
    fn leave(&mut self, node: u32) -> u32 {
        let mut visit = self.visit(node);
        let before = visit.before;
        visit.before = self.last;
        put(&mut self.visits, node, visit);
        put(&mut self.marks, node, Mark::Left);
        self.last = node;
        before
    }
}

/// A depth-first search from the labelled nodes.
#[derive(Drop)]
pub(crate) struct Sorter<'a> {
    pub(crate) star: &'a mut Star,
    pub(crate) order: &'a mut Order,
}

impl Sorter<'_> {
    /// Lists the nodes that are reached from the labelled ones along arcs of reduced cost at most
    /// `most`, in the order in which the search leaves them, if an arc of negative reduced cost
    /// leaves the first. It cancels the negative cycles that it meets; if `most` is negative, too,
    /// it stops at the first cycle, and returns false.
    pub(crate) fn sort(&mut self, most: i64) -> bool {
        self.order.last = NOWHERE;
        'roots: for root in 0..self.star.node_count() {
            if at(&self.order.marks, root, Mark::Left) != Mark::Labelled {
                continue;
            }
            self.star.pay_degree(root);
            let (first, end) = (self.star.first(root), self.star.end(root));
            if self.star.seek(root, first, end, 0).0.is_none() {
                put(&mut self.order.marks, root, Mark::Quiet);
            } else if !self.sort_reached(root, most) {
                return false;
            }
        }
        true
    }

    // Lists the nodes that are reached from one of them.
    fn sort_reached(&mut self, root: u32, most: i64) -> bool {
        self.enter(root, NOWHERE, false);
        let mut tip = root;
        'steps: for _ in 0..u64::MAX {
            let Some(arc) = self.next_arc(tip, most) else {
                tip = self.order.leave(tip);
                if tip == NOWHERE {
                    break;
                }
                continue;
            };
            if at(&self.order.marks, arc.head, Mark::Left) != Mark::Entered {
                self.enter(arc.head, tip, arc.reduced < 0);
            } else {
                self.cancel(arc.head, tip);
                if most < 0 {
                    return false;
                }
            }
            tip = arc.head;
        }
        true
    }

    // Enters a node.
    fn enter(&mut self, node: u32, before: u32, is_negative: bool) {
        let above = self.order.visit(before);
        let depth = above.depth.wrapping_add(1);
        let visit = Visit {
            before,
            depth,
            deepest: if is_negative { depth } else { above.deepest },
            current: self.star.first(node),
        };
        self.star.pay_degree(node);
        put(&mut self.order.visits, node, visit);
        put(&mut self.order.marks, node, Mark::Entered);
    }

    // The first arc of a node, from the current one on, that has residual capacity and a reduced
    // cost of at most `most`, and leads to a new node or closes a negative cycle. It is current
    // then.
    fn next_arc(&mut self, node: u32, most: i64) -> Option<LeavingArc> {
        let mut visit = self.order.visit(node);
        let (end, limit) = (self.star.end(node), most.wrapping_add(1));
        'arcs: for _ in 0..u32::MAX {
            let arc = self.star.seek(node, visit.current, end, limit).0?;
            let is_taken = match at(&self.order.marks, arc.head, Mark::Left) {
                Mark::Left => false,
                Mark::Entered => {
                    arc.reduced < 0 || visit.deepest > self.order.visit(arc.head).depth
                }
                _ => true,
            };
            if is_taken {
                visit.current = arc.place;
                put(&mut self.order.visits, node, visit);
                return Some(arc);
            }
            visit.current = arc.place.wrapping_add(1);
        }
        None
    }

    // Cancels a negative cycle: from a node down to another, and back by the current arc of that.
    // The search returns to the first, and the nodes below are labelled.
    fn cancel(&mut self, top: u32, tip: u32) {
        let amount = self.room_of(top, tip);
        let mut node = tip;
        'nodes: for _ in 0..=self.star.node_count() {
            let visit = self.order.visit(node);
            self.star.send(visit.current, amount);
            if node == top {
                break;
            }
            self.order.label(node);
            node = visit.before;
        }
    }

    // The residual capacity of a cycle.
    fn room_of(&self, top: u32, tip: u32) -> i64 {
        let mut node = tip;
        let mut least = LIMIT;
        'nodes: for _ in 0..=self.star.node_count() {
            let visit = self.order.visit(node);
            least = least.min(self.star.room(visit.current));
            if node == top {
                break;
            }
            node = visit.before;
        }
        least
    }
}
