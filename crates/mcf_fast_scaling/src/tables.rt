//! Tables of the nodes that a search passes through: a queue, and buckets.

use crate::tuning::LEAST_BUCKETS;
use mcf_columns::{NOWHERE, at, narrow, put};
use mcf_text::{NoMemory, copies};
use std::alloc::Global;

/// A queue of nodes, each once, first in, first out: a list linked forward, whose last node leads
/// to itself.
#[derive(Drop)]
pub(crate) struct Queue {
    nexts: Vec<u32>,
    first: u32,
    last: u32,
}

impl Queue {
    /// The empty queue.
    pub(crate) fn start(alloc: Global, nodes: usize) -> Result<Queue, NoMemory> {
        Ok(Queue {
            nexts: copies(alloc, nodes, NOWHERE)?,
            first: NOWHERE,
            last: NOWHERE,
        })
    }

    /// Queues a node, unless it is queued.
    pub(crate) fn push(&mut self, node: u32) {
        if at(&self.nexts, node, node) != NOWHERE {
            return;
        }
        if self.first == NOWHERE {
            self.first = node;
        } else {
            put(&mut self.nexts, self.last, node);
        }
        put(&mut self.nexts, node, node);
        self.last = node;
    }

    /// Takes the first node, if any is queued.
    pub(crate) fn pop(&mut self) -> Option<u32> {
        let node = self.first;
        if node == NOWHERE {
            return None;
        }
        let next = at(&self.nexts, node, node);
        self.first = if next == node { NOWHERE } else { next };
        put(&mut self.nexts, node, NOWHERE);
        Some(node)
    }
}

/// A rank for each node, and a bucket for each rank above 0: a doubly linked list of nodes (Dial).
/// Nodes of rank 0 are in none.
#[derive(Drop)]
pub(crate) struct Buckets {
    ranks: Vec<u32>,
    heads: Vec<u32>,
    nexts: Vec<u32>,
    befores: Vec<u32>,
}

impl Buckets {
    /// The empty buckets for this many nodes: one per node, but at least the least number.
    pub(crate) fn start(alloc: Global, nodes: u32) -> Result<Buckets, NoMemory> {
        let most = nodes.max(LEAST_BUCKETS);
        Ok(Buckets {
            ranks: copies(alloc, nodes as usize, 0)?,
            heads: copies(alloc, most as usize + 1, NOWHERE)?,
            nexts: copies(alloc, nodes as usize, NOWHERE)?,
            befores: copies(alloc, nodes as usize, NOWHERE)?,
        })
    }

    /// Gives each node the rank 0.
    pub(crate) fn clear(&mut self) {
        self.ranks.as_mut_slice().fill(0);
        self.heads.as_mut_slice().fill(NOWHERE);
    }

    /// The greatest rank.
    pub(crate) fn most(&self) -> u32 {
        narrow(self.heads.len().saturating_sub(1))
    }

    /// The rank of a node.
    pub(crate) fn rank(&self, node: u32) -> u32 {
        at(&self.ranks, node, 0)
    }

    /// Gives a node a greater rank, and so another bucket.
    #[inline(always)]
    pub(crate) fn raise(&mut self, node: u32, rank: u32) {
        let old = self.rank(node);
        if old > 0 {
            self.unlink(node, old);
        }
        let next = at(&self.heads, rank, NOWHERE);
        put(&mut self.nexts, node, next);
        put(&mut self.befores, next, node);
        put(&mut self.heads, rank, node);
        put(&mut self.ranks, node, rank);
    }

    // Removes a node from the bucket of its rank.
    fn unlink(&mut self, node: u32, rank: u32) {
        let next = at(&self.nexts, node, NOWHERE);
        let before = at(&self.befores, node, NOWHERE);
        if at(&self.heads, rank, NOWHERE) == node {
            put(&mut self.heads, rank, next);
        } else {
            put(&mut self.nexts, before, next);
        }
        put(&mut self.befores, next, before);
    }

    /// Takes a node from the bucket of a rank, if there is one. It keeps its rank.
    pub(crate) fn pop(&mut self, rank: u32) -> Option<u32> {
        let node = at(&self.heads, rank, NOWHERE);
        if node == NOWHERE {
            return None;
        }
        let next = at(&self.nexts, node, NOWHERE);
        put(&mut self.heads, rank, next);
        Some(node)
    }
}
