//! Numbers of nodes.
use std::marker::Model;

/// The number of a node. An instance numbers its nodes from 1. The type holds any `u32`; whether an
/// instance has that node is for the instance to say. Numbers are ordered and compared as numbers.
#[derive(Clone, Copy, Debug, PartialEq, Eq, PartialOrd, Ord, Hash)]
pub struct NodeId {
    number: u32,
}

impl Model for NodeId {
    ghost use Rattle.std.specs.Prelude.{ℕ};

    ghost Value = { ℕ };

    ghost view = { λ id. id.number };

    ghost inverse = { λ n. record { number = n } };
}

impl NodeId {
    ghost use Rattle.std.specs.Prelude.{◌≡◌, ◌+◌, ◌-◌, ◌<◌, ◌≤◌, ◌^◌};

    /// The node with this number.
    pub fn new(number: u32) -> NodeId
        ensures { result ≡ number }
    {
        NodeId { number }
    }

    /// The number of the node, as its text writes it.
    pub fn get(self) -> u32
        ensures { result ≡ self }
    {
        self.number
    }

    /// The node at a place of a list of all nodes, counted from 0: its number is one more.
    pub fn at(place: u32) -> NodeId
        requires { place + 1 < 2 ^ 32 }
        ensures { result ≡ place + 1 }
    {
        NodeId::new(place + 1)
    }

    /// Where the node stands in a list of all nodes, counted from 0: its number, which isn't 0,
    /// less 1.
    pub fn place(self) -> usize
        requires { 1 ≤ self }
        ensures { result ≡ self - 1 }
    {
        self.get() as usize - 1
    }
}
