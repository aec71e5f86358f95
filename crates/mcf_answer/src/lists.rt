//! The lists of an answer.
use crate::answers::Sent;
use mcf_text::{ArcId, NoMemory, NodeId};
use std::marker::Model;

/// A list of an answer. Clauses see the list.
#[derive(Debug, Drop)]
pub struct AnswerList<T> {
    items: Vec<T>,
}

impl<T> Model for AnswerList<T> {
    ghost use Rattle.std.specs.Prelude.{List};

    ghost Value = { List T };

    ghost view = { λ list. list.items.items };
}

/// The flows of arcs, in their order.
pub type SentList = AnswerList<Sent>;

/// Some arcs by their numbers, each with its flow.
pub type MovedList = AnswerList<(ArcId, i128)>;

/// The prices of the nodes, from node 1 on.
pub type PriceList = AnswerList<i128>;

/// Numbers of nodes.
pub type NodeList = AnswerList<NodeId>;

impl<T: Drop> AnswerList<T> {
    ghost use Rattle.std.specs.Prelude.{◌≡◌, ◌==◌, ◌++◌, ◌∷◌, [], length, OnOk, OnErr};

    /// The list of these items, without any allocation.
    pub fn new(items: Vec<T>) -> AnswerList<T>
        ensures { result ≡ items.items }
    {
        AnswerList { items }
    }

    /// The items, in order.
    pub fn as_slice(&self) -> &[T]
        ensures { result.now ≡ self.now }
    {
        &self.items
    }

    /// The items.
    pub fn into_vec(self) -> Vec<T>
        ensures { result.items ≡ self }
    {
        let AnswerList { items } = self;
        items
    }

    /// The number of items.
    pub fn len(&self) -> usize
        ensures { result ≡ length self.now }
    {
        self.items.len()
    }

    /// Whether there are no items.
    pub fn is_empty(&self) -> bool
        ensures { result ≡ (length self.now == 0) }
    {
        self.items.is_empty()
    }

    /// Appends an item.
    pub(crate) fn push(&mut self, item: T) -> Result<(), NoMemory>
        ensures ok { OnOk result (self.new ≡ self.old ++ item ∷ []) }
        ensures err { OnErr result (self.new ≡ self.old) }
    {
        self.items.push(item)?;
        Ok(())
    }
}

impl MovedList {
    ghost use Rattle.std.specs.Prelude.{◌≡◌};
    ghost use Rattle.mcf_answer.specs.Fits.{is_above_last};
    ghost use Rattle.mcf_answer.specs.SparseSolution.{arc_numbers};

    /// Whether the last arc, if there is one, has a number below this one's.
    pub(crate) fn is_below(&self, arc: ArcId) -> bool
        ensures { result ≡ is_above_last (arc_numbers self.now) arc }
    {
        let Some(last) = self.items.last() else {
            return true;
        };
        last.0 < arc
    }
}

impl PriceList {
    ghost use Rattle.std.specs.Prelude.{◌≡◌, ◌==◌, ◌+◌, length};

    /// Whether this node's price comes next.
    pub(crate) fn is_next(&self, id: NodeId) -> bool
        ensures { result ≡ (id == length self.now + 1) }
    {
        id.get() as usize == self.items.len() + 1
    }
}

impl NodeList {
    ghost use Rattle.std.specs.Prelude.{◌≡◌};
    ghost use Rattle.mcf_answer.specs.Fits.{is_above_last};

    /// Whether the last node, if there is one, is below this one.
    pub(crate) fn is_below(&self, node: NodeId) -> bool
        ensures { result ≡ is_above_last self.now node }
    {
        match self.items.last() {
            Some(last) => *last < node,
            None => true,
        }
    }
}
