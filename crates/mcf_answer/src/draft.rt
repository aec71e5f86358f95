//! The parser's state: the content of the lines so far.
use crate::answers::{Answer, BlockedAnswer, FlowAnswer, SparseAnswer};
use crate::line::{
    cost_line, flow_line, member_line, moved_line, price_line, refusal_line, set_line, version_line,
};
use crate::lists::{MovedList, NodeList, PriceList, SentList};
use mcf_flows::{Refusal, Side};
use mcf_text::{ArcId, NoMemory, NodeId};
use std::alloc::Global;
use std::marker::Model;

/// A blocked answer that may still lack some of its nodes.
#[derive(Drop)]
pub(crate) struct SetDraft {
    side: Side,
    count: u32,
    nodes: NodeList,
}

impl Model for SetDraft {
    ghost use Rattle.mcf_answer.specs.Private.PartialSet.{IsPartialSet, PartialSet};

    ghost Value = { PartialSet };

    ghost view = { λ a. record { side = a.side; count = a.count; nodes = a.nodes } };

    ghost invariant = { λ a. IsPartialSet (record { side = a.side; count = a.count; nodes = a.nodes }) };
}

/// The content of the lines so far.
#[derive(Drop)]
pub(crate) enum Draft {
    /// No line yet.
    Empty,
    /// The lines of a flow answer.
    Flow(FlowAnswer),
    /// The version line of a sparse flow answer.
    Announced,
    /// The lines of a sparse flow answer.
    Sparse(SparseAnswer),
    /// The first lines of a blocked answer.
    Blocked(SetDraft),
    /// The line of a refusal.
    Refused(Refusal),
}

impl FlowAnswer {
    ghost use Rattle.std.specs.Prelude.{◌≡◌, IfOk, IsTrue, OnErr, Some, None, is_some, if◌then◌else◌};
    ghost use Rattle.mcf_answer.specs.Private.Draft.{priced, solution_after};
    ghost use Rattle.mcf_answer.specs.Parsing.{says_item};
    ghost use Rattle.mcf_answer.specs.Ranges.{IsAmount, IsNodeInRange};
    ghost use Rattle.mcf_answer.specs.Token.{tokens_of};
    ghost use Rattle.mcf_text.specs.Fields.{fields_of};

    // Takes the price of a node, if it is the next node.
    fn take_price(&mut self, id: NodeId, price: i128) -> Result<bool, NoMemory>
        requires node { IsNodeInRange id }
        requires amount { IsAmount price }
        ensures value { IfOk result (λ fit. (if fit then Some self.new else None) ≡ priced self.old (Some (id, price))) }
        ensures fits { OnErr result (IsTrue (is_some (priced self.old (Some (id, price))))) }
    {
        if self.prices.is_next(id) {
            self.prices.push(price)?;
            Ok(true)
        } else {
            Ok(false)
        }
    }

    // Takes a line, if it fits.
    #[tactic(auto, unfolding(crate::specs::Private::Draft::solution_after))]
    fn take(&mut self, line: &[u8]) -> Result<bool, NoMemory>
        ensures value { IfOk result (λ fit. (if fit then Some self.new else None) ≡ solution_after self.old (tokens_of (fields_of line.now))) }
        ensures wants { OnErr result (IsTrue (says_item (tokens_of (fields_of line.now)))) }
        ensures fits { OnErr result (IsTrue (is_some (solution_after self.old (tokens_of (fields_of line.now))))) }
    {
        if let Some(sent) = flow_line(line) {
            if !self.prices.is_empty() {
                return Ok(false);
            }
            self.sent.push(sent)?;
            return Ok(true);
        }
        match price_line(line) {
            Some((id, price)) => self.take_price(id, price),
            None => Ok(false),
        }
    }
}

impl SparseAnswer {
    ghost use Rattle.std.specs.Prelude.{◌≡◌, IfOk, IsTrue, OnErr, Some, None, is_some, if◌then◌else◌};
    ghost use Rattle.mcf_answer.specs.Private.Draft.{sparse_after, sparse_moved, sparse_priced};
    ghost use Rattle.mcf_answer.specs.SparseSolution.{IsMoved};
    ghost use Rattle.mcf_answer.specs.Parsing.{says_item};
    ghost use Rattle.mcf_answer.specs.Ranges.{IsAmount, IsNodeInRange};
    ghost use Rattle.mcf_answer.specs.Token.{tokens_of};
    ghost use Rattle.mcf_text.specs.Fields.{fields_of};

    // Takes the price of a node, if it is the next node.
    fn take_price(&mut self, id: NodeId, price: i128) -> Result<bool, NoMemory>
        requires node { IsNodeInRange id }
        requires amount { IsAmount price }
        ensures value { IfOk result (λ fit. (if fit then Some self.new else None) ≡ sparse_priced self.old (Some (id, price))) }
        ensures fits { OnErr result (IsTrue (is_some (sparse_priced self.old (Some (id, price))))) }
    {
        if self.prices.is_next(id) {
            self.prices.push(price)?;
            Ok(true)
        } else {
            Ok(false)
        }
    }

    // Takes the flow of an arc, if its number is above the last one and there is no price yet.
    fn take_moved(&mut self, moved: (ArcId, i128)) -> Result<bool, NoMemory>
        requires in_range { IsMoved moved }
        ensures value { IfOk result (λ fit. (if fit then Some self.new else None) ≡ sparse_moved self.old moved) }
        ensures fits { OnErr result (IsTrue (is_some (sparse_moved self.old moved))) }
    {
        if self.moved.is_below(moved.0) && self.prices.is_empty() {
            self.moved.push(moved)?;
            Ok(true)
        } else {
            Ok(false)
        }
    }

    // Takes a line, if it fits.
    #[tactic(auto, unfolding(crate::specs::Private::Draft::sparse_after))]
    fn take(&mut self, line: &[u8]) -> Result<bool, NoMemory>
        ensures value { IfOk result (λ fit. (if fit then Some self.new else None) ≡ sparse_after self.old (tokens_of (fields_of line.now))) }
        ensures wants { OnErr result (IsTrue (says_item (tokens_of (fields_of line.now)))) }
        ensures fits { OnErr result (IsTrue (is_some (sparse_after self.old (tokens_of (fields_of line.now))))) }
    {
        if let Some(moved) = moved_line(line) {
            return self.take_moved(moved);
        }
        match price_line(line) {
            Some((id, price)) => self.take_price(id, price),
            None => Ok(false),
        }
    }
}

impl SetDraft {
    ghost use Rattle.std.specs.Prelude.{◌≡◌, IfOk, IsTrue, OnErr, Some, None, is_some, if◌then◌else◌};
    ghost use Rattle.mcf_answer.specs.Private.Draft.{set_after};
    ghost use Rattle.mcf_answer.specs.Parsing.{says_item};
    ghost use Rattle.mcf_answer.specs.Token.{tokens_of};
    ghost use Rattle.mcf_text.specs.Fields.{fields_of};

    // Takes a line, if it fits.
    #[tactic(auto, unfolding(crate::specs::Private::Draft::set_after))]
    fn take(&mut self, line: &[u8]) -> Result<bool, NoMemory>
        ensures value { IfOk result (λ fit. (if fit then Some self.new else None) ≡ set_after self.old (tokens_of (fields_of line.now))) }
        ensures wants { OnErr result (IsTrue (says_item (tokens_of (fields_of line.now)))) }
        ensures fits { OnErr result (IsTrue (is_some (set_after self.old (tokens_of (fields_of line.now))))) }
    {
        let Some(node) = member_line(line) else {
            return Ok(false);
        };
        if self.nodes.len() < self.count as usize && self.nodes.is_below(node) {
            self.nodes.push(node)?;
            Ok(true)
        } else {
            Ok(false)
        }
    }
}

impl Draft {
    ghost use Rattle.std.specs.Prelude.{◌≡◌, IfOk, IsTrue, OnErr, Some, None, is_some, if◌then◌else◌, option_map};
    ghost use Rattle.mcf_answer.specs.Private.Draft.{after, answer_of_draft, costed, opened};
    ghost use Rattle.mcf_answer.specs.Parsing.{says_item};
    ghost use Rattle.mcf_answer.specs.Said.{cost_said, opening_said};
    ghost use Rattle.mcf_answer.specs.Token.{tokens_of};
    ghost use Rattle.mcf_text.specs.Fields.{fields_of};

    // The state after a first line, if that begins an answer.
    #[tactic(auto, unfolding(crate::specs::Said::opening_said))]
    fn open(alloc: Global, line: &[u8]) -> Option<Draft>
        ensures { result ≡ option_map opened (opening_said (tokens_of (fields_of line.now))) }
    {
        if let Some(cost) = cost_line(line) {
            return Some(Draft::Flow(FlowAnswer {
                cost,
                sent: SentList::new(Vec::new(alloc)),
                prices: PriceList::new(Vec::new(alloc)),
            }));
        }
        if version_line(line).is_some() {
            return Some(Draft::Announced);
        }
        if let Some((side, count)) = set_line(line) {
            return Some(Draft::Blocked(SetDraft {
                side,
                count,
                nodes: NodeList::new(Vec::new(alloc)),
            }));
        }
        let refusal = refusal_line(line)?;
        Some(Draft::Refused(refusal))
    }

    // The state after a cost line that follows a version line.
    fn open_sparse(alloc: Global, line: &[u8]) -> Option<Draft>
        ensures { result ≡ option_map costed (cost_said (tokens_of (fields_of line.now))) }
    {
        let cost = cost_line(line)?;
        Some(Draft::Sparse(SparseAnswer {
            cost,
            moved: MovedList::new(Vec::new(alloc)),
            prices: PriceList::new(Vec::new(alloc)),
        }))
    }

    // Moves to the next state, if there is one.
    fn become_next(&mut self, next: Option<Draft>) -> bool
        ensures { (if result then Some self.new else None) ≡ next }
    {
        match next {
            Some(draft) => {
                *self = draft;
                true
            }
            None => false,
        }
    }

    /// Takes a significant (kept) line, if it fits.
    #[tactic(auto, unfolding(crate::specs::Private::Draft::after))]
    pub(crate) fn take(&mut self, alloc: Global, line: &[u8]) -> Result<bool, NoMemory>
        ensures value { IfOk result (λ fit. (if fit then Some self.new else None) ≡ after self.old (tokens_of (fields_of line.now))) }
        ensures wants { OnErr result (IsTrue (says_item (tokens_of (fields_of line.now)))) }
        ensures fits { OnErr result (IsTrue (is_some (after self.old (tokens_of (fields_of line.now))))) }
    {
        match self {
            Draft::Empty => Ok(self.become_next(Draft::open(alloc, line))),
            Draft::Flow(flow) => flow.take(line),
            Draft::Announced => Ok(self.become_next(Draft::open_sparse(alloc, line))),
            Draft::Sparse(flow) => flow.take(line),
            Draft::Blocked(set) => set.take(line),
            Draft::Refused(_) => Ok(false),
        }
    }

    /// The answer, if no line is missing.
    #[tactic(auto, unfolding(crate::specs::Private::Draft::answer_of_draft))]
    pub(crate) fn finish(self) -> Option<Answer>
        ensures { result ≡ answer_of_draft self }
    {
        match self {
            Draft::Empty => None,
            Draft::Flow(flow) => Some(Answer::Flow(flow)),
            Draft::Announced => None,
            Draft::Sparse(flow) => Some(Answer::Sparse(flow)),
            Draft::Blocked(set) => {
                let SetDraft { side, count, nodes } = set;
                if nodes.len() != count as usize {
                    return None;
                }
                Some(Answer::Blocked(BlockedAnswer { side, nodes }))
            }
            Draft::Refused(refusal) => Some(Answer::Refused(refusal)),
        }
    }
}
