//! The engine.
ghost use Rattle.std.specs.Prelude.{◌≡◌, ◌≤◌, IfOk, OnErr, pos};
ghost use Rattle.mcf_network.specs.Chosen.{supply_total};
ghost use Rattle.mcf_flows.specs.declared.problem.Problem.TheVariants.{Asn};
ghost use Rattle.mcf_flows.specs.Network.{node_count};
ghost use Rattle.mcf_engine.specs.Outcomes.{IsOutcome};
ghost use Rattle.mcf_assign.specs.Private.Offering.{AreOffered};
ghost use Rattle.mcf_assign.specs.Runs.{IsMatchedByRows, IsReachedSet, IsStart};

use mcf_engine::{Engine, Outcome, Pricer};
use mcf_flows::{Problem, Side};
use mcf_matching::{Extended, Matching};
use mcf_network::{Net, State, unbalanced};
use mcf_numbers::Count;
use mcf_text::{NoMemory, NodeId};
use std::alloc::Global;
use std::marker::Model;

/// Successive shortest paths for assignments: one search from each row, ascending (Ahuja, Magnanti
/// and Orlin, Network Flows, sections 9.7 and 12.4).
///
/// It takes only the nets of assignments. How it made a state is a relation of its contract,
/// `IsMatchedByRows`: one search from each source node, each of which matched it. Clauses see the
/// number of searches in the last solve that returned an answer.
#[derive(Drop)]
pub struct Sap {
    searches: Count,
}

impl Model for Sap {
    ghost use Rattle.std.specs.Prelude.{ℕ};

    ghost Value = { ℕ };

    ghost view = { λ s. s.searches.number };
}

impl Sap {
    /// The engine, which has made no search.
    pub fn new() -> Sap
        ensures { result ≡ 0 }
    {
        Sap {
            searches: Count::zero(),
        }
    }
}

impl Engine for Sap {
    ghost use Rattle.std.specs.Prelude.{◌≡◌};
    ghost use Rattle.mcf_flows.specs.declared.problem.Problem.TheVariants.{Asn};
    ghost use Rattle.mcf_assign.specs.Runs.{IsMatchedByRows};

    ghost Takes = { λ g. g.problem ≡ Asn };

    ghost Made = { λ _ g s t. IsMatchedByRows g s t };

    fn takes(&self, net: &Net) -> bool {
        match net.problem() {
            Problem::Min => false,
            Problem::Asn => true,
        }
    }

    /// A least state of the net, with its prices, or a node set that shows that there is none.
    ///
    /// If the supplies sum to 0, the set is the one that the last search reached. Otherwise it is
    /// all nodes, and nothing is searched.
    ///
    /// # Errors
    ///
    /// `NoMemory` if an allocation is refused; a net without nodes needs none. Everything is
    /// allocated before the first search. The engine is then unchanged.
    fn solve<'n>(&mut self, alloc: Global, net: &'n Net) -> Result<Outcome<'n>, NoMemory>
        requires { net.now.problem ≡ Asn }
        ensures outcome { IfOk result (IsOutcome (λ s. IsMatchedByRows net.now s self.new) net.now) }
        ensures blocked { IfOk result (IsReachedSet net.now self.new) }
        ensures wants { OnErr result (1 ≤ node_count net.now) }
        ensures err { OnErr result (self.new ≡ self.old) }
    {
        if let Some((set, side)) = unbalanced(alloc, net)? {
            self.searches = Count::zero();
            return Ok(Outcome::Blocked(set, side));
        }
        let (outcome, searches) = assign(alloc, net)?;
        self.searches = searches;
        Ok(outcome)
    }
}

// The answer to a net whose supplies sum to 0, by a search from each row, and the number of
// searches.
fn assign<'n>(alloc: Global, net: &'n Net) -> Result<(Outcome<'n>, Count), NoMemory>
    requires assignment { net.now.problem ≡ Asn }
    requires balanced { supply_total net.now ≡ pos 0 }
    ensures outcome { IfOk result (λ found. IsOutcome (λ s. IsMatchedByRows net.now s found.1.number) net.now found.0) }
    ensures blocked { IfOk result (λ found. IsReachedSet net.now found.1.number found.0) }
    ensures wants { OnErr result (1 ≤ node_count net.now) }
{
    let mut pricer = Pricer::start(alloc, net)?;
    let mut matching = Matching::start(alloc, net)?;
    match match_rows(&mut matching, net) {
        Extended::Matched => {
            let (state, mut prices, searches) = matching.into_parts();
            pricer.raise(&state, 1, 0, prices.as_mut_slice());
            Ok((Outcome::Least(state, prices), searches))
        }
        Extended::Blocked => {
            let (reached, searches) = matching.into_reached();
            Ok((Outcome::Blocked(reached, Side::Send), searches))
        }
    }
}

// Matches the rows of a matching without pairs, ascending, until a search finds no path.
fn match_rows(matching: &mut Matching<'_>, net: &Net) -> Extended
    requires { IsStart net.now matching.old }
    ensures { AreOffered net.now (node_count net.now) result matching.new }
{
    'rows: for number in 0..net.node_count() {
        let v = NodeId::at(number);
        if net.supply(v) != 1 {
            continue;
        }
        match matching.extend(v) {
            Extended::Matched => {}
            Extended::Blocked => return Extended::Blocked,
        }
    }
    Extended::Matched
}
