//! Persons and things that compete.
ghost use Rattle.std.specs.Prelude.{◌≡◌, ◌≤◌, ◌+◌, IfOk, OnErr, length};
ghost use Rattle.std.specs.List.{All};
ghost use Rattle.mcf_flows.specs.Blocking.{in_table};
ghost use Rattle.mcf_flows.specs.Network.{IsNode};
ghost use Rattle.mcf_roster.specs.Models.{hub_of};
ghost use Rattle.mcf_roster.specs.RosterAnswers.{IsToldCompetition};
ghost use Rattle.mcf_roster.specs.ToldTests.{tests_told};

use crate::amounts::{Amounts, Contest, amounts_of};
use crate::rosters::Roster;
use crate::rows::hub_of;
use mcf_flows::{Side, table_of};
use mcf_model::{Bottleneck, side_told, turned_if};
use mcf_text::NoMemory;
use std::alloc::Global;

/// Persons and things that compete. If `side` is `Send`, these persons must take more than these
/// things can give, with one more for each pair of such a person and another thing. If it is
/// `Take`, these things must give more than these persons can take, with one more for each pair of
/// such a thing and another person.
#[derive(Drop)]
pub struct Competition {
    /// For each person, in order, whether it is one of them.
    pub persons: Vec<bool>,
    /// For each thing, in order, whether it is one of them.
    pub things: Vec<bool>,
    pub side: Side,
    /// Their numbers, and the pairs that count one more.
    pub amounts: Amounts,
}

// Returns whether a table marks a place.
fn is_marked(table: &[bool], place: u32) -> bool
    requires inside { IsNode (length table.now) place }
    ensures { result ≡ in_table table.now place }
{
    table[place as usize - 1]
}

// Returns the marks of a table for so many places, after so many others.
fn tests_told(
    alloc: Global,
    turned: bool,
    table: &[bool],
    before: usize,
    count: usize,
) -> Result<Vec<bool>, NoMemory>
    requires long { (before + count) ≤ length table.now }
    ensures value { IfOk result (λ made. made.items ≡ tests_told turned table.now before count) }
    ensures wants { OnErr result (1 ≤ count) }
{
    let mut made = Vec::with_capacity(alloc, count)?;
    for place in 0..count {
        let test = turned_if(turned, table[before + place]);
        made.push(test)?;
    }
    Ok(made)
}

// Returns a bottleneck of a roster's model as persons and things that compete.
pub(crate) fn told(
    alloc: Global,
    roster: &Roster,
    found: &Bottleneck,
) -> Result<Competition, NoMemory>
    requires nodes { All (IsNode (hub_of roster.now)) found.now.places.items }
    ensures { IfOk result (IsToldCompetition roster.now found.now) }
{
    let takes = roster.takes();
    let needs = roster.needs();
    let hub = hub_of(takes, needs);
    let table = table_of(alloc, hub, &found.places)?;
    let turned = is_marked(&table, hub);
    let persons = tests_told(alloc, turned, &table, 0, takes.len())?;
    let things = tests_told(alloc, turned, &table, takes.len(), needs.len())?;
    let side = side_told(turned, found.side);
    let contest = Contest {
        persons: &persons,
        things: &things,
        side,
    };
    let amounts = amounts_of(alloc, roster, contest)?;
    Ok(Competition {
        persons,
        things,
        side,
        amounts,
    })
}
