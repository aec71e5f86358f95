//! The numbers by which persons and things compete.
ghost use Rattle.std.specs.Prelude.{◌≡◌, IfOk, map};
ghost use Rattle.mcf_flows.specs.Blocking.{in_table};
ghost use Rattle.mcf_roster.specs.Amounts.{AreAmounts, asks_persons, bound, counts_more};

use crate::pairs::{Pair, Range};
use crate::rosters::Roster;
use mcf_flows::Side;
use mcf_text::NoMemory;
use std::alloc::Global;

/// The numbers by which persons and things compete. By the side `Send`, a person has the least that
/// it must take, and a thing the most that it can give; by the side `Take`, a thing has the least
/// that it needs, and a person the most that it can take.
#[derive(Drop)]
pub struct Amounts {
    /// For each person, in order, its number, whether it competes or not.
    pub persons: Vec<u32>,
    /// For each thing, in order, its number, whether it competes or not.
    pub things: Vec<u32>,
    /// For each pair, in order, whether it counts one more: by the side `Send`, a pair of a person
    /// that competes and a thing that doesn't; by the side `Take`, a pair of a thing that competes
    /// and a person that doesn't.
    pub pairs: Vec<bool>,
}

// Those that compete, and the side.
#[derive(Clone, Copy)]
pub(crate) struct Contest<'t> {
    pub(crate) persons: &'t [bool],
    pub(crate) things: &'t [bool],
    pub(crate) side: Side,
}

// Returns whether persons must take more than there is.
fn asks_persons(side: Side) -> bool
    ensures { result ≡ asks_persons side }
{
    match side {
        Side::Send => true,
        Side::Take => false,
    }
}

// Returns the least number of a range, or its greatest one.
fn bound(least: bool, range: Range) -> u32
    ensures { result ≡ bound least range }
{
    if least { range.least } else { range.most }
}

// Returns the least numbers of ranges, or their greatest ones.
fn bounds(alloc: Global, least: bool, ranges: &[Range]) -> Result<Vec<u32>, NoMemory>
    ensures { IfOk result (λ made. made.items ≡ map (bound least) ranges.now) }
{
    let mut made = Vec::with_capacity(alloc, ranges.len())?;
    for place in 0..ranges.len() {
        made.push(bound(least, ranges[place]))?;
    }
    Ok(made)
}

// Returns whether a table marks the one with a number; no if it has no such one.
fn is_in(table: &[bool], number: u32) -> bool
    ensures { result ≡ in_table table.now number }
{
    match table.get((number as usize).saturating_sub(1)) {
        Some(mark) => *mark,
        None => false,
    }
}

// Returns whether a pair counts one more.
fn counts_more(contest: Contest<'_>, pair: Pair) -> bool
    ensures { result ≡ counts_more (in_table contest.entry.persons.now) (in_table contest.entry.things.now) contest.entry.side pair }
{
    let person = is_in(contest.persons, pair.who);
    let thing = is_in(contest.things, pair.what);
    match contest.side {
        Side::Send => person && !thing,
        Side::Take => thing && !person,
    }
}

// Returns for each pair whether it counts one more.
fn all_counted(alloc: Global, contest: Contest<'_>, pairs: &[Pair]) -> Result<Vec<bool>, NoMemory>
    ensures { IfOk result (λ made. made.items
        ≡ map (counts_more (in_table contest.entry.persons.now) (in_table contest.entry.things.now) contest.entry.side) pairs.now) }
{
    let mut made = Vec::with_capacity(alloc, pairs.len())?;
    for place in 0..pairs.len() {
        made.push(counts_more(contest, pairs[place]))?;
    }
    Ok(made)
}

// Returns the numbers by which persons and things compete.
pub(crate) fn amounts_of(
    alloc: Global,
    roster: &Roster,
    contest: Contest<'_>,
) -> Result<Amounts, NoMemory>
    ensures { IfOk result
        (AreAmounts roster.now (in_table contest.entry.persons.now) (in_table contest.entry.things.now) contest.entry.side) }
{
    let asked = asks_persons(contest.side);
    let persons = bounds(alloc, asked, roster.takes())?;
    let things = bounds(alloc, !asked, roster.needs())?;
    let pairs = all_counted(alloc, contest, roster.pairs())?;
    Ok(Amounts {
        persons,
        things,
        pairs,
    })
}
