//! The answer to what a table of persons and things and a table of groups say.
ghost use Rattle.std.specs.Prelude.{◌≡◌, IfOk, None, map};
ghost use Rattle.mcf_groups.specs.GroupAnswers.{HasNoGroupChoice, IsBestGroupChoice, IsGroupAnswer};
ghost use Rattle.mcf_groups.specs.GroupFaults.{group_fault};
ghost use Rattle.mcf_roster.specs.Origins.{origin_of};
ghost use Rattle.mcf_pair_tables.specs.GroupedAnswers.{IsCountedChoice, IsCompeting, IsGroupTableAnswer, IsGroupedChoice, IsGroupsAnswer, IsGroupedRoster, IsSetsAnswer, IsSolvedGroups, named_bound, named_bounds, named_fault, number_at, refuses};

use crate::costs::{great_cells, scale_of};
use crate::group_options::AtCrossing;
use crate::group_sets::{GroupSets, sets_of};
use crate::options::Options;
use crate::rosters::roster_of;
use mcf_group_reading::{Faults as GroupFaults, GroupTable, Known, read as read_groups};
use mcf_groups::{
    Crossing, GroupAnswer, GroupBound, GroupCompetition, GroupCount, GroupFault, broken_of,
    competition_of, counts_of, least,
};
use mcf_instance::ArrayFault;
use mcf_model::Solves;
use mcf_roster::{Competition, LeastChoice, Origin, Roster, RosterFault, origin_of};
use mcf_roster_reading::{Faults, RosterTable, read};
use mcf_table::{CellPlace, Records};
use mcf_text::NoMemory;
use std::alloc::Global;

/// A least choice that keeps to groups.
#[derive(Drop)]
pub struct ChosenGroups {
    pub choice: LeastChoice,
    /// For each group of the table, in order, how many members each has that may have some.
    pub counts: Vec<GroupCount>,
    /// For each group that was left out, those that have fewer or more members than its range says.
    pub broken: Vec<GroupCount>,
}

/// Persons, things and groups that allow no choice together.
#[derive(Drop)]
pub struct CompetingGroups {
    pub found: Competition,
    /// What counts of groups; these have their numbers in the table.
    pub bounds: Vec<GroupBound>,
}

/// A number beyond the limits, and what it comes from.
#[derive(Drop)]
pub struct BeyondNumber {
    pub fault: ArrayFault,
    pub origin: Origin,
}

/// The answer for a roster with groups.
#[derive(Drop)]
pub enum SolvedGroups {
    Least(ChosenGroups),
    NoChoice(CompetingGroups),
    Beyond(BeyondNumber),
}

/// The answer to what the groups say.
#[derive(Drop)]
pub enum SetsAnswer {
    /// All groups that cross others, where that is refused.
    Crossing,
    /// The first fault of the groups that are kept, by their number in the table.
    Improper(GroupFault),
    /// The answer for the roster with the groups that are kept.
    Solved(SolvedGroups),
}

/// The answer to what the groups say, and the groups that cross others.
#[derive(Drop)]
pub struct GroupedRoster {
    /// The most decimals of any cost: a unit is 10 to the power of minus this.
    pub scale: u32,
    /// The groups that cross, each with the first kept one that it crosses.
    pub crossings: Vec<Crossing>,
    pub answer: SetsAnswer,
}

/// The answer to tables whose heads and cells have no fault.
#[derive(Drop)]
pub enum GroupedChoice {
    /// The cells of all costs that are too great in whole units.
    TooGreat(Vec<CellPlace>),
    /// The first fault of the roster.
    Improper(RosterFault),
    /// The answer for the roster with groups.
    Grouped(GroupedRoster),
}

/// The answer to the rows of two tables.
#[derive(Drop)]
pub enum GroupTableAnswer {
    /// All faults of heads and cells of persons and things.
    Faults(Faults),
    /// All faults of heads and cells of groups.
    GroupFaults(GroupFaults),
    /// The answer to what the tables say.
    Choice(GroupedChoice),
}

// The number at a place, from 1; 0 beyond the end.
fn number_at(numbers: &[usize], place: usize) -> usize
    ensures { result ≡ number_at numbers.now place }
{
    match numbers.get(place.saturating_sub(1)) {
        Some(number) => *number,
        None => 0,
    }
}

// What counts of a group, which has this number in the table.
fn named_bound(kept: &[usize], bound: GroupBound) -> GroupBound
    ensures { result ≡ named_bound kept.now bound }
{
    GroupBound {
        group: number_at(kept, bound.group),
        owner: bound.owner,
        is_least: bound.is_least,
        amount: bound.amount,
    }
}

// What counts of groups, which have these numbers in the table.
fn named_bounds(
    alloc: Global,
    kept: &[usize],
    bounds: &[GroupBound],
) -> Result<Vec<GroupBound>, NoMemory>
    ensures { IfOk result (λ made. made.items ≡ named_bounds kept.now bounds.now) }
{
    let mut made = Vec::new(alloc);
    for at in 0..bounds.len() {
        made.push(named_bound(kept, bounds[at]))?;
    }
    Ok(made)
}

// The fault of a group, which has this number in the table.
fn named_fault(kept: &[usize], fault: GroupFault) -> GroupFault
    ensures { result ≡ named_fault kept.now fault }
{
    GroupFault {
        group: number_at(kept, fault.group),
        what: fault.what,
    }
}

// Those that compete.
fn competing(
    alloc: Global,
    roster: &Roster,
    sets: &GroupSets,
    found: &GroupCompetition,
) -> Result<CompetingGroups, NoMemory>
    requires fine { group_fault roster.now sets.now.groups.items ≡ None }
    requires none { HasNoGroupChoice roster.now sets.now.groups.items found.now }
    ensures { IfOk result (IsCompeting roster.now sets.now) }
{
    let told = competition_of(alloc, roster, &sets.groups, found)?;
    let bounds = named_bounds(alloc, &sets.kept, &told.bounds)?;
    Ok(CompetingGroups {
        found: told.found,
        bounds,
    })
}

// A least choice, and what it has of groups.
fn chosen_groups(
    alloc: Global,
    roster: &Roster,
    sets: &GroupSets,
    choice: LeastChoice,
) -> Result<ChosenGroups, NoMemory>
    requires { IsBestGroupChoice roster.now sets.now.groups.items choice }
    ensures { IfOk result (IsCountedChoice roster.now sets.now) }
{
    let counts = counts_of(alloc, roster, &sets.all, &choice.chosen)?;
    let crossings = &sets.crossings;
    let broken = broken_of(alloc, roster, &sets.all, crossings, &choice.chosen)?;
    Ok(ChosenGroups {
        choice,
        counts,
        broken,
    })
}

// A number beyond the limits, and what it comes from.
fn beyond_number(roster: &Roster, fault: &ArrayFault) -> BeyondNumber
    ensures fault { result.fault ≡ fault.now }
    ensures origin { result.origin ≡ origin_of roster.now fault.now }
{
    BeyondNumber {
        fault: *fault,
        origin: origin_of(roster, *fault),
    }
}

// The answer for a roster with the groups that are kept.
fn solved_groups(
    alloc: Global,
    roster: &Roster,
    sets: &GroupSets,
    answer: GroupAnswer,
) -> Result<SolvedGroups, NoMemory>
    requires fine { group_fault roster.now sets.now.groups.items ≡ None }
    requires answer { IsGroupAnswer roster.now sets.now.groups.items answer }
    ensures { IfOk result (IsSolvedGroups roster.now sets.now) }
{
    match answer {
        GroupAnswer::Least(choice) => {
            let chosen = chosen_groups(alloc, roster, sets, choice)?;
            Ok(SolvedGroups::Least(chosen))
        }
        GroupAnswer::NoChoice(found) => {
            let told = competing(alloc, roster, sets, &found)?;
            Ok(SolvedGroups::NoChoice(told))
        }
        GroupAnswer::Beyond(fault) => Ok(SolvedGroups::Beyond(beyond_number(roster, &fault))),
    }
}

// Whether some groups cross, and that is refused.
fn refuses(crossing: AtCrossing, crossings: &[Crossing]) -> bool
    ensures { result ≡ refuses crossing crossings.now }
{
    match crossing {
        AtCrossing::Refuse => !crossings.is_empty(),
        AtCrossing::Check => false,
    }
}

// The answer to what groups say.
fn sets_answer<S: Solves>(
    alloc: Global,
    solver: &mut S,
    roster: &Roster,
    sets: &GroupSets,
    crossing: AtCrossing,
) -> Result<SetsAnswer, NoMemory>
    ensures { IfOk result (IsSetsAnswer roster.now sets.now crossing) }
{
    if refuses(crossing, &sets.crossings) {
        return Ok(SetsAnswer::Crossing);
    }
    match least(alloc, solver, roster, &sets.groups)? {
        Ok(answer) => {
            let solved = solved_groups(alloc, roster, sets, answer)?;
            Ok(SetsAnswer::Solved(solved))
        }
        Err(fault) => Ok(SetsAnswer::Improper(named_fault(&sets.kept, fault))),
    }
}

// The answer for a roster and a table of groups.
fn grouped_roster<S: Solves>(
    alloc: Global,
    solver: &mut S,
    scale: u32,
    roster: &Roster,
    groups: &GroupTable<'_>,
    crossing: AtCrossing,
) -> Result<GroupedRoster, NoMemory>
    ensures { IfOk result (IsGroupedRoster scale roster.now groups.now crossing) }
{
    let sets = sets_of(alloc, groups)?;
    let answer = sets_answer(alloc, solver, roster, &sets, crossing)?;
    Ok(GroupedRoster {
        scale,
        crossings: sets.crossings,
        answer,
    })
}

/// What is asked, and what happens to groups that cross others.
#[derive(Clone, Copy, Debug)]
pub struct Asked {
    pub options: Options,
    pub crossing: AtCrossing,
}

// The answer to what two tables say.
fn grouped_choice<S: Solves>(
    alloc: Global,
    solver: &mut S,
    table: &RosterTable<'_>,
    groups: &GroupTable<'_>,
    asked: Asked,
) -> Result<GroupedChoice, NoMemory>
    ensures { IfOk result (IsGroupedChoice table.now groups.now asked) }
{
    let scale = scale_of(table.pairs());
    let great = great_cells(alloc, asked.options.maximise, scale, table.pairs())?;
    if !great.is_empty() {
        return Ok(GroupedChoice::TooGreat(great));
    }
    match roster_of(alloc, scale, table, asked.options)? {
        Ok(roster) => {
            let made = grouped_roster(alloc, solver, scale, &roster, groups, asked.crossing)?;
            Ok(GroupedChoice::Grouped(made))
        }
        Err(fault) => Ok(GroupedChoice::Improper(fault)),
    }
}

// The answer to a table of persons and things, and the rows of a table of groups.
fn groups_answer<S: Solves>(
    alloc: Global,
    solver: &mut S,
    table: &RosterTable<'_>,
    groups: &Records,
    asked: Asked,
) -> Result<GroupTableAnswer, NoMemory>
    ensures { IfOk result (IsGroupsAnswer table.now groups.now asked) }
{
    let known = Known {
        persons: table.persons(),
        things: table.things(),
    };
    match read_groups(alloc, groups, known)? {
        Ok(said) => {
            let answer = grouped_choice(alloc, solver, table, &said, asked)?;
            Ok(GroupTableAnswer::Choice(answer))
        }
        Err(faults) => Ok(GroupTableAnswer::GroupFaults(faults)),
    }
}

// The answer to the rows of two tables.
pub(crate) fn group_table_answer<S: Solves>(
    alloc: Global,
    solver: &mut S,
    costs: &Records,
    groups: &Records,
    asked: Asked,
) -> Result<GroupTableAnswer, NoMemory>
    ensures { IfOk result (IsGroupTableAnswer costs.now groups.now asked) }
{
    match read(alloc, costs, asked.options.mark)? {
        Ok(table) => groups_answer(alloc, solver, &table, groups, asked),
        Err(faults) => Ok(GroupTableAnswer::Faults(faults)),
    }
}
