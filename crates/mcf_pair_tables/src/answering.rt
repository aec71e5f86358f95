//! The answer to what a table says.
ghost use Rattle.std.specs.Prelude.{◌≡◌, IfOk};
ghost use Rattle.mcf_pair_tables.specs.PairAnswers.{IsChoiceAnswer, IsTableAnswer, origin_in};

use crate::costs::{great_cells, scale_of};
use crate::options::Options;
use crate::rosters::roster_of;
use mcf_model::Solves;
use mcf_roster::{Origin, Roster, RosterAnswer, RosterFault, least, origin_of};
use mcf_roster_reading::{Faults, RosterTable, read};
use mcf_table::{CellPlace, Records};
use mcf_text::NoMemory;
use std::alloc::Global;

/// The answer for a roster, and the unit of its costs.
#[derive(Drop)]
pub struct SolvedPairs {
    /// The most decimals of any cost: a unit is 10 to the power of minus this.
    pub scale: u32,
    /// A least choice, or a competition, or the first number beyond the limits. The k-th pair is
    /// that of the k-th cost that doesn't forbid one. Values have their signs turned.
    pub answer: RosterAnswer,
    /// The pair, the person or the thing that a number beyond the limits comes from, if that is the
    /// answer.
    pub origin: Option<Origin>,
}

/// The answer to a table whose heads and cells have no fault.
#[derive(Drop)]
pub enum ChoiceAnswer {
    /// The cells of all costs that are too great in whole units.
    TooGreat(Vec<CellPlace>),
    /// The first fault of the roster.
    Improper(RosterFault),
    /// The answer for the roster.
    Solved(SolvedPairs),
}

/// The answer to the rows of a table.
#[derive(Drop)]
pub enum TableAnswer {
    /// All faults of heads and cells.
    Faults(Faults),
    /// The answer to what the table says.
    Choice(ChoiceAnswer),
}

// Where a number beyond the limits comes from, if that is the answer.
fn origin_in(roster: &Roster, answer: &RosterAnswer) -> Option<Origin>
    ensures { result ≡ origin_in roster.now answer.now }
{
    match answer {
        RosterAnswer::Beyond(fault) => Some(origin_of(roster, *fault)),
        _ => None,
    }
}

// The answer to what a table says.
fn choice_answer<S: Solves>(
    alloc: Global,
    solver: &mut S,
    table: &RosterTable<'_>,
    options: Options,
) -> Result<ChoiceAnswer, NoMemory>
    ensures { IfOk result (IsChoiceAnswer table.now options) }
{
    let scale = scale_of(table.pairs());
    let great = great_cells(alloc, options.maximise, scale, table.pairs())?;
    if !great.is_empty() {
        return Ok(ChoiceAnswer::TooGreat(great));
    }
    match roster_of(alloc, scale, table, options)? {
        Ok(roster) => {
            let answer = least(alloc, solver, &roster)?;
            let origin = origin_in(&roster, &answer);
            Ok(ChoiceAnswer::Solved(SolvedPairs {
                scale,
                answer,
                origin,
            }))
        }
        Err(fault) => Ok(ChoiceAnswer::Improper(fault)),
    }
}

// The answer to the rows of a table.
pub(crate) fn table_answer<S: Solves>(
    alloc: Global,
    solver: &mut S,
    records: &Records,
    options: Options,
) -> Result<TableAnswer, NoMemory>
    ensures { IfOk result (IsTableAnswer records.now options) }
{
    match read(alloc, records, options.mark)? {
        Ok(table) => {
            let answer = choice_answer(alloc, solver, &table, options)?;
            Ok(TableAnswer::Choice(answer))
        }
        Err(faults) => Ok(TableAnswer::Faults(faults)),
    }
}
