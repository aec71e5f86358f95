//! The answer to a text.
ghost use Rattle.std.specs.Prelude.{IfOk};
ghost use Rattle.mcf_pair_tables.specs.PairAnswers.{IsPairAnswer, IsRowsAnswer, bytes_in};

use crate::answering::{TableAnswer, table_answer};
use crate::options::{CostTexts, Options};
use crate::prepared::{Done, prepared_costs};
use mcf_flow_tables::{lacking_heads, table_of};
use mcf_model::Solves;
use mcf_table::{Records, TextFault};
use mcf_text::NoMemory;
use std::alloc::Global;

/// The rows of a table as they are read, from that of its heads on, and the answer to them.
#[derive(Drop)]
pub struct SaidTable {
    /// The rows. Answers count rows from 0, the row of the heads; a row knows its line.
    pub rows: Records,
    /// What was done to the table before.
    pub done: Done,
    /// The answer.
    pub answer: TableAnswer,
}

/// The answer to a text.
#[derive(Drop)]
pub enum PairAnswer {
    /// The text isn't a table.
    NoTable(TextFault),
    /// The numbers, from 1, of the heads of columns to fill down that the table lacks.
    NoColumns(Vec<usize>),
    /// The rows of the table, and the answer to them.
    Table(SaidTable),
}

// The answer to the rows of a table, of which columns are filled down.
fn said_table<S: Solves>(
    alloc: Global,
    solver: &mut S,
    rows: Records,
    fill_down: &[u8],
    options: Options,
) -> Result<PairAnswer, NoMemory>
    ensures { IfOk result (IsRowsAnswer fill_down.now rows options) }
{
    let made = prepared_costs(alloc, rows, fill_down)?;
    let unknown = lacking_heads(alloc, &made.rows, &made.rows, fill_down)?;
    if !unknown.is_empty() {
        return Ok(PairAnswer::NoColumns(unknown));
    }
    let answer = table_answer(alloc, solver, &made.rows, options)?;
    Ok(PairAnswer::Table(SaidTable {
        rows: made.rows,
        done: made.done,
        answer,
    }))
}

/// Chooses pairs of persons and things by a table: a choice that costs the least of all, in any
/// unit, with its exact cost; or persons and things that compete, if no choice exists; or all
/// faults of the table; or the first number that is beyond the limits. A sheet of wishes is read as
/// a list, a last row of totals of a list isn't read, and in the columns that are named an empty
/// cell takes the one above. The solver may be any that solves flow problems.
///
/// # Errors
///
/// `NoMemory` if an allocation is refused.
pub fn plan_pairs<S: Solves>(
    alloc: Global,
    solver: &mut S,
    texts: CostTexts<'_>,
    options: Options,
) -> Result<PairAnswer, NoMemory>
    ensures { IfOk result (IsPairAnswer (bytes_in texts.entry) options) }
{
    match table_of(alloc, texts.costs, &[b"who", b"what", b"cost"])? {
        Ok(rows) => said_table(alloc, solver, rows, texts.fill_down, options),
        Err(fault) => Ok(PairAnswer::NoTable(fault)),
    }
}
