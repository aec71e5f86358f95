//! The answer to two texts.
ghost use Rattle.std.specs.Prelude.{◌≡◌, IfOk};
ghost use Rattle.mcf_flow_tables.specs.TableAnswers.{IsFlowAnswer, IsRowsAnswer, bytes_in};

use crate::answering::{TableAnswer, table_answer};
use crate::lacking::lacking_heads;
use crate::options::{Options, Texts};
use crate::prepared::{Done, Filled, prepared};
use crate::table_texts::table_of;
use mcf_model::Solves;
use mcf_table::{Records, TextFault};
use mcf_text::NoMemory;
use std::alloc::Global;

/// Why texts are no tables; `None` for a text that is one.
#[derive(Clone, Copy, Debug, PartialEq, Eq)]
pub struct Broken {
    /// The fault of the table of places.
    pub places: Option<TextFault>,
    /// The fault of the table of routes.
    pub routes: Option<TextFault>,
}

/// The rows of two tables as they are read, from those of their heads on, and the answer to them.
#[derive(Drop)]
pub struct SaidTables {
    /// The rows of the table of places. Answers count rows from 0, the row of the heads; a row
    /// knows its line.
    pub places: Records,
    /// The rows of the table of routes. Those of a list that a matrix became have the lines of the
    /// matrix.
    pub routes: Records,
    /// What was done to the rows before they were read.
    pub done: Done,
    /// The columns that were filled down.
    pub filled: Filled,
    /// The answer.
    pub answer: TableAnswer,
}

/// The answer to two texts.
#[derive(Drop)]
pub enum FlowAnswer {
    /// A text isn't a table, or both aren't.
    NoTables(Broken),
    /// The numbers, from 1, of the heads of columns to fill down that neither table has.
    NoColumns(Vec<usize>),
    /// The rows of the tables, and the answer to them.
    Tables(SaidTables),
}

// The answer to the rows of two tables, of which columns are filled down.
fn said_tables<S: Solves>(
    alloc: Global,
    solver: &mut S,
    places: Records,
    routes: Records,
    fill_down: &[u8],
    options: Options,
) -> Result<FlowAnswer, NoMemory>
    ensures { IfOk result (IsRowsAnswer fill_down.now places routes options) }
{
    let made = prepared(alloc, places, routes, fill_down)?;
    let unknown = lacking_heads(alloc, &made.places, &made.routes, fill_down)?;
    if !unknown.is_empty() {
        return Ok(FlowAnswer::NoColumns(unknown));
    }
    let answer = table_answer(alloc, solver, &made.places, &made.routes, options)?;
    Ok(FlowAnswer::Tables(SaidTables {
        places: made.places,
        routes: made.routes,
        done: made.done,
        filled: made.filled,
        answer,
    }))
}

/// Plans the flow of two tables: the least plan of all, in any units, with its exact cost; or
/// places that are a bottleneck, if no plan exists; or all faults of the tables; or the first
/// number that is beyond the limits. A matrix of the costs of routes is read as a list, a last row
/// of totals isn't read, and in the columns that are named an empty cell takes the one above. The
/// solver may be any that solves flow problems.
///
/// # Errors
///
/// `NoMemory` if an allocation is refused.
pub fn plan_tables<S: Solves>(
    alloc: Global,
    solver: &mut S,
    texts: Texts<'_>,
    options: Options,
) -> Result<FlowAnswer, NoMemory>
    ensures { IfOk result (IsFlowAnswer (bytes_in texts.entry) options) }
{
    let places = table_of(alloc, texts.places, &[b"name", b"supply"])?;
    let routes = table_of(alloc, texts.routes, &[b"from", b"to", b"most", b"cost"])?;
    match (places, routes) {
        (Ok(places), Ok(routes)) => {
            said_tables(alloc, solver, places, routes, texts.fill_down, options)
        }
        (places, routes) => Ok(FlowAnswer::NoTables(Broken {
            places: places.err(),
            routes: routes.err(),
        })),
    }
}
