//! The answer to two tables, with ranges, as text.
ghost use Rattle.std.specs.Prelude.{IfOk};
ghost use Rattle.mcf_flow_tables.specs.TableAnswers.{bytes_in};
ghost use Rattle.mcf_range_text.specs.Private.Solved.{IsSolvedAnswer, IsToldWithRanges};
ghost use Rattle.mcf_range_text.specs.RangeTexts.{IsFlowText, IsRangedText};

use crate::ranges::ranges_of;
use crate::rows::put_ranges;
use crate::unit_rows::put_units;
use crate::units::units_of;
use mcf_flow_tables::{FlowAnswer, Options, Texts, plan_tables};
use mcf_model::Solves;
use mcf_plan_text::{PlanText, answer_text, plan_text};
use mcf_text::NoMemory;
use std::alloc::Global;

// Returns the text of an answer, with its ranges.
fn told_with_ranges<S: Solves>(
    alloc: Global,
    solver: &mut S,
    answer: &FlowAnswer,
) -> Result<PlanText, NoMemory>
    requires { IsSolvedAnswer answer.now }
    ensures { IfOk result (IsToldWithRanges answer.now) }
{
    let ranges = ranges_of(alloc, answer)?;
    let units = units_of(alloc, solver, answer)?;
    let told = answer_text(alloc, answer)?;
    let mut text = told.text;
    put_ranges(alloc, &mut text, answer, &ranges)?;
    put_units(alloc, &mut text, answer, &units)?;
    Ok(PlanText {
        text,
        kind: told.kind,
    })
}

// Plans the flow of two tables, and returns the answer as text, with its ranges.
fn ranged_text<S: Solves>(
    alloc: Global,
    solver: &mut S,
    texts: Texts<'_>,
    options: Options,
) -> Result<PlanText, NoMemory>
    ensures { IfOk result (IsRangedText (bytes_in texts.entry) options) }
{
    let answer = plan_tables(alloc, solver, texts, options)?;
    told_with_ranges(alloc, solver, &answer)
}

/// Plans the flow of two tables, as `plan_tables` does, and returns the answer as `plan_text` does.
///
/// If ranges are asked, the answer has one row more at the end for each route of a plan whose range
/// is told: `range`, its line, its ends, and by how much the cost of each unit on it may fall and
/// may rise while the plan stays least, if all other costs stay as they are; a cell is empty
/// without a limit. All steps of a route change by the same, and so do both directions of a route
/// both ways, of which no cost may fall below 0. There is no row for a route both ways that has
/// bounds at one of its ends, nor for any route if a number is beyond the limits of
/// `planner_cost_range`. It then searches the network twice for each route.
///
/// Over periods, there is such a row for each departure, with the place that it leaves from and the
/// one that it arrives at, and at its end the periods in which it leaves and arrives: the cost of
/// this departure alone changes, in this direction and period. After them comes a row for each
/// place and period after which the place may keep something: `keep range`, the line and the name
/// of the place, by how much the cost of each unit that is kept may fall and may rise, that period,
/// and the next one.
///
/// Further rows tell for how many units a figure holds. A row `room range` has the line and the
/// ends of a route on which one more unit of room saves something by the prices, and for how many
/// units, from the first on, each saves just that; the cell is empty without a limit. There is none
/// of a route from a place back to it. A row `pass range` has the line and the name of a place with
/// bounds, and the same of one more unit that may pass through it. A row `supply range` has the
/// line and the name of a place, what one more unit of its supply or of its demand costs, which
/// saves something if it is below 0, and for how many units each costs just that. There is one for
/// each place with a supply of which one more unit saves something, if supplies may stay; for each
/// place with a supply, if all is sent and demands may be missing at penalties; and for each place
/// that wants something, if supplies may stay, or if to bring one more unit costs less than its
/// penalty. There is no row if a number is beyond the limits of `units_range`, or if the figure
/// holds for all units that are looked at. Each takes up to two further plans.
///
/// Over periods, a row `room range` is one of a departure, and has at its end the periods in which
/// it leaves and arrives; the room is that of this departure alone. After these rows come rows
/// `keep room range`: the line and the name of a place, for how many units more that it may keep
/// each saves what one more does, the period after which they are kept, and the next one. The rows
/// `pass range` and `supply range` have their period at the end.
///
/// # Errors
///
/// `NoMemory` if an allocation is refused.
pub fn told_text<S: Solves>(
    alloc: Global,
    solver: &mut S,
    texts: Texts<'_>,
    options: Options,
    ranges: bool,
) -> Result<PlanText, NoMemory>
    ensures { IfOk result (IsFlowText ranges (bytes_in texts.entry) options) }
{
    if ranges {
        ranged_text(alloc, solver, texts, options)
    } else {
        plan_text(alloc, solver, texts, options)
    }
}
