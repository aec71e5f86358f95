//! The answer to two tables over periods as rows of a table.
ghost use Rattle.std.specs.Prelude.{◌≡◌, ◌++◌, ◌∷◌, [], IfOk, OnOk, map};
ghost use Rattle.mcf_answer_rows.specs.Lines.{row_line, rows_text};
ghost use Rattle.mcf_period_reading.specs.PlaceTimes.{periods_in};
ghost use Rattle.mcf_plan_rows.specs.FaultRows.{faults_row, tables_in};
ghost use Rattle.mcf_period_text.specs.PeriodAnswerRows.{period_answer_rows, period_mark, period_solved_rows, some_fault_rows, timed_of};
ghost use Rattle.mcf_period_text.specs.PeriodFaultRows.{period_fault_row, period_planner_row};

use crate::bottlenecks::put_period_bottleneck;
use crate::faults::{
    put_period_beyond, put_period_faults, put_period_greats, put_period_planner_faults,
};
use crate::plans::put_period_plan;
use crate::timed::Timed;
use mcf_answer_rows::put_answer;
use mcf_decimal::Mark;
use mcf_flow_tables::{PeriodAnswer, PeriodTableFaults, SolvedPeriods};
use mcf_names::Names;
use mcf_period_reading::periods_in;
use mcf_period_units::ImproperPeriods;
use mcf_places::PlannerAnswer;
use mcf_plan_rows::{Blocked, Two, put_cell_faults};
use mcf_reading::Faults;
use mcf_text::NoMemory;
use std::alloc::Global;

// Appends the answer to a problem over these periods.
fn put_solved_over<'x>(
    alloc: Global,
    out: &mut Vec<u8>,
    two: Two<'x>,
    periods: &Names<'x>,
    solved: &'x SolvedPeriods,
) -> Result<(), NoMemory>
    requires { periods.now ≡ periods_in two.places.now }
    ensures { OnOk result (out.new.items ≡ out.old.items
        ++ rows_text (period_solved_rows (tables_in two.entry) solved.now solved.now.answer)) }
{
    let timed = Timed {
        two,
        periods,
        origins: &solved.origins,
    };
    match &solved.answer {
        PlannerAnswer::Least(least) => {
            put_period_plan(alloc, out, timed, &solved.planner, solved.scales, least)
        }
        PlannerAnswer::NoPlan(bottleneck) => {
            let blocked = Blocked {
                planner: &solved.planner,
                scales: solved.scales,
                bottleneck,
            };
            put_period_bottleneck(alloc, out, timed, blocked)
        }
        PlannerAnswer::Beyond(fault) => {
            put_answer(out, b"faults")?;
            put_period_beyond(alloc, out, timed, solved.origin, fault)
        }
    }
}

// Appends the answer to a problem over periods.
fn put_period_solved<'x>(
    alloc: Global,
    out: &mut Vec<u8>,
    two: Two<'x>,
    solved: &'x SolvedPeriods,
) -> Result<(), NoMemory>
    ensures { OnOk result (out.new.items ≡ out.old.items
        ++ rows_text (period_solved_rows (tables_in two.entry) solved.now solved.now.answer)) }
{
    let periods = periods_in(alloc, two.places)?;
    put_solved_over(alloc, out, two, &periods, solved)
}

// Appends the faults of a problem over these periods.
fn put_improper_over<'x>(
    alloc: Global,
    out: &mut Vec<u8>,
    two: Two<'x>,
    periods: &Names<'x>,
    improper: &'x ImproperPeriods,
) -> Result<(), NoMemory>
    requires { periods.now ≡ periods_in two.places.now }
    ensures { OnOk result (out.new.items ≡ out.old.items
        ++ rows_text (map (period_planner_row (timed_of (tables_in two.entry) improper.now.origins)) improper.now.faults.items)) }
{
    let timed = Timed {
        two,
        periods,
        origins: &improper.origins,
    };
    put_period_planner_faults(alloc, out, timed, &improper.faults)
}

// Appends the faults of a problem over periods.
fn put_improper<'x>(
    alloc: Global,
    out: &mut Vec<u8>,
    two: Two<'x>,
    improper: &'x ImproperPeriods,
) -> Result<(), NoMemory>
    ensures { OnOk result (out.new.items ≡ out.old.items
        ++ rows_text (map (period_planner_row (timed_of (tables_in two.entry) improper.now.origins)) improper.now.faults.items)) }
{
    let periods = periods_in(alloc, two.places)?;
    put_improper_over(alloc, out, two, &periods, improper)
}

// Appends faults of cells, if there are some.
fn put_some_faults(
    alloc: Global,
    out: &mut Vec<u8>,
    two: Two<'_>,
    faults: &Option<Faults>,
) -> Result<(), NoMemory>
    ensures { OnOk result (out.new.items ≡ out.old.items ++ rows_text (some_fault_rows (tables_in two.entry) faults.now)) }
{
    match faults {
        Some(faults) => put_cell_faults(alloc, out, two, faults.list()),
        None => Ok(()),
    }
}

// Appends all faults of two tables over periods.
fn put_table_faults(
    alloc: Global,
    out: &mut Vec<u8>,
    two: Two<'_>,
    faults: &PeriodTableFaults,
) -> Result<(), NoMemory>
    ensures { OnOk result (out.new.items ≡ out.old.items
        ++ rows_text (some_fault_rows (tables_in two.entry) faults.now.cells ++ map (period_fault_row (tables_in two.entry)) faults.now.periods.items)) }
{
    put_some_faults(alloc, out, two, &faults.cells)?;
    put_period_faults(alloc, out, two, &faults.periods)
}

/// Appends the answer to the rows of two tables over periods: a least plan with the periods of its
/// rows, a bottleneck, or faults.
///
/// # Errors
///
/// `NoMemory` if an allocation is refused.
pub fn put_period_answer<'x>(
    alloc: Global,
    out: &mut Vec<u8>,
    two: Two<'x>,
    answer: &'x PeriodAnswer,
) -> Result<(), NoMemory>
    ensures { OnOk result (out.new.items ≡ out.old.items ++ rows_text (period_answer_rows (tables_in two.entry) answer.now)) }
{
    match answer {
        PeriodAnswer::Faults(faults) => {
            put_answer(out, b"faults")?;
            put_table_faults(alloc, out, two, faults)
        }
        PeriodAnswer::TooGreat(faults) => {
            put_answer(out, b"faults")?;
            put_period_greats(alloc, out, two, faults)
        }
        PeriodAnswer::Improper(improper) => {
            put_answer(out, b"faults")?;
            put_improper(alloc, out, two, improper)
        }
        PeriodAnswer::Solved(solved) => put_period_solved(alloc, out, two, solved),
    }
}

/// The mark that was settled, if the rows say a problem.
pub fn period_mark(answer: &PeriodAnswer) -> Option<Mark>
    ensures { result ≡ period_mark answer.now }
{
    match answer {
        PeriodAnswer::Solved(solved) => solved.mark,
        _ => None,
    }
}
