//! The answer to two tables as text.
ghost use Rattle.std.specs.Prelude.{◌≡◌, ◌++◌, ◌∷◌, [], IfOk, OnOk};
ghost use Rattle.mcf_answer_rows.specs.Lines.{rows_text};
ghost use Rattle.mcf_flow_tables.specs.TableAnswers.{bytes_in};
ghost use Rattle.mcf_answer_rows.specs.FormRows.{left_out_rows};
ghost use Rattle.mcf_plan_rows.specs.FaultRows.{table_word, tables_in};
ghost use Rattle.mcf_reading.specs.declared.locations.Table.TheVariants.{Places, Routes};
ghost use Rattle.mcf_plan_text.specs.PlanTexts.{IsPlanText, answer_kind, answer_rows, closing_rows, done_rows, end_rows, filled_rows, period_kind, problem_kind, problem_mark, problem_rows, said_tables, solved_kind, solved_rows, table_kind, table_mark, table_rows};

use mcf_answer_rows::{
    PlanText, TextKind, put_answer, put_filled, put_lacking, put_mark, put_table, put_told,
};
use mcf_decimal::Mark;
use mcf_flow_tables::{
    Done, Filled, FlowAnswer, Options, PeriodAnswer, ProblemAnswer, SaidTables, SolvedProblem,
    TableAnswer, Texts, plan_tables,
};
use mcf_model::Solves;
use mcf_period_text::{period_mark, put_period_answer};
use mcf_places::PlannerAnswer;
use mcf_plan_rows::{
    Blocked, Two, put_beyond, put_bottleneck, put_cell_faults, put_greats, put_plan,
    put_planner_faults, put_text_fault, table_word,
};
use mcf_reading::Table;
use mcf_text::NoMemory;
use std::alloc::Global;

// The kind of the answer to a problem.
fn solved_kind(answer: &PlannerAnswer) -> TextKind
    ensures { result ≡ solved_kind answer.now }
{
    match answer {
        PlannerAnswer::Least(_) => TextKind::Plan,
        PlannerAnswer::NoPlan(_) => TextKind::NoPlan,
        PlannerAnswer::Beyond(_) => TextKind::Faults,
    }
}

// Appends the rows of totals that were left out.
fn put_totals(alloc: Global, out: &mut Vec<u8>, done: Done) -> Result<(), NoMemory>
    ensures { OnOk result (out.new.items ≡ out.old.items
        ++ rows_text (left_out_rows (table_word Places) done.place_total ++ left_out_rows (table_word Routes) done.route_total)) }
{
    put_told(
        alloc,
        out,
        b"left out",
        table_word(Table::Places),
        done.place_total,
    )?;
    put_told(
        alloc,
        out,
        b"left out",
        table_word(Table::Routes),
        done.route_total,
    )
}

// Appends what was done to the tables.
fn put_done(alloc: Global, out: &mut Vec<u8>, done: Done) -> Result<(), NoMemory>
    ensures { OnOk result (out.new.items ≡ out.old.items ++ rows_text (done_rows done)) }
{
    put_told(alloc, out, b"list", table_word(Table::Routes), done.list)?;
    put_totals(alloc, out, done)
}

// Appends the mark before decimals, and the rows of both tables.
fn put_closing(
    alloc: Global,
    out: &mut Vec<u8>,
    two: Two<'_>,
    mark: Option<Mark>,
) -> Result<(), NoMemory>
    ensures { OnOk result (out.new.items ≡ out.old.items ++ rows_text (closing_rows (tables_in two.entry) mark)) }
{
    put_mark(out, mark)?;
    put_table(alloc, out, table_word(Table::Places), two.places)?;
    put_table(alloc, out, table_word(Table::Routes), two.routes)
}

// Appends the answer to a problem.
fn put_solved(
    alloc: Global,
    out: &mut Vec<u8>,
    two: Two<'_>,
    solved: &SolvedProblem,
) -> Result<(), NoMemory>
    ensures { OnOk result (out.new.items ≡ out.old.items
        ++ rows_text (solved_rows (tables_in two.entry) solved.now solved.now.answer)) }
{
    match &solved.answer {
        PlannerAnswer::Least(least) => {
            put_plan(alloc, out, two, &solved.planner, solved.scales, least)
        }
        PlannerAnswer::NoPlan(bottleneck) => {
            let blocked = Blocked {
                planner: &solved.planner,
                scales: solved.scales,
                bottleneck,
            };
            put_bottleneck(alloc, out, two, blocked)
        }
        PlannerAnswer::Beyond(fault) => {
            put_answer(out, b"faults")?;
            put_beyond(alloc, out, two, solved.origin, fault)
        }
    }
}

// The kind of the answer to what tables say.
fn problem_kind(answer: &ProblemAnswer) -> TextKind
    ensures { result ≡ problem_kind answer.now }
{
    match answer {
        ProblemAnswer::Solved(solved) => solved_kind(&solved.answer),
        _ => TextKind::Faults,
    }
}

// Appends the answer to what tables say.
fn put_problem(
    alloc: Global,
    out: &mut Vec<u8>,
    two: Two<'_>,
    answer: &ProblemAnswer,
) -> Result<(), NoMemory>
    ensures { OnOk result (out.new.items ≡ out.old.items ++ rows_text (problem_rows (tables_in two.entry) answer.now)) }
{
    match answer {
        ProblemAnswer::TooGreat(faults) => {
            put_answer(out, b"faults")?;
            put_greats(alloc, out, two, faults)
        }
        ProblemAnswer::Improper(faults) => {
            put_answer(out, b"faults")?;
            put_planner_faults(alloc, out, two, faults)
        }
        ProblemAnswer::Solved(solved) => put_solved(alloc, out, two, solved),
    }
}

// The kind of the answer to tables over periods.
fn period_kind(answer: &PeriodAnswer) -> TextKind
    ensures { result ≡ period_kind answer.now }
{
    match answer {
        PeriodAnswer::Solved(solved) => solved_kind(&solved.answer),
        _ => TextKind::Faults,
    }
}

// The kind of the answer to the rows of two tables.
fn table_kind(answer: &TableAnswer) -> TextKind
    ensures { result ≡ table_kind answer.now }
{
    match answer {
        TableAnswer::Faults(_) => TextKind::Faults,
        TableAnswer::Problem(answer) => problem_kind(answer),
        TableAnswer::Periods(answer) => period_kind(answer),
    }
}

// Appends the answer to the rows of two tables.
fn put_table_answer(
    alloc: Global,
    out: &mut Vec<u8>,
    two: Two<'_>,
    answer: &TableAnswer,
) -> Result<(), NoMemory>
    ensures { OnOk result (out.new.items ≡ out.old.items ++ rows_text (table_rows (tables_in two.entry) answer.now)) }
{
    match answer {
        TableAnswer::Faults(faults) => {
            put_answer(out, b"faults")?;
            put_cell_faults(alloc, out, two, faults.list())
        }
        TableAnswer::Problem(answer) => put_problem(alloc, out, two, answer),
        TableAnswer::Periods(answer) => put_period_answer(alloc, out, two, answer),
    }
}

// The mark that was settled, if the tables say a problem.
fn problem_mark(answer: &ProblemAnswer) -> Option<Mark>
    ensures { result ≡ problem_mark answer.now }
{
    match answer {
        ProblemAnswer::Solved(solved) => solved.mark,
        _ => None,
    }
}

// The mark that was settled, if the rows say a problem.
fn table_mark(answer: &TableAnswer) -> Option<Mark>
    ensures { result ≡ table_mark answer.now }
{
    match answer {
        TableAnswer::Faults(_) => None,
        TableAnswer::Problem(answer) => problem_mark(answer),
        TableAnswer::Periods(answer) => period_mark(answer),
    }
}

// Appends the columns of two tables that were filled down.
fn put_filled_columns(
    alloc: Global,
    out: &mut Vec<u8>,
    two: Two<'_>,
    filled: &Filled,
) -> Result<(), NoMemory>
    ensures { OnOk result (out.new.items ≡ out.old.items ++ rows_text (filled_rows (tables_in two.entry) filled.now)) }
{
    let of_places = table_word(Table::Places);
    put_filled(alloc, out, of_places, two.places, &filled.places)?;
    let of_routes = table_word(Table::Routes);
    put_filled(alloc, out, of_routes, two.routes, &filled.routes)
}

// Appends the end of the answer to the rows of two tables.
fn put_end(alloc: Global, out: &mut Vec<u8>, said: &SaidTables) -> Result<(), NoMemory>
    ensures { OnOk result (out.new.items ≡ out.old.items ++ rows_text (end_rows said.now)) }
{
    let two = Two {
        places: &said.places,
        routes: &said.routes,
    };
    put_filled_columns(alloc, out, two, &said.filled)?;
    put_closing(alloc, out, two, table_mark(&said.answer))
}

// Appends what was done to the tables, and the end of the answer to their rows.
fn put_done_and_end(alloc: Global, out: &mut Vec<u8>, said: &SaidTables) -> Result<(), NoMemory>
    ensures { OnOk result (out.new.items ≡ out.old.items ++ rows_text (done_rows said.now.done ++ end_rows said.now)) }
{
    put_done(alloc, out, said.done)?;
    put_end(alloc, out, said)
}

// Appends the answer to the rows of two tables, what was done to these, and their rows.
fn put_said(alloc: Global, out: &mut Vec<u8>, said: &SaidTables) -> Result<(), NoMemory>
    ensures { OnOk result (out.new.items ≡ out.old.items
        ++ rows_text (table_rows (said_tables said.now) said.now.answer ++ (done_rows said.now.done ++ end_rows said.now))) }
{
    let two = Two {
        places: &said.places,
        routes: &said.routes,
    };
    put_table_answer(alloc, out, two, &said.answer)?;
    put_done_and_end(alloc, out, said)
}

/// Returns the text of an answer, as `plan_text` does.
///
/// # Errors
///
/// `NoMemory` if an allocation is refused.
pub fn answer_text(alloc: Global, answer: &FlowAnswer) -> Result<PlanText, NoMemory>
    ensures text { IfOk result (λ told. told.text.items ≡ rows_text (answer_rows answer.now)) }
    ensures kind { IfOk result (λ told. told.kind ≡ answer_kind answer.now) }
{
    let mut text = Vec::new(alloc);
    match answer {
        FlowAnswer::NoTables(broken) => {
            put_answer(&mut text, b"faults")?;
            put_text_fault(alloc, &mut text, Table::Places, broken.places)?;
            put_text_fault(alloc, &mut text, Table::Routes, broken.routes)?;
            Ok(PlanText {
                text,
                kind: TextKind::Faults,
            })
        }
        FlowAnswer::NoColumns(numbers) => {
            put_answer(&mut text, b"faults")?;
            put_lacking(alloc, &mut text, numbers)?;
            Ok(PlanText {
                text,
                kind: TextKind::Faults,
            })
        }
        FlowAnswer::Tables(said) => {
            put_said(alloc, &mut text, said)?;
            Ok(PlanText {
                text,
                kind: table_kind(&said.answer),
            })
        }
    }
}

/// Plans the flow of two tables, as `plan_tables` does, and returns the answer as the text of a
/// table, whose rows begin with a word that says what they are: `answer` and its kind, which is
/// `plan`, `no plan` or `faults`.
///
/// Of a plan, `cost` and `missing` with their number; for each route `route`, its line, its ends,
/// what it carries, what that costs, how much more it may carry, what one more unit of room saves
/// at most, whether it saves just that, and what it costs at least to carry one unit more; for each
/// place `place`, its line, its name, what stays there, what is missing, what one more unit costs
/// there, its group, and what passes, with the figures of a route. Of a bottleneck, `side`, its
/// places, and the routes that lead out of it or into it, with the amounts that count. For each
/// fault `fault`, the table, the line, the column, what is wrong, and the cell. At the end, unless
/// a text is no table, `list` with the table of routes and the number of them, if that was a matrix
/// of costs; `left out` with the table and the line of a row of totals; `filled` with the table,
/// the head of a column that was filled down, and how many of its cells took the one above; `mark`
/// with the mark before decimals that was settled; and both tables as they were read: `heads` the
/// row of the heads and `row` each further one, with the table, the line and all cells. Lines are
/// those of the texts. A head of a column to fill down that neither table has is a fault of
/// `options`, with its number for the line. Over periods, `keep` for what each place keeps from a
/// period to the next, and rows with their periods at the end. The manual page `mcfplan(1)` has all
/// rows.
///
/// # Errors
///
/// `NoMemory` if an allocation is refused.
pub fn plan_text<S: Solves>(
    alloc: Global,
    solver: &mut S,
    texts: Texts<'_>,
    options: Options,
) -> Result<PlanText, NoMemory>
    ensures { IfOk result (IsPlanText (bytes_in texts.entry) options) }
{
    let answer = plan_tables(alloc, solver, texts, options)?;
    answer_text(alloc, &answer)
}
