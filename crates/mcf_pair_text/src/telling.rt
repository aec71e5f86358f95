//! The answer to a table of persons and things as text.
ghost use Rattle.std.specs.Prelude.{◌≡◌, ◌++◌, ◌∷◌, IfOk, None, OnOk, map};
ghost use Rattle.mcf_answer_rows.specs.Lines.{rows_text};
ghost use Rattle.mcf_pair_tables.specs.PairAnswers.{bytes_in};
ghost use Rattle.mcf_roster_reading.specs.Reading.{read_roster};
ghost use Rattle.mcf_pair_text.specs.DoneRows.{done_rows};
ghost use Rattle.mcf_pair_text.specs.PairFaultRows.{cell_fault_row};
ghost use Rattle.mcf_pair_text.specs.PairPlaces.{sheet_in};
ghost use Rattle.mcf_pair_text.specs.PairTexts.{IsPairText, answer_kind, answer_rows, choice_kind, closing_rows, faults_row, read_rows, roster_kind, roster_rows, said_rows, table_kind, table_rows};

use crate::done::put_done;
use crate::fault_rows::{put_beyond, put_cell_faults, put_greats, put_improper, put_text_fault};
use crate::pages::{Page, page_of};
use crate::rows::{Unit, put_choice, put_competition};
use crate::words::costs_word;
use mcf_answer_rows::{PlanText, TextKind, put_answer, put_lacking, put_mark, put_table};
use mcf_decimal::Mark;
use mcf_model::Solves;
use mcf_pair_tables::{
    ChoiceAnswer, CostTexts, Options, PairAnswer, SaidTable, SolvedPairs, TableAnswer, plan_pairs,
};
use mcf_roster::RosterAnswer;
use mcf_roster_reading::{Fault, RosterTable, read};
use mcf_table::Records;
use mcf_text::NoMemory;
use std::alloc::Global;

// The kind of the answer for a roster.
fn roster_kind(answer: &RosterAnswer) -> TextKind
    ensures { result ≡ roster_kind answer.now }
{
    match answer {
        RosterAnswer::Least(_) => TextKind::Plan,
        RosterAnswer::NoChoice(_) => TextKind::NoPlan,
        RosterAnswer::Beyond(_) => TextKind::Faults,
    }
}

// Appends the mark before decimals, and the rows of the table.
fn put_closing(
    alloc: Global,
    out: &mut Vec<u8>,
    page: Page<'_>,
    mark: Option<Mark>,
) -> Result<(), NoMemory>
    ensures { OnOk result (out.new.items ≡ out.old.items ++ rows_text (closing_rows (sheet_in page.entry) mark)) }
{
    put_mark(out, mark)?;
    put_table(alloc, out, costs_word(), page.records)
}

// Appends the answer for a roster.
fn put_roster(
    alloc: Global,
    out: &mut Vec<u8>,
    page: Page<'_>,
    table: &RosterTable<'_>,
    maximise: bool,
    solved: &SolvedPairs,
) -> Result<(), NoMemory>
    ensures { OnOk result (out.new.items ≡ out.old.items
        ++ rows_text (roster_rows maximise (sheet_in page.entry) table.now solved.now solved.now.answer)) }
{
    match &solved.answer {
        RosterAnswer::Least(choice) => {
            let unit = Unit {
                maximise,
                scale: solved.scale,
            };
            put_choice(alloc, out, page, table, unit, choice)
        }
        RosterAnswer::NoChoice(found) => put_competition(alloc, out, page, table, found),
        RosterAnswer::Beyond(fault) => {
            put_answer(out, b"faults")?;
            put_beyond(alloc, out, page, table, solved.origin, fault)
        }
    }
}

// The kind of the answer to what a table says.
fn choice_kind(answer: &ChoiceAnswer) -> TextKind
    ensures { result ≡ choice_kind answer.now }
{
    match answer {
        ChoiceAnswer::Solved(solved) => roster_kind(&solved.answer),
        _ => TextKind::Faults,
    }
}

// Appends the answer to what a table says.
fn put_said(
    alloc: Global,
    out: &mut Vec<u8>,
    page: Page<'_>,
    table: &RosterTable<'_>,
    maximise: bool,
    answer: &ChoiceAnswer,
) -> Result<(), NoMemory>
    ensures { OnOk result (out.new.items ≡ out.old.items
        ++ rows_text (said_rows maximise (sheet_in page.entry) table.now answer.now)) }
{
    match answer {
        ChoiceAnswer::TooGreat(cells) => {
            put_answer(out, b"faults")?;
            put_greats(alloc, out, page, cells)
        }
        ChoiceAnswer::Improper(fault) => {
            put_answer(out, b"faults")?;
            put_improper(alloc, out, page, table, *fault)
        }
        ChoiceAnswer::Solved(solved) => put_roster(alloc, out, page, table, maximise, solved),
    }
}

// Appends the answer to what a table says, and the table.
fn put_answered(
    alloc: Global,
    out: &mut Vec<u8>,
    page: Page<'_>,
    table: &RosterTable<'_>,
    maximise: bool,
    answer: &ChoiceAnswer,
) -> Result<(), NoMemory>
    ensures { OnOk result (out.new.items ≡ out.old.items
        ++ rows_text (said_rows maximise (sheet_in page.entry) table.now answer.now ++ closing_rows (sheet_in page.entry) table.now.mark)) }
{
    put_said(alloc, out, page, table, maximise, answer)?;
    put_closing(alloc, out, page, table.mark())
}

// Appends the answer to what a table says, which is read once more for its names and pairs, and the
// table.
fn put_read(
    alloc: Global,
    out: &mut Vec<u8>,
    page: Page<'_>,
    options: Options,
    answer: &ChoiceAnswer,
) -> Result<(), NoMemory>
    ensures { OnOk result (out.new.items ≡ out.old.items
        ++ rows_text (read_rows options.maximise (sheet_in page.entry) (read_roster options.mark page.entry.records.now) answer.now)) }
{
    match read(alloc, page.records, options.mark)? {
        Ok(table) => put_answered(alloc, out, page, &table, options.maximise, answer),
        Err(_) => Ok(()),
    }
}

// The kind of the answer to the rows of a table.
fn table_kind(answer: &TableAnswer) -> TextKind
    ensures { result ≡ table_kind answer.now }
{
    match answer {
        TableAnswer::Faults(_) => TextKind::Faults,
        TableAnswer::Choice(answer) => choice_kind(answer),
    }
}

// Appends faults of heads and cells.
fn put_faults(
    alloc: Global,
    out: &mut Vec<u8>,
    page: Page<'_>,
    faults: &[Fault],
) -> Result<(), NoMemory>
    ensures { OnOk result (out.new.items ≡ out.old.items
        ++ rows_text (faults_row ∷ map (cell_fault_row (sheet_in page.entry)) faults.now)) }
{
    put_answer(out, b"faults")?;
    put_cell_faults(alloc, out, page, faults)
}

// Appends faults of heads and cells, and the table.
fn put_faulty(
    alloc: Global,
    out: &mut Vec<u8>,
    page: Page<'_>,
    faults: &[Fault],
) -> Result<(), NoMemory>
    ensures { OnOk result (out.new.items ≡ out.old.items
        ++ rows_text ((faults_row ∷ map (cell_fault_row (sheet_in page.entry)) faults.now) ++ closing_rows (sheet_in page.entry) None)) }
{
    put_faults(alloc, out, page, faults)?;
    put_closing(alloc, out, page, None)
}

// Appends the answer to the rows of a table, and these.
fn put_table_answer(
    alloc: Global,
    out: &mut Vec<u8>,
    records: &Records,
    options: Options,
    answer: &TableAnswer,
) -> Result<(), NoMemory>
    ensures { OnOk result (out.new.items ≡ out.old.items ++ rows_text (table_rows options records.now answer.now)) }
{
    let page = page_of(records);
    match answer {
        TableAnswer::Faults(faults) => put_faulty(alloc, out, page, faults.list()),
        TableAnswer::Choice(answer) => put_read(alloc, out, page, options, answer),
    }
}

// Appends the answer to the rows of a table, these, and what was done to the table.
fn put_said_table(
    alloc: Global,
    out: &mut Vec<u8>,
    said: &SaidTable,
    options: Options,
) -> Result<(), NoMemory>
    ensures { OnOk result (out.new.items ≡ out.old.items
        ++ rows_text (table_rows options said.now.rows said.now.answer ++ done_rows said.now.rows said.now.done)) }
{
    put_table_answer(alloc, out, &said.rows, options, &said.answer)?;
    put_done(alloc, out, &said.rows, &said.done)
}

// The text of an answer.
fn text_of(alloc: Global, options: Options, answer: &PairAnswer) -> Result<PlanText, NoMemory>
    ensures text { IfOk result (λ told. told.text.items ≡ rows_text (answer_rows options answer.now)) }
    ensures kind { IfOk result (λ told. told.kind ≡ answer_kind answer.now) }
{
    let mut text = Vec::new(alloc);
    match answer {
        PairAnswer::NoTable(fault) => {
            put_answer(&mut text, b"faults")?;
            put_text_fault(alloc, &mut text, *fault)?;
            Ok(PlanText {
                text,
                kind: TextKind::Faults,
            })
        }
        PairAnswer::NoColumns(numbers) => {
            put_answer(&mut text, b"faults")?;
            put_lacking(alloc, &mut text, numbers)?;
            Ok(PlanText {
                text,
                kind: TextKind::Faults,
            })
        }
        PairAnswer::Table(said) => {
            put_said_table(alloc, &mut text, said, options)?;
            Ok(PlanText {
                text,
                kind: table_kind(&said.answer),
            })
        }
    }
}

/// Chooses pairs of persons and things by a table, as `plan_pairs` does, and returns the answer as
/// the text of a table, whose rows begin with a word that says what they are: `answer` and its
/// kind, which is `plan`, `no plan` or `faults`. Of a plan and of none, `persons` and `things` with
/// how many the table names. Of a choice, `cost` with what it costs, or what it is worth; for each
/// chosen pair `pair`, its line, the number of its column in a matrix, the person, the thing and
/// what it costs; for each person `person`, the line and the name, and for each thing `thing`, the
/// same. Of persons and things that compete, `side`; for each person `person`, the line, the name
/// and its least or its most, as the side counts it, and for each thing `thing`, the same; and
/// `pair`, as for a choice, for each pair that counts one more. For each fault `fault`, `costs`,
/// the line, the column, what is wrong, and the cell. At the end, unless the text is no table,
/// `mark` with the mark before decimals that was settled, and the table: `heads` the row of the
/// heads and `row` each further one, with `costs`, the line and all cells; if a last row of totals
/// of a list isn't read, `left out` with `costs` and its line; and for each column that was filled
/// down `filled`, with `costs`, its head and how many of its cells took the one above. A head of a
/// column to fill down that the table lacks is a fault of `options`, with its number for the line.
///
/// # Errors
///
/// `NoMemory` if an allocation is refused.
pub fn pair_text<S: Solves>(
    alloc: Global,
    solver: &mut S,
    texts: CostTexts<'_>,
    options: Options,
) -> Result<PlanText, NoMemory>
    ensures { IfOk result (IsPairText (bytes_in texts.entry) options) }
{
    let answer = plan_pairs(alloc, solver, texts, options)?;
    text_of(alloc, options, &answer)
}
