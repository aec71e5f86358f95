//! Choices, and persons and things that compete, as rows of a table.
ghost use Rattle.std.specs.Prelude.{◌≡◌, ◌++◌, OnOk, codes, option_map};
ghost use Rattle.mcf_answer_rows.specs.AnswerRows.{answer_row, number_row};
ghost use Rattle.mcf_answer_rows.specs.Lines.{row_line, rows_text};
ghost use Rattle.mcf_decimal.specs.Written.{decimal_text};
ghost use Rattle.mcf_pair_text.specs.PairPlaces.{sheet_in};
ghost use Rattle.mcf_pair_text.specs.PairRows.{all_chosen, choice_heading, choice_rows, chosen_rows, competition_heading, competition_rows, count_rows, opposite, pair_row, side_word, told_pair, total};

use crate::members::{put_member_lists, put_named_lists, test_at};
use crate::pages::{Page, numbered, pair_column};
use mcf_answer_rows::{decimal_cell, line_cell, number_cell, put_answer, put_line, put_number_row};
use mcf_flows::Side;
use mcf_roster::{Competition, LeastChoice};
use mcf_roster_reading::{PairEntry, RosterTable};
use mcf_text::NoMemory;
use std::alloc::Global;

// Appends a pair.
fn put_pair(
    alloc: Global,
    out: &mut Vec<u8>,
    page: Page<'_>,
    table: &RosterTable<'_>,
    pair: PairEntry,
) -> Result<(), NoMemory>
    ensures { OnOk result (out.new.items ≡ out.old.items ++ row_line (pair_row (sheet_in page.entry) table.now pair)) }
{
    let line = line_cell(alloc, page.records, pair.at.row)?;
    let column = pair_column(alloc, page, pair.at)?;
    let cost = decimal_cell(alloc, pair.cost.mantissa, pair.cost.places)?;
    let who = numbered(table.persons(), pair.who);
    let what = numbered(table.things(), pair.what);
    put_line(out, &[b"pair", &line, &column, who, what, &cost])
}

// Appends a pair, if there is such a one.
fn put_told_pair(
    alloc: Global,
    out: &mut Vec<u8>,
    page: Page<'_>,
    table: &RosterTable<'_>,
    pair: Option<&PairEntry>,
) -> Result<(), NoMemory>
    ensures { OnOk result (out.new.items ≡ out.old.items
        ++ rows_text (told_pair (sheet_in page.entry) table.now (option_map (λ p. p.now) pair.entry))) }
{
    match pair {
        None => Ok(()),
        Some(pair) => put_pair(alloc, out, page, table, *pair),
    }
}

// Appends the pair at a place, if it is chosen.
fn put_chosen(
    alloc: Global,
    out: &mut Vec<u8>,
    page: Page<'_>,
    table: &RosterTable<'_>,
    chosen: &[bool],
    place: usize,
) -> Result<(), NoMemory>
    ensures { OnOk result (out.new.items ≡ out.old.items
        ++ rows_text (chosen_rows (sheet_in page.entry) table.now chosen.now place)) }
{
    if !test_at(chosen, place) {
        return Ok(());
    }
    put_told_pair(alloc, out, page, table, table.pairs().get(place))
}

// Appends the pairs that are marked.
fn put_all_chosen(
    alloc: Global,
    out: &mut Vec<u8>,
    page: Page<'_>,
    table: &RosterTable<'_>,
    chosen: &[bool],
) -> Result<(), NoMemory>
    ensures { OnOk result (out.new.items ≡ out.old.items
        ++ rows_text (all_chosen (sheet_in page.entry) table.now chosen.now)) }
{
    for place in 0..chosen.len() {
        put_chosen(alloc, out, page, table, chosen, place)?;
    }
    Ok(())
}

// A number with its sign turned; 0 if that has more than 128 bits.
fn opposite(number: i128) -> i128
    ensures { result ≡ opposite number }
{
    if number <= -170141183460469231731687303715884105728 {
        0
    } else {
        -number
    }
}

// What a choice costs, or what it is worth.
fn total(maximise: bool, cost: i128) -> i128
    ensures { result ≡ total maximise cost }
{
    if maximise { opposite(cost) } else { cost }
}

// Appends the kind and the cost of a choice.
fn put_total(alloc: Global, out: &mut Vec<u8>, cost: i128, scale: u32) -> Result<(), NoMemory>
    ensures { OnOk result (out.new.items ≡ out.old.items
        ++ (row_line (answer_row (codes "plan")) ++ row_line (number_row (codes "cost") (decimal_text cost scale)))) }
{
    let cost = decimal_cell(alloc, cost, scale)?;
    put_answer(out, b"plan")?;
    put_number_row(out, b"cost", &cost)
}

// Appends how many persons and things there are.
fn put_counts(alloc: Global, out: &mut Vec<u8>, table: &RosterTable<'_>) -> Result<(), NoMemory>
    ensures { OnOk result (out.new.items ≡ out.old.items ++ rows_text (count_rows table.now)) }
{
    let persons = number_cell(alloc, table.persons().len())?;
    put_number_row(out, b"persons", &persons)?;
    let things = number_cell(alloc, table.things().len())?;
    put_number_row(out, b"things", &things)
}

// The unit of costs, and whether they are values.
#[derive(Clone, Copy)]
pub(crate) struct Unit {
    pub(crate) maximise: bool,
    pub(crate) scale: u32,
}

// Appends the heading of a choice.
fn put_choice_heading(
    alloc: Global,
    out: &mut Vec<u8>,
    table: &RosterTable<'_>,
    unit: Unit,
    cost: i128,
) -> Result<(), NoMemory>
    ensures { OnOk result (out.new.items ≡ out.old.items
        ++ rows_text (choice_heading unit.maximise table.now unit.scale cost)) }
{
    put_total(alloc, out, total(unit.maximise, cost), unit.scale)?;
    put_counts(alloc, out, table)
}

// Appends a least choice.
pub(crate) fn put_choice(
    alloc: Global,
    out: &mut Vec<u8>,
    page: Page<'_>,
    table: &RosterTable<'_>,
    unit: Unit,
    choice: &LeastChoice,
) -> Result<(), NoMemory>
    ensures { OnOk result (out.new.items ≡ out.old.items
        ++ rows_text (choice_rows unit.maximise (sheet_in page.entry) table.now unit.scale choice.now)) }
{
    put_choice_heading(alloc, out, table, unit, choice.value)?;
    put_all_chosen(alloc, out, page, table, &choice.chosen)?;
    put_named_lists(alloc, out, page, table)
}

// The word of a side.
fn side_word(side: Side) -> &'static [u8]
    ensures { result.now ≡ side_word side }
{
    match side {
        Side::Send => b"send",
        Side::Take => b"take",
    }
}

// Appends the heading of a competition.
fn put_competition_heading(
    alloc: Global,
    out: &mut Vec<u8>,
    table: &RosterTable<'_>,
    side: Side,
) -> Result<(), NoMemory>
    ensures { OnOk result (out.new.items ≡ out.old.items ++ rows_text (competition_heading table.now side)) }
{
    put_answer(out, b"no plan")?;
    put_number_row(out, b"side", side_word(side))?;
    put_counts(alloc, out, table)
}

// Appends persons and things that compete.
pub(crate) fn put_competition(
    alloc: Global,
    out: &mut Vec<u8>,
    page: Page<'_>,
    table: &RosterTable<'_>,
    found: &Competition,
) -> Result<(), NoMemory>
    ensures { OnOk result (out.new.items ≡ out.old.items ++ rows_text (competition_rows (sheet_in page.entry) table.now found.now)) }
{
    put_competition_heading(alloc, out, table, found.side)?;
    put_member_lists(alloc, out, page, table, found)?;
    put_all_chosen(alloc, out, page, table, &found.amounts.pairs)
}
