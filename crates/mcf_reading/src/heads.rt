//! The heads of the columns that are read.
ghost use Rattle.std.specs.Prelude.{◌≡◌, ◌+◌, ◌<◌, ◌^◌, ◌++◌, IfOk, OnOk};
ghost use Rattle.std.specs.List.{flat_map, range_with_len};
ghost use Rattle.mcf_reading.specs.HeadTexts.{column_under, first_heads, further_count, has_periods, head_step, head_text, head_word, route_heads, step_heads, step_text};
ghost use Rattle.mcf_reading.specs.ShownMarks.{route_number_heads};
ghost use Rattle.mcf_table.specs.Heads.{is_there};

use crate::locations::{Head, Table};
use mcf_table::{Column, Records};
use mcf_text::{NoMemory, put_number};
use std::alloc::Global;

// The heads that the table of places may have.
static PLACE_HEADS: [Head; 6] = [
    Head::Name,
    Head::Supply,
    Head::Least,
    Head::Most(1),
    Head::Cost(1),
    Head::Penalty,
];

// The heads that the table of routes may have, without those of further steps.
static ROUTE_HEADS: [Head; 6] = [
    Head::From,
    Head::To,
    Head::Most(1),
    Head::Cost(1),
    Head::Least,
    Head::Both,
];

// The heads that a table may have, without those of further steps.
pub(crate) fn first_heads(table: Table) -> &'static [Head]
    ensures { result.now ≡ first_heads table }
{
    match table {
        Table::Places => &PLACE_HEADS,
        Table::Routes => &ROUTE_HEADS,
    }
}

// The word of a head.
pub(crate) fn head_word(head: Head) -> &'static [u8]
    ensures { result.now ≡ head_word head }
{
    match head {
        Head::Name => b"name",
        Head::Supply => b"supply",
        Head::Least => b"least",
        Head::Most(_) => b"most",
        Head::Cost(_) => b"cost",
        Head::Penalty => b"penalty",
        Head::From => b"from",
        Head::To => b"to",
        Head::Both => b"both",
    }
}

// The step of which a head speaks, or the first.
fn head_step(head: Head) -> usize
    ensures { result ≡ head_step head }
{
    match head {
        Head::Most(step) => step,
        Head::Cost(step) => step,
        _ => 1,
    }
}

// Appends, from the second step on, a space and the number of the step.
fn put_step(text: &mut Vec<u8>, step: usize) -> Result<(), NoMemory>
    ensures { OnOk result (text.new.items ≡ text.old.items ++ step_text step) }
{
    if step < 2 {
        return Ok(());
    }
    text.push(b' ')?;
    put_number(text, step as i128)
}

/// The text of a head: its word, and from the second step on a space and the number of the step.
///
/// # Errors
///
/// `NoMemory` if an allocation is refused.
#[tactic(auto, unfolding(crate::specs::HeadTexts::head_text))]
pub fn head_text(alloc: Global, head: Head) -> Result<Vec<u8>, NoMemory>
    ensures { IfOk result (λ made. made.items ≡ head_text head) }
{
    let mut text = Vec::new(alloc);
    text.extend_from_slice(head_word(head))?;
    put_step(&mut text, head_step(head))?;
    Ok(text)
}

// The column of a table that has a head.
#[tactic(auto, unfolding(crate::specs::HeadTexts::column_under))]
pub(crate) fn column_under(alloc: Global, records: &Records, head: Head) -> Result<Column, NoMemory>
    ensures { IfOk result (λ column. column ≡ column_under records.now head) }
{
    let text = head_text(alloc, head)?;
    Ok(records.column_of(&text))
}

/// Whether the table of places has a column of periods, `period`. Then a place may have several
/// rows.
#[tactic(auto, unfolding(crate::specs::HeadTexts::has_periods))]
pub fn has_periods(places: &Records) -> bool
    ensures { result ≡ has_periods places.now }
{
    places.column_of(b"period").is_there()
}

// Whether a column has the head of a step's most.
fn has_step(alloc: Global, records: &Records, step: usize) -> Result<bool, NoMemory>
    ensures { IfOk result (λ has. has ≡ is_there (column_under records.now (Head.Most step))) }
{
    let column = column_under(alloc, records, Head::Most(step))?;
    Ok(column.is_there())
}

// How many steps follow the first.
pub(crate) fn further_count(alloc: Global, records: &Records) -> Result<usize, NoMemory>
    ensures count { IfOk result (λ count. count ≡ further_count records.now) }
    ensures few { IfOk result (λ count. count + 4 < 2 ^ 64) }
{
    let limit = records.head_count().saturating_sub(4);
    for count in 0..limit {
        let has = has_step(alloc, records, 2 + count)?;
        if !has {
            return Ok(count);
        }
    }
    Ok(limit)
}

// Appends the heads of steps.
fn push_steps(heads: &mut Vec<Head>, first: usize, count: usize) -> Result<(), NoMemory>
    requires { first + count < 2 ^ 64 }
    ensures { OnOk result (heads.new.items ≡ heads.old.items ++ flat_map step_heads (range_with_len first count)) }
{
    for place in 0..count {
        heads.push(Head::Most(first + place))?;
        heads.push(Head::Cost(first + place))?;
    }
    Ok(())
}

// The heads that are looked for in the table of routes.
pub(crate) fn route_heads(alloc: Global, records: &Records) -> Result<Vec<Head>, NoMemory>
    ensures { IfOk result (λ made. made.items ≡ route_heads records.now) }
{
    let count = further_count(alloc, records)?;
    let mut heads = Vec::new(alloc);
    heads.extend_from_slice(first_heads(Table::Routes))?;
    push_steps(&mut heads, 2, count)?;
    Ok(heads)
}

// The heads of the columns of numbers in the table of routes.
pub(crate) fn route_number_heads(alloc: Global, records: &Records) -> Result<Vec<Head>, NoMemory>
    ensures { IfOk result (λ made. made.items ≡ route_number_heads records.now) }
{
    let count = further_count(alloc, records)?;
    let mut heads = Vec::new(alloc);
    heads.push(Head::Least)?;
    push_steps(&mut heads, 1, count + 1)?;
    Ok(heads)
}
