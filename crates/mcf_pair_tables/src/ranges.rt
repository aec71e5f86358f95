//! How many each person takes, and each thing needs.
ghost use Rattle.std.specs.Prelude.{◌≡◌, IfOk, map};
ghost use Rattle.std.specs.List.{list_any};
ghost use Rattle.std.specs.Option.{is_some};
ghost use Rattle.mcf_pair_tables.specs.PairRanges.{asks_persons, asks_things, capped, each_of, is_said, needs_range, one_if, takes_range};

use crate::options::Each;
use mcf_roster::Range;
use mcf_roster_reading::{RosterTable, Saying};
use mcf_text::NoMemory;
use std::alloc::Global;

// A number, or the greatest of 32 bits if it is greater.
pub(crate) fn capped(number: u64) -> u32
    ensures { result ≡ capped number }
{
    u32::try_from(number).unwrap_or(4_294_967_295)
}

// One, if the test holds.
fn one_if(test: bool) -> u32
    ensures { result ≡ one_if test }
{
    if test { 1 } else { 0 }
}

// How many things a person takes.
fn takes_range(each: bool, said: Option<Saying>) -> Range
    ensures { result ≡ takes_range each said }
{
    match said {
        None => Range {
            least: one_if(each),
            most: 1,
        },
        Some(Saying::Number(number)) => Range {
            least: capped(number).min(one_if(each)),
            most: capped(number),
        },
        Some(Saying::Range(least, most)) => Range {
            least: capped(least),
            most: capped(most),
        },
    }
}

// How many persons a thing needs.
fn needs_range(each: bool, said: Option<Saying>) -> Range
    ensures { result ≡ needs_range each said }
{
    match said {
        None => Range {
            least: one_if(each),
            most: 1,
        },
        Some(Saying::Number(number)) => Range {
            least: capped(number),
            most: capped(number),
        },
        Some(Saying::Range(least, most)) => Range {
            least: capped(least),
            most: capped(most),
        },
    }
}

// Whether a cell says how many one may have.
fn is_any(said: &[Option<Saying>]) -> bool
    ensures { result ≡ list_any is_some said.now }
{
    said.iter().any(|one| one.is_some())
}

// Whether the table says how many anyone may have.
fn is_said(table: &RosterTable<'_>) -> bool
    ensures { result ≡ is_said table.now }
{
    is_any(table.takes()) || is_any(table.needs())
}

// Who gets just one.
pub(crate) fn each_of(named: Option<Each>, table: &RosterTable<'_>) -> Each
    ensures { result ≡ each_of named table.now }
{
    match named {
        Some(each) => each,
        None if is_said(table) => Each::What,
        None => Each::Who,
    }
}

// Whether each person gets just one.
pub(crate) fn asks_persons(each: Each) -> bool
    ensures { result ≡ asks_persons each }
{
    match each {
        Each::Who | Each::Both => true,
        Each::What => false,
    }
}

// Whether each thing gets just one.
pub(crate) fn asks_things(each: Each) -> bool
    ensures { result ≡ asks_things each }
{
    match each {
        Each::What | Each::Both => true,
        Each::Who => false,
    }
}

// How many things each person takes.
pub(crate) fn all_takes(
    alloc: Global,
    each: bool,
    said: &[Option<Saying>],
) -> Result<Vec<Range>, NoMemory>
    ensures { IfOk result (λ made. made.items ≡ map (takes_range each) said.now) }
{
    let mut made = Vec::new(alloc);
    for one in said {
        made.push(takes_range(each, *one))?;
    }
    Ok(made)
}

// How many persons each thing needs.
pub(crate) fn all_needs(
    alloc: Global,
    each: bool,
    said: &[Option<Saying>],
) -> Result<Vec<Range>, NoMemory>
    ensures { IfOk result (λ made. made.items ≡ map (needs_range each) said.now) }
{
    let mut made = Vec::new(alloc);
    for one in said {
        made.push(needs_range(each, *one))?;
    }
    Ok(made)
}
