//! Pairs that stand twice.
ghost use Rattle.std.specs.Prelude.{◌≡◌, ◌≤◌, ◌++◌, IfOk, OnOk, length, map};
ghost use Rattle.mcf_roster_reading.specs.Faults.{in_turn};
ghost use Rattle.mcf_roster_reading.specs.Repeated.{are_names, is_repeated, pair_text, repeated_faults, text_of, twice_fault, twice_kind};

use crate::cells::cell_in;
use crate::kinds::{Fault, FaultKind, Location, push_told};
use crate::layouts::PairAt;
use crate::naming::is_before;
use mcf_names::{Names, name_fault};
use mcf_table::Records;
use mcf_text::NoMemory;
use std::alloc::Global;

// The text of a pair: its names with a zero byte between them.
fn pair_text(alloc: Global, who: &[u8], what: &[u8]) -> Result<Vec<u8>, NoMemory>
    ensures { IfOk result (λ made. made.items ≡ pair_text who.now what.now) }
{
    let mut text = Vec::new(alloc);
    text.extend_from_slice(who)?;
    text.push(0)?;
    text.extend_from_slice(what)?;
    Ok(text)
}

// The texts of pairs.
fn texts_of(alloc: Global, records: &Records, pairs: &[PairAt]) -> Result<Vec<Vec<u8>>, NoMemory>
    ensures { IfOk result (λ made. map (λ text. text.items) made.items ≡ map (text_of records.now) pairs.now) }
{
    let mut made = Vec::new(alloc);
    for pair in pairs {
        let who = cell_in(records, pair.who);
        let text = pair_text(alloc, who, cell_in(records, pair.what))?;
        made.push(text)?;
    }
    Ok(made)
}

// The texts as names.
fn names_of<'t>(alloc: Global, texts: &'t [Vec<u8>]) -> Result<Names<'t>, NoMemory>
    ensures { IfOk result (λ made. made ≡ map (λ text. text.items) texts.now) }
{
    let mut found = Vec::new(alloc);
    for text in texts {
        found.push(text.as_slice())?;
    }
    Names::of(alloc, found)
}

// Whether both are names.
fn are_names(who: &[u8], what: &[u8]) -> bool
    ensures { result ≡ are_names who.now what.now }
{
    name_fault(who).is_none() && name_fault(what).is_none()
}

// Whether an earlier text is the one with this number.
fn is_repeated(texts: &Names<'_>, number: usize) -> bool
    requires first { 1 ≤ number }
    requires last { number ≤ length texts.now }
    ensures { result ≡ is_repeated texts.now number }
{
    is_before(texts.number_of(texts.name(number)), number)
}

// Whether an earlier row has the pair with this number, whose cells are names.
fn twice_kind(
    records: &Records,
    texts: &Names<'_>,
    number: usize,
    pair: PairAt,
) -> Option<FaultKind>
    requires first { 1 ≤ number }
    requires last { number ≤ length texts.now }
    ensures { result ≡ twice_kind records.now texts.now number pair }
{
    let both = are_names(cell_in(records, pair.who), cell_in(records, pair.what));
    let repeated = is_repeated(texts, number);
    if both && repeated {
        Some(FaultKind::Twice)
    } else {
        None
    }
}

// Appends the faults of pairs that stand in an earlier row.
fn push_in_turn(
    records: &Records,
    texts: &Names<'_>,
    pairs: &[PairAt],
    faults: &mut Vec<Fault>,
) -> Result<(), NoMemory>
    requires { length texts.now ≡ length pairs.now }
    ensures { OnOk result (faults.new.items ≡ faults.old.items ++ in_turn (twice_fault records.now texts.now) 1 pairs.now) }
{
    for place in 0..pairs.len() {
        let kind = twice_kind(records, texts, place + 1, pairs[place]);
        push_told(faults, Location::Cell(pairs[place].what), kind)?;
    }
    Ok(())
}

// Appends the faults of pairs that stand in an earlier row of a list.
pub(crate) fn push_repeated(
    alloc: Global,
    names_once: bool,
    records: &Records,
    pairs: &[PairAt],
    faults: &mut Vec<Fault>,
) -> Result<(), NoMemory>
    ensures { OnOk result (faults.new.items ≡ faults.old.items ++ repeated_faults names_once records.now pairs.now) }
{
    if names_once {
        return Ok(());
    }
    let texts = texts_of(alloc, records, pairs)?;
    let names = names_of(alloc, &texts)?;
    push_in_turn(records, &names, pairs, faults)
}
