//! Names in tables: `python/mcf_plan/tables.py` gives the same faults, and the numbers are those of
//! `python/mcf_plan/model.py` and, of distinct names, of `python/mcf_plan/roster.py`.
use mcf_names::{NameFault, Names, name_fault};
use mcf_text::NoMemory;
use std::alloc::Global;
use std::test::Fail;

// Cells, and why they aren't names.
static CELLS: [(&[u8], Option<NameFault>); 15] = [
    (b"", Some(NameFault::Empty)),
    (b"Mill A", None),
    (b"M\xC3\xBChle", None),
    (b"\xC3\x85lesund", None),
    (b"a\xC2\xA0b", None),
    (b"\xC2", None),
    (b"a\tb", Some(NameFault::Control)),
    (b"two\nlines", Some(NameFault::Control)),
    (b"a\x00", Some(NameFault::Control)),
    (b"\x1F", Some(NameFault::Control)),
    (b"a\x7F", Some(NameFault::Control)),
    (b"~!", None),
    (b"\xC2\x80", Some(NameFault::Control)),
    (b"a\xC2\x85b", Some(NameFault::Control)),
    (b"ab\xC2\x9F", Some(NameFault::Control)),
];

// Names, of which some stand there twice.
static NAMES: [&[u8]; 7] = [b"Port", b"Mill", b"Port", b"", b"Porto", b"Mill", b"port"];

// A name, and its number.
type Numbered = (&'static [u8], Option<usize>);

// Numbers among all the names.
static NUMBERS: [Numbered; 8] = [
    (b"Port", Some(1)),
    (b"Mill", Some(2)),
    (b"", Some(4)),
    (b"Porto", Some(5)),
    (b"port", Some(7)),
    (b"Por", None),
    (b"Zoo", None),
    (b"A", None),
];

// Numbers among the distinct names.
static DISTINCT: [Numbered; 7] = [
    (b"Port", Some(1)),
    (b"Mill", Some(2)),
    (b"", Some(3)),
    (b"Porto", Some(4)),
    (b"port", Some(5)),
    (b"Ports", None),
    (b"mill", None),
];

// Whether the cells have these faults.
fn have_faults(cells: &[(&[u8], Option<NameFault>)]) -> bool {
    for (cell, wanted) in cells {
        let is_wanted = name_fault(cell) == *wanted;
        if !is_wanted {
            return false;
        }
    }
    true
}

// The names of a list.
fn names_of(alloc: Global, list: &[&'static [u8]]) -> Result<Names<'static>, NoMemory> {
    let mut names = Vec::new(alloc);
    for name in list {
        names.push(*name)?;
    }
    Names::of(alloc, names)
}

// Whether the names have these numbers.
fn have_numbers(names: &Names<'_>, wanted: &[Numbered]) -> bool {
    for (name, number) in wanted {
        let is_wanted = names.number_of(name) == *number;
        if !is_wanted {
            return false;
        }
    }
    true
}

#[test]
fn cells_are_names(rt: HostRuntime) -> Result<(), Fail> {
    assert!(rt; have_faults(&CELLS));
    Ok(())
}

#[test]
fn names_have_numbers(rt: HostRuntime) -> Result<(), Fail> {
    let names = names_of(rt.alloc(), &NAMES)?;
    assert!(rt; have_numbers(&names, &NUMBERS));
    assert!(rt; names.len() == 7);
    assert!(rt; names.name(5) == NAMES[4]);
    Ok(())
}

#[test]
fn names_come_once(rt: HostRuntime) -> Result<(), Fail> {
    let names = names_of(rt.alloc(), &NAMES)?;
    let distinct = names.distinct(rt.alloc())?;
    assert!(rt; have_numbers(&distinct, &DISTINCT));
    assert!(rt; distinct.len() == 5);
    Ok(())
}
