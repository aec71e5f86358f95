//! Tables of persons and things: what they say, and one of each kind of fault.
use mcf_decimal::{Decimal, Mark, NumberFault};
use mcf_names::{NameFault, Names};
use mcf_roster_reading::{
    Fault, FaultKind, Faults, Head, Location, PairEntry, RosterTable, Saying, read,
};
use mcf_table::{CellPlace, Records, records_of};
use mcf_text::NoMemory;
use std::alloc::Global;
use std::test::Fail;

// A table, and its only fault: where it is, and its kind.
type FaultRow = (&'static [u8], Location, FaultKind);

static FAULTS: [FaultRow; 24] = [
    (
        b"who;cost\nAnna;1\n",
        Location::Under(Head::What),
        FaultKind::NoColumn,
    ),
    (
        b"who;what;cost;needs;Needs\nA;X;1;;\n",
        Location::Under(Head::Needs),
        FaultKind::TwoColumns,
    ),
    (
        b";takes;X;TAKES\nA;1;1;\n",
        Location::Under(Head::Takes),
        FaultKind::TwoColumns,
    ),
    (
        b";X;Y\nA;1,5;2\nB;x;2.5\n",
        Location::Cell(CellPlace { row: 2, place: 2 }),
        FaultKind::BothMarks,
    ),
    (
        b";X;Y\nA;1;2;3\n",
        Location::Cell(CellPlace { row: 1, place: 3 }),
        FaultKind::Beyond,
    ),
    (
        b"who;what;cost\nA;;1\n",
        Location::Cell(CellPlace { row: 1, place: 1 }),
        FaultKind::Name(NameFault::Empty),
    ),
    (
        b";X;\nA;1;2\n",
        Location::Cell(CellPlace { row: 0, place: 2 }),
        FaultKind::Name(NameFault::Empty),
    ),
    (
        b"who;what;cost\nA\x01;X;1\n",
        Location::Cell(CellPlace { row: 1, place: 0 }),
        FaultKind::Name(NameFault::Control),
    ),
    (
        b"who;what;cost\nA;X;1\nA;Y;1\nA;X;x\n",
        Location::Cell(CellPlace { row: 3, place: 1 }),
        FaultKind::Twice,
    ),
    (
        b";X;Y\nA;1;2\nA;3;4\n",
        Location::Cell(CellPlace { row: 2, place: 0 }),
        FaultKind::Twice,
    ),
    (
        b";X;X\nA;1;2\n",
        Location::Cell(CellPlace { row: 0, place: 2 }),
        FaultKind::Twice,
    ),
    (
        b";X;Y\nA;1;2.500\n",
        Location::Cell(CellPlace { row: 1, place: 2 }),
        FaultKind::Number(NumberFault::Either),
    ),
    (
        b"what;who;cost\nA;X;ten\n",
        Location::Cell(CellPlace { row: 1, place: 2 }),
        FaultKind::Number(NumberFault::NoNumber),
    ),
    (
        b";Mo;takes\nAnna;1;3..2\n",
        Location::Cell(CellPlace { row: 1, place: 2 }),
        FaultKind::NoRange,
    ),
    (
        b";Mo\nAnna;1\nneeds;1.5\n",
        Location::Cell(CellPlace { row: 2, place: 1 }),
        FaultKind::NoRange,
    ),
    (
        b"who;what;cost;takes\nA;X;1;1234567890123456789\n",
        Location::Cell(CellPlace { row: 1, place: 3 }),
        FaultKind::NoRange,
    ),
    (
        b"who;what;cost;takes\nA;X;1;2\nA;Y;1;\nA;Z;1;2-2\n",
        Location::Cell(CellPlace { row: 3, place: 3 }),
        FaultKind::TwoRanges,
    ),
    (
        b";Mo\nneeds;1\nAnna;1\nNeeds;2\n",
        Location::Cell(CellPlace { row: 3, place: 1 }),
        FaultKind::TwoRanges,
    ),
    (
        b"who;what;cost;needs_\nA;X;1;1\n",
        Location::Cell(CellPlace { row: 0, place: 3 }),
        FaultKind::NearHead(Head::Needs),
    ),
    (
        b"who;what;cost;cost 2;costs;note\nA;X;1;1;;\n",
        Location::Cell(CellPlace { row: 0, place: 3 }),
        FaultKind::NearHead(Head::Cost),
    ),
    (b"x", Location::Heads, FaultKind::NoThing),
    (b"name;takes\nAnna;2\n", Location::Heads, FaultKind::NoThing),
    (b";X\nneeds;1\n", Location::Heads, FaultKind::NoPerson),
    (b"who;what;cost\n", Location::Heads, FaultKind::NoThing),
];

// A list, and its two faults: the first, and that of the title in a column, which means a head.
type TwoRow = (&'static [u8], Location, FaultKind, usize, Head);

static TWO: [TwoRow; 2] = [
    (
        b"who;what;cost;take;needs_\n",
        Location::Cell(CellPlace { row: 0, place: 3 }),
        FaultKind::NearHead(Head::Takes),
        4,
        Head::Needs,
    ),
    (
        b"who;what;costs\n",
        Location::Under(Head::Cost),
        FaultKind::NoColumn,
        2,
        Head::Cost,
    ),
];

// Whether a table has just these faults.
fn has_both(
    read: &Result<RosterTable<'_>, Faults>,
    first: Fault,
    place: usize,
    meant: Head,
) -> bool {
    let second = Fault {
        at: Location::Cell(CellPlace { row: 0, place }),
        kind: FaultKind::NearHead(meant),
    };
    match read {
        Err(faults) => faults.list() == [first, second].as_slice(),
        Ok(_) => false,
    }
}

// Whether a table has just this fault.
fn has_fault(read: &Result<RosterTable<'_>, Faults>, fault: Fault) -> bool {
    match read {
        Err(faults) => faults.list() == [fault].as_slice(),
        Ok(_) => false,
    }
}

// The rows of a text, whose cells a semicolon separates; `None` if it is no table.
fn rows(alloc: Global, text: &[u8]) -> Result<Option<Records>, NoMemory> {
    match records_of(alloc, text, b';')? {
        Ok(records) => Ok(Some(records)),
        Err(_) => Ok(None),
    }
}

#[test]
fn tables_of_persons_have_faults(rt: HostRuntime) -> Result<(), Fail> {
    for (text, at, kind) in FAULTS {
        let is_fault = match rows(rt.alloc(), text)? {
            Some(records) => {
                let said = read(rt.alloc(), &records, None)?;
                has_fault(&said, Fault { at, kind })
            }
            None => false,
        };
        assert!(rt; is_fault);
    }
    Ok(())
}

#[test]
fn titles_are_nearly_heads(rt: HostRuntime) -> Result<(), Fail> {
    for (text, at, kind, place, meant) in TWO {
        let are_faults = match rows(rt.alloc(), text)? {
            Some(records) => {
                let said = read(rt.alloc(), &records, None)?;
                has_both(&said, Fault { at, kind }, place, meant)
            }
            None => false,
        };
        assert!(rt; are_faults);
    }
    Ok(())
}

// Whether there are two names, and these are they.
fn are_both(names: &Names<'_>, first: &[u8], second: &[u8]) -> bool {
    names.len() == 2 && names.name(1) == first && names.name(2) == second
}

// The pair of two numbers, at a cost of this mantissa with one decimal at most.
fn pair(who: usize, what: usize, cost: Decimal, row: usize, place: usize) -> PairEntry {
    PairEntry {
        who,
        what,
        cost,
        at: CellPlace { row, place },
    }
}

// The decimal of this mantissa and so many places.
fn decimal(mantissa: i128, places: u32) -> Decimal {
    Decimal { mantissa, places }
}

// Whether a list says what it should.
fn is_list(table: &RosterTable<'_>) -> bool {
    let takes = [Some(Saying::Number(2)), None];
    let needs = [None, Some(Saying::Range(1, 3))];
    let pairs = [
        pair(1, 1, decimal(15, 1), 1, 2),
        pair(1, 2, decimal(-1, 0), 3, 2),
    ];
    are_both(table.persons(), b"Anna", b"Bert")
        && are_both(table.things(), b"Mo", b"Di")
        && table.takes() == takes.as_slice()
        && table.needs() == needs.as_slice()
        && table.pairs() == pairs.as_slice()
        && table.mark() == Some(Mark::Comma)
}

const LIST: &[u8] =
    b"Who;what;cost;takes;needs\nAnna;Mo;1,5;2;\nBert;Di;X;;1 to 3\nAnna;Di;-1;;1-3\n";

#[test]
fn lists_are_read(rt: HostRuntime) -> Result<(), Fail> {
    let is_read = match rows(rt.alloc(), LIST)? {
        Some(records) => match read(rt.alloc(), &records, None)? {
            Ok(table) => is_list(&table),
            Err(_) => false,
        },
        None => false,
    };
    assert!(rt; is_read);
    Ok(())
}

// Whether a matrix says what it should.
fn is_matrix(table: &RosterTable<'_>) -> bool {
    let takes = [Some(Saying::Range(0, 2)), Some(Saying::Number(1))];
    let needs = [Some(Saying::Number(1)), Some(Saying::Range(1, 2))];
    let pairs = [
        pair(1, 1, decimal(1, 0), 1, 1),
        pair(1, 2, decimal(2, 0), 1, 2),
        pair(2, 1, decimal(3, 0), 3, 1),
    ];
    are_both(table.persons(), b"Anna", b"Bert")
        && are_both(table.things(), b"Mo", b"Di")
        && table.takes() == takes.as_slice()
        && table.needs() == needs.as_slice()
        && table.pairs() == pairs.as_slice()
        && table.mark().is_none()
}

const MATRIX: &[u8] = b";Mo;Di;takes\nAnna;1;2;0..2\nNEEDS;1;1 bis 2;\nBert;3;\xE2\x80\x93;1\n";

#[test]
fn matrices_are_read(rt: HostRuntime) -> Result<(), Fail> {
    let is_read = match rows(rt.alloc(), MATRIX)? {
        Some(records) => match read(rt.alloc(), &records, None)? {
            Ok(table) => is_matrix(&table),
            Err(_) => false,
        },
        None => false,
    };
    assert!(rt; is_read);
    Ok(())
}
