//! Tables of groups: what they say, and one of each kind of fault.
use mcf_group_reading::{
    Fault, FaultKind, Faults, GroupEntry, GroupTable, Head, Known, Location, MemberEntry,
    head_word, read,
};
use mcf_names::{NameFault, Names};
use mcf_table::{CellPlace, Records, records_of};
use mcf_text::NoMemory;
use std::alloc::Global;
use std::test::Fail;

// A table, and its only fault: where it is, and its kind.
type FaultRow = (&'static [u8], Location, FaultKind);

static FAULTS: [FaultRow; 19] = [
    (
        b"who;least\nAnna;1\n",
        Location::Under(Head::Group),
        FaultKind::NoColumn,
    ),
    (
        b"group;who;WHO\nnight;Anna;\n",
        Location::Under(Head::Who),
        FaultKind::TwoColumns,
    ),
    (
        b"group;most\nnight;1\n",
        Location::Heads,
        FaultKind::NoMembers,
    ),
    (
        b"group;who;max\nnight;Anna;1\n",
        Location::Cell(CellPlace { row: 0, place: 2 }),
        FaultKind::NearHead(Head::Most),
    ),
    (
        b"group;who;leest\nnight;Anna;1\n",
        Location::Cell(CellPlace { row: 0, place: 2 }),
        FaultKind::NearHead(Head::Least),
    ),
    (b"group;who\n", Location::Heads, FaultKind::NoGroup),
    (
        b"group;who\nnight;Anna;1\n",
        Location::Cell(CellPlace { row: 1, place: 2 }),
        FaultKind::Beyond,
    ),
    (
        b"group;who\n;Anna\n",
        Location::Cell(CellPlace { row: 1, place: 0 }),
        FaultKind::Name(NameFault::Empty),
    ),
    (
        b"group;who;what\nnight;;\n",
        Location::Cell(CellPlace { row: 1, place: 0 }),
        FaultKind::Neither,
    ),
    (
        b"group;who;what\nnight;Anna;Mo\n",
        Location::Cell(CellPlace { row: 1, place: 0 }),
        FaultKind::Both,
    ),
    (
        b"group;who;what\nnight;Mo;\n",
        Location::Cell(CellPlace { row: 1, place: 1 }),
        FaultKind::Unknown,
    ),
    (
        b"group;what\nnight;Anna\n",
        Location::Cell(CellPlace { row: 1, place: 1 }),
        FaultKind::Unknown,
    ),
    (
        b"group;who;what\nnight;Anna;\nday;;Mo\nnight;;Mo\n",
        Location::Cell(CellPlace { row: 3, place: 2 }),
        FaultKind::Mixed,
    ),
    (
        b"group;who\nnight;Anna\nday;Anna\nnight;Bert\nnight;Anna\n",
        Location::Cell(CellPlace { row: 4, place: 1 }),
        FaultKind::Twice,
    ),
    (
        b"group;who;least\nnight;Anna;-1\n",
        Location::Cell(CellPlace { row: 1, place: 2 }),
        FaultKind::NoNumber,
    ),
    (
        b"group;who;least\nnight;Anna;1000000000000000000\n",
        Location::Cell(CellPlace { row: 1, place: 2 }),
        FaultKind::NoNumber,
    ),
    (
        b"group;who;most\nnight;Anna;2\nday;Anna;1\nnight;Bert;3\n",
        Location::Cell(CellPlace { row: 3, place: 2 }),
        FaultKind::TwoNumbers,
    ),
    (
        b"group;who;least;most\nday;Anna;;\nnight;Anna;3;\nnight;Bert;;2\n",
        Location::Cell(CellPlace { row: 2, place: 0 }),
        FaultKind::Above,
    ),
    (
        b"group;what;most 2\nnight;Mo;1\nnight;Fr;1\n",
        Location::Cell(CellPlace { row: 2, place: 1 }),
        FaultKind::Unknown,
    ),
];

// Two persons and two things.
static PERSONS: [&[u8]; 2] = [b"Anna", b"Bert"];

static THINGS: [&[u8]; 2] = [b"Mo", b"Di"];

// These names.
fn names(alloc: Global, known: &[&'static [u8]]) -> Result<Names<'static>, NoMemory> {
    let mut made = Vec::new(alloc);
    for place in 0..known.len() {
        made.push(known[place])?;
    }
    Names::of(alloc, made)
}

// Whether a table has just this fault.
fn has_fault(read: &Result<GroupTable<'_>, Faults>, fault: Fault) -> bool {
    match read {
        Err(faults) => faults.list() == [fault].as_slice(),
        Ok(_) => false,
    }
}

// The rows of a text, whose cells a semicolon separates; `None` if it is no table.
fn rows(alloc: Global, text: &[u8]) -> Result<Option<Records>, NoMemory> {
    match records_of(alloc, text, b';')? {
        Ok(records) => Ok(Some(records)),
        Err(_) => Ok(None),
    }
}

// Whether the table of a row has just the fault of the row.
fn is_fault(
    alloc: Global,
    persons: &Names<'_>,
    things: &Names<'_>,
    row: FaultRow,
) -> Result<bool, NoMemory> {
    let Some(records) = rows(alloc, row.0)? else {
        return Ok(false);
    };
    let said = read(alloc, &records, Known { persons, things })?;
    let fault = Fault {
        at: row.1,
        kind: row.2,
    };
    Ok(has_fault(&said, fault))
}

#[test]
fn tables_of_groups_have_faults(rt: HostRuntime) -> Result<(), Fail> {
    let persons = names(rt.alloc(), &PERSONS)?;
    let things = names(rt.alloc(), &THINGS)?;
    for row in FAULTS {
        let found = is_fault(rt.alloc(), &persons, &things, row)?;
        assert!(rt; found);
    }
    Ok(())
}

// Whether a table says what it should.
fn is_read(table: &GroupTable<'_>) -> bool {
    let groups = [
        GroupEntry {
            row: 1,
            things: false,
            least: Some(1),
            most: None,
        },
        GroupEntry {
            row: 2,
            things: true,
            least: None,
            most: Some(2),
        },
    ];
    let members = [
        MemberEntry {
            group: 1,
            member: 2,
        },
        MemberEntry {
            group: 2,
            member: 2,
        },
        MemberEntry {
            group: 1,
            member: 1,
        },
    ];
    table.names().len() == 2
        && table.names().name(2) == head_word(Head::What)
        && table.groups() == groups.as_slice()
        && table.members() == members.as_slice()
}

const GROUPS: &[u8] = b"Group;Most;Least;Who;What\nskill;;;Bert;\nwhat;2;;;Di\nskill;;1;Anna;\n";

// Whether the table `GROUPS` is read.
fn is_said(alloc: Global, persons: &Names<'_>, things: &Names<'_>) -> Result<bool, NoMemory> {
    let Some(records) = rows(alloc, GROUPS)? else {
        return Ok(false);
    };
    match read(alloc, &records, Known { persons, things })? {
        Ok(table) => Ok(is_read(&table)),
        Err(_) => Ok(false),
    }
}

#[test]
fn groups_are_read(rt: HostRuntime) -> Result<(), Fail> {
    let persons = names(rt.alloc(), &PERSONS)?;
    let things = names(rt.alloc(), &THINGS)?;
    let said = is_said(rt.alloc(), &persons, &things)?;
    assert!(rt; said);
    Ok(())
}
