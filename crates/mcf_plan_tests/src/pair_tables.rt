//! Choices for the texts of tables of persons and things, by the engine of the suite.
use mcf_choice::Choice;
use mcf_pair_tables::{
    ChoiceAnswer, CostTexts, Each, Options, PairAnswer, SaidTable, SolvedPairs, TableAnswer,
    plan_pairs,
};
use mcf_planner::Planner as Engine;
use mcf_roster::{Origin, RosterAnswer};
use mcf_roster_reading::{Fault, FaultKind, Location};
use mcf_table::{CellPlace, FieldFault, TextFault};
use mcf_text::NoMemory;
use std::alloc::Global;
use std::test::Fail;

// Nothing is named.
const PLAIN: Options = Options {
    mark: None,
    each: None,
    maximise: false,
};

// A table, what is asked, and its least cost in units, with their scale; `None` for no choice.
type CostRow = (&'static [u8], Options, Option<(i128, u32)>);

static ROWS: [CostRow; 17] = [
    (b",X,Y\nA,1,5\nB,1,\n", PLAIN, Some((6, 0))),
    (b",X,Y\nA,1,5\nB,1,X\n", PLAIN, Some((6, 0))),
    (b",X,Y\nA,1,5\nB,1,\xE2\x80\x93\n", PLAIN, Some((6, 0))),
    (b";X;Y\nA;0,1;0,7\nB;0,3;0,2\n", PLAIN, Some((3, 1))),
    (
        b"\xE2\x86\x93;X;Y;Z\nAnn\xC3\xA9;4;1;\n\"B; C\";2;;9\n",
        PLAIN,
        Some((3, 0)),
    ),
    (b"who,what,cost\nA,X,1\nB,X,1\nC,Y,1\nC,Z,1\n", PLAIN, None),
    (b",X,Y\nA,1,1\nB,1,1\nC,1,1\n", PLAIN, None),
    (b",X,Y\nA,1,1\nB,,\n", PLAIN, None),
    (b"who,what,cost\nA,A,1\n", PLAIN, Some((1, 0))),
    (
        b",X,Y\nA,1,2\nB,,\nC,,\n",
        Options {
            mark: None,
            each: Some(Each::What),
            maximise: false,
        },
        None,
    ),
    (
        b",X,Y\nA,1,1\nB,1,1\n",
        Options {
            mark: None,
            each: Some(Each::Both),
            maximise: false,
        },
        Some((2, 0)),
    ),
    (
        b",X\nA,1\nB,1\n",
        Options {
            mark: None,
            each: Some(Each::Both),
            maximise: false,
        },
        None,
    ),
    (
        b",X,Y\nA,1,2.5\nB,3,3.5\n",
        Options {
            mark: None,
            each: None,
            maximise: true,
        },
        Some((-55, 1)),
    ),
    (
        b";Mo;Di;takes\nAnna;1;2;0..2\nBert;3;;1\nneeds;1;2;\n",
        PLAIN,
        None,
    ),
    (
        b";Mo;Di;takes\nAnna;1;2;0..2\nBert;3;;1\nneeds;1;1-2;\n",
        PLAIN,
        Some((3, 0)),
    ),
    (
        b"who,what,cost,skill\nA,X,1,high\nB,Y,1,low\n",
        PLAIN,
        Some((2, 0)),
    ),
    (
        b",X,Y\nA,\xE2\x88\x922,\nB,,\xE2\x80\x931\n",
        PLAIN,
        Some((-3, 0)),
    ),
];

// The answer to a text.
fn answer_to(alloc: Global, text: &[u8], options: Options) -> Result<PairAnswer, NoMemory> {
    let mut engine = Engine {
        choice: Choice::default(),
    };
    let texts = CostTexts {
        costs: text,
        fill_down: &[],
    };
    plan_pairs(alloc, &mut engine, texts, options)
}

// The answer for a roster, if that is the answer.
fn solved(answer: &PairAnswer) -> Option<&SolvedPairs> {
    match answer {
        PairAnswer::Table(
            SaidTable {
                answer: TableAnswer::Choice(ChoiceAnswer::Solved(solved)),
                ..
            },
        ) => Some(solved),
        _ => None,
    }
}

// Whether the answer has this cost in units, and this scale; or no choice.
fn has_cost(answer: &PairAnswer, cost: Option<(i128, u32)>) -> bool {
    let Some(solved) = solved(answer) else {
        return false;
    };
    match (&solved.answer, cost) {
        (RosterAnswer::Least(found), Some((value, scale))) => {
            found.value == value && solved.scale == scale
        }
        (RosterAnswer::NoChoice(_), None) => true,
        _ => false,
    }
}

#[test]
fn pairs_have_a_least_choice(rt: HostRuntime) -> Result<(), Fail> {
    for (text, options, cost) in ROWS {
        let answer = answer_to(rt.alloc(), text, options)?;
        assert!(rt; has_cost(&answer, cost));
    }
    Ok(())
}

// Whether the table was a sheet of this many wishes, with this number of persons for each thing.
fn was_sheet(answer: &PairAnswer, count: usize, needs: &[u8]) -> bool {
    match answer {
        PairAnswer::Table(said) => {
            said.done.wishes == Some(count) && said.done.needs.as_slice() == needs
        }
        _ => false,
    }
}

#[test]
fn wishes_of_pupils_are_pairs(rt: HostRuntime) -> Result<(), Fail> {
    let text = b"Sports\nwho,first,second,needs\nAnn,Yoga,Chess,0..2\nBea,Yoga\nCem,Yoga,Chess\n";
    let options = Options {
        mark: None,
        each: Some(Each::Who),
        maximise: false,
    };
    let answer = answer_to(rt.alloc(), text, options)?;
    assert!(rt; has_cost(&answer, Some((4, 0))));
    assert!(rt; was_sheet(&answer, 5, b"0..2"));
    Ok(())
}

#[test]
fn columns_of_pairs_are_filled_down(rt: HostRuntime) -> Result<(), Fail> {
    let mut engine = Engine {
        choice: Choice::default(),
    };
    let costs = b"who,what,cost\nA,X,1\n,Y,2\nB,X,3\nTotal,,6\n";
    let texts = CostTexts {
        costs,
        fill_down: b"who",
    };
    let answer = plan_pairs(rt.alloc(), &mut engine, texts, PLAIN)?;
    assert!(rt; has_cost(&answer, Some((5, 0))));
    let texts = CostTexts {
        costs,
        fill_down: b"room",
    };
    match plan_pairs(rt.alloc(), &mut engine, texts, PLAIN)? {
        PairAnswer::NoColumns(numbers) => assert!(rt; numbers.as_slice() == [1].as_slice()),
        _ => assert!(rt; false),
    }
    Ok(())
}

// Whether a cost of the second pair is beyond the limits.
fn is_beyond(answer: &PairAnswer) -> bool {
    match solved(answer) {
        Some(solved) => solved.origin == Some(Origin::OfPair(2)),
        None => false,
    }
}

#[test]
fn costs_beyond_the_limits_have_a_pair(rt: HostRuntime) -> Result<(), Fail> {
    let text = b",X,Y\nA,1,1000000000000001\n";
    let answer = answer_to(rt.alloc(), text, PLAIN)?;
    assert!(rt; is_beyond(&answer));
    Ok(())
}

// The answer to the rows of a table, if the text is one.
fn rows_answer(answer: &PairAnswer) -> Option<&TableAnswer> {
    match answer {
        PairAnswer::Table(said) => Some(&said.answer),
        _ => None,
    }
}

#[test]
fn texts_of_pairs_have_faults(rt: HostRuntime) -> Result<(), Fail> {
    let answer = answer_to(rt.alloc(), b",X\nA,\"1", PLAIN)?;
    let fault = TextFault {
        line: 2,
        kind: FieldFault::Unclosed,
    };
    let is_fault = match &answer {
        PairAnswer::NoTable(found) => *found == fault,
        _ => false,
    };
    assert!(rt; is_fault);
    Ok(())
}

#[test]
fn tables_of_pairs_have_faults(rt: HostRuntime) -> Result<(), Fail> {
    let answer = answer_to(rt.alloc(), b",X\nA,1\nA,2\n", PLAIN)?;
    let fault = Fault {
        at: Location::Cell(CellPlace { row: 2, place: 0 }),
        kind: FaultKind::Twice,
    };
    let is_fault = match rows_answer(&answer) {
        Some(TableAnswer::Faults(faults)) => faults.list() == [fault].as_slice(),
        _ => false,
    };
    assert!(rt; is_fault);
    Ok(())
}

#[test]
fn costs_may_be_too_great(rt: HostRuntime) -> Result<(), Fail> {
    let answer = answer_to(rt.alloc(), b",X,Y\nA,0.5,9223372036854775807\n", PLAIN)?;
    let cell = CellPlace { row: 1, place: 2 };
    let is_great = match rows_answer(&answer) {
        Some(TableAnswer::Choice(ChoiceAnswer::TooGreat(cells))) => {
            cells.as_slice() == [cell].as_slice()
        }
        _ => false,
    };
    assert!(rt; is_great);
    Ok(())
}
