//! Choices of small random rosters. `python/tests/rosters.py` writes the rows, and finds their
//! least values by trying all choices.
use mcf_choice::Choice;
use mcf_planner::Planner as Engine;
use mcf_roster::{Pair, Range, Roster, RosterAnswer, least};
use mcf_text::NoMemory;
use std::alloc::Global;
use std::test::Fail;

// A roster of three persons, three things and seven pairs, with the ends of each range, and the
// value of its least choice, or `None` if it has no choice.
#[derive(Clone, Copy)]
struct ChosenRow {
    takes: [[u32; 2]; 3],
    needs: [[u32; 2]; 3],
    who: [u32; 7],
    what: [u32; 7],
    cost: [i64; 7],
    value: Option<i128>,
}

const ROWS: [ChosenRow; 16] = [
    ChosenRow {
        takes: [[0, 0], [1, 1], [1, 3]],
        needs: [[1, 3], [0, 0], [1, 1]],
        who: [2, 3, 3, 2, 1, 1, 1],
        what: [2, 1, 2, 3, 3, 2, 1],
        cost: [-4, 6, 4, -4, 2, 6, -1],
        value: Some(2),
    },
    ChosenRow {
        takes: [[1, 1], [2, 2], [1, 3]],
        needs: [[2, 2], [1, 1], [2, 2]],
        who: [2, 1, 3, 1, 3, 2, 3],
        what: [2, 2, 3, 1, 3, 1, 2],
        cost: [7, 7, 4, 2, 4, 9, 6],
        value: Some(26),
    },
    ChosenRow {
        takes: [[0, 1], [1, 3], [2, 4]],
        needs: [[2, 2], [1, 1], [2, 4]],
        who: [2, 1, 3, 3, 2, 2, 3],
        what: [3, 2, 3, 3, 1, 3, 1],
        cost: [8, -2, 4, 9, 2, 1, 3],
        value: Some(8),
    },
    ChosenRow {
        takes: [[2, 2], [1, 1], [1, 2]],
        needs: [[2, 2], [2, 4], [1, 2]],
        who: [2, 1, 3, 3, 2, 1, 3],
        what: [2, 3, 3, 2, 3, 1, 1],
        cost: [4, 5, -2, 9, -3, 8, 4],
        value: Some(30),
    },
    ChosenRow {
        takes: [[1, 1], [2, 2], [0, 0]],
        needs: [[1, 1], [1, 1], [1, 1]],
        who: [3, 2, 1, 1, 3, 3, 3],
        what: [1, 2, 1, 2, 1, 2, 3],
        cost: [0, 3, 7, 1, 3, 3, -3],
        value: None,
    },
    ChosenRow {
        takes: [[1, 2], [1, 1], [1, 1]],
        needs: [[1, 1], [2, 4], [0, 0]],
        who: [1, 1, 3, 2, 3, 2, 1],
        what: [2, 1, 1, 3, 3, 3, 3],
        cost: [8, 7, 4, 3, -1, 4, 6],
        value: None,
    },
    ChosenRow {
        takes: [[0, 1], [0, 2], [0, 2]],
        needs: [[0, 0], [1, 1], [2, 4]],
        who: [1, 3, 3, 2, 2, 3, 2],
        what: [3, 1, 1, 2, 3, 1, 2],
        cost: [-3, 8, -4, 9, 0, -4, 5],
        value: Some(2),
    },
    ChosenRow {
        takes: [[2, 2], [0, 2], [0, 0]],
        needs: [[0, 0], [2, 4], [0, 0]],
        who: [2, 3, 1, 1, 2, 2, 2],
        what: [1, 1, 3, 2, 3, 3, 3],
        cost: [3, 1, -3, -1, 6, 1, -4],
        value: None,
    },
    ChosenRow {
        takes: [[1, 2], [1, 3], [1, 3]],
        needs: [[0, 0], [1, 3], [0, 1]],
        who: [1, 3, 2, 2, 1, 1, 1],
        what: [3, 3, 3, 2, 3, 2, 1],
        cost: [1, -3, 9, 0, -3, 8, 3],
        value: Some(5),
    },
    ChosenRow {
        takes: [[1, 3], [1, 1], [0, 1]],
        needs: [[0, 0], [0, 0], [0, 1]],
        who: [2, 3, 3, 1, 1, 3, 2],
        what: [1, 3, 2, 1, 3, 1, 3],
        cost: [8, 6, 4, 9, 7, 7, -1],
        value: None,
    },
    ChosenRow {
        takes: [[0, 0], [0, 1], [0, 0]],
        needs: [[1, 2], [2, 3], [2, 3]],
        who: [1, 3, 2, 1, 3, 3, 1],
        what: [3, 3, 3, 1, 3, 2, 1],
        cost: [0, 2, -1, 5, 7, 8, 8],
        value: None,
    },
    ChosenRow {
        takes: [[2, 4], [2, 3], [1, 1]],
        needs: [[2, 2], [2, 2], [1, 1]],
        who: [2, 1, 3, 3, 1, 1, 2],
        what: [3, 1, 3, 3, 2, 2, 2],
        cost: [-2, 1, 3, -2, 5, 3, -1],
        value: None,
    },
    ChosenRow {
        takes: [[2, 4], [0, 1], [1, 1]],
        needs: [[1, 1], [0, 2], [2, 2]],
        who: [1, 3, 2, 1, 1, 1, 2],
        what: [3, 1, 1, 2, 3, 2, 3],
        cost: [8, 0, 9, 6, 3, 8, 9],
        value: Some(11),
    },
    ChosenRow {
        takes: [[0, 0], [1, 3], [1, 2]],
        needs: [[2, 4], [1, 3], [0, 2]],
        who: [2, 3, 2, 3, 3, 3, 2],
        what: [1, 1, 3, 3, 3, 1, 3],
        cost: [9, 4, 2, 7, 7, 0, 7],
        value: None,
    },
    ChosenRow {
        takes: [[0, 1], [1, 3], [2, 3]],
        needs: [[0, 2], [1, 3], [0, 2]],
        who: [3, 2, 1, 3, 1, 1, 2],
        what: [1, 3, 3, 2, 2, 3, 1],
        cost: [-2, 4, 7, -2, 7, -3, 2],
        value: Some(-5),
    },
    ChosenRow {
        takes: [[1, 3], [0, 0], [2, 2]],
        needs: [[2, 3], [0, 0], [0, 2]],
        who: [2, 1, 1, 3, 1, 1, 3],
        what: [2, 1, 1, 1, 3, 2, 3],
        cost: [9, 7, 5, 3, 1, 6, 9],
        value: Some(17),
    },
];

// Returns the ranges with these ends.
fn ranges_of(alloc: Global, ends: &[[u32; 2]; 3]) -> Result<Vec<Range>, NoMemory> {
    let mut ranges = Vec::new(alloc);
    for [least, most] in ends {
        ranges.push(Range {
            least: *least,
            most: *most,
        })?;
    }
    Ok(ranges)
}

// Returns the pairs of a row.
fn pairs_of(alloc: Global, row: &ChosenRow) -> Result<Vec<Pair>, NoMemory> {
    let mut pairs = Vec::new(alloc);
    for place in 0..7usize {
        pairs.push(Pair {
            who: row.who[place],
            what: row.what[place],
            cost: row.cost[place],
        })?;
    }
    Ok(pairs)
}

// Returns whether the answer for a row has the value of the row, or is that there is no choice.
fn is_as_said(alloc: Global, row: &ChosenRow) -> Result<bool, NoMemory> {
    let takes = ranges_of(alloc, &row.takes)?;
    let needs = ranges_of(alloc, &row.needs)?;
    let pairs = pairs_of(alloc, row)?;
    let Ok(roster) = Roster::of(takes, needs, pairs) else {
        return Ok(false);
    };
    let mut engine = Engine {
        choice: Choice::default(),
    };
    match least(alloc, &mut engine, &roster)? {
        RosterAnswer::Least(found) => Ok(row.value == Some(found.value)),
        RosterAnswer::NoChoice(_) => Ok(row.value.is_none()),
        RosterAnswer::Beyond(_) => Ok(false),
    }
}

#[test]
fn six_rosters_chosen(rt: HostRuntime) -> Result<(), Fail> {
    let rows = ROWS;
    for row in &rows[..6] {
        let fits = is_as_said(rt.alloc(), row)?;
        assert!(rt; fits);
    }
    Ok(())
}

#[test]
fn choices_cost_what_trying_all_finds(rt: HostRuntime) -> Result<(), Fail> {
    let rows = ROWS;
    for row in &rows[6..] {
        let fits = is_as_said(rt.alloc(), row)?;
        assert!(rt; fits);
    }
    Ok(())
}
