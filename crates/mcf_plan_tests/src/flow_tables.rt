//! Plans for the texts of two tables, by the engine of the suite.
use mcf_choice::Choice;
use mcf_decimal::Mark;
use mcf_flow_tables::{
    Broken, Done, FlowAnswer, Options, ProblemAnswer, SaidTables, TableAnswer, Texts, plan_tables,
};
use mcf_forms::Filling;
use mcf_places::{LeastPlannerPlan, Origin, PlannerAnswer};
use mcf_planner::Planner as Engine;
use mcf_reading::{ColumnAt, Fault, FaultKind, Head, Location, Table};
use mcf_table::{FieldFault, TextFault};
use mcf_text::NoMemory;
use mcf_units::{Scales, Terms};
use std::alloc::Global;
use std::test::Fail;

const PLACES: &[u8] = b"sep=;\nTwo mills\nname;supply\nMill;12,5\nGraz;\nWien;-14\n";

const ROUTES: &[u8] =
    b"from,to,most,cost,most 2,cost 2\nMill,Graz,10,\"1,5\",,2\nGraz,Wien,,\"0,25\",,\n";

const OPTIONS: Options = Options {
    mark: Some(Mark::Comma),
    terms: Terms {
        unused: false,
        short: true,
        penalty: None,
    },
};

// The answer to texts.
fn answer_for(alloc: Global, texts: Texts<'_>) -> Result<FlowAnswer, NoMemory> {
    let mut engine = Engine {
        choice: Choice::default(),
    };
    plan_tables(alloc, &mut engine, texts, OPTIONS)
}

// The answer to two texts.
fn answer_to(alloc: Global, places: &[u8], routes: &[u8]) -> Result<FlowAnswer, NoMemory> {
    let texts = Texts {
        places,
        routes,
        fill_down: &[],
    };
    answer_for(alloc, texts)
}

// Whether a plan is that of the tables, in tenths of a unit and hundredths of a cost: 10 units at
// 1.5 and 2.5 at 2, then all at 0.25, and 1.5 are missing.
fn is_plan(found: &LeastPlannerPlan) -> bool {
    let (carries, missing) = ([125i128, 125], [0i128, 0, 15]);
    found.plan.carries.as_slice() == carries.as_slice()
        && found.plan.missing.as_slice() == missing.as_slice()
        && found.cost == 10 * 10 * 150 + 25 * 200 + 125 * 25
}

// Whether the tables have the plan, and their rows know their lines.
fn is_solved(said: &SaidTables) -> bool {
    let scales = Scales {
        amounts: 1,
        costs: 2,
    };
    let has_lines = said.places.len() == 4 && said.places.line(1) == 4;
    match &said.answer {
        TableAnswer::Problem(ProblemAnswer::Solved(solved)) => match &solved.answer {
            PlannerAnswer::Least(found) => {
                has_lines && solved.scales == scales && is_plan(found)
            }
            _ => false,
        },
        _ => false,
    }
}

// Whether the texts are tables, and these have the plan.
fn is_planned(answer: &FlowAnswer) -> bool {
    match answer {
        FlowAnswer::Tables(said) => is_solved(said),
        _ => false,
    }
}

#[test]
fn tables_have_a_least_plan(rt: HostRuntime) -> Result<(), Fail> {
    let answer = answer_to(rt.alloc(), PLACES, ROUTES)?;
    assert!(rt; is_planned(&answer));
    Ok(())
}

const TOTALLED: &[u8] = b"name;supply\nMill;12,5\nWien;-12,5\nTotal;0\n";

const MATRIX: &[u8] = b"to;Mill;Wien\nMill;-;1,5\n\nWien;2;\n";

// Whether the tables have a plan of this cost, in hundredths, whose last route stands on this line.
fn is_planned_at(said: &SaidTables, cost: i128, line: usize) -> bool {
    let count = said.routes.len();
    if count == 0 || said.routes.line(count - 1) != line {
        return false;
    }
    match &said.answer {
        TableAnswer::Problem(ProblemAnswer::Solved(solved)) => match &solved.answer {
            PlannerAnswer::Least(found) => found.cost == cost,
            _ => false,
        },
        _ => false,
    }
}

#[test]
fn a_matrix_is_a_list_and_totals_are_left_out(rt: HostRuntime) -> Result<(), Fail> {
    match answer_to(rt.alloc(), TOTALLED, MATRIX)? {
        FlowAnswer::Tables(said) => {
            let done = Done {
                list: Some(2),
                place_total: Some(4),
                route_total: None,
            };
            assert!(rt; said.done == done);
            assert!(rt; is_planned_at(&said, 125 * 15, 4));
        }
        _ => assert!(rt; false),
    }
    Ok(())
}

// Whether the routes have one column that was filled down, with one cell that took another.
fn is_filled(said: &SaidTables) -> bool {
    let column = Filling { place: 0, count: 1 };
    said.filled.places.is_empty() && said.filled.routes.as_slice() == [column].as_slice()
}

#[test]
fn columns_are_filled_down(rt: HostRuntime) -> Result<(), Fail> {
    let texts = Texts {
        places: b"name;supply\nMill;12,5\nGraz;-2,5\nWien;-10\n",
        routes: b"from;to;most;cost\nMill;Graz;;1\n;Wien;;2\n",
        fill_down: b"FROM",
    };
    match answer_for(rt.alloc(), texts)? {
        FlowAnswer::Tables(said) => {
            assert!(rt; is_filled(&said) && is_planned_at(&said, 25 + 200, 3));
        }
        _ => assert!(rt; false),
    }
    Ok(())
}

#[test]
fn columns_that_are_not_there_are_told(rt: HostRuntime) -> Result<(), Fail> {
    let texts = Texts {
        places: PLACES,
        routes: ROUTES,
        fill_down: b"from\nvia\nname\nkind",
    };
    match answer_for(rt.alloc(), texts)? {
        FlowAnswer::NoColumns(numbers) => assert!(rt; numbers.as_slice() == [2, 4].as_slice()),
        _ => assert!(rt; false),
    }
    Ok(())
}

// The faults of texts, if they are no tables.
fn broken(answer: &FlowAnswer) -> Option<Broken> {
    match answer {
        FlowAnswer::NoTables(found) => Some(*found),
        _ => None,
    }
}

#[test]
fn broken_texts_are_told(rt: HostRuntime) -> Result<(), Fail> {
    let answer = answer_to(rt.alloc(), PLACES, b"from,to,most,cost\n\"Mill,Graz,1,1\n")?;
    let fault = TextFault {
        line: 2,
        kind: FieldFault::Unclosed,
    };
    let want = Broken {
        places: None,
        routes: Some(fault),
    };
    assert!(rt; broken(&answer) == Some(want));
    Ok(())
}

// Whether the tables have this fault alone.
fn is_fault(answer: &FlowAnswer, fault: Fault) -> bool {
    match answer {
        FlowAnswer::Tables(said) => match &said.answer {
            TableAnswer::Faults(faults) => faults.list() == [fault].as_slice(),
            TableAnswer::Problem(_) | TableAnswer::Periods(_) => false,
        },
        _ => false,
    }
}

#[test]
fn faults_of_tables_are_told(rt: HostRuntime) -> Result<(), Fail> {
    let answer = answer_to(rt.alloc(), PLACES, b"from,to,most,cost\nMill,Linz,1,1\n")?;
    let at = Location {
        table: Table::Routes,
        row: 1,
        column: ColumnAt::Under(Head::To),
    };
    let kind = FaultKind::NoPlace;
    assert!(rt; is_fault(&answer, Fault { at, kind }));
    Ok(())
}

// Where a number beyond the limits comes from, if that is the answer.
fn origin_of(answer: &FlowAnswer) -> Option<Origin> {
    match answer {
        FlowAnswer::Tables(said) => match &said.answer {
            TableAnswer::Problem(ProblemAnswer::Solved(solved)) => solved.origin,
            _ => None,
        },
        _ => None,
    }
}

#[test]
fn numbers_beyond_the_limits_have_an_origin(rt: HostRuntime) -> Result<(), Fail> {
    let routes = b"from,to,most,cost\nMill,Graz,20,1\nGraz,Wien,200000000000000000,1\n";
    let answer = answer_to(rt.alloc(), PLACES, routes)?;
    assert!(rt; origin_of(&answer) == Some(Origin::OfRoute(2)));
    Ok(())
}
