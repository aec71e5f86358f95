//! Tests of answers to tables of persons and things with tables of groups.
use mcf_choice::Choice;
use mcf_pair_tables::{
    AtCrossing, GroupTableAnswer, GroupTexts, GroupedChoice, GroupsAnswer, Options, SetsAnswer,
    plan_groups,
};
use mcf_pair_text::{PlanText, TextKind, group_text};
use mcf_planner::Planner as Engine;
use mcf_text::NoMemory;
use std::alloc::Global;
use std::test::Fail;

// Nothing is named.
const PLAIN: Options = Options {
    mark: None,
    each: None,
    maximise: false,
};

// Costs, groups, what happens where these cross, the kind of the answer, and how its text begins.
type TextRow = (
    &'static [u8],
    &'static [u8],
    AtCrossing,
    TextKind,
    &'static [u8],
);

static ROWS: [TextRow; 6] = [
    (
        b"who,what,cost,takes\nA,X,1,2\nA,Y,2,\nB,X,3,2\nB,Y,5,\n",
        b"group,what,most\nday,X,1\nday,Y,\n",
        AtCrossing::Refuse,
        TextKind::Plan,
        b"\"answer\",\"plan\"\n\"cost\",\"5\"\n\"persons\",\"2\"\n\"things\",\"2\"\n\
\"pair\",\"3\",\"\",\"A\",\"Y\",\"2\"\n\"pair\",\"4\",\"\",\"B\",\"X\",\"3\"\n\
\"person\",\"2\",\"A\"\n\"person\",\"4\",\"B\"\n\"thing\",\"2\",\"X\"\n\"thing\",\"3\",\"Y\"\n\
\"group\",\"2\",\"day\",\"person\",\"A\",\"1\"\n\"group\",\"2\",\"day\",\"person\",\"B\",\"1\"\n\
\"mark\",\"\"\n\"heads\",\"costs\",\"1\",\"who\",\"what\",\"cost\",\"takes\"\n",
    ),
    (
        b"who,what,cost,takes\nA,X,1,3\nA,Y,1,\nA,Z,1,\n",
        b"group,what,most\na,X,2\na,Y,\nb,Y,1\nb,Z,\n",
        AtCrossing::Refuse,
        TextKind::Faults,
        b"\"answer\",\"faults\"\n\
\"fault\",\"groups\",\"4\",\"group\",\"crosses another group\",\"b\"\n\
\"crossing\",\"4\",\"b\",\"a\"\n\"mark\",\"\"\n",
    ),
    (
        b"who,what,cost,takes\nA,X,1,3\nA,Y,1,\nA,Z,1,\n",
        b"group,what,most\na,X,2\na,Y,\nb,Y,1\nb,Z,\n",
        AtCrossing::Check,
        TextKind::Plan,
        b"\"answer\",\"plan\"\n\"cost\",\"3\"\n\"persons\",\"1\"\n\"things\",\"3\"\n\
\"pair\",\"2\",\"\",\"A\",\"X\",\"1\"\n\"pair\",\"3\",\"\",\"A\",\"Y\",\"1\"\n\
\"pair\",\"4\",\"\",\"A\",\"Z\",\"1\"\n\"person\",\"2\",\"A\"\n\
\"thing\",\"2\",\"X\"\n\"thing\",\"3\",\"Y\"\n\"thing\",\"4\",\"Z\"\n\
\"group\",\"2\",\"a\",\"person\",\"A\",\"2\"\n\"group\",\"4\",\"b\",\"person\",\"A\",\"2\"\n\
\"crossing\",\"4\",\"b\",\"a\"\n\"broken\",\"4\",\"b\",\"person\",\"A\",\"2\"\n",
    ),
    (
        b"who,what,cost\nA,X,1\n",
        b"group,what,min\nday,Q,1\n",
        AtCrossing::Check,
        TextKind::Faults,
        b"\"answer\",\"faults\"\n\"fault\",\"groups\",\"1\",\"min\",\"nearly least\",\"min\"\n",
    ),
    (
        b"who,what,cost\nA,X,1\n",
        b"group,what\nday,Q\n",
        AtCrossing::Check,
        TextKind::Faults,
        b"\"answer\",\"faults\"\n\"fault\",\"groups\",\"2\",\"what\",\"not in the costs\",\"Q\"\n",
    ),
    (
        b"who,what,cost\nA,X,1\nB,X,1\n",
        b"group,who,least\nskill,B,1\n",
        AtCrossing::Check,
        TextKind::NoPlan,
        b"\"answer\",\"no plan\"\n",
    ),
];

// The answer to two texts as text.
fn told(alloc: Global, row: TextRow) -> Result<PlanText, NoMemory> {
    let mut engine = Engine {
        choice: Choice::default(),
    };
    let texts = GroupTexts {
        costs: row.0,
        groups: row.1,
        fill_down: &[],
    };
    group_text(alloc, &mut engine, texts, PLAIN, row.2)
}

#[test]
fn groups_are_told(rt: HostRuntime) -> Result<(), Fail> {
    for row in ROWS {
        let text = told(rt.alloc(), row)?;
        assert!(rt; text.kind == row.3);
        assert!(rt; text.text.starts_with(row.4));
    }
    Ok(())
}

// Whether groups cross, and that is refused.
fn is_refused(answer: &GroupsAnswer) -> bool {
    match answer {
        GroupsAnswer::Tables(said) => is_refused_in(&said.answer),
        _ => false,
    }
}

// The same for the answer to the rows of two tables.
fn is_refused_in(answer: &GroupTableAnswer) -> bool {
    match answer {
        GroupTableAnswer::Choice(GroupedChoice::Grouped(made)) => {
            match &made.answer {
                SetsAnswer::Crossing => made.crossings.len() == 1,
                _ => false,
            }
        }
        _ => false,
    }
}

#[test]
fn groups_that_cross_are_refused(rt: HostRuntime) -> Result<(), Fail> {
    let mut engine = Engine {
        choice: Choice::default(),
    };
    let texts = GroupTexts {
        costs: ROWS[1].0,
        groups: ROWS[1].1,
        fill_down: b"what",
    };
    let answer = plan_groups(rt.alloc(), &mut engine, texts, PLAIN, AtCrossing::Refuse)?;
    assert!(rt; is_refused(&answer));
    Ok(())
}
