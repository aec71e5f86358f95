//! Tests of answers to tables of persons and things as texts.
use mcf_choice::Choice;
use mcf_pair_tables::{CostTexts, Each, Options};
use mcf_pair_text::{PlanText, TextKind, pair_text};
use mcf_planner::Planner as Engine;
use mcf_text::NoMemory;
use std::alloc::Global;
use std::test::Fail;

// Nothing is named.
const PLAIN: Options = Options {
    mark: None,
    each: None,
    maximise: false,
};

// Costs are values, of which each person gets one.
const VALUES: Options = Options {
    mark: None,
    each: Some(Each::Who),
    maximise: true,
};

// A table, what is asked, the kind of the answer, and its text.
type TextRow = (&'static [u8], Options, TextKind, &'static [u8]);

static ROWS: [TextRow; 9] = [
    (
        b",X,Y\nA,1,5\n\nB,1,\n",
        PLAIN,
        TextKind::Plan,
        b"\"answer\",\"plan\"\n\"cost\",\"6\"\n\"persons\",\"2\"\n\"things\",\"2\"\n\
\"pair\",\"2\",\"3\",\"A\",\"Y\",\"5\"\n\"pair\",\"4\",\"2\",\"B\",\"X\",\"1\"\n\
\"person\",\"2\",\"A\"\n\"person\",\"4\",\"B\"\n\
\"thing\",\"1\",\"X\"\n\"thing\",\"1\",\"Y\"\n",
    ),
    (
        b"who;what;cost\nA;\"X \"\"1\"\"\";0,50\nB;Y;2\n",
        PLAIN,
        TextKind::Plan,
        b"\"answer\",\"plan\"\n\"cost\",\"2.5\"\n\"persons\",\"2\"\n\"things\",\"2\"\n\
\"pair\",\"2\",\"\",\"A\",\"X \"\"1\"\"\",\"0.5\"\n\"pair\",\"3\",\"\",\"B\",\"Y\",\"2\"\n\
\"person\",\"2\",\"A\"\n\"person\",\"3\",\"B\"\n\
\"thing\",\"2\",\"X \"\"1\"\"\"\n\"thing\",\"3\",\"Y\"\n",
    ),
    (
        b",X,Y\nA,1,2.5\nB,3,3.5\n",
        VALUES,
        TextKind::Plan,
        b"\"answer\",\"plan\"\n\"cost\",\"5.5\"\n\"persons\",\"2\"\n\"things\",\"2\"\n\
\"pair\",\"2\",\"3\",\"A\",\"Y\",\"2.5\"\n\"pair\",\"3\",\"2\",\"B\",\"X\",\"3\"\n\
\"person\",\"2\",\"A\"\n\"person\",\"3\",\"B\"\n\
\"thing\",\"1\",\"X\"\n\"thing\",\"1\",\"Y\"\n",
    ),
    (
        b"who,what,cost\nA,X,1\nB,X,1\n",
        PLAIN,
        TextKind::NoPlan,
        b"\"answer\",\"no plan\"\n\"side\",\"send\"\n\"persons\",\"2\"\n\"things\",\"1\"\n\
\"person\",\"2\",\"A\",\"1\"\n\"person\",\"3\",\"B\",\"1\"\n\"thing\",\"2\",\"X\",\"1\"\n",
    ),
    (
        b",X\nA,1\nB,1\n",
        PLAIN,
        TextKind::NoPlan,
        b"\"answer\",\"no plan\"\n\"side\",\"send\"\n\"persons\",\"2\"\n\"things\",\"1\"\n\
\"person\",\"2\",\"A\",\"1\"\n\"person\",\"3\",\"B\",\"1\"\n\"thing\",\"1\",\"X\",\"1\"\n",
    ),
    (
        b",X,Y,takes\nA,1,2.5,0..9\nB,3,4,0..1\nneeds,2,2,\n",
        PLAIN,
        TextKind::NoPlan,
        b"\"answer\",\"no plan\"\n\"side\",\"take\"\n\"persons\",\"2\"\n\"things\",\"2\"\n\
\"person\",\"3\",\"B\",\"1\"\n\"thing\",\"1\",\"X\",\"2\"\n\"thing\",\"1\",\"Y\",\"2\"\n\
\"pair\",\"2\",\"2\",\"A\",\"X\",\"1\"\n\"pair\",\"2\",\"3\",\"A\",\"Y\",\"2.5\"\n",
    ),
    (
        b"Who,what,cost\nA,,y\nB,X,1,7\n",
        PLAIN,
        TextKind::Faults,
        b"\"answer\",\"faults\"\n\"fault\",\"costs\",\"3\",\"4\",\"beyond the last head\",\"7\"\n\
\"fault\",\"costs\",\"2\",\"what\",\"empty name\",\"\"\n\"fault\",\"costs\",\"2\",\"cost\",\"no number\",\"y\"\n",
    ),
    (
        b",X,Y\nA,1,1000000000000001\n",
        PLAIN,
        TextKind::Faults,
        b"\"answer\",\"faults\"\n\"fault\",\"costs\",\"2\",\"3\",\"beyond the limits\",\"1000000000000001\"\n",
    ),
    (
        b"who,what\nA,X\n",
        PLAIN,
        TextKind::Faults,
        b"\"answer\",\"faults\"\n\"fault\",\"costs\",\"1\",\"cost\",\"no such column\",\"\"\n",
    ),
];

// The text of the answer to a text.
fn text_for(alloc: Global, text: &[u8], options: Options) -> Result<PlanText, NoMemory> {
    let mut engine = Engine {
        choice: Choice::default(),
    };
    let texts = CostTexts {
        costs: text,
        fill_down: &[],
    };
    pair_text(alloc, &mut engine, texts, options)
}

// The part of a text after so many bytes; nothing if it is shorter.
fn after(text: &[u8], count: usize) -> &[u8] {
    if count < text.len() {
        &text[count..]
    } else {
        &[]
    }
}

// Whether a text has these rows, and then the table.
fn has_rows(told: &PlanText, rows: &[u8]) -> bool {
    let rest = after(&told.text, rows.len());
    told.text.starts_with(rows) && rest.starts_with(b"\"mark\",")
}

#[test]
fn answers_to_pairs_are_told(rt: HostRuntime) -> Result<(), Fail> {
    for (text, options, kind, want) in ROWS {
        let told = text_for(rt.alloc(), text, options)?;
        assert!(rt; told.kind == kind && has_rows(&told, want));
    }
    Ok(())
}

// A table, what is asked, and the end of the text of the answer.
type EndRow = (&'static [u8], Options, &'static [u8]);

static ENDS: [EndRow; 4] = [
    (
        b",X,Y\nA,1,2.5\n\nB,1,\n",
        PLAIN,
        b"\"mark\",\".\"\n\"heads\",\"costs\",\"1\",\"\",\"X\",\"Y\"\n\
\"row\",\"costs\",\"2\",\"A\",\"1\",\"2.5\"\n\"row\",\"costs\",\"4\",\"B\",\"1\",\"\"\n",
    ),
    (
        b"who;what;cost;note\nA;\"X \"\"1\"\"\";0,50;late\nB;Y;2\n",
        PLAIN,
        b"\"mark\",\",\"\n\"heads\",\"costs\",\"1\",\"who\",\"what\",\"cost\",\"note\"\n\
\"row\",\"costs\",\"2\",\"A\",\"X \"\"1\"\"\",\"0,50\",\"late\"\n\
\"row\",\"costs\",\"3\",\"B\",\"Y\",\"2\"\n",
    ),
    (
        b",X\nA,1\nB,1\n",
        PLAIN,
        b"\"mark\",\"\"\n\"heads\",\"costs\",\"1\",\"\",\"X\"\n\
\"row\",\"costs\",\"2\",\"A\",\"1\"\n\"row\",\"costs\",\"3\",\"B\",\"1\"\n",
    ),
    (
        b"Who,what,cost\nA,,0.5\n",
        PLAIN,
        b"\"mark\",\"\"\n\"heads\",\"costs\",\"1\",\"Who\",\"what\",\"cost\"\n\
\"row\",\"costs\",\"2\",\"A\",\"\",\"0.5\"\n",
    ),
];

#[test]
fn tables_end_answers_to_pairs(rt: HostRuntime) -> Result<(), Fail> {
    for (text, options, end) in ENDS {
        let told = text_for(rt.alloc(), text, options)?;
        assert!(rt; told.text.ends_with(end));
    }
    Ok(())
}

#[test]
fn texts_that_are_no_table_are_told(rt: HostRuntime) -> Result<(), Fail> {
    let told = text_for(rt.alloc(), b",X\nA,\"1", PLAIN)?;
    let want = b"\"answer\",\"faults\"\n\"fault\",\"costs\",\"2\",\"\",\"quote not closed\",\"\"\n";
    assert!(rt; told.text.as_slice() == want.as_slice());
    Ok(())
}

#[test]
fn totals_of_pairs_are_left_out(rt: HostRuntime) -> Result<(), Fail> {
    let told = text_for(
        rt.alloc(),
        b"who,what,cost\nA,X,1\nB,Y,2\nTotal,,3\n",
        PLAIN,
    )?;
    assert!(rt; told.kind == TextKind::Plan);
    assert!(rt;
        told.text
            .ends_with(b"\"2\"\n\"left out\",\"costs\",\"4\"\n")
    );
    Ok(())
}

#[test]
fn wishes_of_pupils_are_told(rt: HostRuntime) -> Result<(), Fail> {
    let text = b"Sports\npupil,who,first,second,needs\n1,Ann,Yoga,Chess,0..2\n2,Bea,Yoga\n\
        3,Cem,Yoga,Chess\n";
    let told = text_for(rt.alloc(), text, PLAIN)?;
    assert!(rt; told.kind == TextKind::Plan);
    assert!(rt;
        told.text
            .ends_with(b"\"0..2\"\n\"wishes\",\"costs\",\"5\",\"0..2\"\n")
    );
    Ok(())
}
