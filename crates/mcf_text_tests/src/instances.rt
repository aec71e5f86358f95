//! Texts, and what they stand for.
use mcf_checker::{Verdict, check};
use mcf_instance::{Arc, Code, Instance, Problem, former_instances_stay, read};
use mcf_text::{ArcId, NoMemory, NodeId, copies};
use std::alloc::Global;
use std::test::Fail;

/// The instance of a text, if that is one.
pub fn instance_of(alloc: Global, text: &[u8]) -> Result<Option<Instance>, NoMemory> {
    match read(alloc, text)? {
        Ok(instance) => Ok(Some(instance)),
        Err(_) => Ok(None),
    }
}

// Whether a text is refused at a line for what this word says.
fn is_refused(alloc: Global, text: &[u8], line: u128, word: &str) -> Result<bool, NoMemory> {
    let Err(refusal) = read(alloc, text)? else {
        return Ok(false);
    };
    let is_word = refusal.code.word() == word;
    let is_code = Code::of(word.as_bytes()) == Some(refusal.code);
    Ok(refusal.line == line && is_word && is_code)
}

/// The ends of an arc, its least and its greatest flow, and its cost.
pub type Row = (u32, u32, i128, i128, i128);

// The arc of a row.
fn arc_of(row: Row) -> Arc {
    let (src, dst, low, cap, cost) = row;
    Arc {
        src: NodeId::new(src),
        dst: NodeId::new(dst),
        low,
        cap,
        cost,
    }
}

/// Whether these are the arcs.
pub fn has_arcs(instance: &Instance, arcs: &[Row]) -> bool {
    if arcs.len() != instance.arc_count() as usize {
        return false;
    }
    for place in 0..instance.arc_count() {
        let Some(row) = arcs.get(place as usize) else {
            return false;
        };
        if instance.arc(ArcId::new(place + 1)) != arc_of(*row) {
            return false;
        }
    }
    true
}

/// Whether these are the supplies of the nodes.
pub fn has_supplies(instance: &Instance, supplies: &[i128]) -> bool {
    if supplies.len() != instance.node_count() as usize {
        return false;
    }
    for place in 0..instance.node_count() {
        let Some(supply) = supplies.get(place as usize) else {
            return false;
        };
        if instance.supply(NodeId::new(place + 1)) != *supply {
            return false;
        }
    }
    true
}

// Whether a text is an instance of a problem with nodes of these supplies and these arcs.
fn is_instance(
    alloc: Global,
    text: &[u8],
    problem: Problem,
    supplies: &[i128],
    arcs: &[Row],
) -> Result<bool, NoMemory> {
    let Some(instance) = instance_of(alloc, text)? else {
        return Ok(false);
    };
    let is_problem = instance.problem() == problem;
    let are_supplies = has_supplies(&instance, supplies);
    let are_arcs = has_arcs(&instance, arcs);
    Ok(is_problem && are_supplies && are_arcs)
}

pub static FAULTY_TEXTS: [(&[u8], u128, &str); 44] = [
    (b"", 1, "no-p"),
    (b"c hello\n", 2, "no-p"),
    (b" \t\n\r\n  ", 4, "no-p"),
    (b"x 1\n", 1, "kind"),
    (b"p\x0cmin 2 0\n", 1, "kind"),
    (b"p min 2 0\n\xff\n", 2, "kind"),
    (b"p max 2 1 9\n", 1, "fields"),
    (b"p max q 1\n", 1, "problem"),
    (b"p min 2 1x\n", 1, "number"),
    (b"p min 2 -\n", 1, "number"),
    (b"p min 2 1\na 1 2 0 1 \x00\n", 2, "number"),
    (b"p min 2 1\na 1 2 0 1\x00 0\n", 2, "number"),
    (b"p min 2 1\na 1 2 0 1 \x00 0\n", 2, "fields"),
    (b"n 1 5\n", 1, "before-p"),
    (b"n 1\n", 1, "before-p"),
    (b"n 1 2 3\n", 1, "fields"),
    (b"n 1 q\n", 1, "number"),
    (b"p min 1000001 0\n", 1, "size"),
    (b"p min -1 0\n", 1, "size"),
    (b"p min 1 0\np min 1 0\n", 2, "second-p"),
    (b"p min 2 1\nn 1\n", 2, "fields"),
    (b"p min 2 1\na 1 3 0 1 1\n", 2, "node"),
    (b"p min 2 1\na 1 3 5 1 0\n", 2, "node"),
    (b"p min 2 0\nn 1 5\nn +01 5\n", 3, "twice"),
    (b"p min 2 1\nn 1 1000000000000000001\n", 2, "supply"),
    (b"p min 2 1\nn 1 -1000000000000000001\n", 2, "supply"),
    (b"p min 2 1\nn 1 1000000000000001\n", 3, "missing"),
    (b"p min 2 1\na 1 2 0 1000000000000000001 0\n", 2, "bound"),
    (b"p min 2 1\na 1 2 -1000000000000000001 0 0\n", 2, "bound"),
    (
        b"p min 2 1\na 1 2 0 1111111111111111111111111111111111111111 0\n",
        2,
        "bound",
    ),
    (b"p min 2 1\na 1 2 5 1 0\n", 2, "order"),
    (b"p min 2 1\na 1 2 0 1 -1000000000000001\n", 2, "cost"),
    (b"p min 2 0\na 1 2 0 1 0\n", 2, "extra"),
    (b"p asn 2 1\nn 1\na 2 1 5\n", 3, "side"),
    (b"p asn 2 1\nn 1\na 1 1 5\n", 3, "side"),
    (b"p min 2 1\na 1 2 0 1 0\nc\na 1 2 0 1 0\n", 4, "extra"),
    (b"p asn 2 0\nn 1 5\n", 2, "fields"),
    (b"p asn 2 1\nn 1\nn 1\n", 3, "twice"),
    (b"p asn 2 1\na 1 2 5\n", 2, "side"),
    (b"p asn 2 1\nn 1\na 1 2 1000000000000001\n", 3, "cost"),
    (b"p min 2 1\na 1 2 -3 -3 1\nn 1 -3\n", 3, "late-n"),
    (b"p min 2 2\na 1 2 0 1 1\n", 3, "missing"),
    (b"p min 1000000 10000000\n", 2, "missing"),
    (b"p min 2 1\nx\nn 1\n", 2, "kind"),
];

#[test]
fn faulty_texts_are_refused(rt: HostRuntime) -> Result<(), Fail> {
    assert!(rt; Code::of(b"bounds").is_none());
    for (text, line, word) in FAULTY_TEXTS.iter() {
        assert!(rt; is_refused(rt.alloc(), text, *line, word)?);
    }
    Ok(())
}

// Whether the checker accepts the refusal of a text that names this line and this word.
fn is_refusal_accepted(
    alloc: Global,
    text: &[u8],
    line: u128,
    word: &str,
) -> Result<bool, NoMemory> {
    let answer = format!(in alloc; "r {line} {word}\n")?;
    let verdict = check(alloc, text, answer.as_bytes())?;
    Ok(matches!(verdict, Verdict::Refused(_)))
}

#[test]
fn refusals_of_faulty_texts_are_accepted(rt: HostRuntime) -> Result<(), Fail> {
    for (text, line, word) in FAULTY_TEXTS.iter() {
        assert!(rt; is_refusal_accepted(rt.alloc(), text, *line, word)?);
    }
    Ok(())
}

static FOUR_NODES: [Row; 5] = [
    (1, 2, 0, 4, 2),
    (1, 3, 0, 2, 2),
    (2, 3, 0, 2, 1),
    (2, 4, 0, 3, 3),
    (3, 4, 0, 5, 1),
];

#[test]
fn four_nodes_and_five_arcs(rt: HostRuntime) -> Result<(), Fail> {
    let text =
        b"p min 4 5\nn 1 4\nn 4 -4\na 1 2 0 4 2\na 1 3 0 2 2\na 2 3 0 2 1\na 2 4 0 3 3\na 3 4 0 5 1\n";
    let supplies = [4, 0, 0, -4];
    assert!(rt; is_instance(rt.alloc(), text, Problem::Min, &supplies, &FOUR_NODES)?);
    Ok(())
}

static LOOP_AND_PARALLELS: [Row; 4] = [
    (1, 1, 0, 7, -3),
    (1, 2, -3, -3, 1),
    (1, 2, -3, -3, 1),
    (1, 2, -3, 4, 0),
];

#[test]
fn loops_and_parallel_arcs_are_kept(rt: HostRuntime) -> Result<(), Fail> {
    let text =
        b"p min 2 4\nn 1 -3\nn 2 3\na 1 1 0 7 -3\na 1 2 -3 -3 1\na 1 2 -3 -3 1\na 1 2 -3 4 0\n";
    let supplies = [-3, 3];
    assert!(rt;
        is_instance(
            rt.alloc(),
            text,
            Problem::Min,
            &supplies,
            &LOOP_AND_PARALLELS
        )?
    );
    Ok(())
}

static TWO_SIDES: [Row; 4] = [
    (1, 2, 0, 1, 5),
    (1, 4, 0, 1, 2),
    (3, 2, 0, 1, -1),
    (3, 4, 0, 1, 7),
];

#[test]
fn assignments_have_two_sides(rt: HostRuntime) -> Result<(), Fail> {
    let text = b"p asn 4 4\nn 1\nn 3\na 1 2 5\na 1 4 2\na 3 2 -1\na 3 4 7\n";
    let supplies = [1, -1, 1, -1];
    assert!(rt; is_instance(rt.alloc(), text, Problem::Asn, &supplies, &TWO_SIDES)?);
    Ok(())
}

// Texts of arcs with low 0 and cap 1 that one with other bounds ends, or none, and the arcs of
// each.
static UNIT_ARCS: [(&[u8], &[Row]); 4] = [
    (
        b"p min 2 3\na 1 2 0 1 9\na 2 1 0 1 -9\na 2 2 0 1 0\n",
        &[(1, 2, 0, 1, 9), (2, 1, 0, 1, -9), (2, 2, 0, 1, 0)],
    ),
    (
        b"p min 2 4\na 1 2 0 1 9\na 2 1 0 1 -9\na 2 2 0 2 0\na 1 2 0 1 8\n",
        &[
            (1, 2, 0, 1, 9),
            (2, 1, 0, 1, -9),
            (2, 2, 0, 2, 0),
            (1, 2, 0, 1, 8),
        ],
    ),
    (
        b"p min 2 3\na 1 2 0 1 9\na 2 1 -1 1 -9\na 1 1 0 0 8\n",
        &[(1, 2, 0, 1, 9), (2, 1, -1, 1, -9), (1, 1, 0, 0, 8)],
    ),
    (
        b"p min 2 2\na 1 2 1 1 9\na 2 1 0 1 -9\n",
        &[(1, 2, 1, 1, 9), (2, 1, 0, 1, -9)],
    ),
];

#[test]
fn unit_arcs_before_and_after_others(rt: HostRuntime) -> Result<(), Fail> {
    for (text, arcs) in &UNIT_ARCS {
        assert!(rt; is_instance(rt.alloc(), text, Problem::Min, &[0, 0], arcs)?);
    }
    Ok(())
}

static ONE_ARC: [Row; 1] = [(1, 2, 0, 4, 7)];

#[test]
fn every_leniency(rt: HostRuntime) -> Result<(), Fail> {
    let text = b"c sample\r\n\r\n\tp min 2 1\r\nn 01 +3\nn 2 -003\na 1 2 0 4 7";
    assert!(rt; is_instance(rt.alloc(), text, Problem::Min, &[3, -3], &ONE_ARC)?);
    Ok(())
}

#[test]
fn instances_without_nodes(rt: HostRuntime) -> Result<(), Fail> {
    assert!(rt; is_instance(rt.alloc(), b"p min 0 0\n", Problem::Min, &[], &[])?);
    assert!(rt; is_instance(rt.alloc(), b"p asn 0 0", Problem::Asn, &[], &[])?);
    Ok(())
}

// A text of one arc, whose cap is a million times this digit and then a 4.
fn text_of_long_cap(alloc: Global, digit: u8) -> Result<Vec<u8>, NoMemory> {
    let mut text = b"p min 2 1\na 1 2 0 ".to_vec(alloc)?;
    for _ in 0..1_000_000 {
        text.push(digit)?;
    }
    text.extend_from_slice(b"4 7\n")?;
    Ok(text)
}

#[test]
fn numbers_of_a_million_digits(rt: HostRuntime) -> Result<(), Fail> {
    let nines = text_of_long_cap(rt.alloc(), b'9')?;
    assert!(rt; is_refused(rt.alloc(), &nines, 2, "bound")?);
    Ok(())
}

#[test]
fn zeros_before_a_number(rt: HostRuntime) -> Result<(), Fail> {
    let zeros = text_of_long_cap(rt.alloc(), b'0')?;
    assert!(rt; is_instance(rt.alloc(), &zeros, Problem::Min, &[0, 0], &ONE_ARC)?);
    Ok(())
}

static PAST_THE_FORMER_BOUND: [Row; 1] = [(1, 2, 0, 1_000_000_000_000_001, 0)];

static PAST_THE_FORMER_COST: [Row; 1] = [(1, 2, 0, 1, -1_000_000_000_001)];

#[test]
fn numbers_past_the_former_limits(rt: HostRuntime) -> Result<(), Fail> {
    former_instances_stay();
    let bound = b"p min 2 1\na 1 2 0 1000000000000001 0\n";
    assert!(rt;
        is_instance(
            rt.alloc(),
            bound,
            Problem::Min,
            &[0, 0],
            &PAST_THE_FORMER_BOUND
        )?
    );
    let cost = b"p min 2 1\na 1 2 0 1 -1000000000001\n";
    assert!(rt;
        is_instance(
            rt.alloc(),
            cost,
            Problem::Min,
            &[0, 0],
            &PAST_THE_FORMER_COST
        )?
    );
    Ok(())
}

// An instance on two nodes, with as many arcs as its problem line names: a thousand of the greatest
// bound and cost, whose total is 10^36, and then these lines.
fn of_greatest_total(alloc: Global, heading: &[u8], lines: &[u8]) -> Result<Vec<u8>, NoMemory> {
    let mut text = heading.to_vec(alloc)?;
    for _ in 0..1_000 {
        text.extend_from_slice(b"a 1 2 0 1000000000000000000 1000000000000000\n")?;
    }
    text.extend_from_slice(lines)?;
    Ok(text)
}

// What the problem line and the last lines are after a thousand arcs of the greatest weight, and
// the refusal of the whole.
static TOTALS: [(&[u8], &[u8], u128, &str); 5] = [
    (b"p min 2 1001\n", b"a 1 2 0 1 1\n", 1_002, "total"),
    (b"p min 2 1001\n", b"a 1 2 -1 0 -1\n", 1_002, "total"),
    (
        b"p min 2 1002\n",
        b"a 1 2 0 1 0\na 1 2 0 1 1\n",
        1_003,
        "total",
    ),
    (b"p min 2 1000\n", b"a 1 2 0 1 1\n", 1_002, "extra"),
    (b"p min 2 1002\n", b"a 1 2 0 1 0\n", 1_003, "missing"),
];

#[test]
fn totals_are_looked_at(rt: HostRuntime) -> Result<(), Fail> {
    for (heading, lines, line, word) in TOTALS.iter() {
        let text = of_greatest_total(rt.alloc(), heading, lines)?;
        assert!(rt;
            is_refused(rt.alloc(), &text, *line, word)?,
            "at {line} {word}"
        );
    }
    Ok(())
}

#[test]
fn lists_of_one_value(rt: HostRuntime) -> Result<(), Fail> {
    let sevens = copies(rt.alloc(), 3, 7)?;
    assert!(rt; sevens.as_slice() == [7, 7, 7].as_slice());
    assert!(rt; copies(rt.alloc(), 0, true)?.is_empty());
    Ok(())
}

// The costs of the arcs of a text, summed, where the instance shares them.
fn shared_cost(alloc: Global, text: &[u8]) -> Result<Option<i64>, NoMemory> {
    let Some(instance) = instance_of(alloc, text)? else {
        return Ok(None);
    };
    let Some(links) = instance.shared_links() else {
        return Ok(None);
    };
    let mut total = 0i64;
    for link in links.as_slice() {
        total = total.saturating_add(link.cost);
    }
    Ok(Some(total))
}

// Arcs are shared where all have low 0 and cap 1, and there is memory for a count of owners.
#[test]
fn arcs_without_bounds_are_shared(rt: HostRuntime) -> Result<(), Fail> {
    let pairs = b"p asn 4 3\nn 1\nn 2\na 1 3 5\na 1 4 7\na 2 4 -9\n";
    let cost = shared_cost(rt.alloc(), pairs)?.ok_or("out of memory")?;
    let bounded = shared_cost(rt.alloc(), b"p min 2 2\na 1 2 0 1 5\na 1 2 0 2 5\n")?;
    assert!(rt; cost == 3 && bounded.is_none());
    Ok(())
}
