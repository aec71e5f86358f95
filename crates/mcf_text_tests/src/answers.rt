//! Worked answers, and texts that are none.
use mcf_answer::{
    Answer, FlowAnswer, MovedList, NodeList, PriceList, Sent, SentList, Shape, SparseAnswer,
    no_text_spells_two_answers, parse, texts_stand_for_what_they_spell,
    what_is_written_is_read_back, write,
};
use mcf_instance::{Code, Refusal, Side};
use mcf_text::{ArcId, NoMemory, NodeId};
use std::alloc::Global;
use std::test::Fail;

// What is written of the answer that a text spells, or nothing if it spells none.
fn rewritten(alloc: Global, text: &[u8]) -> Result<Vec<u8>, NoMemory> {
    let mut out = Vec::new(alloc);
    if let Ok(answer) = parse(alloc, text)? {
        write(&answer, &mut out)?;
    }
    Ok(out)
}

// The line at which a text is seen to be no answer, or 0 if it is one.
fn misfit(alloc: Global, text: &[u8]) -> Result<u128, NoMemory> {
    match parse(alloc, text)? {
        Ok(_) => Ok(0),
        Err(Shape { line }) => Ok(line),
    }
}

// Texts as they are written: of the full form the answers of worked instances, and then others, and
// of the sparse form.
static ANSWERS: [&[u8]; 29] = [
    b"s 14\nf 1 2 2\nf 1 3 2\nf 2 3 2\nf 2 4 0\nf 3 4 4\ny 1 0\ny 2 -2\ny 3 -3\ny 4 -4\n",
    b"s 0\n",
    b"i 1 take\nx 1\n",
    b"i 1 send\nx 1\n",
    b"i 1 send\nx 2\n",
    b"s 3\nf 1 3 0\nf 1 4 1\nf 2 3 1\nf 2 4 0\ny 1 0\ny 2 0\ny 3 -2\ny 4 -1\n",
    b"s -4\nf 1 3 1\nf 1 4 0\nf 2 3 0\nf 2 4 1\ny 1 0\ny 2 -3\ny 3 -5\ny 4 0\n",
    b"i 3 send\nx 1\nx 2\nx 3\n",
    b"i 2 send\nx 1\nx 2\n",
    b"s -21\nf 1 1 7\ny 1 0\n",
    b"s 1000000000000000000000000000\nf 1 2 1000000000000000\ny 1 0\ny 2 -1000000000000\n",
    b"s -7\nf 1000000 1 -5\ny 1 -1\n",
    b"s 10000000000000000000000000000000000000\n",
    b"s -10000000000000000000000000000000000000\nf 1 1 0\n",
    b"s 3\ny 1 0\ny 2 10000000000000000000000000000000000000\n",
    b"i 1 take\nx 1000000\n",
    b"i 3 take\nx 2\nx 3\nx 20\n",
    b"r 1 kind\n",
    b"r 3 late-n\n",
    b"r 1002 total\n",
    b"r 10000000000000000000000000000000000000 missing\n",
    // The second form.
    b"v 2\ns 14\ng 1 2\ng 2 2\ng 3 2\ng 5 4\ny 1 0\ny 2 -2\ny 3 -3\ny 4 -4\n",
    b"v 2\ns 14\ng 1 2\ng 2 2\ng 3 2\ng 4 0\ng 5 4\ny 1 0\ny 2 -2\ny 3 -3\ny 4 -4\n",
    b"v 2\ns 14\ng 1 2\ng 2 2\ng 3 2\ny 1 0\ny 2 -2\ny 3 -3\ny 4 -4\n",
    b"v 2\ns 14\ng 1 2\ng 2 2\ng 3 2\ng 5 4\ng 6 0\ny 1 0\ny 2 -2\ny 3 -3\ny 4 -4\n",
    b"v 2\ns 0\n",
    b"v 2\ns -21\ng 1 7\ny 1 0\n",
    b"v 2\ns 0\ng 1 0\ny 1 0\ny 2 -1\n",
    b"v 2\ns 3\ng 10000000 -10000000000000000000000000000000000000\n",
];

// Texts of other spellings, and how each is written.
static SPELLINGS: [(&[u8], &[u8]); 4] = [
    (b"c mine\n  r   +03 late-n", b"r 3 late-n\n"),
    (
        b"s\t-01\r\n\n c two\nf 01 +2 -0 \r\ny\t 1  007",
        b"s -1\nf 1 2 0\ny 1 7\n",
    ),
    (b"\n\ti 02\tsend\nx +1\ncx 7\nx 4", b"i 2 send\nx 1\nx 4\n"),
    (
        b"c\n v\t+02\n\ns -0\ng 01  -1\r\nc g\ny 01 +5",
        b"v 2\ns 0\ng 1 -1\ny 1 5\n",
    ),
];

// Texts that are no answers, each with the line at which that is seen.
static NO_ANSWERS: [(&[u8], u128); 51] = [
    (b"", 1),
    (b"c hello\n\n", 3),
    (b"i 2 send\nx 1\n", 3),
    (b"i 2 send\nx 1\nx 1\n", 3),
    (b"i 2 send\nx 2\nx 1\n", 3),
    (b"i 1 send\nx 1\nx 2\n", 3),
    (b"i 0 send\n", 1),
    (b"i 1 Send\nx 1\n", 1),
    (b"i send 1\nx 1\n", 1),
    (b"s 14\nf 1 2 2\ny 1 0\nf 3 4 4\n", 4),
    (b"s 0\ny 1 0\ny 3 0\n", 3),
    (b"s 0\ny 2 0\n", 2),
    (b"s 0\ns 0\n", 2),
    (b"s 0\nx 1\n", 2),
    (b"s 0\nf 1 1000001 0\n", 2),
    (b"s 0\nf 0 1 0\n", 2),
    (b"s 0\nf 1 2\n", 2),
    (b"s 0 0\n", 1),
    (b"s 0x\n", 1),
    (b"s 10000000000000000000000000000000000001\n", 1),
    (b"f 1 2 0\n", 1),
    (b"r 1 nonsense\n", 1),
    (b"r 0 no-p\n", 1),
    (b"r 3 late-n\nr 3 late-n\n", 2),
    (b"c one\ns 0\n\n  c two\ny 1\n", 5),
    // The second form.
    (
        b"v 2\ns 14\ng 2 2\ng 1 2\ng 3 2\ng 5 4\ny 1 0\ny 2 -2\ny 3 -3\ny 4 -4\n",
        4,
    ),
    (b"v 2\n", 2),
    (b"v 3\n", 1),
    (b"v 2 2\ns 0\n", 1),
    (b"v two\ns 0\n", 1),
    (b"c one\nv 2\nc two\n\n", 5),
    (b"v 2\nv 2\ns 0\n", 2),
    (b"s 0\nv 2\n", 2),
    (b"v 2\ng 1 0\ns 0\n", 2),
    (b"v 2\ny 1 0\n", 2),
    (b"v 2\ns 0\ns 0\n", 3),
    (b"v 2\ns 0\nf 1 2 0\n", 3),
    (b"v 2\ns 0\nx 1\n", 3),
    (b"v 2\ni 1 send\nx 1\n", 2),
    (b"v 2\nr 3 late-n\n", 2),
    (b"s 0\ng 1 0\n", 2),
    (b"i 1 send\ng 1 0\n", 2),
    (b"g 1 0\n", 1),
    (b"v 2\ns 0\ng 1 0\ng 1 0\n", 4),
    (b"v 2\ns 0\ng 0 0\n", 3),
    (b"v 2\ns 0\ng 10000001 0\n", 3),
    (b"v 2\ns 0\ng 1 10000000000000000000000000000000000001\n", 3),
    (b"v 2\ns 0\ng 1 1 0\n", 3),
    (b"v 2\ns 0\ng 1\n", 3),
    (b"v 2\ns 0\ny 2 0\n", 3),
    (b"v 2\ns 0\ny 1 0\ng 1 0\n", 4),
];

#[test]
fn answers_are_written_as_they_were_read(rt: HostRuntime) -> Result<(), Fail> {
    for text in &ANSWERS {
        assert!(rt; rewritten(rt.alloc(), text)?.as_slice() == *text);
    }
    Ok(())
}

#[test]
fn other_spellings_are_read(rt: HostRuntime) -> Result<(), Fail> {
    for (text, plain) in &SPELLINGS {
        assert!(rt; rewritten(rt.alloc(), text)?.as_slice() == *plain);
    }
    Ok(())
}

#[test]
fn texts_that_are_no_answers(rt: HostRuntime) -> Result<(), Fail> {
    for (text, line) in &NO_ANSWERS {
        assert!(rt; misfit(rt.alloc(), text)? == *line);
    }
    Ok(())
}

// The answer that a text spells, if it spells one.
fn answer_of(alloc: Global, text: &[u8]) -> Result<Option<Answer>, NoMemory> {
    match parse(alloc, text)? {
        Ok(answer) => Ok(Some(answer)),
        Err(_) => Ok(None),
    }
}

// Whether an answer is a sparse flow of two amounts and two prices.
fn is_sparse_flow(answer: &Answer) -> bool {
    match answer {
        Answer::Sparse(flow) => {
            let are_moved = flow.moved.as_slice()
                == [(ArcId::new(2), -2), (ArcId::new(7), 9)].as_slice();
            let are_prices = flow.prices.as_slice() == [0, -9].as_slice();
            are_moved && are_prices && flow.cost == 4
        }
        _ => false,
    }
}

#[test]
fn the_parts_of_a_sparse_flow(rt: HostRuntime) -> Result<(), Fail> {
    let text = b"v 2\ns 4\ng 2 -2\ng 7 9\ny 1 0\ny 2 -9\n";
    let answer = answer_of(rt.alloc(), text)?.ok_or("no answer")?;
    assert!(rt; is_sparse_flow(&answer));
    Ok(())
}

// Whether a flow line says this.
fn is_line(line: &Sent, src: u32, dst: u32, flow: i128) -> bool {
    line.src.get() == src && line.dst.get() == dst && line.flow == flow
}

// Whether an answer is a flow of two lines and two prices.
fn is_flow(answer: &Answer) -> bool {
    match answer {
        Answer::Flow(flow) => {
            let are_lines = match flow.sent.as_slice() {
                [first, _] => is_line(first, 1, 2, -2),
                _ => false,
            };
            let are_prices = flow.prices.as_slice() == [0, -9].as_slice();
            are_lines && are_prices && flow.cost == 4
        }
        _ => false,
    }
}

#[test]
fn the_parts_of_a_flow(rt: HostRuntime) -> Result<(), Fail> {
    let text = b"s 4\nf 1 2 -2\nf 2 3 7\ny 1 0\ny 2 -9\n";
    let answer = answer_of(rt.alloc(), text)?.ok_or("no answer")?;
    assert!(rt; is_flow(&answer));
    Ok(())
}

// Whether an answer is a set of two nodes that must take.
fn is_set(answer: &Answer) -> bool {
    match answer {
        Answer::Blocked(set) => {
            let are_nodes = set.nodes.as_slice() == [NodeId::new(3), NodeId::new(8)].as_slice();
            are_nodes && set.side == Side::Take
        }
        _ => false,
    }
}

#[test]
fn the_parts_of_a_set(rt: HostRuntime) -> Result<(), Fail> {
    let answer = answer_of(rt.alloc(), b"i 2 take\nx 3\nx 8\n")?.ok_or("no answer")?;
    assert!(rt; is_set(&answer));
    Ok(())
}

// A flow without lines.
fn flow_by_hand(alloc: Global) -> Answer {
    Answer::Flow(FlowAnswer {
        cost: -5,
        sent: SentList::new(Vec::new(alloc)),
        prices: PriceList::new(Vec::new(alloc)),
    })
}

// A refusal.
fn refusal_by_hand() -> Answer {
    Answer::Refused(Refusal {
        line: 7,
        code: Code::SecondP,
    })
}

// A sparse flow of one amount.
fn sparse_by_hand(alloc: Global) -> Result<Answer, NoMemory> {
    let amounts = [(ArcId::new(3), 2)].to_vec(alloc)?;
    Ok(Answer::Sparse(SparseAnswer {
        cost: 6,
        moved: MovedList::new(amounts),
        prices: PriceList::new(Vec::new(alloc)),
    }))
}

// Writes the three.
fn write_by_hand(alloc: Global, out: &mut Vec<u8>) -> Result<(), NoMemory> {
    write(&flow_by_hand(alloc), out)?;
    write(&refusal_by_hand(), out)?;
    write(&sparse_by_hand(alloc)?, out)
}

#[test]
fn answers_made_by_hand(rt: HostRuntime) -> Result<(), Fail> {
    let mut out = Vec::new(rt.alloc());
    write_by_hand(rt.alloc(), &mut out)?;
    assert!(rt; out.as_slice() == b"s -5\nr 7 second-p\nv 2\ns 6\ng 3 2\n".as_slice());
    Ok(())
}

// Whether a list of prices keeps its items.
fn keeps_prices(items: Vec<i128>) -> bool {
    let prices = PriceList::new(items);
    let has_two = !prices.is_empty() && prices.len() == 2;
    has_two && prices.into_vec().as_slice() == [3, -4].as_slice()
}

// Whether a list of nodes keeps its items.
fn keeps_nodes(items: Vec<NodeId>) -> bool {
    let nodes = NodeList::new(items);
    let has_one = !nodes.is_empty() && nodes.len() == 1;
    has_one && nodes.into_vec().as_slice() == [NodeId::new(6)].as_slice()
}

// Whether a list of flow lines keeps none.
fn keeps_nothing(alloc: Global) -> bool {
    let sent = SentList::new(Vec::new(alloc));
    sent.is_empty() && sent.into_vec().is_empty()
}

#[test]
fn lists_keep_their_items(rt: HostRuntime) -> Result<(), Fail> {
    assert!(rt; keeps_prices([3, -4].to_vec(rt.alloc())?));
    assert!(rt; keeps_nodes([NodeId::new(6)].to_vec(rt.alloc())?));
    assert!(rt; keeps_nothing(rt.alloc()));
    Ok(())
}

// Whether an answer is written after bytes that were there, which are left alone if memory runs
// out.
fn is_put(out: &mut Vec<u8>, answer: &Answer) -> bool {
    match write(answer, out) {
        Ok(()) => out.as_slice() == b"keeps 14\nf 1 2 2\nf 1 3 2\ny 1 0\ny 2 -2\n".as_slice(),
        Err(NoMemory) => out.as_slice() == b"keep".as_slice(),
    }
}

#[test]
fn want_of_memory_leaves_the_text(rt: HostRuntime) -> Result<(), Fail> {
    let text = b"s 14\nf 1 2 2\nf 1 3 2\ny 1 0\ny 2 -2\n";
    let answer = answer_of(rt.alloc(), text)?.ok_or("no answer")?;
    let mut out = b"keep".to_vec(rt.alloc())?;
    assert!(rt; is_put(&mut out, &answer));
    Ok(())
}

#[test]
fn the_laws_are_called() {
    no_text_spells_two_answers();
    texts_stand_for_what_they_spell();
    what_is_written_is_read_back();
}
