//! Texts that come in pieces, cut anywhere: their lines, and what the reader gives for them beside
//! what `read` gives for the whole.
use crate::instances::FAULTY_TEXTS;
use mcf_instance::{Instance, Reader, Refusal, read};
use mcf_text::{ArcId, FeedFault, LineFeed, NodeId, copies};
use std::alloc::Global;
use std::test::Fail;

type Outcome = Result<Instance, Refusal>;

// An instance of four nodes, the empty text, and one with carriage returns, tabs, signs, zeros in
// front and no last line end.
static TEXTS: [&[u8]; 3] = [
    b"p min 4 5\nn 1 4\nn 4 -4\na 1 2 0 4 2\na 1 3 0 2 2\na 2 3 0 2 1\na 2 4 0 3 3\na 3 4 0 5 1\n",
    b"",
    b"c sample\r\n\r\n\tp min 2 1\r\nn 01 +3\nn 2 -003\na 1 2 0 4 7",
];

// Whether two instances have the same supplies.
fn have_same_supplies(first: &Instance, second: &Instance) -> bool {
    if first.node_count() != second.node_count() {
        return false;
    }
    for place in 0..first.node_count() {
        let node = NodeId::at(place);
        if first.supply(node) != second.supply(node) {
            return false;
        }
    }
    true
}

// Whether two instances have the same arcs.
fn have_same_arcs(first: &Instance, second: &Instance) -> bool {
    if first.arc_count() != second.arc_count() {
        return false;
    }
    for place in 0..first.arc_count() {
        let arc = ArcId::at(place);
        if first.arc(arc) != second.arc(arc) {
            return false;
        }
    }
    true
}

// Whether two texts stand for the same.
fn are_same(first: &Outcome, second: &Outcome) -> bool {
    match (first, second) {
        (Ok(first), Ok(second)) => {
            let is_problem = first.problem() == second.problem();
            let are_supplies = have_same_supplies(first, second);
            let are_arcs = have_same_arcs(first, second);
            is_problem && are_supplies && are_arcs
        }
        (Err(first), Err(second)) => first == second,
        _ => false,
    }
}

// Whether the reader gives for two pieces what `read` gives for them joined.
fn is_read_in_two(alloc: Global, text: &[u8], cut: usize) -> Result<bool, Fail> {
    let Some((first, second)) = text.split_at_checked(cut) else {
        return Ok(false);
    };
    let mut reader = Reader::new(alloc);
    reader.feed(alloc, first)?;
    reader.feed(alloc, second)?;
    let pieces = reader.end(alloc)?;
    let whole = read(alloc, text)?;
    Ok(are_same(&pieces, &whole))
}

// Whether it does so wherever the text is cut in two.
fn is_read_in_any_two(alloc: Global, text: &[u8]) -> Result<bool, Fail> {
    for cut in 0..text.len() {
        if !is_read_in_two(alloc, text, cut)? {
            return Ok(false);
        }
    }
    is_read_in_two(alloc, text, text.len())
}

// What the reader gives for pieces of one byte, with an empty piece before each.
fn read_bytes(alloc: Global, text: &[u8]) -> Result<Outcome, Fail> {
    let mut reader = Reader::new(alloc);
    'bytes: for byte in text {
        reader.feed(alloc, &[])?;
        reader.feed(alloc, &[*byte])?;
    }
    reader.feed(alloc, &[])?;
    let outcome = reader.end(alloc)?;
    Ok(outcome)
}

// Whether the reader gives for such pieces what `read` gives for them joined.
fn is_read_in_bytes(alloc: Global, text: &[u8]) -> Result<bool, Fail> {
    let pieces = read_bytes(alloc, text)?;
    let whole = read(alloc, text)?;
    Ok(are_same(&pieces, &whole))
}

#[test]
fn texts_in_two_pieces(rt: HostRuntime) -> Result<(), Fail> {
    for text in TEXTS.iter() {
        assert!(rt; is_read_in_any_two(rt.alloc(), text)?);
    }
    Ok(())
}

#[test]
fn texts_in_pieces_of_one_byte(rt: HostRuntime) -> Result<(), Fail> {
    for text in TEXTS.iter() {
        assert!(rt; is_read_in_bytes(rt.alloc(), text)?);
    }
    Ok(())
}

#[test]
fn faulty_texts_in_two_pieces(rt: HostRuntime) -> Result<(), Fail> {
    for (text, _, _) in FAULTY_TEXTS.iter() {
        assert!(rt; is_read_in_any_two(rt.alloc(), text)?);
    }
    Ok(())
}

#[test]
fn faulty_texts_in_pieces_of_one_byte(rt: HostRuntime) -> Result<(), Fail> {
    for (text, _, _) in FAULTY_TEXTS.iter() {
        assert!(rt; is_read_in_bytes(rt.alloc(), text)?);
    }
    Ok(())
}

// Whether an instance of two nodes was read.
fn has_two_nodes(outcome: &Outcome) -> bool {
    match outcome {
        Ok(instance) => instance.node_count() == 2,
        Err(_) => false,
    }
}

// Whether a text with a comment of a million bytes, in many pieces, is an instance.
fn reads_long_comment(alloc: Global) -> Result<bool, Fail> {
    let piece = [b'x'; 1000];
    let mut reader = Reader::new(alloc);
    reader.feed(alloc, b"p min 2 0\nc")?;
    'pieces: for _ in 0..1000 {
        reader.feed(alloc, &piece)?;
    }
    reader.feed(alloc, b"\nn 2 7")?;
    let outcome = reader.end(alloc)?;
    Ok(has_two_nodes(&outcome))
}

#[test]
fn a_comment_of_a_million_bytes(rt: HostRuntime) -> Result<(), Fail> {
    assert!(rt; reads_long_comment(rt.alloc())?);
    Ok(())
}

// Whether a text whose first piece has 65,536 bytes, the size in which a run reads, is an instance.
fn reads_full_piece(alloc: Global) -> Result<bool, Fail> {
    let mut piece = copies(alloc, 65_536, b'c')?;
    if let Some(last) = piece.last_mut() {
        *last = b'\n';
    }
    let mut reader = Reader::new(alloc);
    reader.feed(alloc, &piece)?;
    reader.feed(alloc, b"p min 2 0\n")?;
    let outcome = reader.end(alloc)?;
    Ok(has_two_nodes(&outcome))
}

#[test]
fn a_piece_as_large_as_is_read(rt: HostRuntime) -> Result<(), Fail> {
    assert!(rt; reads_full_piece(rt.alloc())?);
    Ok(())
}

// Whether the next line of a feed is this one.
fn pops(feed: &mut LineFeed, number: u128, bytes: &[u8]) -> bool {
    match feed.pop() {
        Some(line) => line.number == number && line.bytes == bytes,
        None => false,
    }
}

// Whether a feed of two pieces has four lines, and no more.
fn has_four_lines(feed: &mut LineFeed) -> bool {
    let are_popped = pops(feed, 1, b"c one")
        && pops(feed, 2, b"")
        && pops(feed, 3, b"\rp min 2 1")
        && pops(feed, 4, b"last");
    let is_end = feed.pop().is_none();
    are_popped && is_end && feed.popped() == 4
}

#[test]
fn lines_of_two_pieces(rt: HostRuntime) -> Result<(), Fail> {
    let mut feed = LineFeed::new(rt.alloc());
    feed.feed(b"c one\n\n\rp m")?;
    assert!(rt; feed.popped() == 0 && feed.rest() == b"c one\n\n\rp m".as_slice());
    feed.feed(b"in 2 1\nlast")?;
    feed.end();
    assert!(rt; has_four_lines(&mut feed));
    Ok(())
}

// Whether a reader and a feed of lines take a text in two pieces, by calls of which each allocation
// is refused in turn.
fn is_fed(alloc: Global, text: &[u8]) -> Result<bool, Fail> {
    let Some((first, second)) = text.split_at_checked(text.len() / 2) else {
        return Ok(false);
    };
    let mut feed = LineFeed::new(alloc);
    feed.feed(first)?;
    feed.feed(second)?;
    let is_kept = feed.rest() == text;
    Ok(is_kept && is_read_in_two(alloc, text, text.len() / 2)?)
}

#[test]
fn six_rows_fed(rt: HostRuntime) -> Result<(), Fail> {
    for text in TEXTS.iter() {
        assert!(rt; is_fed(rt.alloc(), text)?);
    }
    Ok(())
}

static FAULTS: [(FeedFault, &str); 2] = [
    (FeedFault::NoMemory, "out of memory"),
    (FeedFault::TooLong, "input too long"),
];

#[test]
fn faults_of_pieces_are_shown(rt: HostRuntime) -> Result<(), Fail> {
    for (fault, want) in &FAULTS {
        let text = format!(in rt.alloc(); "{fault}")?;
        assert!(rt; text.as_str() == *want);
    }
    Ok(())
}
