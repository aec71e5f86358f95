//! Runs from a source to a sink, of which one fails at a chosen call.
ghost use Rattle.std.specs.Prelude.{IsTrue};

use mcf_numbers::Count;
use mcf_solver::{
    Choice, FromReader, IntoWriter, Kind, RunFault, Sink, SinkFault, Source, SourceFault, run, send,
};
use mcf_text::NoMemory;
use std::alloc::Global;
use std::io::{self, ErrorKind, Read, Write};
use std::test::Fail;

// 83 bytes.
const FOUR_NODES: &str =
    "p min 4 5\nn 1 4\nn 4 -4\na 1 2 0 4 2\na 1 3 0 2 2\na 2 3 0 2 1\na 2 4 0 3 3\na 3 4 0 5 1\n";

// 72 bytes.
const LEAST: &str =
    "s 14\nf 1 2 2\nf 1 3 2\nf 2 3 2\nf 2 4 0\nf 3 4 4\ny 1 0\ny 2 -2\ny 3 -3\ny 4 -4\n";

// No call of a device has this number.
const NEVER: u64 = 0;

// A source that gives pieces of a size, and fails at a chosen read.
#[derive(Drop)]
struct Giver<'a> {
    rest: &'a [u8],
    size: usize,
    fails_at: u64,
    calls: u64,
    failures: u64,
    // The same count, as clauses see it.
    counted: Count,
}

impl Giver<'_> {
    fn new(rest: &[u8], size: usize, fails_at: u64) -> Giver<'_> {
        Giver {
            rest,
            size,
            fails_at,
            calls: 0,
            failures: 0,
            counted: Count::zero(),
        }
    }
}

impl Source for Giver<'_> {
    ghost failures = { λ source. source.counted.number };

    fn read(&mut self, piece: &mut [u8]) -> Result<usize, SourceFault> {
        self.calls = self.calls.saturating_add(1);
        if self.calls == self.fails_at {
            self.failures = self.failures.saturating_add(1);
            self.counted.add_one();
            return Err(SourceFault);
        }
        let count = self.size.min(piece.len()).min(self.rest.len());
        piece[..count].copy_from_slice(&self.rest[..count]);
        self.rest = &self.rest[count..];
        Ok(count)
    }
}

// A sink that takes pieces of a size, and fails at a chosen call.
#[derive(Drop)]
struct Taker {
    taken: Vec<u8>,
    // How many bytes each write offered.
    offered: Vec<usize>,
    size: usize,
    fails_at: u64,
    calls: u64,
    failures: u64,
    // The same count, as clauses see it.
    counted: Count,
    is_finished: bool,
}

impl Taker {
    fn new(alloc: Global, size: usize, fails_at: u64) -> Result<Taker, NoMemory> {
        Ok(Taker {
            taken: Vec::with_capacity(alloc, LEAST.len())?,
            offered: Vec::with_capacity(alloc, LEAST.len())?,
            size,
            fails_at,
            calls: 0,
            failures: 0,
            counted: Count::zero(),
            is_finished: false,
        })
    }
}

impl Sink for Taker {
    ghost failures = { λ sink. sink.counted.number };

    ghost IsFinished = { λ sink. IsTrue sink.is_finished };

    fn write(&mut self, piece: &[u8]) -> Result<usize, SinkFault> {
        self.calls = self.calls.saturating_add(1);
        let count = self.size.max(1).min(piece.len());
        if self.calls != self.fails_at
            && self.offered.push(piece.len()).is_ok()
            && self.taken.extend_from_slice(&piece[..count]).is_ok()
        {
            return Ok(count);
        }
        self.failures = self.failures.saturating_add(1);
        self.counted.add_one();
        Err(SinkFault)
    }

    fn finish(&mut self) -> Result<(), SinkFault> {
        self.calls = self.calls.saturating_add(1);
        if self.calls == self.fails_at {
            self.failures = self.failures.saturating_add(1);
            self.counted.add_one();
            return Err(SinkFault);
        }
        self.is_finished = true;
        Ok(())
    }
}

// What a run answers where memory isn't wanting.
fn outcome<S: Source, K: Sink>(
    alloc: Global,
    source: &mut S,
    sink: &mut K,
) -> Result<Result<Kind, RunFault>, NoMemory> {
    match run(alloc, source, sink, Choice::default()) {
        Err(RunFault::NoMemory) => Err(NoMemory),
        answer => Ok(answer),
    }
}

// Whether a run of a text, one byte a read, ends at a read that fails, and leaves the sink as it
// is.
fn ends_at_read(alloc: Global, text: &str, call: u64) -> Result<bool, NoMemory> {
    let mut source = Giver::new(text.as_bytes(), 1, call);
    let mut sink = Taker::new(alloc, 1, NEVER)?;
    let ended = outcome(alloc, &mut source, &mut sink)?;
    Ok(
        ended == Err(RunFault::Read)
            && source.calls == call
            && source.failures == 1
            && sink.calls == 0
            && sink.taken.is_empty(),
    )
}

#[test]
fn reads_that_fail(rt: HostRuntime) -> Result<(), Fail> {
    for call in 1..=84u64 {
        assert!(rt; ends_at_read(rt.alloc(), FOUR_NODES, call)?, "at {call}");
    }
    Ok(())
}

#[test]
fn reads_that_fail_after_a_faulty_line(rt: HostRuntime) -> Result<(), Fail> {
    for call in 1..=5u64 {
        assert!(rt; ends_at_read(rt.alloc(), "x 1\n", call)?, "at {call}");
    }
    Ok(())
}

// Whether a run ends at a call of the sink that fails, after the bytes of the calls before it.
fn ends_at_write(alloc: Global, call: u64) -> Result<bool, NoMemory> {
    let mut source = Giver::new(FOUR_NODES.as_bytes(), 1, NEVER);
    let mut sink = Taker::new(alloc, 1, call)?;
    let ended = outcome(alloc, &mut source, &mut sink)?;
    Ok(
        ended == Err(RunFault::Write)
            && sink.calls == call
            && sink.failures == 1
            && sink.taken.len() as u64 == call.saturating_sub(1)
            && LEAST.as_bytes().starts_with(&sink.taken)
            && !sink.is_finished,
    )
}

#[test]
fn writes_that_fail(rt: HostRuntime) -> Result<(), Fail> {
    for call in 1..=73u64 {
        assert!(rt; ends_at_write(rt.alloc(), call)?, "at {call}");
    }
    Ok(())
}

// Whether each write of pieces of a size offered all that was left, and nothing is left.
fn offers_the_rest(offered: &[usize], size: usize) -> bool {
    let mut left = LEAST.len();
    for count in offered {
        if *count != left {
            return false;
        }
        left = left.saturating_sub(size);
    }
    left == 0
}

// How many reads take the text in pieces of a size, with the one that finds its end.
fn reads_of(size: usize) -> u64 {
    FOUR_NODES.len().div_ceil(size.max(1)).saturating_add(1) as u64
}

// Whether a run of pieces of a size takes the whole answer to a sink, with no call too many.
fn is_carried(alloc: Global, size: usize) -> Result<bool, NoMemory> {
    let mut source = Giver::new(FOUR_NODES.as_bytes(), size, NEVER);
    let mut sink = Taker::new(alloc, size, NEVER)?;
    let ended = outcome(alloc, &mut source, &mut sink)?;
    Ok(
        ended == Ok(Kind::Flow)
            && sink.taken.as_slice() == LEAST.as_bytes()
            && sink.is_finished
            && offers_the_rest(&sink.offered, size)
            && source.calls == reads_of(size)
            && (size != 1 || sink.calls == 73),
    )
}

#[test]
fn pieces_of_each_size(rt: HostRuntime) -> Result<(), Fail> {
    for size in 1..=84usize {
        assert!(rt; is_carried(rt.alloc(), size)?, "at {size}");
    }
    Ok(())
}

// Whether a text comes whole to a sink that takes pieces of a size.
fn is_sent(alloc: Global, text: &str, size: usize) -> Result<bool, NoMemory> {
    let mut sink = Taker::new(alloc, size, NEVER)?;
    let is_ok = send(&mut sink, text.as_bytes()).is_ok();
    let is_taken = sink.taken.as_slice() == text.as_bytes();
    Ok(is_ok && is_taken && sink.is_finished)
}

#[test]
fn texts_that_are_sent(rt: HostRuntime) -> Result<(), Fail> {
    let alloc = rt.alloc();
    assert!(rt; is_sent(alloc, "", 1)?);
    assert!(rt; is_sent(alloc, LEAST, 1)?);
    assert!(rt; is_sent(alloc, LEAST, 72)?);
    Ok(())
}

// A reader that gives a line, then fails once, and then is at its end.
#[derive(Drop)]
struct Broken {
    kind: ErrorKind,
    calls: u8,
}

impl Read for Broken {
    fn read(&mut self, piece: &mut [u8]) -> io::Result<usize> {
        let line = "p min 0 0\n".as_bytes();
        self.calls = self.calls.saturating_add(1);
        match self.calls {
            1 if line.len() <= piece.len() => {
                piece[..line.len()].copy_from_slice(line);
                Ok(line.len())
            }
            3 => Ok(0),
            _ => Err(io::Error::from(self.kind)),
        }
    }
}

// A writer that takes some bytes of each piece and is flushed, or not.
#[derive(Drop)]
struct Leaky {
    size: usize,
    is_flushed: bool,
}

impl Write for Leaky {
    fn write(&mut self, bytes: &[u8]) -> io::Result<usize> {
        Ok(self.size.min(bytes.len()))
    }

    fn flush(&mut self) -> io::Result<()> {
        if self.is_flushed {
            Ok(())
        } else {
            Err(io::Error::from(ErrorKind::BrokenPipe))
        }
    }
}

// What a run from a reader to a writer answers.
fn carried<R: Read, W: Write>(
    alloc: Global,
    reader: R,
    writer: W,
) -> Result<Result<Kind, RunFault>, NoMemory>
where
    R: Drop,
    W: Drop,
{
    outcome(
        alloc,
        &mut FromReader::new(reader),
        &mut IntoWriter::new(writer),
    )
}

// Whether the answer comes to a vector.
fn is_written(alloc: Global) -> Result<bool, NoMemory> {
    let mut written = Vec::with_capacity(alloc, LEAST.len())?;
    let ended = carried(alloc, FOUR_NODES.as_bytes(), &mut written)?;
    Ok(ended == Ok(Kind::Flow) && written.as_slice() == LEAST.as_bytes())
}

// Whether a run ends with a read that fails by an error, and writes nothing.
fn ends_with(alloc: Global, kind: ErrorKind) -> Result<bool, NoMemory> {
    let mut nothing = Vec::new(alloc);
    let broken = Broken { kind, calls: 0 };
    let ended = carried(alloc, broken, &mut nothing)?;
    Ok(ended == Err(RunFault::Read) && nothing.is_empty())
}

#[test]
fn readers_and_writers(rt: HostRuntime) -> Result<(), Fail> {
    let alloc = rt.alloc();
    assert!(rt; is_written(alloc)?);
    assert!(rt; ends_with(alloc, ErrorKind::BrokenPipe)?);
    assert!(rt; ends_with(alloc, ErrorKind::Interrupted)?);
    Ok(())
}

// A reader that gives a byte at a call, fails at a chosen one, and then works again.
#[derive(Drop)]
struct Faltering<'a> {
    rest: &'a [u8],
    kind: ErrorKind,
    fails_at: u64,
    calls: u64,
}

impl Read for Faltering<'_> {
    fn read(&mut self, piece: &mut [u8]) -> io::Result<usize> {
        self.calls = self.calls.saturating_add(1);
        if self.calls == self.fails_at {
            return Err(io::Error::from(self.kind));
        }
        let count = piece.len().min(self.rest.len()).min(1);
        piece[..count].copy_from_slice(&self.rest[..count]);
        self.rest = &self.rest[count..];
        Ok(count)
    }
}

// Whether a run ends at the read that fails, and writes nothing, though the reader would work
// again.
fn ends_at_error_of_read(alloc: Global, kind: ErrorKind, fails_at: u64) -> Result<bool, NoMemory> {
    let mut nothing = Vec::new(alloc);
    let mut reader = Faltering {
        rest: FOUR_NODES.as_bytes(),
        kind,
        fails_at,
        calls: 0,
    };
    let ended = carried(alloc, &mut reader, &mut nothing)?;
    Ok(ended == Err(RunFault::Read) && nothing.is_empty() && reader.calls == fails_at)
}

// A writer that takes a byte at a call, fails at a chosen call, of which a flush is one, and then
// works again.
#[derive(Drop)]
struct Stumbling {
    written: Vec<u8>,
    kind: ErrorKind,
    fails_at: u64,
    calls: u64,
}

impl Write for Stumbling {
    fn write(&mut self, bytes: &[u8]) -> io::Result<usize> {
        self.calls = self.calls.saturating_add(1);
        let count = bytes.len().min(1);
        if self.calls != self.fails_at && self.written.extend_from_slice(&bytes[..count]).is_ok() {
            return Ok(count);
        }
        Err(io::Error::from(self.kind))
    }

    fn flush(&mut self) -> io::Result<()> {
        self.calls = self.calls.saturating_add(1);
        if self.calls == self.fails_at {
            return Err(io::Error::from(self.kind));
        }
        Ok(())
    }
}

// Whether a run ends at the call of the writer that fails, after the bytes of the calls before it,
// though the writer would work again.
fn ends_at_error_of_write(alloc: Global, kind: ErrorKind, fails_at: u64) -> Result<bool, NoMemory> {
    let mut writer = Stumbling {
        written: Vec::with_capacity(alloc, LEAST.len())?,
        kind,
        fails_at,
        calls: 0,
    };
    let ended = carried(alloc, FOUR_NODES.as_bytes(), &mut writer)?;
    Ok(
        ended == Err(RunFault::Write)
            && writer.calls == fails_at
            && writer.written.len() as u64 == fails_at.saturating_sub(1)
            && LEAST.as_bytes().starts_with(&writer.written),
    )
}

// Kinds of errors.
static KINDS: [ErrorKind; 3] = [
    ErrorKind::BrokenPipe,
    ErrorKind::Interrupted,
    ErrorKind::Other,
];

// The first calls of a reader, those in the midst of the text, and the one that would find its end.
static READS: [u64; 5] = [1, 2, 40, 83, 84];

// The first calls of a writer, those in the midst of the answer, and the flush.
static WRITES: [u64; 5] = [1, 2, 40, 72, 73];

#[test]
fn readers_that_fail_once(rt: HostRuntime) -> Result<(), Fail> {
    for kind in &KINDS {
        for call in &READS {
            assert!(rt;
                ends_at_error_of_read(rt.alloc(), *kind, *call)?,
                "at {call}"
            );
        }
    }
    Ok(())
}

#[test]
fn writers_that_fail_once(rt: HostRuntime) -> Result<(), Fail> {
    for kind in &KINDS {
        for call in &WRITES {
            assert!(rt;
                ends_at_error_of_write(rt.alloc(), *kind, *call)?,
                "at {call}"
            );
        }
    }
    Ok(())
}

// How a writer takes bytes and is flushed, and how the run to it ends.
static LEAKS: [(usize, bool, Result<Kind, RunFault>); 3] = [
    (5, true, Ok(Kind::Flow)),
    (5, false, Err(RunFault::Write)),
    (0, true, Err(RunFault::Write)),
];

#[test]
fn leaky_writers(rt: HostRuntime) -> Result<(), Fail> {
    for (size, is_flushed, want) in &LEAKS {
        let leaky = Leaky {
            size: *size,
            is_flushed: *is_flushed,
        };
        let ended = carried(rt.alloc(), FOUR_NODES.as_bytes(), leaky)?;
        assert!(rt; ended == *want);
    }
    Ok(())
}

static FAULTS: [(RunFault, &str); 4] = [
    (RunFault::Read, "mcf: read failed"),
    (RunFault::Write, "mcf: write failed"),
    (RunFault::NoMemory, "mcf: out of memory"),
    (RunFault::TooLong, "mcf: input too long"),
];

#[test]
fn faults_as_text(rt: HostRuntime) -> Result<(), Fail> {
    for (fault, want) in &FAULTS {
        let text = format!(in rt.alloc(); "{fault}")?;
        assert!(rt; text.as_str() == *want, "at {want}");
    }
    Ok(())
}
