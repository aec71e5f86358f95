//! Worked verdicts, and the runs of the command.
use mcf_checker::{FileFault, Verdict, check, judge};
use mcf_text::NoMemory;
use std::alloc::Global;
use std::fmt;
use std::io::{self, ErrorKind, Write};
use std::test::Fail;

/// Five arcs between four nodes.
pub const FOUR_NODES: &str =
    "p min 4 5\nn 1 4\nn 4 -4\na 1 2 0 4 2\na 1 3 0 2 2\na 2 3 0 2 1\na 2 4 0 3 3\na 3 4 0 5 1\n";

/// Its answer.
pub const LEAST: &str =
    "s 14\nf 1 2 2\nf 1 3 2\nf 2 3 2\nf 2 4 0\nf 3 4 4\ny 1 0\ny 2 -2\ny 3 -3\ny 4 -4\n";

const TOO_NARROW: &str = "p min 2 1\nn 1 3\nn 2 -3\na 1 2 0 2 1\n";

const LATE_NODE: &str = "p min 2 1\na 1 2 -3 -3 1\nn 1 -3\n";

const TWO_ROWS_ONE_COLUMN: &str = "p asn 4 2\nn 1\nn 2\na 1 3 1\na 2 3 1\n";

/// Whether this is printed of the verdict on an answer.
pub fn is_printed_of(
    alloc: Global,
    instance: &[u8],
    answer: &[u8],
    want: &[u8],
) -> Result<bool, NoMemory> {
    let verdict = check(alloc, instance, answer)?;
    let printed = format!(in alloc; "{verdict}")?;
    Ok(printed.as_bytes() == want)
}

// Whether it is printed of the verdict on an answer that is text.
fn is_printed(alloc: Global, instance: &str, answer: &str, want: &str) -> Result<bool, NoMemory> {
    is_printed_of(
        alloc,
        instance.as_bytes(),
        answer.as_bytes(),
        want.as_bytes(),
    )
}

static FLOWS: [(&str, &str); 16] = [
    (LEAST, "accepted flow 14"),
    (
        "s 15\nf 1 2 2\nf 1 3 2\nf 2 3 2\nf 2 4 0\nf 3 4 4\ny 1 0\ny 2 -2\ny 3 -3\ny 4 -4\n",
        "rejected cost",
    ),
    (
        "s 14\nf 1 2 3\nf 1 3 2\nf 2 3 2\nf 2 4 0\nf 3 4 4\ny 1 0\ny 2 -2\ny 3 -3\ny 4 -4\n",
        "rejected node 1",
    ),
    (
        "s 14\nf 1 2 5\nf 1 3 2\nf 2 3 2\nf 2 4 0\nf 3 4 4\ny 1 0\ny 2 -2\ny 3 -3\ny 4 -4\n",
        "rejected arc 1",
    ),
    (
        "s 14\nf 1 2 2\nf 1 3 2\nf 2 3 2\nf 2 4 0\nf 3 4 4\ny 1 0\ny 2 -2\ny 3 -3\ny 4 -9\n",
        "rejected price 4",
    ),
    (
        "s 14\nf 1 2 2\nf 1 3 2\nf 2 3 2\nf 2 4 0\nf 3 4 4\ny 1 100\ny 2 98\ny 3 97\ny 4 96\n",
        "accepted flow 14",
    ),
    (
        "s 14\nf 1 3 2\nf 1 2 2\nf 2 3 2\nf 2 4 0\nf 3 4 4\ny 1 0\ny 2 -2\ny 3 -3\ny 4 -4\n",
        "rejected arc 1",
    ),
    (
        "s 14\nf 1 2 2\nf 1 3 2\nf 2 3 2\nf 2 4 0\nf 3 4 4\ny 1 0\ny 2 -2\ny 3 -3\n",
        "rejected node 4",
    ),
    (
        "s 14\nf 1 2 2\nf 1 3 2\nf 2 3 2\nf 2 4 0\nf 3 4 4\ny 1 0\ny 2 -2\ny 3 -3\ny 4 -4\ny 5 0\n",
        "rejected node 5",
    ),
    ("s 14\n", "rejected arc 1"),
    (
        "s 14\nf 1 2 2\nf 1 3 2\nf 2 3 2\nf 2 4 0\nf 3 4 4\nf 3 4 0\ny 1 0\ny 2 -2\ny 3 -3\ny 4 -4\n",
        "rejected arc 6",
    ),
    (
        "s 14\nf 1 2 2\nf 1 3 2\nf 2 3 2\nf 2 4 0\ny 1 0\ny 2 -2\ny 3 -3\ny 4 -4\nf 3 4 4\n",
        "rejected shape 10",
    ),
    ("", "rejected shape 1"),
    ("r 1 kind\n", "rejected kind"),
    (
        "s 14\nf 1 2 10000000000000000000000000000000000000\n",
        "rejected arc 1",
    ),
    (
        "s 14\nf 1 2 2\nf 1 3 2\nf 2 3 2\nf 2 4 0\nf 3 4 4\n\
y 1 10000000000000000000000000000000000000\ny 2 -10000000000000000000000000000000000000\ny 3 -3\ny 4 -4\n",
        "rejected price 1",
    ),
];

const SPARSE: &str = "v 2\ns 14\ng 1 2\ng 2 2\ng 3 2\ng 5 4\ny 1 0\ny 2 -2\ny 3 -3\ny 4 -4\n";

static SPARSE_FLOWS: [(&str, &str); 12] = [
    (SPARSE, "accepted flow 14"),
    (
        "v 2\ns 14\ng 1 2\ng 2 2\ng 3 2\ng 4 0\ng 5 4\ny 1 0\ny 2 -2\ny 3 -3\ny 4 -4\n",
        "accepted flow 14",
    ),
    (
        "v 2\ns 14\ng 1 2\ng 2 2\ng 3 2\ny 1 0\ny 2 -2\ny 3 -3\ny 4 -4\n",
        "rejected node 3",
    ),
    (
        "v 2\ns 14\ng 1 2\ng 2 2\ng 3 2\ng 5 4\ng 6 0\ny 1 0\ny 2 -2\ny 3 -3\ny 4 -4\n",
        "rejected arc 6",
    ),
    (
        "v 2\ns 14\ng 2 2\ng 1 2\ng 3 2\ng 5 4\ny 1 0\ny 2 -2\ny 3 -3\ny 4 -4\n",
        "rejected shape 4",
    ),
    ("v 2\n", "rejected shape 2"),
    ("v 3\n", "rejected shape 1"),
    (
        "v 2\ns 15\ng 1 2\ng 2 2\ng 3 2\ng 5 4\ny 1 0\ny 2 -2\ny 3 -3\ny 4 -4\n",
        "rejected cost",
    ),
    (
        "v 2\ns 14\ng 1 2\ng 2 3\ng 3 2\ng 5 6\ny 1 0\ny 2 -2\ny 3 -3\ny 4 -4\n",
        "rejected arc 2",
    ),
    (
        "v 2\ns 14\ng 1 2\ng 2 2\ng 3 2\ng 4 -1\ng 5 4\ny 1 0\ny 2 -2\ny 3 -3\ny 4 -4\n",
        "rejected arc 4",
    ),
    (
        "v 2\ns 14\ng 1 2\ng 2 2\ng 3 2\ng 5 4\ny 1 0\ny 2 -2\ny 3 -3\n",
        "rejected node 4",
    ),
    (
        "v 2\ns 14\ng 1 2\ng 2 2\ng 3 2\ng 5 4\ny 1 0\ny 2 -2\ny 3 -3\ny 4 -9\n",
        "rejected price 4",
    ),
];

#[test]
fn sparse_flows_for_the_four_nodes(rt: HostRuntime) -> Result<(), Fail> {
    for (answer, want) in &SPARSE_FLOWS {
        assert!(rt; is_printed(rt.alloc(), FOUR_NODES, answer, want)?);
    }
    assert!(rt; is_printed(rt.alloc(), LATE_NODE, SPARSE, "rejected kind")?);
    Ok(())
}

// The low of the arc isn't 0: what no line names carries its low.
#[test]
fn arcs_without_a_line_carry_their_low(rt: HostRuntime) -> Result<(), Fail> {
    let instance = "p min 2 1\nn 1 2\nn 2 -2\na 1 2 2 5 1\n";
    assert!(rt;
        is_printed(
            rt.alloc(),
            instance,
            "v 2\ns 2\ny 1 0\ny 2 -1\n",
            "accepted flow 2"
        )?
    );
    assert!(rt;
        is_printed(
            rt.alloc(),
            instance,
            "v 2\ns 0\ng 1 0\ny 1 0\ny 2 -1\n",
            "rejected arc 1"
        )?
    );
    Ok(())
}

#[test]
fn flows_for_the_four_nodes(rt: HostRuntime) -> Result<(), Fail> {
    for (answer, want) in &FLOWS {
        assert!(rt; is_printed(rt.alloc(), FOUR_NODES, answer, want)?);
    }
    Ok(())
}

static SETS_AND_REFUSALS: [(&str, &str, &str); 15] = [
    (TOO_NARROW, "i 1 send\nx 1\n", "accepted blocked 1"),
    (TOO_NARROW, "i 1 take\nx 2\n", "accepted blocked 1"),
    (TOO_NARROW, "i 1 send\nx 2\n", "rejected set"),
    (TOO_NARROW, "i 1 send\nx 9\n", "rejected set"),
    (TOO_NARROW, "i 2 send\nx 1\n", "rejected shape 3"),
    (TOO_NARROW, "i 2 send\nx 1\nx 1\n", "rejected shape 3"),
    (TWO_ROWS_ONE_COLUMN, "i 1 take\nx 4\n", "accepted blocked 1"),
    (TWO_ROWS_ONE_COLUMN, "i 2 send\nx 1\nx 2\n", "rejected set"),
    (LATE_NODE, "r 3 late-n\n", "accepted refusal 3 late-n"),
    (
        LATE_NODE,
        "c mine\n  r   +03 late-n",
        "accepted refusal 3 late-n",
    ),
    (LATE_NODE, "r 2 late-n\n", "rejected refusal"),
    (LATE_NODE, "r 3 kind\n", "rejected refusal"),
    (LATE_NODE, "s 0\n", "rejected kind"),
    (LATE_NODE, "i 1 send\nx 1\n", "rejected kind"),
    ("p min 0 0\n", "s 0\n", "accepted flow 0"),
];

// Two rows and two columns, of which the first row is dear to the first column.
const TWO_BY_TWO: &str = "p asn 4 4\nn 1\nn 2\na 1 3 5\na 1 4 1\na 2 3 2\na 2 4 1\n";

static ASSIGNMENTS: [(&str, &str); 3] = [
    (
        "s 3\nf 1 3 0\nf 1 4 1\nf 2 3 1\nf 2 4 0\ny 1 0\ny 2 0\ny 3 -2\ny 4 -1\n",
        "accepted flow 3",
    ),
    (
        "s 6\nf 1 3 1\nf 1 4 0\nf 2 3 0\nf 2 4 1\ny 1 0\ny 2 0\ny 3 -2\ny 4 -1\n",
        "rejected price 1",
    ),
    (
        "s 6\nf 1 3 1\nf 1 4 0\nf 2 3 0\nf 2 4 0\ny 1 0\ny 2 0\ny 3 -2\ny 4 -1\n",
        "rejected node 2",
    ),
];

#[test]
fn assignments_of_two_rows(rt: HostRuntime) -> Result<(), Fail> {
    for (answer, want) in &ASSIGNMENTS {
        assert!(rt; is_printed(rt.alloc(), TWO_BY_TWO, answer, want)?);
    }
    Ok(())
}

#[test]
fn sets_and_refusals(rt: HostRuntime) -> Result<(), Fail> {
    for (instance, answer, want) in &SETS_AND_REFUSALS {
        assert!(rt; is_printed(rt.alloc(), instance, answer, want)?);
    }
    Ok(())
}

// Whether this is the verdict on the first bytes of the answer, however many from the one count to
// the other.
fn are_judged(alloc: Global, from: usize, to: usize, want: Verdict) -> Result<bool, NoMemory> {
    for cut in from..=to {
        let Some(text) = LEAST.as_bytes().get(..cut) else {
            return Ok(false);
        };
        if check(alloc, FOUR_NODES.as_bytes(), text)? != want {
            return Ok(false);
        }
    }
    Ok(true)
}

#[test]
fn first_bytes_of_the_answer(rt: HostRuntime) -> Result<(), Fail> {
    for (from, to, want) in [
        (0, 2, Verdict::BadShape(1)),
        (3, 5, Verdict::BadArc(1)),
        (6, 11, Verdict::BadShape(2)),
        (12, 13, Verdict::BadArc(2)),
        (36, 37, Verdict::BadArc(5)),
        (44, 45, Verdict::BadNode(1)),
        (46, 49, Verdict::BadShape(7)),
        (50, 51, Verdict::BadNode(2)),
        (66, 70, Verdict::BadShape(10)),
        (71, 72, Verdict::Flow(14)),
    ] {
        assert!(rt; are_judged(rt.alloc(), from, to, want)?);
    }
    Ok(())
}

// Two arcs of one cost: each split of what is sent between them is least.
static SPLITS: [&str; 3] = [
    "s 12\nf 1 2 3\nf 1 2 0\ny 1 0\ny 2 -4\n",
    "s 12\nf 1 2 2\nf 1 2 1\ny 1 0\ny 2 -4\n",
    "s 12\nf 1 2 0\nf 1 2 3\ny 1 0\ny 2 -4\n",
];

#[test]
fn each_split_between_two_arcs(rt: HostRuntime) -> Result<(), Fail> {
    let instance = "p min 2 2\nn 1 3\nn 2 -3\na 1 2 0 3 4\na 1 2 0 3 4\n";
    for answer in &SPLITS {
        assert!(rt; is_printed(rt.alloc(), instance, answer, "accepted flow 12")?);
    }
    Ok(())
}

// A writer that takes nothing.
#[derive(Drop)]
struct Closed;

impl Write for Closed {
    fn write(&mut self, _bytes: &[u8]) -> io::Result<usize> {
        Err(io::Error::from(ErrorKind::BrokenPipe))
    }

    fn flush(&mut self) -> io::Result<()> {
        Ok(())
    }
}

// A writer that takes all and then can't hand it on.
#[derive(Drop)]
struct Stuck;

impl Write for Stuck {
    fn write(&mut self, bytes: &[u8]) -> io::Result<usize> {
        Ok(bytes.len())
    }

    fn flush(&mut self) -> io::Result<()> {
        Err(io::Error::from(ErrorKind::BrokenPipe))
    }
}

// The bytes of a file of these tests.
fn file(alloc: Global, name: &str) -> Result<Vec<u8>, FileFault> {
    let text = match name {
        "instance" => FOUR_NODES,
        "answer" => LEAST,
        "wrong" => "s 14\n",
        "dear" =>
            "s 15\nf 1 2 2\nf 1 3 2\nf 2 3 2\nf 2 4 0\nf 3 4 4\ny 1 0\ny 2 -2\ny 3 -3\ny 4 -4\n",
        "large" => return Err(FileFault::NoMemory),
        _ => return Err(FileFault::Unreadable),
    };
    Vec::from_slice(alloc, text.as_bytes()).map_err(|_| FileFault::NoMemory)
}

// What is said if memory runs out.
const OUT_OF_MEMORY: &str = "mcfcheck: out of memory\n";

// Whether a run ended for lack of memory.
fn is_without_memory(status: u8, said: &[u8]) -> bool {
    status == 3 && said == OUT_OF_MEMORY.as_bytes()
}

// The status of a run of the command with these words.
fn run(alloc: Global, words: &[&str], out: &mut impl Write, err: &mut impl Write) -> u8 {
    judge(alloc, words, |name: &str| file(alloc, name), out, err)
}

// A command line, and the status, the output and what is said of its run.
type Run = (&'static [&'static str], u8, &'static str, &'static str);

// Whether a run is as the row has it.
fn is_run(alloc: Global, row: &Run) -> Result<bool, NoMemory> {
    let (words, status, printed, said) = *row;
    let mut out = Vec::with_capacity(alloc, 64)?;
    let mut err = Vec::with_capacity(alloc, 64)?;
    let given = run(alloc, words, &mut out, &mut err);
    let is_wanting = is_without_memory(given, err.as_slice());
    let is_meant = said == OUT_OF_MEMORY;
    if is_wanting && !is_meant {
        return Err(NoMemory);
    }
    let is_printed = out.as_slice() == printed.as_bytes();
    let is_said = err.as_slice() == said.as_bytes();
    Ok(given == status && is_printed && is_said)
}

static RUNS: [Run; 10] = [
    (
        &["mcfcheck", "instance", "answer"],
        0,
        "accepted flow 14\n",
        "",
    ),
    (
        &["mcfcheck", "instance", "wrong"],
        1,
        "rejected arc 1\n",
        "",
    ),
    (&["mcfcheck", "instance", "dear"], 1, "rejected cost\n", ""),
    (
        &["mcfcheck", "--version"],
        3,
        "",
        "usage: mcfcheck INSTANCE ANSWER\n",
    ),
    (
        &["mcfcheck", "none", "large"],
        3,
        "",
        "mcfcheck: cannot read the instance\n",
    ),
    (
        &["mcfcheck", "instance", "none"],
        3,
        "",
        "mcfcheck: cannot read the answer\n",
    ),
    (&["mcfcheck", "large", "none"], 3, "", OUT_OF_MEMORY),
    (&["mcfcheck", "instance", "large"], 3, "", OUT_OF_MEMORY),
    (
        &["mcfcheck", "instance"],
        3,
        "",
        "usage: mcfcheck INSTANCE ANSWER\n",
    ),
    (
        &["mcfcheck", "instance", "answer", "more"],
        3,
        "",
        "usage: mcfcheck INSTANCE ANSWER\n",
    ),
];

#[test]
fn runs_of_the_command(rt: HostRuntime) -> Result<(), Fail> {
    for row in &RUNS {
        assert!(rt; is_run(rt.alloc(), row)?);
    }
    Ok(())
}

// A run of which each allocation is refused in turn, by `scripts/refuse_memory.py`.
#[test]
fn six_rows_judged(rt: HostRuntime) -> Result<(), Fail> {
    assert!(rt; is_run(rt.alloc(), &RUNS[0])?);
    for (instance, answer, want) in &SIX_ROWS {
        assert!(rt; is_printed(rt.alloc(), instance, answer, want)?);
    }
    Ok(())
}

static SIX_ROWS: [(&str, &str, &str); 6] = [
    (FOUR_NODES, LEAST, "accepted flow 14"),
    (
        "p min 1 0\nn 1 -1\n",
        "i 1 take\nx 1\n",
        "accepted blocked 1",
    ),
    (
        "p asn 4 4\nn 1\nn 2\na 1 3 5\na 1 4 1\na 2 3 2\na 2 4 1\n",
        "s 3\nf 1 3 0\nf 1 4 1\nf 2 3 1\nf 2 4 0\ny 1 0\ny 2 0\ny 3 -2\ny 4 -1\n",
        "accepted flow 3",
    ),
    (
        TWO_ROWS_ONE_COLUMN,
        "i 3 send\nx 1\nx 2\nx 3\n",
        "accepted blocked 3",
    ),
    (
        "p min 3 4\na 1 2 0 5 0\na 2 3 0 5 0\na 3 1 0 5 0\na 1 3 0 5 -1\n",
        "v 2\ns -5\ng 3 5\ng 4 5\ny 1 0\ny 2 0\ny 3 0\n",
        "accepted flow -5",
    ),
    (
        "p min 2 0\nn 1 5\nn +01 5\n",
        "r 3 twice\n",
        "accepted refusal 3 twice",
    ),
];

// The words of a run that judges the least flow.
const WORDS: &[&str] = &["mcfcheck", "instance", "answer"];

// Whether a run says that its output can't be written.
fn is_write_told(alloc: Global) -> Result<bool, NoMemory> {
    let mut err = Vec::with_capacity(alloc, 64)?;
    let given = run(alloc, WORDS, &mut Closed, &mut err);
    if is_without_memory(given, err.as_slice()) {
        return Err(NoMemory);
    }
    let is_said = err.as_slice() == b"mcfcheck: write failed\n".as_slice();
    Ok(given == 3 && is_said)
}

#[test]
fn writers_that_fail(rt: HostRuntime) -> Result<(), Fail> {
    assert!(rt; is_write_told(rt.alloc())?);
    assert!(rt; run(rt.alloc(), WORDS, &mut Closed, &mut Closed) == 3);
    assert!(rt; run(rt.alloc(), WORDS, &mut Stuck, &mut Closed) == 3);
    Ok(())
}

// How a writer fails.
#[derive(Clone, Copy)]
enum Failing {
    // Each call beyond its room is an error of this kind.
    Error(ErrorKind),
    // Each call beyond its room takes no byte.
    Nothing,
    // One call beyond its room is an error, and the calls after it take all.
    Once,
}

// A writer with room for this many bytes, which counts what it took and the calls after the first
// that failed.
#[derive(Drop)]
struct Narrow {
    failing: Failing,
    room: usize,
    held: Vec<u8>,
    failed: bool,
    calls_after: usize,
}

impl Narrow {
    // A writer that has taken nothing.
    fn new(alloc: Global, failing: Failing, room: usize) -> Result<Narrow, NoMemory> {
        Ok(Narrow {
            failing,
            room,
            held: Vec::with_capacity(alloc, 128)?,
            failed: false,
            calls_after: 0,
        })
    }

    // Counts a call that comes after one that failed.
    fn count(&mut self) {
        if self.failed {
            self.calls_after = self.calls_after.wrapping_add(1);
        }
    }
}

impl Write for Narrow {
    fn write(&mut self, bytes: &[u8]) -> io::Result<usize> {
        self.count();
        if self.failed && matches!(self.failing, Failing::Once) {
            return Ok(bytes.len());
        }
        let left = self.room.saturating_sub(self.held.len());
        let taken = left.min(bytes.len());
        if taken == 0 {
            self.failed = true;
            return match self.failing {
                Failing::Error(kind) => Err(io::Error::from(kind)),
                Failing::Nothing => Ok(0),
                Failing::Once => Err(io::Error::from(ErrorKind::Interrupted)),
            };
        }
        for byte in bytes.get(..taken).unwrap_or(b"") {
            let _ = self.held.push(*byte);
        }
        Ok(taken)
    }

    fn flush(&mut self) -> io::Result<()> {
        self.count();
        Ok(())
    }
}

const ACCEPTED: &[u8] = b"accepted flow 14\n";

// Whether a run with so much room for its output writes a beginning of the line and no more, says
// that writing failed, and asks the writer for nothing afterwards.
fn is_cut(alloc: Global, failing: Failing, room: usize) -> Result<bool, NoMemory> {
    let mut out = Narrow::new(alloc, failing, room)?;
    let mut err = Vec::with_capacity(alloc, 64)?;
    let given = run(alloc, WORDS, &mut out, &mut err);
    if is_without_memory(given, err.as_slice()) {
        return Err(NoMemory);
    }
    let is_said = err.as_slice() == b"mcfcheck: write failed\n".as_slice();
    let is_beginning = ACCEPTED.get(..room) == Some(out.held.as_slice());
    Ok(given == 3 && is_said && is_beginning && out.calls_after == 0)
}

static FAILINGS: [Failing; 5] = [
    Failing::Error(ErrorKind::BrokenPipe),
    Failing::Error(ErrorKind::Interrupted),
    Failing::Error(ErrorKind::OutOfMemory),
    Failing::Nothing,
    Failing::Once,
];

#[test]
fn writers_with_little_room(rt: HostRuntime) -> Result<(), Fail> {
    for failing in &FAILINGS {
        for room in 0..ACCEPTED.len() {
            assert!(rt; is_cut(rt.alloc(), *failing, room)?);
        }
    }
    Ok(())
}

// Whether the line that tells of other words than three is cut, where there is so much room for it.
fn is_told_in_part(alloc: Global, failing: Failing, room: usize) -> Result<bool, NoMemory> {
    let usage = b"usage: mcfcheck INSTANCE ANSWER\n".as_slice();
    let mut out = Vec::with_capacity(alloc, 64)?;
    let mut err = Narrow::new(alloc, failing, room)?;
    let given = run(alloc, &["mcfcheck"], &mut out, &mut err);
    let is_beginning = usage.get(..room) == Some(err.held.as_slice());
    Ok(given == 3 && out.is_empty() && is_beginning && err.calls_after == 0)
}

#[test]
fn what_is_said_is_cut_too(rt: HostRuntime) -> Result<(), Fail> {
    for failing in &FAILINGS {
        for room in 0..20 {
            assert!(rt; is_told_in_part(rt.alloc(), *failing, room)?);
        }
    }
    Ok(())
}

// How often a run asks for a file, and the name that it asks for last. Memory is wanting by intent
// where that is `large`: where it is wanting for another file or for the verdict, the run isn't the
// one that the row means.
fn asked(alloc: Global, words: &[&str]) -> Result<(usize, Vec<u8>), NoMemory> {
    let mut calls = 0usize;
    let mut last = Vec::with_capacity(alloc, 64)?;
    let mut out = Vec::with_capacity(alloc, 64)?;
    let mut err = Vec::with_capacity(alloc, 64)?;
    let reader = |name: &str| {
        calls = calls.wrapping_add(1);
        last.clear();
        let _ = last.extend_from_slice(name.as_bytes());
        file(alloc, name)
    };
    let status = judge(alloc, words, reader, &mut out, &mut err);
    let is_wanting = is_without_memory(status, err.as_slice());
    let is_meant = last.as_slice() == b"large".as_slice();
    if is_wanting && !is_meant {
        return Err(NoMemory);
    }
    Ok((calls, last))
}

// Whether a run asks for so many files, the last of them this one.
fn is_asked(alloc: Global, row: &(&[&str], usize, &str)) -> Result<bool, NoMemory> {
    let (words, count, name) = *row;
    let (calls, last) = asked(alloc, words)?;
    Ok(calls == count && last.as_slice() == name.as_bytes())
}

static ASKED: [(&[&str], usize, &str); 8] = [
    (&["mcfcheck", "instance", "answer"], 2, "answer"),
    (&["mcfcheck", "instance", "wrong"], 2, "wrong"),
    (&["mcfcheck", "none", "answer"], 1, "none"),
    (&["mcfcheck", "large", "answer"], 1, "large"),
    (&["mcfcheck", "instance", "none"], 2, "none"),
    (&["mcfcheck", "instance", "large"], 2, "large"),
    (&["mcfcheck", "instance"], 0, ""),
    (&["mcfcheck", "instance", "answer", "more"], 0, ""),
];

#[test]
fn files_that_are_asked_for(rt: HostRuntime) -> Result<(), Fail> {
    for row in &ASKED {
        assert!(rt; is_asked(rt.alloc(), row)?);
    }
    Ok(())
}

// A text with room for this many bytes, which takes whole pieces alone.
#[derive(Drop)]
struct NarrowText {
    room: usize,
    held: Vec<u8>,
}

impl fmt::Write for NarrowText {
    fn write_str(&mut self, piece: &str) -> fmt::Result {
        let left = self.room.saturating_sub(self.held.len());
        if left < piece.len() || self.held.extend_from_slice(piece.as_bytes()).is_err() {
            return Err(fmt::Error);
        }
        Ok(())
    }
}

// What is held of a verdict where there is room for this many bytes, or nothing if showing it
// failed.
fn shown(alloc: Global, verdict: &Verdict, room: usize) -> Result<Option<Vec<u8>>, NoMemory> {
    let mut text = NarrowText {
        room,
        held: Vec::with_capacity(alloc, 128)?,
    };
    let outcome = fmt::Write::write(&mut text, verdict);
    let NarrowText { room: _, held } = text;
    Ok(outcome.ok().map(|()| held))
}

// Whether a verdict is shown as this text where there is room for it, and fails with any less.
fn is_shown(alloc: Global, verdict: &Verdict, want: &str) -> Result<bool, NoMemory> {
    for room in 0..want.len() {
        if shown(alloc, verdict, room)?.is_some() {
            return Ok(false);
        }
    }
    match shown(alloc, verdict, want.len())? {
        Some(held) => Ok(held.as_slice() == want.as_bytes()),
        None => Ok(false),
    }
}

const LIMIT: u128 = 10_000_000_000_000_000_000_000_000_000_000_000_000;

#[test]
fn verdicts_as_text(rt: HostRuntime) -> Result<(), Fail> {
    for (verdict, want) in [
        (
            Verdict::Flow(-10_000_000_000_000_000_000_000_000_000_000_000_000),
            "accepted flow -10000000000000000000000000000000000000",
        ),
        (Verdict::Flow(-1), "accepted flow -1"),
        (
            Verdict::BadShape(LIMIT),
            "rejected shape 10000000000000000000000000000000000000",
        ),
        (Verdict::Blocked(1_000_000), "accepted blocked 1000000"),
        (Verdict::BadNode(1_000_001), "rejected node 1000001"),
        (Verdict::BadCost, "rejected cost"),
    ] {
        assert!(rt; is_shown(rt.alloc(), &verdict, want)?);
    }
    Ok(())
}

// Whether this is a fault as text.
fn is_fault(alloc: Global, fault: FileFault, want: &str) -> Result<bool, NoMemory> {
    let text = format!(in alloc; "{fault}")?;
    Ok(text.as_str() == want)
}

#[test]
fn faults_of_files_as_text(rt: HostRuntime) -> Result<(), Fail> {
    assert!(rt; is_fault(rt.alloc(), FileFault::NoMemory, "out of memory")?);
    assert!(rt; is_fault(rt.alloc(), FileFault::Unreadable, "cannot read the file")?);
    Ok(())
}
