//! Runs of the command `mcf`: its words, its statuses and its lines.
use mcf_suite::{FromReader, IntoWriter, VERSION, serve};
use mcf_text::{NoMemory, put_number};
use std::alloc::Global;
use std::io::{self, ErrorKind, Read, Write};
use std::test::Fail;

const FOUR_NODES: &str =
    "p min 4 5\nn 1 4\nn 4 -4\na 1 2 0 4 2\na 1 3 0 2 2\na 2 3 0 2 1\na 2 4 0 3 3\na 3 4 0 5 1\n";

const LEAST: &str =
    "s 14\nf 1 2 2\nf 1 3 2\nf 2 3 2\nf 2 4 0\nf 3 4 4\ny 1 0\ny 2 -2\ny 3 -3\ny 4 -4\n";

const TOO_NARROW: &str = "p min 2 1\nn 1 3\nn 2 -3\na 1 2 0 2 1\n";

const BLOCKED: &str = "i 1 send\nx 1\n";

const LATE_NODE: &str = "p min 2 1\na 1 2 -3 -3 1\nn 1 -3\n";

// The words of a command line.
type Words = &'static [&'static str];

// What a run left.
#[derive(Drop)]
struct Outcome {
    status: u8,
    out: Vec<u8>,
    err: Vec<u8>,
    opened: bool,
}

impl Outcome {
    // Whether these are the status and the text that was written, with nothing told.
    fn is(&self, status: u8, out: &str) -> bool {
        self.status == status && self.out.as_slice() == out.as_bytes() && self.err.is_empty()
    }
}

// Room for what a run writes.
fn room(alloc: Global) -> Result<Vec<u8>, NoMemory> {
    Ok(Vec::with_capacity(alloc, 4096)?)
}

// `NoMemory` if a run that wrote nothing told of it.
fn had_memory(status: u8, out: &[u8], err: &[u8]) -> Result<(), NoMemory> {
    if status == 3 && out.is_empty() && err == b"mcf: out of memory\n".as_slice() {
        return Err(NoMemory);
    }
    Ok(())
}

// A run with a text on standard input, and with a file of another text, or no file, whatever its
// name is.
fn served(
    alloc: Global,
    words: &[&str],
    input: &str,
    file: Option<&str>,
) -> Result<Outcome, NoMemory> {
    let mut out = room(alloc)?;
    let mut err = room(alloc)?;
    let mut opened = false;
    let status = serve(
        alloc,
        words,
        &mut FromReader::new(input.as_bytes()),
        &mut |_name: &str| {
            opened = true;
            match file {
                Some(text) => Some(FromReader::new(text.as_bytes())),
                None => None,
            }
        },
        &mut IntoWriter::new(&mut out),
        &mut IntoWriter::new(&mut err),
    );
    had_memory(status, &out, &err)?;
    Ok(Outcome {
        status,
        out,
        err,
        opened,
    })
}

// Whether a text is whole lines, and a part stands in it.
fn has_part(text: &[u8], part: &str) -> bool {
    match str::from_utf8(text) {
        Ok(text) => text.contains(part) && text.ends_with("\n"),
        Err(_) => false,
    }
}

// A text, and the status and the answer of its run.
static ANSWERED: [(&str, u8, &str); 26] = [
    (FOUR_NODES, 0, LEAST),
    ("p min 0 0\n", 0, "s 0\n"),
    ("p asn 0 0\n", 0, "s 0\n"),
    ("p min 1 1\na 1 1 0 7 -3\n", 0, "s -21\nf 1 1 7\ny 1 0\n"),
    (
        "p min 2 2\nn 1 3\nn 2 -3\na 1 2 0 2 1\na 1 2 0 2 5\n",
        0,
        "s 7\nf 1 2 2\nf 1 2 1\ny 1 0\ny 2 -5\n",
    ),
    (
        "p min 2 1\nn 1 4\nn 2 -4\na 1 2 4 4 -2\n",
        0,
        "s -8\nf 1 2 4\ny 1 0\ny 2 0\n",
    ),
    (
        "p min 2 1\nn 1 -3\nn 2 3\na 1 2 -3 -3 1\n",
        0,
        "s -3\nf 1 2 -3\ny 1 0\ny 2 0\n",
    ),
    (
        "p asn 4 4\nn 1\nn 2\na 1 3 5\na 1 4 1\na 2 3 2\na 2 4 1\n",
        0,
        "s 3\nf 1 3 0\nf 1 4 1\nf 2 3 1\nf 2 4 0\ny 1 0\ny 2 0\ny 3 -2\ny 4 -1\n",
    ),
    (
        "p asn 4 4\nn 1\nn 2\na 1 3 5\na 1 4 1\na 2 3 2\na 2 4 -9\n",
        0,
        "s -4\nf 1 3 1\nf 1 4 0\nf 2 3 0\nf 2 4 1\ny 1 0\ny 2 -3\ny 3 -5\ny 4 0\n",
    ),
    (
        "p min 2 1\nn 1 1000000000000000\nn 2 -1000000000000000\na 1 2 0 1000000000000000 1000000000000\n",
        0,
        "s 1000000000000000000000000000\nf 1 2 1000000000000000\ny 1 0\ny 2 -1000000000000\n",
    ),
    (
        "p min 2 2\na 1 2 0 1000000000000000 -1\na 2 1 0 1000000000000000 0\n",
        0,
        "s -1000000000000000\nf 1 2 1000000000000000\nf 2 1 1000000000000000\ny 1 0\ny 2 0\n",
    ),
    (
        "p min 3 4\na 1 2 0 5 0\na 2 3 0 5 0\na 3 1 0 5 0\na 1 3 0 5 -1\n",
        0,
        "s -5\nf 1 2 0\nf 2 3 0\nf 3 1 5\nf 1 3 5\ny 1 0\ny 2 0\ny 3 0\n",
    ),
    (
        "p min 3 3\nn 1 5\nn 3 -5\na 1 2 2 10 3\na 2 3 0 10 1\na 1 3 0 10 2\n",
        0,
        "s 14\nf 1 2 2\nf 2 3 2\nf 1 3 3\ny 1 0\ny 2 -1\ny 3 -2\n",
    ),
    (
        "c sample\r\n\r\n\tp min 2 1\r\nn 01 +3\nn 2 -003\na 1 2 0 4 7",
        0,
        "s 21\nf 1 2 3\ny 1 0\ny 2 -7\n",
    ),
    (
        "p min 2 1\na 1 2 0 1000000000000001 0\n",
        0,
        "s 0\nf 1 2 0\ny 1 0\ny 2 0\n",
    ),
    (
        "p min 2 1\na 1 2 0 1 -1000000000001\n",
        0,
        "s 0\nf 1 2 0\ny 1 -1000000000001\ny 2 0\n",
    ),
    ("p min 1 0\nn 1 -1\n", 1, "i 1 take\nx 1\n"),
    (TOO_NARROW, 1, BLOCKED),
    (
        "p min 2 2\na 1 2 2 5 1\na 2 1 0 1 0\n",
        1,
        "i 1 send\nx 2\n",
    ),
    (
        "p asn 4 2\nn 1\nn 2\na 1 3 1\na 2 3 1\n",
        1,
        "i 3 send\nx 1\nx 2\nx 3\n",
    ),
    (
        "p asn 3 2\nn 1\nn 2\na 1 3 4\na 2 3 4\n",
        1,
        "i 3 send\nx 1\nx 2\nx 3\n",
    ),
    ("p min 2 1\nn 1 2\na 1 2 0 5 1\n", 1, "i 2 send\nx 1\nx 2\n"),
    ("", 2, "r 1 no-p\n"),
    (LATE_NODE, 2, "r 3 late-n\n"),
    ("p min 2 2\na 1 2 0 1 1\n", 2, "r 3 missing\n"),
    ("p min 2 1\nn 1 1000000000000001\n", 2, "r 3 missing\n"),
];

// Whether a text is answered so, from standard input and from a file.
fn is_answered(alloc: Global, text: &str, status: u8, answer: &str) -> Result<bool, NoMemory> {
    let by_input = served(alloc, &["mcf", "solve"], text, None)?;
    let by_file = served(alloc, &["mcf", "solve", "a.min"], "p min", Some(text))?;
    Ok(
        by_input.is(status, answer)
            && !by_input.opened
            && by_file.is(status, answer)
            && by_file.opened,
    )
}

#[test]
fn answers_from_both_sources(rt: HostRuntime) -> Result<(), Fail> {
    for (text, status, answer) in &ANSWERED {
        assert!(rt;
            is_answered(rt.alloc(), *text, *status, *answer)?,
            "at {text}"
        );
    }
    Ok(())
}

// Rows of which each allocation is refused in turn, by `scripts/refuse_memory.py`.
static SIX_ROWS: [(&str, u8, &str); 6] = [
    (FOUR_NODES, 0, LEAST),
    ("p min 1 0\nn 1 -1\n", 1, "i 1 take\nx 1\n"),
    (
        "p asn 4 4\nn 1\nn 2\na 1 3 5\na 1 4 1\na 2 3 2\na 2 4 1\n",
        0,
        "s 3\nf 1 3 0\nf 1 4 1\nf 2 3 1\nf 2 4 0\ny 1 0\ny 2 0\ny 3 -2\ny 4 -1\n",
    ),
    (
        "p asn 4 2\nn 1\nn 2\na 1 3 1\na 2 3 1\n",
        1,
        "i 3 send\nx 1\nx 2\nx 3\n",
    ),
    (
        "p min 3 4\na 1 2 0 5 0\na 2 3 0 5 0\na 3 1 0 5 0\na 1 3 0 5 -1\n",
        0,
        "s -5\nf 1 2 0\nf 2 3 0\nf 3 1 5\nf 1 3 5\ny 1 0\ny 2 0\ny 3 0\n",
    ),
    ("p min 2 0\nn 1 5\nn +01 5\n", 2, "r 3 twice\n"),
];

#[test]
fn six_rows_served(rt: HostRuntime) -> Result<(), Fail> {
    for (text, status, answer) in &SIX_ROWS {
        let run = served(rt.alloc(), &["mcf", "solve"], *text, None)?;
        assert!(rt; run.is(*status, *answer), "at {text}");
    }
    Ok(())
}

// Two arcs of one cost, of which either may carry all.
const TWO_ALIKE: &str = "p min 2 2\nn 1 3\nn 2 -3\na 1 2 0 3 4\na 1 2 0 3 4\n";

// Whether these words give one of two answers, from standard input and, by the same words and a
// name, from a file.
fn is_either(
    alloc: Global,
    words: (&[&str], &[&str]),
    first: &str,
    second: &str,
) -> Result<bool, NoMemory> {
    let by_input = served(alloc, words.0, TWO_ALIKE, None)?;
    let by_file = served(alloc, words.1, "p min", Some(TWO_ALIKE))?;
    let is_first = by_input.is(0, first) && by_file.is(0, first);
    let is_second = by_input.is(0, second) && by_file.is(0, second);
    Ok(by_file.opened && (is_first || is_second))
}

#[test]
fn one_of_two_least_flows(rt: HostRuntime) -> Result<(), Fail> {
    let right = is_either(
        rt.alloc(),
        (&["mcf", "solve"], &["mcf", "solve", "a.min"]),
        "s 12\nf 1 2 3\nf 1 2 0\ny 1 0\ny 2 -4\n",
        "s 12\nf 1 2 0\nf 1 2 3\ny 1 0\ny 2 -4\n",
    )?;
    assert!(rt; right);
    Ok(())
}

#[test]
fn one_of_two_least_flows_in_the_second_form(rt: HostRuntime) -> Result<(), Fail> {
    let right = is_either(
        rt.alloc(),
        (
            &["mcf", "solve", "--form", "2"],
            &["mcf", "solve", "--form", "2", "a.min"],
        ),
        "v 2\ns 12\ng 1 3\ny 1 0\ny 2 -4\n",
        "v 2\ns 12\ng 2 3\ny 1 0\ny 2 -4\n",
    )?;
    assert!(rt; right);
    Ok(())
}

// Puts a text so often.
fn put_often(out: &mut Vec<u8>, text: &[u8], often: u32) -> Result<(), NoMemory> {
    for _ in 0..often {
        out.extend_from_slice(text)?;
    }
    Ok(())
}

// A thousand arcs whose costs come to 10^36 in all, with an arc more that costs nothing; and its
// answers in both forms.
fn greatest_total(alloc: Global) -> Result<(Vec<u8>, Vec<u8>, Vec<u8>), NoMemory> {
    let mut text = Vec::with_capacity(alloc, 65_536)?;
    text.extend_from_slice(b"p min 2 1001\n")?;
    put_often(
        &mut text,
        b"a 1 2 0 1000000000000000000 1000000000000000\n",
        1000,
    )?;
    text.extend_from_slice(b"a 1 2 0 1 0\n")?;
    let mut first = Vec::with_capacity(alloc, 65_536)?;
    first.extend_from_slice(b"s 0\n")?;
    put_often(&mut first, b"f 1 2 0\n", 1001)?;
    first.extend_from_slice(b"y 1 0\ny 2 0\n")?;
    let mut second = Vec::with_capacity(alloc, 64)?;
    second.extend_from_slice(b"v 2\ns 0\ny 1 0\ny 2 0\n")?;
    Ok((text, first, second))
}

// A thousand nodes, of which two have arcs; and its answers in both forms.
fn many_idle_nodes(alloc: Global) -> Result<(Vec<u8>, Vec<u8>, Vec<u8>), NoMemory> {
    let mut text = Vec::with_capacity(alloc, 256)?;
    text.extend_from_slice(b"p min 1000 2\nn 1 3\nn 2 -3\na 1 2 0 2 1\na 1 2 0 2 5\n")?;
    let mut first = Vec::with_capacity(alloc, 65_536)?;
    first.extend_from_slice(b"s 7\nf 1 2 2\nf 1 2 1\ny 1 0\ny 2 -5\n")?;
    put_zero_prices(&mut first)?;
    let mut second = Vec::with_capacity(alloc, 65_536)?;
    second.extend_from_slice(b"v 2\ns 7\ng 1 2\ng 2 1\ny 1 0\ny 2 -5\n")?;
    put_zero_prices(&mut second)?;
    Ok((text, first, second))
}

// Puts a price of 0 for each of the nodes 3 to 1,000.
fn put_zero_prices(out: &mut Vec<u8>) -> Result<(), NoMemory> {
    for node in 3..=1000u32 {
        out.extend_from_slice(b"y ")?;
        put_number(out, i128::from(node))?;
        out.extend_from_slice(b" 0\n")?;
    }
    Ok(())
}

// Whether a run on a file of these bytes ends with this answer.
fn is_served(alloc: Global, words: &[&str], file: &[u8], answer: &[u8]) -> Result<bool, NoMemory> {
    let mut out = Vec::with_capacity(alloc, 65_536)?;
    let mut err = room(alloc)?;
    let status = serve(
        alloc,
        words,
        &mut FromReader::new(b"".as_slice()),
        &mut |_name: &str| Some(FromReader::new(file)),
        &mut IntoWriter::new(&mut out),
        &mut IntoWriter::new(&mut err),
    );
    had_memory(status, &out, &err)?;
    Ok(status == 0 && out.as_slice() == answer && err.is_empty())
}

#[test]
fn the_greatest_total_is_served(rt: HostRuntime) -> Result<(), Fail> {
    let (text, first, second) = greatest_total(rt.alloc())?;
    assert!(rt; is_served(rt.alloc(), &["mcf", "solve", "a.min"], &text, &first)?);
    assert!(rt;
        is_served(
            rt.alloc(),
            &["mcf", "solve", "--form", "2", "a.min"],
            &text,
            &second
        )?
    );
    Ok(())
}

#[test]
fn many_idle_nodes_are_served(rt: HostRuntime) -> Result<(), Fail> {
    let (text, first, second) = many_idle_nodes(rt.alloc())?;
    assert!(rt; is_served(rt.alloc(), &["mcf", "solve", "a.min"], &text, &first)?);
    assert!(rt;
        is_served(
            rt.alloc(),
            &["mcf", "solve", "--form", "2", "a.min"],
            &text,
            &second
        )?
    );
    Ok(())
}

// A text, and the line that refuses it.
static REFUSED: [(&str, &str); 31] = [
    ("c hello\n", "r 2 no-p\n"),
    ("x 1\n", "r 1 kind\n"),
    ("p max 2 1 9\n", "r 1 fields\n"),
    ("p max q 1\n", "r 1 problem\n"),
    ("p min 2 1x\n", "r 1 number\n"),
    ("p min 2 -\n", "r 1 number\n"),
    ("n 1 5\n", "r 1 before-p\n"),
    ("n 1\n", "r 1 before-p\n"),
    ("n 1 2 3\n", "r 1 fields\n"),
    ("n 1 q\n", "r 1 number\n"),
    ("p min 1000001 0\n", "r 1 size\n"),
    ("p min -1 0\n", "r 1 size\n"),
    ("p min 1 0\np min 1 0\n", "r 2 second-p\n"),
    ("p min 2 1\nn 1\n", "r 2 fields\n"),
    ("p min 2 1\na 1 3 0 1 1\n", "r 2 node\n"),
    ("p min 2 1\na 1 3 5 1 0\n", "r 2 node\n"),
    ("p min 2 0\nn 1 5\nn +01 5\n", "r 3 twice\n"),
    ("p min 2 1\nn 1 1000000000000000001\n", "r 2 supply\n"),
    ("p min 2 1\na 1 2 0 1000000000000000001 0\n", "r 2 bound\n"),
    (
        "p min 2 1\na 1 2 0 1111111111111111111111111111111111111111 0\n",
        "r 2 bound\n",
    ),
    ("p min 2 1\na 1 2 5 1 0\n", "r 2 order\n"),
    ("p min 2 1\na 1 2 0 1 -1000000000000001\n", "r 2 cost\n"),
    ("p min 2 0\na 1 2 0 1 0\n", "r 2 extra\n"),
    ("p asn 2 1\nn 1\na 2 1 5\n", "r 3 side\n"),
    ("p asn 2 1\nn 1\na 1 1 5\n", "r 3 side\n"),
    ("p min 2 1\na 1 2 0 1 0\nc\na 1 2 0 1 0\n", "r 4 extra\n"),
    ("p min 2 2\na 1 2 0 1 1\n", "r 3 missing\n"),
    ("p asn 2 0\nn 1 5\n", "r 2 fields\n"),
    ("p asn 2 1\nn 1\nn 1\n", "r 3 twice\n"),
    ("p asn 2 1\na 1 2 5\n", "r 2 side\n"),
    ("p asn 2 1\nn 1\na 1 2 1000000000000001\n", "r 3 cost\n"),
];

#[test]
fn refusals(rt: HostRuntime) -> Result<(), Fail> {
    for (text, line) in &REFUSED {
        assert!(rt; is_answered(rt.alloc(), *text, 2, *line)?, "at {text}");
    }
    Ok(())
}

// Words that ask for an answer, and whether they name a file.
static SOLVING: [(Words, bool); 17] = [
    (&["mcf", "solve", "--engine", "auto"], false),
    (&["mcf", "solve", "--engine", "simplex"], false),
    (&["mcf", "solve", "--engine", "scaling"], false),
    (&["mcf", "solve", "--engine", "fast"], false),
    (&["mcf", "solve", "--engine", "sap"], false),
    (&["mcf", "solve", "--pricing", "first", "a"], true),
    (&["mcf", "solve", "--pricing", "best"], false),
    (
        &["mcf", "solve", "--pricing", "block", "--block", "1"],
        false,
    ),
    (&["mcf", "solve", "--block", "2", "a"], true),
    (&["mcf", "solve", "--form", "1", "a"], true),
    (
        &["mcf", "solve", "--block=1000000", "--engine=simplex"],
        false,
    ),
    (&["mcf", "solve", "--engine", "cancel"], false),
    (&["mcf", "solve", "--engine=cancel"], false),
    (&["mcf", "solve", "-"], true),
    (&["mcf", "solve", "--", "--engine"], true),
    (&["mcf", "solve", "--engine", "cancel", "a"], true),
    (&["mcf", "solve", "a", "--engine", "cancel"], true),
];

// Whether the words' text is answered: that of the file where they name one, and else the input.
fn is_solved(alloc: Global, words: &[&str], opened: bool) -> Result<bool, NoMemory> {
    let run = served(alloc, words, TOO_NARROW, Some(FOUR_NODES))?;
    let right = if opened {
        run.is(0, LEAST)
    } else {
        run.is(1, BLOCKED)
    };
    Ok(right && run.opened == opened)
}

#[test]
fn words_that_ask_for_an_answer(rt: HostRuntime) -> Result<(), Fail> {
    for (words, opened) in &SOLVING {
        assert!(rt; is_solved(rt.alloc(), *words, *opened)?);
    }
    Ok(())
}

// Words that aren't a command, and what the text that says so names.
static NO_COMMAND: [(Words, &str); 21] = [
    (&[], ""),
    (&["mcf"], "subcommand"),
    (&["mcf", "dance"], "dance"),
    (&["mcf", "--engine", "auto"], "--engine"),
    (&["mcf", "solve", "--version"], "--version"),
    (&["mcf", "solve", "a", "b"], "'b'"),
    (&["mcf", "solve", "--engine"], "--engine"),
    (&["mcf", "solve", "--engine", "none"], "none"),
    (&["mcf", "solve", "--engine", "none", "a"], "none"),
    (&["mcf", "solve", "--engine", "Sap"], "simplex"),
    (&["mcf", "solve", "--pricing", "worst"], "worst"),
    (&["mcf", "solve", "--block", "0"], "1..=1000000"),
    (&["mcf", "solve", "--block=1000001"], "1000001"),
    (&["mcf", "solve", "--block", "0x10"], "0x10"),
    (&["mcf", "solve", "--block", "4294967552"], "4294967552"),
    (&["mcf", "solve", "--block", ""], "--block"),
    (&["mcf", "solve", "--block", "1", "--block", "1"], "--block"),
    (
        &["mcf", "solve", "--engine", "auto", "--engine", "auto"],
        "--engine",
    ),
    (&["mcf", "solve", "--form", "3"], "--form"),
    (&["mcf", "solve", "--form", "two"], "two"),
    (&["mcf", "solve", "a", "--dance"], "--dance"),
];

// Whether the words are refused by a text that names this.
fn is_refused(alloc: Global, words: &[&str], named: &str) -> Result<bool, NoMemory> {
    let run = served(alloc, words, FOUR_NODES, Some(FOUR_NODES))?;
    Ok(run.status == 3 && run.out.is_empty() && has_part(&run.err, named) && !run.opened)
}

#[test]
fn words_that_are_refused(rt: HostRuntime) -> Result<(), Fail> {
    for (words, named) in &NO_COMMAND {
        assert!(rt; is_refused(rt.alloc(), *words, *named)?, "at {named}");
    }
    Ok(())
}

// Words that ask for help, and a part of it.
static HELP: [(Words, &str); 30] = [
    (&["mcf", "--help"], "solve"),
    (&["mcf", "-h"], "solve"),
    (&["mcf", "help"], "solve"),
    (&["mcf", "solve", "--help"], "--engine <ENGINE>"),
    (&["mcf", "help", "solve"], "--engine <ENGINE>"),
    (&["mcf", "solve", "-h"], "--pricing <RULE>"),
    (&["mcf", "solve", "--help"], "--block <N>"),
    (
        &["mcf", "solve", "--help"],
        "auto, cancel, simplex, scaling, fast, sap",
    ),
    (&["mcf", "solve", "--help"], "[default: auto]"),
    (&["mcf", "solve", "--help"], "first, best, block, wide"),
    (&["mcf", "solve", "--help"], "[default: block]"),
    (&["mcf", "solve", "--help"], "1 to 1000000"),
    (&["mcf", "solve", "--help"], "[default: 256]"),
    (&["mcf", "solve", "--help"], "\n  auto     "),
    (&["mcf", "solve", "--help"], "\n  cancel   "),
    (&["mcf", "solve", "--help"], "\n  fast     "),
    (&["mcf", "solve", "--help"], "\n  simplex  "),
    (&["mcf", "solve", "--help"], "\n  scaling  "),
    (&["mcf", "solve", "--help"], "\n  sap      "),
    (&["mcf", "solve", "--help"], "\n  first    "),
    (&["mcf", "solve", "--help"], "\n  best     "),
    (&["mcf", "solve", "--help"], "\n  block    "),
    (&["mcf", "--help"], "--version"),
    (&["mcf", "solve", "-h"], "--form <FORM>"),
    (&["mcf", "solve", "--help"], "[default: full]"),
    (&["mcf", "solve", "--help"], "full, sparse, 1, 2"),
    (&["mcf", "solve", "--help"], "\n  full     "),
    (&["mcf", "solve", "--help"], "\n  sparse   "),
    (&["mcf", "solve", "-h"], "[FILE]"),
    (&["mcf", "solve", "a", "--help"], "[FILE]"),
];

// Whether the words are answered by help that has this part.
fn is_helped(alloc: Global, words: &[&str], part: &str) -> Result<bool, NoMemory> {
    let run = served(alloc, words, FOUR_NODES, Some(FOUR_NODES))?;
    Ok(run.status == 0 && run.err.is_empty() && has_part(&run.out, part) && !run.opened)
}

#[test]
fn help_that_is_asked_for(rt: HostRuntime) -> Result<(), Fail> {
    for (words, part) in &HELP {
        assert!(rt; is_helped(rt.alloc(), *words, *part)?, "at {part}");
    }
    Ok(())
}

// Words that ask for the version.
static VERSION_ASKED: [Words; 2] = [&["mcf", "--version"], &["mcf", "-V"]];

#[test]
fn the_version_that_is_asked_for(rt: HostRuntime) -> Result<(), Fail> {
    for words in &VERSION_ASKED {
        let run = served(rt.alloc(), *words, FOUR_NODES, Some(FOUR_NODES))?;
        assert!(rt; run.is(0, VERSION) && !run.opened);
    }
    assert!(rt; VERSION.starts_with("mcf 1.0.0\n"));
    Ok(())
}

#[test]
fn a_file_that_cannot_be_opened(rt: HostRuntime) -> Result<(), Fail> {
    let run = served(rt.alloc(), &["mcf", "solve", "a.min"], FOUR_NODES, None)?;
    assert!(rt; run.status == 3 && run.out.is_empty() && run.opened);
    assert!(rt; run.err.as_slice() == b"mcf: cannot open the file\n".as_slice());
    Ok(())
}

// A device that fails.
#[derive(Drop)]
struct Broken;

impl Read for Broken {
    fn read(&mut self, _piece: &mut [u8]) -> io::Result<usize> {
        Err(io::Error::from(ErrorKind::BrokenPipe))
    }
}

impl Write for Broken {
    fn write(&mut self, _piece: &[u8]) -> io::Result<usize> {
        Err(io::Error::from(ErrorKind::BrokenPipe))
    }

    fn flush(&mut self) -> io::Result<()> {
        Ok(())
    }
}

// The status of a run that opens no file, from a reader to two writers.
fn status_of<R: Read + Drop, O: Write + Drop, E: Write + Drop>(
    alloc: Global,
    words: &[&str],
    reader: R,
    out: O,
    err: E,
) -> u8 {
    serve(
        alloc,
        words,
        &mut FromReader::new(reader),
        &mut |_name: &str| None,
        &mut IntoWriter::new(out),
        &mut IntoWriter::new(err),
    )
}

// Whether such a run has status 3, and tells this.
fn tells<R: Read + Drop, O: Write + Drop>(
    alloc: Global,
    words: &[&str],
    reader: R,
    out: O,
    told: &str,
) -> Result<bool, NoMemory> {
    let mut err = room(alloc)?;
    let status = status_of(alloc, words, reader, out, &mut err);
    had_memory(status, &[], &err)?;
    Ok(status == 3 && err.as_slice() == told.as_bytes())
}

#[test]
fn input_that_fails(rt: HostRuntime) -> Result<(), Fail> {
    let alloc = rt.alloc();
    let mut out = room(alloc)?;
    let right = tells(
        alloc,
        &["mcf", "solve"],
        Broken,
        &mut out,
        "mcf: read failed\n",
    )?;
    assert!(rt; right && out.is_empty());
    Ok(())
}

// Words whose run writes.
static WRITING: [Words; 4] = [
    &["mcf", "solve"],
    &["mcf", "--version"],
    &["mcf", "--help"],
    &["mcf", "solve", "--help"],
];

#[test]
fn output_that_fails(rt: HostRuntime) -> Result<(), Fail> {
    for words in &WRITING {
        let input = FOUR_NODES.as_bytes();
        assert!(rt; tells(rt.alloc(), *words, input, Broken, "mcf: write failed\n")?);
    }
    Ok(())
}

// Words whose run tells of a fault, where nothing can be written.
static TELLING: [Words; 3] = [
    &["mcf", "solve"],
    &["mcf", "dance"],
    &["mcf", "solve", "a.min"],
];

#[test]
fn faults_that_cannot_be_told(rt: HostRuntime) -> Result<(), Fail> {
    for words in &TELLING {
        let status = status_of(rt.alloc(), *words, FOUR_NODES.as_bytes(), Broken, Broken);
        assert!(rt; status == 3);
    }
    Ok(())
}
