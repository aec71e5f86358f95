//! Parses an answer, and writes it again.
use crate::tell_time;
use mcf_answer::{Answer, parse, write};
use std::io;
use std::time::{Duration, Instant};

/// Parses a text as an answer and writes it again, and prints the number of written bytes and the
/// seconds of both.
pub fn run(rt: &HostRuntime, text: &[u8]) -> io::Result<()> {
    let start = Instant::now(rt)?;
    let parsed = parse(rt.alloc(), text);
    let time = start.elapsed(rt)?;
    match parsed {
        Ok(Ok(answer)) => run_on(rt, &answer, text, time),
        Ok(Err(shape)) => println!(rt; "no answer at line {}", shape.line),
        Err(_) => println!(rt; "out of memory"),
    }
}

// Writes the answer of a text, and reports the time that parsing took.
fn run_on(rt: &HostRuntime, answer: &Answer, text: &[u8], parse_time: Duration) -> io::Result<()> {
    let (bytes, is_same, write_time) = write_time(rt, answer, text)?;
    println!(rt; "bytes {bytes} same {is_same}")?;
    tell_time(rt, "parse_seconds", parse_time)?;
    tell_time(rt, "seconds", parse_time.saturating_add(write_time))
}

// The number of bytes that an answer is written in, whether they are those of a text, and how long
// that takes.
fn write_time(
    rt: &HostRuntime,
    answer: &Answer,
    text: &[u8],
) -> io::Result<(usize, bool, Duration)> {
    let mut out = Vec::new(rt.alloc());
    let start = Instant::now(rt)?;
    let written = write(answer, &mut out);
    let time = start.elapsed(rt)?;
    let is_text = out.as_slice() == text;
    Ok((out.len(), written.is_ok() && is_text, time))
}
