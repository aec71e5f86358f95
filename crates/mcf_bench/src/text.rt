//! Splits a text into lines and fields, and reads each field as a whole number.
ghost use Rattle.std.specs.Prelude.{◌≡◌, ◌+◌, length};
ghost use Rattle.mcf_text.specs.Fields.{fields_of};
ghost use Rattle.mcf_text.specs.Lines.{numbered_lines};
ghost use Rattle.mcf_bench.specs.Private.Tally.{capped, fields_in};

use crate::tell_time;
use mcf_text::{Whole, fields, lines, whole};
use std::io;
use std::time::{Duration, Instant};

// The range of the whole numbers that are read: those of at most 18 digits.
const LOW: i128 = -999_999_999_999_999_999;

const HIGH: i128 = 999_999_999_999_999_999;

// The content of a text.
#[derive(Clone, Copy)]
struct Tally {
    lines: u64,
    fields: u64,
    numbers: u64,
    sum: i128,
}

/// Tallies a text, and prints the tally and the seconds of reading and tallying.
pub fn run(rt: &HostRuntime, text: &[u8], read_time: Duration) -> io::Result<()> {
    let start = Instant::now(rt)?;
    let tally = count(text);
    let time = start.elapsed(rt)?;
    println!(rt;
        "lines {} fields {} numbers {} sum {}",
        tally.lines, tally.fields, tally.numbers, tally.sum
    )?;
    tell_time(rt, "read_seconds", read_time)?;
    tell_time(rt, "seconds", time)
}

// The tally of a text.
fn count(text: &[u8]) -> Tally
    ensures lines { result.lines ≡ capped (length (numbered_lines 1 text.now)) }
    ensures fields { result.fields ≡ capped (fields_in (numbered_lines 1 text.now)) }
{
    let mut tally = Tally {
        lines: 0,
        fields: 0,
        numbers: 0,
        sum: 0,
    };
    for line in lines(text) {
        tally.lines = tally.lines.saturating_add(1);
        tally = with_fields(tally, line.bytes);
    }
    tally
}

// A tally with the fields of a line added.
fn with_fields(tally: Tally, line: &[u8]) -> Tally
    ensures lines { result.lines ≡ tally.lines }
    ensures fields { result.fields ≡ capped (tally.fields + length (fields_of line.now)) }
{
    let mut tally = tally;
    for field in fields(line) {
        tally.fields = tally.fields.saturating_add(1);
        if let Whole::Value(value) = whole(field, LOW, HIGH) {
            tally.numbers = tally.numbers.saturating_add(1);
            tally.sum = tally.sum.wrapping_add(value);
        }
    }
    tally
}
