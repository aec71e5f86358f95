//! The command `mcfcheck`, over a reader of files and two writers.
ghost use Rattle.std.specs.Prelude.{◌≡◌, ◌≢◌, ◌≤◌, ◌⊎◌, Err, IfErr, IfOk, OnOk, if◌then◌else◌, length, map};
ghost use Rattle.std.specs.Io.KnownBytes.{Appends, WriteAppends};
ghost use Rattle.std.specs.String.{string_bytes};
ghost use Rattle.mcf_checker.specs.Private.Failures.{failure_line};
ghost use Rattle.mcf_checker.specs.Judging.{accepts, verdict};
ghost use Rattle.mcf_checker.specs.Printed.{printed_line};
ghost use Rattle.mcf_checker.specs.Runs.{AsksOnce, IsReason, IsUnprinted, JudgesAndPrints, ReadsFiles, TakesBeginning, Tells};

use crate::checking::check;
use crate::verdict::Verdict;
use mcf_text::NoMemory;
use std::alloc::Global;
use std::convert::AsStr;
use std::io::Write;
use thiserror::Error;

/// Why a file wasn't read.
#[derive(Clone, Copy, Debug, PartialEq, Eq, Error)]
pub enum FileFault {
    /// The allocation for its bytes was refused.
    #[error("out of memory")]
    NoMemory,
    /// It doesn't exist, or it can't be read.
    #[error("cannot read the file")]
    Unreadable,
}

// The status if there is no verdict.
const FAILED: u8 = 3;

// Why there is no verdict.
#[derive(Clone, Copy)]
enum Failure {
    Usage,
    Instance,
    Answer,
    Write,
    NoMemory,
}

impl Failure {
    ghost use Rattle.std.specs.Prelude.{◌≡◌};
    ghost use Rattle.mcf_checker.specs.Private.Failures.{failure_line, failure_of};

    // The line that reports it.
    fn text(self) -> &'static str
        ensures { result.now ≡ failure_line self }
    {
        match self {
            Failure::Usage => "usage: mcfcheck INSTANCE ANSWER\n",
            Failure::Instance => "mcfcheck: cannot read the instance\n",
            Failure::Answer => "mcfcheck: cannot read the answer\n",
            Failure::Write => "mcfcheck: write failed\n",
            Failure::NoMemory => "mcfcheck: out of memory\n",
        }
    }

    // The failure for a file that wasn't read.
    fn of(fault: FileFault, unreadable: Failure) -> Failure
        ensures { result ≡ failure_of fault unreadable }
    {
        match fault {
            FileFault::NoMemory => Failure::NoMemory,
            FileFault::Unreadable => unreadable,
        }
    }
}

impl From<NoMemory> for Failure {
    ghost use Rattle.std.specs.Prelude.{◌≡◌};
    ghost use Rattle.mcf_checker.specs.declared.command.Failure.{Failure};

    ghost from_gives = { λ _ failure. failure ≡ Failure.NoMemory };

    fn from(_error: NoMemory) -> Failure {
        Failure::NoMemory
    }
}

// The status of a verdict: 0 if it accepts, otherwise 1.
fn status_of(verdict: &Verdict) -> u8
    ensures value { result ≡ (if accepts verdict.now then 0 else 1) }
    ensures small { result ≤ 1 }
{
    match verdict {
        Verdict::Flow(_) | Verdict::Blocked(_) | Verdict::Refused(_) => 0,
        _ => 1,
    }
}

// The printed line of a verdict.
fn line_of(alloc: Global, verdict: &Verdict) -> Result<String, NoMemory>
    ensures { IfOk result (λ line. string_bytes line ≡ printed_line verdict.now) }
{
    let line = format!(in alloc; "{verdict}\n")?;
    Ok(line)
}

// The line and the status for an answer text and its instance text.
fn outcome_of(alloc: Global, input: &[u8], answer: &[u8]) -> Result<(String, u8), NoMemory>
    ensures line { IfOk result (λ o. string_bytes o.0 ≡ printed_line (verdict input.now answer.now)) }
    ensures status { IfOk result (λ o. o.1 ≡ (if accepts (verdict input.now answer.now) then 0 else 1)) }
    ensures small { IfOk result (λ o. o.1 ≤ 1) }
{
    let verdict = check(alloc, input, answer)?;
    let line = line_of(alloc, &verdict)?;
    Ok((line, status_of(&verdict)))
}

// Writes at least one byte from the front of a piece that isn't empty, and returns their number. An
// interrupted write fails, and so does one that takes no byte.
fn write_some<W: Write>(writer: &mut W, piece: &[u8]) -> Result<usize, Failure>
    ensures bound { IfOk result (λ count. (1 ≤ count) × (count ≤ length piece.now)) }
    ensures bytes { WriteAppends (W.contents writer.old) (W.contents writer.new) result piece.now }
{
    match writer.write(piece) {
        Ok(0) | Err(_) => Err(Failure::Write),
        Ok(count) => Ok(count),
    }
}

// Writes a text and flushes. Nothing is retried: the first failure ends it.
fn send<W: Write>(writer: &mut W, text: &[u8]) -> Result<(), Failure>
    ensures taken { OnOk result (Appends (W.contents writer.old) (W.contents writer.new) text.now) }
    ensures beginning { TakesBeginning (W.contents writer.old) (W.contents writer.new) text.now }
    ensures is_write { IfErr result (λ failure. failure ≡ Failure.Write) }
{
    let mut taken = 0;
    'writes: while taken < text.len() {
        match write_some(writer, &text[taken..]) {
            Ok(count) => taken += count,
            Err(_) => return Err(Failure::Write),
        }
    }
    match writer.flush() {
        Ok(()) => Ok(()),
        Err(_) => Err(Failure::Write),
    }
}

// Prints the verdict on an answer text for an instance text, and returns the status.
fn print_outcome<O: Write>(
    alloc: Global,
    input: &[u8],
    answer: &[u8],
    out: &mut O,
) -> Result<u8, Failure>
    ensures status { IfOk result (λ status. status ≡ (if accepts (verdict input.now answer.now) then 0 else 1)) }
    ensures small { IfOk result (λ status. status ≤ 1) }
    ensures printed { OnOk result
        (Appends (O.contents out.old) (O.contents out.new) (printed_line (verdict input.now answer.now))) }
    ensures unprinted { IfErr result (λ failure.
        IsUnprinted input.now answer.now (out.new ≡ out.old) (O.contents out.old) (O.contents out.new) (failure_line failure)) }
{
    let (line, status) = outcome_of(alloc, input, answer)?;
    send(out, line.as_bytes())?;
    Ok(status)
}

// Judges the answer in the second file for the instance in the first, prints the line, and returns
// the status. The reader of files is borrowed, so that its state shows which calls were made.
fn run<S: AsStr, R: FnMut(&str) -> Result<Vec<u8>, FileFault>, O: Write>(
    alloc: Global,
    words: &[S],
    read: &mut R,
    out: &mut O,
) -> Result<u8, Failure>
    requires { R.IsAlwaysCallable read.old }
    ensures judged { IfOk result (λ status. JudgesAndPrints R.FnMut (λ file. file.items) read.old (map S.text words.now) status
        (O.contents out.old) (O.contents out.new)) }
    ensures small { IfOk result (λ status. status ≤ 1) }
    ensures usage { length words.now ≢ 3 → (result ≡ Err Failure.Usage) × (out.new ≡ out.old) × (read.new ≡ read.old) }
    ensures reads { length words.now ≡ 3 → ReadsFiles R.FnMut read.old (map S.text words.now) (out.new ≡ out.old) }
    ensures once { length words.now ≡ 3 → AsksOnce R.FnMut read.old (map S.text words.now) read.new }
    ensures reason { IfErr result (λ failure. IsReason R.FnMut (λ file. file.items) read.old (map S.text words.now)
        (out.new ≡ out.old) (O.contents out.old) (O.contents out.new) (failure_line failure)) }
{
    let [_, instance, answer] = words else {
        return Err(Failure::Usage);
    };
    let input = match read(instance.as_str()) {
        Ok(input) => input,
        Err(fault) => return Err(Failure::of(fault, Failure::Instance)),
    };
    let answer = match read(answer.as_str()) {
        Ok(answer) => answer,
        Err(fault) => return Err(Failure::of(fault, Failure::Answer)),
    };
    print_outcome(alloc, &input, &answer, out)
}

/// Judges the answer in one file for the instance in another, and returns the exit status.
///
/// `words` are the name of the program, of the instance's file and of the answer's. `read` returns
/// the bytes of a file; it is called for the instance first. The verdict is one line on `out`, and
/// the status is 0 if it accepts and 1 if it doesn't. Status 3, with one line on `err`, reports
/// another number of words, a file that can't be read, a line that can't be written, and lack of
/// memory. Nothing that fails is retried. A line that can't be written on `err` changes nothing.
pub fn judge<S: AsStr, R: FnMut(&str) -> Result<Vec<u8>, FileFault>, O: Write, E: Write>(
    alloc: Global,
    words: &[S],
    mut read: R,
    out: &mut O,
    err: &mut E,
) -> u8
    requires { R.IsAlwaysCallable read }
    ensures judged { (result ≡ 3) ⊎ JudgesAndPrints R.FnMut (λ file. file.items) read (map S.text words.now) result (O.contents out.old) (O.contents out.new) }
    ensures usage { length words.now ≢ 3 → (result ≡ 3) × (out.new ≡ out.old) }
    ensures reads { length words.now ≡ 3 → ReadsFiles R.FnMut read (map S.text words.now) (out.new ≡ out.old) }
    ensures quiet { (result ≡ 3) ⊎ (err.new ≡ err.old) }
    ensures told { result ≡ 3 → Tells (IsReason R.FnMut (λ file. file.items) read (map S.text words.now)
        (out.new ≡ out.old) (O.contents out.old) (O.contents out.new)) (E.contents err.old) (E.contents err.new) }
{
    match run(alloc, words, &mut read, out) {
        Ok(status) => status,
        Err(failure) => {
            let _ = send(err, failure.text().as_bytes());
            FAILED
        }
    }
}
