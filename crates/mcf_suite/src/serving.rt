//! The command `mcf`, over two sources and two sinks.
ghost use Rattle.std.specs.Prelude.{◌≡◌, ◌≢◌, ◌≤◌, ◌⊎◌, None, IfErr, IfOk, OnOk, map};
ghost use Rattle.clap.specs.Words.{kind_of};
ghost use Rattle.mcf_solver.specs.Devices.{CountsOneFailure};
ghost use Rattle.mcf_suite.specs.Private.Failing.{IsFailure, IsHelpFailure, IsRunFailure, IsShown, IsShownInPart, failure_text};
ghost use Rattle.mcf_suite.specs.Serving.{Answers, AnswersInPart, AsksToSolve, GivesBytes, IsAskedFor, IsReason, OpensBy, Serves, ServesInPart, Tells};
ghost use Rattle.mcf_suite.specs.Serving.{fault_line, status_of};

use crate::version::VERSION;
use clap::Error;
use clap::error::ErrorKind;
use mcf_asking::command;
use mcf_solver::{Choice, Kind, RunFault, Sink, Source, run, send};
use std::alloc::{AllocError, Global};
use std::convert::AsStr;

// The status if nothing was answered.
const FAILED: u8 = 3;

// Why nothing was answered.
#[derive(Drop)]
enum Failure {
    // The words aren't a command of `mcf`, for the reason in this text.
    Usage(String),
    // The file can't be opened.
    Open,
    // The run failed.
    Run(RunFault),
}

impl Failure {
    ghost use Rattle.std.specs.Prelude.{◌≡◌};
    ghost use Rattle.mcf_suite.specs.Private.Failing.{failure_text};

    // The text that reports it.
    fn text(&self) -> &str
        ensures { result.now ≡ failure_text self.now }
    {
        match self {
            Failure::Usage(text) => text.as_str(),
            Failure::Open => "mcf: cannot open the file\n",
            Failure::Run(fault) => fault_line(*fault),
        }
    }
}

impl From<AllocError> for Failure {
    ghost use Rattle.std.specs.Prelude.{◌≡◌};
    ghost use Rattle.mcf_solver.specs.declared.fault.RunFault.TheVariants.{NoMemory as OutOfMemory};
    ghost use Rattle.mcf_suite.specs.declared.serving.Failure.{Failure};

    ghost from_gives = { λ _ failure. failure ≡ Failure.Run OutOfMemory };

    fn from(_error: AllocError) -> Failure {
        Failure::Run(RunFault::NoMemory)
    }
}

impl From<RunFault> for Failure {
    ghost use Rattle.std.specs.Prelude.{◌≡◌};
    ghost use Rattle.mcf_suite.specs.declared.serving.Failure.{Failure};

    ghost from_gives = { λ fault failure. failure ≡ Failure.Run fault };

    fn from(fault: RunFault) -> Failure {
        Failure::Run(fault)
    }
}

// The line that reports a fault, without any allocation.
fn fault_line(fault: RunFault) -> &'static str
    ensures { result.now ≡ fault_line fault }
{
    match fault {
        RunFault::Read => "mcf: read failed\n",
        RunFault::Write => "mcf: write failed\n",
        RunFault::NoMemory => "mcf: out of memory\n",
        RunFault::TooLong => "mcf: input too long\n",
    }
}

// The status for an answer.
fn status_of(kind: Kind) -> u8
    ensures { result ≡ status_of kind }
{
    match kind {
        Kind::Flow => 0,
        Kind::Blocked => 1,
        Kind::Refused => 2,
    }
}

/// Does what the words of a command line ask, and returns the exit status.
///
/// The words begin with the name of the program: `mcf solve [--engine ENGINE] [--pricing RULE]
/// [--block N] [--form FORM] [FILE]`, as `command` reads them, or `mcf --version`. They are checked
/// first; then `opener` opens FILE, or `input` is read if no file is named. The answer goes to
/// `out`. Status 0 means a flow, or the requested help or version on `out`; 1 a blocking set; 2 a
/// refusal. Status 3, with one line on `err` or the text of the usage fault, means that the words
/// aren't a command of `mcf`, the file can't be opened, reading or writing fails, memory runs out
/// or the input is too long. A text that can't be written on `err` changes nothing.
///
/// If the words have a fault, ask for help or the version or name a file, `input` is unchanged; if
/// they have a fault, ask for help or the version or name no file, `opener` is unchanged. It is
/// called at most once.
pub fn serve<W: AsStr, S: Source + Drop, P: FnMut(&str) -> Option<S>, O: Sink, E: Sink>(
    alloc: Global,
    words: &[W],
    input: &mut S,
    opener: &mut P,
    out: &mut O,
    err: &mut E,
) -> u8
    requires { P.IsAlwaysCallable opener.old }
    ensures status { result ≤ 3 }
    ensures served { (result ≡ 3)
        ⊎ Serves (map W.text words.now) (GivesBytes S.remaining input.old input.new (OpensBy P.FnMut opener.old opener.new))
        result (O.contents out.old) (O.contents out.new) }
    ensures finished { result ≢ 3 → O.IsFinished out.new }
    ensures failed { O.failures out.new ≢ O.failures out.old → result ≡ 3 }
    ensures untouched { result ≡ 3
        → (out.new ≡ out.old) ⊎ CountsOneFailure (O.failures out.old) (O.failures out.new) }
    ensures beginning { result ≡ 3 → (out.new ≡ out.old)
        ⊎ ServesInPart (map W.text words.now) (GivesBytes S.remaining input.old input.new (OpensBy P.FnMut opener.old opener.new))
        (O.contents out.old) (O.contents out.new) }
    ensures quiet { result ≢ 3 → err.new ≡ err.old }
    ensures told { result ≡ 3
        → Tells (IsReason S.remaining S.failures input.old input.new (OpensBy P.FnMut opener.old opener.new) (map W.text words.now))
        (out.new ≡ out.old) (CountsOneFailure (O.failures out.old) (O.failures out.new))
        (E.IsFinished err.new) (CountsOneFailure (E.failures err.old) (E.failures err.new))
        (E.contents err.old) (E.contents err.new) }
    ensures unread { (input.new ≡ input.old) ⊎ AsksToSolve (map W.text words.now) (λ asked. asked.file ≡ None) }
    ensures unasked { (opener.new ≡ opener.old)
        ⊎ AsksToSolve (map W.text words.now) (λ asked. IsAskedFor (OpensBy P.FnMut opener.old opener.new) asked.file) }
    ensures unfailed { result ≢ 3 → S.failures input.new ≡ S.failures input.old }
    ensures failed_once { (S.failures input.new ≡ S.failures input.old)
        ⊎ CountsOneFailure (S.failures input.old) (S.failures input.new) }
{
    match answer(alloc, words, input, opener, out) {
        Ok(status) => status,
        Err(failure) => {
            let _ = send(err, failure.text().as_bytes());
            FAILED
        }
    }
}

// Writes the answer that the words ask for, or the help or the version, and returns the status.
fn answer<W: AsStr, S: Source + Drop, P: FnMut(&str) -> Option<S>, O: Sink>(
    alloc: Global,
    words: &[W],
    input: &mut S,
    opener: &mut P,
    out: &mut O,
) -> Result<u8, Failure>
    requires { P.IsAlwaysCallable opener.old }
    ensures status { IfOk result (λ status. status ≤ 2) }
    ensures served { IfOk result (λ status.
        Serves (map W.text words.now) (GivesBytes S.remaining input.old input.new (OpensBy P.FnMut opener.old opener.new))
        status (O.contents out.old) (O.contents out.new)) }
    ensures finished { OnOk result (O.IsFinished out.new) }
    ensures worked { OnOk result (O.failures out.new ≡ O.failures out.old) }
    ensures failed { IfErr result (IsFailure S.remaining S.failures input.old input.new (OpensBy P.FnMut opener.old opener.new)
        (map W.text words.now) (out.new ≡ out.old)
        (CountsOneFailure (O.failures out.old) (O.failures out.new)
        × ServesInPart (map W.text words.now) (GivesBytes S.remaining input.old input.new (OpensBy P.FnMut opener.old opener.new))
        (O.contents out.old) (O.contents out.new))) }
    ensures unread { (input.new ≡ input.old) ⊎ AsksToSolve (map W.text words.now) (λ asked. asked.file ≡ None) }
    ensures unasked { (opener.new ≡ opener.old)
        ⊎ AsksToSolve (map W.text words.now) (λ asked. IsAskedFor (OpensBy P.FnMut opener.old opener.new) asked.file) }
    ensures unfailed { OnOk result (S.failures input.new ≡ S.failures input.old) }
    ensures failed_once { (S.failures input.new ≡ S.failures input.old)
        ⊎ CountsOneFailure (S.failures input.old) (S.failures input.new) }
{
    let asked = match command(alloc, words) {
        Ok(asked) => asked,
        Err(error) => return show(alloc, &error, out),
    };
    match asked.file {
        Some(name) => {
            let Some(mut source) = open(opener, name) else {
                return Err(Failure::Open);
            };
            answer_from(alloc, &mut source, out, asked.choice)
        }
        None => answer_from(alloc, input, out, asked.choice),
    }
}

// The opener's result for the name of a file.
fn open<S, P: FnMut(&str) -> Option<S>>(opener: &mut P, name: &str) -> Option<S>
    requires { P.IsAlwaysCallable opener.old }
    ensures { OpensBy P.FnMut opener.old opener.new name.now result }
{
    opener(name)
}

// Writes the answer for a source, and returns the status.
fn answer_from<S: Source, O: Sink>(
    alloc: Global,
    source: &mut S,
    out: &mut O,
    choice: Choice,
) -> Result<u8, Failure>
    ensures status { IfOk result (λ status. status ≤ 2) }
    ensures answered { IfOk result (λ status.
        Answers choice (S.remaining source.old) status (O.contents out.old) (O.contents out.new)) }
    ensures finished { OnOk result (O.IsFinished out.new) }
    ensures worked { OnOk result (O.failures out.new ≡ O.failures out.old) }
    ensures failed { IfErr result (IsRunFailure (S.remaining source.old) (S.failures source.old) (S.failures source.new)
        (out.new ≡ out.old)
        (CountsOneFailure (O.failures out.old) (O.failures out.new)
        × AnswersInPart choice (S.remaining source.old) (O.contents out.old) (O.contents out.new))) }
    ensures unfailed { OnOk result (S.failures source.new ≡ S.failures source.old) }
    ensures failed_once { (S.failures source.new ≡ S.failures source.old)
        ⊎ CountsOneFailure (S.failures source.old) (S.failures source.new) }
{
    let kind = run(alloc, source, out, choice)?;
    Ok(status_of(kind))
}

// Prints the help or the version, if the words ask for it, and returns the status.
fn show<O: Sink>(alloc: Global, error: &Error, out: &mut O) -> Result<u8, Failure>
    ensures status { IfOk result (λ status. status ≡ 0) }
    ensures shown { OnOk result (IsShown (kind_of error.now) (O.contents out.old) (O.contents out.new)) }
    ensures finished { OnOk result (O.IsFinished out.new) }
    ensures worked { OnOk result (O.failures out.new ≡ O.failures out.old) }
    ensures failed { IfErr result (IsHelpFailure (kind_of error.now) (out.new ≡ out.old)
        (CountsOneFailure (O.failures out.old) (O.failures out.new)
        × IsShownInPart (kind_of error.now) (O.contents out.old) (O.contents out.new))) }
{
    match error.kind() {
        ErrorKind::OutOfMemory => Err(Failure::Run(RunFault::NoMemory)),
        ErrorKind::DisplayHelp => {
            let text = format!(in alloc; "{error}")?;
            send(out, text.as_bytes())?;
            Ok(0)
        }
        ErrorKind::DisplayVersion => {
            send(out, VERSION.as_bytes())?;
            Ok(0)
        }
        _ => {
            let text = format!(in alloc; "{error}")?;
            Err(Failure::Usage(text))
        }
    }
}
