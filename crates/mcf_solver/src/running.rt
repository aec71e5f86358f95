//! From a source to a sink.
ghost use Rattle.std.specs.Prelude.{[], ◌≡◌, ◌≢◌, ◌≤◌, IfErr, IfOk, OnErr, OnOk, length};
ghost use Rattle.std.specs.Io.KnownBytes.{Appends};
ghost use Rattle.mcf_flows.specs.Limits.{limits};
ghost use Rattle.mcf_instance.specs.Feeding.{StandsFor};
ghost use Rattle.mcf_solver.specs.Devices.{CountsOneFailure};
ghost use Rattle.mcf_solver.specs.Private.Pieces.{HasTakenAll, IsReadFault};
ghost use Rattle.mcf_solver.specs.Running.{IsTakenWhole, IsTooLong, ReadsGiven, SendsAnswer, SendsBeginning, TakesBeginning};

use crate::device::{Sink, Source};
use crate::fault::RunFault;
use crate::kind::Kind;
use crate::solving::solve_outcome;
use mcf_choice::Choice;
use mcf_instance::{Instance, Reader, Refusal};
use mcf_text::{FeedFault, NoMemory};
use std::alloc::{AllocError, Global};

// The number of bytes that are requested at once.
const PIECE: usize = 65_536;

/// Reads an instance text to its end, solves it, and then writes the answer and finishes. It reads
/// pieces of at most 65,536 bytes, and frees the bytes of the lines that were read.
///
/// Nothing is retried: the first failure of the source or of the sink ends the run.
///
/// # Errors
///
/// `Read`, `NoMemory` and `TooLong` (more than 10^18 bytes) come before the first byte is written.
/// After `Write` the sink has taken a beginning of an answer, perhaps all of it; the source then
/// had at most 10^18 bytes.
pub fn run<S: Source, K: Sink>(
    alloc: Global,
    source: &mut S,
    sink: &mut K,
    choice: Choice,
) -> Result<Kind, RunFault>
    ensures whole { OnOk result (IsTakenWhole (S.remaining source.old)) }
    ensures whole_if_begun { IfErr result (λ fault. fault ≡ RunFault.Write → IsTakenWhole (S.remaining source.old)) }
    ensures answer { IfOk result (λ kind. SendsAnswer choice (S.remaining source.old) kind (K.contents sink.old) (K.contents sink.new)) }
    ensures finished { OnOk result (K.IsFinished sink.new) }
    ensures worked { OnOk result (K.failures sink.new ≡ K.failures sink.old) }
    ensures write_failed { IfErr result (λ fault. fault ≡ RunFault.Write → CountsOneFailure (K.failures sink.old) (K.failures sink.new)) }
    ensures beginning { IfErr result (λ fault. fault ≡ RunFault.Write →
        SendsBeginning choice (S.remaining source.old) (K.contents sink.old) (K.contents sink.new)) }
    ensures read_failed { IfErr result (λ fault. fault ≡ RunFault.Read → CountsOneFailure (S.failures source.old) (S.failures source.new)) }
    ensures unfailed { OnOk result (S.failures source.new ≡ S.failures source.old) }
    ensures unfailed_otherwise { IfErr result (λ fault. fault ≢ RunFault.Read → S.failures source.new ≡ S.failures source.old) }
    ensures too_long { IfErr result (λ fault. fault ≡ RunFault.TooLong → IsTooLong (S.remaining source.old)) }
    ensures untouched { IfErr result (λ fault. fault ≢ RunFault.Write → sink.new ≡ sink.old) }
{
    let outcome = read_source(alloc, source)?;
    let mut answer = Vec::new(alloc);
    let kind = solve_outcome(alloc, outcome, choice, &mut answer)?;
    send(sink, &answer)?;
    Ok(kind)
}

// The instance or the fault of all bytes of a source, read piece by piece.
fn read_source<S: Source>(
    alloc: Global,
    source: &mut S,
) -> Result<Result<Instance, Refusal>, RunFault>
    ensures whole { OnOk result (IsTakenWhole (S.remaining source.old)) }
    ensures read { IfOk result (ReadsGiven (S.remaining source.old)) }
    ensures unfailed { OnOk result (S.failures source.new ≡ S.failures source.old) }
    ensures failed { IfErr result (IsReadFault (S.remaining source.old) (S.failures source.old) (S.failures source.new)) }
{
    let mut room = zeros(alloc, PIECE)?;
    let mut reader = Reader::new(alloc);
    feed_all(alloc, source, &mut reader, room.as_mut_slice())?;
    match reader.end(alloc) {
        Ok(outcome) => Ok(outcome),
        Err(NoMemory) => Err(RunFault::NoMemory),
    }
}

// Feeds a new reader all bytes of a source, piece by piece.
fn feed_all<S: Source>(
    alloc: Global,
    source: &mut S,
    reader: &mut Reader,
    piece: &mut [u8],
) -> Result<(), RunFault>
    requires room { 1 ≤ length piece.old }
    requires begun { StandsFor limits reader.old [] }
    ensures taken { OnOk result (HasTakenAll reader.new (S.remaining source.old)) }
    ensures unfailed { OnOk result (S.failures source.new ≡ S.failures source.old) }
    ensures failed { IfErr result (IsReadFault (S.remaining source.old) (S.failures source.old) (S.failures source.new)) }
{
    'reads: loop {
        let Ok(count) = source.read(piece) else {
            return Err(RunFault::Read);
        };
        if count == 0 {
            return Ok(());
        }
        match reader.feed(alloc, &piece[..count]) {
            Ok(()) => {}
            Err(FeedFault::NoMemory) => return Err(RunFault::NoMemory),
            Err(FeedFault::TooLong) => return Err(RunFault::TooLong),
        }
    }
}

// Space for a piece.
fn zeros(alloc: Global, size: usize) -> Result<Vec<u8>, AllocError>
    ensures { IfOk result (λ piece. length piece.items ≡ size) }
{
    vec![in alloc; 0; size]
}

/// Writes a text and finishes.
///
/// Nothing is retried: the first failure of the sink ends it.
///
/// # Errors
///
/// `Write`, and no other. The sink has taken a beginning of the text, perhaps all of it.
pub fn send<K: Sink>(sink: &mut K, text: &[u8]) -> Result<(), RunFault>
    ensures taken { OnOk result (Appends (K.contents sink.old) (K.contents sink.new) text.now) }
    ensures finished { OnOk result (K.IsFinished sink.new) }
    ensures worked { OnOk result (K.failures sink.new ≡ K.failures sink.old) }
    ensures is_write { IfErr result (λ fault. fault ≡ RunFault.Write) }
    ensures failed { OnErr result (CountsOneFailure (K.failures sink.old) (K.failures sink.new)) }
    ensures beginning { OnErr result (TakesBeginning (K.contents sink.old) (K.contents sink.new) text.now) }
{
    let mut taken = 0;
    'writes: while taken < text.len() {
        match sink.write(&text[taken..]) {
            Ok(count) => taken += count,
            Err(_) => return Err(RunFault::Write),
        }
    }
    match sink.finish() {
        Ok(()) => Ok(()),
        Err(_) => Err(RunFault::Write),
    }
}
