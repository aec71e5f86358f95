//! The reader of instance texts that arrive in pieces (chunks).
ghost use Rattle.std.specs.Prelude.{◌≡◌, ◌≢◌, ◌+◌, ◌<◌, ◌≤◌, ◌++◌, ◌∷◌, [], ℕ, List, false, length, None, IfErr, IfOk, IfSome, IsTrue, OnErr, OnOk};
ghost use Rattle.mcf_instance.specs.Feeding.{StandsFor};
ghost use Rattle.mcf_flows.specs.Limits.{limits, line_limit};
ghost use Rattle.mcf_instance.specs.Memory.{NamesNodes};
ghost use Rattle.mcf_instance.specs.ReadOn.{HasReadOn, HasReadPieces};
ghost use Rattle.mcf_text.specs.Feed.{byte_limit};

use crate::reader::lines::{read_line, take_arcs};
use crate::reader::state::ReaderState;
use mcf_flows::{Instance, Refusal};
use mcf_text::{BYTE_LIMIT, FeedFault, LineFeed, NoMemory};
use std::alloc::Global;
use std::marker::Model;

/// Reads an instance text that arrives in pieces, which may be cut anywhere, as `read` reads a
/// whole one.
///
/// Clauses see which texts a reader stands for: the pieces that it took, joined. It keeps the bytes
/// of the current line, and after the first faulty line none, but continues to count them.
#[derive(Drop)]
pub struct Reader {
    lines: LineFeed,
    state: ReaderState,
    fed: u64,
    fault: Option<FeedFault>,
}

impl Model for Reader {
    ghost use Rattle.std.specs.Prelude.{◌≡◌, ◌≤◌, false, None};
    ghost use Rattle.mcf_instance.specs.Feeding.{ReaderData};
    ghost use Rattle.mcf_text.specs.Feed.{byte_limit};

    ghost Value = { ReaderData };

    ghost view = { λ r. record { lines = r.lines; state = r.state; fed = r.fed; fault = r.fault } };

    ghost invariant = { λ r. (r.fed ≤ byte_limit) × (r.lines.has_ended ≡ false) × (r.fault ≡ None → r.lines.fed ≤ r.fed) };
}

impl Reader {
    ghost use Rattle.std.specs.Prelude.{◌↔◌, Some, Err};
    ghost use Rattle.mcf_instance.specs.Reading.{reading};

    /// The reader of the empty text, which allocates nothing.
    pub fn new(alloc: Global) -> Reader
        ensures { StandsFor limits result [] }
    {
        Reader {
            lines: LineFeed::new(alloc),
            state: ReaderState::new(alloc),
            fed: 0,
            fault: None,
        }
    }

    /// Takes the next piece, of any length.
    ///
    /// # Errors
    ///
    /// `TooLong` exactly if the bytes taken so far and the piece are more than 10^18 together,
    /// whatever they are; `NoMemory` if an allocation is refused, for the piece or for what its
    /// lines name; never for an empty piece, and never after a faulty line, so that running out of
    /// memory loses no refusal. A reader that has refused a piece takes no other: it gives that
    /// same fault for each.
    pub fn feed(&mut self, alloc: Global, piece: &[u8]) -> Result<(), FeedFault>
        ensures ok { OnOk result ((text : List ℕ) → StandsFor limits self.old text → StandsFor limits self.new (text ++ piece.now)) }
        ensures unrefused { OnOk result (self.new.fault ≡ None) }
        ensures too_long { (text : List ℕ) → StandsFor limits self.old text → (result ≡ Err FeedFault.TooLong) ↔ (byte_limit < length text + length piece.now) }
        ensures wants { result ≡ Err FeedFault.NoMemory → self.old.fault ≡ None → 1 ≤ length piece.now }
        ensures after_fault { (text : List ℕ) → StandsFor limits self.old text → self.old.state.refusal ≢ None → result ≢ Err FeedFault.NoMemory }
        ensures refused { IfErr result (λ fault. self.new.fault ≡ Some fault) }
        ensures stays { IfSome self.old.fault (λ fault. result ≡ Err fault) }
    {
        if let Some(fault) = self.fault {
            return Err(fault);
        }
        let len = piece.len() as u64;
        let taken = if BYTE_LIMIT - self.fed < len {
            Err(FeedFault::TooLong)
        } else {
            take_piece(alloc, &mut self.lines, &mut self.state, piece)
        };
        match taken {
            Ok(()) => {
                self.fed += len;
                Ok(())
            }
            Err(fault) => {
                self.fault = Some(fault);
                Err(fault)
            }
        }
    }

    /// The instance that the text stands for, or its first fault: what `read` gives for the joined
    /// pieces. It can't be called after a refused piece.
    ///
    /// # Errors
    ///
    /// `NoMemory` if an allocation is refused for a last line that no line feed ends.
    pub fn end(self, alloc: Global) -> Result<Result<Instance, Refusal>, NoMemory>
        requires { self.fault ≡ None }
        ensures exact { (text : List ℕ) → StandsFor limits self text → IfOk result (λ outcome. outcome ≡ reading limits text) }
        ensures wants { (text : List ℕ) → StandsFor limits self text → OnErr result (NamesNodes limits text) }
        ensures unfinished { OnErr result (1 ≤ length self.lines.rest) }
    {
        let Reader {
            mut lines,
            mut state,
            fed: _,
            fault: _,
        } = self;
        lines.end();
        read_finished(alloc, &mut lines, &mut state)?;
        Ok(state.finish(lines.popped() + 1))
    }
}

// Takes a piece and its finished lines; after a faulty line, nothing is kept.
fn take_piece(
    alloc: Global,
    lines: &mut LineFeed,
    state: &mut ReaderState,
    piece: &[u8],
) -> Result<(), FeedFault>
    requires { lines.old.has_ended ≡ false }
    ensures read { OnOk result ((text : List ℕ) → HasReadOn limits text lines.old state.old → HasReadOn limits (text ++ piece.now) lines.new state.new) }
    ensures too_long { result ≡ Err FeedFault.TooLong → byte_limit < lines.old.fed + length piece.now }
    ensures wants { result ≡ Err FeedFault.NoMemory → 1 ≤ length piece.now }
    ensures after_fault { state.old.refusal ≢ None → OnErr result ⊥ }
    ensures is_open { lines.new.has_ended ≡ false }
    ensures counted { OnOk result (lines.new.fed ≤ lines.old.fed + length piece.now) }
{
    if piece.is_empty() {
        return Ok(());
    }
    if state.refusal().is_some() {
        return Ok(());
    }
    lines.feed(piece)?;
    match read_finished(alloc, lines, state) {
        Ok(()) => {
            forget_after_fault(alloc, lines, state);
            Ok(())
        }
        Err(NoMemory) => Err(FeedFault::NoMemory),
    }
}

// Frees the kept bytes after a faulty line.
fn forget_after_fault(alloc: Global, lines: &mut LineFeed, state: &ReaderState)
    requires { lines.old.has_ended ≡ false }
    ensures read { (text : List ℕ) → HasReadOn limits text lines.old state.now → HasReadOn limits text lines.new state.now }
    ensures is_open { lines.new.has_ended ≡ false }
    ensures counted { lines.new.fed ≤ lines.old.fed }
{
    if state.refusal().is_some() {
        *lines = LineFeed::new(alloc);
    }
}

// Takes the finished lines, up to the first faulty one; none after a faulty line.
fn read_finished(
    alloc: Global,
    lines: &mut LineFeed,
    state: &mut ReaderState,
) -> Result<(), NoMemory>
    ensures read { OnOk result ((text : List ℕ) → HasReadOn limits text lines.old state.old → HasReadOn limits text lines.new state.new) }
    ensures drained { OnOk result (state.new.refusal ≡ None → IsTrue lines.new.has_ended → lines.new.rest ≡ []) }
    ensures wants { OnErr result ((text : List ℕ) → HasReadOn limits text lines.old state.old → NamesNodes limits text) }
    ensures unfinished { OnErr result (1 ≤ length lines.old.rest) }
    ensures same_end { lines.new.has_ended ≡ lines.old.has_ended }
    ensures same_count { lines.new.fed ≡ lines.old.fed }
{
    'finished: while state.refusal().is_none() {
        pop_arcs(lines, state)?;
        let Some(line) = lines.pop() else {
            return Ok(());
        };
        read_line(alloc, state, line.number, line.bytes)?;
    }
    Ok(())
}

// Takes the arc lines that come next, as long as they are valid and plain.
fn pop_arcs(lines: &mut LineFeed, state: &mut ReaderState) -> Result<(), NoMemory>
    requires { state.old.refusal ≡ None }
    ensures good { OnOk result (state.new.refusal ≡ None) }
    ensures read { OnOk result ((text : List ℕ) → HasReadPieces limits text lines.old state.old → HasReadPieces limits text lines.new state.new) }
    ensures wants { OnErr result ((text : List ℕ) → HasReadPieces limits text lines.old state.old → NamesNodes limits text) }
    ensures some { OnErr result (1 ≤ length lines.old.rest) }
    ensures shorter { length lines.new.rest ≤ length lines.old.rest }
    ensures same_end { lines.new.has_ended ≡ lines.old.has_ended }
    ensures same_count { lines.new.fed ≡ lines.old.fed }
{
    let run = take_arcs(state, lines.rest())?;
    lines.pop_lines(run.lines, run.bytes);
    Ok(())
}
