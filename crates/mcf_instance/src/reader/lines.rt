//! Lines, one after another: runs of arc lines that are valid and plain, and any other line.
ghost use Rattle.std.specs.Prelude.{◌≡◌, ◌+◌, ◌≤◌, ◌∷◌, ℕ, List, drop, None, Some, IfOk, OnErr, OnOk, length};
ghost use Rattle.mcf_flows.specs.Limits.{limits, line_limit};
ghost use Rattle.mcf_instance.specs.Memory.{NamesNodes};
ghost use Rattle.mcf_instance.specs.Private.TakenArcs.{ReadsLines, WantsForLines};
ghost use Rattle.mcf_instance.specs.ReadOn.{HasRead};
ghost use Rattle.mcf_text.specs.Feed.{BeginsWithLines};

use crate::reader::state::ReaderState;
use mcf_text::{NoMemory, is_kept};
use std::alloc::Global;

/// Lines that were taken, and their bytes.
#[derive(Clone, Copy)]
pub(crate) struct Run {
    pub(crate) lines: usize,
    pub(crate) bytes: usize,
}

/// Takes the arc lines at the front of a text, as long as they are valid and plain; none before the
/// problem line.
pub(crate) fn take_arcs(state: &mut ReaderState, text: &[u8]) -> Result<Run, NoMemory>
    requires { state.old.refusal ≡ None }
    ensures good { OnOk result (state.new.refusal ≡ None) }
    ensures lines { IfOk result (λ run. BeginsWithLines text.now run.lines run.bytes) }
    ensures read { IfOk result (λ run. ReadsLines state.old text.now state.new run.lines (drop run.bytes text.now)) }
    ensures wants { OnErr result (WantsForLines state.old text.now) }
    ensures some { OnErr result (1 ≤ length text.now) }
{
    let Some(header) = state.header() else {
        return Ok(Run { lines: 0, bytes: 0 });
    };
    let mut lines = 0;
    let mut bytes = 0;
    'arcs: while bytes < text.len() {
        let Some(len) = state.take_arc(header, &text[bytes..])? else {
            return Ok(Run { lines, bytes });
        };
        lines += 1;
        bytes += len;
    }
    Ok(Run { lines, bytes })
}

/// Takes the line with this number. If it isn't significant (kept), nothing changes.
pub(crate) fn read_line(
    alloc: Global,
    state: &mut ReaderState,
    number: u128,
    line: &[u8],
) -> Result<(), NoMemory>
    requires { (1 ≤ number) × (number ≤ line_limit) }
    ensures read { OnOk result ((text : List ℕ) (next : ℕ) (rest : List (ℕ × List ℕ)) → HasRead limits text state.old next ((number, line.now) ∷ rest)
        → HasRead limits text state.new (number + 1) rest) }
    ensures wants { OnErr result ((text : List ℕ) (next : ℕ) (rest : List (ℕ × List ℕ)) → HasRead limits text state.old next ((number, line.now) ∷ rest)
        → NamesNodes limits text) }
{
    if !is_kept(line) {
        return Ok(());
    }
    state.step(alloc, number, line)?;
    Ok(())
}
