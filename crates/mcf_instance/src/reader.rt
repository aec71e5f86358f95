//! The one-pass reader of instance texts.
ghost use Rattle.std.specs.Prelude.{◌≡◌, IfOk, OnErr};
ghost use Rattle.mcf_flows.specs.Limits.{limits};
ghost use Rattle.mcf_instance.specs.Memory.{NamesNodes};
ghost use Rattle.mcf_instance.specs.Reading.{reading};

mod fields;
pub(crate) mod line;
mod lines;
mod pieces;
mod plain;
pub(crate) mod state;

use crate::reader::lines::{read_line, take_arcs};
use crate::reader::state::ReaderState;
use mcf_flows::{Instance, Refusal};
use mcf_text::{NoMemory, split_line};
pub use pieces::Reader;
use std::alloc::Global;

/// The instance that a text stands for, or its first fault.
///
/// The text is in the extended DIMACS format: a line `p min NODES ARCS` or `p asn NODES ARCS`, then
/// node lines, then arc lines, with comments and blank lines anywhere. It is read once, from the
/// front, up to the first faulty line. Memory is allocated for the nodes that the problem line
/// names and for the arcs that follow, but not for the number of arcs that it names.
///
/// # Errors
///
/// `NoMemory` if an allocation is refused; a text needs none if its first problem line isn't valid,
/// names no nodes or follows a fault.
pub fn read(alloc: Global, text: &[u8]) -> Result<Result<Instance, Refusal>, NoMemory>
    ensures exact { IfOk result (λ outcome. outcome ≡ reading limits text.now) }
    ensures wants { OnErr result (NamesNodes limits text.now) }
{
    let mut state = ReaderState::new(alloc);
    let mut rest = text;
    let mut next = 1u128;
    'lines: while let Some(parts) = split_line(rest) {
        read_line(alloc, &mut state, next, parts.0)?;
        if let Some(refusal) = state.refusal() {
            return Ok(Err(refusal));
        }
        let run = take_arcs(&mut state, parts.1)?;
        next += 1 + run.lines as u128;
        rest = &parts.1[run.bytes..];
    }
    Ok(state.finish(next))
}
