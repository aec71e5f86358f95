//! Many cells in one buffer.
ghost use Rattle.std.specs.Prelude.{◌≡◌, ◌==◌, ◌∷◌, [], ℕ, List, IfOk, length, not};
ghost use Rattle.std.specs.List.{list_any};
ghost use Rattle.mcf_table.specs.Rows.{doubled};

use crate::blanks::trimmed;
use mcf_text::NoMemory;
use std::alloc::Global;
use std::marker::Model;

// Where a cell stands in the buffer.
#[derive(Clone, Copy)]
pub(crate) struct Span {
    start: usize,
    len: usize,
}

// Cells, in one buffer. Clauses see their list.
#[derive(Drop)]
pub(crate) struct Cells {
    bytes: Vec<u8>,
    spans: Vec<Span>,
}

impl Model for Cells {
    ghost use Rattle.std.specs.Prelude.{ℕ, ◌+◌, ◌≤◌, All, List, length, map, take, drop};

    ghost Value = { List (List ℕ) };

    ghost view = { λ cells. map (λ s. take s.len (drop s.start cells.bytes.items)) cells.spans.items };

    ghost invariant = { λ cells. All (λ s. s.start + s.len ≤ length cells.bytes.items) cells.spans.items };
}

impl Cells {
    ghost use Rattle.std.specs.Prelude.{◌≡◌, ◌<◌, ◌≤◌, ◌∷◌, ◌++◌, [], ℕ, List, OnErr, OnOk, drop, length, slice_index_or};
    ghost use Rattle.std.specs.List.{list_any};
    ghost use Rattle.mcf_table.specs.Blanks.{trimmed};
    ghost use Rattle.mcf_table.specs.Texts.{is_filled};
    ghost use Rattle.mcf_table.specs.Private.Found.{IsContent};

    // No cells, without any allocation.
    pub(crate) fn new(alloc: Global) -> Cells
        ensures { result ≡ [] }
    {
        Cells {
            bytes: Vec::new(alloc),
            spans: Vec::new(alloc),
        }
    }

    // How many cells there are.
    pub(crate) fn len(&self) -> usize
        ensures { result ≡ length self.now }
    {
        self.spans.len()
    }

    // The cell at this place.
    pub(crate) fn cell(&self, place: usize) -> &[u8]
        requires { place < length self.now }
        ensures { result.now ≡ slice_index_or self.now place [] }
    {
        let Span { start, len } = self.spans[place];
        &self.bytes[start..start + len]
    }

    // Appends a cell.
    pub(crate) fn push(&mut self, cell: &[u8]) -> Result<(), NoMemory>
        ensures pushed { OnOk result (self.new ≡ self.old ++ cell.now ∷ []) }
        ensures kept { OnErr result (self.new ≡ self.old) }
    {
        let start = self.bytes.len();
        let len = cell.len();
        self.bytes.extend_from_slice(cell)?;
        self.spans.push(Span { start, len })?;
        Ok(())
    }

    // Whether a cell from this place on isn't empty.
    pub(crate) fn is_filled_from(&self, first: usize) -> bool
        requires { first ≤ length self.now }
        ensures { result ≡ list_any is_filled (drop first self.now) }
    {
        has_filled(&self.spans[first..])
    }

    // Appends the cell of this content, where each quote is twice in a quoted one.
    pub(crate) fn push_content(
        &mut self,
        alloc: Global,
        content: &[u8],
        is_quoted: bool,
    ) -> Result<(), NoMemory>
        ensures { OnOk result ((inside : List ℕ) → IsContent is_quoted content.now inside → self.new ≡ self.old ++ trimmed inside ∷ []) }
    {
        if is_quoted {
            let inside = undoubled(alloc, content)?;
            self.push(trimmed(&inside))?;
        } else {
            self.push(trimmed(content))?;
        }
        Ok(())
    }
}

// The bytes in which each quote is twice, with each once.
fn undoubled(alloc: Global, bytes: &[u8]) -> Result<Vec<u8>, NoMemory>
    ensures { IfOk result (λ made. (inside : List ℕ) → bytes.now ≡ doubled inside → made.items ≡ inside) }
{
    let mut made = Vec::with_capacity(alloc, bytes.len())?;
    let mut at = 0;
    'bytes: while at < bytes.len() {
        made.push(bytes[at])?;
        at += step_len(bytes[at]);
    }
    Ok(made)
}

// How many bytes write this one.
fn step_len(byte: u8) -> usize
    ensures { result ≡ length (doubled (byte ∷ [])) }
{
    if byte == b'"' { 2 } else { 1 }
}

// Whether a cell isn't empty.
fn has_filled(spans: &[Span]) -> bool
    ensures { result ≡ list_any (λ s. not (s.len == 0)) spans.now }
{
    spans.iter().any(|span| span.len != 0)
}
