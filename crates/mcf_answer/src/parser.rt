//! Parsing of answers.
ghost use Rattle.std.specs.Prelude.{◌≡◌, ◌↔◌, length, IfErr, IfOk, IsTrue, Ok, OnErr, Some};
ghost use Rattle.mcf_answer.specs.Private.Draft.{run};
ghost use Rattle.mcf_answer.specs.Fits.{misfit};
ghost use Rattle.mcf_answer.specs.Parsing.{has_item_line, parsing};
ghost use Rattle.mcf_answer.specs.Spelling.{Spells};
ghost use Rattle.mcf_answer.specs.declared.answers.Answer.{Answer};
ghost use Rattle.mcf_answer.specs.declared.draft.Draft.TheVariants.{Empty};
ghost use Rattle.mcf_text.specs.Lines.{numbered_lines};
ghost use Rattle.mcf_text.specs.Row.{line_after};

use crate::answers::Answer;
use crate::draft::Draft;
use crate::shape::Shape;
use mcf_text::{NoMemory, is_kept, lines};
use std::alloc::Global;

/// The answer that a text spells, or the first line at which it can't spell one.
///
/// Fields are separated by any number and kind of blanks, numbers may have a plus sign and leading
/// zeros, and blank lines and comments are skipped.
///
/// # Errors
///
/// `NoMemory` if an allocation is refused; a text needs none if it has no line `f`, `g`, `y` or `x`
/// that has content and fits after the lines before it.
pub fn parse(alloc: Global, text: &[u8]) -> Result<Result<Answer, Shape>, NoMemory>
    ensures spelled { IfOk result (λ r. (a : Answer) → (r ≡ Ok a) ↔ Spells text.now a) }
    ensures misfit { IfOk result (λ r. IfErr r (λ shape. misfit text.now ≡ Some shape.line)) }
    ensures value { IfOk result (λ r. r ≡ parsing text.now) }
    ensures wants { OnErr result (IsTrue (has_item_line text.now)) }
{
    read_answer(alloc, text)
}

// The answer of the lines of a text.
fn read_answer(alloc: Global, text: &[u8]) -> Result<Result<Answer, Shape>, NoMemory>
    ensures value { IfOk result (λ r. r ≡ parsing text.now) }
    ensures wants { OnErr result (IsTrue (has_item_line text.now)) }
{
    let draft = match read_lines(alloc, text)? {
        Ok(draft) => draft,
        Err(line) => return Ok(Err(Shape { line })),
    };
    match draft.finish() {
        Some(answer) => Ok(Ok(answer)),
        None => Ok(Err(Shape {
            line: line_after(text),
        })),
    }
}

// The state after all lines, or the number of the first line that doesn't fit.
fn read_lines(alloc: Global, text: &[u8]) -> Result<Result<Draft, u128>, NoMemory>
    ensures value { IfOk result (λ r. r ≡ run Empty (numbered_lines 1 text.now)) }
    ensures wants { OnErr result (IsTrue (has_item_line text.now)) }
{
    let mut draft = Draft::Empty;
    for line in lines(text) {
        if is_kept(line.bytes) && !draft.take(alloc, line.bytes)? {
            return Ok(Err(line.number));
        }
    }
    Ok(Ok(draft))
}

// The number of the line after the last.
fn line_after(text: &[u8]) -> u128
    ensures { result ≡ line_after text.now }
{
    line_count(text) as u128 + 1
}

// The number of lines.
fn line_count(text: &[u8]) -> usize
    ensures { result ≡ length (numbered_lines 1 text.now) }
{
    lines(text).count()
}
