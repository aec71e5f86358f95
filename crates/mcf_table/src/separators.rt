//! What separates the fields of a text, as its heads show.
ghost use Rattle.std.specs.Prelude.{◌≡◌, ◌+◌, ◌<◌, ◌==◌, ◌-◌, ◌⊎◌, ◌∷◌, ◌≢◌, [], IfNone, IfSome, IsTrue, IsFalse, count_by, false, length, map, position, slice_index, slice_index_or, take};
ghost use Rattle.std.specs.List.{list_any};
ghost use Rattle.mcf_table.specs.Rows.{IsSeparator, quote};
ghost use Rattle.mcf_table.specs.Separators.{SplitsBest, back_unquoted, ends_line, front_lines, front_unquoted, head_line, is_head, is_written, parts_of, written_lines};
ghost use Rattle.mcf_table.specs.Private.Found.{IsAbove, IsRank, with_more};

use crate::blanks::trimmed;
use crate::cuts::first_of;
use crate::fields::is_quote;
use crate::heads::LOOKED;
use crate::line_ends::unmarked;

// How well a byte splits the line of the heads.
#[derive(Clone, Copy)]
pub(crate) struct Rank {
    // How many of the wanted heads it gives.
    pub(crate) wanted: usize,
    // How often it stands there.
    pub(crate) count: usize,
}

// A line, and what follows it.
#[derive(Clone, Copy)]
struct Written<'t> {
    line: &'t [u8],
    rest: &'t [u8],
}

/// The byte that separates the fields of a text, as its heads show: of the comma, the semicolon and
/// the tab the one that splits one of the first ten lines that aren't blank into most of the wanted
/// heads, and among those into most heads; the first of these three if they split it alike. An
/// ASCII letter is the same in either case.
pub fn separator_of(text: &[u8], wanted: &[&[u8]]) -> u8
    ensures best { SplitsBest (front_lines text.now) (map (λ head. head.now) wanted.now) result }
    ensures allowed { IsSeparator result }
{
    let plain = unmarked(text);
    let comma = best_rank(plain, b',', wanted);
    let semicolon = best_rank(plain, b';', wanted);
    let tab = best_rank(plain, b'\t', wanted);
    if is_above(semicolon, comma) {
        if is_above(tab, semicolon) {
            b'\t'
        } else {
            b';'
        }
    } else if is_above(tab, comma) {
        b'\t'
    } else {
        b','
    }
}

// How well this byte splits the line that may have the heads.
fn best_rank(text: &[u8], byte: u8, wanted: &[&[u8]]) -> Rank
    ensures { IsRank (head_line (map (λ head. head.now) wanted.now) byte (take 10 (written_lines text.now))) (map (λ head. head.now) wanted.now) byte result }
{
    match rank_in(text, byte, wanted, LOOKED) {
        Some(rank) => rank,
        None => rank_of(&[], byte, wanted),
    }
}

// How well this byte splits the line that may have the heads, among so many that aren't blank.
fn rank_in(text: &[u8], byte: u8, wanted: &[&[u8]], count: usize) -> Option<Rank>
    ensures some { IfSome result (λ rank. take count (written_lines text.now) ≢ []) }
    ensures rank { IfSome result (IsRank (head_line (map (λ head. head.now) wanted.now) byte (take count (written_lines text.now))) (map (λ head. head.now) wanted.now) byte) }
    ensures none { IfNone result (take count (written_lines text.now) ≡ []) }
{
    if count == 0 {
        return None;
    }
    match next_written(text) {
        Some(next) => {
            let here = rank_of(next.line, byte, wanted);
            let later = rank_in(next.rest, byte, wanted, count - 1);
            Some(with_more(here, later))
        }
        None => None,
    }
}

// The later one, if there is one with more of the wanted heads.
fn with_more(here: Rank, later: Option<Rank>) -> Rank
    ensures { result ≡ with_more here later }
{
    match later {
        Some(later) if here.wanted < later.wanted => later,
        _ => here,
    }
}

// Whether the first splits better.
fn is_above(one: Rank, other: Rank) -> bool
    ensures yes { IsTrue result → IsAbove one other }
    ensures no { IsFalse result → ¬ IsAbove one other }
{
    other.wanted < one.wanted || (other.wanted == one.wanted && other.count < one.count)
}

// How well this byte splits the line.
fn rank_of(line: &[u8], byte: u8, wanted: &[&[u8]]) -> Rank
    ensures { IsRank line.now (map (λ head. head.now) wanted.now) byte result }
{
    Rank {
        wanted: wanted_count(line, byte, wanted),
        count: byte_count(line, byte),
    }
}

// How many of the wanted heads stand between these bytes.
fn wanted_count(line: &[u8], byte: u8, wanted: &[&[u8]]) -> usize
    ensures { result ≡ count_by (λ head. list_any (is_head head.now) (parts_of byte line.now)) wanted.now }
{
    wanted
        .iter()
        .filter(|head| has_head(line, byte, **head))
        .count()
}

// How often the byte stands in the line.
fn byte_count(line: &[u8], byte: u8) -> usize
    ensures { result ≡ count_by (λ b. b == byte) line.now }
{
    line.iter().filter(|b| **b == byte).count()
}

// Whether the head stands between these bytes.
fn has_head(line: &[u8], byte: u8, head: &[u8]) -> bool
    ensures { result ≡ list_any (is_head head.now) (parts_of byte line.now) }
{
    let mut rest = line;
    'parts: while let Some(end) = first_of(byte, rest) {
        if is_head(head, &rest[..end]) {
            return true;
        }
        rest = &rest[end + 1..];
    }
    is_head(head, rest)
}

// Whether the part is this head.
fn is_head(head: &[u8], part: &[u8]) -> bool
    ensures { result ≡ is_head head.now part.now }
{
    back_unquoted(front_unquoted(trimmed(part))).eq_ignore_ascii_case(head)
}

// The text without the quotes in front.
fn front_unquoted(text: &[u8]) -> &[u8]
    ensures { result.now ≡ front_unquoted text.now }
{
    let mut rest = text;
    'quotes: while is_quote(rest) {
        rest = &rest[1..];
    }
    rest
}

// The text without the quotes at its end.
fn back_unquoted(text: &[u8]) -> &[u8]
    ensures { result.now ≡ back_unquoted text.now }
{
    let mut rest = text;
    'quotes: while is_end_quote(rest) {
        rest = &rest[..rest.len() - 1];
    }
    rest
}

// Whether the last byte is a quote.
fn is_end_quote(text: &[u8]) -> bool
    ensures yes { IsTrue result → (0 < length text.now) × (slice_index text.now (length text.now - 1) ≡ quote) }
    ensures no { IsFalse result → 0 < length text.now → (slice_index text.now (length text.now - 1) == quote) ≡ false }
{
    !text.is_empty() && text[text.len() - 1] == b'"'
}

// The first line that isn't blank; empty if there is none.
pub(crate) fn first_line(text: &[u8]) -> &[u8]
    ensures { result.now ≡ slice_index_or (written_lines text.now) 0 [] }
{
    match next_written(text) {
        Some(next) => next.line,
        None => &[],
    }
}

// The first line that isn't blank, and what follows it; none if there is none.
fn next_written(text: &[u8]) -> Option<Written<'_>>
    ensures some { IfSome result (λ next. written_lines text.now ≡ next.line.now ∷ written_lines next.rest.now) }
    ensures none { IfNone result (written_lines text.now ≡ []) }
{
    let mut rest = text;
    'lines: while let Some(end) = line_end(rest) {
        if is_written(&rest[..end]) {
            return Some(Written {
                line: &rest[..end],
                rest: &rest[end + 1..],
            });
        }
        rest = &rest[end + 1..];
    }
    if is_written(rest) {
        Some(Written {
            line: rest,
            rest: &[],
        })
    } else {
        None
    }
}

// The place of the first byte that ends a line.
fn line_end(text: &[u8]) -> Option<usize>
    ensures { result ≡ position ends_line text.now }
{
    text.iter()
        .position(|byte| *byte == b'\n' || *byte == b'\r')
}

// Whether the line isn't blank.
fn is_written(line: &[u8]) -> bool
    ensures { result ≡ is_written line.now }
{
    !trimmed(line).is_empty()
}
