//! The content of a line of an answer text.
ghost use Rattle.std.specs.Prelude.{◌≡◌, ◌≤◌, false, option_map, IfSome};
ghost use Rattle.mcf_answer.specs.Ranges.{IsAmount, IsArcInRange, IsNodeInRange};
ghost use Rattle.mcf_answer.specs.Said.{amount_of, arc_of, code_of, cost_said, line_number_of, node_of, member_said, moved_said, number_within, one_behind, price_said};
ghost use Rattle.mcf_answer.specs.Said.{refusal_said, sent_said, set_said, side_of, three_behind, two_behind, version_said};
ghost use Rattle.mcf_answer.specs.SparseSolution.{IsMoved};
ghost use Rattle.mcf_answer.specs.Token.{is_word, token_of, tokens_of};
ghost use Rattle.mcf_text.specs.Fields.{fields_of};
ghost use Rattle.mcf_text.specs.Whole.{is_whole};
ghost use Rattle.mcf_flows.specs.Limits.{line_limit};

use crate::answers::Sent;
use mcf_flows::{AMOUNT_LIMIT, ARC_LIMIT, Code, LINE_LIMIT, NODE_LIMIT, Refusal, Side};
use mcf_text::{ArcId, NodeId, Whole, fields, whole};

// ---- a field

// The number in a field, if it is one within the range.
fn number(field: &[u8], lo: i128, hi: i128) -> Option<i128>
    ensures { result ≡ number_within lo hi (token_of field.now) }
{
    match whole(field, lo, hi) {
        Whole::Value(value) => Some(value),
        _ => None,
    }
}

// A cost, a flow or a price.
fn amount(field: &[u8]) -> Option<i128>
    ensures value { result ≡ amount_of (token_of field.now) }
    ensures in_range { IfSome result IsAmount }
{
    number(field, -(AMOUNT_LIMIT as i128), AMOUNT_LIMIT as i128)
}

// The number of a node, or a number of nodes.
fn count(field: &[u8]) -> Option<u32>
    ensures value { result ≡ node_of (token_of field.now) }
    ensures in_range { IfSome result IsNodeInRange }
{
    let value = number(field, 1, i128::from(NODE_LIMIT))?;
    Some(value as u32)
}

// A node.
fn node(field: &[u8]) -> Option<NodeId>
    ensures value { result ≡ node_of (token_of field.now) }
    ensures in_range { IfSome result IsNodeInRange }
{
    let value = count(field)?;
    Some(NodeId::new(value))
}

// An arc.
fn arc(field: &[u8]) -> Option<ArcId>
    ensures value { result ≡ arc_of (token_of field.now) }
    ensures in_range { IfSome result IsArcInRange }
{
    let value = number(field, 1, i128::from(ARC_LIMIT))?;
    Some(ArcId::new(value as u32))
}

// The number of a line.
fn line_number(field: &[u8]) -> Option<u128>
    ensures value { result ≡ line_number_of (token_of field.now) }
    ensures in_range { IfSome result (λ n. (1 ≤ n) × (n ≤ line_limit)) }
{
    let value = number(field, 1, LINE_LIMIT as i128)?;
    Some(value as u128)
}

// The side that a field names.
fn side(field: &[u8]) -> Option<Side>
    ensures { result ≡ side_of (token_of field.now) }
{
    if is_word(field, b"send") {
        Some(Side::Send)
    } else if is_word(field, b"take") {
        Some(Side::Take)
    } else {
        None
    }
}

// The code that a field names.
#[tactic(auto, using(crate::proofs::Words::code_answers))]
fn code(field: &[u8]) -> Option<Code>
    ensures { result ≡ code_of (token_of field.now) }
{
    Code::of(field)
}

// Whether a field is this word; the word isn't a number.
fn is_word(field: &[u8], word: &[u8]) -> bool
    requires { is_whole word.now ≡ false }
    ensures { result ≡ is_word word.now (token_of field.now) }
{
    field == word
}

// ---- a line

// The field after this first word, if the line has exactly one.
fn one_behind<'t>(line: &'t [u8], word: &[u8]) -> Option<&'t [u8]>
    requires { is_whole word.now ≡ false }
    ensures { option_map (λ f. token_of f.now) result ≡ one_behind word.now (tokens_of (fields_of line.now)) }
{
    let mut parts = fields(line);
    match (parts.next(), parts.next(), parts.next()) {
        (Some(first), Some(one), None) if is_word(first, word) => Some(one),
        _ => None,
    }
}

// The two fields after this first word, if the line has exactly two.
fn two_behind<'t>(line: &'t [u8], word: &[u8]) -> Option<(&'t [u8], &'t [u8])>
    requires { is_whole word.now ≡ false }
    ensures { option_map (λ f. (token_of f.0.now, token_of f.1.now)) result ≡ two_behind word.now (tokens_of (fields_of line.now)) }
{
    let mut parts = fields(line);
    match (parts.next(), parts.next(), parts.next(), parts.next()) {
        (Some(first), Some(one), Some(two), None) if is_word(first, word) => Some((one, two)),
        _ => None,
    }
}

// The three fields after this first word, if the line has exactly three.
fn three_behind<'t>(line: &'t [u8], word: &[u8]) -> Option<(&'t [u8], &'t [u8], &'t [u8])>
    requires { is_whole word.now ≡ false }
    ensures { option_map (λ f. (token_of f.0.now, token_of f.1.now, token_of f.2.now)) result ≡ three_behind word.now (tokens_of (fields_of line.now)) }
{
    let mut parts = fields(line);
    let first = parts.next()?;
    match (parts.next(), parts.next(), parts.next(), parts.next()) {
        (Some(one), Some(two), Some(last), None) if is_word(first, word) => Some((one, two, last)),
        _ => None,
    }
}

/// The version of a line `v 2`.
#[tactic(auto, unfolding(crate::specs::Said::version_said))]
pub(crate) fn version_line(line: &[u8]) -> Option<i128>
    ensures { result ≡ version_said (tokens_of (fields_of line.now)) }
{
    let version = one_behind(line, b"v")?;
    number(version, 2, 2)
}

/// The cost of a line `s COST`.
#[tactic(auto, unfolding(crate::specs::Said::cost_said))]
pub(crate) fn cost_line(line: &[u8]) -> Option<i128>
    ensures value { result ≡ cost_said (tokens_of (fields_of line.now)) }
    ensures in_range { IfSome result IsAmount }
{
    let cost = one_behind(line, b"s")?;
    amount(cost)
}

/// The content of a line `f SRC DST FLOW`.
#[tactic(auto, unfolding(crate::specs::Said::sent_said))]
pub(crate) fn flow_line(line: &[u8]) -> Option<Sent>
    ensures { result ≡ sent_said (tokens_of (fields_of line.now)) }
{
    let (src, dst, flow) = three_behind(line, b"f")?;
    Some(Sent {
        src: node(src)?,
        dst: node(dst)?,
        flow: amount(flow)?,
    })
}

/// The arc and the flow of a line `g ARC FLOW`.
#[tactic(auto, unfolding(crate::specs::Said::moved_said))]
pub(crate) fn moved_line(line: &[u8]) -> Option<(ArcId, i128)>
    ensures value { result ≡ moved_said (tokens_of (fields_of line.now)) }
    ensures in_range { IfSome result IsMoved }
{
    let (named, flow) = two_behind(line, b"g")?;
    Some((arc(named)?, amount(flow)?))
}

/// The node and the price of a line `y ID PRICE`.
#[tactic(auto, unfolding(crate::specs::Said::price_said))]
pub(crate) fn price_line(line: &[u8]) -> Option<(NodeId, i128)>
    ensures value { result ≡ price_said (tokens_of (fields_of line.now)) }
    ensures in_range { IfSome result (λ y. IsNodeInRange y.0 × IsAmount y.1) }
{
    let (id, price) = two_behind(line, b"y")?;
    Some((node(id)?, amount(price)?))
}

/// The side and the number of nodes of a line `i K send` or `i K take`.
#[tactic(auto, unfolding(crate::specs::Said::set_said))]
pub(crate) fn set_line(line: &[u8]) -> Option<(Side, u32)>
    ensures value { result ≡ set_said (tokens_of (fields_of line.now)) }
    ensures in_range { IfSome result (λ set. IsNodeInRange set.1) }
{
    let (size, named) = two_behind(line, b"i")?;
    let size = count(size)?;
    Some((side(named)?, size))
}

/// The node of a line `x ID`.
#[tactic(auto, unfolding(crate::specs::Said::member_said))]
pub(crate) fn member_line(line: &[u8]) -> Option<NodeId>
    ensures { result ≡ member_said (tokens_of (fields_of line.now)) }
{
    let id = one_behind(line, b"x")?;
    node(id)
}

/// The refusal of a line `r LINE CODE`.
#[tactic(auto, unfolding(crate::specs::Said::refusal_said))]
pub(crate) fn refusal_line(line: &[u8]) -> Option<Refusal>
    ensures { result ≡ refusal_said (tokens_of (fields_of line.now)) }
{
    let (number, named) = two_behind(line, b"r")?;
    let line = line_number(number)?;
    Some(Refusal {
        line,
        code: code(named)?,
    })
}
