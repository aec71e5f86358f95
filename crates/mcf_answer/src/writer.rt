//! Answers as text.
ghost use Rattle.std.specs.Prelude.{◌≡◌, [], ◌∷◌, ◌++◌, Ok, map, flat_map, length, OnOk, OnErr, vec_len, vec_capacity, ◌+◌, ◌<◌, ◌≤◌};
ghost use Rattle.std.specs.List.{enumerate_from};
ghost use Rattle.mcf_answer.specs.BlockingSet.{IsBlockingSet};
ghost use Rattle.mcf_answer.specs.Parsing.{parsing};
ghost use Rattle.mcf_answer.specs.Private.Puts.{PutsText, field_text};
ghost use Rattle.mcf_answer.specs.Solution.{IsSolution};
ghost use Rattle.mcf_answer.specs.Spelling.{IsAnswer, Spells, flow_line, member_line, moved_line, price_line, set_lines, side_word as side_word_of};
ghost use Rattle.mcf_answer.specs.Spelling.{solution_lines, sparse_lines};
ghost use Rattle.mcf_answer.specs.SparseSolution.{IsSparseSolution};
ghost use Rattle.mcf_answer.specs.Token.{Word, Number};
ghost use Rattle.mcf_answer.specs.Written.{line_text, written};

use crate::answers::{Answer, BlockedAnswer, FlowAnswer, Sent, SparseAnswer};
use mcf_flows::{Refusal, Side};
use mcf_text::{ArcId, NoMemory, NodeId, put_number};

/// Appends the text of an answer: fields separated by one blank, numbers in decimal without a plus
/// sign and without leading zeros, each line ended by a line feed. The text spells this answer and
/// no other, and `parse` reads it back.
///
/// Fails only if the vector has to grow and the allocation is refused; the vector then keeps its
/// content. It never frees reserved capacity.
#[tactic(auto, using(crate::proofs::Parsed::reads_back))]
pub fn write(answer: &Answer, out: &mut Vec<u8>) -> Result<(), NoMemory>
    ensures ok { OnOk result (out.new.items ≡ out.old.items ++ written answer.now) }
    ensures err { OnErr result (out.new.items ≡ out.old.items) }
    ensures refused { OnErr result (vec_capacity out.old < vec_len out.old + length (written answer.now)) }
    ensures capacity { vec_capacity out.old ≤ vec_capacity out.new }
    ensures in_range { IsAnswer answer.now }
    ensures spells { Spells (written answer.now) answer.now }
    ensures reads_back { parsing (written answer.now) ≡ Ok answer.now }
{
    let length = out.len();
    let outcome = put_answer(out, answer);
    if outcome.is_err() {
        out.truncate(length);
    }
    outcome
}

// If memory runs out, each function below leaves a part of what it appends.

// Appends an answer.
#[tactic(auto, unfolding(crate::specs::Written::written, crate::specs::Spelling::spelling, crate::specs::Spelling::IsAnswer))]
fn put_answer(out: &mut Vec<u8>, answer: &Answer) -> Result<(), NoMemory>
    ensures puts { PutsText out.old out.new result (written answer.now) }
    ensures in_range { IsAnswer answer.now }
{
    match answer {
        Answer::Flow(flow) => put_solution(out, flow),
        Answer::Sparse(flow) => put_sparse(out, flow),
        Answer::Blocked(set) => put_set(out, set),
        Answer::Refused(refusal) => put_word_line(
            out,
            b"r",
            refusal.line as i128,
            refusal.code.word().as_bytes(),
        ),
    }
}

// Appends the lines of a flow answer.
fn put_solution(out: &mut Vec<u8>, flow: &FlowAnswer) -> Result<(), NoMemory>
    ensures puts { PutsText out.old out.new result (flat_map line_text (solution_lines flow.now)) }
    ensures in_range { IsSolution flow.now }
{
    put_line(out, b"s", &[flow.cost])?;
    put_sent(out, flow.sent.as_slice())?;
    put_prices(out, flow.prices.as_slice())
}

// Appends the lines of a sparse flow answer.
fn put_sparse(out: &mut Vec<u8>, sparse: &SparseAnswer) -> Result<(), NoMemory>
    ensures puts { PutsText out.old out.new result (flat_map line_text (sparse_lines sparse.now)) }
    ensures in_range { IsSparseSolution sparse.now }
{
    let cost = sparse.cost;
    put_line(out, b"v", &[2])?;
    put_line(out, b"s", &[cost])?;
    put_moved(out, sparse.moved.as_slice())?;
    put_prices(out, sparse.prices.as_slice())
}

// Appends the lines of a blocked answer.
fn put_set(out: &mut Vec<u8>, set: &BlockedAnswer) -> Result<(), NoMemory>
    ensures puts { PutsText out.old out.new result (flat_map line_text (set_lines set.now)) }
    ensures in_range { IsBlockingSet set.now }
{
    let nodes = set.nodes.as_slice();
    put_word_line(out, b"i", nodes.len() as i128, side_word(set.side))?;
    put_nodes(out, nodes)
}

// The word of a side.
fn side_word(side: Side) -> &'static [u8]
    ensures { result.now ≡ side_word_of side }
{
    match side {
        Side::Send => b"send",
        Side::Take => b"take",
    }
}

// Appends the flow lines.
fn put_sent(out: &mut Vec<u8>, sent: &[Sent]) -> Result<(), NoMemory>
    ensures { PutsText out.old out.new result (flat_map line_text (map flow_line sent.now)) }
{
    for s in sent {
        put_flow(out, *s)?;
    }
    Ok(())
}

// Appends the flow line of an arc.
fn put_flow(out: &mut Vec<u8>, s: Sent) -> Result<(), NoMemory>
    ensures { PutsText out.old out.new result (line_text (flow_line s)) }
{
    let numbers = [i128::from(s.src.get()), i128::from(s.dst.get()), s.flow];
    put_line(out, b"f", &numbers)
}

// Appends the lines of the named arcs.
fn put_moved(out: &mut Vec<u8>, moved: &[(ArcId, i128)]) -> Result<(), NoMemory>
    ensures { PutsText out.old out.new result (flat_map line_text (map moved_line moved.now)) }
{
    for m in moved {
        put_arc(out, *m)?;
    }
    Ok(())
}

// Appends the line of a named arc.
fn put_arc(out: &mut Vec<u8>, m: (ArcId, i128)) -> Result<(), NoMemory>
    ensures { PutsText out.old out.new result (line_text (moved_line m)) }
{
    put_line(out, b"g", &[i128::from(m.0.get()), m.1])
}

// Appends the price lines, from node 1 on.
fn put_prices(out: &mut Vec<u8>, prices: &[i128]) -> Result<(), NoMemory>
    ensures { PutsText out.old out.new result (flat_map line_text (map price_line (enumerate_from 1 prices.now))) }
{
    for (k, price) in prices.iter().enumerate() {
        put_price(out, k + 1, *price)?;
    }
    Ok(())
}

// Appends the price line of a node.
fn put_price(out: &mut Vec<u8>, id: usize, price: i128) -> Result<(), NoMemory>
    ensures { PutsText out.old out.new result (line_text (price_line (id, price))) }
{
    put_line(out, b"y", &[id as i128, price])
}

// Appends the member lines.
fn put_nodes(out: &mut Vec<u8>, nodes: &[NodeId]) -> Result<(), NoMemory>
    ensures { PutsText out.old out.new result (flat_map line_text (map member_line nodes.now)) }
{
    for node in nodes {
        put_node(out, *node)?;
    }
    Ok(())
}

// Appends the line of a node.
fn put_node(out: &mut Vec<u8>, node: NodeId) -> Result<(), NoMemory>
    ensures { PutsText out.old out.new result (line_text (member_line node)) }
{
    put_line(out, b"x", &[i128::from(node.get())])
}

// Appends a line of a word and numbers.
fn put_line(out: &mut Vec<u8>, word: &[u8], numbers: &[i128]) -> Result<(), NoMemory>
    ensures { PutsText out.old out.new result (line_text (Word word.now ∷ map Number numbers.now)) }
{
    put_bytes(out, word)?;
    put_fields(out, numbers)?;
    put_byte(out, b'\n')
}

// Appends a line of a word, a number and a word.
fn put_word_line(out: &mut Vec<u8>, word: &[u8], number: i128, last: &[u8]) -> Result<(), NoMemory>
    ensures { PutsText out.old out.new result (line_text (Word word.now ∷ Number number ∷ Word last.now ∷ [])) }
{
    put_bytes(out, word)?;
    put_field(out, number)?;
    put_byte(out, b' ')?;
    put_bytes(out, last)?;
    put_byte(out, b'\n')
}

// Appends numbers, a blank before each.
fn put_fields(out: &mut Vec<u8>, numbers: &[i128]) -> Result<(), NoMemory>
    ensures { PutsText out.old out.new result (flat_map field_text numbers.now) }
{
    for number in numbers {
        put_field(out, *number)?;
    }
    Ok(())
}

// Appends a blank and a number.
fn put_field(out: &mut Vec<u8>, number: i128) -> Result<(), NoMemory>
    ensures { PutsText out.old out.new result (field_text number) }
{
    put_byte(out, b' ')?;
    put_number(out, number)
}

// Appends bytes.
fn put_bytes(out: &mut Vec<u8>, bytes: &[u8]) -> Result<(), NoMemory>
    ensures { PutsText out.old out.new result bytes.now }
{
    out.extend_from_slice(bytes)?;
    Ok(())
}

// Appends a byte.
fn put_byte(out: &mut Vec<u8>, byte: u8) -> Result<(), NoMemory>
    ensures { PutsText out.old out.new result (byte ∷ []) }
{
    out.push(byte)?;
    Ok(())
}
