//! The content of one line: the tests of its fields, in the order in which faults are looked for.
ghost use Rattle.std.specs.Prelude.{◌≡◌, ◌≤ℤ◌, ◌<ℤ◌, map, length, bytes_eq, pos, ◌+◌, ◌<◌, ◌^◌, ◌≤◌, ◌&&◌, IfSome, IfOk};
ghost use Rattle.mcf_flows.specs.Blocking.{in_table};
ghost use Rattle.mcf_instance.specs.Fault.{is_up_to};
ghost use Rattle.mcf_flows.specs.Limits.{arc_limit, limits, node_limit, total_limit};
ghost use Rattle.mcf_instance.specs.Private.LineReader.{number_at, number_pair, problem_at, problem_line, node_count_fits, node_numbers, node_tests, checked_node};
ghost use Rattle.mcf_instance.specs.Private.LineReader.{node_line, arc_count_fits, arc_numbers, is_wrong_side, amount_fault, fitting_arc, passes_total};
ghost use Rattle.mcf_instance.specs.Private.LineReader.{arc_tests, arc_line};
ghost use Rattle.mcf_text.specs.Row.{natural};
ghost use Rattle.mcf_text.specs.Whole.{is_within};

use mcf_flows::{
    ARC_LIMIT, BOUND_LIMIT, COST_LIMIT, Code, NODE_LIMIT, PackedArc, Problem, SUPPLY_LIMIT,
    TOTAL_LIMIT,
};
use mcf_text::{Whole, whole};

// Numbers up to this absolute value are kept as they are; the next one stands for all others.
const KEPT_SIZE: i128 = 1_000_000_000_000_000_000;

const PAST_EVERY_RANGE: i64 = 1_000_000_000_000_000_001;

/// The content of a problem line.
#[derive(Clone, Copy)]
pub(crate) struct Header {
    pub(crate) problem: Problem,
    pub(crate) nodes: u32,
    pub(crate) arcs: u32,
}

/// The numbers of an arc line.
#[derive(Clone, Copy)]
pub(crate) struct ArcNumbers {
    pub(crate) src: i64,
    pub(crate) dst: i64,
    pub(crate) low: i64,
    pub(crate) cap: i64,
    pub(crate) cost: i64,
}

/// The content of a valid line.
#[derive(Clone, Copy)]
pub(crate) enum Item {
    Problem(Header),
    Supply(u32, i64),
    Link(PackedArc),
}

pub(crate) fn is_word(field: &[u8], word: &[u8]) -> bool
    ensures { result ≡ bytes_eq field.now word.now }
{
    field == word
}

fn is_within(low: i64, high: i64, value: i64) -> bool
    ensures { result ≡ is_within low high value }
{
    low <= value && value <= high
}

// The number in a field, or one outside every range.
#[tactic(auto, unfolding(crate::specs::Private::LineReader::number_at))]
fn number_of(fields: &[&[u8]], k: usize) -> Result<i64, Code>
    requires { k < length fields.now }
    ensures { result ≡ number_at (map (λ f. f.now) fields.now) k }
{
    match whole(fields[k], -KEPT_SIZE, KEPT_SIZE) {
        Whole::Value(value) => Ok(value as i64),
        Whole::OutOfRange => Ok(PAST_EVERY_RANGE),
        Whole::NotWhole => Err(Code::Number),
    }
}

// The numbers in two consecutive fields.
fn number_pair(fields: &[&[u8]], k: usize) -> Result<(i64, i64), Code>
    requires { k + 1 < length fields.now }
    ensures { result ≡ number_pair (map (λ f. f.now) fields.now) k }
{
    let first = number_of(fields, k)?;
    let second = number_of(fields, k + 1)?;
    Ok((first, second))
}

#[tactic(auto, unfolding(crate::specs::Private::LineReader::problem_at))]
fn problem_of(word: &[u8]) -> Result<Problem, Code>
    ensures { result ≡ problem_at word.now }
{
    if is_word(word, b"min") {
        Ok(Problem::Min)
    } else if is_word(word, b"asn") {
        Ok(Problem::Asn)
    } else {
        Err(Code::Problem)
    }
}

// Whether the numbers of nodes and arcs are within the limits.
fn sizes_fit(nodes: i64, arcs: i64) -> bool
    ensures { result ≡ is_within (pos 0) (pos node_limit) nodes && is_within (pos 0) (pos arc_limit) arcs }
{
    is_within(0, i64::from(NODE_LIMIT), nodes) && is_within(0, i64::from(ARC_LIMIT), arcs)
}

#[tactic(auto, unfolding(crate::specs::Private::LineReader::problem_line))]
pub(crate) fn problem_line(is_seen: bool, fields: &[&[u8]]) -> Result<Header, Code>
    ensures { result ≡ problem_line is_seen (map (λ f. f.now) fields.now) }
{
    if fields.len() != 4 {
        return Err(Code::Fields);
    }
    let problem = problem_of(fields[1])?;
    let (nodes, arcs) = number_pair(fields, 2)?;
    if is_seen {
        return Err(Code::SecondP);
    }
    if !sizes_fit(nodes, arcs) {
        return Err(Code::Size);
    }
    Ok(Header {
        problem,
        nodes: nodes as u32,
        arcs: arcs as u32,
    })
}

pub(crate) fn is_up_to(size: i64, value: i64) -> bool
    requires { (pos 0 ≤ℤ size) × (size <ℤ pos (2 ^ 63)) }
    ensures { result ≡ is_up_to (natural size) value }
{
    is_within(-size, size, value)
}

fn are_both_up_to(size: i64, first: i64, second: i64) -> bool
    requires { (pos 0 ≤ℤ size) × (size <ℤ pos (2 ^ 63)) }
    ensures { result ≡ is_up_to (natural size) first && is_up_to (natural size) second }
{
    is_up_to(size, first) && is_up_to(size, second)
}

fn is_flagged(flags: &[bool], node: u32) -> bool
    requires { (1 ≤ node) × (node ≤ length flags.now) }
    ensures { result ≡ in_table flags.now node }
{
    flags[node as usize - 1]
}

// A number as a node of the instance.
fn node_of(header: Header, value: i64) -> Result<u32, Code>
    ensures exact { result ≡ checked_node header value }
    ensures in_range { IfOk result (λ v. (1 ≤ v) × (v ≤ header.nodes)) }
{
    if is_within(1, i64::from(header.nodes), value) {
        Ok(value as u32)
    } else {
        Err(Code::Node)
    }
}

fn node_count_fits(header: Option<Header>, count: usize) -> bool
    ensures { result ≡ node_count_fits header count }
{
    match header {
        None => count == 3 || count == 2,
        Some(
            Header {
                problem: Problem::Min,
                ..
            },
        ) => count == 3,
        Some(
            Header {
                problem: Problem::Asn,
                ..
            },
        ) => count == 2,
    }
}

fn node_numbers(fields: &[&[u8]]) -> Result<(i64, i64), Code>
    requires { 2 ≤ length fields.now }
    ensures { result ≡ node_numbers (map (λ f. f.now) fields.now) }
{
    if fields.len() == 3 {
        number_pair(fields, 1)
    } else {
        let node = number_of(fields, 1)?;
        Ok((node, 1))
    }
}

#[tactic(auto, unfolding(crate::specs::Private::LineReader::node_tests))]
fn node_tests(
    header: Header,
    arcs: usize,
    listed: &[bool],
    node: i64,
    supply: i64,
) -> Result<(u32, i64), Code>
    requires { length listed.now ≡ header.nodes }
    ensures { result ≡ node_tests limits header arcs listed.now node supply }
{
    let node = node_of(header, node)?;
    if 0 < arcs {
        return Err(Code::LateN);
    }
    if is_flagged(listed, node) {
        return Err(Code::Twice);
    }
    if !is_up_to(SUPPLY_LIMIT as i64, supply) {
        return Err(Code::Supply);
    }
    Ok((node, supply))
}

/// The content of a node line: its node and its supply.
#[tactic(auto, unfolding(crate::specs::Private::LineReader::node_line))]
pub(crate) fn node_line(
    header: Option<Header>,
    arcs: usize,
    listed: &[bool],
    fields: &[&[u8]],
) -> Result<(u32, i64), Code>
    requires { IfSome header (λ h. length listed.now ≡ h.nodes) }
    ensures { result ≡ node_line limits header arcs listed.now (map (λ f. f.now) fields.now) }
{
    if !node_count_fits(header, fields.len()) {
        return Err(Code::Fields);
    }
    let (node, supply) = node_numbers(fields)?;
    match header {
        None => Err(Code::BeforeP),
        Some(header) => node_tests(header, arcs, listed, node, supply),
    }
}

fn arc_count_fits(header: Option<Header>, count: usize) -> bool
    ensures { result ≡ arc_count_fits header count }
{
    match header {
        None => count == 6 || count == 4,
        Some(
            Header {
                problem: Problem::Min,
                ..
            },
        ) => count == 6,
        Some(
            Header {
                problem: Problem::Asn,
                ..
            },
        ) => count == 4,
    }
}

fn arc_numbers(fields: &[&[u8]]) -> Result<ArcNumbers, Code>
    requires { 4 ≤ length fields.now }
    ensures { result ≡ arc_numbers (map (λ f. f.now) fields.now) }
{
    let (src, dst) = number_pair(fields, 1)?;
    let third = number_of(fields, 3)?;
    if fields.len() == 6 {
        let (cap, cost) = number_pair(fields, 4)?;
        Ok(ArcNumbers {
            src,
            dst,
            low: third,
            cap,
            cost,
        })
    } else {
        Ok(ArcNumbers {
            src,
            dst,
            low: 0,
            cap: 1,
            cost: third,
        })
    }
}

fn is_wrong_side(header: Header, listed: &[bool], src: u32, dst: u32) -> bool
    requires src_in { (1 ≤ src) × (src ≤ length listed.now) }
    requires dst_in { (1 ≤ dst) × (dst ≤ length listed.now) }
    ensures { result ≡ is_wrong_side header listed.now src dst }
{
    match header.problem {
        Problem::Min => false,
        Problem::Asn => !is_flagged(listed, src) || is_flagged(listed, dst),
    }
}

// The first fault of the bounds and the cost of an arc.
#[tactic(auto, unfolding(crate::specs::Private::LineReader::amount_fault))]
fn amount_fault(low: i64, cap: i64, cost: i64) -> Option<Code>
    ensures { result ≡ amount_fault limits low cap cost }
{
    if !are_both_up_to(BOUND_LIMIT as i64, low, cap) {
        return Some(Code::Bound);
    }
    if cap < low {
        return Some(Code::Order);
    }
    if !is_up_to(COST_LIMIT as i64, cost) {
        return Some(Code::Cost);
    }
    None
}

// Whether one more arc takes the total above the limit.
fn passes_total(problem: Problem, total: u128, arc: PackedArc) -> bool
    requires { total ≤ total_limit }
    ensures { result ≡ passes_total limits problem total arc }
{
    match problem {
        Problem::Min => TOTAL_LIMIT < total + arc.weight(),
        Problem::Asn => false,
    }
}

// The arc, if the number of arcs, its sides and the total allow it.
#[inline(always)]
fn fitting_arc(
    header: Header,
    arcs: usize,
    total: u128,
    listed: &[bool],
    arc: PackedArc,
) -> Result<PackedArc, Code>
    requires src_in { (1 ≤ arc.src) × (arc.src ≤ length listed.now) }
    requires dst_in { (1 ≤ arc.dst) × (arc.dst ≤ length listed.now) }
    requires total { total ≤ total_limit }
    ensures { result ≡ fitting_arc limits header arcs total listed.now arc }
{
    if header.arcs as usize <= arcs {
        return Err(Code::Extra);
    }
    if is_wrong_side(header, listed, arc.src, arc.dst) {
        return Err(Code::Side);
    }
    if passes_total(header.problem, total, arc) {
        return Err(Code::Total);
    }
    Ok(arc)
}

/// The content of the numbers of an arc line, or their fault.
#[tactic(auto, unfolding(crate::specs::Private::LineReader::arc_tests))]
#[inline(always)]
pub(crate) fn arc_tests(
    header: Header,
    arcs: usize,
    total: u128,
    listed: &[bool],
    numbers: ArcNumbers,
) -> Result<PackedArc, Code>
    requires tabled { length listed.now ≡ header.nodes }
    requires total { total ≤ total_limit }
    ensures { result ≡ arc_tests limits header arcs total listed.now numbers }
{
    let ArcNumbers {
        src,
        dst,
        low,
        cap,
        cost,
    } = numbers;
    let src = node_of(header, src)?;
    let dst = node_of(header, dst)?;
    if let Some(fault) = amount_fault(low, cap, cost) {
        return Err(fault);
    }
    fitting_arc(
        header,
        arcs,
        total,
        listed,
        PackedArc {
            src,
            dst,
            low,
            cap,
            cost,
        },
    )
}

/// The content of an arc line.
#[tactic(auto, using(crate::proofs::Signed::signed), unfolding(crate::specs::Private::LineReader::arc_line))]
pub(crate) fn arc_line(
    header: Option<Header>,
    arcs: usize,
    total: u128,
    listed: &[bool],
    fields: &[&[u8]],
) -> Result<PackedArc, Code>
    requires tabled { IfSome header (λ h. length listed.now ≡ h.nodes) }
    requires total { total ≤ total_limit }
    ensures { result ≡ arc_line limits header arcs total listed.now (map (λ f. f.now) fields.now) }
{
    if !arc_count_fits(header, fields.len()) {
        return Err(Code::Fields);
    }
    let numbers = arc_numbers(fields)?;
    match header {
        None => Err(Code::BeforeP),
        Some(header) => arc_tests(header, arcs, total, listed, numbers),
    }
}
