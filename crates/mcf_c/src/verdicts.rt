//! Verdicts, faults and node sets in numbers.
ghost use Rattle.std.specs.Prelude.{◌≡◌, ◌+◌, ◌*◌, ◌^◌};
ghost use Rattle.mcf_c.specs.Verdicts.{Tells, TellsFault, TellsSet, code_number, fault_code, fault_place, kind_number, side_number, verdict_code, verdict_sign, verdict_size};

use mcf_checker::Verdict;
use mcf_instance::{ArrayFault, Code, Side};

/// A verdict in numbers. Its kind is 0 to 10, in the order of `mcf.h`; `code` is that of a refusal,
/// from 1 on, or of a side, and otherwise 0; and its number is `low + 2^64 high`, negated if
/// `negative` is 1.
#[repr(C)]
#[derive(Clone, Copy)]
pub struct McfVerdict {
    pub kind: u32,
    pub code: u32,
    pub negative: u32,
    pub low: u64,
    pub high: u64,
}

// The number of a kind of verdict.
fn kind_number(verdict: &Verdict) -> u32
    ensures { result ≡ kind_number verdict.now }
{
    match verdict {
        Verdict::Flow(_) => 0,
        Verdict::Blocked(_) => 1,
        Verdict::Refused(_) => 2,
        Verdict::BadShape(_) => 3,
        Verdict::BadKind => 4,
        Verdict::BadRefusal => 5,
        Verdict::BadArc(_) => 6,
        Verdict::BadNode(_) => 7,
        Verdict::BadPrice(_) => 8,
        Verdict::BadCost => 9,
        Verdict::BadSet => 10,
    }
}

// The number of a code.
fn code_number(code: Code) -> u32
    ensures { result ≡ code_number code }
{
    match code {
        Code::Kind => 1,
        Code::Fields => 2,
        Code::Problem => 3,
        Code::Number => 4,
        Code::SecondP => 5,
        Code::BeforeP => 6,
        Code::Size => 7,
        Code::Node => 8,
        Code::LateN => 9,
        Code::Twice => 10,
        Code::Supply => 11,
        Code::Bound => 12,
        Code::Order => 13,
        Code::Cost => 14,
        Code::Extra => 15,
        Code::Side => 16,
        Code::Total => 17,
        Code::NoP => 18,
        Code::Missing => 19,
    }
}

// The code of a verdict's refusal, or 0.
fn verdict_code(verdict: &Verdict) -> u32
    ensures { result ≡ verdict_code verdict.now }
{
    match verdict {
        Verdict::Refused(refusal) => code_number(refusal.code),
        _ => 0,
    }
}

// The absolute value of the number of a verdict, or 0.
fn verdict_size(verdict: &Verdict) -> u128
    ensures { result ≡ verdict_size verdict.now }
{
    match verdict {
        Verdict::Flow(cost) => cost.unsigned_abs(),
        Verdict::Blocked(count) => u128::from(*count),
        Verdict::Refused(refusal) => refusal.line,
        Verdict::BadShape(line) => *line,
        Verdict::BadArc(arc) => u128::from(*arc),
        Verdict::BadNode(node) => u128::from(*node),
        Verdict::BadPrice(arc) => u128::from(*arc),
        _ => 0,
    }
}

// 1 if the number of a verdict is below 0, otherwise 0.
fn verdict_sign(verdict: &Verdict) -> u32
    ensures { result ≡ verdict_sign verdict.now }
{
    match verdict {
        Verdict::Flow(cost) if *cost < 0 => 1,
        _ => 0,
    }
}

/// A number below 2^128 in two words.
pub(crate) fn words(n: u128) -> (u64, u64)
    ensures { result.0 + 2 ^ 64 * result.1 ≡ n }
{
    let high = n / 0x1_0000_0000_0000_0000;
    let low = n % 0x1_0000_0000_0000_0000;
    (low as u64, high as u64)
}

/// A verdict in numbers.
pub(crate) fn numbers(verdict: &Verdict) -> McfVerdict
    ensures { Tells verdict.now result }
{
    let (low, high) = words(verdict_size(verdict));
    McfVerdict {
        kind: kind_number(verdict),
        code: verdict_code(verdict),
        negative: verdict_sign(verdict),
        low,
        high,
    }
}

// The code of a fault of arrays.
fn fault_code(fault: &ArrayFault) -> u32
    ensures { result ≡ fault_code fault.now }
{
    match fault {
        ArrayFault::Size => code_number(Code::Size),
        ArrayFault::Supply(_) => code_number(Code::Supply),
        ArrayFault::Arc(_, code) => code_number(*code),
    }
}

// The node or the arc of a fault of arrays, or 0.
fn fault_place(fault: &ArrayFault) -> u32
    ensures { result ≡ fault_place fault.now }
{
    match fault {
        ArrayFault::Size => 0,
        ArrayFault::Supply(node) => node.get(),
        ArrayFault::Arc(arc, _) => arc.get(),
    }
}

/// A fault of arrays in numbers.
pub(crate) fn fault_numbers(fault: &ArrayFault) -> McfVerdict
    ensures { TellsFault fault.now result }
{
    McfVerdict {
        kind: 2,
        code: fault_code(fault),
        negative: 0,
        low: u64::from(fault_place(fault)),
        high: 0,
    }
}

/// The number of a side.
pub(crate) fn side_number(side: Side) -> u32
    ensures { result ≡ side_number side }
{
    match side {
        Side::Send => 0,
        Side::Take => 1,
    }
}

/// A node set of this many nodes that blocks by a side, in numbers.
pub(crate) fn set_numbers(side: Side, count: usize) -> McfVerdict
    ensures { TellsSet side count result }
{
    McfVerdict {
        kind: 1,
        code: side_number(side),
        negative: 0,
        low: count as u64,
        high: 0,
    }
}
