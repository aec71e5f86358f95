//! Arcs: as callers see them, and as an instance stores them.
ghost use Rattle.std.specs.Prelude.{◌≡◌, ◌≤◌, ◌^◌};
ghost use Rattle.mcf_flows.specs.Packed.{unpacked};
ghost use Rattle.mcf_flows.specs.WellFormed.{weight};

use mcf_text::NodeId;

/// An arc from the node `src` to the node `dst`, with the bounds of its flow and the cost of a
/// unit.
#[derive(Clone, Copy, Debug, PartialEq, Eq)]
pub struct Arc {
    pub src: NodeId,
    pub dst: NodeId,
    pub low: i128,
    pub cap: i128,
    pub cost: i128,
}

/// An arc as an instance stores it, in 32 bytes.
#[derive(Clone, Copy, Debug)]
pub struct PackedArc {
    pub src: u32,
    pub dst: u32,
    pub low: i64,
    pub cap: i64,
    pub cost: i64,
}

/// An arc as an instance stores it without bounds, in 16 bytes. If no bounds are stored elsewhere,
/// its lower bound is 0 and its capacity 1.
#[derive(Clone, Copy, Debug)]
pub struct Link {
    pub src: u32,
    pub dst: u32,
    pub cost: i64,
}

impl PackedArc {
    /// The stored arc.
    pub(crate) fn unpack(self) -> Arc
        ensures { result ≡ unpacked self }
    {
        Arc {
            src: NodeId::new(self.src),
            dst: NodeId::new(self.dst),
            low: i128::from(self.low),
            cap: i128::from(self.cap),
            cost: i128::from(self.cost),
        }
    }

    /// The most that the arc can cost or earn: the absolute value of its cost times the greater
    /// absolute value of its bounds.
    pub fn weight(self) -> u128
        ensures value { result ≡ weight (unpacked self) }
        ensures small { result ≤ 2 ^ 126 }
    {
        let bound = self.low.unsigned_abs().max(self.cap.unsigned_abs());
        u128::from(self.cost.unsigned_abs()) * u128::from(bound)
    }
}
