//! Blocks of arcs, one after another.
ghost use Rattle.std.specs.Prelude.{◌≡◌, ◌+◌, ◌^◌, ◌<◌, ◌≤◌, IfNone, IfSome, length};
ghost use Rattle.mcf_flows.specs.Network.{IsArcNumber};
ghost use Rattle.mcf_basis.specs.Pivots.{IsEligible};
ghost use Rattle.mcf_basis.specs.Violations.{HasNoEligible};
ghost use Rattle.mcf_simplex.specs.Blocks.{IsBlockPick, IsMoreViolated, IsRoundPick, arc_in_round, block_end, start_arc};

use crate::pricing::{Picked, Pricing};
use mcf_basis::Basis;
use mcf_text::ArcId;
use std::marker::Model;

/// Blocks of arcs of one size, taken in turn around the arcs from where the last pick ended: the
/// eligible arc of greatest violation in the first block that has one; among several, the one that
/// is met first.
///
/// A pick scans no arc twice, so its last block may be shorter. It begins at arc 1 on a net that
/// has no arc with the number at which the last pick ended.
#[derive(Clone, Copy, Debug)]
pub struct Block {
    size: u32,
    next: u32,
}

impl Model for Block {
    ghost use Rattle.std.specs.Prelude.{◌≤◌};
    ghost use Rattle.mcf_simplex.specs.Blocks.{BlockRule};

    ghost Value = { BlockRule };

    ghost view = { λ b. record { size = b.size; next = b.next } };

    ghost invariant = { λ b. (1 ≤ b.size) × (1 ≤ b.next) };

    ghost inverse = { λ b. record { size = b.size; next = b.next } };
}

impl Block {
    /// The rule with blocks of this size, whose first pick begins at arc 1.
    pub fn new(size: u32) -> Block
        requires { 1 ≤ size }
        ensures { result ≡ record { size = size; next = 1 } }
    {
        Block { size, next: 1 }
    }
}

impl Pricing for Block {
    ghost Picks = { λ old basis answer new. IsBlockPick old basis answer new };

    /// The eligible arc of greatest violation in the first block that has one.
    fn pick(&mut self, basis: &Basis<'_>) -> Option<ArcId> {
        let picked = pick_block(basis, self.size, self.next);
        self.next = picked.next;
        picked.arc
    }
}

// The most violated arc of the first block that has an eligible one.
fn pick_block(basis: &Basis<'_>, size: u32, next: u32) -> Picked
    requires size { 1 ≤ size }
    requires next { 1 ≤ next }
    ensures eligible { IfSome result.arc (IsEligible basis.now) }
    ensures none { IfNone result.arc (HasNoEligible basis.now) }
    ensures picks { IsBlockPick (record { size = size; next = next }) basis.now result.arc (record { size = size; next = result.next }) }
    ensures next { 1 ≤ result.next }
{
    let arcs = basis.net().arc_count();
    let start = start_arc(arcs, next);
    let mut passed = 0;
    'rounds: while passed < arcs {
        let end = block_end(arcs, size, passed);
        match most_violated_in_round(basis, start, passed, end) {
            Some(k) => {
                let behind = arc_in_round(arcs, start, end);
                return Picked {
                    arc: Some(k),
                    next: behind,
                };
            }
            None => passed = end,
        }
    }
    Picked {
        arc: None,
        next: start,
    }
}

// The arc at which a pick begins.
fn start_arc(arcs: u32, next: u32) -> u32
    requires { 1 ≤ next }
    ensures value { result ≡ start_arc arcs next }
    ensures low { 1 ≤ result }
    ensures high { 1 ≤ arcs → result ≤ arcs }
{
    if next <= arcs { next } else { 1 }
}

// The place after the block that begins at a place.
pub(crate) fn block_end(arcs: u32, size: u32, place: u32) -> u32
    requires within { place < arcs }
    requires size { 1 ≤ size }
    ensures value { result ≡ block_end arcs size place }
    ensures low { place < result }
    ensures high { result ≤ arcs }
{
    if size < arcs - place {
        place + size
    } else {
        arcs
    }
}

// The arc at a place of the round.
fn arc_in_round(arcs: u32, start: u32, place: u32) -> u32
    requires low { 1 ≤ start }
    requires high { start ≤ arcs }
    requires place { place ≤ arcs }
    requires small { arcs < 2 ^ 31 }
    ensures value { result ≡ arc_in_round arcs start place }
    ensures low { 1 ≤ result }
{
    let number = start + place;
    if number <= arcs {
        number
    } else {
        number - arcs
    }
}

// The most violated of the arcs at some places of the round.
fn most_violated_in_round(basis: &Basis<'_>, start: u32, begin: u32, end: u32) -> Option<ArcId>
    requires start { IsArcNumber basis.now.net start }
    requires order { begin < end }
    requires end { end ≤ length basis.now.net.arcs }
    ensures { IsRoundPick basis.now start begin end result }
{
    let arcs = basis.net().arc_count();
    let first = start + begin;
    let last = start + end;
    if last <= arcs + 1 {
        return basis.most_violated(first, last);
    }
    if first > arcs {
        return basis.most_violated(first - arcs, last - arcs);
    }
    let early = basis.most_violated(first, arcs + 1);
    let late = basis.most_violated(1, last - arcs);
    more_violated(basis, early, late)
}

// The more violated of two eligible arcs; if they are equal, the first.
pub(crate) fn more_violated(
    basis: &Basis<'_>,
    early: Option<ArcId>,
    late: Option<ArcId>,
) -> Option<ArcId>
    requires early { IfSome early (IsEligible basis.now) }
    requires late { IfSome late (IsEligible basis.now) }
    ensures { IsMoreViolated basis.now early late result }
{
    let Some(e) = early else {
        return late;
    };
    let Some(l) = late else {
        return Some(e);
    };
    let first = basis.violation(e);
    let second = basis.violation(l);
    if first < second { Some(l) } else { Some(e) }
}
