//! Blocks of arcs, taken in turn from four stretches (segments) of the arcs.
ghost use Rattle.std.specs.Prelude.{◌≡◌, ◌+◌, ◌*◌, ◌^◌, ◌<◌, ◌≤◌, IfNone, IfSome, length};
ghost use Rattle.mcf_basis.specs.Pivots.{IsEligible};
ghost use Rattle.mcf_basis.specs.Violations.{HasNoEligible, IsFrom, IsPickOf};
ghost use Rattle.mcf_simplex.specs.Stretches.{IsWideFor, IsWidePick, start_turn, stretch_length, turn_after, turn_begin, turn_count, turn_end};

use crate::pricing::{Picked, Pricing};
use mcf_basis::Basis;
use mcf_text::ArcId;
use std::marker::Model;

// The number of stretches.
const STRETCHES: u32 = 4;

/// Blocks of arcs of one size, taken in turn from four stretches (segments) of the arcs: the first
/// block of each, then the second of each, and so on, from where the last pick ended. It picks the
/// eligible arc of greatest violation in the first block that has one; among several, the one with
/// the least number.
///
/// On a net with fewer blocks it begins with the first. On large nets it takes fewer pivots than
/// blocks of 256 arcs, and moves fewer nodes than blocks in the order of the arcs if these run
/// along a grid.
#[derive(Clone, Copy, Debug)]
pub struct Wide {
    size: u32,
    next: u32,
}

impl Model for Wide {
    ghost use Rattle.std.specs.Prelude.{◌≤◌};
    ghost use Rattle.mcf_simplex.specs.Stretches.{WideRule};

    ghost Value = { WideRule };

    ghost view = { λ w. record { size = w.size; next = w.next } };

    ghost invariant = { λ w. 1 ≤ w.size };

    ghost inverse = { λ w. record { size = w.size; next = w.next } };
}

impl Wide {
    /// The rule for nets of this many arcs, whose first pick begins at arc 1: a block has as many
    /// arcs as the square root of twice their number, rounded down, but at least 256.
    pub fn suited_to(arcs: u32) -> Wide
        ensures { IsWideFor arcs result }
    {
        let root = (2 * u64::from(arcs)).isqrt() as u32;
        Wide {
            size: root.max(256),
            next: 0,
        }
    }
}

impl Pricing for Wide {
    ghost Picks = { λ old basis answer new. IsWidePick old basis answer new };

    /// The eligible arc of greatest violation in the first block that has one.
    fn pick(&mut self, basis: &Basis<'_>) -> Option<ArcId> {
        let picked = pick_wide(basis, self.size, self.next);
        self.next = picked.next;
        picked.arc
    }
}

// The most violated arc of the first block that has an eligible one, turn by turn.
fn pick_wide(basis: &Basis<'_>, size: u32, next: u32) -> Picked
    requires size { 1 ≤ size }
    ensures eligible { IfSome result.arc (IsEligible basis.now) }
    ensures none { IfNone result.arc (HasNoEligible basis.now) }
    ensures picks { IsWidePick (record { size = size; next = next }) basis.now result.arc (record { size = size; next = result.next }) }
{
    let turns = turn_count(basis.net().arc_count(), size);
    let start = start_turn(turns, next);
    for passed in 0..turns {
        let turn = turn_after(turns, start, passed);
        if let Some(k) = most_violated_at(basis, size, turn) {
            return Picked {
                arc: Some(k),
                next: turn_after(turns, start, passed + 1),
            };
        }
    }
    Picked {
        arc: None,
        next: start,
    }
}

// The number of turns that scan each block once.
fn turn_count(arcs: u32, size: u32) -> u32
    requires size { 1 ≤ size }
    requires small { arcs < 2 ^ 31 }
    ensures value { result ≡ turn_count arcs size }
    ensures small { result < 2 ^ 31 + 2 ^ 3 }
{
    STRETCHES * arcs.div_ceil(STRETCHES).div_ceil(size)
}

// The turn at which a pick begins.
fn start_turn(turns: u32, next: u32) -> u32
    ensures value { result ≡ start_turn turns next }
    ensures high { 1 ≤ turns → result < turns }
{
    if next < turns { next } else { 0 }
}

// The turn after this many later ones.
fn turn_after(turns: u32, start: u32, passed: u32) -> u32
    requires start { start < turns }
    requires passed { passed ≤ turns }
    requires small { turns < 2 ^ 31 + 2 ^ 3 }
    ensures value { result ≡ turn_after turns start passed }
    ensures high { result < turns }
{
    let left = turns - start;
    if passed < left {
        start + passed
    } else {
        passed - left
    }
}

// The most violated of the arcs scanned in a turn.
fn most_violated_at(basis: &Basis<'_>, size: u32, turn: u32) -> Option<ArcId>
    requires size { 1 ≤ size }
    requires turn { turn < turn_count (length basis.now.net.arcs) size }
    ensures { IsPickOf basis.now (IsFrom (turn_begin (length basis.now.net.arcs) size turn) (turn_end (length basis.now.net.arcs) size turn)) result }
{
    let arcs = basis.net().arc_count();
    let length = arcs.div_ceil(STRETCHES);
    let first = turn % STRETCHES * length;
    let begin = turn / STRETCHES * size;
    let end = size.min(length - begin) + begin;
    basis.most_violated((first + begin).min(arcs) + 1, (first + end).min(arcs) + 1)
}
