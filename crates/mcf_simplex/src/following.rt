//! Blocks of pieces of the arcs, with as many arcs as pivots move nodes.
ghost use Rattle.std.specs.Prelude.{◌≡◌, ◌+◌, ◌*◌, ◌<◌, ◌≤◌, IfNone, IfSome, length};
ghost use Rattle.std.specs.Int.{div_ceil};
ghost use Rattle.mcf_basis.specs.Pivots.{IsEligible};
ghost use Rattle.mcf_basis.specs.Violations.{HasNoEligible, IsPickOf};
ghost use Rattle.mcf_simplex.specs.Following.{IsFollowingPick, IsFoundOrNone, IsInBlockOf, first_following, start_place};
ghost use Rattle.mcf_simplex.specs.Private.Pieces.{IsFirstBlockOrNone};

use crate::block::{block_end, more_violated};
use crate::pricing::{Picked, Pricing};
use mcf_basis::Basis;
use mcf_text::ArcId;
use std::marker::Model;

// The least number of arcs in a block, on nets of medium size: 64 and 128 take 0.95 to 1.02 of the
// time on ten families of 4,096 and 8,192 nodes, but 1.1 to 1.5 if many nodes send.
const LEAST_ARCS: u32 = 256;

// The mean of the moved nodes is taken over about 2 to this power pivots.
const DECAY: u32 = 6;

// From this mean on, blocks have pieces of two stretches: 0.6 of the time on plans over periods,
// but 1.1 to 1.2 on nets of `netgen`, if they always have them.
const SPLIT_MEAN: u64 = 300;

/// Blocks with as many arcs as recent pivots moved nodes, each with a piece of each of some
/// stretches (segments) of the arcs.
///
/// They are taken in turn, from where the last pick ended: the first block that has an eligible arc
/// gives the one of greatest violation; among several, the one with the least number. A pivot that
/// moves much of the tree is expensive, so it pays to scan more arcs for a good one. No clause
/// states the size of blocks; which arc the blocks give is stated.
#[derive(Drop)]
pub struct Following {
    // Those of the last pick, and the place at which the next begins.
    stretches: u32,
    piece: u32,
    place: u32,
    // Those of the next pick, which no clause sees.
    wanted: u32,
    least: u32,
    most: u32,
    // The mean of the nodes that pivots moved, times 2 to the power of the decay.
    mean: u64,
    split: u64,
    scanned: u64,
}

impl Model for Following {
    ghost use Rattle.std.specs.Prelude.{◌≤◌};
    ghost use Rattle.mcf_simplex.specs.Following.{FollowingRule};

    ghost Value = { FollowingRule };

    ghost view = { λ f. record { stretches = f.stretches; piece = f.piece; place = f.place } };

    ghost invariant = { λ f. (1 ≤ f.stretches) × (1 ≤ f.wanted) × (1 ≤ f.piece) };
}

impl Following {
    /// The rule for nets of this many arcs, whose first pick begins at arc 1: a block has as many
    /// arcs as recent pivots moved nodes, but between 256 and the square root of twice the number
    /// of arcs.
    pub fn suited_to(arcs: u32) -> Following
        ensures { result ≡ first_following }
    {
        let root = (2 * u64::from(arcs)).isqrt() as u32;
        Following::up_to(root.max(LEAST_ARCS), SPLIT_MEAN << DECAY)
    }

    /// The rule whose blocks have 256 arcs of one stretch, until this is changed.
    pub fn steady() -> Following
        ensures { result ≡ first_following }
    {
        Following::up_to(LEAST_ARCS, u64::MAX)
    }

    // The rule whose blocks have at most this many arcs, and pieces of two stretches from this mean
    // on.
    fn up_to(most: u32, split: u64) -> Following
        ensures { result ≡ first_following }
    {
        Following {
            stretches: 1,
            piece: 1,
            place: 0,
            wanted: 1,
            least: LEAST_ARCS,
            most,
            mean: 0,
            split,
            scanned: 0,
        }
    }

    /// From the next pick on a block has at least this many arcs.
    pub fn set_least_arcs(&mut self, arcs: u32)
        ensures { self.new ≡ self.old }
    {
        self.least = arcs;
    }

    /// From the next pick on a block has a piece of each of this many stretches.
    pub fn set_stretches(&mut self, stretches: u32)
        requires { 1 ≤ stretches }
        ensures { self.new ≡ self.old }
    {
        self.wanted = stretches;
    }

    /// About how many arcs it has scanned; no clause states it.
    pub fn scanned(&self) -> u64 {
        self.scanned
    }

    // Counts what the last pivot moved, and returns the number of arcs in the pieces of the next
    // blocks.
    fn follow(&mut self, moved: usize)
        ensures place { self.new.place ≡ self.old.place }
    {
        let faded = self.mean.wrapping_sub(self.mean >> DECAY);
        self.mean = faded.wrapping_add(moved as u64);
        if self.wanted == 1 && self.split <= self.mean {
            self.wanted = 2;
        }
        let size = piece_size(self.mean >> DECAY, self.least, self.most, self.wanted);
        self.stretches = self.wanted;
        self.piece = size;
    }
}

// The number of arcs in a piece, for a block of this size, within bounds.
fn piece_size(wanted: u64, least: u32, most: u32, stretches: u32) -> u32
    requires { 1 ≤ stretches }
    ensures { 1 ≤ result }
{
    let block = wanted.max(u64::from(least)).min(u64::from(most.max(least)));
    ((block as u32) / stretches).max(1)
}

impl Pricing for Following {
    ghost Picks = { λ old basis answer new. IsFollowingPick old basis answer new };

    /// The eligible arc of greatest violation of the first block that has one.
    fn pick(&mut self, basis: &Basis<'_>) -> Option<ArcId> {
        self.follow(basis.moved_count());
        let picked = pick_in_pieces(basis, self.stretches, self.piece, self.place);
        self.scanned = self
            .scanned
            .wrapping_add(passed(basis, self.stretches, self.place, &picked));
        self.place = picked.next;
        picked.arc
    }
}

// About how many arcs a pick scanned.
fn passed(basis: &Basis<'_>, stretches: u32, place: u32, picked: &Picked) -> u64
    requires { 1 ≤ stretches }
{
    let arcs = basis.net().arc_count();
    if picked.arc.is_none() {
        return u64::from(arcs);
    }
    let stretch = arcs.div_ceil(stretches);
    let start = start_place(stretch, place);
    let places = if picked.next > start {
        picked.next.wrapping_sub(start)
    } else {
        picked.next.wrapping_add(stretch).wrapping_sub(start)
    };
    u64::from(places).wrapping_mul(u64::from(stretches))
}

// The most violated arc of the first block that has an eligible one.
fn pick_in_pieces(basis: &Basis<'_>, stretches: u32, piece: u32, place: u32) -> Picked
    requires stretches { 1 ≤ stretches }
    requires piece { 1 ≤ piece }
    ensures eligible { IfSome result.arc (IsEligible basis.now) }
    ensures none { IfNone result.arc (HasNoEligible basis.now) }
    ensures found { IsFoundOrNone basis.now (div_ceil (length basis.now.net.arcs) stretches) piece
        (start_place (div_ceil (length basis.now.net.arcs) stretches) place) result.arc result.next }
{
    let stretch = basis.net().arc_count().div_ceil(stretches);
    let start = start_place(stretch, place);
    let late = first_found(basis, stretch, piece, start, stretch);
    if late.arc.is_some() {
        return late;
    }
    first_found(basis, stretch, piece, 0, start)
}

// The place at which a pick begins.
fn start_place(stretch: u32, place: u32) -> u32
    ensures value { result ≡ start_place stretch place }
    ensures high { result ≤ stretch }
{
    if place < stretch { place } else { 0 }
}

// The most violated arc of the first block that has an eligible one, of those from a place up to
// another.
fn first_found(basis: &Basis<'_>, stretch: u32, piece: u32, from: u32, until: u32) -> Picked
    requires piece { 1 ≤ piece }
    requires order { from ≤ until }
    requires high { until ≤ stretch }
    requires stretch { stretch ≤ length basis.now.net.arcs }
    ensures { IsFirstBlockOrNone basis.now stretch piece from until result.arc result.next }
{
    let mut begin = from;
    'pieces: while begin < until {
        let end = block_end(until, piece, begin);
        if let Some(k) = most_violated_in_block(basis, stretch, begin, end) {
            return Picked {
                arc: Some(k),
                next: end,
            };
        }
        begin = end;
    }
    Picked {
        arc: None,
        next: until,
    }
}

// The most violated arc of those whose places in their stretches lie in a range.
fn most_violated_in_block(basis: &Basis<'_>, stretch: u32, begin: u32, end: u32) -> Option<ArcId>
    requires order { begin < end }
    requires high { end ≤ stretch }
    requires stretch { stretch ≤ length basis.now.net.arcs }
    ensures { IsPickOf basis.now (IsInBlockOf stretch begin end) result }
{
    let arcs = basis.net().arc_count();
    let mut best = None;
    let mut behind = 0;
    'stretches: while behind < arcs {
        let first = (behind + begin).min(arcs) + 1;
        let last = (behind + end).min(arcs) + 1;
        let found = basis.most_violated(first, last);
        best = more_violated(basis, best, found);
        behind += stretch;
    }
    best
}
