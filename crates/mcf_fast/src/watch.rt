//! When to leave a run of the network simplex: the leaving rule, and all its numbers.
//!
//! A bad case is a net on which the search is expected to be faster than the simplex. The rule
//! decides after each quarter: a quarter of as many pivots as the net has nodes, so that four
//! quarters have as many; and within the first one. It reads what the run counts (`RunCounts`).
//! Only counts decide, never a clock, so that a net is always answered in the same way. No clause
//! states what is decided: the answer is right in any case.
//!
//! A pivot moves the nodes of the part of the tree that it attaches elsewhere, whose prices change.
//! A node sends to the root as long as its artificial arc, between it and the root of the tree,
//! carries flow: that arc is loaded.
//!
//! The numbers were fitted to seventeen families of nets of 2^8 to 2^17 nodes (bench/gen.py), at
//! the sizes where the two methods take equal time.

ghost use Rattle.std.specs.Prelude.{◌≡◌, ◌≤◌};
ghost use Rattle.mcf_simplex.specs.Following.{first_following};

use mcf_fast_scaling::is_dense;
use mcf_network::Net;
use mcf_simplex::{Following, RunCounts};

// The runs of dense nets (`is_dense`), and of nets with fewer nodes, are never left: the simplex is
// as fast as the search or faster on all families.
const LEAST_NODES_TO_LEAVE: u32 = 1_500;

// From this many nodes on, it pays to leave a run within the first quarter if the eligible arcs
// form a front: they lie close together, as in long grids, so that most blocks hold none. It is
// tested after each of this many parts of the quarter, by how often all arcs were scanned: the
// whole quarter scans them 1,477 times in a grid of 16 rows and 2^17 nodes.
const FRONT_NODES: u32 = 8_000;

const FRONT_PARTS: u32 = 16;

const FRONT_READINGS: u64 = 80;

// From this many nodes on, it pays to leave a run after four quarters, and after six.
const MANY_NODES: u32 = 12_000;

// From this many nodes on, two quarters may suffice (`is_soon_left`), and otherwise how many nodes
// a pivot moves decides (`of_large`). Until that decision, the blocks of such nets have fewer arcs.
const LARGE_NODES: u32 = 24_576;

// A large net is left after two quarters if this percentage of its senders still send to the root
// and cycles have at least so many arcs on average: 79 to 86 % with 4.5 to 6.4 arcs in nets of
// netgen and its kind, and 100 % with 9.8 where few nodes send, of 2^15 and 2^16 nodes. Road nets
// have 71 to 75 %, and nets where a depot can send by express have 2.4 arcs (family `geo`); the
// simplex is faster there. To leave after six quarters takes 1.1 to 1.2 of the time.
const SCATTERED_PERCENT: u64 = 78;

const SCATTERED_CYCLE: u64 = 4;

// Up to this many nodes, the simplex ends soon if nearly each node has found its place after as
// many pivots as there are nodes. From it on, a run in which most pivots push flow is left after
// two quarters: to leave after four takes 1.26 to 1.3 of the time on sparse assignments of 2^16
// nodes, and 1.02 to 1.08 in the family `many`; below, 0.88 to 0.98.
const WIDE_NODES: u32 = 50_000;

// Up to this many nodes, the simplex is faster if the tree is deep, so that cycles are long, as in
// road nets: after six quarters the cycles of twelve of them have 88 to 130 arcs on average at 2^15
// and 2^16 nodes. Those of netgen and its kind, which get as far as this test, have 27 to 61.
const DEEP_NODES: u32 = 100_000;

const LONG_CYCLE: u64 = 75;

// The least number of arcs in a block: before it is known whether the run of a large net continues,
// and otherwise.
const EARLY_ARCS: u32 = 128;

const LEAST_ARCS: u32 = 256;

// From how many nodes and how many arcs per node on a block has at least how many arcs. With 512 in
// place of 256, runs of nets of netgen's kind with 2^14 nodes and 16, 24 and 32 arcs per node cost
// 0.87, 0.8 and 0.7 to 0.8 as much by their counts, with 2^13 nodes 1.0, 1.0 and 0.76 to 0.97; with
// 8 arcs per node they cost 0.94 to 1.3 as much.
const FULL_NODES: u32 = 8_000;

const MANY_ARCS_PER_NODE: u64 = 16;

const FULL_ARCS: u32 = 512;

// The number of stretches of the arcs from which a block takes its pieces. On small nets whose
// nodes continue to send to the root, a run with 8 takes 0.74 to 0.80 of the time of one with 1
// (family `goto`); if many pivots push flow, one with 12 takes 0.47 to 0.6 of it (networks of
// several periods, family `plan`). With 24, a process takes 0.90, 0.86 and 0.71 of the time of one
// with 12 at 2^12, 2^13 and 2^14 nodes, 0.89 to 1.08 of the instructions at 2^11, and 1.02 to 1.1
// of them at 2^10. With more, pivots move fewer nodes still, but pricing takes longer, since pieces
// become so short.
const SMALL_STRETCHES: u32 = 8;

const SMALL_BUSY_STRETCHES: u32 = 12;

const BUSY_STRETCHES: u32 = 24;

// If many pivots push flow, but degenerate ones continue to be frequent, pieces of more stretches
// slow pricing and hardly save pivots. With 4, a process takes 0.70 to 0.81 of the time of one with
// 24 on sparse assignments of 2^12 to 2^15 nodes, and 0.76 to 0.95 if most nodes send or take
// (family `many`, 2^11 to 2^13 nodes). In their second quarter 33 to 49 % of the pivots are
// degenerate, in networks of several periods 2 to 8 %.
const FEW_STRETCHES: u32 = 4;

// The limit of work: a run of a net that isn't dense and has at least `LEAST_NODES_TO_LEAVE` nodes
// is left if it has scanned more arcs than this many times all arcs, where each moved node counts
// as seven and each arc of a cycle as three. No net of the families of 2^11 to 2^14 nodes comes
// near it.
const MOST_READINGS: u64 = 9_000;

/// What to do with a run.
#[derive(Clone, Copy, Debug, PartialEq, Eq)]
pub(crate) enum Decision {
    /// The run continues as it is.
    Wait,
    /// The run continues with blocks of at least `Watch::least_arcs` arcs, and only the limit of
    /// work can still end it early.
    Stay,
    /// The run continues with blocks that take a piece of each of this many stretches.
    Split(u32),
    /// The run ends here, and the search takes over.
    Leave,
}

/// What the leaving rule knows of a run.
#[derive(Clone, Copy, Debug)]
pub(crate) struct Watch {
    nodes: u32,
    arcs: u64,
    // The number of pivots in a quarter, and the number of quarters so far.
    step: u32,
    quarters: u32,
    // The number of pivots in a part of the first quarter.
    part: u32,
    // The number of artificial arcs that carried something at the start.
    first_loaded: u64,
    before: RunCounts,
    is_dense: bool,
    // Whether only the limit of work can still end the run early.
    is_sure: bool,
}

// The last quarter: how many of its pivots were degenerate, how many nodes they moved, how many
// arcs their cycles had, and how many artificial arcs are loaded.
#[derive(Clone, Copy, Debug)]
struct Quarter {
    step: u64,
    still: u64,
    moved: u64,
    climbed: u64,
    loaded: u64,
    first_loaded: u64,
}

impl Quarter {
    // Whether at least this many nodes were moved per pivot.
    fn moves(&self, nodes: u64) -> bool {
        nodes.wrapping_mul(self.step) <= self.moved
    }

    // Whether fewer than a fifth of the pivots were degenerate.
    fn pushes(&self) -> bool {
        self.still.wrapping_mul(5) < self.step
    }

    // Whether at least this percentage of the initially loaded artificial arcs is still loaded.
    fn is_still_loaded(&self, percent: u64) -> bool {
        percent.wrapping_mul(self.first_loaded.max(1)) <= self.loaded.wrapping_mul(100)
    }

    // Whether cycles had at least this many arcs on average.
    fn climbs(&self, arcs: u64) -> bool {
        arcs.wrapping_mul(self.step) <= self.climbed
    }
}

/// The pricing rule for a run of a net: on dense nets its blocks keep their size. The model of a
/// rule leaves out the size of blocks.
pub(crate) fn rule_for(net: &Net) -> Following
    ensures { result ≡ first_following }
{
    if is_dense(net) {
        return Following::steady();
    }
    Following::suited_to(net.arc_count())
}

impl Watch {
    /// The watch over a run that has made no pivot.
    pub(crate) fn of(net: &Net, counts: RunCounts) -> Watch
        ensures step { 1 ≤ result.step }
        ensures part { 1 ≤ result.part }
    {
        let nodes = net.node_count();
        Watch {
            nodes,
            arcs: u64::from(net.arc_count()),
            step: (nodes / 4).max(1),
            quarters: 0,
            part: (nodes / (4 * FRONT_PARTS)).max(1),
            first_loaded: counts.loaded,
            before: counts,
            is_dense: is_dense(net),
            is_sure: false,
        }
    }

    /// The number of pivots until the next decision.
    pub(crate) fn step(&self) -> u32
        requires step { 1 ≤ self.now.step }
        requires part { 1 ≤ self.now.part }
        ensures { 1 ≤ result }
    {
        if self.quarters == 0 {
            self.part
        } else {
            self.step
        }
    }

    /// The least number of arcs in a block at first.
    pub(crate) fn first_arcs(&self) -> u32 {
        if LARGE_NODES <= self.nodes && !self.is_dense {
            EARLY_ARCS
        } else {
            self.least_arcs()
        }
    }

    /// The least number of arcs in a block once it is known that the run continues.
    pub(crate) fn least_arcs(&self) -> u32 {
        let is_full = MANY_ARCS_PER_NODE.wrapping_mul(u64::from(self.nodes)) <= self.arcs;
        if is_full && FULL_NODES <= self.nodes && !self.is_dense {
            FULL_ARCS
        } else {
            LEAST_ARCS
        }
    }

    /// The decision after the last quarter of pivots, or within the first one.
    pub(crate) fn decide(&mut self, counts: RunCounts) -> Decision
        ensures step { self.new.step ≡ self.old.step }
        ensures part { self.new.part ≡ self.old.part }
    {
        if self.quarters == 0 && self.is_front(&counts) {
            return Decision::Leave;
        }
        if counts.pivots < u64::from(self.step) {
            return Decision::Wait;
        }
        let quarter = Quarter {
            step: u64::from(self.step),
            still: counts.still.wrapping_sub(self.before.still),
            moved: counts.moved.wrapping_sub(self.before.moved),
            climbed: counts.climbed.wrapping_sub(self.before.climbed),
            loaded: counts.loaded,
            first_loaded: self.first_loaded,
        };
        self.before = counts;
        self.quarters = self.quarters.wrapping_add(1);
        let decision = self.decision(&quarter, &counts);
        self.is_sure = self.is_sure || decision == Decision::Stay;
        decision
    }

    // The decision, by the last quarter and by all counts.
    fn decision(&self, quarter: &Quarter, counts: &RunCounts) -> Decision {
        if self.is_dense {
            return Decision::Wait;
        }
        if self.quarters == 2 && self.is_soon_left(quarter, counts) {
            return Decision::Leave;
        }
        if self.quarters == 2 && is_busy(counts) {
            return Decision::Split(self.busy_stretches(quarter));
        }
        if self.nodes < LEAST_NODES_TO_LEAVE {
            return self.of_small(quarter);
        }
        if self.is_beyond(counts) {
            return Decision::Leave;
        }
        if self.is_sure {
            return Decision::Wait;
        }
        if self.quarters < 6 {
            return self.of_first_round(quarter, counts);
        }
        self.of_later(quarter)
    }

    // Whether a large net is left after two quarters: it is so scattered that most senders still
    // send to the root, though cycles aren't the shortest; or nearly all pivots push flow, and many
    // nodes still send to the root. To leave the latter after four quarters takes 1.04 to 1.4 of
    // the time at 2^15 nodes (family `star`), and 0.96 to 1.12 in networks of several periods. On
    // wide nets it suffices that most pivots push.
    fn is_soon_left(&self, quarter: &Quarter, counts: &RunCounts) -> bool {
        let is_scattered = quarter.is_still_loaded(SCATTERED_PERCENT)
            && quarter.climbs(SCATTERED_CYCLE);
        let is_pushing = quarter.pushes() && quarter.is_still_loaded(11);
        let is_wide = WIDE_NODES <= self.nodes && is_moving(quarter, counts);
        LARGE_NODES <= self.nodes && (is_scattered || is_pushing || is_wide)
    }

    // The number of stretches if many pivots push flow: only in networks of several periods nearly
    // all of the second quarter do.
    fn busy_stretches(&self, quarter: &Quarter) -> u32 {
        if !quarter.pushes() {
            FEW_STRETCHES
        } else if self.nodes < LEAST_NODES_TO_LEAVE {
            SMALL_BUSY_STRETCHES
        } else {
            BUSY_STRETCHES
        }
    }

    // Whether the run has passed the limit of work.
    fn is_beyond(&self, counts: &RunCounts) -> bool {
        let moved = counts.moved.wrapping_mul(7);
        let climbed = counts.climbed.wrapping_mul(3);
        MOST_READINGS.wrapping_mul(self.arcs)
            < counts.scanned.wrapping_add(moved).wrapping_add(climbed)
    }

    // A net of few nodes: after eight quarters, its blocks may take pieces of more stretches.
    fn of_small(&self, quarter: &Quarter) -> Decision {
        if self.quarters == 8 && quarter.is_still_loaded(90) && !quarter.moves(100) {
            Decision::Split(SMALL_STRETCHES)
        } else {
            Decision::Wait
        }
    }

    // Whether the eligible arcs form a front, in a net of many nodes that isn't dense.
    fn is_front(&self, counts: &RunCounts) -> bool {
        let is_front = FRONT_READINGS.wrapping_mul(self.arcs) < counts.scanned;
        is_front && FRONT_NODES <= self.nodes && !self.is_dense
    }

    // After as many pivots as there are nodes. The run is left if nearly all senders still send to
    // the root, as in grids; or if most pivots push flow and many nodes still send to the
    // root, as in networks of several periods.
    fn of_first_round(&self, quarter: &Quarter, counts: &RunCounts) -> Decision {
        if self.quarters != 4 {
            return Decision::Wait;
        }
        let is_stuck = quarter.is_still_loaded(95) && 8 <= self.first_loaded;
        let is_large = MANY_NODES <= self.nodes;
        let is_slow = is_moving(quarter, counts) && least_moving_nodes(counts) <= self.nodes;
        if (is_stuck && is_large) || is_slow {
            return Decision::Leave;
        }
        if !quarter.is_still_loaded(11) && self.nodes < WIDE_NODES {
            return Decision::Stay;
        }
        Decision::Wait
    }

    // From one and a half times as many pivots as nodes on. The run is left if many nodes still
    // send to the root: after six quarters in larger nets; after eight, twelve and sixteen by how
    // many nodes the pivots of the last quarter moved.
    fn of_later(&self, quarter: &Quarter) -> Decision {
        let is_stuck = match self.quarters {
            6 => quarter.is_still_loaded(90) && MANY_NODES <= self.nodes,
            8 => quarter.is_still_loaded(50) && quarter.moves(450),
            12 => quarter.is_still_loaded(90) && !quarter.moves(100) && 4_096 <= self.nodes,
            16 => quarter.is_still_loaded(90) && !quarter.moves(150),
            _ => false,
        };
        if is_stuck {
            return Decision::Leave;
        }
        if self.quarters <= 16 && quarter.is_still_loaded(50) {
            return Decision::Wait;
        }
        if self.nodes < LARGE_NODES {
            return Decision::Stay;
        }
        self.of_large(quarter)
    }

    // A large net: if pivots move much soon, they move more and more of the tree, so that the time
    // of the simplex grows as the square of the nodes; unless cycles are long, as in road nets.
    fn of_large(&self, quarter: &Quarter) -> Decision {
        let is_road = self.quarters == 6 && quarter.climbs(LONG_CYCLE) && self.nodes < DEEP_NODES;
        if is_road {
            return Decision::Stay;
        }
        let is_slow = match self.quarters {
            6 => quarter.moves(25) && quarter.is_still_loaded(1),
            7 => quarter.moves(45),
            _ => quarter.moves(60),
        };
        if is_slow {
            return Decision::Leave;
        }
        if self.quarters <= 7 {
            Decision::Wait
        } else {
            Decision::Stay
        }
    }
}

// Whether most pivots push flow, and many nodes still send to the root.
fn is_moving(quarter: &Quarter, counts: &RunCounts) -> bool {
    counts.still.wrapping_mul(2) < counts.pivots && quarter.is_still_loaded(11)
}

// Whether many pivots push flow, but not nearly all: between an eighth and a half of all so far are
// degenerate.
fn is_busy(counts: &RunCounts) -> bool {
    counts.still.wrapping_mul(2) < counts.pivots && counts.pivots < counts.still.wrapping_mul(8)
}

// The number of nodes from which it pays to leave a run after four quarters if most pivots push
// flow. In networks of several periods, an eighth to a quarter of them are degenerate: there blocks
// of more pieces gain most, and the run takes 0.56 to 0.7 of the time of the search at 2^14 nodes
// (family `plan`). Where more are, since most nodes send or take, it takes 1.3 to 1.5 of it (family
// `many`).
fn least_moving_nodes(counts: &RunCounts) -> u32 {
    if is_busy(counts) && counts.still.wrapping_mul(4) < counts.pivots {
        LARGE_NODES
    } else {
        MANY_NODES
    }
}
