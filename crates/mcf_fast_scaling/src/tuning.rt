//! The numbers that tune the speed of the search. No clause but that of `is_dense` depends on any.
//! `bench/run.py fast` measures them, on nets of 2^14 and 2^16 nodes unless a number says
//! otherwise.

/// A net with more arcs per node is dense. It isn't searched, since the network simplex is faster
/// there: dense assignments and transports take 0.4 to 0.7 of the time of the faster of LEMON's
/// network simplex and cost scaling.
pub(crate) const MOST_ARCS_PER_NODE: u64 = 64;

/// The slack falls by 2 to this power from phase to phase. By 4 a search takes 1.4 to 2.1 of the
/// time, by 8 1.05 to 1.7, by 32 or 64 up to 1.4.
pub(crate) const FACTOR: u32 = 4;

/// The search looks for exact prices once the slack is this power of 2 below the greatest cost,
/// even if it is more than a unit. With costs up to 10^8 the search then takes 0.7 to 0.8 of the
/// work on 2^15 nodes (family `large`).
pub(crate) const FINE: u32 = 14;

/// No more phases than this are begun; 64 bits of costs need 16.
pub(crate) const MOST_PHASES: u32 = 100;

/// How many arcs a path has at most. With 2, 3 or 6 a search takes as long, with 1 1.1 to 1.3 of
/// the time, with 8 1.1 and with 20 1.7 of it on grids.
pub(crate) const MOST_ARCS: usize = 4;

/// The most nodes of a path.
pub(crate) const MOST_NODES: usize = MOST_ARCS + 1;

/// An update of all prices is due once more than this many fifths of the nodes were relabelled
/// since the last one. With 3, 4 and 6 a process takes 1.01, 1.04 and 1.09 of the time on twelve
/// nets of gridgen, 1.03, 1.03 and 1.01 of it on twelve of netgen.
pub(crate) const LATE_FIFTHS: u32 = 2;

/// An update stops when all but one in this many active nodes are reached. One in 3 to 10 makes no
/// difference.
pub(crate) const LEFT_PART: u32 = 5;

/// No more rounds of price refinement than this are made; up to 5 were seen.
pub(crate) const MOST_ROUNDS: u32 = 30;

/// The least number of buckets, twice the greatest rank that was seen on grids.
pub(crate) const LEAST_BUCKETS: u32 = 1024;
