//! How a net is solved, by its number of arcs per node, and the numbers that tune its speed.
//! `bench/run.py assign` measures each of them; no clause depends on any.
ghost use Rattle.std.specs.Prelude.{◌≡◌, ◌≤◌, true};
ghost use Rattle.mcf_flows.specs.Network.{node_count};

use mcf_network::Net;

/// Whether a net has few arcs per node. Then rows are kept whole, and all prices, if they have 64
/// bits, are updated from time to time; otherwise the cheapest arcs of each row are kept, and only
/// searches change prices.
pub(crate) fn is_sparse(net: &Net) -> bool
    ensures nodes { result ≡ true → 1 ≤ node_count net.now }
{
    net.arc_count() / ARCS_PER_NODE < net.node_count()
}

/// A net with at least this many arcs per node is dense. In `bench/run.py assign`, sparse rows have
/// 4 arcs per node, dense ones at least 128.
const ARCS_PER_NODE: u32 = 32;

/// Between two updates, searches settle one pair for this many nodes, on average. The rows where
/// they begin don't count, so that there is no update as long as they find a free column
/// immediately. Sparse, 2^12 and 2^14 rows: a solve takes 3 % more instructions with one for each
/// node and 4 % with one for four.
pub(crate) const NODES_PER_PAIR: u64 = 2;

/// An update settles one in this many matched columns, the nearest to unmatched ones. Sparse, 2^16
/// rows: updates scan 3.8 million arcs instead of 6.3 when they settle all, and searches 11.2
/// instead of 13.8.
pub(crate) const SETTLED_PART: usize = 3;

/// The number of buckets of an update. Sparse, 2^12 rows: an update takes half of the time that it
/// takes with a heap.
pub(crate) const BUCKETS: usize = 64;

/// A bucket is so narrow that this many hold the greatest cost. Sparse, 2^12 rows, as above.
pub(crate) const BUCKETS_IN_COST: u64 = 1024;

/// About how many arcs of a dense row are sampled to decide which are cheap. Dense, 1,024 rows:
/// with the cheapest arcs first, searches take 0.026 s instead of 0.19.
pub(crate) const SAMPLE: u32 = 32;

/// The initial space for the arcs of a node. Dense, 256 rows and more.
pub(crate) const FIRST_ARCS: usize = 32;

/// The space for the nearest offers beside the heap. Sparse, 2^14 rows: a solve takes 372 million
/// instructions instead of 410 with the heap alone, and no fewer with space for all.
pub(crate) const NEAR_OFFERS: usize = 64;
