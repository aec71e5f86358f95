//! Ranks of nodes that spread along residual arcs, from the greatest down (Dial), and prices that
//! change by them: global price updates.

use crate::sorting::Order;
use crate::star::{EMPTY, FULL, LIMIT, Star};
use crate::tables::Buckets;
use crate::tuning::LEFT_PART;

/// The nodes that get a rank from that of a node: the heads of the residual arcs that leave it,
/// whose prices fall, or the tails of those that enter it, whose prices rise. Far tails have at
/// least rank 1, so that they are reached at the end.
#[derive(Clone, Copy, PartialEq, Eq)]
enum Way {
    Heads,
    Tails,
}

/// A change of all prices.
#[derive(Drop)]
pub(crate) struct Update<'a> {
    pub(crate) star: &'a mut Star,
    pub(crate) buckets: &'a mut Buckets,
}

impl Update<'_> {
    /// Raises prices by the distance of nodes from the deficits, counted in slacks, up to the
    /// distance at which most active nodes are reached. It returns false if some surplus can't
    /// reach a deficit, or if a price doesn't fit.
    pub(crate) fn raise_prices(&mut self) -> bool {
        let active = self.rank_deficits();
        let most = self.buckets.most();
        let rank = self.spread_all(most, Way::Tails, active, active / LEFT_PART);
        rank > 0 && self.change_prices(rank, 1)
    }

    /// Lowers prices by the slacks by which walks of negative reduced costs lie below 0, which lead
    /// along the nodes of an order, and returns their greatest number, unless a price doesn't fit
    /// or there may be more. No node is active, so that the ranks spread to the end.
    pub(crate) fn lower_prices(&mut self, order: &mut Order) -> Option<u32> {
        let greatest = self.rank_sorted(order);
        self.spread_all(greatest, Way::Heads, 1, 0);
        let fits = greatest < self.buckets.most() && self.change_prices(0, -1);
        if fits { Some(greatest) } else { None }
    }

    // Gives each node of an order the greatest number of slacks by which a walk of negative reduced
    // costs to it lies below 0, and what spreads from that, and returns the greatest.
    fn rank_sorted(&mut self, order: &mut Order) -> u32 {
        let most = self.buckets.most();
        let mut greatest = 0;
        self.buckets.clear();
        'nodes: for _ in 0..u32::MAX {
            let Some(node) = order.pop() else {
                break;
            };
            self.spread(node, most, Way::Heads);
            greatest = self.buckets.rank(node).max(greatest);
        }
        greatest
    }

    // Gives the nodes with a deficit the greatest rank, and returns how many have a surplus.
    fn rank_deficits(&mut self) -> u32 {
        let most = self.buckets.most();
        let mut active = 0u32;
        self.buckets.clear();
        'nodes: for node in 0..self.star.node_count() {
            let surplus = self.star.surplus(node);
            if surplus > 0 {
                active = active.wrapping_add(1);
            } else if surplus < 0 {
                self.buckets.raise(node, most);
            }
        }
        active
    }

    // Spreads from the nodes of each rank, from a greatest one down, until few of the active nodes
    // are left, and returns the rank at that moment, or 0.
    fn spread_all(&mut self, greatest: u32, way: Way, active: u32, few: u32) -> u32 {
        let (mut rank, mut left) = (greatest, active);
        'nodes: for _ in 0..u64::MAX {
            if rank == 0 || left <= few {
                break;
            }
            let Some(node) = self.buckets.pop(rank) else {
                rank = rank.wrapping_sub(1);
                continue;
            };
            self.star.pay_degree(node);
            match way {
                Way::Heads => self.spread(node, rank, Way::Heads),
                Way::Tails => self.spread(node, rank, Way::Tails),
            }
            if self.star.surplus(node) > 0 {
                left = left.wrapping_sub(1);
            }
        }
        rank
    }

    // Raises the ranks of the nodes at the other ends of the residual arcs at a node, up to a
    // greatest rank: each is below that of the node by the slacks in the arc's reduced cost,
    // rounded up.
    #[inline(always)]
    fn spread(&mut self, node: u32, greatest: u32, way: Way) {
        let price = self.star.price(node);
        let rank = i64::from(self.buckets.rank(node));
        let (mark, least, sign) = match way {
            Way::Heads => (FULL, 0, 1),
            Way::Tails => (EMPTY, 1, -1),
        };
        'places: for i in self.star.first(node)..self.star.end(node) {
            let place = self.star.place(i);
            if place.head & mark != 0 {
                continue;
            }
            let other = place.node();
            let old = self.buckets.rank(other);
            if old >= greatest {
                continue;
            }
            let fall = price.wrapping_sub(self.star.price(other));
            let along = self.star.cost(i, place).wrapping_add(fall);
            let slacks = self.star.slacks(along.wrapping_mul(sign));
            let new = rank.wrapping_sub(slacks).wrapping_sub(1);
            let new = u32::try_from(new).unwrap_or(0).min(greatest).max(least);
            if new > old {
                self.buckets.raise(other, new);
            }
        }
    }

    // Changes the price of each node by as many slacks as its rank is above another, up or down by
    // the sign. It returns false if a price doesn't fit.
    fn change_prices(&mut self, rank: u32, sign: i64) -> bool {
        let (most, slack) = (self.star.slacks(LIMIT), self.star.slack());
        let mut fits = true;
        'nodes: for node in 0..self.star.node_count() {
            let steps = i64::from(self.buckets.rank(node).saturating_sub(rank));
            let change = steps.wrapping_mul(slack).wrapping_mul(sign);
            let changed = self.star.price(node).wrapping_add(change);
            fits = self.star.set_price(node, changed) && fits && steps <= most;
        }
        fits
    }
}
