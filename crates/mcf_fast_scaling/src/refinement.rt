//! Attempts to make the flow optimal by prices alone: within the slack (price refinement), or
//! exactly, with the last cycles cancelled (the exact finish).

use crate::sorting::{Order, Sorter};
use crate::spreading::Update;
use crate::star::Star;
use crate::tables::Buckets;
use crate::tuning::MOST_ROUNDS;

/// Lowers prices until no residual arc has a reduced cost further below 0 than the slack, and says
/// whether that came about; no node is active. A cycle of negative reduced costs that it meets is
/// cancelled, and ends the attempt.
pub(crate) fn refine(star: &mut Star, order: &mut Order, buckets: &mut Buckets) -> bool {
    'rounds: for _ in 0..MOST_ROUNDS {
        order.label_all();
        if star.budget.is_spent() || !(Sorter { star, order }).sort(-1) {
            return false;
        }
        match (Update { star, buckets }).lower_prices(order) {
            Some(0) => return true,
            Some(_) => {}
            None => return false,
        }
    }
    false
}

/// Seeks prices that are exact, in the net's own unit, from those of a phase rounded down. It
/// corrects labels pass by pass, each in a topological order of the arcs of reduced cost 0 and
/// below (Goldberg and Radzik), until no reduced cost is below 0. It returns false if that takes
/// more than an eighth of the work so far, or a price doesn't fit.
pub(crate) fn finish(star: &mut Star, order: &mut Order) -> bool {
    let end = star.budget.end_of_eighth();
    let shift = star.shift();
    star.rescale(shift, shift);
    order.label_all();
    'passes: for _ in 0..u64::MAX {
        Sorter { star, order }.sort(0);
        if order.is_empty() {
            return star.rescale(shift, 0);
        }
        if !correct_all(star, order) || star.budget.is_past(end) {
            return false;
        }
    }
    false
}

// Corrects the labels of the nodes in their order. It returns false if a price doesn't fit.
fn correct_all(star: &mut Star, order: &mut Order) -> bool {
    let mut fits = true;
    'nodes: for _ in 0..u32::MAX {
        let Some(node) = order.pop() else {
            break;
        };
        star.pay_degree(node);
        fits = correct_heads(star, order, node) && fits;
    }
    fits
}

// Lowers the price of each node at the head of an arc of negative reduced cost that leaves a node,
// so that the reduced cost is 0, and labels it.
fn correct_heads(star: &mut Star, order: &mut Order, node: u32) -> bool {
    let mut fits = true;
    let (mut from, end) = (star.first(node), star.end(node));
    'arcs: for _ in 0..u32::MAX {
        let Some(arc) = star.seek(node, from, end, 0).0 else {
            break;
        };
        let lowered = star.price(arc.head).wrapping_add(arc.reduced);
        fits = star.set_price(arc.head, lowered) && fits;
        order.label(arc.head);
        from = arc.place.wrapping_add(1);
    }
    fits
}
