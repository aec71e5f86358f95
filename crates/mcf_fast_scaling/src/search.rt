//! The search: cost scaling in whole units, with an exact finish.

use crate::phase::Phase;
use crate::refinement::{finish, refine};
use crate::sorting::Order;
use crate::star::Star;
use crate::tables::{Buckets, Queue};
use crate::tuning::MOST_PHASES;
use mcf_network::Net;
use mcf_text::{NoMemory, copies};
use std::alloc::Global;

/// A search for a least flow and whole prices that show it. Nothing is proved of what it finds: it
/// is safe, and it ends.
///
/// Costs are scaled by 16 from phase to phase (Goldberg and Tarjan), from a slack below the
/// greatest cost on, at the costs as they are. A phase augments the flow along paths of at most
/// four arcs (Goldberg 2008), with global price updates and price refinement (Goldberg, An
/// efficient implementation of a scaling minimum-cost flow algorithm, 1997). At a small slack
/// passes in topological order (Goldberg and Radzik, A heuristic improvement of the Bellman-Ford
/// algorithm, 1993) look for prices that are exact.
///
/// The parts of a search borrow its tables in turn. From one to the next only the star has a
/// meaning, and the queue is empty: of the other tables each part reads only what it has written.
#[derive(Drop)]
pub(crate) struct Search {
    star: Star,
    // for each node the place of an arc
    currents: Vec<u32>,
    queue: Queue,
    buckets: Buckets,
    order: Order,
}

impl Search {
    /// The search in a net, which may read all of it this many times. Only this takes memory.
    pub(crate) fn start(alloc: Global, net: &Net, readings: u32) -> Result<Search, NoMemory> {
        let nodes = net.node_count() as usize;
        Ok(Search {
            star: Star::start(alloc, net, readings)?,
            currents: copies(alloc, nodes, 0)?,
            queue: Queue::start(alloc, nodes)?,
            buckets: Buckets::start(alloc, net.node_count())?,
            order: Order::start(alloc, nodes)?,
        })
    }

    /// Searches. The star that it returns has a least flow and prices that show it; that is for
    /// others to judge, who may write into the table of nodes that comes with it.
    pub(crate) fn run(&mut self) -> Option<(&Star, &mut [u32])> {
        'phases: for phase in 0..MOST_PHASES {
            let is_refined = phase > 0
                && refine(&mut self.star, &mut self.order, &mut self.buckets);
            if !is_refined && !self.run_phase() {
                return None;
            }
            if self.star.is_fine() && finish(&mut self.star, &mut self.order) {
                return Some((&self.star, &mut self.currents));
            }
            if self.star.budget.is_spent() || !self.star.deepen() {
                return None;
            }
        }
        None
    }

    // Makes the flow optimal within the slack, and balanced.
    fn run_phase(&mut self) -> bool {
        let mut phase = Phase {
            star: &mut self.star,
            currents: &mut self.currents,
            queue: &mut self.queue,
            buckets: &mut self.buckets,
            relabels: 0,
        };
        phase.run()
    }
}
