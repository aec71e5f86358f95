//! The content of a flow answer, or a flow by arc, read along the arcs.
ghost use Rattle.std.specs.Prelude.{◌≡◌, ◌+◌, slice_get};
ghost use Rattle.mcf_checker.specs.Private.StatedFlows.{HasLine, IsFlowAt, IsNext, flow_if_of};

use mcf_answer::Sent;
use mcf_instance::Arc;
use mcf_text::ArcId;

/// The flow lines of an answer, in one of their forms, or a flow by arc.
#[derive(Clone, Copy)]
pub(crate) enum Stated<'a> {
    /// A line for each arc, in order.
    Each(&'a [Sent]),
    /// Lines of arcs in order, by their numbers: the other arcs carry their lower bounds.
    Moved(&'a [(ArcId, i128)]),
    /// The amount of each arc, in order.
    Amounts(&'a [i64]),
}

/// The flow of the arc at a place, counted from 0, if the first `next` lines belong to arcs before
/// it; afterwards `next` lines belong to the arcs up to it.
pub(crate) fn flow_at(stated: Stated<'_>, arc: &Arc, place: u32, next: &mut usize) -> i128
    requires line { HasLine stated place }
    requires next { IsNext stated place next.old }
    ensures flow { IsFlowAt stated.entry arc.now place result }
    ensures next { IsNext stated.entry (place + 1) next.new }
{
    match stated {
        Stated::Each(sent) => sent[place as usize].flow,
        Stated::Moved(moved) => match flow_of_next(moved, place, *next) {
            Some(flow) => {
                *next += 1;
                flow
            }
            None => arc.low,
        },
        Stated::Amounts(amounts) => i128::from(amounts[place as usize]),
    }
}

// The flow of the next line, if there is one and it belongs to the arc at the place.
fn flow_of_next(moved: &[(ArcId, i128)], place: u32, next: usize) -> Option<i128>
    ensures { result ≡ flow_if_of (place + 1) (slice_get moved.now next) }
{
    let Some(line) = moved.get(next) else {
        return None;
    };
    if u64::from(line.0.get()) == u64::from(place) + 1 {
        Some(line.1)
    } else {
        None
    }
}
