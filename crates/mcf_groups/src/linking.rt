//! Routes between the old places and the new places of a group.
ghost use Rattle.std.specs.Prelude.{◌≡◌, ◌≤◌, ◌+◌, ◌++◌, OnOk};
ghost use Rattle.mcf_groups.specs.LinkRows.{link_row, links_after};

use crate::faults::PLACE_LIMIT;
use mcf_model::RouteRow;
use mcf_roster::{Range, plain_row};
use mcf_text::NoMemory;

// Routes lead from the places after `old` to those after `new` if `leave` is true, and otherwise
// back, with a range.
#[derive(Clone, Copy)]
pub(crate) struct Links {
    pub(crate) leave: bool,
    pub(crate) old: u32,
    pub(crate) new: u32,
    pub(crate) range: Range,
}

// Returns the route from an old place to a new one, or back.
fn link_row(leave: bool, old: u32, new: u32, range: Range) -> RouteRow
    ensures { result ≡ link_row leave old new range }
{
    if leave {
        plain_row(old, new, range, 0)
    } else {
        plain_row(new, old, range, 0)
    }
}

// Appends the routes of so many new places.
pub(crate) fn push_links(links: Links, count: u32, rows: &mut Vec<RouteRow>) -> Result<(), NoMemory>
    requires old { (links.old + count) ≤ PLACE_LIMIT }
    requires new { (links.new + count) ≤ PLACE_LIMIT }
    ensures { OnOk result (rows.new.items ≡ rows.old.items ++ links_after links.leave links.old links.new links.range count) }
{
    for place in 0..count {
        let row = link_row(
            links.leave,
            links.old + (place + 1),
            links.new + (place + 1),
            links.range,
        );
        rows.push(row)?;
    }
    Ok(())
}
