//! The widths of arcs, stored up to the last one that isn't 1. Each later arc has width 1, so that
//! an assignment stores none.
ghost use Rattle.std.specs.Prelude.{◌≡◌, ◌<◌, ◌≤◌, OnOk, length};
ghost use Rattle.mcf_network.specs.Private.Widths.{GainsWidth};
ghost use Rattle.mcf_network.specs.Stored.{width_at};

use mcf_text::NoMemory;

/// The width of the arc at a place.
pub(crate) fn width_at(widths: &[i64], place: usize) -> i64
    ensures { result ≡ width_at widths.now place }
{
    if place < widths.len() {
        widths[place]
    } else {
        1
    }
}

/// Gives the arc at a place its width, once those before it have theirs. There are `count` arcs.
pub(crate) fn put_width(
    widths: &mut Vec<i64>,
    place: usize,
    width: i64,
    count: usize,
) -> Result<(), NoMemory>
    requires before { length widths.old.items ≤ place }
    requires within { place < count }
    ensures { OnOk result (GainsWidth widths.old.items place width widths.new.items) }
{
    if width == 1 {
        return Ok(());
    }
    widths.reserve_exact(count - widths.len())?;
    widths.resize(place, 1)?;
    widths.push(width)?;
    Ok(())
}
