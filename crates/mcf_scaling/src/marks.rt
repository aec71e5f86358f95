//! A mark for each position of the forward star, which says whether the residual arc there has
//! capacity.
ghost use Rattle.std.specs.Prelude.{◌≡◌, length};
ghost use Rattle.std.specs.Bool.{OnFalse, OnTrue};
ghost use Rattle.mcf_flows.specs.Network.{IsArcNumber};
ghost use Rattle.mcf_network.specs.Walks.{HasRoom};
ghost use Rattle.mcf_scaling.specs.Private.Stars.{AreCapacityMarks, ArePositions, IsMarked, IsStarOf};

use crate::star::ForwardStar;
use mcf_network::{Rid, State};
use mcf_text::ArcId;

/// Writes the marks of all residual arcs.
pub(crate) fn mark_all(state: &State<'_>, star: &ForwardStar, has_capacity: &mut Vec<bool>)
    requires star { IsStarOf state.now.net star.now }
    requires positions { ArePositions state.now.net star.now }
    requires count { length has_capacity.old.items ≡ length star.now.outs }
    ensures { AreCapacityMarks state.now star.now has_capacity.new.items }
{
    'arcs: for number in 0..state.net().arc_count() {
        mark(state, star, has_capacity, ArcId::at(number));
    }
}

/// Writes the marks of an arc, forward and backward.
pub(crate) fn mark(state: &State<'_>, star: &ForwardStar, has_capacity: &mut Vec<bool>, arc: ArcId)
    requires arc { IsArcNumber state.now.net arc }
    requires positions { ArePositions state.now.net star.now }
    requires count { length has_capacity.old.items ≡ length star.now.outs }
    ensures { IsMarked state.now star.now has_capacity.old.items has_capacity.new.items arc }
{
    let link = 2 * arc.place();
    let forward = star.position(link);
    let backward = star.position(link + 1);
    has_capacity[forward] = has_room(state, arc, false);
    has_capacity[backward] = has_room(state, arc, true);
}

// Whether a residual arc has capacity.
fn has_room(state: &State<'_>, arc: ArcId, back: bool) -> bool
    requires { IsArcNumber state.now.net arc }
    ensures yes { OnTrue result (HasRoom state.now (record { arc = arc; back = back })) }
    ensures no { OnFalse result (¬ HasRoom state.now (record { arc = arc; back = back })) }
{
    state.room(Rid { arc, back }) > 0
}
