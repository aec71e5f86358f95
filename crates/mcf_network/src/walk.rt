//! Walks of residual arcs.
ghost use Rattle.std.specs.Prelude.{◌≡◌, ◌<◌, ◌+ℤ◌, ◌*ℤ◌, ◌≤ℤ◌, ℕ, All, Any, length};
ghost use Rattle.mcf_flows.specs.Flow.{cost};
ghost use Rattle.mcf_flows.specs.Network.{IsArcNumber};
ghost use Rattle.mcf_network.specs.States.{IsPseudoflow, MovesSurplus, room_of};
ghost use Rattle.mcf_network.specs.Walks.{CanPushAlong, IsWalk, pushed_along, walk_cost};

use crate::rid::Rid;
use crate::state::State;

/// The least room (residual capacity) along residual arcs, of which there is at least one.
pub fn room_along(state: &State<'_>, walk: &[Rid]) -> i128
    requires some { 0 < length walk.now }
    requires arcs { All (λ r. IsArcNumber state.now.net r.arc) walk.now }
    ensures each { All (λ r. result ≤ℤ room_of state.now r) walk.now }
    ensures reached { Any (λ r. result ≡ room_of state.now r) walk.now }
{
    let mut least = state.room(walk[0]);
    for r in walk {
        least = least.min(state.room(*r));
    }
    least
}

/// Pushes the same amount along each of some residual arcs that have room for it.
///
/// If they form a walk, this much surplus moves from its beginning to its end, and the cost of the
/// state changes by the walk's cost per unit.
pub fn push_along(state: &mut State<'_>, walk: &[Rid], amount: i128)
    requires flow { IsPseudoflow state.old }
    requires can { CanPushAlong state.old walk.now amount }
    ensures value { state.new ≡ pushed_along state.old walk.now amount }
    ensures surpluses { (u w : ℕ) → IsWalk state.old.net u walk.now w → MovesSurplus state.old state.new u w amount }
    ensures cost { cost state.old.net.arcs state.new.amounts ≡ cost state.old.net.arcs state.old.amounts +ℤ walk_cost state.old.net walk.now *ℤ amount }
    ensures valid { IsPseudoflow state.new }
{
    for r in walk {
        state.push(*r, amount);
    }
}
