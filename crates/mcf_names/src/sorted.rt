//! Names with their places, in order.
ghost use Rattle.std.specs.Prelude.{◌≡◌, IfOk, false, map, true};
ghost use Rattle.std.specs.Cmp.Lexicographic.{slice_cmp};
ghost use Rattle.std.specs.List.Sorted.{IsPartitionPoint, IsSorted};
ghost use Rattle.std.specs.Ordering.{is_lt, nat_cmp};
ghost use Rattle.mcf_names.specs.Private.Index.{ArePlaced, is_below, placed_cmp};

use mcf_text::NoMemory;
use std::alloc::Global;

// A name, and its place among the names, from 0. They are ordered by name, and then by place.
#[derive(Clone, Copy, PartialEq, Eq, PartialOrd, Ord)]
pub(crate) struct Placed<'t> {
    pub(crate) name: &'t [u8],
    pub(crate) place: usize,
}

// The names with their places, in the order of the places.
pub(crate) fn with_places<'t>(
    alloc: Global,
    names: &[&'t [u8]],
) -> Result<Vec<Placed<'t>>, NoMemory>
    ensures { IfOk result (λ made. ArePlaced (map (λ name. name.now) names.now) made.items) }
{
    let mut made = Vec::with_capacity(alloc, names.len())?;
    'names: for place in 0..names.len() {
        let name = names[place];
        made.push(Placed { name, place })?;
    }
    Ok(made)
}

// How many of the sorted names are below this one.
pub(crate) fn below_count(sorted: &[Placed<'_>], name: &[u8]) -> usize
    requires { IsSorted placed_cmp sorted.now }
    ensures { IsPartitionPoint (λ placed. is_below name.now placed ≡ true) (λ placed. is_below name.now placed ≡ false) sorted.now result }
{
    sorted.partition_point(|placed| is_before(placed.name, name))
}

// Whether the first name is below the second.
fn is_before(one: &[u8], other: &[u8]) -> bool
    ensures { result ≡ is_lt (slice_cmp nat_cmp one.now other.now) }
{
    one.cmp(&other).is_lt()
}
