//! Where pairs stand in the model of a roster with groups, and the links of all groups.
ghost use Rattle.std.specs.Prelude.{◌≡◌, IfOk, None};
ghost use Rattle.mcf_groups.specs.GroupFaults.{group_fault};
ghost use Rattle.mcf_groups.specs.LinkRows.{IsGrownBy};

use crate::groups::Group;
use crate::nesting::grow;
use crate::nests::{NestTables, start_of};
use mcf_model::RouteRow;
use mcf_roster::Roster;
use mcf_text::NoMemory;
use std::alloc::Global;

// Where pairs stand after all groups, and the links of these, one after the other.
#[derive(Drop)]
pub(crate) struct Grown {
    pub(crate) nest: NestTables,
    pub(crate) links: Vec<RouteRow>,
}

// Returns where pairs stand after all groups, and their links.
pub(crate) fn grown_by(alloc: Global, roster: &Roster, groups: &[Group]) -> Result<Grown, NoMemory>
    requires fine { group_fault roster.now groups.now ≡ None }
    ensures { IfOk result (IsGrownBy roster.now groups.now) }
{
    let mut nest = start_of(alloc, roster)?;
    let mut links = Vec::new(alloc);
    grow(roster, groups, &mut nest, &mut links)?;
    Ok(Grown { nest, links })
}
