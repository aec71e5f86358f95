//! The groups of a table, and those that a choice keeps to.
ghost use Rattle.std.specs.Prelude.{◌≡◌, IfOk};
ghost use Rattle.mcf_pair_tables.specs.GroupSets.{AreSetsOf};

use crate::grouping::{all_numbers, groups_of};
use mcf_group_reading::GroupTable;
use mcf_groups::{Crossing, Group, arranged};
use mcf_text::NoMemory;
use std::alloc::Global;

// All groups, in the order of the table; the numbers of those that are kept, and which cross those;
// and the kept ones, in their order.
#[derive(Drop)]
pub(crate) struct GroupSets {
    pub(crate) all: Vec<Group>,
    pub(crate) kept: Vec<usize>,
    pub(crate) crossings: Vec<Crossing>,
    pub(crate) groups: Vec<Group>,
}

// The groups of a table, and those that are kept.
pub(crate) fn sets_of(alloc: Global, table: &GroupTable<'_>) -> Result<GroupSets, NoMemory>
    ensures { IfOk result (AreSetsOf table.now) }
{
    let numbers = all_numbers(alloc, table.groups().len())?;
    let all = groups_of(alloc, table, &numbers)?;
    let arrangement = arranged(alloc, &all)?;
    let groups = groups_of(alloc, table, &arrangement.kept)?;
    Ok(GroupSets {
        all,
        kept: arrangement.kept,
        crossings: arrangement.crossings,
        groups,
    })
}
