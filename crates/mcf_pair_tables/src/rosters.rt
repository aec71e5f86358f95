//! The roster of a table.
ghost use Rattle.std.specs.Prelude.{◌≡◌, IfOk};
ghost use Rattle.mcf_roster.specs.RosterFaults.{IsSoundRoster, made_of_lists};
ghost use Rattle.mcf_pair_tables.specs.PairRosters.{IsMadeOf};

use crate::costs::pairs_in;
use crate::options::Options;
use crate::ranges::{all_needs, all_takes, asks_persons, asks_things, each_of};
use mcf_roster::{Roster, RosterFault};
use mcf_roster_reading::RosterTable;
use mcf_text::NoMemory;
use std::alloc::Global;

// The roster of a table, or its first fault.
pub(crate) fn roster_of(
    alloc: Global,
    scale: u32,
    table: &RosterTable<'_>,
    options: Options,
) -> Result<Result<Roster, RosterFault>, NoMemory>
    ensures exact { IfOk result (IsMadeOf scale table.now options) }
    ensures sound { IfOk result (λ made. IfOk made IsSoundRoster) }
{
    let each = each_of(options.each, table);
    let takes = all_takes(alloc, asks_persons(each), table.takes())?;
    let needs = all_needs(alloc, asks_things(each), table.needs())?;
    let pairs = pairs_in(alloc, options.maximise, scale, table.pairs())?;
    Ok(Roster::of(takes, needs, pairs))
}
