//! The mark before decimals that the costs show.
ghost use Rattle.std.specs.Prelude.{◌≡◌};
ghost use Rattle.mcf_decimal.specs.Settled.{marks_of};
ghost use Rattle.mcf_roster_reading.specs.CostMarks.{cost_cells, mark_by, pair_at, settled_mark};

use crate::cells::{at_place, cell_in};
use crate::kinds::{Fault, FaultKind, Location};
use crate::layouts::PairAt;
use mcf_decimal::{Mark, Marks, Settled};
use mcf_table::Records;

// The pair at a place; the first cell of the table for each of its cells, if there is none.
fn pair_at(pairs: &[PairAt], place: u64) -> PairAt
    ensures { result ≡ pair_at pairs.now place }
{
    match pairs.get(place as usize) {
        Some(pair) => *pair,
        None => PairAt {
            who: at_place(0, 0),
            what: at_place(0, 0),
            cost: at_place(0, 0),
        },
    }
}

// The marks that the costs show.
fn shown_marks(records: &Records, pairs: &[PairAt]) -> Marks
    ensures { result ≡ marks_of (cost_cells records.now pairs.now) }
{
    let mut marks = Marks::none();
    for pair in pairs {
        marks = marks.with_cell(cell_in(records, pair.cost));
    }
    marks
}

// The mark that is settled, or the fault of the first cell that shows a second one.
fn mark_by(pairs: &[PairAt], settled: Settled) -> Result<Option<Mark>, Fault>
    ensures { result ≡ mark_by pairs.now settled }
{
    match settled {
        Settled::Open => Ok(None),
        Settled::One(mark) => Ok(Some(mark)),
        Settled::Both { second, .. } => Err(Fault {
            at: Location::Cell(pair_at(pairs, second).cost),
            kind: FaultKind::BothMarks,
        }),
    }
}

// The mark that is named, or else the one that the costs show; `None` if they show none, and a
// fault if they show both.
pub(crate) fn settled_mark(
    records: &Records,
    pairs: &[PairAt],
    named: Option<Mark>,
) -> Result<Option<Mark>, Fault>
    ensures { result ≡ settled_mark named records.now pairs.now }
{
    let marks = shown_marks(records, pairs);
    mark_by(pairs, marks.settled(named))
}
