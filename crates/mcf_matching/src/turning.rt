//! Augmenting along a path.
ghost use Rattle.std.specs.Prelude.{◌≡◌, ℕ, ℤ, List, length, pos, true, false};
ghost use Rattle.mcf_flows.specs.Network.{IsArcNumber, node_count};
ghost use Rattle.mcf_network.specs.States.{pushed};
ghost use Rattle.mcf_matching.specs.Private.Forests.{AreMates, IsChangedWithin, IsForest, IsTightArc, mate_at};
ghost use Rattle.mcf_matching.specs.Matchings.{IsMatchedColumn, IsMatchedRow, IsPair, IsPartialMatching, column_of, row_of};
ghost use Rattle.mcf_matching.specs.Private.Searches.{HasEntries, search_of};
ghost use Rattle.mcf_matching.specs.Private.Turning.{IsExtended};

use crate::scene::Mate;
use crate::search::Tables;
use mcf_network::{Rid, State};
use mcf_numbers::Width;
use mcf_text::ArcId;

impl<W: Width> Tables<W> {
    /// Augments along the path that ends with an arc to an unmatched column, from its end back to
    /// its row: each arc of amount 1 on it leaves the matching, and each of amount 0 enters it.
    pub(crate) fn turn(&self, state: &mut State<'_>, mates: &mut [Mate], target: ArcId)
        requires entries { HasEntries (node_count state.old.net) (search_of self.now) }
        requires forest { (source : ℕ) × (z : List ℤ) × IsForest state.old (search_of self.now) source self.now.order.items z
            × IsTightArc state.old (search_of self.now) z target (column_of state.old target) }
        requires free { ¬ IsMatchedColumn state.old (column_of state.old target) }
        requires mates { AreMates state.old mates.old }
        ensures extended { (source : ℕ) (z : List ℤ) → IsForest state.old (search_of self.now) source self.now.order.items z
            → IsTightArc state.old (search_of self.now) z target (column_of state.old target)
            → IsExtended state.old state.new z source (column_of state.old target) }
        ensures mates { AreMates state.new mates.new }
        ensures changed { IsChangedWithin state.old state.new (search_of self.now) (column_of state.old target) }
    {
        let mut arc = target;
        'path: loop {
            let mate = row_mate(state, mates, arc);
            if mate.arc == 0 {
                join(state, mates, arc);
                return;
            }
            part(state, mates, ArcId::new(mate.arc));
            join(state, mates, arc);
            arc = ArcId::new(self.predecessors[mate.node as usize - 1]);
        }
    }
}

// The mate of the row of an arc.
fn row_mate(state: &State<'_>, mates: &[Mate], k: ArcId) -> Mate
    requires arc { IsArcNumber state.now.net k }
    requires count { length mates.now ≡ node_count state.now.net }
    ensures { result ≡ mate_at mates.now (row_of state.now k) }
{
    let (row, _) = state.net().ends(k);
    mates[row.place()]
}

// Removes an arc of amount 1 from a partial matching.
fn part(state: &mut State<'_>, mates: &mut [Mate], k: ArcId)
    requires matching { IsPartialMatching state.old }
    requires mates { AreMates state.old mates.old }
    requires pair { IsPair state.old k }
    ensures value { state.new ≡ pushed state.old (record { arc = k; back = true }) (pos 1) }
    ensures mates { AreMates state.new mates.new }
{
    let (row, column) = state.net().ends(k);
    let back = true;
    state.push(Rid { arc: k, back }, 1);
    let none = Mate { arc: 0, node: 0 };
    mates[row.place()] = none;
    mates[column.place()] = none;
}

// Adds an arc between an unmatched row and an unmatched column to a partial matching.
fn join(state: &mut State<'_>, mates: &mut [Mate], k: ArcId)
    requires matching { IsPartialMatching state.old }
    requires mates { AreMates state.old mates.old }
    requires arc { IsArcNumber state.old.net k }
    requires free_row { ¬ IsMatchedRow state.old (row_of state.old k) }
    requires free_column { ¬ IsMatchedColumn state.old (column_of state.old k) }
    ensures value { state.new ≡ pushed state.old (record { arc = k; back = false }) (pos 1) }
    ensures mates { AreMates state.new mates.new }
{
    let (row, column) = state.net().ends(k);
    let back = false;
    state.push(Rid { arc: k, back }, 1);
    let arc = k.get();
    mates[row.place()] = Mate {
        arc,
        node: column.get(),
    };
    mates[column.place()] = Mate {
        arc,
        node: row.get(),
    };
}
