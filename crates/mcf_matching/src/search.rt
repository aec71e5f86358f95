//! A search for a shortest augmenting path.
ghost use Rattle.std.specs.Prelude.{◌≡◌, ◌+◌, ◌*◌, ◌^◌, ◌<◌, ◌≤◌, ◌∷◌, ◌++◌, ◌≤ℤ◌, ◌-ℤ◌, ◌+ℤ◌, ℕ, ℤ, List, [], IfSome, false};
ghost use Rattle.std.specs.Prelude.{length, map, vec_capacity};
ghost use Rattle.std.specs.Bool.{MatchBool};
ghost use Rattle.std.specs.List.{All};
ghost use Rattle.mcf_flows.specs.Network.{IsNode, at_node, node_count};
ghost use Rattle.mcf_flows.specs.WellFormed.{IsUpTo};
ghost use Rattle.mcf_network.specs.declared.rid.Rid.{Rid};
ghost use Rattle.mcf_network.specs.States.{Pseudoflow};
ghost use Rattle.mcf_matching.specs.Private.Forests.{IsListing};
ghost use Rattle.mcf_matching.specs.Private.Keeping.{IsEnded, IsIdle, IsReady};
ghost use Rattle.mcf_matching.specs.Matchings.{IsColumn, IsMatchedColumn, IsMatchedRow, IsPair, IsPartialMatching, IsRow, column_of, row_of};
ghost use Rattle.mcf_matching.specs.Private.Rooms.{HasRoom, KeepsSettled, out_count};
ghost use Rattle.mcf_matching.specs.Private.RowLists.{IsRowArc, forward_of};
ghost use Rattle.mcf_matching.specs.Private.Scenes.{IsScannedRow, IsScene};
ghost use Rattle.mcf_matching.specs.Private.Searches.{AreRaised, AreRelaxed, HasEntries, HasForward, IsBestUpTo, IsNearest, IsSearch};
ghost use Rattle.mcf_matching.specs.Private.Searches.{Settled, dist_at, paired, search_of};
ghost use Rattle.mcf_matching.specs.Private.Reaches.{CanRise};

use crate::augmenting::unmark;
use crate::rows::{RowArc, row_arc};
use crate::scene::{Row, Scene};
use mcf_network::State;
use mcf_numbers::{Count, Number, Width};
use mcf_offers::{Offer, Offers};
use mcf_text::NodeId;
use std::alloc::AllocError;
use std::marker::Model;

/// The last arc of a walk to an unmatched column, and the length of the walk.
pub(crate) struct Target<W: Width> {
    pub(crate) arc: u32,
    pub(crate) dist: Number<W>,
}

impl<W: Width> Copy for Target<W> {}

impl<W: Width> Clone for Target<W> {
    fn clone(&self) -> Result<Target<W>, AllocError> {
        Ok(*self)
    }
}

impl<W: Width> Model for Target<W> {
    ghost use Rattle.mcf_matching.specs.Private.Labels.{Target};

    ghost Value = { Target };

    ghost view = { λ t. record { arc = t.arc; dist = t.dist } };

    ghost inverse = { λ t. record { arc = t.arc; dist = t.dist } };
}

/// The tables of a search, which every search of a net reuses, the number of searches, and the
/// number of pairs settled since the last update.
#[derive(Drop)]
pub(crate) struct Tables<W: Width> {
    pub(crate) offers: Offers<W>,
    pub(crate) dists: Vec<Number<W>>,
    pub(crate) marks: Vec<bool>,
    pub(crate) predecessors: Vec<u32>,
    pub(crate) best: Option<Target<W>>,
    pub(crate) order: Vec<NodeId>,
    pub(crate) searches: Count,
    pub(crate) pairs: u64,
}

impl<W: Width> Tables<W> {
    /// Begins a search at an unmatched row, and counts it. What the last search left is removed, in
    /// time proportional to what it settled.
    pub(crate) fn begin(&mut self, state: &State<'_>, source: NodeId)
        requires matching { IsPartialMatching state.now }
        requires idle { IsIdle state.now.net self.old }
        requires row { IsRow state.now source }
        requires free { ¬ IsMatchedRow state.now source }
        ensures ready { (y : List ℤ) → IsReady state.now y (search_of self.new) source self.new.order.items source }
        ensures empty { self.new.offers.items ≡ [] }
        ensures counted { self.new.searches.number ≡ self.old.searches.number + 1 }
        ensures room { vec_capacity self.new.order ≡ vec_capacity self.old.order }
        ensures queue { self.old.offers.room ≤ self.new.offers.room }
    {
        self.searches.add_one();
        self.offers.clear();
        unmark(self.marks.as_mut_slice(), self.order.as_slice());
        self.order.clear();
        self.best = None;
        self.dists[source.place()] = Number::of(0);
        self.marks[source.place()] = true;
        self.order.push_reserved(source);
    }

    /// Runs a search that was begun at a row, until no queued offer is nearer than the target. The
    /// settled nodes are listed as row, column, row, column and so on, and the rows are scanned in
    /// that order.
    pub(crate) fn run(&mut self, scene: &Scene<'_, '_, W>, source: NodeId)
        requires scene { IsScene W.room scene.now.state.now scene.now.rows.now scene.now.prices.now scene.now.mates.now }
        requires ready { IsReady scene.now.state.now scene.now.prices.now (search_of self.old) source self.old.order.items source }
        requires empty { self.old.offers.items ≡ [] }
        requires room { node_count scene.now.state.now.net ≤ vec_capacity self.old.order }
        requires queue { 2 * length scene.now.state.now.net.arcs ≤ self.old.offers.room }
        ensures ended { IsEnded scene.now.state.now scene.now.prices.now (search_of self.new) source self.new.order.items }
        ensures number { self.new.searches.number ≡ self.old.searches.number }
        ensures room { vec_capacity self.new.order ≡ vec_capacity self.old.order }
        ensures queue { self.old.offers.room ≤ self.new.offers.room }
    {
        let mut id = source;
        'rows: loop {
            self.scan(scene, id);
            let Some(offer) = self.nearest() else {
                return;
            };
            id = self.settle(scene, offer);
        }
    }

    /// Raises the price of each settled node by the distance of the target less its own.
    pub(crate) fn raise(&self, prices: &mut [Number<W>], target: Number<W>)
        requires entries { HasEntries (length prices.old) (search_of self.now) }
        requires few { length prices.old < 2 ^ 31 }
        requires listing { IsListing (length prices.old) (search_of self.now) self.now.order.items }
        requires rises { (v : ℕ) → IsNode (length prices.old) v → Settled (search_of self.now) v → CanRise W.room (at_node prices.old v) (target -ℤ dist_at (search_of self.now) v) }
        ensures raised { (s : Pseudoflow) → node_count s.net ≡ length prices.old → AreRaised s (search_of self.now) target prices.old prices.new }
    {
        'nodes: for v in self.order.as_slice() {
            let i = v.place();
            let rise = target.minus(self.dists[i]);
            let price = &mut prices[i];
            *price = price.plus(rise);
        }
    }

    // Relaxes the arcs that leave the row that was settled last: first the kept ones, then all of
    // them, if the bound on the others' costs allows one to be nearer than the target.
    fn scan(&mut self, scene: &Scene<'_, '_, W>, id: NodeId)
        requires scene { IsScene W.room scene.now.state.now scene.now.rows.now scene.now.prices.now scene.now.mates.now }
        requires ready { (source : ℕ) × IsReady scene.now.state.now scene.now.prices.now (search_of self.old) source self.old.order.items id }
        requires room { HasRoom (2 * out_count scene.now.state.now.net (id ∷ [])) self.old }
        ensures search { (source : ℕ) → IsReady scene.now.state.now scene.now.prices.now (search_of self.old) source self.old.order.items id
            → IsSearch scene.now.state.now scene.now.prices.now (search_of self.new) source [] }
        ensures kept { KeepsSettled (2 * out_count scene.now.state.now.net (id ∷ [])) self.old self.new }
    {
        let row = self.row_of(scene, id);
        let span = scene.rows.span(id);
        let kept = scene.rows.between(span.start, span.end);
        self.scan_kept(scene, &row, kept);
        if self.may_improve(&row, span.others) {
            self.scan_all(scene, &row);
        }
    }

    // Relaxes some arcs of a row.
    fn scan_kept(&mut self, scene: &Scene<'_, '_, W>, row: &Row<W>, list: &[RowArc])
        requires row { IsScannedRow W.room scene.now.state.now scene.now.rows.now scene.now.prices.now scene.now.mates.now (search_of self.old) row.now }
        requires room { HasRoom (length list.now) self.old }
        requires arcs { All (IsRowArc scene.now.state.now.net row.now.id) list.now }
        ensures relaxed { AreRelaxed scene.now.state.now scene.now.prices.now (search_of self.old) (search_of self.new) (map forward_of list.now) }
        ensures kept { KeepsSettled (length list.now) self.old self.new }
    {
        'arcs: for a in list {
            self.relax(scene, row, *a);
        }
    }

    // Relaxes all arcs that leave a row, which no arc enters.
    fn scan_all(&mut self, scene: &Scene<'_, '_, W>, row: &Row<W>)
        requires row { IsScannedRow W.room scene.now.state.now scene.now.rows.now scene.now.prices.now scene.now.mates.now (search_of self.old) row.now }
        requires room { HasRoom (out_count scene.now.state.now.net (row.now.id ∷ [])) self.old }
        ensures relaxed { (list : List Rid) × HasForward scene.now.state.now.net row.now.id list
            × AreRelaxed scene.now.state.now scene.now.prices.now (search_of self.old) (search_of self.new) list }
        ensures kept { KeepsSettled (out_count scene.now.state.now.net (row.now.id ∷ [])) self.old self.new }
    {
        'arcs: for leaving in scene.state.net().leaving(row.id) {
            let a = row_arc(scene.state.net(), leaving.arc);
            self.relax(scene, row, a);
        }
    }

    // Whether arcs of a row that cost no less than a bound, if there are any, may offer less than
    // the distance of the target.
    fn may_improve(&self, row: &Row<W>, others: Option<i64>) -> bool
        requires { IfSome others (λ bound. IsUpTo W.room (row.now.base +ℤ bound)) }
        ensures { result ≡ false → IfSome others (λ bound. IsBestUpTo self.now.best (row.now.base +ℤ bound)) }
    {
        match others {
            Some(bound) => self.is_better(row.base.plus(Number::of(bound))),
            None => false,
        }
    }

    // The row that was settled last, prepared for relaxing its arcs.
    fn row_of(&self, scene: &Scene<'_, '_, W>, id: NodeId) -> Row<W>
        requires scene { IsScene W.room scene.now.state.now scene.now.rows.now scene.now.prices.now scene.now.mates.now }
        requires ready { (source : ℕ) × IsReady scene.now.state.now scene.now.prices.now (search_of self.now) source self.now.order.items id }
        ensures id { result.id ≡ id }
        ensures row { IsScannedRow W.room scene.now.state.now scene.now.rows.now scene.now.prices.now scene.now.mates.now (search_of self.now) result }
    {
        let i = id.place();
        let base = self.dists[i].minus(scene.prices[i]);
        Row { id, base }
    }

    // Takes queued offers, the nearest first, up to one whose column isn't settled, which is
    // returned, or one that is no nearer than the target.
    fn nearest(&mut self) -> Option<Offer<W>>
        requires search { (s : Pseudoflow) × (y : List ℤ) × (source : ℕ) × IsPartialMatching s × IsSearch s y (search_of self.old) source [] }
        ensures found { (s : Pseudoflow) (y : List ℤ) (source : ℕ) → IsPartialMatching s → IsSearch s y (search_of self.old) source []
            → IsNearest s y source (search_of self.new) result }
        ensures kept { KeepsSettled 0 self.old self.new }
    {
        'offers: loop {
            let offer = self.offers.take()?;
            if !self.is_better(offer.dist) {
                return None;
            }
            if !self.marks[offer.column as usize - 1] {
                return Some(offer);
            }
        }
    }

    // Settles the column of an offer, at its distance and by its arc, with its matched row, which
    // is returned.
    #[inline(always)]
    fn settle(&mut self, scene: &Scene<'_, '_, W>, offer: Offer<W>) -> NodeId
        requires scene { IsScene W.room scene.now.state.now scene.now.rows.now scene.now.prices.now scene.now.mates.now }
        requires entries { HasEntries (node_count scene.now.state.now.net) (search_of self.old) }
        requires column { IsColumn scene.now.state.now offer.column }
        requires matched { IsMatchedColumn scene.now.state.now offer.column }
        requires room { length self.old.order.items + 2 ≤ vec_capacity self.old.order }
        ensures value { search_of self.new ≡ paired (search_of self.old) offer result }
        ensures pair { (k : ℕ) × IsPair scene.now.state.now k × (column_of scene.now.state.now k ≡ offer.column) × (row_of scene.now.state.now k ≡ result) }
        ensures order { self.new.order.items ≡ (self.old.order.items ++ offer.column ∷ []) ++ result ∷ [] }
        ensures room { vec_capacity self.new.order ≡ vec_capacity self.old.order }
        ensures queue { self.new.offers ≡ self.old.offers }
    {
        let column = NodeId::new(offer.column);
        let c = column.place();
        let row = NodeId::new(scene.mates[c].node);
        let r = row.place();
        self.predecessors[c] = offer.arc;
        self.dists[c] = offer.dist;
        self.dists[r] = offer.dist;
        self.marks[c] = true;
        self.marks[r] = true;
        self.order.push_reserved(column);
        self.order.push_reserved(row);
        row
    }

    // Relaxes an arc of a row. Its offer is useless if the target is as near, or if its column is
    // settled. An offer to a matched column is queued.
    #[inline(always)]
    fn relax(&mut self, scene: &Scene<'_, '_, W>, row: &Row<W>, a: RowArc)
        requires row { IsScannedRow W.room scene.now.state.now scene.now.rows.now scene.now.prices.now scene.now.mates.now (search_of self.old) row.now }
        requires room { HasRoom 1 self.old }
        requires arc { IsRowArc scene.now.state.now.net row.now.id a }
        ensures relaxed { AreRelaxed scene.now.state.now scene.now.prices.now (search_of self.old) (search_of self.new) (forward_of a ∷ []) }
        ensures kept { KeepsSettled 1 self.old self.new }
    {
        let dist = row.offered(scene.prices, a);
        if !self.is_better(dist) {
            return;
        }
        let c = a.column as usize - 1;
        if self.marks[c] {
            return;
        }
        if scene.mates[c].arc == 0 {
            self.best = Some(Target { arc: a.arc, dist });
            return;
        }
        self.offers.put(Offer {
            dist,
            column: a.column,
            arc: a.arc,
        });
    }

    // Whether a distance is less than that of the target, if there is one.
    fn is_better(&self, dist: Number<W>) -> bool
        ensures { MatchBool result ((x : ℤ) → IsBestUpTo self.now.best x → dist ≤ℤ x) (IsBestUpTo self.now.best dist) }
    {
        match self.best {
            Some(target) => dist < target.dist,
            None => true,
        }
    }
}
