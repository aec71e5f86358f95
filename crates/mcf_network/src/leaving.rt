//! The residual arcs that leave a node, as an iterator.
ghost use Rattle.std.specs.Prelude.{◌≡◌, ◌∷◌, [], List, IfNone, IfSome, drop};
ghost use Rattle.mcf_network.specs.declared.rid.Rid.{Rid};

use crate::rid::{PackedRid, Rid};
use std::marker::Model;

/// The remaining residual arcs. Clauses see their list.
#[derive(Clone, Debug, Drop)]
pub struct Leaving<'a> {
    pub(crate) rest: &'a [PackedRid],
}

impl<'a> Model for Leaving<'a> {
    ghost use Rattle.std.specs.Prelude.{List};
    ghost use Rattle.mcf_network.specs.declared.rid.Rid.{Rid};

    ghost Value = { List Rid };

    ghost view = { λ it. it.rest.now };
}

impl<'a> Leaving<'a> {
    /// The first of the remaining residual arcs.
    pub fn first(&self) -> Option<Rid>
        ensures some { IfSome result (λ r. (more : List Rid) × (self.now ≡ r ∷ more)) }
        ensures none { IfNone result (self.now ≡ []) }
    {
        let (first, _) = self.rest.split_first()?;
        Some(first.get())
    }

    /// Skips this many of the remaining residual arcs, or all if there are fewer, in one step.
    pub fn pass(&mut self, count: usize)
        ensures { self.new ≡ drop count self.old }
    {
        self.rest = &self.rest[count.min(self.rest.len())..];
    }
}

impl<'a> Iterator for Leaving<'a> {
    ghost use Rattle.std.specs.Iterator.{YieldsFirst, item_count};

    type Item = Rid;

    ghost next_gives = { YieldsFirst (λ it. it) };

    ghost remaining = { item_count (λ it. it) };

    fn next(&mut self) -> Option<Rid> {
        let (first, others) = self.rest.split_first()?;
        self.rest = others;
        Some(first.get())
    }
}
