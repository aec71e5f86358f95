//! The interface of every pricing rule.
ghost use Rattle.std.specs.Prelude.{ℕ, Option, IfNone, IfSome};
ghost use Rattle.mcf_basis.specs.Pivots.{IsEligible};
ghost use Rattle.mcf_basis.specs.Structures.{TreeStructure};
ghost use Rattle.mcf_basis.specs.Violations.{HasNoEligible};

use mcf_basis::Basis;
use mcf_text::ArcId;

/// A rule that picks the arc to enter at a basis (Ahuja, Magnanti and Orlin, Network Flows, section
/// 11.5).
///
/// Any rule will do that picks an eligible arc if there is one: then the simplex ends.
pub trait Pricing {
    // What the rule picks: the rule before the call, the basis, the answer, and the rule
    // afterwards.
    ghost Picks: { Self → TreeStructure → Option ℕ → Self → Type 0 };

    /// An eligible arc of the net, and none only if there is none.
    fn pick(&mut self, basis: &Basis<'_>) -> Option<ArcId>
        ensures eligible { IfSome result (λ k. IsEligible basis.now k) }
        ensures none { IfNone result (HasNoEligible basis.now) }
        ensures picks { Picks self.old basis.now result self.new };
}

// The result of a pick by blocks, and where the next one begins.
#[derive(Clone, Copy)]
pub(crate) struct Picked {
    pub(crate) arc: Option<ArcId>,
    pub(crate) next: u32,
}
