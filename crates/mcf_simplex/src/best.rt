//! The arc of greatest violation.
use crate::pricing::Pricing;
use mcf_basis::Basis;
use mcf_text::ArcId;

/// The eligible arc of greatest violation (absolute value of the reduced cost); among several, the
/// one with the least number (Dantzig). It needs few pivots, but scans every arc for each.
#[derive(Clone, Copy, Debug, Default)]
pub struct Best;

impl Pricing for Best {
    ghost use Rattle.mcf_simplex.specs.Picking.{IsBestPick};

    ghost Picks = { λ _ basis answer _. IsBestPick basis answer };

    /// The eligible arc of greatest violation, if there is one.
    fn pick(&mut self, basis: &Basis<'_>) -> Option<ArcId> {
        basis.most_violated(1, basis.net().arc_count() + 1)
    }
}
