//! The first eligible arc.
use crate::pricing::Pricing;
use mcf_basis::Basis;
use mcf_text::ArcId;

/// The eligible arc with the least number. It needs many pivots; a baseline.
#[derive(Clone, Copy, Debug, Default)]
pub struct First;

impl Pricing for First {
    ghost use Rattle.mcf_simplex.specs.Picking.{IsFirstPick};

    ghost Picks = { λ _ basis answer _. IsFirstPick basis answer };

    /// The eligible arc of least number, if there is one.
    fn pick(&mut self, basis: &Basis<'_>) -> Option<ArcId> {
        for place in 0..basis.net().arc_count() {
            let k = ArcId::at(place);
            if basis.eligible(k) {
                return Some(k);
            }
        }
        None
    }
}
