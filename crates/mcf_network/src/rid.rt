//! Residual arcs.
ghost use Rattle.std.specs.Prelude.{◌≡◌, ◌^◌, ◌<◌};

use mcf_text::ArcId;
use std::marker::Model;

/// A residual arc: an arc, forward or backward (Ahuja, Magnanti and Orlin, Network Flows, section
/// 2.4).
#[derive(Clone, Copy, Debug, PartialEq, Eq)]
pub struct Rid {
    pub arc: ArcId,
    pub back: bool,
}

/// A residual arc in four bytes, as the star of a net stores it: twice the number of the arc, plus
/// one for backward.
#[derive(Clone, Copy, Debug, PartialEq, Eq)]
pub(crate) struct PackedRid {
    code: u32,
}

impl Model for PackedRid {
    ghost use Rattle.std.specs.Prelude.{◌+◌, ◌*◌, ◌/◌, ◌%◌, nat_eq, if◌then◌else◌};
    ghost use Rattle.std.proofs.Common.{◌≡◌, ◌<◌, ◌∙◌, ap, arith, inl, inr};
    ghost use Rattle.std.proofs.Math.Nat.{mod-lt};
    ghost use Rattle.std.proofs.lemmas.Bool.{cases_eq};
    ghost use Rattle.std.proofs.lemmas.Nat.{div-add-mod'};
    ghost use Rattle.mcf_network.specs.declared.rid.Rid.{Rid};

    ghost Value = { Rid };

    ghost view = { λ p. record { arc = p.code / 2; back = nat_eq (p.code % 2) 1 } };

    ghost inverse = { λ r. record { code = r.arc * 2 + (if r.back then 1 else 0) } };

    ghost inverse_ok = { λ p h. let d = div-add-mod' p.code 2 in
        elim (cases_eq (p.code % 2) 1) [
          | inl e ↦ ap (λ m. record { code = p.code / 2 * 2 + (if nat_eq m 1 then 1 else 0) }) e ∙ ap (λ n. record { code = n }) (omega (arith, d, e))
          | inr m ↦ (
              let small : p.code % 2 < 2 = mod-lt p.code {m = 2} (omega arith) in
              let e : p.code % 2 ≡ 0 = omega (arith, m, small) in
              ap (λ m. record { code = p.code / 2 * 2 + (if nat_eq m 1 then 1 else 0) }) e ∙ ap (λ n. record { code = n }) (omega (arith, d, e)))
        ] };
}

impl PackedRid {
    /// This residual arc.
    pub(crate) fn new(r: Rid) -> PackedRid
        requires { r.arc < 2 ^ 31 }
        ensures { result ≡ r }
    {
        let one = u32::from(r.back);
        PackedRid {
            code: r.arc.get() * 2 + one,
        }
    }

    /// The residual arc that this stands for.
    pub(crate) fn get(self) -> Rid
        ensures { result ≡ self }
    {
        Rid {
            arc: ArcId::new(self.code / 2),
            back: self.code % 2 == 1,
        }
    }
}
