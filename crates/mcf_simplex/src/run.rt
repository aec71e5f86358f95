//! The loop: pivots until the rule finds no arc.
ghost use Rattle.std.specs.Prelude.{◌≡◌};
ghost use Rattle.mcf_basis.specs.Bases.{IsBasis};
ghost use Rattle.mcf_basis.specs.Violations.{HasNoEligible};
ghost use Rattle.mcf_simplex.specs.Private.Loops.{IsLoop};

use crate::pricing::Pricing;
use mcf_basis::Basis;

/// Asks the rule for an arc and lets it enter, again and again, until the rule finds none.
///
/// Each pivot lowers the pair of the cost and the sum of the prices, so the loop ends, whatever the
/// rule.
pub(crate) fn run<P: Pricing>(rule: &mut P, basis: &mut Basis<'_>)
    requires { IsBasis basis.old }
    ensures run { IsLoop P.Picks rule.old basis.old rule.new basis.new }
    ensures over { HasNoEligible basis.new }
    ensures net { basis.new.net ≡ basis.old.net }
    ensures basis { IsBasis basis.new }
{
    'pivots: while let Some(k) = rule.pick(basis) {
        basis.pivot(k);
    }
}
