//! A law of greatest prices.
ghost use Rattle.mcf_engine.specs.Laws.{GreatestPricesAreSmall};

/// The greatest prices not above 0 that show a state of n nodes lie within n - 1 times the greatest
/// absolute value of a cost: if the gap between two of them were greater, all below it could be
/// raised.
///
/// The function does nothing at run time; its contract is the law.
pub fn greatest_prices_are_small()
    ensures { GreatestPricesAreSmall }
{}
