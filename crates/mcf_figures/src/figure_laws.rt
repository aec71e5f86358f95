//! Laws about figures. Each is the contract of a function with an empty body.
ghost use Rattle.mcf_figures.specs.FigureLaws.{DearerIsABound, DearerIsTheLeastRise, ExactSavingsAreReached, JoinedDearerIsReached, JoinedPricesAreReached, PricesAreBounds, SavingsAreBounds};

/// With one more unit of room on a route, no plan costs less than a least plan by more than the
/// saving of that route.
pub fn savings_are_bounds()
    ensures { SavingsAreBounds }
{}

/// If the saving of a route is 0, or if loose routes join its ends, some plan with one more unit of
/// room on it costs less by just the saving.
pub fn exact_savings_are_reached()
    ensures { ExactSavingsAreReached }
{}

/// With one more unit of supply at one place and one less at another, each plan costs more than a
/// least plan by at least the difference of their prices.
pub fn prices_are_bounds()
    ensures { PricesAreBounds }
{}

/// If loose routes join two places, some plan with one more unit of supply at one and one less at
/// the other costs more by just the difference of their prices.
pub fn joined_prices_are_reached()
    ensures { JoinedPricesAreReached }
{}

/// What is told of one unit more on a route is never below 0, and the least by which the route's
/// reduced cost rises for each unit more. It is told of each route that may carry more, and is 0
/// for a loose route.
pub fn dearer_is_the_least_rise()
    ensures { DearerIsTheLeastRise }
{}

/// In each plan in which a route carries more than in a least plan, each unit more costs at least
/// what is told of the route.
pub fn dearer_is_a_bound()
    ensures { DearerIsABound }
{}

/// If a route isn't loose, and loose routes join its ends, some plan in which the route carries one
/// unit more costs more by just what is told of it.
pub fn joined_dearer_is_reached()
    ensures { JoinedDearerIsReached }
{}
