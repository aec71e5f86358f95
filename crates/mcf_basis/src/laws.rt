//! Laws of bases, each the contract of a function that does nothing at run time.
ghost use Rattle.mcf_basis.specs.Laws.{BasesAreTreeSolutions, LastBasesAreFeasible, LastBasesAreShown, PivotsKeepBases, PivotsLowerThePair, RanksBoundPivots};
ghost use Rattle.mcf_basis.specs.Laws.{RanksCountDown, RanksFall};

/// Each pivot lowers the pair of the cost and the sum of the prices: the cost falls, or nothing
/// moves and the sum of the prices falls (Cunningham; Ahuja, Magnanti and Orlin, Network Flows,
/// section 11.6).
pub fn pivots_lower_the_pair()
    ensures { PivotsLowerThePair }
{}

/// If the pair of the cost and the sum of the prices falls, the number that stands for it falls.
pub fn ranks_fall()
    ensures { RanksFall }
{}

/// That number, counted from below all such numbers of the net, falls with it, and is a natural
/// number.
pub fn ranks_count_down()
    ensures { RanksCountDown }
{}

/// From the start there are no more pivots than the bound, whatever the rule.
pub fn ranks_bound_pivots()
    ensures { RanksBoundPivots }
{}

/// The flow of a basis is a tree solution: the arcs whose flow is at neither bound hold no cycle.
pub fn bases_are_tree_solutions()
    ensures { BasesAreTreeSolutions }
{}

/// If no arc is eligible and no artificial arc carries anything, the flow is feasible, and the
/// prices show it, so it is least.
pub fn last_bases_are_shown()
    ensures { LastBasesAreShown }
{}

/// After a pivot, a basis is a basis.
pub fn pivots_keep_bases()
    ensures { PivotsKeepBases }
{}

/// If no arc is eligible and some flow is feasible, no artificial arc carries anything.
pub fn last_bases_are_feasible()
    ensures { LastBasesAreFeasible }
{}
