//! Picks and steps of the network simplex on worked nets, and least flows by it.
ghost use Rattle.std.specs.Prelude.{⊤};
ghost use Rattle.mcf_basis.specs.Pivots.{IsEligible};

use crate::fixtures::{
    AMONG_MANY, CIRCULATION, COSTED, Costed, EVEN, GREAT, SAMPLE, SIDE_BY_SIDE, finds, finds_all,
};
use mcf_basis::Basis;
use mcf_cancel::{Engine, Outcome};
use mcf_network::State;
use mcf_simplex::{Best, Block, First, PivotStep, Pricing, Simplex, Wide, runs_are_tree_solutions};
use mcf_test_nets::{multiples, net_of};
use mcf_text::{ArcId, NoMemory, NodeId};
use std::alloc::Global;
use std::test::Fail;

// The eligible arc of greatest number: a rule of the test's own.
#[derive(Clone, Copy)]
struct Greatest;

impl Pricing for Greatest {
    ghost use Rattle.std.specs.Prelude.{⊤};

    ghost Picks = { λ _ _ _ _. ⊤ };

    fn pick(&mut self, basis: &Basis<'_>) -> Option<ArcId> {
        let arcs = basis.net().arc_count();
        for place in 0..arcs {
            let k = ArcId::new(arcs - place);
            if basis.eligible(k) {
                return Some(k);
            }
        }
        None
    }
}

// A rule that counts how often it is asked.
#[derive(Drop)]
struct Counted<P> {
    rule: P,
    asked: u32,
}

impl<P: Pricing> Pricing for Counted<P> {
    ghost Picks = { λ old basis answer new. P.Picks old.rule basis answer new.rule };

    fn pick(&mut self, basis: &Basis<'_>) -> Option<ArcId> {
        self.asked = self.asked.wrapping_add(1);
        self.rule.pick(basis)
    }
}

// A text, which arcs a rule picks on its net, one after another, and how much each pivot moves, or
// none where it is still.
type Row = (&'static [u8], &'static [(u32, Option<i128>)]);

// As the rule picks that takes the least number. The first pivot on the net without supplies moves
// nothing.
static FROM_THE_FIRST: [Row; 3] = [
    (SIDE_BY_SIDE, &[(1, Some(2)), (2, Some(1))]),
    (CIRCULATION, &[(4, None), (3, Some(5))]),
    (AMONG_MANY, &[(1, Some(2)), (2, Some(1))]),
];

// As a rule picks that takes the cheaper arc.
static BY_COST: [Row; 1] = [(SIDE_BY_SIDE, &[(1, Some(2)), (2, Some(1))])];

// As the rule picks that takes the greatest number.
static FROM_THE_LAST: [Row; 1] = [(SIDE_BY_SIDE, &[(2, Some(2)), (1, Some(1)), (2, Some(1))])];

// Lets an arc enter, and says how much moves, or none where the pivot is still.
fn moved_by(basis: &mut Basis<'_>, k: ArcId) -> Option<i128>
    requires { IsEligible basis.old k }
{
    match basis.pivot(k) {
        PivotStep::Moved(amount) => Some(amount),
        PivotStep::Still => None,
    }
}

// Asks a rule, and lets the arc that it picks enter: its number, and how much moves.
pub fn step<P: Pricing>(rule: &mut P, basis: &mut Basis<'_>) -> Option<(u32, Option<i128>)> {
    let k = rule.pick(basis)?;
    let moved = moved_by(basis, k);
    Some((k.get(), moved))
}

// Whether these are the next pivots, after which the rule finds no arc.
fn takes<P: Pricing>(rule: &mut P, basis: &mut Basis<'_>, pivots: &[(u32, Option<i128>)]) -> bool {
    for pivot in pivots {
        let Some((arc, moved)) = step(rule, basis) else {
            return false;
        };
        if arc != pivot.0 || moved != pivot.1 {
            return false;
        }
    }
    rule.pick(basis).is_none()
}

// Whether a rule takes these pivots on the net of a text.
fn is_driven<P: Pricing>(alloc: Global, rule: &mut P, row: &Row) -> Result<bool, NoMemory> {
    let Some(net) = net_of(alloc, row.0)? else {
        return Ok(false);
    };
    let mut basis = Basis::start(alloc, &net)?;
    Ok(takes(rule, &mut basis, row.1))
}

// Whether a rule takes the pivots of each row.
fn are_driven<P: Pricing>(alloc: Global, rule: &mut P, rows: &[Row]) -> Result<bool, NoMemory> {
    for row in rows {
        if !is_driven(alloc, rule, row)? {
            return Ok(false);
        }
    }
    Ok(true)
}

// Whether each rule takes the pivots that it owes.
fn each_is_driven(alloc: Global) -> Result<bool, NoMemory> {
    let first = are_driven(alloc, &mut First, &FROM_THE_FIRST)?;
    let best = are_driven(alloc, &mut Best, &BY_COST)?;
    let block = are_driven(alloc, &mut Block::new(1), &BY_COST)?;
    let wide = are_driven(alloc, &mut Wide::suited_to(2), &BY_COST)?;
    let greatest = are_driven(alloc, &mut Greatest, &FROM_THE_LAST)?;
    Ok(first && best && block && wide && greatest)
}

// Blocks of one, stretches of one and the rule that takes the most violated pick the cheaper arc; a
// rule of the test's own may turn back.
#[test]
fn each_rule_picks_its_arcs(rt: HostRuntime) -> Result<(), Fail> {
    assert!(rt; each_is_driven(rt.alloc())?);
    Ok(())
}

// Whether a rule picks this arc first on the net of a text.
fn picks_first<P: Pricing>(
    alloc: Global,
    rule: &mut P,
    text: &[u8],
    arc: u32,
) -> Result<bool, NoMemory> {
    let Some(net) = net_of(alloc, text)? else {
        return Ok(false);
    };
    let basis = Basis::start(alloc, &net)?;
    match rule.pick(&basis) {
        Some(k) => Ok(k.get() == arc),
        None => Ok(false),
    }
}

// Whether a block of size 1 picks the first arc of a net, and then of one that has no arc more.
fn begins_anew(alloc: Global) -> Result<bool, NoMemory> {
    let mut rule = Block::new(1);
    let early = picks_first(alloc, &mut rule, SIDE_BY_SIDE, 1)?;
    let late = picks_first(alloc, &mut rule, GREAT, 1)?;
    Ok(early && late)
}

#[test]
fn a_block_begins_anew_on_a_net_without_its_arc(rt: HostRuntime) -> Result<(), Fail> {
    assert!(rt; begins_anew(rt.alloc())?);
    Ok(())
}

// Whether the first two nodes of a basis have these prices, and the first arc this reduced cost.
fn has_begun(basis: &Basis<'_>, prices: (i128, i128), reduced: i128) -> bool {
    let net = basis.net();
    if net.node_count() < 2 || net.arc_count() < 1 {
        return false;
    }
    let sender = basis.price(NodeId::new(1));
    let taker = basis.price(NodeId::new(2));
    let cost = basis.reduced(ArcId::new(1));
    sender == prices.0 && taker == prices.1 && cost == reduced
}

// Whether the first basis of two arcs side by side is a star of artificial arcs.
fn is_star(alloc: Global) -> Result<bool, NoMemory> {
    let Some(net) = net_of(alloc, SIDE_BY_SIDE)? else {
        return Ok(false);
    };
    let basis = Basis::start(alloc, &net)?;
    Ok(has_begun(&basis, (13, -13), -25))
}

// An artificial arc costs 13: one more than 2 * 1 and 2 * 5.
#[test]
fn starts_with_artificial_arcs(rt: HostRuntime) -> Result<(), Fail> {
    assert!(rt; is_star(rt.alloc())?);
    runs_are_tree_solutions::<First>();
    Ok(())
}

// ---- the engine

/// Whether the simplex finds what rows have, under three rules, with blocks of three sizes, and
/// under one of the test's own.
pub fn finds_by_each(alloc: Global, rows: &[Costed]) -> Result<bool, NoMemory> {
    let first = finds_all(alloc, &mut Simplex::new(First), rows)?;
    let best = finds_all(alloc, &mut Simplex::new(Best), rows)?;
    let greatest = finds_all(alloc, &mut Simplex::new(Greatest), rows)?;
    let one = finds_all(alloc, &mut Simplex::new(Block::new(1)), rows)?;
    let two = finds_all(alloc, &mut Simplex::new(Block::new(2)), rows)?;
    let whole = finds_all(alloc, &mut Simplex::new(Block::new(1_000_000)), rows)?;
    Ok(first && best && greatest && one && two && whole)
}

#[test]
fn solves_the_worked_nets(rt: HostRuntime) -> Result<(), Fail> {
    assert!(rt; finds_by_each(rt.alloc(), &COSTED)?);
    Ok(())
}

// Whether one of the first two arcs carries this amount, and the other nothing.
fn is_one_full(state: &State<'_>, amount: i128) -> bool {
    if state.net().arc_count() < 2 {
        return false;
    }
    let one = state.amount(ArcId::new(1));
    let other = state.amount(ArcId::new(2));
    (one == amount && other == 0) || (one == 0 && other == amount)
}

// Whether all 3 units go along one of two arcs of the same cost.
fn is_tree_solution(alloc: Global) -> Result<bool, NoMemory> {
    let Some(net) = net_of(alloc, EVEN)? else {
        return Ok(false);
    };
    match Simplex::new(First).solve(alloc, &net)? {
        Outcome::Least(state, _) => Ok(is_one_full(&state, 3)),
        Outcome::Blocked(..) => Ok(false),
    }
}

#[test]
fn gives_a_tree_solution(rt: HostRuntime) -> Result<(), Fail> {
    assert!(rt; is_tree_solution(rt.alloc())?);
    Ok(())
}

// How many pivots a rule takes on a basis.
fn pivots_by_hand<P: Pricing>(rule: &mut P, basis: &mut Basis<'_>) -> u32 {
    let mut pivots = 0u32;
    for _ in 0..10_000u32 {
        if step(rule, basis).is_none() {
            break;
        }
        pivots = pivots.wrapping_add(1);
    }
    pivots
}

// Whether an engine asks a rule, on the net of a text, once more than the same rule pivots when it
// is driven by hand, and there is a pivot exactly if the row has one.
fn asks_once_more<P: Pricing + Drop>(
    alloc: Global,
    engine: &mut Simplex<Counted<P>>,
    same: &mut P,
    text: &[u8],
    pivots: bool,
) -> Result<bool, NoMemory> {
    let Some(net) = net_of(alloc, text)? else {
        return Ok(false);
    };
    let mut basis = Basis::start(alloc, &net)?;
    let by_hand = pivots_by_hand(same, &mut basis);
    engine.solve(alloc, &net)?;
    Ok(engine.rule().asked == by_hand.wrapping_add(1) && (by_hand > 0) == pivots)
}

// An engine that counts how often it asks a rule.
fn counting<P: Pricing + Drop>(rule: P) -> Simplex<Counted<P>> {
    Simplex::new(Counted { rule, asked: 0 })
}

// Whether three rules are asked once more than they pivot, also on a net without arcs.
fn each_is_asked_once_more(alloc: Global) -> Result<bool, NoMemory> {
    let first = asks_once_more(alloc, &mut counting(First), &mut First, SAMPLE, true)?;
    let best = asks_once_more(alloc, &mut counting(Best), &mut Best, SAMPLE, true)?;
    let two = Block::new(2);
    let block = asks_once_more(alloc, &mut counting(two), &mut Block::new(2), SAMPLE, true)?;
    let none = asks_once_more(
        alloc,
        &mut counting(First),
        &mut First,
        b"p min 0 0\n",
        false,
    )?;
    Ok(first && best && block && none)
}

#[test]
fn asks_once_more_than_it_pivots(rt: HostRuntime) -> Result<(), Fail> {
    assert!(rt; each_is_asked_once_more(rt.alloc())?);
    Ok(())
}

#[test]
fn solves_an_assignment(rt: HostRuntime) -> Result<(), Fail> {
    let text = multiples(rt.alloc(), 200)?;
    assert!(rt;
        finds(
            rt.alloc(),
            &mut Simplex::new(Block::new(256)),
            &text,
            Some(198)
        )?
    );
    Ok(())
}
