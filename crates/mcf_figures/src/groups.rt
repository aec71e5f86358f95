//! Groups of places that loose routes join.
ghost use Rattle.std.specs.Prelude.{◌≡◌, ◌==◌, ◌||◌, ◌<◌, ◌≤◌, ◌↔◌, ℕ, ℤ, List, IfNone, IfOk, IfSome, IsTrue, OnErr, false, length, slice_index_or, slice_set, suc, true};
ghost use Rattle.std.specs.List.{range_with_len};
ghost use Rattle.mcf_model.specs.Tables.{IsRouteNumber, no_route};
ghost use Rattle.mcf_figures.specs.Figures.{IsExact, saving};
ghost use Rattle.mcf_figures.specs.Groups.{AreGroups, AreInOrder, HaveFigures, entry, group_at, groups_by, is_exact_between, is_exact_by, merged, numbers_by};
ghost use Rattle.mcf_figures.specs.Private.Forests.{AreAlike, AreClasses, Falls, IsForest, next_number};
ghost use Rattle.mcf_figures.specs.Rows.{row_told};
ghost use Rattle.mcf_figures.specs.Told.{HasFigures};

use crate::figures::route_figures;
use crate::loose::is_zero;
use mcf_model::PlanModel;
use mcf_text::NoMemory;
use std::alloc::Global;

// Makes the parent of a number that of its parent, and returns it.
fn halved(parents: &mut [usize], number: usize) -> usize
    requires falls { Falls parents.old }
    requires inside { number < length parents.old }
    ensures value { result ≡ entry parents.old (entry parents.old number) }
    ensures written { parents.new ≡ slice_set parents.old number result }
{
    let parent = parents[number];
    let above = parents[parent];
    parents[number] = above;
    above
}

// Returns the root of a number's class. Each number on the way gets a parent nearer to the root.
fn root_of(parents: &mut [usize], number: usize) -> usize
    requires falls { Falls parents.old }
    requires inside { number < length parents.old }
    ensures as_long { length parents.new ≡ length parents.old }
    ensures inside { result < length parents.old }
    ensures falls { Falls parents.new }
    ensures kept { (labels : List ℕ) → IsForest parents.old labels → IsForest parents.new labels }
    ensures label { (labels : List ℕ) → IsForest parents.old labels → result ≡ entry labels number }
    ensures root { entry parents.new result ≡ result }
{
    let mut at = number;
    'climb: while parents[at] != at {
        at = halved(parents, at);
    }
    at
}

// Hangs a root below another number.
fn hang(parents: &mut [usize], high: usize, low: usize)
    requires high { high < length parents.old }
    ensures { parents.new ≡ slice_set parents.old high low }
{
    parents[high] = low;
}

// Joins the classes of two numbers.
fn join(parents: &mut [usize], one: usize, other: usize)
    requires falls { Falls parents.old }
    requires one { one < length parents.old }
    requires other { other < length parents.old }
    ensures as_long { length parents.new ≡ length parents.old }
    ensures joined { (labels : List ℕ) → IsForest parents.old labels → IsForest parents.new (merged labels (entry labels one) (entry labels other)) }
{
    let first = root_of(parents, one);
    let second = root_of(parents, other);
    hang(parents, first.max(second), first.min(second));
}

// Joins the ends of a route, if it is loose. It is false if there are no figures of the route.
fn join_route(
    model: &PlanModel,
    prices: &[i128],
    carries: &[i128],
    place: usize,
    parents: &mut [usize],
) -> bool
    requires is_route { place < length model.now.routes }
    requires classes { AreClasses prices.now model.now carries.now place parents.old }
    ensures some { result ≡ true → AreClasses prices.now model.now carries.now (suc place) parents.new }
    ensures none { result ≡ false → ¬ HasFigures model.now prices.now carries.now place }
    ensures has { result ≡ true → HasFigures model.now prices.now carries.now place }
{
    match route_figures(model, prices, carries, place) {
        Some(figures) => {
            if figures.loose {
                let row = model.route(place).row;
                join(parents, row.tail as usize - 1, row.head as usize - 1);
            }
            true
        }
        None => false,
    }
}

// Joins the ends of all loose routes. It is false if there are no figures of some route.
fn join_all(model: &PlanModel, prices: &[i128], carries: &[i128], parents: &mut [usize]) -> bool
    requires { AreClasses prices.now model.now carries.now 0 parents.old }
    ensures some { result ≡ true → AreClasses prices.now model.now carries.now (length model.now.routes) parents.new }
    ensures none { result ≡ false → ¬ HaveFigures model.now prices.now carries.now }
    ensures have { result ≡ true → HaveFigures model.now prices.now carries.now }
{
    for place in 0..model.route_count() {
        let joined = join_route(model, prices, carries, place, parents);
        if !joined {
            return false;
        }
    }
    true
}

// Returns the numbers from 0 on, each as its own parent.
fn own_parents(alloc: Global, count: usize) -> Result<Vec<usize>, NoMemory>
    ensures value { IfOk result (λ made. made.items ≡ range_with_len 0 count) }
    ensures wants { OnErr result (1 ≤ count) }
{
    let mut made = Vec::with_capacity(alloc, count)?;
    for place in 0..count {
        made.push(place)?;
    }
    Ok(made)
}

// Returns the number of the class of the next place, if those of the places before are made.
fn next_number(parents: &[usize], made: &[usize], place: usize, count: usize) -> usize
    requires inside { place < length parents.now }
    requires falls { Falls parents.now }
    requires made { length made.now ≡ place }
    requires few { count ≤ place }
    ensures { result ≡ next_number parents.now made.now place count }
{
    let parent = parents[place];
    if parent == place {
        count + 1
    } else {
        made[parent]
    }
}

// Numbers the classes in the order in which they first come.
fn numbered(alloc: Global, parents: &[usize]) -> Result<Vec<usize>, NoMemory>
    requires { Falls parents.now }
    ensures as_long { IfOk result (λ made. length made.items ≡ length parents.now) }
    ensures alike { IfOk result (λ made. (labels : List ℕ) → IsForest parents.now labels → AreAlike labels made.items (length parents.now)) }
    ensures value { IfOk result (λ made. (labels : List ℕ) → IsForest parents.now labels → made.items ≡ numbers_by labels) }
    ensures in_order { IfOk result (λ made. AreInOrder 0 made.items) }
    ensures wants { OnErr result (1 ≤ length parents.now) }
{
    let mut made = Vec::with_capacity(alloc, parents.len())?;
    let mut count = 0;
    for place in 0..parents.len() {
        let number = next_number(parents, &made, place, count);
        count = count.max(number);
        made.push(number)?;
    }
    Ok(made)
}

/// Returns the number of the group of each place of a model, in a plan at the prices that show it.
/// Two places have one number just where loose routes join them: then a unit costs at one place
/// just as much more than at the other as the prices say. Groups are numbered from 1, in the order
/// of their first places. By them `row_figures` tells which savings are exact.
///
/// It is `None` if there are no figures of some route: `route_figures` says when.
///
/// # Errors
/// `NoMemory` if an allocation is refused; a model without places needs none.
pub fn groups_of(
    alloc: Global,
    model: &PlanModel,
    prices: &[i128],
    carries: &[i128],
) -> Result<Option<Vec<usize>>, NoMemory>
    ensures some { IfOk result (λ made. IfSome made (λ groups. AreGroups prices.now model.now carries.now groups.items)) }
    ensures value { IfOk result (λ made. IfSome made (λ groups. groups.items ≡ groups_by prices.now model.now carries.now)) }
    ensures exact { IfOk result (λ made. IfSome made (λ groups. (number : ℕ) → IsRouteNumber model.now number
        → (IsTrue (row_told model.now prices.now carries.now groups.items number).exact ↔ IsExact prices.now model.now carries.now number))) }
    ensures none { IfOk result (λ made. IfNone made (¬ HaveFigures model.now prices.now carries.now)) }
    ensures have { IfOk result (λ made. IfSome made (λ groups. HaveFigures model.now prices.now carries.now)) }
    ensures wants { OnErr result (1 ≤ length model.now.supplies) }
{
    let mut parents = own_parents(alloc, model.place_count())?;
    let joined = join_all(model, prices, carries, &mut parents);
    if !joined {
        return Ok(None);
    }
    let made = numbered(alloc, &parents)?;
    Ok(Some(made))
}

// Returns the group of a place.
fn group_at(groups: &[usize], node: u32) -> usize
    ensures { result ≡ group_at groups.now node }
{
    let place = (node as usize).saturating_sub(1);
    if place < groups.len() {
        groups[place]
    } else {
        0
    }
}

// Returns whether two places are in one group.
fn are_together(groups: &[usize], one: u32, other: u32) -> bool
    ensures { result ≡ (group_at groups.now one == group_at groups.now other) }
{
    group_at(groups, one) == group_at(groups, other)
}

// Returns whether one of both holds.
fn either(first: bool, second: bool) -> bool
    ensures { result ≡ (first || second) }
{
    first || second
}

// Returns whether a saving is 0, or the ends of its route are in one group.
pub(crate) fn is_exact_between(groups: &[usize], tail: u32, head: u32, saves: i128) -> bool
    ensures { result ≡ is_exact_between groups.now tail head saves }
{
    let none = is_zero(saves);
    let joined = are_together(groups, tail, head);
    either(none, joined)
}

/// Returns whether what one more unit of room on a route saves is exact: it is 0, or loose routes
/// join the ends of the route. The place of the route counts from 0, and the groups are those of
/// `groups_of`.
pub fn is_exact(model: &PlanModel, groups: &[usize], place: usize, saves: i128) -> bool
    requires { place < length model.now.routes }
    ensures value { result ≡ is_exact_by model.now groups.now place saves }
    ensures exact { (prices : List ℤ) → (plan : List ℤ) → AreGroups prices model.now plan groups.now
        → saves ≡ saving prices (slice_index_or model.now.routes place no_route)
        → (IsTrue result ↔ IsExact prices model.now plan (suc place)) }
{
    let row = model.route(place).row;
    is_exact_between(groups, row.tail, row.head, saves)
}
