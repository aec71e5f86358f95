//! How many members of a group those have for which members are counted.
ghost use Rattle.std.specs.Prelude.{◌≡◌, ◌<◌, ◌++◌, IfOk, OnOk, length, map, option_map, slice_index_or, false};
ghost use Rattle.std.specs.List.{All, flat_map, range_with_len};
ghost use Rattle.std.specs.Option.{option_to_list};
ghost use Rattle.mcf_flows.specs.Blocking.{in_list};
ghost use Rattle.mcf_groups.specs.Counts.{broken_of, broken_rows, chosen_at, chosen_pairs, count_row, count_rows, counted_once, counts_of, group_broken, group_counts, has_member, is_outside, owners_by, tallies, times_in};
ghost use Rattle.mcf_groups.specs.Groups.{member_of, owner_of};

use crate::crossings::is_in;
use crate::groups::{Group, Members};
use crate::nests::{member_count, owner_count};
use crate::ordering::{Crossing, group_at};
use mcf_roster::{Pair, Range, Roster};
use mcf_text::{NoMemory, copies};
use std::alloc::Global;

/// How many members of a group one has.
#[derive(Clone, Copy, Debug, PartialEq, Eq)]
pub struct GroupCount {
    /// The number of the group, from 1.
    pub group: usize,
    /// The number of the person, for a group of things, or of the thing, from 1.
    pub owner: usize,
    pub count: usize,
}

// Returns whether a pair is chosen.
fn test_at(chosen: &[bool], place: usize) -> bool
    ensures { result ≡ slice_index_or chosen.now place false }
{
    match chosen.get(place) {
        Some(test) => *test,
        None => false,
    }
}

// Appends a pair, if there is such a one.
fn push_pair(pair: Option<&Pair>, made: &mut Vec<Pair>) -> Result<(), NoMemory>
    ensures { OnOk result (made.new.items ≡ made.old.items ++ option_to_list (option_map (λ p. p.now) pair.entry)) }
{
    match pair {
        Some(pair) => made.push(*pair)?,
        None => {}
    }
    Ok(())
}

// Appends the pair at a place, if it is chosen.
fn push_chosen(
    pairs: &[Pair],
    chosen: &[bool],
    place: usize,
    made: &mut Vec<Pair>,
) -> Result<(), NoMemory>
    ensures { OnOk result (made.new.items ≡ made.old.items ++ chosen_at pairs.now chosen.now place) }
{
    if !test_at(chosen, place) {
        return Ok(());
    }
    push_pair(pairs.get(place), made)
}

// Returns the pairs that are chosen.
fn chosen_pairs(alloc: Global, pairs: &[Pair], chosen: &[bool]) -> Result<Vec<Pair>, NoMemory>
    ensures { IfOk result (λ made. made.items ≡ chosen_pairs pairs.now chosen.now) }
{
    let mut made = Vec::new(alloc);
    for place in 0..pairs.len() {
        push_chosen(pairs, chosen, place, &mut made)?;
    }
    Ok(made)
}

// Returns the one of a pair that may be a member of a group.
fn member_of(of: Members, pair: Pair) -> u32
    ensures { result ≡ member_of of pair }
{
    match of {
        Members::Things => pair.what,
        Members::Persons => pair.who,
    }
}

// Returns the other one, for which members are counted.
fn owner_of(of: Members, pair: Pair) -> u32
    ensures { result ≡ owner_of of pair }
{
    match of {
        Members::Things => pair.who,
        Members::Persons => pair.what,
    }
}

// Returns whether a number is in a list, in which the first numbers stand so often.
fn stands_in(list: &[u32], times: &[usize], number: u32) -> bool
    requires times { times.now ≡ map (times_in list.now) (range_with_len 1 (length times.now)) }
    ensures { result ≡ in_list list.now number }
{
    let place = number as usize;
    if place == 0 || times.len() < place {
        return is_in(list, number);
    }
    0 < times[place - 1]
}

// Returns whether the pair is one of a member of the group, whose members stand so often in it.
fn has_member(group: &Group, times: &[usize], pair: Pair) -> bool
    requires times { times.now ≡ map (times_in group.now.members.items) (range_with_len 1 (length times.now)) }
    ensures { result ≡ has_member group.now pair }
{
    stands_in(&group.members, times, member_of(group.of, pair))
}

// Returns those that have members of the group by some pairs.
fn owners_by(
    alloc: Global,
    group: &Group,
    times: &[usize],
    pairs: &[Pair],
) -> Result<Vec<u32>, NoMemory>
    requires times { times.now ≡ map (times_in group.now.members.items) (range_with_len 1 (length times.now)) }
    ensures { IfOk result (λ made. made.items ≡ owners_by group.now pairs.now) }
{
    let mut made = Vec::new(alloc);
    for place in 0..pairs.len() {
        if has_member(group, times, pairs[place]) {
            made.push(owner_of(group.of, pairs[place]))?;
        }
    }
    Ok(made)
}

// Counts a number once more, if it is one of those that are counted.
fn count_once(tallied: &mut Vec<usize>, number: usize)
    requires room { All (λ count. count < 18446744073709551615) tallied.old.items }
    ensures { tallied.new.items ≡ counted_once number tallied.old.items }
{
    if 0 < number && number - 1 < tallied.len() {
        tallied[number - 1] += 1;
    }
}

// Returns how often each of the numbers 1 to `count` stands in a list.
fn tally(alloc: Global, count: usize, numbers: &[u32]) -> Result<Vec<usize>, NoMemory>
    ensures { IfOk result (λ made. made.items ≡ map (times_in numbers.now) (range_with_len 1 count)) }
{
    let mut made = copies(alloc, count, 0usize)?;
    for place in 0..numbers.len() {
        count_once(&mut made, numbers[place] as usize);
    }
    Ok(made)
}

// Returns how many members of the group each has by some pairs.
fn tallies(
    alloc: Global,
    roster: &Roster,
    group: &Group,
    pairs: &[Pair],
) -> Result<Vec<usize>, NoMemory>
    ensures { IfOk result (λ made. made.items ≡ tallies roster.now group.now pairs.now) }
{
    let times = tally(alloc, member_count(roster, group.of), &group.members)?;
    let owners = owners_by(alloc, group, &times, pairs)?;
    tally(alloc, owner_count(roster, group.of) as usize, &owners)
}

// Returns the number at a place; 0 beyond the end.
fn count_at(tallied: &[usize], place: usize) -> usize
    ensures { result ≡ slice_index_or tallied.now place 0 }
{
    match tallied.get(place) {
        Some(count) => *count,
        None => 0,
    }
}

// Returns the one at a place, and how many it has.
fn count_row(number: usize, tallied: &[usize], place: usize) -> GroupCount
    requires { place < length tallied.now }
    ensures { result ≡ count_row number tallied.now place }
{
    GroupCount {
        group: number,
        owner: place + 1,
        count: count_at(tallied, place),
    }
}

// Appends the one at a place, if it may have members of a group, by the tallies of all pairs.
fn push_count(
    number: usize,
    all: &[usize],
    tallied: &[usize],
    place: usize,
    found: &mut Vec<GroupCount>,
) -> Result<(), NoMemory>
    requires { place < length tallied.now }
    ensures { OnOk result (found.new.items ≡ found.old.items ++ count_rows number all.now tallied.now place) }
{
    if 0 < count_at(all, place) {
        found.push(count_row(number, tallied, place))?;
    }
    Ok(())
}

// Appends those that may have members of a group, by the tallies of all pairs.
fn push_counts(
    number: usize,
    all: &[usize],
    tallied: &[usize],
    found: &mut Vec<GroupCount>,
) -> Result<(), NoMemory>
    ensures { OnOk result (found.new.items
        ≡ found.old.items ++ flat_map (count_rows number all.now tallied.now) (range_with_len 0 (length tallied.now))) }
{
    for place in 0..tallied.len() {
        push_count(number, all, tallied, place, found)?;
    }
    Ok(())
}

// Appends those that may have members of a group.
fn push_group(
    alloc: Global,
    roster: &Roster,
    chosen: &[Pair],
    number: usize,
    group: Option<&Group>,
    found: &mut Vec<GroupCount>,
) -> Result<(), NoMemory>
    ensures { OnOk result (found.new.items
        ≡ found.old.items ++ group_counts roster.now chosen.now number (option_map (λ g. g.now) group.entry)) }
{
    match group {
        Some(group) => {
            let all = tallies(alloc, roster, group, roster.pairs())?;
            let tallied = tallies(alloc, roster, group, chosen)?;
            push_counts(number, &all, &tallied, found)
        }
        None => Ok(()),
    }
}

/// Returns, for each group in order, all that may have members of it by the roster's pairs, and how
/// many they have by the chosen ones.
///
/// # Errors
/// `NoMemory` if an allocation is refused.
pub fn counts_of(
    alloc: Global,
    roster: &Roster,
    groups: &[Group],
    chosen: &[bool],
) -> Result<Vec<GroupCount>, NoMemory>
    ensures { IfOk result (λ made. made.items ≡ counts_of roster.now groups.now chosen.now) }
{
    let pairs = chosen_pairs(alloc, roster.pairs(), chosen)?;
    let mut found = Vec::new(alloc);
    for place in 0..groups.len() {
        let number = place + 1;
        push_group(
            alloc,
            roster,
            &pairs,
            number,
            group_at(groups, number),
            &mut found,
        )?;
    }
    Ok(found)
}

// Returns whether a number is outside a range.
fn is_outside(range: Range, count: usize) -> bool
    ensures { result ≡ is_outside range count }
{
    count < range.least as usize || (range.most as usize) < count
}

// Appends the one at a place, if it has too few or too many.
fn push_outside(
    number: usize,
    range: Range,
    tallied: &[usize],
    place: usize,
    found: &mut Vec<GroupCount>,
) -> Result<(), NoMemory>
    requires { place < length tallied.now }
    ensures { OnOk result (found.new.items ≡ found.old.items ++ broken_rows number range tallied.now place) }
{
    if is_outside(range, count_at(tallied, place)) {
        found.push(count_row(number, tallied, place))?;
    }
    Ok(())
}

// Appends those that have too few or too many, by these tallies.
fn push_broken(
    number: usize,
    range: Range,
    tallied: &[usize],
    found: &mut Vec<GroupCount>,
) -> Result<(), NoMemory>
    ensures { OnOk result (found.new.items
        ≡ found.old.items ++ flat_map (broken_rows number range tallied.now) (range_with_len 0 (length tallied.now))) }
{
    for place in 0..tallied.len() {
        push_outside(number, range, tallied, place, found)?;
    }
    Ok(())
}

// Appends those that have too few or too many members of a group.
fn push_broken_group(
    alloc: Global,
    roster: &Roster,
    chosen: &[Pair],
    number: usize,
    group: Option<&Group>,
    found: &mut Vec<GroupCount>,
) -> Result<(), NoMemory>
    ensures { OnOk result (found.new.items
        ≡ found.old.items ++ group_broken roster.now chosen.now number (option_map (λ g. g.now) group.entry)) }
{
    match group {
        Some(group) => {
            let tallied = tallies(alloc, roster, group, chosen)?;
            push_broken(number, group.range, &tallied, found)
        }
        None => Ok(()),
    }
}

/// Returns, for each group that was left out, all that have fewer or more members of it by the
/// chosen pairs than its range says.
///
/// # Errors
/// `NoMemory` if an allocation is refused.
pub fn broken_of(
    alloc: Global,
    roster: &Roster,
    groups: &[Group],
    crossings: &[Crossing],
    chosen: &[bool],
) -> Result<Vec<GroupCount>, NoMemory>
    ensures { IfOk result (λ made. made.items ≡ broken_of roster.now groups.now crossings.now chosen.now) }
{
    let pairs = chosen_pairs(alloc, roster.pairs(), chosen)?;
    let mut found = Vec::new(alloc);
    for place in 0..crossings.len() {
        let number = crossings[place].group;
        push_broken_group(
            alloc,
            roster,
            &pairs,
            number,
            group_at(groups, number),
            &mut found,
        )?;
    }
    Ok(found)
}
