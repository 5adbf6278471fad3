//! Groups of clocks.
ghost use Rattle.std.specs.Prelude.{◌≡◌, [], ◌∷◌, ◌++◌, map, IfOk};
ghost use Rattle.std.specs.List.{list_any, list_all};
ghost use Rattle.std.specs.Str.{bytes_eq};
ghost use Rattle.sdc_subset.specs.Commands.{head};
ghost use Rattle.sdc_subset.specs.Groups.{listed, are_among, has_each_once, members, group_in};

use crate::names::{self, Names};
use cdc_base::{List, Name, NoMemory};
use std::alloc::Global;

/// A clock and its group, both by name.
#[derive(Debug, Drop)]
pub struct Member {
    pub clock: Name,
    pub group: Name,
}

/// Adds the names at the end.
fn add_names<'a>(names: &mut Vec<&'a str>, list: &'a [Name]) -> Result<(), NoMemory>
    ensures { IfOk result (λ _. map (λ n. n.now) names.new.items ≡ map (λ n. n.now) names.old.items ++ list.now) }
{
    for name in list {
        if names.push(name.as_str()).is_err() {
            return Err(NoMemory);
        }
    }
    Ok(())
}

/// The names of all lists.
fn listed<'a>(alloc: Global, lists: &'a [List<Name>]) -> Result<Vec<&'a str>, NoMemory>
    ensures { IfOk result (λ ns. map (λ n. n.now) ns.items ≡ listed lists.now) }
{
    let mut names = Vec::new(alloc);
    for list in lists {
        add_names(&mut names, list.as_slice())?;
    }
    Ok(names)
}

/// Whether the set has all the names.
fn has_all(set: &Names, names: &[&str]) -> bool
    ensures { result ≡ are_among set.now (map (λ n. n.now) names.now) }
{
    for name in names {
        if !set.has(name) {
            return false;
        }
    }
    true
}

/// Whether the names are all among the others.
fn are_among(alloc: Global, others: &[&str], names: &[&str]) -> Result<bool, NoMemory>
    ensures { IfOk result (λ b. b ≡ are_among (map (λ n. n.now) others.now) (map (λ n. n.now) names.now)) }
{
    let set = names::all(alloc, others)?;
    Ok(has_all(&set, names))
}

/// Whether the lists have each of the names once, and no other.
pub fn have_each_once(alloc: Global, names: &[&str], lists: &[List<Name>]) -> Result<bool, NoMemory>
    ensures { IfOk result (λ b. b ≡ has_each_once (map (λ n. n.now) names.now) (listed lists.now)) }
{
    let listed = listed(alloc, lists)?;
    if names::distinct(alloc, listed.as_slice())?.is_none() {
        return Ok(false);
    }
    Ok(are_among(alloc, listed.as_slice(), names)? && are_among(alloc, names, listed.as_slice())?)
}

/// Adds the clocks of a group.
fn add_members(
    alloc: Global,
    members: &mut List<Member>,
    group: &str,
    clocks: &[Name],
) -> Result<(), NoMemory>
    ensures { IfOk result (λ _. members.new ≡ members.old ++ map (λ n. record { clock = n; group = group.now }) clocks.now) }
{
    for clock in clocks {
        members.push(Member {
            clock: clock.copy(alloc)?,
            group: Name::from_text(alloc, group)?,
        })?;
    }
    Ok(())
}

/// The name of the first clock of a list.
fn first(clocks: &[Name]) -> &str
    ensures { result.now ≡ head clocks.now }
{
    match clocks {
        [first, ..] => first.as_str(),
        [] => "",
    }
}

/// The clocks of all lists, each with its group.
pub fn members(alloc: Global, lists: &[List<Name>]) -> Result<List<Member>, NoMemory>
    ensures { IfOk result (λ ms. ms ≡ members lists.now) }
{
    let mut members = List::new(alloc);
    for list in lists {
        add_members(alloc, &mut members, first(list.as_slice()), list.as_slice())?;
    }
    Ok(members)
}

/// The clocks of one group, which has the name of the first.
pub fn members_of_one(alloc: Global, clocks: &[&str]) -> Result<List<Member>, NoMemory>
    ensures { IfOk result (λ ms. ms ≡ members (map (λ n. n.now) clocks.now ∷ [])) }
{
    let mut members = List::new(alloc);
    let group = match clocks {
        [first, ..] => *first,
        [] => "",
    };
    for clock in clocks {
        members.push(Member {
            clock: Name::from_text(alloc, clock)?,
            group: Name::from_text(alloc, group)?,
        })?;
    }
    Ok(members)
}

/// The clocks of the members.
pub fn clocks<'a>(alloc: Global, members: &'a [Member]) -> Result<Vec<&'a str>, NoMemory>
    ensures { IfOk result (λ ns. map (λ n. n.now) ns.items ≡ map (λ m. m.clock) members.now) }
{
    let mut names = Vec::new(alloc);
    for member in members {
        if names.push(member.clock.as_str()).is_err() {
            return Err(NoMemory);
        }
    }
    Ok(names)
}

/// The group of a clock.
pub fn group_in<'a>(members: &'a [Member], clocks: &Names, clock: &str) -> &'a str
    requires { clocks.now ≡ map (λ m. m.clock) members.now }
    ensures { result.now ≡ group_in members.now clock.now }
{
    match clocks.place(clock) {
        Some(place) => match members.get(place) {
            Some(member) => member.group.as_str(),
            None => "",
        },
        None => "",
    }
}
