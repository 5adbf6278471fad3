//! The groups of clocks.
ghost use Rattle.std.specs.Prelude.{◌≡◌, [], map, Some, slice_get, IfOk};
ghost use Rattle.std.specs.List.{AllZip};
ghost use Rattle.clock_constraints.specs.declared.ClockPin.{ClockPin};
ghost use Rattle.domains.specs.Groups.{mentions, with_name, IsInGroup};

use cdc_base::{List, Name, NoMemory};
use clock_constraints::ClockPin;
use indexmap::IndexSet;
use std::alloc::Global;

/// The groups in the order in which the clocks first name them, and the group of each clock.
#[derive(Drop)]
pub struct Groups {
    pub names: List<Name>,
    pub by_clock: List<u32>,
}

/// Numbers the groups of the clocks.
pub fn number(alloc: Global, clocks: &[ClockPin]) -> Result<Groups, NoMemory>
    ensures names { IfOk result (λ groups. groups.names ≡ mentions [] (map (λ (k : ClockPin). k.group) clocks.now)) }
    ensures by_clock { IfOk result (λ groups. AllZip (IsInGroup groups.names) clocks.now groups.by_clock) }
{
    let mut names = IndexSet::new(alloc);
    let mut by_clock = List::new(alloc);
    for clock in clocks {
        let place = place_in(&mut names, clock.group.as_str())?;
        by_clock.push(place)?;
    }
    Ok(Groups {
        names: texts(alloc, names.as_slice())?,
        by_clock,
    })
}

/// The place of the name, which is added at the end where it is new.
fn place_in<'a>(names: &mut IndexSet<&'a str>, name: &'a str) -> Result<u32, NoMemory>
    ensures names { IfOk result (λ _. map (λ n. n.now) names.new.keys ≡ with_name (map (λ n. n.now) names.old.keys) name.now) }
    ensures place { IfOk result (λ place. slice_get (map (λ n. n.now) names.new.keys) place ≡ Some name.now) }
{
    let Ok((place, _)) = names.insert_full(name) else {
        return Err(NoMemory);
    };
    match u32::try_from(place) {
        Ok(place) => Ok(place),
        Err(_) => Err(NoMemory),
    }
}

fn texts(alloc: Global, names: &[&str]) -> Result<List<Name>, NoMemory>
    ensures { IfOk result (λ copies. copies ≡ map (λ n. n.now) names.now) }
{
    let mut copies = List::new(alloc);
    for name in names {
        copies.push(Name::from_text(alloc, name)?)?;
    }
    Ok(copies)
}
