//! What an SDC text says.
ghost use Rattle.std.specs.Prelude.{◌≡◌, ◌<◌, [], List, ℕ, ◌++◌, map, length, Ok, None, is_none, unwrap_or, IfOk, IfErr, All, IsTrue, ◌↔◌};
ghost use Rattle.cdc_base.specs.declared.fault.Stop.TheVariants.{Memory};
ghost use Rattle.clock_constraints.specs.Refusals.{Gives, Passes};
ghost use Rattle.clock_constraints.specs.Names.{first_again};
ghost use Rattle.clock_constraints.specs.Fit.{AreFit, declared_names};
ghost use Rattle.sdc_subset.specs.Groups.{wrong_groups, lists_or_one, members};
ghost use Rattle.sdc_subset.specs.Meanings.{only_design, only_groups, clock_pins, place_of, input_pins, reset_pins, made, of_mentions, of_commands, meaning, Found};

use crate::command::{NOT_READ, read_commands};
use crate::commands::commands;
use crate::form::Command;
use crate::groups::{self, Member};
use crate::names::{self, Names};
use crate::pins::{self, Meaning, Pin};
use cdc_base::{List, Name, NoMemory, ResetPin, Stop};
use clock_constraints::{ClockPin, Constraints, InputPin, refusal};
use std::alloc::Global;

/// The top that the commands name. It may be named once.
fn only_design(alloc: Global, commands: &[Command]) -> Result<Option<Name>, Stop>
    ensures { Gives result (only_design None commands.now) }
{
    let mut top = None;
    for command in commands {
        if let Command::Design(name) = command {
            if top.is_some() {
                return Err(refusal::refuse(alloc, NOT_READ, "current_design"));
            }
            top = Some(name.copy(alloc)?);
        }
    }
    Ok(top)
}

/// The groups that the commands state, or no list. They may be stated once.
fn only_groups<'a>(alloc: Global, commands: &'a [Command]) -> Result<&'a [List<Name>], Stop>
    ensures { Found result (only_groups [] commands.now) }
{
    let mut found: &'a [List<Name>] = &[];
    for command in commands {
        if let Command::Groups(lists) = command {
            if found.len() > 0 {
                return Err(refusal::refuse(alloc, NOT_READ, "set_clock_groups"));
            }
            found = lists.as_slice();
        }
    }
    Ok(found)
}

/// Refuses lists that don't name each clock exactly once, or name another.
fn check_groups(alloc: Global, names: &[&str], lists: &[List<Name>]) -> Result<(), Stop>
    ensures { Passes result (wrong_groups (map (λ n. n.now) names.now) lists.now) }
{
    if lists.len() == 0 || groups::have_each_once(alloc, names, lists)? {
        return Ok(());
    }
    Err(refusal::refuse(alloc, NOT_READ, "set_clock_groups"))
}

/// The clocks, each with its group. Where no group is stated, all are of one.
fn members(alloc: Global, names: &[&str], lists: &[List<Name>]) -> Result<List<Member>, NoMemory>
    ensures { IfOk result (λ ms. ms ≡ members (lists_or_one (map (λ n. n.now) names.now) lists.now)) }
{
    if lists.len() > 0 {
        return groups::members(alloc, lists);
    }
    groups::members_of_one(alloc, names)
}

/// The clock pins.
fn clock_pins(alloc: Global, members: &[Member], pins: &[Pin]) -> Result<List<ClockPin>, NoMemory>
    ensures { IfOk result (λ ks. ks ≡ clock_pins members.now pins.now) }
{
    let names = groups::clocks(alloc, members)?;
    let Some(clocks) = names::distinct(alloc, names.as_slice())? else {
        return Err(NoMemory);
    };
    let mut found = List::new(alloc);
    for pin in pins {
        if let Meaning::Clock { name } = &pin.meaning {
            found.push(ClockPin {
                name: pin.port.copy(alloc)?,
                group: Name::from_text(alloc, groups::group_in(members, &clocks, name.as_str()))?,
                settle: 1,
            })?;
        }
    }
    Ok(found)
}

/// The place of the clock.
fn place_of(names: &Names, clock: &str) -> Result<u32, NoMemory>
    ensures { IfOk result (λ k. k ≡ place_of names.now clock.now) }
{
    let Some(place) = names.place(clock) else {
        return Err(NoMemory);
    };
    match u32::try_from(place) {
        Ok(place) => Ok(place),
        Err(_) => Err(NoMemory),
    }
}

/// The inputs, with the places of their clocks.
fn input_pins(alloc: Global, names: &[&str], pins: &[Pin]) -> Result<List<InputPin>, NoMemory>
    ensures { IfOk result (λ is. is ≡ input_pins (map (λ n. n.now) names.now) pins.now) }
{
    let Some(clocks) = names::distinct(alloc, names)? else {
        return Err(NoMemory);
    };
    let mut found = List::new(alloc);
    for pin in pins {
        if let Meaning::Input { clock } = &pin.meaning {
            found.push(InputPin {
                name: pin.port.copy(alloc)?,
                clock: place_of(&clocks, clock.as_str())?,
            })?;
        }
    }
    Ok(found)
}

/// The resets.
fn reset_pins(alloc: Global, pins: &[Pin]) -> Result<List<ResetPin>, NoMemory>
    ensures { IfOk result (λ rs. rs ≡ reset_pins pins.now) }
{
    let mut found = List::new(alloc);
    for pin in pins {
        if let Meaning::Reset { high } = &pin.meaning {
            found.push(ResetPin {
                name: pin.port.copy(alloc)?,
                high: *high,
            })?;
        }
    }
    Ok(found)
}

/// The names of all ports that are declared.
fn declared_names<'a>(alloc: Global, made: &'a Constraints) -> Result<Vec<&'a str>, NoMemory>
    ensures { IfOk result (λ ns. map (λ n. n.now) ns.items ≡ declared_names made.now) }
{
    let mut names = Vec::new(alloc);
    for clock in made.clocks.as_slice() {
        if names.push(clock.name.as_str()).is_err() {
            return Err(NoMemory);
        }
    }
    for input in made.inputs.as_slice() {
        if names.push(input.name.as_str()).is_err() {
            return Err(NoMemory);
        }
    }
    for reset in made.resets.as_slice() {
        if names.push(reset.name.as_str()).is_err() {
            return Err(NoMemory);
        }
    }
    for name in made.statics.as_slice() {
        if names.push(name.as_str()).is_err() {
            return Err(NoMemory);
        }
    }
    Ok(names)
}

/// Whether no port is declared twice.
fn are_distinct(alloc: Global, made: &Constraints) -> Result<bool, NoMemory>
    ensures { IfOk result (λ b. b ≡ is_none (first_again [] (declared_names made.now))) }
{
    let names = declared_names(alloc, made)?;
    Ok(names::distinct(alloc, names.as_slice())?.is_some())
}

/// Whether each input's clock is one of this many.
fn are_within(count: usize, inputs: &[InputPin]) -> bool
    ensures { IsTrue result ↔ All (λ i. i.clock < count) inputs.now }
{
    inputs.iter().all(|input| (input.clock as usize) < count)
}

/// The constraints, which fit together.
fn fitting(
    alloc: Global,
    made: Constraints,
    members: &[Member],
    pins: &[Pin],
) -> Result<Constraints, NoMemory>
    requires { made.clocks ≡ clock_pins members.now pins.now }
    ensures made { IfOk result (λ c. c ≡ made) }
    ensures fit { IfOk result AreFit }
{
    if !are_within(made.clocks.len(), made.inputs.as_slice()) {
        return Err(NoMemory);
    }
    if !are_distinct(alloc, &made)? {
        return Err(NoMemory);
    }
    Ok(made)
}

/// The constraints of pins. They fit together.
fn make(
    alloc: Global,
    top: Name,
    names: &[&str],
    lists: &[List<Name>],
    pins: &[Pin],
) -> Result<Constraints, NoMemory>
    ensures made { IfOk result (λ c. c ≡ made top (map (λ n. n.now) names.now) lists.now pins.now) }
    ensures fit { IfOk result AreFit }
{
    let members = members(alloc, names, lists)?;
    let made = Constraints {
        top,
        clocks: clock_pins(alloc, members.as_slice(), pins)?,
        inputs: input_pins(alloc, names, pins)?,
        resets: reset_pins(alloc, pins)?,
        statics: List::new(alloc),
        waivers: List::new(alloc),
    };
    fitting(alloc, made, members.as_slice(), pins)
}

/// What mentions say of ports.
fn read_mentions(
    alloc: Global,
    top: Name,
    lists: &[List<Name>],
    mentions: &[Pin],
) -> Result<Constraints, Stop>
    ensures gives { Gives result (of_mentions top lists.now mentions.now) }
    ensures fit { IfOk result AreFit }
{
    let names = pins::clock_names(alloc, mentions)?;
    check_groups(alloc, names.as_slice(), lists)?;
    pins::check_clocks(alloc, names.as_slice(), mentions)?;
    let pins = pins::pins(alloc, mentions)?;
    Ok(make(alloc, top, names.as_slice(), lists, pins.as_slice())?)
}

/// What the commands say, whose top is `last` where they name none.
fn read_meaning(alloc: Global, last: &Name, commands: &[Command]) -> Result<Constraints, Stop>
    ensures gives { Gives result (of_commands last.now commands.now) }
    ensures fit { IfOk result AreFit }
{
    let design = only_design(alloc, commands)?;
    let lists = only_groups(alloc, commands)?;
    let top = match design {
        Some(name) => name,
        None => last.copy(alloc)?,
    };
    let mentions = pins::mentions(alloc, commands)?;
    read_mentions(alloc, top, lists, mentions.as_slice())
}

/// Reads the constraints of an SDC text; `last` is the top where it names none. It refuses a byte that may not stand in a
/// command; then the first command that isn't in the table, or hasn't its form; then a second `current_design` or
/// `set_clock_groups`, and groups that don't name each clock exactly once; then an input on an unknown clock; then a port
/// with two meanings or two clocks, and a clock name that is given twice.
pub fn read(alloc: Global, text: &[u8], last: &Name) -> Result<Constraints, Stop>
    ensures gives { Gives result (meaning text.now last.now) }
    ensures fit { IfOk result AreFit }
{
    let commands = commands(alloc, text)?;
    let read = read_commands(alloc, commands.as_slice())?;
    read_meaning(alloc, last, read.as_slice())
}
