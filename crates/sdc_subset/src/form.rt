//! The table of commands: the form of each, and what it says.
ghost use Rattle.std.specs.Prelude.{◌≡◌, map, option_map, codes, IfOk};
ghost use Rattle.sdc_subset.specs.Words.{plain_of};
ghost use Rattle.sdc_subset.specs.Forms.{one, two, one_name, some_names, name_or, may_be_braces, clock_lists, high_of, design_form, clock_form, groups_form, delay_form, level_form};

use crate::arguments::{Argument, values};
use crate::words::Word;
use cdc_base::{List, Name, NoMemory};
use std::alloc::Global;

/// What a command of the table says.
#[derive(Debug, Drop)]
pub enum Command {
    /// The top.
    Design(Name),
    /// A clock pin, and the name by which the other commands call its clock.
    Clock { port: Name, name: Name },
    /// Groups of clocks.
    Groups(List<List<Name>>),
    /// Inputs on a clock.
    Delay { clock: Name, ports: List<Name> },
    /// Resets, and whether they are active high.
    Level { high: bool, ports: List<Name> },
}

/// The word, if there is exactly one.
fn one<'a>(words: &[&'a Word]) -> Option<&'a Word>
    ensures { option_map (λ w. w.now) result ≡ one (map (λ w. w.now) words.now) }
{
    match words {
        [word] => Some(*word),
        _ => None,
    }
}

/// The words, if there are exactly two.
fn two<'a>(words: &[&'a Word]) -> Option<(&'a Word, &'a Word)>
    ensures { option_map (λ p. (p.0.now, p.1.now)) result ≡ two (map (λ w. w.now) words.now) }
{
    match words {
        [first, second] => Some((*first, *second)),
        _ => None,
    }
}

/// The name in a list with exactly one.
fn one_name(alloc: Global, collection: &str, word: &Word) -> Result<Option<Name>, NoMemory>
    ensures { IfOk result (λ n. n ≡ one_name collection.now word.now) }
{
    let Some(names) = word.names(alloc, collection)? else {
        return Ok(None);
    };
    match names.as_slice() {
        [name] => Ok(Some(name.copy(alloc)?)),
        _ => Ok(None),
    }
}

/// The names in a list with one or more.
fn some_names(alloc: Global, collection: &str, word: &Word) -> Result<Option<List<Name>>, NoMemory>
    ensures { IfOk result (λ ns. ns ≡ some_names collection.now word.now) }
{
    let Some(names) = word.names(alloc, collection)? else {
        return Ok(None);
    };
    if names.len() == 0 {
        return Ok(None);
    }
    Ok(Some(names))
}

/// The name that an option gives, or the other one where the option is left out.
fn name_or(alloc: Global, other: &str, words: &[&Word]) -> Result<Option<Name>, NoMemory>
    ensures { IfOk result (λ n. n ≡ name_or other.now (map (λ w. w.now) words.now)) }
{
    match words {
        [] => Ok(Some(Name::from_text(alloc, other)?)),
        [word] => match word.name() {
            Some(name) => Ok(Some(Name::from_text(alloc, name)?)),
            None => Ok(None),
        },
        _ => Ok(None),
    }
}

/// Whether an option is left out, or has braces as its value.
fn may_be_braces(words: &[&Word]) -> bool
    ensures { result ≡ may_be_braces (map (λ w. w.now) words.now) }
{
    match words {
        [] => true,
        [word] => word.is_braces(),
        _ => false,
    }
}

/// The lists of clocks.
fn clock_lists(alloc: Global, words: &[&Word]) -> Result<Option<List<List<Name>>>, NoMemory>
    ensures { IfOk result (λ ls. ls ≡ clock_lists (map (λ w. w.now) words.now)) }
{
    let mut lists = List::new(alloc);
    for word in words {
        let Some(names) = some_names(alloc, "get_clocks", word)? else {
            return Ok(None);
        };
        lists.push(names)?;
    }
    Ok(Some(lists))
}

/// Whether a reset with this inactive level is active high.
fn high(word: &Word) -> Option<bool>
    ensures { result ≡ high_of (plain_of word.now.marks) }
{
    match word.plain() {
        Some("0") => Some(true),
        Some("1") => Some(false),
        _ => None,
    }
}

pub fn design(alloc: Global, given: &[Argument]) -> Result<Option<Command>, NoMemory>
    ensures { IfOk result (λ c. c ≡ design_form given.now) }
{
    let words = values(alloc, given, "")?;
    let Some(word) = one(words.as_slice()) else {
        return Ok(None);
    };
    let Some(name) = word.name() else {
        return Ok(None);
    };
    Ok(Some(Command::Design(Name::from_text(alloc, name)?)))
}

pub fn clock(alloc: Global, given: &[Argument]) -> Result<Option<Command>, NoMemory>
    ensures { IfOk result (λ c. c ≡ clock_form given.now) }
{
    let periods = values(alloc, given, "-period")?;
    let words = values(alloc, given, "")?;
    let Some(period) = one(periods.as_slice()) else {
        return Ok(None);
    };
    let Some(word) = one(words.as_slice()) else {
        return Ok(None);
    };
    let Some(port) = one_name(alloc, "get_ports", word)? else {
        return Ok(None);
    };
    let names = values(alloc, given, "-name")?;
    let Some(name) = name_or(alloc, port.as_str(), names.as_slice())? else {
        return Ok(None);
    };
    let waveforms = values(alloc, given, "-waveform")?;
    if !period.is_number() || !may_be_braces(waveforms.as_slice()) {
        return Ok(None);
    }
    Ok(Some(Command::Clock { port, name }))
}

pub fn groups(alloc: Global, given: &[Argument]) -> Result<Option<Command>, NoMemory>
    ensures { IfOk result (λ c. c ≡ groups_form given.now) }
{
    let names = values(alloc, given, "-name")?;
    if name_or(alloc, "", names.as_slice())?.is_none() {
        return Ok(None);
    }
    let words = values(alloc, given, "-group")?;
    let Some(lists) = clock_lists(alloc, words.as_slice())? else {
        return Ok(None);
    };
    if values(alloc, given, "-asynchronous")?.len() != 1
        || lists.len() < 2
        || !values(alloc, given, "")?.is_empty()
    {
        return Ok(None);
    }
    Ok(Some(Command::Groups(lists)))
}

pub fn delay(alloc: Global, given: &[Argument]) -> Result<Option<Command>, NoMemory>
    ensures { IfOk result (λ c. c ≡ delay_form given.now) }
{
    let lists = values(alloc, given, "-clock")?;
    let Some(list) = one(lists.as_slice()) else {
        return Ok(None);
    };
    let Some(clock) = one_name(alloc, "get_clocks", list)? else {
        return Ok(None);
    };
    let words = values(alloc, given, "")?;
    let Some((value, list)) = two(words.as_slice()) else {
        return Ok(None);
    };
    let Some(ports) = some_names(alloc, "get_ports", list)? else {
        return Ok(None);
    };
    if !value.is_number()
        || values(alloc, given, "-max")?.len() > 1
        || values(alloc, given, "-min")?.len() > 1
        || values(alloc, given, "-add_delay")?.len() > 1
    {
        return Ok(None);
    }
    Ok(Some(Command::Delay { clock, ports }))
}

pub fn level(alloc: Global, given: &[Argument]) -> Result<Option<Command>, NoMemory>
    ensures { IfOk result (λ c. c ≡ level_form given.now) }
{
    let words = values(alloc, given, "")?;
    let Some((value, list)) = two(words.as_slice()) else {
        return Ok(None);
    };
    let Some(high) = high(value) else {
        return Ok(None);
    };
    let Some(ports) = some_names(alloc, "get_ports", list)? else {
        return Ok(None);
    };
    Ok(Some(Command::Level { high, ports }))
}
