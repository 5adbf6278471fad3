//! The options of a command, each with its value, and its other words.
ghost use Rattle.std.specs.Prelude.{◌≡◌, [], map, IfOk};
ghost use Rattle.sdc_subset.specs.declared.arguments.Step.TheVariants.{Adds};
ghost use Rattle.sdc_subset.specs.Arguments.{step_of, arguments_of, values};

use crate::words::Word;
use cdc_base::bytes::front;
use cdc_base::words::has_word;
use cdc_base::{List, Name, NoMemory};
use std::alloc::Global;

/// An option and its value. A flag's value has no marks, and a word that is no option stands under the empty one.
#[derive(Debug, Drop)]
pub struct Argument {
    pub option: Name,
    pub value: Word,
}

/// What a word is for its command.
#[derive(Debug, Drop)]
pub enum Step {
    /// An argument is whole.
    Adds(Argument),
    /// An option whose value is the next word.
    Waits(Name),
    /// It begins with `-`, and the command has no such option.
    Unknown,
}

/// A word that is no option.
fn positional(alloc: Global, word: &Word) -> Result<Step, NoMemory>
    ensures { IfOk result (λ s. s ≡ Adds (record { option = []; value = word.now })) }
{
    Ok(Step::Adds(Argument {
        option: Name::from_text(alloc, "")?,
        value: word.copy(alloc)?,
    }))
}

/// What the word is for a command with these options, where the option before it waits for its value.
fn step_of(
    alloc: Global,
    valued: &[&str],
    flags: &[&str],
    before: Option<Name>,
    word: &Word,
) -> Result<Step, NoMemory>
    ensures { IfOk result (λ s. s ≡ step_of (map (λ o. o.now) valued.now) (map (λ o. o.now) flags.now) before word.now) }
{
    if let Some(option) = before {
        return Ok(Step::Adds(Argument {
            option,
            value: word.copy(alloc)?,
        }));
    }
    let Some(text) = word.plain() else {
        return positional(alloc, word);
    };
    if has_word(flags, text.as_bytes()) {
        return Ok(Step::Adds(Argument {
            option: Name::from_text(alloc, text)?,
            value: Word::empty(alloc),
        }));
    }
    if has_word(valued, text.as_bytes()) {
        return Ok(Step::Waits(Name::from_text(alloc, text)?));
    }
    if front(text.as_bytes()) == b'-' {
        return Ok(Step::Unknown);
    }
    positional(alloc, word)
}

/// The arguments in their order, or None where an option is unknown or has no value.
pub fn arguments(
    alloc: Global,
    valued: &[&str],
    flags: &[&str],
    words: &[Word],
) -> Result<Option<List<Argument>>, NoMemory>
    ensures { IfOk result (λ found. found ≡ arguments_of (map (λ o. o.now) valued.now) (map (λ o. o.now) flags.now) words.now) }
{
    let mut arguments = List::new(alloc);
    let mut pending = None;
    for word in words {
        match step_of(alloc, valued, flags, pending.take(), word)? {
            Step::Adds(argument) => arguments.push(argument)?,
            Step::Waits(option) => pending = Some(option),
            Step::Unknown => return Ok(None),
        }
    }
    if pending.is_some() {
        return Ok(None);
    }
    Ok(Some(arguments))
}

/// The values that the option has, in order.
pub fn values<'a>(
    alloc: Global,
    arguments: &'a [Argument],
    option: &str,
) -> Result<Vec<&'a Word>, NoMemory>
    ensures { IfOk result (λ ws. map (λ w. w.now) ws.items ≡ values option.now arguments.now) }
{
    let mut values = Vec::new(alloc);
    for argument in arguments {
        if argument.option.as_str() == option && values.push(&argument.value).is_err() {
            return Err(NoMemory);
        }
    }
    Ok(values)
}
