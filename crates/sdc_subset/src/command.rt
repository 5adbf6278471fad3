//! The commands of a text by the table, or the first that breaks a rule.
ghost use Rattle.std.specs.Prelude.{◌≡◌, ◌<◌, true, Some, option_and_then, IfOk, All};
ghost use Rattle.std.specs.List.{list_all};
ghost use Rattle.clock_constraints.specs.Refusals.{IsStop, Gives};
ghost use Rattle.sdc_subset.specs.declared.bytes.Class.TheVariants.{Ordinary};
ghost use Rattle.sdc_subset.specs.Bytes.{in_class};
ghost use Rattle.sdc_subset.specs.Commands.{are_ordinary};
ghost use Rattle.sdc_subset.specs.Marks.{marks_of};
ghost use Rattle.sdc_subset.specs.Words.{words_of};
ghost use Rattle.sdc_subset.specs.Arguments.{arguments_of};
ghost use Rattle.sdc_subset.specs.Forms.{kind_of, valued_options, flag_options, form};
ghost use Rattle.sdc_subset.specs.Readings.{behind_head, command_from, command_of, all_of, readings};

use crate::arguments::{Argument, arguments};
use crate::commands::{are_ordinary, head};
use crate::form::{self, Command};
use crate::marks::marks;
use crate::words::{Word, words};
use cdc_base::words::find_in;
use cdc_base::{Fault, List, Name, NoMemory, Stop};
use std::alloc::Global;

/// The text has a byte that may not stand in a command, or a command hasn't the table's form.
pub const NOT_READ: u16 = 413;
/// The command isn't in the table.
pub const LEFT_OUT: u16 = 412;

/// The commands of the table.
#[derive(Clone, Copy, Debug, Drop)]
pub enum Kind {
    Design,
    Clock,
    Groups,
    Delay,
    Level,
}

const KINDS: [(&str, Kind); 5] = [
    ("current_design", Kind::Design),
    ("create_clock", Kind::Clock),
    ("set_clock_groups", Kind::Groups),
    ("set_input_delay", Kind::Delay),
    ("set_case_analysis", Kind::Level),
];

/// The command of the table with this first word.
#[tactic(auto, unfolding(crate::specs::Forms::kind_of))]
fn kind_of(word: &[u8]) -> Option<Kind>
    ensures { result ≡ kind_of word.now }
{
    find_in(&KINDS, word)
}

/// The refusal with this number and name, unless memory ran out.
fn refuse(alloc: Global, number: u16, name: &[u8]) -> Stop
    requires { All (λ b. b < 128) name.now }
    ensures { IsStop number name.now result }
{
    match Name::from_bytes(alloc, name) {
        Ok(name) => Stop::Refused(Fault {
            number,
            place: None,
            name,
        }),
        Err(error) => Stop::from(error),
    }
}

/// The chunks behind the first.
fn behind_head(chunks: &[List<u8>]) -> &[List<u8>]
    ensures { result.now ≡ behind_head chunks.now }
{
    match chunks {
        [_, rest @ ..] => rest,
        [] => &[],
    }
}

/// The words of chunks, or None where they aren't written as words.
fn read_words(alloc: Global, chunks: &[List<u8>]) -> Result<Option<List<Word>>, NoMemory>
    ensures { IfOk result (λ ws. ws ≡ option_and_then words_of (marks_of chunks.now)) }
{
    match marks(alloc, chunks)? {
        Some(marks) => words(alloc, marks.as_slice()),
        None => Ok(None),
    }
}

/// The arguments of a command of this kind.
fn read_arguments(
    alloc: Global,
    kind: Kind,
    words: &[Word],
) -> Result<Option<List<Argument>>, NoMemory>
    ensures { IfOk result (λ given. given ≡ arguments_of (valued_options kind) (flag_options kind) words.now) }
{
    match kind {
        Kind::Design | Kind::Level => arguments(alloc, &[], &[], words),
        Kind::Clock => arguments(alloc, &["-name", "-period", "-waveform"], &[], words),
        Kind::Groups => arguments(alloc, &["-name", "-group"], &["-asynchronous"], words),
        Kind::Delay => arguments(alloc, &["-clock"], &["-max", "-min", "-add_delay"], words),
    }
}

/// What arguments say in a command of this kind.
fn read_form(alloc: Global, kind: Kind, given: &[Argument]) -> Result<Option<Command>, NoMemory>
    ensures { IfOk result (λ c. c ≡ form kind given.now) }
{
    match kind {
        Kind::Design => form::design(alloc, given),
        Kind::Clock => form::clock(alloc, given),
        Kind::Groups => form::groups(alloc, given),
        Kind::Delay => form::delay(alloc, given),
        Kind::Level => form::level(alloc, given),
    }
}

/// What a command of this kind says, or None where its words don't have the table's form.
fn read_kind(alloc: Global, kind: Kind, chunks: &[List<u8>]) -> Result<Option<Command>, NoMemory>
    ensures { IfOk result (λ c. c ≡ option_and_then (command_from kind) (option_and_then words_of (marks_of chunks.now))) }
{
    let Some(words) = read_words(alloc, chunks)? else {
        return Ok(None);
    };
    match read_arguments(alloc, kind, words.as_slice())? {
        Some(given) => read_form(alloc, kind, given.as_slice()),
        None => Ok(None),
    }
}

/// What a command says. It refuses one that isn't in the table, and one without the table's form.
fn read_command(alloc: Global, chunks: &[List<u8>]) -> Result<Command, Stop>
    requires { list_all (list_all (in_class Ordinary)) chunks.now ≡ true }
    ensures { Gives result (command_of chunks.now) }
{
    let word = head(chunks);
    let Some(kind) = kind_of(word) else {
        return Err(refuse(alloc, LEFT_OUT, word));
    };
    match read_kind(alloc, kind, behind_head(chunks))? {
        Some(command) => Ok(command),
        None => Err(refuse(alloc, NOT_READ, word)),
    }
}

/// What the commands say. It refuses a byte that may not stand in one, then the first command that breaks a rule.
pub fn read_commands(alloc: Global, commands: &[List<List<u8>>]) -> Result<List<Command>, Stop>
    ensures { Gives result (readings commands.now) }
{
    if !are_ordinary(commands) {
        return Err(refuse(alloc, NOT_READ, b""));
    }
    let mut read = List::new(alloc);
    for command in commands {
        read.push(read_command(alloc, command.as_slice())?)?;
    }
    Ok(read)
}
