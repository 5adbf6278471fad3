//! The commands of a text, each as the chunks that stand between its blanks.
ghost use Rattle.std.specs.Prelude.{◌≡◌, ◌++◌, IfOk};
ghost use Rattle.std.specs.List.{list_all, slice_split};
ghost use Rattle.sdc_subset.specs.declared.bytes.Class.TheVariants.{Semicolon, Ordinary};
ghost use Rattle.sdc_subset.specs.Bytes.{in_class};
ghost use Rattle.sdc_subset.specs.Commands.{line_end, joined, chunks_of, head, is_passed_over, is_comment, is_read, commands_in, commands_of, are_ordinary};

use crate::bytes::{self, Class};
use cdc_base::bytes::front;
use cdc_base::words::has_word;
use cdc_base::{List, NoMemory};
use std::alloc::Global;

const PASSED_OVER: [&str; 13] = [
    "set_output_delay",
    "set_clock_uncertainty",
    "set_clock_latency",
    "set_load",
    "set_driving_cell",
    "set_input_transition",
    "set_max_delay",
    "set_min_delay",
    "set_max_fanout",
    "set_max_transition",
    "set_units",
    "set_false_path",
    "set_multicycle_path",
];

/// How many bytes the line end at the front has.
fn line_end(text: &[u8]) -> usize
    ensures { result ≡ line_end text.now }
{
    if text.starts_with(b"\n") {
        return 1;
    }
    if text.starts_with(b"\r\n") {
        return 2;
    }
    0
}

/// The text with a blank for each `\` at the end of a line and the line end behind it.
fn join_lines(alloc: Global, text: &[u8]) -> Result<List<u8>, NoMemory>
    ensures { IfOk result (λ bytes. bytes ≡ joined text.now) }
{
    let mut bytes = List::new(alloc);
    let mut passed = 0;
    for (at, byte) in text.iter().enumerate() {
        if passed > 0 {
            passed -= 1;
            continue;
        }
        let end = line_end(&text[at + 1..]);
        if *byte == b'\\' && end > 0 {
            bytes.push(b' ')?;
            passed = end;
        } else {
            bytes.push(*byte)?;
        }
    }
    Ok(bytes)
}

/// What stands between the blanks of a text.
fn chunks(alloc: Global, text: &[u8]) -> Result<List<List<u8>>, NoMemory>
    ensures { IfOk result (λ cs. cs ≡ chunks_of text.now) }
{
    let pieces = bytes::pieces(alloc, Class::Blank, text)?;
    let mut chunks = List::new(alloc);
    for piece in pieces.as_slice() {
        if piece.len() > 0 {
            chunks.push(bytes::copy(alloc, piece.as_slice())?)?;
        }
    }
    Ok(chunks)
}

/// The first chunk, or an empty one.
pub fn head(chunks: &[List<u8>]) -> &[u8]
    ensures { result.now ≡ head chunks.now }
{
    match chunks {
        [first, ..] => first.as_slice(),
        [] => &[],
    }
}

/// Whether commands with this first word are passed over.
#[tactic(auto, unfolding(crate::specs::Commands::is_passed_over))]
fn is_passed_over(word: &[u8]) -> bool
    ensures { result ≡ is_passed_over word.now }
{
    has_word(&PASSED_OVER, word)
}

/// Adds the commands of a line.
fn add_commands(
    alloc: Global,
    commands: &mut List<List<List<u8>>>,
    line: &[u8],
) -> Result<(), NoMemory>
    ensures { IfOk result (λ _. commands.new ≡ commands.old ++ commands_in (slice_split (in_class Semicolon) line.now)) }
{
    let pieces = bytes::pieces(alloc, Class::Semicolon, line)?;
    for piece in pieces.as_slice() {
        let chunks = chunks(alloc, piece.as_slice())?;
        if front(head(chunks.as_slice())) == b'#' {
            return Ok(());
        }
        if chunks.len() > 0 && !is_passed_over(head(chunks.as_slice())) {
            commands.push(chunks)?;
        }
    }
    Ok(())
}

/// The commands of a text that have words and aren't passed over.
pub fn commands(alloc: Global, text: &[u8]) -> Result<List<List<List<u8>>>, NoMemory>
    ensures { IfOk result (λ cs. cs ≡ commands_of text.now) }
{
    let joined = join_lines(alloc, text)?;
    let lines = bytes::pieces(alloc, Class::LineFeed, joined.as_slice())?;
    let mut commands = List::new(alloc);
    for line in lines.as_slice() {
        add_commands(alloc, &mut commands, line.as_slice())?;
    }
    Ok(commands)
}

/// Whether the chunks have no byte that may not stand in a command.
fn is_ordinary(chunks: &[List<u8>]) -> bool
    ensures { result ≡ list_all (list_all (in_class Ordinary)) chunks.now }
{
    for chunk in chunks {
        if !bytes::are_all(Class::Ordinary, chunk.as_slice()) {
            return false;
        }
    }
    true
}

/// Whether the commands have no byte that may not stand in one.
pub fn are_ordinary(commands: &[List<List<u8>>]) -> bool
    ensures { result ≡ are_ordinary commands.now }
{
    for command in commands {
        if !is_ordinary(command.as_slice()) {
            return false;
        }
    }
    true
}
