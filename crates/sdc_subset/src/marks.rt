//! What the chunks of a command are made of: plain words and brackets.
ghost use Rattle.std.specs.Prelude.{◌≡◌, ◌<◌, ◌++◌, map, Some, None, option_map, if◌then◌else◌, IfOk};
ghost use Rattle.std.specs.List.{All};
ghost use Rattle.sdc_subset.specs.Marks.{mark_of, plain_marks, chunk_marks, marks_of};

use crate::bytes::{self, Class};
use cdc_base::{List, Name, NoMemory};
use std::alloc::Global;

/// A plain word, or what opens or closes a list or a collection.
#[derive(Debug, Drop)]
pub enum Mark {
    Plain(Name),
    Brace,
    BraceEnd,
    Bracket,
    BracketEnd,
}

impl Mark {
    /// The same mark.
    pub fn copy(&self, alloc: Global) -> Result<Mark, NoMemory>
        ensures { IfOk result (λ m. m ≡ self.now) }
    {
        match self {
            Mark::Plain(text) => Ok(Mark::Plain(text.copy(alloc)?)),
            Mark::Brace => Ok(Mark::Brace),
            Mark::BraceEnd => Ok(Mark::BraceEnd),
            Mark::Bracket => Ok(Mark::Bracket),
            Mark::BracketEnd => Ok(Mark::BracketEnd),
        }
    }
}

/// The mark that a byte is which opens or closes something.
fn mark_of(byte: u8) -> Mark
    ensures { result ≡ mark_of byte }
{
    if byte == b'{' {
        Mark::Brace
    } else if byte == b'}' {
        Mark::BraceEnd
    } else if byte == b'[' {
        Mark::Bracket
    } else {
        Mark::BracketEnd
    }
}

/// Adds a mark for each byte.
fn add_marks(marks: &mut List<Mark>, bytes: &[u8]) -> Result<(), NoMemory>
    ensures { IfOk result (λ _. marks.new ≡ marks.old ++ map mark_of bytes.now) }
{
    for byte in bytes {
        marks.push(mark_of(*byte))?;
    }
    Ok(())
}

/// Adds a plain word, unless it is empty.
fn add_plain(alloc: Global, marks: &mut List<Mark>, word: &[u8]) -> Result<(), NoMemory>
    requires { All (λ b. b < 128) word.now }
    ensures { IfOk result (λ _. marks.new ≡ marks.old ++ plain_marks word.now) }
{
    if word.len() > 0 {
        marks.push(Mark::Plain(Name::from_bytes(alloc, word)?))?;
    }
    Ok(())
}

/// Adds the marks of a chunk. It answers whether the chunk has the form of one.
fn add_chunk(alloc: Global, marks: &mut List<Mark>, chunk: &[u8]) -> Result<bool, NoMemory>
    ensures { IfOk result (λ fits. option_map (λ ms. marks.old ++ ms) (chunk_marks chunk.now) ≡ (if fits then Some marks.new else None)) }
{
    let (openings, rest) = chunk.split_at(bytes::run(Class::Opening, chunk));
    let (word, closings) = rest.split_at(bytes::run(Class::Plain, rest));
    if !bytes::are_all(Class::Closing, closings) {
        return Ok(false);
    }
    add_marks(marks, openings)?;
    add_plain(alloc, marks, word)?;
    add_marks(marks, closings)?;
    Ok(true)
}

/// The marks of all chunks, or None where one hasn't the form of a chunk.
pub fn marks(alloc: Global, chunks: &[List<u8>]) -> Result<Option<List<Mark>>, NoMemory>
    ensures { IfOk result (λ ms. ms ≡ marks_of chunks.now) }
{
    let mut marks = List::new(alloc);
    for chunk in chunks {
        if !add_chunk(alloc, &mut marks, chunk.as_slice())? {
            return Ok(None);
        }
    }
    Ok(Some(marks))
}
