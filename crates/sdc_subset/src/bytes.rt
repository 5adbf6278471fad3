//! Classes of bytes, and the pieces between bytes of a class.
ghost use Rattle.std.specs.Prelude.{◌≡◌, ◌≤◌, length, IfOk};
ghost use Rattle.std.specs.List.{list_all, prefix_len, slice_split};
ghost use Rattle.sdc_subset.specs.Bytes.{in_class};

use cdc_base::{List, NoMemory};
use std::alloc::Global;
use std::mem;

/// What a byte does in a text. The classes overlap.
#[derive(Clone, Copy, Debug, Drop)]
pub enum Class {
    /// It ends a line.
    LineFeed,
    /// It ends a command within a line.
    Semicolon,
    /// It stands between words.
    Blank,
    /// It opens braces or brackets.
    Opening,
    /// It closes braces or brackets.
    Closing,
    /// It is part of a plain word.
    Plain,
    /// It may stand in a command.
    Ordinary,
    /// It is part of a number.
    Figure,
    /// It stands between the digits of a number.
    Dot,
}

/// Whether the byte is of the class.
pub fn is_of(class: Class, byte: u8) -> bool
    ensures { result ≡ in_class class byte }
{
    match class {
        Class::LineFeed => byte == b'\n',
        Class::Semicolon => byte == b';',
        Class::Blank => byte == b' ' || byte == b'\t' || byte == b'\r',
        Class::Opening => byte == b'{' || byte == b'[',
        Class::Closing => byte == b'}' || byte == b']',
        Class::Plain => {
            33 <= byte
                && byte <= 126
                && byte != b'{'
                && byte != b'}'
                && byte != b'['
                && byte != b']'
                && byte != b';'
                && byte != b'"'
        }
        Class::Ordinary => {
            byte == b'\t' || byte == b'\n' || byte == b'\r' || (32 <= byte && byte <= 126)
        }
        Class::Figure => byte == b'.' || (b'0' <= byte && byte <= b'9'),
        Class::Dot => byte == b'.',
    }
}

/// How many bytes from the front on are of the class.
pub fn run(class: Class, text: &[u8]) -> usize
    ensures longest { result ≡ prefix_len (in_class class) text.now }
    ensures fits { result ≤ length text.now }
{
    let mut count = 0;
    for byte in text {
        if !is_of(class, *byte) {
            return count;
        }
        count += 1;
    }
    count
}

/// Whether each byte of the text is of the class.
pub fn are_all(class: Class, text: &[u8]) -> bool
    ensures { result ≡ list_all (in_class class) text.now }
{
    text.iter().all(|byte| is_of(class, *byte))
}

/// The pieces of the text between its bytes of the class.
pub fn pieces(alloc: Global, class: Class, text: &[u8]) -> Result<List<List<u8>>, NoMemory>
    ensures { IfOk result (λ ps. ps ≡ slice_split (in_class class) text.now) }
{
    let mut pieces = List::new(alloc);
    let mut piece = List::new(alloc);
    for byte in text {
        if is_of(class, *byte) {
            pieces.push(mem::replace(&mut piece, List::new(alloc)))?;
        } else {
            piece.push(*byte)?;
        }
    }
    pieces.push(piece)?;
    Ok(pieces)
}

/// The same bytes.
pub fn copy(alloc: Global, bytes: &[u8]) -> Result<List<u8>, NoMemory>
    ensures { IfOk result (λ copy. copy ≡ bytes.now) }
{
    match Vec::from_slice(alloc, bytes) {
        Ok(copy) => Ok(List::from_vec(copy)),
        Err(_) => Err(NoMemory),
    }
}
