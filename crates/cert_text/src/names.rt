//! The signals and bits of a net by their printed names, each with the first one.
ghost use Rattle.std.specs.Prelude.{◌≡◌, ◌≤◌, ◌^◌, true, false, length, List, MatchOption, IfOk};
ghost use Rattle.cdc_base.specs.declared.signal.Signal.{Signal as SignalOf};
ghost use Rattle.domains.specs.Tables.{bit_names};
ghost use Rattle.cert_text.specs.Names.{behind_part, bit_named, goes_on, is_name, may_end, next_part, signal_named};
ghost use Rattle.cert_text.specs.Tables.{HasNames};

use cdc_base::bytes::{Class, is_of, is_word_start};
use cdc_base::{Bit, Name, NoMemory, Signal};
use domains::table::{bit_table, signal_table};
use indexmap::IndexMap;
use std::alloc::Global;

/// Where a printed name stands: at the begin of a part, in a plain one, behind a backslash, in an escaped part or behind
/// its space, behind the bracket of an index, in the index, behind it, or in what is no name.
#[derive(Clone, Copy, PartialEq, Eq, Debug, Drop)]
pub enum Part {
    Begin,
    Plain,
    Slash,
    Escaped,
    Behind,
    Bracket,
    Index,
    Closed,
    Broken,
}

impl Part {
    /// What may go on behind a whole part.
    fn behind(byte: u8) -> Part
        ensures { result ≡ behind_part byte }
    {
        match byte {
            b'.' => Part::Begin,
            b'[' => Part::Bracket,
            _ => Part::Broken,
        }
    }

    /// The same, one byte on.
    fn next(self, byte: u8) -> Part
        ensures { result ≡ next_part self byte }
    {
        match self {
            Part::Begin if is_word_start(byte) => Part::Plain,
            Part::Begin if byte == b'\\' => Part::Slash,
            Part::Plain if is_of(Class::Word, byte) => Part::Plain,
            Part::Plain => Part::behind(byte),
            Part::Slash if is_of(Class::Visible, byte) => Part::Escaped,
            Part::Escaped if is_of(Class::Visible, byte) => Part::Escaped,
            Part::Escaped if byte == b' ' => Part::Behind,
            Part::Behind => Part::behind(byte),
            Part::Bracket if byte.is_ascii_digit() => Part::Index,
            Part::Index if byte.is_ascii_digit() => Part::Index,
            Part::Index if byte == b']' => Part::Closed,
            _ => Part::Broken,
        }
    }

    /// Whether the name may end here.
    fn may_end(self) -> bool
        ensures { result ≡ may_end self }
    {
        match self {
            Part::Plain | Part::Behind | Part::Closed => true,
            _ => false,
        }
    }
}

/// Whether the text has the form of a printed name: parts between dots, each an identifier or an escaped one with its
/// space, and perhaps an index.
pub fn is_name(text: &[u8]) -> bool
    ensures { result ≡ is_name text.now }
{
    let mut part = Part::Begin;
    for byte in text {
        part = part.next(*byte);
    }
    part.may_end()
}

/// The numbers of signals, and the bits, by their printed names.
#[derive(Drop)]
pub struct Names<'a> {
    signals: IndexMap<&'a str, u32>,
    bits: IndexMap<&'a str, Bit>,
}

impl<'a> Names<'a> {
    /// The names of these signals and of their bits, of which `bits` has those of all bits.
    pub fn open(
        alloc: Global,
        signals: &'a [Signal],
        bits: &'a [(Name, Bit)],
    ) -> Result<Names<'a>, NoMemory>
        ensures { length signals.now ≤ 2 ^ 32 → bits.now ≡ bit_names 0 signals.now → IfOk result (HasNames signals.now) }
    {
        Ok(Names {
            signals: signal_table(alloc, signals)?,
            bits: bit_table(alloc, bits)?,
        })
    }

    /// The first bit with this printed name.
    pub fn bit(&self, name: &[u8]) -> Option<Bit>
        ensures { (signals : List SignalOf) → HasNames signals self.now → result ≡ bit_named signals name.now }
    {
        match as_name(name) {
            Some(name) => self.bits.get(name).copied(),
            None => None,
        }
    }

    /// The first signal with this printed name.
    pub fn signal(&self, name: &[u8]) -> Option<u32>
        ensures { (signals : List SignalOf) → HasNames signals self.now → result ≡ signal_named signals name.now }
    {
        match as_name(name) {
            Some(name) => self.signals.get(name).copied(),
            None => None,
        }
    }
}

/// The text, where it has the form of a name.
fn as_name(text: &[u8]) -> Option<&str>
    ensures { MatchOption result (is_name text.now ≡ false) (λ name. (is_name text.now ≡ true) × (name.now ≡ text.now)) }
{
    if !is_name(text) {
        return None;
    }
    match str::from_utf8(text) {
        Ok(name) => Some(name),
        Err(_) => None,
    }
}
