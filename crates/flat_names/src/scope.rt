//! What the names of a module stand for.
ghost use Rattle.std.specs.Prelude.{◌≡◌, ℕ, ◌+◌, ◌-◌, ◌<◌, ◌≤◌, ◌^◌, max, min, cond, nat_lt, Option, None, Some, [], slice_get, option_map, option_and_then, option_copied, ◌==◌, IfOk};
ghost use Rattle.std.specs.Option.{option_map_or};
ghost use Rattle.std.specs.Cmp.Lexicographic.{pointwise};
ghost use Rattle.flat_unfolding.specs.Outcome.{Text};
ghost use Rattle.flat_unfolding.specs.Names.{span, offset as offset_of};
ghost use Rattle.flat_unfolding.specs.Expressions.{word_of};
ghost use Rattle.flat_names.specs.declared.design.Entry.{Entry};
ghost use Rattle.flat_names.specs.Looks.{range_of, memory_of, kept_in, meant, bits_of, one_if};

use crate::design::{Entry, Reset};
use cdc_base::{Name, NoMemory, Signal};
use flat_form::bits::low_bits;
use flat_form::flat::FExpr;
use indexmap::IndexMap;
use std::alloc::Global;

/// Declared bounds of a range.
#[derive(Clone, Copy, PartialEq, Eq, Debug, Drop)]
pub struct Bounds {
    pub left: u32,
    pub right: u32,
}

impl Bounds {
    /// The number of indices.
    pub fn width(self) -> u64
        ensures { result ≡ span (range_of self) }
    {
        u64::from(self.left.abs_diff(self.right)) + 1
    }

    /// How far an index lies from the right bound; `None` outside the range.
    pub fn offset(self, index: u64) -> Option<u8>
        ensures { span (range_of self) ≤ 256 → result ≡ offset_of index (range_of self) }
    {
        let (left, right) = (u64::from(self.left), u64::from(self.right));
        let offset = if left < right {
            if index < left {
                return None;
            }
            right.checked_sub(index)?
        } else {
            if index > left {
                return None;
            }
            index.checked_sub(right)?
        };
        u8::try_from(offset).ok()
    }
}

/// A parameter of a module: its value, its size, whether it counts as a plain number, and whether it is signed.
#[derive(Clone, Copy, PartialEq, Eq, Debug, Drop)]
pub struct Param {
    pub value: u64,
    pub width: u8,
    pub counted: bool,
    pub signed: bool,
    pub bounds: Option<Bounds>,
}

/// A memory: the number of its first word's signal, and the number of its words.
#[derive(Clone, Copy, PartialEq, Eq, Debug, Drop)]
pub struct Memory {
    pub first: u32,
    pub words: u32,
}

impl Memory {
    /// The signal of the word with this index.
    pub fn word(self, index: u64) -> Option<u32>
        ensures { self.first + self.words ≤ 2 ^ 32 → result ≡ word_of (memory_of self) index }
    {
        let index = u32::try_from(index).ok()?;
        if index < self.words {
            self.first.checked_add(index)
        } else {
            None
        }
    }
}

/// What a name stands for. A signal is given by its number; no value is that of an instance, or of a memory's word by
/// its printed name.
#[derive(Clone, Copy, PartialEq, Eq, Debug, Drop)]
pub enum Meaning {
    Param(Param),
    Signal(u32),
    Memory(Memory),
    NoValue,
}

/// The names of one module.
pub type Names = IndexMap<Name, Meaning>;

/// Gives a name its meaning.
pub fn define(
    alloc: Global,
    names: &mut Names,
    name: &str,
    meaning: Meaning,
) -> Result<(), NoMemory>
    ensures { IfOk result (λ _. (x : Text) → kept_in names.new x ≡ cond (pointwise ◌==◌ name.now x) (Some meaning) (kept_in names.old x)) }
{
    let name = Name::from_text(alloc, name)?;
    match names.insert(name, meaning) {
        Ok(_) => Ok(()),
        Err(_) => Err(NoMemory),
    }
}

/// What an expression of a module is read in. Resets read as their inactive level, or, where `active` says so, as
/// their active one.
#[derive(Drop)]
pub struct Look<'a> {
    pub alloc: Global,
    pub names: &'a Names,
    pub signals: &'a [Signal],
    pub entries: &'a [Entry],
    pub active: bool,
}

impl<'a> Look<'a> {
    /// What a name stands for in an expression or as a target. A name without a value stands for nothing there.
    pub fn meaning(&self, name: &Name) -> Option<Meaning>
        ensures { result ≡ meant self.now.names.now name.now }
    {
        match self.names.get(name) {
            Some(Meaning::NoValue) | None => None,
            Some(meaning) => Some(*meaning),
        }
    }

    pub fn entry(&self, sig: u32) -> Option<&Entry>
        ensures { option_copied result ≡ slice_get self.now.entries.now sig }
    {
        self.entries.get(usize::try_from(sig).unwrap_or(usize::MAX))
    }

    /// The own name of a signal.
    pub fn own_name(&self, sig: u32) -> &str
        ensures { result.now ≡ option_map_or (λ (e : Entry). e.own) (slice_get self.now.entries.now sig) [] }
    {
        match self.entry(sig) {
            Some(entry) => entry.own.as_str(),
            None => "",
        }
    }

    pub fn width(&self, sig: u32) -> u8
        ensures { result ≡ option_map_or (λ (e : Entry). e.width) (slice_get self.now.entries.now sig) 1 }
    {
        match self.entry(sig) {
            Some(entry) => entry.width,
            None => 1,
        }
    }

    pub fn bounds(&self, sig: u32) -> Option<Bounds>
        ensures { result ≡ option_and_then (λ (e : Entry). e.bounds) (slice_get self.now.entries.now sig) }
    {
        match self.entry(sig) {
            Some(entry) => entry.bounds,
            None => None,
        }
    }

    /// The reset that a signal resolves to.
    pub fn reset(&self, sig: u32) -> Option<Reset>
        ensures { result ≡ option_and_then (λ (e : Entry). e.reset) (slice_get self.now.entries.now sig) }
    {
        match self.entry(sig) {
            Some(entry) => entry.reset,
            None => None,
        }
    }

    /// The bits of a signal from offset `at` on.
    pub fn read(&self, sig: u32, at: u8, width: u8) -> FExpr
        ensures { 1 ≤ width → result ≡ bits_of (option_and_then (λ (e : Entry). e.reset) (slice_get self.now.entries.now sig)) self.now.active sig at width }
    {
        match self.reset(sig) {
            None => FExpr::Read { sig, at, width },
            Some(reset) => {
                let is_set = at == 0 && reset.is_high == self.active;
                FExpr::Number {
                    value: level(is_set, width),
                    width,
                }
            }
        }
    }
}

/// A level as a word of `width` bits.
fn level(is_set: bool, width: u8) -> u64
    ensures { 1 ≤ width → result ≡ one_if is_set }
{
    u64::from(is_set) & low_bits(width)
}
