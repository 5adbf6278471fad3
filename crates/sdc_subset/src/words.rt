//! The words of a command.
ghost use Rattle.std.specs.Prelude.{◌≡◌, [], option_map, count_by, IfOk};
ghost use Rattle.sdc_subset.specs.declared.bytes.Class.TheVariants.{Dot};
ghost use Rattle.sdc_subset.specs.Bytes.{in_class};
ghost use Rattle.sdc_subset.specs.Words.{words_of, plain_of, name_of, is_braces, names_of, is_number, is_number_or};

use crate::bytes::{self, Class};
use crate::marks::Mark;
use crate::nest::{Nest, Opening};
use cdc_base::{List, Name, NoMemory};
use std::alloc::Global;
use std::mem;

/// A word: a plain word, braces or a collection, by its marks.
#[derive(Debug, Drop)]
pub struct Word {
    pub marks: List<Mark>,
}

/// The words of a command, or None where a mark stands where it may not.
pub fn words(alloc: Global, marks: &[Mark]) -> Result<Option<List<Word>>, NoMemory>
    ensures { IfOk result (λ ws. ws ≡ words_of marks.now) }
{
    let mut words = List::new(alloc);
    let mut word = List::new(alloc);
    let mut nest = Nest::new(alloc);
    nest.push(Opening::Command)?;
    for mark in marks {
        if !nest.add(mark)? {
            return Ok(None);
        }
        word.push(mark.copy(alloc)?)?;
        if nest.len() == 1 {
            words.push(Word {
                marks: mem::replace(&mut word, List::new(alloc)),
            })?;
        }
    }
    if nest.len() == 1 {
        Ok(Some(words))
    } else {
        Ok(None)
    }
}

impl Word {
    /// A word without marks.
    pub fn empty(alloc: Global) -> Word
        ensures { result ≡ record { marks = [] } }
    {
        Word {
            marks: List::new(alloc),
        }
    }

    /// The same word.
    pub fn copy(&self, alloc: Global) -> Result<Word, NoMemory>
        ensures { IfOk result (λ w. w ≡ self.now) }
    {
        let mut marks = List::new(alloc);
        for mark in self.marks.as_slice() {
            marks.push(mark.copy(alloc)?)?;
        }
        Ok(Word { marks })
    }

    /// The plain word, if it is one.
    pub fn plain(&self) -> Option<&str>
        ensures { option_map (λ t. t.now) result ≡ plain_of self.now.marks }
    {
        match self.marks.as_slice() {
            [Mark::Plain(text)] => Some(text.as_str()),
            _ => None,
        }
    }

    /// The one name that the word is: a plain word, or one in braces.
    pub fn name(&self) -> Option<&str>
        ensures { option_map (λ t. t.now) result ≡ name_of self.now.marks }
    {
        match self.marks.as_slice() {
            [Mark::Plain(text)] => Some(text.as_str()),
            [Mark::Brace, Mark::Plain(text), Mark::BraceEnd] => Some(text.as_str()),
            _ => None,
        }
    }

    /// Whether the word is in braces.
    pub fn is_braces(&self) -> bool
        ensures { result ≡ is_braces self.now.marks }
    {
        match self.marks.as_slice() {
            [Mark::Brace, ..] => true,
            _ => false,
        }
    }

    /// Whether the word is a number.
    pub fn is_number(&self) -> bool
        ensures { result ≡ is_number_or (plain_of self.now.marks) }
    {
        match self.plain() {
            Some(text) => is_number(text.as_bytes()),
            None => false,
        }
    }

    /// The names in the word, where all its collections are of this kind.
    pub fn names(&self, alloc: Global, collection: &str) -> Result<Option<List<Name>>, NoMemory>
        ensures { IfOk result (λ ns. ns ≡ names_of collection.now self.now.marks) }
    {
        let mut names = List::new(alloc);
        let mut bracket = false;
        for mark in self.marks.as_slice() {
            match mark {
                Mark::Plain(text) => {
                    if !bracket {
                        names.push(text.copy(alloc)?)?;
                    } else if text.as_str() != collection {
                        return Ok(None);
                    }
                    bracket = false;
                }
                Mark::Bracket => bracket = true,
                _ => bracket = false,
            }
        }
        Ok(Some(names))
    }
}

/// How many dots the text has.
fn dots(text: &[u8]) -> usize
    ensures { result ≡ count_by (in_class Dot) text.now }
{
    text.iter()
        .filter(|byte| bytes::is_of(Class::Dot, **byte))
        .count()
}

/// Whether the text is a number.
fn is_number(text: &[u8]) -> bool
    ensures { result ≡ is_number text.now }
{
    let dots = dots(text);
    bytes::are_all(Class::Figure, text) && dots <= 1 && dots < text.len()
}
