//! What is open around a mark.
ghost use Rattle.std.specs.Prelude.{◌≡◌, [], ◌∷◌, ◌++◌, length, Some, None, option_map, if◌then◌else◌, IfOk, MatchOption};
ghost use Rattle.sdc_subset.specs.declared.nest.Opening.TheVariants.{Command, Braces, Bracket, Collection};
ghost use Rattle.sdc_subset.specs.Words.{among_words, in_place, behind};

use crate::marks::Mark;
use cdc_base::NoMemory;
use cdc_base::words::has_word;
use std::alloc::Global;
use std::marker::Model;

/// What is open, and what it waits for.
#[derive(Clone, Copy, Debug, Drop)]
pub enum Opening {
    /// The command, which holds words.
    Command,
    /// Braces, which hold words.
    Braces,
    /// A bracket, behind which the name of a collection stands.
    Bracket,
    /// A collection, which holds one word or braces.
    Collection,
    /// A collection that has its word.
    Full,
}

/// What is open, which contracts see as a list, innermost first.
#[derive(Drop)]
pub struct Nest {
    items: Vec<Opening>,
}

impl Model for Nest {
    ghost use Rattle.std.specs.Prelude.{List, reverse};
    ghost use Rattle.sdc_subset.specs.declared.nest.Opening.{Opening};

    ghost Value = { List Opening };

    ghost view = { λ n. reverse n.items.items };
}

impl Nest {
    /// Nothing is open.
    pub fn new(alloc: Global) -> Nest
        ensures { result ≡ [] }
    {
        Nest {
            items: Vec::new(alloc),
        }
    }

    /// How many are open.
    pub fn len(&self) -> usize
        ensures { result ≡ length self.now }
    {
        self.items.len()
    }

    /// Opens one more.
    pub fn push(&mut self, opening: Opening) -> Result<(), NoMemory>
        ensures { IfOk result (λ _. self.new ≡ opening ∷ self.old) }
    {
        match self.items.push(opening) {
            Ok(()) => Ok(()),
            Err(_) => Err(NoMemory),
        }
    }

    /// Closes the innermost.
    fn pop(&mut self) -> Option<Opening>
        ensures { MatchOption result (self.old ≡ []) (λ o. self.old ≡ o ∷ self.new) }
    {
        self.items.pop()
    }

    /// What a mark opens and closes among words, where this was the innermost.
    fn add_word(&mut self, opening: Opening, mark: &Mark) -> Result<bool, NoMemory>
        ensures { IfOk result (λ fits. option_map (λ inner. inner ++ self.old) (among_words opening mark.now) ≡ (if fits then Some self.new else None)) }
    {
        match mark {
            Mark::Plain(_) => self.push(opening)?,
            Mark::Brace => {
                self.push(opening)?;
                self.push(Opening::Braces)?;
            }
            Mark::Bracket => {
                self.push(opening)?;
                self.push(Opening::Bracket)?;
            }
            Mark::BraceEnd | Mark::BracketEnd => return Ok(false),
        }
        Ok(true)
    }

    /// What a mark opens and closes, where braces were the innermost.
    fn add_in_braces(&mut self, mark: &Mark) -> Result<bool, NoMemory>
        ensures { IfOk result (λ fits. option_map (λ inner. inner ++ self.old) (in_place Braces mark.now) ≡ (if fits then Some self.new else None)) }
    {
        match mark {
            Mark::BraceEnd => Ok(true),
            _ => self.add_word(Opening::Braces, mark),
        }
    }

    /// What a mark opens and closes, where a bracket was the innermost.
    fn add_in_bracket(&mut self, mark: &Mark) -> Result<bool, NoMemory>
        ensures { IfOk result (λ fits. option_map (λ inner. inner ++ self.old) (in_place Bracket mark.now) ≡ (if fits then Some self.new else None)) }
    {
        match mark {
            Mark::Plain(text) => {
                if !has_word(&["get_ports", "get_clocks"], text.as_bytes()) {
                    return Ok(false);
                }
                self.push(Opening::Collection)?;
                Ok(true)
            }
            _ => Ok(false),
        }
    }

    /// What a mark opens and closes, where a collection without its word was the innermost.
    fn add_in_collection(&mut self, mark: &Mark) -> Result<bool, NoMemory>
        ensures { IfOk result (λ fits. option_map (λ inner. inner ++ self.old) (in_place Collection mark.now) ≡ (if fits then Some self.new else None)) }
    {
        match mark {
            Mark::Plain(_) => {
                self.push(Opening::Full)?;
                Ok(true)
            }
            Mark::Brace => {
                self.push(Opening::Full)?;
                self.push(Opening::Braces)?;
                Ok(true)
            }
            _ => Ok(false),
        }
    }

    /// What a mark opens and closes. It answers whether the mark may stand here.
    pub fn add(&mut self, mark: &Mark) -> Result<bool, NoMemory>
        ensures { IfOk result (λ fits. behind self.old mark.now ≡ (if fits then Some self.new else None)) }
    {
        match self.pop() {
            None => Ok(false),
            Some(Opening::Command) => self.add_word(Opening::Command, mark),
            Some(Opening::Braces) => self.add_in_braces(mark),
            Some(Opening::Bracket) => self.add_in_bracket(mark),
            Some(Opening::Collection) => self.add_in_collection(mark),
            Some(Opening::Full) => Ok(matches!(mark, Mark::BracketEnd)),
        }
    }
}
