//! A line without a line feed, as it grows.
ghost use Rattle.std.specs.Prelude.{◌≡◌, ◌++◌, [], IfOk};
ghost use Rattle.std.specs.Fmt.{decimal};

use cdc_base::NoMemory;
use std::alloc::Global;
use std::marker::Model;

#[derive(Drop)]
pub struct Line {
    alloc: Global,
    text: String,
}

impl Model for Line {
    ghost use Rattle.std.specs.Prelude.{List, ℕ, string_bytes};

    ghost Value = { List ℕ };

    ghost view = { λ l. string_bytes l.text };
}

impl Line {
    pub fn new(alloc: Global) -> Line
        ensures { result ≡ [] }
    {
        Line {
            alloc,
            text: String::new(alloc),
        }
    }

    pub fn alloc(&self) -> Global {
        self.alloc
    }

    pub fn add(&mut self, piece: &str) -> Result<(), NoMemory>
        ensures { IfOk result (λ _. self.new ≡ self.old ++ piece.now) }
    {
        match self.text.push_str(piece) {
            Ok(()) => Ok(()),
            Err(_) => Err(NoMemory),
        }
    }

    /// Adds the number in decimals.
    pub fn add_number(&mut self, number: u64) -> Result<(), NoMemory>
        ensures { IfOk result (λ _. self.new ≡ self.old ++ decimal number) }
    {
        let alloc = self.alloc;
        match format!(in alloc; "{number}") {
            Ok(digits) => self.add(digits.as_str()),
            Err(_) => Err(NoMemory),
        }
    }

    pub fn as_str(&self) -> &str
        ensures { result.now ≡ self.now }
    {
        self.text.as_str()
    }
}
