//! Growing texts.
ghost use Rattle.std.specs.Prelude.{◌≡◌, ◌++◌, ◌∷◌, [], IfOk};
ghost use Rattle.std.specs.Fmt.{decimal};

use cdc_base::{List, NoMemory};
use std::alloc::Global;
use std::marker::Model;

/// A text that grows at its end.
#[derive(Drop)]
pub struct Text {
    alloc: Global,
    bytes: Vec<u8>,
}

impl Model for Text {
    ghost use Rattle.std.specs.Prelude.{List, ℕ};

    ghost Value = { List ℕ };

    ghost view = { λ t. t.bytes.items };
}

impl Text {
    pub fn new(alloc: Global) -> Text
        ensures { result ≡ [] }
    {
        Text {
            alloc,
            bytes: Vec::new(alloc),
        }
    }

    pub fn alloc(&self) -> Global {
        self.alloc
    }

    pub fn add_bytes(&mut self, piece: &[u8]) -> Result<(), NoMemory>
        ensures { IfOk result (λ _. self.new ≡ self.old ++ piece.now) }
    {
        match self.bytes.extend_from_slice(piece) {
            Ok(()) => Ok(()),
            Err(_) => Err(NoMemory),
        }
    }

    pub fn add(&mut self, piece: &str) -> Result<(), NoMemory>
        ensures { IfOk result (λ _. self.new ≡ self.old ++ piece.now) }
    {
        self.add_bytes(piece.as_bytes())
    }

    pub fn add_byte(&mut self, byte: u8) -> Result<(), NoMemory>
        ensures { IfOk result (λ _. self.new ≡ self.old ++ byte ∷ []) }
    {
        match self.bytes.push(byte) {
            Ok(()) => Ok(()),
            Err(_) => Err(NoMemory),
        }
    }

    /// Adds the number in decimals.
    pub fn add_number(&mut self, number: u64) -> Result<(), NoMemory>
        ensures { IfOk result (λ _. self.new ≡ self.old ++ decimal number) }
    {
        let alloc = self.alloc;
        match format!(in alloc; "{number}") {
            Ok(digits) => self.add(digits.as_str()),
            Err(_) => Err(NoMemory),
        }
    }

    pub fn as_slice(&self) -> &[u8]
        ensures { result.now ≡ self.now }
    {
        self.bytes.as_slice()
    }

    pub fn into_list(self) -> List<u8>
        ensures { result ≡ self }
    {
        List::from_vec(self.bytes)
    }
}
