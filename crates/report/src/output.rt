//! JSON as it is written, token by token.
ghost use Rattle.std.specs.Prelude.{◌≡◌, [], ◌∷◌, ◌++◌, codes, decimal, IfOk};
ghost use Rattle.json.specs.Print.{print};
ghost use Rattle.json.specs.Token.{begin_array, begin_object, boolean, end_array, end_object, key, number, string};

use cdc_base::{List, NoMemory};
use json::Writer;
use std::alloc::Global;
use std::marker::Model;

/// The text of the tokens so far.
#[derive(Drop)]
pub struct Output {
    alloc: Global,
    writer: Writer,
}

impl Model for Output {
    ghost use Rattle.std.specs.Prelude.{◌≡◌, List, []};
    ghost use Rattle.json.specs.Token.{Token, tokens_code};

    ghost Value = { List Token };

    ghost coded = { tokens_code };

    ghost view = { λ o. o.writer.tokens };

    ghost invariant = { λ o. o.writer.before ≡ [] };
}

impl Output {
    pub fn new(alloc: Global) -> Output
        ensures { result ≡ [] }
    {
        Output {
            alloc,
            writer: Writer::new(Vec::new(alloc)),
        }
    }

    pub fn alloc(&self) -> Global {
        self.alloc
    }

    pub fn begin_object(&mut self) -> Result<(), NoMemory>
        ensures { IfOk result (λ _. self.new ≡ self.old ++ begin_object ∷ []) }
    {
        match self.writer.begin_object() {
            Ok(()) => Ok(()),
            Err(_) => Err(NoMemory),
        }
    }

    pub fn end_object(&mut self) -> Result<(), NoMemory>
        ensures { IfOk result (λ _. self.new ≡ self.old ++ end_object ∷ []) }
    {
        match self.writer.end_object() {
            Ok(()) => Ok(()),
            Err(_) => Err(NoMemory),
        }
    }

    pub fn begin_array(&mut self) -> Result<(), NoMemory>
        ensures { IfOk result (λ _. self.new ≡ self.old ++ begin_array ∷ []) }
    {
        match self.writer.begin_array() {
            Ok(()) => Ok(()),
            Err(_) => Err(NoMemory),
        }
    }

    pub fn end_array(&mut self) -> Result<(), NoMemory>
        ensures { IfOk result (λ _. self.new ≡ self.old ++ end_array ∷ []) }
    {
        match self.writer.end_array() {
            Ok(()) => Ok(()),
            Err(_) => Err(NoMemory),
        }
    }

    pub fn key(&mut self, name: &str) -> Result<(), NoMemory>
        ensures { IfOk result (λ _. self.new ≡ self.old ++ key name.now ∷ []) }
    {
        match self.writer.key(name) {
            Ok(()) => Ok(()),
            Err(_) => Err(NoMemory),
        }
    }

    pub fn text(&mut self, text: &str) -> Result<(), NoMemory>
        ensures { IfOk result (λ _. self.new ≡ self.old ++ string text.now ∷ []) }
    {
        match self.writer.string(text) {
            Ok(()) => Ok(()),
            Err(_) => Err(NoMemory),
        }
    }

    pub fn count(&mut self, count: u64) -> Result<(), NoMemory>
        ensures { IfOk result (λ _. self.new ≡ self.old ++ number (decimal count) ∷ []) }
    {
        match self.writer.u64(count) {
            Ok(()) => Ok(()),
            Err(_) => Err(NoMemory),
        }
    }

    pub fn truth(&mut self, truth: bool) -> Result<(), NoMemory>
        ensures { IfOk result (λ _. self.new ≡ self.old ++ boolean truth ∷ []) }
    {
        match self.writer.boolean(truth) {
            Ok(()) => Ok(()),
            Err(_) => Err(NoMemory),
        }
    }

    /// The text of the tokens and a line feed.
    pub fn into_line(self) -> Result<List<u8>, NoMemory>
        ensures { IfOk result (λ text. text ≡ print self ++ codes "\n") }
    {
        let Output { writer, .. } = self;
        let mut text = writer.into_inner();
        match text.push(b'\n') {
            Ok(()) => Ok(List::from_vec(text)),
            Err(_) => Err(NoMemory),
        }
    }
}
