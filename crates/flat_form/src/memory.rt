//! Growth, with one error for want of memory.
ghost use Rattle.std.specs.Prelude.{◌≡◌, ◌++◌, ◌∷◌, [], IfOk, OnErr, string_bytes};

use crate::flat::{FExpr, FStmt};
use cdc_base::NoMemory;
use std::alloc::Global;

pub fn push<T: Drop>(items: &mut Vec<T>, item: T) -> Result<(), NoMemory>
    ensures pushed { IfOk result (λ _. items.new.items ≡ items.old.items ++ item ∷ []) }
    ensures unchanged { OnErr result (items.new.items ≡ items.old.items) }
{
    match items.push(item) {
        Ok(()) => Ok(()),
        Err(_) => Err(NoMemory),
    }
}

pub fn append(text: &mut String, part: &str) -> Result<(), NoMemory>
    ensures appended { IfOk result (λ _. string_bytes text.new ≡ string_bytes text.old ++ part.now) }
    ensures unchanged { OnErr result (string_bytes text.new ≡ string_bytes text.old) }
{
    match text.push_str(part) {
        Ok(()) => Ok(()),
        Err(_) => Err(NoMemory),
    }
}

pub fn boxed(alloc: Global, expr: FExpr) -> Result<Box<FExpr>, NoMemory>
    ensures { IfOk result (λ b. b.value ≡ expr) }
{
    match Box::new(alloc, expr) {
        Ok(expr) => Ok(expr),
        Err(_) => Err(NoMemory),
    }
}

pub fn boxed_stmt(alloc: Global, stmt: FStmt) -> Result<Box<FStmt>, NoMemory>
    ensures { IfOk result (λ b. b.value ≡ stmt) }
{
    match Box::new(alloc, stmt) {
        Ok(stmt) => Ok(stmt),
        Err(_) => Err(NoMemory),
    }
}
