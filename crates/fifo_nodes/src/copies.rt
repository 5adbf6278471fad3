//! Lists that are copied or compared.
ghost use Rattle.std.specs.Prelude.{◌≡◌, true, IfOk};

use cdc_base::{List, NoMemory};
use std::alloc::Global;

/// The items again.
pub fn copied<T: Copy + Drop>(alloc: Global, items: &[T]) -> Result<List<T>, NoMemory>
    ensures { IfOk result (λ copies. copies ≡ items.now) }
{
    match Vec::from_slice(alloc, items) {
        Ok(copies) => Ok(List::from_vec(copies)),
        Err(_) => Err(NoMemory),
    }
}

/// Whether both lists have the same items.
pub fn are_equal<T: PartialEq>(one: &[T], another: &[T]) -> bool
    requires { (a b : T) → T.eq a b ≡ true → a ≡ b }
    ensures { result ≡ true → one.now ≡ another.now }
{
    one == another
}
