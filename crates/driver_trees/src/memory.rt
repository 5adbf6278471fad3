//! Growth whose only refusal is want of memory.
ghost use Rattle.std.specs.Prelude.{◌≡◌, [], ◌∷◌, ◌++◌, IfOk, OnOk, Some, vec_len};
ghost use Rattle.std.specs.Ordering.{nat_cmp};
ghost use Rattle.std.specs.BTreeMap.{Updates};

use cdc_base::NoMemory;
use std::alloc::Global;
use std::collections::BTreeMap;

/// Adds an item at the end.
pub fn push<T: Drop>(items: &mut Vec<T>, item: T) -> Result<(), NoMemory>
    ensures { OnOk result (items.new.items ≡ items.old.items ++ item ∷ []) }
{
    match items.push(item) {
        Ok(()) => Ok(()),
        Err(_) => Err(NoMemory),
    }
}

/// Gives the key its value.
pub fn insert<V: Drop>(entries: &mut BTreeMap<u32, V>, key: u32, value: V) -> Result<(), NoMemory>
    ensures { OnOk result (Updates nat_cmp entries.old entries.new key (Some value)) }
{
    match entries.insert(key, value) {
        Ok(_) => Ok(()),
        Err(_) => Err(NoMemory),
    }
}

/// `count` copies of an item.
pub fn filled<T: Copy + Drop>(alloc: Global, item: T, count: usize) -> Result<Vec<T>, NoMemory>
    ensures { IfOk result (λ items. vec_len items ≡ count) }
{
    match vec![in alloc; item; count] {
        Ok(items) => Ok(items),
        Err(_) => Err(NoMemory),
    }
}

/// The number of a place. More places than a `u32` can name count as want of memory.
pub fn numbered(place: usize) -> Result<u32, NoMemory>
    ensures { IfOk result (λ number. number ≡ place) }
{
    match u32::try_from(place) {
        Ok(number) => Ok(number),
        Err(_) => Err(NoMemory),
    }
}
