//! Things to look at, each once.
ghost use Rattle.std.specs.Prelude.{◌≡◌, [], IfOk};
ghost use Rattle.std.specs.HashSet.{keys};
ghost use Rattle.gray_pointer.specs.Worklists.{Adds, Takes};

use cdc_base::NoMemory;
use std::alloc::Global;
use std::collections::HashSet;
use std::hash::Hash;

/// Things that are still to be looked at, and all that were ever added.
#[derive(Drop)]
pub struct Worklist<T: Copy + Eq + Hash + Drop> {
    left: Vec<T>,
    met: HashSet<T>,
}

impl<T: Copy + Eq + Hash + Drop> Worklist<T> {
    pub fn new(alloc: Global) -> Worklist<T>
        ensures left { result.left.items ≡ [] }
        ensures met { keys result.met ≡ [] }
    {
        Worklist {
            left: Vec::new(alloc),
            met: HashSet::new(alloc),
        }
    }

    /// Adds a thing that was never added before; any other changes nothing.
    pub fn add(&mut self, item: T) -> Result<(), NoMemory>
        ensures { IfOk result (λ _. Adds T.eq item (keys self.old.met) self.old.left.items (keys self.new.met) self.new.left.items) }
    {
        if self.met.insert(item).map_err(|_| NoMemory)? {
            self.left.push(item).map_err(|_| NoMemory)?;
        }
        Ok(())
    }

    pub fn take(&mut self) -> Option<T>
        ensures met { keys self.new.met ≡ keys self.old.met }
        ensures taken { Takes self.old.left.items self.new.left.items result }
    {
        self.left.pop()
    }
}
