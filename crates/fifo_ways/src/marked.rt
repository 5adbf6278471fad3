//! What is looked for on ways, each kind as a set.
ghost use Rattle.std.specs.Prelude.{◌≡◌, IfOk};
ghost use Rattle.std.specs.HashSet as set;
ghost use Rattle.std.specs.List.{list_any};
ghost use Rattle.fifo_ways.specs.Marked.{found_by};
ghost use Rattle.fifo_ways.specs.Sought.{AreFound};

use crate::sought::{Guard, Sought};
use cdc_base::{Bit, NoMemory};
use cell_graph::Node;
use std::alloc::Global;
use std::collections::HashSet;
use std::hash::Hash;

/// The words' bits, the reads and the guards that have a test.
#[derive(Drop)]
pub struct Marked {
    words: HashSet<Bit>,
    reads: HashSet<Node>,
    tests: HashSet<Guard>,
}

impl Marked {
    pub fn of(alloc: Global, sought: &Sought) -> Result<Marked, NoMemory>
        ensures { IfOk result (λ m. AreFound sought.now (found_by m)) }
    {
        let words = set_of(alloc, sought.words.as_slice())?;
        let reads = set_of(alloc, sought.reads.as_slice())?;
        let tests = set_of(alloc, sought.tests.as_slice())?;
        Ok(Marked {
            words,
            reads,
            tests,
        })
    }

    pub fn is_word(&self, bit: Bit) -> bool
        ensures { result ≡ (found_by self.now).word bit }
    {
        self.words.contains(&bit)
    }

    pub fn is_read(&self, node: Node) -> bool
        ensures { result ≡ (found_by self.now).read node }
    {
        self.reads.contains(&node)
    }

    pub fn has_test(&self, guard: Guard) -> bool
        ensures { result ≡ (found_by self.now).test guard }
    {
        self.tests.contains(&guard)
    }
}

/// The set of the items of a list.
pub fn set_of<T: Copy + Eq + Hash + Drop>(
    alloc: Global,
    items: &[T],
) -> Result<HashSet<T>, NoMemory>
    ensures { IfOk result (λ found. (item : T) → set.contains T.eq found item ≡ list_any (T.eq item) items.now) }
{
    let mut found = HashSet::new(alloc);
    for item in items {
        found.insert(*item).map_err(|_| NoMemory)?;
    }
    Ok(found)
}
