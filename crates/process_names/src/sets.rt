//! Sets of names.
ghost use Rattle.std.specs.Prelude.{◌≡◌, map, IfOk};
ghost use Rattle.process_names.specs.Sets.{Holds, has, put};

use cdc_base::NoMemory;
use indexmap::IndexSet;
use std::alloc::Global;

/// The set of the names in a list.
pub fn name_set<'a>(alloc: Global, names: &[&'a str]) -> Result<IndexSet<&'a str>, NoMemory>
    ensures { IfOk result (λ set. Holds set.keys (map (λ n. n.now) names.now)) }
{
    let mut set = IndexSet::new(alloc);
    for name in names {
        insert(&mut set, name)?;
    }
    Ok(set)
}

fn insert<'a>(set: &mut IndexSet<&'a str>, name: &'a str) -> Result<(), NoMemory>
    ensures { IfOk result (λ _. set.new.keys ≡ put name.entry set.old.keys) }
{
    match set.insert(name) {
        Ok(_) => Ok(()),
        Err(_) => Err(NoMemory),
    }
}

/// Whether a name is in a set.
pub fn has(set: &IndexSet<&str>, name: &str) -> bool
    ensures { result ≡ has set.now.keys name.now }
{
    set.contains(name)
}
