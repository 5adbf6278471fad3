//! Sets of names in the order in which they were added.
ghost use Rattle.std.specs.Prelude.{◌≡◌, ℕ, List, [], ◌∷◌, ◌++◌, map, not, Some, None, is_none, position, option_map, if◌then◌else◌, IfOk};
ghost use Rattle.std.specs.List.{list_any};
ghost use Rattle.std.specs.Str.{bytes_eq};
ghost use Rattle.clock_constraints.specs.Names.{first_again};

use cdc_base::NoMemory;
use indexmap::IndexSet;
use std::alloc::Global;
use std::marker::Model;

/// Names, each once, which contracts see as a list.
#[derive(Drop)]
pub struct Names<'a> {
    set: IndexSet<&'a str>,
}

impl<'a> Model for Names<'a> {
    ghost use Rattle.std.specs.Prelude.{List, ℕ, map};

    ghost Value = { List (List ℕ) };

    ghost view = { λ n. map (λ t. t.now) n.set.keys };
}

impl<'a> Names<'a> {
    pub fn new(alloc: Global) -> Names<'a>
        ensures { result ≡ [] }
    {
        Names {
            set: IndexSet::new(alloc),
        }
    }

    /// Adds the name at the end, unless it is there. It answers whether it was added.
    pub fn add(&mut self, name: &'a str) -> Result<bool, NoMemory>
        ensures new { IfOk result (λ added. added ≡ not (list_any (bytes_eq name.now) self.old)) }
        ensures kept { IfOk result (λ added. self.new ≡ (if added then self.old ++ name.now ∷ [] else self.old)) }
    {
        match self.set.insert(name) {
            Ok(added) => Ok(added),
            Err(_) => Err(NoMemory),
        }
    }

    /// Whether the name is there.
    pub fn has(&self, name: &str) -> bool
        ensures { result ≡ list_any (bytes_eq name.now) self.now }
    {
        self.set.contains(name)
    }

    /// The place of the name.
    pub fn place(&self, name: &str) -> Option<usize>
        ensures { result ≡ position (bytes_eq name.now) self.now }
    {
        self.set.get_index_of(name)
    }
}

/// All the names, some of which may stand twice.
pub fn all<'a>(alloc: Global, names: &[&'a str]) -> Result<Names<'a>, NoMemory>
    ensures { IfOk result (λ s. (n : List ℕ) → list_any (bytes_eq n) s ≡ list_any (bytes_eq n) (map (λ t. t.now) names.now)) }
{
    let mut set = Names::new(alloc);
    for name in names {
        set.add(name)?;
    }
    Ok(set)
}

/// The names in their order, or None where one stands twice.
pub fn distinct<'a>(alloc: Global, names: &[&'a str]) -> Result<Option<Names<'a>>, NoMemory>
    ensures { IfOk result (λ s. s ≡ (if is_none (first_again [] (map (λ t. t.now) names.now)) then Some (map (λ t. t.now) names.now) else None)) }
{
    let mut set = Names::new(alloc);
    for name in names {
        if !set.add(name)? {
            return Ok(None);
        }
    }
    Ok(Some(set))
}
