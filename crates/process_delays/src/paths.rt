//! The delays with which names are assigned on the paths so far.
ghost use Rattle.std.specs.Prelude.{◌≡◌, IfOk};
ghost use Rattle.flat_unfolding.specs.Delays.{none_yet, joined as joined_of, same_delay, differ, on_both};
ghost use Rattle.process_delays.specs.Paths.{ways_of, under, grown};

use cdc_base::NoMemory;
use indexmap::IndexMap;
use std::alloc::Global;
use verilog_ast::Delay;

/// The delays of one name: on no path yet, one delay on each path that assigns it, or several.
#[derive(Clone, Copy, Drop)]
pub enum Ways<'a> {
    Never,
    Always(&'a Option<Delay>),
    Several,
}

impl<'a> Ways<'a> {
    fn joined(self, more: Ways<'a>) -> Ways<'a>
        ensures { ways_of result ≡ joined_of (ways_of self.entry) (ways_of more.entry) }
    {
        match self {
            Ways::Never => more,
            Ways::Several => Ways::Several,
            Ways::Always(delay) => match more {
                Ways::Never => self,
                Ways::Several => Ways::Several,
                Ways::Always(other) => {
                    if is_same(delay, other) {
                        self
                    } else {
                        Ways::Several
                    }
                }
            },
        }
    }

    /// Whether there is another delay than this one.
    pub fn differ(self, delay: &Option<Delay>) -> bool
        ensures { result ≡ differ delay.now (ways_of self.entry) }
    {
        match self {
            Ways::Never => false,
            Ways::Several => true,
            Ways::Always(other) => !is_same(delay, other),
        }
    }
}

/// Whether two delays are the same as they are written. None is a delay of its own.
fn is_same(delay: &Option<Delay>, other: &Option<Delay>) -> bool
    ensures { result ≡ same_delay delay.now other.now }
{
    match delay {
        None => other.is_none(),
        Some(Delay::Number(count)) => match other {
            Some(Delay::Number(other)) => *count == *other,
            _ => false,
        },
        Some(Delay::Name(name)) => match other {
            Some(Delay::Name(other)) => name.as_str() == other.as_str(),
            _ => false,
        },
    }
}

/// The delays of names on the paths that lead to a place.
#[derive(Drop)]
pub struct Paths<'a> {
    by_name: IndexMap<&'a str, Ways<'a>>,
}

impl<'a> Paths<'a> {
    pub fn new(alloc: Global) -> Paths<'a>
        ensures { under result ≡ (λ x. none_yet) }
    {
        Paths {
            by_name: IndexMap::new(alloc),
        }
    }

    pub fn of(&self, name: &str) -> Ways<'a>
        ensures { ways_of result ≡ under self.now name.now }
    {
        match self.by_name.get(name) {
            Some(ways) => *ways,
            None => Ways::Never,
        }
    }

    pub fn add(&mut self, name: &'a str, more: Ways<'a>) -> Result<(), NoMemory>
        ensures { IfOk result (λ _. under self.new ≡ grown name.now (ways_of more.entry) (under self.old)) }
    {
        let all = self.of(name).joined(more);
        match self.by_name.insert(name, all) {
            Ok(_) => Ok(()),
            Err(_) => Err(NoMemory),
        }
    }

    /// Adds the paths of another branch.
    pub fn add_all(&mut self, other: &Paths<'a>) -> Result<(), NoMemory>
        ensures { IfOk result (λ _. under self.new ≡ on_both (under self.old) (under other.now)) }
    {
        for (name, ways) in other.by_name.iter() {
            self.add(*name, *ways)?;
        }
        Ok(())
    }

    pub fn copy(&self, alloc: Global) -> Result<Paths<'a>, NoMemory>
        ensures { IfOk result (λ paths. under paths ≡ under self.now) }
    {
        let mut paths = Paths::new(alloc);
        paths.add_all(self)?;
        Ok(paths)
    }
}
