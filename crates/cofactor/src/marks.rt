//! Which bits of cells a walk has met.
ghost use Rattle.std.specs.Prelude.{◌≡◌, replicate, slice_set, bit_or, IfOk};
ghost use Rattle.cofactor.specs.Marks.{marked};

use cdc_base::NoMemory;
use std::alloc::Global;
use std::marker::Model;

/// The bits that the walk of this number has met at a place.
#[derive(Clone, Copy, Debug, Drop)]
struct Mark {
    walk: u64,
    bits: u64,
}

/// Of each place the bits that the walk under way has met. Each walk has a number of its own, so that the marks of
/// earlier ones need not be cleared.
#[derive(Drop)]
pub(crate) struct Marks {
    walk: u64,
    marks: Vec<Mark>,
}

impl Model for Marks {
    ghost use Rattle.std.specs.Prelude.{ℕ, List};
    ghost use Rattle.cofactor.specs.Marks.{bits_met, AreEarlier};

    ghost Value = { List ℕ };

    ghost view = { λ m. bits_met m.walk m.marks.items };

    ghost invariant = { λ m. AreEarlier m.walk m.marks.items };
}

impl Marks {
    /// Marks without a place.
    pub(crate) fn new(alloc: Global) -> Marks {
        Marks {
            walk: 0,
            marks: Vec::new(alloc),
        }
    }

    /// The marks of a new walk over so many places.
    pub(crate) fn begin(self, alloc: Global, places: usize) -> Result<Marks, NoMemory>
        ensures { IfOk result (λ m. m ≡ replicate places 0) }
    {
        let Some(walk) = self.walk.checked_add(1) else {
            return Marks::first(alloc, places);
        };
        if self.marks.len() != places {
            return Marks::first(alloc, places);
        }
        Ok(Marks {
            walk,
            marks: self.marks,
        })
    }

    /// The marks of the first walk over so many places.
    fn first(alloc: Global, places: usize) -> Result<Marks, NoMemory>
        ensures { IfOk result (λ m. m ≡ replicate places 0) }
    {
        let none = Mark { walk: 0, bits: 0 };
        match vec![in alloc; none; places] {
            Ok(marks) => Ok(Marks { walk: 1, marks }),
            Err(_) => Err(NoMemory),
        }
    }

    /// The bits met at a place.
    pub(crate) fn met(&self, place: usize) -> u64
        ensures { result ≡ marked self.now place }
    {
        match self.marks.get(place) {
            Some(mark) => { if mark.walk == self.walk { mark.bits } else { 0 } }
            None => 0,
        }
    }

    /// Marks these bits of a place too.
    pub(crate) fn mark(&mut self, place: usize, bits: u64)
        ensures { self.new ≡ slice_set self.old place (bit_or (marked self.old place) bits) }
    {
        let bits = self.met(place) | bits;
        if place < self.marks.len() {
            self.marks[place] = Mark {
                walk: self.walk,
                bits,
            };
        }
    }
}
