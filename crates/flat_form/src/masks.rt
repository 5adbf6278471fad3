//! Sets of bits of signals, as a mask for each signal.
ghost use Rattle.std.specs.Prelude.{◌≡◌, ℕ, ◌<◌, true, false, ◌&&◌, ◌==◌, nat_eq, Contains, IfOk};
ghost use Rattle.std.specs.List.{list_any, IsDistinct};
ghost use Rattle.cell_graph.specs.Tree.{bit_at};
ghost use Rattle.flat_form.specs.Masks.{mask_of, bits_in, has_signal, Adds, Lists};
ghost use Rattle.flat_form.specs.Uses.{without};

use cdc_base::NoMemory;
use indexmap::IndexMap;
use std::alloc::Global;

/// A set of bits of signals.
#[derive(Drop)]
pub struct Masks {
    by_signal: IndexMap<u32, u64>,
}

impl Masks {
    pub fn new(alloc: Global) -> Masks
        ensures none { (s i : ℕ) → bits_in result s i ≡ false }
        ensures unlisted { (s : ℕ) → has_signal result s ≡ false }
    {
        Masks {
            by_signal: IndexMap::new(alloc),
        }
    }

    /// The bits of the signal that are in the set.
    pub fn of(&self, sig: u32) -> u64
        ensures mask { result ≡ mask_of self.now sig }
        ensures bits { (i : ℕ) → i < 64 → bit_at result i ≡ bits_in self.now sig i }
    {
        self.by_signal.get(&sig).copied().unwrap_or(0)
    }

    /// Whether the set has an entry for the signal, be it of no bits.
    pub fn has(&self, sig: u32) -> bool
        ensures { result ≡ has_signal self.now sig }
    {
        self.by_signal.contains_key(&sig)
    }

    /// Adds bits of a signal.
    pub fn add(&mut self, sig: u32, mask: u64) -> Result<(), NoMemory>
        ensures added { IfOk result (λ _. Adds self.old self.new (λ s i. (s == sig) && bit_at mask i)) }
        ensures listed { IfOk result (λ _. Lists self.old self.new (λ s. s == sig)) }
    {
        let all = self.of(sig) | mask;
        match self.by_signal.insert(sig, all) {
            Ok(_) => Ok(()),
            Err(_) => Err(NoMemory),
        }
    }

    /// Adds the bits of another set.
    pub fn add_all(&mut self, other: &Masks) -> Result<(), NoMemory>
        ensures added { IfOk result (λ _. Adds self.old self.new (bits_in other.now)) }
    {
        for (sig, mask) in other.by_signal.iter() {
            self.add(*sig, *mask)?;
        }
        Ok(())
    }

    /// Adds those bits of `other` that aren't in `but`.
    pub fn add_all_but(&mut self, other: &Masks, but: &Masks) -> Result<(), NoMemory>
        ensures added { IfOk result (λ _. Adds self.old self.new (without (bits_in but.now) (bits_in other.now))) }
    {
        for (sig, mask) in other.by_signal.iter() {
            self.add(*sig, *mask & !but.of(*sig))?;
        }
        Ok(())
    }

    /// The bits that are in both sets.
    pub fn common(&self, alloc: Global, other: &Masks) -> Result<Masks, NoMemory>
        ensures both { IfOk result (λ m. (s i : ℕ) → i < 64 → bits_in m s i ≡ (bits_in self.now s i && bits_in other.now s i)) }
    {
        let mut both = Masks::new(alloc);
        for (sig, mask) in self.by_signal.iter() {
            let mask = *mask & other.of(*sig);
            if mask != 0 {
                both.add(*sig, mask)?;
            }
        }
        Ok(both)
    }

    /// The signals of the set, each once.
    pub fn signals(&self) -> &[u32]
        ensures listed { (s i : ℕ) → bits_in self.now s i ≡ true → Contains result.now s }
        ensures exact { (s : ℕ) → list_any (λ x. s == x) result.now ≡ has_signal self.now s }
        ensures distinct { IsDistinct nat_eq result.now }
    {
        self.by_signal.keys().as_slice()
    }
}
