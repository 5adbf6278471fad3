//! The rings in which a bit has a part.
ghost use Rattle.std.specs.Prelude.{◌≡◌, ◌++◌, ◌↔◌, ℕ, Option, List, Contains, IfOk};
ghost use Rattle.std.specs.List.Sorted.{IsPermutation, IsSorted};
ghost use Rattle.cdc_base.specs.declared.bit.Bit.{Bit};
ghost use Rattle.mux_recirc.specs.contracts.parts.PartOrd.TheImpl as order;
ghost use Rattle.mux_recirc.specs.Parts.{end_bits, gate_bits, parts_in, parts_from, parts_at, rings_at, rings_among, bit_there};

use cdc_base::{Bit, NoMemory};
use cdc_model::Ring;
use std::alloc::Global;

/// A bit, and a ring, by its place in the list, in which it has the part that is asked for.
#[derive(Clone, Copy, PartialEq, Eq, PartialOrd, Ord, Debug, Drop)]
pub struct Part {
    pub bit: Bit,
    pub ring: usize,
}

/// The parts of all bits, by bit, then ring.
#[derive(Drop)]
pub struct Parts {
    entries: Vec<Part>,
}

impl Parts {
    /// The bits that may gate a load: from the second flop up to the acknowledgement.
    pub fn of_gates(alloc: Global, rings: &[Ring]) -> Result<Parts, NoMemory>
        ensures all { IfOk result (λ parts. IsPermutation (parts_from gate_bits 0 rings.now) parts.entries.items) }
        ensures ordered { IfOk result (λ parts. IsSorted order.ghosts.cmp parts.entries.items) }
    {
        let mut entries = Vec::new(alloc);
        for ring in 0..rings.len() {
            add_parts(gate_bits(&rings[ring]), ring, &mut entries)?;
        }
        entries.sort_unstable();
        Ok(Parts { entries })
    }

    /// The requests and the last flops back.
    pub fn of_ends(alloc: Global, rings: &[Ring]) -> Result<Parts, NoMemory>
        ensures all { IfOk result (λ parts. IsPermutation (parts_from end_bits 0 rings.now) parts.entries.items) }
        ensures ordered { IfOk result (λ parts. IsSorted order.ghosts.cmp parts.entries.items) }
    {
        let mut entries = Vec::new(alloc);
        for ring in 0..rings.len() {
            add_ends(&rings[ring], ring, &mut entries)?;
        }
        entries.sort_unstable();
        Ok(Parts { entries })
    }

    /// The rings in which one of the bits has a part, ascending.
    pub fn rings_of(&self, alloc: Global, bits: &[Bit]) -> Result<Vec<usize>, NoMemory>
        ensures { IfOk result (λ rings. IsSorted order.ghosts.cmp self.now.entries.items → (n : ℕ) → Contains rings.items n ↔ Contains (rings_among self.now.entries.items bits.now) n) }
    {
        let mut rings = Vec::new(alloc);
        for bit in bits {
            self.add_rings(*bit, &mut rings)?;
        }
        Ok(into_order(rings))
    }

    fn add_rings(&self, bit: Bit, rings: &mut Vec<usize>) -> Result<(), NoMemory>
        ensures { IfOk result (λ _. IsSorted order.ghosts.cmp self.now.entries.items → rings.new.items ≡ rings.old.items ++ rings_at self.now.entries.items bit) }
    {
        for part in parts_at(self.entries.as_slice(), bit) {
            rings.push(part.ring).map_err(|_| NoMemory)?;
        }
        Ok(())
    }
}

/// The numbers ascending, each once.
fn into_order(numbers: Vec<usize>) -> Vec<usize>
    ensures { (n : ℕ) → Contains result.items n ↔ Contains numbers.items n }
{
    let mut numbers = numbers;
    numbers.sort_unstable();
    numbers.dedup();
    numbers
}

/// The parts of a bit, among parts that are sorted.
pub fn parts_at(parts: &[Part], bit: Bit) -> &[Part]
    ensures { IsSorted order.ghosts.cmp parts.now → result.now ≡ parts_at parts.now bit }
{
    let first = parts.partition_point(|part| part.bit < bit);
    let end = parts.partition_point(|part| part.bit <= bit);
    parts.get(first..end).unwrap_or(&[])
}

/// The bits of a ring from the second flop up to the acknowledgement.
fn gate_bits(ring: &Ring) -> &[Bit]
    ensures { result.now ≡ gate_bits ring.now }
{
    let behind = ring.bits.as_slice().get(2..).unwrap_or(&[]);
    let count = (ring.ack as usize).saturating_sub(1);
    behind.get(..count).unwrap_or(behind)
}

/// Adds the parts of the ring's request and of its last flop back.
fn add_ends(ring: &Ring, number: usize, entries: &mut Vec<Part>) -> Result<(), NoMemory>
    ensures { IfOk result (λ _. entries.new.items ≡ entries.old.items ++ parts_in number (end_bits ring.now)) }
{
    let bits = ring.bits.as_slice();
    add_part(bits.first().copied(), number, entries)?;
    add_part(bits.last().copied(), number, entries)
}

fn add_part(bit: Option<Bit>, ring: usize, entries: &mut Vec<Part>) -> Result<(), NoMemory>
    ensures { IfOk result (λ _. entries.new.items ≡ entries.old.items ++ parts_in ring (bit_there bit)) }
{
    match bit {
        Some(bit) => entries.push(Part { bit, ring }).map_err(|_| NoMemory),
        None => Ok(()),
    }
}

fn add_parts(bits: &[Bit], ring: usize, entries: &mut Vec<Part>) -> Result<(), NoMemory>
    ensures { IfOk result (λ _. entries.new.items ≡ entries.old.items ++ parts_in ring bits.now) }
{
    for bit in bits {
        entries
            .push(Part { bit: *bit, ring })
            .map_err(|_| NoMemory)?;
    }
    Ok(())
}
