//! Several clocked processes may drive one register: their edges are the same, and each bit is assigned by one of them.
ghost use Rattle.std.specs.Prelude.{◌≡◌, ℕ, ◌<◌, ◌==◌, ◌&&◌, ◌||◌, cond, Some, nat_eq, unwrap_or, IfOk};
ghost use Rattle.std.specs.List.{IsDistinct};
ghost use Rattle.std.specs.Option.{option_copied};
ghost use Rattle.cell_graph.specs.Tree.{bit_at};
ghost use Rattle.flat_meaning.specs.Design.{width_in};
ghost use Rattle.flat_form.specs.Masks.{bits_in, Adds, Lists};
ghost use Rattle.flat_unfolding.specs.Drivers.{drives, may_drive};
ghost use Rattle.flat_drivers.specs.Driving.{is_among};
ghost use Rattle.flat_drivers.specs.Clocked.{edges_at, is_apart, process_of, edges_of, processes_in, is_shared_bit, IsUnused, AddsProcess};

use cdc_base::{NoMemory, Signal};
use flat_form::flat::{FlatClocked, FlatReset};
use flat_form::masks::Masks;
use flat_form::uses::{add_may_assign, all_bits};
use std::alloc::Global;
use std::collections::HashMap;

/// The signals at whose edges a clocked process runs: its clock, and that of a second edge.
#[derive(Clone, Copy, PartialEq, Eq, Debug, Drop)]
struct Edges {
    clock: u32,
    second: Option<u32>,
}

/// The bits that clocked processes may assign, and those that two of them may. `edges` has those of the first process
/// that assigns a signal.
#[derive(Drop)]
struct ClockedBits {
    edges: HashMap<u32, Edges>,
    once: Masks,
    twice: Masks,
}

impl ClockedBits {
    fn new(alloc: Global) -> ClockedBits
        ensures { IsUnused result }
    {
        ClockedBits {
            edges: HashMap::new(alloc),
            once: Masks::new(alloc),
            twice: Masks::new(alloc),
        }
    }

    /// A process at these edges may assign these bits of a signal.
    fn add(&mut self, signals: &[Signal], sig: u32, mask: u64, edges: Edges) -> Result<(), NoMemory>
        ensures { IfOk result (λ _. AddsProcess (width_in signals.now) edges (λ s. s == sig) (λ s i. bit_at mask i) self.old self.new) }
    {
        let again = self.taken_bits(signals, sig, mask, edges);
        self.twice.add(sig, again)?;
        self.once.add(sig, mask)?;
        self.keep_edges(sig, edges)
    }

    /// Those of the bits that an earlier process may assign; all bits, where that process runs at other edges.
    fn taken_bits(&self, signals: &[Signal], sig: u32, mask: u64, edges: Edges) -> u64
        ensures { (i : ℕ) → i < width_in signals.now sig → i < 64
            → bit_at result i ≡ (is_apart (edges_at self.now sig) edges || (bits_in self.now.once sig i && bit_at mask i)) }
    {
        if self.is_driven_apart(sig, edges) {
            return all_bits(signals, sig);
        }
        self.once.of(sig) & mask
    }

    /// An earlier process assigns the signal at other edges.
    fn is_driven_apart(&self, sig: u32, edges: Edges) -> bool
        ensures { result ≡ is_apart (edges_at self.now sig) edges }
    {
        match self.edges.get(&sig) {
            Some(first) => *first != edges,
            None => false,
        }
    }

    /// The edges of the first process stay.
    fn keep_edges(&mut self, sig: u32, edges: Edges) -> Result<(), NoMemory>
        ensures kept { IfOk result (λ _. (s : ℕ)
            → edges_at self.new s ≡ cond (s == sig) (Some (unwrap_or (edges_at self.old sig) edges)) (edges_at self.old s)) }
        ensures bits { IfOk result (λ _. (self.new.once ≡ self.old.once) × (self.new.twice ≡ self.old.twice)) }
    {
        if self.edges.contains_key(&sig) {
            return Ok(());
        }
        match self.edges.insert(sig, edges) {
            Ok(_) => Ok(()),
            Err(_) => Err(NoMemory),
        }
    }
}

/// The bits that two clocked processes may assign, and all bits of a signal that they assign at different edges. A
/// process without an entry among the resets has no second edge and no reset.
pub fn shared_bits(
    alloc: Global,
    signals: &[Signal],
    clocked: &[FlatClocked],
    resets: &[FlatReset],
) -> Result<Masks, NoMemory>
    ensures { IfOk result (λ m. (s i : ℕ) → i < width_in signals.now s → i < 64
        → bits_in m s i ≡ is_shared_bit (width_in signals.now) (processes_in clocked.now resets.now) s i) }
{
    let mut bits = ClockedBits::new(alloc);
    for (number, process) in clocked.iter().enumerate() {
        add_process(alloc, signals, process, resets.get(number), &mut bits)?;
    }
    Ok(bits.twice)
}

fn add_process(
    alloc: Global,
    signals: &[Signal],
    process: &FlatClocked,
    reset: Option<&FlatReset>,
    bits: &mut ClockedBits,
) -> Result<(), NoMemory>
    ensures { let p = process_of process.now (option_copied reset.entry) in
        IfOk result (λ _. AddsProcess (width_in signals.now) (edges_of p) (drives p) (may_drive (width_in signals.now) p) bits.old bits.new) }
{
    let mut may = Masks::new(alloc);
    add_driven(signals, process, reset, &mut may)?;
    add_signals(
        signals,
        may.signals(),
        &may,
        read_edges(process, reset),
        bits,
    )
}

/// The bits that a process may assign, in its reset or after it.
fn add_driven(
    signals: &[Signal],
    process: &FlatClocked,
    reset: Option<&FlatReset>,
    may: &mut Masks,
) -> Result<(), NoMemory>
    ensures added { IfOk result (λ _. Adds may.old may.new (may_drive (width_in signals.now) (process_of process.now (option_copied reset.entry)))) }
    ensures listed { IfOk result (λ _. Lists may.old may.new (drives (process_of process.now (option_copied reset.entry)))) }
{
    add_may_assign(signals, &process.body, may)?;
    match reset {
        Some(reset) => add_may_assign(signals, &reset.branch, may),
        None => Ok(()),
    }
}

fn read_edges(process: &FlatClocked, reset: Option<&FlatReset>) -> Edges
    ensures { result ≡ edges_of (process_of process.now (option_copied reset.entry)) }
{
    Edges {
        clock: process.clock,
        second: reset.and_then(|reset| reset.edge),
    }
}

/// A process at these edges may assign bits of each of these signals.
fn add_signals(
    signals: &[Signal],
    assigned: &[u32],
    may: &Masks,
    edges: Edges,
    bits: &mut ClockedBits,
) -> Result<(), NoMemory>
    ensures { IsDistinct nat_eq assigned.now
        → IfOk result (λ _. AddsProcess (width_in signals.now) edges (is_among assigned.now) (bits_in may.now) bits.old bits.new) }
{
    for sig in assigned {
        bits.add(signals, *sig, may.of(*sig), edges)?;
    }
    Ok(())
}
