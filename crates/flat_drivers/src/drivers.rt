//! Drivers: each bit has one at most, and each bit that is read has one.
ghost use Rattle.std.specs.Prelude.{◌≡◌, true, ℕ, Bool, ◌<◌, ◌≤◌, ◌^◌, length, map, not, ◌&&◌, ◌||◌, ◌==◌, nat_eq, nat_le, ◌+◌, All, IfOk, IfErr};
ghost use Rattle.std.specs.List.{IsDistinct};
ghost use Rattle.cdc_base.specs.declared.signal.Signal.{Signal};
ghost use Rattle.cell_graph.specs.Tree.{bit_at};
ghost use Rattle.refusals.specs.Numbers.{is_listed, HasNumberIn, unfolding_numbers};
ghost use Rattle.flat_meaning.specs.Flat.{assigns as is_assigned};
ghost use Rattle.flat_meaning.specs.Assigned.{is_within, may_assign};
ghost use Rattle.flat_meaning.specs.Design.{Flat, width_in, once, times_in, all_times_in, times_assigned, times_processed};
ghost use Rattle.flat_form.specs.View.{target_of, targets_of, stmt_of, reset_of};
ghost use Rattle.flat_form.specs.Masks.{bits_in, Adds};
ghost use Rattle.flat_unfolding.specs.Reads.{first_from};
ghost use Rattle.flat_unfolding.specs.Drivers.{assigned_by, is_clocked, all_drivers, is_from_outside, refuse_bit, refuse_first, driven_once};
ghost use Rattle.flat_drivers.specs.Clocked.{processes_in, is_shared_bit};
ghost use Rattle.flat_drivers.specs.Driving.{Counts, CountsMore, Tries, Meets, IsFinished, is_among, design_of, assigned_in, wires_in, bodies_in};

use crate::clocked::shared_bits;
use crate::reads::reads_of;
use crate::registers::registers_of;
use cdc_base::signal::bit_name;
use cdc_base::{Fault, NoMemory, SigKind, Signal, Stop};
use flat_form::bits::{bits, low_bits, lowest};
use flat_form::flat::{FStmt, FTarget, FlatAssign, FlatClocked, FlatComb, FlatReset};
use flat_form::masks::Masks;
use flat_form::uses::{add_may_assign, all_bits};
use std::alloc::Global;

/// The rules of drivers.
const TWO_DRIVERS: u16 = 309;

const UNDRIVEN: u16 = 310;

/// The bits that have a driver, and those that have two. `by_process` are the signals that a process assigns.
#[derive(Drop)]
struct Drivers {
    once: Masks,
    twice: Masks,
    by_process: Masks,
}

impl Drivers {
    fn new(alloc: Global) -> Drivers
        ensures { (wid : ℕ → ℕ) → Counts wid result (λ s i. 0) (λ s. 0) }
    {
        Drivers {
            once: Masks::new(alloc),
            twice: Masks::new(alloc),
            by_process: Masks::new(alloc),
        }
    }

    /// One more driver of these bits of a signal.
    fn add(&mut self, sig: u32, mask: u64) -> Result<(), NoMemory>
        ensures { (wid : ℕ → ℕ) → IfOk result (λ _. CountsMore wid self.old self.new (λ s i. once ((s == sig) && bit_at mask i)) (λ s. 0)) }
    {
        let again = self.once.of(sig) & mask;
        add_some(&mut self.twice, sig, again)?;
        self.once.add(sig, mask)
    }

    /// One more process that assigns a signal. Where several do, all its bits have two drivers.
    fn add_process(&mut self, signals: &[Signal], sig: u32) -> Result<(), NoMemory>
        ensures { IfOk result (λ _. CountsMore (width_in signals.now) self.old self.new (λ s i. 0) (λ s. once (s == sig))) }
    {
        let again = self.taken_bits(signals, sig);
        add_some(&mut self.twice, sig, again)?;
        self.by_process.add(sig, 1)
    }

    /// All bits of a signal that a process assigns.
    fn taken_bits(&self, signals: &[Signal], sig: u32) -> u64
        ensures { (times : ℕ → ℕ → ℕ) (processes : ℕ → ℕ) → Counts (width_in signals.now) self.now times processes
            → (i : ℕ) → i < 64 → bit_at result i ≡ (nat_le 1 (processes sig) && is_within 0 (width_in signals.now sig) i) }
    {
        if self.by_process.of(sig) == 0 {
            return 0;
        }
        all_bits(signals, sig)
    }
}

fn add_some(masks: &mut Masks, sig: u32, mask: u64) -> Result<(), NoMemory>
    ensures { IfOk result (λ _. Adds masks.old masks.new (λ s i. (s == sig) && bit_at mask i)) }
{
    if mask == 0 {
        return Ok(());
    }
    masks.add(sig, mask)
}

/// Refuses a bit with two drivers, and after that a bit that is read and has none. Registers need not be marked yet. The
/// resets stand in the order of the clocked processes.
pub fn try_drivers(
    alloc: Global,
    signals: &[Signal],
    assigns: &[FlatAssign],
    combs: &[FlatComb],
    clocked: &[FlatClocked],
    resets: &[FlatReset],
) -> Result<(), Stop>
    ensures exact { (f : Flat) → IsFinished (design_of signals.now assigns.now combs.now clocked.now) f
        → All (λ (x : Signal). x.width ≤ 64) signals.now → length signals.now ≤ 2 ^ 32
        → Meets (driven_once f (map reset_of resets.now)) result }
    ensures numbered { IfErr result (HasNumberIn unfolding_numbers) }
{
    let drivers = drivers_of(alloc, signals, assigns, combs, clocked)?;
    try_doubles(alloc, signals, clocked, resets, &drivers)?;
    let reads = reads_of(alloc, signals, assigns, combs, clocked)?;
    refuse_undriven(alloc, signals, &drivers, &reads)
}

/// Refuses a bit with two drivers, or with two clocked processes that may not drive it together.
fn try_doubles(
    alloc: Global,
    signals: &[Signal],
    clocked: &[FlatClocked],
    resets: &[FlatReset],
    drivers: &Drivers,
) -> Result<(), Stop>
    ensures exact { (double : ℕ → ℕ → Bool) → All (λ (x : Signal). x.width ≤ 64) signals.now → length signals.now ≤ 2 ^ 32
        → ((s i : ℕ) → i < width_in signals.now s → i < 64
        → (is_shared_bit (width_in signals.now) (processes_in clocked.now resets.now) s i || bits_in drivers.now.twice s i) ≡ double s i)
        → Meets (refuse_first 309 (λ s x i. double s i) 0 signals.now) result }
    ensures numbered { IfErr result (HasNumberIn unfolding_numbers) }
{
    let mut doubles = shared_bits(alloc, signals, clocked, resets)?;
    doubles.add_all(&drivers.twice)?;
    refuse_doubles(alloc, signals, &doubles)
}

/// Refuses the first of these bits.
fn refuse_doubles(alloc: Global, signals: &[Signal], doubles: &Masks) -> Result<(), Stop>
    ensures exact { (double : ℕ → ℕ → Bool) → All (λ (x : Signal). x.width ≤ 64) signals.now → length signals.now ≤ 2 ^ 32
        → ((s i : ℕ) → i < width_in signals.now s → i < 64 → bits_in doubles.now s i ≡ double s i)
        → Meets (refuse_first 309 (λ s x i. double s i) 0 signals.now) result }
    ensures numbered { IfErr result (HasNumberIn unfolding_numbers) }
{
    for (number, signal) in signals.iter().enumerate() {
        let sig = numbered(number);
        refuse_lowest(alloc, TWO_DRIVERS, signal, doubles.of(sig))?;
    }
    Ok(())
}

/// Refuses the first bit that is read and has no driver. The inputs of the top need none.
fn refuse_undriven(
    alloc: Global,
    signals: &[Signal],
    drivers: &Drivers,
    reads: &Masks,
) -> Result<(), Stop>
    ensures exact { (read : ℕ → ℕ → Bool) (times : ℕ → ℕ → ℕ) → All (λ (x : Signal). x.width ≤ 64) signals.now → length signals.now ≤ 2 ^ 32
        → ((s i : ℕ) → i < width_in signals.now s → i < 64 → bits_in drivers.now.once s i ≡ nat_le 1 (times s i))
        → ((s i : ℕ) → i < width_in signals.now s → i < 64 → bits_in reads.now s i ≡ read s i)
        → Meets (refuse_first 310 (λ s x i. not (is_from_outside x.kind) && read s i && (times s i == 0)) 0 signals.now) result }
    ensures numbered { IfErr result (HasNumberIn unfolding_numbers) }
{
    for (number, signal) in signals.iter().enumerate() {
        let sig = numbered(number);
        let undriven = undriven_bits(signal, reads.of(sig), drivers.once.of(sig));
        refuse_lowest(alloc, UNDRIVEN, signal, undriven)?;
    }
    Ok(())
}

/// The number of the signal at a place.
fn numbered(place: usize) -> u32
    ensures { place < 2 ^ 32 → result ≡ place }
{
    u32::try_from(place).unwrap_or(u32::MAX)
}

/// Those of the bits that are read that want a driver and have none.
fn undriven_bits(signal: &Signal, read: u64, driven: u64) -> u64
    ensures { (i : ℕ) → i < 64 → bit_at result i ≡ (not (is_from_outside signal.now.kind) && bit_at read i && not (bit_at driven i)) }
{
    match signal.kind {
        SigKind::Input => 0,
        SigKind::Register => read & !driven,
        SigKind::Wire => read & !driven,
    }
}

/// Refuses the lowest bit of the signal that is in a mask.
fn refuse_lowest(alloc: Global, rule: u16, signal: &Signal, mask: u64) -> Result<(), Stop>
    ensures exact { (fails : ℕ → Bool) → signal.now.width ≤ 64 → ((i : ℕ) → i < signal.now.width → bit_at mask i ≡ fails i)
        → Tries (refuse_bit rule signal.now (first_from fails 0 signal.now.width)) result }
    ensures numbered { is_listed unfolding_numbers rule ≡ true → IfErr result (HasNumberIn unfolding_numbers) }
{
    match lowest_in(signal, mask) {
        None => Ok(()),
        Some(at) => {
            let name = bit_name(alloc, signal, at)?;
            Err(Stop::Refused(Fault {
                number: rule,
                place: Some(signal.place),
                name,
            }))
        }
    }
}

/// The lowest bit of the signal that is in a mask.
fn lowest_in(signal: &Signal, mask: u64) -> Option<u8>
    ensures { (fails : ℕ → Bool) → signal.now.width ≤ 64 → ((i : ℕ) → i < signal.now.width → bit_at mask i ≡ fails i) → result ≡ first_from fails 0 signal.now.width }
{
    let bits = mask & low_bits(signal.width);
    if bits == 0 {
        return None;
    }
    Some(lowest(bits))
}

fn drivers_of(
    alloc: Global,
    signals: &[Signal],
    assigns: &[FlatAssign],
    combs: &[FlatComb],
    clocked: &[FlatClocked],
) -> Result<Drivers, NoMemory>
    ensures { let f = design_of signals.now assigns.now combs.now clocked.now in
        IfOk result (λ d. Counts (width_in signals.now) d (all_drivers f) (λ s. assigned_by f.combs s + once (is_clocked f s))) }
{
    let mut drivers = Drivers::new(alloc);
    add_assigns(signals, assigns, &mut drivers)?;
    add_wires_processes(alloc, signals, combs, &mut drivers)?;
    add_clocked_processes(alloc, signals, clocked, &mut drivers)?;
    Ok(drivers)
}

fn add_assigns(
    signals: &[Signal],
    assigns: &[FlatAssign],
    drivers: &mut Drivers,
) -> Result<(), NoMemory>
    ensures { IfOk result (λ _. CountsMore (width_in signals.now) drivers.old drivers.new (λ s i. times_assigned (width_in signals.now) s i (assigned_in assigns.now)) (λ s. 0)) }
{
    for assign in assigns {
        add_target(signals, &assign.target, drivers)?;
    }
    Ok(())
}

/// Each part of a target is driven by itself: a bit that stands in two of them has two drivers. No assignment has a
/// variable index.
#[cycle(add_target)]
fn add_target(signals: &[Signal], target: &FTarget, drivers: &mut Drivers) -> Result<(), NoMemory>
    ensures { IfOk result (λ _. CountsMore (width_in signals.now) drivers.old drivers.new (λ s i. times_in (width_in signals.now) s i (target_of target.now)) (λ s. 0)) }
{
    match target {
        FTarget::Whole { sig } => drivers.add(*sig, all_bits(signals, *sig)),
        FTarget::At { .. } => Ok(()),
        FTarget::Part { sig, at, width } => drivers.add(*sig, bits(*at, *width)),
        FTarget::Join(parts) => add_targets(signals, parts.as_slice(), drivers),
    }
}

#[cycle(add_target)]
fn add_targets(
    signals: &[Signal],
    targets: &[FTarget],
    drivers: &mut Drivers,
) -> Result<(), NoMemory>
    ensures { IfOk result (λ _. CountsMore (width_in signals.now) drivers.old drivers.new (λ s i. all_times_in (width_in signals.now) s i (targets_of (map target_of targets.now))) (λ s. 0)) }
{
    for target in targets {
        add_target(signals, target, drivers)?;
    }
    Ok(())
}

fn add_wires_processes(
    alloc: Global,
    signals: &[Signal],
    combs: &[FlatComb],
    drivers: &mut Drivers,
) -> Result<(), NoMemory>
    ensures { IfOk result (λ _. CountsMore (width_in signals.now) drivers.old drivers.new (λ s i. times_processed (width_in signals.now) s i (wires_in combs.now)) (λ s. assigned_by (wires_in combs.now) s)) }
{
    for process in combs {
        add_wires_process(alloc, signals, &process.body, drivers)?;
    }
    Ok(())
}

/// Clocked processes drive all bits of each signal that they assign, as one driver.
fn add_clocked_processes(
    alloc: Global,
    signals: &[Signal],
    clocked: &[FlatClocked],
    drivers: &mut Drivers,
) -> Result<(), NoMemory>
    ensures { IfOk result (λ _. CountsMore (width_in signals.now) drivers.old drivers.new (λ s i. once (nat_le 1 (assigned_by (bodies_in clocked.now) s))) (λ s. once (nat_le 1 (assigned_by (bodies_in clocked.now) s)))) }
{
    let registers = registers_of(alloc, signals, clocked)?;
    add_registers(signals, registers.signals(), drivers)
}

/// A process of wires drives the bits that it may assign.
fn add_wires_process(
    alloc: Global,
    signals: &[Signal],
    body: &FStmt,
    drivers: &mut Drivers,
) -> Result<(), NoMemory>
    ensures { IfOk result (λ _. CountsMore (width_in signals.now) drivers.old drivers.new (λ s i. once (may_assign (width_in signals.now) (stmt_of body.now) s i)) (λ s. once (is_assigned (stmt_of body.now) s))) }
{
    let mut may = Masks::new(alloc);
    add_may_assign(signals, body, &mut may)?;
    add_wires(signals, may.signals(), &may, drivers)
}

/// A process drives its bits of each of these signals.
fn add_wires(
    signals: &[Signal],
    assigned: &[u32],
    may: &Masks,
    drivers: &mut Drivers,
) -> Result<(), NoMemory>
    ensures { IsDistinct nat_eq assigned.now
        → IfOk result (λ _. CountsMore (width_in signals.now) drivers.old drivers.new (λ s i. once (is_among assigned.now s && bits_in may.now s i)) (λ s. once (is_among assigned.now s))) }
{
    for sig in assigned {
        drivers.add_process(signals, *sig)?;
        drivers.add(*sig, may.of(*sig))?;
    }
    Ok(())
}

/// A process drives all bits of each of these signals.
fn add_registers(
    signals: &[Signal],
    assigned: &[u32],
    drivers: &mut Drivers,
) -> Result<(), NoMemory>
    ensures { IsDistinct nat_eq assigned.now
        → IfOk result (λ _. CountsMore (width_in signals.now) drivers.old drivers.new (λ s i. once (is_among assigned.now s)) (λ s. once (is_among assigned.now s))) }
{
    for sig in assigned {
        drivers.add_process(signals, *sig)?;
        drivers.add(*sig, all_bits(signals, *sig))?;
    }
    Ok(())
}
