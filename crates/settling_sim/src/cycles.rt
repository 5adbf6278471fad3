//! The cycles that bits may still need to settle.
ghost use Rattle.std.specs.Prelude.{◌≡◌, length, set};
ghost use Rattle.settling_sim.specs.Cycles.{cycles_at, cycles_of, count_at, with_count, put_cycles, settled};

use crate::word::with_bit;
use cdc_base::Bit;
use cdc_model::view::has_bit;

/// The cycles, 0 to 3, that each bit of a signal may still need to settle: of the numbers' two binary digits, `low` has
/// the lower one of each bit and `high` the upper one.
#[derive(Clone, Copy, PartialEq, Eq, Debug, Drop)]
pub struct Cycles {
    pub low: u64,
    pub high: u64,
}

/// No bit needs any.
pub const SETTLED: Cycles = Cycles { low: 0, high: 0 };

fn count_at(cycles: Cycles, at: u8) -> u8
    ensures { result ≡ count_at cycles at }
{
    u8::from(has_bit(cycles.low, at)) + 2 * u8::from(has_bit(cycles.high, at))
}

fn with_count(cycles: Cycles, at: u8, count: u8) -> Cycles
    ensures { result ≡ with_count cycles at count }
{
    Cycles {
        low: with_bit(cycles.low, at, count % 2 == 1),
        high: with_bit(cycles.high, at, count / 2 % 2 == 1),
    }
}

fn cycles_at(cycles: &[Cycles], sig: u32) -> Cycles
    ensures { result ≡ cycles_at cycles.now sig }
{
    cycles.get(sig as usize).copied().unwrap_or(SETTLED)
}

/// The cycles of a bit.
pub fn cycles_of(cycles: &[Cycles], bit: Bit) -> u8
    ensures { result ≡ cycles_of cycles.now bit }
{
    count_at(cycles_at(cycles, bit.sig), bit.at)
}

fn put(cycles: &mut [Cycles], sig: u32, put: Cycles)
    ensures { cycles.new ≡ set cycles.old sig put }
{
    let place = sig as usize;
    if place < cycles.len() {
        cycles[place] = put;
    }
}

pub fn put_cycles(cycles: &mut [Cycles], bit: Bit, count: u8)
    ensures { cycles.new ≡ put_cycles cycles.old bit count }
{
    let counts = with_count(cycles_at(cycles, bit.sig), bit.at, count);
    put(cycles, bit.sig, counts);
}

pub fn clear_cycles(cycles: &mut [Cycles], sig: u32)
    ensures { cycles.new ≡ set cycles.old sig settled }
{
    put(cycles, sig, SETTLED);
}

/// Copies the cycles of as many signals.
pub fn copy_cycles(cycles: &mut [Cycles], from: &[Cycles])
    ensures length { length cycles.new ≡ length cycles.old }
    ensures copied { length cycles.old ≡ length from.now → cycles.new ≡ from.now }
{
    if cycles.len() == from.len() {
        cycles.copy_from_slice(from);
    }
}
