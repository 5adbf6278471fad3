//! Registers that may count or hold a Gray code.
ghost use Rattle.std.specs.Prelude.{◌≡◌, ◌↔◌, ◌<◌, ◌^◌, ℕ, true, IfOk};
ghost use Rattle.gray_pointer.specs.Registers.{is_wide, register_at, registers_among, number_code, Fits};

use cdc_base::{Bit, NoMemory, Signal};
use cell_graph::word::mask;
use cell_graph::{CellId, Net, Reg};
use domains::Domains;
use std::alloc::Global;

/// A register of 2 to 64 bits, each of which has a start value.
#[derive(Clone, Copy, Debug, Drop)]
pub struct Register {
    pub sig: u32,
    pub width: u8,
    pub clock: u32,
    pub start: u64,
    pub next: CellId,
}

/// The registers that may count or hold a Gray code, ascending.
pub fn registers(alloc: Global, net: &Net, domains: &Domains) -> Result<Vec<Register>, NoMemory>
    ensures { IfOk result (λ registers. registers.items ≡ registers_among net.now domains.now net.now.regs) }
{
    let mut registers = Vec::new(alloc);
    for reg in net.regs.as_slice() {
        if let Some(register) = register_of(net, domains, reg) {
            registers.push(register).map_err(|_| NoMemory)?;
        }
    }
    Ok(registers)
}

fn register_of(net: &Net, domains: &Domains, reg: &Reg) -> Option<Register>
    ensures { result ≡ register_at net.now domains.now reg.now }
{
    let signal = net.graph.signals().get(reg.sig as usize)?;
    let clock = domains.clock_of(Bit {
        sig: reg.sig,
        at: 0,
    })?;
    if is_wide(signal) && signal.known == mask(signal.width) {
        Some(Register {
            sig: reg.sig,
            width: signal.width,
            clock,
            start: signal.start,
            next: reg.next,
        })
    } else {
        None
    }
}

fn is_wide(signal: &Signal) -> bool
    ensures { result ≡ is_wide signal.now.width }
{
    2 <= signal.width && signal.width <= 64
}

/// Whether the second may hold the Gray code of the first: another register of its clock and width, which starts with
/// the code.
pub fn fit(count: &Register, gray: &Register) -> bool
    ensures { (result ≡ true) ↔ Fits count.now gray.now }
{
    count.sig != gray.sig
        && count.clock == gray.clock
        && count.width == gray.width
        && gray.start == gray_code(count.start)
}

/// The Gray code of a word.
pub fn gray_code(word: u64) -> u64
    ensures { result ≡ number_code word }
{
    word ^ (word >> 1)
}

/// The word that has this Gray code: each of its bits is the exclusive or of the code's bits from there on.
pub fn decoded(code: u64) -> u64
    ensures { (word : ℕ) → word < 2 ^ 64 → code ≡ number_code word → result ≡ word }
{
    let mut word = code;
    for distance in [1u32, 2, 4, 8, 16, 32] {
        word ^= word >> distance;
    }
    word
}
