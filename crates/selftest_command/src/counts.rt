//! The line of a selftest.
ghost use Rattle.std.specs.Prelude.{◌≡◌, codes, IfOk};
ghost use Rattle.selftest_command.specs.Counts.{counts_line, counts_text, violations_text};

use cdc_base::{List, NoMemory};
use cdc_model::Verdict;
use std::alloc::Global;

/// The line of a design without a finding.
fn clean_line(
    alloc: Global,
    channels: u32,
    bits: u64,
    crossings: usize,
    rings: usize,
) -> Result<List<u8>, NoMemory>
    ensures { IfOk result (λ line. line ≡ counts_text channels bits crossings rings (codes " clean\n")) }
{
    match format!(in alloc;
        "selftest channels={channels} bits={bits} crossings={crossings} rings={rings} clean\n"
    ) {
        Ok(line) => Ok(List::from_vec(line.into_bytes())),
        Err(_) => Err(NoMemory),
    }
}

/// The line of a design with so many findings.
fn found_line(
    alloc: Global,
    channels: u32,
    bits: u64,
    crossings: usize,
    rings: usize,
    findings: usize,
) -> Result<List<u8>, NoMemory>
    ensures { IfOk result (λ line. line ≡ counts_text channels bits crossings rings (violations_text findings)) }
{
    match format!(in alloc;
        "selftest channels={channels} bits={bits} crossings={crossings} rings={rings} violations={findings}\n"
    ) {
        Ok(line) => Ok(List::from_vec(line.into_bytes())),
        Err(_) => Err(NoMemory),
    }
}

/// The line of a selftest of so many channels with so many bits of state.
pub fn counts(
    alloc: Global,
    channels: u32,
    bits: u64,
    verdict: &Verdict,
) -> Result<List<u8>, NoMemory>
    ensures { IfOk result (λ line. line ≡ counts_line channels bits verdict.now) }
{
    let crossings = verdict.crossings.len();
    let rings = verdict.rings.len();
    let findings = verdict.findings.len();
    if findings == 0 {
        clean_line(alloc, channels, bits, crossings, rings)
    } else {
        found_line(alloc, channels, bits, crossings, rings, findings)
    }
}
