//! The command `selftest`: the audit of the generated design.
#![tactic(auto)]

ghost use Rattle.std.specs.Prelude.{◌≡◌, ◌≤◌, length, MatchResult, IfOk, IfErr};
ghost use Rattle.audit_command.specs.Refused.{AreTooMany};
ghost use Rattle.cdc_model.specs.Facts.{none_extra};
ghost use Rattle.command_files.specs.Endings.{HasCause, IsOfFiles};
ghost use Rattle.command_files.specs.Files.{max_bytes};
ghost use Rattle.command_files.specs.Statuses.{IsEnd};
ghost use Rattle.net_verdict.specs.Verdicts.{IsVerdictOn};
ghost use Rattle.obligations.specs.Judged.{CanAudit};
ghost use Rattle.selftest_command.specs.Selftests.{IsGenerated, IsGeneratedRefused, IsSelftestOf, IsSelftestRefused, generated_text, unwaived_status};

mod counts;
mod state;

use crate::counts::counts;
use crate::state::state_bits;
use cdc_base::limits::MAX_FILE_BYTES;
use cdc_base::{List, NoMemory};
use cdc_model::Verdict;
use cell_graph::Net;
use command_files::{Answer, Ending, Status, or_refused};
use described_design::{constrained, read_source};
use domains::Domains;
use generated_design::{selftest_constraints, selftest_source};
use std::alloc::Global;

/// The bytes of the generated design, as a netlist file has them. No more are kept than a file may have, which no number of
/// channels comes near.
fn generated_text(alloc: Global, channels: u32) -> Result<List<u8>, NoMemory>
    ensures is { IfOk result (λ text. text ≡ generated_text channels) }
    ensures within { IfOk result (λ text. length text ≤ max_bytes) }
{
    let source = selftest_source(alloc, channels)?;
    let text = verilog_parse::print(alloc, &source)?;
    if text.len() as u64 > MAX_FILE_BYTES {
        return Err(NoMemory);
    }
    Ok(text)
}

/// The generated design with so many channels, by way of its text.
fn generated(alloc: Global, channels: u32) -> Result<(Net, Domains), Ending>
    ensures design { IfOk result (λ made. IsGenerated channels made.0 made.1) }
    ensures refused { IfErr result (HasCause (λ status fault. IsGeneratedRefused channels fault status)) }
    ensures of_files { IfErr result IsOfFiles }
{
    let text = generated_text(alloc, channels)?;
    let source = read_source(alloc, text.as_slice())?;
    let constraints = selftest_constraints(alloc)?;
    constrained(alloc, &source, &constraints)
}

/// The verdict on a net without FIFOs and its domains. Refused as the netlist where it has too many crossings.
fn verdict_on(alloc: Global, net: &Net, domains: &Domains) -> Result<Verdict, Ending>
    ensures of_files { IfErr result IsOfFiles }
    ensures exact { CanAudit net.now domains.now → IfOk result (IsVerdictOn none_extra net.now domains.now) }
    ensures refused { CanAudit net.now domains.now → IfErr result (HasCause (λ status fault. AreTooMany net.now domains.now fault status)) }
{
    or_refused(Status::Netlist, obligations::audit(alloc, net, domains))
}

/// The status of an audit without waivers.
fn unwaived(findings: usize) -> Status
    ensures exact { result ≡ unwaived_status findings }
    ensures ended { IsEnd result }
{
    if findings == 0 {
        Status::Done
    } else {
        Status::Violations
    }
}

/// Audits the generated design with so many channels, by way of its text.
pub fn selftest(alloc: Global, channels: u32) -> Result<Answer, Ending>
    ensures exact { IfOk result (λ answer. IsSelftestOf channels answer.status answer.text) }
    ensures refused { IfErr result (HasCause (λ status fault. IsSelftestRefused channels fault status)) }
    ensures ended { MatchResult result (λ answer. IsEnd answer.status) IsOfFiles }
{
    let (net, domains) = generated(alloc, channels)?;
    let verdict = verdict_on(alloc, &net, &domains)?;
    let bits = state_bits(&net, &domains)?;
    let text = counts(alloc, channels, bits, &verdict)?;
    Ok(Answer {
        status: unwaived(verdict.findings.len()),
        text,
    })
}
