//! The command `audit`: the verdict on a netlist under its constraints.
#![tactic(auto)]

ghost use Rattle.std.specs.Prelude.{◌≡◌, ◌≤◌, ◌++◌, length, is_some, MatchResult, IfOk, IfErr};
ghost use Rattle.std.specs.List.{list_all};
ghost use Rattle.obligations.specs.Judged.{CanAudit};
ghost use Rattle.command_files.specs.Endings.{HasCause, IsEndOfBoth, IsOfFiles};
ghost use Rattle.command_files.specs.Files.{Seen, max_bytes};
ghost use Rattle.command_files.specs.Statuses.{IsEnd};
ghost use Rattle.audit_command.specs.Audits.{IsAuditOf, audited_status, text_of};
ghost use Rattle.audit_command.specs.Refused.{AreTooMany, IsAuditRefused};
ghost use Rattle.net_verdict.specs.Judged.{IsJudged};
ghost use Rattle.report.specs.VerdictText.{ended};

use cdc_base::{Files, List, Name, NoMemory};
use cell_graph::Net;
use clock_constraints::Waiver;
use command_files::{Answer, Ending, Status, or_refused, read_both};
use described_design::design_of_texts;
use domains::Domains;
use net_verdict::{Judged, judge};
use report::text::Text;
use std::alloc::Global;

/// The verdict on a net with its domains and all its FIFOs. Refused as the netlist where it has too many crossings.
pub fn verdict_on(alloc: Global, net: &Net, domains: &Domains) -> Result<Judged, Ending>
    ensures of_files { IfErr result IsOfFiles }
    ensures exact { CanAudit net.now domains.now → IfOk result (IsJudged net.now domains.now) }
    ensures refused { CanAudit net.now domains.now → IfErr result (HasCause (λ status fault. AreTooMany net.now domains.now fault status)) }
{
    or_refused(Status::Netlist, judge(alloc, net, domains))
}

/// Whether a waiver sets each finding aside.
fn all_aside(aside: &[Option<u32>]) -> bool
    ensures { result ≡ list_all is_some aside.now }
{
    for waiver in aside {
        if waiver.is_none() {
            return false;
        }
    }
    true
}

/// The status of an audit with so many findings, of which these are set aside by waivers.
fn audited(findings: usize, aside: &[Option<u32>]) -> Status
    ensures exact { result ≡ audited_status findings aside.now }
    ensures ended { IsEnd result }
{
    if findings == 0 {
        Status::Done
    } else if all_aside(aside) {
        Status::Waived
    } else {
        Status::Violations
    }
}

/// Each of the lines with a line feed, and then the text.
fn with_lines(alloc: Global, lines: &[Name], text: &[u8]) -> Result<List<u8>, NoMemory>
    ensures { IfOk result (λ whole. whole ≡ ended lines.now ++ text.now) }
{
    let mut whole = Text::new(alloc);
    for line in lines {
        whole.add(line.as_str())?;
        whole.add("\n")?;
    }
    whole.add_bytes(text)?;
    Ok(whole.into_list())
}

/// The verdict in the form that was asked for, with the lines of its FIFOs.
fn verdict_text(
    alloc: Global,
    json: bool,
    net: &Net,
    domains: &Domains,
    judged: &Judged,
    waivers: &[Waiver],
    aside: &[Option<u32>],
) -> Result<List<u8>, NoMemory>
    ensures { IfOk result (λ text. text ≡ text_of json net.now domains.now judged.now.verdict judged.now.lines waivers.now aside.now) }
{
    let verdict = &judged.verdict;
    let lines = judged.lines.as_slice();
    if json {
        report::verdict_json(alloc, net, domains, verdict, waivers, aside, lines)
    } else {
        let text = report::verdict_text(alloc, net, domains, verdict, waivers, aside)?;
        with_lines(alloc, lines, text.as_slice())
    }
}

/// What the audit of these texts answers, where the constraint file has this word. The first refusal counts: of the
/// design's texts, of the crossings, of the waivers.
fn audit_texts(
    alloc: Global,
    json: bool,
    word: &str,
    net: &[u8],
    con: &[u8],
) -> Result<Answer, Ending>
    requires { length net.now ≤ max_bytes }
    ensures exact { IfOk result (λ answer. IsAuditOf json word.now net.now con.now answer.status answer.text) }
    ensures refused { IfErr result (HasCause (λ status fault. IsAuditRefused word.now net.now con.now fault status)) }
    ensures ended { MatchResult result (λ answer. IsEnd answer.status) IsOfFiles }
{
    let design = design_of_texts(alloc, word, net, con)?;
    let waivers = design.constraints.waivers.as_slice();
    let judged = verdict_on(alloc, &design.net, &design.domains)?;
    let aside = report::set_aside(
        alloc,
        &design.net,
        &design.domains,
        &judged.verdict,
        waivers,
    );
    let aside = or_refused(Status::Constraints, aside)?;
    let text = verdict_text(
        alloc,
        json,
        &design.net,
        &design.domains,
        &judged,
        waivers,
        aside.as_slice(),
    )?;
    Ok(Answer {
        status: audited(judged.verdict.findings.len(), aside.as_slice()),
        text,
    })
}

/// Reads both files and audits the netlist under its constraints.
pub fn audit<F: Files>(
    alloc: Global,
    files: &mut F,
    json: bool,
    net: &str,
    con: &str,
) -> Result<Answer, Ending>
    ensures { let before : Seen = record { held = F.held files.old; asked = F.asked files.old; taken = F.taken files.old; faults = F.faults files.old } in
        let now : Seen = record { held = F.held files.new; asked = F.asked files.new; taken = F.taken files.new; faults = F.faults files.new } in
        IsEndOfBoth (IsAuditOf json con.now) (IsAuditRefused con.now) net.now con.now before now result }
{
    let (net_text, con_text) = read_both(alloc, files, net, con)?;
    audit_texts(alloc, json, con, net_text.as_slice(), con_text.as_slice())
}
