//! The command `certify`: a certificate of a netlist without findings under its constraints.
#![tactic(auto)]

ghost use Rattle.std.specs.Prelude.{◌≡◌, ◌≤◌, length, IfOk, IfErr, MatchResult};
ghost use Rattle.audit_command.specs.Refused.{AreTooMany};
ghost use Rattle.command_files.specs.Endings.{HasCause, IsEndOfBoth, IsOfFiles};
ghost use Rattle.command_files.specs.Files.{Seen, max_bytes};
ghost use Rattle.command_files.specs.Statuses.{IsEnd};
ghost use Rattle.net_verdict.specs.Judged.{IsJudged};
ghost use Rattle.obligations.specs.Judged.{CanAudit};
ghost use Rattle.certify_command.specs.Certifies.{IsCertifyOf, ListsAll, IsTextOf, certified_status, none_text};
ghost use Rattle.certify_command.specs.Refused.{IsCertifyRefused};

use audit_command::verdict_on;
use cdc_base::{Files, List, NoMemory};
use cell_graph::Net;
use cert_check::laws::clean_is_certified;
use cert_text::Certificate;
use command_files::{Answer, Ending, Status, read_both};
use described_design::design_of_texts;
use domains::Domains;
use net_verdict::Judged;
use report::text::Text;
use std::alloc::Global;

/// The certificate of all synchronizers, Gray registers, rings, loads and FIFOs that the verdict on a net went by.
fn certificate_of(
    alloc: Global,
    net: &Net,
    domains: &Domains,
    judged: Judged,
) -> Result<Certificate, NoMemory>
    ensures { IfOk result (λ certificate. CanAudit net.now domains.now → (is : IsJudged net.now domains.now judged) →
        ListsAll net.now domains.now judged is certificate) }
{
    let Judged {
        verdict,
        syncs,
        counts,
        ..
    } = judged;
    let crossings = verdict.crossings.as_slice();
    let loads = mux_recirc::loads(alloc, net, domains, crossings, verdict.rings.as_slice())?;
    Ok(Certificate {
        syncs,
        grays: verdict.grays,
        rings: verdict.rings,
        loads,
        fifos: counts,
    })
}

/// The text where so many findings stand against a certificate.
fn none_text(alloc: Global, findings: usize) -> Result<List<u8>, NoMemory>
    ensures { IfOk result (λ text. text ≡ none_text findings) }
{
    let mut text = Text::new(alloc);
    text.add("no certificate: ")?;
    text.add_number(findings as u64)?;
    text.add(" findings\n")?;
    Ok(text.into_list())
}

/// The certificate of a net without findings, or how many there are.
fn text_of(
    alloc: Global,
    net: &Net,
    domains: &Domains,
    judged: Judged,
) -> Result<List<u8>, NoMemory>
    ensures { IfOk result (λ text. CanAudit net.now domains.now → (is : IsJudged net.now domains.now judged) →
        IsTextOf net.now domains.now judged is text) }
{
    let findings = judged.verdict.findings.len();
    if findings == 0 {
        let certificate = certificate_of(alloc, net, domains, judged)?;
        cert_text::write(alloc, net, &certificate)
    } else {
        none_text(alloc, findings)
    }
}

/// The status of a certificate's writing with so many findings.
fn certified(findings: usize) -> Status
    ensures exact { result ≡ certified_status findings }
    ensures ended { IsEnd result }
{
    if findings == 0 {
        Status::Done
    } else {
        Status::Violations
    }
}

/// What the writing of a certificate of these texts answers, where the constraint file has this word. The first refusal
/// counts: of the design's texts, of the crossings.
fn certify_texts(alloc: Global, word: &str, net: &[u8], con: &[u8]) -> Result<Answer, Ending>
    requires { length net.now ≤ max_bytes }
    ensures exact { IfOk result (λ answer. IsCertifyOf word.now net.now con.now answer.status answer.text) }
    ensures refused { IfErr result (HasCause (λ status fault. IsCertifyRefused word.now net.now con.now fault status)) }
    ensures ended { MatchResult result (λ answer. IsEnd answer.status) IsOfFiles }
{
    clean_is_certified();
    let design = design_of_texts(alloc, word, net, con)?;
    let judged = verdict_on(alloc, &design.net, &design.domains)?;
    let status = certified(judged.verdict.findings.len());
    let text = text_of(alloc, &design.net, &design.domains, judged)?;
    Ok(Answer { status, text })
}

/// Reads both files and writes a certificate of the netlist under its constraints.
pub fn certify<F: Files>(
    alloc: Global,
    files: &mut F,
    net: &str,
    con: &str,
) -> Result<Answer, Ending>
    ensures { let before : Seen = record { held = F.held files.old; asked = F.asked files.old; taken = F.taken files.old; faults = F.faults files.old } in
        let now : Seen = record { held = F.held files.new; asked = F.asked files.new; taken = F.taken files.new; faults = F.faults files.new } in
        IsEndOfBoth (IsCertifyOf con.now) (IsCertifyRefused con.now) net.now con.now before now result }
{
    let (net_text, con_text) = read_both(alloc, files, net, con)?;
    certify_texts(alloc, con, net_text.as_slice(), con_text.as_slice())
}
