//! The command `check`: whether a certificate holds of a netlist under its constraints.
#![tactic(auto)]

ghost use Rattle.std.specs.Prelude.{◌≡◌, ◌≤◌, length, IfOk, IfErr, MatchResult};
ghost use Rattle.command_files.specs.Endings.{HasCause, IsEndOfThree, IsOfFiles};
ghost use Rattle.command_files.specs.Files.{Seen, max_bytes};
ghost use Rattle.command_files.specs.Statuses.{IsEnd};
ghost use Rattle.check_command.specs.Checks.{CanCheckText, IsCheckOf, IsCheckedText, line_of, status_of, text_of};
ghost use Rattle.check_command.specs.Refused.{IsBrokenCertificate, IsCheckRefused};

use cdc_base::{Files, List, NoMemory};
use cell_graph::Net;
use cert_check::Checked;
use command_files::{Answer, Ending, Status, or_refused, read_three};
use described_design::design_of_texts;
use domains::Domains;
use report::finding::{add_crossing, add_entry};
use report::line::Line;
use report::text::Text;
use report::verdict::add_line;
use std::alloc::Global;

/// What a check answers to the certificate that these bytes are. Refused with the record's status for the first line that
/// breaks a rule of certificates.
fn checked_on(alloc: Global, net: &Net, domains: &Domains, cert: &[u8]) -> Result<Checked, Ending>
    requires { length cert.now ≤ max_bytes }
    ensures of_files { IfErr result IsOfFiles }
    ensures exact { IfOk result (λ checked. CanCheckText net.now domains.now → IsCheckedText net.now domains.now cert.now checked) }
    ensures refused { CanCheckText net.now domains.now → IfErr result (HasCause (λ status fault. IsBrokenCertificate net.now cert.now fault status)) }
{
    let certificate = or_refused(Status::Record, cert_text::read(alloc, cert, net))?;
    let checked = cert_check::check(alloc, net, domains, &certificate)?;
    Ok(checked)
}

/// The status of a check: a certificate that holds is done.
fn status_of(checked: &Checked) -> Status
    ensures exact { result ≡ status_of checked.now }
    ensures ended { IsEnd result }
{
    match checked {
        Checked::Holds { .. } => Status::Done,
        _ => Status::Violations,
    }
}

/// The line of a check, without its line feed.
fn line_of(alloc: Global, net: &Net, domains: &Domains, checked: &Checked) -> Result<Line, NoMemory>
    ensures { IfOk result (λ line. line ≡ line_of net.now domains.now checked.now) }
{
    let mut line = Line::new(alloc);
    match checked {
        Checked::Holds { crossings } => {
            line.add("certificate holds crossings=")?;
            line.add_number(u64::from(*crossings))?;
        }
        Checked::BadItem { line: number } => {
            line.add("certificate fails: line ")?;
            line.add_number(u64::from(*number))?;
        }
        Checked::Bare { crossing } => {
            line.add("certificate fails: crossing ")?;
            add_crossing(&mut line, net, crossing.from, crossing.to)?;
        }
        Checked::Word { word, group } => {
            line.add("certificate fails: word ")?;
            add_entry(&mut line, net, domains, *word, *group)?;
        }
    }
    Ok(line)
}

/// The text of a check.
fn text_of(
    alloc: Global,
    net: &Net,
    domains: &Domains,
    checked: &Checked,
) -> Result<List<u8>, NoMemory>
    ensures { IfOk result (λ text. text ≡ text_of net.now domains.now checked.now) }
{
    let line = line_of(alloc, net, domains, checked)?;
    let mut text = Text::new(alloc);
    add_line(&mut text, &line)?;
    Ok(text.into_list())
}

/// What the check of these texts answers, where the constraint file has this word. The first refusal counts: of the
/// design's texts, of the certificate.
fn check_texts(
    alloc: Global,
    word: &str,
    net: &[u8],
    con: &[u8],
    cert: &[u8],
) -> Result<Answer, Ending>
    requires net { length net.now ≤ max_bytes }
    requires cert { length cert.now ≤ max_bytes }
    ensures exact { IfOk result (λ answer. IsCheckOf word.now net.now con.now cert.now answer.status answer.text) }
    ensures refused { IfErr result (HasCause (λ status fault. IsCheckRefused word.now net.now con.now cert.now fault status)) }
    ensures ended { MatchResult result (λ answer. IsEnd answer.status) IsOfFiles }
{
    let design = design_of_texts(alloc, word, net, con)?;
    let checked = checked_on(alloc, &design.net, &design.domains, cert)?;
    let text = text_of(alloc, &design.net, &design.domains, &checked)?;
    Ok(Answer {
        status: status_of(&checked),
        text,
    })
}

/// Reads the three files and checks the certificate of the netlist under its constraints.
pub fn check<F: Files>(
    alloc: Global,
    files: &mut F,
    net: &str,
    con: &str,
    cert: &str,
) -> Result<Answer, Ending>
    ensures { let before : Seen = record { held = F.held files.old; asked = F.asked files.old; taken = F.taken files.old; faults = F.faults files.old } in
        let now : Seen = record { held = F.held files.new; asked = F.asked files.new; taken = F.taken files.new; faults = F.faults files.new } in
        IsEndOfThree (IsCheckOf con.now) (IsCheckRefused con.now) net.now con.now cert.now before now result }
{
    let (net_text, con_text, cert_text) = read_three(alloc, files, net, con, cert)?;
    check_texts(
        alloc,
        con,
        net_text.as_slice(),
        con_text.as_slice(),
        cert_text.as_slice(),
    )
}
