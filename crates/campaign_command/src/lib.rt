//! The command `campaign`: eight random runs of a netlist under its constraints, in search of a bad capture.
#![tactic(auto)]

ghost use Rattle.std.specs.Prelude.{◌≡◌, ◌≤◌, ◌^◌, length, map, MatchResult, IfOk, IfErr};
ghost use Rattle.cdc_base.specs.declared.limits.TheConstants.{MAX_CROSSINGS};
ghost use Rattle.cdc_model.specs.Found.{crossings_of};
ghost use Rattle.cdc_model.specs.Listed.{sync_entry};
ghost use Rattle.cdc_model.specs.Syncs.{syncs_of};
ghost use Rattle.obligations.specs.Judged.{CanAudit};
ghost use Rattle.command_files.specs.Endings.{HasCause, IsEndOfBoth, IsOfFiles};
ghost use Rattle.command_files.specs.Files.{Seen, max_bytes};
ghost use Rattle.command_files.specs.Statuses.{IsEnd};
ghost use Rattle.audit_command.specs.Refused.{AreTooMany};
ghost use Rattle.campaign_command.specs.Campaigns.{IsCampaignOf, IsTextOf, campaign_status, none_text};
ghost use Rattle.campaign_command.specs.Refused.{IsCampaignRefused};

pub mod laws;

use campaign::laws::found_is_capture;
use campaign::{Found, record_text, search};
use cdc_base::{Files, List, NoMemory};
use cdc_model::Sync;
use cell_graph::Net;
use command_files::{Answer, Ending, Status, or_refused, read_both};
use described_design::design_of_texts;
use domains::Domains;
use report::text::Text;
use std::alloc::Global;

/// All synchronizers of a net. Refused as the netlist where it has too many crossings.
fn synchronizers(alloc: Global, net: &Net, domains: &Domains) -> Result<List<Sync>, Ending>
    ensures of_files { IfErr result IsOfFiles }
    ensures few { CanAudit net.now domains.now → IfOk result (λ _. length (crossings_of net.now domains.now) ≤ MAX_CROSSINGS) }
    ensures all { CanAudit net.now domains.now → IfOk result (λ syncs. syncs ≡ map sync_entry (syncs_of net.now domains.now)) }
    ensures refused { CanAudit net.now domains.now → IfErr result (HasCause (λ status fault. AreTooMany net.now domains.now fault status)) }
{
    let crossings = crossings::find(alloc, net, domains);
    let crossings = or_refused(Status::Netlist, crossings)?;
    let syncs = two_flop::syncs(alloc, net, domains, crossings.as_slice())?;
    Ok(syncs)
}

/// The text where runs of so many steps show no capture.
fn none_text(alloc: Global, steps: u32) -> Result<List<u8>, NoMemory>
    ensures { IfOk result (λ text. text ≡ none_text steps) }
{
    let mut text = Text::new(alloc);
    text.add("no loose capture in 8 runs of ")?;
    text.add_number(u64::from(steps))?;
    text.add(" steps\n")?;
    Ok(text.into_list())
}

/// What a campaign of so many steps answers, by what it found: the record of the run, or that there is none.
fn told(
    alloc: Global,
    net: &Net,
    domains: &Domains,
    steps: u32,
    found: Option<Found>,
) -> Result<Answer, NoMemory>
    ensures ended { IfOk result (λ answer. IsEnd answer.status) }
    ensures status { IfOk result (λ answer. answer.status ≡ campaign_status found) }
    ensures text { IfOk result (λ answer. length domains.now.clocks ≤ 2 ^ 32 → IsTextOf net.now domains.now steps found answer.text) }
{
    match found {
        None => Ok(Answer {
            status: Status::Done,
            text: none_text(alloc, steps)?,
        }),
        Some(found) => Ok(Answer {
            status: Status::Violations,
            text: record_text(alloc, net, domains, &found.run)?,
        }),
    }
}

/// What the campaign over these texts answers, where the constraint file has this word. The first refusal counts: of the
/// design's texts, of the crossings.
fn campaign_texts(
    alloc: Global,
    steps: u32,
    seed: u32,
    word: &str,
    net: &[u8],
    con: &[u8],
) -> Result<Answer, Ending>
    requires { length net.now ≤ max_bytes }
    ensures exact { IfOk result (λ answer. IsCampaignOf steps seed word.now net.now con.now answer.status answer.text) }
    ensures refused { IfErr result (HasCause (λ status fault. IsCampaignRefused word.now net.now con.now fault status)) }
    ensures ended { MatchResult result (λ answer. IsEnd answer.status) IsOfFiles }
{
    found_is_capture();
    let design = design_of_texts(alloc, word, net, con)?;
    let (net, domains) = (&design.net, &design.domains);
    let syncs = synchronizers(alloc, net, domains)?;
    let found = search(alloc, net, domains, syncs.as_slice(), steps, seed)?;
    let answer = told(alloc, net, domains, steps, found)?;
    Ok(answer)
}

/// Reads both files and makes eight random runs of the netlist under its constraints, of so many steps each, whose words
/// the seed determines.
pub fn campaign<F: Files>(
    alloc: Global,
    files: &mut F,
    steps: u32,
    seed: u32,
    net: &str,
    con: &str,
) -> Result<Answer, Ending>
    ensures { let before : Seen = record { held = F.held files.old; asked = F.asked files.old; taken = F.taken files.old; faults = F.faults files.old } in
        let now : Seen = record { held = F.held files.new; asked = F.asked files.new; taken = F.taken files.new; faults = F.faults files.new } in
        IsEndOfBoth (IsCampaignOf steps seed con.now) (IsCampaignRefused con.now) net.now con.now before now result }
{
    let (net_text, con_text) = read_both(alloc, files, net, con)?;
    let (net_bytes, con_bytes) = (net_text.as_slice(), con_text.as_slice());
    campaign_texts(alloc, steps, seed, con, net_bytes, con_bytes)
}
