//! The command `replay`: the run of a netlist that a record fixes.
#![tactic(auto)]

ghost use Rattle.std.specs.Prelude.{◌≡◌, ◌≤◌, length, IfOk, IfErr, MatchResult};
ghost use Rattle.command_files.specs.Endings.{HasCause, IsEndOfThree, IsOfFiles};
ghost use Rattle.command_files.specs.Files.{Seen, max_bytes};
ghost use Rattle.command_files.specs.Statuses.{IsEnd};
ghost use Rattle.described_design.specs.Designs.{CanReplay};
ghost use Rattle.replay_command.specs.Replays.{IsReplayDone, IsReplayOf, IsReplayRefused};

use cdc_base::{Files, List};
use cell_graph::Net;
use command_files::{Answer, Ending, Status, or_refused, read_three};
use described_design::design_of_texts;
use domains::Domains;
use std::alloc::Global;

/// The text of the run that a record's bytes fix on a net. Refused with the record's status: by the first rule that the
/// bytes break, or by E504 to E507 for the first step by which no run goes on.
fn replayed_text(
    alloc: Global,
    net: &Net,
    domains: &Domains,
    run: &[u8],
) -> Result<List<u8>, Ending>
    ensures of_files { IfErr result IsOfFiles }
    ensures exact { CanReplay net.now domains.now → IsReplayOf net.now domains.now run.now result }
{
    let record = or_refused(Status::Record, run_file::read(alloc, run, net, domains))?;
    or_refused(
        Status::Record,
        run_report::run_text(alloc, net, domains, &record),
    )
}

/// What the replay of these texts answers, where the constraint file has this word. The first refusal counts: of the
/// design's texts, of the record, of its steps.
fn replay_texts(
    alloc: Global,
    word: &str,
    net: &[u8],
    con: &[u8],
    run: &[u8],
) -> Result<Answer, Ending>
    requires { length net.now ≤ max_bytes }
    ensures exact { IfOk result (λ answer. IsReplayDone word.now net.now con.now run.now answer.status answer.text) }
    ensures refused { IfErr result (HasCause (λ status fault. IsReplayRefused word.now net.now con.now run.now fault status)) }
    ensures ended { MatchResult result (λ answer. IsEnd answer.status) IsOfFiles }
{
    let design = design_of_texts(alloc, word, net, con)?;
    let text = replayed_text(alloc, &design.net, &design.domains, run)?;
    Ok(Answer {
        status: Status::Done,
        text,
    })
}

/// Reads the three files and replays the record's run of the netlist under its constraints.
pub fn replay<F: Files>(
    alloc: Global,
    files: &mut F,
    net: &str,
    con: &str,
    run: &str,
) -> Result<Answer, Ending>
    ensures { let before : Seen = record { held = F.held files.old; asked = F.asked files.old; taken = F.taken files.old; faults = F.faults files.old } in
        let now : Seen = record { held = F.held files.new; asked = F.asked files.new; taken = F.taken files.new; faults = F.faults files.new } in
        IsEndOfThree (IsReplayDone con.now) (IsReplayRefused con.now) net.now con.now run.now before now result }
{
    let (net_text, con_text, run_text) = read_three(alloc, files, net, con, run)?;
    replay_texts(
        alloc,
        con,
        net_text.as_slice(),
        con_text.as_slice(),
        run_text.as_slice(),
    )
}
