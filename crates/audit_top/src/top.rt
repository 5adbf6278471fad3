//! The program over any files and any output.
ghost use Rattle.std.specs.Prelude.{◌≡◌, [], map, string_bytes, IfOk};
ghost use Rattle.std.specs.Prelude.{List};
ghost use Rattle.command_line.specs.Cli.{AsksFor, asked_of, named_files};
ghost use Rattle.command_files.specs.Files.{Seen, Text, AskedInOrder};
ghost use Rattle.audit_top.specs.Runs.{Output, AsksByWords, IsAnswer, IsRun, IsUsage};

use crate::output::write_lines;
use crate::page;
use audit_command::audit;
use campaign_command::campaign;
use cdc_base::{Files, List, NoMemory, Sink, SinkFault};
use certify_command::certify;
use check_command::check;
use command_files::{Answer, Status, answer_of};
use command_line::{Refusal, Request};
use replay_command::replay;
use selftest_command::selftest;
use std::alloc::Global;

const USAGE: &str =
    "usage: cdcaudit audit [--json] NET CON | replay NET CON RUN | selftest N | certify NET CON | check NET CON CERT | campaign STEPS SEED NET CON | help\n";

fn usage(alloc: Global) -> Result<Answer, NoMemory>
    ensures { IfOk result IsUsage }
{
    match Vec::from_slice(alloc, USAGE.as_bytes()) {
        Ok(text) => Ok(Answer {
            status: Status::Usage,
            text: List::from_vec(text),
        }),
        Err(_) => Err(NoMemory),
    }
}

/// What is asked for is answered.
fn answer_request<F: Files>(
    alloc: Global,
    request: Request,
    files: &mut F,
) -> Result<Answer, NoMemory>
    ensures asks { let before : Seen = record { held = F.held files.old; asked = F.asked files.old; taken = F.taken files.old; faults = F.faults files.old } in
        let now : Seen = record { held = F.held files.new; asked = F.asked files.new; taken = F.taken files.new; faults = F.faults files.new } in
        AskedInOrder (named_files (asked_of request.entry)) before now }
    ensures answered { let before : Seen = record { held = F.held files.old; asked = F.asked files.old; taken = F.taken files.old; faults = F.faults files.old } in
        let now : Seen = record { held = F.held files.new; asked = F.asked files.new; taken = F.taken files.new; faults = F.faults files.new } in
        (words : List Text) → AsksFor words (asked_of request.entry) → IfOk result (λ a. IsAnswer words before now a.status a.text) }
{
    match request {
        Request::Audit { json, net, con } => answer_of(alloc, audit(alloc, files, json, net, con)),
        Request::Replay { net, con, run } => answer_of(alloc, replay(alloc, files, net, con, run)),
        Request::Selftest { channels } => answer_of(alloc, selftest(alloc, channels)),
        Request::Certify { net, con } => answer_of(alloc, certify(alloc, files, net, con)),
        Request::Check { net, con, cert } => answer_of(alloc, check(alloc, files, net, con, cert)),
        Request::Campaign {
            steps,
            seed,
            net,
            con,
        } => answer_of(alloc, campaign(alloc, files, steps, seed, net, con)),
        Request::Show(page) => page::show(alloc, page),
    }
}

/// What the words are answered.
fn answer<F: Files>(alloc: Global, words: &[String], files: &mut F) -> Result<Answer, NoMemory>
    ensures asks { let before : Seen = record { held = F.held files.old; asked = F.asked files.old; taken = F.taken files.old; faults = F.faults files.old } in
        let now : Seen = record { held = F.held files.new; asked = F.asked files.new; taken = F.taken files.new; faults = F.faults files.new } in
        AsksByWords (map string_bytes words.now) before now }
    ensures answered { let before : Seen = record { held = F.held files.old; asked = F.asked files.old; taken = F.taken files.old; faults = F.faults files.old } in
        let now : Seen = record { held = F.held files.new; asked = F.asked files.new; taken = F.taken files.new; faults = F.faults files.new } in
        IfOk result (λ a. IsAnswer (map string_bytes words.now) before now a.status a.text) }
{
    match command_line::read(alloc, words) {
        Ok(request) => answer_request(alloc, request, files),
        Err(Refusal::Words) => usage(alloc),
        Err(Refusal::Memory) => Err(NoMemory),
    }
}

/// Does what the words, without the program's name, ask: reads the files that they name, makes the whole text, and then
/// writes it line by line.
pub fn run<F: Files, S: Sink>(alloc: Global, words: &[String], files: &mut F, out: &mut S) -> Status
    ensures { let before : Seen = record { held = F.held files.old; asked = F.asked files.old; taken = F.taken files.old; faults = F.faults files.old } in
        let now : Seen = record { held = F.held files.new; asked = F.asked files.new; taken = F.taken files.new; faults = F.faults files.new } in
        let out_before : Output = record { written = S.written out.old; faults = S.faults out.old } in
        let out_now : Output = record { written = S.written out.new; faults = S.faults out.new } in
        IsRun (map string_bytes words.now) before now out_before out_now result }
{
    let Ok(answer) = answer(alloc, words, files) else {
        return Status::Memory;
    };
    match write_lines(out, answer.text.as_slice()) {
        Ok(()) => answer.status,
        Err(SinkFault::Failed) => Status::WriteFault,
        Err(SinkFault::Memory) => Status::Memory,
    }
}
