//! The pages that are shown without any file.
ghost use Rattle.std.specs.Prelude.{◌≡◌, ◌++◌, map, IfOk};
ghost use Rattle.command_files.specs.declared.status.Status.TheVariants.{Done};
ghost use Rattle.audit_top.specs.Pages.{help_lines, page_text, version_lines, text_of_lines};

use cdc_base::{List, NoMemory};
use command_files::{Answer, Status};
use command_line::Page;
use std::alloc::Global;

const HELP: [&str; 30] = [
    "usage: cdcaudit COMMAND WORDS",
    "",
    "  audit [--json] NET CON       the verdict on all crossings, as text or as JSON",
    "  replay NET CON RUN           the run that a record fixes",
    "  selftest N                   audit of the generated design of N channels",
    "  certify NET CON              a certificate of a clean design",
    "  check NET CON CERT           does the certificate hold?",
    "  campaign STEPS SEED NET CON  eight random runs in search of a bad capture",
    "  help, --help, -h             this page",
    "  version, --version, -V       name and version",
    "",
    "  NET       a netlist in Verilog",
    "  CON       clock constraints in TOML, or in SDC where the word ends in .sdc",
    "  RUN       a run record in JSON",
    "  CERT      a certificate",
    "  N, STEPS  a number from 1 to 10000",
    "  SEED      a number from 0 to 4294967295",
    "",
    "status 0  clean, or done",
    "status 1  a finding without a waiver, a certificate that fails, or a capture",
    "status 2  the words are refused",
    "status 3  NET is refused",
    "status 4  CON is refused",
    "status 5  RUN or CERT is refused",
    "status 6  a file can't be read",
    "status 7  the output can't be written",
    "status 8  out of memory",
    "status 9  findings, each with a waiver",
    "",
    "Formats, schemes and the cure for each finding: the folder docs",
];

const VERSION: [&str; 1] = ["cdcaudit 1.0"];

fn add(text: &mut Vec<u8>, piece: &[u8]) -> Result<(), NoMemory>
    ensures { IfOk result (λ _. text.new.items ≡ text.old.items ++ piece.now) }
{
    match text.extend_from_slice(piece) {
        Ok(()) => Ok(()),
        Err(_) => Err(NoMemory),
    }
}

/// The lines, each ended by a line feed.
fn text_of(alloc: Global, lines: &[&str]) -> Result<List<u8>, NoMemory>
    ensures { IfOk result (λ text. text ≡ text_of_lines (map (λ line. line.now) lines.now)) }
{
    let mut text = Vec::new(alloc);
    for line in lines {
        add(&mut text, line.as_bytes())?;
        add(&mut text, b"\n")?;
    }
    Ok(List::from_vec(text))
}

fn help_text(alloc: Global) -> Result<List<u8>, NoMemory>
    ensures { IfOk result (λ text. text ≡ text_of_lines help_lines) }
{
    text_of(alloc, &HELP)
}

fn version_text(alloc: Global) -> Result<List<u8>, NoMemory>
    ensures { IfOk result (λ text. text ≡ text_of_lines version_lines) }
{
    text_of(alloc, &VERSION)
}

/// The answer to a word for a page.
pub fn show(alloc: Global, page: Page) -> Result<Answer, NoMemory>
    ensures { IfOk result (λ answer. (answer.status ≡ Done) × (answer.text ≡ page_text page)) }
{
    let text = match page {
        Page::Help => help_text(alloc)?,
        Page::Version => version_text(alloc)?,
    };
    Ok(Answer {
        status: Status::Done,
        text,
    })
}
