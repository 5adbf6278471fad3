//! The words of the command line, read by clap.
#![tactic(auto)]

ghost use Rattle.std.specs.Prelude.{◌≡◌, ◌≢◌, [], None, Option, IfOk, IfErr, map, string_bytes, false};
ghost use Rattle.std.specs.Prelude.{codes};
ghost use Rattle.clap.specs.Words.{app_of, fault_of, subcommand_of, subcommand_rows_of, rows_of, found_of, with_subcommand};
ghost use Rattle.clap.specs.declared.builder.command.Command.TheViews.{out-Command};
ghost use Rattle.command_line.specs.Cli.{audit_app, replay_app, selftest_app, certify_app, check_app, numbered_app, campaign_app, cli_head, cli};
ghost use Rattle.command_line.specs.Cli.{page_named as named_page, page_of as asked_page, text_of, number_of, HasNumber, IsTaken};
ghost use Rattle.command_line.specs.Cli.{asked_by, asked_from, asked_of, AsksFor, HasReading, IsAccepted, IsInRange};

use clap::error::ErrorKind;
use clap::{Arg, ArgAction, ArgMatches, Command};
use std::alloc::{AllocError, Global};

/// What the words ask for. `net`, `con`, `run` and `cert` are the names of the netlist, the constraint file, the record of
/// a run and the certificate; `channels` counts the channels of the generated design, 1 to 10,000, and `steps` those of a
/// campaign, 1 to 10,000.
pub enum Request<'a> {
    Audit {
        json: bool,
        net: &'a str,
        con: &'a str,
    },
    Replay {
        net: &'a str,
        con: &'a str,
        run: &'a str,
    },
    Selftest {
        channels: u32,
    },
    Certify {
        net: &'a str,
        con: &'a str,
    },
    Check {
        net: &'a str,
        con: &'a str,
        cert: &'a str,
    },
    Campaign {
        steps: u32,
        seed: u32,
        net: &'a str,
        con: &'a str,
    },
    Show(Page),
}

/// What is shown without any file.
#[derive(Clone, Copy, PartialEq, Eq, Debug, Drop)]
pub enum Page {
    Help,
    Version,
}

/// Why there is no request: the words have no reading, or want of memory.
pub enum Refusal {
    Words,
    Memory,
}

impl From<AllocError> for Refusal {
    ghost use Rattle.std.specs.Prelude.{◌≡◌};
    ghost use Rattle.command_line.specs.declared.Refusal.TheVariants.{Memory};

    ghost from_gives = { λ _ r. r ≡ Memory };

    fn from(_error: AllocError) -> Self {
        Refusal::Memory
    }
}

fn audit_command<'a>(alloc: Global) -> Result<Command<'a>, AllocError>
    ensures { IfOk result (λ c. (app_of c ≡ audit_app) × ((out-Command c).has_globals ≡ false)) }
{
    let json = Arg::new(alloc, "json")
        .long("json")
        .action(ArgAction::SetTrue);
    let net = Arg::new(alloc, "NET").required(true);
    let con = Arg::new(alloc, "CON").required(true);
    Command::new(alloc, "audit").arg(json)?.arg(net)?.arg(con)
}

fn replay_command<'a>(alloc: Global) -> Result<Command<'a>, AllocError>
    ensures { IfOk result (λ c. (app_of c ≡ replay_app) × ((out-Command c).has_globals ≡ false)) }
{
    let net = Arg::new(alloc, "NET").required(true);
    let con = Arg::new(alloc, "CON").required(true);
    let run = Arg::new(alloc, "RUN").required(true);
    Command::new(alloc, "replay").arg(net)?.arg(con)?.arg(run)
}

fn selftest_command<'a>(alloc: Global) -> Result<Command<'a>, AllocError>
    ensures { IfOk result (λ c. (app_of c ≡ selftest_app) × ((out-Command c).has_globals ≡ false)) }
{
    let channels = Arg::new(alloc, "N")
        .required(true)
        .value_parser(clap::value_parser!(u32).range(1..=10_000));
    Command::new(alloc, "selftest").arg(channels)
}

fn certify_command<'a>(alloc: Global) -> Result<Command<'a>, AllocError>
    ensures { IfOk result (λ c. (app_of c ≡ certify_app) × ((out-Command c).has_globals ≡ false)) }
{
    let net = Arg::new(alloc, "NET").required(true);
    let con = Arg::new(alloc, "CON").required(true);
    Command::new(alloc, "certify").arg(net)?.arg(con)
}

fn check_command<'a>(alloc: Global) -> Result<Command<'a>, AllocError>
    ensures { IfOk result (λ c. (app_of c ≡ check_app) × ((out-Command c).has_globals ≡ false)) }
{
    let net = Arg::new(alloc, "NET").required(true);
    let con = Arg::new(alloc, "CON").required(true);
    let cert = Arg::new(alloc, "CERT").required(true);
    Command::new(alloc, "check").arg(net)?.arg(con)?.arg(cert)
}

/// The command of a campaign with its numbers.
fn numbered_command<'a>(alloc: Global) -> Result<Command<'a>, AllocError>
    ensures { IfOk result (λ c. (app_of c ≡ numbered_app) × ((out-Command c).has_globals ≡ false)) }
{
    let steps = Arg::new(alloc, "STEPS")
        .required(true)
        .value_parser(clap::value_parser!(u32).range(1..=10_000));
    let seed = Arg::new(alloc, "SEED")
        .required(true)
        .value_parser(clap::value_parser!(u32));
    Command::new(alloc, "campaign").arg(steps)?.arg(seed)
}

fn campaign_command<'a>(alloc: Global) -> Result<Command<'a>, AllocError>
    ensures { IfOk result (λ c. (app_of c ≡ campaign_app) × ((out-Command c).has_globals ≡ false)) }
{
    let net = Arg::new(alloc, "NET").required(true);
    let con = Arg::new(alloc, "CON").required(true);
    numbered_command(alloc)?.arg(net)?.arg(con)
}

/// The command without its subcommands.
fn bare_command<'a>(alloc: Global) -> Command<'a>
    ensures { (app_of result ≡ cli_head) × ((out-Command result).has_globals ≡ false) }
{
    Command::new(alloc, "cdcaudit")
        .no_binary_name(true)
        .subcommand_required(true)
        .disable_help_subcommand(true)
}

/// The command with one more subcommand, of which this is the shape.
fn with_command<'a>(command: Command<'a>, below: Command<'a>) -> Result<Command<'a>, AllocError>
    ensures { IfOk result (λ c. (out-Command command.entry).has_globals ≡ false → (out-Command below.entry).has_globals ≡ false
        → (app_of c ≡ with_subcommand (app_of command.entry) (app_of below.entry).top) × ((out-Command c).has_globals ≡ false)) }
{
    command.subcommand(below)
}

fn command<'a>(alloc: Global) -> Result<Command<'a>, AllocError>
    ensures { IfOk result (λ c. (app_of c ≡ cli) × ((out-Command c).has_globals ≡ false)) }
{
    let command = bare_command(alloc);
    let command = with_command(command, audit_command(alloc)?)?;
    let command = with_command(command, replay_command(alloc)?)?;
    let command = with_command(command, selftest_command(alloc)?)?;
    let command = with_command(command, certify_command(alloc)?)?;
    let command = with_command(command, check_command(alloc)?)?;
    with_command(command, campaign_command(alloc)?)
}

fn matches<'a>(alloc: Global, words: &'a [String]) -> Result<ArgMatches<'a>, Refusal>
    ensures ok { IfOk result (λ m. HasReading (map string_bytes words.now)
        × (subcommand_rows_of m ≡ subcommand_of cli (map string_bytes words.now))) }
    ensures refused { result ≡ Err Refusal.Words → ¬ HasReading (map string_bytes words.now) }
{
    match command(alloc)?.try_get_matches_from(words) {
        Ok(matches) => Ok(matches),
        Err(error) => match error.kind() {
            ErrorKind::OutOfMemory => Err(Refusal::Memory),
            _ => Err(Refusal::Words),
        },
    }
}

fn text<'a>(found: &ArgMatches<'a>, id: &str) -> &'a str
    ensures { result.now ≡ text_of id.now (rows_of (found_of found.now)) }
{
    found.get_str(id).unwrap_or("")
}

fn number(found: &ArgMatches, id: &str) -> u32
    requires { HasNumber 0 4294967295 id.now (rows_of (found_of found.now)) }
    ensures { result ≡ number_of id.now (rows_of (found_of found.now)) }
{
    found.get_one::<u32>(id).unwrap_or(0)
}

fn read_campaign<'a>(found: &ArgMatches<'a>) -> Request<'a>
    requires { IsTaken (codes "campaign") (rows_of (found_of found.now)) }
    ensures { (asked_by (codes "campaign") (rows_of (found_of found.now)) ≡ Some (asked_of result)) × IsInRange (asked_of result) }
{
    Request::Campaign {
        steps: number(found, "STEPS"),
        seed: number(found, "SEED"),
        net: text(found, "NET"),
        con: text(found, "CON"),
    }
}

fn read_request<'a>(name: &str, found: &ArgMatches<'a>) -> Request<'a>
    requires { IsTaken name.now (rows_of (found_of found.now)) }
    ensures { (asked_by name.now (rows_of (found_of found.now)) ≡ Some (asked_of result)) × IsInRange (asked_of result) }
{
    match name {
        "audit" => Request::Audit {
            json: text(found, "json") == "true",
            net: text(found, "NET"),
            con: text(found, "CON"),
        },
        "replay" => Request::Replay {
            net: text(found, "NET"),
            con: text(found, "CON"),
            run: text(found, "RUN"),
        },
        "selftest" => Request::Selftest {
            channels: number(found, "N"),
        },
        "certify" => Request::Certify {
            net: text(found, "NET"),
            con: text(found, "CON"),
        },
        "check" => Request::Check {
            net: text(found, "NET"),
            con: text(found, "CON"),
            cert: text(found, "CERT"),
        },
        _ => read_campaign(found),
    }
}

/// The request of one of the subcommands.
fn read_command<'a>(alloc: Global, words: &'a [String]) -> Result<Request<'a>, Refusal>
    ensures accepted { IfOk result (λ r. HasReading (map string_bytes words.now)
        × (asked_from None (subcommand_of cli (map string_bytes words.now)) ≡ Some (asked_of r)) × IsInRange (asked_of r)) }
    ensures refused { result ≡ Err Refusal.Words → ¬ HasReading (map string_bytes words.now) }
{
    let parsed = matches(alloc, words)?;
    match parsed.subcommand() {
        Some((name, found)) => Ok(read_request(name, found)),
        None => Err(Refusal::Words),
    }
}

fn page_named(word: &str) -> Option<Page>
    ensures { result ≡ named_page word.now }
{
    match word {
        "help" | "--help" | "-h" => Some(Page::Help),
        "version" | "--version" | "-V" => Some(Page::Version),
        _ => None,
    }
}

/// The page that a word asks for which is the only one.
fn page_of(words: &[String]) -> Option<Page>
    ensures { result ≡ asked_page (map string_bytes words.now) }
{
    match words {
        [word] => page_named(word.as_str()),
        _ => None,
    }
}

/// What the words, without the program's name, ask for. They are refused exactly where they aren't one word for a page
/// and the command's reading by clap gives no matches, memory aside.
pub fn read<'a>(alloc: Global, words: &'a [String]) -> Result<Request<'a>, Refusal>
    ensures accepted { IfOk result (λ r. AsksFor (map string_bytes words.now) (asked_of r)) }
    ensures in_range { IfOk result (λ r. IsInRange (asked_of r)) }
    ensures refused { result ≡ Err Refusal.Words → ¬ IsAccepted (map string_bytes words.now) }
{
    match page_of(words) {
        Some(page) => Ok(Request::Show(page)),
        None => read_command(alloc, words),
    }
}
