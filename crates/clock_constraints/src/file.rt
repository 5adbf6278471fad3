//! The file as a whole.
ghost use Rattle.std.specs.Prelude.{◌≡◌, map, codes, option_map, option_and_then, IfOk, IfErr};
ghost use Rattle.toml.specs.Data.{get_member, as_str};
ghost use Rattle.toml.specs.View.{table_view};
ghost use Rattle.clock_constraints.specs.Refusals.{Text, Gives, Passes, required, unless};
ghost use Rattle.clock_constraints.specs.Names.{repeated, input_pins};
ghost use Rattle.clock_constraints.specs.Fit.{AreFit};
ghost use Rattle.clock_constraints.specs.Files.{document, port_names, constraints, IsMeaning, IsStopOf};

use crate::entry::InputEntry;
use crate::refusal::{self, DECLARED_TWICE, NOT_TOML, WAIVED_TWICE};
use crate::{ClockPin, Constraints, InputPin, Waiver, array, names, value};
use cdc_base::{List, Name, NoMemory, ResetPin, Stop};
use std::alloc::Global;
use toml::Table;

/// What the file says, with the clocks of its inputs by name.
#[derive(Drop)]
pub struct Document {
    pub top: Name,
    pub clocks: List<ClockPin>,
    pub inputs: List<InputEntry>,
    pub resets: List<ResetPin>,
    pub statics: List<Name>,
    pub waivers: List<Waiver>,
}

/// The name of the top.
fn top(alloc: Global, table: &Table) -> Result<Name, Stop>
    ensures { Gives result (required 402 (codes "top") (option_and_then as_str (get_member (codes "top") (table_view table.now)))) }
{
    let Some(value) = value::member(table, "top") else {
        return Err(refusal::wrong_key(alloc, "top"));
    };
    match value.as_str() {
        Some(text) => Ok(Name::from_text(alloc, text)?),
        None => Err(refusal::wrong_key(alloc, "top")),
    }
}

/// What the table says. It refuses the first wrong key: unknown keys in byte order, then the known ones, each array entry
/// by entry.
fn read_document(alloc: Global, table: &Table) -> Result<Document, Stop>
    ensures { Gives result (document (table_view table.now)) }
{
    value::check_table(
        alloc,
        table,
        &["top", "clock", "input", "reset", "static", "waive"],
    )?;
    Ok(Document {
        top: top(alloc, table)?,
        clocks: array::entries_at(alloc, table, "clock")?,
        inputs: array::entries_at(alloc, table, "input")?,
        resets: array::entries_at(alloc, table, "reset")?,
        statics: array::entries_at(alloc, table, "static")?,
        waivers: array::entries_at(alloc, table, "waive")?,
    })
}

/// The names of all ports that are declared, clocks first.
fn port_names<'a>(alloc: Global, document: &'a Document) -> Result<Vec<&'a str>, NoMemory>
    ensures { IfOk result (λ names. map (λ n. n.now) names.items ≡ port_names document.now) }
{
    let mut names = Vec::new(alloc);
    names::add_keys(&mut names, document.clocks.as_slice())?;
    names::add_keys(&mut names, document.inputs.as_slice())?;
    names::add_keys(&mut names, document.resets.as_slice())?;
    names::add_keys(&mut names, document.statics.as_slice())?;
    Ok(names)
}

/// The inputs with the places of their clocks. It refuses a port that is declared twice, then a clock that isn't.
fn inputs(alloc: Global, document: &Document) -> Result<List<InputPin>, Stop>
    ensures { Gives result (unless (repeated 404 (port_names document.now)) (input_pins document.now.clocks document.now.inputs)) }
{
    let names = port_names(alloc, document)?;
    let ports = names::distinct(alloc, DECLARED_TWICE, names.as_slice())?;
    names::input_pins(
        alloc,
        &ports,
        document.clocks.as_slice(),
        document.inputs.as_slice(),
    )
}

/// Refuses a finding that is waived twice.
fn check_waivers(alloc: Global, waivers: &[Waiver]) -> Result<(), Stop>
    ensures { Passes result (repeated 410 (map (λ w. w.finding) waivers.now)) }
{
    let mut findings = Vec::new(alloc);
    names::add_keys(&mut findings, waivers)?;
    names::distinct(alloc, WAIVED_TWICE, findings.as_slice())?;
    Ok(())
}

/// What the table says, or the first rule that it breaks.
fn constraints(alloc: Global, table: &Table) -> Result<Constraints, Stop>
    ensures { Gives result (constraints (table_view table.now)) }
{
    let document = read_document(alloc, table)?;
    let inputs = inputs(alloc, &document)?;
    check_waivers(alloc, document.waivers.as_slice())?;
    Ok(Constraints {
        top: document.top,
        clocks: document.clocks,
        inputs,
        resets: document.resets,
        statics: document.statics,
        waivers: document.waivers,
    })
}

/// Reads a constraint file: a TOML document with the string `top` and the optional arrays of tables `clock`, `input`,
/// `reset`, `static` and `waive`. It refuses a text that isn't TOML; then the first wrong key; then a port that is declared
/// twice, clocks first, then inputs, resets and statics; then an input whose clock isn't declared; then a finding that is
/// waived twice.
pub fn read(alloc: Global, text: &[u8]) -> Result<Constraints, Stop>
    ensures ok { IfOk result (IsMeaning text.now) }
    ensures fit { IfOk result AreFit }
    ensures refused { IfErr result (IsStopOf text.now) }
{
    let table = match toml::table_from_slice(alloc, text) {
        Ok(table) => table,
        Err(error) if error.is_memory() => return Err(Stop::Memory),
        Err(_) => return Err(refusal::refuse(alloc, NOT_TOML, "")),
    };
    constraints(alloc, &table)
}
