//! The record as a whole.
ghost use Rattle.std.specs.Prelude.{◌≡◌, IfOk, IfErr};
ghost use Rattle.serde_json.specs.View.{view};
ghost use Rattle.refusals.specs.Numbers.{HasNumberIn};
ghost use Rattle.run_file.specs.Numbers.{record_numbers};
ghost use Rattle.clock_constraints.specs.Refusals.{Gives};
ghost use Rattle.run_file.specs.Names.{CanRead};
ghost use Rattle.domains.specs.Nets.{IsNet};
ghost use Rattle.run_file.specs.Files.{named, record_of, FitsNet, IsMeaning, IsStopOf};
ghost use Rattle.run_file.specs.Tables.{CanName};

use crate::document::Document;
use crate::names::{start_values, steps};
use crate::refusal::{NOT_JSON, TOO_MANY_STEPS, refuse};
use crate::shape::document;
use crate::table::Names;
use cdc_base::Stop;
use cdc_base::limits::MAX_STEPS;
use cdc_model::Record;
use cell_graph::Net;
use domains::Domains;
use domains::table::bit_names;
use serde_json::Value;
use std::alloc::Global;

fn record(alloc: Global, net: &Net, domains: &Domains, document: &Document) -> Result<Record, Stop>
    ensures gives { CanRead net.now domains.now → Gives result (named net.now domains.now document.now) }
    ensures numbered { IfErr result (HasNumberIn record_numbers) }
{
    let bits = bit_names(alloc, net.graph.signals())?;
    let names = Names::open(alloc, net, domains, bits.as_slice())?;
    named_record(alloc, net, domains, &names, document)
}

/// The record that the document's names stand for.
fn named_record(
    alloc: Global,
    net: &Net,
    domains: &Domains,
    names: &Names,
    document: &Document,
) -> Result<Record, Stop>
    ensures gives { CanName net.now domains.now names.now → Gives result (named net.now domains.now document.now) }
    ensures numbered { IfErr result (HasNumberIn record_numbers) }
{
    if document.steps.len() > MAX_STEPS {
        return Err(refuse(alloc, TOO_MANY_STEPS, ""));
    }
    Ok(Record {
        start: start_values(alloc, net, domains, names, document.start.as_slice())?,
        steps: steps(alloc, net, domains, names, document.steps.as_slice())?,
    })
}

/// Reads a record: a JSON object with the array `steps` and the optional object `start`. It refuses a text that isn't
/// JSON; then one of another shape; then one with too many steps; then, by the order of the text, but names and values of
/// one object in byte order, a name that may not stand where it does, a value that is too wide, and a start value that
/// differs from a known one.
pub fn read(alloc: Global, text: &[u8], net: &Net, domains: &Domains) -> Result<Record, Stop>
    ensures ok { CanRead net.now domains.now → IfOk result (IsMeaning net.now domains.now text.now) }
    ensures fit { IsNet net.now → CanRead net.now domains.now → IfOk result (FitsNet net.now domains.now) }
    ensures numbered { IfErr result (HasNumberIn record_numbers) }
    ensures refused { CanRead net.now domains.now → IfErr result (IsStopOf net.now domains.now text.now) }
{
    let tree = match Value::from_slice(alloc, text) {
        Ok(tree) => tree,
        Err(error) if error.is_memory() => return Err(Stop::Memory),
        Err(_) => return Err(refuse(alloc, NOT_JSON, "")),
    };
    let document = document(alloc, &tree)?;
    record(alloc, net, domains, &document)
}
