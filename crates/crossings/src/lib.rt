//! Crossings between groups of clocks, and their paths.
#![tactic(auto)]

ghost use Rattle.std.specs.Prelude.{◌≡◌, false, Some, [], ◌++◌, ◌<◌, ◌≤◌, List, length, map, option_and_then, slice_get, IfOk, IfErr};
ghost use Rattle.std.specs.List.{Contains};
ghost use Rattle.cell_graph.specs.Unfolded.{IsWellFormed};
ghost use Rattle.domains.specs.Fit.{Fit};
ghost use Rattle.domains.specs.Nets.{IsNet};
ghost use Rattle.cdc_model.specs.Found.{crossings_from, crossings_into, crossings_of};
ghost use Rattle.cdc_model.specs.Listed.{IsPathOf};
ghost use Rattle.cdc_model.specs.Nets.{HasNextCells, bit_count};
ghost use Rattle.cdc_model.specs.Tables.{ShowsNet};
ghost use Rattle.crossings.specs.Groups.{ShowsGroups};
ghost use Rattle.refusals.specs.Limits.{HasCause};
ghost use Rattle.refusals.specs.Numbers.{HasNumberIn, crossing_numbers};

pub mod paths;

use cdc_base::limits::MAX_CROSSINGS;
use cdc_base::{Bit, List, NoMemory, Stop};
use cdc_model::view::{are_apart, bits_read, next_node, plain_table, register_bits};
use cdc_model::{Below, Crossing, Marks};
use cell_graph::{Net, Node};
use cofactor::Table;
use domains::Domains;
pub use paths::Paths;
use refusals::past_limit;
use std::alloc::Global;

/// All crossings of the net, in order. Refused with E603 where there are more than the limit.
pub fn find(alloc: Global, net: &Net, domains: &Domains) -> Result<List<Crossing>, Stop>
    ensures numbered { IfErr result (HasNumberIn crossing_numbers) }
    ensures within { IfOk result (λ crossings. length crossings ≤ MAX_CROSSINGS) }
    ensures exact { IfOk result (λ crossings. IsNet net.now → HasNextCells net.now → Fit net.now domains.now →
        crossings ≡ crossings_of net.now domains.now) }
    ensures full { IfErr result (HasCause 603 (IsNet net.now → HasNextCells net.now → Fit net.now domains.now →
        MAX_CROSSINGS < length (crossings_of net.now domains.now))) }
{
    let mut plain = plain_table(alloc, net)?;
    find_with(alloc, net, domains, &mut plain)
}

/// `find` by the net's table without a cube.
pub fn find_with(
    alloc: Global,
    net: &Net,
    domains: &Domains,
    plain: &mut Table,
) -> Result<List<Crossing>, Stop>
    ensures numbered { IfErr result (HasNumberIn crossing_numbers) }
    ensures within { IfOk result (λ crossings. length crossings ≤ MAX_CROSSINGS) }
    ensures exact { IfOk result (λ crossings. IsNet net.now → HasNextCells net.now → Fit net.now domains.now → ShowsNet net.now [] plain.old →
        crossings ≡ crossings_of net.now domains.now) }
    ensures full { IfErr result (HasCause 603 (IsNet net.now → HasNextCells net.now → Fit net.now domains.now → ShowsNet net.now [] plain.old →
        MAX_CROSSINGS < length (crossings_of net.now domains.now))) }
    ensures unchanged { plain.new ≡ plain.old }
{
    let below = groups_below(alloc, net, domains)?;
    let bits = register_bits(alloc, net)?;
    let mut crossings = List::new(alloc);
    for to in bits.as_slice() {
        add_crossings_into(alloc, net, domains, &below, plain, *to, &mut crossings)?;
    }
    Ok(crossings)
}

/// Adds the crossings into one register bit.
fn add_crossings_into(
    alloc: Global,
    net: &Net,
    domains: &Domains,
    below: &Below,
    plain: &mut Table,
    to: Bit,
    crossings: &mut List<Crossing>,
) -> Result<(), Stop>
    ensures numbered { IfErr result (HasNumberIn crossing_numbers) }
    ensures added { IfOk result (λ _. IsNet net.now → HasNextCells net.now → Fit net.now domains.now → ShowsNet net.now [] plain.old →
        ShowsGroups net.now domains.now below.now → to.at < bit_count net.now.graph.signals to.sig →
        crossings.new ≡ crossings.old ++ crossings_into net.now domains.now to) }
    ensures within { length crossings.old ≤ MAX_CROSSINGS → IfOk result (λ _. length crossings.new ≤ MAX_CROSSINGS) }
    ensures full { IfErr result (HasCause 603 (IsNet net.now → HasNextCells net.now → Fit net.now domains.now → ShowsNet net.now [] plain.old →
        to.at < bit_count net.now.graph.signals to.sig → MAX_CROSSINGS < length (crossings.old ++ crossings_into net.now domains.now to))) }
    ensures unchanged { plain.new ≡ plain.old }
{
    if !may_cross(net, domains, below, to) {
        return Ok(());
    }
    let reads = bits_read(alloc, net, plain, to)?;
    add_crossings(alloc, domains, reads.as_slice(), to, crossings)
}

/// The groups of the signals below each cell.
pub fn groups_below(alloc: Global, net: &Net, domains: &Domains) -> Result<Below, NoMemory>
    ensures { IfOk result (λ below. IsWellFormed net.now.graph → ShowsGroups net.now domains.now below) }
{
    let groups = groups_of_signals(alloc, domains)?;
    Below::find(alloc, &net.graph, groups.as_slice())
}

/// The group of each signal that has a clock.
fn groups_of_signals(alloc: Global, domains: &Domains) -> Result<Vec<Option<u32>>, NoMemory>
    ensures { IfOk result (λ groups. groups.items ≡ map (λ clock. option_and_then (slice_get domains.now.group_by_clock) clock) domains.now.clock_by_sig) }
{
    let mut groups = Vec::new(alloc);
    for clock in domains.clock_by_sig.as_slice() {
        if groups.push(group_on(domains, *clock)).is_err() {
            return Err(NoMemory);
        }
    }
    Ok(groups)
}

/// The group of a clock.
fn group_on(domains: &Domains, clock: Option<u32>) -> Option<u32>
    ensures { result ≡ option_and_then (slice_get domains.now.group_by_clock) clock }
{
    match clock {
        Some(clock) => domains
            .group_by_clock
            .as_slice()
            .get(clock as usize)
            .copied(),
        None => None,
    }
}

/// Whether a signal of another group stands below the bit's next value.
pub fn may_cross(net: &Net, domains: &Domains, below: &Below, to: Bit) -> bool
    ensures { result ≡ false → IsNet net.now → HasNextCells net.now → Fit net.now domains.now → ShowsGroups net.now domains.now below.now →
        to.at < bit_count net.now.graph.signals to.sig → crossings_into net.now domains.now to ≡ [] }
{
    match next_node(net, to) {
        Some(node) => match below.of(node.cell) {
            Marks::Nothing => false,
            Marks::One(group) => is_other(domains.group_of(to), group),
            Marks::Several => true,
        },
        None => false,
    }
}

/// Whether the group may be another one than that of a bit.
fn is_other(own: Option<u32>, group: u32) -> bool
    ensures { result ≡ false → own ≡ Some group }
{
    match own {
        Some(own) => own != group,
        None => true,
    }
}

/// Adds the crossings into one register bit, of which `reads` are all that it reads.
fn add_crossings(
    alloc: Global,
    domains: &Domains,
    reads: &[Bit],
    to: Bit,
    crossings: &mut List<Crossing>,
) -> Result<(), Stop>
    ensures numbered { IfErr result (HasNumberIn crossing_numbers) }
    ensures added { IfOk result (λ _. crossings.new ≡ crossings.old ++ crossings_from domains.now to reads.now) }
    ensures within { length crossings.old ≤ MAX_CROSSINGS → IfOk result (λ _. length crossings.new ≤ MAX_CROSSINGS) }
    ensures full { IfErr result (HasCause 603 (MAX_CROSSINGS < length (crossings.old ++ crossings_from domains.now to reads.now))) }
{
    for from in reads {
        if are_apart(domains, *from, to) {
            if crossings.len() >= MAX_CROSSINGS {
                return Err(too_many(alloc));
            }
            crossings.push(Crossing { from: *from, to })?;
        }
    }
    Ok(())
}

fn too_many(alloc: Global) -> Stop
    ensures numbered { HasNumberIn crossing_numbers result }
    ensures cause { HasCause 603 (Unit {0}) result }
{
    past_limit(alloc, 603)
}

/// The path of a crossing, from the next value of its end to the node of its source. Where many paths are asked for,
/// `Paths` prepares the net once.
pub fn path(
    alloc: Global,
    net: &Net,
    domains: &Domains,
    crossing: &Crossing,
) -> Result<List<Node>, NoMemory>
    ensures { IfOk result (λ path. IsNet net.now → HasNextCells net.now → Contains (crossings_of net.now domains.now) crossing.now →
        IsPathOf net.now crossing.now.from crossing.now.to path) }
{
    let plain = plain_table(alloc, net)?;
    let mut paths = Paths::open(alloc, net)?;
    paths.path(alloc, net, &plain, crossing)
}
