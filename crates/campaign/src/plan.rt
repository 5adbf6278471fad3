//! What stays in a campaign: the inputs, the settling flops, and the pairs of bits that may show a capture.
ghost use Rattle.std.specs.Prelude.{◌≡◌, ◌<◌, ◌++◌, [], All, cond, map, IfOk, List};
ghost use Rattle.cdc_base.specs.declared.bit.Bit.{Bit};
ghost use Rattle.cell_graph.specs.Values.{reading_of};
ghost use Rattle.cdc_model.specs.Listed.{sync_entry};
ghost use Rattle.cdc_model.specs.Nets.{HasNextCells, bit_count};
ghost use Rattle.cdc_model.specs.Syncs.{syncs_of};
ghost use Rattle.cdc_model.specs.Tables.{ShowsNet};
ghost use Rattle.domains.specs.Nets.{IsNet};
ghost use Rattle.settling_sim.specs.Design.{copied_in};
ghost use Rattle.campaign.specs.Plan.{copy_from, is_watched};
ghost use Rattle.campaign.specs.Planned.{flops_in, pair_if, watched_among, watched_reads, watched_in};
ghost use Rattle.campaign.specs.Run.{CanRun, IsPlan};

use crate::inputs::clocked_inputs;
use crate::marks::settling_flops;
use crate::names::by_name;
use cdc_base::{Bit, List, NoMemory};
use cdc_model::view::{are_apart, bits_read, plain_table, register_bits};
use cdc_model::{Crossing, Sync};
use cell_graph::Net;
use cofactor::Table;
use domains::Domains;
use settling_sim::design::Design;
use settling_sim::word::value_of;
use std::alloc::Global;

/// `inputs` are the clocked inputs by signal, `named` by name. `flops` are the settling flops with their sources, by bit.
/// `pairs` are the bits that register bits read that are no settling flops, by reader, then by bit: those alone that may
/// ever be loose.
#[derive(Drop)]
pub struct Plan<'a> {
    pub design: Design<'a>,
    pub inputs: List<u32>,
    pub named: Vec<u32>,
    pub flops: Vec<Crossing>,
    pub pairs: Vec<Crossing>,
}

impl<'a> Plan<'a> {
    pub fn open(
        alloc: Global,
        net: &'a Net,
        domains: &'a Domains,
        syncs: &[Sync],
    ) -> Result<Plan<'a>, NoMemory>
        ensures { IfOk result (λ plan. CanRun net.now domains.now → syncs.now ≡ map sync_entry (syncs_of net.now domains.now) →
            IsPlan net.now domains.now plan.named.items plan) }
    {
        let design = Design::open(alloc, net, domains)?;
        let bits = register_bits(alloc, net)?;
        let inputs = clocked_inputs(alloc, net, domains)?;
        let named = by_name(alloc, net, inputs.as_slice())?;
        let settling = settling_flops(alloc, net, domains, syncs)?;
        let flops = flops(alloc, &design, settling.as_slice(), bits.as_slice())?;
        let pairs = pairs(alloc, net, domains, settling.as_slice(), bits.as_slice())?;
        Ok(Plan {
            design,
            inputs,
            named,
            flops,
            pairs,
        })
    }
}

/// Adds the bit with the one that it copies, if it copies one.
fn add_flop(design: &Design, bit: Bit, flops: &mut Vec<Crossing>) -> Result<(), NoMemory>
    ensures { IfOk result (λ _. flops.new.items ≡ flops.old.items ++ copy_from bit (copied_in design.now.cells.items design.now.copies bit)) }
{
    match design.copied(bit) {
        Some(from) => flops.push(Crossing { from, to: bit }).map_err(|_| NoMemory),
        None => Ok(()),
    }
}

/// The settling flops among the bits, with the bits that they copy. `settling` masks the settling flops of each signal.
fn flops(
    alloc: Global,
    design: &Design,
    settling: &[u64],
    bits: &[Bit],
) -> Result<Vec<Crossing>, NoMemory>
    ensures { IfOk result (λ flops. flops.items ≡ flops_in (copied_in design.now.cells.items design.now.copies) (reading_of settling.now) bits.now) }
{
    let mut flops = Vec::new(alloc);
    for bit in bits {
        if value_of(settling, *bit) {
            add_flop(design, *bit, &mut flops)?;
        }
    }
    Ok(flops)
}

/// Whether the pair is one of two groups, or its source is a settling flop.
fn is_watched(domains: &Domains, settling: &[u64], pair: Crossing) -> bool
    ensures { result ≡ is_watched domains.now (reading_of settling.now) pair }
{
    are_apart(domains, pair.from, pair.to) || value_of(settling, pair.from)
}

/// Adds the pair, if it is watched.
fn add_pair(pairs: &mut Vec<Crossing>, watched: bool, pair: Crossing) -> Result<(), NoMemory>
    ensures { IfOk result (λ _. pairs.new.items ≡ pairs.old.items ++ pair_if watched pair) }
{
    if watched {
        pairs.push(pair).map_err(|_| NoMemory)
    } else {
        Ok(())
    }
}

/// Adds the bit with each of those that it reads, where the pair is watched.
fn add_pairs(
    domains: &Domains,
    settling: &[u64],
    bit: Bit,
    read: &[Bit],
    pairs: &mut Vec<Crossing>,
) -> Result<(), NoMemory>
    ensures { IfOk result (λ _. pairs.new.items ≡ pairs.old.items ++ watched_among domains.now (reading_of settling.now) bit read.now) }
{
    for from in read {
        let pair = Crossing {
            from: *from,
            to: bit,
        };
        let watched = is_watched(domains, settling, pair);
        add_pair(pairs, watched, pair)?;
    }
    Ok(())
}

/// Adds a bit that is no settling flop with each of those that it reads, where the pair is watched.
fn add_reads(
    alloc: Global,
    net: &Net,
    domains: &Domains,
    settling: &[u64],
    table: &mut Table,
    bit: Bit,
    pairs: &mut Vec<Crossing>,
) -> Result<(), NoMemory>
    ensures unchanged { table.new ≡ table.old }
    ensures added { IfOk result (λ _. IsNet net.now → HasNextCells net.now → ShowsNet net.now [] table.old → bit.at < bit_count net.now.graph.signals bit.sig →
        pairs.new.items ≡ pairs.old.items ++ cond (reading_of settling.now bit) [] (watched_reads net.now domains.now (reading_of settling.now) bit)) }
{
    if value_of(settling, bit) {
        return Ok(());
    }
    let read = bits_read(alloc, net, table, bit)?;
    add_pairs(domains, settling, bit, read.as_slice(), pairs)
}

/// What is watched of what the bits read that are no settling flops.
fn pairs(
    alloc: Global,
    net: &Net,
    domains: &Domains,
    settling: &[u64],
    bits: &[Bit],
) -> Result<Vec<Crossing>, NoMemory>
    ensures { IfOk result (λ pairs. IsNet net.now → HasNextCells net.now → All (λ (b : Bit). b.at < bit_count net.now.graph.signals b.sig) bits.now →
        pairs.items ≡ watched_in net.now domains.now (reading_of settling.now) bits.now) }
{
    let mut table = plain_table(alloc, net)?;
    let mut pairs = Vec::new(alloc);
    for bit in bits {
        add_reads(alloc, net, domains, settling, &mut table, *bit, &mut pairs)?;
    }
    Ok(pairs)
}
