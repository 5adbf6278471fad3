//! FIFOs that were found, and the pairs of counts that stand for FIFOs.
ghost use Rattle.std.specs.Prelude.{◌≡◌, ◌↔◌, ◌++◌, map, Contains, IfOk};
ghost use Rattle.cdc_model.specs.declared.scheme.Crossing.{Crossing as CrossingOf};
ghost use Rattle.cdc_model.specs.Ordered.{IsAscending};
ghost use Rattle.cdc_model.specs.Verdict.{crossing_key};
ghost use Rattle.fifo_scheme.specs.declared.found.Ended.{Ended as EndedOf};
ghost use Rattle.fifo_scheme.specs.Ended.{crossing_of, ended_key, ended_of};
ghost use Rattle.fifo_scheme.specs.Entries.{IsCrossingOfOne};
ghost use Rattle.fifo_scheme.specs.Found.{is_listed, IsFoundFor, KeepsFound};
ghost use Rattle.fifo_scheme.specs.Extra.{found_cross, found_justify};

use cdc_base::{Bit, List, NoMemory};
use cdc_model::{Crossing, Extra, GrayReg, Sync};
use cell_graph::{Net, Node};
use domains::Domains;
use std::alloc::Global;
use std::marker::Model;

/// One bit of all words of a FIFO, from word 0 on, and the origin of what each of them takes. None is the zero bit.
#[derive(Debug, Drop)]
pub struct Column {
    pub words: List<Bit>,
    pub value: Option<Node>,
}

/// A FIFO between two clocks: the counter and the Gray register of the side that writes, those of the side that reads,
/// how many words it has, its columns by their words, and its readers and crossings in ascending order.
#[derive(Debug, Drop)]
pub struct Fifo {
    pub wb: u32,
    pub wg: u32,
    pub rb: u32,
    pub rg: u32,
    pub depth: u32,
    pub columns: List<Column>,
    pub readers: List<Bit>,
    pub crossings: List<Crossing>,
}

/// A counter that writes and one that reads, both by signal. The pair stands for each FIFO between them.
#[derive(Clone, Copy, PartialEq, Eq, Hash, Debug, Drop)]
pub struct FifoPair {
    pub wb: u32,
    pub rb: u32,
}

/// FIFOs of a net over listed synchronizers and Gray registers.
#[derive(Drop)]
pub struct Fifos<'a> {
    net: &'a Net,
    domains: &'a Domains,
    syncs: &'a [Sync],
    grays: &'a [GrayReg],
    fifos: List<Fifo>,
    crossings: List<Crossing>,
}

impl<'a> Model for Fifos<'a> {
    ghost use Rattle.cdc_model.specs.Ordered.{IsAscending};
    ghost use Rattle.cdc_model.specs.Verdict.{crossing_key};
    ghost use Rattle.fifo_scheme.specs.Found.{Found};

    ghost Value = { Found };

    ghost view = { λ f. record {
      net = f.net.now;
      domains = f.domains.now;
      syncs = f.syncs.now;
      grays = f.grays.now;
      fifos = f.fifos;
      crossings = f.crossings;
    } };

    ghost invariant = { λ f. IsAscending crossing_key f.crossings };
}

/// The FIFOs for which pairs stand; or the place of the first pair that stands for none.
#[derive(Drop)]
pub enum FifosOf<'a> {
    Found { fifos: Fifos<'a> },
    Missing { place: u32 },
}

impl<'a> Fifos<'a> {
    /// These FIFOs, with all their crossings.
    pub fn of(
        alloc: Global,
        net: &'a Net,
        domains: &'a Domains,
        syncs: &'a [Sync],
        grays: &'a [GrayReg],
        fifos: List<Fifo>,
    ) -> Result<Fifos<'a>, NoMemory>
        ensures given { IfOk result (λ found. (found.net ≡ net.now) × (found.domains ≡ domains.now) × (found.syncs ≡ syncs.now) × (found.grays ≡ grays.now) × (found.fifos ≡ fifos)) }
        ensures all { IfOk result (λ found. (c : CrossingOf) → Contains found.crossings c ↔ IsCrossingOfOne fifos c) }
    {
        let crossings = all_crossings(alloc, fifos.as_slice())?;
        Ok(Fifos {
            net,
            domains,
            syncs,
            grays,
            fifos,
            crossings,
        })
    }

    /// The FIFOs by their counts and Gray registers: those of the side that writes come first.
    pub fn as_slice(&self) -> &[Fifo]
        ensures { result.now ≡ self.now.fifos }
    {
        self.fifos.as_slice()
    }
}

impl<'a> Extra for Fifos<'a> {
    ghost is_extra = { λ a. is_listed a.crossings };

    ghost fits = { IsFoundFor };

    ghost keeps = { KeepsFound };

    fn covers(&self) -> &[Crossing] {
        self.crossings.as_slice()
    }

    ghost crosses = { found_cross };

    ghost justifies = { λ a d t syncs grays rings fits laws are_syncs are_grays. found_justify a d t syncs grays rings fits laws are_syncs are_grays };
}

/// A crossing that goes by its end, then by its source.
#[derive(Clone, Copy, PartialEq, Eq, PartialOrd, Ord, Debug, Drop)]
struct Ended {
    to: Bit,
    from: Bit,
}

/// All crossings of the FIFOs, each once and in order.
fn all_crossings(alloc: Global, fifos: &[Fifo]) -> Result<List<Crossing>, NoMemory>
    ensures same { IfOk result (λ crossings. (c : CrossingOf) → Contains crossings c ↔ IsCrossingOfOne fifos.now c) }
    ensures ordered { IfOk result (λ crossings. IsAscending crossing_key crossings) }
{
    let mut ended = Vec::new(alloc);
    for fifo in fifos {
        add_ended(fifo.crossings.as_slice(), &mut ended)?;
    }
    let ordered = into_order(ended);
    let crossings = listed(alloc, ordered.as_slice())?;
    Ok(crossings)
}

/// Adds the crossings.
fn add_ended(crossings: &[Crossing], ended: &mut Vec<Ended>) -> Result<(), NoMemory>
    ensures { IfOk result (λ _. ended.new.items ≡ ended.old.items ++ map ended_of crossings.now) }
{
    for crossing in crossings {
        let to = crossing.to;
        let from = crossing.from;
        ended.push(Ended { to, from }).map_err(|_| NoMemory)?;
    }
    Ok(())
}

/// The crossings in their order, each once.
fn into_order(ended: Vec<Ended>) -> Vec<Ended>
    ensures same { (e : EndedOf) → Contains result.items e ↔ Contains ended.items e }
    ensures ordered { IsAscending ended_key result.items }
{
    let mut ended = ended;
    ended.sort_unstable();
    ended.dedup();
    ended
}

fn listed(alloc: Global, ended: &[Ended]) -> Result<List<Crossing>, NoMemory>
    ensures { IfOk result (λ crossings. crossings ≡ map crossing_of ended.now) }
{
    let mut crossings = List::new(alloc);
    for crossing in ended {
        let from = crossing.from;
        let to = crossing.to;
        crossings.push(Crossing { from, to })?;
    }
    Ok(crossings)
}
