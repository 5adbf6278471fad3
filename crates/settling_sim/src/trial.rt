//! Where a step leads.
ghost use Rattle.std.specs.Prelude.{◌≡◌, false, length, replicate, All, IfOk};
ghost use Rattle.cell_graph.specs.Values.{AreWordsOf, values_of};
ghost use Rattle.settling_sim.specs.Design.{copied_in};
ghost use Rattle.settling_sim.specs.Edges.{mark_in};
ghost use Rattle.settling_sim.specs.Loose.{needed_by};
ghost use Rattle.settling_sim.specs.Reader.{next_with, HasRoom};
ghost use Rattle.settling_sim.specs.Runs.{HasCells, HasTrial, IsRace};
ghost use Rattle.settling_sim.specs.Trial.{register_ticks, take_next, take_races, tried_words, settle, unsettle, tried_cycles};

use crate::cycles::{Cycles, clear_cycles, copy_cycles, cycles_of, put_cycles};
use crate::design::Design;
use crate::edges::{mark, ticks};
use crate::moment::{Moment, settled, take_given, zeros};
use crate::reader::Reader;
use crate::word::{copy_words, put_bit, put_word};
use cdc_base::{Bit, NoMemory};
use cdc_model::view::settle_of;
use cdc_model::{Given, Race};
use cell_graph::{Net, Values};
use domains::Domains;
use std::alloc::Global;

/// All room that a step needs: which clocks tick, the words and the cycles after the step, and values of cells.
#[derive(Drop)]
pub struct Trial {
    pub ticking: Vec<bool>,
    pub words: Vec<u64>,
    pub cycles: Vec<Cycles>,
    pub reader: Reader,
}

impl Trial {
    pub fn open(alloc: Global, net: &Net, domains: &Domains) -> Result<Trial, NoMemory>
        ensures { IfOk result (HasTrial net.now domains.now) }
    {
        let count = net.graph.signals().len();
        Ok(Trial {
            ticking: still(alloc, domains.clocks.len())?,
            words: zeros(alloc, count)?,
            cycles: settled(alloc, count)?,
            reader: Reader::open(alloc, net)?,
        })
    }

    /// Marks the clocks of the edges.
    pub fn mark(&mut self, edges: &[u32])
        ensures ticking { self.new.ticking.items ≡ mark_in (replicate (length self.old.ticking.items) false) edges.now }
        ensures words { self.new.words ≡ self.old.words }
        ensures cycles { self.new.cycles ≡ self.old.cycles }
        ensures reader { self.new.reader ≡ self.old.reader }
    {
        mark(&mut self.ticking, edges);
    }
}

fn still(alloc: Global, count: usize) -> Result<Vec<bool>, NoMemory>
    ensures { IfOk result (λ ticking. length ticking.items ≡ count) }
{
    match vec![in alloc; false; count] {
        Ok(ticking) => Ok(ticking),
        Err(_) => Err(NoMemory),
    }
}

/// Whether the register with this signal has a ticking clock.
fn register_ticks(domains: &Domains, ticking: &[bool], sig: u32) -> bool
    ensures { result ≡ register_ticks domains.now ticking.now sig }
{
    ticks(domains, ticking, Bit { sig, at: 0 })
}

/// Sets the words of registers with a ticking clock to their next values.
fn take_next(design: &Design, ticking: &[bool], values: &Values, words: &mut [u64])
    ensures { words.new ≡ take_next design.now.domains.now ticking.now values.now design.now.net.now.regs words.old }
{
    for reg in design.net.regs.as_slice() {
        if register_ticks(design.domains, ticking, reg.sig) {
            put_word(words, reg.sig, values.value(reg.next));
        }
    }
}

/// Sets each racing bit to what it takes where the bits that its race flips have their other value.
fn take_races(net: &Net, reader: &mut Reader, before: &[u64], races: &[Race], words: &mut [u64])
    ensures plain { reader.new.plain ≡ reader.old.plain }
    ensures room { HasRoom net.now reader.old → HasRoom net.now reader.new }
    ensures taken { HasCells net.now → HasRoom net.now reader.old → AreWordsOf net.now.graph.signals before.now →
        reader.old.plain ≡ values_of net.now.graph before.now → All (IsRace net.now) races.now →
        words.new ≡ take_races (next_with net.now before.now) races.now words.old }
{
    for race in races {
        let value = reader.next_with(net, before, race.flip.as_slice(), race.bit);
        put_bit(words, race.bit, value);
    }
}

/// The words after a step with these inputs and races, whether what the races flip is loose or not.
pub fn try_words(
    design: &Design,
    before: &[u64],
    trial: &mut Trial,
    inputs: &[Given],
    races: &[Race],
)
    ensures ticking { trial.new.ticking ≡ trial.old.ticking }
    ensures length { length trial.new.words.items ≡ length trial.old.words.items }
    ensures cycles { trial.new.cycles ≡ trial.old.cycles }
    ensures room { HasRoom design.now.net.now trial.old.reader → HasRoom design.now.net.now trial.new.reader }
    ensures plain { HasCells design.now.net.now → AreWordsOf design.now.net.now.graph.signals before.now → HasRoom design.now.net.now trial.old.reader →
        trial.new.reader.plain ≡ values_of design.now.net.now.graph before.now }
    ensures words { HasCells design.now.net.now → AreWordsOf design.now.net.now.graph.signals before.now → HasRoom design.now.net.now trial.old.reader →
        length trial.old.words.items ≡ length before.now → All (IsRace design.now.net.now) races.now →
        trial.new.words.items ≡ tried_words design.now.net.now design.now.domains.now trial.old.ticking.items before.now inputs.now races.now }
{
    trial.reader.plain.fill(&design.net.graph, before);
    copy_words(&mut trial.words, before);
    take_next(
        design,
        &trial.ticking,
        &trial.reader.plain,
        &mut trial.words,
    );
    take_given(inputs, &mut trial.words);
    take_races(
        design.net,
        &mut trial.reader,
        before,
        races,
        &mut trial.words,
    );
}

/// The cycles that an unsettled bit needs: one less than the bit that it copies on its own clock, or else all of its
/// clock's.
fn cycles_needed(design: &Design, before: &[Cycles], bit: Bit) -> u8
    ensures { result ≡ needed_by design.now.domains.now before.now bit (copied_in design.now.cells.items design.now.copies bit) }
{
    match design.copied(bit) {
        Some(source) if design.share_clock(source, bit) => {
            cycles_of(before, source).saturating_sub(1)
        }
        _ => settle_of(design.domains, bit),
    }
}

fn settle(design: &Design, ticking: &[bool], cycles: &mut [Cycles])
    ensures { cycles.new ≡ settle design.now.domains.now ticking.now design.now.net.now.regs cycles.old }
{
    for reg in design.net.regs.as_slice() {
        if register_ticks(design.domains, ticking, reg.sig) {
            clear_cycles(cycles, reg.sig);
        }
    }
}

fn unsettle(design: &Design, before: &[Cycles], races: &[Race], cycles: &mut [Cycles])
    ensures { cycles.new ≡ unsettle (λ x. needed_by design.now.domains.now before.now x (copied_in design.now.cells.items design.now.copies x)) races.now cycles.old }
{
    for race in races {
        if race.other.is_some() {
            put_cycles(cycles, race.bit, cycles_needed(design, before, race.bit));
        }
    }
}

/// The cycles after the step: of ticking bits, those alone need any whose race has other bits.
pub fn try_cycles(design: &Design, moment: &Moment, trial: &mut Trial, races: &[Race])
    ensures ticking { trial.new.ticking ≡ trial.old.ticking }
    ensures words { trial.new.words ≡ trial.old.words }
    ensures reader { trial.new.reader ≡ trial.old.reader }
    ensures length { length trial.new.cycles.items ≡ length trial.old.cycles.items }
    ensures cycles { length trial.old.cycles.items ≡ length moment.now.cycles.items →
        trial.new.cycles.items ≡ tried_cycles design.now.domains.now (copied_in design.now.cells.items design.now.copies) trial.old.ticking.items design.now.net.now.regs races.now moment.now.cycles.items }
{
    copy_cycles(&mut trial.cycles, moment.cycles.as_slice());
    settle(design, &trial.ticking, &mut trial.cycles);
    unsettle(design, moment.cycles.as_slice(), races, &mut trial.cycles);
}
