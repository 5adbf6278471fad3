//! What a step must meet.
ghost use Rattle.std.specs.Prelude.{◌≡◌, true, All};
ghost use Rattle.cell_graph.specs.Values.{AreWordsOf, values_of};
ghost use Rattle.cdc_model.specs.Replay.{first_fault, on_list, unless, NotOther as ModelNotOther};
ghost use Rattle.settling_sim.specs.Design.{copied_in};
ghost use Rattle.settling_sim.specs.Faults.{Refuses};
ghost use Rattle.settling_sim.specs.Loose.{input_unmarked, race_unmarked, is_settling_in, is_loose_in, list_fault, race_fault_by, same_fault};
ghost use Rattle.settling_sim.specs.Reader.{next_with, HasRoom};
ghost use Rattle.settling_sim.specs.Runs.{HasCells, IsRace};

use crate::cycles::cycles_of;
use crate::design::Design;
use crate::edges::ticks;
use crate::fault::StepFault;
use crate::moment::Moment;
use crate::reader::Reader;
use crate::word::value_of;
use cdc_base::{Bit, List};
use cdc_model::view::are_apart;
use cdc_model::{Given, Race};
use cell_graph::Net;
use domains::Domains;

/// Refuses the first input whose clock doesn't tick.
pub fn check_inputs(domains: &Domains, ticking: &[bool], inputs: &[Given]) -> Result<(), StepFault>
    ensures { Refuses result (first_fault (input_unmarked domains.now ticking.now) inputs.now) }
{
    for given in inputs {
        let bit = Bit {
            sig: given.sig,
            at: 0,
        };
        if !ticks(domains, ticking, bit) {
            return Err(StepFault::Unticked(bit));
        }
    }
    Ok(())
}

/// Refuses the first race whose clock doesn't tick.
pub fn check_clocks(domains: &Domains, ticking: &[bool], races: &[Race]) -> Result<(), StepFault>
    ensures { Refuses result (first_fault (race_unmarked domains.now ticking.now) races.now) }
{
    for race in races {
        if !ticks(domains, ticking, race.bit) {
            return Err(StepFault::Unticked(race.bit));
        }
    }
    Ok(())
}

/// Whether `bit` copies `source` on its own clock, and `source` needs one cycle more, which it has had by this step.
fn is_settling(design: &Design, moment: &Moment, bit: Bit, source: Bit) -> bool
    ensures { result ≡ is_settling_in design.now.domains.now (copied_in design.now.cells.items design.now.copies) moment.now.cycles.items bit source }
{
    design.share_clock(source, bit)
        && design.copied(bit) == Some(source)
        && cycles_of(moment.cycles.as_slice(), source) == 1
}

/// Whether `bit` may sample `source` either way: it changes in another group, or it is unsettled.
fn is_loose(design: &Design, moment: &Moment, after: &[u64], bit: Bit, source: Bit) -> bool
    ensures { result ≡ is_loose_in design.now.domains.now (copied_in design.now.cells.items design.now.copies) moment.now.words.items moment.now.cycles.items after.now bit source }
{
    let before = moment.words.as_slice();
    (are_apart(design.domains, source, bit) && value_of(before, source) != value_of(after, source))
        || (cycles_of(moment.cycles.as_slice(), source) > 0
            && !is_settling(design, moment, bit, source))
}

/// Refuses the first bit of a list that isn't loose for `bit`.
fn check_list(
    design: &Design,
    moment: &Moment,
    after: &[u64],
    bit: Bit,
    list: &[Bit],
) -> Result<(), StepFault>
    ensures { Refuses result (list_fault (is_loose_in design.now.domains.now (copied_in design.now.cells.items design.now.copies) moment.now.words.items moment.now.cycles.items after.now) bit list.now) }
{
    for source in list {
        if !is_loose(design, moment, after, bit, *source) {
            return Err(StepFault::NotLoose(bit, *source));
        }
    }
    Ok(())
}

fn check_race(design: &Design, moment: &Moment, after: &[u64], race: &Race) -> Result<(), StepFault>
    ensures { Refuses result (race_fault_by (is_loose_in design.now.domains.now (copied_in design.now.cells.items design.now.copies) moment.now.words.items moment.now.cycles.items after.now) race.now) }
{
    check_list(design, moment, after, race.bit, race.flip.as_slice())?;
    match &race.other {
        Some(other) => check_list(design, moment, after, race.bit, other.as_slice()),
        None => Ok(()),
    }
}

/// Refuses the first bit of the races' lists that isn't loose, of each race the flipped ones first.
pub fn check_loose(
    design: &Design,
    moment: &Moment,
    after: &[u64],
    races: &[Race],
) -> Result<(), StepFault>
    ensures { Refuses result (first_fault (race_fault_by (is_loose_in design.now.domains.now (copied_in design.now.cells.items design.now.copies) moment.now.words.items moment.now.cycles.items after.now)) races.now) }
{
    for race in races {
        check_race(design, moment, after, race)?;
    }
    Ok(())
}

/// Whether the other bits of a race give its bit another value than it takes; true where there are none.
fn differs(net: &Net, reader: &mut Reader, before: &[u64], after: &[u64], race: &Race) -> bool
    ensures plain { reader.new.plain ≡ reader.old.plain }
    ensures room { HasRoom net.now reader.old → HasRoom net.now reader.new }
    ensures fault { HasCells net.now → HasRoom net.now reader.old → AreWordsOf net.now.graph.signals before.now →
        reader.old.plain ≡ values_of net.now.graph before.now → IsRace net.now race.now →
        same_fault (next_with net.now before.now) after.now race.now ≡ unless result (ModelNotOther race.now.bit) }
{
    match &race.other {
        Some(other) => {
            let value = reader.next_with(net, before, other.as_slice(), race.bit);
            value != value_of(after, race.bit)
        }
        None => true,
    }
}

/// Refuses the first race whose other bits give the value that its flipped bits give.
pub fn check_differing(
    net: &Net,
    reader: &mut Reader,
    before: &[u64],
    after: &[u64],
    races: &[Race],
) -> Result<(), StepFault>
    ensures room { HasRoom net.now reader.old → HasRoom net.now reader.new }
    ensures refused { HasCells net.now → HasRoom net.now reader.old → AreWordsOf net.now.graph.signals before.now →
        reader.old.plain ≡ values_of net.now.graph before.now → All (IsRace net.now) races.now →
        Refuses result (first_fault (same_fault (next_with net.now before.now) after.now) races.now) }
{
    for race in races {
        if !differs(net, reader, before, after, race) {
            return Err(StepFault::NotOther(race.bit));
        }
    }
    Ok(())
}
