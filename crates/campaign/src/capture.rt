//! Captures.
ghost use Rattle.std.specs.Prelude.{◌≡◌, ◌&&◌, true, not, All, IfOk};
ghost use Rattle.std.specs.Bool.{beq};
ghost use Rattle.std.specs.List.{find};
ghost use Rattle.cell_graph.specs.Values.{AreWordsOf, reading_of};
ghost use Rattle.settling_sim.specs.Design.{copied_in};
ghost use Rattle.settling_sim.specs.Reader.{next_with};
ghost use Rattle.settling_sim.specs.Runs.{HasCells};
ghost use Rattle.campaign.specs.Room.{HasProbe};
ghost use Rattle.campaign.specs.Torn.{shows_in, IsPair};

use crate::loose::is_torn;
use crate::probe::Probe;
use cdc_base::NoMemory;
use cdc_model::Crossing;
use settling_sim::design::Design;
use settling_sim::moment::Moment;
use settling_sim::word::value_of;
use std::alloc::Global;

/// Whether `to` ticks, `from` is loose for it, and with the other value of `from` it would take another value than it takes.
fn shows(
    alloc: Global,
    design: &Design,
    ticking: &[bool],
    moment: &Moment,
    after: &[u64],
    probe: &mut Probe,
    pair: Crossing,
) -> Result<bool, NoMemory>
    ensures room { IfOk result (λ _. HasCells design.now.net.now → HasProbe design.now.net.now probe.old → HasProbe design.now.net.now probe.new) }
    ensures shows { IfOk result (λ shown. HasCells design.now.net.now → HasProbe design.now.net.now probe.old → AreWordsOf design.now.net.now.graph.signals moment.now.words.items →
        IsPair design.now.net.now pair → shown ≡ shows_in design.now.net.now design.now.domains.now (copied_in design.now.cells.items design.now.copies) ticking.now moment.now.words.items moment.now.cycles.items after.now pair) }
{
    if !is_torn(design, ticking, moment, after, pair) {
        return Ok(false);
    }
    let before = moment.words.as_slice();
    let value = probe.next_with(alloc, design.net, before, pair.from, pair.to)?;
    Ok(value != value_of(after, pair.to))
}

/// The first of the pairs that shows a capture.
pub fn capture(
    alloc: Global,
    design: &Design,
    ticking: &[bool],
    moment: &Moment,
    after: &[u64],
    probe: &mut Probe,
    pairs: &[Crossing],
) -> Result<Option<Crossing>, NoMemory>
    ensures room { IfOk result (λ _. HasCells design.now.net.now → HasProbe design.now.net.now probe.old → HasProbe design.now.net.now probe.new) }
    ensures first { IfOk result (λ found. HasCells design.now.net.now → HasProbe design.now.net.now probe.old → AreWordsOf design.now.net.now.graph.signals moment.now.words.items →
        All (IsPair design.now.net.now) pairs.now →
        found ≡ find (shows_in design.now.net.now design.now.domains.now (copied_in design.now.cells.items design.now.copies) ticking.now moment.now.words.items moment.now.cycles.items after.now) pairs.now) }
{
    for pair in pairs {
        let shown = shows(alloc, design, ticking, moment, after, probe, *pair)?;
        if shown {
            return Ok(Some(*pair));
        }
    }
    Ok(None)
}
