//! Bits that a register bit may sample either way, and the choices of settling flops.
ghost use Rattle.std.specs.Prelude.{◌≡◌, ◌++◌, ◌&&◌, cond, [], IfOk};
ghost use Rattle.cdc_model.specs.declared.scheme.Crossing.{Crossing};
ghost use Rattle.domains.specs.Assignment.{clock_of};
ghost use Rattle.settling_sim.specs.Design.{copied_in};
ghost use Rattle.settling_sim.specs.Edges.{is_marked};
ghost use Rattle.settling_sim.specs.Loose.{is_settling_in, is_loose_in};
ghost use Rattle.campaign.specs.Draws.{behind};
ghost use Rattle.campaign.specs.Torn.{is_torn_in};
ghost use Rattle.campaign.specs.Tested.{behind_passing, toss_if, tosses_of, put_tosses};

use crate::draws::draw;
use crate::toss::Toss;
use cdc_base::{Bit, List, NoMemory};
use cdc_model::Crossing;
use cdc_model::view::{are_apart, has_bit};
use rand_xoshiro::Xoshiro256PlusPlus;
use settling_sim::cycles::cycles_of;
use settling_sim::design::Design;
use settling_sim::edges::ticks;
use settling_sim::moment::Moment;
use settling_sim::word::{put_bit, value_of};
use std::alloc::Global;

/// Whether `bit` may sample `source` either way: it changes in another group, or it is unsettled.
fn is_loose(design: &Design, moment: &Moment, after: &[u64], bit: Bit, source: Bit) -> bool
    ensures { result ≡ is_loose_in design.now.domains.now (copied_in design.now.cells.items design.now.copies) moment.now.words.items moment.now.cycles.items after.now bit source }
{
    let before = moment.words.as_slice();
    (value_of(before, source) != value_of(after, source) && are_apart(design.domains, source, bit))
        || (cycles_of(moment.cycles.as_slice(), source) > 0
            && !is_settling(design, moment, bit, source))
}

/// Whether `bit` copies `source` on its own clock, and `source` needs one cycle more, which it has had by this step.
fn is_settling(design: &Design, moment: &Moment, bit: Bit, source: Bit) -> bool
    ensures { result ≡ is_settling_in design.now.domains.now (copied_in design.now.cells.items design.now.copies) moment.now.cycles.items bit source }
{
    design.share_clock(source, bit)
        && design.copied(bit) == Some(source)
        && cycles_of(moment.cycles.as_slice(), source) == 1
}

/// Whether `to` ticks and may sample `from` either way. Each run asks it of every pair in each step, so it stands within
/// the loops.
#[inline(always)]
pub fn is_torn(
    design: &Design,
    ticking: &[bool],
    moment: &Moment,
    after: &[u64],
    pair: Crossing,
) -> bool
    ensures { result ≡ is_torn_in design.now.domains.now (copied_in design.now.cells.items design.now.copies) ticking.now moment.now.words.items moment.now.cycles.items after.now pair }
{
    ticks(design.domains, ticking, pair.to) && is_loose(design, moment, after, pair.to, pair.from)
}

/// Draws the choice of a settling flop, if it is torn.
fn draw_toss(
    rng: &mut Xoshiro256PlusPlus,
    tosses: &mut List<Toss>,
    torn: bool,
    flop: Crossing,
) -> Result<(), NoMemory>
    ensures rng { IfOk result (λ _. rng.new ≡ cond torn (behind rng.old) rng.old) }
    ensures tosses { IfOk result (λ _. tosses.new ≡ tosses.old ++ toss_if torn rng.old flop) }
{
    if !torn {
        return Ok(());
    }
    tosses.push(Toss {
        flop: flop.to,
        source: flop.from,
        other: has_bit(draw(rng), 0),
    })
}

/// The choices of the settling flops that are torn.
pub fn draw_tosses(
    alloc: Global,
    design: &Design,
    ticking: &[bool],
    moment: &Moment,
    after: &[u64],
    flops: &[Crossing],
    rng: &mut Xoshiro256PlusPlus,
) -> Result<List<Toss>, NoMemory>
    ensures rng { IfOk result (λ _. rng.new ≡ behind_passing (is_torn_in design.now.domains.now (copied_in design.now.cells.items design.now.copies) ticking.now moment.now.words.items moment.now.cycles.items after.now) flops.now rng.old) }
    ensures tosses { IfOk result (λ tosses. tosses ≡ tosses_of (is_torn_in design.now.domains.now (copied_in design.now.cells.items design.now.copies) ticking.now moment.now.words.items moment.now.cycles.items after.now) flops.now rng.old []) }
{
    let mut tosses = List::new(alloc);
    for flop in flops {
        let torn = is_torn(design, ticking, moment, after, *flop);
        draw_toss(rng, &mut tosses, torn, *flop)?;
    }
    Ok(tosses)
}

/// Sets the flops to what they take.
pub fn take_tosses(tosses: &[Toss], before: &[u64], words: &mut [u64])
    ensures { words.new ≡ put_tosses before.now tosses.now words.old }
{
    for toss in tosses {
        put_bit(
            words,
            toss.flop,
            value_of(before, toss.source) != toss.other,
        );
    }
}
