//! The races of settling flops.
ghost use Rattle.std.specs.Prelude.{◌≡◌, ◌++◌, [], ◌∷◌, IfOk, cond, not, ◌&&◌, map};
ghost use Rattle.cell_graph.specs.Reading.{bit_eq};
ghost use Rattle.campaign.specs.Campaign.{is_before, own_race, races_before, races_behind, captured_races};
ghost use Rattle.campaign.specs.Drawn.{race_of_toss};

use crate::toss::Toss;
use cdc_base::{Bit, List, NoMemory};
use cdc_model::{Crossing, Race};
use std::alloc::Global;

/// The races of the settling flops.
pub fn races(alloc: Global, tosses: &[Toss]) -> Result<List<Race>, NoMemory>
    ensures { IfOk result (λ races. races ≡ map race_of_toss tosses.now) }
{
    let mut races = List::new(alloc);
    for toss in tosses {
        races.push(race(alloc, *toss)?)?;
    }
    Ok(races)
}

/// The flop takes one value of its source, and may take the other one too.
fn race(alloc: Global, toss: Toss) -> Result<Race, NoMemory>
    ensures { IfOk result (λ race. race ≡ race_of_toss toss) }
{
    let source = only(alloc, toss.source)?;
    let none = List::new(alloc);
    if toss.other {
        return Ok(Race {
            bit: toss.flop,
            flip: source,
            other: Some(none),
        });
    }
    Ok(Race {
        bit: toss.flop,
        flip: none,
        other: Some(source),
    })
}

fn only(alloc: Global, bit: Bit) -> Result<List<Bit>, NoMemory>
    ensures { IfOk result (λ bits. bits ≡ bit ∷ []) }
{
    let mut bits = List::new(alloc);
    bits.push(bit)?;
    Ok(bits)
}

/// The race in which `to` captures `from`.
fn own_race(alloc: Global, capture: Crossing) -> Result<Race, NoMemory>
    ensures { IfOk result (λ race. race ≡ own_race capture) }
{
    let flip = only(alloc, capture.from)?;
    Ok(Race {
        bit: capture.to,
        flip,
        other: None,
    })
}

/// Adds the race, if it stays.
fn add_race(alloc: Global, races: &mut List<Race>, stays: bool, toss: Toss) -> Result<(), NoMemory>
    ensures { IfOk result (λ _. races.new ≡ races.old ++ cond stays (race_of_toss toss ∷ []) []) }
{
    if stays {
        races.push(race(alloc, toss)?)?;
    }
    Ok(())
}

fn add_before(
    alloc: Global,
    tosses: &[Toss],
    bit: Bit,
    races: &mut List<Race>,
) -> Result<(), NoMemory>
    ensures { IfOk result (λ _. races.new ≡ races.old ++ races_before bit tosses.now) }
{
    for toss in tosses {
        let stays = is_before(toss.flop, bit) && toss.source != bit;
        add_race(alloc, races, stays, *toss)?;
    }
    Ok(())
}

fn add_behind(
    alloc: Global,
    tosses: &[Toss],
    bit: Bit,
    races: &mut List<Race>,
) -> Result<(), NoMemory>
    ensures { IfOk result (λ _. races.new ≡ races.old ++ races_behind bit tosses.now) }
{
    for toss in tosses {
        let stays = is_before(bit, toss.flop) && toss.source != bit;
        add_race(alloc, races, stays, *toss)?;
    }
    Ok(())
}

/// The races of the step in which `to` captures `from`: those of the settling flops that don't copy `to`, and its own, by
/// bit.
pub fn captured_races(
    alloc: Global,
    tosses: &[Toss],
    capture: Crossing,
) -> Result<List<Race>, NoMemory>
    ensures { IfOk result (λ races. races ≡ captured_races tosses.now capture) }
{
    let mut races = List::new(alloc);
    add_before(alloc, tosses, capture.to, &mut races)?;
    races.push(own_race(alloc, capture)?)?;
    add_behind(alloc, tosses, capture.to, &mut races)?;
    Ok(races)
}

/// Whether the bit stands before the other one: by signal, then by place.
fn is_before(bit: Bit, other: Bit) -> bool
    ensures { result ≡ is_before bit other }
{
    bit.sig < other.sig || (bit.sig == other.sig && bit.at < other.at)
}
