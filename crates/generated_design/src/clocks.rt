//! The constraints of the generated design.
ghost use Rattle.std.specs.Prelude.{◌≡◌, IfOk};
ghost use Rattle.generated_design.specs.Clocks.{generated_constraints};

use cdc_base::{List, Name, NoMemory, ResetPin};
use clock_constraints::{ClockPin, Constraints, InputPin};
use std::alloc::Global;

fn clock(alloc: Global, name: &str, group: &str) -> Result<ClockPin, NoMemory>
    ensures { IfOk result (λ pin. pin ≡ record { name = name.now; group = group.now; settle = 1 }) }
{
    let name = Name::from_text(alloc, name)?;
    let group = Name::from_text(alloc, group)?;
    Ok(ClockPin {
        name,
        group,
        settle: 1,
    })
}

fn input(alloc: Global, name: &str) -> Result<InputPin, NoMemory>
    ensures { IfOk result (λ pin. pin ≡ record { name = name.now; clock = 0 }) }
{
    let name = Name::from_text(alloc, name)?;
    Ok(InputPin { name, clock: 0 })
}

#[tactic(auto, unfolding(crate::specs::Clocks::generated_constraints))]
pub fn constraints(alloc: Global) -> Result<Constraints, NoMemory>
    ensures { IfOk result (λ constraints. constraints ≡ generated_constraints) }
{
    let mut clocks = List::new(alloc);
    clocks.push(clock(alloc, "ca", "A")?)?;
    clocks.push(clock(alloc, "cb", "B")?)?;
    let mut inputs = List::new(alloc);
    inputs.push(input(alloc, "send")?)?;
    inputs.push(input(alloc, "d")?)?;
    let resets: List<ResetPin> = List::new(alloc);
    Ok(Constraints {
        top: Name::from_text(alloc, "m")?,
        clocks,
        inputs,
        resets,
        statics: List::new(alloc),
        waivers: List::new(alloc),
    })
}
