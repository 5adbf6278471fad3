//! What the constraints name.
ghost use Rattle.std.specs.Prelude.{◌≡◌, ◌++◌, map, IfOk, OnOk};
ghost use Rattle.described_design.specs.Described.{named_in};

use cdc_base::{List, Name, NoMemory};
use clock_constraints::{ClockPin, Constraints, InputPin};
use std::alloc::Global;

/// The names of clocks, inputs and static inputs. A signal with such a name that nothing drives comes from outside.
pub fn names_of(alloc: Global, constraints: &Constraints) -> Result<List<Name>, NoMemory>
    ensures { IfOk result (λ names. names ≡ named_in constraints.now) }
{
    let mut names = List::new(alloc);
    add_clocks(alloc, constraints.clocks.as_slice(), &mut names)?;
    add_inputs(alloc, constraints.inputs.as_slice(), &mut names)?;
    add_statics(alloc, constraints.statics.as_slice(), &mut names)?;
    Ok(names)
}

fn add_clocks(alloc: Global, clocks: &[ClockPin], names: &mut List<Name>) -> Result<(), NoMemory>
    ensures { OnOk result (names.new ≡ names.old ++ map (λ c. c.name) clocks.now) }
{
    for clock in clocks {
        names.push(clock.name.copy(alloc)?)?;
    }
    Ok(())
}

fn add_inputs(alloc: Global, inputs: &[InputPin], names: &mut List<Name>) -> Result<(), NoMemory>
    ensures { OnOk result (names.new ≡ names.old ++ map (λ i. i.name) inputs.now) }
{
    for input in inputs {
        names.push(input.name.copy(alloc)?)?;
    }
    Ok(())
}

fn add_statics(alloc: Global, statics: &[Name], names: &mut List<Name>) -> Result<(), NoMemory>
    ensures { OnOk result (names.new ≡ names.old ++ statics.now) }
{
    for name in statics {
        names.push(name.copy(alloc)?)?;
    }
    Ok(())
}
