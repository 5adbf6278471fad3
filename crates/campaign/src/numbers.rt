//! Numbers in order.
ghost use Rattle.std.specs.Prelude.{◌≡◌, ◌<◌, ◌^◌, ◌++◌, IfOk};
ghost use Rattle.campaign.specs.Numbers.{one_if};

use cdc_base::{List, NoMemory};

/// The number of a place; the greatest one for a place that has none.
pub fn number_of(place: usize) -> u32
    ensures { place < 2 ^ 32 → result ≡ place }
{
    u32::try_from(place).unwrap_or(u32::MAX)
}

/// Adds the number, if it passes.
pub fn add_if(numbers: &mut List<u32>, passes: bool, number: u32) -> Result<(), NoMemory>
    ensures { IfOk result (λ _. numbers.new ≡ numbers.old ++ one_if passes number) }
{
    if passes { numbers.push(number) } else { Ok(()) }
}
