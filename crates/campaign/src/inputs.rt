//! The inputs that a lane's step draws.
ghost use Rattle.std.specs.Prelude.{◌≡◌, ◌≤◌, ◌^◌, ◌++◌, [], ◌∷◌, length, cond, set, IfOk};
ghost use Rattle.settling_sim.specs.State.{is_clocked_input};
ghost use Rattle.settling_sim.specs.Trial.{register_ticks};
ghost use Rattle.campaign.specs.Draws.{word, behind};
ghost use Rattle.campaign.specs.Plan.{inputs_of};
ghost use Rattle.campaign.specs.Tested.{behind_passing, put_drawn, given_in, given_if, givens_in};

use crate::draws::draw;
use crate::numbers::{add_if, number_of};
use cdc_base::{Bit, List, NoMemory};
use cdc_model::Given;
use cdc_model::view::width_of;
use cell_graph::Net;
use cell_graph::word::low_bits;
use domains::Domains;
use rand_xoshiro::Xoshiro256PlusPlus;
use settling_sim::edges::ticks;
use settling_sim::is_clocked_input;
use settling_sim::word::put_word;
use std::alloc::Global;

/// The clocked inputs, by signal.
pub fn clocked_inputs(alloc: Global, net: &Net, domains: &Domains) -> Result<List<u32>, NoMemory>
    ensures { IfOk result (λ inputs. length net.now.graph.signals ≤ 2 ^ 32 → inputs ≡ inputs_of net.now domains.now) }
{
    let mut inputs = List::new(alloc);
    let count = net.graph.signals().len();
    for place in 0..count {
        let sig = number_of(place);
        add_if(&mut inputs, is_clocked_input(net, domains, sig), sig)?;
    }
    Ok(inputs)
}

/// Whether the signal's clock ticks.
fn changes(domains: &Domains, ticking: &[bool], sig: u32) -> bool
    ensures { result ≡ register_ticks domains.now ticking.now sig }
{
    ticks(domains, ticking, Bit { sig, at: 0 })
}

/// Draws a word for an input that changes.
fn draw_input(rng: &mut Xoshiro256PlusPlus, drawn: &mut [u64], changes: bool, sig: u32)
    ensures rng { rng.new ≡ cond changes (behind rng.old) rng.old }
    ensures drawn { drawn.new ≡ cond changes (set drawn.old sig (word rng.old)) drawn.old }
{
    if changes {
        put_word(drawn, sig, draw(rng));
    }
}

/// Draws a word for each input that changes.
pub fn draw_inputs(
    domains: &Domains,
    ticking: &[bool],
    inputs: &[u32],
    rng: &mut Xoshiro256PlusPlus,
    drawn: &mut [u64],
)
    ensures rng { rng.new ≡ behind_passing (register_ticks domains.now ticking.now) inputs.now rng.old }
    ensures drawn { drawn.new ≡ put_drawn (register_ticks domains.now ticking.now) inputs.now rng.old drawn.old }
{
    for sig in inputs {
        draw_input(rng, drawn, changes(domains, ticking, *sig), *sig);
    }
}

/// A signal with the low bits of the word that was drawn for it.
fn given(net: &Net, drawn: &[u64], sig: u32) -> Given
    ensures { result ≡ given_in net.now.graph.signals drawn.now sig }
{
    let word = drawn.get(sig as usize).copied().unwrap_or(0);
    Given {
        sig,
        value: low_bits(word, width_of(net, sig)),
    }
}

fn add_given(values: &mut List<Given>, changes: bool, value: Given) -> Result<(), NoMemory>
    ensures { IfOk result (λ _. values.new ≡ values.old ++ cond changes (value ∷ []) []) }
{
    if changes { values.push(value) } else { Ok(()) }
}

/// Those of the signals that change, with the low bits of the words that were drawn for them.
pub fn values(
    alloc: Global,
    net: &Net,
    domains: &Domains,
    ticking: &[bool],
    sigs: &[u32],
    drawn: &[u64],
) -> Result<List<Given>, NoMemory>
    ensures { IfOk result (λ values. values ≡ givens_in net.now.graph.signals drawn.now (register_ticks domains.now ticking.now) sigs.now) }
{
    let mut values = List::new(alloc);
    for sig in sigs {
        let changes = changes(domains, ticking, *sig);
        add_given(&mut values, changes, given(net, drawn, *sig))?;
    }
    Ok(values)
}
