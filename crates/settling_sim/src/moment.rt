//! A moment of a run.
ghost use Rattle.std.specs.Prelude.{◌≡◌, ◌≤◌, ◌<◌, ◌^◌, length, replicate, IfOk};
ghost use Rattle.std.specs.List.Sorted.{IsStrictlyIncreasing};
ghost use Rattle.settling_sim.specs.Cycles.{settled};
ghost use Rattle.settling_sim.specs.Starts.{start_word, start_words};
ghost use Rattle.settling_sim.specs.Trial.{take_given};

use crate::cycles::{Cycles, SETTLED};
use crate::state::is_state_signal;
use crate::word::put_word;
use cdc_base::{NoMemory, Signal};
use cdc_model::Given;
use cell_graph::Net;
use domains::Domains;
use std::alloc::Global;

/// For each signal its word, which is 0 where it holds no state, and the cycles that its bits may still need.
#[derive(Drop)]
pub struct Moment {
    pub words: Vec<u64>,
    pub cycles: Vec<Cycles>,
}

impl Moment {
    /// The first moment of a run: known start values, given ones, and 0 for any other bit; all bits are settled.
    pub fn open(
        alloc: Global,
        net: &Net,
        domains: &Domains,
        start: &[Given],
    ) -> Result<Moment, NoMemory>
        ensures length { IfOk result (λ m. length m.words.items ≡ length net.now.graph.signals) }
        ensures words { length net.now.graph.signals ≤ 2 ^ 32 → IsStrictlyIncreasing domains.now.statics →
            IfOk result (λ m. m.words.items ≡ take_given start.now (start_words net.now domains.now 0 net.now.graph.signals)) }
        ensures cycles { IfOk result (λ m. m.cycles.items ≡ replicate (length net.now.graph.signals) settled) }
    {
        let mut words = start_words(alloc, net, domains)?;
        take_given(start, &mut words);
        Ok(Moment {
            words,
            cycles: settled(alloc, net.graph.signals().len())?,
        })
    }
}

/// The known start bits of the signal at a place, where it holds state.
fn start_word(net: &Net, domains: &Domains, place: usize, signal: &Signal) -> u64
    ensures { place < 2 ^ 32 → IsStrictlyIncreasing domains.now.statics → result ≡ start_word net.now domains.now place signal.now }
{
    match u32::try_from(place) {
        Ok(sig) if is_state_signal(net, domains, sig) => signal.start & signal.known,
        _ => 0,
    }
}

/// A word for each signal, with its known start bits.
fn start_words(alloc: Global, net: &Net, domains: &Domains) -> Result<Vec<u64>, NoMemory>
    ensures length { IfOk result (λ words. length words.items ≡ length net.now.graph.signals) }
    ensures words { length net.now.graph.signals ≤ 2 ^ 32 → IsStrictlyIncreasing domains.now.statics →
        IfOk result (λ words. words.items ≡ start_words net.now domains.now 0 net.now.graph.signals) }
{
    let mut words = Vec::new(alloc);
    for (place, signal) in net.graph.signals().iter().enumerate() {
        if words.push(start_word(net, domains, place, signal)).is_err() {
            return Err(NoMemory);
        }
    }
    Ok(words)
}

/// Sets words to given values.
pub fn take_given(given: &[Given], words: &mut [u64])
    ensures { words.new ≡ take_given given.now words.old }
{
    for value in given {
        put_word(words, value.sig, value.value);
    }
}

pub fn zeros(alloc: Global, count: usize) -> Result<Vec<u64>, NoMemory>
    ensures { IfOk result (λ words. words.items ≡ replicate count 0) }
{
    match vec![in alloc; 0u64; count] {
        Ok(words) => Ok(words),
        Err(_) => Err(NoMemory),
    }
}

pub fn settled(alloc: Global, count: usize) -> Result<Vec<Cycles>, NoMemory>
    ensures { IfOk result (λ cycles. cycles.items ≡ replicate count settled) }
{
    match vec![in alloc; SETTLED; count] {
        Ok(cycles) => Ok(cycles),
        Err(_) => Err(NoMemory),
    }
}
