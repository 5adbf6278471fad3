//! The clocks that a lane's step draws.
ghost use Rattle.std.specs.Prelude.{◌≡◌, ◌≤◌, ◌^◌, ◌%◌, ℕ, true, length, IfOk, OnOk};
ghost use Rattle.cell_graph.specs.Tree.{bit_at};
ghost use Rattle.campaign.specs.Numbers.{numbers_from};
ghost use Rattle.campaign.specs.Edges.{or_first, edges_of, behind_edges};
ghost use Rattle.campaign.specs.Draws.{word};

use crate::draws::draw;
use crate::numbers::{add_if, number_of};
use cdc_base::{List, NoMemory};
use domains::Domains;
use rand_xoshiro::Xoshiro256PlusPlus;
use std::alloc::Global;

/// The clocks that tick in the step with this number: all of them in each fourth one, else those whose bits of a word are
/// set, or the first one.
pub fn draw_edges(
    alloc: Global,
    domains: &Domains,
    number: u32,
    rng: &mut Xoshiro256PlusPlus,
) -> Result<List<u32>, NoMemory>
    ensures edges { IfOk result (λ edges. length domains.now.clocks ≤ 2 ^ 32 → edges ≡ edges_of domains.now number rng.old) }
    ensures behind { OnOk result (rng.new ≡ behind_edges number rng.old) }
{
    let clocks = domains.clocks.len();
    if number % 4 == 0 {
        return all_clocks(alloc, clocks);
    }
    let word = draw(rng);
    or_first(marked_clocks(alloc, clocks, word)?)
}

/// The first clock, where no other ticks.
fn or_first(edges: List<u32>) -> Result<List<u32>, NoMemory>
    ensures { IfOk result (λ all. all ≡ or_first edges) }
{
    let mut all = edges;
    if all.as_slice().is_empty() {
        all.push(0)?;
    }
    Ok(all)
}

fn all_clocks(alloc: Global, clocks: usize) -> Result<List<u32>, NoMemory>
    ensures { IfOk result (λ edges. clocks ≤ 2 ^ 32 → edges ≡ numbers_from (λ c. true) 0 clocks) }
{
    let mut edges = List::new(alloc);
    for place in 0..clocks {
        add_if(&mut edges, true, number_of(place))?;
    }
    Ok(edges)
}

/// The clocks whose bits of the word are set; those of clocks from 64 on begin again at bit 0.
fn marked_clocks(alloc: Global, clocks: usize, word: u64) -> Result<List<u32>, NoMemory>
    ensures { IfOk result (λ edges. clocks ≤ 2 ^ 32 → edges ≡ numbers_from (λ c. bit_at word (c % 64)) 0 clocks) }
{
    let mut edges = List::new(alloc);
    for place in 0..clocks {
        let clock = number_of(place);
        add_if(&mut edges, is_set(word, clock), clock)?;
    }
    Ok(edges)
}

/// Whether the bit of a clock is set.
fn is_set(word: u64, clock: u32) -> bool
    ensures { result ≡ bit_at word (clock % 64) }
{
    word >> (clock % 64) & 1 == 1
}
