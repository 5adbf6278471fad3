//! The words of eight runs in rows: for each signal a word of each run.
ghost use Rattle.std.specs.Prelude.{◌≡◌, ◌≢◌, ◌<◌, ℕ, length, set, IfOk};
ghost use Rattle.cell_graph.specs.Unfolded.{IsWellFormed};
ghost use Rattle.campaign.specs.Lanes.{lane};
ghost use Rattle.campaign.specs.Rows.{AreWordsIn, AreValuesIn};

use crate::lanes::Lanes;
use crate::run::Run;
use cdc_base::NoMemory;
use cell_graph::Net;
use std::alloc::Global;

pub fn rows(alloc: Global, count: usize) -> Result<Vec<[u64; 8]>, NoMemory>
    ensures { IfOk result (λ rows. length rows.items ≡ count) }
{
    match vec![in alloc; [0u64; 8]; count] {
        Ok(rows) => Ok(rows),
        Err(_) => Err(NoMemory),
    }
}

/// Sets a word of one lane.
fn put_one(rows: &mut [[u64; 8]], place: usize, index: usize, word: u64)
    ensures length { length rows.new ≡ length rows.old }
    ensures kept { (i : ℕ) → i ≢ index → lane i rows.new ≡ lane i rows.old }
    ensures put { index < 8 → lane index rows.new ≡ set (lane index rows.old) place word }
{
    if place < rows.len() && index < 8 {
        rows[place][index] = word;
    }
}

/// Sets the words of one lane.
fn put_lane(rows: &mut [[u64; 8]], index: usize, words: &[u64])
    ensures length { length rows.new ≡ length rows.old }
    ensures kept { (i : ℕ) → i ≢ index → lane i rows.new ≡ lane i rows.old }
    ensures put { index < 8 → length rows.old ≡ length words.now → lane index rows.new ≡ words.now }
{
    for (place, word) in words.iter().enumerate() {
        put_one(rows, place, index, *word);
    }
}

/// Sets the words of each run's lane to those of its present moment.
fn put_words(rows: &mut [[u64; 8]], runs: &[Run])
    ensures length { length rows.new ≡ length rows.old }
    ensures put { AreWordsIn runs.now 8 rows.new }
{
    for (index, run) in runs.iter().enumerate() {
        put_lane(rows, index, run.moment.words.as_slice());
    }
}

/// Sets the values of the cells in each lane to those of its run's present moment.
pub fn fill(net: &Net, runs: &[Run], rows: &mut [[u64; 8]], cells: &mut Lanes)
    ensures rows { length rows.new ≡ length rows.old }
    ensures cells { length cells.new ≡ length cells.old }
    ensures filled { IsWellFormed net.now.graph → length rows.old ≡ length net.now.graph.signals → length cells.old ≡ length net.now.graph.cells →
        AreValuesIn net.now runs.now 0 cells.new }
{
    put_words(rows, runs);
    cells.fill(&net.graph, rows);
}
