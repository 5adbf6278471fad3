//! Whether two sides make a FIFO.
ghost use Rattle.std.specs.Prelude.{◌≡◌, ◌↔◌, ◌⊎◌, ◌≤◌, ◌<◌, ◌-◌, ◌^◌, ◌++◌, [], ◌∷◌, ℕ, Bool, true, false, cond, Some, None, option_map, unwrap_or, List, map, length, slice_get, Contains, IfOk, OnOk};
ghost use Rattle.std.specs.HashMap as hash;
ghost use Rattle.std.specs.HashSet as set;
ghost use Rattle.cdc_base.specs.declared.bit.Bit.{Bit as BitOf};
ghost use Rattle.cell_graph.specs.declared.cell.Node.{Node as NodeOf};
ghost use Rattle.cell_graph.specs.declared.net.Net.{Net as NetOf};
ghost use Rattle.cell_graph.specs.Unfolded.{IsNodeOf, bit_of};
ghost use Rattle.domains.specs.declared.Domains.{Domains as DomainsOf};
ghost use Rattle.domains.specs.Assignment.{group_of};
ghost use Rattle.cdc_model.specs.declared.scheme.GrayReg.{GrayReg as GrayRegOf};
ghost use Rattle.cdc_model.specs.Design.{differ};
ghost use Rattle.cdc_model.specs.Listed.{sync_entry};
ghost use Rattle.cdc_model.specs.Nets.{AreAscending, bit_count, design_of, next_tree};
ghost use Rattle.cdc_model.specs.Ordered.{IsAscending};
ghost use Rattle.cdc_model.specs.Schemes.{Sync as SyncOf};
ghost use Rattle.gray_pointer.specs.Words.{IsIn};
ghost use Rattle.fifo_laws.specs.Fifos.{bits_key};
ghost use Rattle.fifo_laws.specs.Sides.{Side as SideOf};
ghost use Rattle.fifo_laws.specs.Tests.{HasEmptyTest};
ghost use Rattle.fifo_laws.specs.Words.{depth_of, IsWordBit};
ghost use Rattle.fifo_ways.specs.declared.sought.Guard.{Guard as GuardOf};
ghost use Rattle.fifo_ways.specs.Guards.{guard_terms, IsAsked};
ghost use Rattle.fifo_ways.specs.Marked.{same_bit, same_node};
ghost use Rattle.fifo_ways.specs.Sought.{AreNodes};
ghost use Rattle.fifo_scheme.specs.declared.found.Column.{Column as ColumnOf};
ghost use Rattle.fifo_parts.specs.declared.pair.Pair.{Pair as PairOf};
ghost use Rattle.fifo_parts.specs.declared.reads.Read.{Read as ReadOf};
ghost use Rattle.fifo_parts.specs.Brought.{AreSources};
ghost use Rattle.fifo_parts.specs.Comparisons.{AreComparisons};
ghost use Rattle.fifo_scheme.specs.Given.{AreGiven};
ghost use Rattle.fifo_parts.specs.Words.{IsTaking, IsWordBitOf, IsWordOf, lowest};
ghost use Rattle.fifo_scheme.specs.Indexed.{IsIndex};
ghost use Rattle.fifo_scheme.specs.Judged.{IsJudged};
ghost use Rattle.fifo_scheme.specs.Met.{AreNumbers, ForMet, IsLast, IsPaired, MayTell, AreWords, IsTakenBy, IsValue, IsFoundRead, AreReadsOf, ArePlacesInOrder, ArePlacesOf, IsOwnAt, ReadsAt, MayRead, AreReadersAt, bits_at, roots_at, kept_by, entry_column, column_at, HaveOneValue, ArePassed, IsOfEntries, crossings_into, crossings_at};
ghost use Rattle.fifo_parts.specs.Tellers.{IsPair, IsShown};

use crate::found::{Column, Fifo};
use crate::index::{Index, Reading};
use cdc_base::{Bit, List, NoMemory};
use cdc_model::view::{are_apart, next_node};
use cdc_model::{Crossing, Sync};
use cell_graph::{Net, Node};
use fifo_nodes::{Apart, copied, terms};
use fifo_parts::brought::brought;
use fifo_parts::pair::{Pair, Shown, Teller, is_register_on};
use fifo_parts::side::Side;
use fifo_parts::words::{Taking, are_alike, is_word_bit, word_of};
use fifo_ways::{Guard, Sought, guards, leads, passes};
use gray_pointer::word::are_same;
use std::alloc::Global;
use std::collections::{BTreeMap, HashMap, HashSet};

/// The FIFO that two sides of an index make, if they do.
pub fn fifo_of(
    alloc: Global,
    shown: Shown<'_>,
    index: &Index,
    syncs: &[Sync],
    write: &Side,
    read: &Side,
) -> Result<Option<Fifo>, NoMemory>
    ensures { IfOk result (λ found. (meant : List SyncOf) (grays : List GrayRegOf) → AreGiven shown.entry.net.now shown.entry.domains.now syncs.now meant →
        IsShown shown.entry.net.now shown.entry.table.now → IsIndex shown.entry.net.now shown.entry.domains.now meant grays index.now →
        Contains index.now.sides.items write.entry.now → Contains index.now.sides.items read.entry.now → IsJudged shown.entry.net.now shown.entry.domains.now meant grays write.entry.now read.entry.now found) }
{
    let Some(pair) = pair_of(alloc, shown, index, syncs, write, read)? else {
        return Ok(None);
    };
    let Words { bits, numbers } = words_of(alloc, shown, index, &pair)?;
    let reads = reads_of(alloc, shown, index, &pair, &numbers)?;
    let candidates = candidates_of(alloc, shown, index, &pair, bits.as_slice())?;
    let readers = readers_of(
        alloc,
        shown,
        index,
        &pair,
        bits,
        &reads,
        candidates.as_slice(),
    )?;
    if readers.is_empty() {
        return Ok(None);
    }
    let columns = columns_of(alloc, shown, index, &reads, readers.as_slice())?;
    let crossings = crossings_of(alloc, index, columns.as_slice(), readers.as_slice())?;
    Ok(Some(Fifo {
        wb: write.reg.count,
        wg: write.reg.gray,
        rb: read.reg.count,
        rg: read.reg.gray,
        depth: depth_of(write.width),
        columns,
        readers: bits_of(alloc, index, readers.as_slice())?,
        crossings,
    }))
}

/// How many words a count of this width tells apart by all bits but the highest.
fn depth_of(width: u8) -> u32
    ensures { 1 ≤ width → width ≤ 32 → result ≡ 2 ^ (width - 1) }
{
    match width {
        1..=32 => 1 << (width - 1),
        _ => 0,
    }
}

/// The two sides with what they tell, where they may make a FIFO: they are of one width and of clocks of two groups, and
/// a push has a test for full, and a pop one for empty.
fn pair_of<'a>(
    alloc: Global,
    shown: Shown<'_>,
    index: &Index,
    syncs: &[Sync],
    write: &'a Side,
    read: &'a Side,
) -> Result<Option<Pair<'a>>, NoMemory>
    ensures { IfOk result (λ found. (meant : List SyncOf) (grays : List GrayRegOf) → AreGiven shown.entry.net.now shown.entry.domains.now syncs.now meant →
        IsShown shown.entry.net.now shown.entry.table.now → IsIndex shown.entry.net.now shown.entry.domains.now meant grays index.now →
        Contains index.now.sides.items write.entry.now → Contains index.now.sides.items read.entry.now →
        IsPaired shown.entry.net.now shown.entry.domains.now meant grays write.entry.now.reg read.entry.now.reg found) }
{
    if write.width != read.width || !are_of_two_groups(shown, write, read) {
        return Ok(None);
    }
    let Some(write) = teller_of(alloc, shown, index, syncs, write, read, Apart::Full)? else {
        return Ok(None);
    };
    let Some(read) = teller_of(alloc, shown, index, syncs, read, write.side, Apart::Empty)? else {
        return Ok(None);
    };
    let pushes = write.side.under.as_slice();
    let pops = read.side.under.as_slice();
    let full = write.tests(alloc, shown, pushes)?;
    if full.len() == 0 || !read.has_test(alloc, shown, pops)? {
        return Ok(None);
    }
    Ok(Some(Pair { write, read, full }))
}

/// What a side tells of a FIFO, where the far side's code comes over to its clock.
fn teller_of<'a>(
    alloc: Global,
    shown: Shown<'_>,
    index: &Index,
    syncs: &[Sync],
    near: &'a Side,
    far: &Side,
    apart: Apart,
) -> Result<Option<Teller<'a>>, NoMemory>
    ensures { IfOk result (λ found. (meant : List SyncOf) → syncs.now ≡ map sync_entry meant → IsShown shown.entry.net.now shown.entry.table.now →
        AreSources meant index.now.sources.places → AreComparisons shown.entry.net.now shown.entry.domains.now index.now.comparisons.by_bit index.now.comparisons.by_clock →
        bit_count shown.entry.net.now.graph.signals far.entry.now.reg.gray ≡ far.entry.now.width → far.entry.now.width ≤ 11 →
        MayTell shown.entry.net.now shown.entry.domains.now meant near.entry.now far.entry.now apart found) }
{
    let sources = &index.sources;
    let came = brought(
        alloc,
        shown.net,
        shown.domains,
        sources,
        syncs,
        far,
        near.clock,
    )?;
    let Some(over) = came else {
        return Ok(None);
    };
    let teller = Teller::of(alloc, shown, &index.comparisons, near, over, apart)?;
    Ok(Some(teller))
}

fn are_of_two_groups(shown: Shown<'_>, write: &Side, read: &Side) -> bool
    ensures { result ≡ differ (group_of shown.entry.domains.now (lowest write.entry.now.reg.count)) (group_of shown.entry.domains.now (lowest read.entry.now.reg.count)) }
{
    let one = Bit {
        sig: write.reg.count,
        at: 0,
    };
    let another = Bit {
        sig: read.reg.count,
        at: 0,
    };
    are_apart(shown.domains, one, another)
}

/// The word bits of a FIFO, and for which word each is one.
#[derive(Drop)]
struct Words {
    bits: List<Bit>,
    numbers: HashMap<Bit, u64>,
}

impl Words {
    fn add(&mut self, bit: Bit, number: u64) -> Result<(), NoMemory>
        ensures bits { OnOk result (self.new.bits ≡ self.old.bits ++ bit ∷ []) }
        ensures numbers { OnOk result ((b : BitOf) → hash.get same_bit self.new.numbers b ≡
            cond (same_bit bit b) (Some number) (hash.get same_bit self.old.numbers b)) }
    {
        self.bits.push(bit)?;
        self.numbers.insert(bit, number).map_err(|_| NoMemory)?;
        Ok(())
    }
}

/// The word bits of the FIFO.
fn words_of(
    alloc: Global,
    shown: Shown<'_>,
    index: &Index,
    pair: &Pair<'_>,
) -> Result<Words, NoMemory>
    ensures bits { IfOk result (λ words. ForMet shown.entry.net.now shown.entry.domains.now shown.entry.table.now index.now pair.now (λ write read.
        AreWords shown.entry.net.now shown.entry.domains.now write read words.bits)) }
    ensures numbers { IfOk result (λ words. ForMet shown.entry.net.now shown.entry.domains.now shown.entry.table.now index.now pair.now (λ write read.
        AreNumbers shown.entry.net.now shown.entry.domains.now write read words.numbers)) }
{
    let mut words = Words {
        bits: List::new(alloc),
        numbers: HashMap::new(alloc),
    };
    let mut last = None;
    for place in index.takings_of(pair.write.side.reg.count) {
        let Some(taking) = index.takings.as_slice().get(*place) else {
            continue;
        };
        let number = number_after(shown, pair, taking, last);
        last = Some(Numbered { taking, number });
        if let Some(number) = number {
            words.add(taking.bit, number)?;
        }
    }
    Ok(words)
}

/// A register bit, and the word for which it is a word bit, if it is one.
#[derive(Clone, Copy, Drop)]
struct Numbered<'a> {
    taking: &'a Taking,
    number: Option<u64>,
}

/// The word for which the register bit is a word bit, if it is one: that of the last bit, where they are alike.
fn number_after(
    shown: Shown<'_>,
    pair: &Pair<'_>,
    taking: &Taking,
    last: Option<Numbered<'_>>,
) -> Option<u64>
    ensures { (write read : SideOf) → IsShown shown.entry.net.now shown.entry.table.now → IsPair shown.entry.net.now shown.entry.domains.now pair.now write read →
        IsTaking shown.entry.net.now taking.now → IsLast shown.entry.net.now shown.entry.domains.now write read last.entry →
        IsWordOf shown.entry.net.now shown.entry.domains.now write read taking.now result }
{
    if let Some(last) = last {
        if are_alike(last.taking, taking) {
            return last.number;
        }
    }
    word_of(shown, pair, taking)
}

/// The reads of columns of a FIFO: their nodes, and the place of each among the reads of the net with the node that its
/// words take.
#[derive(Drop)]
struct Reads {
    nodes: List<Node>,
    columns: HashMap<Node, (usize, Option<Node>)>,
}

impl Reads {
    fn add(&mut self, node: Node, place: usize, value: Option<Node>) -> Result<(), NoMemory>
        ensures nodes { OnOk result (self.new.nodes ≡ self.old.nodes ++ node ∷ []) }
        ensures columns { OnOk result ((n : NodeOf) → hash.get same_node self.new.columns n ≡
            cond (same_node node n) (Some (place, value)) (hash.get same_node self.old.columns n)) }
    {
        self.nodes.push(node)?;
        self.columns
            .insert(node, (place, value))
            .map_err(|_| NoMemory)?;
        Ok(())
    }
}

/// The reads by the count of the side that reads whose words are those of a column.
fn reads_of(
    alloc: Global,
    shown: Shown<'_>,
    index: &Index,
    pair: &Pair<'_>,
    numbers: &HashMap<Bit, u64>,
) -> Result<Reads, NoMemory>
    ensures { IfOk result (λ reads. ForMet shown.entry.net.now shown.entry.domains.now shown.entry.table.now index.now pair.now (λ write read.
        AreNumbers shown.entry.net.now shown.entry.domains.now write read numbers.now → AreReadsOf shown.entry.net.now shown.entry.domains.now index.now write read reads)) }
{
    let mut reads = Reads {
        nodes: List::new(alloc),
        columns: HashMap::new(alloc),
    };
    for place in index.reads_of(pair.read.side.reg.count) {
        if let Some(found) = read_at(shown, index, pair, numbers, *place) {
            reads.add(found.node, *place, found.value)?;
        }
    }
    Ok(reads)
}

/// A node that reads a column, and the node that the column's words take. None is the zero bit.
#[derive(Clone, Copy, Drop)]
struct FoundRead {
    node: Node,
    value: Option<Node>,
}

/// The read at the place, which is one by the count of the side that reads, if its words are those of a column.
fn read_at(
    shown: Shown<'_>,
    index: &Index,
    pair: &Pair<'_>,
    numbers: &HashMap<Bit, u64>,
    place: usize,
) -> Option<FoundRead>
    ensures { ForMet shown.entry.net.now shown.entry.domains.now shown.entry.table.now index.now pair.now (λ write read.
        AreNumbers shown.entry.net.now shown.entry.domains.now write read numbers.now → ((r : ReadOf) → slice_get index.now.reads place ≡ Some r → r.count ≡ read.reg.count) →
        IsFoundRead shown.entry.net.now shown.entry.domains.now index.now write read place result) }
{
    let read = index.reads.as_slice().get(place)?;
    let value = value_of(shown, index, pair, numbers, read.words.as_slice())?;
    let node = read.node;
    Some(FoundRead { node, value })
}

/// The node that all the words take, where they are the words of a column: Some(None) is the zero bit.
fn value_of(
    shown: Shown<'_>,
    index: &Index,
    pair: &Pair<'_>,
    numbers: &HashMap<Bit, u64>,
    words: &[Bit],
) -> Option<Option<Node>>
    ensures { ForMet shown.entry.net.now shown.entry.domains.now shown.entry.table.now index.now pair.now (λ write read.
        AreNumbers shown.entry.net.now shown.entry.domains.now write read numbers.now → length words.now ≡ depth_of (design_of shown.entry.net.now shown.entry.domains.now) write → IsValue shown.entry.net.now shown.entry.domains.now write read words.now result) }
{
    let first = words.first()?;
    let value = taken_by(index, *first)?;
    for word in 0..words.len() {
        if !takes(shown, index, pair, numbers, word as u64, words[word], value) {
            return None;
        }
    }
    Some(value)
}

/// The node that a register bit takes.
fn taken_by(index: &Index, bit: Bit) -> Option<Option<Node>>
    ensures { (net : NetOf) (domains : DomainsOf) (meant : List SyncOf) (grays : List GrayRegOf) → IsIndex net domains meant grays index.now → IsTakenBy net bit result }
{
    match index.taking(bit) {
        Some(taking) => Some(taking.taken.node),
        None => None,
    }
}

/// Whether the bit is a word bit for the word and takes the node.
fn takes(
    shown: Shown<'_>,
    index: &Index,
    pair: &Pair<'_>,
    numbers: &HashMap<Bit, u64>,
    word: u64,
    bit: Bit,
    value: Option<Node>,
) -> bool
    ensures { ForMet shown.entry.net.now shown.entry.domains.now shown.entry.table.now index.now pair.now (λ write read.
        AreNumbers shown.entry.net.now shown.entry.domains.now write read numbers.now → word < depth_of (design_of shown.entry.net.now shown.entry.domains.now) write → IsIn shown.entry.net.now.graph value → (result ≡ true) ↔
        IsWordBit (design_of shown.entry.net.now shown.entry.domains.now) (next_tree shown.entry.net.now) write read word (option_map (bit_of shown.entry.net.now.graph) value) bit) }
{
    match index.taking(bit) {
        Some(taking) => {
            are_same(taking.taken.node, value) && is_word_for(shown, pair, numbers, word, taking)
        }
        None => false,
    }
}

/// Whether the register bit is a word bit for the word, which it mostly is by its number.
fn is_word_for(
    shown: Shown<'_>,
    pair: &Pair<'_>,
    numbers: &HashMap<Bit, u64>,
    word: u64,
    taking: &Taking,
) -> bool
    ensures { (write read : SideOf) → IsShown shown.entry.net.now shown.entry.table.now → IsPair shown.entry.net.now shown.entry.domains.now pair.now write read →
        IsTaking shown.entry.net.now taking.now → AreNumbers shown.entry.net.now shown.entry.domains.now write read numbers.now →
        word < depth_of (design_of shown.entry.net.now shown.entry.domains.now) write →
        (result ≡ true) ↔ IsWordBitOf shown.entry.net.now shown.entry.domains.now write read word taking.now }
{
    if is_number(numbers, taking.bit, word) {
        return true;
    }
    is_word_bit(shown, pair, word, taking)
}

fn is_number(numbers: &HashMap<Bit, u64>, bit: Bit, word: u64) -> bool
    ensures { result ≡ true → hash.get same_bit numbers.now bit ≡ Some word }
{
    match numbers.get(&bit) {
        Some(number) => *number == word,
        None => false,
    }
}

/// The places of the register bits that may be readers: those on the clock of the side that reads which are no plain
/// copies and read a word, ascending.
fn candidates_of(
    alloc: Global,
    shown: Shown<'_>,
    index: &Index,
    pair: &Pair<'_>,
    words: &[Bit],
) -> Result<Vec<usize>, NoMemory>
    ensures { IfOk result (λ places. ForMet shown.entry.net.now shown.entry.domains.now shown.entry.table.now index.now pair.now (λ write read.
        ArePlacesOf index.now (MayRead shown.entry.net.now shown.entry.domains.now pair.now.read.side.now.clock words.now) places.items)) }
{
    let mut places = Vec::new(alloc);
    for word in words {
        add_candidates(shown, index, pair.read.side.clock, *word, &mut places)?;
    }
    Ok(into_order(places))
}

/// Adds the places of those that read the word.
fn add_candidates(
    shown: Shown<'_>,
    index: &Index,
    clock: u32,
    word: Bit,
    places: &mut Vec<usize>,
) -> Result<(), NoMemory>
    ensures { IfOk result (λ _. (meant : List SyncOf) (grays : List GrayRegOf) → IsShown shown.entry.net.now shown.entry.table.now → IsIndex shown.entry.net.now shown.entry.domains.now meant grays index.now →
        (n : ℕ) → Contains places.new.items n ↔ (Contains places.old.items n ⊎ ReadsAt shown.entry.net.now shown.entry.domains.now index.now clock word n)) }
{
    for place in index.readings_of(word) {
        if is_own_at(shown, index, clock, *place) {
            places.push(*place).map_err(|_| NoMemory)?;
        }
    }
    Ok(())
}

/// Whether the register bit at the place is on the clock and no plain copy.
fn is_own_at(shown: Shown<'_>, index: &Index, clock: u32, place: usize) -> bool
    ensures { IsShown shown.entry.net.now shown.entry.table.now → (result ≡ true) ↔ IsOwnAt shown.entry.net.now shown.entry.domains.now index.now clock place }
{
    match index.readings.as_slice().get(place) {
        Some(reading) => is_register_on(shown, clock, reading.bit),
        None => false,
    }
}

/// The places in their order, each once.
fn into_order(places: Vec<usize>) -> Vec<usize>
    ensures same { (n : ℕ) → Contains result.items n ↔ Contains places.items n }
    ensures ordered { ArePlacesInOrder result.items }
{
    let mut places = places;
    places.sort_unstable();
    places.dedup();
    places
}

/// Those of the candidates each of whose ways to a word passes a guard and below it a read.
fn readers_of(
    alloc: Global,
    shown: Shown<'_>,
    index: &Index,
    pair: &Pair<'_>,
    words: List<Bit>,
    reads: &Reads,
    candidates: &[usize],
) -> Result<Vec<usize>, NoMemory>
    ensures { IfOk result (λ readers. ForMet shown.entry.net.now shown.entry.domains.now shown.entry.table.now index.now pair.now (λ write read.
        AreWords shown.entry.net.now shown.entry.domains.now write read words → AreReadsOf shown.entry.net.now shown.entry.domains.now index.now write read reads.now →
        ArePlacesOf index.now (MayRead shown.entry.net.now shown.entry.domains.now pair.now.read.side.now.clock words) candidates.now →
        AreReadersAt shown.entry.net.now shown.entry.domains.now index.now write read readers.items)) }
{
    let bits = bits_of(alloc, index, candidates)?;
    let roots = roots_of(alloc, shown.net, bits.as_slice())?;
    let sought = sought_of(alloc, shown, pair, words, reads, roots.as_slice())?;
    let answers = passes(alloc, shown.net, &sought, roots.as_slice())?;
    kept(alloc, candidates, answers.as_slice())
}

/// What is sought on the ways from the roots: the words, the reads, and the guards with a test.
fn sought_of(
    alloc: Global,
    shown: Shown<'_>,
    pair: &Pair<'_>,
    words: List<Bit>,
    reads: &Reads,
    roots: &[Node],
) -> Result<Sought, NoMemory>
    ensures words { IfOk result (λ sought. sought.words ≡ words) }
    ensures reads { IfOk result (λ sought. sought.reads ≡ reads.now.nodes) }
    ensures tests { IfOk result (λ sought. IsShown shown.entry.net.now shown.entry.table.now → (write read : SideOf) → IsPair shown.entry.net.now shown.entry.domains.now pair.now write read →
        AreNodes shown.entry.net.now.graph roots.now → (p : GuardOf) → IsAsked shown.entry.net.now.graph words roots.now p →
        Contains sought.tests p ↔ HasEmptyTest (design_of shown.entry.net.now shown.entry.domains.now) (next_tree shown.entry.net.now) write read (guard_terms shown.entry.net.now.graph p)) }
{
    let tests = tests_of(alloc, shown, pair, words.as_slice(), roots)?;
    let reads = copied(alloc, reads.nodes.as_slice())?;
    Ok(Sought {
        words,
        reads,
        tests,
    })
}

/// The places whose answers are true.
fn kept(alloc: Global, places: &[usize], answers: &[bool]) -> Result<Vec<usize>, NoMemory>
    ensures { IfOk result (λ kept. kept.items ≡ kept_by places.now answers.now) }
{
    let mut kept = Vec::new(alloc);
    for k in 0..places.len() {
        if is_true(answers, k) {
            kept.push(places[k]).map_err(|_| NoMemory)?;
        }
    }
    Ok(kept)
}

fn is_true(answers: &[bool], place: usize) -> bool
    ensures { result ≡ unwrap_or (slice_get answers.now place) false }
{
    match answers.get(place) {
        Some(answer) => *answer,
        None => false,
    }
}

/// The nodes of the next values of register bits.
fn roots_of(alloc: Global, net: &Net, bits: &[Bit]) -> Result<List<Node>, NoMemory>
    ensures { IfOk result (λ roots. AreAscending net.now.regs → roots ≡ roots_at net.now bits.now) }
{
    let mut roots = List::new(alloc);
    for bit in bits {
        if let Some(next) = next_node(net, *bit) {
            roots.push(next)?;
        }
    }
    Ok(roots)
}

/// The guards on ways from the roots to the words that have a test for empty. Each is looked at once.
fn tests_of(
    alloc: Global,
    shown: Shown<'_>,
    pair: &Pair<'_>,
    words: &[Bit],
    roots: &[Node],
) -> Result<List<Guard>, NoMemory>
    ensures { IfOk result (λ tests. IsShown shown.entry.net.now shown.entry.table.now → (write read : SideOf) → IsPair shown.entry.net.now shown.entry.domains.now pair.now write read →
        AreNodes shown.entry.net.now.graph roots.now → (p : GuardOf) → IsAsked shown.entry.net.now.graph words.now roots.now p →
        Contains tests p ↔ HasEmptyTest (design_of shown.entry.net.now shown.entry.domains.now) (next_tree shown.entry.net.now) write read (guard_terms shown.entry.net.now.graph p)) }
{
    let asked = guards(alloc, shown.net, words, roots)?;
    let mut met = HashSet::new(alloc);
    let mut tests = List::new(alloc);
    for guard in asked.as_slice() {
        let is_new = met.insert(*guard).map_err(|_| NoMemory)?;
        if is_new && has_test(alloc, shown, pair, *guard)? {
            tests.push(*guard)?;
        }
    }
    Ok(tests)
}

fn has_test(
    alloc: Global,
    shown: Shown<'_>,
    pair: &Pair<'_>,
    guard: Guard,
) -> Result<bool, NoMemory>
    ensures { IfOk result (λ has. IsShown shown.entry.net.now shown.entry.table.now → (write read : SideOf) → IsPair shown.entry.net.now shown.entry.domains.now pair.now write read →
        IsNodeOf shown.entry.net.now.graph guard.node → (has ≡ true) ↔
        HasEmptyTest (design_of shown.entry.net.now shown.entry.domains.now) (next_tree shown.entry.net.now) write read (guard_terms shown.entry.net.now.graph guard)) }
{
    let said = terms(alloc, shown.net, shown.table, Some(guard.node), guard.value)?;
    pair.read.has_test(alloc, shown, said.as_slice())
}

/// The columns to whose reads ways of the readers lead, by their words.
fn columns_of(
    alloc: Global,
    shown: Shown<'_>,
    index: &Index,
    reads: &Reads,
    readers: &[usize],
) -> Result<List<Column>, NoMemory>
    ensures { IfOk result (λ columns. (pair : PairOf) → ForMet shown.entry.net.now shown.entry.domains.now shown.entry.table.now index.now pair (λ write read.
        AreReadsOf shown.entry.net.now shown.entry.domains.now index.now write read reads.now → AreReadersAt shown.entry.net.now shown.entry.domains.now index.now write read readers.now →
        ArePassed shown.entry.net.now shown.entry.domains.now write read columns)) }
{
    let bits = bits_of(alloc, index, readers)?;
    let roots = roots_of(alloc, shown.net, bits.as_slice())?;
    let passed = leads(alloc, shown.net, reads.nodes.as_slice(), roots.as_slice())?;
    let values = values_of(alloc, index, reads, passed.as_slice())?;
    listed(alloc, values)
}

/// The columns of the nodes, by their words.
fn values_of(
    alloc: Global,
    index: &Index,
    reads: &Reads,
    nodes: &[Node],
) -> Result<BTreeMap<Vec<Bit>, Option<Node>>, NoMemory>
    ensures { IfOk result (λ values. HaveOneValue index.now reads.now nodes.now → (c : ColumnOf) → Contains (map entry_column values.entries) c ↔
        ((n : NodeOf) × Contains nodes.now n × (column_at index.now reads.now n ≡ Some c))) }
{
    let mut values = BTreeMap::new(alloc);
    for node in nodes {
        add_column(alloc, index, reads, *node, &mut values)?;
    }
    Ok(values)
}

/// Adds the column of a node.
fn add_column(
    alloc: Global,
    index: &Index,
    reads: &Reads,
    node: Node,
    values: &mut BTreeMap<Vec<Bit>, Option<Node>>,
) -> Result<(), NoMemory>
    ensures { IfOk result (λ _. ((e c : ColumnOf) → Contains (map entry_column values.old.entries) e → column_at index.now reads.now node ≡ Some c → e.words ≡ c.words → e.value ≡ c.value) →
        (c : ColumnOf) → Contains (map entry_column values.new.entries) c ↔
        (Contains (map entry_column values.old.entries) c ⊎ (column_at index.now reads.now node ≡ Some c))) }
{
    let Some((place, value)) = reads.columns.get(&node) else {
        return Ok(());
    };
    let Some(read) = index.reads.as_slice().get(*place) else {
        return Ok(());
    };
    let words = Vec::from_slice(alloc, read.words.as_slice()).map_err(|_| NoMemory)?;
    values.insert(words, *value).map_err(|_| NoMemory)?;
    Ok(())
}

/// The columns, in the order of their words.
fn listed(alloc: Global, values: BTreeMap<Vec<Bit>, Option<Node>>) -> Result<List<Column>, NoMemory>
    ensures same { IfOk result (λ columns. columns ≡ map entry_column values.entries) }
    ensures ordered { IfOk result (λ columns. IsAscending (λ (c : ColumnOf). bits_key c.words) columns) }
{
    let mut columns = List::new(alloc);
    for (words, value) in values {
        let words = List::from_vec(words);
        columns.push(Column { words, value })?;
    }
    Ok(columns)
}

/// The crossings from bits of the columns to the readers, by readers.
fn crossings_of(
    alloc: Global,
    index: &Index,
    columns: &[Column],
    readers: &[usize],
) -> Result<List<Crossing>, NoMemory>
    ensures { IfOk result (λ crossings. (test : BitOf → Bool) × ((b : BitOf) → (test b ≡ true) ↔ IsOfEntries columns.now b) ×
        (crossings ≡ crossings_at test index.now.readings readers.now)) }
{
    let words = words_in(alloc, columns)?;
    let mut crossings = List::new(alloc);
    for place in readers {
        if let Some(reading) = index.readings.as_slice().get(*place) {
            add_crossings(&words, reading, &mut crossings)?;
        }
    }
    Ok(crossings)
}

/// All bits of the columns.
fn words_in(alloc: Global, columns: &[Column]) -> Result<HashSet<Bit>, NoMemory>
    ensures { IfOk result (λ words. (b : BitOf) → (set.contains same_bit words b ≡ true) ↔ IsOfEntries columns.now b) }
{
    let mut words = HashSet::new(alloc);
    for column in columns {
        add_words(column.words.as_slice(), &mut words)?;
    }
    Ok(words)
}

/// Adds the bits.
fn add_words(bits: &[Bit], words: &mut HashSet<Bit>) -> Result<(), NoMemory>
    ensures { IfOk result (λ _. (b : BitOf) → (set.contains same_bit words.new b ≡ true) ↔ ((set.contains same_bit words.old b ≡ true) ⊎ Contains bits.now b)) }
{
    for bit in bits {
        words.insert(*bit).map_err(|_| NoMemory)?;
    }
    Ok(())
}

/// Adds the crossings from the words to a reader.
fn add_crossings(
    words: &HashSet<Bit>,
    reading: &Reading,
    crossings: &mut List<Crossing>,
) -> Result<(), NoMemory>
    ensures { IfOk result (λ _. crossings.new ≡ crossings.old ++ crossings_into (set.contains same_bit words.now) reading.now) }
{
    let to = reading.bit;
    for bit in reading.reads.as_slice() {
        if words.contains(bit) {
            crossings.push(Crossing { from: *bit, to })?;
        }
    }
    Ok(())
}

/// The register bits at these places.
fn bits_of(alloc: Global, index: &Index, places: &[usize]) -> Result<List<Bit>, NoMemory>
    ensures { IfOk result (λ bits. bits ≡ bits_at index.now.readings places.now) }
{
    let mut bits = List::new(alloc);
    for place in places {
        if let Some(reading) = index.readings.as_slice().get(*place) {
            bits.push(reading.bit)?;
        }
    }
    Ok(bits)
}
