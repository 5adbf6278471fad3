//! Data bits that keep their value while a ring is under way.
ghost use Rattle.std.specs.Prelude.{◌≡◌, ◌∷◌, cond, is_some, ◌⊎◌, ◌↔◌, ◌++◌, ◌<◌, [], true, false, Some, Bool, List, map, filter, Contains, IfOk, slice_get};
ghost use Rattle.std.specs.List.Sorted.{IsPermutation, IsSorted};
ghost use Rattle.cdc_base.specs.declared.bit.Bit.{Bit};
ghost use Rattle.cdc_base.specs.contracts.bit.BitOrd.TheImpl as bit_order;
ghost use Rattle.domains.specs.Nets.{IsNet};
ghost use Rattle.cdc_model.specs.declared.scheme.GrayReg.{GrayReg as GrayRegOf};
ghost use Rattle.cdc_model.specs.Nets.{HasNextCells, bit_count, next_node_of};
ghost use Rattle.cdc_model.specs.Schemes.{Ring as RingOf};
ghost use Rattle.cdc_model.specs.Tables.{ShowsNet, ShowsNext};
ghost use Rattle.mux_recirc.specs.contracts.parts.PartOrd.TheImpl as part_order;
ghost use Rattle.mux_recirc.specs.contracts.questions.QuestionOrd.TheImpl as question_order;
ghost use Rattle.mux_recirc.specs.declared.parts.Part.{Part as PartOf};
ghost use Rattle.mux_recirc.specs.declared.questions.Question.{Question as QuestionOf};
ghost use Rattle.mux_recirc.specs.Given.{AreGiven, AreHeld};
ghost use Rattle.mux_recirc.specs.Held.{sources_among, keeps_between, ShowsBusy, AreWithin, IsAnswered, part_if, held_in, request_at, is_before};
ghost use Rattle.mux_recirc.specs.Parts.{parts_at};
ghost use Rattle.mux_recirc.specs.Questions.{AreBitsWithin};
ghost use Rattle.mux_recirc.specs.Shown.{keeps, differing};

use crate::parts::{Part, Parts, parts_at};
use crate::questions::{Question, asked_bits, in_order, questions_of, questions_on};
use crate::shown::keeps_value;
use cdc_base::{Bit, NoMemory};
use cdc_model::view::{are_together, copied_bit, next_node, pair_table};
use cdc_model::{Crossing, Ring};
use cell_graph::Net;
use cofactor::{Fixed, Table};
use domains::Domains;
use std::alloc::Global;

/// Which bits are held under which rings: those that keep their value while the request and the last flop back differ.
#[derive(Drop)]
pub struct Held {
    /// By bit, then ring.
    pairs: Vec<Part>,
    /// The bits that always keep their value, ascending. Each is held under every ring of its group.
    constant: Vec<Bit>,
}

impl Held {
    /// What is held of the sources of the crossings. A bit that reads neither end of a ring is held where it always
    /// keeps its value, since fixing bits that it doesn't read changes nothing.
    pub fn find(
        alloc: Global,
        net: &Net,
        domains: &Domains,
        table: &mut Table,
        crossings: &[Crossing],
        rings: &[Ring],
    ) -> Result<Held, NoMemory>
        ensures exact { IfOk result (λ held. (grays : GrayRegOf → Bool) (list : List RingOf) → AreGiven net.now domains.now grays crossings.now list rings.now →
            ShowsNet net.now [] table.old → AreHeld net.now domains.now crossings.now list held.constant.items held.pairs.items) }
        ensures constant_sorted { IfOk result (λ held. (grays : GrayRegOf → Bool) (list : List RingOf) → AreGiven net.now domains.now grays crossings.now list rings.now →
            ShowsNet net.now [] table.old → IsSorted bit_order.ghosts.cmp held.constant.items) }
        ensures pairs_sorted { IfOk result (λ held. IsSorted part_order.ghosts.cmp held.pairs.items) }
        ensures unchanged { table.new ≡ table.old }
    {
        let sources = sources(alloc, net, crossings)?;
        let constant = constant_bits(alloc, net, table, sources.as_slice())?;
        let ends = Parts::of_ends(alloc, rings)?;
        let asked = questions_of(alloc, net, table, &ends, sources.as_slice())?;
        let questions = questions_before(alloc, domains, rings, asked.as_slice())?;
        let pairs = answered(alloc, net, rings, questions.as_slice())?;
        Ok(Held { pairs, constant })
    }

    /// Whether the bit is held under the ring, given that it has the group of the ring's request.
    pub fn has(&self, ring: usize, bit: Bit) -> bool
        ensures { IsSorted bit_order.ghosts.cmp self.now.constant.items → IsSorted part_order.ghosts.cmp self.now.pairs.items →
            (result ≡ true) ↔ (Contains self.now.constant.items bit ⊎ Contains self.now.pairs.items (record { bit = bit; ring = ring })) }
    {
        let part = Part { bit, ring };
        self.is_constant(bit) || self.pairs.binary_search(&part).is_ok()
    }

    /// Whether the bit always keeps its value.
    pub fn is_constant(&self, bit: Bit) -> bool
        ensures { IsSorted bit_order.ghosts.cmp self.now.constant.items → (result ≡ true) ↔ Contains self.now.constant.items bit }
    {
        self.constant.binary_search(&bit).is_ok()
    }

    /// The rings under which a bit is held, those of a constant bit left out, ascending.
    pub fn pairs_of(&self, bit: Bit) -> &[Part]
        ensures { IsSorted part_order.ghosts.cmp self.now.pairs.items → result.now ≡ parts_at self.now.pairs.items bit }
    {
        parts_at(self.pairs.as_slice(), bit)
    }
}

/// The register bits that crossings come from, ascending, each once.
fn sources(alloc: Global, net: &Net, crossings: &[Crossing]) -> Result<Vec<Bit>, NoMemory>
    ensures exact { IfOk result (λ sources. IsNet net.now → (b : Bit) → Contains sources.items b ↔ Contains (sources_among net.now crossings.now) b) }
    ensures sorted { IfOk result (λ sources. IsSorted bit_order.ghosts.cmp sources.items) }
{
    let sources = unsorted_sources(alloc, net, crossings)?;
    Ok(in_order(sources))
}

fn unsorted_sources(alloc: Global, net: &Net, crossings: &[Crossing]) -> Result<Vec<Bit>, NoMemory>
    ensures { IfOk result (λ sources. IsNet net.now → sources.items ≡ sources_among net.now crossings.now) }
{
    let mut sources = Vec::new(alloc);
    for crossing in crossings {
        if is_register(net, crossing.from) {
            sources.push(crossing.from).map_err(|_| NoMemory)?;
        }
    }
    Ok(sources)
}

/// Whether the bit has a next value.
fn is_register(net: &Net, bit: Bit) -> bool
    ensures { IsNet net.now → result ≡ is_some (next_node_of net.now bit) }
{
    next_node(net, bit).is_some()
}

/// Those of the bits that always keep their value. The table is one without a cube.
fn constant_bits(
    alloc: Global,
    net: &Net,
    table: &Table,
    bits: &[Bit],
) -> Result<Vec<Bit>, NoMemory>
    ensures { IfOk result (λ constant. IsNet net.now → HasNextCells net.now → ShowsNet net.now [] table.now → AreBitsWithin net.now bits.now →
        constant.items ≡ filter (keeps net.now []) bits.now) }
{
    let mut constant = Vec::new(alloc);
    for bit in bits {
        keep_if(is_constant(net, table, *bit), *bit, &mut constant)?;
    }
    Ok(constant)
}

/// Adds the bit, if it is to be kept.
fn keep_if(kept: bool, bit: Bit, bits: &mut Vec<Bit>) -> Result<(), NoMemory>
    ensures { IfOk result (λ _. bits.new.items ≡ bits.old.items ++ cond kept (bit ∷ []) []) }
{
    if kept {
        bits.push(bit).map_err(|_| NoMemory)
    } else {
        Ok(())
    }
}

fn is_constant(net: &Net, table: &Table, bit: Bit) -> bool
    ensures { IsNet net.now → HasNextCells net.now → ShowsNet net.now [] table.now → bit.at < bit_count net.now.graph.signals bit.sig →
        result ≡ keeps net.now [] bit }
{
    match copied_bit(net, table, bit) {
        Some(copied) => copied == bit,
        None => false,
    }
}

/// The questions on rings whose request has the bit's group, by ring.
fn questions_before(
    alloc: Global,
    domains: &Domains,
    rings: &[Ring],
    questions: &[Question],
) -> Result<Vec<Question>, NoMemory>
    ensures all { IfOk result (λ kept. IsPermutation (filter (λ (q : QuestionOf). is_before domains.now rings.now q.ring q.bit) questions.now) kept.items) }
    ensures sorted { IfOk result (λ kept. IsSorted question_order.ghosts.cmp kept.items) }
{
    let mut kept = Vec::new(alloc);
    for question in questions {
        if is_before(domains, rings, question.ring, question.bit) {
            kept.push(*question).map_err(|_| NoMemory)?;
        }
    }
    kept.sort_unstable();
    Ok(kept)
}

/// Whether the bit has the group of the ring's request.
fn is_before(domains: &Domains, rings: &[Ring], ring: usize, bit: Bit) -> bool
    ensures { result ≡ is_before domains.now rings.now ring bit }
{
    match request_of(rings, ring) {
        Some(request) => are_together(domains, bit, request),
        None => false,
    }
}

fn request_of(rings: &[Ring], ring: usize) -> Option<Bit>
    ensures { result ≡ request_at rings.now ring }
{
    match rings.get(ring) {
        Some(ring) => ring.bits.as_slice().first().copied(),
        None => None,
    }
}

/// The tables in which the two ends of a ring differ, for the next values of some bits.
#[derive(Drop)]
struct Busy {
    rising: Table,
    falling: Table,
}

impl Busy {
    fn open(alloc: Global, net: &Net, ring: &Ring, bits: &[Bit]) -> Result<Option<Busy>, NoMemory>
        ensures { IfOk result (λ busy. IsNet net.now → HasNextCells net.now → ShowsBusy net.now ring.now bits.now busy) }
    {
        let ends = ring.bits.as_slice();
        let (Some(request), Some(last)) = (ends.first(), ends.last()) else {
            return Ok(None);
        };
        Ok(Some(Busy {
            rising: differing(alloc, net, *request, *last, true, bits)?,
            falling: differing(alloc, net, *request, *last, false, bits)?,
        }))
    }

    /// Adds what is asked for, if the bit keeps its value.
    fn add_held(&self, net: &Net, question: Question, pairs: &mut Vec<Part>) -> Result<(), NoMemory>
        ensures { IfOk result (λ _. (request last : Bit) (bits : List Bit) → IsNet net.now → HasNextCells net.now →
            ShowsNext net.now (differing request last true) self.now.rising bits → ShowsNext net.now (differing request last false) self.now.falling bits →
            Contains bits question.bit → question.bit.at < bit_count net.now.graph.signals question.bit.sig →
            pairs.new.items ≡ pairs.old.items ++ part_if (keeps_between net.now request last question.bit) question) }
    {
        add_if(self.keeps(net, question.bit), question, pairs)
    }

    /// Whether the bit keeps its value in both tables.
    fn keeps(&self, net: &Net, bit: Bit) -> bool
        ensures { (request last : Bit) (bits : List Bit) → IsNet net.now → HasNextCells net.now → ShowsNext net.now (differing request last true) self.now.rising bits →
            ShowsNext net.now (differing request last false) self.now.falling bits → Contains bits bit → bit.at < bit_count net.now.graph.signals bit.sig →
            result ≡ keeps_between net.now request last bit }
    {
        keeps_value(net, &self.rising, bit) && keeps_value(net, &self.falling, bit)
    }
}

fn differing(
    alloc: Global,
    net: &Net,
    request: Bit,
    last: Bit,
    value: bool,
    bits: &[Bit],
) -> Result<Table, NoMemory>
    ensures { IfOk result (λ table. IsNet net.now → HasNextCells net.now → ShowsNext net.now (differing request last value) table bits.now) }
{
    let request = Fixed {
        bit: request,
        value,
    };
    let last = Fixed {
        bit: last,
        value: !value,
    };
    pair_table(alloc, net, request, last, bits)
}

/// The questions that are answered with yes, by bit, then ring.
fn answered(
    alloc: Global,
    net: &Net,
    rings: &[Ring],
    questions: &[Question],
) -> Result<Vec<Part>, NoMemory>
    ensures exact { IfOk result (λ pairs. IsNet net.now → HasNextCells net.now → AreWithin net.now questions.now → IsSorted question_order.ghosts.cmp questions.now →
        (p : PartOf) → Contains pairs.items p ↔ IsAnswered net.now rings.now questions.now p) }
    ensures sorted { IfOk result (λ pairs. IsSorted part_order.ghosts.cmp pairs.items) }
{
    let mut pairs = Vec::new(alloc);
    for ring in 0..rings.len() {
        let here = questions_on(questions, ring);
        answer(alloc, net, &rings[ring], here, &mut pairs)?;
    }
    pairs.sort_unstable();
    Ok(pairs)
}

/// Adds those of the questions on one ring that are answered with yes.
fn answer(
    alloc: Global,
    net: &Net,
    ring: &Ring,
    questions: &[Question],
    pairs: &mut Vec<Part>,
) -> Result<(), NoMemory>
    ensures { IfOk result (λ _. IsNet net.now → HasNextCells net.now → AreWithin net.now questions.now → pairs.new.items ≡ pairs.old.items ++ held_in net.now ring.now questions.now) }
{
    if questions.is_empty() {
        return Ok(());
    }
    let bits = asked_bits(alloc, questions)?;
    let Some(busy) = Busy::open(alloc, net, ring, bits.as_slice())? else {
        return Ok(());
    };
    for question in questions {
        busy.add_held(net, *question, pairs)?;
    }
    Ok(())
}

/// Adds what is asked for, if the answer is yes.
fn add_if(holds: bool, question: Question, pairs: &mut Vec<Part>) -> Result<(), NoMemory>
    ensures { IfOk result (λ _. pairs.new.items ≡ pairs.old.items ++ part_if holds question) }
{
    if holds {
        let Question { ring, bit } = question;
        pairs.push(Part { bit, ring }).map_err(|_| NoMemory)
    } else {
        Ok(())
    }
}
