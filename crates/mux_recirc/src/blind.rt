//! Crossings whose end doesn't read the source while a gate is shut.
ghost use Rattle.std.specs.Prelude.{◌≡◌, ◌∷◌, ◌++◌, cond, ℕ, ◌⊎◌, ◌↔◌, ◌<◌, ◌≤◌, ◌&&◌, ◌||◌, not, [], true, false, Some, Bool, List, map, filter, length, slice_get, Contains, IfOk};
ghost use Rattle.std.specs.List.Sorted.{IsPermutation, IsSorted};
ghost use Rattle.cdc_base.specs.declared.bit.Bit.{Bit};
ghost use Rattle.cofactor.specs.Order.{AreAscending};
ghost use Rattle.domains.specs.Assignment.{group_of};
ghost use Rattle.domains.specs.Nets.{IsNet};
ghost use Rattle.cdc_model.specs.declared.scheme.Crossing.{Crossing as CrossingOf};
ghost use Rattle.cdc_model.specs.declared.scheme.GrayReg.{GrayReg as GrayRegOf};
ghost use Rattle.cdc_model.specs.Design.{are_equal};
ghost use Rattle.cdc_model.specs.Nets.{HasNextCells, bit_count};
ghost use Rattle.cdc_model.specs.Schemes.{Ring as RingOf};
ghost use Rattle.cdc_model.specs.Tables.{ShowsNet, ShowsNext};
ghost use Rattle.mux_recirc.specs.contracts.blind.BlindOrd.TheImpl as order;
ghost use Rattle.mux_recirc.specs.contracts.questions.QuestionOrd.TheImpl as question_order;
ghost use Rattle.mux_recirc.specs.declared.blind.Blind.{Blind as BlindOf};
ghost use Rattle.mux_recirc.specs.declared.questions.Question.{Question as QuestionOf};
ghost use Rattle.mux_recirc.specs.Blind.{
  keeps_shut,
  ShowsShut,
  is_behind,
  AreByEnds,
  IsBlindInto,
  IsBlindAtGate,
  IsBlindInRing,
  IsBlindAmong,
};
ghost use Rattle.mux_recirc.specs.Given.{AreGiven, AreBlind};
ghost use Rattle.mux_recirc.specs.Questions.{AreBitsWithin};
ghost use Rattle.mux_recirc.specs.Held.{AreWithin};
ghost use Rattle.mux_recirc.specs.Shown.{equal};

use crate::parts::Parts;
use crate::questions::{Question, asked_bits, in_order, questions_of, questions_on};
use crate::shown::{bits_read_under, keeps_value};
use cdc_base::{Bit, NoMemory};
use cdc_model::view::{are_together, pair_table};
use cdc_model::{Crossing, Ring};
use cell_graph::Net;
use cofactor::{Fixed, Table};
use domains::Domains;
use std::alloc::Global;

/// The end of a crossing is blind to its source while the gate's two bits are equal. `crossing` and `ring` are places
/// in their lists, and `gate` is the place in the ring of the gate's first bit.
#[derive(Clone, Copy, PartialEq, Eq, PartialOrd, Ord, Debug, Drop)]
pub struct Blind {
    pub crossing: usize,
    pub ring: usize,
    pub gate: u32,
    /// Whether the end then keeps its value.
    pub recirculating: bool,
}

/// A gate of the ring with that number: the place in the ring of its first bit, with the ring's request.
#[derive(Clone, Copy, Debug, Drop)]
struct Gate {
    ring: usize,
    place: u32,
    request: Bit,
}

/// All blindnesses of crossings, by crossing, ring and gate. An end that reads no gate of a ring isn't blind under it,
/// since fixing bits that it doesn't read changes nothing. The table is one without a cube.
pub fn blindnesses(
    alloc: Global,
    net: &Net,
    domains: &Domains,
    table: &mut Table,
    crossings: &[Crossing],
    rings: &[Ring],
) -> Result<Vec<Blind>, NoMemory>
    ensures exact { IfOk result (λ blind. (grays : GrayRegOf → Bool) (list : List RingOf) → AreGiven net.now domains.now grays crossings.now list rings.now →
        ShowsNet net.now [] table.old → AreBlind net.now domains.now crossings.now list blind.items) }
    ensures sorted { IfOk result (λ blind. IsSorted order.ghosts.cmp blind.items) }
    ensures unchanged { table.new ≡ table.old }
{
    let ends = ends_of(alloc, crossings)?;
    let gates = Parts::of_gates(alloc, rings)?;
    let asked = questions_of(alloc, net, table, &gates, ends.as_slice())?;
    let questions = questions_behind(alloc, domains, rings, asked.as_slice())?;
    let search = Search {
        net,
        domains,
        crossings,
    };
    let found = search.all(alloc, rings, questions.as_slice())?;
    Ok(found)
}

/// The bits that crossings lead to, ascending, each once.
fn ends_of(alloc: Global, crossings: &[Crossing]) -> Result<Vec<Bit>, NoMemory>
    ensures { IfOk result (λ ends. (b : Bit) → Contains ends.items b ↔ Contains (map (λ (k : CrossingOf). k.to) crossings.now) b) }
{
    let ends = each_end(alloc, crossings)?;
    Ok(in_order(ends))
}

fn each_end(alloc: Global, crossings: &[Crossing]) -> Result<Vec<Bit>, NoMemory>
    ensures { IfOk result (λ ends. ends.items ≡ map (λ (k : CrossingOf). k.to) crossings.now) }
{
    let mut ends = Vec::new(alloc);
    for crossing in crossings {
        ends.push(crossing.to).map_err(|_| NoMemory)?;
    }
    Ok(ends)
}

/// The questions on rings whose acknowledgement has the bit's group, by ring.
fn questions_behind(
    alloc: Global,
    domains: &Domains,
    rings: &[Ring],
    questions: &[Question],
) -> Result<Vec<Question>, NoMemory>
    ensures all { IfOk result (λ kept. IsPermutation (filter (λ (q : QuestionOf). is_behind domains.now rings.now q.ring q.bit) questions.now) kept.items) }
    ensures sorted { IfOk result (λ kept. IsSorted question_order.ghosts.cmp kept.items) }
{
    let mut kept = Vec::new(alloc);
    for question in questions {
        if is_behind(domains, rings, question.ring, question.bit) {
            kept.push(*question).map_err(|_| NoMemory)?;
        }
    }
    kept.sort_unstable();
    Ok(kept)
}

/// Whether the bit has the group of the ring's acknowledgement.
fn is_behind(domains: &Domains, rings: &[Ring], ring: usize, bit: Bit) -> bool
    ensures { result ≡ is_behind domains.now rings.now ring bit }
{
    match rings.get(ring) {
        Some(ring) => match ring.bits.as_slice().get(ring.ack as usize) {
            Some(acknowledge) => are_together(domains, bit, *acknowledge),
            None => false,
        },
        None => false,
    }
}

/// The places of the crossings into a bit, among crossings that are by their ends: from the first place up to the
/// second.
fn crossings_into(crossings: &[Crossing], to: Bit) -> (usize, usize)
    ensures within { result.1 ≤ length crossings.now }
    ensures exact { AreByEnds crossings.now → (i : ℕ) (k : CrossingOf) → slice_get crossings.now i ≡ Some k → (k.to ≡ to) ↔ ((result.0 ≤ i) × (i < result.1)) }
{
    let start = crossings.partition_point(|crossing| crossing.to < to);
    let end = crossings.partition_point(|crossing| crossing.to <= to);
    (start, end)
}

/// What a search for blind ends goes over.
#[derive(Clone, Copy, Drop)]
struct Search<'a> {
    net: &'a Net,
    domains: &'a Domains,
    crossings: &'a [Crossing],
}

impl<'a> Search<'a> {
    /// All blindnesses under these rings, for the ends that are asked about.
    fn all(
        &self,
        alloc: Global,
        rings: &[Ring],
        questions: &[Question],
    ) -> Result<Vec<Blind>, NoMemory>
        ensures exact { IfOk result (λ found. IsNet self.now.net.now → HasNextCells self.now.net.now → AreByEnds self.now.crossings.now →
            AreWithin self.now.net.now questions.now → IsSorted question_order.ghosts.cmp questions.now →
            (b : BlindOf) → Contains found.items b ↔ IsBlindAmong self.now.net.now self.now.domains.now self.now.crossings.now rings.now questions.now b) }
        ensures sorted { IfOk result (λ found. IsSorted order.ghosts.cmp found.items) }
    {
        let mut found = Vec::new(alloc);
        for ring in 0..rings.len() {
            let here = questions_on(questions, ring);
            self.add_in_ring(alloc, &rings[ring], ring, here, &mut found)?;
        }
        found.sort_unstable();
        Ok(found)
    }

    /// Adds the blindnesses under one ring.
    fn add_in_ring(
        &self,
        alloc: Global,
        ring: &Ring,
        number: usize,
        questions: &[Question],
        found: &mut Vec<Blind>,
    ) -> Result<(), NoMemory>
        ensures { IfOk result (λ _. IsNet self.now.net.now → HasNextCells self.now.net.now → AreByEnds self.now.crossings.now → AreWithin self.now.net.now questions.now →
            (b : BlindOf) → Contains found.new.items b ↔
            (Contains found.old.items b ⊎ IsBlindInRing self.now.net.now self.now.domains.now self.now.crossings.now ring.now number (map (λ (q : QuestionOf). q.bit) questions.now) b)) }
    {
        let Some(request) = ring.bits.as_slice().first().copied() else {
            return Ok(());
        };
        let ends = asked_bits(alloc, questions)?;
        if ends.is_empty() {
            return Ok(());
        }
        for place in 2..ring.ack {
            let gate = Gate {
                ring: number,
                place,
                request,
            };
            self.add_at_gate(alloc, ring, gate, ends.as_slice(), found)?;
        }
        Ok(())
    }

    /// Adds the blindnesses of these ends at one gate.
    fn add_at_gate(
        &self,
        alloc: Global,
        ring: &Ring,
        gate: Gate,
        ends: &[Bit],
        found: &mut Vec<Blind>,
    ) -> Result<(), NoMemory>
        ensures { IfOk result (λ _. IsNet self.now.net.now → HasNextCells self.now.net.now → AreByEnds self.now.crossings.now → AreBitsWithin self.now.net.now ends.now →
            (b : BlindOf) → Contains found.new.items b ↔
            (Contains found.old.items b ⊎ IsBlindAtGate self.now.net.now self.now.domains.now self.now.crossings.now ring.now gate ends.now b)) }
    {
        let Some(mut shut) = Shut::open(alloc, self.net, ring, gate.place, ends)? else {
            return Ok(());
        };
        for end in ends {
            self.add_into(alloc, &mut shut, gate, *end, found)?;
        }
        Ok(())
    }

    /// Adds the blindnesses of one end at one gate.
    fn add_into(
        &self,
        alloc: Global,
        shut: &mut Shut,
        gate: Gate,
        end: Bit,
        found: &mut Vec<Blind>,
    ) -> Result<(), NoMemory>
        ensures added { IfOk result (λ _. (p q : Bit) (bits : List Bit) → IsNet self.now.net.now → HasNextCells self.now.net.now → AreByEnds self.now.crossings.now →
            ShowsNext self.now.net.now (equal p q false) shut.old.low bits → ShowsNext self.now.net.now (equal p q true) shut.old.high bits →
            Contains bits end → end.at < bit_count self.now.net.now.graph.signals end.sig →
            (b : BlindOf) → Contains found.new.items b ↔
            (Contains found.old.items b ⊎ IsBlindInto self.now.net.now self.now.domains.now self.now.crossings.now gate p q end b)) }
        ensures unchanged { shut.new ≡ shut.old }
    {
        let low = bits_read_under(alloc, self.net, &mut shut.low, end)?;
        let high = bits_read_under(alloc, self.net, &mut shut.high, end)?;
        let recirculating = shut.keeps(self.net, end);
        let into = crossings_into(self.crossings, end);
        for crossing in into.0..into.1 {
            let from = self.crossings[crossing].from;
            let holds = is_blind(
                self.domains,
                low.as_slice(),
                high.as_slice(),
                gate.request,
                from,
            );
            let blind = Blind {
                crossing,
                ring: gate.ring,
                gate: gate.place,
                recirculating,
            };
            add_if(holds, blind, found)?;
        }
        Ok(())
    }
}

/// Adds the blindness, if it is one.
fn add_if(holds: bool, blind: Blind, found: &mut Vec<Blind>) -> Result<(), NoMemory>
    ensures { IfOk result (λ _. found.new.items ≡ found.old.items ++ cond holds (blind ∷ []) []) }
{
    if holds {
        found.push(blind).map_err(|_| NoMemory)
    } else {
        Ok(())
    }
}

/// Whether the source is read in neither case, and has the group of the ring's request.
fn is_blind(domains: &Domains, low: &[Bit], high: &[Bit], request: Bit, from: Bit) -> bool
    ensures { AreAscending low.now → AreAscending high.now → (f g : Bit → Bool) → ((b : Bit) → Contains low.now b ↔ (f b ≡ true)) →
        ((b : Bit) → Contains high.now b ↔ (g b ≡ true)) → result ≡ not (f from || g from) && are_equal (group_of domains.now from) (group_of domains.now request) }
{
    let is_read = has(low, from) || has(high, from);
    !is_read && are_together(domains, from, request)
}

/// Whether a bit is among ascending ones.
fn has(bits: &[Bit], bit: Bit) -> bool
    ensures { AreAscending bits.now → (result ≡ true) ↔ Contains bits.now bit }
{
    bits.binary_search(&bit).is_ok()
}

/// The tables in which the two bits of a gate are equal, for the next values of the ends of some crossings.
#[derive(Drop)]
struct Shut {
    low: Table,
    high: Table,
}

impl Shut {
    fn open(
        alloc: Global,
        net: &Net,
        ring: &Ring,
        gate: u32,
        ends: &[Bit],
    ) -> Result<Option<Shut>, NoMemory>
        ensures { IfOk result (λ shut. IsNet net.now → HasNextCells net.now → ShowsShut net.now ring.now gate ends.now shut) }
    {
        let bits = ring.bits.as_slice();
        let place = gate as usize;
        let (Some(one), Some(another)) = (bits.get(place), bits.get(place.saturating_add(1))) else {
            return Ok(None);
        };
        Ok(Some(Shut {
            low: equal(alloc, net, *one, *another, false, ends)?,
            high: equal(alloc, net, *one, *another, true, ends)?,
        }))
    }

    /// Whether the bit keeps its value in both tables.
    fn keeps(&self, net: &Net, bit: Bit) -> bool
        ensures { (p q : Bit) (bits : List Bit) → IsNet net.now → HasNextCells net.now → ShowsNext net.now (equal p q false) self.now.low bits →
            ShowsNext net.now (equal p q true) self.now.high bits → Contains bits bit → bit.at < bit_count net.now.graph.signals bit.sig → result ≡ keeps_shut net.now p q bit }
    {
        keeps_value(net, &self.low, bit) && keeps_value(net, &self.high, bit)
    }
}

fn equal(
    alloc: Global,
    net: &Net,
    one: Bit,
    another: Bit,
    value: bool,
    ends: &[Bit],
) -> Result<Table, NoMemory>
    ensures { IfOk result (λ table. IsNet net.now → HasNextCells net.now → ShowsNext net.now (equal one another value) table ends.now) }
{
    let one = Fixed { bit: one, value };
    let another = Fixed {
        bit: another,
        value,
    };
    pair_table(alloc, net, one, another, ends)
}
