//! Among which words a node chooses.
ghost use Rattle.std.specs.Prelude.{◌≡◌, ◌↔◌, ◌≤◌, ◌⊎◌, ◌++◌, [], ◌∷◌, true, Some, length, option_map, slice_get, IfOk};
ghost use Rattle.cell_graph.specs.Unfolded.{IsNodeOf, bit_of};
ghost use Rattle.domains.specs.declared.Domains.{Domains};
ghost use Rattle.cdc_model.specs.Nets.{design_of};
ghost use Rattle.cdc_model.specs.Tables.{ShowsNet};
ghost use Rattle.fifo_terms.specs.Terms.{HaveOneSet};
ghost use Rattle.fifo_laws.specs.Sides.{Side, side_width};
ghost use Rattle.fifo_laws.specs.Words.{index_terms};
ghost use Rattle.gray_pointer.specs.Words.{IsPlain, IsIn};
ghost use Rattle.fifo_nodes.specs.Terms.{terms_at};
ghost use Rattle.fifo_ways.specs.Chosen.{IsChosen};
ghost use Rattle.fifo_ways.specs.Steps.{AreConditions, IsIndexOf, IsSignalBit, IsEnded, AreBranches, IsStep, IsSignalCell, IsIndexCell, place_terms};

use cdc_base::{Bit, List, NoMemory};
use cell_graph::word::{low_bits, shifted_left, shifted_right};
use cell_graph::{Cell, CellId, Net, Node};
use cofactor::{Table, origin};
use fifo_nodes::{Term, have_one_set, terms};
use std::alloc::Global;

/// The words, from word 0 on, among which the node chooses by all bits but the highest of a count of this width, 2 to
/// 11 bits: multiplexers, one below the other, whose conditions are that the bits are those of 0, 1 and so on. None
/// where it is no such choice among as many words as those bits tell apart. `conditions` are those that are known to be
/// that the bits are those of 0, 1 and so on: each is looked at once for all nodes that choose by it.
pub fn chosen(
    alloc: Global,
    net: &Net,
    table: &Table,
    count: u32,
    width: u8,
    node: Node,
    conditions: &mut List<CellId>,
) -> Result<Option<List<Bit>>, NoMemory>
    ensures exact { IfOk result (λ found. (domains : Domains) (side : Side) → IsPlain net.now.graph → ShowsNet net.now [] table.now → IsNodeOf net.now.graph node →
        side.reg.count ≡ count → side_width (design_of net.now domains) side ≡ width → 2 ≤ width → width ≤ 11 →
        AreConditions net.now.graph (design_of net.now domains) side conditions.old →
        IsChosen (design_of net.now domains) side (Some (bit_of net.now.graph node)) found) }
    ensures conditions { IfOk result (λ _. (domains : Domains) (side : Side) → IsPlain net.now.graph → ShowsNet net.now [] table.now → IsNodeOf net.now.graph node →
        side.reg.count ≡ count → side_width (design_of net.now domains) side ≡ width → 2 ≤ width → width ≤ 11 →
        AreConditions net.now.graph (design_of net.now domains) side conditions.old →
        AreConditions net.now.graph (design_of net.now domains) side conditions.new) }
{
    let index = Index {
        count,
        bits: width.saturating_sub(1),
    };
    let mut words = List::new(alloc);
    let mut rest = Some(node);
    let last = shifted_left(1, u64::from(index.bits)).saturating_sub(1);
    for place in 0..last {
        let Some(step) = step_of(alloc, net, table, index, conditions, place, rest)? else {
            return Ok(None);
        };
        words.push(step.word)?;
        rest = step.rest;
    }
    with_last(net, words, rest)
}

/// The low bits of a register, by which words are told apart.
#[derive(Clone, Copy, Debug, Drop)]
struct Index {
    count: u32,
    bits: u8,
}

/// A word that is chosen, and the node of all further ones. None is the zero bit.
#[derive(Clone, Copy, Debug, Drop)]
struct Step {
    word: Bit,
    rest: Option<Node>,
}

/// The words with the last one, where the node is a bit of a signal.
fn with_last(net: &Net, words: List<Bit>, rest: Option<Node>) -> Result<Option<List<Bit>>, NoMemory>
    ensures { IfOk result (λ found. (domains : Domains) → IsPlain net.now.graph → IsIn net.now.graph rest →
        IsEnded (design_of net.now domains) words (option_map (bit_of net.now.graph) rest) found) }
{
    let Some(last) = signal_bit(net, rest) else {
        return Ok(None);
    };
    let mut words = words;
    words.push(last)?;
    Ok(Some(words))
}

/// The bit of a signal that the node is.
fn signal_bit(net: &Net, node: Option<Node>) -> Option<Bit>
    ensures { (domains : Domains) → IsPlain net.now.graph → IsIn net.now.graph node →
        IsSignalBit (design_of net.now domains) (option_map (bit_of net.now.graph) node) result }
{
    let node = node?;
    match net.graph.cell(node.cell) {
        Cell::Var { sig } => Some(Bit { sig, at: node.at }),
        _ => None,
    }
}

/// The word that the node chooses where the index is `place`, and the node of the others.
fn step_of(
    alloc: Global,
    net: &Net,
    table: &Table,
    index: Index,
    conditions: &mut List<CellId>,
    place: u64,
    node: Option<Node>,
) -> Result<Option<Step>, NoMemory>
    ensures { IfOk result (λ step. (domains : Domains) (side : Side) → IsPlain net.now.graph → ShowsNet net.now [] table.now → IsIn net.now.graph node →
        IsIndexOf (design_of net.now domains) side index → AreConditions net.now.graph (design_of net.now domains) side conditions.old →
        IsStep net.now.graph (design_of net.now domains) side place (option_map (bit_of net.now.graph) node) step
        × AreConditions net.now.graph (design_of net.now domains) side conditions.new) }
{
    let Some(branches) = branches_of(net, node) else {
        return Ok(None);
    };
    let Some(word) = signal_bit(net, branches.yes) else {
        return Ok(None);
    };
    if !is_condition(alloc, net, table, index, conditions, place, branches.cond)? {
        return Ok(None);
    }
    Ok(Some(Step {
        word,
        rest: branches.other,
    }))
}

/// The condition of a multiplexer's bit, and the origins of its branches' bits.
#[derive(Clone, Copy, Debug, Drop)]
struct Branches {
    cond: Node,
    yes: Option<Node>,
    other: Option<Node>,
}

fn branches_of(net: &Net, node: Option<Node>) -> Option<Branches>
    ensures { IsPlain net.now.graph → IsIn net.now.graph node → AreBranches net.now.graph (option_map (bit_of net.now.graph) node) result }
{
    let node = node?;
    let at = node.at;
    match net.graph.cell(node.cell) {
        Cell::Mux { cond, yes, other } => Some(Branches {
            cond: Node { cell: cond, at: 0 },
            yes: origin(net, Node { cell: yes, at }),
            other: origin(net, Node { cell: other, at }),
        }),
        _ => None,
    }
}

/// Whether the condition is that the index is `place`, by those that are known; where it is the first one beyond them, it is
/// known from then on.
fn is_condition(
    alloc: Global,
    net: &Net,
    table: &Table,
    index: Index,
    conditions: &mut List<CellId>,
    place: u64,
    cond: Node,
) -> Result<bool, NoMemory>
    ensures { IfOk result (λ is. (domains : Domains) (side : Side) → IsPlain net.now.graph → ShowsNet net.now [] table.now → IsNodeOf net.now.graph cond → cond.at ≡ 0 →
        IsIndexOf (design_of net.now domains) side index → AreConditions net.now.graph (design_of net.now domains) side conditions.old →
        ((is ≡ true) ↔ HaveOneSet (terms_at net.now.graph cond true) (index_terms (design_of net.now domains) side place))
        × AreConditions net.now.graph (design_of net.now domains) side conditions.new) }
{
    if is_known(conditions.as_slice(), place, cond.cell) {
        return Ok(true);
    }
    if !is_place(alloc, net, table, index, place, cond)? {
        return Ok(false);
    }
    add_next(conditions, place, cond.cell)?;
    Ok(true)
}

/// Whether the cell is the condition that is known for the place.
fn is_known(conditions: &[CellId], place: u64, cell: CellId) -> bool
    ensures { result ≡ true → slice_get conditions.now place ≡ Some cell }
{
    match conditions.get(place as usize) {
        Some(known) => *known == cell,
        None => false,
    }
}

/// Adds the condition for the place, where it is the next one.
fn add_next(conditions: &mut List<CellId>, place: u64, cell: CellId) -> Result<(), NoMemory>
    ensures { IfOk result (λ _. (conditions.new ≡ conditions.old) ⊎ ((place ≡ length conditions.old) × (conditions.new ≡ conditions.old ++ cell ∷ []))) }
{
    if conditions.len() as u64 == place {
        conditions.push(cell)
    } else {
        Ok(())
    }
}

/// Whether the condition is that the index is `place`: it has the same terms.
fn is_place(
    alloc: Global,
    net: &Net,
    table: &Table,
    index: Index,
    place: u64,
    cond: Node,
) -> Result<bool, NoMemory>
    ensures { IfOk result (λ is. (domains : Domains) (side : Side) → IsPlain net.now.graph → ShowsNet net.now [] table.now → IsNodeOf net.now.graph cond →
        IsIndexOf (design_of net.now domains) side index → (is ≡ true) ↔ HaveOneSet (terms_at net.now.graph cond true) (index_terms (design_of net.now domains) side place)) }
{
    let terms = terms(alloc, net, table, Some(cond), true)?;
    let Some(cell) = index_cell(net, terms.as_slice(), index.count) else {
        return Ok(false);
    };
    let wanted = place_terms(alloc, cell, index.bits, place)?;
    Ok(have_one_set(terms.as_slice(), wanted.as_slice()))
}

/// The cell of the register in these terms.
fn index_cell(net: &Net, terms: &[Term], count: u32) -> Option<CellId>
    ensures { IsIndexCell net.now.graph terms.now count result }
{
    for term in terms {
        if let Some(cell) = signal_cell(net, *term, count) {
            return Some(cell);
        }
    }
    None
}

fn signal_cell(net: &Net, term: Term, sig: u32) -> Option<CellId>
    ensures { IsSignalCell net.now.graph term sig result }
{
    let Term::Is {
        node: Some(node),
        ..
    } = term
    else {
        return None;
    };
    match net.graph.cell(node.cell) {
        Cell::Var { sig: own } if own == sig => Some(node.cell),
        _ => None,
    }
}

/// The terms that the low bits of a cell are those of `place`.
fn place_terms(alloc: Global, cell: CellId, bits: u8, place: u64) -> Result<List<Term>, NoMemory>
    ensures { IfOk result (λ terms. terms ≡ place_terms cell bits place) }
{
    let mut terms = List::new(alloc);
    for at in 0..bits {
        terms.push(Term::Is {
            node: Some(Node { cell, at }),
            value: low_bits(shifted_right(place, u64::from(at)), 1) == 1,
        })?;
    }
    Ok(terms)
}
