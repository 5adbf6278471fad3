//! Counters whose code a register may hold, found by what the register takes and not by going through all pairs.
ghost use Rattle.std.specs.Prelude.{◌≡◌, ◌<◌, ◌≤◌, ℕ, Some, length, Contains, IfOk, slice_get};
ghost use Rattle.std.specs.HashMap as hash;
ghost use Rattle.cell_graph.specs.declared.cell.Cell.TheVariants.{Var};
ghost use Rattle.cell_graph.specs.declared.cell.Node.{Node};
ghost use Rattle.cell_graph.specs.Cells.{cell_at, cell_width};
ghost use Rattle.cell_graph.specs.Origin.{origin as tree_origin};
ghost use Rattle.cell_graph.specs.Tree as tree;
ghost use Rattle.cell_graph.specs.Unfolded.{IsNodeOf, tree_of};
ghost use Rattle.cdc_model.specs.declared.scheme.Shape.{Shape};
ghost use Rattle.gray_pointer.specs.contracts.candidates.KeyPartialEq.TheImpl as equality;
ghost use Rattle.gray_pointer.specs.Counters.{AreRegistersIn, IsCodeOf, IsKey, IsAmong, HasIdle, HasCounters};
ghost use Rattle.gray_pointer.specs.Grays.{Follows};
ghost use Rattle.gray_pointer.specs.Leaves.{CountsItself, IsLeaf};
ghost use Rattle.gray_pointer.specs.Registers.{Ascend, taken_at};
ghost use Rattle.gray_pointer.specs.Shapes.{IsRegisterIn};
ghost use Rattle.gray_pointer.specs.Taken.{IsChange};
ghost use Rattle.gray_pointer.specs.Words.{IsPlain, HasWord};
ghost use Rattle.gray_pointer.specs.declared.candidates.Key.{Key as KeyOf};
ghost use Rattle.gray_pointer.specs.declared.register.Register.{Register};

use crate::register::{Register, decoded};
use crate::word::{choice_of, exclusive_of, is_own};
use crate::worklist::Worklist;
use cdc_base::NoMemory;
use cell_graph::{Cell, CellId, Net, Node};
use cofactor::origin;
use std::alloc::Global;
use std::collections::HashMap;

/// The outermost form of the next value of a register that never changes.
#[derive(Clone, Copy, PartialEq, Eq, Hash, Debug, Drop)]
enum Form {
    Own,
    /// A choice by a condition with this origin.
    Choice(Option<Node>),
}

/// What a register that never changes and one that holds its code have in common.
#[derive(Clone, Copy, PartialEq, Eq, Hash, Debug, Drop)]
struct Key {
    clock: u32,
    width: u8,
    start: u64,
    form: Form,
}

/// The places of registers, by what each has in common with one that holds its code.
type Places = HashMap<Key, Vec<usize>>;

/// What is known of all registers before any pair is looked at: those that never change, which take their own values
/// alone.
#[derive(Drop)]
pub struct Candidates {
    idle: Places,
}

impl Candidates {
    pub fn find(alloc: Global, net: &Net, registers: &[Register]) -> Result<Candidates, NoMemory>
        ensures { IfOk result (λ candidates. IsPlain net.now.graph → AreRegistersIn net.now.graph registers.now → HasIdle net.now.graph registers.now candidates.idle) }
    {
        let mut idle = HashMap::new(alloc);
        for (place, register) in registers.iter().enumerate() {
            if changed_word(alloc, net, register)?.is_none() {
                let key = key_of(net, register, register.start);
                add_place(alloc, &mut idle, key, place)?;
            }
        }
        Ok(Candidates { idle })
    }

    /// The counters whose code the register may hold, ascending. In each shape every word that the register takes,
    /// beside its own, is the code of a count word, so any one such word leads to the counter. A register that never
    /// changes goes with counters that never do.
    pub fn counters_of(
        &self,
        alloc: Global,
        net: &Net,
        registers: &[Register],
        gray: &Register,
    ) -> Result<Vec<Register>, NoMemory>
        ensures only { IfOk result (λ counters. (r : Register) → Contains counters.items r → Contains registers.now r) }
        ensures all { IfOk result (λ counters. IsPlain net.now.graph → AreRegistersIn net.now.graph registers.now → Ascend registers.now → IsRegisterIn net.now.graph gray.now →
            HasIdle net.now.graph registers.now self.now.idle → (count : Register) (s : Shape) → Contains registers.now count → Follows net.now.graph count gray.now s →
            Contains counters.items count) }
        ensures ordered { IfOk result (λ counters. Ascend registers.now → Ascend counters.items) }
    {
        let mut places = self.places(alloc, net, registers, gray)?;
        places.sort_unstable();
        places.dedup();
        registers_at(alloc, registers, places.as_slice())
    }

    /// The places of these counters in the list, in any order.
    fn places(
        &self,
        alloc: Global,
        net: &Net,
        registers: &[Register],
        gray: &Register,
    ) -> Result<Vec<usize>, NoMemory>
        ensures { IfOk result (λ places. IsPlain net.now.graph → AreRegistersIn net.now.graph registers.now → Ascend registers.now → IsRegisterIn net.now.graph gray.now →
            HasIdle net.now.graph registers.now self.now.idle → HasCounters net.now.graph registers.now gray.now places.items) }
    {
        match changed_word(alloc, net, gray)? {
            Some(word) => {
                let places = places_by_word(alloc, net, registers, word)?;
                Ok(places)
            }
            None => {
                let key = key_of(net, gray, decoded(gray.start));
                let places = places_at(alloc, &self.idle, key)?;
                Ok(places)
            }
        }
    }
}

/// Adds a place to those at a key.
fn add_place(alloc: Global, places: &mut Places, key: Key, place: usize) -> Result<(), NoMemory>
    ensures added { IfOk result (λ _. IsAmong (hash.get equality.ghosts.eq places.new key) place) }
    ensures kept { IfOk result (λ _. (other : KeyOf) (p : ℕ) → IsAmong (hash.get equality.ghosts.eq places.old other) p →
        IsAmong (hash.get equality.ghosts.eq places.new other) p) }
{
    if let Some(there) = places.get_mut(&key) {
        there.push(place).map_err(|_| NoMemory)?;
        return Ok(());
    }
    let mut first = Vec::new(alloc);
    first.push(place).map_err(|_| NoMemory)?;
    places.insert(key, first).map_err(|_| NoMemory)?;
    Ok(())
}

/// The places at a key.
fn places_at(alloc: Global, places: &Places, key: Key) -> Result<Vec<usize>, NoMemory>
    ensures { IfOk result (λ found. (p : ℕ) → IsAmong (hash.get equality.ghosts.eq places.now key) p → Contains found.items p) }
{
    let mut found = Vec::new(alloc);
    if let Some(there) = places.get(&key) {
        for place in there.as_slice() {
            found.push(*place).map_err(|_| NoMemory)?;
        }
    }
    Ok(found)
}

/// The registers at these places.
fn registers_at(
    alloc: Global,
    registers: &[Register],
    places: &[usize],
) -> Result<Vec<Register>, NoMemory>
    ensures { IfOk result (λ found. found.items ≡ taken_at registers.now places.now) }
{
    let mut found = Vec::new(alloc);
    for place in places {
        if let Some(register) = register_at(registers, *place) {
            found.push(register).map_err(|_| NoMemory)?;
        }
    }
    Ok(found)
}

fn register_at(registers: &[Register], place: usize) -> Option<Register>
    ensures { result ≡ slice_get registers.now place }
{
    registers.get(place).copied()
}

/// What a register that counts from `start` and the one that holds its code have in common.
fn key_of(net: &Net, register: &Register, start: u64) -> Key
    ensures { IsPlain net.now.graph → IsRegisterIn net.now.graph register.now → IsKey net.now.graph register.now start result }
{
    let form = match choice_of(net, register.next, register.width) {
        Some(choice) => Form::Choice(choice.cond),
        None => Form::Own,
    };
    Key {
        clock: register.clock,
        width: register.width,
        start,
        form,
    }
}

/// A word that the register may take, through choices, and that isn't its own; None where there is none.
fn changed_word(alloc: Global, net: &Net, register: &Register) -> Result<Option<CellId>, NoMemory>
    ensures { IfOk result (λ word. IsPlain net.now.graph → IsRegisterIn net.now.graph register.now → IsChange net.now.graph register.now word) }
{
    let mut words = Worklist::new(alloc);
    words.add(register.next)?;
    for _ in 0..u64::MAX {
        let Some(word) = words.take() else {
            return Ok(None);
        };
        if is_own(net, word, register) {
            continue;
        }
        let Some(choice) = choice_of(net, word, register.width) else {
            return Ok(Some(word));
        };
        words.add(choice.yes)?;
        words.add(choice.other)?;
    }
    // No memory holds so many words.
    Err(NoMemory)
}

/// The places of the registers that may be counted by the word of which this word may be the code.
fn places_by_word(
    alloc: Global,
    net: &Net,
    registers: &[Register],
    code: CellId,
) -> Result<Vec<usize>, NoMemory>
    ensures { IfOk result (λ places. IsPlain net.now.graph → Ascend registers.now → (w : ℕ) → 2 ≤ w → HasWord net.now.graph code w → (place : ℕ) (count : Register) →
        slice_get registers.now place ≡ Some count → IsCodeOf net.now.graph count.sig w code → Contains places.items place) }
{
    let mut found = Vec::new(alloc);
    if let Some(code) = exclusive_of(net, code, 0) {
        add_counted(net, code.one, &mut found)?;
        add_counted(net, code.another, &mut found)?;
    }
    let places = places_of(alloc, registers, found.as_slice())?;
    Ok(places)
}

/// The places of the registers with these signals.
fn places_of(alloc: Global, registers: &[Register], sigs: &[u32]) -> Result<Vec<usize>, NoMemory>
    ensures { IfOk result (λ places. Ascend registers.now → (place : ℕ) (r : Register) → slice_get registers.now place ≡ Some r → Contains sigs.now r.sig →
        Contains places.items place) }
{
    let mut places = Vec::new(alloc);
    for sig in sigs {
        if let Some(place) = place_of(registers, *sig) {
            places.push(place).map_err(|_| NoMemory)?;
        }
    }
    Ok(places)
}

fn place_of(registers: &[Register], sig: u32) -> Option<usize>
    ensures { Ascend registers.now → (place : ℕ) (r : Register) → slice_get registers.now place ≡ Some r → r.sig ≡ sig → result ≡ Some place }
{
    match registers.binary_search_by_key(&sig, |register| register.sig) {
        Ok(place) => Some(place),
        Err(_) => None,
    }
}

/// Adds the signals that a count word with this bit may count: down the first branches to the signal itself, or to a
/// sum of it.
fn add_counted(net: &Net, bit: Option<Node>, found: &mut Vec<u32>) -> Result<(), NoMemory>
    ensures kept { IfOk result (λ _. (s : ℕ) → Contains found.old.items s → Contains found.new.items s) }
    ensures there { IfOk result (λ _. IsPlain net.now.graph → (sig w : ℕ) (node : Node) → bit ≡ Some node → IsNodeOf net.now.graph node → node.at < w →
        CountsItself net.now.graph sig w node.cell → Contains found.new.items sig) }
{
    let Some(leaf) = first_leaf(net, bit) else {
        return Ok(());
    };
    match net.graph.cell(leaf.cell) {
        Cell::Add { a, b } => {
            add_passed(net, a, leaf.at, found)?;
            add_passed(net, b, leaf.at, found)
        }
        _ => add_signal(net, Some(leaf), found),
    }
}

/// Adds the signal whose bit the bit of a cell passes on.
fn add_passed(net: &Net, cell: CellId, at: u8, found: &mut Vec<u32>) -> Result<(), NoMemory>
    ensures kept { IfOk result (λ _. (s : ℕ) → Contains found.old.items s → Contains found.new.items s) }
    ensures there { IfOk result (λ _. IsPlain net.now.graph → cell.0 < length net.now.graph.cells → at < cell_width net.now.graph cell → (sig w : ℕ) →
        tree_origin (tree_of net.now.graph cell) at ≡ Some (tree.Var sig w, at) → Contains found.new.items sig) }
{
    add_signal(net, origin(net, Node { cell, at }), found)
}

/// Adds the signal of which this is a bit.
fn add_signal(net: &Net, bit: Option<Node>, found: &mut Vec<u32>) -> Result<(), NoMemory>
    ensures kept { IfOk result (λ _. (s : ℕ) → Contains found.old.items s → Contains found.new.items s) }
    ensures there { IfOk result (λ _. (node : Node) (sig : ℕ) → bit ≡ Some node → cell_at net.now.graph node.cell ≡ Var sig → Contains found.new.items sig) }
{
    if let Some(node) = bit {
        if let Cell::Var { sig } = net.graph.cell(node.cell) {
            found.push(sig).map_err(|_| NoMemory)?;
        }
    }
    Ok(())
}

/// The bit that is passed when each multiplexer on the way takes its first branch.
fn first_leaf(net: &Net, bit: Option<Node>) -> Option<Node>
    ensures { IsPlain net.now.graph → (sig w : ℕ) (node : Node) → bit ≡ Some node → IsNodeOf net.now.graph node → node.at < w →
        CountsItself net.now.graph sig w node.cell → IsLeaf net.now.graph sig w node.at result }
{
    let mut node = bit?;
    for _ in 0..node.cell.0 {
        let Cell::Mux { yes, .. } = net.graph.cell(node.cell) else {
            break;
        };
        node = origin(
            net,
            Node {
                cell: yes,
                at: node.at,
            },
        )?;
    }
    Some(node)
}
