//! Flags: register bits that tell that a FIFO isn't full, or isn't empty.
ghost use Rattle.std.specs.Prelude.{◌≡◌, ◌↔◌, ◌⊎◌, ◌≤◌, ◌++◌, ℕ, Bool, true, Some, List, map, length, option_map, slice_get, Contains, IfOk};
ghost use Rattle.std.specs.Option.{option_copied};
ghost use Rattle.cdc_base.specs.declared.bit.Bit.{Bit as BitOf};
ghost use Rattle.cell_graph.specs.Unfolded.{bit_of};
ghost use Rattle.domains.specs.Assignment.{clock_of};
ghost use Rattle.cdc_model.specs.Nets.{design_of, is_register_bit, next_tree, start_of};
ghost use Rattle.cdc_model.specs.Ordered.{IsAll, IsAscending};
ghost use Rattle.cdc_model.specs.Schemes.{last_flop};
ghost use Rattle.fifo_terms.specs.Shows.{node_terms};
ghost use Rattle.fifo_laws.specs.Sides.{Side as SideOf};
ghost use Rattle.fifo_nodes.specs.Terms.{IsTermIn, term_of};
ghost use Rattle.gray_pointer.specs.Words.{IsIn};
ghost use Rattle.fifo_parts.specs.declared.flags.Comparisons.{Comparisons as ComparisonsOf};
ghost use Rattle.fifo_parts.specs.declared.flags.Flag.{Flag as FlagOf};
ghost use Rattle.fifo_parts.specs.Comparisons.{AreComparisons, CompareAll, Grows, GrowsBy, HasBit, IsAdded, IsAmong, IsAtBit, IsAtClock, IsBitOf, IsFoundBy, IsKeptBy, IsOwn};
ghost use Rattle.fifo_parts.specs.Tellers.{flag_entry_key, IsFlagBy, IsShown, IsSideOf, MayStart};

use crate::pair::{Shown, own_bit};
use crate::side::Side;
use cdc_base::{Bit, List, NoMemory};
use cdc_model::view::{copied_bit, known_value, next_node, register_bits, start_value};
use cell_graph::{Cell, Net, Node};
use cofactor::origin;
use domains::Domains;
use fifo_nodes::{Apart, Term, is_flag_test, terms};
use std::alloc::Global;
use std::collections::{BTreeMap, HashMap};

/// A register bit, and its value where the FIFO isn't full, or isn't empty.
#[derive(Clone, Copy, PartialEq, Eq, PartialOrd, Ord, Hash, Debug, Drop)]
pub struct Flag {
    pub bit: Bit,
    pub value: bool,
}

/// What may be flags: by the bits that their next values compare, and by their clocks those that compare nothing.
#[derive(Drop)]
pub struct Comparisons {
    pub by_bit: HashMap<Bit, Vec<Flag>>,
    pub by_clock: BTreeMap<u32, Vec<Flag>>,
}

impl Comparisons {
    /// Looks at each register bit once.
    pub fn find(alloc: Global, shown: Shown<'_>) -> Result<Comparisons, NoMemory>
        ensures { IfOk result (λ found. IsShown shown.entry.net.now shown.entry.table.now → AreComparisons shown.entry.net.now shown.entry.domains.now found.by_bit found.by_clock) }
    {
        let mut found = Comparisons {
            by_bit: HashMap::new(alloc),
            by_clock: BTreeMap::new(alloc),
        };
        let bits = register_bits(alloc, shown.net)?;
        for bit in bits.as_slice() {
            found.add_bit(alloc, shown, *bit)?;
        }
        Ok(found)
    }

    /// Adds what the next value of a register bit compares, where the bit is to be 0 and where it is to be 1. A plain copy
    /// is no flag.
    fn add_bit(&mut self, alloc: Global, shown: Shown<'_>, bit: Bit) -> Result<(), NoMemory>
        ensures kept { IfOk result (λ _. IsShown shown.entry.net.now shown.entry.table.now → is_register_bit shown.entry.net.now bit ≡ true →
            GrowsBy (IsOwn shown.entry.net.now shown.entry.domains.now) self.old self.new) }
        ensures found { IfOk result (λ _. IsShown shown.entry.net.now shown.entry.table.now → is_register_bit shown.entry.net.now bit ≡ true →
            (v : Bool) → IsOwn shown.entry.net.now shown.entry.domains.now (record { bit = bit; value = v }) →
            IsAdded shown.entry.net.now shown.entry.domains.now self.new (record { bit = bit; value = v })) }
    {
        if copied_bit(shown.net, shown.table, bit).is_some() {
            return Ok(());
        }
        if is_choice(shown, bit) {
            return Ok(());
        }
        self.add(alloc, shown, Flag { bit, value: false })?;
        self.add(alloc, shown, Flag { bit, value: true })?;
        Ok(())
    }

    /// Adds what the terms of the flag's next value compare.
    fn add(&mut self, alloc: Global, shown: Shown<'_>, flag: Flag) -> Result<(), NoMemory>
        ensures kept { IfOk result (λ _. GrowsBy (λ f. f ≡ flag) self.old self.new) }
        ensures found { IfOk result (λ _. IsShown shown.entry.net.now shown.entry.table.now → is_register_bit shown.entry.net.now flag.bit ≡ true →
            IsAdded shown.entry.net.now shown.entry.domains.now self.new flag) }
    {
        let Some(next) = next_node(shown.net, flag.bit) else {
            return Ok(());
        };
        let said = terms(alloc, shown.net, shown.table, Some(next), flag.value)?;
        for term in said.as_slice() {
            self.add_term(alloc, shown, flag, *term)?;
        }
        Ok(())
    }

    /// Adds what is compared where the term is that a node has a value, and the node has the other one.
    fn add_term(
        &mut self,
        alloc: Global,
        shown: Shown<'_>,
        flag: Flag,
        term: Term,
    ) -> Result<(), NoMemory>
        ensures kept { IfOk result (λ _. GrowsBy (λ f. f ≡ flag) self.old self.new) }
        ensures found { IfOk result (λ _. IsShown shown.entry.net.now shown.entry.table.now → IsTermIn shown.entry.net.now.graph term →
            (c : ℕ) → clock_of shown.entry.domains.now flag.bit ≡ Some c →
            IsKeptBy shown.entry.net.now shown.entry.domains.now self.new.by_bit self.new.by_clock flag c (term_of shown.entry.net.now.graph term)) }
    {
        match term {
            Term::Is { node, value } => self.add_compared(alloc, shown, flag, node, !value),
            Term::Differ { .. } => Ok(()),
        }
    }

    /// Adds what the first of the terms of a node at a value compares. Of a test each term compares.
    fn add_compared(
        &mut self,
        alloc: Global,
        shown: Shown<'_>,
        flag: Flag,
        node: Option<Node>,
        value: bool,
    ) -> Result<(), NoMemory>
        ensures kept { IfOk result (λ _. GrowsBy (λ f. f ≡ flag) self.old self.new) }
        ensures found { IfOk result (λ _. IsShown shown.entry.net.now shown.entry.table.now → IsIn shown.entry.net.now.graph node →
            (c : ℕ) → clock_of shown.entry.domains.now flag.bit ≡ Some c → (bits : List BitOf) →
            CompareAll shown.entry.net.now shown.entry.domains.now (node_terms (option_map (bit_of shown.entry.net.now.graph) node) value) bits →
            IsFoundBy self.new.by_bit self.new.by_clock bits c flag) }
    {
        let compared = terms(alloc, shown.net, shown.table, node, value)?;
        match first_of(compared.as_slice()) {
            Some(term) => add_nodes(alloc, shown.net, &mut self.by_bit, term, flag),
            None => add_at_clock(alloc, shown.domains, &mut self.by_clock, flag),
        }
    }

    /// What may be flags on the side, ascending: what compares bits of the word in which the far side's code comes over,
    /// or nothing.
    fn candidates(&self, alloc: Global, side: &Side, over: &[Bit]) -> Result<Vec<Flag>, NoMemory>
        ensures same { IfOk result (λ found. (f : FlagOf) → Contains found.items f ↔ IsFoundBy self.now.by_bit self.now.by_clock over.now side.entry.now.clock f) }
        ensures ordered { IfOk result (λ found. IsAscending flag_entry_key found.items) }
    {
        let mut candidates = self.by_bits(alloc, over)?;
        add_there(self.by_clock.get(&side.clock), &mut candidates)?;
        Ok(into_order(candidates))
    }

    /// What compares one of the bits.
    fn by_bits(&self, alloc: Global, bits: &[Bit]) -> Result<Vec<Flag>, NoMemory>
        ensures { IfOk result (λ found. (f : FlagOf) → Contains found.items f ↔ ((b : BitOf) × Contains bits.now b × IsAtBit self.now.by_bit b f)) }
    {
        let mut found = Vec::new(alloc);
        for bit in bits {
            add_there(self.by_bit.get(bit), &mut found)?;
        }
        Ok(found)
    }
}

/// Whether the next value of a register bit is that of a choice and not known. Its one term is that it has the value
/// itself, and compares nothing.
fn is_choice(shown: Shown<'_>, bit: Bit) -> bool
    ensures { result ≡ true → IsShown shown.entry.net.now shown.entry.table.now → is_register_bit shown.entry.net.now bit ≡ true →
        (k : ComparisonsOf) (v : Bool) → IsAdded shown.entry.net.now shown.entry.domains.now k (record { bit = bit; value = v }) }
{
    let Some(next) = next_node(shown.net, bit) else {
        return false;
    };
    let Some(node) = origin(shown.net, next) else {
        return false;
    };
    match shown.net.graph.cell(node.cell) {
        Cell::Mux { .. } => known_value(shown.table, node).is_none(),
        _ => false,
    }
}

fn first_of(terms: &[Term]) -> Option<Term>
    ensures { result ≡ slice_get terms.now 0 }
{
    terms.first().copied()
}

/// Adds the flag at the bits that the nodes are which the term compares.
fn add_nodes(
    alloc: Global,
    net: &Net,
    by_bit: &mut HashMap<Bit, Vec<Flag>>,
    term: Term,
    flag: Flag,
) -> Result<(), NoMemory>
    ensures kept { IfOk result (λ _. Grows (λ f. f ≡ flag) (IsAtBit by_bit.old) (IsAtBit by_bit.new)) }
    ensures added { IfOk result (λ _. (b : BitOf) → HasBit net.now.graph term b → IsAtBit by_bit.new b flag) }
{
    match term {
        Term::Is { .. } => Ok(()),
        Term::Differ { one, another, .. } => {
            add_at(alloc, net, by_bit, one, flag)?;
            add_at(alloc, net, by_bit, another, flag)
        }
    }
}

/// Adds the flag at the bit that the node is.
fn add_at(
    alloc: Global,
    net: &Net,
    by_bit: &mut HashMap<Bit, Vec<Flag>>,
    node: Option<Node>,
    flag: Flag,
) -> Result<(), NoMemory>
    ensures kept { IfOk result (λ _. Grows (λ f. f ≡ flag) (IsAtBit by_bit.old) (IsAtBit by_bit.new)) }
    ensures added { IfOk result (λ _. (b : BitOf) → IsBitOf net.now.graph node b → IsAtBit by_bit.new b flag) }
{
    let Some(node) = node else {
        return Ok(());
    };
    match own_bit(net, node) {
        Some(bit) => add_by_bit(alloc, by_bit, bit, flag),
        None => Ok(()),
    }
}

fn add_by_bit(
    alloc: Global,
    by_bit: &mut HashMap<Bit, Vec<Flag>>,
    bit: Bit,
    flag: Flag,
) -> Result<(), NoMemory>
    ensures added { IfOk result (λ _. IsAtBit by_bit.new bit flag) }
    ensures kept { IfOk result (λ _. (b : BitOf) (f : FlagOf) → IsAtBit by_bit.old b f → IsAtBit by_bit.new b f) }
    ensures only { IfOk result (λ _. (b : BitOf) (f : FlagOf) → IsAtBit by_bit.new b f → IsAtBit by_bit.old b f ⊎ (f ≡ flag)) }
{
    if let Some(there) = by_bit.get_mut(&bit) {
        there.push(flag).map_err(|_| NoMemory)?;
        return Ok(());
    }
    let mut first = Vec::new(alloc);
    first.push(flag).map_err(|_| NoMemory)?;
    by_bit.insert(bit, first).map_err(|_| NoMemory)?;
    Ok(())
}

/// Adds the flag at its clock.
fn add_at_clock(
    alloc: Global,
    domains: &Domains,
    by_clock: &mut BTreeMap<u32, Vec<Flag>>,
    flag: Flag,
) -> Result<(), NoMemory>
    ensures kept { IfOk result (λ _. Grows (λ f. f ≡ flag) (IsAtClock by_clock.old) (IsAtClock by_clock.new)) }
    ensures added { IfOk result (λ _. (c : ℕ) → clock_of domains.now flag.bit ≡ Some c → IsAtClock by_clock.new c flag) }
{
    match domains.clock_of(flag.bit) {
        Some(clock) => add_by_clock(alloc, by_clock, clock, flag),
        None => Ok(()),
    }
}

fn add_by_clock(
    alloc: Global,
    by_clock: &mut BTreeMap<u32, Vec<Flag>>,
    clock: u32,
    flag: Flag,
) -> Result<(), NoMemory>
    ensures added { IfOk result (λ _. IsAtClock by_clock.new clock flag) }
    ensures kept { IfOk result (λ _. (c : ℕ) (f : FlagOf) → IsAtClock by_clock.old c f → IsAtClock by_clock.new c f) }
    ensures only { IfOk result (λ _. (c : ℕ) (f : FlagOf) → IsAtClock by_clock.new c f → IsAtClock by_clock.old c f ⊎ (f ≡ flag)) }
{
    if let Some(there) = by_clock.get_mut(&clock) {
        there.push(flag).map_err(|_| NoMemory)?;
        return Ok(());
    }
    let mut first = Vec::new(alloc);
    first.push(flag).map_err(|_| NoMemory)?;
    by_clock.insert(clock, first).map_err(|_| NoMemory)?;
    Ok(())
}

/// Adds the flags, where there are any.
fn add_there(there: Option<&Vec<Flag>>, found: &mut Vec<Flag>) -> Result<(), NoMemory>
    ensures { IfOk result (λ _. (f : FlagOf) → Contains found.new.items f ↔ (Contains found.old.items f ⊎ IsAmong (option_copied there.entry) f)) }
{
    match there {
        Some(flags) => add_all(flags.as_slice(), found),
        None => Ok(()),
    }
}

fn add_all(flags: &[Flag], found: &mut Vec<Flag>) -> Result<(), NoMemory>
    ensures { IfOk result (λ _. found.new.items ≡ found.old.items ++ flags.now) }
{
    for flag in flags {
        found.push(*flag).map_err(|_| NoMemory)?;
    }
    Ok(())
}

/// The flags in their order, each once.
fn into_order(flags: Vec<Flag>) -> Vec<Flag>
    ensures same { (f : FlagOf) → Contains result.items f ↔ Contains flags.items f }
    ensures ordered { IsAscending flag_entry_key result.items }
{
    let mut flags = flags;
    flags.sort_unstable();
    flags.dedup();
    flags
}

/// All flags of a side, ascending. `over` is the word in which the far side's code comes over.
pub fn flags_of(
    alloc: Global,
    shown: Shown<'_>,
    comparisons: &Comparisons,
    side: &Side,
    over: &[Bit],
    apart: Apart,
) -> Result<List<Flag>, NoMemory>
    ensures { IfOk result (λ flags. (near far : SideOf) → IsShown shown.entry.net.now shown.entry.table.now →
        AreComparisons shown.entry.net.now shown.entry.domains.now comparisons.now.by_bit comparisons.now.by_clock → IsSideOf shown.entry.net.now shown.entry.domains.now side.entry.now near →
        over.now ≡ map last_flop far.over → length over.now ≤ 64 →
        IsAll (λ (g : FlagOf). IsFlagBy apart (design_of shown.entry.net.now shown.entry.domains.now) (next_tree shown.entry.net.now) near far g.bit g.value) flag_entry_key flags) }
{
    let candidates = comparisons.candidates(alloc, side, over)?;
    let mut flags = List::new(alloc);
    for flag in candidates.as_slice() {
        if is_flag(alloc, shown, side, over, apart, *flag)? {
            flags.push(*flag)?;
        }
    }
    Ok(flags)
}

/// Whether the register bit, which is no plain copy, is a flag of the side where it has the value.
fn is_flag(
    alloc: Global,
    shown: Shown<'_>,
    side: &Side,
    over: &[Bit],
    apart: Apart,
    flag: Flag,
) -> Result<bool, NoMemory>
    ensures { IfOk result (λ is. (near far : SideOf) → IsShown shown.entry.net.now shown.entry.table.now → IsSideOf shown.entry.net.now shown.entry.domains.now side.entry.now near →
        over.now ≡ map last_flop far.over → length over.now ≤ 64 → IsOwn shown.entry.net.now shown.entry.domains.now flag →
        (is ≡ true) ↔ IsFlagBy apart (design_of shown.entry.net.now shown.entry.domains.now) (next_tree shown.entry.net.now) near far flag.bit flag.value) }
{
    let Some(next) = next_node(shown.net, flag.bit) else {
        return Ok(false);
    };
    if !is_on(shown.domains, flag.bit, side.clock) || !may_start(shown, apart, flag) {
        return Ok(false);
    }
    is_flag_test(
        alloc,
        shown.net,
        shown.table,
        &side.next,
        over,
        apart,
        next,
        flag.value,
    )
}

fn is_on(domains: &Domains, bit: Bit, clock: u32) -> bool
    ensures { (result ≡ true) ↔ (clock_of domains.now bit ≡ Some clock) }
{
    domains.clock_of(bit) == Some(clock)
}

/// Whether a flag may start as it does: one for empty starts as for an empty FIFO.
fn may_start(shown: Shown<'_>, apart: Apart, flag: Flag) -> bool
    ensures { (result ≡ true) ↔ MayStart apart (start_of shown.entry.net.now.graph.signals flag.bit) flag.value }
{
    match apart {
        Apart::Full => true,
        Apart::Empty => start_value(shown.net, flag.bit) == Some(!flag.value),
    }
}
