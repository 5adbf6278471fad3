//! Two sides that may make a FIFO, and the tests by which each tells that it isn't full, or isn't empty.
ghost use Rattle.std.specs.Prelude.{◌≡◌, ◌↔◌, ◌≤◌, true, Some, None, map, length, option_map, Contains, IfOk};
ghost use Rattle.cell_graph.specs.Unfolded.{bit_of};
ghost use Rattle.cdc_model.specs.Nets.{design_of, next_tree};
ghost use Rattle.cdc_model.specs.Ordered.{IsAscending};
ghost use Rattle.cdc_model.specs.Schemes.{last_flop};
ghost use Rattle.fifo_laws.specs.Sides.{Side as SideOf};
ghost use Rattle.fifo_nodes.specs.declared.term.Term.{Term as TermOf};
ghost use Rattle.fifo_nodes.specs.Terms.{AreTermsIn, IsTermIn, term_of};
ghost use Rattle.fifo_terms.specs.Terms.{Is};
ghost use Rattle.gray_pointer.specs.Words.{IsIn, IsPlain};
ghost use Rattle.fifo_parts.specs.Comparisons.{AreComparisons, own_bit};
ghost use Rattle.fifo_parts.specs.Tellers.{flag_entry_key, IsShown, IsSideOf, IsTeller, IsTestBy, SaysFlag};

use crate::flags::{Comparisons, Flag, flags_of};
use crate::side::Side;
use cdc_base::{Bit, List, NoMemory};
use cdc_model::view::{copied_bit, width_of};
use cell_graph::{Cell, Net, Node};
use cofactor::Table;
use domains::Domains;
use fifo_nodes::{Apart, Term, is_test};
use std::alloc::Global;

/// A net, its domains and its table without a cube.
#[derive(Clone, Copy, Drop)]
pub struct Shown<'a> {
    pub net: &'a Net,
    pub domains: &'a Domains,
    pub table: &'a Table,
}

/// A side, the word in which the far side's code comes over to it, what it tells by comparing that with its own code, and
/// all its flags, ascending.
#[derive(Drop)]
pub struct Teller<'a> {
    pub side: &'a Side,
    pub over: List<Bit>,
    pub apart: Apart,
    pub flags: List<Flag>,
}

/// The side that writes and the side that reads, and those terms of a push that are tests for full.
#[derive(Drop)]
pub struct Pair<'a> {
    pub write: Teller<'a>,
    pub read: Teller<'a>,
    pub full: List<Term>,
}

impl<'a> Teller<'a> {
    pub fn of(
        alloc: Global,
        shown: Shown<'_>,
        comparisons: &Comparisons,
        side: &'a Side,
        over: List<Bit>,
        apart: Apart,
    ) -> Result<Teller<'a>, NoMemory>
        ensures given { IfOk result (λ teller. (teller.side.now ≡ side.entry.now) × (teller.apart ≡ apart)) }
        ensures tells { IfOk result (λ teller. (near far : SideOf) → IsShown shown.entry.net.now shown.entry.table.now →
            AreComparisons shown.entry.net.now shown.entry.domains.now comparisons.now.by_bit comparisons.now.by_clock → IsSideOf shown.entry.net.now shown.entry.domains.now side.entry.now near →
            over ≡ map last_flop far.over → length over ≤ 64 → IsTeller shown.entry.net.now shown.entry.domains.now teller near far) }
    {
        let flags = flags_of(alloc, shown, comparisons, side, over.as_slice(), apart)?;
        Ok(Teller {
            side,
            over,
            apart,
            flags,
        })
    }

    /// Those of the terms that are tests.
    pub fn tests(
        &self,
        alloc: Global,
        shown: Shown<'_>,
        terms: &[Term],
    ) -> Result<List<Term>, NoMemory>
        ensures { IfOk result (λ tests. (near far : SideOf) → IsShown shown.entry.net.now shown.entry.table.now → IsTeller shown.entry.net.now shown.entry.domains.now self.now near far →
            AreTermsIn shown.entry.net.now.graph terms.now → (t : TermOf) → Contains tests t ↔ (Contains terms.now t
            × IsTestBy self.now.apart (design_of shown.entry.net.now shown.entry.domains.now) (next_tree shown.entry.net.now) near far (term_of shown.entry.net.now.graph t))) }
    {
        let mut tests = List::new(alloc);
        for term in terms {
            if self.is_test(alloc, shown, *term)? {
                tests.push(*term)?;
            }
        }
        Ok(tests)
    }

    /// Whether some of the terms is a test.
    pub fn has_test(
        &self,
        alloc: Global,
        shown: Shown<'_>,
        terms: &[Term],
    ) -> Result<bool, NoMemory>
        ensures { IfOk result (λ has. (near far : SideOf) → IsShown shown.entry.net.now shown.entry.table.now → IsTeller shown.entry.net.now shown.entry.domains.now self.now near far →
            AreTermsIn shown.entry.net.now.graph terms.now → (has ≡ true) ↔ ((t : TermOf) × Contains terms.now t
            × IsTestBy self.now.apart (design_of shown.entry.net.now shown.entry.domains.now) (next_tree shown.entry.net.now) near far (term_of shown.entry.net.now.graph t))) }
    {
        for term in terms {
            if self.is_test(alloc, shown, *term)? {
                return Ok(true);
            }
        }
        Ok(false)
    }

    /// Whether the term is a test, by the side's code or by a flag.
    fn is_test(&self, alloc: Global, shown: Shown<'_>, term: Term) -> Result<bool, NoMemory>
        ensures { IfOk result (λ is. (near far : SideOf) → IsShown shown.entry.net.now shown.entry.table.now → IsTeller shown.entry.net.now shown.entry.domains.now self.now near far →
            IsTermIn shown.entry.net.now.graph term →
            (is ≡ true) ↔ IsTestBy self.now.apart (design_of shown.entry.net.now shown.entry.domains.now) (next_tree shown.entry.net.now) near far (term_of shown.entry.net.now.graph term)) }
    {
        if self.has_flag(shown.net, term) {
            return Ok(true);
        }
        is_test(
            alloc,
            shown.net,
            shown.table,
            &self.side.now,
            self.over.as_slice(),
            self.apart,
            term,
        )
    }

    /// Whether the term says that a flag has its value.
    fn has_flag(&self, net: &Net, term: Term) -> bool
        ensures { IsPlain net.now.graph → IsAscending flag_entry_key self.now.flags → IsTermIn net.now.graph term →
            (result ≡ true) ↔ SaysFlag net.now.graph self.now.flags (term_of net.now.graph term) }
    {
        match term {
            Term::Is { node, value } => self.has_flag_of(net, node, value),
            Term::Differ { .. } => false,
        }
    }

    /// Whether the node is the bit of a flag with this value.
    fn has_flag_of(&self, net: &Net, node: Option<Node>, value: bool) -> bool
        ensures { IsPlain net.now.graph → IsAscending flag_entry_key self.now.flags → IsIn net.now.graph node →
            (result ≡ true) ↔ SaysFlag net.now.graph self.now.flags (Is (option_map (bit_of net.now.graph) node) value) }
    {
        let Some(node) = node else {
            return false;
        };
        match own_bit(net, node) {
            Some(bit) => self
                .flags
                .as_slice()
                .binary_search(&Flag { bit, value })
                .is_ok(),
            None => false,
        }
    }
}

/// The bit of a signal that a node is itself.
pub fn own_bit(net: &Net, node: Node) -> Option<Bit>
    ensures { result ≡ own_bit net.now.graph node }
{
    match net.graph.cell(node.cell) {
        Cell::Var { sig } => Some(Bit { sig, at: node.at }),
        _ => None,
    }
}

/// Whether a register bit within its signal is on the clock and no plain copy.
pub fn is_register_on(shown: Shown<'_>, clock: u32, bit: Bit) -> bool
    ensures { IsShown shown.entry.net.now shown.entry.table.now → (result ≡ true) ↔
        (((design_of shown.entry.net.now shown.entry.domains.now).clock bit ≡ Some clock) × ((design_of shown.entry.net.now shown.entry.domains.now).copied bit ≡ None)) }
{
    bit.at < width_of(shown.net, bit.sig)
        && shown.domains.clock_of(bit) == Some(clock)
        && copied_bit(shown.net, shown.table, bit).is_none()
}
