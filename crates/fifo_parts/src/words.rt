//! The words of a FIFO.
ghost use Rattle.std.specs.Prelude.{◌≡◌, ◌↔◌, ◌<◌, ◌≤◌, ℕ, suc, Bool, true, Some, Contains, IfOk};
ghost use Rattle.cell_graph.specs.Cells.{Cells};
ghost use Rattle.cell_graph.specs.Tree.{number};
ghost use Rattle.cdc_model.specs.Nets.{design_of};
ghost use Rattle.fifo_laws.specs.Sides.{Side as SideOf};
ghost use Rattle.fifo_laws.specs.Words.{depth_of};
ghost use Rattle.fifo_nodes.specs.declared.term.Term.{Term as TermOf};
ghost use Rattle.fifo_nodes.specs.Terms.{AreTermsIn};
ghost use Rattle.fifo_parts.specs.Words.{SaysBit};
ghost use Rattle.fifo_parts.specs.Tellers.{IsPair, IsShown};
ghost use Rattle.fifo_parts.specs.Words.{AreAllowed, AreTakings, bit_said, HaveCommon, is_said, IsTaking, IsWordBitOf, IsWordOf, said_by, says_all, says_word, word_said};
ghost use Rattle.gray_pointer.specs.Words.{IsPlain};

use crate::pair::{Pair, Shown, own_bit};
use crate::side::Side;
use cdc_base::{Bit, List, NoMemory};
use cdc_model::view::{has_bit, next_node, register_bits};
use cell_graph::{Net, Node};
use cofactor::Table;
use fifo_nodes::{Conditions, Taken, Term, are_equal, has_term, taken_by};
use std::alloc::Global;

/// A register bit, and the node that it takes under terms.
#[derive(Drop)]
pub struct Taking {
    pub bit: Bit,
    pub taken: Taken,
}

/// What each register bit takes, in the order of the bits.
pub fn takings(alloc: Global, net: &Net, table: &Table) -> Result<List<Taking>, NoMemory>
    ensures { IfOk result (λ takings. IsShown net.now table.now → AreTakings net.now takings) }
{
    let mut takings = List::new(alloc);
    let mut known = Conditions::none(alloc);
    let bits = register_bits(alloc, net)?;
    for bit in bits.as_slice() {
        if let Some(next) = next_node(net, *bit) {
            let taken = taken_by(alloc, net, table, *bit, next, &mut known)?;
            takings.push(Taking { bit: *bit, taken })?;
        }
    }
    Ok(takings)
}

/// A bit of a count that a term says, and its value.
#[derive(Clone, Copy, PartialEq, Eq, Debug, Drop)]
struct Said {
    at: u8,
    value: bool,
}

/// The bit of the side's count, but the highest, that the term says.
fn said_by(net: &Net, side: &Side, term: Term) -> Option<Said>
    ensures { result ≡ said_by net.now.graph side.entry.now.reg.count side.entry.now.width term }
{
    let Term::Is {
        node: Some(node),
        value,
    } = term
    else {
        return None;
    };
    let bit = own_bit(net, node)?;
    if bit.sig == side.reg.count && bit.at.saturating_add(1) < side.width {
        Some(Said { at: bit.at, value })
    } else {
        None
    }
}

/// Whether one of the terms says it.
fn is_said(net: &Net, side: &Side, terms: &[Term], said: Said) -> bool
    ensures { result ≡ is_said net.now.graph side.entry.now.reg.count side.entry.now.width terms.now said.at said.value }
{
    for term in terms {
        if said_by(net, side, *term) == Some(said) {
            return true;
        }
    }
    false
}

/// The word for which the bit may be a word bit. None where the terms say nothing of some bit.
fn word_said(net: &Net, side: &Side, terms: &[Term]) -> Option<u64>
    ensures { side.entry.now.width ≤ 64 → result ≡ word_said net.now.graph side.entry.now.reg.count side.entry.now.width terms.now side.entry.now.under }
{
    let mut word: u64 = 0;
    for at in 0..side.width.saturating_sub(1) {
        let value = bit_said(net, side, terms, at)?;
        word = with_bit(word, at, value);
    }
    Some(word)
}

/// The bit of that word. Where the terms say both values, one of them is a term of a push, and the word has the other one.
/// None where they say nothing of it.
fn bit_said(net: &Net, side: &Side, terms: &[Term], at: u8) -> Option<bool>
    ensures { result ≡ bit_said net.now.graph side.entry.now.reg.count side.entry.now.width terms.now side.entry.now.under at }
{
    let one = Said { at, value: true };
    let zero = Said { at, value: false };
    let has_one = is_said(net, side, terms, one);
    let has_zero = is_said(net, side, terms, zero);
    if !has_one && !has_zero {
        return None;
    }
    if has_one && has_zero {
        return Some(!is_said(net, side, side.under.as_slice(), one));
    }
    Some(has_one)
}

/// A word of `at` bits with one bit more.
fn with_bit(word: u64, at: u8, value: bool) -> u64
    ensures { (f : ℕ → Bool) → at < 64 → f at ≡ value → word ≡ number f at → result ≡ number f (suc at) }
{
    if value && at < 64 {
        word | 1 << at
    } else {
        word
    }
}

/// Whether the register bit is a word bit of the FIFO for the word.
pub fn is_word_bit(shown: Shown<'_>, pair: &Pair<'_>, word: u64, taking: &Taking) -> bool
    ensures { (write read : SideOf) → IsShown shown.entry.net.now shown.entry.table.now → IsPair shown.entry.net.now shown.entry.domains.now pair.now write read →
        IsTaking shown.entry.net.now taking.now → word < depth_of (design_of shown.entry.net.now shown.entry.domains.now) write →
        (result ≡ true) ↔ IsWordBitOf shown.entry.net.now shown.entry.domains.now write read word taking.now }
{
    let net = shown.net;
    let terms = taking.taken.under.as_slice();
    if shown.domains.clock_of(taking.bit) != Some(pair.write.side.clock) {
        return false;
    }
    if !says_all(net, pair.write.side, terms, word) {
        return false;
    }
    if !are_allowed(net, pair.write.side, terms, word) {
        return false;
    }
    has_one_of(terms, pair.full.as_slice())
}

/// Whether the terms say each bit of the word.
fn says_all(net: &Net, side: &Side, terms: &[Term], word: u64) -> bool
    ensures { result ≡ says_all net.now.graph side.entry.now.reg.count side.entry.now.width terms.now word }
{
    for at in 0..side.width.saturating_sub(1) {
        let value = has_bit(word, at);
        if !is_said(net, side, terms, Said { at, value }) {
            return false;
        }
    }
    true
}

/// Whether each of the terms says a bit of the word, or is a term of a push.
fn are_allowed(net: &Net, side: &Side, terms: &[Term], word: u64) -> bool
    ensures { IsPlain net.now.graph → AreTermsIn net.now.graph terms.now → AreTermsIn net.now.graph side.entry.now.under →
        (result ≡ true) ↔ AreAllowed net.now.graph side.entry.now.reg.count side.entry.now.width word side.entry.now.under terms.now }
{
    for term in terms {
        if !says(net, side, *term, word) && !has_term(side.under.as_slice(), *term) {
            return false;
        }
    }
    true
}

/// Whether the term says a bit of the word.
fn says(net: &Net, side: &Side, term: Term, word: u64) -> bool
    ensures { result ≡ says_word net.now.graph side.entry.now.reg.count side.entry.now.width word term }
{
    match said_by(net, side, term) {
        Some(Said { at, value }) => has_bit(word, at) == value,
        None => false,
    }
}

/// Whether one of the terms is among the others.
fn has_one_of(terms: &[Term], others: &[Term]) -> bool
    ensures { (g : Cells) → IsPlain g → AreTermsIn g terms.now → AreTermsIn g others.now → (result ≡ true) ↔ HaveCommon g terms.now others.now }
{
    for term in terms {
        if has_term(others, *term) {
            return true;
        }
    }
    false
}

/// The word for which the register bit is a word bit of the FIFO, if it is one.
pub fn word_of(shown: Shown<'_>, pair: &Pair<'_>, taking: &Taking) -> Option<u64>
    ensures { (write read : SideOf) → IsShown shown.entry.net.now shown.entry.table.now → IsPair shown.entry.net.now shown.entry.domains.now pair.now write read →
        IsTaking shown.entry.net.now taking.now → IsWordOf shown.entry.net.now shown.entry.domains.now write read taking.now result }
{
    let Some(word) = word_said(shown.net, pair.write.side, taking.taken.under.as_slice()) else {
        return None;
    };
    if is_word_bit(shown, pair, word, taking) {
        Some(word)
    } else {
        None
    }
}

/// Whether the register bits are of one signal and take their nodes under the same terms, in the same order.
pub fn are_alike(one: &Taking, another: &Taking) -> bool
    ensures { result ≡ true → (one.now.bit.sig ≡ another.now.bit.sig) × (one.now.taken.under ≡ another.now.taken.under) }
{
    one.bit.sig == another.bit.sig
        && are_equal(one.taken.under.as_slice(), another.taken.under.as_slice())
}

/// The counts of which the terms say that bit 0 has a value.
pub fn counts_said(alloc: Global, net: &Net, terms: &[Term]) -> Result<List<u32>, NoMemory>
    ensures { IfOk result (λ counts. (sig : ℕ) → Contains counts sig ↔ ((t : TermOf) × Contains terms.now t × SaysBit net.now sig t)) }
{
    let mut counts = List::new(alloc);
    for term in terms {
        if let Some(count) = count_said(net, *term) {
            counts.push(count)?;
        }
    }
    Ok(counts)
}

/// The count of which the term says bit 0.
fn count_said(net: &Net, term: Term) -> Option<u32>
    ensures { (sig : ℕ) → (result ≡ Some sig) ↔ SaysBit net.now sig term }
{
    let Term::Is {
        node: Some(node),
        ..
    } = term
    else {
        return None;
    };
    let bit = own_bit(net, node)?;
    if bit.at == 0 { Some(bit.sig) } else { None }
}
