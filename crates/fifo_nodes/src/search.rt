//! Nodes whose terms are looked for, and the terms that were found.
ghost use Rattle.std.specs.Prelude.{◌≡◌, ◌↔◌, ◌<◌, ℕ, true, cond, Some, [], ◌∷◌, ◌++◌, IfOk};
ghost use Rattle.cell_graph.specs.declared.net.Net.{Net};
ghost use Rattle.cell_graph.specs.Cells.{cell_at, cell_width};
ghost use Rattle.cell_graph.specs.Feeds.{node};
ghost use Rattle.cell_graph.specs.Unfolded.{tree_of, IsNodeOf};
ghost use Rattle.cdc_model.specs.Tables.{ShowsNet};
ghost use Rattle.fifo_terms.specs.Terms.{terms, bare, differ, each_below, zero_terms};
ghost use Rattle.gray_pointer.specs.Words.{IsPlain};
ghost use Rattle.fifo_nodes.specs.Nodes.{IsOwn, IsWithin, known_of};
ghost use Rattle.fifo_nodes.specs.Terms.{term_of, terms_at, terms_in, unequal, IsTermIn};
ghost use Rattle.fifo_nodes.specs.declared.search.Made.{Made};
ghost use Rattle.fifo_nodes.specs.Searches.{nothing, asked_terms, Covers, IsTake, made_by};

use crate::bits::{exclusive_or, origin_of};
use crate::inversions::bare_node;
use crate::term::Term;
use cdc_base::{List, NoMemory};
use cdc_model::view::known_value;
use cell_graph::{Cell, CellId, Net, Node, ReduceKind};
use cofactor::Table;
use gray_pointer::worklist::Worklist;
use std::alloc::Global;
use std::marker::Model;

/// A node whose terms at a value are asked for.
#[derive(Clone, Copy, PartialEq, Eq, Hash, Drop)]
pub struct Asked {
    pub node: Node,
    pub value: bool,
}

/// Nodes whose terms are looked for, each once, and the terms that were found.
#[derive(Drop)]
pub struct Search {
    asked: Worklist<Asked>,
    terms: List<Term>,
}

impl Model for Search {
    ghost use Rattle.std.specs.HashSet.{keys};
    ghost use Rattle.fifo_nodes.specs.Searches.{Searched};

    ghost Value = { Searched };

    ghost view = { λ s. record { met = keys s.asked.met; left = s.asked.left.items; terms = s.terms } };
}

/// What the terms of a bit of a cell at a value are made of.
#[derive(Clone, Copy, Drop)]
enum Made {
    /// The terms of a bit at a value.
    Of(Asked),
    /// Those of two bits at the value.
    Both { one: Node, another: Node },
    /// Those of each bit of a cell at the value.
    Each(CellId),
    /// Those by which the exclusive or of two bits has the value.
    Unequal { one: Node, another: Node },
    /// Those by which the exclusive or of each two bits of two cells hasn't.
    Pairs { one: CellId, another: CellId },
    /// The one term that the bit has the value.
    Itself,
}

impl Search {
    pub fn new(alloc: Global) -> Search
        ensures { result ≡ nothing }
    {
        Search {
            asked: Worklist::new(alloc),
            terms: List::new(alloc),
        }
    }

    /// Asks for the terms of a node at a value; None is the zero bit.
    pub fn ask(&mut self, net: &Net, node: Option<Node>, value: bool) -> Result<(), NoMemory>
        ensures { IfOk result (λ _. (n : ℕ) → IsPlain net.now.graph → IsWithin net.now.graph n node →
            Covers net.now.graph n (terms_in net.now.graph node value) self.old self.new) }
    {
        match origin_of(net, node) {
            Some(node) => self.asked.add(Asked { node, value }),
            None => self.add_zero(value),
        }
    }

    /// Adds the terms of the zero bit at a value.
    fn add_zero(&mut self, value: bool) -> Result<(), NoMemory>
        ensures { IfOk result (λ _. (n : ℕ) → (net : Net) → Covers net.graph n (zero_terms value) self.old self.new) }
    {
        if value {
            self.add(Term::Is { node: None, value })
        } else {
            Ok(())
        }
    }

    /// Adds a term.
    fn add(&mut self, term: Term) -> Result<(), NoMemory>
        ensures { IfOk result (λ _. (n : ℕ) (net : Net) → IsTermIn net.graph term → Covers net.graph n (term_of net.graph term ∷ []) self.old self.new) }
    {
        self.terms.push(term)
    }

    /// Looks at a node that was asked for: its terms are found, or those of its operands are asked for.
    pub fn look(&mut self, net: &Net, table: &Table, asked: Asked) -> Result<(), NoMemory>
        ensures { IfOk result (λ _. IsPlain net.now.graph → ShowsNet net.now [] table.now → IsOwn net.now.graph asked.node →
            Covers net.now.graph asked.node.cell.0 (asked_terms net.now.graph asked) self.old self.new) }
    {
        let Asked { node, value } = asked;
        if is_known(table, node, value) {
            return Ok(());
        }
        match made_of(net, asked) {
            Made::Of(operand) => self.ask(net, Some(operand.node), operand.value),
            Made::Both { one, another } => self.ask_both(net, one, another, value),
            Made::Each(cell) => self.ask_each(net, cell, value),
            Made::Unequal { one, another } => self.ask_unequal(net, table, one, another, value),
            Made::Pairs { one, another } => self.ask_pairs(net, table, one, another, !value),
            Made::Itself => self.add(Term::Is {
                node: Some(node),
                value,
            }),
        }
    }

    fn ask_both(&mut self, net: &Net, one: Node, another: Node, value: bool) -> Result<(), NoMemory>
        ensures { IfOk result (λ _. (n : ℕ) → IsPlain net.now.graph → IsWithin net.now.graph n (Some one) → IsWithin net.now.graph n (Some another) →
            Covers net.now.graph n (terms_at net.now.graph one value ++ terms_at net.now.graph another value) self.old self.new) }
    {
        self.ask(net, Some(one), value)?;
        self.ask(net, Some(another), value)
    }

    /// Asks for the terms of each bit of a cell at a value.
    fn ask_each(&mut self, net: &Net, cell: CellId, value: bool) -> Result<(), NoMemory>
        ensures { IfOk result (λ _. (n : ℕ) → IsPlain net.now.graph → ((j : ℕ) → j < cell_width net.now.graph cell → IsWithin net.now.graph n (Some (node cell j))) →
            Covers net.now.graph n (each_below (λ j. terms (tree_of net.now.graph cell) j value) (cell_width net.now.graph cell)) self.old self.new) }
    {
        for at in 0..net.graph.width(cell) {
            self.ask(net, Some(Node { cell, at }), value)?;
        }
        Ok(())
    }

    /// Asks for the terms by which the exclusive or of each two bits of two cells has the value.
    fn ask_pairs(
        &mut self,
        net: &Net,
        table: &Table,
        one: CellId,
        another: CellId,
        value: bool,
    ) -> Result<(), NoMemory>
        ensures { IfOk result (λ _. (n : ℕ) → IsPlain net.now.graph → ShowsNet net.now [] table.now →
            ((j : ℕ) → j < cell_width net.now.graph one → IsWithin net.now.graph n (Some (node one j)) × IsWithin net.now.graph n (Some (node another j))) →
            Covers net.now.graph n (each_below (λ j. unequal net.now.graph (node one j) (node another j) value) (cell_width net.now.graph one)) self.old self.new) }
    {
        for at in 0..net.graph.width(one) {
            self.ask_unequal(
                net,
                table,
                Node { cell: one, at },
                Node { cell: another, at },
                value,
            )?;
        }
        Ok(())
    }

    /// Asks for the terms by which the exclusive or of two bits has the value: those of the one, where the other is
    /// known.
    fn ask_unequal(
        &mut self,
        net: &Net,
        table: &Table,
        one: Node,
        another: Node,
        value: bool,
    ) -> Result<(), NoMemory>
        ensures { IfOk result (λ _. (n : ℕ) → IsPlain net.now.graph → ShowsNet net.now [] table.now →
            IsWithin net.now.graph n (Some one) → IsWithin net.now.graph n (Some another) → another.at ≡ one.at →
            Covers net.now.graph n (unequal net.now.graph one another value) self.old self.new) }
    {
        if let Some(known) = known_value(table, one) {
            return self.ask(net, Some(another), exclusive_or(known, value));
        }
        if let Some(known) = known_value(table, another) {
            return self.ask(net, Some(one), exclusive_or(known, value));
        }
        self.add(differing_term(net, table, one, another, value))
    }

    /// Takes a node that is left.
    pub fn take(&mut self) -> Option<Asked>
        ensures { IsTake self.old self.new result }
    {
        self.asked.take()
    }

    pub fn into_terms(self) -> List<Term>
        ensures { result ≡ self.terms }
    {
        self.terms
    }
}

/// Whether the node is known to have the value.
fn is_known(table: &Table, node: Node, value: bool) -> bool
    ensures { (net : Net) → ShowsNet net [] table.now → IsNodeOf net.graph node → (result ≡ true) ↔ (known_of net.graph node ≡ Some value) }
{
    known_value(table, node) == Some(value)
}

/// What the terms of a node at a value are made of, where it isn't known to have the value.
fn made_of(net: &Net, asked: Asked) -> Made
    ensures { result ≡ made_by net.now.graph (cell_at net.now.graph asked.node.cell) asked.node.at asked.value }
{
    let at = asked.node.at;
    match net.graph.cell(asked.node.cell) {
        Cell::Not { a } => Made::Of(Asked {
            node: Node { cell: a, at },
            value: !asked.value,
        }),
        Cell::And { a, b } => both_where(asked.value, a, b, at),
        Cell::Or { a, b } => both_where(!asked.value, a, b, at),
        Cell::Xor { a, b } => Made::Unequal {
            one: Node { cell: a, at },
            another: Node { cell: b, at },
        },
        Cell::Eq { a, b } => {
            if asked.value || net.graph.width(a) == 1 {
                Made::Pairs { one: a, another: b }
            } else {
                Made::Itself
            }
        }
        Cell::Reduce { kind, a } => match kind {
            ReduceKind::And => each_where(asked.value, a),
            ReduceKind::Or => each_where(!asked.value, a),
            ReduceKind::Xor => Made::Itself,
        },
        _ => Made::Itself,
    }
}

fn both_where(parted: bool, a: CellId, b: CellId, at: u8) -> Made
    ensures { result ≡ cond parted (Made.Both (node a at) (node b at)) Made.Itself }
{
    if parted {
        Made::Both {
            one: Node { cell: a, at },
            another: Node { cell: b, at },
        }
    } else {
        Made::Itself
    }
}

fn each_where(parted: bool, a: CellId) -> Made
    ensures { result ≡ cond parted (Made.Each a) Made.Itself }
{
    if parted { Made::Each(a) } else { Made::Itself }
}

/// The term that the exclusive or of two bits has the value, by their bare nodes.
fn differing_term(net: &Net, table: &Table, one: Node, another: Node, value: bool) -> Term
    ensures { IsPlain net.now.graph → ShowsNet net.now [] table.now → IsNodeOf net.now.graph one → IsNodeOf net.now.graph another →
        (differ (bare (tree_of net.now.graph one.cell) one.at) (bare (tree_of net.now.graph another.cell) another.at) value ≡ term_of net.now.graph result ∷ [])
        × IsTermIn net.now.graph result }
{
    let one = bare_node(net, table, one);
    let another = bare_node(net, table, another);
    Term::Differ {
        one: one.node,
        another: another.node,
        value: exclusive_or(exclusive_or(one.inverted, another.inverted), value),
    }
}
