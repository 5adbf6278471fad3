//! Terms of nodes.
ghost use Rattle.std.specs.Prelude.{◌≡◌, ◌↔◌, true, Contains};
ghost use Rattle.cell_graph.specs.Cells.{Cells};
ghost use Rattle.fifo_terms.specs.Terms as rules;
ghost use Rattle.fifo_terms.specs.Terms.{AreOne, HasTerm, HaveOneSet};
ghost use Rattle.gray_pointer.specs.Words.{IsPlain};
ghost use Rattle.fifo_nodes.specs.Terms.{AreTermsIn, IsTermIn, term_of, terms_of, turned};

use cell_graph::Node;

/// What is said of a node, or of two. None is the zero bit.
#[derive(Clone, Copy, PartialEq, Eq, Debug, Drop)]
pub enum Term {
    /// The node has the value.
    Is {
        node: Option<Node>,
        value: bool,
    },
    /// The exclusive or of the nodes has the value.
    Differ {
        one: Option<Node>,
        another: Option<Node>,
        value: bool,
    },
}

/// Whether terms are one: their nodes, in either order, and their values are.
pub fn are_one(one: Term, another: Term) -> bool
    ensures { (g : Cells) → IsPlain g → IsTermIn g one → IsTermIn g another → (result ≡ true) ↔ AreOne (term_of g one) (term_of g another) }
{
    are_same(one, another) || are_same(one, turned(another))
}

/// Whether the terms are the same, node by node.
fn are_same(one: Term, another: Term) -> bool
    ensures { (result ≡ true) ↔ (one ≡ another) }
{
    one == another
}

/// The term with its nodes in the other order.
fn turned(term: Term) -> Term
    ensures { result ≡ turned term }
{
    match term {
        Term::Is { .. } => term,
        Term::Differ {
            one,
            another,
            value,
        } => Term::Differ {
            one: another,
            another: one,
            value,
        },
    }
}

/// Whether the term is among the terms.
pub fn has_term(terms: &[Term], term: Term) -> bool
    ensures { (g : Cells) → IsPlain g → AreTermsIn g terms.now → IsTermIn g term → (result ≡ true) ↔ HasTerm (terms_of g terms.now) (term_of g term) }
{
    for other in terms {
        if are_one(term, *other) {
            return true;
        }
    }
    false
}

/// Whether the one list has the terms of the other.
pub fn have_one_set(one: &[Term], another: &[Term]) -> bool
    ensures { (g : Cells) → IsPlain g → AreTermsIn g one.now → AreTermsIn g another.now → (result ≡ true) ↔ HaveOneSet (terms_of g one.now) (terms_of g another.now) }
{
    are_among(one, another) && are_among(another, one)
}

/// Whether each of the terms is among the others.
pub fn are_among(terms: &[Term], others: &[Term]) -> bool
    ensures { (g : Cells) → IsPlain g → AreTermsIn g terms.now → AreTermsIn g others.now →
        (result ≡ true) ↔ ((t : rules.Term) → Contains (terms_of g terms.now) t → HasTerm (terms_of g others.now) t) }
{
    for term in terms {
        if !has_term(others, *term) {
            return false;
        }
    }
    true
}
