//! What a register bit takes.
ghost use Rattle.std.specs.Prelude.{◌≡◌, [], true, Some, IfOk};
ghost use Rattle.cell_graph.specs.Cells.{Cells};
ghost use Rattle.cell_graph.specs.Unfolded.{IsNodeOf, tree_of};
ghost use Rattle.cdc_model.specs.Tables.{ShowsNet};
ghost use Rattle.fifo_terms.specs.Takes.{taken, is_own};
ghost use Rattle.gray_pointer.specs.Words.{IsPlain};
ghost use Rattle.fifo_nodes.specs.Nodes.{IsOwnOrZero, origin_in};
ghost use Rattle.fifo_nodes.specs.Takes.{AreAskedIn, HaveTerms, condition_terms, IsTaken, IsFollowed, IsWay, way_by};
ghost use Rattle.fifo_nodes.specs.Terms.{AreTerms};

use crate::bits::is_bit;
use crate::copies::{are_equal, copied};
use crate::search::{Asked, Search};
use crate::term::Term;
use crate::walk::found_terms;
use cdc_base::{Bit, List, NoMemory};
use cell_graph::{Cell, Net, Node};
use cofactor::{Table, origin};
use std::alloc::Global;

/// A node that is taken where all the terms hold. None is the zero bit.
#[derive(Drop)]
pub struct Taken {
    pub node: Option<Node>,
    pub under: List<Term>,
}

/// The conditions of the choices that lead to what a register bit takes, at the values at which they do, and the terms of
/// all of them.
#[derive(Drop)]
pub struct Conditions {
    pub conditions: List<Asked>,
    pub terms: List<Term>,
}

impl Conditions {
    /// None: the bit always takes its node.
    pub fn none(alloc: Global) -> Conditions
        ensures { (g : Cells) → HaveTerms g result }
    {
        Conditions {
            conditions: List::new(alloc),
            terms: List::new(alloc),
        }
    }

    /// Becomes those by these conditions, if it isn't.
    fn renew(
        &mut self,
        alloc: Global,
        net: &Net,
        table: &Table,
        conditions: List<Asked>,
    ) -> Result<(), NoMemory>
        ensures { IfOk result (λ _. IsPlain net.now.graph → ShowsNet net.now [] table.now → AreAskedIn net.now.graph conditions → HaveTerms net.now.graph self.old →
            HaveTerms net.now.graph self.new × (self.new.conditions ≡ conditions)) }
    {
        if are_equal(self.conditions.as_slice(), conditions.as_slice()) {
            return Ok(());
        }
        self.terms = terms_of(alloc, net, table, conditions.as_slice())?;
        self.conditions = conditions;
        Ok(())
    }
}

/// The terms under which all of these nodes have their values.
fn terms_of(
    alloc: Global,
    net: &Net,
    table: &Table,
    conditions: &[Asked],
) -> Result<List<Term>, NoMemory>
    ensures { IfOk result (λ found. IsPlain net.now.graph → ShowsNet net.now [] table.now → AreAskedIn net.now.graph conditions.now →
        AreTerms net.now.graph (condition_terms net.now.graph conditions.now) found) }
{
    let mut search = Search::new(alloc);
    for condition in conditions {
        search.ask(net, Some(condition.node), condition.value)?;
    }
    found_terms(net, table, &mut search)?;
    Ok(search.into_terms())
}

/// What a register bit takes whose next value is the node `next`. The conditions are those of another bit, and become
/// its own: bits of one signal mostly have the same. The table is the net's without a cube.
pub fn taken_by(
    alloc: Global,
    net: &Net,
    table: &Table,
    bit: Bit,
    next: Node,
    known: &mut Conditions,
) -> Result<Taken, NoMemory>
    ensures taken { IfOk result (λ found. IsPlain net.now.graph → ShowsNet net.now [] table.now → IsNodeOf net.now.graph next → HaveTerms net.now.graph known.old →
        IsTaken net.now.graph (taken bit (tree_of net.now.graph next.cell) next.at) found) }
    ensures known { IfOk result (λ _. IsPlain net.now.graph → ShowsNet net.now [] table.now → IsNodeOf net.now.graph next → HaveTerms net.now.graph known.old →
        HaveTerms net.now.graph known.new) }
{
    let mut conditions = List::new(alloc);
    let node = follow(net, bit, next, &mut conditions)?;
    known.renew(alloc, net, table, conditions)?;
    let under = copied(alloc, known.terms.as_slice())?;
    Ok(Taken { node, under })
}

/// The node to which the choices lead of which exactly one branch is the bit itself. Their conditions are added, at the
/// values at which they lead there.
fn follow(
    net: &Net,
    bit: Bit,
    next: Node,
    conditions: &mut List<Asked>,
) -> Result<Option<Node>, NoMemory>
    ensures { IfOk result (λ node. IsPlain net.now.graph → IsNodeOf net.now.graph next → conditions.old ≡ [] →
        IsFollowed net.now.graph (taken bit (tree_of net.now.graph next.cell) next.at) node conditions.new) }
{
    let mut reached = origin(net, next);
    for _ in 0..u64::MAX {
        let Some(way) = way_on(net, bit, reached) else {
            return Ok(reached);
        };
        conditions.push(Asked {
            node: way.cond,
            value: way.value,
        })?;
        reached = origin(net, way.branch);
    }
    // No memory holds so many cells.
    Err(NoMemory)
}

/// The branch of a choice whose other branch is the bit itself, and the condition's value for it.
#[derive(Clone, Copy, Drop)]
struct Way {
    cond: Node,
    value: bool,
    branch: Node,
}

fn way_on(net: &Net, bit: Bit, node: Option<Node>) -> Option<Way>
    ensures { IsPlain net.now.graph → IsOwnOrZero net.now.graph node → IsWay net.now.graph bit node result }
{
    let node = node?;
    match net.graph.cell(node.cell) {
        Cell::Mux { cond, yes, other } => way_of(
            net,
            bit,
            Node { cell: cond, at: 0 },
            Node {
                cell: yes,
                at: node.at,
            },
            Node {
                cell: other,
                at: node.at,
            },
        ),
        _ => None,
    }
}

/// The way of a choice between two nodes.
fn way_of(net: &Net, bit: Bit, cond: Node, yes: Node, other: Node) -> Option<Way>
    ensures { IsPlain net.now.graph → IsNodeOf net.now.graph yes → IsNodeOf net.now.graph other →
        result ≡ way_by (is_own bit (origin_in net.now.graph (Some yes))) (is_own bit (origin_in net.now.graph (Some other))) cond yes other }
{
    let stays = is_bit(net, origin(net, yes), bit);
    let stays_else = is_bit(net, origin(net, other), bit);
    if stays == stays_else {
        return None;
    }
    if stays {
        Some(Way {
            cond,
            value: false,
            branch: other,
        })
    } else {
        Some(Way {
            cond,
            value: true,
            branch: yes,
        })
    }
}
