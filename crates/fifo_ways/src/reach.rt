//! To which reads of words the ways from nodes lead.
ghost use Rattle.std.specs.Prelude.{◌≡◌, ◌⊎◌, ◌↔◌, ℕ, filter, slice_get, IfOk, OnOk};
ghost use Rattle.std.specs.List.{Contains};
ghost use Rattle.cell_graph.specs.declared.cell.Node.{Node as NodeOf};
ghost use Rattle.cell_graph.specs.Cells.{cell_at};
ghost use Rattle.cell_graph.specs.Tree.{Tree};
ghost use Rattle.cell_graph.specs.Unfolded.{bit_of, tree_of};
ghost use Rattle.fifo_laws.specs.Ways.{Leads};
ghost use Rattle.gray_pointer.specs.Words.{IsPlain};
ghost use Rattle.fifo_ways.specs.Feeds.{IsFeedOf, IsFed, KeepPlaces};
ghost use Rattle.fifo_ways.specs.Reads.{is_mux, is_sought_read};
ghost use Rattle.fifo_ways.specs.Sought.{AreNodes};

use crate::marked::set_of;
use cdc_base::{List, NoMemory};
use cell_graph::{Cell, Graph, Net, Node};
use std::alloc::Global;
use std::collections::HashSet;
use std::marker::Model;

/// The nodes that a walk has met, each once, in the order in which it did.
#[derive(Drop)]
struct Fed {
    met: HashSet<Node>,
    nodes: Vec<Node>,
}

impl Model for Fed {
    ghost use Rattle.std.specs.Prelude.{List};
    ghost use Rattle.cell_graph.specs.declared.cell.Node.{Node};
    ghost use Rattle.fifo_ways.specs.Feeds.{AreListed};

    ghost Value = { List Node };

    ghost view = { λ f. f.nodes.items };

    ghost invariant = { λ f. AreListed f.met f.nodes.items };
}

/// Those of the reads to which some way from a root leads, each once.
pub fn leads(
    alloc: Global,
    net: &Net,
    reads: &[Node],
    roots: &[Node],
) -> Result<List<Node>, NoMemory>
    ensures exact { IfOk result (λ found. IsPlain net.now.graph → AreNodes net.now.graph reads.now → AreNodes net.now.graph roots.now → (n : NodeOf) →
        (Contains found n) ↔ (Contains reads.now n
        × ((root : NodeOf) × Contains roots.now root × Leads (λ (t : Tree) (i : ℕ). bit_of net.now.graph n ≡ (t, i)) (tree_of net.now.graph root.cell) root.at))) }
{
    let sought = set_of(alloc, reads)?;
    let fed = Fed::find(alloc, &net.graph, roots)?.into_nodes();
    reads_among(alloc, &net.graph, &sought, fed.as_slice())
}

/// Those of the nodes that are sought and those of multiplexers.
fn reads_among(
    alloc: Global,
    graph: &Graph,
    sought: &HashSet<Node>,
    nodes: &[Node],
) -> Result<List<Node>, NoMemory>
    ensures { IfOk result (λ found. found ≡ filter (is_sought_read graph.now sought.now) nodes.now) }
{
    let mut found = List::new(alloc);
    for node in nodes {
        if is_choice(graph, *node) && sought.contains(node) {
            found.push(*node)?;
        }
    }
    Ok(found)
}

/// Whether the node is that of a multiplexer.
fn is_choice(graph: &Graph, node: Node) -> bool
    ensures { result ≡ is_mux (cell_at graph.now node.cell) }
{
    match graph.cell(node.cell) {
        Cell::Mux { .. } => true,
        _ => false,
    }
}

impl Fed {
    /// The nodes on ways down from the roots, they themselves among them.
    fn find(alloc: Global, graph: &Graph, roots: &[Node]) -> Result<Fed, NoMemory>
        ensures { IfOk result (λ fed. (n : NodeOf) → Contains fed n ↔ IsFed graph.now roots.now n) }
    {
        let mut fed = Fed::of_roots(alloc, roots)?;
        for place in 0..usize::MAX {
            let Some(node) = fed.get(place) else {
                return Ok(fed);
            };
            fed.meet_feeds(graph, node)?;
        }
        Err(NoMemory)
    }

    fn of_roots(alloc: Global, roots: &[Node]) -> Result<Fed, NoMemory>
        ensures there { IfOk result (λ fed. (n : NodeOf) → Contains roots.now n → Contains fed n) }
        ensures only { IfOk result (λ fed. (n : NodeOf) → Contains fed n → Contains roots.now n) }
    {
        let mut fed = Fed {
            met: HashSet::new(alloc),
            nodes: Vec::new(alloc),
        };
        for root in roots {
            fed.meet(*root)?;
        }
        Ok(fed)
    }

    fn get(&self, place: usize) -> Option<Node>
        ensures { result ≡ slice_get self.now place }
    {
        self.nodes.get(place).copied()
    }

    fn into_nodes(self) -> Vec<Node>
        ensures { result.items ≡ self }
    {
        self.nodes
    }

    fn meet(&mut self, node: Node) -> Result<(), NoMemory>
        ensures there { OnOk result (Contains self.new node) }
        ensures places { OnOk result (KeepPlaces self.old self.new) }
        ensures kept { OnOk result ((n : NodeOf) → Contains self.old n → Contains self.new n) }
        ensures only { OnOk result ((n : NodeOf) → Contains self.new n → Contains self.old n ⊎ (n ≡ node)) }
    {
        if self.met.contains(&node) {
            return Ok(());
        }
        if self.nodes.push(node).is_err() {
            return Err(NoMemory);
        }
        if self.met.insert(node).is_err() {
            return Err(NoMemory);
        }
        Ok(())
    }

    fn meet_feeds(&mut self, graph: &Graph, node: Node) -> Result<(), NoMemory>
        ensures there { OnOk result ((n : NodeOf) → IsFeedOf graph.now node n → Contains self.new n) }
        ensures places { OnOk result (KeepPlaces self.old self.new) }
        ensures kept { OnOk result ((n : NodeOf) → Contains self.old n → Contains self.new n) }
        ensures only { OnOk result ((n : NodeOf) → Contains self.new n → Contains self.old n ⊎ IsFeedOf graph.now node n) }
    {
        for n in 0..u32::MAX {
            let Some(feed) = graph.feeds(node.cell, node.at, n) else {
                return Ok(());
            };
            self.meet(feed)?;
        }
        Err(NoMemory)
    }
}
