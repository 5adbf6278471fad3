//! The terms under which nodes have values.
ghost use Rattle.std.specs.Prelude.{◌≡◌, [], List, option_map, IfOk};
ghost use Rattle.cell_graph.specs.Unfolded.{bit_of};
ghost use Rattle.cdc_model.specs.Tables.{ShowsNet};
ghost use Rattle.fifo_terms.specs.Terms as rules;
ghost use Rattle.fifo_terms.specs.Shows.{node_terms};
ghost use Rattle.gray_pointer.specs.Words.{IsPlain, IsIn};
ghost use Rattle.fifo_nodes.specs.Terms.{AreTerms};
ghost use Rattle.fifo_nodes.specs.Searches.{IsSearch};

use crate::search::Search;
use crate::term::Term;
use cdc_base::{List, NoMemory};
use cell_graph::{Net, Node};
use cofactor::Table;
use std::alloc::Global;

/// The terms of a node at a value, each once or more often, in any order. None is the zero bit. The table is the net's
/// without a cube. A cell that is met in many ways is looked at once for each of its bits and values.
pub fn terms(
    alloc: Global,
    net: &Net,
    table: &Table,
    node: Option<Node>,
    value: bool,
) -> Result<List<Term>, NoMemory>
    ensures { IfOk result (λ found. IsPlain net.now.graph → ShowsNet net.now [] table.now → IsIn net.now.graph node →
        AreTerms net.now.graph (node_terms (option_map (bit_of net.now.graph) node) value) found) }
{
    let mut search = Search::new(alloc);
    search.ask(net, node, value)?;
    found_terms(net, table, &mut search)?;
    Ok(search.into_terms())
}

/// Finds the terms of all nodes that were asked for.
pub fn found_terms(net: &Net, table: &Table, search: &mut Search) -> Result<(), NoMemory>
    ensures { IfOk result (λ _. (ts : List rules.Term) → IsPlain net.now.graph → ShowsNet net.now [] table.now → IsSearch net.now.graph ts search.old →
        AreTerms net.now.graph ts search.new.terms) }
{
    for _ in 0..u64::MAX {
        let Some(asked) = search.take() else {
            return Ok(());
        };
        search.look(net, table, asked)?;
    }
    // No memory holds so many nodes.
    Err(NoMemory)
}
