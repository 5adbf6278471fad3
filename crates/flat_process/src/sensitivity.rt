//! Lists of levels, which stand for `@*`.
ghost use Rattle.std.specs.Prelude.{◌≡◌, map, IfOk};
ghost use Rattle.std.specs.List.{list_all, list_any};
ghost use Rattle.verilog_ast.specs.declared.Edge.{Edge};
ghost use Rattle.verilog_reading.specs.StmtTree.{stmt_tree_of};
ghost use Rattle.flat_unfolding.specs.Outcome.{Text};
ghost use Rattle.flat_unfolding.specs.Names as n;
ghost use Rattle.flat_unfolding.specs.Processes.{is_level as is_level_of, is_of_wires as is_wires_event, edges_of as event_edges, needs_level as needs_level_of, lacks_level as lacks_level_of};
ghost use Rattle.flat_names.specs.Looks.{Shows};

use cdc_base::{Name, NoMemory};
use flat_names::scope::{Look, Meaning};
use process_names::unlisted;
use verilog_ast::{Edge, EdgeKind, Event, Stmt};

/// Whether an event is `@*`, or a list of levels, which stands for it.
pub fn is_of_wires(event: &Event) -> bool
    ensures { result ≡ is_wires_event event.now }
{
    match event {
        Event::Star => true,
        Event::Edges(edges) => are_levels(edges.as_slice()),
    }
}

pub fn edges_of(event: &Event) -> &[Edge]
    ensures { result.now ≡ event_edges event.now }
{
    match event {
        Event::Star => &[],
        Event::Edges(edges) => edges.as_slice(),
    }
}

fn are_levels(edges: &[Edge]) -> bool
    ensures { result ≡ list_all (λ (e : Edge). is_level_of e.kind) edges.now }
{
    edges.iter().all(|edge| is_level(edge.kind))
}

fn is_level(kind: EdgeKind) -> bool
    ensures { result ≡ is_level_of kind }
{
    kind == EdgeKind::Level
}

/// Whether a signal or a memory that the process reads, and that is no target of it, isn't in the list.
pub fn lacks_level<'a>(look: &Look, levels: &'a [Edge], body: &'a Stmt) -> Result<bool, NoMemory>
    ensures { (l : n.Look) → Shows look.now l → IfOk result (λ b. b ≡ lacks_level_of l levels.now (stmt_tree_of body.now)) }
{
    let names = unlisted(look.alloc, levels, body)?;
    need_levels(look, names.as_slice())
}

/// Whether one of the names is that of a signal or a memory.
fn need_levels(look: &Look, names: &[&str]) -> Result<bool, NoMemory>
    ensures { (l : n.Look) → Shows look.now l → IfOk result (λ b. b ≡ list_any (λ x. needs_level_of l (n.meaning l x)) (map (λ n. n.now) names.now)) }
{
    for text in names {
        if needs_level(look, text)? {
            return Ok(true);
        }
    }
    Ok(false)
}

fn needs_level(look: &Look, text: &str) -> Result<bool, NoMemory>
    ensures { (l : n.Look) → Shows look.now l → IfOk result (λ b. b ≡ needs_level_of l (n.meaning l text.now)) }
{
    let name = Name::from_text(look.alloc, text)?;
    Ok(stands_for_signals(look, &name))
}

/// Whether the name is that of a signal or a memory.
fn stands_for_signals(look: &Look, name: &Name) -> bool
    ensures { (l : n.Look) → Shows look.now l → result ≡ needs_level_of l (n.meaning l name.now) }
{
    match look.meaning(name) {
        Some(Meaning::Signal(_)) => true,
        Some(Meaning::Memory(_)) => true,
        _ => false,
    }
}
