//! Whether each way from a node to a word passes a guard and below it a read.
ghost use Rattle.std.specs.Prelude.{◌≡◌, ℕ, suc, ◌≤◌, ◌<◌, ◌&&◌, Bool, true, false, map, IfOk};
ghost use Rattle.cell_graph.specs.declared.cell.CellId.{CellId as CellIdOf};
ghost use Rattle.cell_graph.specs.Cells.{cell_at, cell_width};
ghost use Rattle.cell_graph.specs.Feeds.{passed_by};
ghost use Rattle.cell_graph.specs.Tree.{Tree, number, all_below};
ghost use Rattle.cell_graph.specs.Unfolded.{IsWellFormed, tree_of};
ghost use Rattle.cdc_model.specs.Design.{Design};
ghost use Rattle.fifo_laws.specs.Fifos.{marks_of};
ghost use Rattle.fifo_laws.specs.Sides.{Side};
ghost use Rattle.fifo_laws.specs.Ways.{Passes};
ghost use Rattle.fifo_ways.specs.Guards.{guard, cells_of};
ghost use Rattle.fifo_ways.specs.Judged.{into, through, judged};
ghost use Rattle.fifo_ways.specs.Rows.{bits_of, has, HaveRows};
ghost use Rattle.fifo_ways.specs.Sought.{AreNodes, ShowsMarks, AreJudged};
ghost use Rattle.fifo_ways.specs.Marked.{found_by};

use crate::marked::Marked;
use crate::rows::{NO_BITS, Row, Rows, add_row, has, has_all, with_bit};
use crate::sought::{Guard, Sought};
use cdc_base::{Bit, List, NoMemory};
use cell_graph::{Cell, CellId, Graph, Net, Node, Passed};
use std::alloc::Global;
use std::collections::HashMap;

/// Of each root whether all its ways to words pass a guard and below it a read.
pub fn passes(
    alloc: Global,
    net: &Net,
    sought: &Sought,
    roots: &[Node],
) -> Result<List<bool>, NoMemory>
    ensures exact { IfOk result (λ answers. (d : Design) (tree : ℕ → Tree) (write read : Side) → IsWellFormed net.now.graph → AreNodes net.now.graph roots.now →
        ShowsMarks net.now.graph roots.now sought.now (marks_of d tree write read) →
        AreJudged (λ n. Passes (marks_of d tree write read) false (tree_of net.now.graph n.cell) n.at) roots.now answers) }
{
    let marked = Marked::of(alloc, sought)?;
    let tops = cells_of(alloc, roots)?;
    let cells = net.graph.cells_below(alloc, tops.as_slice())?;
    let rows = rows_of(alloc, &net.graph, &marked, cells.as_slice())?;
    answers(alloc, &rows, roots)
}

/// The rows of cells, each of which stands behind its operands.
fn rows_of(
    alloc: Global,
    graph: &Graph,
    marked: &Marked,
    cells: &[CellId],
) -> Result<Rows, NoMemory>
    ensures { IfOk result (λ rows. HaveRows graph.now (found_by marked.now) cells.now cells.now rows) }
{
    let mut rows = HashMap::new(alloc);
    for cell in cells {
        let row = row_of(graph, marked, &rows, *cell);
        add_row(&mut rows, *cell, row)?;
    }
    Ok(rows)
}

/// The cells of the nodes.
pub fn cells_of(alloc: Global, nodes: &[Node]) -> Result<Vec<CellId>, NoMemory>
    ensures { IfOk result (λ cells. cells.items ≡ cells_of nodes.now) }
{
    let mut cells = Vec::new(alloc);
    for node in nodes {
        cells.push(node.cell).map_err(|_| NoMemory)?;
    }
    Ok(cells)
}

/// What the rows say of the nodes, where no guard was passed.
fn answers(alloc: Global, rows: &Rows, nodes: &[Node]) -> Result<List<bool>, NoMemory>
    ensures { IfOk result (λ answers. answers ≡ map (λ n. has rows.now false n.cell n.at) nodes.now) }
{
    let mut answers = List::new(alloc);
    for node in nodes {
        answers.push(has(rows, *node, false))?;
    }
    Ok(answers)
}

/// The row of a cell, by those of its operands.
fn row_of(graph: &Graph, marked: &Marked, rows: &Rows, cell: CellId) -> Row
    ensures { ((id : CellIdOf) → cell_width graph.now id ≤ 64) → (b : Bool) →
        bits_of b result ≡ number (judged graph.now (found_by marked.now) (has rows.now) b (cell_at graph.now cell) cell) (cell_width graph.now cell) }
{
    let mut row = NO_BITS;
    for at in 0..graph.width(cell) {
        let node = Node { cell, at };
        row = Row {
            guarded: with_bit(row.guarded, at, is_passed(graph, marked, rows, node, true)),
            free: with_bit(row.free, at, is_passed(graph, marked, rows, node, false)),
        };
    }
    row
}

/// Whether all ways from the bit of a cell pass what is looked for, by the rows of its operands.
fn is_passed(graph: &Graph, marked: &Marked, rows: &Rows, node: Node, guarded: bool) -> bool
    ensures { ((id : CellIdOf) → cell_width graph.now id ≤ 64) → node.at < 64 →
        result ≡ judged graph.now (found_by marked.now) (has rows.now) guarded (cell_at graph.now node.cell) node.cell node.at }
{
    let at = node.at;
    match graph.cell(node.cell) {
        Cell::Var { sig } => !marked.is_word(Bit { sig, at }),
        Cell::Const { .. } => true,
        Cell::Not { a } => has(rows, Node { cell: a, at }, guarded),
        Cell::And { a, b } => are_behind(marked, rows, a, b, at, true, guarded),
        Cell::Or { a, b } => are_behind(marked, rows, a, b, at, false, guarded),
        Cell::Xor { a, b } => {
            has(rows, Node { cell: a, at }, guarded) && has(rows, Node { cell: b, at }, guarded)
        }
        Cell::Add { a, b } | Cell::Sub { a, b } => {
            have_all(rows, a, b, at.saturating_add(1), guarded)
        }
        Cell::Eq { a, b } | Cell::Lt { a, b } => { have_all(rows, a, b, graph.width(a), guarded) }
        Cell::Shl { a, by } | Cell::Shr { a, by } => {
            is_shift_passed(graph, rows, node, a, by, guarded)
        }
        Cell::Mux { cond, yes, other } => {
            (guarded && marked.is_read(node))
                || is_choice_passed(marked, rows, cond, yes, other, at, guarded)
        }
        Cell::Concat { .. } | Cell::Slice { .. } | Cell::Extend { .. } => {
            match graph.passed(node) {
                Passed::Bit(from) => has(rows, from, guarded),
                _ => true,
            }
        }
        Cell::Reduce { a, .. } => has_all(rows, a, graph.width(a), guarded),
    }
}

/// Whether the lowest `count` bits of both cells are.
fn have_all(rows: &Rows, a: CellId, b: CellId, count: u8, guarded: bool) -> bool
    ensures { count ≤ 64 → result ≡ (all_below (has rows.now guarded a) count && all_below (has rows.now guarded b) count) }
{
    has_all(rows, a, count, guarded) && has_all(rows, b, count, guarded)
}

/// Whether the bit of a shift is, of `a` by `by`.
fn is_shift_passed(
    graph: &Graph,
    rows: &Rows,
    node: Node,
    a: CellId,
    by: CellId,
    guarded: bool,
) -> bool
    ensures { cell_width graph.now a ≤ 64 → cell_width graph.now by ≤ 64 →
        result ≡ through (passed_by graph.now (cell_at graph.now node.cell) node.at) (has rows.now guarded)
        (all_below (has rows.now guarded a) (cell_width graph.now a) && all_below (has rows.now guarded by) (cell_width graph.now by)) }
{
    match graph.passed(node) {
        Passed::Bit(from) => has(rows, from, guarded),
        Passed::Zero => true,
        Passed::Other => {
            has_all(rows, a, graph.width(a), guarded) && has_all(rows, by, graph.width(by), guarded)
        }
    }
}

/// Whether the feed is, behind a guard or as it is.
fn is_behind(marked: &Marked, rows: &Rows, guard: Guard, feed: Node, guarded: bool) -> bool
    ensures { result ≡ into ((found_by marked.now).test guard) (has rows.now true feed.cell feed.at) (has rows.now guarded feed.cell feed.at) }
{
    (marked.has_test(guard) && has(rows, feed, true)) || has(rows, feed, guarded)
}

/// Whether both operands' bits are, each behind the other one at the value.
fn are_behind(
    marked: &Marked,
    rows: &Rows,
    a: CellId,
    b: CellId,
    at: u8,
    value: bool,
    guarded: bool,
) -> bool
    ensures { result ≡ (into ((found_by marked.now).test (guard b at value)) (has rows.now true a at) (has rows.now guarded a at)
        && into ((found_by marked.now).test (guard a at value)) (has rows.now true b at) (has rows.now guarded b at)) }
{
    let one = Node { cell: a, at };
    let another = Node { cell: b, at };
    let before = Guard {
        node: another,
        value,
    };
    let behind = Guard { node: one, value };
    is_behind(marked, rows, before, one, guarded)
        && is_behind(marked, rows, behind, another, guarded)
}

/// Whether the condition's bit is, and the bits of both branches, each behind the condition at its value.
fn is_choice_passed(
    marked: &Marked,
    rows: &Rows,
    cond: CellId,
    yes: CellId,
    other: CellId,
    at: u8,
    guarded: bool,
) -> bool
    ensures { result ≡ (has rows.now guarded cond 0 && (into ((found_by marked.now).test (guard cond 0 true)) (has rows.now true yes at) (has rows.now guarded yes at)
        && into ((found_by marked.now).test (guard cond 0 false)) (has rows.now true other at) (has rows.now guarded other at))) }
{
    let cond = Node { cell: cond, at: 0 };
    let one = Guard {
        node: cond,
        value: true,
    };
    let another = Guard {
        node: cond,
        value: false,
    };
    has(rows, cond, guarded)
        && is_behind(marked, rows, one, Node { cell: yes, at }, guarded)
        && is_behind(marked, rows, another, Node { cell: other, at }, guarded)
}
