//! Words that count a register.
ghost use Rattle.std.specs.Prelude.{◌≡◌, ◌≤◌, [], IfOk};
ghost use Rattle.cell_graph.specs.Cells.{signal_width};
ghost use Rattle.cdc_model.specs.Tables.{ShowsNet};
ghost use Rattle.gray_pointer.specs.Words.{IsPlain, HasWord, word_of};
ghost use Rattle.fifo_nodes.specs.Counts.{IsCounted, IsCounter, IsFollowed, IsStep, IsTurn};

use crate::search::Search;
use crate::term::Term;
use crate::walk::found_terms;
use cdc_base::{List, NoMemory};
use cell_graph::{Cell, CellId, Net, Node};
use cofactor::{Table, origin};
use gray_pointer::register::Register;
use gray_pointer::word::{choice_of, is_own, is_own_or_plus};
use std::alloc::Global;

/// The terms under which the lowest `width` bits of a cell, by their origins, count the signal `count` of that width;
/// None where they don't count it. The table is the net's without a cube.
pub fn counted(
    alloc: Global,
    net: &Net,
    table: &Table,
    count: u32,
    width: u8,
    word: CellId,
) -> Result<Option<List<Term>>, NoMemory>
    ensures { IfOk result (λ found. IsPlain net.now.graph → ShowsNet net.now [] table.now → 2 ≤ width → signal_width net.now.graph.signals count ≡ width →
        HasWord net.now.graph word width → IsCounted net.now.graph count width (word_of net.now.graph word width) found) }
{
    let mut search = Search::new(alloc);
    let register = Register {
        sig: count,
        width,
        clock: 0,
        start: 0,
        next: word,
    };
    if !follow(net, table, &register, &mut search)? {
        return Ok(None);
    }
    found_terms(net, table, &mut search)?;
    Ok(Some(search.into_terms()))
}

/// Whether the next value counts the register: through choices between such a word and the own one, down to the own
/// word plus a step. The terms of the conditions and of the step are asked for.
fn follow(
    net: &Net,
    table: &Table,
    register: &Register,
    search: &mut Search,
) -> Result<bool, NoMemory>
    ensures { IfOk result (λ counts. IsPlain net.now.graph → ShowsNet net.now [] table.now → IsCounter net.now.graph register.now →
        IsFollowed net.now.graph register.now.sig register.now.width (word_of net.now.graph register.now.next register.now.width) counts search.old search.new) }
{
    let mut word = register.next;
    for _ in 0..u64::MAX {
        if let Some(step) = step_of(net, table, word, register) {
            search.ask(net, Some(Node { cell: step, at: 0 }), true)?;
            return Ok(true);
        }
        let Some(turn) = turn_of(net, word, register) else {
            return Ok(false);
        };
        search.ask(net, turn.cond, turn.value)?;
        word = turn.word;
    }
    // No memory holds so many cells.
    Err(NoMemory)
}

/// What is added to the register, where the cell passes on its own value plus 0 or 1.
fn step_of(net: &Net, table: &Table, word: CellId, register: &Register) -> Option<CellId>
    ensures { IsPlain net.now.graph → ShowsNet net.now [] table.now → IsCounter net.now.graph register.now → HasWord net.now.graph word register.now.width →
        IsStep net.now.graph register.now.sig register.now.width (word_of net.now.graph word register.now.width) result }
{
    if is_own(net, word, register) || !is_own_or_plus(net, table, word, register) {
        return None;
    }
    let sum = origin(net, Node { cell: word, at: 0 })?;
    match net.graph.cell(sum.cell) {
        Cell::Add { a, b } => {
            if is_own(net, a, register) {
                Some(b)
            } else {
                Some(a)
            }
        }
        _ => None,
    }
}

/// The branch of a choice whose other branch is the register's own value, and the condition's value for it. None is the
/// zero bit.
#[derive(Clone, Copy, Drop)]
struct Turn {
    cond: Option<Node>,
    value: bool,
    word: CellId,
}

fn turn_of(net: &Net, word: CellId, register: &Register) -> Option<Turn>
    ensures { IsPlain net.now.graph → IsCounter net.now.graph register.now → HasWord net.now.graph word register.now.width →
        IsTurn net.now.graph register.now.sig register.now.width (word_of net.now.graph word register.now.width) result }
{
    let choice = choice_of(net, word, register.width)?;
    let stays = is_own(net, choice.yes, register);
    let stays_else = is_own(net, choice.other, register);
    if stays == stays_else {
        return None;
    }
    if stays {
        Some(Turn {
            cond: choice.cond,
            value: false,
            word: choice.other,
        })
    } else {
        Some(Turn {
            cond: choice.cond,
            value: true,
            word: choice.yes,
        })
    }
}
