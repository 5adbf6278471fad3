//! How a Gray register follows its counter.
ghost use Rattle.std.specs.Prelude.{◌≡◌, ◌↔◌, ℕ, true, [], Contains, IfOk};
ghost use Rattle.std.specs.HashSet.{keys};
ghost use Rattle.cell_graph.specs.declared.cell.CellId.{CellId};
ghost use Rattle.cell_graph.specs.Cells.{signal_width};
ghost use Rattle.cdc_model.specs.Tables.{ShowsNet};
ghost use Rattle.cdc_model.specs.Word.{own_word, IsJoint};
ghost use Rattle.gray_pointer.specs.Shapes.{IsRegisterIn, Counts, AreAsked, AreBranches, HaveWords, IsShape};
ghost use Rattle.gray_pointer.specs.Words.{IsPlain, HasWord, word_of};

use crate::register::Register;
use crate::word::{Coded, are_same, choice_of, is_gray_code, is_own, is_own_or_plus};
use crate::worklist::Worklist;
use cdc_base::NoMemory;
use cdc_model::Shape;
use cell_graph::{CellId, Net};
use cofactor::Table;
use std::alloc::Global;

/// The shape of a counter and a register that fit each other, if they have one.
pub fn shape_of(
    alloc: Global,
    net: &Net,
    table: &Table,
    count: &Register,
    gray: &Register,
) -> Result<Option<Shape>, NoMemory>
    ensures { IfOk result (λ shape. IsPlain net.now.graph → ShowsNet net.now [] table.now → IsRegisterIn net.now.graph count.now → IsRegisterIn net.now.graph gray.now →
        gray.now.width ≡ count.now.width →
        IsShape count.now.sig gray.now.sig count.now.width (word_of net.now.graph count.now.next count.now.width) (word_of net.now.graph gray.now.next count.now.width) shape) }
{
    let counts = is_count(alloc, net, table, count.next, count)?;
    let next = Coded::Cell(count.next);
    if counts && is_gray_code(net, table, gray.next, next, count.width) {
        return Ok(Some(Shape::G1));
    }
    if are_joint(alloc, net, table, count, gray)? {
        return Ok(Some(Shape::G2));
    }
    let own = Coded::Own(count.sig);
    if counts && is_gray_code(net, table, gray.next, own, count.width) {
        return Ok(Some(Shape::G3));
    }
    Ok(None)
}

/// Whether the cell passes on a count word of the register: its own value, that plus 0 or 1, or a choice of count
/// words.
fn is_count(
    alloc: Global,
    net: &Net,
    table: &Table,
    cell: CellId,
    register: &Register,
) -> Result<bool, NoMemory>
    ensures { IfOk result (λ counts. IsPlain net.now.graph → ShowsNet net.now [] table.now → HasWord net.now.graph cell register.now.width →
        signal_width net.now.graph.signals register.now.sig ≡ register.now.width →
        (counts ≡ true) ↔ Counts net.now.graph register.now.sig register.now.width cell) }
{
    let mut words = Worklist::new(alloc);
    words.add(cell)?;
    are_counts(net, table, &mut words, register)
}

/// Whether all words are count words of the register.
fn are_counts(
    net: &Net,
    table: &Table,
    words: &mut Worklist<CellId>,
    register: &Register,
) -> Result<bool, NoMemory>
    ensures { IfOk result (λ counts. IsPlain net.now.graph → ShowsNet net.now [] table.now → signal_width net.now.graph.signals register.now.sig ≡ register.now.width →
        AreAsked net.now.graph register.now.width (keys words.old.met) words.old.left.items →
        (counts ≡ true) ↔ ((x : CellId) → Contains (keys words.old.met) x → Counts net.now.graph register.now.sig register.now.width x)) }
{
    for _ in 0..u64::MAX {
        let Some(word) = words.take() else {
            return Ok(true);
        };
        if is_own_or_plus(net, table, word, register) {
            continue;
        }
        let Some(choice) = choice_of(net, word, register.width) else {
            return Ok(false);
        };
        words.add(choice.yes)?;
        words.add(choice.other)?;
    }
    // No memory holds so many words.
    Err(NoMemory)
}

/// A word of the counter, and the word that the Gray register takes with it.
#[derive(Clone, Copy, PartialEq, Eq, Hash, Debug, Drop)]
struct Both {
    count: CellId,
    gray: CellId,
}

/// Whether counter and Gray register go on together: under equal conditions both keep their values, or the one takes a
/// count word and the other its code.
fn are_joint(
    alloc: Global,
    net: &Net,
    table: &Table,
    count: &Register,
    gray: &Register,
) -> Result<bool, NoMemory>
    ensures { IfOk result (λ joint. IsPlain net.now.graph → ShowsNet net.now [] table.now → IsRegisterIn net.now.graph count.now → IsRegisterIn net.now.graph gray.now →
        gray.now.width ≡ count.now.width →
        (joint ≡ true) ↔ IsJoint count.now.sig gray.now.sig count.now.width (word_of net.now.graph count.now.next count.now.width) (word_of net.now.graph gray.now.next count.now.width)) }
{
    let mut counts = Worklist::new(alloc);
    let mut pairs = Worklist::new(alloc);
    pairs.add(Both {
        count: count.next,
        gray: gray.next,
    })?;
    for _ in 0..u64::MAX {
        let Some(both) = pairs.take() else {
            return are_counts(net, table, &mut counts, count);
        };
        if is_gray_code(net, table, both.gray, Coded::Cell(both.count), count.width) {
            counts.add(both.count)?;
            continue;
        }
        if both_stay(net, both, count, gray) {
            continue;
        }
        let Some(branches) = branches_of(net, both, count.width) else {
            return Ok(false);
        };
        pairs.add(branches.yes)?;
        pairs.add(branches.other)?;
    }
    // No memory holds so many pairs.
    Err(NoMemory)
}

/// Whether both registers keep their values.
fn both_stay(net: &Net, both: Both, count: &Register, gray: &Register) -> bool
    ensures { IsPlain net.now.graph → HaveWords net.now.graph both count.now.width → signal_width net.now.graph.signals count.now.sig ≡ count.now.width →
        signal_width net.now.graph.signals gray.now.sig ≡ gray.now.width → gray.now.width ≡ count.now.width →
        (result ≡ true) ↔ (word_of net.now.graph both.count count.now.width ≡ own_word count.now.sig count.now.width)
        × (word_of net.now.graph both.gray count.now.width ≡ own_word gray.now.sig count.now.width) }
{
    is_own(net, both.count, count) && is_own(net, both.gray, gray)
}

/// The pairs of branches of two choices.
#[derive(Clone, Copy, Debug, Drop)]
struct Branches {
    yes: Both,
    other: Both,
}

/// The pairs of branches where both words are choices by one condition.
fn branches_of(net: &Net, both: Both, width: u8) -> Option<Branches>
    ensures { IsPlain net.now.graph → HaveWords net.now.graph both width → AreBranches net.now.graph both width result }
{
    let count = choice_of(net, both.count, width)?;
    let gray = choice_of(net, both.gray, width)?;
    if !are_same(count.cond, gray.cond) {
        return None;
    }
    Some(Branches {
        yes: Both {
            count: count.yes,
            gray: gray.yes,
        },
        other: Both {
            count: count.other,
            gray: gray.other,
        },
    })
}
