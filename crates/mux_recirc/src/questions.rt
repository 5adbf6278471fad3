//! Which bits read which bits of rings.
ghost use Rattle.std.specs.Prelude.{◌≡◌, ◌<◌, ◌⊎◌, ◌↔◌, ◌++◌, [], List, map, filter, Contains, IfOk};
ghost use Rattle.std.specs.List.Sorted.{IsSorted};
ghost use Rattle.cdc_base.specs.declared.bit.Bit.{Bit};
ghost use Rattle.cdc_base.specs.contracts.bit.BitOrd.TheImpl as bit_order;
ghost use Rattle.domains.specs.Nets.{IsNet};
ghost use Rattle.cdc_model.specs.Nets.{HasNextCells, bit_count};
ghost use Rattle.cdc_model.specs.Tables.{ShowsNet};
ghost use Rattle.mux_recirc.specs.contracts.parts.PartOrd.TheImpl as part_order;
ghost use Rattle.mux_recirc.specs.contracts.questions.QuestionOrd.TheImpl as order;
ghost use Rattle.mux_recirc.specs.declared.questions.Question.{Question as QuestionOf};
ghost use Rattle.mux_recirc.specs.Questions.{AreBitsWithin, asked_on, IsAskedOf, IsAsked, questions_on};

use crate::parts::Parts;
use cdc_base::{Bit, NoMemory};
use cdc_model::view::bits_read;
use cell_graph::Net;
use cofactor::Table;
use std::alloc::Global;

/// A bit that reads a bit which has a part in the ring.
#[derive(Clone, Copy, PartialEq, Eq, PartialOrd, Ord, Debug, Drop)]
pub struct Question {
    pub ring: usize,
    pub bit: Bit,
}

/// Which of these bits read a bit with a part in which ring. The table is one without a cube.
pub fn questions_of(
    alloc: Global,
    net: &Net,
    table: &mut Table,
    parts: &Parts,
    bits: &[Bit],
) -> Result<Vec<Question>, NoMemory>
    ensures exact { IfOk result (λ questions. IsNet net.now → HasNextCells net.now → ShowsNet net.now [] table.old → AreBitsWithin net.now bits.now →
        IsSorted part_order.ghosts.cmp parts.now.entries.items → (q : QuestionOf) → Contains questions.items q ↔ IsAsked net.now parts.now.entries.items bits.now q) }
    ensures unchanged { table.new ≡ table.old }
{
    let mut questions = Vec::new(alloc);
    for bit in bits {
        add_questions(alloc, net, table, parts, *bit, &mut questions)?;
    }
    Ok(questions)
}

/// Adds the questions of one bit.
fn add_questions(
    alloc: Global,
    net: &Net,
    table: &mut Table,
    parts: &Parts,
    bit: Bit,
    questions: &mut Vec<Question>,
) -> Result<(), NoMemory>
    ensures added { IfOk result (λ _. IsNet net.now → HasNextCells net.now → ShowsNet net.now [] table.old → bit.at < bit_count net.now.graph.signals bit.sig →
        IsSorted part_order.ghosts.cmp parts.now.entries.items →
        (q : QuestionOf) → Contains questions.new.items q ↔ (Contains questions.old.items q ⊎ IsAskedOf net.now parts.now.entries.items bit q)) }
    ensures unchanged { table.new ≡ table.old }
{
    let reads = bits_read(alloc, net, table, bit)?;
    let rings = parts.rings_of(alloc, reads.as_slice())?;
    add_all(rings.as_slice(), bit, questions)
}

fn add_all(rings: &[usize], bit: Bit, questions: &mut Vec<Question>) -> Result<(), NoMemory>
    ensures { IfOk result (λ _. questions.new.items ≡ questions.old.items ++ asked_on rings.now bit) }
{
    for ring in rings {
        questions
            .push(Question { ring: *ring, bit })
            .map_err(|_| NoMemory)?;
    }
    Ok(())
}

/// The questions on one ring, among questions that are sorted.
pub fn questions_on(questions: &[Question], ring: usize) -> &[Question]
    ensures { IsSorted order.ghosts.cmp questions.now → result.now ≡ questions_on questions.now ring }
{
    let first = questions.partition_point(|question| question.ring < ring);
    let end = questions.partition_point(|question| question.ring <= ring);
    questions.get(first..end).unwrap_or(&[])
}

/// The bits that are asked about.
pub fn asked_bits(alloc: Global, questions: &[Question]) -> Result<Vec<Bit>, NoMemory>
    ensures { IfOk result (λ bits. bits.items ≡ map (λ (q : QuestionOf). q.bit) questions.now) }
{
    let mut bits = Vec::new(alloc);
    for question in questions {
        bits.push(question.bit).map_err(|_| NoMemory)?;
    }
    Ok(bits)
}

/// The bits ascending, each once.
pub fn in_order(bits: Vec<Bit>) -> Vec<Bit>
    ensures same { (b : Bit) → Contains result.items b ↔ Contains bits.items b }
    ensures sorted { IsSorted bit_order.ghosts.cmp result.items }
{
    let mut bits = bits;
    bits.sort_unstable();
    bits.dedup();
    bits
}
