//! Who reads each state bit of a net.
ghost use Rattle.std.specs.Prelude.{◌≡◌, ℕ, ◌+◌, ◌<◌, ◌^◌, false, Option, Some, cond, map, List, [], length, IfOk};
ghost use Rattle.std.specs.List.{list_any};
ghost use Rattle.cdc_base.specs.declared.bit.Bit.{Bit};
ghost use Rattle.cell_graph.specs.Cells.{cell_width};
ghost use Rattle.cell_graph.specs.Cofactor.{reads};
ghost use Rattle.cell_graph.specs.Reading.{bit_eq};
ghost use Rattle.cell_graph.specs.Tree.{any_below};
ghost use Rattle.cell_graph.specs.Unfolded.{tree_of};
ghost use Rattle.domains.specs.Nets.{IsNet};
ghost use Rattle.cdc_model.specs.declared.readers.Reader.TheVariants.{Nobody, Alone, Others};
ghost use Rattle.cdc_model.specs.Nets.{next_tree, HasNextCells, bit_count, is_read_by_output};
ghost use Rattle.cdc_model.specs.Readers.{
  readers_of,
  reader_among,
  registers_reading,
  state_width,
  IsStateBit,
  IsMarked,
  ShowsBelow,
  place_in,
  place_of,
  HasPlace,
  reader_at,
  AreLaid,
  more_readers,
  noted_in,
  output_reads,
};
ghost use Rattle.cdc_model.specs.Tables.{ShowsNet};

use crate::below::{Below, Marks};
use crate::view::{marked_bits_read, reads_marked, register_bits};
use cdc_base::{Bit, NoMemory, SigKind, Signal};
use cell_graph::{CellId, Net, Node};
use cofactor::Table;
use std::alloc::Global;
use std::marker::Model;

/// Who reads a bit, among the next values of register bits and the top outputs.
#[derive(Clone, Copy, PartialEq, Eq, Debug, Drop)]
pub enum Reader {
    Nobody,
    /// This register bit alone, and no top output.
    Alone(Bit),
    /// A top output, or several register bits.
    Others,
}

impl Reader {
    /// The readers when one more is met.
    fn and(self, more: Reader) -> Reader
        ensures { result ≡ more_readers self more }
    {
        match self {
            Reader::Nobody => more,
            Reader::Alone(_) => Reader::Others,
            Reader::Others => Reader::Others,
        }
    }
}

/// Where the bits of a signal stand among the state bits.
#[derive(Clone, Copy, Debug, Drop)]
struct Span {
    start: usize,
    width: u8,
}

impl Span {
    /// The place of a bit of the signal.
    fn place(self, at: u8) -> Option<usize>
        ensures { self.start + self.width < 2 ^ 64 → result ≡ place_in (Some self) at }
    {
        if at < self.width {
            self.start.checked_add(usize::from(at))
        } else {
            None
        }
    }
}

/// The readers of bits of registers and top inputs.
#[derive(Drop)]
pub struct Readers {
    spans: Vec<Span>,
    readers: Vec<Reader>,
}

impl Model for Readers {
    ghost use Rattle.std.specs.Prelude.{length};
    ghost use Rattle.cdc_model.specs.Readers.{AreLaid, Kept};

    ghost Value = { Kept };

    ghost view = { λ r. record { spans = r.spans.items; readers = r.readers.items } };

    ghost invariant = { λ r. AreLaid 0 r.spans.items (length r.readers.items) };
}

impl Readers {
    /// The readers of the bits of the marked signals; of other bits it knows none. The table is one without a cube.
    pub fn find(
        alloc: Global,
        net: &Net,
        table: &mut Table,
        marks: &[Option<u32>],
    ) -> Result<Readers, NoMemory>
        ensures exact { IfOk result (λ readers. IsNet net.now → HasNextCells net.now → ShowsNet net.now [] table.old →
            (b : Bit) → IsStateBit net.now.graph.signals b → IsMarked marks.now b.sig → reader_at readers b ≡ readers_of net.now b) }
        ensures unchanged { table.new ≡ table.old }
    {
        let below = Below::find(alloc, &net.graph, marks)?;
        let mut readers = Readers::empty(alloc, net.graph.signals())?;
        readers.note_registers(alloc, net, table, &below, marks)?;
        readers.note_outputs(alloc, net, table, &below)?;
        Ok(readers)
    }

    /// Who reads the bit.
    pub fn of(&self, bit: Bit) -> Reader
        ensures { result ≡ reader_at self.now bit }
    {
        match self.place(bit) {
            Some(place) => match self.readers.get(place) {
                Some(reader) => *reader,
                None => Reader::Nobody,
            },
            None => Reader::Nobody,
        }
    }

    /// A place for each state bit, and no readers.
    fn empty(alloc: Global, signals: &[Signal]) -> Result<Readers, NoMemory>
        ensures places { IfOk result (λ readers. (b : Bit) → IsStateBit signals.now b → HasPlace readers.spans b) }
        ensures nobody { IfOk result (λ readers. (b : Bit) → reader_at readers b ≡ Nobody) }
    {
        let (spans, count) = spans_of(alloc, signals)?;
        match vec![in alloc; Reader::Nobody; count] {
            Ok(readers) => Ok(Readers { spans, readers }),
            Err(_) => Err(NoMemory),
        }
    }

    fn place(&self, bit: Bit) -> Option<usize>
        ensures { result ≡ place_of self.now.spans bit }
    {
        match self.spans.get(bit.sig as usize) {
            Some(span) => span.place(bit.at),
            None => None,
        }
    }

    fn note(&mut self, bit: Bit, reader: Reader)
        ensures spans { self.new.spans ≡ self.old.spans }
        ensures noted { (b : Bit) → HasPlace self.old.spans b →
            reader_at self.new b ≡ cond (bit_eq bit b) (more_readers (reader_at self.old b) reader) (reader_at self.old b) }
    {
        if let Some(place) = self.place(bit) {
            if place < self.readers.len() {
                self.readers[place] = self.readers[place].and(reader);
            }
        }
    }

    fn note_all(&mut self, bits: &[Bit], reader: Reader)
        ensures spans { self.new.spans ≡ self.old.spans }
        ensures noted { (b : Bit) → HasPlace self.old.spans b → reader_at self.new b ≡ noted_in b bits.now reader (reader_at self.old b) }
    {
        for bit in bits {
            self.note(*bit, reader);
        }
    }

    /// Notes the register bits that read bits of marked signals.
    fn note_registers(
        &mut self,
        alloc: Global,
        net: &Net,
        table: &mut Table,
        below: &Below,
        marks: &[Option<u32>],
    ) -> Result<(), NoMemory>
        ensures spans { IfOk result (λ _. self.new.spans ≡ self.old.spans) }
        ensures noted { IfOk result (λ _. IsNet net.now → HasNextCells net.now → ShowsNet net.now [] table.old →
            ShowsBelow net.now marks.now below.now → (b : Bit) → HasPlace self.old.spans b → IsMarked marks.now b.sig → reader_at self.old b ≡ Nobody →
            reader_at self.new b ≡ reader_among (registers_reading net.now b)) }
        ensures unchanged { table.new ≡ table.old }
    {
        let bits = register_bits(alloc, net)?;
        for bit in bits.as_slice() {
            self.note_register(alloc, net, table, below, marks, *bit)?;
        }
        Ok(())
    }

    fn note_register(
        &mut self,
        alloc: Global,
        net: &Net,
        table: &mut Table,
        below: &Below,
        marks: &[Option<u32>],
        bit: Bit,
    ) -> Result<(), NoMemory>
        ensures spans { IfOk result (λ _. self.new.spans ≡ self.old.spans) }
        ensures noted { IfOk result (λ _. IsNet net.now → HasNextCells net.now → ShowsNet net.now [] table.old →
            ShowsBelow net.now marks.now below.now → bit.at < bit_count net.now.graph.signals bit.sig → (b : Bit) → HasPlace self.old.spans b → IsMarked marks.now b.sig →
            reader_at self.new b ≡ cond (reads [] (next_tree net.now bit.sig) bit.at b) (more_readers (reader_at self.old b) (Alone bit)) (reader_at self.old b)) }
        ensures unchanged { table.new ≡ table.old }
    {
        if !reads_marked(net, below, bit) {
            return Ok(());
        }
        let reads = marked_bits_read(alloc, net, table, bit, marks)?;
        self.note_all(reads.as_slice(), Reader::Alone(bit));
        Ok(())
    }

    /// Notes the top outputs that read bits of marked signals.
    fn note_outputs(
        &mut self,
        alloc: Global,
        net: &Net,
        table: &mut Table,
        below: &Below,
    ) -> Result<(), NoMemory>
        ensures noted { IfOk result (λ _. (marks : List (Option ℕ)) → IsNet net.now → ShowsNet net.now [] table.old →
            ShowsBelow net.now marks below.now → (b : Bit) → HasPlace self.old.spans b → IsMarked marks b.sig →
            reader_at self.new b ≡ cond (is_read_by_output net.now b) Others (reader_at self.old b)) }
        ensures unchanged { table.new ≡ table.old }
    {
        for output in net.outputs.as_slice() {
            self.note_output(alloc, net, table, below, *output)?;
        }
        Ok(())
    }

    fn note_output(
        &mut self,
        alloc: Global,
        net: &Net,
        table: &mut Table,
        below: &Below,
        output: CellId,
    ) -> Result<(), NoMemory>
        ensures spans { IfOk result (λ _. self.new.spans ≡ self.old.spans) }
        ensures noted { IfOk result (λ _. (marks : List (Option ℕ)) → IsNet net.now → ShowsNet net.now [] table.old →
            ShowsBelow net.now marks below.now → (b : Bit) → HasPlace self.old.spans b → IsMarked marks b.sig →
            reader_at self.new b ≡ cond (output_reads net.now.graph b output) Others (reader_at self.old b)) }
        ensures unchanged { table.new ≡ table.old }
    {
        if output.0 >= net.graph.cell_count() {
            return Ok(());
        }
        match below.of(output) {
            Marks::Nothing => Ok(()),
            _ => self.note_word(alloc, net, table, output),
        }
    }

    /// Notes that a top output reads what the bits of the cell read.
    fn note_word(
        &mut self,
        alloc: Global,
        net: &Net,
        table: &mut Table,
        output: CellId,
    ) -> Result<(), NoMemory>
        ensures spans { IfOk result (λ _. self.new.spans ≡ self.old.spans) }
        ensures noted { IfOk result (λ _. IsNet net.now → ShowsNet net.now [] table.old → output.0 < length net.now.graph.cells →
            (b : Bit) → HasPlace self.old.spans b →
            reader_at self.new b ≡ cond (output_reads net.now.graph b output) Others (reader_at self.old b)) }
        ensures unchanged { table.new ≡ table.old }
    {
        for at in 0..net.graph.width(output) {
            let reads = table.reads(alloc, net, Node { cell: output, at })?;
            self.note_all(reads.as_slice(), Reader::Others);
        }
        Ok(())
    }
}

/// The spans of the signals, and how many state bits these have.
fn spans_of(alloc: Global, signals: &[Signal]) -> Result<(Vec<Span>, usize), NoMemory>
    ensures laid { IfOk result (λ found. AreLaid 0 found.0.items found.1) }
    ensures widths { IfOk result (λ found. map (λ span. span.width) found.0.items ≡ map state_width signals.now) }
{
    let mut spans = Vec::new(alloc);
    let mut start: usize = 0;
    for signal in signals {
        let width = state_width(signal);
        if spans.push(Span { start, width }).is_err() {
            return Err(NoMemory);
        }
        let Some(next) = start.checked_add(usize::from(width)) else {
            return Err(NoMemory);
        };
        start = next;
    }
    Ok((spans, start))
}

/// The state bits of a signal.
fn state_width(signal: &Signal) -> u8
    ensures { result ≡ state_width signal.now }
{
    match signal.kind {
        SigKind::Input | SigKind::Register => signal.width,
        SigKind::Wire => 0,
    }
}
