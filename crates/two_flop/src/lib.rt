//! Synchronizers: chains of flops behind a crossing.
#![tactic(auto)]

ghost use Rattle.std.specs.Prelude.{◌≡◌, ◌<◌, ℕ, false, true, [], ◌∷◌, ◌++◌, List, length, map, Contains, IfOk};
ghost use Rattle.cdc_base.specs.declared.bit.Bit.{Bit};
ghost use Rattle.domains.specs.Nets.{IsNet};
ghost use Rattle.cdc_model.specs.declared.scheme.Crossing.{Crossing};
ghost use Rattle.cdc_model.specs.Found.{crossings_of};
ghost use Rattle.cdc_model.specs.Listed.{sync_entry};
ghost use Rattle.cdc_model.specs.Nets.{HasNextCells, bit_count, bits_of_registers, is_register_bit};
ghost use Rattle.cdc_model.specs.Readers.{IsMarked, reader_at, readers_of};
ghost use Rattle.cdc_model.specs.Syncs.{copies, on_one_clock, next_flop, flops_behind, syncs_from, syncs_of};
ghost use Rattle.cdc_model.specs.Tables.{ShowsNet};
ghost use Rattle.two_flop.specs.Flops.{EndInRegisters, IsReached, AreKept};

use cdc_base::{Bit, List, NoMemory};
use cdc_model::view::{
    copied_bit, is_marked, mark, plain_table, register_bits, settle_of, unmarked,
};
use cdc_model::{Crossing, Reader, Readers, Sync};
use cell_graph::Net;
use cofactor::Table;
use domains::Domains;
use std::alloc::Global;

/// The most flops of a synchronizer. A longer chain of copies ends its synchronizer here.
pub const MAX_FLOPS: usize = 4;

/// All synchronizers of the net, by their first flops. A synchronizer has one flop more than its clock needs cycles to
/// settle, or more.
pub fn syncs(
    alloc: Global,
    net: &Net,
    domains: &Domains,
    crossings: &[Crossing],
) -> Result<List<Sync>, NoMemory>
    ensures exact { IfOk result (λ syncs. IsNet net.now → HasNextCells net.now → crossings.now ≡ crossings_of net.now domains.now →
        syncs ≡ map sync_entry (syncs_of net.now domains.now)) }
{
    let mut plain = plain_table(alloc, net)?;
    syncs_with(alloc, net, domains, crossings, &mut plain)
}

/// `syncs` by the net's table without a cube.
pub fn syncs_with(
    alloc: Global,
    net: &Net,
    domains: &Domains,
    crossings: &[Crossing],
    plain: &mut Table,
) -> Result<List<Sync>, NoMemory>
    ensures exact { IfOk result (λ syncs. IsNet net.now → HasNextCells net.now → ShowsNet net.now [] plain.old → crossings.now ≡ crossings_of net.now domains.now →
        syncs ≡ map sync_entry (syncs_of net.now domains.now)) }
    ensures unchanged { plain.new ≡ plain.old }
{
    let flops = flops(alloc, net, plain, crossings)?;
    let readers = Readers::find(alloc, net, plain, flops.as_slice())?;
    let mut syncs = List::new(alloc);
    for crossing in crossings {
        add_sync(alloc, net, domains, plain, &readers, *crossing, &mut syncs)?;
    }
    Ok(syncs)
}

/// Adds the synchronizer that begins with the crossing, if one does.
fn add_sync(
    alloc: Global,
    net: &Net,
    domains: &Domains,
    table: &Table,
    readers: &Readers,
    crossing: Crossing,
    syncs: &mut List<Sync>,
) -> Result<(), NoMemory>
    ensures { IfOk result (λ _. IsNet net.now → HasNextCells net.now → ShowsNet net.now [] table.now → is_register_bit net.now crossing.to ≡ true →
        (copies net.now crossing.to crossing.from ≡ true → AreKept net.now domains.now readers.now 3 crossing.to) →
        syncs.new ≡ syncs.old ++ map sync_entry (syncs_from net.now domains.now crossing)) }
{
    if !is_copy(net, table, crossing.to, crossing.from) {
        return Ok(());
    }
    let flops = chain(alloc, net, domains, table, readers, crossing.to)?;
    if flops.len() <= usize::from(settle_of(domains, crossing.to)) {
        return Ok(());
    }
    let from = crossing.from;
    syncs.push(Sync { from, flops })
}

/// Whether a register bit is a plain copy of another bit.
pub fn is_copy(net: &Net, table: &Table, bit: Bit, of: Bit) -> bool
    ensures { IsNet net.now → HasNextCells net.now → ShowsNet net.now [] table.now → is_register_bit net.now bit ≡ true → result ≡ copies net.now bit of }
{
    match copied_bit(net, table, bit) {
        Some(from) => from == of,
        None => false,
    }
}

/// Marks the signals of first flops and of the copies behind them: the flops of synchronizers are among these.
fn flops(
    alloc: Global,
    net: &Net,
    table: &Table,
    crossings: &[Crossing],
) -> Result<Vec<Option<u32>>, NoMemory>
    ensures { IfOk result (λ marks. IsNet net.now → HasNextCells net.now → ShowsNet net.now [] table.now → EndInRegisters net.now crossings.now →
        (x : Bit) → IsReached net.now crossings.now 3 x → IsMarked marks.items x.sig) }
{
    let mut marks = unmarked(alloc, net)?;
    mark_first(net, table, crossings, &mut marks);
    let bits = register_bits(alloc, net)?;
    for _ in 0..MAX_FLOPS - 1 {
        mark_copies(net, table, bits.as_slice(), &mut marks);
    }
    Ok(marks)
}

/// Marks the signals of first flops.
fn mark_first(net: &Net, table: &Table, crossings: &[Crossing], marks: &mut Vec<Option<u32>>)
    ensures counted { length marks.new.items ≡ length marks.old.items }
    ensures marked { IsNet net.now → HasNextCells net.now → ShowsNet net.now [] table.now → EndInRegisters net.now crossings.now →
        length marks.old.items ≡ length net.now.graph.signals → (x : Bit) → IsReached net.now crossings.now 0 x → IsMarked marks.new.items x.sig }
{
    for crossing in crossings {
        mark_end(net, table, *crossing, marks);
    }
}

/// Marks the signal of the crossing's end, where that copies its source.
fn mark_end(net: &Net, table: &Table, crossing: Crossing, marks: &mut Vec<Option<u32>>)
    ensures counted { length marks.new.items ≡ length marks.old.items }
    ensures kept { (sig : ℕ) → IsMarked marks.old.items sig → IsMarked marks.new.items sig }
    ensures marked { IsNet net.now → HasNextCells net.now → ShowsNet net.now [] table.now → is_register_bit net.now crossing.to ≡ true →
        length marks.old.items ≡ length net.now.graph.signals → copies net.now crossing.to crossing.from ≡ true → IsMarked marks.new.items crossing.to.sig }
{
    if is_copy(net, table, crossing.to, crossing.from) {
        mark(marks, crossing.to);
    }
}

/// Marks the signals of the bits that copy a bit of a marked signal.
fn mark_copies(net: &Net, table: &Table, bits: &[Bit], marks: &mut Vec<Option<u32>>)
    ensures counted { length marks.new.items ≡ length marks.old.items }
    ensures kept { (sig : ℕ) → IsMarked marks.old.items sig → IsMarked marks.new.items sig }
    ensures marked { IsNet net.now → HasNextCells net.now → ShowsNet net.now [] table.now → length marks.old.items ≡ length net.now.graph.signals →
        (x f : Bit) → Contains bits.now x → is_register_bit net.now x ≡ true → copies net.now x f ≡ true → IsMarked marks.old.items f.sig → IsMarked marks.new.items x.sig }
{
    for bit in bits {
        mark_copy(net, table, *bit, marks);
    }
}

/// Marks the signal of the bit, where it copies a bit of a marked signal.
fn mark_copy(net: &Net, table: &Table, bit: Bit, marks: &mut Vec<Option<u32>>)
    ensures counted { length marks.new.items ≡ length marks.old.items }
    ensures kept { (sig : ℕ) → IsMarked marks.old.items sig → IsMarked marks.new.items sig }
    ensures marked { IsNet net.now → HasNextCells net.now → ShowsNet net.now [] table.now → length marks.old.items ≡ length net.now.graph.signals →
        is_register_bit net.now bit ≡ true → (f : Bit) → copies net.now bit f ≡ true → IsMarked marks.old.items f.sig → IsMarked marks.new.items bit.sig }
{
    if copies_marked(net, table, bit, marks.as_slice()) {
        mark(marks, bit);
    }
}

/// Whether the bit copies a bit of a marked signal.
fn copies_marked(net: &Net, table: &Table, bit: Bit, marks: &[Option<u32>]) -> bool
    ensures { IsNet net.now → HasNextCells net.now → ShowsNet net.now [] table.now → is_register_bit net.now bit ≡ true →
        (f : Bit) → copies net.now bit f ≡ true → IsMarked marks.now f.sig → result ≡ true }
{
    match copied_bit(net, table, bit) {
        Some(from) => is_marked(marks, from),
        None => false,
    }
}

/// The first flop and those behind it, each read by the next alone, up to four.
fn chain(
    alloc: Global,
    net: &Net,
    domains: &Domains,
    table: &Table,
    readers: &Readers,
    first: Bit,
) -> Result<List<Bit>, NoMemory>
    ensures { IfOk result (λ flops. IsNet net.now → HasNextCells net.now → ShowsNet net.now [] table.now → AreKept net.now domains.now readers.now 3 first →
        flops ≡ first ∷ flops_behind net.now domains.now 3 first) }
{
    let mut flops = List::new(alloc);
    flops.push(first)?;
    let mut last = first;
    for _ in 0..MAX_FLOPS - 1 {
        let Some(next) = next_flop(net, domains, table, readers, last) else {
            return Ok(flops);
        };
        flops.push(next)?;
        last = next;
    }
    Ok(flops)
}

/// The one reader of the flop, where that is a plain copy on the flop's clock.
pub fn next_flop(
    net: &Net,
    domains: &Domains,
    table: &Table,
    readers: &Readers,
    flop: Bit,
) -> Option<Bit>
    ensures { IsNet net.now → HasNextCells net.now → ShowsNet net.now [] table.now → reader_at readers.now flop ≡ readers_of net.now flop →
        result ≡ next_flop net.now domains.now flop }
{
    match readers.of(flop) {
        Reader::Alone(next) => {
            if !is_copy(net, table, next, flop) {
                return None;
            }
            if on_one_clock(domains, next, flop) {
                Some(next)
            } else {
                None
            }
        }
        Reader::Nobody => None,
        Reader::Others => None,
    }
}

/// Whether both bits have a clock, and it is one.
fn on_one_clock(domains: &Domains, one: Bit, another: Bit) -> bool
    ensures { result ≡ on_one_clock domains.now one another }
{
    match (domains.clock_of(one), domains.clock_of(another)) {
        (Some(clock), Some(other)) => clock == other,
        _ => false,
    }
}
