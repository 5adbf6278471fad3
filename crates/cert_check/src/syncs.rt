//! Whether listed synchronizers are synchronizers.
ghost use Rattle.std.specs.Prelude.{◌≡◌, ◌<◌, ◌∷◌, ℕ, [], List, Contains, length, Bool, true, IfOk};
ghost use Rattle.cdc_base.specs.declared.bit.Bit.{Bit};
ghost use Rattle.domains.specs.Fit.{Fit};
ghost use Rattle.domains.specs.Nets.{IsNet};
ghost use Rattle.cdc_model.specs.declared.scheme.GrayReg.{GrayReg};
ghost use Rattle.cdc_model.specs.declared.scheme.Sync.{Sync as SyncEntry};
ghost use Rattle.cdc_model.specs.Nets.{HasNextCells, design_of, is_register_bit, net_trees};
ghost use Rattle.cdc_model.specs.Readers.{IsMarked, reader_at, readers_of};
ghost use Rattle.cdc_model.specs.Syncs.{next_flop};
ghost use Rattle.cdc_model.specs.Tables.{ShowsNet};
ghost use Rattle.cert_check.specs.Certified.{IsSyncItem};
ghost use Rattle.cert_check.specs.Items.{AreKept, IsFirstFailing, is_chain, is_next, is_sync_item};

use cdc_base::{Bit, NoMemory};
use cdc_model::view::{are_apart, mark, next_node, settle_of, unmarked, width_of};
use cdc_model::{Readers, Sync};
use cell_graph::Net;
use cofactor::Table;
use domains::Domains;
use std::alloc::Global;
use two_flop::{MAX_FLOPS, is_copy, next_flop};

/// The place of the first listed synchronizer that is none. The table is one without a cube.
pub fn first_bad_sync(
    alloc: Global,
    net: &Net,
    domains: &Domains,
    plain: &mut Table,
    syncs: &[Sync],
) -> Result<Option<usize>, NoMemory>
    ensures exact { IfOk result (λ place. IsNet net.now → HasNextCells net.now → Fit net.now domains.now → ShowsNet net.now [] plain.old →
        (grays : GrayReg → Bool) →
        IsFirstFailing (IsSyncItem (design_of net.now domains.now) (net_trees net.now grays)) syncs.now place) }
    ensures unchanged { plain.new ≡ plain.old }
{
    let marks = flop_marks(alloc, net, syncs)?;
    let readers = Readers::find(alloc, net, plain, marks.as_slice())?;
    for (place, sync) in syncs.iter().enumerate() {
        if !is_sync_item(net, domains, plain, &readers, sync) {
            return Ok(Some(place));
        }
    }
    Ok(None)
}

/// Marks the signals of the flops.
fn flop_marks(alloc: Global, net: &Net, syncs: &[Sync]) -> Result<Vec<Option<u32>>, NoMemory>
    ensures { IfOk result (λ marks. (s : SyncEntry) (f : Bit) → Contains syncs.now s → Contains s.flops f → is_register_bit net.now f ≡ true →
        IsMarked marks.items f.sig) }
{
    let mut marks = unmarked(alloc, net)?;
    for sync in syncs {
        mark_all(sync.flops.as_slice(), &mut marks);
    }
    Ok(marks)
}

/// Marks the signals of the bits.
fn mark_all(bits: &[Bit], marks: &mut Vec<Option<u32>>)
    ensures counted { length marks.new.items ≡ length marks.old.items }
    ensures marked { (b : Bit) → Contains bits.now b → b.sig < length marks.old.items → IsMarked marks.new.items b.sig }
    ensures kept { (sig : ℕ) → IsMarked marks.old.items sig → IsMarked marks.new.items sig }
{
    for bit in bits {
        mark(marks, *bit);
    }
}

/// Whether the flops are those of a synchronizer from the source: the first copies a bit of another group, each further
/// one is the next flop, they go on as far as the chain does, and they are more than their clock needs cycles to settle.
fn is_sync_item(net: &Net, domains: &Domains, plain: &Table, readers: &Readers, sync: &Sync) -> bool
    ensures { IsNet net.now → HasNextCells net.now → ShowsNet net.now [] plain.now → AreKept net.now readers.now sync.now.flops →
        result ≡ is_sync_item net.now domains.now sync.now.from sync.now.flops }
{
    let [first, more @ ..] = sync.flops.as_slice() else {
        return false;
    };
    is_register(net, *first)
        && is_copy(net, plain, *first, sync.from)
        && are_apart(domains, sync.from, *first)
        && more.len() >= usize::from(settle_of(domains, *first))
        && is_chain(net, domains, plain, readers, *first, more)
}

/// Whether the bit is one of a register.
pub fn is_register(net: &Net, bit: Bit) -> bool
    ensures { IsNet net.now → result ≡ is_register_bit net.now bit }
{
    next_node(net, bit).is_some() && bit.at < width_of(net, bit.sig)
}

/// Whether these are all flops behind the first, four in all at most.
fn is_chain(
    net: &Net,
    domains: &Domains,
    plain: &Table,
    readers: &Readers,
    first: Bit,
    more: &[Bit],
) -> bool
    ensures { IsNet net.now → HasNextCells net.now → ShowsNet net.now [] plain.now → is_register_bit net.now first ≡ true →
        AreKept net.now readers.now (first ∷ more.now) →
        result ≡ is_chain net.now domains.now 3 first more.now }
{
    if more.len() >= MAX_FLOPS {
        return false;
    }
    let mut last = first;
    for flop in more {
        if !is_next(net, domains, plain, readers, last, *flop) {
            return false;
        }
        last = *flop;
    }
    more.len() == MAX_FLOPS - 1 || next_flop(net, domains, plain, readers, last).is_none()
}

fn is_next(
    net: &Net,
    domains: &Domains,
    plain: &Table,
    readers: &Readers,
    flop: Bit,
    next: Bit,
) -> bool
    ensures { IsNet net.now → HasNextCells net.now → ShowsNet net.now [] plain.now → reader_at readers.now flop ≡ readers_of net.now flop →
        result ≡ is_next net.now domains.now flop next }
{
    match next_flop(net, domains, plain, readers, flop) {
        Some(bit) => bit == next,
        None => false,
    }
}
