//! What a line says.
ghost use Rattle.std.specs.Prelude.{◌≡◌, ◌<◌, ◌^◌, List, IfOk};
ghost use Rattle.std.specs.Str.{bytes_eq};
ghost use Rattle.std.specs.List.{list_all};
ghost use Rattle.cdc_base.specs.declared.signal.Signal.{Signal as SignalOf};
ghost use Rattle.cert_text.specs.Names.{bits_named};
ghost use Rattle.cert_text.specs.Read.{are_load_marks, are_ring_words, end_in, entry_in, fifo_in, gray_in, is_bit_name, known_load, load_in, load_of, parted_ring, ring_in, ring_numbered, ring_of, ring_words, shape_named, size_of, small_entry_in, sync_in};
ghost use Rattle.cert_text.specs.Tables.{HasNames};
ghost use Rattle.cert_text.specs.Told.{told};
ghost use Rattle.cert_text.specs.Words.{number_below};

use crate::certificate::Entry;
use crate::names::{Names, is_name};
use crate::words::{is_decimal, number_below};
use cdc_base::{Bit, List, NoMemory};
use cdc_model::{GrayReg, Load, Ring, Shape, Sync};
use fifo_scheme::FifoPair;
use std::alloc::Global;

/// What the words of a line say, by the first of them; None where they break a rule. `places` has how many places each
/// ring of the text has.
pub fn entry_in(
    alloc: Global,
    names: &Names<'_>,
    places: &[usize],
    words: &[List<u8>],
) -> Result<Option<Entry>, NoMemory>
    ensures { IfOk result (λ entry. (signals : List SignalOf) → HasNames signals names.now → entry ≡ entry_in signals places.now words.now) }
{
    let [word, behind @ ..] = words else {
        return Ok(None);
    };
    if is_word(word, "sync") {
        return sync_in(alloc, names, behind);
    }
    if is_word(word, "ring") {
        return ring_in(alloc, names, behind);
    }
    if is_word(word, "load") {
        return load_in(names, places, behind);
    }
    Ok(small_entry_in(names, word, behind))
}

/// An item of two words or none, or the end.
fn small_entry_in(names: &Names<'_>, word: &List<u8>, behind: &[List<u8>]) -> Option<Entry>
    ensures { (signals : List SignalOf) → HasNames signals names.now → result ≡ small_entry_in signals word.now behind.now }
{
    if is_word(word, "gray") {
        gray_in(names, behind)
    } else if is_word(word, "fifo") {
        fifo_in(names, behind)
    } else if is_word(word, "end") {
        end_in(behind)
    } else {
        None
    }
}

fn is_word(word: &List<u8>, text: &str) -> bool
    ensures { result ≡ bytes_eq word.now text.now }
{
    word.as_slice() == text.as_bytes()
}

/// A synchronizer: `B : F1 F2`.
fn sync_in(alloc: Global, names: &Names<'_>, words: &[List<u8>]) -> Result<Option<Entry>, NoMemory>
    ensures { IfOk result (λ entry. (signals : List SignalOf) → HasNames signals names.now → entry ≡ sync_in signals words.now) }
{
    let [from, colon, flops @ ..] = words else {
        return Ok(None);
    };
    if flops.is_empty() || !is_word(colon, ":") {
        return Ok(None);
    }
    let Some(from) = names.bit(from.as_slice()) else {
        return Ok(None);
    };
    match bits_named(alloc, names, flops)? {
        Some(flops) => Ok(Some(Entry::Sync(Sync { from, flops }))),
        None => Ok(None),
    }
}

/// The bits with these names; None where one is unknown.
fn bits_named(
    alloc: Global,
    names: &Names<'_>,
    words: &[List<u8>],
) -> Result<Option<List<Bit>>, NoMemory>
    ensures { IfOk result (λ bits. (signals : List SignalOf) → HasNames signals names.now → bits ≡ bits_named signals words.now) }
{
    let mut bits = List::new(alloc);
    for word in words {
        match names.bit(word.as_slice()) {
            Some(bit) => bits.push(bit)?,
            None => return Ok(None),
        }
    }
    Ok(Some(bits))
}

/// A Gray register: `G of B SHAPE`.
fn gray_in(names: &Names<'_>, words: &[List<u8>]) -> Option<Entry>
    ensures { (signals : List SignalOf) → HasNames signals names.now → result ≡ gray_in signals words.now }
{
    let [gray, of, count, shape] = words else {
        return None;
    };
    if !is_word(of, "of") {
        return None;
    }
    let gray = names.signal(gray.as_slice())?;
    let count = names.signal(count.as_slice())?;
    let shape = shape_named(shape)?;
    Some(Entry::Gray(GrayReg { count, gray, shape }))
}

fn shape_named(word: &List<u8>) -> Option<Shape>
    ensures { result ≡ shape_named word.now }
{
    if is_word(word, "G1") {
        Some(Shape::G1)
    } else if is_word(word, "G2") {
        Some(Shape::G2)
    } else if is_word(word, "G3") {
        Some(Shape::G3)
    } else {
        None
    }
}

/// Of a ring's line, the names of its bits and the words of its two places.
#[derive(Clone, Copy, Drop)]
struct RingWords<'a> {
    names: &'a [List<u8>],
    end: &'a List<u8>,
    ack: &'a List<u8>,
}

/// What stands in `C0 .. CN end P ack P`; None where the words lack this form.
fn ring_words(words: &[List<u8>]) -> Option<RingWords<'_>>
    ensures { told result ≡ ring_words words.now }
{
    let (names, behind) = words.split_at(words.len().saturating_sub(4));
    parted_ring(names, behind)
}

/// The same from the names and the four words behind them.
fn parted_ring<'a>(names: &'a [List<u8>], behind: &'a [List<u8>]) -> Option<RingWords<'a>>
    ensures { told result ≡ parted_ring names.now behind.now }
{
    let [end_mark, end, ack_mark, ack] = behind else {
        return None;
    };
    if are_ring_words(names, end_mark, end, ack_mark, ack) {
        Some(RingWords { names, end, ack })
    } else {
        None
    }
}

fn are_ring_words(
    names: &[List<u8>],
    end_mark: &List<u8>,
    end: &List<u8>,
    ack_mark: &List<u8>,
    ack: &List<u8>,
) -> bool
    ensures { result ≡ are_ring_words names.now end_mark.now end.now ack_mark.now ack.now }
{
    !names.is_empty()
        && is_word(end_mark, "end")
        && is_word(ack_mark, "ack")
        && are_bit_names(names)
        && is_decimal(end.as_slice())
        && is_decimal(ack.as_slice())
}

fn are_bit_names(words: &[List<u8>]) -> bool
    ensures { result ≡ list_all is_bit_name words.now }
{
    for word in words {
        if !is_bit_name(word) {
            return false;
        }
    }
    true
}

/// Whether the word has the form of a printed name. The word `end` is none, since reserved words are printed escaped.
fn is_bit_name(word: &List<u8>) -> bool
    ensures { result ≡ is_bit_name word.now }
{
    is_name(word.as_slice()) && !is_word(word, "end")
}

/// How many places the ring of a line with these words has; none where the line is badly formed.
pub fn ring_size(words: &[List<u8>]) -> usize
    ensures { result ≡ size_of (ring_words words.now) }
{
    match ring_words(words) {
        Some(ring) => ring.names.len(),
        None => 0,
    }
}

/// A ring, whose two places lie inside it.
fn ring_in(alloc: Global, names: &Names<'_>, words: &[List<u8>]) -> Result<Option<Entry>, NoMemory>
    ensures { IfOk result (λ entry. (signals : List SignalOf) → HasNames signals names.now → entry ≡ ring_in signals words.now) }
{
    let Some(ring) = ring_words(words) else {
        return Ok(None);
    };
    match bits_named(alloc, names, ring.names)? {
        Some(bits) => ring_of(bits, ring.end, ring.ack),
        None => Ok(None),
    }
}

/// The ring of these bits, where the places lie inside it.
fn ring_of(bits: List<Bit>, end: &List<u8>, ack: &List<u8>) -> Result<Option<Entry>, NoMemory>
    ensures { IfOk result (λ entry. entry ≡ ring_of bits end.now ack.now) }
{
    let Some(end) = place_below(bits.len(), end.as_slice())? else {
        return Ok(None);
    };
    let Some(ack) = place_below(bits.len(), ack.as_slice())? else {
        return Ok(None);
    };
    Ok(Some(Entry::Ring(Ring { bits, end, ack })))
}

/// The place that the word is, where it lies below the bound. No memory holds a ring with more places than a word of 32
/// bits counts.
fn place_below(bound: usize, word: &[u8]) -> Result<Option<u32>, NoMemory>
    ensures { IfOk result (λ place. place ≡ number_below bound word.now) }
{
    match number_below(bound as u64, word) {
        Some(place) => match u32::try_from(place) {
            Ok(place) => Ok(Some(place)),
            Err(_) => Err(NoMemory),
        },
        None => Ok(None),
    }
}

/// The place of the ring with the number that the word is, counted from 1, among so many rings.
fn ring_numbered(rings: usize, word: &[u8]) -> Option<u64>
    ensures { rings < 2 ^ 63 → result ≡ ring_numbered rings word.now }
{
    let number = number_below((rings as u64).saturating_add(1), word)?;
    number.checked_sub(1)
}

/// A load: `B -> X ring R gate P`. The ring is among those of the text, and has the place.
fn load_in(
    names: &Names<'_>,
    places: &[usize],
    words: &[List<u8>],
) -> Result<Option<Entry>, NoMemory>
    ensures { IfOk result (λ entry. (signals : List SignalOf) → HasNames signals names.now → entry ≡ load_in signals places.now words.now) }
{
    let [from, arrow, to, ring_mark, ring, gate_mark, gate] = words else {
        return Ok(None);
    };
    if are_load_marks(arrow, ring_mark, gate_mark) {
        let from = names.bit(from.as_slice());
        let to = names.bit(to.as_slice());
        known_load(places, from, to, ring, gate)
    } else {
        Ok(None)
    }
}

/// The load of this crossing, where both of its bits are known.
fn known_load(
    places: &[usize],
    from: Option<Bit>,
    to: Option<Bit>,
    ring: &List<u8>,
    gate: &List<u8>,
) -> Result<Option<Entry>, NoMemory>
    ensures { IfOk result (λ entry. entry ≡ known_load places.now from to ring.now gate.now) }
{
    let Some(from) = from else {
        return Ok(None);
    };
    let Some(to) = to else {
        return Ok(None);
    };
    load_of(places, from, to, ring, gate)
}

fn are_load_marks(arrow: &List<u8>, ring: &List<u8>, gate: &List<u8>) -> bool
    ensures { result ≡ are_load_marks arrow.now ring.now gate.now }
{
    is_word(arrow, "->") && is_word(ring, "ring") && is_word(gate, "gate")
}

/// The load of this crossing, where the ring is among those of the text and has the place.
fn load_of(
    places: &[usize],
    from: Bit,
    to: Bit,
    ring: &List<u8>,
    gate: &List<u8>,
) -> Result<Option<Entry>, NoMemory>
    ensures { IfOk result (λ entry. entry ≡ load_of places.now from to ring.now gate.now) }
{
    let Some(ring) = ring_numbered(places.len(), ring.as_slice()) else {
        return Ok(None);
    };
    let size = places.get(ring as usize).copied().unwrap_or(0);
    match place_below(size, gate.as_slice())? {
        Some(gate) => Ok(Some(Entry::Load(Load {
            from,
            to,
            ring,
            gate,
            recirculating: false,
        }))),
        None => Ok(None),
    }
}

/// A FIFO's two counts: `WB RB`.
fn fifo_in(names: &Names<'_>, words: &[List<u8>]) -> Option<Entry>
    ensures { (signals : List SignalOf) → HasNames signals names.now → result ≡ fifo_in signals words.now }
{
    let [wb, rb] = words else {
        return None;
    };
    let wb = names.signal(wb.as_slice())?;
    let rb = names.signal(rb.as_slice())?;
    Some(Entry::Fifo(FifoPair { wb, rb }))
}

fn end_in(words: &[List<u8>]) -> Option<Entry>
    ensures { result ≡ end_in words.now }
{
    if words.is_empty() {
        Some(Entry::End)
    } else {
        None
    }
}
