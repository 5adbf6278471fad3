//! Certificates as they are read.
ghost use Rattle.std.specs.Prelude.{◌≡◌, ◌≤◌, ◌^◌, ◌++◌, codes, List, length, IfOk, IfErr, OnOk};
ghost use Rattle.std.specs.Fmt.{decimal};
ghost use Rattle.std.specs.Option.{option_copied};
ghost use Rattle.cdc_base.specs.declared.signal.Signal.{Signal as SignalOf};
ghost use Rattle.clock_constraints.specs.Refusals.{Gives, IsStop};
ghost use Rattle.refusals.specs.Numbers.{HasNumberIn};
ghost use Rattle.cert_text.specs.Read.{at_end, broken_line, certificate_in, certificate_numbers, empty, entry_read, is_end, is_head, kind_of, line_in, lines_read, ring_place, ring_places, text_read, with_entry};
ghost use Rattle.cert_text.specs.Tables.{HasNames};
ghost use Rattle.cert_text.specs.Texts.{entries_of};
ghost use Rattle.cert_text.specs.Words.{lines_of};

use crate::certificate::{Certificate, Entry};
use crate::entry::{entry_in, ring_size};
use crate::names::Names;
use crate::words::{cut_line, is_empty, words};
use cdc_base::{List, NoMemory, Stop};
use cell_graph::Net;
use clock_constraints::refusal::refuse;
use domains::table::bit_names;
use std::alloc::Global;

/// The text isn't a certificate; the name is the number of the first line that breaks a rule.
pub const NOT_A_CERTIFICATE: u16 = 510;

/// Reads the text of a certificate by the names of the net. Refused with E510 at the first line that breaks a rule: its
/// form, a name that the net hasn't, a ring or a place that isn't there, an earlier kind of item behind a later one, a
/// line behind the end. A missing end is the line after the last.
pub fn read(alloc: Global, text: &[u8], net: &Net) -> Result<Certificate, Stop>
    ensures gives { length net.now.graph.signals ≤ 2 ^ 32 → Gives result (certificate_in net.now.graph.signals text.now) }
    ensures few { IfOk result (λ certificate. length net.now.graph.signals ≤ 2 ^ 32 → length (entries_of certificate) ≤ length text.now) }
    ensures numbered { IfErr result (HasNumberIn certificate_numbers) }
{
    certificate_in(alloc, text, net)
}

/// The certificate that the text is of.
fn certificate_in(alloc: Global, text: &[u8], net: &Net) -> Result<Certificate, Stop>
    ensures gives { length net.now.graph.signals ≤ 2 ^ 32 → Gives result (certificate_in net.now.graph.signals text.now) }
    ensures numbered { IfErr result (HasNumberIn certificate_numbers) }
{
    let signals = net.graph.signals();
    let bits = bit_names(alloc, signals)?;
    let names = Names::open(alloc, signals, bits.as_slice())?;
    let places = ring_places(alloc, text)?;
    read_text(alloc, &names, places.as_slice(), text)
}

/// How many places each ring of the text has.
fn ring_places(alloc: Global, text: &[u8]) -> Result<Vec<usize>, NoMemory>
    ensures { IfOk result (λ places. places.items ≡ ring_places (lines_of text.now)) }
{
    let mut places = Vec::new(alloc);
    let mut rest = text;
    while !is_empty(rest) {
        let (line, behind) = cut_line(rest);
        add_ring_place(alloc, line, &mut places)?;
        rest = behind;
    }
    Ok(places)
}

/// Adds the number of places of the line's ring, where it begins as one.
fn add_ring_place(
    alloc: Global,
    line: Option<&[u8]>,
    places: &mut Vec<usize>,
) -> Result<(), NoMemory>
    ensures { IfOk result (λ _. places.new.items ≡ places.old.items ++ ring_place (option_copied line.entry)) }
{
    let Some(line) = line else {
        return Ok(());
    };
    if !line.starts_with("ring ".as_bytes()) {
        return Ok(());
    }
    let words = words(alloc, line)?;
    let size = match words.as_slice() {
        [_, behind @ ..] => ring_size(behind),
        [] => 0,
    };
    places.push(size).map_err(|_| NoMemory)
}

/// The refusal of a line by its number.
fn broken_line(alloc: Global, number: u64) -> Stop
    ensures stop { IsStop NOT_A_CERTIFICATE (codes "line " ++ decimal number) result }
    ensures numbered { HasNumberIn certificate_numbers result }
{
    match format!(in alloc; "line {number}") {
        Ok(name) => refuse(alloc, NOT_A_CERTIFICATE, name.as_str()),
        Err(_) => Stop::Memory,
    }
}

fn read_text(
    alloc: Global,
    names: &Names<'_>,
    places: &[usize],
    text: &[u8],
) -> Result<Certificate, Stop>
    ensures gives { (signals : List SignalOf) → HasNames signals names.now → Gives result (text_read signals places.now (lines_of text.now)) }
    ensures numbered { IfErr result (HasNumberIn certificate_numbers) }
{
    if is_empty(text) {
        return Err(broken_line(alloc, 1));
    }
    let (line, behind) = cut_line(text);
    if is_head(line) {
        read_lines(alloc, names, places, behind)
    } else {
        Err(broken_line(alloc, 1))
    }
}

/// Whether the line is that with which a certificate begins.
fn is_head(line: Option<&[u8]>) -> bool
    ensures { result ≡ is_head (option_copied line.entry) }
{
    match line {
        Some(line) => line == "cdc certificate 1".as_bytes(),
        None => false,
    }
}

/// Reads the lines behind the first.
fn read_lines(
    alloc: Global,
    names: &Names<'_>,
    places: &[usize],
    text: &[u8],
) -> Result<Certificate, Stop>
    ensures gives { (signals : List SignalOf) → HasNames signals names.now → Gives result (lines_read signals places.now 0 2 empty (lines_of text.now)) }
    ensures numbered { IfErr result (HasNumberIn certificate_numbers) }
{
    let mut certificate = empty(alloc);
    let mut kind = 0;
    let mut number = 2u64;
    let mut rest = text;
    while !is_empty(rest) {
        let (line, behind) = cut_line(rest);
        let entry = next_entry(alloc, names, places, line, kind, number)?;
        if is_end(&entry) {
            return at_end(alloc, number + 1, certificate, behind);
        }
        kind = kind_of(&entry);
        add_entry(&mut certificate, entry)?;
        number += 1;
        rest = behind;
    }
    Err(broken_line(alloc, number))
}

/// What the line with this number says, whose kind isn't one before that which was reached.
fn next_entry(
    alloc: Global,
    names: &Names<'_>,
    places: &[usize],
    line: Option<&[u8]>,
    kind: u8,
    number: u64,
) -> Result<Entry, Stop>
    ensures gives { (signals : List SignalOf) → HasNames signals names.now → Gives result (entry_read kind number (line_in signals places.now (option_copied line.entry))) }
    ensures numbered { IfErr result (HasNumberIn certificate_numbers) }
{
    let Some(entry) = line_in(alloc, names, places, line)? else {
        return Err(broken_line(alloc, number));
    };
    if kind <= kind_of(&entry) {
        Ok(entry)
    } else {
        Err(broken_line(alloc, number))
    }
}

fn is_end(entry: &Entry) -> bool
    ensures { result ≡ is_end entry.now }
{
    match entry {
        Entry::End => true,
        Entry::Sync(_) => false,
        Entry::Gray(_) => false,
        Entry::Ring(_) => false,
        Entry::Load(_) => false,
        Entry::Fifo(_) => false,
    }
}

/// What a line says; None where it breaks a rule.
fn line_in(
    alloc: Global,
    names: &Names<'_>,
    places: &[usize],
    line: Option<&[u8]>,
) -> Result<Option<Entry>, NoMemory>
    ensures { IfOk result (λ entry. (signals : List SignalOf) → HasNames signals names.now → entry ≡ line_in signals places.now (option_copied line.entry)) }
{
    match line {
        Some(line) => {
            let words = words(alloc, line)?;
            entry_in(alloc, names, places, words.as_slice())
        }
        None => Ok(None),
    }
}

fn empty(alloc: Global) -> Certificate
    ensures { result ≡ empty }
{
    Certificate {
        syncs: List::new(alloc),
        grays: List::new(alloc),
        rings: List::new(alloc),
        loads: List::new(alloc),
        fifos: List::new(alloc),
    }
}

/// The certificate, where no line stands behind its end.
fn at_end(
    alloc: Global,
    number: u64,
    certificate: Certificate,
    behind: &[u8],
) -> Result<Certificate, Stop>
    ensures gives { Gives result (at_end number certificate (lines_of behind.now)) }
    ensures numbered { IfErr result (HasNumberIn certificate_numbers) }
{
    if is_empty(behind) {
        Ok(certificate)
    } else {
        Err(broken_line(alloc, number))
    }
}

/// The place of the item's kind in the order of kinds.
fn kind_of(entry: &Entry) -> u8
    ensures { result ≡ kind_of entry.now }
{
    match entry {
        Entry::Sync(_) => 0,
        Entry::Gray(_) => 1,
        Entry::Ring(_) => 2,
        Entry::Load(_) => 3,
        Entry::Fifo(_) => 4,
        Entry::End => 5,
    }
}

fn add_entry(certificate: &mut Certificate, entry: Entry) -> Result<(), NoMemory>
    ensures { OnOk result (certificate.new ≡ with_entry certificate.old entry) }
{
    match entry {
        Entry::Sync(sync) => certificate.syncs.push(sync),
        Entry::Gray(gray) => certificate.grays.push(gray),
        Entry::Ring(ring) => certificate.rings.push(ring),
        Entry::Load(load) => certificate.loads.push(load),
        Entry::Fifo(pair) => certificate.fifos.push(pair),
        Entry::End => Ok(()),
    }
}
