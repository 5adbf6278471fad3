//! The files of the machine and its standard output. What was read of a file is kept, so that its content is told from then
//! on and a name that is read again gives the same bytes. The output tells no content.
ghost use Rattle.std.specs.Prelude.{ℕ, List, Some, None, ◌≡◌, ◌≢◌, ◌≤◌, ◌<◌, ◌+◌, ◌^◌, [], ◌∷◌, ◌++◌, length, true, Err, IfOk, IfSome, OnErr};
ghost use Rattle.std.specs.Io.KnownBytes.{Appends};
ghost use Rattle.cdc_base.specs.declared.outside.FileFault.{FileFault as FaultOf};
ghost use Rattle.cdc_base.specs.Causes.{Rose, RoseBy, StaysTold};
ghost use Rattle.cdc_base.specs.Stored.{file_of};

use crate::list::List;
use crate::mem_files::{MemFile, find, remember, take};
use crate::name::Name;
use crate::outside::{FileFault, Files, Sink, SinkFault};
use std::alloc::Global;
use std::io::{Read, Write};
use std::{fs, io, rt};

/// The files that the runtime opens.
#[derive(Drop)]
pub struct HostFiles<R> {
    rt: R,
    alloc: Global,
    asked: List<Name>,
    kept: List<MemFile>,
    taken: u64,
    faults: u64,
}

impl<R> HostFiles<R> {
    /// It takes no memory.
    pub fn new(rt: R, alloc: Global) -> HostFiles<R>
        ensures asked { result.asked ≡ [] }
        ensures taken { result.taken ≡ 0 }
        ensures faults { result.faults ≡ 0 }
    {
        HostFiles {
            rt,
            alloc,
            asked: List::new(alloc),
            kept: List::new(alloc),
            taken: 0,
            faults: 0,
        }
    }
}

/// What an error of the machine answers; `faults` counts those that aren't want of memory.
fn fault_of(error: io::Error, faults: &mut u64) -> FileFault
    ensures rising { faults.old ≤ faults.new }
    ensures failed { result ≡ FileFault.Failed → Rose faults.old faults.new }
    ensures other { result ≢ FileFault.TooLong }
{
    if error.kind() == io::ErrorKind::OutOfMemory {
        return FileFault::Memory;
    }
    *faults = faults.saturating_add(1);
    FileFault::Failed
}

/// What the file still has, at most `limit` bytes. Each turn but the last takes a byte or more.
fn read_rest<F: Read>(
    alloc: Global,
    file: &mut F,
    limit: u64,
    taken: &mut u64,
    faults: &mut u64,
) -> Result<List<u8>, FileFault>
    ensures rising { (taken.old ≤ taken.new) × (faults.old ≤ faults.new) }
    ensures within { IfOk result (λ bytes. length bytes ≤ limit) }
    ensures content { IfOk result (λ bytes. IfSome (F.remaining file.old) (λ all. bytes ≡ all)) }
    ensures failed { result ≡ Err FileFault.Failed → Rose faults.old faults.new }
    ensures long { result ≡ Err FileFault.TooLong → RoseBy (limit + 1) taken.old taken.new }
    ensures longer { limit + 1 < 2 ^ 64 → result ≡ Err FileFault.TooLong → IfSome (F.remaining file.old) (λ all. limit < length all) }
{
    let mut bytes = Vec::new(alloc);
    let mut buffer = [0u8; 4096];
    for _ in 0..u64::MAX {
        let count = match file.read(&mut buffer) {
            Ok(count) => count,
            Err(error) => return Err(fault_of(error, faults)),
        };
        if count == 0 {
            return Ok(List::from_vec(bytes));
        }
        *taken = taken.saturating_add(count as u64);
        if (bytes.len() as u64).saturating_add(count as u64) > limit {
            return Err(FileFault::TooLong);
        }
        if bytes.extend_from_slice(&buffer[..count]).is_err() {
            return Err(FileFault::Memory);
        }
    }
    Err(FileFault::TooLong)
}

impl<R: rt::Files> Files for HostFiles<R> {
    ghost use Rattle.cdc_base.specs.Stored.{file_of};

    ghost held = { λ f name. file_of f.kept name };

    ghost asked = { λ f. f.asked };

    ghost taken = { λ f. f.taken };

    ghost faults = { λ f. f.faults };

    fn read_file(&mut self, name: &str, limit: u64) -> Result<List<u8>, FileFault> {
        remember(self.alloc, &mut self.asked, name)?;
        match find(self.kept.as_slice(), name.as_bytes()) {
            Some(bytes) => take(self.alloc, bytes.as_slice(), limit, &mut self.taken),
            None => {
                let bytes = match fs::open(&self.rt, name) {
                    Ok(mut file) => read_rest(
                        self.alloc,
                        &mut file,
                        limit,
                        &mut self.taken,
                        &mut self.faults,
                    )?,
                    Err(error) => return Err(fault_of(error, &mut self.faults)),
                };
                keep(self.alloc, &mut self.kept, name, bytes)
            }
        }
    }
}

/// Keeps the bytes under the name, and gives a copy of them.
fn keep(
    alloc: Global,
    kept: &mut List<MemFile>,
    name: &str,
    bytes: List<u8>,
) -> Result<List<u8>, FileFault>
    ensures holds { (other : List ℕ) → StaysTold (file_of kept.old other) (file_of kept.new other) }
    ensures copied { IfOk result (λ copy. copy ≡ bytes) }
    ensures told { file_of kept.old name.now ≡ None → IfOk result (λ copy. file_of kept.new name.now ≡ Some copy) }
    ensures memory { (e : FaultOf) → result ≡ Err e → e ≡ FileFault.Memory }
{
    let Ok(copy) = Vec::from_slice(alloc, bytes.as_slice()) else {
        return Err(FileFault::Memory);
    };
    let name = Name::from_text(alloc, name)?;
    kept.push(MemFile { name, bytes })?;
    Ok(List::from_vec(copy))
}

/// The standard output of the runtime.
#[derive(Drop)]
pub struct HostSink<R> {
    rt: R,
    faults: u64,
}

impl<R> HostSink<R> {
    /// It takes no memory.
    pub fn new(rt: R, _alloc: Global) -> HostSink<R>
        ensures { result.faults ≡ 0 }
    {
        HostSink { rt, faults: 0 }
    }
}

impl<R: Print> Sink for HostSink<R> {
    ghost use Rattle.std.specs.Prelude.{None};

    ghost written = { λ _. None };

    ghost faults = { λ s. s.faults };

    fn put(&mut self, piece: &[u8]) -> Result<(), SinkFault> {
        let mut writer = io::writer(&self.rt);
        if write_whole(&mut writer, piece) {
            return Ok(());
        }
        self.faults = self.faults.saturating_add(1);
        Err(SinkFault::Failed)
    }
}

/// Whether the writer took the whole piece.
fn write_whole<W: Write>(writer: &mut W, piece: &[u8]) -> bool
    ensures whole { result ≡ true → Appends (W.contents writer.old) (W.contents writer.new) piece.now }
    ensures empty { piece.now ≡ [] → result ≡ true }
{
    let mut left = piece;
    while !left.is_empty() {
        match writer.write(left) {
            Ok(count) if count > 0 => left = &left[count..],
            _ => return false,
        }
    }
    true
}
