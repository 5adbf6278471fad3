//! cdcaudit: audits the clock domain crossings of a netlist.
#![tactic(auto)]

use cdc_base::{HostFiles, HostSink};
use std::alloc::{AllocError, Global};
use std::io;
use std::process::ExitCode;

/// The words behind the program's name. Where one of them isn't UTF-8 there are none, which is no command.
fn words(rt: &HostRuntime, alloc: Global) -> Result<Vec<String>, AllocError> {
    match std::env::args(rt) {
        Ok(args) => args.skip(1).collect(alloc),
        Err(error) if error.kind() == io::ErrorKind::OutOfMemory => Err(AllocError),
        Err(_) => Ok(Vec::new(alloc)),
    }
}

/// Does what the words ask, over the machine's files and its standard output.
fn run(rt: HostRuntime) -> Result<ExitCode, AllocError> {
    let alloc = rt.alloc();
    let words = words(&rt, alloc)?;
    let mut files = HostFiles::new(rt.clone()?, alloc);
    let mut out = HostSink::new(rt, alloc);
    let status = audit_top::run(alloc, words.as_slice(), &mut files, &mut out);
    Ok(ExitCode::from(status.code()))
}

fn main(rt: HostRuntime) -> ExitCode {
    match run(rt) {
        Ok(code) => code,
        Err(_) => ExitCode::from(8),
    }
}
