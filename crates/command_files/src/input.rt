//! Reading the files that the words name.
ghost use Rattle.std.specs.Prelude.{◌≡◌, ◌≤◌, length, Some, IfOk, IfErr};
ghost use Rattle.command_files.specs.Files.{Seen, fault_at, max_bytes};
ghost use Rattle.command_files.specs.Endings.{IsRefusal, IsOfLength, IsReadOf, IsReadOfBoth, IsReadOfThree, IsUnreadOfBoth, IsUnreadOfThree};

use crate::answer::Ending;
use crate::status::Status;
use cdc_base::limits::MAX_FILE_BYTES;
use cdc_base::{Fault, FileFault, Files, List, Name};
use std::alloc::Global;

/// A refusal that has no place.
fn refusal(alloc: Global, status: Status, number: u16, name: &str) -> Ending
    ensures { IsRefusal status (fault_at number name.now) result }
{
    match Name::from_text(alloc, name) {
        Ok(name) => Ending::Refused {
            status,
            fault: Fault {
                number,
                place: None,
                name,
            },
        },
        Err(_) => Ending::Memory,
    }
}

/// The bytes of a file. A failed read and a file over the limit are refused, the second with `status`.
pub fn read_text<F: Files>(
    alloc: Global,
    files: &mut F,
    name: &str,
    status: Status,
) -> Result<List<u8>, Ending>
    ensures { let before : Seen = record { held = F.held files.old; asked = F.asked files.old; taken = F.taken files.old; faults = F.faults files.old } in
        let now : Seen = record { held = F.held files.new; asked = F.asked files.new; taken = F.taken files.new; faults = F.faults files.new } in
        IsReadOf name.now status before now result }
{
    match files.read_file(name, MAX_FILE_BYTES) {
        Ok(bytes) => Ok(bytes),
        Err(FileFault::Failed) => Err(refusal(alloc, Status::ReadFault, 1, name)),
        Err(FileFault::TooLong) => Err(refusal(alloc, status, 600, name)),
        Err(FileFault::Memory) => Err(Ending::Memory),
    }
}

/// The bytes of both files, in this order. The first refusal counts.
pub fn read_both<F: Files>(
    alloc: Global,
    files: &mut F,
    net: &str,
    con: &str,
) -> Result<(List<u8>, List<u8>), Ending>
    ensures files { let before : Seen = record { held = F.held files.old; asked = F.asked files.old; taken = F.taken files.old; faults = F.faults files.old } in
        let now : Seen = record { held = F.held files.new; asked = F.asked files.new; taken = F.taken files.new; faults = F.faults files.new } in
        IsReadOfBoth net.now con.now before now result }
    ensures within { IfOk result (λ texts. (length texts.0 ≤ max_bytes) × (length texts.1 ≤ max_bytes)) }
    ensures content { IfOk result (λ texts. (F.held files.new net.now ≡ Some texts.0) × (F.held files.new con.now ≡ Some texts.1)) }
    ensures unread { IfErr result (IsUnreadOfBoth net.now con.now) }
{
    let net = match read_text(alloc, files, net, Status::Netlist) {
        Ok(net) => net,
        Err(ending) => return Err(ending),
    };
    match read_text(alloc, files, con, Status::Constraints) {
        Ok(con) => Ok((net, con)),
        Err(ending) => Err(ending),
    }
}

/// The bytes of all three files, in this order. The first refusal counts.
pub fn read_three<F: Files>(
    alloc: Global,
    files: &mut F,
    net: &str,
    con: &str,
    run: &str,
) -> Result<(List<u8>, List<u8>, List<u8>), Ending>
    ensures files { let before : Seen = record { held = F.held files.old; asked = F.asked files.old; taken = F.taken files.old; faults = F.faults files.old } in
        let now : Seen = record { held = F.held files.new; asked = F.asked files.new; taken = F.taken files.new; faults = F.faults files.new } in
        IsReadOfThree net.now con.now run.now before now result }
    ensures within { IfOk result (λ texts. (length texts.0 ≤ max_bytes) × (length texts.1 ≤ max_bytes) × (length texts.2 ≤ max_bytes)) }
    ensures content { IfOk result (λ texts. (F.held files.new net.now ≡ Some texts.0) × (F.held files.new con.now ≡ Some texts.1) × (F.held files.new run.now ≡ Some texts.2)) }
    ensures of_length { IfErr result (IsOfLength run.now) }
    ensures unread { IfErr result (IsUnreadOfThree net.now con.now run.now) }
{
    let net = match read_text(alloc, files, net, Status::Netlist) {
        Ok(net) => net,
        Err(ending) => return Err(ending),
    };
    let con = match read_text(alloc, files, con, Status::Constraints) {
        Ok(con) => con,
        Err(ending) => return Err(ending),
    };
    match read_text(alloc, files, run, Status::Record) {
        Ok(run) => Ok((net, con, run)),
        Err(ending) => Err(ending),
    }
}
