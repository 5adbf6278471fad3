//! How a run of the program ends.
ghost use Rattle.std.specs.Prelude.{◌≡◌};
ghost use Rattle.command_files.specs.Statuses.{code_of};

/// How a run of the program ended. The first and `Violations`, `Waived` come after an audit: no finding, a finding
/// without a waiver, or findings that each have one. `Violations` comes also of a certificate that fails. `Usage` refuses
/// the words; `Netlist`, `Constraints` and `Record`, which stands for the record of a run and for a certificate, refuse a
/// file; `ReadFault` and `WriteFault` come of the outside; `Memory` is want of memory.
#[derive(Clone, Copy, PartialEq, Eq, Debug, Drop)]
pub enum Status {
    Done,
    Violations,
    Usage,
    Netlist,
    Constraints,
    Record,
    ReadFault,
    WriteFault,
    Memory,
    Waived,
}

impl Status {
    /// The status for the shell: 0 to 9, in the order of the variants.
    pub fn code(self) -> u8
        ensures { result ≡ code_of self }
    {
        self as u8
    }
}
