//! What the program asks of the outside: files to read, and an output.
ghost use Rattle.std.specs.Prelude.{◌≡◌, ◌≢◌, ℕ, ◌+◌, ◌≤◌, ◌<◌, List, [], ◌∷◌, ◌++◌, length, IfOk, OnOk, OnErr, IsOk, Option, Some, IfSome, ◌⊎◌};
ghost use Rattle.cdc_base.specs.Causes.{Rose, RoseBy, StaysTold, IsAdded, IsFrontAdded};

use crate::list::{List, NoMemory};
use thiserror::Error;

#[derive(Clone, Copy, PartialEq, Eq, Debug, Drop, Error)]
pub enum FileFault {
    #[error("cannot read")]
    Failed,
    #[error("file over its limit")]
    TooLong,
    #[error("out of memory")]
    Memory,
}

#[derive(Clone, Copy, PartialEq, Eq, Debug, Drop, Error)]
pub enum SinkFault {
    #[error("cannot write")]
    Failed,
    #[error("out of memory")]
    Memory,
}

impl From<NoMemory> for FileFault {
    ghost use Rattle.std.specs.Prelude.{◌≡◌};
    ghost use Rattle.cdc_base.specs.declared.outside.FileFault.TheVariants.{Memory};

    ghost from_gives = { λ _ r. r ≡ Memory };

    fn from(_error: NoMemory) -> FileFault {
        FileFault::Memory
    }
}

impl From<NoMemory> for SinkFault {
    ghost use Rattle.std.specs.Prelude.{◌≡◌};
    ghost use Rattle.cdc_base.specs.declared.outside.SinkFault.TheVariants.{Memory};

    ghost from_gives = { λ _ r. r ≡ Memory };

    fn from(_error: NoMemory) -> SinkFault {
        SinkFault::Memory
    }
}

/// Files that can be read whole. `held` is what lies under a name, where the form tells it: what is told stays told, and what
/// was read is told from then on. `asked` lists the names that were asked for; `taken` counts the bytes that were taken, and
/// `faults` the reads that failed. Both counts stand still at the end of `u64`.
pub trait Files {
    ghost held: { Self → List ℕ → Option (List ℕ) };

    ghost asked: { Self → List (List ℕ) };

    ghost taken: { Self → ℕ };

    ghost faults: { Self → ℕ };

    /// The bytes of the file `name`, at most `limit` of them.
    fn read_file(&mut self, name: &str, limit: u64) -> Result<List<u8>, FileFault>
        ensures holds { (other : List ℕ) → StaysTold (held self.old other) (held self.new other) }
        ensures rising { (taken self.old ≤ taken self.new) × (faults self.old ≤ faults self.new) }
        ensures asks { (asked self.new ≡ asked self.old ++ name.now ∷ [])
            ⊎ ((result ≡ Err FileFault.Memory) × (asked self.new ≡ asked self.old)
            × (taken self.new ≡ taken self.old) × (faults self.new ≡ faults self.old)) }
        ensures within { IfOk result (λ bytes. length bytes ≤ limit) }
        ensures content { IfOk result (λ bytes. held self.new name.now ≡ Some bytes) }
        ensures failed { result ≡ Err FileFault.Failed → Rose (faults self.old) (faults self.new) }
        ensures long { result ≡ Err FileFault.TooLong → RoseBy (limit + 1) (taken self.old) (taken self.new) }
        ensures longer { result ≡ Err FileFault.TooLong → IfSome (held self.old name.now) (λ all. limit < length all) };
}

/// An output. `written` is all that was put, where the form tells it; `faults` counts the calls that failed.
pub trait Sink {
    ghost written: { Self → Option (List ℕ) };

    ghost faults: { Self → ℕ };

    /// Adds the piece at the end. After an error a front of it was added.
    fn put(&mut self, piece: &[u8]) -> Result<(), SinkFault>
        ensures rising { faults self.old ≤ faults self.new }
        ensures added { OnOk result (IsAdded (written self.old) piece.now (written self.new)) }
        ensures front { OnErr result (IsFrontAdded (written self.old) piece.now (written self.new)) }
        ensures failed { result ≡ Err SinkFault.Failed → Rose (faults self.old) (faults self.new) }
        ensures empty { piece.now ≡ [] → IsOk result × (faults self.new ≡ faults self.old) };
}
