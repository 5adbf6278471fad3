//! What a command answers: a status and a text, or the refusal that ends it.
ghost use Rattle.std.specs.Prelude.{ℕ, ◌≡◌, true, List, IfOk, IfErr, MatchResult};
ghost use Rattle.std.specs.List.{list_all};
ghost use Rattle.refusals.specs.Numbers.{is_listed, HasNumberIn};
ghost use Rattle.command_files.specs.Files.{numbers_of};
ghost use Rattle.command_files.specs.Endings.{IsAnswerTo, IsOfFiles};
ghost use Rattle.command_files.specs.Endings.{ended_with};

use crate::status::Status;
use cdc_base::{Fault, List, NoMemory, Stop};
use std::alloc::Global;

/// A status, and the whole text that goes with it.
#[derive(Drop)]
pub struct Answer {
    pub status: Status,
    pub text: List<u8>,
}

/// Why a command has no answer of its own: a refusal with its status, or want of memory.
#[derive(Drop)]
pub enum Ending {
    Refused { status: Status, fault: Fault },
    Memory,
}

impl From<NoMemory> for Ending {
    ghost use Rattle.std.specs.Prelude.{◌≡◌};
    ghost use Rattle.command_files.specs.declared.answer.Ending.TheVariants.{Memory};

    ghost from_gives = { λ _ r. r ≡ Memory };

    fn from(_error: NoMemory) -> Ending {
        Ending::Memory
    }
}

/// What a layer gives, where a refusal of it has this status. The layer refuses by rules that go with the status.
pub fn or_refused<T>(status: Status, given: Result<T, Stop>) -> Result<T, Ending>
    ensures ended { (numbers : List ℕ) → list_all (is_listed (numbers_of status)) numbers ≡ true → IfErr given (HasNumberIn numbers) → IfErr result IsOfFiles }
    ensures given { IfOk result (λ value. given ≡ Ok value) }
    ensures exact { result ≡ ended_with status given }
{
    match given {
        Ok(value) => Ok(value),
        Err(Stop::Refused(fault)) => Err(Ending::Refused { status, fault }),
        Err(Stop::Memory) => Err(Ending::Memory),
    }
}

/// The answer of a command, which for a refusal is its one line.
pub fn answer_of(alloc: Global, ended: Result<Answer, Ending>) -> Result<Answer, NoMemory>
    ensures { IfOk result (λ answer. MatchResult ended (λ own. answer ≡ own) (λ ending. IsAnswerTo ending answer)) }
{
    match ended {
        Ok(answer) => Ok(answer),
        Err(Ending::Refused { status, fault }) => {
            let text = report::fault_text(alloc, &fault)?;
            Ok(Answer { status, text })
        }
        Err(Ending::Memory) => Err(NoMemory),
    }
}
