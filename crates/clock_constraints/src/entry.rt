//! The entries of the file's arrays.
ghost use Rattle.std.specs.Prelude.{◌≡◌};
ghost use Rattle.toml.specs.View.{view};
ghost use Rattle.clock_constraints.specs.Refusals.{Gives};

use crate::{ClockPin, Waiver, value};
use cdc_base::{Name, ResetPin, Stop};
use std::alloc::Global;
use toml::Value;

/// An entry of an array of the file.
pub trait Entry: Drop {
    ghost use Rattle.std.specs.Prelude.{◌≡◌, ℕ, List, Result};
    ghost use Rattle.cdc_base.specs.declared.fault.Fault.{Fault};
    ghost use Rattle.toml.specs.Data.{Data};

    ghost reading: { Data → Result Self Fault };

    ghost key: { Self → List ℕ };

    /// What the entry says. It refuses the first wrong key: unknown keys in byte order, then the known ones.
    fn read(alloc: Global, entry: &Value) -> Result<Self, Stop>
        ensures { Gives result (reading (view entry.now)) };

    /// The text that no other entry may have: the name, or the finding that is waived.
    fn key(&self) -> &str
        ensures { result.now ≡ key self.now };
}

/// An input and its clock, both by name.
#[derive(Drop)]
pub struct InputEntry {
    pub name: Name,
    pub clock: Name,
}

impl Entry for ClockPin {
    ghost use Rattle.clock_constraints.specs.Entries.{clock_pin};

    ghost reading = { clock_pin };

    ghost key = { λ e. e.name };

    fn read(alloc: Global, entry: &Value) -> Result<Self, Stop> {
        value::check_keys(alloc, entry, &["name", "group", "settle"])?;
        Ok(ClockPin {
            name: value::text(alloc, entry, "name")?,
            group: value::group(alloc, entry, "group")?,
            settle: value::settle(alloc, entry)?,
        })
    }

    fn key(&self) -> &str {
        self.name.as_str()
    }
}

impl Entry for InputEntry {
    ghost use Rattle.clock_constraints.specs.Entries.{input_entry};

    ghost reading = { input_entry };

    ghost key = { λ e. e.name };

    fn read(alloc: Global, entry: &Value) -> Result<Self, Stop> {
        value::check_keys(alloc, entry, &["name", "clock"])?;
        Ok(InputEntry {
            name: value::text(alloc, entry, "name")?,
            clock: value::text(alloc, entry, "clock")?,
        })
    }

    fn key(&self) -> &str {
        self.name.as_str()
    }
}

impl Entry for ResetPin {
    ghost use Rattle.clock_constraints.specs.Entries.{reset_pin};

    ghost reading = { reset_pin };

    ghost key = { λ e. e.name };

    fn read(alloc: Global, entry: &Value) -> Result<Self, Stop> {
        value::check_keys(alloc, entry, &["name", "active"])?;
        Ok(ResetPin {
            name: value::text(alloc, entry, "name")?,
            high: value::level(alloc, entry)?,
        })
    }

    fn key(&self) -> &str {
        self.name.as_str()
    }
}

/// A static input, by name.
impl Entry for Name {
    ghost use Rattle.clock_constraints.specs.Entries.{static_name};

    ghost reading = { static_name };

    ghost key = { λ e. e };

    fn read(alloc: Global, entry: &Value) -> Result<Self, Stop> {
        value::check_keys(alloc, entry, &["name"])?;
        value::text(alloc, entry, "name")
    }

    fn key(&self) -> &str {
        self.as_str()
    }
}

impl Entry for Waiver {
    ghost use Rattle.clock_constraints.specs.Entries.{waiver};

    ghost reading = { waiver };

    ghost key = { λ e. e.finding };

    fn read(alloc: Global, entry: &Value) -> Result<Self, Stop> {
        value::check_keys(alloc, entry, &["finding", "reason"])?;
        Ok(Waiver {
            finding: value::text(alloc, entry, "finding")?,
            reason: value::reason(alloc, entry, "reason")?,
        })
    }

    fn key(&self) -> &str {
        self.finding.as_str()
    }
}
