//! What a campaign finds.
use cdc_base::Bit;
use cdc_model::Record;

/// A run in whose last step the register bit `to` captures the loose bit `from`.
#[derive(Drop)]
pub struct Found {
    pub run: Record,
    pub to: Bit,
    pub from: Bit,
}
