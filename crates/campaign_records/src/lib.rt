//! The records that campaigns write are read back as what the campaigns found.
#![tactic(auto)]

ghost use Rattle.campaign_records.specs.Laws.{FoundRecordsAreRead};

/// The text of what a campaign finds within 100,000 steps means the record that was found, and no other; it breaks no
/// rule of records; and the record fixes a run, whose text isn't refused. This holds of nets and domains whose printed
/// names are found again.
pub fn found_records_are_read()
    ensures { FoundRecordsAreRead }
{}
