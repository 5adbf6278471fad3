//! The record that a campaign prints is replayed.
#![tactic(auto)]

ghost use Rattle.campaign_laws.specs.Laws.{CampaignsReplay};

/// What `campaign` prints with status 1, within 100,000 steps, means a record by each net of the described design, and the
/// record fixes a run of it. So no `replay` of it over the same two texts is refused for what the record says; one of more
/// than 256 MiB is refused as a file.
pub fn campaigns_replay()
    ensures { CampaignsReplay }
{}
