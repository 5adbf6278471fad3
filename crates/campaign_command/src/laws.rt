//! What campaigns promise beside audits.
ghost use Rattle.campaign_command.specs.Campaigns.{CleanAuditsShowNothing};

/// Where the audit of a netlist under its constraints, over all FIFOs, has no finding, no campaign of them has a capture.
pub fn clean_audits_show_nothing()
    ensures { CleanAuditsShowNothing }
{}
