//! That answers go by the constraints of a constraint file, and not by its form.
ghost use Rattle.std.specs.Prelude.{ℕ, Bool, List, Result};
ghost use Rattle.cdc_base.specs.declared.fault.Fault.{Fault};
ghost use Rattle.command_files.specs.declared.answer.Ending.{Ending};
ghost use Rattle.command_files.specs.declared.status.Status.{Status};
ghost use Rattle.audit_command.specs.Audits.{IsAuditOf};
ghost use Rattle.audit_command.specs.Refused.{IsAuditRefused};
ghost use Rattle.campaign_command.specs.Campaigns.{IsCampaignOf};
ghost use Rattle.campaign_command.specs.Refused.{IsCampaignRefused};
ghost use Rattle.certify_command.specs.Certifies.{IsCertifyOf};
ghost use Rattle.certify_command.specs.Refused.{IsCertifyRefused};
ghost use Rattle.check_command.specs.Checks.{IsCheckOf};
ghost use Rattle.check_command.specs.Refused.{IsCheckRefused};
ghost use Rattle.described_design.specs.Refused.{AreTextsRefused};
ghost use Rattle.described_design.specs.SameConstraints.{HaveSameConstraints};
ghost use Rattle.replay_command.specs.Replays.{IsReplayUnder};

/// Two constraint files with equal constraints beside a netlist, each in TOML or in SDC, have the same audits, replays,
/// certificates, checks, campaigns and refusals.
pub fn forms_have_one_answer()
    ensures audited { (net word con other also : List ℕ) → HaveSameConstraints net word con other also → (json : Bool) (status : Status) (text : List ℕ) → IsAuditOf json word net con status text → IsAuditOf json other net also status text }
    ensures replayed { (net word con other also : List ℕ) → HaveSameConstraints net word con other also → (run : List ℕ) (answer : Result (List ℕ) Ending) → IsReplayUnder word net con run answer → IsReplayUnder other net also run answer }
    ensures certified { (net word con other also : List ℕ) → HaveSameConstraints net word con other also → (status : Status) (text : List ℕ) → IsCertifyOf word net con status text → IsCertifyOf other net also status text }
    ensures checked { (net word con other also : List ℕ) → HaveSameConstraints net word con other also → (cert : List ℕ) (status : Status) (text : List ℕ) → IsCheckOf word net con cert status text → IsCheckOf other net also cert status text }
    ensures campaigned { (net word con other also : List ℕ) → HaveSameConstraints net word con other also → (steps seed : ℕ) (status : Status) (text : List ℕ) → IsCampaignOf steps seed word net con status text → IsCampaignOf steps seed other net also status text }
    ensures audit_refused { (net word con other also : List ℕ) → HaveSameConstraints net word con other also → (fault : Fault) (status : Status) → IsAuditRefused word net con fault status → IsAuditRefused other net also fault status }
    ensures certify_refused { (net word con other also : List ℕ) → HaveSameConstraints net word con other also → (fault : Fault) (status : Status) → IsCertifyRefused word net con fault status → IsCertifyRefused other net also fault status }
    ensures check_refused { (net word con other also : List ℕ) → HaveSameConstraints net word con other also → (cert : List ℕ) (fault : Fault) (status : Status) → IsCheckRefused word net con cert fault status → IsCheckRefused other net also cert fault status }
    ensures campaign_refused { (net word con other also : List ℕ) → HaveSameConstraints net word con other also → (fault : Fault) (status : Status) → IsCampaignRefused word net con fault status → IsCampaignRefused other net also fault status }
    ensures replay_refused { (net word con other also : List ℕ) → HaveSameConstraints net word con other also → (fault : Fault) (status : Status) → AreTextsRefused word net con fault status → AreTextsRefused other net also fault status }
{}
