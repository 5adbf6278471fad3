//! The certificates that `certify` writes hold by `check`.
#![tactic(auto)]

ghost use Rattle.certificate_laws.specs.Laws.{CertifiedHolds};

/// What `certify` writes with status 0 is read as a certificate of each net of the described design, and certifies it. So
/// `check` over the same two texts answers status 0, and no rule of certificates refuses what was written.
pub fn certified_holds()
    ensures { CertifiedHolds }
{}
