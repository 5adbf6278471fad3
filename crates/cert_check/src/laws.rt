//! What certificates promise, and what certifies a net.
ghost use Rattle.cert_check.specs.Promised.{CertifiedIsSound, CertifiedIsTogether, CertifiedKeepsOrder, CleanIsCertified};

/// A net that a certificate certifies is sound by its covers and rings; what meets behind its synchronizers belongs to one
/// moment; and words go in order through the FIFOs for which its pairs of counts stand.
pub fn certified_is_sound()
    ensures sound { CertifiedIsSound }
    ensures together { CertifiedIsTogether }
    ensures order { CertifiedKeepsOrder }
{}

/// All synchronizers, Gray registers, rings and loads of a verdict without findings, and the counts of all FIFOs, certify
/// the net.
pub fn clean_is_certified()
    ensures { CleanIsCertified }
{}
