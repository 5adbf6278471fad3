//! One text that meets all premises, from its bytes to the theorem: a synchronizer of two flops.
#![tactic(auto)]

ghost use Rattle.worked_audit.specs.Laws.{ConstraintsAreSaid, NetIsJudged, TwoFlopsAreClean};

/// The constraints in SDC say so.
pub fn constraints_are_said()
    ensures { ConstraintsAreSaid }
{}

/// The net has one crossing, which a synchronizer of two flops guards, no FIFO and no finding.
pub fn net_is_judged()
    ensures { NetIsJudged }
{}

/// An audit of both texts is done, as `audit` says of any two files that tell them: so no premise on the way from bytes to the theorem is one that
/// nothing meets.
pub fn two_flops_are_clean()
    ensures { TwoFlopsAreClean }
{}
