//! What campaigns promise.
ghost use Rattle.campaign.specs.Shows.{FoundsShowCaptures, CleanNetsShowNothing};

use cdc_model::Extra;

/// What a campaign finds fixes a run, in whose last step a register bit, no settling flop, takes another value than its
/// next one.
pub fn found_is_capture()
    ensures { FoundsShowCaptures }
{}

/// Where the verdict of a net has no finding, a campaign finds nothing.
pub fn clean_net_shows_nothing<E: Extra>(extra: &E)
    ensures { CleanNetsShowNothing (E.fits extra.now) (E.is_extra extra.now) }
{}
