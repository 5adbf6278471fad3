//! What a flat design means as a design of the model, and that the net of its cells means the same.
#![tactic(auto)]

ghost use Rattle.flat_model.specs.Laws.{
  CleanDesignsAreSound,
  CleanDesignsAreTogether,
  DesignsAreFinite,
  DesignsHaveMeaning,
  DesignsShowWhatIsSo,
  DomainsAreTheDesigns,
  NetsAreTheirDesigns,
  NextsAreTheNets,
  ReplaysAreTheNets,
  SoundNetsAreSoundDesigns,
  VerdictsAreTheDesigns,
};
ghost use Rattle.flat_model.specs.Pinned.{PinnedIsSound};

use cdc_model::Extra;
use cdc_model::laws::clean_net_is_sound;

/// A sound design stays sound where some of its static bits are held at constants.
pub fn pinned_is_sound()
    ensures { PinnedIsSound }
{}

/// The domains of a net are those of the flat design whose trees its cells have; the flat design has a meaning under the
/// constraints; and the net's design, and its verdict, are those of each such meaning.
pub fn net_is_flat()
    ensures domains { DomainsAreTheDesigns }
    ensures meaning { DesignsHaveMeaning }
    ensures same { NetsAreTheirDesigns }
    ensures nexts { NextsAreTheNets }
    ensures replays { ReplaysAreTheNets }
    ensures trees { DesignsShowWhatIsSo }
    ensures finite { DesignsAreFinite }
    ensures verdict { VerdictsAreTheDesigns }
{}

/// Where the net is sound, so is the flat design.
pub fn sound_net_is_sound_design()
    ensures { SoundNetsAreSoundDesigns }
{}

/// The theorem on flat designs: where the verdict of the net has no finding, the flat design is sound, by the covers and
/// rings that the code lists, and what meets behind its synchronizers belongs to one moment.
pub fn clean_design_is_sound<E: Extra>(extra: &E)
    ensures sound { CleanDesignsAreSound (E.fits extra.now) (E.is_extra extra.now) }
    ensures together { CleanDesignsAreTogether (E.fits extra.now) (E.is_extra extra.now) }
{
    clean_net_is_sound(extra);
}
