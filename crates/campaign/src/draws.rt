//! The words that a lane draws.
ghost use Rattle.std.specs.Prelude.{◌≡◌};
ghost use Rattle.campaign.specs.Draws.{seeded, word, behind};

use rand_core::SeedableRng;
use rand_core::utils::NextWord;
use rand_xoshiro::Xoshiro256PlusPlus;

/// The generator of a seed.
#[tactic(auto, unfolding(crate::specs::Draws::seeded))]
pub fn seeded(seed: u64) -> Xoshiro256PlusPlus
    ensures { result ≡ seeded seed }
{
    Xoshiro256PlusPlus::seed_from_u64(seed)
}

/// The next word.
#[tactic(auto, unfolding(crate::specs::Draws::word, crate::specs::Draws::behind))]
pub fn draw(rng: &mut Xoshiro256PlusPlus) -> u64
    ensures word { result ≡ word rng.old }
    ensures behind { rng.new ≡ behind rng.old }
{
    rng.next_word()
}
