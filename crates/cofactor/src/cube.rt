//! Cubes: a few bits that are fixed.
ghost use Rattle.std.specs.Prelude.{◌≡◌, ℕ, Bool, Option};
ghost use Rattle.cell_graph.specs.Cofactor.{fixed};
ghost use Rattle.cofactor.specs.Cubes.{bit, cube_of, or_fixed};
ghost use Rattle.cofactor.specs.Masks.{masks_of};

use crate::masks::{Masks, UNKNOWN, has_bit};
use cdc_base::{Bit, List};
use cell_graph::word::shifted_left;

/// Up to four different bits that are fixed.
#[derive(Drop)]
pub struct Cube {
    pub fixed: List<Fixed>,
}

/// A bit, and the value that it is fixed to.
#[derive(Clone, Copy, PartialEq, Eq, Debug, Drop)]
pub struct Fixed {
    pub bit: Bit,
    pub value: bool,
}

/// What the cube fixes of the bits of a signal.
pub(crate) fn fixed_bits(cube: &Cube, sig: u32) -> Masks
    ensures { result ≡ masks_of (λ i. fixed (cube_of cube.now) (bit sig i)) 64 }
{
    let mut masks = UNKNOWN;
    for fixed in cube.fixed.as_slice() {
        masks = with_fixed(masks, *fixed, sig);
    }
    masks
}

/// The masks of a signal's bits with one more bit fixed; a bit that is fixed already stays as it is.
fn with_fixed(masks: Masks, fixed: Fixed, sig: u32) -> Masks
    ensures { (k : ℕ → Option Bool) → masks ≡ masks_of k 64 → result ≡ masks_of (λ i. or_fixed (k i) fixed (bit sig i)) 64 }
{
    if fixed.bit.sig != sig {
        return masks;
    }
    if has_bit(masks.known, fixed.bit.at) {
        return masks;
    }
    let place = shifted_left(1, u64::from(fixed.bit.at));
    if fixed.value {
        Masks {
            known: masks.known | place,
            value: masks.value | place,
        }
    } else {
        Masks {
            known: masks.known | place,
            value: masks.value,
        }
    }
}
