//! Masks of bits of a word of 64 bits.
ghost use Rattle.std.specs.Prelude.{◌≡◌, ◌≢◌, ℕ, ◌-◌, ◌^◌, ◌<◌, min, true, false, ◌&&◌, nat_lt};
ghost use Rattle.cell_graph.specs.Tree.{bit_at, number, odd_below};
ghost use Rattle.flat_meaning.specs.Values.{Word};
ghost use Rattle.flat_meaning.specs.Assigned.{is_within};

use cell_graph::word::mask;
pub use cell_graph::word::{shifted_left, shifted_right};

/// A mask of the `width` lowest bits.
pub fn low_bits(width: u8) -> u64
    ensures ones { result ≡ 2 ^ min width 64 - 1 }
    ensures set { (i : ℕ) → bit_at result i ≡ (nat_lt i 64 && is_within 0 width i) }
{
    mask(width)
}

/// A mask of `width` bits, the lowest of which is `at`. What passes the highest bit is lost.
pub fn bits(at: u8, width: u8) -> u64
    ensures { (i : ℕ) → bit_at result i ≡ (nat_lt i 64 && is_within at width i) }
{
    shifted_left(low_bits(width), u64::from(at))
}

/// Whether the number of set bits is odd.
pub fn is_odd(word: u64) -> bool
    ensures { (f : Word) (w : ℕ) → word ≡ number f w → result ≡ odd_below f w }
{
    word.count_ones() % 2 == 1
}

/// The place of the lowest set bit, and 64 where there is none.
pub fn lowest(word: u64) -> u8
    ensures none { word ≡ 0 → result ≡ 64 }
    ensures set { word ≢ 0 → bit_at word result ≡ true }
    ensures lowest { (i : ℕ) → i < result → bit_at word i ≡ false }
{
    // No word has more than 64 such zeros.
    word.trailing_zeros() as u8
}
