//! Bits in the words of the signals.
ghost use Rattle.std.specs.Prelude.{◌≡◌, length, set};
ghost use Rattle.cell_graph.specs.Values.{reading_of};
ghost use Rattle.settling_sim.specs.Words.{with_bit, put_bit, flip_in};

use cdc_base::Bit;
use cdc_model::view::has_bit;

/// The value of a bit.
pub fn value_of(words: &[u64], bit: Bit) -> bool
    ensures { result ≡ reading_of words.now bit }
{
    has_bit(words.get(bit.sig as usize).copied().unwrap_or(0), bit.at)
}

/// The word with this value for a bit.
pub fn with_bit(word: u64, at: u8, value: bool) -> u64
    ensures { result ≡ with_bit word at value }
{
    if at < 64 && has_bit(word, at) != value {
        word ^ (1 << at)
    } else {
        word
    }
}

pub fn put_word(words: &mut [u64], sig: u32, word: u64)
    ensures { words.new ≡ set words.old sig word }
{
    let place = sig as usize;
    if place < words.len() {
        words[place] = word;
    }
}

pub fn put_bit(words: &mut [u64], bit: Bit, value: bool)
    ensures { words.new ≡ put_bit words.old bit value }
{
    let word = words.get(bit.sig as usize).copied().unwrap_or(0);
    put_word(words, bit.sig, with_bit(word, bit.at, value));
}

/// Copies the words of as many signals.
pub fn copy_words(words: &mut [u64], from: &[u64])
    ensures length { length words.new ≡ length words.old }
    ensures copied { length words.old ≡ length from.now → words.new ≡ from.now }
{
    if words.len() == from.len() {
        words.copy_from_slice(from);
    }
}

/// Sets `flipped` to the words with the bits of a list at their other value.
pub fn flip(flipped: &mut [u64], words: &[u64], bits: &[Bit])
    ensures length { length flipped.new ≡ length flipped.old }
    ensures flipped { length flipped.old ≡ length words.now → flipped.new ≡ flip_in words.now words.now bits.now }
{
    copy_words(flipped, words);
    for bit in bits {
        put_bit(flipped, *bit, !value_of(words, *bit));
    }
}
