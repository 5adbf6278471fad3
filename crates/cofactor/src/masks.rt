//! What is known of the bits of a cell, by masks of whole words. Each rule for the bits of a cell has its function here,
//! whose contract is the rule.
ghost use Rattle.std.specs.Prelude.{◌≡◌, ℕ, suc, ◌+◌, ◌-◌, ◌≤◌, ◌<◌, ◌%◌, ◌^◌, min, Bool, true, false, not, cond, nat_lt, Option, Some, None, is_some, option_map};
ghost use Rattle.cell_graph.specs.Tree.{bit_at, number, all_below};
ghost use Rattle.cell_graph.specs.Cofactor.{known_and, known_or, known_xor, agreed, chosen, known_number, on_numbers, known_all, known_any, known_odd};
ghost use Rattle.cofactor.specs.Masks.{masks_of, known_reduced};

use cell_graph::ReduceKind;
use cell_graph::word::{mask, shifted_left, shifted_right};

/// Of each bit of a cell whether it is known, and its value, which is 0 where it isn't.
#[derive(Clone, Copy, PartialEq, Eq, Debug, Drop)]
pub struct Masks {
    pub known: u64,
    pub value: u64,
}

/// No bit is known.
pub(crate) const UNKNOWN: Masks = Masks { known: 0, value: 0 };

impl Masks {
    /// All bits of a constant.
    pub(crate) fn of_word(value: u64, width: u8) -> Masks
        ensures { width ≤ 64 → result ≡ masks_of (λ i. Some (bit_at value i)) width }
    {
        let ones = mask(width);
        Masks {
            known: ones,
            value: value & ones,
        }
    }

    fn of_bit(value: bool) -> Masks
        ensures { result ≡ masks_of (λ i. Some value) 1 }
    {
        Masks {
            known: 1,
            value: u64::from(value),
        }
    }

    /// One bit: the opposite of `value` where it is refuted, else `value` where all bits that make it are known.
    fn judged(refuted: bool, whole: bool, value: bool) -> Masks
        ensures { result ≡ masks_of (λ i. cond refuted (Some (not value)) (cond whole (Some value) None)) 1 }
    {
        if refuted {
            Masks::of_bit(!value)
        } else if whole {
            Masks::of_bit(value)
        } else {
            UNKNOWN
        }
    }

    /// Whether all bits of the width are known.
    fn is_whole(self, width: u8) -> bool
        ensures { (k : ℕ → Option Bool) → width ≤ 64 → self ≡ masks_of k width → result ≡ all_below (λ i. is_some (k i)) width }
    {
        self.known == mask(width)
    }

    /// The word, where all its bits are known.
    pub(crate) fn word(self, width: u8) -> Option<u64>
        ensures { (k : ℕ → Option Bool) → width ≤ 64 → self ≡ masks_of k width → result ≡ known_number k width }
    {
        if self.is_whole(width) {
            Some(self.value)
        } else {
            None
        }
    }

    /// Bit `at`, where it is known.
    pub(crate) fn bit(self, at: u8) -> Option<bool>
        ensures { (k : ℕ → Option Bool) (w : ℕ) → at < w → self ≡ masks_of k w → result ≡ k at }
    {
        if has_bit(self.known, at) {
            Some(has_bit(self.value, at))
        } else {
            None
        }
    }
}

/// Whether bit `at` of the word is 1.
pub(crate) fn has_bit(word: u64, at: u8) -> bool
    ensures { result ≡ bit_at word at }
{
    shifted_right(word, u64::from(at)) & 1 == 1
}

/// The bits that are known to have the value.
pub(crate) fn bits_known_to_be(masks: Masks, value: bool) -> u64
    ensures { (k : ℕ → Option Bool) (w i : ℕ) → w ≤ 64 → masks ≡ masks_of k w → i < w → k i ≡ Some value → bit_at result i ≡ true }
{
    if value {
        masks.value
    } else {
        masks.known & !masks.value
    }
}

pub(crate) fn not_of(a: Masks) -> Masks
    ensures { (k : ℕ → Option Bool) (w : ℕ) → w ≤ 64 → a ≡ masks_of k w → result ≡ masks_of (λ i. option_map not (k i)) w }
{
    Masks {
        known: a.known,
        value: a.known & !a.value,
    }
}

/// 0 where a side is known to be 0, 1 where both are known to be 1.
pub(crate) fn and_of(a: Masks, b: Masks) -> Masks
    ensures { (k l : ℕ → Option Bool) (w : ℕ) → w ≤ 64 → a ≡ masks_of k w → b ≡ masks_of l w →
        result ≡ masks_of (λ i. known_and (k i) (l i)) w }
{
    let ones = a.value & b.value;
    Masks {
        known: ((a.known & !a.value) | (b.known & !b.value)) | ones,
        value: ones,
    }
}

/// 1 where a side is known to be 1, 0 where both are known to be 0.
pub(crate) fn or_of(a: Masks, b: Masks) -> Masks
    ensures { (k l : ℕ → Option Bool) (w : ℕ) → w ≤ 64 → a ≡ masks_of k w → b ≡ masks_of l w →
        result ≡ masks_of (λ i. known_or (k i) (l i)) w }
{
    let ones = a.value | b.value;
    Masks {
        known: ones | ((a.known & !a.value) & (b.known & !b.value)),
        value: ones,
    }
}

pub(crate) fn xor_of(a: Masks, b: Masks) -> Masks
    ensures { (k l : ℕ → Option Bool) (w : ℕ) → w ≤ 64 → a ≡ masks_of k w → b ≡ masks_of l w →
        result ≡ masks_of (λ i. known_xor (k i) (l i)) w }
{
    let known = a.known & b.known;
    Masks {
        known,
        value: (a.value ^ b.value) & known,
    }
}

/// The bits up to which all bits are set.
fn front_of(known: u64, width: u8) -> u64
    ensures { width ≤ 64 → result ≡ number (λ i. all_below (bit_at known) (suc i)) width }
{
    let mut whole = true;
    let mut front = 0;
    for at in 0..width {
        whole &= has_bit(known, at);
        front = with_bit(front, at, whole);
    }
    front
}

/// The word with one more bit above its own.
pub(crate) fn with_bit(word: u64, at: u8, bit: bool) -> u64
    ensures { (f : ℕ → Bool) → at < 64 → word ≡ number f at → bit ≡ f at → result ≡ number f (suc at) }
{
    if bit {
        word | shifted_left(1, u64::from(at))
    } else {
        word
    }
}

/// A bit of a sum is known where all bits up to it are.
pub(crate) fn sum_of(a: Masks, b: Masks, width: u8) -> Masks
    ensures { (k l : ℕ → Option Bool) → width ≤ 64 → a ≡ masks_of k width → b ≡ masks_of l width →
        result ≡ masks_of (λ i. on_numbers (known_number k (suc i)) (known_number l (suc i)) (λ m n. bit_at (m + n) i)) width }
{
    let known = front_of(a.known & b.known, width);
    Masks {
        known,
        value: a.value.wrapping_add(b.value) & known,
    }
}

/// A bit of a difference is known where all bits up to it are.
pub(crate) fn difference_of(a: Masks, b: Masks, width: u8) -> Masks
    ensures { (k l : ℕ → Option Bool) → width ≤ 64 → a ≡ masks_of k width → b ≡ masks_of l width →
        result ≡ masks_of (λ i. on_numbers (known_number k (suc i)) (known_number l (suc i)) (λ m n. bit_at (2 ^ suc i + m - n) i)) width }
{
    let known = front_of(a.known & b.known, width);
    Masks {
        known,
        value: a.value.wrapping_sub(b.value) & known,
    }
}

/// 0 where some pair of bits is known and differs, 1 where all pairs are known and equal.
pub(crate) fn equal_of(a: Masks, b: Masks, width: u8) -> Masks
    ensures { (k l : ℕ → Option Bool) → width ≤ 64 → a ≡ masks_of k width → b ≡ masks_of l width →
        result ≡ masks_of (λ i. known_all (λ j. option_map not (known_xor (k j) (l j))) width) 1 }
{
    let known = a.known & b.known;
    Masks::judged((a.value ^ b.value) & known != 0, known == mask(width), true)
}

/// Whether the first is less, where all bits of both are known.
pub(crate) fn less_of(a: Masks, b: Masks, width: u8) -> Masks
    ensures { (k l : ℕ → Option Bool) → width ≤ 64 → a ≡ masks_of k width → b ≡ masks_of l width →
        result ≡ masks_of (λ i. on_numbers (known_number k width) (known_number l width) nat_lt) 1 }
{
    match a.word(width) {
        Some(a) => match b.word(width) {
            Some(b) => Masks::of_bit(a < b),
            None => UNKNOWN,
        },
        None => UNKNOWN,
    }
}

/// The word moved up, with zeros below.
pub(crate) fn moved_up(a: Masks, by: u64, width: u8) -> Masks
    ensures { (k : ℕ → Option Bool) → width ≤ 64 → a ≡ masks_of k width →
        result ≡ masks_of (λ i. cond (nat_lt i by) (Some false) (cond (nat_lt (i - by) width) (k (i - by)) (Some false))) width }
{
    let ones = mask(width);
    Masks {
        known: (shifted_left(a.known, by) | !shifted_left(u64::MAX, by)) & ones,
        value: shifted_left(a.value, by) & ones,
    }
}

/// The word moved down, with zeros above.
pub(crate) fn moved_down(a: Masks, by: u64, width: u8) -> Masks
    ensures { (k : ℕ → Option Bool) → width ≤ 64 → a ≡ masks_of k width →
        result ≡ masks_of (λ i. cond (nat_lt (i + by) width) (k (i + by)) (Some false)) width }
{
    let ones = mask(width);
    Masks {
        known: (shifted_right(a.known, by) | !shifted_right(ones, by)) & ones,
        value: shifted_right(a.value, by),
    }
}

/// The chosen branch where the condition is known, else what both branches are known to be.
pub(crate) fn choice_of(cond: Option<bool>, yes: Masks, other: Masks) -> Masks
    ensures { (k l : ℕ → Option Bool) (w : ℕ) → w ≤ 64 → yes ≡ masks_of k w → other ≡ masks_of l w →
        result ≡ masks_of (λ i. chosen cond (k i) (l i) (agreed (k i) (l i))) w }
{
    match cond {
        Some(first) => { if first { yes } else { other } }
        None => {
            let known = (yes.known & other.known) & !(yes.value ^ other.value);
            Masks {
                known,
                value: yes.value & known,
            }
        }
    }
}

pub(crate) fn joined(high: Masks, low: Masks, low_width: u8) -> Masks
    ensures { (k l : ℕ → Option Bool) (w : ℕ) → w + low_width ≤ 64 → high ≡ masks_of k w → low ≡ masks_of l low_width →
        result ≡ masks_of (λ i. cond (nat_lt i low_width) (l i) (k (i - low_width))) (w + low_width) }
{
    let by = u64::from(low_width);
    Masks {
        known: shifted_left(high.known, by) | low.known,
        value: shifted_left(high.value, by) | low.value,
    }
}

/// The bits from `at` on.
pub(crate) fn sliced(a: Masks, at: u8, width: u8) -> Masks
    ensures { (k : ℕ → Option Bool) (w : ℕ) → w ≤ 64 → at + width ≤ w → a ≡ masks_of k w → result ≡ masks_of (λ i. k (at + i)) width }
{
    let by = u64::from(at);
    let ones = mask(width);
    Masks {
        known: shifted_right(a.known, by) & ones,
        value: shifted_right(a.value, by) & ones,
    }
}

/// The word with zeros above.
pub(crate) fn extended(a: Masks, a_width: u8, width: u8) -> Masks
    ensures { (k : ℕ → Option Bool) → a_width ≤ width → width ≤ 64 → a ≡ masks_of k a_width →
        result ≡ masks_of (λ i. cond (nat_lt i a_width) (k i) (Some false)) width }
{
    Masks {
        known: a.known | (mask(width) & !mask(a_width)),
        value: a.value,
    }
}

/// All bits of a word in one: 0 where a bit is known to be 0, 1 where all are known to be 1.
fn all_of(a: Masks, width: u8) -> Masks
    ensures { (k : ℕ → Option Bool) → width ≤ 64 → a ≡ masks_of k width → result ≡ masks_of (λ i. known_all k width) 1 }
{
    Masks::judged(a.known & !a.value != 0, a.is_whole(width), true)
}

/// 1 where a bit is known to be 1, 0 where all are known to be 0.
fn any_of(a: Masks, width: u8) -> Masks
    ensures { (k : ℕ → Option Bool) → width ≤ 64 → a ≡ masks_of k width → result ≡ masks_of (λ i. known_any k width) 1 }
{
    Masks::judged(a.value != 0, a.is_whole(width), false)
}

/// Whether an odd number of bits is 1, where all are known.
fn odd_of(a: Masks, width: u8) -> Masks
    ensures { (k : ℕ → Option Bool) → width ≤ 64 → a ≡ masks_of k width → result ≡ masks_of (λ i. known_odd k width) 1 }
{
    match a.word(width) {
        Some(word) => Masks::of_bit(word.count_ones() % 2 == 1),
        None => UNKNOWN,
    }
}

/// All bits of a word in one.
pub(crate) fn reduced(kind: ReduceKind, a: Masks, width: u8) -> Masks
    ensures { (k : ℕ → Option Bool) → width ≤ 64 → a ≡ masks_of k width → result ≡ masks_of (known_reduced kind k width) 1 }
{
    match kind {
        ReduceKind::And => all_of(a, width),
        ReduceKind::Or => any_of(a, width),
        ReduceKind::Xor => odd_of(a, width),
    }
}
