//! Words of up to 64 bits.
ghost use Rattle.std.specs.Prelude.{◌≡◌, ℕ, ◌-◌, ◌*◌, ◌/◌, ◌%◌, ◌^◌, min};

/// The word whose low `width` bits are ones.
pub fn mask(width: u8) -> u64
    ensures { result ≡ 2 ^ min width 64 - 1 }
{
    if width < 64 {
        (1 << width) - 1
    } else {
        u64::MAX
    }
}

/// The word moved up by `by` places. What passes the highest place is lost.
pub fn shifted_left(word: u64, by: u64) -> u64
    ensures { result ≡ word * 2 ^ by % 2 ^ 64 }
{
    if by < 64 { word << by } else { 0 }
}

/// The word moved down by `by` places. What passes the lowest place is lost.
pub fn shifted_right(word: u64, by: u64) -> u64
    ensures { result ≡ word / 2 ^ by }
{
    if by < 64 { word >> by } else { 0 }
}

/// The low `width` bits of the word.
pub fn low_bits(word: u64, width: u8) -> u64
    ensures { result ≡ word % 2 ^ width }
{
    word & mask(width)
}
