//! How the size of a number is written.

/// A decimal run alone, of 32 bits; a base without a size, of 32 bits; or a base behind a size.
#[derive(Clone, Copy, PartialEq, Eq, Debug, Drop)]
pub enum NumberSize {
    Plain,
    Unsized,
    Sized,
}
