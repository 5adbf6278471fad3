//! The lines of a text, the words of a line, and numbers.
ghost use Rattle.std.specs.Prelude.{◌≡◌, ◌<◌, ◌≤◌, ◌+◌, ◌-◌, ◌*◌, ◌^◌, ◌∷◌, false, length, IfOk, MatchOption, slice_index};
ghost use Rattle.std.specs.Char.{is_ascii_digit};
ghost use Rattle.std.specs.List.{list_all};
ghost use Rattle.std.specs.Option.{option_copied};
ghost use Rattle.cert_text.specs.Texts.{is_empty};
ghost use Rattle.cert_text.specs.Words.{HasNoFeed, is_decimal, leads_plainly, lines_of, number_below, parts_words, stays_escaped, value_from, words_of};

use cdc_base::{List, NoMemory};
use std::alloc::Global;

/// The first line of a text without the line feed that ends it, and what stands behind it; None where no line feed ends
/// the line.
pub fn cut_line(text: &[u8]) -> (Option<&[u8]>, &[u8])
    ensures lines { is_empty text.now ≡ false → lines_of text.now ≡ option_copied result.0 ∷ lines_of result.1.now }
    ensures shorter { is_empty text.now ≡ false → length result.1.now < length text.now }
{
    match line_feed(text) {
        Some(place) => (Some(&text[..place]), &text[place + 1..]),
        None => (None, &[]),
    }
}

pub fn is_empty(text: &[u8]) -> bool
    ensures { result ≡ is_empty text.now }
{
    match text {
        [] => true,
        [_, ..] => false,
    }
}

/// The place of the first line feed.
fn line_feed(text: &[u8]) -> Option<usize>
    ensures { MatchOption result (HasNoFeed text.now (length text.now)) (λ place. (place < length text.now) × (slice_index text.now place ≡ 10) × HasNoFeed text.now place) }
{
    for (place, byte) in text.iter().enumerate() {
        if *byte == b'\n' {
            return Some(place);
        }
    }
    None
}

/// The words of a line: a space parts them, but for one that ends an escaped identifier.
pub fn words(alloc: Global, line: &[u8]) -> Result<List<List<u8>>, NoMemory>
    ensures { IfOk result (λ words. words ≡ words_of line.now) }
{
    let mut words = List::new(alloc);
    let mut word = List::new(alloc);
    let mut escaped = false;
    for byte in line {
        if parts_words(escaped, *byte) {
            words.push(word)?;
            word = List::new(alloc);
            escaped = false;
        } else {
            word.push(*byte)?;
            escaped = stays_escaped(escaped, *byte);
        }
    }
    words.push(word)?;
    Ok(words)
}

/// Whether the byte ends a word: a space does that ends no escaped identifier.
fn parts_words(escaped: bool, byte: u8) -> bool
    ensures { result ≡ parts_words escaped byte }
{
    !escaped && byte == b' '
}

/// Whether an escaped identifier goes on behind the byte.
fn stays_escaped(escaped: bool, byte: u8) -> bool
    ensures { result ≡ stays_escaped escaped byte }
{
    byte != b' ' && (escaped || byte == b'\\')
}

/// Whether the text is a number in decimal digits without a leading zero.
pub fn is_decimal(text: &[u8]) -> bool
    ensures { result ≡ is_decimal text.now }
{
    leads_plainly(text) && are_digits(text)
}

fn are_digits(text: &[u8]) -> bool
    ensures { result ≡ list_all is_ascii_digit text.now }
{
    text.iter().all(|digit| digit.is_ascii_digit())
}

/// Whether the text has a first byte, which isn't a zero in front of others.
fn leads_plainly(text: &[u8]) -> bool
    ensures { result ≡ leads_plainly text.now }
{
    match text {
        [] => false,
        [_] => true,
        [digit, ..] => *digit != b'0',
    }
}

/// The number that the text is in plain decimal digits, where it is below the bound.
pub fn number_below(bound: u64, text: &[u8]) -> Option<u64>
    ensures { result ≡ number_below bound text.now }
{
    if !is_decimal(text) {
        return None;
    }
    let value = value(text)?;
    if value < bound { Some(value) } else { None }
}

/// The value of decimal digits, where a word holds it.
fn value(text: &[u8]) -> Option<u64>
    ensures { MatchOption result (2 ^ 64 ≤ value_from 0 text.now) (λ value. value ≡ value_from 0 text.now) }
{
    let mut value = 0u64;
    for digit in text {
        let Some(next) = with_digit(value, *digit) else {
            return None;
        };
        value = next;
    }
    Some(value)
}

fn with_digit(value: u64, digit: u8) -> Option<u64>
    ensures { MatchOption result (2 ^ 64 ≤ value * 10 + (digit - 48)) (λ next. next ≡ value * 10 + (digit - 48)) }
{
    value
        .checked_mul(10)?
        .checked_add(u64::from(digit.saturating_sub(48)))
}
