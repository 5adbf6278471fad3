//! Values of signals.
ghost use Rattle.std.specs.Prelude.{◌≡◌, ◌++◌, ◌*◌, ◌/◌, ◌%◌, ◌^◌, IfOk};
ghost use Rattle.cell_graph.specs.Values.{word_at};
ghost use Rattle.run_report.specs.Values.{hex_digit, hex_digits, value_text};

use cdc_base::NoMemory;
use report::text::Text;

fn hex_digit(value: u64) -> u8
    ensures { result ≡ hex_digit (value % 16) }
{
    match (value % 16) as u8 {
        digit @ 0..=9 => b'0' + digit,
        digit => b'a' + (digit - 10),
    }
}

/// The hexadecimal digit of the value at a place; place 0 is the lowest.
fn digit_at(value: u64, place: u8) -> u8
    ensures { result ≡ hex_digit (value / 2 ^ (4 * place) % 16) }
{
    if place < 16 {
        hex_digit(value >> (4 * u32::from(place)))
    } else {
        b'0'
    }
}

/// Adds the lowest digits of the value, in hexadecimal.
fn add_hex(text: &mut Text, digits: u8, value: u64) -> Result<(), NoMemory>
    ensures { IfOk result (λ _. text.new ≡ text.old ++ hex_digits digits value) }
{
    let mut left = digits;
    while left > 0 {
        left -= 1;
        text.add_byte(digit_at(value, left))?;
    }
    Ok(())
}

/// Adds a value with its width, in as many hexadecimal digits as the width needs.
pub fn add_value(text: &mut Text, width: u8, value: u64) -> Result<(), NoMemory>
    ensures { IfOk result (λ _. text.new ≡ text.old ++ value_text width value) }
{
    text.add_number(u64::from(width))?;
    text.add("'h")?;
    add_hex(text, width.div_ceil(4), value)
}

/// The word of a signal; 0 where there is none.
pub fn word_at(words: &[u64], sig: u32) -> u64
    ensures { result ≡ word_at words.now sig }
{
    words.get(sig as usize).copied().unwrap_or(0)
}
