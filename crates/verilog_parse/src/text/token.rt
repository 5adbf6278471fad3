//! Single tokens as text.
ghost use Rattle.std.specs.Prelude.{[], ◌∷◌, ◌≡◌, ◌++◌, ◌<◌, codes, IfOk};
ghost use Rattle.std.specs.Fmt.{decimal};
ghost use Rattle.std.specs.Int.{bit_at};
ghost use Rattle.cdc_base.specs.declared.size.NumberSize.TheVariants.{Plain, Unsized, Sized};
ghost use Rattle.cdc_base.specs.declared.words.Keyword.TheVariants.{Or};
ghost use Rattle.verilog_lex.specs.declared.marks.MarkKind.TheVariants.{Comma};
ghost use Rattle.verilog_parse.specs.Printed as printed;
ghost use Rattle.verilog_parse.specs.Printed.{Adds};

use crate::text::spelling::{mark_text, word_text};
use cdc_base::words::is_simple;
use cdc_base::{Name, NoMemory, NumberSize};
use std::alloc::Global;
use verilog_lex::{Keyword, MarkKind};

fn put(out: &mut Vec<u8>, piece: &[u8]) -> Result<(), NoMemory>
    ensures { IfOk result (λ _. out.new.items ≡ out.old.items ++ piece.now) }
{
    match out.extend_from_slice(piece) {
        Ok(()) => Ok(()),
        Err(_) => Err(NoMemory),
    }
}

pub fn put_word(out: &mut Vec<u8>, word: Keyword) -> Result<(), NoMemory>
    ensures { IfOk result (λ _. Adds out.old.items (printed.word word) out.new.items) }
{
    put(out, word_text(word))?;
    put(out, b" ")
}

pub fn put_mark(out: &mut Vec<u8>, mark: MarkKind) -> Result<(), NoMemory>
    ensures { IfOk result (λ _. Adds out.old.items (printed.mark mark) out.new.items) }
{
    put(out, mark_text(mark))?;
    put(out, b" ")
}

/// The comma before an entry of a list, but for the first.
pub fn put_comma(out: &mut Vec<u8>, at: usize) -> Result<(), NoMemory>
    ensures { IfOk result (λ _. Adds out.old.items (printed.before_entry at (printed.mark Comma)) out.new.items) }
{
    if at > 0 {
        return put_mark(out, MarkKind::Comma);
    }
    Ok(())
}

/// The `or` before an edge, but for the first.
pub fn put_or(out: &mut Vec<u8>, at: usize) -> Result<(), NoMemory>
    ensures { IfOk result (λ _. Adds out.old.items (printed.before_entry at (printed.word Or)) out.new.items) }
{
    if at > 0 {
        return put_word(out, Keyword::Or);
    }
    Ok(())
}

/// The name as it is where it is an identifier, and escaped else.
pub fn put_name(out: &mut Vec<u8>, name: &Name) -> Result<(), NoMemory>
    ensures { IfOk result (λ _. Adds out.old.items (printed.ident name.now) out.new.items) }
{
    let bytes = name.as_bytes();
    if !is_simple(bytes) {
        put(out, b"\\")?;
    }
    put(out, bytes)?;
    put(out, b" ")
}

/// A plain number in decimal digits, any other in hexadecimal digits, with its width where it has a size.
pub fn put_number(
    alloc: Global,
    out: &mut Vec<u8>,
    value: u64,
    width: u8,
    size: NumberSize,
) -> Result<(), NoMemory>
    ensures { IfOk result (λ _. Adds out.old.items (printed.numeral value width size) out.new.items) }
{
    match size {
        NumberSize::Plain => put_plain(alloc, out, value),
        NumberSize::Unsized => put_unsized(alloc, out, value),
        NumberSize::Sized => put_sized(alloc, out, value, width),
    }
}

fn put_plain(alloc: Global, out: &mut Vec<u8>, value: u64) -> Result<(), NoMemory>
    ensures { IfOk result (λ _. Adds out.old.items (printed.numeral value 32 Plain) out.new.items) }
{
    match format!(in alloc; "{value} ") {
        Ok(text) => put(out, text.as_bytes()),
        Err(_) => Err(NoMemory),
    }
}

fn put_unsized(alloc: Global, out: &mut Vec<u8>, value: u64) -> Result<(), NoMemory>
    ensures { IfOk result (λ _. Adds out.old.items (printed.numeral value 32 Unsized) out.new.items) }
{
    match format!(in alloc; "'h{value:x} ") {
        Ok(text) => put(out, text.as_bytes()),
        Err(_) => Err(NoMemory),
    }
}

fn put_sized(alloc: Global, out: &mut Vec<u8>, value: u64, width: u8) -> Result<(), NoMemory>
    ensures { IfOk result (λ _. Adds out.old.items (printed.numeral value width Sized) out.new.items) }
{
    match format!(in alloc; "{width}'h{value:x} ") {
        Ok(text) => put(out, text.as_bytes()),
        Err(_) => Err(NoMemory),
    }
}

/// A mask in binary digits behind an open one, which makes it a mask in any case and is cut off.
#[tactic(auto, using(crate::proofs::TextSteps::mask_steps))]
pub fn put_mask(
    alloc: Global,
    out: &mut Vec<u8>,
    value: u64,
    open: u64,
    width: u8,
) -> Result<(), NoMemory>
    ensures { IfOk result (λ _. Adds out.old.items (printed.mask value «open» width) out.new.items) }
{
    put_mask_base(alloc, out, width)?;
    put_mask_digits(out, value, open, width)?;
    put(out, b" ")
}

fn put_mask_base(alloc: Global, out: &mut Vec<u8>, width: u8) -> Result<(), NoMemory>
    ensures { IfOk result (λ _. out.new.items ≡ out.old.items ++ (decimal width ++ codes "'b?")) }
{
    match format!(in alloc; "{width}'b?") {
        Ok(text) => put(out, text.as_bytes()),
        Err(_) => Err(NoMemory),
    }
}

fn put_mask_digits(out: &mut Vec<u8>, value: u64, open: u64, width: u8) -> Result<(), NoMemory>
    ensures { IfOk result (λ _. out.new.items ≡ out.old.items ++ printed.mask_digits width value «open») }
{
    let mut left = width;
    while left > 0 {
        left -= 1;
        put(out, mask_digit(bit(value, left), bit(open, left)))?;
    }
    Ok(())
}

/// The bit of a word, which is 0 above its last.
#[tactic(auto, using(crate::proofs::TextSteps::bit_steps))]
fn bit(word: u64, at: u8) -> u64
    ensures { result ≡ bit_at word at }
{
    if at < 64 { word >> at & 1 } else { 0 }
}

/// The digit of a bit of a mask.
fn mask_digit(value: u64, open: u64) -> &'static [u8]
    requires { value < 2 }
    ensures { result.now ≡ printed.mask_digit value «open» ∷ [] }
{
    if open == 1 {
        b"?"
    } else if value == 1 {
        b"1"
    } else {
        b"0"
    }
}

pub fn put_line_end(out: &mut Vec<u8>) -> Result<(), NoMemory>
    ensures { IfOk result (λ _. Adds out.old.items printed.new_line out.new.items) }
{
    put(out, b"\n")
}
