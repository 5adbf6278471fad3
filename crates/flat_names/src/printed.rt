//! Printed names: parts joined by dots, where a part that isn't a simple identifier is escaped.
ghost use Rattle.std.specs.Prelude.{◌≡◌, ◌++◌, IfOk, string_bytes};
ghost use Rattle.flat_unfolding.specs.Names.{printed_part, word_name as name_of_word};

use cdc_base::NoMemory;
use cdc_base::words::is_simple;
use flat_form::memory::append;
use std::alloc::Global;

/// Appends a part of a name: a simple identifier as it stands, any other as a backslash, its bytes and one space.
pub fn append_part(text: &mut String, part: &str) -> Result<(), NoMemory>
    ensures { IfOk result (λ _. string_bytes text.new ≡ string_bytes text.old ++ printed_part part.now) }
{
    if is_simple(part.as_bytes()) {
        append(text, part)
    } else {
        append(text, "\\")?;
        append(text, part)?;
        append(text, " ")
    }
}

/// The printed name of a signal. `prefix` has the printed instance names from the top, each with its dot.
pub fn printed(alloc: Global, prefix: &str, own: &str) -> Result<String, NoMemory>
    ensures { IfOk result (λ text. string_bytes text ≡ prefix.now ++ printed_part own.now) }
{
    let mut text = String::new(alloc);
    append(&mut text, prefix)?;
    append_part(&mut text, own)?;
    Ok(text)
}

/// The name of a word of a memory.
pub fn word_name(alloc: Global, memory: &str, index: u32) -> Result<String, NoMemory>
    ensures { IfOk result (λ text. string_bytes text ≡ name_of_word memory.now index) }
{
    match format!(in alloc; "{memory}[{index}]") {
        Ok(text) => Ok(text),
        Err(_) => Err(NoMemory),
    }
}
