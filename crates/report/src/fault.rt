//! Refusals as text.
ghost use Rattle.std.specs.Prelude.{◌≡◌, ◌++◌, ◌∷◌, [], map, IfOk};
ghost use Rattle.report.specs.Faults.{message_in, message_of, digit_of, three_digits, place_of, shown, name_of, line_of};

use crate::text::Text;
use cdc_base::{Fault, List, Name, NoMemory, Place};
use std::alloc::Global;

/// What each number of a refusal means, by number.
const MESSAGES: [(u16, &str); 55] = [
    (1, "cannot read"),
    (101, "no token begins here"),
    (102, "unfinished comment or attribute"),
    (103, "bad number"),
    (104, "directive left out"),
    (105, "reserved word left out"),
    (201, "no reading"),
    (202, "nested too deep"),
    (301, "no top module"),
    (302, "unknown module"),
    (303, "module inside itself"),
    (304, "name declared twice"),
    (305, "unknown name"),
    (306, "port or parameter mismatch"),
    (307, "constant out of range"),
    (308, "width not 1 to 64"),
    (309, "two drivers"),
    (310, "undriven bit is read"),
    (311, "latch"),
    (312, "combinational loop"),
    (313, "wrong kind of assignment"),
    (314, "index out of range"),
    (315, "index may miss"),
    (316, "clock form"),
    (317, "reset form"),
    (319, "memory"),
    (401, "not TOML"),
    (402, "wrong key"),
    (403, "no such input or reset"),
    (404, "name declared twice"),
    (405, "input not declared"),
    (406, "no declared clock pin"),
    (407, "clock is not one bit"),
    (408, "reset is not one bit"),
    (409, "no such clock"),
    (410, "finding waived twice"),
    (411, "waiver meets no finding"),
    (412, "SDC command left out"),
    (413, "SDC words not read"),
    (501, "not JSON"),
    (502, "wrong shape"),
    (503, "unknown name"),
    (504, "bit is not loose"),
    (505, "same value"),
    (506, "no clock ticks"),
    (507, "clock does not tick"),
    (508, "value too wide"),
    (509, "start value differs"),
    (510, "not a certificate"),
    (600, "file over 256 MiB"),
    (601, "too many signals"),
    (602, "too many cells"),
    (603, "too many crossings"),
    (604, "too many steps"),
    (605, "too many state bits"),
];

/// The message of a number in a table; empty where the table hasn't the number.
fn find_message<'a>(table: &[(u16, &'a str)], number: u16) -> &'a str
    ensures { result.now ≡ message_in (map (λ row. (row.0, row.1.now)) table.now) number }
{
    for (known, message) in table {
        if *known == number {
            return message;
        }
    }
    ""
}

fn message(number: u16) -> &'static str
    ensures { result.now ≡ message_of number }
{
    find_message(&MESSAGES, number)
}

/// The last digit of the number.
fn digit(number: u16) -> u8
    ensures { result ≡ digit_of number }
{
    b'0' + (number % 10) as u8
}

fn add_number(text: &mut Text, number: u16) -> Result<(), NoMemory>
    ensures { IfOk result (λ _. text.new ≡ text.old ++ three_digits number) }
{
    text.add_bytes(&[digit(number / 100), digit(number / 10), digit(number)])
}

fn add_place(text: &mut Text, place: &Option<Place>) -> Result<(), NoMemory>
    ensures { IfOk result (λ _. text.new ≡ text.old ++ place_of place.now) }
{
    if let Some(place) = place {
        text.add(" at ")?;
        text.add_number(u64::from(place.line))?;
        text.add(":")?;
        text.add_number(u64::from(place.column))?;
    }
    Ok(())
}

fn add_shown(text: &mut Text, name: &[u8]) -> Result<(), NoMemory>
    ensures { IfOk result (λ _. text.new ≡ text.old ++ map shown name.now) }
{
    for byte in name {
        text.add_byte(if *byte < b' ' { b'?' } else { *byte })?;
    }
    Ok(())
}

fn add_name(text: &mut Text, name: &Name) -> Result<(), NoMemory>
    ensures { IfOk result (λ _. text.new ≡ text.old ++ name_of name.now) }
{
    let name = name.as_bytes();
    if name.is_empty() {
        return Ok(());
    }
    text.add(": ")?;
    add_shown(text, name)
}

/// The one line of a refusal: its number, its message, and the place and the name where it has them. A byte of the name
/// that no terminal prints is shown as `?`.
pub fn fault_text(alloc: Global, fault: &Fault) -> Result<List<u8>, NoMemory>
    ensures { IfOk result (λ line. line ≡ line_of fault.now) }
{
    let mut text = Text::new(alloc);
    text.add("error E")?;
    add_number(&mut text, fault.number)?;
    text.add(": ")?;
    text.add(message(fault.number))?;
    add_place(&mut text, &fault.place)?;
    add_name(&mut text, &fault.name)?;
    text.add("\n")?;
    Ok(text.into_list())
}
