//! What stands behind the word of a directive on its line.
ghost use Rattle.std.specs.Prelude.{◌≡◌, ◌≤◌, length, IfSome};
ghost use Rattle.std.specs.List.{prefix_len};
ghost use Rattle.std.specs.Char.{is_ascii_digit, is_ascii_lowercase};
ghost use Rattle.verilog_lex.specs.declared.lines.Part.TheVariants as part;
ghost use Rattle.verilog_lex.specs.Lines.{directive_of, some_bytes, part_length, is_line_end, has_parts, is_form_of};

use crate::spans::string;
use cdc_base::bytes::{Class, front, run};
use cdc_base::words::find_in;

/// The directives, by what stands behind their words.
#[derive(Clone, Copy, Debug, Drop)]
pub enum Directive {
    Alone,
    NetType,
    TimeScale,
    Line,
}

/// What may stand behind a directive's word.
#[derive(Clone, Copy, Debug, Drop)]
pub enum Part {
    /// White space or nothing.
    Gap,
    /// White space.
    Space,
    Digits,
    /// Lower-case letters.
    Letters,
    Slash,
    /// `wire` or `none`.
    WireOrNone,
    /// A string.
    Text,
}

const DIRECTIVES: [(&str, Directive); 6] = [
    ("celldefine", Directive::Alone),
    ("endcelldefine", Directive::Alone),
    ("resetall", Directive::Alone),
    ("default_nettype", Directive::NetType),
    ("timescale", Directive::TimeScale),
    ("line", Directive::Line),
];

const NET_TYPE: [Part; 2] = [Part::Space, Part::WireOrNone];

const TIME_SCALE: [Part; 10] = [
    Part::Gap,
    Part::Digits,
    Part::Gap,
    Part::Letters,
    Part::Gap,
    Part::Slash,
    Part::Gap,
    Part::Digits,
    Part::Gap,
    Part::Letters,
];

const LINE: [Part; 6] = [
    Part::Space,
    Part::Digits,
    Part::Space,
    Part::Text,
    Part::Space,
    Part::Digits,
];

/// The directive with this word.
#[tactic(auto, unfolding(crate::specs::Lines::directive_of))]
pub fn named_directive(word: &[u8]) -> Option<Directive>
    ensures { result ≡ directive_of word.now }
{
    find_in(&DIRECTIVES, word)
}

/// How many digits the line begins with.
fn digits(line: &[u8]) -> usize
    ensures longest { result ≡ prefix_len is_ascii_digit line.now }
    ensures fits { result ≤ length line.now }
{
    let mut count = 0;
    for byte in line {
        if !byte.is_ascii_digit() {
            return count;
        }
        count += 1;
    }
    count
}

/// How many lower-case letters the line begins with.
fn letters(line: &[u8]) -> usize
    ensures longest { result ≡ prefix_len is_ascii_lowercase line.now }
    ensures fits { result ≤ length line.now }
{
    let mut count = 0;
    for byte in line {
        if !byte.is_ascii_lowercase() {
            return count;
        }
        count += 1;
    }
    count
}

/// The number, if it isn't 0.
fn some_bytes(count: usize) -> Option<usize>
    ensures { result ≡ some_bytes count }
{
    if count == 0 { None } else { Some(count) }
}

/// How many bytes of a string stand at the front of the line.
fn text_length(line: &[u8]) -> Option<usize>
    ensures exact { result ≡ part_length part.Text line.now }
    ensures fits { IfSome result (λ n. n ≤ length line.now) }
{
    if front(line) != b'"' {
        return None;
    }
    Some(string(&line[1..])? + 1)
}

/// How many bytes at the front of the line are this part.
fn part_length(part: Part, line: &[u8]) -> Option<usize>
    ensures exact { result ≡ part_length part line.now }
    ensures fits { IfSome result (λ n. n ≤ length line.now) }
{
    match part {
        Part::Gap => Some(run(Class::Blank, line)),
        Part::Space => some_bytes(run(Class::Blank, line)),
        Part::Digits => some_bytes(digits(line)),
        Part::Letters => some_bytes(letters(line)),
        Part::Slash if front(line) == b'/' => Some(1),
        Part::WireOrNone if line.starts_with(b"wire") || line.starts_with(b"none") => Some(4),
        Part::Text => text_length(line),
        Part::Slash | Part::WireOrNone => None,
    }
}

/// Whether white space stands there, and nothing or a `//` comment behind it.
fn is_line_end(line: &[u8]) -> bool
    ensures { result ≡ is_line_end line.now }
{
    let rest = &line[run(Class::Blank, line)..];
    rest.is_empty() || rest.starts_with(b"//")
}

/// Whether the line has the parts, one behind the other, and then its end.
fn has_parts(parts: &[Part], line: &[u8]) -> bool
    ensures { result ≡ has_parts parts.now line.now }
{
    let mut rest = line;
    for part in parts {
        let Some(length) = part_length(*part, rest) else {
            return false;
        };
        rest = &rest[length..];
    }
    is_line_end(rest)
}

/// Whether the line is right behind the word.
pub fn is_form_of(directive: Option<Directive>, line: &[u8]) -> bool
    ensures { result ≡ is_form_of directive line.now }
{
    match directive {
        Some(Directive::Alone) => is_line_end(line),
        Some(Directive::NetType) => has_parts(&NET_TYPE, line),
        Some(Directive::TimeScale) => has_parts(&TIME_SCALE, line),
        Some(Directive::Line) => has_parts(&LINE, line),
        None => false,
    }
}
