//! Where a comment, a string and an attribute end.
ghost use Rattle.std.specs.Prelude.{◌≡◌, length, ◌≤◌, None, IfSome, IsTrue};
ghost use Rattle.verilog_lex.specs.declared.spans.Within.TheVariants.{Outside, Quoted};
ghost use Rattle.verilog_lex.specs.Spans.{behind_comment, within_behind, is_barred, closes, attribute_end, string_end};

use cdc_base::bytes::front;

/// Where a byte stands: outside strings, in a string, or in one behind a `\`.
#[derive(Clone, Copy, PartialEq, Eq, Debug, Drop)]
pub enum Within {
    Outside,
    Quoted,
    Escaped,
}

/// How many bytes stand up to the first `*/` and with it.
pub fn comment(text: &[u8]) -> Option<usize>
    ensures exact { result ≡ behind_comment text.now }
    ensures fits { IfSome result (λ n. n ≤ length text.now) }
{
    for i in 0..text.len() {
        if text[i..].starts_with(b"*/") {
            return Some(i + 2);
        }
    }
    None
}

/// Where the byte behind this one stands.
fn within_behind(within: Within, byte: u8) -> Within
    ensures { result ≡ within_behind within byte }
{
    match within {
        Within::Outside if byte == b'"' => Within::Quoted,
        Within::Outside => Within::Outside,
        Within::Quoted if byte == b'"' => Within::Outside,
        Within::Quoted if byte == b'\\' => Within::Escaped,
        Within::Quoted | Within::Escaped => Within::Quoted,
    }
}

/// Whether what begins the text may not stand there.
fn is_barred(within: Within, text: &[u8]) -> bool
    ensures { result ≡ is_barred within text.now }
{
    match within {
        Within::Outside => {
            front(text) == b'\\'
                || front(text) == b'`'
                || text.starts_with(b"//")
                || text.starts_with(b"/*")
        }
        Within::Quoted | Within::Escaped => front(text) == b'\n',
    }
}

/// Whether `*)` stands here outside a string.
fn closes(within: Within, text: &[u8]) -> bool
    ensures exact { result ≡ closes within text.now }
    ensures fits { IsTrue result → 2 ≤ length text.now }
{
    match within {
        Within::Outside => text.starts_with(b"*)"),
        Within::Quoted | Within::Escaped => false,
    }
}

/// How many bytes stand up to the first `*)` outside a string and with it, if an attribute may have them.
pub fn attribute(text: &[u8]) -> Option<usize>
    ensures exact { result ≡ attribute_end Outside text.now }
    ensures fits { IfSome result (λ n. n ≤ length text.now) }
{
    let mut within = Within::Outside;
    for i in 0..text.len() {
        if closes(within, &text[i..]) {
            return Some(i + 2);
        }
        if is_barred(within, &text[i..]) {
            return None;
        }
        within = within_behind(within, text[i]);
    }
    None
}

/// How many bytes stand behind a string's first `"`, up to its last one and with it.
pub fn string(text: &[u8]) -> Option<usize>
    ensures exact { result ≡ string_end Quoted text.now }
    ensures fits { IfSome result (λ n. n ≤ length text.now) }
{
    let mut within = Within::Quoted;
    for (i, byte) in text.iter().enumerate() {
        if *byte == b'\n' {
            return None;
        }
        within = within_behind(within, *byte);
        if within == Within::Outside {
            return Some(i + 1);
        }
    }
    None
}
