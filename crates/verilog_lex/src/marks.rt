//! The marks of the profile.
ghost use Rattle.std.specs.Prelude.{◌≡◌};
ghost use Rattle.verilog_lex.specs.Marks.{mark_of};

use cdc_base::words::find_in;

/// A mark, named by its signs.
#[derive(Clone, Copy, PartialEq, Eq, Debug, Drop)]
pub enum MarkKind {
    ParenOpen,
    ParenClose,
    BracketOpen,
    BracketClose,
    BraceOpen,
    BraceClose,
    Comma,
    Semicolon,
    Colon,
    Dot,
    Hash,
    At,
    Question,
    Equals,
    LessEqual,
    Plus,
    Minus,
    Star,
    Slash,
    Percent,
    Bang,
    Tilde,
    Ampersand,
    Bar,
    Caret,
    TildeAmpersand,
    TildeBar,
    TildeCaret,
    CaretTilde,
    ShiftLeft,
    ShiftRight,
    Less,
    Greater,
    GreaterEqual,
    EqualEqual,
    BangEqual,
    AmpersandAmpersand,
    BarBar,
    LessLessLess,
    AmpersandAmpersandAmpersand,
    PlusColon,
    MinusColon,
}

const MARKS: [(&str, MarkKind); 42] = [
    ("(", MarkKind::ParenOpen),
    (")", MarkKind::ParenClose),
    ("[", MarkKind::BracketOpen),
    ("]", MarkKind::BracketClose),
    ("{", MarkKind::BraceOpen),
    ("}", MarkKind::BraceClose),
    (",", MarkKind::Comma),
    (";", MarkKind::Semicolon),
    (":", MarkKind::Colon),
    (".", MarkKind::Dot),
    ("#", MarkKind::Hash),
    ("@", MarkKind::At),
    ("?", MarkKind::Question),
    ("=", MarkKind::Equals),
    ("<=", MarkKind::LessEqual),
    ("+", MarkKind::Plus),
    ("-", MarkKind::Minus),
    ("*", MarkKind::Star),
    ("/", MarkKind::Slash),
    ("%", MarkKind::Percent),
    ("!", MarkKind::Bang),
    ("~", MarkKind::Tilde),
    ("&", MarkKind::Ampersand),
    ("|", MarkKind::Bar),
    ("^", MarkKind::Caret),
    ("~&", MarkKind::TildeAmpersand),
    ("~|", MarkKind::TildeBar),
    ("~^", MarkKind::TildeCaret),
    ("^~", MarkKind::CaretTilde),
    ("<<", MarkKind::ShiftLeft),
    (">>", MarkKind::ShiftRight),
    ("<", MarkKind::Less),
    (">", MarkKind::Greater),
    (">=", MarkKind::GreaterEqual),
    ("==", MarkKind::EqualEqual),
    ("!=", MarkKind::BangEqual),
    ("&&", MarkKind::AmpersandAmpersand),
    ("||", MarkKind::BarBar),
    ("<<<", MarkKind::LessLessLess),
    ("&&&", MarkKind::AmpersandAmpersandAmpersand),
    ("+:", MarkKind::PlusColon),
    ("-:", MarkKind::MinusColon),
];

/// The mark with these bytes.
#[tactic(auto, unfolding(crate::specs::Marks::mark_of))]
pub fn named_mark(text: &[u8]) -> Option<MarkKind>
    ensures { result ≡ mark_of text.now }
{
    find_in(&MARKS, text)
}
