//! How words and marks are written.
ghost use Rattle.std.specs.Prelude.{◌≡◌};
ghost use Rattle.verilog_parse.specs.Pieces as pieces;
ghost use Rattle.verilog_reading.specs.Parts as parts;
ghost use Rattle.verilog_parse.specs.Printed.{spelled_word, spelled_mark};

use verilog_ast::{BinaryOp, PartKind, UnaryOp};
use verilog_lex::{Keyword, MarkKind};

pub fn word_text(word: Keyword) -> &'static [u8]
    ensures { result.now ≡ spelled_word word }
{
    match word {
        Keyword::Always => b"always",
        Keyword::And => b"and",
        Keyword::Assign => b"assign",
        Keyword::Begin => b"begin",
        Keyword::Buf => b"buf",
        Keyword::Case => b"case",
        Keyword::CaseZ => b"casez",
        Keyword::Default => b"default",
        Keyword::Else => b"else",
        Keyword::End => b"end",
        Keyword::EndCase => b"endcase",
        Keyword::EndModule => b"endmodule",
        Keyword::If => b"if",
        Keyword::Initial => b"initial",
        Keyword::Input => b"input",
        Keyword::LocalParam => b"localparam",
        Keyword::Module => b"module",
        Keyword::Nand => b"nand",
        Keyword::NegEdge => b"negedge",
        Keyword::Nor => b"nor",
        Keyword::Not => b"not",
        Keyword::Or => b"or",
        Keyword::Output => b"output",
        Keyword::Parameter => b"parameter",
        Keyword::PosEdge => b"posedge",
        Keyword::Reg => b"reg",
        Keyword::Wire => b"wire",
        Keyword::Xnor => b"xnor",
        Keyword::Xor => b"xor",
    }
}

pub fn mark_text(mark: MarkKind) -> &'static [u8]
    ensures { result.now ≡ spelled_mark mark }
{
    match mark {
        MarkKind::ParenOpen => b"(",
        MarkKind::ParenClose => b")",
        MarkKind::BracketOpen => b"[",
        MarkKind::BracketClose => b"]",
        MarkKind::BraceOpen => b"{",
        MarkKind::BraceClose => b"}",
        MarkKind::Comma => b",",
        MarkKind::Semicolon => b";",
        MarkKind::Colon => b":",
        MarkKind::Dot => b".",
        MarkKind::Hash => b"#",
        MarkKind::At => b"@",
        MarkKind::Question => b"?",
        MarkKind::Equals => b"=",
        MarkKind::LessEqual => b"<=",
        MarkKind::Plus => b"+",
        MarkKind::Minus => b"-",
        MarkKind::Star => b"*",
        MarkKind::Slash => b"/",
        MarkKind::Percent => b"%",
        MarkKind::Bang => b"!",
        MarkKind::Tilde => b"~",
        MarkKind::Ampersand => b"&",
        MarkKind::Bar => b"|",
        MarkKind::Caret => b"^",
        MarkKind::TildeAmpersand => b"~&",
        MarkKind::TildeBar => b"~|",
        MarkKind::TildeCaret => b"~^",
        MarkKind::CaretTilde => b"^~",
        MarkKind::ShiftLeft => b"<<",
        MarkKind::ShiftRight => b">>",
        MarkKind::Less => b"<",
        MarkKind::Greater => b">",
        MarkKind::GreaterEqual => b">=",
        MarkKind::EqualEqual => b"==",
        MarkKind::BangEqual => b"!=",
        MarkKind::AmpersandAmpersand => b"&&",
        MarkKind::BarBar => b"||",
        MarkKind::LessLessLess => b"<<<",
        MarkKind::AmpersandAmpersandAmpersand => b"&&&",
        MarkKind::PlusColon => b"+:",
        MarkKind::MinusColon => b"-:",
    }
}

/// The mark of the operator.
pub fn unary_mark(op: UnaryOp) -> MarkKind
    ensures { result ≡ pieces.unary_mark op }
{
    match op {
        UnaryOp::Minus => MarkKind::Minus,
        UnaryOp::Not => MarkKind::Tilde,
        UnaryOp::LogicNot => MarkKind::Bang,
        UnaryOp::And => MarkKind::Ampersand,
        UnaryOp::Or => MarkKind::Bar,
        UnaryOp::Xor => MarkKind::Caret,
        UnaryOp::Nand => MarkKind::TildeAmpersand,
        UnaryOp::Nor => MarkKind::TildeBar,
        UnaryOp::Xnor => MarkKind::TildeCaret,
    }
}

/// The mark between the ends of a part.
pub fn part_mark(kind: PartKind) -> MarkKind
    ensures { result ≡ parts.part_mark kind }
{
    match kind {
        PartKind::Range => MarkKind::Colon,
        PartKind::Up => MarkKind::PlusColon,
        PartKind::Down => MarkKind::MinusColon,
    }
}

/// The mark of the operator.
pub fn binary_mark(op: BinaryOp) -> MarkKind
    ensures { result ≡ pieces.binary_mark op }
{
    match op {
        BinaryOp::Mul => MarkKind::Star,
        BinaryOp::Div => MarkKind::Slash,
        BinaryOp::Mod => MarkKind::Percent,
        BinaryOp::Add => MarkKind::Plus,
        BinaryOp::Sub => MarkKind::Minus,
        BinaryOp::Shl => MarkKind::ShiftLeft,
        BinaryOp::Shr => MarkKind::ShiftRight,
        BinaryOp::Lt => MarkKind::Less,
        BinaryOp::Le => MarkKind::LessEqual,
        BinaryOp::Gt => MarkKind::Greater,
        BinaryOp::Ge => MarkKind::GreaterEqual,
        BinaryOp::Eq => MarkKind::EqualEqual,
        BinaryOp::Ne => MarkKind::BangEqual,
        BinaryOp::And => MarkKind::Ampersand,
        BinaryOp::Xor => MarkKind::Caret,
        BinaryOp::Xnor => MarkKind::TildeCaret,
        BinaryOp::Or => MarkKind::Bar,
        BinaryOp::LogicAnd => MarkKind::AmpersandAmpersand,
        BinaryOp::LogicOr => MarkKind::BarBar,
    }
}
