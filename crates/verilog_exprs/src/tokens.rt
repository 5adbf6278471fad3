//! What stands next among the tokens.
ghost use Rattle.std.specs.Prelude.{List, ◌≡◌, ◌<◌, true, false, length, IfSome, IfNone, IfOk, IfErr};
ghost use Rattle.verilog_exprs.specs.Next.{Takes, Lacks};
ghost use Rattle.verilog_lex.specs.declared.token.Token.{Token};
ghost use Rattle.verilog_reading.specs.ExprTree.{tree_of, number};
ghost use Rattle.verilog_reading.specs.Lexemes.{Spot, mark_in, word_in, ident_in, Numeral, numeral_in, end_in};

use crate::halt::{Halt, refused};
use crate::make::make_number;
use cdc_base::Name;
use verilog_ast::Expr;
use verilog_lex::{Keyword, MarkKind, Token, TokenKind};

/// What was read, and the tokens behind it.
#[derive(Drop)]
pub struct Read<'a, T> {
    pub item: T,
    pub rest: &'a [Token],
}

/// The tokens behind the mark, where it stands next.
pub fn after_mark<'a>(tokens: &'a [Token], mark: MarkKind) -> Option<&'a [Token]>
    ensures found { IfSome result (λ rest. (s : Spot) × Takes (mark_in mark) s tokens.now rest.now) }
    ensures free { IfNone result (Lacks (mark_in mark) tokens.now) }
    ensures shorter { IfSome result (λ rest. length rest.now < length tokens.now) }
{
    let (first, rest) = tokens.split_first()?;
    match first.kind {
        TokenKind::Mark(found) if found == mark => Some(rest),
        _ => None,
    }
}

/// The tokens behind the word, where it stands next.
pub fn after_word<'a>(tokens: &'a [Token], word: Keyword) -> Option<&'a [Token]>
    ensures found { IfSome result (λ rest. (s : Spot) × Takes (word_in word) s tokens.now rest.now) }
    ensures free { IfNone result (Lacks (word_in word) tokens.now) }
    ensures shorter { IfSome result (λ rest. length rest.now < length tokens.now) }
{
    let (first, rest) = tokens.split_first()?;
    match first.kind {
        TokenKind::Word(found) if found == word => Some(rest),
        _ => None,
    }
}

/// The identifier that stands next, and the tokens behind it.
pub fn after_ident(tokens: &[Token]) -> Option<(&Name, &[Token])>
    ensures found { IfSome result (λ p. (s : Spot) × Takes ident_in (record { name = p.0.now; spot = s }) tokens.now p.1.now) }
    ensures free { IfNone result (Lacks ident_in tokens.now) }
    ensures shorter { IfSome result (λ p. length p.1.now < length tokens.now) }
{
    let (first, rest) = tokens.split_first()?;
    match &first.kind {
        TokenKind::Ident(name) => Some((name, rest)),
        _ => None,
    }
}

/// The number that stands next, and the tokens behind it.
pub fn after_number(tokens: &[Token]) -> Option<(Expr, &[Token])>
    ensures found { IfSome result (λ p. (n : Numeral) × Takes numeral_in n tokens.now p.1.now × (tree_of p.0 ≡ number n.value n.width n.size)) }
    ensures free { IfNone result (Lacks numeral_in tokens.now) }
    ensures shorter { IfSome result (λ p. length p.1.now < length tokens.now) }
{
    let (first, rest) = tokens.split_first()?;
    let TokenKind::Number { value, width, size } = first.kind else {
        return None;
    };
    Some((make_number(value, width, size), rest))
}

/// Whether the tokens are at their end.
pub fn is_at_end(tokens: &[Token]) -> bool
    ensures ended { result ≡ true → (s : Spot) × (rest : List Token) × Takes end_in s tokens.now rest }
    ensures free { result ≡ false → Lacks end_in tokens.now }
{
    matches!(
        tokens.first(),
        Some(Token {
            kind: TokenKind::End,
            ..
        })
    )
}

/// The tokens behind the mark, which has to stand next.
pub fn past_mark<'a>(tokens: &'a [Token], mark: MarkKind) -> Result<&'a [Token], Halt>
    ensures found { IfOk result (λ rest. (s : Spot) × Takes (mark_in mark) s tokens.now rest.now) }
    ensures free { IfErr result (λ h. Lacks (mark_in mark) tokens.now) }
    ensures refused { IfErr result (λ h. h ≡ Halt.Refused false (length tokens.now)) }
    ensures shorter { IfOk result (λ rest. length rest.now < length tokens.now) }
{
    match after_mark(tokens, mark) {
        Some(rest) => Ok(rest),
        None => Err(refused(tokens, false)),
    }
}

/// The tokens behind the word, which has to stand next.
pub fn past_word<'a>(tokens: &'a [Token], word: Keyword) -> Result<&'a [Token], Halt>
    ensures found { IfOk result (λ rest. (s : Spot) × Takes (word_in word) s tokens.now rest.now) }
    ensures free { IfErr result (λ h. Lacks (word_in word) tokens.now) }
    ensures refused { IfErr result (λ h. h ≡ Halt.Refused false (length tokens.now)) }
    ensures shorter { IfOk result (λ rest. length rest.now < length tokens.now) }
{
    match after_word(tokens, word) {
        Some(rest) => Ok(rest),
        None => Err(refused(tokens, false)),
    }
}

/// The identifier that has to stand next, and the tokens behind it.
pub fn past_ident(tokens: &[Token]) -> Result<(&Name, &[Token]), Halt>
    ensures found { IfOk result (λ p. (s : Spot) × Takes ident_in (record { name = p.0.now; spot = s }) tokens.now p.1.now) }
    ensures free { IfErr result (λ h. Lacks ident_in tokens.now) }
    ensures refused { IfErr result (λ h. h ≡ Halt.Refused false (length tokens.now)) }
    ensures shorter { IfOk result (λ p. length p.1.now < length tokens.now) }
{
    match after_ident(tokens) {
        Some(found) => Ok(found),
        None => Err(refused(tokens, false)),
    }
}
