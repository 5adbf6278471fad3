//! Statements. `left` counts the levels that are left below the first of the statement.
ghost use Rattle.std.specs.Prelude.{List, ◌≡◌, ◌≤◌, ◌<◌, true, false, map, length, Option, IfOk, IfErr, IfSome, IfNone};
ghost use Rattle.cdc_base.specs.declared.words.Keyword.TheVariants.{Else, EndCase, End};
ghost use Rattle.verilog_exprs.specs.Halts.{HaltsAs};
ghost use Rattle.verilog_exprs.specs.Next.{Takes, Lacks};
ghost use Rattle.verilog_lex.specs.declared.token.Token.{Token};
ghost use Rattle.verilog_reading.specs.ExprTree.{tree_of};
ghost use Rattle.verilog_reading.specs.Lexemes.{Spot, word_in};
ghost use Rattle.verilog_reading.specs.Lists.{many};
ghost use Rattle.verilog_reading.specs.Outcome.{done};
ghost use Rattle.verilog_reading.specs.StmtReader as reader;
ghost use Rattle.verilog_reading.specs.StmtReader.{read_stmt as stmt_reader, Lower, lower, in_set, start_in, case_in, arm, in_default, default_body, first_item, in_block, block_rows};
ghost use Rattle.verilog_reading.specs.StmtTree.{Subject as SubjectTree, ArmTree, stmt_tree_of, takes_else};
ghost use Rattle.verilog_stmts.specs.Forms.{condition_at, if_at, case_at, compound_at, subject_tree, arm_tree_of, ArmsBehind};
ghost use Rattle.verilog_stmts.specs.Levels.{lower_in};

use crate::assignment::past_assignment;
use crate::label::read_labels;
use crate::make::{
    Subject, make_arm, make_block, make_either, make_null, make_set, make_switch, make_switch_else,
    make_when,
};
use crate::target::{read_target, starts_target};
use cdc_base::List;
use std::alloc::Global;
use verilog_ast::{CaseItem, Expr, Stmt};
use verilog_exprs::expr::read_expr;
use verilog_exprs::halt::{Halt, deeper, refused};
use verilog_exprs::tokens::{Read, after_mark, after_word, past_ident, past_mark, past_word};
use verilog_lex::{Keyword, MarkKind, Token, TokenKind};

/// Whether a statement begins with the next token.
fn starts_stmt(tokens: &[Token]) -> bool
    ensures starts { result ≡ true → (rest : List Token) × Takes start_in tt tokens.now rest }
    ensures free { result ≡ false → Lacks start_in tokens.now }
{
    after_mark(tokens, MarkKind::Semicolon).is_some()
        || after_word(tokens, Keyword::If).is_some()
        || after_case(tokens).is_some()
        || after_word(tokens, Keyword::Begin).is_some()
        || starts_target(tokens)
}

fn masks_of(word: Keyword) -> Option<bool>
    ensures { result ≡ reader.masks_of word }
{
    match word {
        Keyword::Case => Some(false),
        Keyword::CaseZ => Some(true),
        _ => None,
    }
}

/// Whether masks may be among the labels of the `case` or `casez` that stands next, and the tokens behind its word.
fn after_case(tokens: &[Token]) -> Option<(bool, &[Token])>
    ensures found { IfSome result (λ p. (s : Spot) × Takes case_in (record { masks = p.0; spot = s }) tokens.now p.1.now) }
    ensures free { IfNone result (Lacks case_in tokens.now) }
    ensures shorter { IfSome result (λ p. length p.1.now < length tokens.now) }
{
    let (first, rest) = tokens.split_first()?;
    let TokenKind::Word(word) = first.kind else {
        return None;
    };
    match masks_of(word) {
        Some(masks) => Some((masks, rest)),
        None => None,
    }
}

/// `stmt`
#[tactic(auto, using(crate::proofs::StmtSteps::stmt_steps))]
#[cycle(stmt)]
pub fn read_stmt<'a>(alloc: Global, tokens: &'a [Token], left: u32) -> Result<Read<'a, Stmt>, Halt>
    ensures read { IfOk result (λ r. stmt_reader left tokens.now ≡ done (stmt_tree_of r.item) r.rest.now) }
    ensures halts { IfErr result (λ h. HaltsAs (stmt_reader left tokens.now) h) }
    ensures nearest { IfOk result (λ r. takes_else (stmt_tree_of r.item) ≡ true → Lacks (word_in Else) r.rest.now) }
    ensures shorter { IfOk result (λ r. length r.rest.now < length tokens.now) }
{
    if let Some(rest) = after_mark(tokens, MarkKind::Semicolon) {
        return Ok(Read {
            item: make_null(),
            rest,
        });
    }
    if starts_target(tokens) {
        let below = deeper(left, 0, tokens)?;
        return read_set(alloc, tokens, below);
    }
    read_compound(alloc, tokens, left)
}

/// `if`, `case`, `casez` or `begin`, and what stands behind it.
#[tactic(auto, using(crate::proofs::StmtSteps::compound_steps))]
#[cycle(stmt)]
fn read_compound<'a>(alloc: Global, tokens: &'a [Token], left: u32) -> Result<Read<'a, Stmt>, Halt>
    ensures read { IfOk result (λ r. compound_at (lower_in left) tokens.now ≡ done (stmt_tree_of r.item) r.rest.now) }
    ensures halts { IfErr result (λ h. HaltsAs (compound_at (lower_in left) tokens.now) h) }
    ensures nearest { IfOk result (λ r. takes_else (stmt_tree_of r.item) ≡ true → Lacks (word_in Else) r.rest.now) }
    ensures shorter { IfOk result (λ r. length r.rest.now < length tokens.now) }
{
    if let Some(inner) = after_word(tokens, Keyword::If) {
        let below = deeper(left, 0, tokens)?;
        return read_if(alloc, inner, below);
    }
    if let Some((masks, inner)) = after_case(tokens) {
        let below = deeper(left, 0, tokens)?;
        return read_case(alloc, masks, inner, below);
    }
    let inner = past_word(tokens, Keyword::Begin)?;
    read_block(alloc, inner, left)
}

/// An assignment, whose target and value have `left` levels below their first.
#[tactic(auto, using(crate::proofs::StmtSteps::set_steps))]
fn read_set<'a>(alloc: Global, tokens: &'a [Token], left: u32) -> Result<Read<'a, Stmt>, Halt>
    ensures read { IfOk result (λ r. in_set (lower left) tokens.now ≡ done (stmt_tree_of r.item) r.rest.now) }
    ensures halts { IfErr result (λ h. HaltsAs (in_set (lower left) tokens.now) h) }
    ensures nearest { IfOk result (λ r. takes_else (stmt_tree_of r.item) ≡ true → Lacks (word_in Else) r.rest.now) }
    ensures shorter { IfOk result (λ r. length r.rest.now < length tokens.now) }
{
    let target = read_target(alloc, tokens, left)?;
    let assigned = past_assignment(alloc, target.rest)?;
    let value = read_expr(alloc, assigned.rest, left)?;
    let rest = past_mark(value.rest, MarkKind::Semicolon)?;
    Ok(Read {
        item: make_set(assigned.blocking, assigned.delay, target.item, value.expr),
        rest,
    })
}

/// An expression in parentheses that belong to the statement around it.
#[tactic(auto, using(crate::proofs::StmtSteps::condition_steps))]
fn read_condition<'a>(alloc: Global, tokens: &'a [Token], left: u32) -> Result<Read<'a, Expr>, Halt>
    ensures read { IfOk result (λ r. condition_at (lower left) tokens.now ≡ done (tree_of r.item) r.rest.now) }
    ensures halts { IfErr result (λ h. HaltsAs (condition_at (lower left) tokens.now) h) }
    ensures shorter { IfOk result (λ r. length r.rest.now < length tokens.now) }
{
    let inner = past_mark(tokens, MarkKind::ParenOpen)?;
    let cond = read_expr(alloc, inner, left)?;
    let rest = past_mark(cond.rest, MarkKind::ParenClose)?;
    Ok(Read {
        item: cond.expr,
        rest,
    })
}

/// What stands behind `if`. An `else` belongs to the nearest `if` that has none.
#[tactic(auto, using(crate::proofs::StmtSteps::if_steps))]
#[cycle(stmt)]
fn read_if<'a>(alloc: Global, tokens: &'a [Token], left: u32) -> Result<Read<'a, Stmt>, Halt>
    ensures read { IfOk result (λ r. if_at (lower left) tokens.now ≡ done (stmt_tree_of r.item) r.rest.now) }
    ensures halts { IfErr result (λ h. HaltsAs (if_at (lower left) tokens.now) h) }
    ensures nearest { IfOk result (λ r. takes_else (stmt_tree_of r.item) ≡ true → Lacks (word_in Else) r.rest.now) }
    ensures shorter { IfOk result (λ r. length r.rest.now < length tokens.now) }
{
    let cond = read_condition(alloc, tokens, left)?;
    let yes = read_stmt(alloc, cond.rest, left)?;
    let Some(inner) = after_word(yes.rest, Keyword::Else) else {
        return Ok(Read {
            item: make_when(alloc, cond.item, yes.item)?,
            rest: yes.rest,
        });
    };
    let other = read_stmt(alloc, inner, left)?;
    Ok(Read {
        item: make_either(alloc, cond.item, yes.item, other.item)?,
        rest: other.rest,
    })
}

/// What stands behind `case` or `casez`.
#[tactic(auto, using(crate::proofs::StmtSteps::case_steps))]
#[cycle(stmt)]
fn read_case<'a>(
    alloc: Global,
    masks: bool,
    tokens: &'a [Token],
    left: u32,
) -> Result<Read<'a, Stmt>, Halt>
    ensures read { IfOk result (λ r. case_at (lower left) masks tokens.now ≡ done (stmt_tree_of r.item) r.rest.now) }
    ensures halts { IfErr result (λ h. HaltsAs (case_at (lower left) masks tokens.now) h) }
    ensures nearest { IfOk result (λ r. takes_else (stmt_tree_of r.item) ≡ true → Lacks (word_in Else) r.rest.now) }
    ensures shorter { IfOk result (λ r. length r.rest.now < length tokens.now) }
{
    let compared = read_condition(alloc, tokens, left)?;
    let subject = Subject {
        masks,
        value: compared.item,
    };
    match after_word(compared.rest, Keyword::Default) {
        Some(inner) => read_default(alloc, subject, List::new(alloc), inner, left),
        None => read_items(alloc, subject, compared.rest, left),
    }
}

/// One item of a `case` or more, up to its end.
#[tactic(auto, using(crate::proofs::StmtSteps::items_steps))]
#[cycle(stmt)]
fn read_items<'a>(
    alloc: Global,
    subject: Subject,
    tokens: &'a [Token],
    left: u32,
) -> Result<Read<'a, Stmt>, Halt>
    ensures read { IfOk result (λ r. first_item (lower left) (subject_tree subject) tokens.now ≡ done (stmt_tree_of r.item) r.rest.now) }
    ensures halts { IfErr result (λ h. HaltsAs (first_item (lower left) (subject_tree subject) tokens.now) h) }
    ensures nearest { IfOk result (λ r. takes_else (stmt_tree_of r.item) ≡ true → Lacks (word_in Else) r.rest.now) }
    ensures shorter { IfOk result (λ r. length r.rest.now < length tokens.now) }
{
    let masks = subject.masks;
    let first = read_arm(alloc, masks, tokens, left)?;
    let mut items = List::new(alloc);
    items.push(first.item)?;
    let mut rest = first.rest;
    'items: loop {
        if let Some(after) = after_word(rest, Keyword::EndCase) {
            return Ok(Read {
                item: make_switch(subject, items),
                rest: after,
            });
        }
        if let Some(after) = after_word(rest, Keyword::Default) {
            return read_default(alloc, subject, items, after, left);
        }
        let next = read_arm(alloc, masks, rest, left)?;
        items.push(next.item)?;
        rest = next.rest;
    }
}

/// What stands behind `default`, up to the end of the `case`, whose items before it these are.
#[tactic(auto, using(crate::proofs::StmtSteps::default_steps))]
#[cycle(stmt)]
fn read_default<'a>(
    alloc: Global,
    subject: Subject,
    items: List<CaseItem>,
    tokens: &'a [Token],
    left: u32,
) -> Result<Read<'a, Stmt>, Halt>
    ensures read { IfOk result (λ r. in_default (lower left) (subject_tree subject) (map arm_tree_of items) tokens.now ≡ done (stmt_tree_of r.item) r.rest.now) }
    ensures halts { IfErr result (λ h. HaltsAs (in_default (lower left) (subject_tree subject) (map arm_tree_of items) tokens.now) h) }
    ensures nearest { IfOk result (λ r. takes_else (stmt_tree_of r.item) ≡ true → Lacks (word_in Else) r.rest.now) }
    ensures shorter { IfOk result (λ r. length r.rest.now < length tokens.now) }
{
    let body = read_stmt(alloc, without_colon(tokens), left)?;
    let all = read_last_items(alloc, subject.masks, items, body.rest, left)?;
    Ok(Read {
        item: make_switch_else(alloc, subject, all.item, body.item)?,
        rest: all.rest,
    })
}

/// The tokens behind a colon, or all of them where none stands next.
#[tactic(auto, using(crate::proofs::StmtSteps::colon_steps))]
fn without_colon(tokens: &[Token]) -> &[Token]
    ensures found { (l : Lower) (c : SubjectTree) (b : List ArmTree) → in_default l c b tokens.now ≡ default_body l c b result.now }
    ensures shorter { length result.now ≤ length tokens.now }
{
    match after_mark(tokens, MarkKind::Colon) {
        Some(rest) => rest,
        None => tokens,
    }
}

/// The items of a `case` that stand behind its `default`, and its end.
#[tactic(auto, using(crate::proofs::StmtSteps::last_items_steps))]
#[cycle(stmt)]
fn read_last_items<'a>(
    alloc: Global,
    masks: bool,
    before: List<CaseItem>,
    tokens: &'a [Token],
    left: u32,
) -> Result<Read<'a, List<CaseItem>>, Halt>
    ensures read { IfOk result (λ r. ArmsBehind (lower left) masks tokens.now (map arm_tree_of before) (map arm_tree_of r.item) r.rest.now) }
    ensures halts { IfErr result (λ h. HaltsAs (many (word_in EndCase) (arm (lower left) masks) tokens.now) h) }
    ensures shorter { IfOk result (λ r. length r.rest.now < length tokens.now) }
{
    let mut items = before;
    let mut rest = tokens;
    'items: loop {
        if let Some(after) = after_word(rest, Keyword::EndCase) {
            return Ok(Read {
                item: items,
                rest: after,
            });
        }
        let next = read_arm(alloc, masks, rest, left)?;
        items.push(next.item)?;
        rest = next.rest;
    }
}

/// Labels, and the statement that they lead to.
#[tactic(auto, using(crate::proofs::StmtSteps::arm_steps))]
#[cycle(stmt)]
fn read_arm<'a>(
    alloc: Global,
    masks: bool,
    tokens: &'a [Token],
    left: u32,
) -> Result<Read<'a, CaseItem>, Halt>
    ensures read { IfOk result (λ r. arm (lower left) masks tokens.now ≡ done (arm_tree_of r.item) r.rest.now) }
    ensures halts { IfErr result (λ h. HaltsAs (arm (lower left) masks tokens.now) h) }
    ensures shorter { IfOk result (λ r. length r.rest.now < length tokens.now) }
{
    let labels = read_labels(alloc, masks, tokens, left)?;
    let inner = past_mark(labels.rest, MarkKind::Colon)?;
    let body = read_stmt(alloc, inner, left)?;
    Ok(Read {
        item: make_arm(labels.item, body.item),
        rest: body.rest,
    })
}

/// What stands behind `begin`. An empty block has no level below its first.
#[tactic(auto, using(crate::proofs::StmtSteps::block_steps))]
#[cycle(stmt)]
fn read_block<'a>(alloc: Global, tokens: &'a [Token], left: u32) -> Result<Read<'a, Stmt>, Halt>
    ensures read { IfOk result (λ r. in_block (lower_in left) tokens.now ≡ done (stmt_tree_of r.item) r.rest.now) }
    ensures halts { IfErr result (λ h. HaltsAs (in_block (lower_in left) tokens.now) h) }
    ensures nearest { IfOk result (λ r. takes_else (stmt_tree_of r.item) ≡ true → Lacks (word_in Else) r.rest.now) }
    ensures shorter { IfOk result (λ r. length r.rest.now < length tokens.now) }
{
    let inner = without_label(tokens)?;
    if left == 0 {
        return read_empty_block(alloc, inner);
    }
    let body = read_stmts(alloc, inner, left - 1)?;
    Ok(Read {
        item: make_block(body.item),
        rest: body.rest,
    })
}

/// The tokens behind a colon and the block's name, or all of them where no colon stands next.
#[tactic(auto, using(crate::proofs::StmtSteps::label_steps))]
fn without_label(tokens: &[Token]) -> Result<&[Token], Halt>
    ensures found { IfOk result (λ rest. (down : Option Lower) → in_block down tokens.now ≡ block_rows down rest.now) }
    ensures halts { IfErr result (λ h. (down : Option Lower) → HaltsAs (in_block down tokens.now) h) }
    ensures shorter { IfOk result (λ rest. length rest.now ≤ length tokens.now) }
{
    let Some(inner) = after_mark(tokens, MarkKind::Colon) else {
        return Ok(tokens);
    };
    let (_, rest) = past_ident(inner)?;
    Ok(rest)
}

/// The end of a block whose statements would be too deep.
#[tactic(auto, using(crate::proofs::StmtSteps::empty_block_steps))]
fn read_empty_block<'a>(alloc: Global, tokens: &'a [Token]) -> Result<Read<'a, Stmt>, Halt>
    ensures read { IfOk result (λ r. block_rows (lower_in 0) tokens.now ≡ done (stmt_tree_of r.item) r.rest.now) }
    ensures halts { IfErr result (λ h. HaltsAs (block_rows (lower_in 0) tokens.now) h) }
    ensures nearest { IfOk result (λ r. takes_else (stmt_tree_of r.item) ≡ true → Lacks (word_in Else) r.rest.now) }
    ensures shorter { IfOk result (λ r. length r.rest.now < length tokens.now) }
{
    match after_word(tokens, Keyword::End) {
        Some(rest) => Ok(Read {
            item: make_block(List::new(alloc)),
            rest,
        }),
        None => Err(refused(tokens, starts_stmt(tokens))),
    }
}

/// Statements, and `end`.
#[tactic(auto, using(crate::proofs::StmtSteps::stmts_steps))]
#[cycle(stmt)]
fn read_stmts<'a>(
    alloc: Global,
    tokens: &'a [Token],
    left: u32,
) -> Result<Read<'a, List<Stmt>>, Halt>
    ensures read { IfOk result (λ r. (s : Spot) × (many (word_in End) (stmt_reader left) tokens.now ≡ done (map stmt_tree_of r.item, s) r.rest.now)) }
    ensures halts { IfErr result (λ h. HaltsAs (many (word_in End) (stmt_reader left) tokens.now) h) }
    ensures shorter { IfOk result (λ r. length r.rest.now < length tokens.now) }
{
    let mut stmts = List::new(alloc);
    let mut rest = tokens;
    'stmts: loop {
        if let Some(after) = after_word(rest, Keyword::End) {
            return Ok(Read {
                item: stmts,
                rest: after,
            });
        }
        let next = read_stmt(alloc, rest, left)?;
        stmts.push(next.item)?;
        rest = next.rest;
    }
}
