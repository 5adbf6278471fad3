//! Ranges, declarations, parameters and assignments. Each entry of a list is an item of its own.
ghost use Rattle.std.specs.Prelude.{List, [], ◌∷◌, ◌++◌, ◌≡◌, ◌≤◌, ◌<◌, map, length, IfOk, IfErr, IfSome, IfNone};
ghost use Rattle.cdc_base.specs.declared.words.Keyword.TheVariants as k;
ghost use Rattle.verilog_ast.specs.declared.DeclKind.{DeclKind};
ghost use Rattle.verilog_exprs.specs.Halts.{HaltsAs};
ghost use Rattle.verilog_exprs.specs.Next.{Lacks};
ghost use Rattle.verilog_items.specs.Forms.{place_at, Puts, NoDirection, NoKind, NoParameter, vars_at, params_at, drives_at, assigns_at};
ghost use Rattle.verilog_reading.specs.ExprTree.{tree_of};
ghost use Rattle.verilog_reading.specs.ItemReader as reader;
ghost use Rattle.verilog_reading.specs.ItemReading.{Var, Setting, Driven};
ghost use Rattle.verilog_reading.specs.ItemReading as reading;
ghost use Rattle.verilog_reading.specs.Lexemes.{word_in};
ghost use Rattle.verilog_reading.specs.Outcome.{done, then_read};
ghost use Rattle.verilog_reading.specs.SourceTree.{maybe, bounds_of, param_of, item_of};
ghost use Rattle.verilog_reading.specs.StmtReader.{Lower, lower};

use crate::copy::copy_range;
use crate::delay::{past_delay, past_delay_of};
use crate::make::{assign_item, decl_item, make_decl, make_param, make_range, param_item};
use cdc_base::limits::MAX_DEPTH;
use cdc_base::{List, Place};
use std::alloc::Global;
use verilog_ast::{DeclKind, Expr, Item, ParamDecl, Range};
use verilog_exprs::expr::read_whole;
use verilog_exprs::halt::Halt;
use verilog_exprs::tokens::{Read, after_mark, after_word, past_ident, past_mark};
use verilog_lex::{Keyword, MarkKind, Token};
use verilog_stmts::target::read_target;

/// `[range]`
pub fn read_range<'a>(alloc: Global, tokens: &'a [Token]) -> Result<Read<'a, Option<Range>>, Halt>
    ensures read { IfOk result (λ r. reader.maybe_range (lower 255) tokens.now ≡ done (maybe bounds_of r.item) r.rest.now) }
    ensures halts { IfErr result (λ h. HaltsAs (reader.maybe_range (lower 255) tokens.now) h) }
    ensures shorter { IfOk result (λ r. length r.rest.now ≤ length tokens.now) }
{
    let Some(inner) = after_mark(tokens, MarkKind::BracketOpen) else {
        return Ok(Read {
            item: None,
            rest: tokens,
        });
    };
    let left = read_whole(alloc, inner)?;
    let inner = past_mark(left.rest, MarkKind::Colon)?;
    let right = read_whole(alloc, inner)?;
    let rest = past_mark(right.rest, MarkKind::BracketClose)?;
    Ok(Read {
        item: Some(make_range(left.expr, right.expr)),
        rest,
    })
}

/// `[ = expr ]`
pub fn read_init<'a>(alloc: Global, tokens: &'a [Token]) -> Result<Read<'a, Option<Expr>>, Halt>
    ensures read { IfOk result (λ r. reader.init (lower 255) tokens.now ≡ done (maybe tree_of r.item) r.rest.now) }
    ensures halts { IfErr result (λ h. HaltsAs (reader.init (lower 255) tokens.now) h) }
    ensures shorter { IfOk result (λ r. length r.rest.now ≤ length tokens.now) }
{
    let Some(inner) = after_mark(tokens, MarkKind::Equals) else {
        return Ok(Read {
            item: None,
            rest: tokens,
        });
    };
    let value = read_whole(alloc, inner)?;
    Ok(Read {
        item: Some(value.expr),
        rest: value.rest,
    })
}

/// The word that opens the declaration of a port, and `wire` or `reg` where it may follow.
#[tactic(auto, using(crate::proofs::DeclSteps::direction_steps))]
pub fn after_direction(tokens: &[Token]) -> Option<(DeclKind, &[Token])>
    ensures found { IfSome result (λ p. reader.direction tokens.now ≡ done p.0 p.1.now) }
    ensures item { IfSome result (λ p. (l : Lower) → reader.item l tokens.now ≡ reader.decls l (place_at tokens.now) p.0 p.1.now) }
    ensures free { IfNone result (NoDirection tokens.now) }
    ensures shorter { IfSome result (λ p. length p.1.now < length tokens.now) }
{
    if let Some(rest) = after_word(tokens, Keyword::Input) {
        return Some((DeclKind::Input, without_wire(rest)));
    }
    let rest = after_word(tokens, Keyword::Output)?;
    Some(output_kind(rest))
}

/// The kind of an output, by the word behind it.
#[tactic(auto, using(crate::proofs::DeclSteps::output_steps))]
fn output_kind(tokens: &[Token]) -> (DeclKind, &[Token])
    ensures found { reader.output tokens.now ≡ done result.0 result.1.now }
    ensures shorter { length result.1.now ≤ length tokens.now }
{
    if let Some(rest) = after_word(tokens, Keyword::Reg) {
        return (DeclKind::OutputReg, rest);
    }
    (DeclKind::Output, without_wire(tokens))
}

/// The tokens behind `wire`, or all of them where it doesn't stand next.
#[tactic(auto, using(crate::proofs::DeclSteps::wire_steps))]
fn without_wire(tokens: &[Token]) -> &[Token]
    ensures found { (kind : DeclKind) → reader.maybe_wire kind tokens.now ≡ done kind result.now }
    ensures shorter { length result.now ≤ length tokens.now }
{
    match after_word(tokens, Keyword::Wire) {
        Some(rest) => rest,
        None => tokens,
    }
}

/// The word that opens a declaration, or the two words.
#[tactic(auto, using(crate::proofs::DeclSteps::kind_steps))]
pub fn after_kind(tokens: &[Token]) -> Option<(DeclKind, &[Token])>
    ensures item { IfSome result (λ p. (l : Lower) → reader.item l tokens.now ≡ reader.decls l (place_at tokens.now) p.0 p.1.now) }
    ensures free { IfNone result (NoKind tokens.now) }
    ensures shorter { IfSome result (λ p. length p.1.now < length tokens.now) }
{
    if let Some(found) = after_direction(tokens) {
        return Some(found);
    }
    if let Some(rest) = after_word(tokens, Keyword::Wire) {
        return Some((DeclKind::Wire, rest));
    }
    let rest = after_word(tokens, Keyword::Reg)?;
    Some((DeclKind::Reg, rest))
}

/// The declarations of the variables that stand behind the word or words of their kind.
pub fn read_decls<'a>(
    alloc: Global,
    items: &mut List<Item>,
    place: Place,
    kind: DeclKind,
    tokens: &'a [Token],
) -> Result<&'a [Token], Halt>
    ensures read { IfOk result (λ rest. Puts (reader.decls (lower 255) place kind tokens.now) items.old items.new rest.now) }
    ensures halts { IfErr result (λ h. HaltsAs (reader.decls (lower 255) place kind tokens.now) h) }
    ensures shorter { IfOk result (λ rest. length rest.now < length tokens.now) }
{
    let range = read_range(alloc, tokens)?;
    let rest = past_delay_of(kind, range.rest)?;
    read_vars(alloc, items, place, kind, &range.item, rest)
}

/// `var { , var } ;`
fn read_vars<'a>(
    alloc: Global,
    items: &mut List<Item>,
    place: Place,
    kind: DeclKind,
    range: &Option<Range>,
    tokens: &'a [Token],
) -> Result<&'a [Token], Halt>
    ensures read { IfOk result (λ rest. Puts (vars_at (lower 255) place kind (maybe bounds_of range.now) tokens.now) items.old items.new rest.now) }
    ensures halts { IfErr result (λ h. HaltsAs (vars_at (lower 255) place kind (maybe bounds_of range.now) tokens.now) h) }
    ensures shorter { IfOk result (λ rest. length rest.now < length tokens.now) }
{
    let mut rest = read_var(alloc, items, place, kind, range, tokens)?;
    while let Some(after) = after_mark(rest, MarkKind::Comma) {
        rest = read_var(alloc, items, place, kind, range, after)?;
    }
    let rest = past_mark(rest, MarkKind::Semicolon)?;
    Ok(rest)
}

/// `var`
fn read_var<'a>(
    alloc: Global,
    items: &mut List<Item>,
    place: Place,
    kind: DeclKind,
    range: &Option<Range>,
    tokens: &'a [Token],
) -> Result<&'a [Token], Halt>
    ensures read { IfOk result (λ rest. (x : Var) × (reader.var (lower 255) tokens.now ≡ done x rest.now)
        × (map item_of items.new ≡ map item_of items.old ++ reading.decl_item place kind (maybe bounds_of range.now) x ∷ [])) }
    ensures halts { IfErr result (λ h. HaltsAs (reader.var (lower 255) tokens.now) h) }
    ensures shorter { IfOk result (λ rest. length rest.now < length tokens.now) }
{
    let (name, rest) = past_ident(tokens)?;
    let array = read_range(alloc, rest)?;
    let init = read_init(alloc, array.rest)?;
    let range = copy_range(alloc, range)?;
    let declared = make_decl(kind, range, name.copy(alloc)?, init.item, array.item);
    items.push(decl_item(place, declared))?;
    Ok(init.rest)
}

/// Whether `localparam` or `parameter` stands next, and the tokens behind it.
#[tactic(auto, using(crate::proofs::DeclSteps::parameter_steps))]
pub fn after_parameter(tokens: &[Token]) -> Option<(bool, &[Token])>
    ensures first { IfSome result (λ p. (l : Lower) → reader.long_pdecl l tokens.now ≡ reader.in_long l p.0 p.1.now) }
    ensures entry { IfSome result (λ p. (l : Lower) → reader.pdecl l tokens.now ≡ reader.in_long l p.0 p.1.now) }
    ensures item { IfSome result (λ p. NoKind tokens.now → (l : Lower) → reader.item l tokens.now ≡ params_at l p.0 (place_at tokens.now) p.1.now) }
    ensures free { IfNone result (NoParameter tokens.now) }
    ensures shorter { IfSome result (λ p. length p.1.now < length tokens.now) }
{
    if let Some(rest) = after_word(tokens, Keyword::Parameter) {
        return Some((false, rest));
    }
    let rest = after_word(tokens, Keyword::LocalParam)?;
    Some((true, rest))
}

/// The parameters that stand behind their word.
pub fn read_params<'a>(
    alloc: Global,
    items: &mut List<Item>,
    place: Place,
    local: bool,
    tokens: &'a [Token],
) -> Result<&'a [Token], Halt>
    ensures read { IfOk result (λ rest. Puts (params_at (lower 255) local place tokens.now) items.old items.new rest.now) }
    ensures halts { IfErr result (λ h. HaltsAs (params_at (lower 255) local place tokens.now) h) }
    ensures shorter { IfOk result (λ rest. length rest.now < length tokens.now) }
{
    let range = read_range(alloc, tokens)?;
    let mut rest = push_param(alloc, items, place, local, &range.item, range.rest)?;
    while let Some(after) = after_mark(rest, MarkKind::Comma) {
        rest = push_param(alloc, items, place, local, &range.item, after)?;
    }
    let rest = past_mark(rest, MarkKind::Semicolon)?;
    Ok(rest)
}

fn push_param<'a>(
    alloc: Global,
    items: &mut List<Item>,
    place: Place,
    local: bool,
    range: &Option<Range>,
    tokens: &'a [Token],
) -> Result<&'a [Token], Halt>
    ensures read { IfOk result (λ rest. (x : Setting) × (reader.setting (lower 255) tokens.now ≡ done x rest.now)
        × (map item_of items.new ≡ map item_of items.old ++ reading.param_item place local (maybe bounds_of range.now) x ∷ [])) }
    ensures halts { IfErr result (λ h. HaltsAs (reader.setting (lower 255) tokens.now) h) }
    ensures shorter { IfOk result (λ rest. length rest.now < length tokens.now) }
{
    let param = read_param(alloc, local, range, tokens)?;
    items.push(param_item(place, param.item))?;
    Ok(param.rest)
}

/// `id = expr`, a parameter of the range.
pub fn read_param<'a>(
    alloc: Global,
    local: bool,
    range: &Option<Range>,
    tokens: &'a [Token],
) -> Result<Read<'a, ParamDecl>, Halt>
    ensures read { IfOk result (λ r. (x : Setting) × (reader.setting (lower 255) tokens.now ≡ done x r.rest.now)
        × (param_of r.item ≡ record { local = local; range = maybe bounds_of range.now; name = x.name; value = x.value })) }
    ensures halts { IfErr result (λ h. HaltsAs (reader.setting (lower 255) tokens.now) h) }
    ensures shorter { IfOk result (λ r. length r.rest.now < length tokens.now) }
{
    let (name, rest) = past_ident(tokens)?;
    let inner = past_mark(rest, MarkKind::Equals)?;
    let value = read_whole(alloc, inner)?;
    let range = copy_range(alloc, range)?;
    Ok(Read {
        item: make_param(local, range, name.copy(alloc)?, value.expr),
        rest: value.rest,
    })
}

/// The assignments that stand behind `assign`.
pub fn read_assigns<'a>(
    alloc: Global,
    items: &mut List<Item>,
    place: Place,
    tokens: &'a [Token],
) -> Result<&'a [Token], Halt>
    ensures read { IfOk result (λ rest. Puts (assigns_at (lower 255) place tokens.now) items.old items.new rest.now) }
    ensures halts { IfErr result (λ h. HaltsAs (assigns_at (lower 255) place tokens.now) h) }
    ensures shorter { IfOk result (λ rest. length rest.now < length tokens.now) }
{
    let rest = past_delay(tokens)?;
    read_drives(alloc, items, place, rest)
}

/// `target = expr { , target = expr } ;`
fn read_drives<'a>(
    alloc: Global,
    items: &mut List<Item>,
    place: Place,
    tokens: &'a [Token],
) -> Result<&'a [Token], Halt>
    ensures read { IfOk result (λ rest. Puts (drives_at (lower 255) place tokens.now) items.old items.new rest.now) }
    ensures halts { IfErr result (λ h. HaltsAs (drives_at (lower 255) place tokens.now) h) }
    ensures shorter { IfOk result (λ rest. length rest.now < length tokens.now) }
{
    let mut rest = read_assign(alloc, items, place, tokens)?;
    while let Some(after) = after_mark(rest, MarkKind::Comma) {
        rest = read_assign(alloc, items, place, after)?;
    }
    let rest = past_mark(rest, MarkKind::Semicolon)?;
    Ok(rest)
}

/// `target = expr`
fn read_assign<'a>(
    alloc: Global,
    items: &mut List<Item>,
    place: Place,
    tokens: &'a [Token],
) -> Result<&'a [Token], Halt>
    ensures read { IfOk result (λ rest. (x : Driven) × (reader.driven (lower 255) tokens.now ≡ done x rest.now)
        × (map item_of items.new ≡ map item_of items.old ++ reading.assign_item place x ∷ [])) }
    ensures halts { IfErr result (λ h. HaltsAs (reader.driven (lower 255) tokens.now) h) }
    ensures shorter { IfOk result (λ rest. length rest.now < length tokens.now) }
{
    let target = read_target(alloc, tokens, MAX_DEPTH - 1)?;
    let inner = past_mark(target.rest, MarkKind::Equals)?;
    let value = read_whole(alloc, inner)?;
    items.push(assign_item(place, target.item, value.expr))?;
    Ok(value.rest)
}
