//! Gates and instances.
ghost use Rattle.std.specs.Prelude.{List, [], ◌∷◌, ◌++◌, ◌≡◌, ◌≤◌, ◌<◌, true, false, map, length, Option, IfOk, IfErr, IfSome, IfNone};
ghost use Rattle.cdc_base.specs.declared.words.Keyword.{Keyword};
ghost use Rattle.verilog_ast.specs.declared.GateKind.{GateKind};
ghost use Rattle.verilog_exprs.specs.Halts.{HaltsAs};
ghost use Rattle.verilog_exprs.specs.Next.{Takes, Lacks};
ghost use Rattle.verilog_items.specs.Forms.{Puts, gate_list_at, gates_at, instances_at, ordered_at, named_at};
ghost use Rattle.verilog_lex.specs.declared.token.Token.{Token};
ghost use Rattle.verilog_reading.specs.ExprTree.{ExprTree, tree_of};
ghost use Rattle.verilog_reading.specs.ItemReader as reader;
ghost use Rattle.verilog_reading.specs.ItemReader.{GateWord, gate_in, value_end};
ghost use Rattle.verilog_reading.specs.ItemReading.{Placed};
ghost use Rattle.verilog_reading.specs.ItemReading as reading;
ghost use Rattle.verilog_reading.specs.Outcome.{done};
ghost use Rattle.verilog_reading.specs.SourceTree.{maybe, conn_of, conns_of, item_of};
ghost use Rattle.verilog_reading.specs.StmtReader.{Lower, lower};

use crate::copy::copy_conns;
use crate::delay::past_delay;
use crate::make::{gate_item, instance_item, make_conn, named_conns, ordered_conns};
use cdc_base::limits::MAX_DEPTH;
use cdc_base::{List, Name, Place};
use std::alloc::Global;
use verilog_ast::{Conn, Conns, Expr, GateKind, Item};
use verilog_exprs::expr::{read_exprs, read_whole};
use verilog_exprs::halt::Halt;
use verilog_exprs::tokens::{Read, after_ident, after_mark, past_ident, past_mark};
use verilog_lex::{Keyword, MarkKind, Token, TokenKind};

fn gate_of(word: Keyword) -> Option<GateKind>
    ensures { result ≡ reading.gate_of word }
{
    match word {
        Keyword::And => Some(GateKind::And),
        Keyword::Nand => Some(GateKind::Nand),
        Keyword::Or => Some(GateKind::Or),
        Keyword::Nor => Some(GateKind::Nor),
        Keyword::Xor => Some(GateKind::Xor),
        Keyword::Xnor => Some(GateKind::Xnor),
        Keyword::Buf => Some(GateKind::Buf),
        Keyword::Not => Some(GateKind::Not),
        _ => None,
    }
}

/// The kind of gate that stands next, and the tokens behind it.
pub fn after_gate(tokens: &[Token]) -> Option<(GateKind, &[Token])>
    ensures found { IfSome result (λ p. (g : GateWord) × Takes gate_in g tokens.now p.1.now × (g.kind ≡ p.0)) }
    ensures free { IfNone result (Lacks gate_in tokens.now) }
    ensures shorter { IfSome result (λ p. length p.1.now < length tokens.now) }
{
    let (first, rest) = tokens.split_first()?;
    let TokenKind::Word(word) = first.kind else {
        return None;
    };
    match gate_of(word) {
        Some(kind) => Some((kind, rest)),
        None => None,
    }
}

/// The gates that stand behind the word of their kind.
pub fn read_gates<'a>(
    alloc: Global,
    items: &mut List<Item>,
    place: Place,
    kind: GateKind,
    tokens: &'a [Token],
) -> Result<&'a [Token], Halt>
    ensures read { IfOk result (λ rest. Puts (gates_at (lower 255) place kind tokens.now) items.old items.new rest.now) }
    ensures halts { IfErr result (λ h. HaltsAs (gates_at (lower 255) place kind tokens.now) h) }
    ensures shorter { IfOk result (λ rest. length rest.now < length tokens.now) }
{
    let rest = past_delay(tokens)?;
    read_gate_list(alloc, items, place, kind, rest)
}

/// `[id] ( terminals ) { , [id] ( terminals ) } ;`
fn read_gate_list<'a>(
    alloc: Global,
    items: &mut List<Item>,
    place: Place,
    kind: GateKind,
    tokens: &'a [Token],
) -> Result<&'a [Token], Halt>
    ensures read { IfOk result (λ rest. Puts (gate_list_at (lower 255) place kind tokens.now) items.old items.new rest.now) }
    ensures halts { IfErr result (λ h. HaltsAs (gate_list_at (lower 255) place kind tokens.now) h) }
    ensures shorter { IfOk result (λ rest. length rest.now < length tokens.now) }
{
    let mut rest = read_gate(alloc, items, place, kind, tokens)?;
    while let Some(after) = after_mark(rest, MarkKind::Comma) {
        rest = read_gate(alloc, items, place, kind, after)?;
    }
    let rest = past_mark(rest, MarkKind::Semicolon)?;
    Ok(rest)
}

/// `[id] ( terminals )`. The name has no meaning.
fn read_gate<'a>(
    alloc: Global,
    items: &mut List<Item>,
    place: Place,
    kind: GateKind,
    tokens: &'a [Token],
) -> Result<&'a [Token], Halt>
    ensures read { IfOk result (λ rest. (x : List ExprTree) × (reader.gate (lower 255) tokens.now ≡ done x rest.now)
        × (map item_of items.new ≡ map item_of items.old ++ reading.gate_item place kind x ∷ [])) }
    ensures halts { IfErr result (λ h. HaltsAs (reader.gate (lower 255) tokens.now) h) }
    ensures shorter { IfOk result (λ rest. length rest.now < length tokens.now) }
{
    let inner = past_mark(without_name(tokens), MarkKind::ParenOpen)?;
    let terminals = read_exprs(alloc, inner, MAX_DEPTH - 1)?;
    let rest = past_mark(terminals.rest, MarkKind::ParenClose)?;
    items.push(gate_item(place, kind, terminals.exprs))?;
    Ok(rest)
}

/// The tokens behind an identifier, or all of them where none stands next.
#[tactic(auto, using(crate::proofs::InstanceSteps::name_steps))]
fn without_name(tokens: &[Token]) -> &[Token]
    ensures found { (l : Lower) → reader.gate l tokens.now ≡ reader.terminals l result.now }
    ensures shorter { length result.now ≤ length tokens.now }
{
    match after_ident(tokens) {
        Some((_, rest)) => rest,
        None => tokens,
    }
}

/// The instances that stand behind the name of their module.
pub fn read_instances<'a>(
    alloc: Global,
    items: &mut List<Item>,
    place: Place,
    child: &Name,
    tokens: &'a [Token],
) -> Result<&'a [Token], Halt>
    ensures read { IfOk result (λ rest. Puts (instances_at (lower 255) place child.now tokens.now) items.old items.new rest.now) }
    ensures halts { IfErr result (λ h. HaltsAs (instances_at (lower 255) place child.now tokens.now) h) }
    ensures shorter { IfOk result (λ rest. length rest.now < length tokens.now) }
{
    let params = read_overrides(alloc, tokens)?;
    let mut rest = read_instance(alloc, items, place, child, &params.item, params.rest)?;
    while let Some(after) = after_mark(rest, MarkKind::Comma) {
        rest = read_instance(alloc, items, place, child, &params.item, after)?;
    }
    let rest = past_mark(rest, MarkKind::Semicolon)?;
    Ok(rest)
}

/// `[ # ( conns ) ]`
fn read_overrides<'a>(alloc: Global, tokens: &'a [Token]) -> Result<Read<'a, Conns>, Halt>
    ensures read { IfOk result (λ r. reader.overrides (lower 255) tokens.now ≡ done (conns_of r.item) r.rest.now) }
    ensures halts { IfErr result (λ h. HaltsAs (reader.overrides (lower 255) tokens.now) h) }
    ensures shorter { IfOk result (λ r. length r.rest.now ≤ length tokens.now) }
{
    match after_mark(tokens, MarkKind::Hash) {
        Some(inner) => read_conns(alloc, inner),
        None => Ok(Read {
            item: ordered_conns(alloc, List::new(alloc)),
            rest: tokens,
        }),
    }
}

/// `id ( conns )`
fn read_instance<'a>(
    alloc: Global,
    items: &mut List<Item>,
    place: Place,
    child: &Name,
    params: &Conns,
    tokens: &'a [Token],
) -> Result<&'a [Token], Halt>
    ensures read { IfOk result (λ rest. (x : Placed) × (reader.placed (lower 255) tokens.now ≡ done x rest.now)
        × (map item_of items.new ≡ map item_of items.old ++ reading.instance_item place child.now (conns_of params.now) x ∷ [])) }
    ensures halts { IfErr result (λ h. HaltsAs (reader.placed (lower 255) tokens.now) h) }
    ensures shorter { IfOk result (λ rest. length rest.now < length tokens.now) }
{
    let (name, inner) = past_ident(tokens)?;
    let ports = read_conns(alloc, inner)?;
    let child = child.copy(alloc)?;
    let params = copy_conns(alloc, params)?;
    let item = instance_item(place, child, params, name.copy(alloc)?, ports.item);
    items.push(item)?;
    Ok(ports.rest)
}

/// `( conns )`
fn read_conns<'a>(alloc: Global, tokens: &'a [Token]) -> Result<Read<'a, Conns>, Halt>
    ensures read { IfOk result (λ r. reader.conns (lower 255) tokens.now ≡ done (conns_of r.item) r.rest.now) }
    ensures halts { IfErr result (λ h. HaltsAs (reader.conns (lower 255) tokens.now) h) }
    ensures shorter { IfOk result (λ r. length r.rest.now < length tokens.now) }
{
    let inner = past_mark(tokens, MarkKind::ParenOpen)?;
    match after_mark(inner, MarkKind::Dot) {
        Some(_) => read_named(alloc, inner),
        None => read_ordered(alloc, inner),
    }
}

/// `. id ( [expr] ) { , . id ( [expr] ) }` and the closing parenthesis
fn read_named<'a>(alloc: Global, tokens: &'a [Token]) -> Result<Read<'a, Conns>, Halt>
    ensures read { IfOk result (λ r. named_at (lower 255) tokens.now ≡ done (conns_of r.item) r.rest.now) }
    ensures halts { IfErr result (λ h. HaltsAs (named_at (lower 255) tokens.now) h) }
    ensures shorter { IfOk result (λ r. length r.rest.now < length tokens.now) }
{
    let first = read_conn(alloc, tokens)?;
    let mut conns = List::new(alloc);
    conns.push(first.item)?;
    let mut rest = first.rest;
    while let Some(after) = after_mark(rest, MarkKind::Comma) {
        let next = read_conn(alloc, after)?;
        conns.push(next.item)?;
        rest = next.rest;
    }
    let rest = past_mark(rest, MarkKind::ParenClose)?;
    Ok(Read {
        item: named_conns(conns),
        rest,
    })
}

/// `. id ( [expr] )`
fn read_conn<'a>(alloc: Global, tokens: &'a [Token]) -> Result<Read<'a, Conn>, Halt>
    ensures read { IfOk result (λ r. reader.conn (lower 255) tokens.now ≡ done (conn_of r.item) r.rest.now) }
    ensures halts { IfErr result (λ h. HaltsAs (reader.conn (lower 255) tokens.now) h) }
    ensures shorter { IfOk result (λ r. length r.rest.now < length tokens.now) }
{
    let inner = past_mark(tokens, MarkKind::Dot)?;
    let (name, inner) = past_ident(inner)?;
    let inner = past_mark(inner, MarkKind::ParenOpen)?;
    let value = read_value(alloc, inner)?;
    let rest = past_mark(value.rest, MarkKind::ParenClose)?;
    Ok(Read {
        item: make_conn(name.copy(alloc)?, value.item),
        rest,
    })
}

/// `[expr] { , [expr] }` and the closing parenthesis
fn read_ordered<'a>(alloc: Global, tokens: &'a [Token]) -> Result<Read<'a, Conns>, Halt>
    ensures read { IfOk result (λ r. ordered_at (lower 255) tokens.now ≡ done (conns_of r.item) r.rest.now) }
    ensures halts { IfErr result (λ h. HaltsAs (ordered_at (lower 255) tokens.now) h) }
    ensures shorter { IfOk result (λ r. length r.rest.now < length tokens.now) }
{
    let first = read_value(alloc, tokens)?;
    let mut values = List::new(alloc);
    values.push(first.item)?;
    let mut rest = first.rest;
    while let Some(after) = after_mark(rest, MarkKind::Comma) {
        let next = read_value(alloc, after)?;
        values.push(next.item)?;
        rest = next.rest;
    }
    let rest = past_mark(rest, MarkKind::ParenClose)?;
    Ok(Read {
        item: ordered_conns(alloc, values),
        rest,
    })
}

/// Whether a comma or a closing parenthesis stands next.
fn ends_value(tokens: &[Token]) -> bool
    ensures ends { result ≡ true → (rest : List Token) × Takes value_end tt tokens.now rest }
    ensures free { result ≡ false → Lacks value_end tokens.now }
{
    after_mark(tokens, MarkKind::Comma).is_some()
        || after_mark(tokens, MarkKind::ParenClose).is_some()
}

/// `[expr]` before a comma or a closing parenthesis
fn read_value<'a>(alloc: Global, tokens: &'a [Token]) -> Result<Read<'a, Option<Expr>>, Halt>
    ensures read { IfOk result (λ r. reader.value (lower 255) tokens.now ≡ done (maybe tree_of r.item) r.rest.now) }
    ensures halts { IfErr result (λ h. HaltsAs (reader.value (lower 255) tokens.now) h) }
    ensures shorter { IfOk result (λ r. length r.rest.now ≤ length tokens.now) }
{
    if ends_value(tokens) {
        return Ok(Read {
            item: None,
            rest: tokens,
        });
    }
    let value = read_whole(alloc, tokens)?;
    Ok(Read {
        item: Some(value.expr),
        rest: value.rest,
    })
}
