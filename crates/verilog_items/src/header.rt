//! The header of a module: its parameters and its ports.
ghost use Rattle.std.specs.Prelude.{ℕ, List, [], ◌∷◌, ◌++◌, ◌≡◌, ◌≤◌, ◌<◌, map, length, IfOk, IfErr};
ghost use Rattle.verilog_exprs.specs.Halts.{HaltsAs};
ghost use Rattle.verilog_items.specs.Forms.{pdecls_at, names_at, adecls_at, PutsParam, PutsPort, form_of, shape_of, header_ports, port_at};
ghost use Rattle.verilog_reading.specs.ExprTree.{tree_of};
ghost use Rattle.verilog_reading.specs.ItemReader as reader;
ghost use Rattle.verilog_reading.specs.ItemReading as reading;
ghost use Rattle.verilog_reading.specs.Outcome.{done};
ghost use Rattle.verilog_reading.specs.SourceTree.{maybe, bounds_of, param_of, port_of};
ghost use Rattle.verilog_reading.specs.StmtReader.{lower};

use crate::copy::copy_range;
use crate::decl::{after_direction, after_parameter, read_init, read_param, read_range};
use crate::make::{make_decl, make_port};
use cdc_base::{List, Name, NoMemory};
use std::alloc::Global;
use verilog_ast::{DeclKind, Expr, ParamDecl, Port, Range};
use verilog_exprs::halt::{Halt, refused};
use verilog_exprs::tokens::{Read, after_ident, after_mark, past_ident, past_mark};
use verilog_lex::{MarkKind, Token};

/// The ports of a header, and whether it declares them.
#[derive(Drop)]
pub struct Ports {
    pub ansi: bool,
    pub list: List<Port>,
}

/// What a short parameter of a header takes from the one before it.
#[derive(Drop)]
pub struct ParamForm {
    pub local: bool,
    pub range: Option<Range>,
}

/// What a short port of a header takes from the one before it.
#[derive(Drop)]
pub struct Shape {
    pub kind: DeclKind,
    pub range: Option<Range>,
}

/// `[ # ( pdecl { , pdecl } ) ]`
pub fn read_header_params<'a>(
    alloc: Global,
    tokens: &'a [Token],
) -> Result<Read<'a, List<ParamDecl>>, Halt>
    ensures read { IfOk result (λ r. reader.header (lower 255) tokens.now ≡ done (map param_of r.item) r.rest.now) }
    ensures halts { IfErr result (λ h. HaltsAs (reader.header (lower 255) tokens.now) h) }
    ensures shorter { IfOk result (λ r. length r.rest.now ≤ length tokens.now) }
{
    let Some(inner) = after_mark(tokens, MarkKind::Hash) else {
        return Ok(Read {
            item: List::new(alloc),
            rest: tokens,
        });
    };
    let inner = past_mark(inner, MarkKind::ParenOpen)?;
    read_pdecls(alloc, inner)
}

/// `pdecl { , pdecl }`, the first of which isn't short, and the closing parenthesis
fn read_pdecls<'a>(alloc: Global, tokens: &'a [Token]) -> Result<Read<'a, List<ParamDecl>>, Halt>
    ensures read { IfOk result (λ r. pdecls_at (lower 255) tokens.now ≡ done (map param_of r.item) r.rest.now) }
    ensures halts { IfErr result (λ h. HaltsAs (pdecls_at (lower 255) tokens.now) h) }
    ensures shorter { IfOk result (λ r. length r.rest.now < length tokens.now) }
{
    let Some((local, inner)) = after_parameter(tokens) else {
        return Err(refused(tokens, false));
    };
    let mut params = List::new(alloc);
    let first = read_long(alloc, &mut params, local, inner)?;
    let mut form = first.item;
    let mut rest = first.rest;
    while let Some(after) = after_mark(rest, MarkKind::Comma) {
        let next = read_pdecl(alloc, &mut params, form, after)?;
        form = next.item;
        rest = next.rest;
    }
    let rest = past_mark(rest, MarkKind::ParenClose)?;
    Ok(Read { item: params, rest })
}

/// `pdecl`, which has the word and range of the entry before it where it is short. Its own are for the next entry.
fn read_pdecl<'a>(
    alloc: Global,
    params: &mut List<ParamDecl>,
    before: ParamForm,
    tokens: &'a [Token],
) -> Result<Read<'a, ParamForm>, Halt>
    ensures read { IfOk result (λ r. PutsParam (reader.pdecl (lower 255) tokens.now) (form_of before) params.old params.new (form_of r.item) r.rest.now) }
    ensures halts { IfErr result (λ h. HaltsAs (reader.pdecl (lower 255) tokens.now) h) }
    ensures shorter { IfOk result (λ r. length r.rest.now < length tokens.now) }
{
    if let Some((local, inner)) = after_parameter(tokens) {
        let long = read_long(alloc, params, local, inner)?;
        return Ok(long);
    }
    let param = read_param(alloc, before.local, &before.range, tokens)?;
    params.push(param.item)?;
    Ok(Read {
        item: before,
        rest: param.rest,
    })
}

/// `[range] id = expr` behind `parameter` or `localparam`
fn read_long<'a>(
    alloc: Global,
    params: &mut List<ParamDecl>,
    local: bool,
    tokens: &'a [Token],
) -> Result<Read<'a, ParamForm>, Halt>
    ensures read { IfOk result (λ r. (before : reading.ParamForm) → PutsParam (reader.in_long (lower 255) local tokens.now) before params.old params.new (form_of r.item) r.rest.now) }
    ensures halts { IfErr result (λ h. HaltsAs (reader.in_long (lower 255) local tokens.now) h) }
    ensures shorter { IfOk result (λ r. length r.rest.now < length tokens.now) }
{
    let range = read_range(alloc, tokens)?;
    let param = read_param(alloc, local, &range.item, range.rest)?;
    params.push(param.item)?;
    Ok(Read {
        item: make_form(local, range.item),
        rest: param.rest,
    })
}

fn make_form(local: bool, range: Option<Range>) -> ParamForm
    ensures { form_of result ≡ record { local = local; range = maybe bounds_of range } }
{
    ParamForm { local, range }
}

/// `[ ( [ ports ] ) ]`. The first entry tells the style.
pub fn read_ports<'a>(alloc: Global, tokens: &'a [Token]) -> Result<Read<'a, Ports>, Halt>
    ensures read { IfOk result (λ r. reader.ports (lower 255) tokens.now ≡ done (header_ports r.item) r.rest.now) }
    ensures halts { IfErr result (λ h. HaltsAs (reader.ports (lower 255) tokens.now) h) }
    ensures shorter { IfOk result (λ r. length r.rest.now ≤ length tokens.now) }
{
    let Some(inner) = after_mark(tokens, MarkKind::ParenOpen) else {
        return Ok(no_ports(alloc, tokens));
    };
    if let Some(rest) = after_mark(inner, MarkKind::ParenClose) {
        return Ok(no_ports(alloc, rest));
    }
    match after_ident(inner) {
        Some(_) => read_names(alloc, inner),
        None => read_adecls(alloc, inner),
    }
}

fn no_ports<'a>(alloc: Global, rest: &'a [Token]) -> Read<'a, Ports>
    ensures none { header_ports result.item ≡ reader.without_ports }
    ensures same { result.rest.now ≡ rest.now }
{
    Read {
        item: Ports {
            ansi: false,
            list: List::new(alloc),
        },
        rest,
    }
}

/// `id { , id }` and the closing parenthesis
fn read_names<'a>(alloc: Global, tokens: &'a [Token]) -> Result<Read<'a, Ports>, Halt>
    ensures read { IfOk result (λ r. names_at tokens.now ≡ done (header_ports r.item) r.rest.now) }
    ensures halts { IfErr result (λ h. HaltsAs (names_at tokens.now) h) }
    ensures shorter { IfOk result (λ r. length r.rest.now < length tokens.now) }
{
    let mut list = List::new(alloc);
    let mut rest = read_name(alloc, &mut list, tokens)?;
    while let Some(after) = after_mark(rest, MarkKind::Comma) {
        rest = read_name(alloc, &mut list, after)?;
    }
    let rest = past_mark(rest, MarkKind::ParenClose)?;
    Ok(Read {
        item: Ports { ansi: false, list },
        rest,
    })
}

/// `id`
fn read_name<'a>(
    alloc: Global,
    ports: &mut List<Port>,
    tokens: &'a [Token],
) -> Result<&'a [Token], Halt>
    ensures read { IfOk result (λ rest. (x : List ℕ) × (reader.bare_name tokens.now ≡ done x rest.now) × (map port_of ports.new ≡ map port_of ports.old ++ reading.bare x ∷ [])) }
    ensures halts { IfErr result (λ h. HaltsAs (reader.bare_name tokens.now) h) }
    ensures shorter { IfOk result (λ rest. length rest.now < length tokens.now) }
{
    let (name, rest) = past_ident(tokens)?;
    let name = name.copy(alloc)?;
    ports.push(make_port(name, None))?;
    Ok(rest)
}

/// `adecl { , ( adecl | id [ = expr ] ) }` and the closing parenthesis
fn read_adecls<'a>(alloc: Global, tokens: &'a [Token]) -> Result<Read<'a, Ports>, Halt>
    ensures read { IfOk result (λ r. adecls_at (lower 255) tokens.now ≡ done (header_ports r.item) r.rest.now) }
    ensures halts { IfErr result (λ h. HaltsAs (adecls_at (lower 255) tokens.now) h) }
    ensures shorter { IfOk result (λ r. length r.rest.now < length tokens.now) }
{
    let mut list = List::new(alloc);
    let first = read_adecl(alloc, &mut list, tokens)?;
    let mut shape = first.item;
    let mut rest = first.rest;
    while let Some(after) = after_mark(rest, MarkKind::Comma) {
        let next = read_entry(alloc, &mut list, shape, after)?;
        shape = next.item;
        rest = next.rest;
    }
    let rest = past_mark(rest, MarkKind::ParenClose)?;
    Ok(Read {
        item: Ports { ansi: true, list },
        rest,
    })
}

/// `adecl | id [ = expr ]`
fn read_entry<'a>(
    alloc: Global,
    ports: &mut List<Port>,
    before: Shape,
    tokens: &'a [Token],
) -> Result<Read<'a, Shape>, Halt>
    ensures read { IfOk result (λ r. PutsPort (reader.entry (lower 255) tokens.now) (shape_of before) ports.old ports.new (shape_of r.item) r.rest.now) }
    ensures halts { IfErr result (λ h. HaltsAs (reader.entry (lower 255) tokens.now) h) }
    ensures shorter { IfOk result (λ r. length r.rest.now < length tokens.now) }
{
    let Some((name, rest)) = after_ident(tokens) else {
        let long = read_adecl(alloc, ports, tokens)?;
        return Ok(long);
    };
    let init = read_init(alloc, rest)?;
    push_port(alloc, ports, &before, name, init.item)?;
    Ok(Read {
        item: before,
        rest: init.rest,
    })
}

/// `adecl`. Only an `output reg` may have a start value.
fn read_adecl<'a>(
    alloc: Global,
    ports: &mut List<Port>,
    tokens: &'a [Token],
) -> Result<Read<'a, Shape>, Halt>
    ensures read { IfOk result (λ r. (before : reading.Shape) → PutsPort (reader.adecl (lower 255) tokens.now) before ports.old ports.new (shape_of r.item) r.rest.now) }
    ensures halts { IfErr result (λ h. HaltsAs (reader.adecl (lower 255) tokens.now) h) }
    ensures shorter { IfOk result (λ r. length r.rest.now < length tokens.now) }
{
    let Some((kind, inner)) = after_direction(tokens) else {
        return Err(refused(tokens, false));
    };
    let range = read_range(alloc, inner)?;
    let (name, rest) = past_ident(range.rest)?;
    let init = read_start(alloc, kind, rest)?;
    let shape = make_shape(kind, range.item);
    push_port(alloc, ports, &shape, name, init.item)?;
    Ok(Read {
        item: shape,
        rest: init.rest,
    })
}

fn make_shape(kind: DeclKind, range: Option<Range>) -> Shape
    ensures { shape_of result ≡ record { kind = kind; range = maybe bounds_of range } }
{
    Shape { kind, range }
}

/// `[ = expr ]` behind an `output reg`, and nothing behind another port
#[tactic(auto, using(crate::proofs::HeaderSteps::start_steps))]
fn read_start<'a>(
    alloc: Global,
    kind: DeclKind,
    tokens: &'a [Token],
) -> Result<Read<'a, Option<Expr>>, Halt>
    ensures read { IfOk result (λ r. reader.start (lower 255) kind tokens.now ≡ done (maybe tree_of r.item) r.rest.now) }
    ensures halts { IfErr result (λ h. HaltsAs (reader.start (lower 255) kind tokens.now) h) }
    ensures shorter { IfOk result (λ r. length r.rest.now ≤ length tokens.now) }
{
    match kind {
        DeclKind::OutputReg => read_init(alloc, tokens),
        _ => Ok(Read {
            item: None,
            rest: tokens,
        }),
    }
}

/// Puts a port of the shape behind the others.
fn push_port(
    alloc: Global,
    ports: &mut List<Port>,
    shape: &Shape,
    name: &Name,
    init: Option<Expr>,
) -> Result<(), NoMemory>
    ensures { IfOk result (λ _. map port_of ports.new ≡ map port_of ports.old ++ port_at (shape_of shape.now) name.now (maybe tree_of init) ∷ []) }
{
    let range = copy_range(alloc, &shape.range)?;
    let declared = make_decl(shape.kind, range, name.copy(alloc)?, init, None);
    let name = name.copy(alloc)?;
    ports.push(make_port(name, Some(declared)))?;
    Ok(())
}
