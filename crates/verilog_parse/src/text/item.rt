//! Items as text.
ghost use Rattle.std.specs.Prelude.{◌≡◌, IfOk, map};
ghost use Rattle.cdc_base.specs.declared.words.Keyword.TheVariants as k;
ghost use Rattle.verilog_parse.specs.Texts.{is_empty_list, printed_range, printed_init, printed_value, printed_conn, printed_conns};
ghost use Rattle.verilog_parse.specs.Texts.{printed_param, printed_decl, printed_item};
ghost use Rattle.verilog_parse.specs.Pieces as pieces;
ghost use Rattle.verilog_parse.specs.Pieces.{body_pieces, assign_pieces, gate_pieces, kind_pieces, event_pieces, edge_pieces, edge_words, instance_pieces, overrides_pieces, entries_pieces};
ghost use Rattle.verilog_parse.specs.Printed.{Adds, with_commas, separated, word};
ghost use Rattle.verilog_reading.specs.ExprTree.{tree_of, target_tree_of};
ghost use Rattle.verilog_reading.specs.ItemReading as reading;
ghost use Rattle.verilog_reading.specs.SourceTree.{conns_of, body_of};

use crate::text::expr::{put_expr, put_exprs, put_target};
use crate::text::stmt::put_stmt;
use crate::text::token::{put_comma, put_line_end, put_mark, put_name, put_or, put_word};
use cdc_base::{Name, NoMemory};
use std::alloc::Global;
use verilog_ast::{
    Conn, Conns, Decl, DeclKind, Edge, EdgeKind, Event, Expr, GateKind, Item, ItemBody, ParamDecl,
    Range, Target,
};
use verilog_lex::{Keyword, MarkKind};

/// The item and the end of its line.
pub fn put_item(alloc: Global, out: &mut Vec<u8>, item: &Item) -> Result<(), NoMemory>
    ensures { IfOk result (λ _. Adds out.old.items (printed_item item.now) out.new.items) }
{
    put_body(alloc, out, &item.body)?;
    put_line_end(out)
}

fn put_body(alloc: Global, out: &mut Vec<u8>, body: &ItemBody) -> Result<(), NoMemory>
    ensures { IfOk result (λ _. Adds out.old.items (body_pieces (body_of body.now)) out.new.items) }
{
    match body {
        ItemBody::Param(param) => {
            put_param(alloc, out, param)?;
            put_mark(out, MarkKind::Semicolon)
        }
        ItemBody::Decl(decl) => {
            put_decl(alloc, out, decl)?;
            put_mark(out, MarkKind::Semicolon)
        }
        ItemBody::Assign { target, value } => put_assign(alloc, out, target, value),
        ItemBody::Gate { kind, terminals } => put_gate(alloc, out, *kind, terminals.as_slice()),
        ItemBody::Instance {
            module,
            params,
            name,
            ports,
        } => put_instance(alloc, out, module, params, name, ports),
        ItemBody::Always { event, body } => {
            put_word(out, Keyword::Always)?;
            put_event(out, event)?;
            put_stmt(alloc, out, body)
        }
        ItemBody::Initial(body) => {
            put_word(out, Keyword::Initial)?;
            put_stmt(alloc, out, body)
        }
    }
}

fn put_assign(
    alloc: Global,
    out: &mut Vec<u8>,
    target: &Target,
    value: &Expr,
) -> Result<(), NoMemory>
    ensures { IfOk result (λ _. Adds out.old.items (assign_pieces (target_tree_of target.now) (tree_of value.now)) out.new.items) }
{
    put_word(out, Keyword::Assign)?;
    put_target(alloc, out, target)?;
    put_mark(out, MarkKind::Equals)?;
    put_expr(alloc, out, value)?;
    put_mark(out, MarkKind::Semicolon)
}

fn put_gate(
    alloc: Global,
    out: &mut Vec<u8>,
    kind: GateKind,
    terminals: &[Expr],
) -> Result<(), NoMemory>
    ensures { IfOk result (λ _. Adds out.old.items (gate_pieces kind (map tree_of terminals.now)) out.new.items) }
{
    put_word(out, gate_word(kind))?;
    put_mark(out, MarkKind::ParenOpen)?;
    put_exprs(alloc, out, terminals)?;
    put_mark(out, MarkKind::ParenClose)?;
    put_mark(out, MarkKind::Semicolon)
}

fn param_word(local: bool) -> Keyword
    ensures { result ≡ reading.param_word local }
{
    if local {
        Keyword::LocalParam
    } else {
        Keyword::Parameter
    }
}

/// The parameter with the word before it, as an item or an entry of a header.
pub fn put_param(alloc: Global, out: &mut Vec<u8>, param: &ParamDecl) -> Result<(), NoMemory>
    ensures { IfOk result (λ _. Adds out.old.items (printed_param param.now) out.new.items) }
{
    put_word(out, param_word(param.local))?;
    put_range(alloc, out, &param.range)?;
    put_name(out, &param.name)?;
    put_mark(out, MarkKind::Equals)?;
    put_expr(alloc, out, &param.value)
}

fn put_range(alloc: Global, out: &mut Vec<u8>, range: &Option<Range>) -> Result<(), NoMemory>
    ensures { IfOk result (λ _. Adds out.old.items (printed_range range.now) out.new.items) }
{
    let Some(range) = range else {
        return Ok(());
    };
    put_mark(out, MarkKind::BracketOpen)?;
    put_expr(alloc, out, &range.left)?;
    put_mark(out, MarkKind::Colon)?;
    put_expr(alloc, out, &range.right)?;
    put_mark(out, MarkKind::BracketClose)
}

/// The declaration with the word or words of its kind before it, as an item or an entry of a header.
pub fn put_decl(alloc: Global, out: &mut Vec<u8>, decl: &Decl) -> Result<(), NoMemory>
    ensures { IfOk result (λ _. Adds out.old.items (printed_decl decl.now) out.new.items) }
{
    put_kind(out, decl.kind)?;
    put_range(alloc, out, &decl.range)?;
    put_name(out, &decl.name)?;
    put_range(alloc, out, &decl.array)?;
    put_init(alloc, out, &decl.init)
}

fn put_kind(out: &mut Vec<u8>, kind: DeclKind) -> Result<(), NoMemory>
    ensures { IfOk result (λ _. Adds out.old.items (kind_pieces kind) out.new.items) }
{
    match kind {
        DeclKind::Input => put_word(out, Keyword::Input),
        DeclKind::Output => put_word(out, Keyword::Output),
        DeclKind::OutputReg => {
            put_word(out, Keyword::Output)?;
            put_word(out, Keyword::Reg)
        }
        DeclKind::Wire => put_word(out, Keyword::Wire),
        DeclKind::Reg => put_word(out, Keyword::Reg),
    }
}

pub fn put_init(alloc: Global, out: &mut Vec<u8>, init: &Option<Expr>) -> Result<(), NoMemory>
    ensures { IfOk result (λ _. Adds out.old.items (printed_init init.now) out.new.items) }
{
    let Some(value) = init else {
        return Ok(());
    };
    put_mark(out, MarkKind::Equals)?;
    put_expr(alloc, out, value)
}

fn gate_word(kind: GateKind) -> Keyword
    ensures { result ≡ pieces.gate_word kind }
{
    match kind {
        GateKind::And => Keyword::And,
        GateKind::Nand => Keyword::Nand,
        GateKind::Or => Keyword::Or,
        GateKind::Nor => Keyword::Nor,
        GateKind::Xor => Keyword::Xor,
        GateKind::Xnor => Keyword::Xnor,
        GateKind::Buf => Keyword::Buf,
        GateKind::Not => Keyword::Not,
    }
}

fn put_instance(
    alloc: Global,
    out: &mut Vec<u8>,
    module: &Name,
    params: &Conns,
    name: &Name,
    ports: &Conns,
) -> Result<(), NoMemory>
    ensures { IfOk result (λ _. Adds out.old.items (instance_pieces «module».now (conns_of params.now) name.now (conns_of ports.now)) out.new.items) }
{
    put_name(out, module)?;
    put_overrides(alloc, out, params)?;
    put_name(out, name)?;
    put_conns(alloc, out, ports)?;
    put_mark(out, MarkKind::Semicolon)
}

/// The overrides of an instance, if there are any.
fn put_overrides(alloc: Global, out: &mut Vec<u8>, params: &Conns) -> Result<(), NoMemory>
    ensures { IfOk result (λ _. Adds out.old.items (overrides_pieces (conns_of params.now)) out.new.items) }
{
    if is_empty(params) {
        return Ok(());
    }
    put_mark(out, MarkKind::Hash)?;
    put_conns(alloc, out, params)
}

fn is_empty(conns: &Conns) -> bool
    ensures { result ≡ is_empty_list conns.now }
{
    match conns {
        Conns::Ordered(values) => values.len() == 0,
        Conns::Named(_) => false,
    }
}

/// The connections in parentheses.
fn put_conns(alloc: Global, out: &mut Vec<u8>, conns: &Conns) -> Result<(), NoMemory>
    ensures { IfOk result (λ _. Adds out.old.items (printed_conns conns.now) out.new.items) }
{
    put_mark(out, MarkKind::ParenOpen)?;
    put_entries(alloc, out, conns)?;
    put_mark(out, MarkKind::ParenClose)
}

fn put_entries(alloc: Global, out: &mut Vec<u8>, conns: &Conns) -> Result<(), NoMemory>
    ensures { IfOk result (λ _. Adds out.old.items (entries_pieces (conns_of conns.now)) out.new.items) }
{
    match conns {
        Conns::Ordered(values) => put_values(alloc, out, values.as_slice()),
        Conns::Named(conns) => put_named(alloc, out, conns.as_slice()),
    }
}

fn put_value(alloc: Global, out: &mut Vec<u8>, value: &Option<Expr>) -> Result<(), NoMemory>
    ensures { IfOk result (λ _. Adds out.old.items (printed_value value.now) out.new.items) }
{
    match value {
        Some(value) => put_expr(alloc, out, value),
        None => Ok(()),
    }
}

fn put_values(alloc: Global, out: &mut Vec<u8>, values: &[Option<Expr>]) -> Result<(), NoMemory>
    ensures { IfOk result (λ _. Adds out.old.items (with_commas (map printed_value values.now)) out.new.items) }
{
    for (at, value) in values.iter().enumerate() {
        put_comma(out, at)?;
        put_value(alloc, out, value)?;
    }
    Ok(())
}

fn put_named(alloc: Global, out: &mut Vec<u8>, conns: &[Conn]) -> Result<(), NoMemory>
    ensures { IfOk result (λ _. Adds out.old.items (with_commas (map printed_conn conns.now)) out.new.items) }
{
    for (at, conn) in conns.iter().enumerate() {
        put_comma(out, at)?;
        put_conn(alloc, out, conn)?;
    }
    Ok(())
}

fn put_conn(alloc: Global, out: &mut Vec<u8>, conn: &Conn) -> Result<(), NoMemory>
    ensures { IfOk result (λ _. Adds out.old.items (printed_conn conn.now) out.new.items) }
{
    put_mark(out, MarkKind::Dot)?;
    put_name(out, &conn.name)?;
    put_mark(out, MarkKind::ParenOpen)?;
    put_value(alloc, out, &conn.value)?;
    put_mark(out, MarkKind::ParenClose)
}

fn put_event(out: &mut Vec<u8>, event: &Event) -> Result<(), NoMemory>
    ensures { IfOk result (λ _. Adds out.old.items (event_pieces event.now) out.new.items) }
{
    put_mark(out, MarkKind::At)?;
    match event {
        Event::Star => put_mark(out, MarkKind::Star),
        Event::Edges(edges) => {
            put_mark(out, MarkKind::ParenOpen)?;
            put_edges(out, edges.as_slice())?;
            put_mark(out, MarkKind::ParenClose)
        }
    }
}

fn put_edges(out: &mut Vec<u8>, edges: &[Edge]) -> Result<(), NoMemory>
    ensures { IfOk result (λ _. Adds out.old.items (separated (word k.Or) (map edge_pieces edges.now)) out.new.items) }
{
    for (at, edge) in edges.iter().enumerate() {
        put_or(out, at)?;
        put_edge(out, edge)?;
    }
    Ok(())
}

fn put_edge(out: &mut Vec<u8>, edge: &Edge) -> Result<(), NoMemory>
    ensures { IfOk result (λ _. Adds out.old.items (edge_pieces edge.now) out.new.items) }
{
    put_edge_kind(out, edge.kind)?;
    put_name(out, &edge.name)
}

fn put_edge_kind(out: &mut Vec<u8>, kind: EdgeKind) -> Result<(), NoMemory>
    ensures { IfOk result (λ _. Adds out.old.items (edge_words kind) out.new.items) }
{
    match kind {
        EdgeKind::Pos => put_word(out, Keyword::PosEdge),
        EdgeKind::Neg => put_word(out, Keyword::NegEdge),
        EdgeKind::Level => Ok(()),
    }
}
