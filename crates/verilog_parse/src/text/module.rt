//! Modules as text.
ghost use Rattle.std.specs.Prelude.{◌≡◌, IfOk, map};
ghost use Rattle.verilog_parse.specs.Texts.{printed_param, printed_header, printed_port, short_decl, printed_item, printed_module, printed_source};
ghost use Rattle.verilog_parse.specs.Printed.{Adds, with_commas, in_turn};

use crate::text::item::{put_decl, put_init, put_item, put_param};
use crate::text::token::{put_comma, put_line_end, put_mark, put_name, put_word};
use cdc_base::NoMemory;
use std::alloc::Global;
use verilog_ast::{Decl, DeclKind, Item, Module, ParamDecl, Port, Source};
use verilog_lex::{Keyword, MarkKind};

pub fn put_source(alloc: Global, out: &mut Vec<u8>, source: &Source) -> Result<(), NoMemory>
    ensures { IfOk result (λ _. Adds out.old.items (printed_source source.now) out.new.items) }
{
    for module in source.modules.as_slice() {
        put_module(alloc, out, module)?;
    }
    Ok(())
}

fn put_module(alloc: Global, out: &mut Vec<u8>, module: &Module) -> Result<(), NoMemory>
    ensures { IfOk result (λ _. Adds out.old.items (printed_module «module».now) out.new.items) }
{
    put_word(out, Keyword::Module)?;
    put_name(out, &module.name)?;
    put_header_params(alloc, out, module.params.as_slice())?;
    put_mark(out, MarkKind::ParenOpen)?;
    put_ports(alloc, out, module.ports.as_slice())?;
    put_mark(out, MarkKind::ParenClose)?;
    put_mark(out, MarkKind::Semicolon)?;
    put_line_end(out)?;
    put_items(alloc, out, module.items.as_slice())?;
    put_word(out, Keyword::EndModule)?;
    put_line_end(out)
}

fn put_items(alloc: Global, out: &mut Vec<u8>, items: &[Item]) -> Result<(), NoMemory>
    ensures { IfOk result (λ _. Adds out.old.items (in_turn (map printed_item items.now)) out.new.items) }
{
    for item in items {
        put_item(alloc, out, item)?;
    }
    Ok(())
}

fn put_header_params(alloc: Global, out: &mut Vec<u8>, params: &[ParamDecl]) -> Result<(), NoMemory>
    ensures { IfOk result (λ _. Adds out.old.items (printed_header params.now) out.new.items) }
{
    if params.is_empty() {
        return Ok(());
    }
    put_mark(out, MarkKind::Hash)?;
    put_mark(out, MarkKind::ParenOpen)?;
    put_params(alloc, out, params)?;
    put_mark(out, MarkKind::ParenClose)
}

fn put_params(alloc: Global, out: &mut Vec<u8>, params: &[ParamDecl]) -> Result<(), NoMemory>
    ensures { IfOk result (λ _. Adds out.old.items (with_commas (map printed_param params.now)) out.new.items) }
{
    for (at, param) in params.iter().enumerate() {
        put_comma(out, at)?;
        put_param(alloc, out, param)?;
    }
    Ok(())
}

fn put_ports(alloc: Global, out: &mut Vec<u8>, ports: &[Port]) -> Result<(), NoMemory>
    ensures { IfOk result (λ _. Adds out.old.items (with_commas (map printed_port ports.now)) out.new.items) }
{
    for (at, port) in ports.iter().enumerate() {
        put_comma(out, at)?;
        put_port(alloc, out, port)?;
    }
    Ok(())
}

fn put_port(alloc: Global, out: &mut Vec<u8>, port: &Port) -> Result<(), NoMemory>
    ensures { IfOk result (λ _. Adds out.old.items (printed_port port.now) out.new.items) }
{
    match &port.decl {
        Some(decl) if !is_short(decl) => put_decl(alloc, out, decl),
        Some(decl) => {
            put_name(out, &port.name)?;
            put_init(alloc, out, &decl.init)
        }
        None => put_name(out, &port.name),
    }
}

/// Whether an entry of a header can only be read in its short form: one with a value that is no `output reg`.
fn is_short(decl: &Decl) -> bool
    ensures { result ≡ short_decl decl.now }
{
    decl.init.is_some() && decl.kind != DeclKind::OutputReg
}
