//! Items and modules.
ghost use Rattle.std.specs.Prelude.{List, ◌≡◌, ◌<◌, map, length, IfOk, IfErr};
ghost use Rattle.cdc_base.specs.declared.words.Keyword.TheVariants.{EndModule};
ghost use Rattle.verilog_exprs.specs.Halts.{HaltsAs};
ghost use Rattle.verilog_items.specs.Forms.{place_at, Puts};
ghost use Rattle.verilog_lex.specs.declared.token.Token.{Token};
ghost use Rattle.verilog_parse.specs.Forms.{process_at, ItemsRead};
ghost use Rattle.verilog_reading.specs.ItemReader as reader;
ghost use Rattle.verilog_reading.specs.Lexemes.{word_in};
ghost use Rattle.verilog_reading.specs.Lists.{many};
ghost use Rattle.verilog_reading.specs.Outcome.{done};
ghost use Rattle.verilog_reading.specs.SourceTree.{module_of, source_of};
ghost use Rattle.verilog_reading.specs.StmtReader.{lower};

use crate::event::read_event;
use crate::make::{always_item, initial_item, make_module, make_source};
use cdc_base::limits::MAX_DEPTH;
use cdc_base::{List, Place};
use std::alloc::Global;
use verilog_ast::{Item, Module, Source};
use verilog_exprs::halt::Halt;
use verilog_exprs::tokens::{
    Read, after_ident, after_word, is_at_end, past_ident, past_mark, past_word,
};
use verilog_items::decl::{after_kind, after_parameter, read_assigns, read_decls, read_params};
use verilog_items::header::{read_header_params, read_ports};
use verilog_items::instance::{after_gate, read_gates, read_instances};
use verilog_lex::{Keyword, MarkKind, Token};
use verilog_stmts::stmt::read_stmt;

/// The modules up to the end of the tokens.
pub fn read_source(alloc: Global, tokens: &[Token]) -> Result<Source, Halt>
    ensures read { IfOk result (λ s. (rest : List Token) × (reader.read_source 255 tokens.now ≡ done (source_of s) rest)) }
    ensures halts { IfErr result (λ h. HaltsAs (reader.read_source 255 tokens.now) h) }
{
    let mut modules = List::new(alloc);
    let mut rest = tokens;
    'modules: loop {
        if is_at_end(rest) {
            return Ok(make_source(modules));
        }
        let next = read_module(alloc, rest)?;
        modules.push(next.item)?;
        rest = next.rest;
    }
}

/// `module`
fn read_module<'a>(alloc: Global, tokens: &'a [Token]) -> Result<Read<'a, Module>, Halt>
    ensures read { IfOk result (λ r. reader.read_module (lower 255) tokens.now ≡ done (module_of r.item) r.rest.now) }
    ensures halts { IfErr result (λ h. HaltsAs (reader.read_module (lower 255) tokens.now) h) }
    ensures shorter { IfOk result (λ r. length r.rest.now < length tokens.now) }
{
    let place = place_of(tokens);
    let inner = past_word(tokens, Keyword::Module)?;
    let (name, inner) = past_ident(inner)?;
    let params = read_header_params(alloc, inner)?;
    let ports = read_ports(alloc, params.rest)?;
    let inner = past_mark(ports.rest, MarkKind::Semicolon)?;
    let items = read_items(alloc, inner)?;
    let name = name.copy(alloc)?;
    Ok(Read {
        item: make_module(place, name, params.item, ports.item, items.item),
        rest: items.rest,
    })
}

/// The place of the next token.
fn place_of(tokens: &[Token]) -> Place
    ensures { result ≡ place_at tokens.now }
{
    match tokens.first() {
        Some(first) => first.place,
        None => Place { line: 0, column: 0 },
    }
}

/// `{ item }` and `endmodule`
fn read_items<'a>(alloc: Global, tokens: &'a [Token]) -> Result<Read<'a, List<Item>>, Halt>
    ensures read { IfOk result (λ r. ItemsRead (lower 255) tokens.now r.item r.rest.now) }
    ensures halts { IfErr result (λ h. HaltsAs (many (word_in EndModule) (reader.item (lower 255)) tokens.now) h) }
    ensures shorter { IfOk result (λ r. length r.rest.now < length tokens.now) }
{
    let mut items = List::new(alloc);
    let mut rest = tokens;
    'items: loop {
        if let Some(after) = after_word(rest, Keyword::EndModule) {
            return Ok(Read {
                item: items,
                rest: after,
            });
        }
        rest = read_item(alloc, &mut items, rest)?;
    }
}

/// `item`, which is as many items as it has entries.
fn read_item<'a>(
    alloc: Global,
    items: &mut List<Item>,
    tokens: &'a [Token],
) -> Result<&'a [Token], Halt>
    ensures read { IfOk result (λ rest. Puts (reader.item (lower 255) tokens.now) items.old items.new rest.now) }
    ensures halts { IfErr result (λ h. HaltsAs (reader.item (lower 255) tokens.now) h) }
    ensures shorter { IfOk result (λ rest. length rest.now < length tokens.now) }
{
    let place = place_of(tokens);
    if let Some((kind, rest)) = after_kind(tokens) {
        return read_decls(alloc, items, place, kind, rest);
    }
    if let Some((local, rest)) = after_parameter(tokens) {
        return read_params(alloc, items, place, local, rest);
    }
    if let Some(rest) = after_word(tokens, Keyword::Assign) {
        return read_assigns(alloc, items, place, rest);
    }
    if let Some((kind, rest)) = after_gate(tokens) {
        return read_gates(alloc, items, place, kind, rest);
    }
    if let Some((child, rest)) = after_ident(tokens) {
        return read_instances(alloc, items, place, child, rest);
    }
    read_process(alloc, items, tokens)
}

/// `always event stmt | initial stmt`
fn read_process<'a>(
    alloc: Global,
    items: &mut List<Item>,
    tokens: &'a [Token],
) -> Result<&'a [Token], Halt>
    ensures read { IfOk result (λ rest. Puts (process_at (lower 255) tokens.now) items.old items.new rest.now) }
    ensures halts { IfErr result (λ h. HaltsAs (process_at (lower 255) tokens.now) h) }
    ensures shorter { IfOk result (λ rest. length rest.now < length tokens.now) }
{
    let place = place_of(tokens);
    if let Some(inner) = after_word(tokens, Keyword::Always) {
        let event = read_event(alloc, inner)?;
        let body = read_stmt(alloc, event.rest, MAX_DEPTH - 1)?;
        items.push(always_item(place, event.item, body.item))?;
        return Ok(body.rest);
    }
    let inner = past_word(tokens, Keyword::Initial)?;
    let body = read_stmt(alloc, inner, MAX_DEPTH - 1)?;
    items.push(initial_item(place, body.item))?;
    Ok(body.rest)
}
