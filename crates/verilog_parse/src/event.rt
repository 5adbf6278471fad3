//! Events of processes.
ghost use Rattle.std.specs.Prelude.{[], ◌∷◌, ◌++◌, ◌≡◌, ◌≤◌, ◌<◌, length, IfOk, IfErr, IfSome, IfNone};
ghost use Rattle.verilog_exprs.specs.Halts.{HaltsAs};
ghost use Rattle.verilog_exprs.specs.Next.{Takes, Lacks};
ghost use Rattle.verilog_parse.specs.Forms.{edges_at, PutsEdge};
ghost use Rattle.verilog_reading.specs.ItemReader as reader;
ghost use Rattle.verilog_reading.specs.ItemReader.{separator_in};
ghost use Rattle.verilog_reading.specs.ItemReading.{Separator};
ghost use Rattle.verilog_reading.specs.Outcome.{done};

use cdc_base::List;
use std::alloc::Global;
use verilog_ast::{Edge, EdgeKind, Event};
use verilog_exprs::halt::Halt;
use verilog_exprs::tokens::{Read, after_mark, after_word, past_ident, past_mark};
use verilog_lex::{Keyword, MarkKind, Token};

/// `event`
pub fn read_event<'a>(alloc: Global, tokens: &'a [Token]) -> Result<Read<'a, Event>, Halt>
    ensures read { IfOk result (λ r. reader.event tokens.now ≡ done r.item r.rest.now) }
    ensures halts { IfErr result (λ h. HaltsAs (reader.event tokens.now) h) }
    ensures shorter { IfOk result (λ r. length r.rest.now < length tokens.now) }
{
    let inner = past_mark(tokens, MarkKind::At)?;
    if let Some(rest) = after_mark(inner, MarkKind::Star) {
        return Ok(Read {
            item: Event::Star,
            rest,
        });
    }
    let inner = past_mark(inner, MarkKind::ParenOpen)?;
    read_in_parens(alloc, inner)
}

/// `* )`, or edges and the closing parenthesis
fn read_in_parens<'a>(alloc: Global, tokens: &'a [Token]) -> Result<Read<'a, Event>, Halt>
    ensures read { IfOk result (λ r. reader.in_event tokens.now ≡ done r.item r.rest.now) }
    ensures halts { IfErr result (λ h. HaltsAs (reader.in_event tokens.now) h) }
    ensures shorter { IfOk result (λ r. length r.rest.now < length tokens.now) }
{
    let Some(inner) = after_mark(tokens, MarkKind::Star) else {
        return read_edges(alloc, tokens);
    };
    let rest = past_mark(inner, MarkKind::ParenClose)?;
    Ok(Read {
        item: Event::Star,
        rest,
    })
}

/// `edge { ( or | , ) edge }` and the closing parenthesis
fn read_edges<'a>(alloc: Global, tokens: &'a [Token]) -> Result<Read<'a, Event>, Halt>
    ensures read { IfOk result (λ r. edges_at tokens.now ≡ done r.item r.rest.now) }
    ensures halts { IfErr result (λ h. HaltsAs (edges_at tokens.now) h) }
    ensures shorter { IfOk result (λ r. length r.rest.now < length tokens.now) }
{
    let mut edges = List::new(alloc);
    let mut rest = read_edge(alloc, &mut edges, tokens)?;
    while let Some(after) = after_separator(rest) {
        rest = read_edge(alloc, &mut edges, after)?;
    }
    let rest = past_mark(rest, MarkKind::ParenClose)?;
    Ok(Read {
        item: Event::Edges(edges),
        rest,
    })
}

/// The tokens behind a comma or `or`, where one stands next.
#[tactic(auto, using(crate::proofs::EventSteps::separator_steps))]
fn after_separator(tokens: &[Token]) -> Option<&[Token]>
    ensures found { IfSome result (λ rest. (s : Separator) × Takes separator_in s tokens.now rest.now) }
    ensures free { IfNone result (Lacks separator_in tokens.now) }
    ensures shorter { IfSome result (λ rest. length rest.now < length tokens.now) }
{
    if let Some(rest) = after_mark(tokens, MarkKind::Comma) {
        return Some(rest);
    }
    let rest = after_word(tokens, Keyword::Or)?;
    Some(rest)
}

/// `edge`
fn read_edge<'a>(
    alloc: Global,
    edges: &mut List<Edge>,
    tokens: &'a [Token],
) -> Result<&'a [Token], Halt>
    ensures read { IfOk result (λ rest. PutsEdge (reader.edge tokens.now) edges.old edges.new rest.now) }
    ensures halts { IfErr result (λ h. HaltsAs (reader.edge tokens.now) h) }
    ensures shorter { IfOk result (λ rest. length rest.now < length tokens.now) }
{
    let (kind, inner) = edge_kind(tokens);
    let (name, rest) = past_ident(inner)?;
    let name = name.copy(alloc)?;
    edges.push(Edge { kind, name })?;
    Ok(rest)
}

/// The kind of the edge that follows, and the tokens behind its word, if it has one.
fn edge_kind(tokens: &[Token]) -> (EdgeKind, &[Token])
    ensures found { reader.edge tokens.now ≡ reader.edge_name result.0 result.1.now }
    ensures shorter { length result.1.now ≤ length tokens.now }
{
    if let Some(rest) = after_word(tokens, Keyword::PosEdge) {
        return (EdgeKind::Pos, rest);
    }
    if let Some(rest) = after_word(tokens, Keyword::NegEdge) {
        return (EdgeKind::Neg, rest);
    }
    (EdgeKind::Level, tokens)
}
