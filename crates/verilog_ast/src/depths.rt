//! How deep statements, targets, expressions and sources are. A depth stands still at the end of `u32`.
ghost use Rattle.std.specs.Prelude.{◌≡◌, ◌+◌, map};
ghost use Rattle.verilog_ast.specs.Depth.{capped, greatest, optional};
ghost use Rattle.verilog_ast.specs.Depth.{expr_depth, label_depth, target_depth, stmt_depth, case_item_depth};
ghost use Rattle.verilog_ast.specs.Depth.{range_depth, param_depth, decl_depth, port_depth, conn_depth, conns_depth};
ghost use Rattle.verilog_ast.specs.Depth.{body_depth, item_depth, module_depth, source_depth};

use crate::{
    CaseItem, Conn, Conns, Decl, Expr, Item, ItemBody, Label, Module, ParamDecl, Port, Range,
    Source, Stmt, Target,
};

/// The greatest depth of a statement, target or expression in the source, 0 where it has none. A leaf has depth 1,
/// any other one more than its deepest part. Items, ranges, connections and the items of a `case` are no levels.
/// It takes no memory.
pub fn depth(source: &Source) -> u32
    ensures { result ≡ capped (source_depth source.now) }
{
    let mut most = 0;
    for module in source.modules.as_slice() {
        most = depth_of_module(module).max(most);
    }
    most
}

fn depth_of_module(module: &Module) -> u32
    ensures { result ≡ capped (module_depth «module».now) }
{
    deepest_param(module.params.as_slice())
        .max(deepest_port(module.ports.as_slice()))
        .max(deepest_item(module.items.as_slice()))
}

fn deepest_param(params: &[ParamDecl]) -> u32
    ensures { result ≡ capped (greatest (map param_depth params.now)) }
{
    let mut most = 0;
    for param in params {
        most = depth_of_param(param).max(most);
    }
    most
}

fn deepest_port(ports: &[Port]) -> u32
    ensures { result ≡ capped (greatest (map port_depth ports.now)) }
{
    let mut most = 0;
    for port in ports {
        most = depth_of_port(port).max(most);
    }
    most
}

fn deepest_item(items: &[Item]) -> u32
    ensures { result ≡ capped (greatest (map item_depth items.now)) }
{
    let mut most = 0;
    for item in items {
        most = depth_of_body(&item.body).max(most);
    }
    most
}

fn depth_of_param(param: &ParamDecl) -> u32
    ensures { result ≡ capped (param_depth param.now) }
{
    depth_of_range(&param.range).max(depth_of_expr(&param.value))
}

fn depth_of_port(port: &Port) -> u32
    ensures { result ≡ capped (port_depth port.now) }
{
    match &port.decl {
        Some(decl) => depth_of_decl(decl),
        None => 0,
    }
}

fn depth_of_decl(decl: &Decl) -> u32
    ensures { result ≡ capped (decl_depth decl.now) }
{
    depth_of_range(&decl.range)
        .max(depth_of_optional(&decl.init))
        .max(depth_of_range(&decl.array))
}

fn depth_of_range(range: &Option<Range>) -> u32
    ensures { result ≡ capped (optional range_depth range.now) }
{
    match range {
        Some(range) => depth_of_expr(&range.left).max(depth_of_expr(&range.right)),
        None => 0,
    }
}

fn depth_of_optional(expr: &Option<Expr>) -> u32
    ensures { result ≡ capped (optional expr_depth expr.now) }
{
    match expr {
        Some(expr) => depth_of_expr(expr),
        None => 0,
    }
}

fn depth_of_body(body: &ItemBody) -> u32
    ensures { result ≡ capped (body_depth body.now) }
{
    match body {
        ItemBody::Param(param) => depth_of_param(param),
        ItemBody::Decl(decl) => depth_of_decl(decl),
        ItemBody::Assign { target, value } => depth_of_target(target).max(depth_of_expr(value)),
        ItemBody::Gate { terminals, .. } => deepest_expr(terminals.as_slice()),
        ItemBody::Instance { params, ports, .. } => {
            depth_of_conns(params).max(depth_of_conns(ports))
        }
        ItemBody::Always { body, .. } | ItemBody::Initial(body) => depth_of_stmt(body),
    }
}

fn depth_of_conns(conns: &Conns) -> u32
    ensures { result ≡ capped (conns_depth conns.now) }
{
    match conns {
        Conns::Ordered(entries) => deepest_optional(entries.as_slice()),
        Conns::Named(entries) => deepest_conn(entries.as_slice()),
    }
}

fn deepest_optional(entries: &[Option<Expr>]) -> u32
    ensures { result ≡ capped (greatest (map (optional expr_depth) entries.now)) }
{
    let mut most = 0;
    for entry in entries {
        most = depth_of_optional(entry).max(most);
    }
    most
}

fn deepest_conn(entries: &[Conn]) -> u32
    ensures { result ≡ capped (greatest (map conn_depth entries.now)) }
{
    let mut most = 0;
    for entry in entries {
        most = depth_of_optional(&entry.value).max(most);
    }
    most
}

#[cycle(depth_of_stmt)]
fn depth_of_stmt(stmt: &Stmt) -> u32
    ensures { result ≡ capped (stmt_depth stmt.now) }
{
    match stmt {
        Stmt::Null => 1,
        Stmt::Set { target, value, .. } => above(depth_of_target(target).max(depth_of_expr(value))),
        Stmt::If { cond, yes, other } => {
            let most = depth_of_expr(cond).max(depth_of_stmt(yes));
            match other {
                Some(other) => above(most.max(depth_of_stmt(other))),
                None => above(most),
            }
        }
        Stmt::Case {
            subject,
            items,
            default,
            ..
        } => {
            let most = depth_of_expr(subject).max(deepest_case_item(items.as_slice()));
            match default {
                Some(other) => above(most.max(depth_of_stmt(other))),
                None => above(most),
            }
        }
        Stmt::Block(parts) => above(deepest_stmt(parts.as_slice())),
    }
}

#[cycle(depth_of_stmt)]
fn deepest_stmt(parts: &[Stmt]) -> u32
    ensures { result ≡ capped (greatest (map stmt_depth parts.now)) }
{
    let mut most = 0;
    for part in parts {
        most = depth_of_stmt(part).max(most);
    }
    most
}

#[cycle(depth_of_stmt)]
fn deepest_case_item(items: &[CaseItem]) -> u32
    ensures { result ≡ capped (greatest (map case_item_depth items.now)) }
{
    let mut most = 0;
    for item in items {
        let here = deepest_label(item.labels.as_slice()).max(depth_of_stmt(&item.body));
        most = here.max(most);
    }
    most
}

fn deepest_label(labels: &[Label]) -> u32
    ensures { result ≡ capped (greatest (map label_depth labels.now)) }
{
    let mut most = 0;
    for label in labels {
        most = depth_of_label(label).max(most);
    }
    most
}

fn depth_of_label(label: &Label) -> u32
    ensures { result ≡ capped (label_depth label.now) }
{
    match label {
        Label::Value(value) => depth_of_expr(value),
        Label::Mask { .. } => 1,
    }
}

#[cycle(depth_of_target)]
fn depth_of_target(target: &Target) -> u32
    ensures { result ≡ capped (target_depth target.now) }
{
    match target {
        Target::Whole(_) => 1,
        Target::At { index, .. } => above(depth_of_expr(index)),
        Target::Part { left, right, .. } => above(depth_of_expr(left).max(depth_of_expr(right))),
        Target::Join(parts) => above(deepest_target(parts.as_slice())),
    }
}

#[cycle(depth_of_target)]
fn deepest_target(parts: &[Target]) -> u32
    ensures { result ≡ capped (greatest (map target_depth parts.now)) }
{
    let mut most = 0;
    for part in parts {
        most = depth_of_target(part).max(most);
    }
    most
}

#[cycle(depth_of_expr)]
fn depth_of_expr(expr: &Expr) -> u32
    ensures { result ≡ capped (expr_depth expr.now) }
{
    match expr {
        Expr::Number { .. } | Expr::Ident(_) => 1,
        Expr::At { index, .. } => above(depth_of_expr(index)),
        Expr::Part { left, right, .. } => above(depth_of_expr(left).max(depth_of_expr(right))),
        Expr::Unary { a, .. } => above(depth_of_expr(a)),
        Expr::Binary { a, b, .. } => above(depth_of_expr(a).max(depth_of_expr(b))),
        Expr::Choose { cond, yes, other } => above(
            depth_of_expr(cond)
                .max(depth_of_expr(yes))
                .max(depth_of_expr(other)),
        ),
        Expr::Join(parts) => above(deepest_expr(parts.as_slice())),
        Expr::Repeat { count, parts } => {
            above(depth_of_expr(count).max(deepest_expr(parts.as_slice())))
        }
        Expr::Paren(inner) => above(depth_of_expr(inner)),
    }
}

#[cycle(depth_of_expr)]
fn deepest_expr(exprs: &[Expr]) -> u32
    ensures { result ≡ capped (greatest (map expr_depth exprs.now)) }
{
    let mut most = 0;
    for expr in exprs {
        most = depth_of_expr(expr).max(most);
    }
    most
}

/// One level above a depth.
fn above(depth: u32) -> u32
    ensures { result ≡ capped (depth + 1) }
{
    depth.saturating_add(1)
}
