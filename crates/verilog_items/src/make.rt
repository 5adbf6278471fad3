//! Items of parts that were read.
ghost use Rattle.std.specs.Prelude.{◌≡◌, List, map};
ghost use Rattle.cdc_base.specs.declared.fault.Place.{Place};
ghost use Rattle.verilog_reading.specs.ExprTree.{tree_of, target_tree_of};
ghost use Rattle.verilog_reading.specs.ItemReading.{item_at, entries};
ghost use Rattle.verilog_reading.specs.SourceTree.{maybe, bounds_of, param_of, decl_of, port_of, conn_of, conns_of, item_of, param, decl, assign, gate, instance, ordered, named};

use cdc_base::{List, Name, Place};
use std::alloc::Global;
use verilog_ast::{
    Conn, Conns, Decl, DeclKind, Expr, GateKind, Item, ItemBody, ParamDecl, Port, Range, Target,
};

pub fn make_range(left: Expr, right: Expr) -> Range
    ensures { bounds_of result ≡ record { left = tree_of left; right = tree_of right } }
{
    Range { left, right }
}

pub fn make_decl(
    kind: DeclKind,
    range: Option<Range>,
    name: Name,
    init: Option<Expr>,
    array: Option<Range>,
) -> Decl
    ensures { decl_of result ≡ record { kind = kind; range = maybe bounds_of range; name = name; init = maybe tree_of init; array = maybe bounds_of array } }
{
    Decl {
        kind,
        range,
        name,
        init,
        array,
    }
}

pub fn make_port(name: Name, declared: Option<Decl>) -> Port
    ensures { port_of result ≡ record { name = name; decl = maybe decl_of declared } }
{
    Port {
        name,
        decl: declared,
    }
}

pub fn decl_item(place: Place, declared: Decl) -> Item
    ensures { item_of result ≡ item_at place (decl (decl_of declared)) }
{
    Item {
        place,
        body: ItemBody::Decl(declared),
    }
}

pub fn make_param(local: bool, range: Option<Range>, name: Name, value: Expr) -> ParamDecl
    ensures { param_of result ≡ record { local = local; range = maybe bounds_of range; name = name; value = tree_of value } }
{
    ParamDecl {
        local,
        range,
        name,
        value,
    }
}

pub fn param_item(place: Place, declared: ParamDecl) -> Item
    ensures { item_of result ≡ item_at place (param (param_of declared)) }
{
    Item {
        place,
        body: ItemBody::Param(declared),
    }
}

pub fn assign_item(place: Place, target: Target, value: Expr) -> Item
    ensures { item_of result ≡ item_at place (assign (target_tree_of target) (tree_of value)) }
{
    Item {
        place,
        body: ItemBody::Assign { target, value },
    }
}

pub fn gate_item(place: Place, kind: GateKind, terminals: List<Expr>) -> Item
    ensures { item_of result ≡ item_at place (gate kind (map tree_of terminals)) }
{
    Item {
        place,
        body: ItemBody::Gate { kind, terminals },
    }
}

pub fn make_conn(name: Name, value: Option<Expr>) -> Conn
    ensures { conn_of result ≡ record { name = name; value = maybe tree_of value } }
{
    Conn { name, value }
}

pub fn named_conns(conns: List<Conn>) -> Conns
    ensures { conns_of result ≡ named (map conn_of conns) }
{
    Conns::Named(conns)
}

/// A single empty entry counts as none.
pub fn ordered_conns(alloc: Global, values: List<Option<Expr>>) -> Conns
    ensures { conns_of result ≡ ordered (entries (map (maybe tree_of) values)) }
{
    match values.as_slice() {
        [None] => Conns::Ordered(List::new(alloc)),
        _ => Conns::Ordered(values),
    }
}

pub fn instance_item(place: Place, child: Name, params: Conns, name: Name, ports: Conns) -> Item
    ensures { item_of result ≡ item_at place (instance child (conns_of params) name (conns_of ports)) }
{
    Item {
        place,
        body: ItemBody::Instance {
            module: child,
            params,
            name,
            ports,
        },
    }
}
