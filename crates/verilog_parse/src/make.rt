//! Items, modules and sources of parts that were read.
ghost use Rattle.std.specs.Prelude.{◌≡◌, map};
ghost use Rattle.verilog_items.specs.Forms.{header_ports};
ghost use Rattle.verilog_parse.specs.Forms.{module_at};
ghost use Rattle.verilog_reading.specs.ItemReading.{item_at};
ghost use Rattle.verilog_reading.specs.SourceTree.{param_of, item_of, module_of, source_of, always, initial};
ghost use Rattle.verilog_reading.specs.StmtTree.{stmt_tree_of};

use cdc_base::{List, Name, Place};
use verilog_ast::{Event, Item, ItemBody, Module, ParamDecl, Source, Stmt};
use verilog_items::header::Ports;

pub fn always_item(place: Place, event: Event, body: Stmt) -> Item
    ensures { item_of result ≡ item_at place (always event (stmt_tree_of body)) }
{
    Item {
        place,
        body: ItemBody::Always { event, body },
    }
}

pub fn initial_item(place: Place, body: Stmt) -> Item
    ensures { item_of result ≡ item_at place (initial (stmt_tree_of body)) }
{
    Item {
        place,
        body: ItemBody::Initial(body),
    }
}

pub fn make_module(
    place: Place,
    name: Name,
    params: List<ParamDecl>,
    ports: Ports,
    items: List<Item>,
) -> Module
    ensures { module_of result ≡ module_at place name (map param_of params) (header_ports ports) (map item_of items) }
{
    Module {
        place,
        name,
        ansi: ports.ansi,
        params,
        ports: ports.list,
        items,
    }
}

pub fn make_source(modules: List<Module>) -> Source
    ensures { source_of result ≡ map module_of modules }
{
    Source { modules }
}
