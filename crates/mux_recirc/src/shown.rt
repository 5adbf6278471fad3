//! What a table for the next values of some bits shows of one of them.
ghost use Rattle.std.specs.Prelude.{◌≡◌, ◌↔◌, ◌<◌, true, List, Contains, IfOk};
ghost use Rattle.cdc_base.specs.declared.bit.Bit.{Bit};
ghost use Rattle.cell_graph.specs.Cofactor.{reads};
ghost use Rattle.cell_graph.specs.Reading as reading;
ghost use Rattle.cofactor.specs.Order.{AreAscending};
ghost use Rattle.domains.specs.Nets.{IsNet};
ghost use Rattle.cdc_model.specs.Nets.{HasNextCells, bit_count, next_tree};
ghost use Rattle.cdc_model.specs.Tables.{ShowsNext};
ghost use Rattle.mux_recirc.specs.Shown.{keeps};

use cdc_base::{Bit, List, NoMemory};
use cdc_model::view::next_node;
use cell_graph::Net;
use cofactor::Table;
use std::alloc::Global;

/// Whether the bit keeps its value under the table's cube.
pub fn keeps_value(net: &Net, table: &Table, bit: Bit) -> bool
    ensures { (cube : reading.Cube) (bits : List Bit) → IsNet net.now → HasNextCells net.now → ShowsNext net.now cube table.now bits → Contains bits bit →
        bit.at < bit_count net.now.graph.signals bit.sig → result ≡ keeps net.now cube bit }
{
    match next_node(net, bit) {
        Some(node) => match table.same(node) {
            Some(same) => same == bit,
            None => false,
        },
        None => false,
    }
}

/// The bits that the bit reads under the table's cube, ascending.
pub fn bits_read_under(
    alloc: Global,
    net: &Net,
    table: &mut Table,
    bit: Bit,
) -> Result<List<Bit>, NoMemory>
    ensures exact { IfOk result (λ read. (cube : reading.Cube) (bits : List Bit) → IsNet net.now → HasNextCells net.now → ShowsNext net.now cube table.old bits →
        Contains bits bit → bit.at < bit_count net.now.graph.signals bit.sig → (b : Bit) → Contains read b ↔ (reads cube (next_tree net.now bit.sig) bit.at b ≡ true)) }
    ensures ascending { IfOk result (λ read. AreAscending read) }
    ensures unchanged { table.new ≡ table.old }
{
    match next_node(net, bit) {
        Some(node) => table.reads(alloc, net, node),
        None => Ok(List::new(alloc)),
    }
}
