//! Delays of the nonblocking assignments of a process: on one path a name has one.
#![tactic(auto)]

ghost use Rattle.std.specs.Prelude.{◌≡◌, option_map, IfOk};
ghost use Rattle.verilog_reading.specs.StmtTree.{stmt_tree_of};
ghost use Rattle.flat_unfolding.specs.Delays.{first_clash as first_clash_of};

pub mod names;
pub mod paths;
pub mod walk;

use cdc_base::NoMemory;
use paths::Paths;
use std::alloc::Global;
use verilog_ast::Stmt;

/// The first name, in textual order, that two nonblocking assignments on one path give two delays. The later assignment
/// wins only where their delays are the same (IEEE 1364-2005, 9.2.2).
pub fn first_clash<'a>(alloc: Global, body: &'a Stmt) -> Result<Option<&'a str>, NoMemory>
    ensures { IfOk result (λ name. option_map (λ n. n.now) name ≡ first_clash_of (stmt_tree_of body.now)) }
{
    if !walk::has_delay(body) {
        return Ok(None);
    }
    let mut paths = Paths::new(alloc);
    walk::walk(alloc, body, &mut paths)
}
