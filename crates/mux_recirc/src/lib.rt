//! Loads of data under a handshake.
#![tactic(auto)]

ghost use Rattle.std.specs.Prelude.{◌≡◌, [], Bool, List, IfOk};
ghost use Rattle.cdc_model.specs.declared.scheme.GrayReg.{GrayReg as GrayRegOf};
ghost use Rattle.cdc_model.specs.Nets.{design_of, net_trees};
ghost use Rattle.cdc_model.specs.Ordered.{IsAll};
ghost use Rattle.cdc_model.specs.Schemes.{Ring as RingOf};
ghost use Rattle.cdc_model.specs.Verdict.{IsFirstLoad, load_key};
ghost use Rattle.mux_recirc.specs.Given.{AreGiven};

pub mod blind;
pub mod guards;
pub mod held;
pub mod parts;
pub mod questions;
pub mod shown;

use cdc_base::{List, NoMemory};
use cdc_model::view::plain_table;
use cdc_model::{Crossing, Load, Ring};
use cell_graph::Net;
use domains::Domains;
pub use guards::Guards;
use std::alloc::Global;

/// All loads of the net, each with its first ring, in the order of the crossings. `Guards` says more of the rings.
pub fn loads(
    alloc: Global,
    net: &Net,
    domains: &Domains,
    crossings: &[Crossing],
    rings: &[Ring],
) -> Result<List<Load>, NoMemory>
    ensures exact { IfOk result (λ loads. (grays : GrayRegOf → Bool) (list : List RingOf) → AreGiven net.now domains.now grays crossings.now list rings.now →
        IsAll (IsFirstLoad (design_of net.now domains.now) (net_trees net.now grays) list) load_key loads) }
{
    let mut plain = plain_table(alloc, net)?;
    let guards = Guards::find(alloc, net, domains, crossings, rings, &mut plain)?;
    guards.loads(alloc, crossings)
}
