//! The schemes by which all else in a net is judged.
ghost use Rattle.std.specs.Prelude.{◌≡◌, ◌<◌, [], length, IfOk, IfErr};
ghost use Rattle.cdc_base.specs.declared.limits.TheConstants.{MAX_CROSSINGS};
ghost use Rattle.refusals.specs.Limits.{HasCause};
ghost use Rattle.cdc_model.specs.Found.{crossings_of};
ghost use Rattle.cdc_model.specs.Tables.{ShowsNet};
ghost use Rattle.obligations.specs.Judged.{CanAudit};
ghost use Rattle.obligations.specs.Schemes.{AreSchemes};
ghost use Rattle.refusals.specs.Numbers.{HasNumberIn, crossing_numbers};

use cdc_base::{List, NoMemory, Stop};
use cdc_model::{Crossing, GrayReg, Sync};
use cell_graph::Net;
use cofactor::Table;
use domains::Domains;
use std::alloc::Global;

/// The crossings, synchronizers and Gray registers of a net, in their orders.
#[derive(Debug, Drop)]
pub struct Schemes {
    pub crossings: List<Crossing>,
    pub syncs: List<Sync>,
    pub grays: List<GrayReg>,
}

impl Schemes {
    /// All of them, by the net's table without a cube. Refused with E603 where the net has too many crossings.
    pub fn find(
        alloc: Global,
        net: &Net,
        domains: &Domains,
        plain: &mut Table,
    ) -> Result<Schemes, Stop>
        ensures numbered { IfErr result (HasNumberIn crossing_numbers) }
        ensures full { IfErr result (HasCause 603 (CanAudit net.now domains.now → ShowsNet net.now [] plain.old → MAX_CROSSINGS < length (crossings_of net.now domains.now))) }
        ensures exact { IfOk result (λ schemes. CanAudit net.now domains.now → ShowsNet net.now [] plain.old → AreSchemes net.now domains.now schemes) }
        ensures unchanged { plain.new ≡ plain.old }
    {
        let crossings = crossings::find_with(alloc, net, domains, plain)?;
        let syncs = two_flop::syncs_with(alloc, net, domains, crossings.as_slice(), plain)?;
        let grays = gray_pointer::gray_regs_with(alloc, net, domains, plain)?;
        Ok(Schemes {
            crossings,
            syncs,
            grays,
        })
    }
}

/// The items again.
pub fn copied<T: Copy + Drop>(alloc: Global, items: &[T]) -> Result<List<T>, NoMemory>
    ensures { IfOk result (λ copies. copies ≡ items.now) }
{
    let mut copies = List::new(alloc);
    for item in items {
        copies.push(*item)?;
    }
    Ok(copies)
}
