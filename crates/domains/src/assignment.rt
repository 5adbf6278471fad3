//! The clocks of a net's signals, by its constraints.
ghost use Rattle.std.specs.Prelude.{◌≡◌, IfOk, IfErr};
ghost use Rattle.clock_constraints.specs.Fit.{AreFit};
ghost use Rattle.clock_constraints.specs.Refusals.{Gives, Passes, unless};
ghost use Rattle.domains.specs.Assignment.{broken_port, port_roles, AreDomains, IsBroken, Refuses};
ghost use Rattle.domains.specs.Clocks.{static_signals};
ghost use Rattle.domains.specs.Fit.{Fit, ArePinsUnread};
ghost use Rattle.domains.specs.Nets.{IsNet};
ghost use Rattle.domains.specs.Ports.{signal_roles};
ghost use Rattle.domains.specs.Tables.{found_in, pairs_of};
ghost use Rattle.refusals.specs.Numbers.{HasNumberIn, assignment_numbers};

use crate::port::{self, Port, Role};
use crate::{Domains, group, register, table};
use cdc_base::{List, NoMemory, Signal, Stop};
use cell_graph::{Cofactors, Net};
use clock_constraints::{ClockPin, Constraints};
use indexmap::IndexMap;
use std::alloc::Global;

/// Refuses a declared port that isn't an input of the top, or a reset that is no signal; then a clock's port that hasn't one
/// bit; then such a port of a reset.
fn check_ports(
    alloc: Global,
    ports: &IndexMap<&str, Port>,
    roles: &[(&str, Role)],
    constraints: &Constraints,
) -> Result<(), Stop>
    ensures { Passes result (broken_port (λ q. found_in ports.now q) (pairs_of roles.now) constraints.now) }
{
    port::check_found(alloc, ports, roles)?;
    port::check_clocks(alloc, ports, constraints.clocks.as_slice())?;
    port::check_resets(alloc, ports, constraints.resets.as_slice())
}

/// The role of each signal that is an input of the top. It refuses a port that breaks a rule; then an input of the top
/// without a declaration.
fn checked_roles(
    alloc: Global,
    signals: &[Signal],
    ports: &IndexMap<&str, Port>,
    roles: &[(&str, Role)],
    declared: &IndexMap<&str, Role>,
    constraints: &Constraints,
) -> Result<List<Option<Role>>, Stop>
    ensures { Gives result (unless (broken_port (λ q. found_in ports.now q) (pairs_of roles.now) constraints.now)
        (signal_roles (λ q. found_in declared.now q) signals.now)) }
{
    check_ports(alloc, ports, roles, constraints)?;
    port::signal_roles(alloc, signals, declared)
}

/// The role of each signal, with tables of the signals and of the ports that are declared.
fn roles(
    alloc: Global,
    signals: &[Signal],
    constraints: &Constraints,
) -> Result<List<Option<Role>>, Stop>
    ensures given { Gives result (port_roles signals.now constraints.now) }
    ensures numbered { IfErr result (HasNumberIn assignment_numbers) }
{
    let pairs = port::signal_ports(alloc, signals)?;
    let ports = table::by_name(alloc, pairs.as_slice())?;
    let roles = port::roles(alloc, constraints)?;
    let declared = table::by_name(alloc, roles.as_slice())?;
    checked_roles(
        alloc,
        signals,
        &ports,
        roles.as_slice(),
        &declared,
        constraints,
    )
}

/// The signals of the static inputs, ascending.
fn statics(alloc: Global, roles: &[Option<Role>]) -> Result<List<u32>, NoMemory>
    ensures { IfOk result (λ statics. statics ≡ static_signals 0 roles.now) }
{
    let mut statics = List::new(alloc);
    for (sig, role) in roles.iter().enumerate() {
        if let Some(Role::Static) = role {
            let Ok(sig) = u32::try_from(sig) else {
                return Err(NoMemory);
            };
            statics.push(sig)?;
        }
    }
    Ok(statics)
}

fn copy_clocks(alloc: Global, clocks: &[ClockPin]) -> Result<List<ClockPin>, NoMemory>
    ensures { IfOk result (λ copies. copies ≡ clocks.now) }
{
    let mut copies = List::new(alloc);
    for clock in clocks {
        copies.push(ClockPin {
            name: clock.name.copy(alloc)?,
            group: clock.group.copy(alloc)?,
            settle: clock.settle,
        })?;
    }
    Ok(copies)
}

/// Assigns clocks to the registers and inputs of the net. It refuses the first broken rule of these, in this order: each
/// declared reset is a signal, and each other declared port an input of the top; each clock's port has one bit; each
/// reset's port has one bit; each input of the top is declared; each register's clock comes from a declared clock pin, and
/// its next value reads none. Ports go in the order clocks, inputs, resets, statics, and inputs and registers by signal.
pub fn assign<C: Cofactors>(
    alloc: Global,
    net: &Net,
    constraints: &Constraints,
    by: &C,
) -> Result<Domains, Stop>
    ensures domains { IsNet net.now → IfOk result (AreDomains C.reads net.now constraints.now) }
    ensures fit { IsNet net.now → AreFit constraints.now → IfOk result (Fit net.now) }
    ensures unread { IsNet net.now → IfOk result (ArePinsUnread C.reads net.now) }
    ensures refused { IsNet net.now → IfErr result (Refuses (IsBroken C.reads net.now constraints.now)) }
    ensures numbered { IfErr result (HasNumberIn assignment_numbers) }
{
    let roles = roles(alloc, net.graph.signals(), constraints)?;
    let clock_by_sig = register::clock_by_sig(alloc, net, roles.as_slice(), by)?;
    let groups = group::number(alloc, constraints.clocks.as_slice())?;
    Ok(Domains {
        clocks: copy_clocks(alloc, constraints.clocks.as_slice())?,
        groups: groups.names,
        clock_by_sig: List::from_vec(clock_by_sig),
        group_by_clock: groups.by_clock,
        statics: statics(alloc, roles.as_slice())?,
    })
}
