//! Certificates as they are written.
ghost use Rattle.std.specs.Prelude.{◌≡◌, ◌++◌, map, codes, IfOk};
ghost use Rattle.report.specs.VerdictText.{ended, gray_line};
ghost use Rattle.cert_text.specs.Texts.{certificate_text, fifo_line, head_line, load_line, ring_line, sync_line};

use crate::certificate::Certificate;
use cdc_base::{List, NoMemory};
use cdc_model::{GrayReg, Load, Ring, Sync};
use cell_graph::Net;
use fifo_scheme::FifoPair;
use report::line::Line;
use report::names::{add_bit, add_bits, add_signal};
use report::text::Text;
use report::verdict::{add_line, gray_line};
use std::alloc::Global;

/// The text of a certificate: a line for each item, by the printed names of the net's bits and signals.
pub fn write(alloc: Global, net: &Net, certificate: &Certificate) -> Result<List<u8>, NoMemory>
    ensures { IfOk result (λ text. text ≡ certificate_text net.now.graph.signals certificate.now) }
{
    let mut text = Text::new(alloc);
    text.add("cdc certificate 1\n")?;
    add_syncs(&mut text, net, certificate.syncs.as_slice())?;
    add_grays(&mut text, net, certificate.grays.as_slice())?;
    add_rings(&mut text, net, certificate.rings.as_slice())?;
    add_loads(&mut text, net, certificate.loads.as_slice())?;
    add_fifos(&mut text, net, certificate.fifos.as_slice())?;
    text.add("end\n")?;
    Ok(text.into_list())
}

fn sync_line(alloc: Global, net: &Net, sync: &Sync) -> Result<Line, NoMemory>
    ensures { IfOk result (λ line. line ≡ sync_line net.now.graph.signals sync.now) }
{
    let mut line = Line::new(alloc);
    line.add("sync ")?;
    add_bit(&mut line, net, sync.from)?;
    line.add(" : ")?;
    add_bits(&mut line, net, sync.flops.as_slice())?;
    Ok(line)
}

fn add_syncs(text: &mut Text, net: &Net, syncs: &[Sync]) -> Result<(), NoMemory>
    ensures { IfOk result (λ _. text.new ≡ text.old ++ ended (map (sync_line net.now.graph.signals) syncs.now)) }
{
    for sync in syncs {
        let line = sync_line(text.alloc(), net, sync)?;
        add_line(text, &line)?;
    }
    Ok(())
}

fn add_grays(text: &mut Text, net: &Net, grays: &[GrayReg]) -> Result<(), NoMemory>
    ensures { IfOk result (λ _. text.new ≡ text.old ++ ended (map (gray_line net.now.graph.signals) grays.now)) }
{
    for gray in grays {
        let line = gray_line(text.alloc(), net, gray)?;
        add_line(text, &line)?;
    }
    Ok(())
}

fn ring_line(alloc: Global, net: &Net, ring: &Ring) -> Result<Line, NoMemory>
    ensures { IfOk result (λ line. line ≡ ring_line net.now.graph.signals ring.now) }
{
    let mut line = Line::new(alloc);
    line.add("ring ")?;
    add_bits(&mut line, net, ring.bits.as_slice())?;
    line.add(" end ")?;
    line.add_number(u64::from(ring.end))?;
    line.add(" ack ")?;
    line.add_number(u64::from(ring.ack))?;
    Ok(line)
}

fn add_rings(text: &mut Text, net: &Net, rings: &[Ring]) -> Result<(), NoMemory>
    ensures { IfOk result (λ _. text.new ≡ text.old ++ ended (map (ring_line net.now.graph.signals) rings.now)) }
{
    for ring in rings {
        let line = ring_line(text.alloc(), net, ring)?;
        add_line(text, &line)?;
    }
    Ok(())
}

fn load_line(alloc: Global, net: &Net, load: &Load) -> Result<Line, NoMemory>
    ensures { IfOk result (λ line. line ≡ load_line net.now.graph.signals load.now) }
{
    let mut line = Line::new(alloc);
    line.add("load ")?;
    add_bit(&mut line, net, load.from)?;
    line.add(" -> ")?;
    add_bit(&mut line, net, load.to)?;
    line.add(" ring ")?;
    line.add_number(load.ring.saturating_add(1))?;
    line.add(" gate ")?;
    line.add_number(u64::from(load.gate))?;
    Ok(line)
}

fn add_loads(text: &mut Text, net: &Net, loads: &[Load]) -> Result<(), NoMemory>
    ensures { IfOk result (λ _. text.new ≡ text.old ++ ended (map (load_line net.now.graph.signals) loads.now)) }
{
    for load in loads {
        let line = load_line(text.alloc(), net, load)?;
        add_line(text, &line)?;
    }
    Ok(())
}

fn fifo_line(alloc: Global, net: &Net, pair: &FifoPair) -> Result<Line, NoMemory>
    ensures { IfOk result (λ line. line ≡ fifo_line net.now.graph.signals pair.now) }
{
    let mut line = Line::new(alloc);
    line.add("fifo ")?;
    add_signal(&mut line, net, pair.wb)?;
    line.add(" ")?;
    add_signal(&mut line, net, pair.rb)?;
    Ok(line)
}

fn add_fifos(text: &mut Text, net: &Net, pairs: &[FifoPair]) -> Result<(), NoMemory>
    ensures { IfOk result (λ _. text.new ≡ text.old ++ ended (map (fifo_line net.now.graph.signals) pairs.now)) }
{
    for pair in pairs {
        let line = fifo_line(text.alloc(), net, pair)?;
        add_line(text, &line)?;
    }
    Ok(())
}
