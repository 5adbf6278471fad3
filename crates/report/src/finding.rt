//! The lines of a finding.
ghost use Rattle.std.specs.Prelude.{◌≡◌, ◌+◌, ◌∷◌, [], ◌++◌, map, codes, IfOk};
ghost use Rattle.std.specs.Fmt.{decimal};
ghost use Rattle.report.specs.Findings.{
  arrival_line,
  at_line,
  bits_copied,
  code_of,
  copied_of,
  crossing_of,
  entry_of,
  fewer_than,
  finding_lines,
  first_line,
  flop_line,
  lack_of,
  more_lines,
  nodes_of,
  path_line,
  place_of,
  ring_number,
  settle_of,
  subject_of,
  what_of,
};

use crate::line::Line;
use crate::names::{add_bit, add_group, add_node, add_signal};
use cdc_base::{Bit, List, NoMemory, Place};
use cdc_model::{Arrival, Crossing, Finding};
use cell_graph::{Net, Node};
use domains::Domains;
use std::alloc::Global;

/// The number of the violation, behind its `V`.
pub fn code_of(finding: &Finding) -> &'static str
    ensures { result.now ≡ code_of finding.now }
{
    match finding {
        Finding::V1 { .. } => "V1",
        Finding::V2 { .. } => "V2",
        Finding::V3 { .. } => "V3",
        Finding::V4 { .. } => "V4",
        Finding::V5 { .. } => "V5",
        Finding::V6 { .. } => "V6",
        Finding::V7 { .. } => "V7",
        Finding::V8 { .. } => "V8",
    }
}

/// Adds the ends of a crossing.
pub fn add_crossing(line: &mut Line, net: &Net, from: Bit, to: Bit) -> Result<(), NoMemory>
    ensures { IfOk result (λ _. line.new ≡ line.old ++ crossing_of net.now.graph.signals from to) }
{
    add_bit(line, net, from)?;
    line.add(" -> ")?;
    add_bit(line, net, to)
}

/// Adds a word and the group that it enters.
pub fn add_entry(
    line: &mut Line,
    net: &Net,
    domains: &Domains,
    word: u32,
    group: u32,
) -> Result<(), NoMemory>
    ensures { IfOk result (λ _. line.new ≡ line.old ++ entry_of net.now domains.now word group) }
{
    add_signal(line, net, word)?;
    line.add(" -> ")?;
    add_group(line, domains, group)
}

/// Within how many cycles of its clock the bit settles; 1 where it has no clock.
fn settle_of(domains: &Domains, bit: Bit) -> u8
    ensures { result ≡ settle_of domains.now bit }
{
    let Some(clock) = domains.clock_of(bit) else {
        return 1;
    };
    match domains.clocks.as_slice().get(clock as usize) {
        Some(pin) => pin.settle,
        None => 1,
    }
}

fn add_fewer(line: &mut Line, flops: u64) -> Result<(), NoMemory>
    ensures { IfOk result (λ _. line.new ≡ line.old ++ fewer_than flops) }
{
    line.add(": fewer than ")?;
    line.add_number(flops)?;
    line.add(" flops")
}

/// Adds what a copy without a synchronizer lacks: the flops that its clock's settling needs.
fn add_lack(line: &mut Line, settle: u8) -> Result<(), NoMemory>
    ensures { IfOk result (λ _. line.new ≡ line.old ++ lack_of settle) }
{
    if settle < 2 {
        return line.add(": no second flop");
    }
    add_fewer(line, u64::from(settle) + 1)
}

/// How many bits of one word the flops copy.
fn count_bits(flops: &[Crossing]) -> u64
    ensures { result ≡ bits_copied [] flops.now }
{
    let mut copied = [false; 256];
    let mut count = 0;
    for flop in flops {
        let at = usize::from(flop.from.at);
        if !copied[at] {
            copied[at] = true;
            count += 1;
        }
    }
    count
}

/// Adds how many bits of a word enter a group without a Gray code.
fn add_copied(line: &mut Line, flops: &[Crossing]) -> Result<(), NoMemory>
    ensures { IfOk result (λ _. line.new ≡ line.old ++ copied_of flops.now) }
{
    line.add(": ")?;
    line.add_number(count_bits(flops))?;
    line.add(" bits by first flops and no Gray register")
}

fn add_ring(line: &mut Line, what: &str, ring: u64) -> Result<(), NoMemory>
    ensures { IfOk result (λ _. line.new ≡ line.old ++ (what.now ++ decimal (ring_number ring))) }
{
    line.add(what)?;
    line.add_number(ring.saturating_add(1))
}

/// Adds what was found: the bits, words and groups concerned, and what is wrong with them.
fn add_what(
    line: &mut Line,
    net: &Net,
    domains: &Domains,
    finding: &Finding,
) -> Result<(), NoMemory>
    ensures { IfOk result (λ _. line.new ≡ line.old ++ what_of net.now domains.now finding.now) }
{
    match finding {
        Finding::V1 { from, to, .. } => {
            add_crossing(line, net, *from, *to)?;
            line.add(": no scheme")
        }
        Finding::V2 { from, to, .. } => {
            add_crossing(line, net, *from, *to)?;
            add_lack(line, settle_of(domains, *to))
        }
        Finding::V3 { word, group, flops } => {
            add_entry(line, net, domains, *word, *group)?;
            add_copied(line, flops.as_slice())
        }
        Finding::V4 { from, group, .. } => {
            add_bit(line, net, *from)?;
            line.add(" -> ")?;
            add_group(line, domains, *group)?;
            line.add(": several first flops")
        }
        Finding::V5 { word, group, .. } => {
            add_entry(line, net, domains, *word, *group)?;
            line.add(": several clocks")
        }
        Finding::V6 { to, group, .. } => {
            add_bit(line, net, *to)?;
            line.add(": arrivals of several families from ")?;
            add_group(line, domains, *group)
        }
        Finding::V7 { from, to, ring, .. } => {
            add_crossing(line, net, *from, *to)?;
            add_ring(line, ": data not held by ring ", *ring)
        }
        Finding::V8 { from, to, ring, .. } => {
            add_crossing(line, net, *from, *to)?;
            add_ring(line, ": not gated by ring ", *ring)
        }
    }
}

/// The first line of a finding: what was found, and where.
pub fn first_line(
    alloc: Global,
    net: &Net,
    domains: &Domains,
    finding: &Finding,
) -> Result<Line, NoMemory>
    ensures { IfOk result (λ line. line ≡ first_line net.now domains.now finding.now) }
{
    let mut line = Line::new(alloc);
    line.add(code_of(finding))?;
    line.add(" ")?;
    add_what(&mut line, net, domains, finding)?;
    Ok(line)
}

/// Adds the nodes, each behind an arrow.
fn add_nodes(line: &mut Line, net: &Net, nodes: &[Node]) -> Result<(), NoMemory>
    ensures { IfOk result (λ _. line.new ≡ line.old ++ nodes_of net.now.graph nodes.now) }
{
    for node in nodes {
        line.add(" <- ")?;
        add_node(line, net, *node)?;
    }
    Ok(())
}

fn path_line(alloc: Global, net: &Net, to: Bit, path: &[Node]) -> Result<Line, NoMemory>
    ensures { IfOk result (λ line. line ≡ path_line net.now.graph to path.now) }
{
    let mut line = Line::new(alloc);
    line.add("  path ")?;
    add_bit(&mut line, net, to)?;
    add_nodes(&mut line, net, path)?;
    Ok(line)
}

fn flop_line(alloc: Global, net: &Net, flop: &Crossing) -> Result<Line, NoMemory>
    ensures { IfOk result (λ line. line ≡ flop_line net.now.graph.signals flop.now) }
{
    let mut line = Line::new(alloc);
    line.add("  flop ")?;
    add_crossing(&mut line, net, flop.from, flop.to)?;
    Ok(line)
}

fn arrival_line(alloc: Global, net: &Net, arrival: &Arrival) -> Result<Line, NoMemory>
    ensures { IfOk result (λ line. line ≡ arrival_line net.now.graph.signals arrival.now) }
{
    let mut line = Line::new(alloc);
    line.add("  arrival ")?;
    add_bit(&mut line, net, arrival.bit)?;
    line.add(" of ")?;
    add_bit(&mut line, net, arrival.source)?;
    line.add(" depth ")?;
    line.add_number(u64::from(arrival.depth))?;
    Ok(line)
}

fn add_flop_lines(
    alloc: Global,
    net: &Net,
    lines: &mut List<Line>,
    flops: &[Crossing],
) -> Result<(), NoMemory>
    ensures { IfOk result (λ _. lines.new ≡ lines.old ++ map (flop_line net.now.graph.signals) flops.now) }
{
    for flop in flops {
        lines.push(flop_line(alloc, net, flop)?)?;
    }
    Ok(())
}

fn add_arrival_lines(
    alloc: Global,
    net: &Net,
    lines: &mut List<Line>,
    arrivals: &[Arrival],
) -> Result<(), NoMemory>
    ensures { IfOk result (λ _. lines.new ≡ lines.old ++ map (arrival_line net.now.graph.signals) arrivals.now) }
{
    for arrival in arrivals {
        lines.push(arrival_line(alloc, net, arrival)?)?;
    }
    Ok(())
}

/// Adds the lines that show a finding: its path, its flops or its arrivals.
fn add_more_lines(
    alloc: Global,
    net: &Net,
    lines: &mut List<Line>,
    finding: &Finding,
) -> Result<(), NoMemory>
    ensures { IfOk result (λ _. lines.new ≡ lines.old ++ more_lines net.now.graph finding.now) }
{
    match finding {
        Finding::V1 { to, path, .. }
        | Finding::V2 { to, path, .. }
        | Finding::V7 { to, path, .. }
        | Finding::V8 { to, path, .. } => lines.push(path_line(alloc, net, *to, path.as_slice())?),
        Finding::V3 { flops, .. } | Finding::V4 { flops, .. } | Finding::V5 { flops, .. } => {
            add_flop_lines(alloc, net, lines, flops.as_slice())
        }
        Finding::V6 { arrivals, .. } => add_arrival_lines(alloc, net, lines, arrivals.as_slice()),
    }
}

/// The lines of a finding: the first says what was found, and the others show it.
pub fn finding_lines(
    alloc: Global,
    net: &Net,
    domains: &Domains,
    finding: &Finding,
) -> Result<List<Line>, NoMemory>
    ensures { IfOk result (λ lines. lines ≡ finding_lines net.now domains.now finding.now) }
{
    let mut lines = List::new(alloc);
    lines.push(first_line(alloc, net, domains, finding)?)?;
    add_more_lines(alloc, net, &mut lines, finding)?;
    Ok(lines)
}

/// The signal that a finding is about: the register that reads, the word, or the source that several flops copy.
fn subject_of(finding: &Finding) -> u32
    ensures { result ≡ subject_of finding.now }
{
    match finding {
        Finding::V1 { to, .. } => to.sig,
        Finding::V2 { to, .. } => to.sig,
        Finding::V3 { word, .. } => *word,
        Finding::V4 { from, .. } => from.sig,
        Finding::V5 { word, .. } => *word,
        Finding::V6 { to, .. } => to.sig,
        Finding::V7 { to, .. } => to.sig,
        Finding::V8 { to, .. } => to.sig,
    }
}

/// Where the netlist declares the signal that a finding is about.
pub fn place_of(net: &Net, finding: &Finding) -> Place
    ensures { result ≡ place_of net.now.graph.signals finding.now }
{
    match net.graph.signals().get(subject_of(finding) as usize) {
        Some(signal) => signal.place,
        None => Place { line: 0, column: 0 },
    }
}

pub fn at_line(alloc: Global, place: Place) -> Result<Line, NoMemory>
    ensures { IfOk result (λ line. line ≡ at_line place) }
{
    let mut line = Line::new(alloc);
    line.add("  at ")?;
    line.add_number(u64::from(place.line))?;
    line.add(":")?;
    line.add_number(u64::from(place.column))?;
    Ok(line)
}
