//! The verdict as text.
ghost use Rattle.std.specs.Prelude.{◌≡◌, [], ◌∷◌, ◌++◌, map, length, Option, option_map, option_and_then, slice_get, IfOk};
ghost use Rattle.report.specs.VerdictText.{
  all_found,
  clean_of,
  counted,
  cover_line,
  ended,
  found_lines,
  gray_line,
  reason_at,
  ring_line,
  ring_lines,
  scheme_number,
  scheme_of,
  shape_of,
  sum_line,
  verdict_text,
  waived_count,
};
ghost use Rattle.report.specs.Findings.{reason_lines};

use crate::finding::{at_line, finding_lines, place_of};
use crate::line::Line;
use crate::names::{add_bit, add_bits, add_signal};
use crate::text::Text;
use cdc_base::{Bit, List, Name, NoMemory};
use cdc_model::{Cover, Finding, GrayReg, Ring, Scheme, Shape, Verdict};
use cell_graph::Net;
use clock_constraints::Waiver;
use domains::Domains;
use std::alloc::Global;

/// Adds the line and a line feed.
pub fn add_line(text: &mut Text, line: &Line) -> Result<(), NoMemory>
    ensures { IfOk result (λ _. text.new ≡ text.old ++ ended (line.now ∷ [])) }
{
    text.add(line.as_str())?;
    text.add("\n")
}

fn add_lines(text: &mut Text, lines: &[Line]) -> Result<(), NoMemory>
    ensures { IfOk result (λ _. text.new ≡ text.old ++ ended lines.now) }
{
    for line in lines {
        add_line(text, line)?;
    }
    Ok(())
}

fn ring_line(alloc: Global, net: &Net, number: u64, bits: &[Bit]) -> Result<Line, NoMemory>
    ensures { IfOk result (λ line. line ≡ ring_line net.now.graph.signals number bits.now) }
{
    let mut line = Line::new(alloc);
    line.add("ring ")?;
    line.add_number(number)?;
    line.add(": ")?;
    add_bits(&mut line, net, bits)?;
    Ok(line)
}

fn add_rings(text: &mut Text, net: &Net, rings: &[Ring]) -> Result<(), NoMemory>
    ensures { IfOk result (λ _. text.new ≡ text.old ++ ended (ring_lines net.now.graph.signals 0 rings.now)) }
{
    for (place, ring) in rings.iter().enumerate() {
        let number = place as u64 + 1;
        let line = ring_line(text.alloc(), net, number, ring.bits.as_slice())?;
        add_line(text, &line)?;
    }
    Ok(())
}

fn shape_name(shape: Shape) -> &'static str
    ensures { result.now ≡ shape_of shape }
{
    match shape {
        Shape::G1 => "G1",
        Shape::G2 => "G2",
        Shape::G3 => "G3",
    }
}

pub fn gray_line(alloc: Global, net: &Net, gray: &GrayReg) -> Result<Line, NoMemory>
    ensures { IfOk result (λ line. line ≡ gray_line net.now.graph.signals gray.now) }
{
    let mut line = Line::new(alloc);
    line.add("gray ")?;
    add_signal(&mut line, net, gray.gray)?;
    line.add(" of ")?;
    add_signal(&mut line, net, gray.count)?;
    line.add(" ")?;
    line.add(shape_name(gray.shape))?;
    Ok(line)
}

fn add_grays(text: &mut Text, net: &Net, grays: &[GrayReg]) -> Result<(), NoMemory>
    ensures { IfOk result (λ _. text.new ≡ text.old ++ ended (map (gray_line net.now.graph.signals) grays.now)) }
{
    for gray in grays {
        let line = gray_line(text.alloc(), net, gray)?;
        add_line(text, &line)?;
    }
    Ok(())
}

pub fn scheme_name(scheme: Scheme) -> &'static str
    ensures { result.now ≡ scheme_of scheme }
{
    match scheme {
        Scheme::TwoFlop { .. } => "two-flop",
        Scheme::Gray { .. } => "gray",
        Scheme::Handshake { .. } => "handshake",
        Scheme::Recirc { .. } => "recirc",
    }
}

/// How many flops a synchronizer has, or the number of a ring, counted from 1.
pub fn scheme_number(scheme: Scheme) -> u64
    ensures { result ≡ scheme_number scheme }
{
    match scheme {
        Scheme::TwoFlop { stages } => u64::from(stages),
        Scheme::Gray { stages } => u64::from(stages),
        Scheme::Handshake { ring } => ring.saturating_add(1),
        Scheme::Recirc { ring } => ring.saturating_add(1),
    }
}

fn cover_line(alloc: Global, net: &Net, cover: &Cover) -> Result<Line, NoMemory>
    ensures { IfOk result (λ line. line ≡ cover_line net.now.graph.signals cover.now) }
{
    let mut line = Line::new(alloc);
    line.add("cover ")?;
    add_bit(&mut line, net, cover.from)?;
    line.add(" -> ")?;
    add_bit(&mut line, net, cover.to)?;
    line.add(" ")?;
    line.add(scheme_name(cover.scheme))?;
    line.add(" ")?;
    line.add_number(scheme_number(cover.scheme))?;
    Ok(line)
}

fn add_covers(text: &mut Text, net: &Net, covers: &[Cover]) -> Result<(), NoMemory>
    ensures { IfOk result (λ _. text.new ≡ text.old ++ ended (map (cover_line net.now.graph.signals) covers.now)) }
{
    for cover in covers {
        let line = cover_line(text.alloc(), net, cover)?;
        add_line(text, &line)?;
    }
    Ok(())
}

/// Why the finding at this place is waived; None where it isn't.
pub fn reason_at<'a>(waivers: &'a [Waiver], aside: &[Option<u32>], place: usize) -> Option<&'a Name>
    ensures { option_map (λ r. r.now) result ≡ reason_at waivers.now aside.now place }
{
    let waiver = aside.get(place).copied().flatten()?;
    match waivers.get(waiver as usize) {
        Some(waiver) => Some(&waiver.reason),
        None => None,
    }
}

/// Adds the reason of a finding that is waived.
pub fn add_reason(
    alloc: Global,
    lines: &mut List<Line>,
    reason: Option<&Name>,
) -> Result<(), NoMemory>
    ensures { IfOk result (λ _. lines.new ≡ lines.old ++ reason_lines (option_map (λ r. r.now) reason.entry)) }
{
    let Some(reason) = reason else {
        return Ok(());
    };
    let mut line = Line::new(alloc);
    line.add("  waived: ")?;
    line.add(reason.as_str())?;
    lines.push(line)
}

/// All lines of a finding: those that show it, the place of its signal, and the reason where it is waived.
fn found_lines(
    alloc: Global,
    net: &Net,
    domains: &Domains,
    finding: &Finding,
    reason: Option<&Name>,
) -> Result<List<Line>, NoMemory>
    ensures { IfOk result (λ lines. lines ≡ found_lines net.now domains.now finding.now (option_map (λ r. r.now) reason.entry)) }
{
    let mut lines = finding_lines(alloc, net, domains, finding)?;
    lines.push(at_line(alloc, place_of(net, finding))?)?;
    add_reason(alloc, &mut lines, reason)?;
    Ok(lines)
}

fn add_finding(
    text: &mut Text,
    net: &Net,
    domains: &Domains,
    finding: &Finding,
    reason: Option<&Name>,
) -> Result<(), NoMemory>
    ensures { IfOk result (λ _. text.new ≡ text.old ++ ended (found_lines net.now domains.now finding.now (option_map (λ r. r.now) reason.entry))) }
{
    let lines = found_lines(text.alloc(), net, domains, finding, reason)?;
    add_lines(text, lines.as_slice())
}

fn add_findings(
    text: &mut Text,
    net: &Net,
    domains: &Domains,
    findings: &[Finding],
    waivers: &[Waiver],
    aside: &[Option<u32>],
) -> Result<(), NoMemory>
    ensures { IfOk result (λ _. text.new ≡ text.old ++ ended (all_found net.now domains.now waivers.now aside.now 0 findings.now)) }
{
    for (place, finding) in findings.iter().enumerate() {
        add_finding(
            text,
            net,
            domains,
            finding,
            reason_at(waivers, aside, place),
        )?;
    }
    Ok(())
}

/// How many findings are waived.
pub fn count_waived(aside: &[Option<u32>]) -> usize
    ensures { result ≡ waived_count aside.now }
{
    let mut count = 0;
    for waiver in aside {
        if waiver.is_some() {
            count += 1;
        }
    }
    count
}

/// Adds the count, unless it is 0.
fn add_count(line: &mut Line, word: &str, count: usize) -> Result<(), NoMemory>
    ensures { IfOk result (λ _. line.new ≡ line.old ++ counted word.now count) }
{
    if count == 0 {
        return Ok(());
    }
    line.add(word)?;
    line.add_number(count as u64)?;
    line.add(" ")
}

fn add_clean(line: &mut Line, findings: usize) -> Result<(), NoMemory>
    ensures { IfOk result (λ _. line.new ≡ line.old ++ clean_of findings) }
{
    if findings == 0 {
        return line.add("clean ");
    }
    Ok(())
}

fn sum_line(
    alloc: Global,
    findings: usize,
    waived: usize,
    crossings: usize,
) -> Result<Line, NoMemory>
    ensures { IfOk result (λ line. line ≡ sum_line findings waived crossings) }
{
    let mut line = Line::new(alloc);
    add_clean(&mut line, findings)?;
    add_count(&mut line, "violations=", findings.saturating_sub(waived))?;
    add_count(&mut line, "waived=", waived)?;
    line.add("crossings=")?;
    line.add_number(crossings as u64)?;
    Ok(line)
}

/// Adds the last line, with the counts.
fn add_sum(text: &mut Text, verdict: &Verdict, aside: &[Option<u32>]) -> Result<(), NoMemory>
    ensures { IfOk result (λ _. text.new ≡ text.old
        ++ ended (sum_line (length verdict.now.findings) (waived_count aside.now) (length verdict.now.crossings) ∷ [])) }
{
    let findings = verdict.findings.len();
    let crossings = verdict.crossings.len();
    let line = sum_line(text.alloc(), findings, count_waived(aside), crossings)?;
    add_line(text, &line)
}

/// The verdict as text: a line for each ring, Gray register and cover, the lines of each finding, and how many of them
/// there are. `aside` has the place of the waiver of each finding that is waived.
pub fn verdict_text(
    alloc: Global,
    net: &Net,
    domains: &Domains,
    verdict: &Verdict,
    waivers: &[Waiver],
    aside: &[Option<u32>],
) -> Result<List<u8>, NoMemory>
    ensures { IfOk result (λ text. text ≡ verdict_text net.now domains.now verdict.now waivers.now aside.now) }
{
    let findings = verdict.findings.as_slice();
    let mut text = Text::new(alloc);
    add_rings(&mut text, net, verdict.rings.as_slice())?;
    add_grays(&mut text, net, verdict.grays.as_slice())?;
    add_covers(&mut text, net, verdict.covers.as_slice())?;
    add_findings(&mut text, net, domains, findings, waivers, aside)?;
    add_sum(&mut text, verdict, aside)?;
    Ok(text.into_list())
}
