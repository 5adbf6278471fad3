//! The verdict as JSON.
ghost use Rattle.std.specs.Prelude.{◌≡◌, [], ◌∷◌, ◌++◌, map, codes, option_map, IfOk};
ghost use Rattle.json.specs.Json.{string};
ghost use Rattle.json.specs.Token.{key};
ghost use Rattle.json.specs.Tree.{json_tokens};
ghost use Rattle.report.specs.Names.{bit_of};
ghost use Rattle.report.specs.VerdictText.{gray_line};
ghost use Rattle.report.specs.VerdictJson.{
  at_value,
  back_entries,
  count_value,
  cover_value,
  entry_tokens,
  fifo_entries,
  finding_value,
  finding_values,
  found_entries,
  front_entries,
  list_value,
  ring_value,
  texts_value,
  told_lines,
  verdict_json,
  waived_entries,
};

use crate::finding::{code_of, finding_lines, place_of};
use crate::line::Line;
use crate::names::add_bit;
use crate::output::Output;
use crate::verdict::{add_reason, count_waived, gray_line, reason_at, scheme_name, scheme_number};
use cdc_base::{Bit, List, Name, NoMemory, Place};
use cdc_model::{Cover, Finding, GrayReg, Ring, Verdict};
use cell_graph::Net;
use clock_constraints::Waiver;
use domains::Domains;
use std::alloc::Global;

/// Adds a key and a text.
fn add_text(output: &mut Output, name: &str, text: &str) -> Result<(), NoMemory>
    ensures { IfOk result (λ _. output.new ≡ output.old ++ entry_tokens ((name.now, string text.now) ∷ [])) }
{
    output.key(name)?;
    output.text(text)
}

/// Adds a key and a count.
fn add_count(output: &mut Output, name: &str, count: u64) -> Result<(), NoMemory>
    ensures { IfOk result (λ _. output.new ≡ output.old ++ entry_tokens ((name.now, count_value count) ∷ [])) }
{
    output.key(name)?;
    output.count(count)
}

/// Adds a key and the name of a bit.
fn add_bit_entry(output: &mut Output, name: &str, net: &Net, bit: Bit) -> Result<(), NoMemory>
    ensures { IfOk result (λ _. output.new ≡ output.old ++ entry_tokens ((name.now, string (bit_of net.now.graph.signals bit)) ∷ [])) }
{
    output.key(name)?;
    add_bit_name(output, net, bit)
}

fn add_bit_name(output: &mut Output, net: &Net, bit: Bit) -> Result<(), NoMemory>
    ensures { IfOk result (λ _. output.new ≡ output.old ++ json_tokens (string (bit_of net.now.graph.signals bit))) }
{
    let mut name = Line::new(output.alloc());
    add_bit(&mut name, net, bit)?;
    output.text(name.as_str())
}

fn add_cover(output: &mut Output, net: &Net, cover: &Cover) -> Result<(), NoMemory>
    ensures { IfOk result (λ _. output.new ≡ output.old ++ json_tokens (cover_value net.now.graph.signals cover.now)) }
{
    output.begin_object()?;
    add_bit_entry(output, "from", net, cover.from)?;
    add_count(output, "n", scheme_number(cover.scheme))?;
    add_text(output, "scheme", scheme_name(cover.scheme))?;
    add_bit_entry(output, "to", net, cover.to)?;
    output.end_object()
}

fn add_covers(output: &mut Output, net: &Net, covers: &[Cover]) -> Result<(), NoMemory>
    ensures { IfOk result (λ _. output.new ≡ output.old ++ json_tokens (list_value (map (cover_value net.now.graph.signals) covers.now))) }
{
    output.begin_array()?;
    for cover in covers {
        add_cover(output, net, cover)?;
    }
    output.end_array()
}

fn add_names(output: &mut Output, names: &[Name]) -> Result<(), NoMemory>
    ensures { IfOk result (λ _. output.new ≡ output.old ++ json_tokens (texts_value names.now)) }
{
    output.begin_array()?;
    for name in names {
        output.text(name.as_str())?;
    }
    output.end_array()
}

fn add_lines(output: &mut Output, lines: &[Line]) -> Result<(), NoMemory>
    ensures { IfOk result (λ _. output.new ≡ output.old ++ json_tokens (texts_value lines.now)) }
{
    output.begin_array()?;
    for line in lines {
        output.text(line.as_str())?;
    }
    output.end_array()
}

fn add_place(output: &mut Output, place: Place) -> Result<(), NoMemory>
    ensures { IfOk result (λ _. output.new ≡ output.old ++ json_tokens (at_value place)) }
{
    output.begin_object()?;
    add_count(output, "column", u64::from(place.column))?;
    add_count(output, "line", u64::from(place.line))?;
    output.end_object()
}

/// The lines of a finding, but that of its place, and the reason where it is waived.
fn told_lines(
    alloc: Global,
    net: &Net,
    domains: &Domains,
    finding: &Finding,
    reason: Option<&Name>,
) -> Result<List<Line>, NoMemory>
    ensures { IfOk result (λ lines. lines ≡ told_lines net.now domains.now finding.now (option_map (λ r. r.now) reason.entry)) }
{
    let mut lines = finding_lines(alloc, net, domains, finding)?;
    add_reason(alloc, &mut lines, reason)?;
    Ok(lines)
}

fn add_at(output: &mut Output, place: Place) -> Result<(), NoMemory>
    ensures { IfOk result (λ _. output.new ≡ output.old ++ entry_tokens ((codes "at", at_value place) ∷ [])) }
{
    output.key("at")?;
    add_place(output, place)
}

fn add_told(output: &mut Output, lines: &[Line]) -> Result<(), NoMemory>
    ensures { IfOk result (λ _. output.new ≡ output.old ++ key (codes "lines") ∷ json_tokens (texts_value lines.now)) }
{
    output.key("lines")?;
    add_lines(output, lines)
}

fn add_with_lines(
    output: &mut Output,
    net: &Net,
    finding: &Finding,
    lines: &[Line],
) -> Result<(), NoMemory>
    ensures { IfOk result (λ _. output.new ≡ output.old ++ json_tokens (finding_value net.now finding.now lines.now)) }
{
    output.begin_object()?;
    add_at(output, place_of(net, finding))?;
    add_text(output, "code", code_of(finding))?;
    add_told(output, lines)?;
    output.end_object()
}

fn add_finding(
    output: &mut Output,
    net: &Net,
    domains: &Domains,
    finding: &Finding,
    reason: Option<&Name>,
) -> Result<(), NoMemory>
    ensures { IfOk result (λ _. output.new ≡ output.old
        ++ json_tokens (finding_value net.now finding.now (told_lines net.now domains.now finding.now (option_map (λ r. r.now) reason.entry)))) }
{
    let lines = told_lines(output.alloc(), net, domains, finding, reason)?;
    add_with_lines(output, net, finding, lines.as_slice())
}

fn add_findings(
    output: &mut Output,
    net: &Net,
    domains: &Domains,
    findings: &[Finding],
    waivers: &[Waiver],
    aside: &[Option<u32>],
) -> Result<(), NoMemory>
    ensures { IfOk result (λ _. output.new ≡ output.old
        ++ json_tokens (list_value (finding_values net.now domains.now waivers.now aside.now 0 findings.now))) }
{
    output.begin_array()?;
    for (place, finding) in findings.iter().enumerate() {
        add_finding(
            output,
            net,
            domains,
            finding,
            reason_at(waivers, aside, place),
        )?;
    }
    output.end_array()
}

fn add_gray(output: &mut Output, net: &Net, gray: &GrayReg) -> Result<(), NoMemory>
    ensures { IfOk result (λ _. output.new ≡ output.old ++ json_tokens (string (gray_line net.now.graph.signals gray.now))) }
{
    let line = gray_line(output.alloc(), net, gray)?;
    output.text(line.as_str())
}

fn add_grays(output: &mut Output, net: &Net, grays: &[GrayReg]) -> Result<(), NoMemory>
    ensures { IfOk result (λ _. output.new ≡ output.old ++ json_tokens (texts_value (map (gray_line net.now.graph.signals) grays.now))) }
{
    output.begin_array()?;
    for gray in grays {
        add_gray(output, net, gray)?;
    }
    output.end_array()
}

fn add_bits(output: &mut Output, net: &Net, bits: &[Bit]) -> Result<(), NoMemory>
    ensures { IfOk result (λ _. output.new ≡ output.old ++ json_tokens (texts_value (map (bit_of net.now.graph.signals) bits.now))) }
{
    output.begin_array()?;
    for bit in bits {
        add_bit_name(output, net, *bit)?;
    }
    output.end_array()
}

fn add_rings(output: &mut Output, net: &Net, rings: &[Ring]) -> Result<(), NoMemory>
    ensures { IfOk result (λ _. output.new ≡ output.old ++ json_tokens (list_value (map (ring_value net.now.graph.signals) rings.now))) }
{
    output.begin_array()?;
    for ring in rings {
        add_bits(output, net, ring.bits.as_slice())?;
    }
    output.end_array()
}

/// Adds the keys up to the FIFOs: whether there is no finding, the covers and the number of crossings.
fn add_front(
    output: &mut Output,
    net: &Net,
    clean: bool,
    covers: &[Cover],
    crossings: u64,
) -> Result<(), NoMemory>
    ensures { IfOk result (λ _. output.new ≡ output.old ++ entry_tokens (front_entries net.now clean covers.now crossings)) }
{
    output.key("clean")?;
    output.truth(clean)?;
    output.key("covers")?;
    add_covers(output, net, covers)?;
    add_count(output, "crossings", crossings)
}

/// Adds the lines of the FIFOs, where there is one.
fn add_fifos(output: &mut Output, fifos: &[Name]) -> Result<(), NoMemory>
    ensures { IfOk result (λ _. output.new ≡ output.old ++ entry_tokens (fifo_entries fifos.now)) }
{
    if fifos.is_empty() {
        return Ok(());
    }
    output.key("fifos")?;
    add_names(output, fifos)
}

/// Adds the keys behind the findings: the Gray registers and the rings.
fn add_back(output: &mut Output, net: &Net, verdict: &Verdict) -> Result<(), NoMemory>
    ensures { IfOk result (λ _. output.new ≡ output.old ++ entry_tokens (back_entries net.now verdict.now)) }
{
    output.key("gray")?;
    add_grays(output, net, verdict.grays.as_slice())?;
    output.key("rings")?;
    add_rings(output, net, verdict.rings.as_slice())
}

/// Adds how many findings are waived, where one is.
fn add_waived(output: &mut Output, waived: usize) -> Result<(), NoMemory>
    ensures { IfOk result (λ _. output.new ≡ output.old ++ entry_tokens (waived_entries waived)) }
{
    if waived == 0 {
        return Ok(());
    }
    add_count(output, "waived", waived as u64)
}

fn add_found(
    output: &mut Output,
    net: &Net,
    domains: &Domains,
    findings: &[Finding],
    waivers: &[Waiver],
    aside: &[Option<u32>],
) -> Result<(), NoMemory>
    ensures { IfOk result (λ _. output.new ≡ output.old
        ++ entry_tokens (found_entries net.now domains.now findings.now waivers.now aside.now)) }
{
    output.key("findings")?;
    add_findings(output, net, domains, findings, waivers, aside)
}

/// The verdict as one line of JSON. `fifos` has the lines of the FIFOs, and `aside` the place of the waiver of each
/// finding that is waived.
pub fn verdict_json(
    alloc: Global,
    net: &Net,
    domains: &Domains,
    verdict: &Verdict,
    waivers: &[Waiver],
    aside: &[Option<u32>],
    fifos: &[Name],
) -> Result<List<u8>, NoMemory>
    ensures { IfOk result (λ text. text ≡ verdict_json net.now domains.now verdict.now waivers.now aside.now fifos.now) }
{
    let findings = verdict.findings.as_slice();
    let mut output = Output::new(alloc);
    output.begin_object()?;
    let clean = findings.is_empty();
    let crossings = verdict.crossings.len() as u64;
    add_front(
        &mut output,
        net,
        clean,
        verdict.covers.as_slice(),
        crossings,
    )?;
    add_fifos(&mut output, fifos)?;
    add_found(&mut output, net, domains, findings, waivers, aside)?;
    add_back(&mut output, net, verdict)?;
    add_waived(&mut output, count_waived(aside))?;
    output.end_object()?;
    output.into_line()
}
