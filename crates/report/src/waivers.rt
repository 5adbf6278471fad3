//! Findings that are waived.
ghost use Rattle.std.specs.Prelude.{◌≡◌, ℕ, List, map, find, Option, Some, is_some, option_map, if◌then◌else◌, IfOk, IfErr};
ghost use Rattle.std.specs.List.{list_any};
ghost use Rattle.std.specs.Str.{bytes_eq};
ghost use Rattle.std.specs.HashMap as hash;
ghost use Rattle.clock_constraints.specs.Refusals.{Gives, broken};
ghost use Rattle.refusals.specs.Numbers.{HasNumberIn, waiver_numbers};
ghost use Rattle.report.specs.Findings.{first_line};
ghost use Rattle.report.specs.Greedy.{has_star};
ghost use Rattle.report.specs.Search.{earliest, exact_match, is_before, starred};
ghost use Rattle.report.specs.Waived.{first_lines, first_match, is_unmet, matches, set_aside};

use crate::finding::first_line;
use crate::line::Line;
use crate::pattern::matches;
use cdc_base::{Fault, List, NoMemory, Stop};
use cdc_model::{Finding, Verdict};
use cell_graph::Net;
use clock_constraints::Waiver;
use domains::Domains;
use std::alloc::Global;
use std::collections::HashMap;

fn has_star(pattern: &[u8]) -> bool
    ensures { result ≡ has_star pattern.now }
{
    pattern.contains(&b'*')
}

fn first_lines(
    alloc: Global,
    net: &Net,
    domains: &Domains,
    findings: &[Finding],
) -> Result<List<Line>, NoMemory>
    ensures { IfOk result (λ lines. lines ≡ first_lines net.now domains.now findings.now) }
{
    let mut lines = List::new(alloc);
    for finding in findings {
        lines.push(first_line(alloc, net, domains, finding)?)?;
    }
    Ok(lines)
}

fn insert<'a>(table: &mut HashMap<&'a str, u32>, key: &'a str, place: u32) -> Result<(), NoMemory>
    ensures { IfOk result (λ _. (q : List ℕ) → hash.get_by (λ k. bytes_eq q k.now) table.new
        ≡ (if bytes_eq q key.now then Some place else hash.get_by (λ k. bytes_eq q k.now) table.old)) }
{
    match table.insert(key, place) {
        Ok(_) => Ok(()),
        Err(_) => Err(NoMemory),
    }
}

fn number(place: usize) -> Result<u32, NoMemory>
    ensures { IfOk result (λ number. number ≡ place) }
{
    match u32::try_from(place) {
        Ok(number) => Ok(number),
        Err(_) => Err(NoMemory),
    }
}

/// The places of the waivers without a star, by the line that they name. It goes from the last to the first, so the first
/// of a name counts.
fn exact_places<'a>(alloc: Global, waivers: &'a [Waiver]) -> Result<HashMap<&'a str, u32>, NoMemory>
    ensures { IfOk result (λ table. (q : List ℕ) → hash.get_by (λ k. bytes_eq q k.now) table ≡ exact_match q 0 waivers.now) }
{
    let mut table = HashMap::new(alloc);
    let mut place = waivers.len();
    while place > 0 {
        place -= 1;
        let finding = &waivers[place].finding;
        if !has_star(finding.as_bytes()) {
            insert(&mut table, finding.as_str(), number(place)?)?;
        }
    }
    Ok(table)
}

/// The waivers with a star, by their places.
fn starred<'a>(alloc: Global, waivers: &'a [Waiver]) -> Result<Vec<(u32, &'a [u8])>, NoMemory>
    ensures { IfOk result (λ found. map (λ p. (p.0, p.1.now)) found.items ≡ starred 0 waivers.now) }
{
    let mut found = Vec::new(alloc);
    for (place, waiver) in waivers.iter().enumerate() {
        let finding = waiver.finding.as_bytes();
        if has_star(finding) && found.push((number(place)?, finding)).is_err() {
            return Err(NoMemory);
        }
    }
    Ok(found)
}

fn is_before(exact: Option<u32>, place: u32) -> bool
    ensures { result ≡ is_before exact place }
{
    match exact {
        Some(exact) => exact < place,
        None => false,
    }
}

/// The first of the exact waiver and those with a star that match the line.
fn earliest(exact: Option<u32>, starred: &[(u32, &[u8])], line: &[u8]) -> Option<u32>
    ensures { result ≡ earliest line.now exact (map (λ p. (p.0, p.1.now)) starred.now) }
{
    for (place, finding) in starred {
        if is_before(exact, *place) {
            return exact;
        }
        if matches(finding, line) {
            return Some(*place);
        }
    }
    exact
}

/// The place of the first waiver that matches the line.
fn first_match(exact: &HashMap<&str, u32>, starred: &[(u32, &[u8])], line: &Line) -> Option<u32>
    ensures { result ≡ earliest line.now (hash.get_by (λ k. bytes_eq line.now k.now) exact.now) (map (λ p. (p.0, p.1.now)) starred.now) }
{
    let exact = exact.get(line.as_str()).copied();
    earliest(exact, starred, line.as_str().as_bytes())
}

/// For each line the place of the first waiver that matches it.
fn waived_by(
    alloc: Global,
    waivers: &[Waiver],
    lines: &[Line],
) -> Result<List<Option<u32>>, NoMemory>
    ensures { IfOk result (λ aside. aside ≡ map (λ line. first_match line 0 waivers.now) lines.now) }
{
    let exact = exact_places(alloc, waivers)?;
    let starred = starred(alloc, waivers)?;
    let mut aside = List::new(alloc);
    for line in lines {
        aside.push(first_match(&exact, starred.as_slice(), line))?;
    }
    Ok(aside)
}

/// The lines as a table.
fn line_table<'a>(alloc: Global, lines: &'a [Line]) -> Result<HashMap<&'a str, u32>, NoMemory>
    ensures { IfOk result (λ table. (q : List ℕ) → is_some (hash.get_by (λ k. bytes_eq q k.now) table) ≡ list_any (bytes_eq q) lines.now) }
{
    let mut table = HashMap::new(alloc);
    for line in lines {
        insert(&mut table, line.as_str(), 0)?;
    }
    Ok(table)
}

fn matches_any(pattern: &[u8], lines: &[Line]) -> bool
    ensures { result ≡ list_any (matches pattern.now) lines.now }
{
    for line in lines {
        if matches(pattern, line.as_str().as_bytes()) {
            return true;
        }
    }
    false
}

fn contains(table: &HashMap<&str, u32>, key: &str) -> bool
    ensures { result ≡ is_some (hash.get_by (λ k. bytes_eq key.now k.now) table.now) }
{
    table.contains_key(key)
}

/// Whether the waiver matches none of the lines, which the table has too.
fn is_unmet(waiver: &Waiver, lines: &[Line], table: &HashMap<&str, u32>) -> bool
    requires { (q : List ℕ) → is_some (hash.get_by (λ k. bytes_eq q k.now) table.now) ≡ list_any (bytes_eq q) lines.now }
    ensures { result ≡ is_unmet lines.now waiver.now }
{
    let finding = &waiver.finding;
    if has_star(finding.as_bytes()) {
        return !matches_any(finding.as_bytes(), lines);
    }
    !contains(table, finding.as_str())
}

/// The first waiver that matches none of the lines.
fn find_unmet<'a>(
    alloc: Global,
    waivers: &'a [Waiver],
    lines: &[Line],
) -> Result<Option<&'a Waiver>, NoMemory>
    ensures { IfOk result (λ unmet. option_map (λ w. w.now) unmet ≡ find (is_unmet lines.now) waivers.now) }
{
    let table = line_table(alloc, lines)?;
    for waiver in waivers {
        if is_unmet(waiver, lines, &table) {
            return Ok(Some(waiver));
        }
    }
    Ok(None)
}

fn refused(alloc: Global, waiver: &Waiver) -> Result<Fault, NoMemory>
    ensures { IfOk result (λ fault. fault ≡ broken 411 waiver.now.finding) }
{
    Ok(Fault {
        number: 411,
        place: None,
        name: waiver.finding.copy(alloc)?,
    })
}

/// For each finding the place of the first waiver that matches its first line. The first waiver that matches no finding is
/// refused with E411.
pub fn set_aside(
    alloc: Global,
    net: &Net,
    domains: &Domains,
    verdict: &Verdict,
    waivers: &[Waiver],
) -> Result<List<Option<u32>>, Stop>
    ensures exact { Gives result (set_aside net.now domains.now verdict.now.findings waivers.now) }
    ensures numbered { IfErr result (HasNumberIn waiver_numbers) }
{
    let lines = first_lines(alloc, net, domains, verdict.findings.as_slice())?;
    if let Some(waiver) = find_unmet(alloc, waivers, lines.as_slice())? {
        return Err(Stop::Refused(refused(alloc, waiver)?));
    }
    Ok(waived_by(alloc, waivers, lines.as_slice())?)
}
