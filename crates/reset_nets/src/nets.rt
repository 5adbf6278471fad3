//! The search for reset nets among the wires of a design: the signals in an order in which those that one reads stand
//! before it, each tried once.
ghost use Rattle.std.specs.Prelude.{◌≡◌, ◌==◌, ◌<◌, ◌++◌, ◌∷◌, ℕ, true, cond, List, [], map, length, option_map, option_copied, slice_get, IfSome, IfOk, OnOk};
ghost use Rattle.std.specs.List.{Contains, list_all};
ghost use Rattle.std.specs.Option.{option_map_or};
ghost use Rattle.cdc_base.specs.declared.signal.ResetPin as pin;
ghost use Rattle.driver_loops.specs.Links.{ends_of};
ghost use Rattle.driver_loops.specs.Orders.{IsDepthFirst};
ghost use Rattle.flat_form.specs.declared.flat.FlatAssign as assign;
ghost use Rattle.flat_form.specs.Sizes.{is_sized};
ghost use Rattle.flat_form.specs.View.{expr_of};
ghost use Rattle.flat_unfolding.specs.Names.{Entry};
ghost use Rattle.flat_unfolding.specs.Design as grown;
ghost use Rattle.flat_names.specs.Designs.{ShowsDesign, signal_of};
ghost use Rattle.flat_design.specs.Visiting.{ShowsPins};
ghost use Rattle.reset_nets.specs.Nets.{reads_of, pin_if, further_pins, AreNets};
ghost use Rattle.reset_nets.specs.Finding.{known_in, tried, drive_at};
ghost use Rattle.reset_nets.specs.Shown.{value_in, made_of, ShowsWires, ShowsLinks, Finds, level_in_signal};

use crate::drives::{Drive, drives_of};
use crate::levels::{add_reads, level_made};
use cdc_base::{NoMemory, ResetPin, Signal};
use driver_loops::Links;
use driver_loops::walk::order;
use driver_trees::memory::numbered;
use flat_design::resets::{Pins, pins_by_name, reset_named};
use flat_form::flat::{FExpr, FlatAssign};
use flat_form::memory::push;
use flat_names::design::Design;
use std::alloc::Global;

/// The wires of a design: its signals, its assignments and what goes to each signal; and the inactive levels of the
/// declared resets.
#[derive(Drop)]
struct Wires<'a> {
    signals: &'a [Signal],
    assigns: &'a [FlatAssign],
    drives: Vec<Drive>,
    declared: Vec<Option<bool>>,
}

impl<'a> Wires<'a> {
    fn new(alloc: Global, design: &'a Design, resets: &[ResetPin]) -> Result<Wires<'a>, NoMemory>
        ensures shows { (d : grown.Design) → ShowsDesign [] design.entry.now d → IfOk result (λ w. ShowsWires resets.now w d) }
        ensures assigns { IfOk result (λ w. w.assigns.now ≡ design.entry.now.assigns.items) }
    {
        let signals = design.signals.as_slice();
        let assigns = design.assigns.as_slice();
        let pins = pins_by_name(alloc, resets)?;
        Ok(Wires {
            signals,
            assigns,
            drives: drives_of(alloc, signals.len(), assigns)?,
            declared: declared_levels(alloc, signals, &pins)?,
        })
    }

    fn drive(&self, place: usize) -> Drive
        ensures { result ≡ drive_at self.now.drives.items place }
    {
        self.drives.get(place).copied().unwrap_or(Drive::Nothing)
    }

    /// The value of the assignment that a mark tells of.
    fn assigned(&self, drive: Drive) -> Option<&FExpr>
        ensures value { option_map expr_of (option_copied result) ≡ value_in self.now.assigns.now drive }
        ensures sized { list_all (λ (a : assign.FlatAssign). is_sized a.value) self.now.assigns.now ≡ true → IfSome (option_copied result) (λ e. is_sized e ≡ true) }
    {
        match drive {
            Drive::Once(number) => match self.assigns.get(number) {
                Some(assign) => Some(&assign.value),
                None => None,
            },
            _ => None,
        }
    }

    /// The value that makes a signal: that of the only assignment which goes to it, under its plain name, where the
    /// signal has one bit and is no declared reset.
    fn made(&self, sig: u32) -> Option<&FExpr>
        ensures value { option_map expr_of (option_copied result) ≡ made_of self.now sig }
        ensures sized { list_all (λ (a : assign.FlatAssign). is_sized a.value) self.now.assigns.now ≡ true → IfSome (option_copied result) (λ e. is_sized e ≡ true) }
    {
        let place = sig as usize;
        match self.signals.get(place) {
            Some(signal) => {
                if signal.width != 1 || level_at(self.declared.as_slice(), place).is_some() {
                    return None;
                }
                self.assigned(self.drive(place))
            }
            None => None,
        }
    }

    /// Adds a signal to a graph: it leads to those that its value reads.
    #[tactic(auto, using(crate::proofs::Ends::begun_ends))]
    fn add_row(&self, links: &mut Links, sig: u32) -> Result<(), NoMemory>
        ensures { OnOk result (links.new ≡ links.old ++ option_map_or reads_of (made_of self.now sig) [] ∷ []) }
    {
        links.begin()?;
        match self.made(sig) {
            Some(value) => add_reads(value, links),
            None => Ok(()),
        }
    }
}

/// The inactive level of the reset that a signal is declared as.
fn declared_level(signal: &Signal, pins: &Pins) -> Option<bool>
    ensures { (resets : List pin.ResetPin) → ShowsPins pins.now resets → result ≡ level_in_signal resets signal.now }
{
    reset_named(&signal.name, signal.width, pins).map(|reset| !reset.is_high)
}

/// The inactive levels of the declared resets.
fn declared_levels(
    alloc: Global,
    signals: &[Signal],
    pins: &Pins,
) -> Result<Vec<Option<bool>>, NoMemory>
    ensures { (resets : List pin.ResetPin) → ShowsPins pins.now resets → IfOk result (λ levels. levels.items ≡ map (level_in_signal resets) signals.now) }
{
    let mut levels = Vec::new(alloc);
    for signal in signals {
        push(&mut levels, declared_level(signal, pins))?;
    }
    Ok(levels)
}

/// The level at a place, if one is known there.
fn level_at(levels: &[Option<bool>], place: usize) -> Option<bool>
    ensures { result ≡ known_in levels.now place }
{
    levels.get(place).copied().flatten()
}

/// For each signal those that its value reads.
fn links_of(alloc: Global, wires: &Wires) -> Result<Links, NoMemory>
    ensures { (pins : List pin.ResetPin) (d : grown.Design) → ShowsWires pins wires.now d → IfOk result (ShowsLinks pins d) }
{
    let mut links = Links::new(alloc);
    for place in 0..wires.signals.len() {
        let sig = numbered(place)?;
        wires.add_row(&mut links, sig)?;
    }
    Ok(links)
}

/// The numbers of so many signals.
fn numbers(alloc: Global, count: usize) -> Result<Vec<u32>, NoMemory>
    ensures { IfOk result (λ v. (s : ℕ) → s < count → Contains v.items s) }
{
    let mut all = Vec::new(alloc);
    for place in 0..count {
        push(&mut all, numbered(place)?)?;
    }
    Ok(all)
}

fn set_level(levels: &mut Vec<Option<bool>>, sig: u32, level: Option<bool>)
    ensures count { length levels.new.items ≡ length levels.old.items }
    ensures set { (s : ℕ) → slice_get levels.new.items s ≡ option_map (λ l. cond (sig == s) level l) (slice_get levels.old.items s) }
{
    if let Some(old) = levels.get_mut(sig as usize) {
        *old = level;
    }
}

/// Tries a signal: its level is that which its value makes.
fn try_signal(
    alloc: Global,
    wires: &Wires,
    links: &Links,
    sig: u32,
    levels: &mut Vec<Option<bool>>,
) -> Result<(), NoMemory>
    ensures count { length levels.new.items ≡ length levels.old.items }
    ensures tried { ends_of links.now sig ≡ option_map_or reads_of (made_of wires.now sig) [] → list_all (λ (a : assign.FlatAssign). is_sized a.value) wires.now.assigns.now ≡ true
        → IfOk result (λ _. (s : ℕ) → s < length levels.old.items → known_in levels.new.items s ≡ tried (known_in levels.old.items) sig (made_of wires.now sig) s) }
{
    let Some(value) = wires.made(sig) else {
        return Ok(());
    };
    let made = level_made(alloc, value, links.from(sig), levels.as_slice())?;
    set_level(levels, sig, made);
    Ok(())
}

/// The inactive levels of all reset nets.
fn found(
    alloc: Global,
    wires: &Wires,
    links: &Links,
    order: &[u32],
) -> Result<Vec<Option<bool>>, NoMemory>
    ensures { (pins : List pin.ResetPin) (d : grown.Design) → ShowsWires pins wires.now d → ShowsLinks pins d links.now
        → list_all (λ (a : assign.FlatAssign). is_sized a.value) wires.now.assigns.now ≡ true → IsDepthFirst links.now order.now
        → IfOk result (λ levels. Finds pins d order.now levels.items) }
{
    let mut levels = copied(alloc, wires.declared.as_slice())?;
    for sig in order {
        try_signal(alloc, wires, links, *sig, &mut levels)?;
    }
    Ok(levels)
}

fn copied(alloc: Global, levels: &[Option<bool>]) -> Result<Vec<Option<bool>>, NoMemory>
    ensures { IfOk result (λ v. v.items ≡ levels.now) }
{
    let mut copy = Vec::new(alloc);
    for level in levels {
        push(&mut copy, *level)?;
    }
    Ok(copy)
}

/// Adds a net of this level, unless it is a declared reset.
fn add_pin(
    alloc: Global,
    declared: Option<bool>,
    signal: &Signal,
    level: Option<bool>,
    pins: &mut Vec<ResetPin>,
) -> Result<(), NoMemory>
    ensures { (e : Entry) → signal.now ≡ signal_of e → IfOk result (λ _. pins.new.items ≡ pins.old.items ++ pin_if declared e level) }
{
    if let (None, Some(level)) = (declared, level) {
        let pin = ResetPin {
            name: signal.name.copy(alloc)?,
            high: !level,
        };
        push(pins, pin)?;
    }
    Ok(())
}

/// The nets that are no declared resets, as resets of their own.
fn pins_of(alloc: Global, wires: &Wires, levels: &[Option<bool>]) -> Result<Vec<ResetPin>, NoMemory>
    ensures { (pins : List pin.ResetPin) (d : grown.Design) → ShowsWires pins wires.now d → length levels.now ≡ length d.entries
        → IfOk result (λ nets. nets.items ≡ further_pins pins d.entries levels.now) }
{
    let mut pins = Vec::new(alloc);
    for (place, signal) in wires.signals.iter().enumerate() {
        let declared = level_at(wires.declared.as_slice(), place);
        let level = level_at(levels, place);
        add_pin(alloc, declared, signal, level, &mut pins)?;
    }
    Ok(pins)
}

/// The reset nets of a design of wires, beside its declared resets.
pub fn nets_of(
    alloc: Global,
    design: &Design,
    resets: &[ResetPin],
) -> Result<Vec<ResetPin>, NoMemory>
    ensures { (d : grown.Design) → ShowsDesign [] design.now d → list_all (λ (a : assign.FlatAssign). is_sized a.value) design.now.assigns.items ≡ true
        → IfOk result (λ nets. AreNets resets.now d nets.items) }
{
    let wires = Wires::new(alloc, design, resets)?;
    let links = links_of(alloc, &wires)?;
    let roots = numbers(alloc, wires.signals.len())?;
    let order = order(alloc, &links, roots.as_slice())?;
    let levels = found(alloc, &wires, &links, order.as_slice())?;
    pins_of(alloc, &wires, levels.as_slice())
}
