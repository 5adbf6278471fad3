//! Broken rules of one item. An item may break several: the order of trial decides which of them is told.
ghost use Rattle.std.specs.Prelude.{◌≡◌, true, Bool, nat_lt, Option, None, Some, option_map, IfOk, IfErr};
ghost use Rattle.std.specs.Option.{option_map_or};
ghost use Rattle.refusals.specs.Numbers.{is_listed, HasNumberIn, unfolding_numbers};
ghost use Rattle.flat_unfolding.specs.Outcome.{Broken, as_listed};
ghost use Rattle.flat_names.specs.Noting.{number_of, order_of, noted, broken_of, is_first, passed_on, Raises, Refuses};

use cdc_base::{Fault, Name, NoMemory, Place, Stop};
use std::alloc::Global;
use std::marker::Model;

/// The rules of an unfolding.
#[derive(Clone, Copy, PartialEq, Eq, Debug, Drop)]
pub enum Rule {
    NoTop,
    UnknownModule,
    ModuleInsideItself,
    DeclaredTwice,
    UnknownName,
    Mismatch,
    ConstantOutOfRange,
    Width,
    TwoDrivers,
    Undriven,
    Latch,
    WrongAssignment,
    IndexOutOfRange,
    IndexMayMiss,
    ClockForm,
    ResetForm,
    Memory,
    TooManySignals,
}

impl Rule {
    /// The number that a refusal by this rule has.
    pub fn number(self) -> u16
        ensures number { result ≡ number_of self }
        ensures listed { is_listed unfolding_numbers result ≡ true }
    {
        match self {
            Rule::NoTop => 301,
            Rule::UnknownModule => 302,
            Rule::ModuleInsideItself => 303,
            Rule::DeclaredTwice => 304,
            Rule::UnknownName => 305,
            Rule::Mismatch => 306,
            Rule::ConstantOutOfRange => 307,
            Rule::Width => 308,
            Rule::TwoDrivers => 309,
            Rule::Undriven => 310,
            Rule::Latch => 311,
            Rule::WrongAssignment => 313,
            Rule::IndexOutOfRange => 314,
            Rule::IndexMayMiss => 315,
            Rule::ClockForm => 316,
            Rule::ResetForm => 317,
            Rule::Memory => 319,
            Rule::TooManySignals => 601,
        }
    }
}

/// The order in which the rules of an item are tried. The parts of most items are tried by the numbers of the rules;
/// parameters and declarations have orders of their own.
#[derive(Clone, Copy, PartialEq, Eq, Debug, Drop)]
pub enum Order {
    Parameter,
    Declaration,
    Other,
}

/// The numbers that an order tries before all others, in its order.
const PARAMETER_NUMBERS: [u16; 4] = [305, 304, 307, 308];

const DECLARATION_NUMBERS: [u16; 6] = [304, 305, 306, 319, 307, 308];

/// Where a rule stands in an order: the least is tried first.
fn rank(order: Order, rule: Rule) -> u64
    ensures { result ≡ order_of order (number_of rule) }
{
    let number = rule.number();
    match order {
        Order::Parameter => rank_behind(&PARAMETER_NUMBERS, number),
        Order::Declaration => rank_behind(&DECLARATION_NUMBERS, number),
        Order::Other => u64::from(number),
    }
}

/// The place of a listed number; all others stand behind these, by number.
fn rank_behind(listed: &[u16], number: u16) -> u64
    ensures { result ≡ as_listed listed.now number }
{
    let mut rank = 0u64;
    for other in listed {
        if *other == number {
            return rank;
        }
        rank += 1;
    }
    rank + u64::from(number)
}

#[derive(Drop)]
struct Found {
    rule: Rule,
    name: Name,
    place: Option<Place>,
}

/// The first broken rule of an item so far, in its order of trial. Of two breaks of one rule the earlier noted counts.
#[derive(Drop)]
pub struct Faults {
    alloc: Global,
    order: Order,
    found: Option<Found>,
}

impl Model for Faults {
    ghost use Rattle.std.specs.Prelude.{option_map};
    ghost use Rattle.flat_names.specs.Noting.{Noted, broken_of};

    ghost Value = { Noted };

    ghost view = { λ f. record { order = f.order; found = option_map broken_of f.found } };
}

impl Faults {
    pub fn new(alloc: Global, order: Order) -> Faults
        ensures { result ≡ record { order = order; found = None } }
    {
        Faults {
            alloc,
            order,
            found: None,
        }
    }

    /// Notes that the item breaks the rule.
    pub fn note(&mut self, rule: Rule, name: &str) -> Result<(), NoMemory>
        ensures { IfOk result (λ _. self.new ≡ noted self.old (record { number = number_of rule; name = name.now; place = None })) }
    {
        self.note_at(rule, name, None)
    }

    /// Notes a broken rule that is told with a place of its own.
    pub fn note_at(&mut self, rule: Rule, name: &str, place: Option<Place>) -> Result<(), NoMemory>
        ensures { IfOk result (λ _. self.new ≡ noted self.old (record { number = number_of rule; name = name.now; place = place })) }
    {
        if self.comes_first(rule) {
            let name = Name::from_text(self.alloc, name)?;
            self.found = Some(Found { rule, name, place });
        }
        Ok(())
    }

    /// Notes the broken rule in `other`, if it is this one.
    pub fn pass_on(self, rule: Rule, other: &mut Faults) -> Result<(), NoMemory>
        ensures { IfOk result (λ _. other.new ≡ passed_on (number_of rule) self.found other.old) }
    {
        match self.found {
            Some(found) if found.rule.number() == rule.number() => {
                other.note_at(rule, found.name.as_str(), found.place)
            }
            _ => Ok(()),
        }
    }

    fn comes_first(&self, rule: Rule) -> bool
        ensures { result ≡ is_first (order_of self.now.order) self.now.found (number_of rule) }
    {
        match &self.found {
            Some(found) => rank(self.order, rule) < rank(self.order, found.rule),
            None => true,
        }
    }

    /// The rule that counts, where one is broken.
    pub fn rule(&self) -> Option<Rule>
        ensures { option_map number_of result ≡ option_map (λ (b : Broken). b.number) self.now.found }
    {
        match &self.found {
            Some(found) => Some(found.rule),
            None => None,
        }
    }

    /// Refuses where a rule is broken. `place` is that of the item.
    pub fn raise(self, place: Place) -> Result<(), Stop>
        ensures exact { Raises self.found place result }
        ensures numbered { IfErr result (HasNumberIn unfolding_numbers) }
    {
        match self.found {
            None => Ok(()),
            Some(found) => Err(Stop::Refused(Fault {
                number: found.rule.number(),
                place: Some(found.place.unwrap_or(place)),
                name: found.name,
            })),
        }
    }
}

/// A refusal.
pub fn refused<T>(alloc: Global, rule: Rule, place: Option<Place>, name: &str) -> Result<T, Stop>
    ensures exact { Refuses (record { number = number_of rule; place = place; name = name.now }) result }
    ensures numbered { IfErr result (HasNumberIn unfolding_numbers) }
{
    let name = Name::from_text(alloc, name)?;
    Err(Stop::Refused(Fault {
        number: rule.number(),
        place,
        name,
    }))
}
