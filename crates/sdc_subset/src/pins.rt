//! What ports are, in the order of the text.
ghost use Rattle.std.specs.Prelude.{◌≡◌, ◌++◌, [], ◌∷◌, map, Ok, Some, None, option_map, not, if◌then◌else◌, IfOk, IfErr};
ghost use Rattle.clock_constraints.specs.Refusals.{Gives, Passes};
ghost use Rattle.sdc_subset.specs.declared.pins.Meaning.TheVariants.{Input, Reset};
ghost use Rattle.sdc_subset.specs.Pins.{pins_in, mentions, clock_names, unknown_clock, same_again, meaning_of, named_by, given_twice, add_pin, pins_from, Changes};

use crate::form::Command;
use crate::names::{self, Names};
use cdc_base::{List, Name, NoMemory, Stop};
use clock_constraints::refusal::{self, DECLARED_TWICE, NO_SUCH_CLOCK};
use std::alloc::Global;

/// What a command makes of a port.
#[derive(Debug, Drop)]
pub enum Meaning {
    /// A clock pin, whose clock has this name.
    Clock { name: Name },
    /// An input on the clock with this name.
    Input { clock: Name },
    /// A reset, and whether it is active high.
    Reset { high: bool },
}

impl Meaning {
    /// The same meaning.
    fn copy(&self, alloc: Global) -> Result<Meaning, NoMemory>
        ensures { IfOk result (λ m. m ≡ self.now) }
    {
        match self {
            Meaning::Clock { name } => Ok(Meaning::Clock {
                name: name.copy(alloc)?,
            }),
            Meaning::Input { clock } => Ok(Meaning::Input {
                clock: clock.copy(alloc)?,
            }),
            Meaning::Reset { high } => Ok(Meaning::Reset { high: *high }),
        }
    }
}

/// A port and what it is.
#[derive(Debug, Drop)]
pub struct Pin {
    pub port: Name,
    pub meaning: Meaning,
}

/// Adds inputs on the clock.
fn add_inputs(
    alloc: Global,
    pins: &mut List<Pin>,
    clock: &Name,
    ports: &[Name],
) -> Result<(), NoMemory>
    ensures { IfOk result (λ _. pins.new ≡ pins.old ++ map (λ p. record { port = p; meaning = Input clock.now }) ports.now) }
{
    for port in ports {
        pins.push(Pin {
            port: port.copy(alloc)?,
            meaning: Meaning::Input {
                clock: clock.copy(alloc)?,
            },
        })?;
    }
    Ok(())
}

/// Adds resets.
fn add_resets(
    alloc: Global,
    pins: &mut List<Pin>,
    high: bool,
    ports: &[Name],
) -> Result<(), NoMemory>
    ensures { IfOk result (λ _. pins.new ≡ pins.old ++ map (λ p. record { port = p; meaning = Reset high }) ports.now) }
{
    for port in ports {
        pins.push(Pin {
            port: port.copy(alloc)?,
            meaning: Meaning::Reset { high },
        })?;
    }
    Ok(())
}

/// Adds the ports that a command names.
fn add_mentions(alloc: Global, pins: &mut List<Pin>, command: &Command) -> Result<(), NoMemory>
    ensures { IfOk result (λ _. pins.new ≡ pins.old ++ pins_in command.now) }
{
    match command {
        Command::Design(_) | Command::Groups(_) => Ok(()),
        Command::Clock { port, name } => pins.push(Pin {
            port: port.copy(alloc)?,
            meaning: Meaning::Clock {
                name: name.copy(alloc)?,
            },
        }),
        Command::Delay { clock, ports } => add_inputs(alloc, pins, clock, ports.as_slice()),
        Command::Level { high, ports } => add_resets(alloc, pins, *high, ports.as_slice()),
    }
}

/// The ports that the commands name, and what each makes them.
pub fn mentions(alloc: Global, commands: &[Command]) -> Result<List<Pin>, NoMemory>
    ensures { IfOk result (λ ps. ps ≡ mentions commands.now) }
{
    let mut pins = List::new(alloc);
    for command in commands {
        add_mentions(alloc, &mut pins, command)?;
    }
    Ok(pins)
}

/// The clock names.
pub fn clock_names<'a>(alloc: Global, pins: &'a [Pin]) -> Result<Vec<&'a str>, NoMemory>
    ensures { IfOk result (λ ns. map (λ n. n.now) ns.items ≡ clock_names pins.now) }
{
    let mut names = Vec::new(alloc);
    for pin in pins {
        if let Meaning::Clock { name } = &pin.meaning {
            if names.push(name.as_str()).is_err() {
                return Err(NoMemory);
            }
        }
    }
    Ok(names)
}

/// Refuses the first input whose clock isn't known.
fn check_known(alloc: Global, known: &Names, mentions: &[Pin]) -> Result<(), Stop>
    ensures { Passes result (unknown_clock known.now mentions.now) }
{
    for pin in mentions {
        if let Meaning::Input { clock } = &pin.meaning {
            if !known.has(clock.as_str()) {
                return Err(refusal::refuse(alloc, NO_SUCH_CLOCK, clock.as_str()));
            }
        }
    }
    Ok(())
}

/// Refuses the first input whose clock isn't among the names.
pub fn check_clocks(alloc: Global, names: &[&str], mentions: &[Pin]) -> Result<(), Stop>
    ensures { Passes result (unknown_clock (map (λ n. n.now) names.now) mentions.now) }
{
    let known = names::all(alloc, names)?;
    check_known(alloc, &known, mentions)
}

/// Whether what is said of a port is said again.
fn is_same_again(meaning: &Meaning, other: &Meaning) -> bool
    ensures { result ≡ same_again meaning.now other.now }
{
    match (meaning, other) {
        (Meaning::Input { clock: a }, Meaning::Input { clock: b }) => a.as_bytes() == b.as_bytes(),
        (Meaning::Reset { high: a }, Meaning::Reset { high: b }) => { if *a { *b } else { !*b } }
        _ => false,
    }
}

/// What was said of the port.
fn meaning_of<'a>(pins: &'a [Pin], ports: &Names, port: &str) -> Option<&'a Meaning>
    requires { ports.now ≡ map (λ p. p.port) pins.now }
    ensures { option_map (λ m. m.now) result ≡ meaning_of port.now pins.now }
{
    match ports.place(port) {
        Some(place) => match pins.get(place) {
            Some(pin) => Some(&pin.meaning),
            None => None,
        },
        None => None,
    }
}

/// The clock name that was given before.
fn given_twice<'a>(
    alloc: Global,
    called: &mut Names<'a>,
    meaning: &'a Meaning,
    before: &[Pin],
) -> Result<(), Stop>
    requires { called.old ≡ clock_names before.now }
    ensures passes { Passes result (given_twice before.now meaning.now) }
    ensures called { IfOk result (λ _. called.new ≡ called.old ++ named_by meaning.now) }
{
    let Meaning::Clock { name } = meaning else {
        return Ok(());
    };
    if !called.add(name.as_str())? {
        return Err(refusal::refuse(alloc, DECLARED_TWICE, name.as_str()));
    }
    Ok(())
}

/// Adds a pin of whose port nothing was said.
fn add_new<'a>(
    alloc: Global,
    pins: &mut List<Pin>,
    ports: &mut Names<'a>,
    pin: &'a Pin,
) -> Result<(), NoMemory>
    requires { (ports.old ≡ map (λ p. p.port) pins.old) × (meaning_of pin.now.port pins.old ≡ None) }
    ensures added { IfOk result (λ _. pins.new ≡ pins.old ++ pin.now ∷ []) }
    ensures ports { IfOk result (λ _. ports.new ≡ map (λ p. p.port) pins.new) }
{
    ports.add(pin.port.as_str())?;
    pins.push(Pin {
        port: pin.port.copy(alloc)?,
        meaning: pin.meaning.copy(alloc)?,
    })
}

/// Adds one more pin, unless the same was said of its port.
fn add_pin<'a>(
    alloc: Global,
    pins: &mut List<Pin>,
    ports: &mut Names<'a>,
    called: &mut Names<'a>,
    pin: &'a Pin,
) -> Result<(), Stop>
    requires { (ports.old ≡ map (λ p. p.port) pins.old) × (called.old ≡ clock_names pins.old) }
    ensures adds { Changes result (add_pin pins.old pin.now) pins.new }
    ensures ports { IfOk result (λ _. ports.new ≡ map (λ p. p.port) pins.new) }
    ensures called { IfOk result (λ _. called.new ≡ clock_names pins.new) }
{
    given_twice(alloc, called, &pin.meaning, pins.as_slice())?;
    if let Some(known) = meaning_of(pins.as_slice(), ports, pin.port.as_str()) {
        if is_same_again(known, &pin.meaning) {
            return Ok(());
        }
        return Err(refusal::refuse(alloc, DECLARED_TWICE, pin.port.as_str()));
    }
    add_new(alloc, pins, ports, pin)?;
    Ok(())
}

/// What the ports are, each once. It refuses the first port with two meanings and the first clock name that is given twice.
pub fn pins(alloc: Global, mentions: &[Pin]) -> Result<List<Pin>, Stop>
    ensures { Gives result (pins_from [] mentions.now) }
{
    let mut pins = List::new(alloc);
    let mut ports = Names::new(alloc);
    let mut called = Names::new(alloc);
    for pin in mentions {
        add_pin(alloc, &mut pins, &mut ports, &mut called, pin)?;
    }
    Ok(pins)
}
