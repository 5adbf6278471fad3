//! Instances: overrides of parameters and connections of ports.
ghost use Rattle.std.specs.Prelude.{◌≡◌, ◌==◌, ◌<◌, ℕ, nat_lt, length, is_some, cond, not, ◌||◌, Bool, true, false, List, [], ◌∷◌, ◌++◌, map, filter_map, flat_map, All, Option, Some, None, option_copied, option_and_then, slice_get, IfOk};
ghost use Rattle.std.specs.List.{AllZip, list_any};
ghost use Rattle.std.specs.Cmp.Lexicographic.{pointwise};
ghost use Rattle.cdc_base.specs.declared.signal.ResetPin.{ResetPin};
ghost use Rattle.cdc_base.specs.declared.fault.Place as at;
ghost use Rattle.cdc_base.specs.Words.{is_in};
ghost use Rattle.verilog_reading.specs.ExprTree as tree;
ghost use Rattle.verilog_reading.specs.ExprTree.{tree_of};
ghost use Rattle.flat_form.specs.View.{expr_of};
ghost use Rattle.verilog_reading.specs.SourceTree.{maybe, DeclTree, PortTree, ModuleTree, named, decl_of, port_of, conn_of, conns_of, item_of, module_of};
ghost use Rattle.flat_unfolding.specs.Outcome.{Text, breaks_if};
ghost use Rattle.flat_unfolding.specs.Names as n;
ghost use Rattle.flat_unfolding.specs.Names.{meaning_in};
ghost use Rattle.flat_unfolding.specs.Declarations.{header_of, decl_in};
ghost use Rattle.flat_unfolding.specs.Instances.{Joint, joints, Link, if_among, ordered_joints, named_joint, unmet, override_rules, connection_rules, connect_one, connect_all};
ghost use Rattle.flat_unfolding.specs.Instances as of;
ghost use Rattle.flat_unfolding.specs.Design as grown;
ghost use Rattle.flat_unfolding.specs.Design.{Stage, look_of};
ghost use Rattle.flat_unfolding.specs.Widths.{keeps_sizes};
ghost use Rattle.flat_unfolding.specs.Parameters as law_parameters;
ghost use Rattle.flat_unfolding.specs.Formed.{IsFormed, IsFormedIf, AreConnsFormed};
ghost use Rattle.flat_unfolding.specs.Expressions.{read};
ghost use Rattle.flat_unfolding.specs.Targets.{driven};
ghost use Rattle.flat_names.specs.Noting.{all_noted};
ghost use Rattle.flat_names.specs.Looks.{Shows, IsFit, meaning_of};
ghost use Rattle.flat_names.specs.Designs.{ShowsNames, ShowsDesign, ShowsStage, IsReset};
ghost use Rattle.flat_declarations.specs.Declaring.{given_in, ShowsHeader};
ghost use Rattle.flat_design.specs.Visiting.{PortTable, port_in, side_of_kind as kind_side, sides_with, awaits, ShowsPorts, ShowsResets, AreOverridden, joint_if, constants_of, IsPlace, side_named, placed, AreLinked, IsEnd, IsLinkOf, read_of, name_at, if_signal, connect_at, AreFitNames, IsFitMeaning, override_by, leaning_in, leaning_if, GivesOverrides, GivesLinks};

use cdc_base::{Name, NoMemory, Place};
use flat_declarations::parameter::{Override, Overrides, overridable};
use flat_form::flat::{FExpr, FTarget, FlatAssign};
use flat_form::memory::push;
use flat_form::size::width_of;
use flat_names::design::{Design, Reset};
use flat_names::expr::{resolve, resolve_constant};
use flat_names::fault::{Faults, Rule};
use flat_names::resolved::Resolved;
use flat_names::scope::{Look, Meaning, Names};
use flat_process::assign::driven_target;
use indexmap::{IndexMap, IndexSet};
use std::alloc::Global;
use verilog_ast::{Conn, Conns, Decl, DeclKind, Expr, Item, ItemBody, Module, Port};

/// The names of a header, each with its direction where a declaration gives one: whether it is an input.
pub type Ports = IndexMap<Name, Option<bool>>;

/// What is connected to a port, given by its place among the names of the header.
#[derive(Drop)]
pub struct Connection {
    port: usize,
    end: End,
}

/// An expression that drives an input, with the reset that it resolves to; or the target that an output drives.
#[derive(Drop)]
enum End {
    Input { value: FExpr, reset: Option<Reset> },
    Output(FTarget),
}

/// An expression of so many bits whose value leans on the size at which it is evaluated, for the input or the parameter
/// of a name.
#[derive(Drop)]
pub struct Leaning {
    name: Name,
    bits: u8,
}

/// The overrides of an instance, and what leans of them.
#[derive(Drop)]
pub struct Overridden {
    pub overrides: Overrides,
    pub leaning: Vec<Leaning>,
}

/// The connections of an instance, and what leans of them.
#[derive(Drop)]
pub struct Connected {
    pub connections: Vec<Connection>,
    pub leaning: Vec<Leaning>,
}

/// What was given to a module that leans, and the place of its instance; the top has none.
#[derive(Drop)]
pub struct Given {
    pub place: Option<Place>,
    pub params: Vec<Leaning>,
    pub ports: Vec<Leaning>,
}

/// The ports of a module.
pub fn ports_of(alloc: Global, module: &Module) -> Result<Ports, NoMemory>
    ensures { IfOk result (λ ports. ShowsPorts ports (module_of «module».now)) }
{
    let mut ports = header_ports(alloc, module.ports.as_slice())?;
    note_header_directions(alloc, module.ports.as_slice(), &mut ports)?;
    note_item_directions(alloc, module.items.as_slice(), &mut ports)?;
    Ok(ports)
}

/// The names of a header, without directions.
fn header_ports(alloc: Global, header: &[Port]) -> Result<Ports, NoMemory>
    ensures { IfOk result (λ ports. (x : Text) → port_in ports x ≡ cond (is_in (map (λ (p : PortTree). p.name) (map port_of header.now)) x) (Some None) None) }
{
    let mut ports = IndexMap::new(alloc);
    for port in header {
        set_direction(alloc, &mut ports, &port.name, None)?;
    }
    Ok(ports)
}

fn note_header_directions(alloc: Global, header: &[Port], ports: &mut Ports) -> Result<(), NoMemory>
    ensures { IfOk result (λ _. (x : Text) → port_in ports.new x ≡ sides_with (filter_map (λ (p : PortTree). p.decl) (map port_of header.now)) x (port_in ports.old x)) }
{
    for port in header {
        if let Some(decl) = &port.decl {
            note_direction(alloc, ports, decl)?;
        }
    }
    Ok(())
}

fn note_item_directions(alloc: Global, items: &[Item], ports: &mut Ports) -> Result<(), NoMemory>
    ensures { IfOk result (λ _. (x : Text) → port_in ports.new x ≡ sides_with (map (λ (q : at.Place × DeclTree). q.1) (flat_map decl_in (map item_of items.now))) x (port_in ports.old x)) }
{
    for item in items {
        if let ItemBody::Decl(decl) = &item.body {
            note_direction(alloc, ports, decl)?;
        }
    }
    Ok(())
}

/// The first declaration with a direction counts.
fn note_direction(alloc: Global, ports: &mut Ports, decl: &Decl) -> Result<(), NoMemory>
    ensures { IfOk result (λ _. (x : Text) → port_in ports.new x ≡ sides_with (decl_of decl.now ∷ []) x (port_in ports.old x)) }
{
    let side = side_of_kind(decl.kind);
    if side.is_some() && is_undirected(ports, &decl.name) {
        return set_direction(alloc, ports, &decl.name, side);
    }
    Ok(())
}

/// Whether a declaration of this kind makes an input, where it has a direction.
fn side_of_kind(kind: DeclKind) -> Option<bool>
    ensures { result ≡ kind_side kind }
{
    match kind {
        DeclKind::Input => Some(true),
        DeclKind::Output | DeclKind::OutputReg => Some(false),
        DeclKind::Wire | DeclKind::Reg => None,
    }
}

fn is_undirected(ports: &Ports, name: &Name) -> bool
    ensures { result ≡ awaits (port_in ports.now name.now) }
{
    match ports.get(name) {
        Some(None) => true,
        _ => false,
    }
}

fn set_direction(
    alloc: Global,
    ports: &mut Ports,
    name: &Name,
    direction: Option<bool>,
) -> Result<(), NoMemory>
    ensures { IfOk result (λ _. (x : Text) → port_in ports.new x ≡ cond (pointwise ◌==◌ name.now x) (Some direction) (port_in ports.old x)) }
{
    let name = name.copy(alloc)?;
    match ports.insert(name, direction) {
        Ok(_) => Ok(()),
        Err(_) => Err(NoMemory),
    }
}

/// The overrides of an instance. `word` is the name of its module.
pub fn overrides_of(
    look: &Look,
    module: &Module,
    word: &str,
    given: &Conns,
    faults: &mut Faults,
) -> Result<Overridden, NoMemory>
    ensures { (l : n.Look) → Shows look.now l → IsFit l → AreConnsFormed (conns_of given.now) → word.now ≡ «module».now.name
        → IfOk result (λ r. (faults.new ≡ all_noted faults.old (override_rules l (module_of «module».now) (conns_of given.now)))
        × (override_rules l (module_of «module».now) (conns_of given.now) ≡ [] → GivesOverrides l (joints (law_parameters.overridable (module_of «module».now)) (conns_of given.now)) r)) }
{
    let mut overridden = Overridden {
        overrides: IndexMap::new(look.alloc),
        leaning: Vec::new(look.alloc),
    };
    let names = overridable(look.alloc, module)?;
    match given {
        Conns::Ordered(values) => {
            note_excess(word, names.len(), values.len(), faults)?;
            add_ordered(
                look,
                names.as_slice(),
                values.as_slice(),
                &mut overridden,
                faults,
            )?;
        }
        Conns::Named(conns) => {
            let known = name_set(look.alloc, names.as_slice())?;
            note_unmet(look.alloc, &known, conns.as_slice(), word, faults)?;
            add_named(look, &known, conns.as_slice(), &mut overridden, faults)?;
        }
    }
    Ok(overridden)
}

/// More values by order than there are names are too many.
fn note_excess(word: &str, names: usize, values: usize, faults: &mut Faults) -> Result<(), NoMemory>
    ensures { IfOk result (λ _. faults.new ≡ all_noted faults.old (breaks_if (nat_lt names values) 306 word.now)) }
{
    if values > names {
        faults.note(Rule::Mismatch, word)?;
    }
    Ok(())
}

pub fn name_set(alloc: Global, names: &[Name]) -> Result<IndexSet<Name>, NoMemory>
    ensures { IfOk result (λ set. ShowsHeader set names.now) }
{
    let mut set = IndexSet::new(alloc);
    for name in names {
        if set.insert(name.copy(alloc)?).is_err() {
            return Err(NoMemory);
        }
    }
    Ok(set)
}

/// A name that none of the known ones is, or that is given twice.
fn note_unmet(
    alloc: Global,
    known: &IndexSet<Name>,
    conns: &[Conn],
    word: &str,
    faults: &mut Faults,
) -> Result<(), NoMemory>
    ensures { (names : List Text) → ShowsHeader known.now names → IfOk result (λ _. faults.new ≡ all_noted faults.old (unmet word.now names [] (map conn_of conns.now))) }
{
    let mut seen = IndexSet::new(alloc);
    for conn in conns {
        let is_known = known.contains(&conn.name);
        note_name(alloc, &mut seen, &conn.name, is_known, word, faults)?;
    }
    Ok(())
}

/// A name that a connection gives.
fn note_name(
    alloc: Global,
    seen: &mut IndexSet<Name>,
    name: &Name,
    is_known: bool,
    word: &str,
    faults: &mut Faults,
) -> Result<(), NoMemory>
    ensures { (before : List Text) → ShowsHeader seen.old before
        → IfOk result (λ _. ShowsHeader seen.new (name.now ∷ before) × (faults.new ≡ all_noted faults.old (breaks_if (is_in before name.now || not is_known) 306 word.now))) }
{
    let is_new = is_new(alloc, seen, name)?;
    if !is_new || !is_known {
        faults.note(Rule::Mismatch, word)?;
    }
    Ok(())
}

fn is_new(alloc: Global, seen: &mut IndexSet<Name>, name: &Name) -> Result<bool, NoMemory>
    ensures { (before : List Text) → ShowsHeader seen.old before → IfOk result (λ r. ShowsHeader seen.new (name.now ∷ before) × (r ≡ not (is_in before name.now))) }
{
    match seen.insert(name.copy(alloc)?) {
        Ok(added) => Ok(added),
        Err(_) => Err(NoMemory),
    }
}

/// Overrides by order.
fn add_ordered(
    look: &Look,
    names: &[Name],
    values: &[Option<Expr>],
    overridden: &mut Overridden,
    faults: &mut Faults,
) -> Result<(), NoMemory>
    ensures { (l : n.Look) → Shows look.now l → IsFit l → All IsFormedIf (map (maybe tree_of) values.now) → AreOverridden l [] overridden.old
        → IfOk result (λ _. AreOverridden l (ordered_joints names.now (map (maybe tree_of) values.now)) overridden.new
        × (faults.new ≡ all_noted faults.old (constants_of l (ordered_joints names.now (map (maybe tree_of) values.now))))) }
{
    for (k, value) in values.iter().enumerate() {
        add_override(look, names.get(k), value, overridden, faults)?;
    }
    Ok(())
}

/// Overrides by name.
fn add_named(
    look: &Look,
    known: &IndexSet<Name>,
    conns: &[Conn],
    overridden: &mut Overridden,
    faults: &mut Faults,
) -> Result<(), NoMemory>
    ensures { (l : n.Look) (names : List Text) → Shows look.now l → IsFit l → ShowsHeader known.now names → AreConnsFormed (named (map conn_of conns.now)) → AreOverridden l [] overridden.old
        → IfOk result (λ _. AreOverridden l (filter_map (named_joint names) (map conn_of conns.now)) overridden.new
        × (faults.new ≡ all_noted faults.old (constants_of l (filter_map (named_joint names) (map conn_of conns.now))))) }
{
    for conn in conns {
        let name = if_known(known, &conn.name);
        add_override(look, name, &conn.value, overridden, faults)?;
    }
    Ok(())
}

fn if_known<'a>(known: &IndexSet<Name>, name: &'a Name) -> Option<&'a Name>
    ensures { (names : List Text) → ShowsHeader known.now names → option_copied result ≡ if_among names name.entry.now }
{
    if known.contains(name) {
        Some(name)
    } else {
        None
    }
}

/// An override has to be a constant. An empty one is none, and of two for one name the first counts.
fn add_override(
    look: &Look,
    name: Option<&Name>,
    value: &Option<Expr>,
    overridden: &mut Overridden,
    faults: &mut Faults,
) -> Result<(), NoMemory>
    ensures { (l : n.Look) (js : List Joint) → Shows look.now l → IsFit l → IsFormedIf (maybe tree_of value.now) → AreOverridden l js overridden.old
        → IfOk result (λ _. AreOverridden l (js ++ joint_if (option_copied name.entry) (maybe tree_of value.now)) overridden.new
        × (faults.new ≡ all_noted faults.old (constants_of l (joint_if (option_copied name.entry) (maybe tree_of value.now))))) }
{
    let Some(value) = value else {
        return Ok(());
    };
    let value = resolve_constant(look, value, faults)?;
    match name {
        Some(name) => give(look.alloc, name, value, overridden),
        None => Ok(()),
    }
}

/// Gives a constant to the parameter of a name.
fn give(
    alloc: Global,
    name: &Name,
    value: Resolved,
    overridden: &mut Overridden,
) -> Result<(), NoMemory>
    ensures { IfOk result (λ _. ((x : Text) → given_in overridden.new.overrides x ≡ cond (is_some (given_in overridden.old.overrides name.now)) (given_in overridden.old.overrides x)
        (cond (pointwise ◌==◌ name.now x) (Some (override_by value)) (given_in overridden.old.overrides x)))
        × (map leaning_in overridden.new.leaning.items ≡ map leaning_in overridden.old.leaning.items ++ leaning_if value name.now)) }
{
    note_leaning(alloc, name, &value, &mut overridden.leaning)?;
    let value = Override {
        is_counted: value.count.is_some(),
        is_signed: value.signs.is_signed,
        value: value.expr,
    };
    set_override(alloc, name, value, &mut overridden.overrides)
}

/// Notes what is given to a name, where it leans.
fn note_leaning(
    alloc: Global,
    name: &Name,
    value: &Resolved,
    leaning: &mut Vec<Leaning>,
) -> Result<(), NoMemory>
    ensures { IfOk result (λ _. map leaning_in leaning.new.items ≡ map leaning_in leaning.old.items ++ leaning_if value.now name.now) }
{
    if !value.signs.leans {
        return Ok(());
    }
    let name = name.copy(alloc)?;
    let bits = width_of(&value.expr);
    push(leaning, Leaning { name, bits })
}

fn set_override(
    alloc: Global,
    name: &Name,
    value: Override,
    overrides: &mut Overrides,
) -> Result<(), NoMemory>
    ensures { IfOk result (λ _. (x : Text) → given_in overrides.new x ≡ cond (is_some (given_in overrides.old name.now)) (given_in overrides.old x) (cond (pointwise ◌==◌ name.now x) (Some value) (given_in overrides.old x))) }
{
    if overrides.contains_key(name) {
        return Ok(());
    }
    let name = name.copy(alloc)?;
    match overrides.insert(name, value) {
        Ok(_) => Ok(()),
        Err(_) => Err(NoMemory),
    }
}

/// The connections of an instance. `word` is the name of its module.
pub fn connections_of(
    look: &Look,
    module: &Module,
    word: &str,
    ports: &Ports,
    given: &Conns,
    faults: &mut Faults,
) -> Result<Connected, NoMemory>
    ensures { (pins : List ResetPin) (l : n.Look) → Shows look.now l → ShowsResets pins look.now.entries.now l.entries → IsFit l → AreConnsFormed (conns_of given.now) → word.now ≡ «module».now.name
        → ShowsPorts ports.now (module_of «module».now)
        → IfOk result (λ r. (faults.new ≡ all_noted faults.old (connection_rules l (module_of «module».now) (conns_of given.now)))
        × (connection_rules l (module_of «module».now) (conns_of given.now) ≡ []
        → GivesLinks pins l (module_of «module».now) ports.now (joints (header_of (module_of «module».now)) (conns_of given.now)) r)) }
{
    let mut connected = Connected {
        connections: Vec::new(look.alloc),
        leaning: Vec::new(look.alloc),
    };
    match given {
        Conns::Ordered(values) => {
            let header = module.ports.as_slice();
            note_excess(word, header.len(), values.len(), faults)?;
            connect_ordered(
                look,
                ports,
                header,
                values.as_slice(),
                &mut connected,
                faults,
            )?;
        }
        Conns::Named(conns) => {
            note_unknown_ports(look.alloc, ports, conns.as_slice(), word, faults)?;
            connect_named(look, ports, conns.as_slice(), &mut connected, faults)?;
        }
    }
    Ok(connected)
}

/// A name that no port has, or that is given twice.
fn note_unknown_ports(
    alloc: Global,
    ports: &Ports,
    conns: &[Conn],
    word: &str,
    faults: &mut Faults,
) -> Result<(), NoMemory>
    ensures { (m : ModuleTree) → ShowsPorts ports.now m → IfOk result (λ _. faults.new ≡ all_noted faults.old (unmet word.now (header_of m) [] (map conn_of conns.now))) }
{
    let mut seen = IndexSet::new(alloc);
    for conn in conns {
        let is_known = ports.contains_key(&conn.name);
        note_name(alloc, &mut seen, &conn.name, is_known, word, faults)?;
    }
    Ok(())
}

/// Connections by order.
fn connect_ordered(
    look: &Look,
    ports: &Ports,
    header: &[Port],
    values: &[Option<Expr>],
    connected: &mut Connected,
    faults: &mut Faults,
) -> Result<(), NoMemory>
    ensures { (pins : List ResetPin) (l : n.Look) (m : ModuleTree) → Shows look.now l → ShowsResets pins look.now.entries.now l.entries → IsFit l → ShowsPorts ports.now m → m.ports ≡ map port_of header.now
        → All IsFormedIf (map (maybe tree_of) values.now) → AreLinked pins l m ports.now [] connected.old
        → IfOk result (λ _. AreLinked pins l m ports.now (ordered_joints (header_of m) (map (maybe tree_of) values.now)) connected.new
        × (faults.new ≡ all_noted faults.old (read_of l m (ordered_joints (header_of m) (map (maybe tree_of) values.now))))) }
{
    for (k, value) in values.iter().enumerate() {
        let port = port_at(ports, header, k);
        connect(look, ports, port, value, connected, faults)?;
    }
    Ok(())
}

/// The port that a place in the header stands for.
fn port_at(ports: &Ports, header: &[Port], place: usize) -> Option<usize>
    ensures { (m : ModuleTree) → ShowsPorts ports.now m → m.ports ≡ map port_of header.now → IsPlace ports.now result (slice_get (header_of m) place) }
{
    match header.get(place) {
        Some(port) => ports.get_index_of(&port.name),
        None => None,
    }
}

/// Connections by name.
fn connect_named(
    look: &Look,
    ports: &Ports,
    conns: &[Conn],
    connected: &mut Connected,
    faults: &mut Faults,
) -> Result<(), NoMemory>
    ensures { (pins : List ResetPin) (l : n.Look) (m : ModuleTree) → Shows look.now l → ShowsResets pins look.now.entries.now l.entries → IsFit l → ShowsPorts ports.now m
        → AreConnsFormed (named (map conn_of conns.now)) → AreLinked pins l m ports.now [] connected.old
        → IfOk result (λ _. AreLinked pins l m ports.now (filter_map (named_joint (header_of m)) (map conn_of conns.now)) connected.new
        × (faults.new ≡ all_noted faults.old (read_of l m (filter_map (named_joint (header_of m)) (map conn_of conns.now))))) }
{
    for conn in conns {
        let port = port_named(ports, &conn.name);
        connect(look, ports, port, &conn.value, connected, faults)?;
    }
    Ok(())
}

fn port_named(ports: &Ports, name: &Name) -> Option<usize>
    ensures { (m : ModuleTree) → ShowsPorts ports.now m → IsPlace ports.now result (if_among (header_of m) name.now) }
{
    ports.get_index_of(name)
}

/// Connects a port. What has no port, or one without direction, is only read.
fn connect(
    look: &Look,
    ports: &Ports,
    port: Option<usize>,
    value: &Option<Expr>,
    connected: &mut Connected,
    faults: &mut Faults,
) -> Result<(), NoMemory>
    ensures { (pins : List ResetPin) (l : n.Look) (m : ModuleTree) (x : Option Text) (js : List Joint) → Shows look.now l → ShowsResets pins look.now.entries.now l.entries → IsFit l → ShowsPorts ports.now m
        → IsPlace ports.now port x → IsFormedIf (maybe tree_of value.now) → AreLinked pins l m ports.now js connected.old
        → IfOk result (λ _. AreLinked pins l m ports.now (js ++ joint_if x (maybe tree_of value.now)) connected.new
        × (faults.new ≡ all_noted faults.old (read_of l m (joint_if x (maybe tree_of value.now))))) }
{
    let Some(value) = value else {
        return Ok(());
    };
    match directed(ports, port) {
        Some((port, true)) => connect_input(look, ports, port, value, connected, faults),
        Some((port, false)) => connect_output(look, port, value, connected, faults),
        None => {
            resolve(look, value, faults)?;
            Ok(())
        }
    }
}

/// Connects an input, and notes what leans.
fn connect_input(
    look: &Look,
    ports: &Ports,
    port: usize,
    value: &Expr,
    connected: &mut Connected,
    faults: &mut Faults,
) -> Result<(), NoMemory>
    ensures { (pins : List ResetPin) (l : n.Look) (m : ModuleTree) (x : Text) (js : List Joint) → Shows look.now l → ShowsResets pins look.now.entries.now l.entries → IsFit l
        → name_at ports.now port ≡ Some x → side_named m (Some x) ≡ Some true → IsFormed (tree_of value.now) → AreLinked pins l m ports.now js connected.old
        → IfOk result (λ _. AreLinked pins l m ports.now (js ++ joint_if (Some x) (Some (tree_of value.now))) connected.new
        × (faults.new ≡ all_noted faults.old (read_of l m (joint_if (Some x) (Some (tree_of value.now)))))) }
{
    let reset = reset_of(look, value);
    let value = resolve(look, value, faults)?;
    note_input(look.alloc, ports, port, &value, &mut connected.leaning)?;
    let end = End::Input {
        value: value.expr,
        reset,
    };
    push(&mut connected.connections, Connection { port, end })
}

/// Notes what is given to the input at a place, where it leans.
fn note_input(
    alloc: Global,
    ports: &Ports,
    port: usize,
    value: &Resolved,
    leaning: &mut Vec<Leaning>,
) -> Result<(), NoMemory>
    ensures { (x : Text) → name_at ports.now port ≡ Some x → IfOk result (λ _. map leaning_in leaning.new.items ≡ map leaning_in leaning.old.items ++ leaning_if value.now x) }
{
    match ports.get_index(port) {
        Some((name, _)) => note_leaning(alloc, name, value, leaning),
        None => Ok(()),
    }
}

/// Connects an output.
fn connect_output(
    look: &Look,
    port: usize,
    value: &Expr,
    connected: &mut Connected,
    faults: &mut Faults,
) -> Result<(), NoMemory>
    ensures { (pins : List ResetPin) (l : n.Look) (m : ModuleTree) (ports : PortTable) (x : Text) (js : List Joint) → Shows look.now l → IsFit l
        → name_at ports port ≡ Some x → side_named m (Some x) ≡ Some false → IsFormed (tree_of value.now) → AreLinked pins l m ports js connected.old
        → IfOk result (λ _. AreLinked pins l m ports (js ++ joint_if (Some x) (Some (tree_of value.now))) connected.new
        × (faults.new ≡ all_noted faults.old (read_of l m (joint_if (Some x) (Some (tree_of value.now)))))) }
{
    let target = driven_target(look, value, faults)?;
    let end = End::Output(target.target);
    push(&mut connected.connections, Connection { port, end })
}

/// A port with its direction.
fn directed(ports: &Ports, port: Option<usize>) -> Option<(usize, bool)>
    ensures { (m : ModuleTree) (x : Option Text) → ShowsPorts ports.now m → IsPlace ports.now port x → result ≡ placed port (side_named m x) }
{
    let port = port?;
    let (_, direction) = ports.get_index(port)?;
    let is_input = (*direction)?;
    Some((port, is_input))
}

/// The reset that an expression resolves to: a plain name that does, in parentheses or not.
#[cycle(reset_of)]
fn reset_of(look: &Look, expr: &Expr) -> Option<Reset>
    ensures { (pins : List ResetPin) (l : n.Look) → Shows look.now l → ShowsResets pins look.now.entries.now l.entries → IsReset pins result (of.reset_of l (tree_of expr.now)) }
{
    match expr {
        Expr::Ident(name) => named_reset(look, name),
        Expr::Paren(inner) => reset_of(look, inner),
        _ => None,
    }
}

/// The reset that a name resolves to.
fn named_reset(look: &Look, name: &Name) -> Option<Reset>
    ensures { (pins : List ResetPin) (l : n.Look) → Shows look.now l → ShowsResets pins look.now.entries.now l.entries → IsReset pins result (of.reset_of l (tree.name name.now)) }
{
    match look.meaning(name) {
        Some(Meaning::Signal(sig)) => look.reset(sig),
        _ => None,
    }
}

/// Adds the connections as assignments in the direction of their ports. `inner` has the names of the instance's module.
pub fn add_connections(
    alloc: Global,
    ports: &Ports,
    connections: Vec<Connection>,
    inner: &Names,
    design: &mut Design,
) -> Result<(), NoMemory>
    ensures { (pins : List ResetPin) (names : n.Names) (e : grown.Design) (links : List Link) → ShowsNames inner.now names → ShowsDesign pins design.old e → AreFitNames names (length e.entries)
        → AllZip (IsLinkOf pins ports.now) connections.items links → IfOk result (λ _. ShowsDesign pins design.new (connect_all names e links)) }
{
    for connection in connections {
        connect_port(alloc, ports, connection, inner, design)?;
    }
    Ok(())
}

/// Adds a connection, where its port is a signal.
fn connect_port(
    alloc: Global,
    ports: &Ports,
    connection: Connection,
    inner: &Names,
    design: &mut Design,
) -> Result<(), NoMemory>
    ensures { (pins : List ResetPin) (names : n.Names) (e : grown.Design) (link : Link) → ShowsNames inner.now names → ShowsDesign pins design.old e → AreFitNames names (length e.entries)
        → IsLinkOf pins ports.now connection link → IfOk result (λ _. ShowsDesign pins design.new (connect_one names e link)) }
{
    match inner_signal(ports, connection.port, inner) {
        Some(sig) => add_connection(alloc, sig, connection.end, inner, design),
        None => Ok(()),
    }
}

/// The signal of a port in its module.
fn inner_signal(ports: &Ports, port: usize, inner: &Names) -> Option<u32>
    ensures { (names : n.Names) (x : Text) → ShowsNames inner.now names → name_at ports.now port ≡ Some x → result ≡ if_signal (meaning_in names x) }
{
    let (name, _) = ports.get_index(port)?;
    match inner.get(name) {
        Some(meaning) => signal_meant(*meaning),
        None => None,
    }
}

fn signal_meant(meaning: Meaning) -> Option<u32>
    ensures { result ≡ if_signal (Some (meaning_of meaning)) }
{
    match meaning {
        Meaning::Signal(sig) => Some(sig),
        _ => None,
    }
}

fn add_connection(
    alloc: Global,
    sig: u32,
    end: End,
    inner: &Names,
    design: &mut Design,
) -> Result<(), NoMemory>
    ensures { (pins : List ResetPin) (names : n.Names) (e : grown.Design) (link : Link) → ShowsNames inner.now names → ShowsDesign pins design.old e → IsEnd pins end link → sig < length e.entries
        → IfOk result (λ _. ShowsDesign pins design.new (connect_at e sig link)) }
{
    let assign = match end {
        End::Input { value, reset } => {
            set_reset(design, sig, reset);
            FlatAssign {
                target: FTarget::Whole { sig },
                value,
            }
        }
        End::Output(target) => FlatAssign {
            target,
            value: port_value(alloc, sig, inner, design),
        },
    };
    push(&mut design.assigns, assign)
}

/// What a port of an instance reads as: a reset as its inactive level.
fn port_value(alloc: Global, sig: u32, inner: &Names, design: &Design) -> FExpr
    ensures { (pins : List ResetPin) (s : Stage) → ShowsStage pins inner.now design.now s → sig < length s.design.entries → (expr_of result ≡ n.whole_of (look_of s) sig) × (keeps_sizes result ≡ true) }
{
    let look = design.look(alloc, inner);
    look.read(sig, 0, look.width(sig))
}

/// A port reads as the reset that is connected to it, unless it is declared as one itself.
fn set_reset(design: &mut Design, sig: u32, reset: Option<Reset>)
    ensures { (pins : List ResetPin) (e : grown.Design) (r : Option ResetPin) → ShowsDesign pins design.old e → IsReset pins reset r
        → ShowsDesign pins design.new (record e { entries = grown.change_entry (of.resolving_to r) sig e.entries }) }
{
    let place = usize::try_from(sig).unwrap_or(usize::MAX);
    if let Some(entry) = design.entries.get_mut(place) {
        entry.reset = entry.reset.or(reset);
    }
}

fn signal_width(design: &Design, sig: u32) -> u8
    ensures { (pins : List ResetPin) (e : grown.Design) → ShowsDesign pins design.now e → sig < length e.entries → result ≡ n.width_at e.entries sig }
{
    match design
        .entries
        .get(usize::try_from(sig).unwrap_or(usize::MAX))
    {
        Some(entry) => entry.width,
        None => 1,
    }
}

/// Whether an expression that leans is narrower than what it is given to. `names` are those of the instance's module.
pub fn has_short(leaning: &[Leaning], names: &Names, design: &Design) -> bool
    ensures { (pins : List ResetPin) (s : Stage) → ShowsStage pins names.now design.now s → AreFitNames s.names (length s.design.entries)
        → result ≡ list_any (of.is_short s) (map leaning_in leaning.now) }
{
    for given in leaning {
        if is_short(given, names, design) {
            return true;
        }
    }
    false
}

fn is_short(given: &Leaning, names: &Names, design: &Design) -> bool
    ensures { (pins : List ResetPin) (s : Stage) → ShowsStage pins names.now design.now s → AreFitNames s.names (length s.design.entries) → result ≡ of.is_short s (leaning_in given.now) }
{
    match names.get(&given.name) {
        Some(meaning) => given.bits < taken_bits(*meaning, design),
        None => false,
    }
}

/// How many bits a signal takes, or a parameter with a range.
fn taken_bits(meaning: Meaning, design: &Design) -> u8
    ensures { (pins : List ResetPin) (e : grown.Design) → ShowsDesign pins design.now e → IsFitMeaning (length e.entries) meaning
        → result ≡ of.taken_bits e.entries (option_and_then n.as_value (Some (meaning_of meaning))) }
{
    match meaning {
        Meaning::Signal(sig) => signal_width(design, sig),
        Meaning::Param(param) => if param.bounds.is_some() {
            param.width
        } else {
            0
        },
        Meaning::Memory(_) | Meaning::NoValue => 0,
    }
}
