//! The visit of modules, each instance in its place.
ghost use Rattle.std.specs.Prelude.{◌≡◌, ◌==◌, ◌<◌, ◌++◌, ◌∷◌, false, List, [], map, filter_map, length, string_bytes, codes, All, Some, None, option_copied, option_and_then, slice_get, slice_set, IfOk, IfErr};
ghost use Rattle.std.specs.List.{list_any, AllZip};
ghost use Rattle.refusals.specs.Numbers.{HasNumberIn, unfolding_numbers};
ghost use Rattle.cdc_base.specs.declared.signal.ResetPin as pin;
ghost use Rattle.cdc_base.specs.declared.signal.Signal.{Signal};
ghost use Rattle.flat_names.specs.declared.design.Entry.{Entry};
ghost use Rattle.verilog_ast.specs.declared.Module as code;
ghost use Rattle.verilog_reading.specs.StmtTree.{stmt_tree_of};
ghost use Rattle.verilog_reading.specs.SourceTree.{ItemTree, ModuleTree, PortTree, always, decl_of, body_of, item_of as item_tree_of, port_of, conns_of, module_of};
ghost use Rattle.flat_unfolding.specs.Outcome.{Text, good, then_, each};
ghost use Rattle.flat_unfolding.specs.Names.{printed_part};
ghost use Rattle.flat_unfolding.specs.Parameters as law_parameters;
ghost use Rattle.flat_unfolding.specs.Declarations as law_declarations;
ghost use Rattle.flat_unfolding.specs.Declarations.{header_of};
ghost use Rattle.flat_unfolding.specs.Instances.{Link, connected};
ghost use Rattle.flat_unfolding.specs.Design as grown;
ghost use Rattle.flat_unfolding.specs.Design.{Stage, look_of, no_design};
ghost use Rattle.flat_unfolding.specs.Formed.{IsFormedIf, IsStmtFormed, IsPortFormed, IsBodyFormed, AreConnsFormed, IsModuleFormed};
ghost use Rattle.flat_unfolding.specs.Processes.{always_item};
ghost use Rattle.flat_unfolding.specs.Unfolding as law;
ghost use Rattle.flat_unfolding.specs.Unfolding.{declared_value, header_values, top_ports};
ghost use Rattle.flat_names.specs.Looks.{IsFit};
ghost use Rattle.flat_names.specs.Designs.{ShowsNames, ShowsDesign, ShowsStage, Meets, Ends};
ghost use Rattle.flat_declarations.specs.Declaring.{MeetsFit, ShowsOverrides, AreFitOverrides};
ghost use Rattle.flat_design.specs.Chosen.{chosen, chosen_item_of, chosen_visit};
ghost use Rattle.flat_design.specs.Visiting.{ShowsPorts, IsLinkOf, IsNumber, IsLibrary, Lists, Frame, IsFrame, closed, IsClosed, rest_of, part_in, part_of, item_before, IsVisiting, AreMarked, next_of, Goes, IsGrown, Steps, begun, Begins, Enters, instance_tree, Finds, AreEnds, mark_at, prefix_of, is_declaration as is_declaration_of, declares as declares_of, IsPlain, IsFitDesign, AreFitNames, ShowsPins};

use crate::instance::{
    Connected, Connection, Given, Overridden, Ports, add_connections, connections_of, has_short,
    overrides_of, ports_of,
};
use crate::resets::{Pins, pins_by_name, resolve_resets};
use crate::top_ports::set_top_ports;
use cdc_base::{Name, NoMemory, Place, ResetPin, Stop};
use flat_declarations::declare::add_declarations;
use flat_declarations::parameter::{Overrides, add_parameters};
use flat_form::memory::{append, push};
use flat_names::design::Design;
use flat_names::fault::{Faults, Order, Rule, refused};
use flat_names::printed::append_part;
use flat_names::scope::{Meaning, Names, define};
use flat_process::always::add_process;
use flat_process::assign::{add_assign, add_gate, add_wire_value};
use flat_process::start::{add_declared_start, add_initial};
use indexmap::IndexMap;
use std::alloc::Global;
use verilog_ast::{Conns, Decl, DeclKind, Event, Item, ItemBody, Module, Port, Source, Stmt};

/// The source with its modules by name, and the resets by name; `wires_only` leaves processes out.
#[derive(Drop)]
pub struct Library<'a> {
    alloc: Global,
    modules: &'a [Module],
    by_name: IndexMap<Name, usize>,
    pins: Pins,
    wires_only: bool,
}

impl<'a> Library<'a> {
    /// Two modules of one name are refused.
    pub fn new(
        alloc: Global,
        source: &'a Source,
        resets: &[ResetPin],
        wires_only: bool,
    ) -> Result<Library<'a>, Stop>
        ensures exact { Lists source.entry.now.modules result }
        ensures wires { IfOk result (λ l. l.wires_only ≡ wires_only) }
        ensures pins { IfOk result (λ l. ShowsPins l.pins resets.now) }
        ensures numbered { IfErr result (HasNumberIn unfolding_numbers) }
    {
        let modules = source.modules.as_slice();
        let mut by_name = IndexMap::new(alloc);
        for (number, module) in modules.iter().enumerate() {
            if by_name.contains_key(&module.name) {
                return refused(
                    alloc,
                    Rule::DeclaredTwice,
                    Some(module.place),
                    module.name.as_str(),
                );
            }
            if by_name.insert(module.name.copy(alloc)?, number).is_err() {
                return Err(Stop::Memory);
            }
        }
        let pins = pins_by_name(alloc, resets)?;
        Ok(Library {
            alloc,
            modules,
            by_name,
            pins,
            wires_only,
        })
    }

    /// The number of the module with this name.
    pub fn number(&self, name: &Name) -> Option<usize>
        ensures { IsLibrary self.now.modules.now self.now.by_name → IsNumber self.now.modules.now name.now result }
    {
        self.by_name.get(name).copied()
    }

    fn module(&self, number: usize) -> Option<&Module>
        ensures { option_copied result ≡ slice_get self.now.modules.now number }
    {
        self.modules.get(number)
    }

    fn name(&self, number: usize) -> &str
        ensures { (m : code.Module) → slice_get self.now.modules.now number ≡ Some m → result.now ≡ m.name }
    {
        match self.modules.get(number) {
            Some(module) => module.name.as_str(),
            None => "",
        }
    }

    fn item(&self, module: usize, item: usize) -> Option<&Item>
        ensures { option_copied result ≡ option_and_then (λ (m : code.Module). slice_get m.items item) (slice_get self.now.modules.now «module») }
    {
        self.modules.get(module)?.items.as_slice().get(item)
    }
}

/// A module that is being visited: its number, its names, the place of its next item, and what was given to it.
#[derive(Drop)]
struct Open {
    module: usize,
    names: Names,
    next: usize,
    given: Given,
}

/// How far the visit has come. `open` has the modules that are being visited, each an instance in the one before it;
/// `is_open` tells this of each module.
#[derive(Drop)]
pub struct Visit {
    open: Vec<Open>,
    is_open: Vec<bool>,
    pub design: Design,
}

impl Visit {
    pub fn new(library: &Library) -> Result<Visit, NoMemory>
        ensures { (pins : List pin.ResetPin) → IfOk result (λ v. (v.open.items ≡ []) × (v.is_open.items ≡ map (λ (m : code.Module). false) library.now.modules.now) × ShowsDesign pins v.design (no_design pins)) }
    {
        let mut is_open = Vec::new(library.alloc);
        for _module in library.modules {
            push(&mut is_open, false)?;
        }
        Ok(Visit {
            open: Vec::new(library.alloc),
            is_open,
            design: Design::new(library.alloc),
        })
    }

    fn is_visited(&self, module: usize) -> bool
        ensures { result ≡ mark_at self.now.is_open.items «module» }
    {
        self.is_open.get(module).copied().unwrap_or(false)
    }

    fn mark(&mut self, module: usize, is_open: bool)
        ensures marks { self.new.is_open.items ≡ slice_set self.old.is_open.items «module» is_open }
        ensures stack { self.new.open ≡ self.old.open }
        ensures design { self.new.design ≡ self.old.design }
    {
        if let Some(mark) = self.is_open.get_mut(module) {
            *mark = is_open;
        }
    }

    /// The printed instance names from the top to the module that is visited, each with its dot.
    fn prefix(&self, library: &Library) -> Result<String, NoMemory>
        ensures { IfOk result (λ t. string_bytes t ≡ prefix_of library.now.modules.now self.now.open.items) }
    {
        let mut prefix = String::new(library.alloc);
        for here in self.open.as_slice() {
            let item = library.item(here.module, here.next.saturating_sub(1));
            append_instance(&mut prefix, item)?;
        }
        Ok(prefix)
    }
}

/// The printed name of an instance, with its dot.
fn append_instance(prefix: &mut String, item: Option<&Item>) -> Result<(), NoMemory>
    ensures { IfOk result (λ _. string_bytes prefix.new ≡ string_bytes prefix.old ++ part_in (option_copied item.entry)) }
{
    let Some(item) = item else {
        return Ok(());
    };
    match &item.body {
        ItemBody::Instance { name, .. } => {
            append_part(prefix, name.as_str())?;
            append(prefix, ".")
        }
        _ => Ok(()),
    }
}

/// Whether a module declares anything.
fn declares(module: &Module) -> bool
    ensures { result ≡ declares_of (module_of «module».now) }
{
    module.ports.len() != 0 || declares_item(module.items.as_slice())
}

fn declares_item(items: &[Item]) -> bool
    ensures { result ≡ list_any (λ (i : ItemTree). is_declaration_of i.body) (map item_tree_of items.now) }
{
    for item in items {
        if is_declaration(&item.body) {
            return true;
        }
    }
    false
}

fn is_declaration(body: &ItemBody) -> bool
    ensures { result ≡ is_declaration_of (body_of body.now) }
{
    matches!(body, ItemBody::Decl(_))
}

/// Visits the top and all that it has.
pub fn visit_top(library: &Library, top: usize, visit: &mut Visit) -> Result<(), Stop>
    ensures exact { (pins : List pin.ResetPin) (m : code.Module) → IsLibrary library.now.modules.now library.now.by_name → ShowsPins library.now.pins pins → All IsModuleFormed (map module_of library.now.modules.now)
        → slice_get library.now.modules.now top ≡ Some m
        → visit.old.open.items ≡ [] → visit.old.is_open.items ≡ map (λ (q : code.Module). false) library.now.modules.now → ShowsDesign pins visit.old.design (no_design pins)
        → Ends (IsGrown pins visit.new.design)
        (then_ (chosen_visit library.now.wires_only (map module_of library.now.modules.now) (length library.now.modules.now) [] (m.name ∷ []) (module_of m) [] (top_ports (header_of (module_of m))) (no_design pins)) (λ (s : Stage). good s.design)) result }
    ensures numbered { IfErr result (HasNumberIn unfolding_numbers) }
{
    let none = IndexMap::new(library.alloc);
    let names = begin(library, top, &none, visit)?;
    set_ports(library, top, &names, &mut visit.design)?;
    let given = Given {
        place: None,
        params: Vec::new(library.alloc),
        ports: Vec::new(library.alloc),
    };
    open_module(library, top, names, given, visit)?;
    visit_open(library, visit)
}

/// What the ports of the top are: what comes from outside, and its outputs.
fn set_ports(
    library: &Library,
    top: usize,
    names: &Names,
    design: &mut Design,
) -> Result<(), NoMemory>
    ensures { (pins : List pin.ResetPin) (m : code.Module) (s : Stage) → slice_get library.now.modules.now top ≡ Some m → ShowsStage pins names.now design.old s → AreFitNames s.names (length s.design.entries)
        → IfOk result (λ _. ShowsStage pins names.now design.new (top_ports (header_of (module_of m)) s)) }
{
    let Some(module) = library.module(top) else {
        return Ok(());
    };
    set_top_ports(module, names, design)
}

/// Visits what is left of the modules that are being visited.
fn visit_open(library: &Library, visit: &mut Visit) -> Result<(), Stop>
    ensures exact { (pins : List pin.ResetPin) (frames : List Frame) (d : grown.Design) → IsLibrary library.now.modules.now library.now.by_name → ShowsPins library.now.pins pins → All IsModuleFormed (map module_of library.now.modules.now)
        → IsVisiting pins library.now.modules.now visit.old.open.items visit.old.is_open.items visit.old.design frames d → Ends (IsGrown pins visit.new.design) (rest_of library.now.wires_only (map module_of library.now.modules.now) frames d) result }
    ensures numbered { IfErr result (HasNumberIn unfolding_numbers) }
{
    // A visit has fewer steps than any number that a machine could count to, so that the last line isn't met.
    for _ in 0..u64::MAX {
        if !step(library, visit)? {
            return Ok(());
        }
    }
    Err(Stop::Memory)
}

/// Reads the parameters and the declarations of a module with the resets among them, and gives its names.
fn begin(
    library: &Library,
    module: usize,
    overrides: &Overrides,
    visit: &mut Visit,
) -> Result<Names, Stop>
    ensures exact { (pins : List pin.ResetPin) (m : code.Module) (given : law_parameters.Overrides) (d : grown.Design) → slice_get library.now.modules.now «module» ≡ Some m → IsModuleFormed (module_of m)
        → ShowsPins library.now.pins pins → ShowsDesign pins visit.old.design d → IsFitDesign d → ShowsOverrides overrides.now given → AreFitOverrides given
        → Begins pins (begun given (prefix_of library.now.modules.now visit.old.open.items) (module_of m) d) result visit.new.design }
    ensures stack { visit.new.open ≡ visit.old.open }
    ensures marks { visit.new.is_open ≡ visit.old.is_open }
    ensures numbered { IfErr result (HasNumberIn unfolding_numbers) }
{
    let alloc = library.alloc;
    let mut names = IndexMap::new(alloc);
    let Some(module) = library.module(module) else {
        return Ok(names);
    };
    let first = visit.design.entries.len();
    add_parameters(alloc, module, overrides, &mut names, &visit.design)?;
    declare(library, module, &mut names, visit)?;
    resolve_resets(&library.pins, first, &mut visit.design);
    Ok(names)
}

/// Adds the declarations of a module.
fn declare(
    library: &Library,
    module: &Module,
    names: &mut Names,
    visit: &mut Visit,
) -> Result<(), Stop>
    ensures exact { (pins : List pin.ResetPin) (s : Stage) → ShowsStage pins names.old visit.old.design s → IsFit (look_of s) → IsModuleFormed (module_of «module».now)
        → MeetsFit pins names.new (law_declarations.declarations (prefix_of library.now.modules.now visit.old.open.items) (module_of «module».now) s) result visit.new.design }
    ensures stack { visit.new.open ≡ visit.old.open }
    ensures marks { visit.new.is_open ≡ visit.old.is_open }
    ensures numbered { IfErr result (HasNumberIn unfolding_numbers) }
{
    if !declares(module) {
        return Ok(());
    }
    let prefix = visit.prefix(library)?;
    add_declarations(
        library.alloc,
        module,
        prefix.as_str(),
        names,
        &mut visit.design,
    )
}

/// Begins the visit of a module's items with the start values in its header.
fn open_module(
    library: &Library,
    module: usize,
    names: Names,
    given: Given,
    visit: &mut Visit,
) -> Result<(), Stop>
    ensures exact { (pins : List pin.ResetPin) (m : code.Module) (s : Stage) → slice_get library.now.modules.now «module» ≡ Some m → IsModuleFormed (module_of m)
        → ShowsStage pins names visit.old.design s → IsFit (look_of s) → Enters pins «module» names given visit.old (header_values (module_of m) s) result visit.new }
    ensures numbered { IfErr result (HasNumberIn unfolding_numbers) }
{
    add_module_values(library, module, &names, &mut visit.design)?;
    visit.mark(module, true);
    let open = Open {
        module,
        names,
        next: 0,
        given,
    };
    push(&mut visit.open, open)?;
    Ok(())
}

/// The start values in a module's header.
fn add_module_values(
    library: &Library,
    module: usize,
    names: &Names,
    design: &mut Design,
) -> Result<(), Stop>
    ensures exact { (pins : List pin.ResetPin) (m : code.Module) (s : Stage) → slice_get library.now.modules.now «module» ≡ Some m → IsModuleFormed (module_of m)
        → ShowsStage pins names.now design.old s → IsFit (look_of s) → Meets pins names.now (header_values (module_of m) s) result design.new }
    ensures numbered { IfErr result (HasNumberIn unfolding_numbers) }
{
    let Some(found) = library.module(module) else {
        return Ok(());
    };
    add_header_values(
        library.alloc,
        found.place,
        found.ports.as_slice(),
        names,
        design,
    )
}

/// The values of the declarations in a header.
fn add_header_values(
    alloc: Global,
    place: Place,
    header: &[Port],
    names: &Names,
    design: &mut Design,
) -> Result<(), Stop>
    ensures exact { (pins : List pin.ResetPin) (s : Stage) → ShowsStage pins names.now design.old s → IsFit (look_of s) → All IsPortFormed (map port_of header.now)
        → Meets pins names.now (each (λ t d. declared_value t place d) s (filter_map (λ (p : PortTree). p.decl) (map port_of header.now))) result design.new }
    ensures numbered { IfErr result (HasNumberIn unfolding_numbers) }
{
    for port in header {
        add_port_value(alloc, place, port, names, design)?;
    }
    Ok(())
}

/// The value of a port's declaration.
fn add_port_value(
    alloc: Global,
    place: Place,
    port: &Port,
    names: &Names,
    design: &mut Design,
) -> Result<(), Stop>
    ensures exact { (pins : List pin.ResetPin) (s : Stage) → ShowsStage pins names.now design.old s → IsFit (look_of s) → IsPortFormed (port_of port.now)
        → Meets pins names.now (each (λ t d. declared_value t place d) s (filter_map (λ (p : PortTree). p.decl) (port_of port.now ∷ []))) result design.new }
    ensures numbered { IfErr result (HasNumberIn unfolding_numbers) }
{
    match &port.decl {
        Some(decl) => add_declared_value(alloc, place, decl, names, design),
        None => Ok(()),
    }
}

/// One item of the innermost module, or its end. Answers whether there was a module left.
fn step(library: &Library, visit: &mut Visit) -> Result<bool, Stop>
    ensures exact { (pins : List pin.ResetPin) (frames : List Frame) (d : grown.Design) → IsLibrary library.now.modules.now library.now.by_name → ShowsPins library.now.pins pins → All IsModuleFormed (map module_of library.now.modules.now)
        → IsVisiting pins library.now.modules.now visit.old.open.items visit.old.is_open.items visit.old.design frames d → Steps library.now.wires_only pins library.now.modules.now frames d result visit.new }
    ensures numbered { IfErr result (HasNumberIn unfolding_numbers) }
{
    let Some(mut open) = visit.open.pop() else {
        return Ok(false);
    };
    let Some(item) = library.item(open.module, open.next) else {
        visit.mark(open.module, false);
        try_given(library, &open, &visit.design)?;
        return Ok(true);
    };
    let Some(next) = open.next.checked_add(1) else {
        // No list is that long.
        return Err(Stop::Memory);
    };
    open.next = next;
    add_next(library, item, open, visit)?;
    Ok(true)
}

/// What was given to a module whose items are done has to be as wide as what took it, where it leans.
fn try_given(library: &Library, open: &Open, design: &Design) -> Result<(), Stop>
    ensures exact { (pins : List pin.ResetPin) (f : Frame) (d : grown.Design) → IsFrame library.now.modules.now open.now f → ShowsDesign pins design.now d → AreFitNames f.names (length d.entries)
        → IsClosed (closed f (record { names = f.names; design = d })) result }
    ensures numbered { IfErr result (HasNumberIn unfolding_numbers) }
{
    let params = open.given.params.as_slice();
    let ports = open.given.ports.as_slice();
    if has_short(params, &open.names, design) || has_short(ports, &open.names, design) {
        return refused(
            library.alloc,
            Rule::Mismatch,
            open.given.place,
            library.name(open.module),
        );
    }
    Ok(())
}

/// One item of a module that is being visited.
fn add_next(library: &Library, item: &Item, outer: Open, visit: &mut Visit) -> Result<(), Stop>
    ensures exact { (pins : List pin.ResetPin) (frames : List Frame) (f : Frame) (d : grown.Design) → IsLibrary library.now.modules.now library.now.by_name → ShowsPins library.now.pins pins → All IsModuleFormed (map module_of library.now.modules.now)
        → IsVisiting pins library.now.modules.now (visit.old.open.items ++ outer ∷ []) visit.old.is_open.items visit.old.design (f ∷ frames) d
        → item_before library.now.modules.now outer ≡ Some item.now
        → Goes library.now.wires_only pins library.now.modules.now (next_of library.now.wires_only (map module_of library.now.modules.now) f frames d (item_tree_of item.now)) result visit.new }
    ensures numbered { IfErr result (HasNumberIn unfolding_numbers) }
{
    if let ItemBody::Instance {
        module,
        params,
        name,
        ports,
    } = &item.body
    {
        let instance = Instance {
            place: item.place,
            module,
            params,
            name,
            ports,
        };
        return add_instance(library, &instance, outer, visit);
    }
    add_plain(library, item, outer, visit)
}

/// An item that isn't an instance.
fn add_plain(library: &Library, item: &Item, outer: Open, visit: &mut Visit) -> Result<(), Stop>
    ensures exact { (pins : List pin.ResetPin) (frames : List Frame) (f : Frame) (d : grown.Design) → IsLibrary library.now.modules.now library.now.by_name → All IsModuleFormed (map module_of library.now.modules.now)
        → IsVisiting pins library.now.modules.now (visit.old.open.items ++ outer ∷ []) visit.old.is_open.items visit.old.design (f ∷ frames) d
        → item_before library.now.modules.now outer ≡ Some item.now → IsPlain (body_of item.now.body)
        → Goes library.now.wires_only pins library.now.modules.now (next_of library.now.wires_only (map module_of library.now.modules.now) f frames d (item_tree_of item.now)) result visit.new }
    ensures numbered { IfErr result (HasNumberIn unfolding_numbers) }
{
    add_item(
        library.alloc,
        library.wires_only,
        item.place,
        &item.body,
        &outer.names,
        &mut visit.design,
    )?;
    push(&mut visit.open, outer)?;
    Ok(())
}

/// An instance as the source has it.
#[derive(Drop)]
struct Instance<'a> {
    place: Place,
    module: &'a Name,
    params: &'a Conns,
    name: &'a Name,
    ports: &'a Conns,
}

/// Begins the visit of an instance's module. `outer` is the module that has the instance.
fn add_instance(
    library: &Library,
    instance: &Instance,
    outer: Open,
    visit: &mut Visit,
) -> Result<(), Stop>
    ensures exact { (pins : List pin.ResetPin) (frames : List Frame) (f : Frame) (d : grown.Design) → IsLibrary library.now.modules.now library.now.by_name → ShowsPins library.now.pins pins → All IsModuleFormed (map module_of library.now.modules.now)
        → IsVisiting pins library.now.modules.now (visit.old.open.items ++ outer ∷ []) visit.old.is_open.items visit.old.design (f ∷ frames) d
        → part_of library.now.modules.now outer ≡ printed_part instance.now.name.now ++ codes "."
        → AreConnsFormed (conns_of instance.now.params.now) → AreConnsFormed (conns_of instance.now.ports.now)
        → Goes library.now.wires_only pins library.now.modules.now (next_of library.now.wires_only (map module_of library.now.modules.now) f frames d (instance_tree instance.now)) result visit.new }
    ensures numbered { IfErr result (HasNumberIn unfolding_numbers) }
{
    let alloc = library.alloc;
    let number = instance_module(library, instance, &outer.names, visit)?;
    let Some(module) = library.module(number) else {
        return Ok(());
    };
    let ports = ports_of(alloc, module)?;
    let (overridden, connected) = ends_of(
        alloc,
        instance,
        module,
        &ports,
        &outer.names,
        &visit.design,
    )?;
    let mut outer = outer;
    define(
        alloc,
        &mut outer.names,
        instance.name.as_str(),
        Meaning::NoValue,
    )?;
    push(&mut visit.open, outer)?;
    let names = begin(library, number, &overridden.overrides, visit)?;
    let given = Given {
        place: Some(instance.place),
        params: overridden.leaning,
        ports: connected.leaning,
    };
    let ends = (&ports, connected.connections, given);
    enter_module(library, number, names, ends, visit)
}

/// The overrides and connections of an instance, where no rule is broken.
fn ends_of(
    alloc: Global,
    instance: &Instance,
    module: &Module,
    ports: &Ports,
    names: &Names,
    design: &Design,
) -> Result<(Overridden, Connected), Stop>
    ensures exact { (pins : List pin.ResetPin) (s : Stage) → ShowsStage pins names.now design.now s → IsFit (look_of s) → ShowsPorts ports.now (module_of «module».now)
        → instance.now.«module».now ≡ «module».now.name → AreConnsFormed (conns_of instance.now.params.now) → AreConnsFormed (conns_of instance.now.ports.now)
        → AreEnds pins ports.now s instance.now.place (module_of «module».now) (conns_of instance.now.params.now) (conns_of instance.now.ports.now) result }
    ensures numbered { IfErr result (HasNumberIn unfolding_numbers) }
{
    let word = instance.module.as_str();
    let mut faults = Faults::new(alloc, Order::Other);
    let look = design.look(alloc, names);
    let overridden = overrides_of(&look, module, word, instance.params, &mut faults)?;
    let connected = connections_of(&look, module, word, ports, instance.ports, &mut faults)?;
    faults.raise(instance.place)?;
    Ok((overridden, connected))
}

/// Adds the connections of an instance whose module has begun, and goes into it.
fn enter_module(
    library: &Library,
    number: usize,
    names: Names,
    ends: (&Ports, Vec<Connection>, Given),
    visit: &mut Visit,
) -> Result<(), Stop>
    ensures exact { (pins : List pin.ResetPin) (m : code.Module) (s : Stage) (links : List Link) → slice_get library.now.modules.now number ≡ Some m → IsModuleFormed (module_of m)
        → ShowsStage pins names visit.old.design s → IsFit (look_of s) → AllZip (IsLinkOf pins ends.entry.0.now) ends.entry.1.items links
        → Enters pins number names ends.entry.2 visit.old (header_values (module_of m) (connected links s)) result visit.new }
    ensures numbered { IfErr result (HasNumberIn unfolding_numbers) }
{
    let (ports, connections, given) = ends;
    add_connections(library.alloc, ports, connections, &names, &mut visit.design)?;
    open_module(library, number, names, given, visit)
}

/// The number of an instance's module, which has to be known and not being visited. The instance's name is new.
fn instance_module(
    library: &Library,
    instance: &Instance,
    names: &Names,
    visit: &Visit,
) -> Result<usize, Stop>
    ensures exact { (visiting : List Text) (s : Stage) → IsLibrary library.now.modules.now library.now.by_name → AreMarked library.now.modules.now visit.now.is_open.items visiting → ShowsNames names.now s.names
        → Finds library.now.modules.now visiting s instance.now.place instance.now.«module».now instance.now.name.now result }
    ensures numbered { IfErr result (HasNumberIn unfolding_numbers) }
{
    let place = Some(instance.place);
    let Some(number) = library.number(instance.module) else {
        return refused(
            library.alloc,
            Rule::UnknownModule,
            place,
            instance.module.as_str(),
        );
    };
    if visit.is_visited(number) {
        return refused(
            library.alloc,
            Rule::ModuleInsideItself,
            place,
            instance.module.as_str(),
        );
    }
    if names.contains_key(instance.name) {
        return refused(
            library.alloc,
            Rule::DeclaredTwice,
            place,
            instance.name.as_str(),
        );
    }
    Ok(number)
}

/// Any item but a parameter, which was read before, and an instance.
fn add_item(
    alloc: Global,
    wires_only: bool,
    place: Place,
    body: &ItemBody,
    names: &Names,
    design: &mut Design,
) -> Result<(), Stop>
    ensures exact { (pins : List pin.ResetPin) (s : Stage) (modules : List ModuleTree) (visiting : List Text) (prefix : Text) (inside : law.Visit) → ShowsStage pins names.now design.old s → IsFit (look_of s)
        → IsBodyFormed (body_of body.now) → IsPlain (body_of body.now) → Meets pins names.now (chosen_item_of wires_only modules visiting prefix inside s place (body_of body.now)) result design.new }
    ensures numbered { IfErr result (HasNumberIn unfolding_numbers) }
{
    match body {
        ItemBody::Param(_) | ItemBody::Instance { .. } => Ok(()),
        ItemBody::Decl(decl) => add_declared_value(alloc, place, decl, names, design),
        ItemBody::Assign { target, value } => {
            add_assign(alloc, place, target, value, names, design)
        }
        ItemBody::Gate { kind, terminals } => {
            add_gate(alloc, place, *kind, terminals.as_slice(), names, design)
        }
        ItemBody::Always { event, body } => {
            add_chosen_process(alloc, wires_only, place, event, body, names, design)
        }
        ItemBody::Initial(body) => add_initial(alloc, place, body, names, design),
    }
}

/// A process, unless wires alone are wanted.
fn add_chosen_process(
    alloc: Global,
    wires_only: bool,
    place: Place,
    event: &Event,
    body: &Stmt,
    names: &Names,
    design: &mut Design,
) -> Result<(), Stop>
    ensures exact { (pins : List pin.ResetPin) (s : Stage) → ShowsStage pins names.now design.old s → IsFit (look_of s) → IsStmtFormed (stmt_tree_of body.now)
        → Meets pins names.now (chosen (always event.now (stmt_tree_of body.now)) wires_only (always_item s place event.now (stmt_tree_of body.now)) s) result design.new }
    ensures numbered { IfErr result (HasNumberIn unfolding_numbers) }
{
    if wires_only {
        return Ok(());
    }
    add_process(alloc, place, event, body, names, design)
}

/// The value of a declaration: an assignment to a wire, or a register's start value.
fn add_declared_value(
    alloc: Global,
    place: Place,
    decl: &Decl,
    names: &Names,
    design: &mut Design,
) -> Result<(), Stop>
    ensures exact { (pins : List pin.ResetPin) (s : Stage) → ShowsStage pins names.now design.old s → IsFit (look_of s) → IsFormedIf (decl_of decl.now).init
        → Meets pins names.now (declared_value s place (decl_of decl.now)) result design.new }
    ensures numbered { IfErr result (HasNumberIn unfolding_numbers) }
{
    match &decl.init {
        None => Ok(()),
        Some(value) if decl.kind == DeclKind::Wire => {
            add_wire_value(alloc, place, &decl.name, value, names, design)
        }
        Some(value) => add_declared_start(alloc, place, decl, value, names, design),
    }
}
