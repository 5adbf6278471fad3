//! Declarations of a module: its signals and memories, in textual order.
ghost use Rattle.std.specs.Prelude.{◌≡◌, ◌^◌, ◌≤◌, ◌&&◌, ◌||◌, ◌++◌, ◌==◌, Bool, not, is_some, is_none, List, [], true, false, Some, None, slice_get, IfOk, IfErr, option_map};
ghost use Rattle.std.specs.Option.{option_map_or};
ghost use Rattle.std.specs.Cmp.Lexicographic.{pointwise};
ghost use Rattle.indexmap.specs.IndexSet.{contains_by};
ghost use Rattle.refusals.specs.Numbers.{HasNumberIn, unfolding_numbers};
ghost use Rattle.cdc_base.specs.declared.signal.ResetPin.{ResetPin};
ghost use Rattle.verilog_ast.specs.declared.DeclKind.{DeclKind};
ghost use Rattle.verilog_reading.specs.SourceTree.{bounds_of as tree_of_range, decl_of as tree_of_decl, module_of};
ghost use Rattle.flat_unfolding.specs.Names as meanings;
ghost use Rattle.flat_unfolding.specs.Outcome.{Text, breaks_if, each};
ghost use Rattle.flat_unfolding.specs.Memories as memories;
ghost use Rattle.flat_unfolding.specs.Parameters.{range_read};
ghost use Rattle.flat_unfolding.specs.Declarations as law;
ghost use Rattle.flat_unfolding.specs.Declarations.{Site, declaration_rules, array_read, again as declared_again, declared_again as entry_again};
ghost use Rattle.flat_unfolding.specs.Design as law_design;
ghost use Rattle.flat_unfolding.specs.Design.{Stage, look_of, change_entry};
ghost use Rattle.flat_unfolding.specs.Formed.{IsRangeFormed, IsDeclFormed, IsModuleFormed};
ghost use Rattle.flat_names.specs.declared.design.Entry.{Entry};
ghost use Rattle.flat_names.specs.Noting.{all_noted};
ghost use Rattle.flat_names.specs.Looks.{Shows, IsFit, range_of, direction_of, seen, shown};
ghost use Rattle.flat_names.specs.Designs.{ShowsDesign, ShowsStage, Meets, signal_of};
ghost use Rattle.flat_declarations.specs.Declaring.{MeetsFit, IsAt, ShowsOpen, is_again, Declares, Adds, Heads};

use crate::parameter::{declared_bounds, declared_width, note_declared, range_bounds};
use cdc_base::limits::MAX_SIGNALS;
use cdc_base::{Name, NoMemory, Place, SigKind, Signal, Stop};
use flat_form::memory::push;
use flat_names::design::{Design, Entry, Role};
use flat_names::fault::{Faults, Order, Rule, refused};
use flat_names::printed::{printed, word_name};
use flat_names::scope::{Bounds, Look, Meaning, Memory, Names, define};
use indexmap::IndexSet;
use std::alloc::Global;
use verilog_ast::{Decl, DeclKind, ItemBody, Module, Range};

/// A module whose declarations are read. `prefix` has its printed instance names, each with its dot; `header` the names
/// in its header.
#[derive(Drop)]
pub struct Declaring<'a> {
    alloc: Global,
    prefix: &'a str,
    header: &'a IndexSet<Name>,
}

/// What a declaration declares.
#[derive(Clone, Copy, Debug, Drop)]
enum Declared {
    /// A signal that was declared before.
    Again(u32),
    Signal(Option<Bounds>),
    Memory { bounds: Option<Bounds>, words: u32 },
}

/// Adds the signals and memories of a module to the design, and their names to the module's.
pub fn add_declarations(
    alloc: Global,
    module: &Module,
    prefix: &str,
    names: &mut Names,
    design: &mut Design,
) -> Result<(), Stop>
    ensures exact { (pins : List ResetPin) (s : Stage) → ShowsStage pins names.old design.old s → IsFit (look_of s) → IsModuleFormed (module_of «module».now)
        → MeetsFit pins names.new (law.declarations prefix.now (module_of «module».now) s) result design.new }
    ensures numbered { IfErr result (HasNumberIn unfolding_numbers) }
{
    let header = header_names(alloc, module)?;
    let declaring = Declaring {
        alloc,
        prefix,
        header: &header,
    };
    for port in module.ports.as_slice() {
        if let Some(decl) = &port.decl {
            add_declaration(&declaring, module.place, decl, true, names, design)?;
        }
    }
    for item in module.items.as_slice() {
        if let ItemBody::Decl(decl) = &item.body {
            add_declaration(&declaring, item.place, decl, false, names, design)?;
        }
    }
    try_header(alloc, module, names, design)
}

/// The names of a header. A name that stands in the list of an old-style header twice is refused.
fn header_names(alloc: Global, module: &Module) -> Result<IndexSet<Name>, Stop>
    ensures exact { Heads (module_of «module».now) result }
    ensures numbered { IfErr result (HasNumberIn unfolding_numbers) }
{
    let mut header = IndexSet::new(alloc);
    for port in module.ports.as_slice() {
        if !module.ansi && header.contains(&port.name) {
            return refused(
                alloc,
                Rule::DeclaredTwice,
                Some(module.place),
                port.name.as_str(),
            );
        }
        let name = port.name.copy(alloc)?;
        if header.insert(name).is_err() {
            return Err(Stop::Memory);
        }
    }
    Ok(header)
}

/// Each name of the header needs a direction.
fn try_header(alloc: Global, module: &Module, names: &Names, design: &Design) -> Result<(), Stop>
    ensures exact { (pins : List ResetPin) (s : Stage) → ShowsStage pins names.now design.now s
        → Meets pins names.now (each (law.directed (module_of «module».now)) s (law.header_of (module_of «module».now))) result design.now }
    ensures numbered { IfErr result (HasNumberIn unfolding_numbers) }
{
    let look = design.look(alloc, names);
    for port in module.ports.as_slice() {
        if !has_direction(&look, &port.name) {
            return refused(
                alloc,
                Rule::Mismatch,
                Some(module.place),
                port.name.as_str(),
            );
        }
    }
    Ok(())
}

fn has_direction(look: &Look, name: &Name) -> bool
    ensures { (l : meanings.Look) → Shows look.now l → result ≡ law.has_direction l name.now }
{
    match look.meaning(name) {
        Some(Meaning::Signal(sig)) => is_directed(look, sig),
        _ => false,
    }
}

/// Whether a signal has a direction.
fn is_directed(look: &Look, sig: u32) -> bool
    ensures { result ≡ option_map_or (λ (x : Entry). not (law.is_inner (direction_of x.role))) (slice_get look.now.entries.now sig) false }
{
    match look.entry(sig) {
        Some(entry) => entry.role != Role::Inner,
        None => false,
    }
}

fn add_declaration(
    declaring: &Declaring,
    place: Place,
    decl: &Decl,
    in_header: bool,
    names: &mut Names,
    design: &mut Design,
) -> Result<(), Stop>
    ensures exact { (pins : List ResetPin) (s : Stage) (at : Site) → ShowsStage pins names.old design.old s → IsFit (look_of s) → IsDeclFormed (tree_of_decl decl.now)
        → IsAt declaring.now at → at.in_header ≡ in_header → at.place ≡ place → MeetsFit pins names.new (law.declaration s (at, tree_of_decl decl.now)) result design.new }
    ensures numbered { IfErr result (HasNumberIn unfolding_numbers) }
{
    let mut faults = Faults::new(declaring.alloc, Order::Declaration);
    let declared = {
        let look = design.look(declaring.alloc, names);
        judged(declaring, &look, decl, in_header, &mut faults)?
    };
    faults.raise(place)?;
    match declared {
        Declared::Again(sig) => {
            declare_again(design, sig, decl.kind);
            Ok(())
        }
        Declared::Signal(bounds) => {
            add_named_signal(declaring, place, decl, bounds, in_header, names, design)
        }
        Declared::Memory { bounds, words } => {
            add_memory(declaring, place, decl, bounds, words, names, design)
        }
    }
}

/// What a declaration declares, with all rules that it breaks noted.
fn judged(
    declaring: &Declaring,
    look: &Look,
    decl: &Decl,
    in_header: bool,
    faults: &mut Faults,
) -> Result<Declared, NoMemory>
    ensures { (l : meanings.Look) (at : Site) → Shows look.now l → ShowsOpen look.now l → IsFit l → IsDeclFormed (tree_of_decl decl.now) → IsAt declaring.now at → at.in_header ≡ in_header
        → IfOk result (λ r. (faults.new ≡ all_noted faults.old (declaration_rules l at (tree_of_decl decl.now)))
        × (declaration_rules l at (tree_of_decl decl.now) ≡ []
        → Declares r (range_read l decl.now.name (tree_of_decl decl.now).range).range (declared_again l (tree_of_decl decl.now)) (array_read l (tree_of_decl decl.now) (tree_of_decl decl.now).array).count)) }
{
    let again = declared_before(look, decl);
    note_twice(look, decl, again, faults)?;
    note_form(declaring, decl, in_header, faults)?;
    let bounds = declared_bounds(look, &decl.range, &decl.name, faults)?;
    match again {
        Some(sig) => {
            note_range(look, decl, sig, bounds, faults)?;
            Ok(Declared::Again(sig))
        }
        None => match &decl.array {
            None => Ok(Declared::Signal(bounds)),
            Some(array) => {
                let words = judged_memory(look, decl, array, faults)?;
                Ok(Declared::Memory { bounds, words })
            }
        },
    }
}

/// Notes a name that is declared already, and isn't declared again.
fn note_twice(
    look: &Look,
    decl: &Decl,
    again: Option<u32>,
    faults: &mut Faults,
) -> Result<(), NoMemory>
    ensures { (l : meanings.Look) → Shows look.now l
        → IfOk result (λ _. faults.new ≡ all_noted faults.old (breaks_if (is_none again && meanings.is_declared l.names decl.now.name) 304 decl.now.name)) }
{
    match again {
        Some(_) => Ok(()),
        None => note_declared(look, &decl.name, faults),
    }
}

/// Notes a declaration that has a direction or a value where none may stand.
fn note_form(
    declaring: &Declaring,
    decl: &Decl,
    in_header: bool,
    faults: &mut Faults,
) -> Result<(), NoMemory>
    ensures { (at : Site) → IsAt declaring.now at → at.in_header ≡ in_header
        → IfOk result (λ _. faults.new ≡ all_noted faults.old (breaks_if (law.breaks_form at (tree_of_decl decl.now)) 306 decl.now.name)) }
{
    if breaks_form(declaring, decl, in_header) {
        faults.note(Rule::Mismatch, decl.name.as_str())?;
    }
    Ok(())
}

/// Notes a signal that is declared again with another range.
fn note_range(
    look: &Look,
    decl: &Decl,
    sig: u32,
    bounds: Option<Bounds>,
    faults: &mut Faults,
) -> Result<(), NoMemory>
    ensures { (l : meanings.Look) → Shows look.now l → (is_some (option_map range_of bounds) ≡ true → is_some decl.now.range ≡ true)
        → IfOk result (λ _. faults.new ≡ all_noted faults.old (law.range_rule l (tree_of_decl decl.now) (option_map range_of bounds) (Some sig))) }
{
    if has_other_range(look, decl, sig, bounds) {
        faults.note(Rule::Mismatch, decl.name.as_str())?;
    }
    Ok(())
}

/// Whether a signal was declared before with another range than it has now, or one of the two has none.
fn has_other_range(look: &Look, decl: &Decl, sig: u32, bounds: Option<Bounds>) -> bool
    ensures { (l : meanings.Look) → Shows look.now l → (is_some (option_map range_of bounds) ≡ true → is_some decl.now.range ≡ true)
        → result ≡ (not (law.same_range (meanings.range_at l.entries sig) (option_map range_of bounds)) || (is_some decl.now.range && is_none (option_map range_of bounds))) }
{
    let before = look.bounds(sig);
    before != bounds || before.is_some() != decl.range.is_some()
}

/// The signal that this declares once more: a plain output of the old style may be declared again as a wire or a
/// register, a plain input as a wire.
fn declared_before(look: &Look, decl: &Decl) -> Option<u32>
    ensures { (l : meanings.Look) → Shows look.now l → ShowsOpen look.now l → result ≡ declared_again l (tree_of_decl decl.now) }
{
    if decl.array.is_some() || role_of(decl.kind) != Role::Inner {
        return None;
    }
    match look.meaning(&decl.name) {
        Some(Meaning::Signal(sig)) => {
            if may_be_again(look, sig, decl.kind) {
                Some(sig)
            } else {
                None
            }
        }
        _ => None,
    }
}

/// Whether a signal may be declared once more, as this kind.
fn may_be_again(look: &Look, sig: u32, kind: DeclKind) -> bool
    ensures { law.is_inner (law.direction_of kind) ≡ true → result ≡ option_map_or (is_again kind) (slice_get look.now.entries.now sig) false }
{
    match look.entry(sig) {
        Some(entry) => entry.is_open && !(kind == DeclKind::Reg && entry.role == Role::Input),
        None => false,
    }
}

/// A direction for a name that isn't in the header, and a value where none may stand.
fn breaks_form(declaring: &Declaring, decl: &Decl, in_header: bool) -> bool
    ensures { (at : Site) → IsAt declaring.now at → at.in_header ≡ in_header → result ≡ law.breaks_form at (tree_of_decl decl.now) }
{
    is_stray(declaring, decl, in_header) || (decl.init.is_some() && takes_no_value(decl))
}

fn is_stray(declaring: &Declaring, decl: &Decl, in_header: bool) -> bool
    ensures { result ≡ (not (law.is_inner (law.direction_of decl.now.kind)) && not in_header && not (contains_by (pointwise ◌==◌ decl.now.name) declaring.now.header.now)) }
{
    role_of(decl.kind) != Role::Inner && !in_header && !declaring.header.contains(&decl.name)
}

fn takes_no_value(decl: &Decl) -> bool
    ensures { result ≡ (law.is_bare decl.now.kind || is_some decl.now.array) }
{
    matches!(decl.kind, DeclKind::Input | DeclKind::Output) || decl.array.is_some()
}

fn role_of(kind: DeclKind) -> Role
    ensures { direction_of result ≡ law.direction_of kind }
{
    match kind {
        DeclKind::Input => Role::Input,
        DeclKind::Output | DeclKind::OutputReg => Role::Output,
        DeclKind::Wire | DeclKind::Reg => Role::Inner,
    }
}

/// The number of words of a memory, 2 to 1,024. Its bounds are 0 and one less, either of them first.
/// Of their own broken rules an unknown name alone is told.
fn judged_memory(
    look: &Look,
    decl: &Decl,
    array: &Range,
    faults: &mut Faults,
) -> Result<u32, NoMemory>
    ensures { (l : meanings.Look) → Shows look.now l → IsFit l → IsRangeFormed (Some (tree_of_range array.now))
        → IfOk result (λ words. (faults.new ≡ all_noted faults.old (array_read l (tree_of_decl decl.now) (Some (tree_of_range array.now))).broken)
        × ((array_read l (tree_of_decl decl.now) (Some (tree_of_range array.now))).broken ≡ [] → (array_read l (tree_of_decl decl.now) (Some (tree_of_range array.now))).count ≡ Some words)) }
{
    let mut inner = Faults::new(look.alloc, Order::Declaration);
    let bounds = range_bounds(look, array, &mut inner)?;
    inner.pass_on(Rule::UnknownName, faults)?;
    match memory_words(decl.kind, bounds) {
        None => {
            faults.note(Rule::Memory, decl.name.as_str())?;
            Ok(0)
        }
        Some(words) => {
            note_taken_words(look, &decl.name, words, faults)?;
            Ok(words)
        }
    }
}

fn memory_words(kind: DeclKind, bounds: Option<Bounds>) -> Option<u32>
    ensures { result ≡ memories.words_of kind (option_map range_of bounds) }
{
    match kind {
        DeclKind::Reg => depth_of(bounds?),
        DeclKind::Input | DeclKind::Output | DeclKind::OutputReg | DeclKind::Wire => None,
    }
}

fn depth_of(bounds: Bounds) -> Option<u32>
    ensures { result ≡ memories.depth_of (range_of bounds) }
{
    if bounds.left.min(bounds.right) != 0 {
        return None;
    }
    let words = bounds.left.max(bounds.right).checked_add(1)?;
    if is_depth(words) { Some(words) } else { None }
}

/// Whether a memory may have that many words.
fn is_depth(words: u32) -> bool
    ensures { result ≡ memories.is_depth words }
{
    2 <= words && words <= 1024
}

/// The names of the words count as declared, too.
fn note_taken_words(
    look: &Look,
    memory: &Name,
    words: u32,
    faults: &mut Faults,
) -> Result<(), NoMemory>
    ensures { (l : meanings.Look) → Shows look.now l → IfOk result (λ _. faults.new ≡ all_noted faults.old (memories.taken l.names (memories.word_names memory.now 0 words))) }
{
    for k in 0..words {
        let word = word_name(look.alloc, memory.as_str(), k)?;
        let name = Name::from_text(look.alloc, word.as_str())?;
        note_declared(look, &name, faults)?;
    }
    Ok(())
}

fn declare_again(design: &mut Design, sig: u32, kind: DeclKind)
    ensures { (pins : List ResetPin) (e : law_design.Design) → ShowsDesign pins design.old e → law.is_inner (law.direction_of kind) ≡ true
        → ShowsDesign pins design.new (record e { entries = change_entry (entry_again kind) sig e.entries }) }
{
    let place = usize::try_from(sig).unwrap_or(usize::MAX);
    if let Some(entry) = design.entries.get_mut(place) {
        entry.is_open = false;
        entry.is_reg = kind == DeclKind::Reg;
    }
}

fn add_named_signal(
    declaring: &Declaring,
    place: Place,
    decl: &Decl,
    bounds: Option<Bounds>,
    in_header: bool,
    names: &mut Names,
    design: &mut Design,
) -> Result<(), Stop>
    ensures exact { (pins : List ResetPin) (s : Stage) (at : Site) → ShowsStage pins names.old design.old s → IsAt declaring.now at → at.in_header ≡ in_header → at.place ≡ place
        → meanings.width_of (option_map range_of bounds) ≤ 64 → meanings.is_declared s.names decl.now.name ≡ false
        → Meets pins names.new (law.add_signal s at (tree_of_decl decl.now) (option_map range_of bounds)) result design.new }
    ensures numbered { IfErr result (HasNumberIn unfolding_numbers) }
{
    let is_open = is_plain_port(decl.kind) && !in_header;
    let name = decl.name.as_str();
    let sig = add_signal(declaring, place, name, bounds, decl.kind, is_open, design)?;
    define(declaring.alloc, names, name, Meaning::Signal(sig))?;
    Ok(())
}

/// Whether an old-style port of this kind may be declared once more.
fn is_plain_port(kind: DeclKind) -> bool
    ensures { result ≡ law.is_plain_port kind }
{
    matches!(kind, DeclKind::Input | DeclKind::Output)
}

/// Adds a memory. The printed names of its words are taken, and stand for nothing.
fn add_memory(
    declaring: &Declaring,
    place: Place,
    decl: &Decl,
    bounds: Option<Bounds>,
    words: u32,
    names: &mut Names,
    design: &mut Design,
) -> Result<(), Stop>
    ensures exact { (pins : List ResetPin) (s : Stage) (at : Site) → ShowsStage pins names.old design.old s → IsAt declaring.now at → at.place ≡ place
        → meanings.width_of (option_map range_of bounds) ≤ 64 → meanings.is_declared s.names decl.now.name ≡ false → memories.is_depth words ≡ true
        → memories.taken s.names (memories.word_names decl.now.name 0 words) ≡ []
        → Meets pins names.new (law.add_memory s at (tree_of_decl decl.now) (option_map range_of bounds) words) result design.new }
    ensures numbered { IfErr result (HasNumberIn unfolding_numbers) }
{
    let alloc = declaring.alloc;
    let room = MAX_SIGNALS.saturating_sub(design.signals.len());
    if usize::try_from(words).unwrap_or(usize::MAX) > room {
        return refused(alloc, Rule::TooManySignals, None, "");
    }
    let first = u32::try_from(design.signals.len()).unwrap_or(u32::MAX);
    for k in 0..words {
        let word = word_name(alloc, decl.name.as_str(), k)?;
        let name = word.as_str();
        add_signal(declaring, place, name, bounds, decl.kind, false, design)?;
        define(alloc, names, name, Meaning::NoValue)?;
    }
    let memory = Memory { first, words };
    define(alloc, names, decl.name.as_str(), Meaning::Memory(memory))?;
    Ok(())
}

/// Adds a signal and answers its number.
fn add_signal(
    declaring: &Declaring,
    place: Place,
    own: &str,
    bounds: Option<Bounds>,
    kind: DeclKind,
    is_open: bool,
    design: &mut Design,
) -> Result<u32, Stop>
    ensures exact { (pins : List ResetPin) (e : law_design.Design) (at : Site) → ShowsDesign pins design.old e → IsAt declaring.now at → at.place ≡ place
        → meanings.width_of (option_map range_of bounds) ≤ 64 → Adds pins e (law.entry at kind (option_map range_of bounds) is_open own.now) result design.new }
    ensures numbered { IfErr result (HasNumberIn unfolding_numbers) }
{
    let alloc = declaring.alloc;
    let number = design.signals.len();
    if number >= MAX_SIGNALS {
        return refused(alloc, Rule::TooManySignals, None, "");
    }
    let text = printed(alloc, declaring.prefix, own)?;
    let name = Name::from_text(alloc, text.as_str())?;
    push(&mut design.signals, signal(name, place, bounds))?;
    let own = Name::from_text(alloc, own)?;
    push(&mut design.entries, entry(own, bounds, kind, is_open))?;
    Ok(u32::try_from(number).unwrap_or(u32::MAX))
}

fn signal(name: Name, place: Place, bounds: Option<Bounds>) -> Signal
    ensures { (at : Site) (x : Text) (kind : DeclKind) (is_open : Bool) → name ≡ at.prefix ++ meanings.printed_part x → at.place ≡ place → meanings.width_of (option_map range_of bounds) ≤ 64
        → result ≡ signal_of (law.entry at kind (option_map range_of bounds) is_open x) }
{
    let shown = bounds.unwrap_or(Bounds { left: 0, right: 0 });
    Signal {
        name,
        place,
        width: declared_width(bounds),
        ranged: bounds.is_some(),
        left: shown.left,
        right: shown.right,
        kind: SigKind::Wire,
        known: 0,
        start: 0,
    }
}

fn entry(own: Name, bounds: Option<Bounds>, kind: DeclKind, is_open: bool) -> Entry
    ensures shown { (at : Site) → meanings.width_of (option_map range_of bounds) ≤ 64 → seen result ≡ shown (law.entry at kind (option_map range_of bounds) is_open own) }
    ensures may_repeat { result.is_open ≡ is_open }
    ensures reset { result.reset ≡ None }
    ensures start { result.start ≡ None }
    ensures known { result.reset_known ≡ 0 }
    ensures value { result.reset_start ≡ 0 }
{
    Entry {
        own,
        bounds,
        width: declared_width(bounds),
        is_reg: matches!(kind, DeclKind::Reg | DeclKind::OutputReg),
        role: role_of(kind),
        is_open,
        reset: None,
        start: None,
        reset_known: 0,
        reset_start: 0,
    }
}
