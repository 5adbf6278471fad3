//! What each tree leads to. The vertices are the drafts and, behind them, the pieces: a draft leads to its operands or
//! to the pieces that it reads, and a piece to its tree.
ghost use Rattle.std.specs.Prelude.{◌≡◌, ◌≤◌, ◌<◌, ◌⊎◌, ◌↔◌, ℕ, [], All, max, ◌∷◌, ◌++◌, length, slice_range, IfOk, OnOk, OnErr};
ghost use Rattle.std.specs.List.{Contains};
ghost use Rattle.std.specs.List.Sorted.{IsNonDecreasingBy, IsPartitionPoint};
ghost use Rattle.driver_trees.specs.declared.sketch.Piece.{Piece as PieceOf};
ghost use Rattle.driver_trees.specs.Sketches.{AreOrdered};
ghost use Rattle.driver_loops.specs.Leads.{operand_ids, id_in, ids_in, is_wire_in, is_wire_kind, has_bits, meeting_places, draft_ends, links_of};
ghost use Rattle.driver_loops.specs.Links.{IsLink, IsReversed, ends_of, start_at, extended};

use cdc_base::{NoMemory, SigKind, Signal};
use cell_graph::{Cell, CellId};
use driver_trees::memory::numbered;
use driver_trees::{Draft, Form, Piece, Sketch};
use std::alloc::Global;
use std::marker::Model;

/// A directed graph. The links of vertex v are `ends` from `starts[v]` up to `starts[v + 1]`, those of the last vertex
/// all from there on.
#[derive(Drop)]
pub struct Links {
    starts: Vec<usize>,
    ends: Vec<u32>,
}

impl Model for Links {
    ghost use Rattle.std.specs.Prelude.{ℕ, List, length};
    ghost use Rattle.driver_loops.specs.Links.{rows, AreStarts};

    ghost Value = { List (List ℕ) };

    ghost view = { λ l. rows l.starts.items l.ends.items };

    ghost invariant = { λ l. AreStarts l.starts.items (length l.ends.items) };
}

impl Links {
    pub fn new(alloc: Global) -> Links
        ensures { result ≡ [] }
    {
        Links {
            starts: Vec::new(alloc),
            ends: Vec::new(alloc),
        }
    }

    /// The links of a design's trees.
    pub fn of(alloc: Global, signals: &[Signal], sketch: &Sketch) -> Result<Links, NoMemory>
        ensures { IfOk result (λ links. AreOrdered sketch.now.pieces.items → links ≡ links_of signals.now sketch.now.drafts sketch.now.pieces.items) }
    {
        let drafts = sketch.drafts.as_slice();
        Links::of_trees(alloc, signals, drafts, sketch.pieces.as_slice())
    }

    /// The links of these drafts and pieces.
    pub fn of_trees(
        alloc: Global,
        signals: &[Signal],
        drafts: &[Draft],
        pieces: &[Piece],
    ) -> Result<Links, NoMemory>
        ensures { IfOk result (λ links. AreOrdered pieces.now → links ≡ links_of signals.now drafts.now pieces.now) }
    {
        let mut links = Links::new(alloc);
        for draft in drafts {
            links.add_draft(signals, drafts.len(), pieces, draft)?;
        }
        for piece in pieces {
            links.begin()?;
            links.add(piece.tree.0)?;
        }
        Ok(links)
    }

    /// Begins the next vertex.
    pub fn begin(&mut self) -> Result<(), NoMemory>
        ensures { OnOk result (self.new ≡ self.old ++ [] ∷ []) }
    {
        grow(&mut self.starts, self.ends.len())
    }

    /// The last vertex leads to one more.
    pub fn add(&mut self, end: u32) -> Result<(), NoMemory>
        ensures { OnOk result (self.new ≡ extended self.old (end ∷ [])) }
    {
        grow(&mut self.ends, end)
    }

    /// Adds a draft. The pieces are vertices from `first` on.
    fn add_draft(
        &mut self,
        signals: &[Signal],
        first: usize,
        pieces: &[Piece],
        draft: &Draft,
    ) -> Result<(), NoMemory>
        ensures { OnOk result (AreOrdered pieces.now → self.new ≡ self.old ++ draft_ends signals.now first pieces.now draft.now ∷ []) }
    {
        self.begin()?;
        match draft.form {
            Form::Made(cell) => self.add_operands(cell),
            Form::Read { sig, at } => {
                if is_wire(signals, sig) {
                    self.add_pieces(first, pieces, sig, at, draft.width)
                } else {
                    Ok(())
                }
            }
        }
    }

    fn add_operands(&mut self, cell: Cell) -> Result<(), NoMemory>
        ensures { OnOk result (self.new ≡ extended self.old (operand_ids cell)) }
    {
        let all = operands(cell);
        for operand in &all {
            self.add_operand(*operand)?;
        }
        Ok(())
    }

    fn add_operand(&mut self, operand: Option<CellId>) -> Result<(), NoMemory>
        ensures { OnOk result (self.new ≡ extended self.old (id_in operand)) }
    {
        match operand {
            Some(id) => self.add(id.0),
            None => Ok(()),
        }
    }

    fn add_pieces(
        &mut self,
        first: usize,
        pieces: &[Piece],
        sig: u32,
        at: u8,
        width: u8,
    ) -> Result<(), NoMemory>
        ensures { OnOk result (AreOrdered pieces.now → self.new ≡ extended self.old (meeting_places first pieces.now sig at width)) }
    {
        let from = first_piece(pieces, sig);
        let to = past_pieces(pieces, sig);
        for place in from..to {
            if meets(&pieces[place], at, width) {
                let vertex = numbered(first.saturating_add(place))?;
                self.add(vertex)?;
            }
        }
        Ok(())
    }

    /// The links from the vertices given, turned round.
    pub fn reversed(&self, alloc: Global, vertices: &[u32]) -> Result<Links, NoMemory>
        ensures { IfOk result (IsReversed self.now vertices.now) }
    {
        let mut turned = Vec::new(alloc);
        for vertex in vertices {
            self.turn(*vertex, &mut turned)?;
        }
        turned.sort_unstable_by_key(|pair| pair.0);
        Links::joined(alloc, turned.as_slice(), self.len())
    }

    /// Adds each link of the vertex, its end first.
    fn turn(&self, vertex: u32, turned: &mut Vec<(u32, u32)>) -> Result<(), NoMemory>
        ensures { OnOk result ((w v : ℕ) → Contains turned.new.items (w, v) ↔ (Contains turned.old.items (w, v) ⊎ ((v ≡ vertex) × IsLink self.now vertex w))) }
    {
        let count = self.len();
        for end in self.from(vertex) {
            if (*end as usize) < count {
                grow(turned, (*end, vertex))?;
            }
        }
        Ok(())
    }

    /// So many vertices with these links, which ascend by their first vertex.
    fn joined(alloc: Global, pairs: &[(u32, u32)], count: usize) -> Result<Links, NoMemory>
        ensures { IfOk result (λ links. IsNonDecreasingBy (λ (p : ℕ × ℕ). p.0) pairs.now → All (λ (p : ℕ × ℕ). p.0 < count) pairs.now →
            (length links ≡ count) × ((w v : ℕ) → Contains (ends_of links w) v ↔ Contains pairs.now (w, v))) }
    {
        let mut links = Links::new(alloc);
        for pair in pairs {
            links.begin_up_to(pair.0 as usize + 1)?;
            links.add(pair.1)?;
        }
        links.begin_up_to(count)?;
        Ok(links)
    }

    /// Begins vertices until there are so many.
    fn begin_up_to(&mut self, count: usize) -> Result<(), NoMemory>
        ensures count { OnOk result (length self.new ≡ max count (length self.old)) }
        ensures ends { OnOk result ((v : ℕ) → ends_of self.new v ≡ ends_of self.old v) }
    {
        for place in self.len()..count {
            self.begin()?;
        }
        Ok(())
    }

    /// The number of vertices.
    pub fn len(&self) -> usize
        ensures { result ≡ length self.now }
    {
        self.starts.len()
    }

    /// The vertices that a vertex leads to.
    pub fn from(&self, vertex: u32) -> &[u32]
        ensures { result.now ≡ ends_of self.now vertex }
    {
        let place = vertex as usize;
        let count = self.ends.len();
        let low = start(self.starts.as_slice(), place, count);
        let high = start(self.starts.as_slice(), place + 1, count);
        part(self.ends.as_slice(), low, high)
    }
}

/// Where a vertex's ends begin: behind all others at a vertex that isn't there.
fn start(starts: &[usize], vertex: usize, count: usize) -> usize
    ensures { result ≡ start_at starts.now vertex count }
{
    starts.get(vertex).copied().unwrap_or(count)
}

fn part(ends: &[u32], low: usize, high: usize) -> &[u32]
    requires { (low ≤ high) × (high ≤ length ends.now) }
    ensures { result.now ≡ slice_range ends.now low high }
{
    &ends[low..high]
}

/// Adds an item at the end, or leaves the items as they are.
fn grow<T: Drop>(items: &mut Vec<T>, item: T) -> Result<(), NoMemory>
    ensures grown { OnOk result (items.new.items ≡ items.old.items ++ item ∷ []) }
    ensures unchanged { OnErr result (items.new.items ≡ items.old.items) }
{
    match items.push(item) {
        Ok(()) => Ok(()),
        Err(_) => Err(NoMemory),
    }
}

/// The place of the signal's first piece.
pub fn first_piece(pieces: &[Piece], sig: u32) -> usize
    ensures bound { result ≤ length pieces.now }
    ensures exact { AreOrdered pieces.now → IsPartitionPoint (λ (p : PieceOf). p.sig < sig) (λ (p : PieceOf). sig ≤ p.sig) pieces.now result }
{
    pieces.partition_point(|piece| piece.sig < sig)
}

/// The place behind the signal's last piece.
pub fn past_pieces(pieces: &[Piece], sig: u32) -> usize
    ensures bound { result ≤ length pieces.now }
    ensures exact { AreOrdered pieces.now → IsPartitionPoint (λ (p : PieceOf). p.sig ≤ sig) (λ (p : PieceOf). sig < p.sig) pieces.now result }
{
    pieces.partition_point(|piece| piece.sig <= sig)
}

/// Whether the piece has some of the `width` bits from `at` on.
pub fn meets(piece: &Piece, at: u8, width: u8) -> bool
    ensures { result ≡ has_bits piece.now at width }
{
    let end = u16::from(at) + u16::from(width);
    let piece_end = u16::from(piece.at) + u16::from(piece.width);
    u16::from(piece.at) < end && u16::from(at) < piece_end
}

pub fn is_wire(signals: &[Signal], sig: u32) -> bool
    ensures { result ≡ is_wire_in signals.now sig }
{
    match signals.get(sig as usize) {
        Some(signal) => is_wire_kind(signal.kind),
        None => false,
    }
}

fn is_wire_kind(kind: SigKind) -> bool
    ensures { result ≡ is_wire_kind kind }
{
    match kind {
        SigKind::Wire => true,
        SigKind::Input | SigKind::Register => false,
    }
}

/// The operands of a cell, from the left.
pub fn operands(cell: Cell) -> [Option<CellId>; 3]
    ensures exact { ids_in result ≡ operand_ids cell }
    ensures count { length result ≡ 3 }
{
    match cell {
        Cell::Var { .. } | Cell::Const { .. } => [None, None, None],
        Cell::Not { a } | Cell::Slice { a, .. } | Cell::Extend { a, .. } | Cell::Reduce { a, .. } =>
            [Some(a), None, None],
        Cell::And { a, b }
        | Cell::Or { a, b }
        | Cell::Xor { a, b }
        | Cell::Add { a, b }
        | Cell::Sub { a, b }
        | Cell::Eq { a, b }
        | Cell::Lt { a, b } => [Some(a), Some(b), None],
        Cell::Shl { a, by } | Cell::Shr { a, by } => [Some(a), Some(by), None],
        Cell::Mux { cond, yes, other } => [Some(cond), Some(yes), Some(other)],
        Cell::Concat { high, low } => [Some(high), Some(low), None],
    }
}
