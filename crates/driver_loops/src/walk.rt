//! Walks over links: orders in which operands come first, and loops. No walk recurses.
ghost use Rattle.std.specs.Prelude.{◌≢◌, ◌≡◌, ◌++◌, ◌∷◌, ◌⊎◌, ◌↔◌, ℕ, ◌<◌, [], cond, set, true, false, length, replicate, drop, IfOk, OnOk, IsTrue, List};
ghost use Rattle.std.specs.Bool.{MatchBool};
ghost use Rattle.std.specs.List.{AllPairs, Contains, list_any};
ghost use Rattle.driver_loops.specs.Links.{ends_of, IsReversed};
ghost use Rattle.driver_loops.specs.Orders.{Reaches, LeadsBack, IsOrderOf, IsFront, IsDepthFirst, EndsStandBefore, HasLoop};
ghost use Rattle.driver_loops.specs.Walks.{IsDone, IsWalk, HasWalked, IsMarked, is_unmarked, first_step};

use crate::links::Links;
use cdc_base::NoMemory;
use driver_trees::memory::push;
use std::alloc::Global;

/// A vertex on the way, and how many of its links were followed.
#[derive(Clone, Copy, Drop)]
struct Step {
    vertex: u32,
    followed: usize,
}

/// A walk that goes to each vertex once.
#[derive(Drop)]
struct Walk {
    /// The vertices that the walk has entered.
    entered: Vec<bool>,
    /// From the root to the present vertex.
    way: Vec<Step>,
    /// The vertices that are done, each behind all that were entered from it.
    order: Vec<u32>,
}

/// No marks.
fn unmarked(alloc: Global, count: usize) -> Result<Vec<bool>, NoMemory>
    ensures { IfOk result (λ marks. marks.items ≡ replicate count false) }
{
    match vec![in alloc; false; count] {
        Ok(marks) => Ok(marks),
        Err(_) => Err(NoMemory),
    }
}

impl Walk {
    fn new(alloc: Global, count: usize) -> Result<Walk, NoMemory>
        ensures entered { IfOk result (λ walk. walk.entered.items ≡ replicate count false) }
        ensures way { IfOk result (λ walk. walk.way.items ≡ []) }
        ensures order { IfOk result (λ walk. walk.order.items ≡ []) }
    {
        Ok(Walk {
            entered: unmarked(alloc, count)?,
            way: Vec::new(alloc),
            order: Vec::new(alloc),
        })
    }

    /// Enters a vertex, unless it was entered before.
    fn enter(&mut self, vertex: u32) -> Result<(), NoMemory>
        ensures entered { OnOk result (self.new.entered.items ≡ cond (is_unmarked self.old.entered.items vertex) (set self.old.entered.items vertex true) self.old.entered.items) }
        ensures way { OnOk result (self.new.way.items ≡ cond (is_unmarked self.old.entered.items vertex) (self.old.way.items ++ first_step vertex ∷ []) self.old.way.items) }
        ensures order { self.new.order.items ≡ self.old.order.items }
    {
        if let Some(entered) = self.entered.get_mut(vertex as usize) {
            if !*entered {
                *entered = true;
                push(
                    &mut self.way,
                    Step {
                        vertex,
                        followed: 0,
                    },
                )?;
            }
        }
        Ok(())
    }

    /// Follows the next link of the way's last step, or ends its vertex.
    fn turn(&mut self, links: &Links, step: Step) -> Result<(), NoMemory>
        ensures { OnOk result ((base : List ℕ) (root : ℕ) → IsWalk links.now base root self.old.entered.items (self.old.way.items ++ step ∷ []) self.old.order.items →
            IsWalk links.now base root self.new.entered.items self.new.way.items self.new.order.items) }
    {
        let ends = links.from(step.vertex);
        if step.followed < ends.len() {
            let next = Step {
                vertex: step.vertex,
                followed: step.followed + 1,
            };
            push(&mut self.way, next)?;
            self.enter(ends[step.followed])
        } else {
            push(&mut self.order, step.vertex)
        }
    }

    /// Goes on from the root until all that it leads to is done. Each turn follows a link or ends a vertex; more turns
    /// than can be counted count as want of memory.
    fn go(&mut self, links: &Links, root: u32) -> Result<(), NoMemory>
        ensures done { OnOk result (self.old.way.items ≡ [] → IsDone links.now self.old.entered.items self.old.order.items →
            IsDone links.now self.new.entered.items self.new.order.items) }
        ensures way { OnOk result (self.new.way.items ≡ []) }
        ensures longer { OnOk result (self.old.way.items ≡ [] → IsDone links.now self.old.entered.items self.old.order.items →
            (rest : List ℕ) × (self.new.order.items ≡ self.old.order.items ++ rest)) }
        ensures reached { OnOk result (self.old.way.items ≡ [] → IsDone links.now self.old.entered.items self.old.order.items →
            (v : ℕ) → Contains self.new.order.items v ↔ (Contains self.old.order.items v ⊎ ((root < length links.now) × Reaches links.now root v))) }
    {
        self.enter(root)?;
        for _ in 0..u64::MAX {
            match self.way.pop() {
                Some(step) => self.turn(links, step)?,
                None => return Ok(()),
            }
        }
        Err(NoMemory)
    }

    /// Goes on from each of the roots.
    fn go_all(&mut self, links: &Links, roots: &[u32]) -> Result<(), NoMemory>
        ensures walked { OnOk result ((before : List ℕ) → HasWalked links.now before self.old → HasWalked links.now (before ++ roots.now) self.new) }
        ensures longer { OnOk result ((before : List ℕ) → HasWalked links.now before self.old →
            (rest : List ℕ) × (self.new.order.items ≡ self.old.order.items ++ rest)) }
    {
        for root in roots {
            self.go(links, *root)?;
        }
        Ok(())
    }
}

/// All vertices to which the roots lead, and the roots. Each stands behind those that it leads to, unless it lies on a
/// loop.
pub fn order(alloc: Global, links: &Links, roots: &[u32]) -> Result<Vec<u32>, NoMemory>
    ensures { IfOk result (λ order. IsOrderOf links.now roots.now order.items) }
{
    let mut walk = Walk::new(alloc, links.len())?;
    walk.go_all(links, roots)?;
    Ok(walk.order)
}

/// The order of both roots' vertices, those of the first roots in front of all others, and how many those are.
pub fn front_order(
    alloc: Global,
    links: &Links,
    first: &[u32],
    others: &[u32],
) -> Result<(Vec<u32>, usize), NoMemory>
    ensures order { IfOk result (λ found. IsOrderOf links.now (first.now ++ others.now) found.0.items) }
    ensures front { IfOk result (λ found. IsFront links.now first.now found.0.items found.1) }
{
    let mut walk = Walk::new(alloc, links.len())?;
    walk.go_all(links, first)?;
    let count = walk.order.len();
    walk.go_all(links, others)?;
    Ok((walk.order, count))
}

/// Whether a vertex of the order leads to one that doesn't stand before it.
pub fn has_loop(alloc: Global, links: &Links, order: &[u32]) -> Result<bool, NoMemory>
    ensures before { IfOk result (λ found. (found ≡ false) ↔ EndsStandBefore links.now order.now) }
    ensures loops { IfOk result (λ found. AllPairs (λ v w. v ≢ w) order.now → IsDepthFirst links.now order.now →
        MatchBool found (HasLoop links.now order.now) (¬ HasLoop links.now order.now)) }
{
    let mut done = unmarked(alloc, links.len())?;
    for vertex in order {
        if leads_past(links, done.as_slice(), *vertex) {
            return Ok(true);
        }
        mark(&mut done, *vertex);
    }
    Ok(false)
}

/// Whether the vertex leads to one without a mark.
fn leads_past(links: &Links, marks: &[bool], vertex: u32) -> bool
    ensures { result ≡ list_any (is_unmarked marks.now) (ends_of links.now vertex) }
{
    links
        .from(vertex)
        .iter()
        .any(|end| is_unmarked(marks, *end))
}

fn is_unmarked(marks: &[bool], vertex: u32) -> bool
    ensures { result ≡ is_unmarked marks.now vertex }
{
    match marks.get(vertex as usize) {
        Some(mark) => !*mark,
        None => false,
    }
}

fn mark(marks: &mut Vec<bool>, vertex: u32)
    ensures { marks.new.items ≡ set marks.old.items vertex true }
{
    if let Some(place) = marks.get_mut(vertex as usize) {
        *place = true;
    }
}

/// For each vertex whether it is of the order and leads back to itself.
pub fn on_loops(alloc: Global, links: &Links, order: &[u32]) -> Result<Vec<bool>, NoMemory>
    ensures size { IfOk result (λ marks. length marks.items ≡ length links.now) }
    ensures exact { IfOk result (λ marks. (roots : List ℕ) → IsOrderOf links.now roots order.now →
        (v : ℕ) → IsMarked marks.items v ↔ (Contains order.now v × LeadsBack links.now v)) }
{
    let back = links.reversed(alloc, order)?;
    loops_against(alloc, links, &back, order)
}

/// The same, given the order's links turned round. A walk along these, its roots taken from the order's end, adds at
/// each root exactly the vertices that lead to the root and back.
fn loops_against(
    alloc: Global,
    links: &Links,
    back: &Links,
    order: &[u32],
) -> Result<Vec<bool>, NoMemory>
    ensures size { IfOk result (λ marks. length marks.items ≡ length links.now) }
    ensures exact { IfOk result (λ marks. (roots : List ℕ) → IsOrderOf links.now roots order.now → IsReversed links.now order.now back.now →
        (v : ℕ) → IsMarked marks.items v ↔ (Contains order.now v × LeadsBack links.now v)) }
{
    let mut walk = Walk::new(alloc, links.len())?;
    let mut on_loops = unmarked(alloc, links.len())?;
    let mut left = order;
    while let Some((root, rest)) = left.split_last() {
        let from = walk.order.len();
        walk.go(back, *root)?;
        let added = behind(walk.order.as_slice(), from);
        if are_on_loop(links, *root, added) {
            mark_all(&mut on_loops, added);
        }
        left = rest;
    }
    Ok(on_loops)
}

/// The vertices from a place on.
fn behind(vertices: &[u32], place: usize) -> &[u32]
    ensures { result.now ≡ drop place vertices.now }
{
    vertices.get(place..).unwrap_or(&[])
}

/// Whether vertices that lead to the root and back lie on a loop: they are several, or the root leads to itself.
fn are_on_loop(links: &Links, root: u32, vertices: &[u32]) -> bool
    ensures { IsTrue result ↔ ((1 < length vertices.now) ⊎ Contains (ends_of links.now root) root) }
{
    vertices.len() > 1 || links.from(root).contains(&root)
}

fn mark_all(marks: &mut Vec<bool>, vertices: &[u32])
    ensures size { length marks.new.items ≡ length marks.old.items }
    ensures exact { (v : ℕ) → IsMarked marks.new.items v ↔ (IsMarked marks.old.items v ⊎ (Contains vertices.now v × (v < length marks.old.items))) }
{
    for vertex in vertices {
        mark(marks, *vertex);
    }
}
