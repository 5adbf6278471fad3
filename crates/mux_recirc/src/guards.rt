//! What the rings of a net say of its crossings.
ghost use Rattle.std.specs.Prelude.{◌≡◌, ◌∷◌, ◌++◌, ◌↔◌, [], true, Some, Bool, List, map, slice_get, option_and_then, Contains, IfOk};
ghost use Rattle.std.specs.List.Sorted.{IsSorted};
ghost use Rattle.cell_graph.specs.declared.net.Net.{Net as NetOf};
ghost use Rattle.domains.specs.declared.Domains.{Domains as DomainsOf};
ghost use Rattle.domains.specs.Assignment.{group_of};
ghost use Rattle.cdc_model.specs.declared.scheme.Crossing.{Crossing as CrossingOf};
ghost use Rattle.cdc_model.specs.declared.scheme.GrayReg.{GrayReg as GrayRegOf};
ghost use Rattle.cdc_model.specs.Nets.{design_of, net_trees};
ghost use Rattle.cdc_model.specs.Ordered.{IsAll};
ghost use Rattle.cdc_model.specs.Schemes.{Ring as RingOf};
ghost use Rattle.cdc_model.specs.Tables.{ShowsNet};
ghost use Rattle.cdc_model.specs.Verdict.{HoldsUnder, BlindUnder, IsFirstLoad, load_key};
ghost use Rattle.mux_recirc.specs.contracts.blind.BlindOrd.TheImpl as blind_order;
ghost use Rattle.mux_recirc.specs.contracts.guards.JointOrd.TheImpl as joint_order;
ghost use Rattle.mux_recirc.specs.contracts.parts.PartOrd.TheImpl as part_order;
ghost use Rattle.mux_recirc.specs.declared.blind.Blind.{Blind as BlindOf};
ghost use Rattle.mux_recirc.specs.declared.guards.Joint.{Joint as JointOf};
ghost use Rattle.mux_recirc.specs.Given.{AreGiven, AreGuards, IsFirstOf, IsFirstJoint, IsFirstPair, IsLoadAt, load_there, blind_at, joints_at, sides_of, sides_between, plain_trees};

use crate::blind::{Blind, blindnesses};
use crate::held::Held;
use cdc_base::{Bit, List, NoMemory};
use cdc_model::{Crossing, Load, Ring};
use cell_graph::Net;
use cofactor::Table;
use domains::Domains;
use std::alloc::Global;

/// The groups that a ring joins: its request's and its acknowledgement's.
#[derive(Clone, Copy, PartialEq, Eq, PartialOrd, Ord, Debug, Drop)]
struct Sides {
    request: Option<u32>,
    acknowledge: Option<u32>,
}

/// A ring, by its place in the list, and the groups that it joins.
#[derive(Clone, Copy, PartialEq, Eq, PartialOrd, Ord, Debug, Drop)]
struct Joint {
    sides: Sides,
    ring: usize,
}

/// Which crossings are gated by which rings, and whose data they hold. Answers are those for rings that go from the
/// crossing's one group to the other.
#[derive(Drop)]
pub struct Guards {
    /// By crossing, ring and gate.
    blind: Vec<Blind>,
    held: Held,
    /// The groups of each ring.
    sides: Vec<Sides>,
    /// The rings by their groups.
    joints: Vec<Joint>,
}

impl Guards {
    /// What these rings say of these crossings, both being all of the net, in order. `plain` is the net's table without
    /// a cube.
    pub fn find(
        alloc: Global,
        net: &Net,
        domains: &Domains,
        crossings: &[Crossing],
        rings: &[Ring],
        plain: &mut Table,
    ) -> Result<Guards, NoMemory>
        ensures shown { IfOk result (λ guards. (grays : GrayRegOf → Bool) (list : List RingOf) → AreGiven net.now domains.now grays crossings.now list rings.now →
            ShowsNet net.now [] plain.old → AreGuards net.now domains.now crossings.now list guards) }
        ensures unchanged { plain.new ≡ plain.old }
    {
        let sides = sides_of(alloc, domains, rings)?;
        let joints = joints_of(alloc, sides.as_slice())?;
        let blind = blindnesses(alloc, net, domains, plain, crossings, rings)?;
        let held = Held::find(alloc, net, domains, plain, crossings, rings)?;
        Ok(Guards {
            blind,
            held,
            sides,
            joints,
        })
    }

    /// The first ring under which the end of the crossing at this place is blind to its source.
    pub fn first_blind(&self, crossing: usize) -> Option<u64>
        ensures exact { (net : NetOf) (domains : DomainsOf) (crossings : List CrossingOf) (rings : List RingOf) (k : CrossingOf) → AreGuards net domains crossings rings self.now →
            slice_get crossings crossing ≡ Some k → IsFirstOf (BlindUnder (design_of net domains) (plain_trees net) k.from k.to) rings result }
    {
        match self.blind_at(crossing).first() {
            Some(blind) => Some(blind.ring as u64),
            None => None,
        }
    }

    /// The first ring under which the source of the crossing is held.
    pub fn first_held(&self, domains: &Domains, crossing: &Crossing) -> Option<u64>
        ensures exact { (net : NetOf) (crossings : List CrossingOf) (rings : List RingOf) → AreGuards net domains.now crossings rings self.now →
            Contains crossings crossing.now → IsFirstOf (HoldsUnder (design_of net domains.now) (plain_trees net) crossing.now.from crossing.now.to) rings result }
    {
        let sides = sides_between(domains, crossing);
        if self.held.is_constant(crossing.from) {
            self.first_joint(sides)
        } else {
            self.first_pair(crossing.from, sides)
        }
    }

    /// The first ring that joins these groups and holds the bit, which isn't one that always keeps its value.
    fn first_pair(&self, bit: Bit, sides: Sides) -> Option<u64>
        ensures { IsSorted part_order.ghosts.cmp self.now.held.pairs.items → IsFirstPair self.now.held.pairs.items self.now.sides.items bit sides result }
    {
        for part in self.held.pairs_of(bit) {
            if self.joins(part.ring, sides) {
                return Some(part.ring as u64);
            }
        }
        None
    }

    /// The loads among the crossings, each with its first ring and that ring's first gate.
    pub fn loads(&self, alloc: Global, crossings: &[Crossing]) -> Result<List<Load>, NoMemory>
        ensures exact { IfOk result (λ loads. (net : NetOf) (domains : DomainsOf) (grays : GrayRegOf → Bool) (rings : List RingOf) →
            AreGuards net domains crossings.now rings self.now → IsAll (IsFirstLoad (design_of net domains) (net_trees net grays) rings) load_key loads) }
    {
        let mut loads = List::new(alloc);
        for place in 0..crossings.len() {
            add_load(self.load_at(crossings, place), &mut loads)?;
        }
        Ok(loads)
    }

    /// The load of the crossing at this place.
    fn load_at(&self, crossings: &[Crossing], place: usize) -> Option<Load>
        ensures { (net : NetOf) (domains : DomainsOf) (rings : List RingOf) → AreGuards net domains crossings.now rings self.now →
            IsLoadAt net domains crossings.now rings place result }
    {
        match crossing_at(crossings, place) {
            Some(crossing) => self.load_of(place, crossing),
            None => None,
        }
    }

    /// The load of this crossing, which stands at that place.
    fn load_of(&self, place: usize, crossing: Crossing) -> Option<Load>
        ensures { (net : NetOf) (domains : DomainsOf) (crossings : List CrossingOf) (rings : List RingOf) → AreGuards net domains crossings rings self.now →
            slice_get crossings place ≡ Some crossing → IsLoadAt net domains crossings rings place result }
    {
        let Crossing { from, to } = crossing;
        for blind in self.blind_at(place) {
            if self.held.has(blind.ring, from) {
                return Some(Load {
                    from,
                    to,
                    ring: blind.ring as u64,
                    gate: blind.gate,
                    recirculating: blind.recirculating,
                });
            }
        }
        None
    }

    /// The blindnesses of the crossing at this place.
    fn blind_at(&self, crossing: usize) -> &[Blind]
        ensures { IsSorted blind_order.ghosts.cmp self.now.blind.items → result.now ≡ blind_at self.now.blind.items crossing }
    {
        at_crossing(self.blind.as_slice(), crossing)
    }

    /// Whether the ring joins these groups.
    fn joins(&self, ring: usize, sides: Sides) -> bool
        ensures { (result ≡ true) ↔ (slice_get self.now.sides.items ring ≡ Some sides) }
    {
        match self.sides.get(ring) {
            Some(own) => *own == sides,
            None => false,
        }
    }

    /// The first ring that joins these groups.
    fn first_joint(&self, sides: Sides) -> Option<u64>
        ensures { IsSorted joint_order.ghosts.cmp self.now.joints.items → IsFirstJoint self.now.joints.items sides result }
    {
        match self.joints_at(sides).first() {
            Some(joint) => Some(joint.ring as u64),
            None => None,
        }
    }

    /// The rings that join these groups.
    fn joints_at(&self, sides: Sides) -> &[Joint]
        ensures { IsSorted joint_order.ghosts.cmp self.now.joints.items → result.now ≡ joints_at self.now.joints.items sides }
    {
        with_sides(self.joints.as_slice(), sides)
    }
}

/// The blindnesses of the crossing at this place, among blindnesses that are sorted.
fn at_crossing(blind: &[Blind], crossing: usize) -> &[Blind]
    ensures { IsSorted blind_order.ghosts.cmp blind.now → result.now ≡ blind_at blind.now crossing }
{
    let first = blind.partition_point(|blind| blind.crossing < crossing);
    let end = blind.partition_point(|blind| blind.crossing <= crossing);
    blind.get(first..end).unwrap_or(&[])
}

/// The rings that join these groups, among rings that are sorted by theirs.
fn with_sides(joints: &[Joint], sides: Sides) -> &[Joint]
    ensures { IsSorted joint_order.ghosts.cmp joints.now → result.now ≡ joints_at joints.now sides }
{
    let first = joints.partition_point(|joint| joint.sides < sides);
    let end = joints.partition_point(|joint| joint.sides <= sides);
    joints.get(first..end).unwrap_or(&[])
}

fn crossing_at(crossings: &[Crossing], place: usize) -> Option<Crossing>
    ensures { result ≡ slice_get crossings.now place }
{
    crossings.get(place).copied()
}

/// Adds the load, if there is one.
fn add_load(load: Option<Load>, loads: &mut List<Load>) -> Result<(), NoMemory>
    ensures { IfOk result (λ _. loads.new ≡ loads.old ++ load_there load) }
{
    match load {
        Some(load) => loads.push(load),
        None => Ok(()),
    }
}

fn sides_of(alloc: Global, domains: &Domains, rings: &[Ring]) -> Result<Vec<Sides>, NoMemory>
    ensures { IfOk result (λ sides. sides.items ≡ map (sides_of domains.now) rings.now) }
{
    let mut sides = Vec::new(alloc);
    for ring in rings {
        sides
            .push(sides_of_ring(domains, ring))
            .map_err(|_| NoMemory)?;
    }
    Ok(sides)
}

/// The groups of the crossing's source and of its end.
fn sides_between(domains: &Domains, crossing: &Crossing) -> Sides
    ensures { result ≡ sides_between domains.now crossing.now }
{
    Sides {
        request: domains.group_of(crossing.from),
        acknowledge: domains.group_of(crossing.to),
    }
}

fn sides_of_ring(domains: &Domains, ring: &Ring) -> Sides
    ensures { result ≡ sides_of domains.now ring.now }
{
    let bits = ring.bits.as_slice();
    Sides {
        request: group_of(domains, bits.first().copied()),
        acknowledge: group_of(domains, bits.get(ring.ack as usize).copied()),
    }
}

fn group_of(domains: &Domains, bit: Option<Bit>) -> Option<u32>
    ensures { result ≡ option_and_then (group_of domains.now) bit }
{
    match bit {
        Some(bit) => domains.group_of(bit),
        None => None,
    }
}

fn joints_of(alloc: Global, sides: &[Sides]) -> Result<Vec<Joint>, NoMemory>
    ensures exact { IfOk result (λ joints. (j : JointOf) → Contains joints.items j ↔ (slice_get sides.now j.ring ≡ Some j.sides)) }
    ensures sorted { IfOk result (λ joints. IsSorted joint_order.ghosts.cmp joints.items) }
{
    let mut joints = Vec::new(alloc);
    for ring in 0..sides.len() {
        add_joint(sides[ring], ring, &mut joints)?;
    }
    joints.sort_unstable();
    Ok(joints)
}

fn add_joint(sides: Sides, ring: usize, joints: &mut Vec<Joint>) -> Result<(), NoMemory>
    ensures { IfOk result (λ _. joints.new.items ≡ joints.old.items ++ record { sides = sides; ring = ring } ∷ []) }
{
    joints.push(Joint { sides, ring }).map_err(|_| NoMemory)
}
