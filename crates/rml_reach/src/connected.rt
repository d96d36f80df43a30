//! Components: nodes of which each has a path to each other. One way through the graph is followed, by loops; it is in parts, and those
//! to which an edge leads back become one.

ghost use Rattle.std.specs.Prelude.{◌≡◌, ◌≢◌, ◌<◌, ◌≤◌, ◌+◌, ◌-◌, ℕ, ◌↔◌, length, map, not, slice_index, IfOk, OnOk, None, Some};
ghost use Rattle.rml_reach.specs.Components.{AllDone, AllReach, Closes, IsOlder, IsWay, is_met, mark_of, number_of, opened_way, start, wait, work};
ghost use Rattle.rml_reach.specs.Paths.{AreConnected, IsGraph};
ghost use Rattle.rml_reach.specs.Walk.{way_of};
ghost use Rattle.rml_reach.specs.declared.connected.Mark.TheVariants as mark;

use rml_base::Memory;
use sqlite_items::Items;
use std::alloc::Global;

/// How far the search came with a node.
#[derive(Clone, Copy)]
enum Mark {
    New,
    /// Its place on the way.
    Open(usize),
    /// The chosen node of its component.
    Done(u32),
}

/// Where a part of the way begins: among its nodes, and among the nodes that wait.
#[derive(Clone, Copy)]
struct Part {
    nodes: usize,
    waiting: usize,
}

/// The way, and how far the search came with each node.
#[derive(Drop)]
struct Walk {
    marks: Vec<Mark>,
    nodes: Vec<u32>,
    waiting: Vec<u32>,
    parts: Vec<Part>,
}

impl Walk {
    /// Whether the search did not come to a node yet.
    fn is_new(&self, node: u32) -> bool
        requires { node < length self.now.marks.items }
        ensures { result ≡ not (is_met (mark_of self.now.marks.items node)) }
    {
        match mark_at(self.marks.as_slice(), node) {
            Mark::New => true,
            Mark::Open(_) => false,
            Mark::Done(_) => false,
        }
    }

    /// Opens a node, in a part of its own behind the others.
    fn open(&mut self, edges: &[Items<u32>], node: u32) -> Result<(), Memory>
        requires marked { node < length self.old.marks.items }
        requires known { node < length edges.now }
        ensures { OnOk result (way_of self.new ≡ opened_way edges.now (way_of self.old) node) }
    {
        let at = node as usize;
        let place = self.nodes.len();
        self.parts.push(Part {
            nodes: place,
            waiting: self.waiting.len(),
        })?;
        self.nodes.push(node)?;
        self.waiting.extend_from_slice(edges[at].as_slice())?;
        self.marks[at] = Mark::Open(place);
        Ok(())
    }

    /// Goes on from a node that waited, and was taken from those that wait: a new one is opened, and where it is open already, the
    /// parts behind its own become one with its own.
    fn meet(&mut self, edges: &[Items<u32>], node: u32) -> Result<(), Memory>
        requires graph { IsGraph edges.now }
        requires way { IsWay edges.now (way_of self.old) (Some node) }
        requires known { node < length edges.now }
        requires reach { AllReach edges.now self.old.nodes.items node }
        ensures way { OnOk result (IsWay edges.now (way_of self.new) None) }
        ensures falls { OnOk result (work edges.now (way_of self.new) ≤ work edges.now (way_of self.old)) }
        ensures older { OnOk result (IsOlder self.old.marks.items self.new.marks.items) }
    {
        match mark_at(self.marks.as_slice(), node) {
            Mark::New => {
                self.open(edges, node)?;
                Ok(())
            }
            Mark::Open(place) => {
                let kept = parts_until(self.parts.as_slice(), place);
                self.parts.truncate(kept);
                Ok(())
            }
            Mark::Done(_) => Ok(()),
        }
    }

    /// The last part, which begins at this place, leaves the way, since nothing waits for it any more.
    fn leave(&mut self, edges: &[Items<u32>], last: usize, from: usize)
        requires way { IsWay edges.now (way_of self.old) None }
        requires last { last + 1 ≡ length self.old.parts.items }
        requires from { from ≡ start self.old.parts.items last }
        requires alone { length self.old.waiting.items ≤ wait self.old.parts.items last }
        ensures way { IsWay edges.now (way_of self.new) None }
        ensures falls { work edges.now (way_of self.new) < work edges.now (way_of self.old) }
        ensures older { IsOlder self.old.marks.items self.new.marks.items }
    {
        let chosen = node_at(self.nodes.as_slice(), from);
        close(&mut self.marks, self.nodes.as_slice(), from, chosen);
        self.nodes.truncate(from);
        self.parts.truncate(last);
    }

    /// A step of the search from the last part: a node that waits for it is met, or the part leaves the way.
    fn advance(&mut self, edges: &[Items<u32>]) -> Result<(), Memory>
        requires graph { IsGraph edges.now }
        requires way { IsWay edges.now (way_of self.old) None }
        requires some { 0 < length self.old.parts.items }
        ensures way { OnOk result (IsWay edges.now (way_of self.new) None) }
        ensures falls { OnOk result (work edges.now (way_of self.new) < work edges.now (way_of self.old)) }
        ensures older { OnOk result (IsOlder self.old.marks.items self.new.marks.items) }
    {
        let last = self.parts.len() - 1;
        let part = part_at(self.parts.as_slice(), last);
        if self.waiting.len() <= part.waiting {
            self.leave(edges, last, part.nodes);
            return Ok(());
        }
        let Some(node) = self.waiting.pop() else {
            return Ok(());
        };
        self.meet(edges, node)?;
        Ok(())
    }

    /// Searches from a node, where the search did not come to it yet: until the way is empty again.
    fn visit(&mut self, edges: &[Items<u32>], node: u32) -> Result<(), Memory>
        requires graph { IsGraph edges.now }
        requires way { IsWay edges.now (way_of self.old) None }
        requires empty { length self.old.parts.items ≡ 0 }
        requires known { node < length edges.now }
        ensures way { OnOk result (IsWay edges.now (way_of self.new) None) }
        ensures empty { OnOk result (length self.new.parts.items ≡ 0) }
        ensures older { OnOk result (IsOlder self.old.marks.items self.new.marks.items) }
        ensures met { OnOk result (mark_of self.new.marks.items node ≢ mark.New) }
    {
        if !self.is_new(node) {
            return Ok(());
        }
        self.open(edges, node)?;
        while !self.parts.is_empty() {
            self.advance(edges)?;
        }
        Ok(())
    }
}

/// How far the search came with a node.
fn mark_at(marks: &[Mark], node: u32) -> Mark
    requires { node < length marks.now }
    ensures { result ≡ mark_of marks.now node }
{
    marks[node as usize]
}

/// The node at a place.
fn node_at(nodes: &[u32], place: usize) -> u32
    requires { place < length nodes.now }
    ensures { result ≡ slice_index nodes.now place }
{
    nodes[place]
}

/// Where a part begins.
fn part_at(parts: &[Part], place: usize) -> Part
    requires { place < length parts.now }
    ensures nodes { result.nodes ≡ start parts.now place }
    ensures waiting { result.waiting ≡ wait parts.now place }
{
    parts[place]
}

/// Makes all nodes of the way from a place on done with.
fn close(marks: &mut Vec<Mark>, nodes: &[u32], from: usize, chosen: u32)
    requires within { (k : ℕ) → k < length nodes.now → slice_index nodes.now k < length marks.old.items }
    requires start { from ≤ length nodes.now }
    ensures { Closes marks.old.items marks.new.items nodes.now from (length nodes.now) chosen }
{
    for at in from..nodes.len() {
        marks[nodes[at] as usize] = Mark::Done(chosen);
    }
}

/// How many parts begin at a place or before it. Those behind them begin behind it.
fn parts_until(parts: &[Part], place: usize) -> usize
    ensures count { result ≤ length parts.now }
    ensures behind { (b : ℕ) → result ≤ b → b < length parts.now → place < start parts.now b }
    ensures last { 0 < result → start parts.now (result - 1) ≤ place }
{
    let mut kept = parts.len();
    while kept > 0 && parts[kept - 1].nodes > place {
        kept -= 1;
    }
    kept
}

/// Searches from all nodes.
fn search(alloc: Global, edges: &[Items<u32>]) -> Result<Walk, Memory>
    requires graph { IsGraph edges.now }
    ensures way { IfOk result (λ walk. IsWay edges.now (way_of walk) None) }
    ensures done { IfOk result (λ walk. AllDone walk.marks.items (length edges.now)) }
{
    let mut walk = Walk {
        marks: vec![in alloc; Mark::New; edges.len()]?,
        nodes: Vec::new(alloc),
        waiting: Vec::new(alloc),
        parts: Vec::new(alloc),
    };
    for node in 0..edges.len() {
        walk.visit(edges, node as u32)?;
    }
    Ok(walk)
}

/// The chosen node of the component of a node that is done with.
fn chosen_of(mark: Mark) -> u32
    ensures { result ≡ number_of mark }
{
    match mark {
        Mark::New => 0,
        Mark::Open(_) => 0,
        Mark::Done(chosen) => chosen,
    }
}

/// The chosen nodes.
fn all_chosen(alloc: Global, marks: &[Mark]) -> Result<Vec<u32>, Memory>
    ensures { IfOk result (λ r. r.items ≡ map number_of marks.now) }
{
    let chosen = marks.iter().map(|mark| chosen_of(*mark)).collect(alloc)?;
    Ok(chosen)
}

/// For each node a node that was chosen for its component. Two nodes have the same exactly where each has a path to the other.
pub fn components(alloc: Global, edges: &[Items<u32>]) -> Result<Vec<u32>, Memory>
    requires graph { IsGraph edges.now }
    ensures count { IfOk result (λ r. length r.items ≡ length edges.now) }
    ensures chosen { IfOk result (λ r. (n : ℕ) → n < length edges.now → AreConnected edges.now n (slice_index r.items n)) }
    ensures same { IfOk result (λ r. (n m : ℕ) → n < length edges.now → m < length edges.now → (slice_index r.items n ≡ slice_index r.items m) ↔ AreConnected edges.now n m) }
{
    let walk = search(alloc, edges)?;
    let chosen = all_chosen(alloc, walk.marks.as_slice())?;
    Ok(chosen)
}
