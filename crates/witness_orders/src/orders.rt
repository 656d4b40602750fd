//! The graph of lock orders over at most 64 classes.
ghost use Rattle.std.specs.Prelude.{◌≡◌, ℕ, ◌≤◌, ◌<◌, ◌↔◌, ◌||◌, ◌&&◌, ◌==◌, [], IsTrue, IfOk, MatchResult, length, slice_index};
ghost use Rattle.std.specs.List.{All, list_all, list_any};
ghost use Rattle.lock_model.specs.Counts.{has_bit};
ghost use Rattle.lock_model.specs.Limits.{most_classes};
ghost use Rattle.lock_model.specs.Orders.{Forbids, Reaches, HasNoCycle, HaveSameEdges, IsAdmitted, IsFirstToForbid, edges_behind};
ghost use Rattle.witness_orders.specs.Graph.{numbers_of, edges_in, row_behind, IsClosed};

use crate::bits::{has, only, set_of};
use lock_model::{ClassNo, Reversal};
use std::alloc::{AllocError, Global};
use std::marker::Model;

/// Which classes of locks were wanted behind which held ones: a graph with an edge from each held
/// class to the wanted one. It has no cycle, and so no edge from a class to itself.
///
/// ```
/// let mut orders = Orders::make(alloc, 2)?;
/// orders.admit(&[ClassNo(0)], ClassNo(1));
/// assert!(rt; orders.check(&[ClassNo(1)], ClassNo(0)).is_err());
/// ```
#[derive(Drop, Debug)]
pub struct Orders {
    // For each class the classes to which an edge leads from it,
    edges: Vec<u64>,
    // and those to which a path does.
    reached: Vec<u64>,
}

impl Model for Orders {
    ghost use Rattle.witness_orders.specs.Graph.{Graph, edges_in, IsClosed};
    ghost use Rattle.std.specs.Prelude.{length};

    ghost Value = { Graph };

    ghost view = { λ o. record { classes = length o.edges.items; edges = edges_in o.edges.items } };

    ghost invariant = { λ o. IsClosed o.edges.items o.reached.items };
}

impl Orders {
    /// The graph of so many classes, at most 64, with no edge. It fails where memory runs out.
    ///
    /// ```
    /// let orders = Orders::make(alloc, 64)?;
    /// ```
    pub fn make(alloc: Global, classes: u32) -> Result<Orders, AllocError>
        requires { classes ≤ most_classes }
        ensures { IfOk result (λ o. o ≡ record { classes = classes; edges = [] }) }
    {
        let classes = classes as usize;
        Ok(Orders {
            edges: vec![in alloc; 0; classes]?,
            reached: vec![in alloc; 0; classes]?,
        })
    }

    /// Whether a thread that holds locks of the classes `held`, in order of acquisition, may want one of
    /// the class `wanted`. It is refused exactly where a held class is the wanted one, or a path leads
    /// from the wanted one to it; the first such held class is named. It takes time in the number of held
    /// classes.
    ///
    /// ```
    /// let twice = orders.check(&[ClassNo(0)], ClassNo(0));
    /// assert_eq!(rt; twice.map_err(|reversal| reversal.held), Err(ClassNo(0)));
    /// ```
    pub fn check(&self, held: &[ClassNo], wanted: ClassNo) -> Result<(), Reversal>
        requires held { All (λ h. h.0 < self.now.classes) held.now }
        requires wanted { wanted.0 < self.now.classes }
        ensures { MatchResult result
            (λ _. IsAdmitted self.now.edges (numbers_of held.now) wanted.0)
            (λ r. IsFirstToForbid self.now.edges (numbers_of held.now) wanted.0 r.held.0
            × (r.wanted ≡ wanted)) }
    {
        for h in held {
            if self.forbids(*h, wanted) {
                return Err(Reversal { held: *h, wanted });
            }
        }
        Ok(())
    }

    /// Learns the order of an acquisition that `check` admits: an edge leads from each held class to the
    /// wanted one, and all other edges stay. It takes no memory, and time in the number of held classes; where
    /// an edge is new, in that of all classes too.
    ///
    /// ```
    /// orders.check(&[ClassNo(0), ClassNo(1)], ClassNo(2))?;
    /// orders.admit(&[ClassNo(0), ClassNo(1)], ClassNo(2));
    /// ```
    pub fn admit(&mut self, held: &[ClassNo], wanted: ClassNo)
        requires held { All (λ h. h.0 < self.old.classes) held.now }
        requires wanted { wanted.0 < self.old.classes }
        requires admitted { IsAdmitted self.old.edges (numbers_of held.now) wanted.0 }
        ensures classes { self.new.classes ≡ self.old.classes }
        ensures edges { HaveSameEdges self.new.edges
            (edges_behind self.old.edges (numbers_of held.now) wanted.0) }
        ensures no_cycle { HasNoCycle self.new.edges }
    {
        learn(&mut self.edges, &mut self.reached, held, wanted);
    }

    /// Whether a path of one or more edges leads from a class to another, in constant time.
    ///
    /// ```
    /// orders.admit(&[ClassNo(0)], ClassNo(1));
    /// orders.admit(&[ClassNo(1)], ClassNo(2));
    /// assert!(rt; orders.path(ClassNo(0), ClassNo(2)));
    /// ```
    pub fn path(&self, a: ClassNo, b: ClassNo) -> bool
        requires from { a.0 < self.now.classes }
        requires to { b.0 < self.now.classes }
        ensures answer { IsTrue result ↔ Reaches self.now.edges a.0 b.0 }
        ensures no_cycle { HasNoCycle self.now.edges }
    {
        has(self.reached[usize::from(a.0)], b)
    }

    // Whether the held class forbids the wanted one.
    fn forbids(&self, held: ClassNo, wanted: ClassNo) -> bool
        requires held { held.0 < self.now.classes }
        requires wanted { wanted.0 < self.now.classes }
        ensures { IsTrue result ↔ Forbids self.now.edges held.0 wanted.0 }
    {
        held == wanted || self.path(wanted, held)
    }
}

// Learns an admitted order, in the rows of edges and in those of what is reached.
fn learn(edges: &mut [u64], reached: &mut [u64], held: &[ClassNo], wanted: ClassNo)
    requires held { All (λ h. h.0 < length edges.old) held.now }
    requires wanted { wanted.0 < length edges.old }
    requires admitted { IsAdmitted (edges_in edges.old) (numbers_of held.now) wanted.0 }
    requires closed { IsClosed edges.old reached.old }
    ensures closed { IsClosed edges.new reached.new }
    ensures edges { HaveSameEdges (edges_in edges.new)
        (edges_behind (edges_in edges.old) (numbers_of held.now) wanted.0) }
{
    if are_known(edges, held, wanted) {
        return;
    }
    let gained = reached[usize::from(wanted.0)] | only(wanted);
    add_edges(edges, held, wanted);
    close(reached, set_of(held), gained);
}

// Whether there is an edge from each held class to the wanted one.
fn are_known(edges: &[u64], held: &[ClassNo], wanted: ClassNo) -> bool
    requires held { All (λ h. h.0 < length edges.now) held.now }
    requires wanted { wanted.0 < 64 }
    ensures { result ≡ list_all (λ h. has_bit wanted.0 (slice_index edges.now h.0)) held.now }
{
    for h in held {
        if !has(edges[usize::from(h.0)], wanted) {
            return false;
        }
    }
    true
}

// Adds the edge from each held class to the wanted one.
fn add_edges(edges: &mut [u64], held: &[ClassNo], wanted: ClassNo)
    requires held { All (λ h. h.0 < length edges.old) held.now }
    requires wanted { wanted.0 < 64 }
    ensures { (a b : ℕ) → has_bit b (slice_index edges.new a)
        ≡ (has_bit b (slice_index edges.old a)
        || list_any (λ h. h.0 == a) held.now && wanted.0 == b) }
{
    for h in held {
        edges[usize::from(h.0)] |= only(wanted);
    }
}

// Adds what `reached` has to the row of each held class, and of each class that reaches one.
fn close(rows: &mut [u64], held: u64, reached: u64)
    requires { length rows.old ≤ 64 }
    ensures { (a : ℕ) → a < length rows.old → slice_index rows.new a
        ≡ row_behind held reached a (slice_index rows.old a) }
{
    for (a, row) in rows.iter_mut().enumerate() {
        if held & (*row | 1 << a) != 0 {
            *row |= reached;
        }
    }
}
