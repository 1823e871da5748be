//! The edges of a state of a trie: a map from labels to the ids of the children.

ghost use Rattle.std.specs.Prelude.{◌≡◌, ◌≢◌, ◌↔◌, ℕ, ◌<◌, ◌≤◌, [], ◌∷◌, ◌++◌, None, length, IfOk, IfErr, OnOk, OnErr, IsTrue, MatchResult};
ghost use Rattle.std.specs.Option.{option_copied, option_to_list};
ghost use Rattle.std.specs.Map.{values_of};
ghost use Rattle.std.specs.List.{HoldsAt};
ghost use Rattle.std.specs.List.Sorted.{IsPartitionPoint, IsSearchInRange};
ghost use Rattle.std.specs.BTreeMap.{insert_entry};
ghost use Rattle.std.specs.declared.cmp.Ordering.TheVariants.{Less, Equal, Greater};
ghost use Rattle.std.specs.Map.Iter.{TakesFirst, ShowsInOrder, deref, deref_pair};
ghost use Rattle.std.specs.Iterator.{at_most};
ghost use Rattle.daachorse_core.specs.Refusals.{IsOutOfMemory};
ghost use Rattle.daachorse_build.specs.EdgeMaps.{id_at, IsOrdered, Updates};
ghost use Rattle.daachorse_build.specs.Few.{items_of, SpillsFromTwo};

use crate::few::Few;
use daachorse_core::edge_label::EdgeLabel;
use daachorse_core::errors::Result;
use std::alloc::{Allocator, Global};
use std::cmp::Ordering;
use std::marker::Model;
use std::slice;

/// A map from labels to the ids of states.
///
/// Most states have one edge or none. So one edge is kept in the map itself, and takes no memory;
/// more are kept in a sorted vector.
#[derive(Drop)]
pub struct EdgeMap<L: EdgeLabel, A: Allocator = Global> {
    // By rising labels.
    edges: Few<(L, u32), A>,
}

impl<L: EdgeLabel, A: Allocator> Model for EdgeMap<L, A> {
    ghost use Rattle.std.specs.Prelude.{ℕ, List};

    ghost Value = { List (L × ℕ) };

    ghost use Rattle.daachorse_build.specs.EdgeMaps.{IsOrdered};
    ghost use Rattle.daachorse_build.specs.Few.{items_of, SpillsFromTwo};

    ghost view = { λ m. items_of m.edges };

    ghost invariant = { λ m. IsOrdered L.cmp (items_of m.edges) × SpillsFromTwo m.edges };
}

impl<L: EdgeLabel, A: Allocator> Default for EdgeMap<L, A> {
    ghost is_default = { λ m. m ≡ [] };

    fn default() -> Self {
        Self { edges: Few::Empty }
    }
}

impl<L: EdgeLabel, A: Allocator> EdgeMap<L, A> {
    /// The id at a label, found by binary search.
    #[inline]
    pub fn get(&self, label: &L) -> Option<&u32>
        ensures { option_copied result ≡ id_at L.cmp self.now label.now }
    {
        match &self.edges {
            Few::Empty => None,
            Few::One(edge) => match label.cmp(&edge.0) {
                Ordering::Equal => Some(&edge.1),
                _ => None,
            },
            Few::Many(edges) => get_among(edges, label),
        }
    }

    /// How many edges there are.
    pub fn len(&self) -> usize
        ensures { result ≡ length self.now }
    {
        self.edges.len()
    }

    /// Whether there is no edge.
    pub fn is_empty(&self) -> bool
        ensures { IsTrue result ↔ (self.now ≡ []) }
    {
        self.len() == 0
    }

    /// The edges, by rising labels.
    pub fn iter(&self) -> Iter<'_, L>
        ensures rest { result ≡ self.now }
        ensures runs { ShowsInOrder (deref_pair {K = L} {X = ℕ}) }
        ensures ordered { IsOrdered L.cmp self.now }
    {
        match &self.edges {
            Few::Empty => Iter::new(None, &[]),
            Few::One(edge) => Iter::new(Some(edge), &[]),
            Few::Many(edges) => Iter::new(None, edges),
        }
    }

    /// The ids, by rising labels.
    pub fn values(&self) -> Values<'_, L>
        ensures rest { result ≡ values_of self.now }
        ensures runs { ShowsInOrder (deref {X = ℕ}) }
    {
        Values { edges: self.iter() }
    }
}

impl<L: EdgeLabel, A: Allocator + Copy> EdgeMap<L, A> {
    /// Gives a label this id, in place of the one that it may have.
    ///
    /// A new label moves the edges after it, and from the second edge on may take memory. If that
    /// is refused, the map stays as it was.
    pub fn insert(&mut self, alloc: A, label: L, id: u32) -> Result<()>
        ensures edges { OnOk result (self.new ≡ insert_entry L.cmp self.old label id) }
        ensures updates { OnOk result (Updates L.cmp self.old self.new label id) }
        ensures ordered { IsOrdered L.cmp self.new }
        ensures unchanged { OnErr result (self.new ≡ self.old) }
        ensures absent { OnErr result (id_at L.cmp self.old label ≡ None) }
        ensures second { OnErr result (self.old ≢ []) }
        ensures err { IfErr result IsOutOfMemory }
    {
        put(&mut self.edges, alloc, (label, id))
    }

    /// Copies the map. Fails if an allocation does.
    pub fn clone(&self) -> Result<Self>
        ensures same { IfOk result (λ map. map ≡ self.now) }
        ensures err { IfErr result IsOutOfMemory }
    {
        let edges = self.edges.clone()?;
        Ok(Self { edges })
    }
}

/// The edges of a map, by rising labels.
#[derive(Drop)]
pub struct Iter<'a, L: EdgeLabel> {
    // An edge before the others.
    first: Option<&'a (L, u32)>,
    edges: slice::Iter<'a, (L, u32)>,
}

impl<'a, L: EdgeLabel> Model for Iter<'a, L> {
    ghost use Rattle.std.specs.Prelude.{ℕ, List, ◌++◌};
    ghost use Rattle.std.specs.Option.{option_copied, option_to_list};
    ghost use Rattle.std.specs.Slice.Iter.{iter_rest};

    ghost Value = { List (L × ℕ) };

    ghost view = { λ s. option_to_list (option_copied s.first) ++ iter_rest s.edges };
}

impl<'a, L: EdgeLabel> Iter<'a, L> {
    fn new(first: Option<&'a (L, u32)>, edges: &'a [(L, u32)]) -> Self
        ensures rest { result ≡ option_to_list (option_copied first.entry) ++ edges.entry.now }
        ensures runs { ShowsInOrder (deref_pair {K = L} {X = ℕ}) }
    {
        Iter {
            first,
            edges: edges.iter(),
        }
    }
}

impl<'a, L: EdgeLabel> Iterator for Iter<'a, L> {
    type Item = (&'a L, &'a u32);

    ghost next_gives = { TakesFirst deref_pair };

    ghost remaining = { λ s. at_most (length s) };

    #[inline]
    fn next(&mut self) -> Option<(&'a L, &'a u32)> {
        let edge = match self.first.take() {
            Some(edge) => edge,
            None => self.edges.next()?,
        };
        Some((&edge.0, &edge.1))
    }
}

/// The ids of a map, by rising labels.
#[derive(Drop)]
pub struct Values<'a, L: EdgeLabel> {
    edges: Iter<'a, L>,
}

impl<'a, L: EdgeLabel> Model for Values<'a, L> {
    ghost use Rattle.std.specs.Prelude.{ℕ, List};
    ghost use Rattle.std.specs.Map.{values_of};

    ghost Value = { List ℕ };

    ghost view = { λ s. values_of s.edges };
}

impl<'a, L: EdgeLabel> Iterator for Values<'a, L> {
    type Item = &'a u32;

    ghost next_gives = { TakesFirst deref };

    ghost remaining = { λ s. at_most (length s) };

    #[inline]
    fn next(&mut self) -> Option<&'a u32> {
        let (_, id) = self.edges.next()?;
        Some(id)
    }
}

/// Where a label is among edges, or where it would be inserted.
#[inline]
fn find<L: EdgeLabel>(edges: &[(L, u32)], label: &L) -> Result<usize, usize>
    requires { IsOrdered L.cmp edges.now }
    ensures within { IsSearchInRange result (length edges.now) }
    ensures place { MatchResult result (HoldsAt (λ e. L.cmp e.0 label.now ≡ Equal) edges.now) (IsPartitionPoint (λ e. L.cmp e.0 label.now ≡ Less) (λ e. L.cmp e.0 label.now ≡ Greater) edges.now) }
{
    edges.binary_search_by(|edge| edge.0.cmp(label))
}

/// The id at a label among edges.
#[inline]
fn get_among<'a, L: EdgeLabel>(edges: &'a [(L, u32)], label: &L) -> Option<&'a u32>
    requires { IsOrdered L.cmp edges.now }
    ensures { option_copied result ≡ id_at L.cmp edges.now label.now }
{
    match find(edges, label) {
        Ok(place) => Some(&edges[place].1),
        Err(_) => None,
    }
}

/// Inserts an edge among two or more, or gives the one with its label the new id.
fn put_among<L: EdgeLabel, A: Allocator>(edges: &mut Vec<(L, u32), A>, edge: (L, u32)) -> Result<()>
    requires { IsOrdered L.cmp edges.old.items }
    ensures edges { OnOk result (edges.new.items ≡ insert_entry L.cmp edges.old.items edge.0 edge.1) }
    ensures unchanged { OnErr result (edges.new.items ≡ edges.old.items) }
    ensures absent { OnErr result (id_at L.cmp edges.old.items edge.0 ≡ None) }
    ensures longer { length edges.old.items ≤ length edges.new.items }
    ensures err { IfErr result IsOutOfMemory }
{
    match find(edges, &edge.0) {
        Ok(place) => edges[place].1 = edge.1,
        Err(place) => edges.insert(place, edge)?,
    }
    Ok(())
}

/// Inserts an edge, or gives the one with its label the new id.
fn put<L: EdgeLabel, A: Allocator + Copy>(
    edges: &mut Few<(L, u32), A>,
    alloc: A,
    edge: (L, u32),
) -> Result<()>
    requires ordered { IsOrdered L.cmp (items_of edges.old) }
    requires spills { SpillsFromTwo edges.old }
    ensures edges { OnOk result (items_of edges.new ≡ insert_entry L.cmp (items_of edges.old) edge.0 edge.1) }
    ensures unchanged { OnErr result (items_of edges.new ≡ items_of edges.old) }
    ensures absent { OnErr result (id_at L.cmp (items_of edges.old) edge.0 ≡ None) }
    ensures second { OnErr result (items_of edges.old ≢ []) }
    ensures spills { SpillsFromTwo edges.new }
    ensures err { IfErr result IsOutOfMemory }
{
    match edges {
        Few::Empty => *edges = Few::One(edge),
        Few::One(only) => match edge.0.cmp(&only.0) {
            Ordering::Less => *edges = Few::two(alloc, edge, *only)?,
            Ordering::Equal => only.1 = edge.1,
            Ordering::Greater => *edges = Few::two(alloc, *only, edge)?,
        },
        Few::Many(many) => put_among(many, edge)?,
    }
    Ok(())
}
