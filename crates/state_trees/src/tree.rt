//! What may hold and what may not hold of the facts of a list.
ghost use Rattle.std.specs.Prelude.{◌≡◌, ◌<◌, ◌≤◌, ◌↔◌, length, IsTrue, IfOk, OnOk, OnErr};
ghost use Rattle.state_trees.specs.Concerns.{HasTouched};
ghost use Rattle.state_trees.specs.FactStates.{none_hold, state_behind, joined, may_at, always_at, IsKept};
ghost use Rattle.state_trees.specs.FactStates as states;

use crate::effect::changes;
use crate::index::{Shared, index_of, share};
use crate::marks::{has_all, is_same, pass, raise};
use crate::numbers::{Numbers, touched};
use crate::overlap::any_marked;
use place_names::{Act, Fact, PlaceName, State};
use std::alloc::{AllocError, Global};
use std::marker::Model;

/// For each fact of a list, whether it may hold and whether it may not hold.
#[derive(Drop)]
pub struct Tree<'f> {
    facts: &'f [Fact],
    may: Vec<bool>,
    lacks: Vec<bool>,
    /// The facts of each object, for a longer list.
    index: Shared,
}

impl<'f> Model for Tree<'f> {
    ghost use Rattle.state_trees.specs.FactStates.{FactState, IsKept};

    ghost Value = { FactState };

    ghost view = { λ tree. record { facts = tree.facts.now; may = tree.may.items; lacks = tree.lacks.items } };

    ghost use Rattle.state_trees.specs.Indexes.{IsIndexed};

    ghost invariant = { λ tree. IsKept (record { facts = tree.facts.now; may = tree.may.items; lacks = tree.lacks.items }) × IsIndexed tree.index tree.facts.now };
}

impl<'f> Tree<'f> {
    /// No fact holds. A list with more facts than a `u32` has numbers for is refused as if out of
    /// memory.
    pub fn start(alloc: Global, facts: &'f [Fact]) -> Result<Tree<'f>, AllocError>
        ensures { IfOk result (λ tree. tree ≡ none_hold facts.now) }
    {
        if facts.len() > u32::MAX as usize {
            return Err(AllocError);
        }
        Ok(Tree {
            facts,
            may: vec![in alloc; false; facts.len()]?,
            lacks: vec![in alloc; true; facts.len()]?,
            index: index_of(alloc, facts),
        })
    }

    /// A tree that says the same of the same list.
    pub fn copy(&self) -> Result<Tree<'f>, AllocError>
        ensures { IfOk result (λ tree. tree ≡ self.now) }
    {
        Ok(Tree {
            facts: self.facts,
            may: Vec::from_slice(*self.may.allocator(), &self.may)?,
            lacks: Vec::from_slice(*self.lacks.allocator(), &self.lacks)?,
            index: share(&self.index),
        })
    }

    /// The list of facts. Each of them may hold or may not hold, and a `u32` has a number for each.
    pub fn facts(&self) -> &'f [Fact]
        ensures value { result.now ≡ self.now.facts }
        ensures kept { IsKept self.now }
    {
        self.facts
    }

    /// Numbers of facts, among them those of all facts that an act may change or be forbidden by.
    pub fn touched(&self, act: &Act) -> Numbers<'_>
        ensures { HasTouched act.now self.now.facts result }
    {
        touched(&self.index, self.facts, act)
    }

    /// What an act does to the facts of each path. Out of memory, the tree stays as it was.
    pub fn apply(&mut self, act: &Act) -> Result<(), AllocError>
        ensures ok { OnOk result (self.new ≡ state_behind act.now self.old) }
        ensures err { OnErr result (self.new ≡ self.old) }
    {
        let facts = self.facts;
        if changes(act) {
            let numbers = touched(&self.index, facts, act);
            pass(&mut self.may, &mut self.lacks, facts, act, &numbers);
        }
        Ok(())
    }

    /// Takes in the paths of another tree, and tells whether that changed anything. Out of memory,
    /// the tree stays as it was.
    pub fn join(&mut self, other: &Tree<'_>) -> Result<bool, AllocError>
        requires { other.now.facts ≡ self.old.facts }
        ensures ok { OnOk result (self.new ≡ joined self.old other.now) }
        ensures changed { IfOk result (λ changed. IsTrue changed ↔ ¬ (self.new ≡ self.old)) }
        ensures err { OnErr result (self.new ≡ self.old) }
    {
        if has_all(&self.may, &other.may) && has_all(&self.lacks, &other.lacks) {
            return Ok(false);
        }
        raise(&mut self.may, &other.may);
        raise(&mut self.lacks, &other.lacks);
        Ok(true)
    }

    /// Whether another tree says the same of the same list.
    pub fn same(&self, other: &Tree<'_>) -> bool
        requires { other.now.facts ≡ self.now.facts }
        ensures { IsTrue result ↔ (self.now ≡ other.now) }
    {
        is_same(&self.may, &other.may) && is_same(&self.lacks, &other.lacks)
    }

    /// Whether the fact with a number may hold.
    pub fn may(&self, fact: u32) -> bool
        requires { fact < length self.now.facts }
        ensures { result ≡ may_at self.now fact }
    {
        self.may[fact as usize]
    }

    /// Whether the fact with a number isn't among those that may not hold.
    pub fn always(&self, fact: u32) -> bool
        requires { fact < length self.now.facts }
        ensures { result ≡ always_at self.now fact }
    {
        !self.lacks[fact as usize]
    }

    /// Whether a fact that may hold, and that a report would name by this word, overlaps a name.
    pub fn any_overlapping(&self, name: &PlaceName, state: State) -> bool
        ensures { result ≡ states.any_overlapping self.now name.now state }
    {
        any_marked(self.facts, &self.may, name, state)
    }
}
