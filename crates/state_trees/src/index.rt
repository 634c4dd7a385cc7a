//! The facts of a list by the objects that they concern.
ghost use Rattle.std.specs.Prelude.{◌≡◌, ◌==◌, ◌∷◌, [], ◌++◌, ℕ, ◌≤◌, List, length, IfOk, OnOk, if◌then◌else◌};
ghost use Rattle.place_names.specs.declared.fact.Fact.{Fact};
ghost use Rattle.state_trees.specs.Concerns.{concerns, listed, numbers_in, AreIndexed};
ghost use Rattle.state_trees.specs.Indexes.{IsIndexed};

use place_names::Fact;
use spark_base::Listed;
use std::alloc::{AllocError, Global};
use std::collections::BTreeMap;
use std::rc::Rc;

/// Objects by number, each with the numbers of the facts that concern it, in ascending order.
pub(crate) type ByObject = BTreeMap<u32, Listed<u32>>;

/// The facts that concern each object.
#[derive(Drop)]
pub(crate) struct FactIndex {
    pub by_object: ByObject,
}

/// The index of a list of facts, shared by all trees over the list. There is none for few facts, or
/// where memory was out.
pub(crate) type Shared = Option<Rc<FactIndex>>;

/// A list of no more facts than these is looked at as a whole.
const FEW: usize = 32;

/// What was listed so far.
fn taken(alloc: Global, found: Option<Listed<u32>>) -> Listed<u32>
    ensures { result ≡ listed found }
{
    match found {
        Some(list) => list,
        None => Listed::new(alloc),
    }
}

/// Adds the number of a fact to those of an object.
fn add(alloc: Global, made: &mut ByObject, object: u32, number: u32) -> Result<(), AllocError>
    ensures { OnOk result ((x : ℕ) → numbers_in made.new.entries x
        ≡ numbers_in made.old.entries x ++ (if object == x then number ∷ [] else [])) }
{
    let mut list = taken(alloc, made.remove(&object));
    list.push(number)?;
    made.insert(object, list)?;
    Ok(())
}

/// Adds the number of a fact to those of each object that it concerns.
fn add_fact(alloc: Global, made: &mut ByObject, fact: &Fact, number: u32) -> Result<(), AllocError>
    ensures { OnOk result ((x : ℕ) → numbers_in made.new.entries x
        ≡ numbers_in made.old.entries x ++ (if concerns x fact.now then number ∷ [] else [])) }
{
    match fact {
        Fact::Moved(name) => {
            add(alloc, made, name.root(), number)?;
            Ok(())
        }
        Fact::Lent { holder, name, .. } => {
            add(alloc, made, name.root(), number)?;
            if *holder != name.root() {
                add(alloc, made, *holder, number)?;
            }
            Ok(())
        }
    }
}

/// The numbers of the facts that concern each object.
fn by_object(alloc: Global, facts: &[Fact]) -> Result<ByObject, AllocError>
    requires { length facts.now ≤ 4294967295 }
    ensures { IfOk result (λ made. AreIndexed made.entries facts.now) }
{
    let mut made = BTreeMap::new(alloc);
    'facts: for i in 0..facts.len() {
        add_fact(alloc, &mut made, &facts[i], i as u32)?;
    }
    Ok(made)
}

/// The index of a list of facts, where it is worth making and there is memory for it.
pub(crate) fn index_of(alloc: Global, facts: &[Fact]) -> Shared
    requires { length facts.now ≤ 4294967295 }
    ensures { IsIndexed result facts.now }
{
    if facts.len() <= FEW {
        return None;
    }
    let Ok(by_object) = by_object(alloc, facts) else {
        return None;
    };
    Rc::new(alloc, FactIndex { by_object }).ok()
}

/// The same index once more.
pub(crate) fn share(index: &Shared) -> Shared
    ensures { (facts : List Fact) → IsIndexed index.now facts → IsIndexed result facts }
{
    match index {
        Some(index) => index.clone().ok(),
        None => None,
    }
}

impl FactIndex {
    /// The numbers of the facts that concern an object.
    pub fn numbers(&self, object: u32) -> &[u32]
        ensures { result.now ≡ numbers_in self.now.by_object.entries object }
    {
        match self.by_object.get(&object) {
            Some(list) => list.as_slice(),
            None => &[],
        }
    }
}
