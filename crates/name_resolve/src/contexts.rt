//! What the context of a package gives to its body.
ghost use Rattle.std.specs.Prelude.{◌≡◌, [], ◌∷◌, ◌++◌, List, OnOk, IfOk};
ghost use Rattle.name_events.specs.declared.declaration.Declaration.{Declaration};
ghost use Rattle.name_events.specs.Known.{Context};
ghost use Rattle.name_events.specs.KnownBehind.{context_of};
ghost use Rattle.name_resolve.specs.Stands.{AreRegionsOf, ContextsStand, GivenStands, NumbersStand};

use crate::numbers::Numbers;
use indexmap::{IndexMap, IndexSet};
use name_events::Declaration;
use std::alloc::{AllocError, Global};
use std::rc::Rc;

/// What the context of a package gives to its body: what it has a `with` and a `use` of, by number,
/// and the regions of the packages that it has a `use` of.
#[derive(Drop)]
pub struct Given {
    pub withs: Numbers,
    pub uses: Vec<usize>,
    pub regions: IndexSet<usize>,
}

/// The contexts of the packages so far, by the numbers of the packages. The bodies of a package
/// share one.
#[derive(Drop)]
pub struct Contexts {
    alloc: Global,
    pub given: IndexMap<usize, Rc<Given>>,
}

impl Contexts {
    /// No contexts. It takes no memory.
    pub fn new(alloc: Global) -> Contexts
        ensures { (all : List Declaration) → ContextsStand all result [] }
    {
        Contexts {
            alloc,
            given: IndexMap::new(alloc),
        }
    }

    /// Adds the context of a package.
    pub fn add(&mut self, number: usize, given: Given) -> Result<(), AllocError>
        ensures { OnOk result ((all : List Declaration) (contexts : List Context) (context : Context)
            → number ≡ context.of_package → NumbersStand given.withs context.withs → given.uses.items ≡ context.uses
            → AreRegionsOf all context.uses given.regions.keys
            → ContextsStand all self.old contexts → ContextsStand all self.new (contexts ++ context ∷ [])) }
    {
        let shared = Rc::new(self.alloc, given)?;
        self.given.insert(number, shared)?;
        Ok(())
    }

    /// What the context of its specification gives to the body of a package.
    pub fn given_to(
        &self,
        package_spec: Option<Declaration>,
    ) -> Result<Option<Rc<Given>>, AllocError>
        ensures { IfOk result (λ given. (all : List Declaration) (contexts : List Context) → ContextsStand all self.now contexts → GivenStands all given (context_of contexts package_spec)) }
    {
        let Some(declaration) = package_spec else {
            return Ok(None);
        };
        match self.given.get(&declaration.number) {
            None => Ok(None),
            Some(given) => Ok(Some(given.clone()?)),
        }
    }
}
