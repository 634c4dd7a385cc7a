//! What a unit has a `with` of.
ghost use Rattle.std.specs.Prelude.{◌≡◌, [], ◌∷◌, ◌++◌, List, ℕ, IfOk, OnOk};
ghost use Rattle.name_events.specs.Declarations.{has_number};
ghost use Rattle.name_events.specs.declared.declaration.Declaration.{Declaration};
ghost use Rattle.name_events.specs.Known.{Context};
ghost use Rattle.name_resolve.specs.Stands.{given_found, given_withs, GivenStands, NumbersStand, WithsStand};

use crate::contexts::Given;
use crate::numbers::Numbers;
use std::alloc::{AllocError, Global};
use std::rc::Rc;

/// What a unit has a `with` of, by number, in order: what it is given, and after that its own.
#[derive(Drop)]
pub struct Withs {
    alloc: Global,
    pub given: Option<Rc<Given>>,
    pub own: Numbers,
}

impl Withs {
    /// Nothing. It takes no memory.
    pub fn new(alloc: Global) -> Withs
        ensures { WithsStand result [] }
    {
        Withs {
            alloc,
            given: None,
            own: Numbers::new(alloc),
        }
    }

    /// Whether what is given has it.
    fn is_given(&self, number: usize) -> bool
        ensures { result ≡ has_number number (given_found self.now.given) }
    {
        match &self.given {
            None => false,
            Some(given) => given.withs.has(number),
        }
    }

    /// Whether there is a `with` of it.
    pub fn has(&self, number: usize) -> bool
        ensures { (withs : List ℕ) → WithsStand self.now withs → result ≡ has_number number withs }
    {
        self.is_given(number) || self.own.has(number)
    }

    /// Adds one.
    pub fn add(&mut self, number: usize) -> Result<(), AllocError>
        ensures { OnOk result ((withs : List ℕ) → WithsStand self.old withs → WithsStand self.new (withs ++ number ∷ [])) }
    {
        self.own.add(number)?;
        Ok(())
    }

    /// What is given.
    fn given_list(&self) -> &[usize]
        ensures { result.now ≡ given_withs self.now.given }
    {
        match &self.given {
            None => &[],
            Some(given) => given.withs.list.as_slice(),
        }
    }

    /// A list of all.
    pub fn all(&self) -> Result<Numbers, AllocError>
        ensures { IfOk result (λ made. (withs : List ℕ) → WithsStand self.now withs → NumbersStand made withs) }
    {
        let mut made = Numbers::new(self.alloc);
        made.add_all(self.given_list())?;
        made.add_all(&self.own.list)?;
        Ok(made)
    }

    /// A unit begins, to which this is given. What the last one had is let go of, and its tables
    /// too: to clear these would take the time of the largest unit so far.
    pub fn begin_unit(&mut self, given: Option<Rc<Given>>)
        ensures { (all : List Declaration) (context : Context) → GivenStands all given context → WithsStand self.new context.withs }
    {
        self.given = given;
        self.own = Numbers::new(self.alloc);
    }
}
