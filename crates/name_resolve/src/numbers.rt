//! Lists of numbers in which one is looked up by hash.
ghost use Rattle.std.specs.Prelude.{◌≡◌, [], ◌∷◌, ◌++◌, List, ℕ, OnOk};
ghost use Rattle.name_events.specs.Declarations.{has_number};
ghost use Rattle.name_resolve.specs.Stands.{NumbersStand};

use indexmap::IndexSet;
use std::alloc::{AllocError, Global};

/// Numbers in order, and the set of them.
#[derive(Drop)]
pub struct Numbers {
    pub list: Vec<usize>,
    pub found: IndexSet<usize>,
}

impl Numbers {
    /// No numbers. It takes no memory.
    pub fn new(alloc: Global) -> Numbers
        ensures { NumbersStand result [] }
    {
        Numbers {
            list: Vec::new(alloc),
            found: IndexSet::new(alloc),
        }
    }

    /// Whether it is among them.
    pub fn has(&self, number: usize) -> bool
        ensures { result ≡ has_number number self.now.found.keys }
    {
        self.found.contains(&number)
    }

    /// Adds one.
    pub fn add(&mut self, number: usize) -> Result<(), AllocError>
        ensures { OnOk result ((listed : List ℕ) → NumbersStand self.old listed → NumbersStand self.new (listed ++ number ∷ [])) }
    {
        self.list.push(number)?;
        self.found.insert(number)?;
        Ok(())
    }

    /// Adds several.
    pub fn add_all(&mut self, numbers: &[usize]) -> Result<(), AllocError>
        ensures { OnOk result ((listed : List ℕ) → NumbersStand self.old listed → NumbersStand self.new (listed ++ numbers.now)) }
    {
        'turns: for number in numbers {
            self.add(*number)?;
        }
        Ok(())
    }
}
