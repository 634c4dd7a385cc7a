//! Lists of numbers, by number.
ghost use Rattle.std.specs.Prelude.{◌≡◌, ◌<◌, ℕ, [], ◌++◌, OnOk, length, if◌then◌else◌, nat_eq};
ghost use Rattle.name_resolve.specs.Tables.{listed_at};

use std::alloc::{AllocError, Global};
use std::marker::Model;

/// A list of numbers for each number: for a region the packages that a `use` clause in it names,
/// or for a symbol the regions that have a declaration of it. Contracts see the lists.
#[derive(Drop)]
pub struct NumberLists {
    lists: Vec<Vec<usize>>,
}

impl Model for NumberLists {
    ghost use Rattle.std.specs.Prelude.{List, ℕ, map};

    ghost Value = { List (List ℕ) };

    ghost view = { λ numbers. map (λ list. list.items) numbers.lists.items };
}

impl NumberLists {
    /// No numbers. It takes no memory.
    pub fn new(alloc: Global) -> NumberLists
        ensures { result ≡ [] }
    {
        NumberLists {
            lists: Vec::new(alloc),
        }
    }

    /// The list of this number.
    pub fn at(&self, index: usize) -> &[usize]
        ensures { result.now ≡ listed_at self.now index }
    {
        match self.lists.get(index) {
            None => &[],
            Some(list) => list.as_slice(),
        }
    }

    /// Makes room for the list of this number.
    fn reach(&mut self, alloc: Global, index: usize) -> Result<(), AllocError>
        ensures room { OnOk result (index < length self.new) }
        ensures same { OnOk result ((n : ℕ) → listed_at self.new n ≡ listed_at self.old n) }
    {
        'turns: while self.lists.len() <= index {
            self.lists.push(Vec::new(alloc))?;
        }
        Ok(())
    }

    /// Adds to the list of this number.
    pub fn add(&mut self, alloc: Global, index: usize, more: &[usize]) -> Result<(), AllocError>
        ensures { OnOk result ((n : ℕ) → listed_at self.new n ≡ (if nat_eq n index then listed_at self.old n ++ more.now else listed_at self.old n)) }
    {
        self.reach(alloc, index)?;
        self.lists[index].extend_from_slice(more)?;
        Ok(())
    }

    /// Lets go of the list of this number.
    pub fn clear(&mut self, alloc: Global, index: usize) -> Result<(), AllocError>
        ensures { OnOk result ((n : ℕ) → listed_at self.new n ≡ (if nat_eq n index then [] else listed_at self.old n)) }
    {
        self.reach(alloc, index)?;
        self.lists[index].clear();
        Ok(())
    }
}
