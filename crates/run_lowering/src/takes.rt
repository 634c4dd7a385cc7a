//! Values that a point takes.
ghost use Rattle.std.specs.Prelude.{◌≡◌, ◌++◌, ◌∷◌, [], IfSome};
ghost use Rattle.type_definitions.specs.Types.{Table};
ghost use Rattle.run_lowering.specs.Takes.{IsTakes};

use std::alloc::Global;
use type_table::TypeTable;

/// The types of values that a point takes, and how many words stand before each.
#[derive(Drop)]
pub struct Takes {
    pub types: Vec<u32>,
    pub starts: Vec<u32>,
    /// The words of all.
    pub words: u32,
}

impl Takes {
    /// No value is taken.
    #[tactic(auto, using(crate::proofs::Starts::takes_first))]
    pub fn new(alloc: Global) -> Takes
        ensures takes { (table : Table) → IsTakes table result }
        ensures types { result.types.items ≡ [] }
    {
        Takes {
            types: Vec::new(alloc),
            starts: Vec::new(alloc),
            words: 0,
        }
    }

    /// A value of a type is taken after the others.
    #[tactic(auto, using(crate::proofs::Starts::takes_next))]
    pub fn push(&mut self, table: &TypeTable, t: u32) -> Option<()>
        requires { IsTakes table.now self.old }
        ensures takes { IfSome result (λ _. IsTakes table.now self.new) }
        ensures types { IfSome result (λ _. self.new.types.items ≡ self.old.types.items ++ t ∷ []) }
    {
        let words = self.words.checked_add(table.words(t))?;
        self.types.push(t).ok()?;
        self.starts.push(self.words).ok()?;
        self.words = words;
        Some(())
    }
}
