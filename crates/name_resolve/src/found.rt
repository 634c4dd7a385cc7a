//! The declarations of the identifiers that were looked at.
ghost use Rattle.std.specs.Prelude.{◌≡◌, [], ◌∷◌, ◌++◌, OnOk, IfErr};
ghost use Rattle.name_resolve.specs.declared.refusal.NameRefusal.TheVariants.{Memory};

use crate::refusal::{NameRefusal, narrowed};
use name_events::Identified;
use spark_base::Pos;
use std::alloc::Global;

/// The declarations of the identifiers that were looked at, in the order of the text.
#[derive(Drop)]
pub struct Found {
    pub denotes: Vec<u32>,
    pub identified: Vec<Identified>,
}

impl Found {
    /// No identifiers. It takes no memory.
    pub fn new(alloc: Global) -> Found
        ensures denotes { result.denotes.items ≡ [] }
        ensures identified { result.identified.items ≡ [] }
    {
        Found {
            denotes: Vec::new(alloc),
            identified: Vec::new(alloc),
        }
    }

    /// An identifier here has the declaration of this number.
    pub fn identify(&mut self, pos: Pos, number: usize) -> Result<(), NameRefusal>
        ensures denotes { self.new.denotes.items ≡ self.old.denotes.items }
        ensures identified { OnOk result (self.new.identified.items ≡ self.old.identified.items ++ (record { pos = pos; number = number }) ∷ []) }
        ensures memory { IfErr result (λ refusal. refusal ≡ Memory) }
    {
        let number = narrowed(number)?;
        self.identified.push(Identified { pos, number })?;
        Ok(())
    }

    /// An occurrence here denotes the declaration of this number.
    pub fn denote(&mut self, pos: Pos, number: usize) -> Result<(), NameRefusal>
        ensures denotes { OnOk result (self.new.denotes.items ≡ self.old.denotes.items ++ number ∷ []) }
        ensures identified { OnOk result (self.new.identified.items ≡ self.old.identified.items ++ (record { pos = pos; number = number }) ∷ []) }
        ensures memory { IfErr result (λ refusal. refusal ≡ Memory) }
    {
        self.identify(pos, number)?;
        self.denotes.push(narrowed(number)?)?;
        Ok(())
    }
}
