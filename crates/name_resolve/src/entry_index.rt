//! Declarations as they are looked for.
ghost use Rattle.std.specs.Prelude.{◌≡◌, [], ◌∷◌, ◌++◌, List, Some, OnOk};
ghost use Rattle.name_events.specs.Declarations.{Entry, Name};
ghost use Rattle.name_resolve.specs.Tables.{is_source_package, symbol_of, Puts};
ghost use Rattle.name_resolve.specs.Stands.{IndexStands};

use crate::form::is_package;
use crate::table::Table;
use name_events::Declaration;
use std::alloc::{AllocError, Global};

/// How many declarations the language itself has.
pub const PREDEFINED_COUNT: usize = 15;

/// The last declaration of each name in each region, and the first one that is a package of the
/// source.
#[derive(Drop)]
pub struct EntryIndex {
    pub last: Table,
    pub packages: Table,
}

/// Whether it is a package of the source.
pub fn is_source_package(declaration: Declaration) -> bool
    ensures { result ≡ is_source_package declaration }
{
    is_package(declaration) && PREDEFINED_COUNT <= declaration.number
}

impl EntryIndex {
    /// Without declarations. It takes no memory.
    pub fn new(alloc: Global) -> EntryIndex
        ensures { (words : List Name) → IndexStands words result [] }
    {
        EntryIndex {
            last: Table::new(alloc),
            packages: Table::new(alloc),
        }
    }

    /// Adds a declaration, whose name has this symbol.
    pub fn note(&mut self, symbol: usize, declaration: Declaration) -> Result<(), AllocError>
        ensures last { OnOk result (Puts self.old.last self.new.last symbol declaration) }
        ensures stands { OnOk result ((words : List Name) (word : Name) (entries : List Entry) → symbol_of words word ≡ Some symbol
            → IndexStands words self.old entries → IndexStands words self.new (entries ++ (word, declaration) ∷ [])) }
    {
        self.last.note(symbol, declaration)?;
        if is_source_package(declaration) {
            self.packages.note_first(symbol, declaration)?;
        }
        Ok(())
    }
}
