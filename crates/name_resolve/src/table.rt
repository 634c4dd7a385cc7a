//! Declarations by their region and name.
ghost use Rattle.std.specs.Prelude.{◌≡◌, ℕ, [], List, None, Some, OnOk, reverse};
ghost use Rattle.std.specs.Option.{option_map_or};
ghost use Rattle.name_events.specs.Declarations.{Name, innermost};
ghost use Rattle.name_resolve.specs.Tables.{entry_at, noted, noted_first, searched, symbol_of, HasOnly, Puts};

use crate::words::Words;
use ada_tree::Word;
use indexmap::IndexMap;
use name_events::{Declaration, OpenRegion};
use std::alloc::{AllocError, Global};
use std::marker::Model;

/// A region, and the symbol of a word.
type Key = (usize, usize);

/// For each region its names, each with its last declaration. A name is the symbol of a word.
/// Contracts see the entries.
#[derive(Drop)]
pub struct Table {
    entries: IndexMap<Key, Declaration>,
}

impl Model for Table {
    ghost use Rattle.std.specs.Prelude.{List};
    ghost use Rattle.name_events.specs.declared.declaration.Declaration.{Declaration};
    ghost use Rattle.name_resolve.specs.Tables.{Key};

    ghost Value = { List (Key × Declaration) };

    ghost view = { λ table. table.entries.entries };
}

impl Table {
    /// A table without names. It takes no memory.
    pub fn new(alloc: Global) -> Table
        ensures { result ≡ [] }
    {
        Table {
            entries: IndexMap::new(alloc),
        }
    }

    /// The last declaration of a symbol in a region.
    pub fn at(&self, region: usize, symbol: usize) -> Option<Declaration>
        ensures { result ≡ entry_at self.now region symbol }
    {
        self.entries.get(&(region, symbol)).copied()
    }

    /// The last declaration in a region of the name of this symbol, if any name has it.
    pub fn found(&self, region: usize, symbol: Option<usize>) -> Option<Declaration>
        ensures { result ≡ option_map_or (entry_at self.now region) symbol None }
    {
        match symbol {
            None => None,
            Some(there) => self.at(region, there),
        }
    }

    /// The last declaration of a name in a region.
    pub fn last(&self, words: &Words, region: usize, word: &Word) -> Option<Declaration>
        ensures { result ≡ searched words.now self.now region word.now }
    {
        self.found(region, words.symbol(word))
    }

    /// Adds a declaration to its region.
    pub fn note(&mut self, symbol: usize, declaration: Declaration) -> Result<(), AllocError>
        ensures entries { OnOk result (Puts self.old self.new symbol declaration) }
        ensures searched { OnOk result ((words : List Name) (word : Name) → symbol_of words word ≡ Some symbol
            → (r : ℕ) (w : Name) → searched words self.new r w ≡ noted (searched words self.old) word declaration r w) }
        ensures only { OnOk result ((words : List Name) (word : Name) → symbol_of words word ≡ Some symbol
            → HasOnly words self.old → HasOnly words self.new) }
    {
        self.entries
            .insert((declaration.region, symbol), declaration)?;
        Ok(())
    }

    /// Adds a declaration to its region, unless the region has the name.
    pub fn note_first(&mut self, symbol: usize, declaration: Declaration) -> Result<(), AllocError>
        ensures searched { OnOk result ((words : List Name) (word : Name) → symbol_of words word ≡ Some symbol
            → (r : ℕ) (w : Name) → searched words self.new r w ≡ noted_first (searched words self.old) word declaration r w) }
        ensures only { OnOk result ((words : List Name) (word : Name) → symbol_of words word ≡ Some symbol
            → HasOnly words self.old → HasOnly words self.new) }
    {
        if self.at(declaration.region, symbol).is_some() {
            return Ok(());
        }
        self.note(symbol, declaration)?;
        Ok(())
    }

    /// What is found of a symbol in the innermost of the regions that has it.
    fn innermost_at(&self, around: &[OpenRegion], symbol: usize) -> Option<Declaration>
        ensures { (words : List Name) (word : Name) → symbol_of words word ≡ Some symbol
            → result ≡ innermost (searched words self.now) (reverse around.now) word }
    {
        let mut left = around.len();
        'frames: while left > 0 {
            left -= 1;
            let found = self.at(around[left].region, symbol);
            if found.is_some() {
                return found;
            }
        }
        None
    }

    /// What is found in the innermost of the regions that has the name of this symbol, if any name
    /// has. The innermost one stands last.
    pub fn innermost(&self, around: &[OpenRegion], symbol: Option<usize>) -> Option<Declaration>
        ensures { (words : List Name) (word : Name) → symbol ≡ symbol_of words word
            → result ≡ innermost (searched words self.now) (reverse around.now) word }
    {
        match symbol {
            None => None,
            Some(symbol) => self.innermost_at(around, symbol),
        }
    }
}
