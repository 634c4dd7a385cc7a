//! The words of a text, each once.
ghost use Rattle.std.specs.Prelude.{◌≡◌, [], Some, IfOk, OnOk};
ghost use Rattle.name_events.specs.Declarations.{added_name};
ghost use Rattle.name_resolve.specs.Tables.{symbol_of};

use ada_tree::Word;
use indexmap::IndexSet;
use std::alloc::{AllocError, Global};
use std::marker::Model;

/// Distinct words. Where one stands among them is its symbol, which stays. Contracts see the list.
#[derive(Drop)]
pub struct Words {
    set: IndexSet<Word>,
}

impl Model for Words {
    ghost use Rattle.std.specs.Prelude.{List};
    ghost use Rattle.name_events.specs.Declarations.{Name};

    ghost Value = { List Name };

    ghost view = { λ words. words.set.keys };
}

impl Words {
    /// No words. It takes no memory.
    pub fn new(alloc: Global) -> Words
        ensures { result ≡ [] }
    {
        Words {
            set: IndexSet::new(alloc),
        }
    }

    /// The symbol of a word, if it is among them.
    pub fn symbol(&self, word: &Word) -> Option<usize>
        ensures { result ≡ symbol_of self.now word.now }
    {
        self.set.get_index_of(word)
    }

    /// Adds a word after the others, none of which is the same.
    fn push(&mut self, word: &Word) -> Result<(), AllocError>
        ensures { OnOk result (self.new ≡ added_name self.old word.now) }
    {
        self.set.insert(word.clone()?)?;
        Ok(())
    }

    /// The symbol of a word, which is added if it isn't there.
    pub fn add(&mut self, word: &Word) -> Result<usize, AllocError>
        ensures symbol { IfOk result (λ s. symbol_of self.new word.now ≡ Some s) }
        ensures words { OnOk result (self.new ≡ added_name self.old word.now) }
    {
        match self.symbol(word) {
            Some(there) => Ok(there),
            None => {
                let next = self.set.len();
                self.push(word)?;
                Ok(next)
            }
        }
    }
}
