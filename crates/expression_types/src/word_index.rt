//! Where words occur in a list, looked up by hash.
ghost use Rattle.std.specs.Prelude.{◌≡◌, [], ℕ, List, IfOk, OnOk};
ghost use Rattle.expression_types.specs.Occurrences.{is_single, next_occurrence, occurs, with_given, with_word};

use ada_tree::Word;
use indexmap::IndexMap;
use std::alloc::{AllocError, Global};
use std::marker::Model;

/// So many names are compared one after the other.
pub const FEW: usize = 8;

/// Where a word occurs in a list, in any case of letters.
#[derive(Clone, Copy)]
pub struct Occurrence {
    /// How many stand in front of it where it occurs first.
    pub first: usize,
    /// Whether it occurs again.
    pub again: bool,
}

/// What occurs in a list of words. Contracts see the entries, by words in lower case.
#[derive(Drop)]
pub struct WordIndex {
    words: IndexMap<Word, Occurrence>,
}

impl Model for WordIndex {
    ghost use Rattle.expression_types.specs.Occurrences.{Entries};

    ghost Value = { Entries };

    ghost view = { λ index. index.words.entries };
}

/// Where a word occurs that occurs here too.
fn next_occurrence(found: Option<Occurrence>, number: usize) -> Occurrence
    ensures { result ≡ next_occurrence number found }
{
    match found {
        Some(before) => Occurrence {
            first: before.first,
            again: true,
        },
        None => Occurrence {
            first: number,
            again: false,
        },
    }
}

impl WordIndex {
    /// The index of no words.
    pub fn new(alloc: Global) -> WordIndex
        ensures { result ≡ [] }
    {
        WordIndex {
            words: IndexMap::new(alloc),
        }
    }

    /// Where a word occurs.
    pub fn occurrence(&self, alloc: Global, word: &Word) -> Result<Option<Occurrence>, AllocError>
        ensures { IfOk result (λ found. found ≡ occurs self.now word.now) }
    {
        let key = word.folded(alloc)?;
        Ok(self.words.get(&key).copied())
    }

    /// Whether a word occurs once.
    pub fn is_single(&self, alloc: Global, word: &Word) -> Result<bool, AllocError>
        ensures { IfOk result (λ single. single ≡ is_single (occurs self.now word.now)) }
    {
        match self.occurrence(alloc, word)? {
            Some(found) => Ok(!found.again),
            None => Ok(false),
        }
    }

    /// Adds a word that occurs after the others.
    pub fn add(&mut self, alloc: Global, word: &Word, number: usize) -> Result<(), AllocError>
        ensures { OnOk result ((w : List ℕ) → occurs self.new w ≡ with_word (occurs self.old) word.now number w) }
    {
        let key = word.folded(alloc)?;
        let next = next_occurrence(self.words.get(&key).copied(), number);
        self.words.insert(key, next)?;
        Ok(())
    }

    /// Adds the identifier before the `=>` of an argument, where there is one.
    pub fn add_given(
        &mut self,
        alloc: Global,
        name: &Option<Word>,
        number: usize,
    ) -> Result<(), AllocError>
        ensures { OnOk result ((w : List ℕ) → occurs self.new w ≡ with_given (occurs self.old) name.now number w) }
    {
        match name {
            Some(word) => self.add(alloc, word, number),
            None => Ok(()),
        }
    }
}
