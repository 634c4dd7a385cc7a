//! The declarations up to a point.
ghost use Rattle.std.specs.Prelude.{◌≡◌, [], ◌∷◌, ◌++◌, List, ℕ, Some, OnOk, IfOk, filter, nat_eq, not, slice_get};
ghost use Rattle.std.specs.Option.{option_map, option_map_or};
ghost use Rattle.name_events.specs.declared.declaration.Declaration.{Declaration};
ghost use Rattle.name_events.specs.Declarations.{Entry, Name, declared_in, has_number, added_number};
ghost use Rattle.name_events.specs.Known.{Known, if_visible, source_package, visible_member};
ghost use Rattle.name_events.specs.Faults.{is_library_procedure};
ghost use Rattle.name_resolve.specs.Tables.{Key, asks_completion, first_in, listed_at, searched, symbol_of, FirstAnswers, HasOnly, Puts};
ghost use Rattle.name_resolve.specs.Stands.{DeclarationsStand, EntriesStand, HoldersStand, IndexStands, StandFor};

use crate::entry_index::EntryIndex;
use crate::form::{awaits, either, is_procedure_body, is_visible};
use crate::number_lists::NumberLists;
use crate::table::Table;
use crate::words::Words;
use ada_tree::Word;
use indexmap::IndexSet;
use name_events::Declaration;
use std::alloc::{AllocError, Global};

/// The declarations up to a point, and which of them have ended and are completed. In the tables
/// and in what is pending a name is the symbol of its word. The holders of a symbol are the regions
/// that have a declaration of it in a visible part.
pub struct Declarations {
    alloc: Global,
    pub words: Words,
    pub all: Vec<Declaration>,
    pub declared: EntryIndex,
    pub awaiting: Table,
    pub has_procedure: bool,
    pub pending: Vec<(usize, Declaration)>,
    pub ended: EntryIndex,
    pub holders: NumberLists,
    pub completed: IndexSet<usize>,
}

impl Drop for Declarations {
    fn drop(self) {
        let Self {
            alloc: _,
            words: _,
            all: _,
            declared: _,
            awaiting: _,
            has_procedure: _,
            pending: _,
            ended: _,
            holders: _,
            completed: _,
        } = self;
    }
}

/// Whether it is a procedure that is a library unit.
fn is_library_procedure(declaration: Declaration) -> bool
    ensures { (word : Name) → result ≡ is_library_procedure (word, declaration) }
{
    declaration.region == 0 && is_procedure_body(declaration.form)
}

/// Adds a declaration, if it asks for a completion.
fn note_awaiting(
    awaiting: &mut Table,
    symbol: usize,
    declaration: Declaration,
) -> Result<(), AllocError>
    ensures first { OnOk result ((words : List Name) (word : Name) (entries : List Entry) → symbol_of words word ≡ Some symbol
        → FirstAnswers asks_completion (searched words awaiting.old) entries
        → FirstAnswers asks_completion (searched words awaiting.new) (entries ++ (word, declaration) ∷ [])) }
    ensures only { OnOk result ((words : List Name) (word : Name) → symbol_of words word ≡ Some symbol
        → HasOnly words awaiting.old → HasOnly words awaiting.new) }
{
    if awaits(declaration.form) {
        awaiting.note_first(symbol, declaration)?;
    }
    Ok(())
}

/// Notes the region of a declaration that ends in a visible part.
fn note_holder(
    alloc: Global,
    holders: &mut NumberLists,
    symbol: usize,
    declaration: Declaration,
) -> Result<(), AllocError>
    ensures { OnOk result ((old new : List (Key × Declaration)) → Puts old new symbol declaration → HoldersStand old holders.old → HoldersStand new holders.new) }
{
    if is_visible(declaration) {
        holders.add(alloc, symbol, &[declaration.region])?;
    }
    Ok(())
}

/// Ends a declaration, if it is of that region.
fn end_one(
    alloc: Global,
    ended: &mut EntryIndex,
    holders: &mut NumberLists,
    pending: &(usize, Declaration),
    region: usize,
) -> Result<(), AllocError>
    ensures holders { OnOk result (HoldersStand ended.old.last holders.old → HoldersStand ended.new.last holders.new) }
    ensures stands { OnOk result ((words : List Name) (entry : Entry) (before : List Entry)
        → symbol_of words entry.0 ≡ Some pending.now.0 → pending.now.1 ≡ entry.1
        → IndexStands words ended.old before
        → IndexStands words ended.new (before ++ filter (λ d. nat_eq region d.1.region) (entry ∷ []))) }
{
    let (symbol, declaration) = *pending;
    if region == declaration.region {
        ended.note(symbol, declaration)?;
        note_holder(alloc, holders, symbol, declaration)?;
    }
    Ok(())
}

/// Ends the declarations of a region.
fn end_all(
    alloc: Global,
    ended: &mut EntryIndex,
    holders: &mut NumberLists,
    pending: &[(usize, Declaration)],
    region: usize,
) -> Result<(), AllocError>
    ensures holders { OnOk result (HoldersStand ended.old.last holders.old → HoldersStand ended.new.last holders.new) }
    ensures stands { OnOk result ((words : List Name) (waiting before : List Entry)
        → StandFor words pending.now waiting → IndexStands words ended.old before
        → IndexStands words ended.new (before ++ filter (λ d. nat_eq region d.1.region) waiting)) }
{
    'turns: for entry in pending {
        end_one(alloc, ended, holders, entry, region)?;
    }
    Ok(())
}

/// Leaves the declarations of other regions.
fn keep_others(pending: &mut Vec<(usize, Declaration)>, region: usize)
    ensures { pending.new.items ≡ filter (λ d. not (nat_eq region d.1.region)) pending.old.items }
{
    pending.retain(|entry| region != entry.1.region);
}

impl Declarations {
    /// No declarations. It takes no memory.
    pub fn new(alloc: Global) -> Declarations
        ensures { EntriesStand result [] [] [] [] }
    {
        Declarations {
            alloc,
            words: Words::new(alloc),
            all: Vec::new(alloc),
            declared: EntryIndex::new(alloc),
            awaiting: Table::new(alloc),
            has_procedure: false,
            pending: Vec::new(alloc),
            ended: EntryIndex::new(alloc),
            holders: NumberLists::new(alloc),
            completed: IndexSet::new(alloc),
        }
    }

    /// The symbol of a name.
    fn symbol(&mut self, word: &Word) -> Result<usize, AllocError>
        ensures symbol { IfOk result (λ s. symbol_of self.new.words word.now ≡ Some s) }
        ensures stands { OnOk result ((declared pending ended : List Entry) (completed : List ℕ) → EntriesStand self.old declared pending ended completed
            → EntriesStand self.new declared pending ended completed) }
    {
        Ok(self.words.add(word)?)
    }

    /// Adds a declaration, without a word on its end.
    fn enter(&mut self, symbol: usize, declaration: Declaration) -> Result<(), AllocError>
        ensures words { OnOk result (self.new.words ≡ self.old.words) }
        ensures stands { OnOk result ((word : Name) (declared pending ended : List Entry) (completed : List ℕ) → symbol_of self.old.words word ≡ Some symbol
            → EntriesStand self.old declared pending ended completed
            → EntriesStand self.new (declared ++ (word, declaration) ∷ []) pending ended completed) }
    {
        self.all.push(declaration)?;
        self.declared.note(symbol, declaration)?;
        note_awaiting(&mut self.awaiting, symbol, declaration)?;
        self.has_procedure = either(self.has_procedure, is_library_procedure(declaration));
        Ok(())
    }

    /// Adds a declaration, which hasn't ended.
    pub fn declare(&mut self, word: &Word, declaration: Declaration) -> Result<(), AllocError>
        ensures { OnOk result ((declared pending ended : List Entry) (completed : List ℕ) → EntriesStand self.old declared pending ended completed
            → EntriesStand self.new (declared ++ (word.now, declaration) ∷ []) (pending ++ (word.now, declaration) ∷ []) ended completed) }
    {
        let symbol = self.symbol(word)?;
        self.enter(symbol, declaration)?;
        self.pending.push((symbol, declaration))?;
        Ok(())
    }

    /// Adds a declaration that has ended.
    pub fn predefine(&mut self, word: &Word, declaration: Declaration) -> Result<(), AllocError>
        ensures { OnOk result ((declared pending ended : List Entry) (completed : List ℕ) → EntriesStand self.old declared pending ended completed
            → EntriesStand self.new (declared ++ (word.now, declaration) ∷ []) pending (ended ++ (word.now, declaration) ∷ []) completed) }
    {
        let symbol = self.symbol(word)?;
        self.enter(symbol, declaration)?;
        self.ended.note(symbol, declaration)?;
        note_holder(self.alloc, &mut self.holders, symbol, declaration)?;
        Ok(())
    }

    /// The declarations of a region that haven't ended end here.
    pub fn end(&mut self, region: usize) -> Result<(), AllocError>
        ensures { OnOk result ((declared pending ended : List Entry) (completed : List ℕ) → EntriesStand self.old declared pending ended completed
            → EntriesStand self.new declared (filter (λ d. not (nat_eq region d.1.region)) pending) (ended ++ filter (λ d. nat_eq region d.1.region) pending) completed) }
    {
        end_all(
            self.alloc,
            &mut self.ended,
            &mut self.holders,
            &self.pending,
            region,
        )?;
        keep_others(&mut self.pending, region);
        Ok(())
    }

    /// A declaration is completed.
    pub fn complete(&mut self, number: usize) -> Result<(), AllocError>
        ensures { OnOk result ((declared pending ended : List Entry) (completed : List ℕ) → EntriesStand self.old declared pending ended completed
            → EntriesStand self.new declared pending ended (added_number completed number)) }
    {
        self.completed.insert(number)?;
        Ok(())
    }

    /// Whether a declaration is completed.
    pub fn is_completed(&self, number: usize) -> bool
        ensures { (now : Known) → DeclarationsStand self.now now → result ≡ has_number number now.completed }
    {
        self.completed.contains(&number)
    }

    /// The last declaration of a name in a region that has ended.
    pub fn ended_in(&self, region: usize, word: &Word) -> Option<Declaration>
        ensures { (now : Known) → DeclarationsStand self.now now → result ≡ declared_in now.ended region word.now }
    {
        self.ended.last.last(&self.words, region, word)
    }

    /// The last declaration of a name in a region, whether it has ended or not.
    pub fn declared_in(&self, region: usize, word: &Word) -> Option<Declaration>
        ensures { (now : Known) → DeclarationsStand self.now now → result ≡ declared_in now.declared region word.now }
    {
        self.declared.last.last(&self.words, region, word)
    }

    /// The package of the source with this name that has ended.
    pub fn ended_package(&self, word: &Word) -> Option<Declaration>
        ensures { (now : Known) → DeclarationsStand self.now now → result ≡ source_package now.ended word.now }
    {
        self.ended.packages.last(&self.words, 0, word)
    }

    /// The package of the source with this name, whether it has ended or not.
    pub fn declared_package(&self, word: &Word) -> Option<Declaration>
        ensures { (now : Known) → DeclarationsStand self.now now → result ≡ source_package now.declared word.now }
    {
        self.declared.packages.last(&self.words, 0, word)
    }

    /// The first declaration of a name in a region that asks for a completion.
    pub fn awaiting_in(&self, region: usize, word: &Word) -> Option<Declaration>
        ensures { (now : Known) → DeclarationsStand self.now now → result ≡ first_in asks_completion now.declared region word.now }
    {
        self.awaiting.last(&self.words, region, word)
    }

    /// The last declaration of a name, by its symbol, in a region that has ended.
    fn ended_at(&self, region: usize, symbol: Option<usize>) -> Option<Declaration>
        ensures { (now : Known) (w : Name) → DeclarationsStand self.now now → symbol ≡ symbol_of self.now.words w
            → result ≡ declared_in now.ended region w }
    {
        self.ended.last.found(region, symbol)
    }

    /// The regions that have a declaration of the name of this symbol in a visible part, if any name
    /// has it.
    pub fn holders_of(&self, symbol: Option<usize>) -> &[usize]
        ensures { result.now ≡ option_map_or (listed_at self.now.holders) symbol [] }
    {
        match symbol {
            None => &[],
            Some(there) => self.holders.at(there),
        }
    }

    /// The declaration of a name, by its symbol, in the visible part of the package with this region.
    pub fn visible_in(&self, region: usize, symbol: Option<usize>) -> Option<Declaration>
        ensures { (now : Known) (w : Name) → DeclarationsStand self.now now → symbol ≡ symbol_of self.now.words w
            → result ≡ if_visible (declared_in now.ended region w) }
    {
        let found = self.ended_at(region, symbol)?;
        if is_visible(found) { Some(found) } else { None }
    }

    /// The declaration of a name, by its symbol, in the visible part of a package.
    pub fn visible_member(&self, number: usize, symbol: Option<usize>) -> Option<Declaration>
        ensures { (now : Known) (w : Name) → DeclarationsStand self.now now → symbol ≡ symbol_of self.now.words w
            → result ≡ visible_member now (slice_get now.declared number) w }
    {
        let holder = self.all.get(number)?;
        self.visible_in(holder.own_region, symbol)
    }
}
