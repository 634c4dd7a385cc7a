//! What is known of names at a point of a text.
ghost use Rattle.std.specs.Option.{option_map_or};
ghost use Rattle.std.specs.Prelude.{◌≡◌, [], IfOk, ◌&&◌, ◌||◌, not, length, List, None, Some, if◌then◌else◌};
ghost use Rattle.name_events.specs.declared.declaration.NameRule.TheVariants.{Unknown, NotVisible, TooEarly};
ghost use Rattle.name_events.specs.Declarations.{Name, declared_in, has_number, is_visible, is_package};
ghost use Rattle.name_events.specs.Completions.{completed_by, completes_form, may_complete};
ghost use Rattle.name_events.specs.Known.{Known, directly_visible, here, is_number, packages_in_use, part_here, seen, selected, source_package, visible_members};
ghost use Rattle.name_events.specs.KnownBehind.{known_at_first, package_named};
ghost use Rattle.name_events.specs.Denotes.{meaning, selected_meaning, stands_later, stands_later_in};
ghost use Rattle.name_events.specs.Identified.{number_declared};
ghost use Rattle.name_events.specs.Faults.{lacks_with};
ghost use Rattle.name_resolve.specs.declared.sighting.Sighting.TheVariants.{Nothing};
ghost use Rattle.name_resolve.specs.Sightings.{sighted_all};
ghost use Rattle.name_resolve.specs.Tables.{listed_at, symbol_of};
ghost use Rattle.name_resolve.specs.Stands.{EachKnown, Stands};

use crate::contexts::Contexts;
use crate::declarations::Declarations;
use crate::form::{
    both, completes, either, is_completion, is_generic, is_package, is_visible, same_part,
};
use crate::predefined::predefined;
use crate::regions::Regions;
use crate::sighting::{Sighting, see_regions, sight_one};
use crate::used::{Holder, Used};
use crate::withs::Withs;
use ada_tree::Word;
use indexmap::IndexSet;
use name_events::{Declaration, DeclarationForm, FoldedIdentifier, Meaning, NameRule, RegionPart};
use std::alloc::{AllocError, Global};

/// What is known of names at a point of a text. It has its own `Drop`, so that owners needn't prove
/// again how each table is dropped.
pub struct Knowledge {
    pub alloc: Global,
    pub declarations: Declarations,
    pub regions: Regions,
    pub used: Used,
    pub withs: Withs,
    pub contexts: Contexts,
    pub own_package: Option<usize>,
    pub in_own_body: bool,
    pub body_names: IndexSet<Word>,
    pub components: IndexSet<Word>,
}

impl Drop for Knowledge {
    fn drop(self) {
        let Self {
            alloc: _,
            declarations: _,
            regions: _,
            used: _,
            withs: _,
            contexts: _,
            own_package: _,
            in_own_body: _,
            body_names: _,
            components: _,
        } = self;
    }
}

impl Knowledge {
    /// What is known before the first unit.
    pub fn new(alloc: Global) -> Result<Knowledge, AllocError>
        ensures { IfOk result (λ made. Stands made known_at_first) }
    {
        Ok(Knowledge {
            alloc,
            declarations: predefined(alloc)?,
            regions: Regions::new(alloc),
            used: Used::new(alloc),
            withs: Withs::new(alloc),
            contexts: Contexts::new(alloc),
            own_package: None,
            in_own_body: false,
            body_names: IndexSet::new(alloc),
            components: IndexSet::new(alloc),
        })
    }

    /// The last declaration of a name that ended before, in the innermost enclosing region that has
    /// one.
    fn directly_visible(&self, symbol: Option<usize>) -> Option<Declaration>
        ensures { (now : Known) (w : Name) → Stands self.now now → symbol ≡ symbol_of self.now.declarations.words w
            → result ≡ directly_visible now w }
    {
        let ended = &self.declarations.ended.last;
        ended.innermost(&self.regions.around, symbol)
    }

    /// What the packages in use have of a name. It is looked for in each.
    fn sight_each(&self, symbol: Option<usize>) -> Sighting
        ensures { (now : Known) (w : Name) → Stands self.now now → symbol ≡ symbol_of self.now.declarations.words w
            → result ≡ sighted_all Nothing (visible_members now (packages_in_use now) w) }
    {
        see_regions(
            &self.declarations,
            self.regions.given_uses(),
            &self.regions.uses,
            Sighting::Nothing,
            &self.regions.around,
            symbol,
        )
    }

    /// What the packages in use have of a name that these regions declare in a visible part. Where
    /// only one of them is in use, it is looked for in that one.
    fn sight_held(&self, holders: &[usize], symbol: Option<usize>) -> Sighting
        ensures { (now : Known) (w : Name) → Stands self.now now → symbol ≡ symbol_of self.now.declarations.words w
            → holders.now ≡ option_map_or (listed_at self.now.declarations.holders) symbol []
            → result ≡ sighted_all Nothing (visible_members now (packages_in_use now) w) }
    {
        match self.used.only_used(&self.regions.around, holders) {
            Holder::Nowhere => Sighting::Nothing,
            Holder::Only(region) => sight_one(self.declarations.visible_in(region, symbol)),
            Holder::Several => self.sight_each(symbol),
        }
    }

    /// What the packages in use have of a name. It is looked for in those that have it, if these
    /// are fewer.
    fn sight(&self, symbol: Option<usize>) -> Sighting
        ensures { (now : Known) (w : Name) → Stands self.now now → symbol ≡ symbol_of self.now.declarations.words w
            → result ≡ sighted_all Nothing (visible_members now (packages_in_use now) w) }
    {
        let holders = self.declarations.holders_of(symbol);
        if holders.len() < self.regions.count_in_use() {
            self.sight_held(holders, symbol)
        } else {
            self.sight_each(symbol)
        }
    }

    /// The declaration that an identifier denotes.
    pub fn seen(&self, word: &Word) -> Option<Declaration>
        ensures { (now : Known) → Stands self.now now → result ≡ seen now word.now }
    {
        let symbol = self.declarations.words.symbol(word);
        match self.directly_visible(symbol) {
            Some(found) => Some(found),
            None => match self.sight(symbol) {
                Sighting::One(found) => Some(found),
                Sighting::Nothing => None,
                Sighting::Several => None,
            },
        }
    }

    /// Why an identifier that nothing in use has denotes nothing.
    fn why_unseen(&self, whole: &Knowledge, word: &Word) -> NameRule
        ensures { EachKnown whole.now self.now (λ behind now. result ≡ (if stands_later behind now word.now then TooEarly else Unknown)) }
    {
        let symbol = whole.declarations.words.symbol(word);
        let declared = &whole.declarations.declared.last;
        let found = declared.innermost(&self.regions.around, symbol);
        if found.is_some() {
            NameRule::TooEarly
        } else {
            NameRule::Unknown
        }
    }

    /// What an identifier denotes, or which rule it breaks.
    pub fn meaning(&self, whole: &Knowledge, word: &Word) -> Meaning
        ensures { EachKnown whole.now self.now (λ behind now. result ≡ meaning behind now word.now) }
    {
        let symbol = self.declarations.words.symbol(word);
        match self.directly_visible(symbol) {
            Some(found) => Meaning::Denotes(found),
            None => match self.sight(symbol) {
                Sighting::One(found) => Meaning::Denotes(found),
                Sighting::Several => Meaning::Breaks(NameRule::NotVisible),
                Sighting::Nothing => Meaning::Breaks(self.why_unseen(whole, word)),
            },
        }
    }

    /// Whether it is the package that the unit is the specification or the body of.
    fn is_own(&self, number: usize) -> bool
        ensures { (now : Known) → Stands self.now now → result ≡ is_number now.own_package number }
    {
        match self.own_package {
            None => false,
            Some(own) => own == number,
        }
    }

    /// Whether a declaration in a package can be named.
    fn reaches(&self, holder: Declaration, found: Declaration) -> bool
        ensures { (now : Known) → Stands self.now now → result ≡ (is_visible found || (now.in_own_body && is_number now.own_package holder.number)) }
    {
        is_visible(found) || (self.in_own_body && self.is_own(holder.number))
    }

    /// The declaration of a name in a package.
    pub fn selected(&self, holder: Declaration, word: &Word) -> Option<Declaration>
        ensures { (now : Known) → Stands self.now now → result ≡ selected now holder word.now }
    {
        match self.declarations.ended_in(holder.own_region, word) {
            None => None,
            Some(found) => {
                if self.reaches(holder, found) {
                    Some(found)
                } else {
                    None
                }
            }
        }
    }

    /// Why an identifier that has not ended in a package denotes nothing there.
    fn why_unselected(&self, whole: &Knowledge, holder: Declaration, word: &Word) -> NameRule
        ensures { EachKnown whole.now self.now (λ behind now. result ≡ (if stands_later_in behind holder word.now
            then (if is_number now.own_package holder.number then TooEarly else NotVisible) else Unknown)) }
    {
        let later = whole.declarations.declared_in(holder.own_region, word);
        if later.is_none() {
            return NameRule::Unknown;
        }
        if self.is_own(holder.number) {
            NameRule::TooEarly
        } else {
            NameRule::NotVisible
        }
    }

    /// What an identifier after a package and a dot denotes, or which rule it breaks.
    pub fn selected_meaning(&self, whole: &Knowledge, holder: Declaration, word: &Word) -> Meaning
        ensures { EachKnown whole.now self.now (λ behind now. result ≡ selected_meaning behind now holder word.now) }
    {
        match self.declarations.ended_in(holder.own_region, word) {
            None => Meaning::Breaks(self.why_unselected(whole, holder, word)),
            Some(found) => {
                if self.reaches(holder, found) {
                    Meaning::Denotes(found)
                } else {
                    Meaning::Breaks(NameRule::NotVisible)
                }
            }
        }
    }

    /// Whether a declaration is named without the `with` that it asks for.
    pub fn lacks_with(&self, declaration: Declaration) -> bool
        ensures { (now : Known) → Stands self.now now → result ≡ lacks_with now declaration }
    {
        if !is_package(declaration) && !is_generic(declaration.form) {
            return false;
        }
        !self.withs.has(declaration.number) && !self.is_own(declaration.number)
    }

    /// The package whose body the unit is, where its specification stands earlier.
    pub fn package_named(&self, body_of: &Option<Word>) -> Option<Declaration>
        ensures { (now : Known) → Stands self.now now → result ≡ package_named now body_of.now }
    {
        match body_of {
            None => None,
            Some(word) => self.declarations.ended_package(word),
        }
    }

    /// The package of this name that has ended.
    pub fn source_package(&self, id: &FoldedIdentifier) -> Option<Declaration>
        ensures { (now : Known) → Stands self.now now → result ≡ source_package now.ended id.now.name }
    {
        self.declarations.ended_package(&id.name)
    }

    /// The package of this name that was declared, whether it has ended or not.
    pub fn later_package(&self, id: &FoldedIdentifier) -> Option<Declaration>
        ensures { (now : Known) → Stands self.now now → result ≡ source_package now.declared id.now.name }
    {
        self.declarations.declared_package(&id.name)
    }

    /// Whether a declaration here may complete one: a second body of a package completes nothing.
    fn may_complete(&self) -> bool
        ensures { (now : Known) → Stands self.now now → result ≡ may_complete now }
    {
        let part = self.regions.here().part;
        let in_body = same_part(part, RegionPart::Body);
        either(!in_body, self.in_own_body)
    }

    /// Whether a declaration of this form completes another one here.
    fn completes(&self, form: DeclarationForm, found: Declaration) -> bool
        ensures { (now : Known) → Stands self.now now
            → result ≡ (may_complete now && (completes_form found.form found.part form (part_here now) && not (has_number found.number now.completed))) }
    {
        let part = self.regions.here().part;
        let fits = completes(found.form, found.part, form, part);
        let is_completed = self.declarations.is_completed(found.number);
        both(self.may_complete(), both(fits, !is_completed))
    }

    /// The declaration that one of this form and name completes here. Few forms complete any: only
    /// these are looked up.
    pub fn completed_by(&self, form: DeclarationForm, word: &Word) -> Option<Declaration>
        ensures { (now : Known) → Stands self.now now → result ≡ completed_by now form word.now }
    {
        if !is_completion(form) {
            return None;
        }
        let region = self.regions.here().region;
        match self.declarations.awaiting_in(region, word) {
            None => None,
            Some(found) => {
                if self.completes(form, found) {
                    Some(found)
                } else {
                    None
                }
            }
        }
    }

    /// The number of the declaration that an identifier declares here: of the one which it
    /// completes, or the next number.
    pub fn number_declared(&self, form: DeclarationForm, word: &Word) -> usize
        ensures { (now : Known) → Stands self.now now → result ≡ number_declared now form word.now }
    {
        match self.completed_by(form, word) {
            None => self.declarations.all.len(),
            Some(completed) => completed.number,
        }
    }
}
