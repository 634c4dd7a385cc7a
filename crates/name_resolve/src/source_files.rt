//! What each identifier of the files denotes, or the first rule of names that they break.
ghost use Rattle.std.specs.Prelude.{◌≡◌, ℕ, [], List, IfOk, OnOk, None};
ghost use Rattle.std.specs.List.{flat_map};
ghost use Rattle.name_events.specs.Outline.{source_events};
ghost use Rattle.name_events.specs.Known.{Known};
ghost use Rattle.name_events.specs.KnownBehind.{known_behind_all};
ghost use Rattle.name_events.specs.Denotes.{decl_infos, denotes as numbers_denoted, mentioned_from};
ghost use Rattle.name_events.specs.Identified.{identified as all_identified, identified_from};
ghost use Rattle.name_events.specs.Faults.{first_fault, name_fault};
ghost use Rattle.source_trees.specs.Trees.{AreRead, AreNamed};
ghost use Rattle.name_resolve.specs.Inputs.{trees_of};
ghost use Rattle.name_resolve.specs.Judges.{Judges};
ghost use Rattle.name_resolve.specs.OfEvents.{fault_of_events, identified_of_events, infos_of_events, numbers_of_events};
ghost use Rattle.name_resolve.specs.Stands.{EachKnown, Stands};

use crate::found::Found;
use crate::infos::infos;
use crate::knowledge::Knowledge;
use crate::one_pass::resolve_once;
use crate::refusal::NameRefusal;
use crate::rules::visit;
use ada_tree::Trees;
use name_events::{DeclInfo, Event, EventList, Identified};
use spark_base::Listed;
use std::alloc::{AllocError, Global};

/// Files whose names have a meaning: the trees of some texts, in which no rule of names is broken.
#[derive(Drop)]
pub struct Resolved {
    /// The names of the files.
    pub names: Vec<String>,
    /// The units of the files.
    pub files: Vec<Trees>,
    /// The declarations, the predefined ones first, in the order of their identifiers.
    pub decls: Vec<DeclInfo>,
    /// For each occurrence, in the order of the text, the number of its declaration in `decls`.
    pub denotes: Vec<u32>,
    /// For each identifier that uses, makes or completes a declaration, in the order of the text,
    /// its position and the number of the declaration in `decls`.
    pub identified: Vec<Identified>,
    ghost named: { ∥ AreNamed (trees_of files.items) ∥₁ },
    ghost fault: { ∥ name_fault (trees_of files.items) ≡ None ∥₁ },
    ghost decls_are: { ∥ decls.items ≡ decl_infos (trees_of files.items) ∥₁ },
    ghost denotes_are: { ∥ denotes.items ≡ numbers_denoted (trees_of files.items) ∥₁ },
    ghost identified_are: { ∥ identified.items ≡ all_identified (trees_of files.items) ∥₁ },
}

/// What the files do with names.
fn events_of(alloc: Global, files: &[Trees]) -> Result<Listed<Event>, AllocError>
    ensures { IfOk result (λ events. events ≡ source_events (trees_of files.now)) }
{
    let mut list = EventList::new(alloc);
    'turns: for file in files {
        list.add_file(file.units.as_slice());
    }
    list.finish()
}

/// What is known after events.
fn learned(mut known: Knowledge, events: &[Event]) -> Result<Knowledge, AllocError>
    ensures { IfOk result (λ made. (now : Known) → Stands known now → Stands made (known_behind_all now events.now)) }
{
    'turns: for event in events {
        known.learn(event)?;
    }
    Ok(known)
}

/// The declarations of the identifiers in events, or the first broken rule.
fn resolve_events(
    alloc: Global,
    whole: &Knowledge,
    mut known: Knowledge,
    events: &[Event],
) -> Result<Found, NameRefusal>
    ensures fault { EachKnown whole.now known (λ behind n. Judges result (first_fault behind n events.now)) }
    ensures denotes { IfOk result (λ made. EachKnown whole.now known (λ behind n. made.denotes.items ≡ flat_map (λ numbers. numbers) (mentioned_from behind n events.now))) }
    ensures identified { IfOk result (λ made. EachKnown whole.now known (λ behind n. made.identified.items ≡ identified_from behind n events.now)) }
{
    let mut found = Found::new(alloc);
    'turns: for event in events {
        visit(&known, whole, event, &mut found)?;
        known.learn(event)?;
    }
    Ok(found)
}

/// The declarations in events, and those of their identifiers.
#[derive(Drop)]
struct Meanings {
    decls: Vec<DeclInfo>,
    found: Found,
}

/// What the names in events mean, if no rule is broken in them. A refusal tells only that one is, or
/// that there is too little memory.
fn resolve_unbroken(alloc: Global, events: &[Event]) -> Result<Meanings, NameRefusal>
    ensures fault { OnOk result (fault_of_events events.now ≡ None) }
    ensures decls { IfOk result (λ made. made.decls.items ≡ infos_of_events events.now) }
    ensures denotes { IfOk result (λ made. made.found.denotes.items ≡ numbers_of_events events.now) }
    ensures identified { IfOk result (λ made. made.found.identified.items ≡ identified_of_events events.now) }
{
    let first = Knowledge::new(alloc)?;
    let pass = resolve_once(alloc, first, events)?;
    let decls = infos(alloc, &pass.behind.declarations.all)?;
    Ok(Meanings {
        decls,
        found: pass.found,
    })
}

/// What the names in events mean, or the first broken rule, by two passes: the first one learns all
/// that is declared.
fn resolve_knowing(alloc: Global, events: &[Event]) -> Result<Meanings, NameRefusal>
    ensures fault { Judges result (fault_of_events events.now) }
    ensures decls { IfOk result (λ made. made.decls.items ≡ infos_of_events events.now) }
    ensures denotes { IfOk result (λ made. made.found.denotes.items ≡ numbers_of_events events.now) }
    ensures identified { IfOk result (λ made. made.found.identified.items ≡ identified_of_events events.now) }
{
    let first = Knowledge::new(alloc)?;
    let whole = learned(first, events)?;
    let known = Knowledge::new(alloc)?;
    let found = resolve_events(alloc, &whole, known, events)?;
    let decls = infos(alloc, &whole.declarations.all)?;
    Ok(Meanings { decls, found })
}

/// What the names in events mean, or the first broken rule. Which one it is takes what stands later.
fn resolve_all(alloc: Global, events: &[Event]) -> Result<Meanings, NameRefusal>
    ensures fault { Judges result (fault_of_events events.now) }
    ensures decls { IfOk result (λ made. made.decls.items ≡ infos_of_events events.now) }
    ensures denotes { IfOk result (λ made. made.found.denotes.items ≡ numbers_of_events events.now) }
    ensures identified { IfOk result (λ made. made.found.identified.items ≡ identified_of_events events.now) }
{
    match resolve_unbroken(alloc, events) {
        Ok(made) => Ok(made),
        Err(NameRefusal::Memory) => Err(NameRefusal::Memory),
        Err(_) => Ok(resolve_knowing(alloc, events)?),
    }
}

/// What each identifier of the files denotes, or the first rule of names that they break, in the
/// order of the text. The files are the trees of some texts.
pub fn resolve(
    alloc: Global,
    names: Vec<String>,
    files: Vec<Trees>,
) -> Result<Resolved, NameRefusal>
    requires read { (texts : List (List ℕ)) × AreRead texts (trees_of files.items) }
    ensures fault { Judges result (name_fault (trees_of files.items)) }
    ensures decls { IfOk result (λ made. made.decls.items ≡ decl_infos (trees_of files.items)) }
    ensures denotes { IfOk result (λ made. made.denotes.items ≡ numbers_denoted (trees_of files.items)) }
    ensures identified { IfOk result (λ made. made.identified.items ≡ all_identified (trees_of files.items)) }
    ensures same { IfOk result (λ made. (made.names ≡ names) × (made.files ≡ files)) }
{
    let events = events_of(alloc, &files)?;
    let made = resolve_all(alloc, events.as_slice())?;
    Ok(Resolved {
        names,
        files,
        decls: made.decls,
        denotes: made.found.denotes,
        identified: made.found.identified,
    })
}
