//! Names looked up in one pass over the events, where no rule is broken.
//!
//! What stands later tells why an identifier denotes nothing, and whether a declaration has the
//! completion that it asks for. So where each identifier denotes something, only the completions
//! are left to look at after the last event.
ghost use Rattle.std.specs.Prelude.{◌≡◌, [], ◌∷◌, ◌++◌, false, true, OnOk, IfOk, None};
ghost use Rattle.std.specs.List.{flat_map};
ghost use Rattle.name_events.specs.Known.{Known};
ghost use Rattle.name_events.specs.KnownBehind.{known_behind_all};
ghost use Rattle.name_events.specs.Denotes.{mentioned_at, mentioned_from};
ghost use Rattle.name_events.specs.Identified.{identified_as, identified_at, identified_from, number_declared};
ghost use Rattle.name_events.specs.Faults.{declaration_fault, fault, first_fault, is_incomplete};
ghost use Rattle.name_resolve.specs.Awaited.{IfCompleted, IsPartOf, are_completed};
ghost use Rattle.name_resolve.specs.Stands.{Stands};

use crate::form::awaits;
use crate::found::Found;
use crate::knowledge::Knowledge;
use crate::refusal::NameRefusal;
use crate::rules::{is_second, visit};
use name_events::{DeclarationForm, Event, FoldedIdentifier};
use spark_base::Pos;
use std::alloc::{AllocError, Global};

/// A declaration that asks for a completion, by its number, and where it stands.
#[derive(Clone, Copy)]
pub struct Awaited {
    pub number: usize,
    pub pos: Pos,
}

/// Adds the next declaration, if one of this form asks for a completion.
fn add_awaited(
    awaited: &mut Vec<Awaited>,
    now: &Knowledge,
    form: DeclarationForm,
    pos: Pos,
) -> Result<(), AllocError>
    ensures complete { OnOk result (IfCompleted awaited.new.items now.now (λ behind n. is_incomplete behind n form ≡ false)) }
    ensures more { OnOk result (IsPartOf awaited.old.items awaited.new.items) }
{
    if awaits(form) {
        let number = now.declarations.all.len();
        awaited.push(Awaited { number, pos })?;
    }
    Ok(())
}

/// Each of these declarations is completed: N5.
fn completions(awaited: &[Awaited], behind: &Knowledge) -> Result<(), NameRefusal>
    ensures { OnOk result ((whole : Known) → Stands behind.now whole → are_completed awaited.now whole ≡ true) }
{
    'turns: for declaration in awaited {
        if !behind.declarations.is_completed(declaration.number) {
            return Err(NameRefusal::NoBody(declaration.pos));
        }
    }
    Ok(())
}

/// An identifier that is declared, with the number of its declaration: N2.
fn declare(
    now: &Knowledge,
    form: DeclarationForm,
    id: &FoldedIdentifier,
    found: &mut Found,
    awaited: &mut Vec<Awaited>,
) -> Result<(), NameRefusal>
    ensures fault { OnOk result (IfCompleted awaited.new.items now.now (λ behind n. declaration_fault behind n form id.now ≡ None)) }
    ensures denotes { found.new.denotes.items ≡ found.old.denotes.items }
    ensures identified { OnOk result ((n : Known) → Stands now.now n → found.new.identified.items
        ≡ found.old.identified.items ++ identified_as id.now (number_declared n form id.now.name) ∷ []) }
    ensures more { OnOk result (IsPartOf awaited.old.items awaited.new.items) }
{
    if is_second(now, form, &id.name) {
        return Err(NameRefusal::Twice(id.pos));
    }
    add_awaited(awaited, now, form, id.pos)?;
    let number = now.number_declared(form, &id.name);
    found.identify(id.pos, number)?;
    Ok(())
}

/// One event. Where it breaks no rule, what stands later doesn't matter but for the completions: so
/// `now` stands for the whole here, too. Which rule is broken is not told.
#[tactic(auto, unfolding(name_events::specs::Faults::fault, name_events::specs::Denotes::mentioned_at, name_events::specs::Identified::identified_at))]
fn look_up(
    now: &Knowledge,
    event: &Event,
    found: &mut Found,
    awaited: &mut Vec<Awaited>,
) -> Result<(), NameRefusal>
    ensures fault { OnOk result (IfCompleted awaited.new.items now.now (λ behind n. fault behind n event.now ≡ None)) }
    ensures denotes { OnOk result (IfCompleted awaited.new.items now.now (λ behind n. found.new.denotes.items
        ≡ found.old.denotes.items ++ flat_map (λ numbers. numbers) (mentioned_at behind n event.now))) }
    ensures identified { OnOk result (IfCompleted awaited.new.items now.now (λ behind n. found.new.identified.items
        ≡ found.old.identified.items ++ identified_at behind n event.now)) }
    ensures more { OnOk result (IsPartOf awaited.old.items awaited.new.items) }
{
    match event {
        Event::Declares { form, identifier } => declare(now, *form, identifier, found, awaited),
        _ => visit(now, now, event, found),
    }
}

/// What a pass over events found, and what is known after them.
#[derive(Drop)]
pub struct Pass {
    pub behind: Knowledge,
    pub found: Found,
}

/// The declarations of the identifiers in events that break no rule. A refusal tells only that a
/// rule is broken, or that there is too little memory.
pub fn resolve_once(
    alloc: Global,
    mut known: Knowledge,
    events: &[Event],
) -> Result<Pass, NameRefusal>
    ensures behind { IfOk result (λ made. (n : Known) → Stands known n → Stands made.behind (known_behind_all n events.now)) }
    ensures fault { IfOk result (λ made. (n : Known) → Stands known n → first_fault (known_behind_all n events.now) n events.now ≡ None) }
    ensures denotes { IfOk result (λ made. (n : Known) → Stands known n
        → made.found.denotes.items ≡ flat_map (λ numbers. numbers) (mentioned_from (known_behind_all n events.now) n events.now)) }
    ensures identified { IfOk result (λ made. (n : Known) → Stands known n
        → made.found.identified.items ≡ identified_from (known_behind_all n events.now) n events.now) }
{
    let mut found = Found::new(alloc);
    let mut awaited = Vec::new(alloc);
    'turns: for event in events {
        look_up(&known, event, &mut found, &mut awaited)?;
        known.learn(event)?;
    }
    completions(&awaited, &known)?;
    Ok(Pass {
        behind: known,
        found,
    })
}
