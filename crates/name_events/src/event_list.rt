//! The events of a text, as they are collected.
#![tactic(auto, unfolding(crate::specs::ExpressionOutline::part_name, crate::specs::ExpressionOutline::selector))]

ghost use Rattle.std.specs.Prelude.{◌≡◌, [], ◌∷◌, ◌++◌, map, false, Option, Some, None, IfOk};
ghost use Rattle.name_events.specs.declared.event.Clause.TheVariants as clause;
ghost use Rattle.name_events.specs.declared.event.Event.TheVariants as e;
ghost use Rattle.name_events.specs.Collected.{Adds, AddsMade};
ghost use Rattle.name_events.specs.ExpressionOutline.{declares, folded, folded_dotted, folded_identifier, leading, mention, named, part_name};
ghost use Rattle.name_events.specs.Outline.{closing_events, has_with};

use crate::declaration::DeclarationForm;
use crate::event::{Clause, Event, FoldedIdentifier, FoldedName};
use ada_tree::{Dotted, Identifier, NextPart, Suffix};
use spark_base::Listed;
use std::alloc::{AllocError, Global};

/// Events in order. A call that finds memory out adds none and sets `failed`; from then on the list
/// is of no use, and `finish` says so.
#[derive(Drop)]
pub struct EventList {
    alloc: Global,
    events: Listed<Event>,
    failed: bool,
}

/// An identifier in lower case.
fn folded_identifier(alloc: Global, id: &Identifier) -> Result<FoldedIdentifier, AllocError>
    ensures { IfOk result (λ made. made ≡ folded_identifier id.now) }
{
    Ok(FoldedIdentifier {
        pos: id.pos,
        name: id.text.folded(alloc)?,
    })
}

/// The identifiers after dots, in lower case.
fn folded_parts(alloc: Global, parts: &[NextPart]) -> Result<Listed<FoldedIdentifier>, AllocError>
    ensures { IfOk result (λ made. made ≡ map (λ p. folded_identifier (part_name p)) parts.now) }
{
    let mut made = Listed::new(alloc);
    'turns: for part in parts {
        let NextPart::FurtherPart { name, .. } = part;
        made.push(folded_identifier(alloc, name)?)?;
    }
    Ok(made)
}

/// The identifiers that follow the first one of a name after dots, in lower case.
fn folded_selectors(
    alloc: Global,
    suffixes: &[Suffix],
) -> Result<Listed<FoldedIdentifier>, AllocError>
    ensures { IfOk result (λ made. made ≡ leading suffixes.now) }
{
    let mut made = Listed::new(alloc);
    'turns: for suffix in suffixes {
        match suffix {
            Suffix::Selected { selector, .. } => made.push(folded_identifier(alloc, selector)?)?,
            Suffix::Dereferenced { .. }
            | Suffix::Applied { .. }
            | Suffix::Attribute { .. }
            | Suffix::RangeAttribute { .. } => return Ok(made),
        }
    }
    Ok(made)
}

/// The event of an identifier that is declared.
fn declaring(alloc: Global, form: DeclarationForm, id: &Identifier) -> Result<Event, AllocError>
    ensures { IfOk result (λ event. event ≡ declares form id.now) }
{
    let identifier = folded_identifier(alloc, id)?;
    Ok(Event::Declares { form, identifier })
}

/// A dotted name in lower case.
fn folded_dotted(alloc: Global, dotted: &Dotted) -> Result<FoldedName, AllocError>
    ensures { IfOk result (λ name. name ≡ folded_dotted dotted.now) }
{
    let first = folded_identifier(alloc, &dotted.first)?;
    let rest = folded_parts(alloc, dotted.rest.as_slice())?;
    Ok(FoldedName { first, rest })
}

/// The event of a dotted name that is used.
fn mentioning(alloc: Global, clause: Clause, dotted: &Dotted) -> Result<Event, AllocError>
    ensures { IfOk result (λ event. event ≡ mention clause dotted.now) }
{
    let name = folded_dotted(alloc, dotted)?;
    Ok(Event::Mentions { clause, name })
}

/// The event of a name in an expression or statement that is used.
fn mentioning_name(
    alloc: Global,
    first: &Identifier,
    suffixes: &[Suffix],
) -> Result<Event, AllocError>
    ensures { IfOk result (λ event. event ≡ e.Mentions clause.Elsewhere (named first.now (leading suffixes.now))) }
{
    let first = folded_identifier(alloc, first)?;
    let rest = folded_selectors(alloc, suffixes)?;
    let name = FoldedName { first, rest };
    Ok(Event::Mentions {
        clause: Clause::Elsewhere,
        name,
    })
}

/// The event of a name in a `with`.
fn having_with(alloc: Global, dotted: &Dotted) -> Result<Event, AllocError>
    ensures { IfOk result (λ event. event ≡ has_with dotted.now) }
{
    let name = folded_dotted(alloc, dotted)?;
    Ok(Event::UnitHasWith { name })
}

/// The event of a component that is declared.
fn declaring_component(alloc: Global, id: &Identifier) -> Result<Event, AllocError>
    ensures { IfOk result (λ event. event ≡ e.DeclaresComponent (folded_identifier id.now)) }
{
    let identifier = folded_identifier(alloc, id)?;
    Ok(Event::DeclaresComponent { identifier })
}

/// The event of a package body that begins.
fn opening_body(alloc: Global, id: &Identifier) -> Result<Event, AllocError>
    ensures { IfOk result (λ event. event ≡ e.PackageBodyOpens (folded_identifier id.now)) }
{
    let identifier = folded_identifier(alloc, id)?;
    Ok(Event::PackageBodyOpens { identifier })
}

/// The event of a name after `end`.
fn ending(alloc: Global, of: &Identifier, id: &Identifier) -> Result<Event, AllocError>
    ensures { IfOk result (λ event. event ≡ e.EndsWithName (folded_identifier id.now) (folded of.now)) }
{
    let identifier = folded_identifier(alloc, id)?;
    let expected = of.text.folded(alloc)?;
    Ok(Event::EndsWithName {
        identifier,
        expected,
    })
}

/// The event of the body of a package that begins as a unit.
fn beginning_body(alloc: Global, id: &Identifier) -> Result<Event, AllocError>
    ensures { IfOk result (λ event. event ≡ e.UnitBegins (Some (folded id.now))) }
{
    let name = id.text.folded(alloc)?;
    Ok(Event::UnitBegins {
        body_of: Some(name),
    })
}

impl EventList {
    /// No events.
    pub fn new(alloc: Global) -> EventList
        ensures { (result.failed ≡ false) × (result.events ≡ []) }
    {
        EventList {
            alloc,
            events: Listed::new(alloc),
            failed: false,
        }
    }

    /// Adds an event.
    pub(crate) fn push(&mut self, event: Event)
        ensures { Adds self.old self.new (event ∷ []) }
    {
        if self.events.push(event).is_err() {
            self.failed = true;
        }
    }

    /// Adds the beginning of a region.
    pub(crate) fn open_region(&mut self)
        ensures { Adds self.old self.new (e.RegionOpens ∷ []) }
    {
        self.push(Event::RegionOpens);
    }

    /// Adds the end of the innermost open region.
    pub(crate) fn close_region(&mut self)
        ensures { Adds self.old self.new (e.RegionCloses ∷ []) }
    {
        self.push(Event::RegionCloses);
    }

    /// Adds the end of the declarations of the innermost open region.
    pub(crate) fn end_declarations(&mut self)
        ensures { Adds self.old self.new (e.DeclarationsEnd ∷ []) }
    {
        self.push(Event::DeclarationsEnd);
    }

    /// Adds an event, if there was memory for it.
    fn push_made(&mut self, made: Result<Event, AllocError>)
        ensures { AddsMade made self.old self.new }
    {
        match made {
            Ok(event) => self.push(event),
            Err(_) => self.failed = true,
        }
    }

    /// Adds an identifier that is declared.
    pub(crate) fn declare(&mut self, form: DeclarationForm, id: &Identifier)
        ensures { Adds self.old self.new (declares form id.now ∷ []) }
    {
        self.push_made(declaring(self.alloc, form, id));
    }

    /// Adds a dotted name that is used.
    pub(crate) fn mention(&mut self, clause: Clause, dotted: &Dotted)
        ensures { Adds self.old self.new (mention clause dotted.now ∷ []) }
    {
        self.push_made(mentioning(self.alloc, clause, dotted));
    }

    /// Adds a name in an expression or statement that is used.
    pub(crate) fn mention_name(&mut self, first: &Identifier, suffixes: &[Suffix])
        ensures { Adds self.old self.new (e.Mentions clause.Elsewhere (named first.now (leading suffixes.now)) ∷ []) }
    {
        self.push_made(mentioning_name(self.alloc, first, suffixes));
    }

    /// Adds a name in a `with`.
    pub(crate) fn have_with(&mut self, dotted: &Dotted)
        ensures { Adds self.old self.new (has_with dotted.now ∷ []) }
    {
        self.push_made(having_with(self.alloc, dotted));
    }

    /// Adds a component that is declared.
    pub(crate) fn declare_component(&mut self, id: &Identifier)
        ensures { Adds self.old self.new (e.DeclaresComponent (folded_identifier id.now) ∷ []) }
    {
        self.push_made(declaring_component(self.alloc, id));
    }

    /// Adds the beginning of a package body.
    pub(crate) fn open_body(&mut self, id: &Identifier)
        ensures { Adds self.old self.new (e.PackageBodyOpens (folded_identifier id.now) ∷ []) }
    {
        self.push_made(opening_body(self.alloc, id));
    }

    /// Adds the name after `end`, where there is one.
    pub(crate) fn end_with_name(&mut self, of: &Identifier, closing: &Option<Identifier>)
        ensures { Adds self.old self.new (closing_events of.now closing.now) }
    {
        if let Some(id) = closing {
            self.push_made(ending(self.alloc, of, id));
        }
    }

    /// Adds the beginning of a unit that is the body of this package.
    pub(crate) fn begin_body(&mut self, id: &Identifier)
        ensures { Adds self.old self.new (e.UnitBegins (Some (folded id.now)) ∷ []) }
    {
        self.push_made(beginning_body(self.alloc, id));
    }

    /// The events, or that memory was out.
    pub fn finish(self) -> Result<Listed<Event>, AllocError>
        ensures { IfOk result (λ events. (self.failed ≡ false) × (events ≡ self.events)) }
    {
        let EventList { events, failed, .. } = self;
        if failed {
            return Err(AllocError);
        }
        Ok(events)
    }
}
