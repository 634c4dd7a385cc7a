//! The rules of names, each where a text may break it.
ghost use Rattle.std.specs.Prelude.{◌≡◌, [], ◌∷◌, ◌++◌, ◌&&◌, not, OnOk, Some, IfErr, IsOk, is_some, List, length, map};
ghost use Rattle.std.specs.List.{flat_map};
ghost use Rattle.name_events.specs.declared.event.Clause.TheVariants as clause;
ghost use Rattle.name_events.specs.declared.declaration.Meaning.TheVariants.{Breaks, Denotes};
ghost use Rattle.name_events.specs.Declarations.{declared_in, has_name};
ghost use Rattle.name_events.specs.Known.{Known, here, source_package};
ghost use Rattle.name_events.specs.Denotes.{meaning_along, mentioned_at, number_denoted, occurrences, occurrences_from, whole_meaning};
ghost use Rattle.name_events.specs.Identified.{identified_as, identified_at, identified_body, identified_use, number_declared};
ghost use Rattle.name_events.specs.Faults.{body_fault, closing_fault, component_fault, declaration_fault, fault, first_some, is_incomplete, is_second, is_second_body, is_second_unit, is_unknown, may_stand, mention_fault, names_subprogram, occurrence_fault};
ghost use Rattle.name_resolve.specs.declared.refusal.NameRefusal.TheVariants.{Memory};
ghost use Rattle.name_resolve.specs.Judges.{Judges};
ghost use Rattle.name_resolve.specs.Stands.{EachKnown, Stands};

use crate::form::{awaits, both, either, is_body, is_generic, is_package, is_type};
use crate::found::Found;
use crate::knowledge::Knowledge;
use crate::refusal::{NameRefusal, refused};
use ada_tree::Word;
use name_events::{
    Clause, Declaration, DeclarationForm, Event, FoldedIdentifier, FoldedName, Meaning, NameRule,
};

/// The occurrences from an identifier on, whose meaning is known: N1, N3 and N4.
#[cycle(following)]
fn follow(
    now: &Knowledge,
    whole: &Knowledge,
    id: &FoldedIdentifier,
    meaning: Meaning,
    rest: &[FoldedIdentifier],
    found: &mut Found,
) -> Result<(), NameRefusal>
    ensures fault { EachKnown whole.now now.now (λ behind n. Judges result
        (first_some (occurrence_fault n) (occurrences_from behind n id.now meaning rest.now))) }
    ensures denotes { OnOk result (EachKnown whole.now now.now (λ behind n. found.new.denotes.items
        ≡ found.old.denotes.items ++ flat_map number_denoted (occurrences_from behind n id.now meaning rest.now))) }
    ensures identified { OnOk result (EachKnown whole.now now.now (λ behind n. found.new.identified.items
        ≡ found.old.identified.items ++ flat_map identified_use (occurrences_from behind n id.now meaning rest.now))) }
{
    match meaning {
        Meaning::Breaks(rule) => Err(refused(rule, id.pos)),
        Meaning::Denotes(declaration) => { Ok(go_on(now, whole, id, declaration, rest, found)?) }
    }
}

/// The occurrences from an identifier on that denotes this declaration.
#[cycle(following)]
fn go_on(
    now: &Knowledge,
    whole: &Knowledge,
    id: &FoldedIdentifier,
    declaration: Declaration,
    rest: &[FoldedIdentifier],
    found: &mut Found,
) -> Result<(), NameRefusal>
    ensures fault { EachKnown whole.now now.now (λ behind n. Judges result
        (first_some (occurrence_fault n) (occurrences_from behind n id.now (Denotes declaration) rest.now))) }
    ensures denotes { OnOk result (EachKnown whole.now now.now (λ behind n. found.new.denotes.items
        ≡ found.old.denotes.items ++ flat_map number_denoted (occurrences_from behind n id.now (Denotes declaration) rest.now))) }
    ensures identified { OnOk result (EachKnown whole.now now.now (λ behind n. found.new.identified.items
        ≡ found.old.identified.items ++ flat_map identified_use (occurrences_from behind n id.now (Denotes declaration) rest.now))) }
{
    if now.lacks_with(declaration) {
        return Err(NameRefusal::NotVisible(id.pos));
    }
    found.denote(id.pos, declaration.number)?;
    match rest.split_first() {
        None => Ok(()),
        Some((next, behind)) => {
            if !is_package(declaration) {
                return Ok(());
            }
            let meaning = now.selected_meaning(whole, declaration, &next.name);
            Ok(follow(now, whole, next, meaning, behind, found)?)
        }
    }
}

/// What a name denotes as a whole, by the meaning of its front.
fn meaning_along(
    now: &Knowledge,
    whole: &Knowledge,
    meaning: Meaning,
    rest: &[FoldedIdentifier],
) -> Meaning
    ensures { EachKnown whole.now now.now (λ behind n. result ≡ meaning_along behind n meaning rest.now) }
{
    match meaning {
        Meaning::Breaks(rule) => Meaning::Breaks(rule),
        Meaning::Denotes(declaration) => match rest.split_first() {
            None => Meaning::Denotes(declaration),
            Some((next, behind)) => {
                if is_package(declaration) {
                    let inner = now.selected_meaning(whole, declaration, &next.name);
                    meaning_along(now, whole, inner, behind)
                } else {
                    Meaning::Breaks(NameRule::Unknown)
                }
            }
        },
    }
}

/// Whether a name that breaks this rule has a fault of its own in a clause.
fn is_known(rule: NameRule) -> bool
    ensures { result ≡ not (is_unknown rule) }
{
    match rule {
        NameRule::Unknown => false,
        _ => true,
    }
}

/// Whether the name of a declaration may stand in the clause.
fn may_denote(clause: Clause, declaration: Declaration) -> bool
    ensures { result ≡ may_stand clause (Denotes declaration) }
{
    match clause {
        Clause::Elsewhere => true,
        Clause::With => is_package(declaration) || is_generic(declaration.form),
        Clause::Use => is_package(declaration),
        Clause::UseType => is_type(declaration.form),
    }
}

/// Whether a name that breaks a rule has a fault of its own in the clause.
fn may_break(clause: Clause, rule: NameRule) -> bool
    ensures { result ≡ may_stand clause (Breaks rule) }
{
    match clause {
        Clause::Elsewhere => true,
        Clause::With => is_known(rule),
        Clause::Use => is_known(rule),
        Clause::UseType => is_known(rule),
    }
}

/// Whether a name of this meaning may stand in the clause.
fn may_stand(clause: Clause, meaning: Meaning) -> bool
    ensures { result ≡ may_stand clause meaning }
{
    match meaning {
        Meaning::Breaks(rule) => may_break(clause, rule),
        Meaning::Denotes(declaration) => may_denote(clause, declaration),
    }
}

/// A name that is used: N1, N3 and N4.
fn mention(
    now: &Knowledge,
    whole: &Knowledge,
    clause: Clause,
    name: &FoldedName,
    found: &mut Found,
) -> Result<(), NameRefusal>
    ensures fault { EachKnown whole.now now.now (λ behind n. Judges result (mention_fault behind n clause name.now)) }
    ensures denotes { OnOk result (EachKnown whole.now now.now (λ behind n. found.new.denotes.items
        ≡ found.old.denotes.items ++ flat_map number_denoted (occurrences behind n name.now))) }
    ensures identified { OnOk result (EachKnown whole.now now.now (λ behind n. found.new.identified.items
        ≡ found.old.identified.items ++ flat_map identified_use (occurrences behind n name.now))) }
{
    let meaning = now.meaning(whole, &name.first.name);
    let along = meaning_along(now, whole, meaning, name.rest.as_slice());
    if !may_stand(clause, along) {
        return Err(NameRefusal::Unknown(name.first.pos));
    }
    Ok(follow(
        now,
        whole,
        &name.first,
        meaning,
        name.rest.as_slice(),
        found,
    )?)
}

/// Whether the region has a declaration of that name.
fn is_declared_here(now: &Knowledge, word: &Word) -> bool
    ensures { (n : Known) → Stands now.now n → result ≡ is_some (declared_in n.declared (here n) word.now) }
{
    let region = now.regions.here().region;
    now.declarations.declared_in(region, word).is_some()
}

/// Whether a library unit is a second one, or a function.
fn is_second_unit(now: &Knowledge, form: DeclarationForm, word: &Word) -> bool
    ensures { (n : Known) → Stands now.now n → result ≡ is_second_unit n form word.now }
{
    match form {
        DeclarationForm::FunctionBody => true,
        DeclarationForm::ProcedureBody => either(
            now.body_names.contains(word),
            now.declarations.has_procedure,
        ),
        _ => false,
    }
}

/// Whether a declaration is a second one, which completes none.
pub fn is_second(now: &Knowledge, form: DeclarationForm, word: &Word) -> bool
    ensures { (n : Known) → Stands now.now n → result ≡ is_second n form word.now }
{
    if now.completed_by(form, word).is_some() {
        return false;
    }
    let in_library = 0 == now.regions.here().region;
    let is_second_unit = both(in_library, is_second_unit(now, form, word));
    either(is_declared_here(now, word), is_second_unit)
}

/// Whether nothing completes a declaration that asks for it.
fn is_incomplete(now: &Knowledge, whole: &Knowledge, form: DeclarationForm) -> bool
    ensures { EachKnown whole.now now.now (λ behind n. result ≡ is_incomplete behind n form) }
{
    let number = now.declarations.all.len();
    awaits(form) && !whole.declarations.is_completed(number)
}

/// An identifier that is declared: N2 and N5.
fn declaration(
    now: &Knowledge,
    whole: &Knowledge,
    form: DeclarationForm,
    id: &FoldedIdentifier,
) -> Result<(), NameRefusal>
    ensures { EachKnown whole.now now.now (λ behind n. Judges result (declaration_fault behind n form id.now)) }
{
    if is_second(now, form, &id.name) {
        return Err(NameRefusal::Twice(id.pos));
    }
    if is_incomplete(now, whole, form) {
        return Err(NameRefusal::NoBody(id.pos));
    }
    Ok(())
}

/// An identifier that is declared, with the number of its declaration.
fn declare(
    now: &Knowledge,
    whole: &Knowledge,
    form: DeclarationForm,
    id: &FoldedIdentifier,
    found: &mut Found,
) -> Result<(), NameRefusal>
    ensures fault { EachKnown whole.now now.now (λ behind n. Judges result (declaration_fault behind n form id.now)) }
    ensures denotes { found.new.denotes.items ≡ found.old.denotes.items }
    ensures identified { OnOk result (EachKnown whole.now now.now (λ behind n. found.new.identified.items
        ≡ found.old.identified.items ++ identified_as id.now (number_declared n form id.now.name) ∷ [])) }
{
    declaration(now, whole, form, id)?;
    let number = now.number_declared(form, &id.name);
    found.identify(id.pos, number)?;
    Ok(())
}

/// Whether it is a subprogram with its body.
fn names_subprogram(found: Option<Declaration>) -> bool
    ensures { result ≡ names_subprogram found }
{
    match found {
        None => false,
        Some(declaration) => is_body(declaration.form),
    }
}

/// Whether a package body is a second one, or has the name of a library subprogram.
fn is_second_body(now: &Knowledge, word: &Word) -> bool
    ensures { (n : Known) → Stands now.now n → result ≡ is_second_body n word.now }
{
    let found = now.declarations.declared_in(0, word);
    either(now.body_names.contains(word), names_subprogram(found))
}

/// A package body: N2, N4 and N5.
fn package_body(
    now: &Knowledge,
    whole: &Knowledge,
    id: &FoldedIdentifier,
) -> Result<(), NameRefusal>
    ensures { EachKnown whole.now now.now (λ behind n. Judges result (body_fault behind n id.now)) }
{
    if is_second_body(now, &id.name) {
        return Err(NameRefusal::Twice(id.pos));
    }
    if now.source_package(id).is_some() {
        return Ok(());
    }
    if whole.later_package(id).is_some() {
        return Err(NameRefusal::TooEarly(id.pos));
    }
    Err(NameRefusal::NoBody(id.pos))
}

/// The identifier of a package body has this package, or none.
fn identify_package(
    id: &FoldedIdentifier,
    spec: Option<Declaration>,
    found: &mut Found,
) -> Result<(), NameRefusal>
    ensures denotes { found.new.denotes.items ≡ found.old.denotes.items }
    ensures identified { OnOk result (found.new.identified.items ≡ found.old.identified.items ++ identified_body id.now spec) }
    ensures memory { IfErr result (λ refusal. refusal ≡ Memory) }
{
    match spec {
        None => Ok(()),
        Some(declaration) => Ok(found.identify(id.pos, declaration.number)?),
    }
}

/// A package body, whose identifier has the package that goes on.
fn continue_package(
    now: &Knowledge,
    whole: &Knowledge,
    id: &FoldedIdentifier,
    found: &mut Found,
) -> Result<(), NameRefusal>
    ensures fault { EachKnown whole.now now.now (λ behind n. Judges result (body_fault behind n id.now)) }
    ensures denotes { found.new.denotes.items ≡ found.old.denotes.items }
    ensures identified { OnOk result (EachKnown whole.now now.now (λ behind n. found.new.identified.items
        ≡ found.old.identified.items ++ identified_body id.now (source_package n.ended id.now.name))) }
{
    package_body(now, whole, id)?;
    identify_package(id, now.source_package(id), found)?;
    Ok(())
}

/// A component: N2.
fn component(now: &Knowledge, id: &FoldedIdentifier) -> Result<(), NameRefusal>
    ensures { (n : Known) → Stands now.now n → Judges result (component_fault n id.now) }
{
    if now.components.contains(&id.name) {
        return Err(NameRefusal::Twice(id.pos));
    }
    Ok(())
}

/// A name after `end`: N6.
fn closing(id: &FoldedIdentifier, expected: &Word) -> Result<(), NameRefusal>
    ensures { Judges result (closing_fault id.now expected.now) }
{
    if id.name != *expected {
        return Err(NameRefusal::WrongEnd(id.pos));
    }
    Ok(())
}

/// One event.
#[tactic(auto, unfolding(name_events::specs::Faults::fault, name_events::specs::Denotes::mentioned_at, name_events::specs::Identified::identified_at))]
pub fn visit(
    now: &Knowledge,
    whole: &Knowledge,
    event: &Event,
    found: &mut Found,
) -> Result<(), NameRefusal>
    ensures fault { EachKnown whole.now now.now (λ behind n. Judges result (fault behind n event.now)) }
    ensures denotes { OnOk result (EachKnown whole.now now.now (λ behind n. found.new.denotes.items
        ≡ found.old.denotes.items ++ flat_map (λ numbers. numbers) (mentioned_at behind n event.now))) }
    ensures identified { OnOk result (EachKnown whole.now now.now (λ behind n. found.new.identified.items
        ≡ found.old.identified.items ++ identified_at behind n event.now)) }
{
    match event {
        Event::Mentions { clause, name } => mention(now, whole, *clause, name, found),
        Event::Declares { form, identifier } => declare(now, whole, *form, identifier, found),
        Event::PackageBodyOpens { identifier } => continue_package(now, whole, identifier, found),
        Event::DeclaresComponent { identifier } => component(now, identifier),
        Event::EndsWithName {
            identifier,
            expected,
        } => closing(identifier, expected),
        Event::UnitBegins { .. }
        | Event::UnitHasWith { .. }
        | Event::UseClauseEnds
        | Event::DeclarationsEnd
        | Event::OuterDeclarationsEnd
        | Event::RegionOpens
        | Event::PrivatePartBegins
        | Event::RegionCloses
        | Event::RecordBegins => Ok(()),
    }
}
