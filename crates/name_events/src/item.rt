//! What items do with names.
#![tactic(auto, using(std::proofs::lemmas::Grind::common_steps), unfolding(crate::specs::Outline::indication_events, crate::specs::Outline::component_events, crate::specs::Outline::type_events, crate::specs::Outline::subtype_events, crate::specs::Outline::item_events, crate::specs::ExpressionOutline::next_name, crate::specs::ExpressionOutline::next_dotted_name))]

ghost use Rattle.std.specs.Prelude.{◌≡◌, ◌∷◌, [], ◌++◌, map};
ghost use Rattle.std.specs.List.{flat_map};
ghost use Rattle.name_events.specs.declared.event.Event.TheVariants as e;
ghost use Rattle.name_events.specs.Collected.{Adds};
ghost use Rattle.name_events.specs.ExpressionOutline.{declares, declares_all, folded_identifier, mention, mentions, next_dotted_name, next_name};
ghost use Rattle.name_events.specs.Outline.{component_events, indication_events, item_events, subtype_events, type_events, use_events};

use crate::declaration::DeclarationForm;
use crate::event::{Clause, Event};
use crate::event_list::EventList;
use crate::expression::{arg, expr, next_args};
use crate::range::range;
use ada_tree::{Component, Identifier, Indication, Item, NextDotted, NextIdentifier, UseClause};

/// {`,` id}
fn declare_next(events: &mut EventList, form: DeclarationForm, rest: &[NextIdentifier])
    ensures { Adds events.old events.new (map (declares form) (map next_name rest.now)) }
{
    'turns: for next in rest {
        let NextIdentifier::FurtherIdentifier { name, .. } = next;
        events.declare(form, name);
    }
}

/// id {`,` id}
pub fn declare_all(
    events: &mut EventList,
    form: DeclarationForm,
    first: &Identifier,
    rest: &[NextIdentifier],
)
    ensures { Adds events.old events.new (declares_all form first.now rest.now) }
{
    events.declare(form, first);
    declare_next(events, form, rest);
}

/// mark | anon
pub fn indication(events: &mut EventList, tree: &Indication)
    ensures { Adds events.old events.new (indication_events tree.now) }
{
    match tree {
        Indication::Mark { mark, .. } => {
            events.mention(Clause::Elsewhere, mark);
        }
        Indication::Anonymous { designated, .. } => {
            events.mention(Clause::Elsewhere, designated);
        }
    }
}

/// {`,` dotted}
pub fn mention_next(events: &mut EventList, clause: Clause, rest: &[NextDotted])
    ensures { Adds events.old events.new (map (mention clause) (map next_dotted_name rest.now)) }
{
    'turns: for next in rest {
        let NextDotted::FurtherDotted { name, .. } = next;
        events.mention(clause, name);
    }
}

/// usecl
pub fn use_clause(events: &mut EventList, tree: &UseClause)
    ensures { Adds events.old events.new (use_events tree.now) }
{
    let clause = match tree.type_word {
        None => Clause::Use,
        Some(_) => Clause::UseType,
    };
    events.mention(clause, &tree.first);
    mention_next(events, clause, tree.rest.as_slice());
    events.push(Event::UseClauseEnds);
}

/// {`,` id}, as components
fn declare_next_components(events: &mut EventList, rest: &[NextIdentifier])
    ensures { Adds events.old events.new (map (λ id. e.DeclaresComponent (folded_identifier id)) (map next_name rest.now)) }
{
    'turns: for next in rest {
        let NextIdentifier::FurtherIdentifier { name, .. } = next;
        events.declare_component(name);
    }
}

/// comp
fn component(events: &mut EventList, tree: &Component)
    ensures { Adds events.old events.new (component_events tree.now) }
{
    let Component::Fields {
        first,
        rest,
        mark,
        ..
    } = tree;
    events.declare_component(first);
    declare_next_components(events, rest.as_slice());
    events.mention(Clause::Elsewhere, mark);
}

/// {comp}
fn components(events: &mut EventList, trees: &[Component])
    ensures { Adds events.old events.new (flat_map component_events trees.now) }
{
    'turns: for tree in trees {
        component(events, tree);
    }
}

/// subtype
fn subtype_item(events: &mut EventList, tree: &Item)
    ensures { Adds events.old events.new (subtype_events tree.now) }
{
    match tree {
        Item::Subtype { name, mark, .. } => {
            events.declare(DeclarationForm::Subtype, name);
            events.mention(Clause::Elsewhere, mark);
            events.end_declarations();
        }
        Item::ConstrainedSubtype {
            name,
            mark,
            low,
            high,
            ..
        } => {
            events.declare(DeclarationForm::Subtype, name);
            events.mention(Clause::Elsewhere, mark);
            expr(events, low.get());
            expr(events, high.get());
            events.end_declarations();
        }
        _ => {}
    }
}

/// type
fn type_item(events: &mut EventList, tree: &Item)
    ensures { Adds events.old events.new (type_events tree.now) }
{
    match tree {
        Item::IncompleteType { name, .. } => {
            events.declare(DeclarationForm::IncompleteType, name);
            events.end_declarations();
        }
        Item::PrivateType { name, .. } => {
            events.declare(DeclarationForm::PrivateType, name);
            events.end_declarations();
        }
        Item::EnumerationType {
            name,
            first,
            rest,
            ..
        } => {
            events.declare(DeclarationForm::FullType, name);
            declare_all(events, DeclarationForm::Literal, first, rest.as_slice());
            events.end_declarations();
        }
        Item::RecordType {
            name,
            first,
            rest,
            ..
        } => {
            events.declare(DeclarationForm::FullType, name);
            events.push(Event::RecordBegins);
            component(events, first);
            components(events, rest.as_slice());
            events.end_declarations();
        }
        Item::ArrayType {
            name,
            range: index,
            element,
            ..
        } => {
            events.declare(DeclarationForm::FullType, name);
            range(events, index);
            events.mention(Clause::Elsewhere, element);
            events.end_declarations();
        }
        Item::AccessType {
            name,
            designated,
            ..
        } => {
            events.declare(DeclarationForm::FullType, name);
            events.mention(Clause::Elsewhere, designated);
            events.end_declarations();
        }
        _ => subtype_item(events, tree),
    }
}

/// item
pub fn item(events: &mut EventList, tree: &Item)
    ensures { Adds events.old events.new (item_events tree.now) }
{
    match tree {
        Item::Objects {
            first,
            rest,
            indication: of,
            ..
        } => {
            declare_all(events, DeclarationForm::Object, first, rest.as_slice());
            indication(events, of);
            events.end_declarations();
        }
        Item::InitializedObjects {
            first,
            rest,
            indication: of,
            value,
            ..
        } => {
            declare_all(events, DeclarationForm::Object, first, rest.as_slice());
            indication(events, of);
            expr(events, value.get());
            events.end_declarations();
        }
        Item::Numbers {
            first,
            rest,
            value,
            ..
        } => {
            declare_all(events, DeclarationForm::Object, first, rest.as_slice());
            expr(events, value.get());
            events.end_declarations();
        }
        Item::Instance {
            name,
            generic,
            first,
            rest,
            ..
        } => {
            events.declare(DeclarationForm::Instance, name);
            events.mention(Clause::Elsewhere, generic);
            arg(events, first.get());
            next_args(events, rest.as_slice());
            events.end_declarations();
        }
        Item::Use { clause, .. } => {
            use_clause(events, clause);
        }
        Item::Pragma { .. } => {}
        _ => type_item(events, tree),
    }
}

/// {item}
pub fn items(events: &mut EventList, trees: &[Item])
    ensures { Adds events.old events.new (flat_map item_events trees.now) }
{
    'turns: for tree in trees {
        item(events, tree);
    }
}
