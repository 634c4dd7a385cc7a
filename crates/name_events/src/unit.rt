//! What units do with names.
#![tactic(auto, using(std::proofs::lemmas::Grind::common_steps), unfolding(crate::specs::Outline::body_part_events, crate::specs::Outline::with_events, crate::specs::Outline::context_events, crate::specs::Outline::unit_events, crate::specs::ExpressionOutline::next_dotted_name))]

ghost use Rattle.std.specs.Prelude.{◌≡◌, ◌∷◌, [], ◌++◌, map, Option, None, Some};
ghost use Rattle.std.specs.List.{flat_map};
ghost use Rattle.name_events.specs.Collected.{Adds};
ghost use Rattle.name_events.specs.ExpressionOutline.{each_of, folded, next_dotted_name};
ghost use Rattle.name_events.specs.Outline.{body_part_events, context_events, has_with, package_body_events, package_events, private_events, unit_events, with_events};

use crate::declaration::DeclarationForm;
use crate::event::{Clause, Event};
use crate::event_list::EventList;
use crate::item::{mention_next, use_clause};
use crate::subprogram::{decl, decls, subprogram};
use ada_tree::{BodyPart, Context, NextDotted, Package, PackageBody, PrivatePart, SourceUnit};

/// decl | subbody
fn body_part(events: &mut EventList, tree: &BodyPart)
    ensures { Adds events.old events.new (body_part_events tree.now) }
{
    match tree {
        BodyPart::Declared { decl: part, .. } => decl(events, part.get()),
        BodyPart::Completed { body, .. } => subprogram(events, body.get()),
    }
}

/// {decl | subbody}
fn body_parts(events: &mut EventList, trees: &[BodyPart])
    ensures { Adds events.old events.new (flat_map body_part_events trees.now) }
{
    'turns: for tree in trees {
        body_part(events, tree);
    }
}

/// [`private` {decl}]
fn private_part(events: &mut EventList, tree: &Option<PrivatePart>)
    ensures { Adds events.old events.new (each_of private_events tree.now) }
{
    if let Some(part) = tree {
        events.push(Event::PrivatePartBegins);
        decls(events, part.decls.as_slice());
    }
}

/// package
fn package(events: &mut EventList, tree: &Package)
    ensures { Adds events.old events.new (package_events tree.now) }
{
    events.declare(DeclarationForm::Package, &tree.name);
    events.end_declarations();
    events.open_region();
    decls(events, tree.visible.as_slice());
    private_part(events, &tree.private);
    events.close_region();
    events.end_with_name(&tree.name, &tree.closing);
}

/// packbody
fn package_body(events: &mut EventList, tree: &PackageBody)
    ensures { Adds events.old events.new (package_body_events tree.now) }
{
    events.open_body(&tree.name);
    body_parts(events, tree.parts.as_slice());
    events.close_region();
    events.end_with_name(&tree.name, &tree.closing);
}

/// {`,` dotted}, of a `with`
fn have_next_with(events: &mut EventList, rest: &[NextDotted])
    ensures { Adds events.old events.new (map has_with (map next_dotted_name rest.now)) }
{
    'turns: for next in rest {
        let NextDotted::FurtherDotted { name, .. } = next;
        events.have_with(name);
    }
}

/// What the clauses of a context say of the whole unit.
fn withs(events: &mut EventList, trees: &[Context])
    ensures { Adds events.old events.new (flat_map with_events trees.now) }
{
    'turns: for tree in trees {
        if let Context::With { first, rest, .. } = tree {
            events.have_with(first);
            have_next_with(events, rest.as_slice());
        }
    }
}

/// context
fn context(events: &mut EventList, tree: &Context)
    ensures { Adds events.old events.new (context_events tree.now) }
{
    match tree {
        Context::With { first, rest, .. } => {
            events.mention(Clause::With, first);
            mention_next(events, Clause::With, rest.as_slice());
        }
        Context::Use { clause, .. } => use_clause(events, clause),
        Context::Pragma { .. } => {}
    }
}

/// {context}
fn contexts(events: &mut EventList, trees: &[Context])
    ensures { Adds events.old events.new (flat_map context_events trees.now) }
{
    'turns: for tree in trees {
        context(events, tree);
    }
}

/// unit
fn unit(events: &mut EventList, tree: &SourceUnit)
    ensures { Adds events.old events.new (unit_events tree.now) }
{
    match tree {
        SourceUnit::OfPackage {
            context,
            package: whole,
            ..
        } => {
            events.push(Event::UnitBegins { body_of: None });
            withs(events, context.as_slice());
            contexts(events, context.as_slice());
            package(events, whole.get());
        }
        SourceUnit::OfBody { context, body, .. } => {
            events.begin_body(&body.get().name);
            withs(events, context.as_slice());
            contexts(events, context.as_slice());
            package_body(events, body.get());
        }
        SourceUnit::OfSubprogram { context, body, .. } => {
            events.push(Event::UnitBegins { body_of: None });
            withs(events, context.as_slice());
            contexts(events, context.as_slice());
            subprogram(events, body.get());
        }
    }
}

impl EventList {
    /// Adds what the units of a file do with names.
    pub fn add_file(&mut self, units: &[SourceUnit])
        ensures { Adds self.old self.new (flat_map unit_events units.now) }
    {
        'turns: for tree in units {
            unit(self, tree);
        }
    }
}
