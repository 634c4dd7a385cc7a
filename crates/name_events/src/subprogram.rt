//! What subprograms and the declarations of packages do with names.
#![tactic(auto, using(std::proofs::lemmas::Grind::common_steps), unfolding(crate::specs::Outline::formal_events, crate::specs::Outline::next_formal_events, crate::specs::Outline::subspec_events, crate::specs::Outline::body_form, crate::specs::Outline::subspec_name, crate::specs::Outline::subprogram_events, crate::specs::Outline::decl_events))]

ghost use Rattle.std.specs.Prelude.{◌≡◌, ◌∷◌, [], ◌++◌};
ghost use Rattle.std.specs.List.{flat_map};
ghost use Rattle.name_events.specs.Collected.{Adds};
ghost use Rattle.name_events.specs.ExpressionOutline.{each_of};
ghost use Rattle.name_events.specs.Outline.{body_form, decl_events, formal_events, formals_events, next_formal_events, subprogram_events, subspec_events, subspec_name};

use crate::declaration::DeclarationForm;
use crate::event::{Clause, Event};
use crate::event_list::EventList;
use crate::item::{declare_all, indication, item, items};
use crate::statement::stmts;
use ada_tree::{Decl, Formal, Formals, Identifier, NextFormal, SubprogramBody, Subspec};
use spark_base::Boxed;

/// formal
fn formal(events: &mut EventList, tree: &Formal)
    ensures { Adds events.old events.new (formal_events tree.now) }
{
    match tree {
        Formal::Moded {
            first,
            rest,
            mark,
            ..
        } => {
            declare_all(events, DeclarationForm::Formal, first, rest.as_slice());
            events.mention(Clause::Elsewhere, mark);
            events.end_declarations();
        }
        Formal::Anonymous {
            first,
            rest,
            designated,
            ..
        } => {
            declare_all(events, DeclarationForm::Formal, first, rest.as_slice());
            events.mention(Clause::Elsewhere, designated);
            events.end_declarations();
        }
    }
}

/// {`;` formal}
fn next_formals(events: &mut EventList, trees: &[NextFormal])
    ensures { Adds events.old events.new (flat_map next_formal_events trees.now) }
{
    'turns: for tree in trees {
        let NextFormal::Semicolon { formal: part, .. } = tree;
        formal(events, part.get());
    }
}

/// [formals]
fn formals(events: &mut EventList, tree: &Option<Boxed<Formals>>)
    ensures { Adds events.old events.new (each_of formals_events tree.now) }
{
    if let Some(part) = tree {
        formal(events, part.get().first.get());
        next_formals(events, part.get().rest.as_slice());
    }
}

/// subspec, of a declaration of this form
fn subspec(events: &mut EventList, form: DeclarationForm, tree: &Subspec)
    ensures { Adds events.old events.new (subspec_events form tree.now) }
{
    match tree {
        Subspec::Procedure {
            name,
            formals: part,
            ..
        } => {
            events.declare(form, name);
            events.open_region();
            formals(events, part);
            events.push(Event::OuterDeclarationsEnd);
        }
        Subspec::Function {
            name,
            formals: part,
            result,
            ..
        } => {
            events.declare(form, name);
            events.open_region();
            formals(events, part);
            indication(events, result);
            events.push(Event::OuterDeclarationsEnd);
        }
    }
}

fn form_of_body(tree: &Subspec) -> DeclarationForm
    ensures { result ≡ body_form tree.now }
{
    match tree {
        Subspec::Procedure { .. } => DeclarationForm::ProcedureBody,
        Subspec::Function { .. } => DeclarationForm::FunctionBody,
    }
}

fn name_of(tree: &Subspec) -> &Identifier
    ensures { result.now ≡ subspec_name tree.now }
{
    match tree {
        Subspec::Procedure { name, .. } | Subspec::Function { name, .. } => name,
    }
}

/// subbody
pub fn subprogram(events: &mut EventList, tree: &SubprogramBody)
    ensures { Adds events.old events.new (subprogram_events tree.now) }
{
    let spec = tree.spec.get();
    subspec(events, form_of_body(spec), spec);
    items(events, tree.items.as_slice());
    stmts(events, tree.stmts.get());
    events.close_region();
    events.end_with_name(name_of(spec), &tree.closing);
}

/// decl
pub fn decl(events: &mut EventList, tree: &Decl)
    ensures { Adds events.old events.new (decl_events tree.now) }
{
    match tree {
        Decl::OfItem { item: part, .. } => item(events, part.get()),
        Decl::Subprogram { spec, .. } => {
            subspec(events, DeclarationForm::SubprogramDeclaration, spec.get());
            events.close_region();
        }
    }
}

/// {decl}
pub fn decls(events: &mut EventList, trees: &[Decl])
    ensures { Adds events.old events.new (flat_map decl_events trees.now) }
{
    'turns: for tree in trees {
        decl(events, tree);
    }
}
