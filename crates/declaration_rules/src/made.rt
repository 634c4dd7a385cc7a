//! The types that declarations make, and which of these break no sentence.
ghost use Rattle.std.specs.Prelude.{◌≡◌, ◌<◌, ◌++◌, length, OnOk};
ghost use Rattle.resolved_tree.specs.Nodes.{code_at, tree_at};
ghost use Rattle.type_definitions.specs.Types.{is_nil};
ghost use Rattle.type_definitions.specs.Declarations.{renamed_faults, subtype_faults, type_faults};
ghost use Rattle.type_definitions.specs.Gathered.{in_hidden, in_visible};
ghost use Rattle.type_definitions.specs.Whole.{made, made_type};
ghost use Rattle.expression_rules.specs.Around.{context};
ghost use Rattle.declaration_rules.specs.Making.{made_by};

use crate::declared::{declared_number, declared_pos};
use crate::places::{in_hidden, in_visible};
use crate::types::{renamed_faults, subtype_faults, type_faults};
use expression_rules::Checker;
use expression_types::Reader;
use resolved_tree::{CodeNode, Mark};
use spark_base::Listed;
use statement_rules::is_nothing;
use std::alloc::AllocError;
use type_definitions::Made;

/// The type that the declaration of this identifier makes.
fn made_by(reader: &Reader<'_>, name: usize, full: bool, sound: bool) -> Made
    requires { name < length reader.now.rows.now.1 }
    ensures { result ≡ made_by (code_at reader.now.rows.now name) full sound }
{
    Made {
        number: declared_number(reader, name),
        pos: declared_pos(reader, name),
        full,
        sound,
    }
}

/// Whether the declaration of a type breaks no sentence.
#[tactic(auto, using(statement_rules::proofs::Steps::none_noted))]
fn is_sound_type(checker: &Checker<'_>, name: usize, definition: usize) -> bool
    requires name { name < length checker.now.rows.now.1 }
    requires definition { definition < length checker.now.rows.now.1 }
    ensures { result ≡ is_nil (type_faults (context checker.now) (code_at checker.now.rows.now name) (code_at checker.now.rows.now definition)) }
{
    is_nothing(type_faults(checker, None, name, definition))
}

/// Whether the declaration of a subtype without a constraint breaks none.
#[tactic(auto, using(statement_rules::proofs::Steps::none_noted))]
fn is_sound_name(checker: &Checker<'_>, mark: Mark) -> bool
    ensures { result ≡ is_nil (renamed_faults (context checker.now) mark) }
{
    is_nothing(renamed_faults(checker, None, mark))
}

/// Whether the declaration of a subtype with bounds of its own breaks none.
#[tactic(auto, using(statement_rules::proofs::Steps::none_noted))]
fn is_sound_range(checker: &Checker<'_>, mark: Mark, low: usize, high: usize) -> bool
    requires low { low < length checker.now.rows.now.0 }
    requires high { high < length checker.now.rows.now.0 }
    ensures { result ≡ is_nil (subtype_faults (context checker.now) mark (tree_at checker.now.rows.now low) (tree_at checker.now.rows.now high)) }
{
    is_nothing(subtype_faults(checker, None, mark, low, high))
}

/// Adds the type that a declaration makes, where it makes one.
fn add_type(types: &mut Listed<Made>, checker: &Checker<'_>, code: usize) -> Result<(), AllocError>
    requires { code < length checker.now.rows.now.1 }
    ensures { OnOk result (types.new ≡ types.old ++ made_type (context checker.now) (code_at checker.now.rows.now code)) }
{
    let reader = checker.reader();
    match checker.rows.code(code) {
        CodeNode::TypeDecl {
            name,
            definition,
            ..
        } => {
            let sound = is_sound_type(checker, *name, *definition);
            types.push(made_by(&reader, *name, true, sound))?;
            Ok(())
        }
        CodeNode::Subtype { name, mark } => {
            let sound = is_sound_name(checker, *mark);
            types.push(made_by(&reader, *name, false, sound))?;
            Ok(())
        }
        CodeNode::ConstrainedSubtype {
            name,
            mark,
            low,
            high,
        } => {
            let sound = is_sound_range(checker, *mark, *low, *high);
            types.push(made_by(&reader, *name, false, sound))?;
            Ok(())
        }
        _ => Ok(()),
    }
}

/// Adds those that both make.
#[cycle(making)]
#[tactic(auto, using(std::proofs::lemmas::Grind::common_steps))]
fn add_both(
    types: &mut Listed<Made>,
    checker: &Checker<'_>,
    first: usize,
    second: usize,
) -> Result<(), AllocError>
    requires first { first < length checker.now.rows.now.1 }
    requires second { second < length checker.now.rows.now.1 }
    ensures { OnOk result (types.new ≡ types.old ++ (made (context checker.now) (code_at checker.now.rows.now first)
        ++ made (context checker.now) (code_at checker.now.rows.now second))) }
{
    add_made(types, checker, first)?;
    add_made(types, checker, second)
}

/// Adds those that a package makes.
#[cycle(making)]
#[tactic(auto, using(std::proofs::lemmas::Grind::common_steps))]
fn add_package(
    types: &mut Listed<Made>,
    checker: &Checker<'_>,
    number: u32,
    visible: usize,
    hidden: usize,
) -> Result<(), AllocError>
    requires visible { visible < length checker.now.rows.now.1 }
    requires hidden { hidden < length checker.now.rows.now.1 }
    ensures { OnOk result (types.new ≡ types.old ++ (made (in_visible number (context checker.now)) (code_at checker.now.rows.now visible)
        ++ made (in_hidden number (context checker.now)) (code_at checker.now.rows.now hidden))) }
{
    add_made(types, &in_visible(checker, number), visible)?;
    add_made(types, &in_hidden(checker, number), hidden)
}

/// Adds those that a declaration, a statement, a branch, an alternative or a list makes.
#[cycle(making)]
#[tactic(auto, using(std::proofs::lemmas::Grind::common_steps), unfolding(type_definitions::specs::Whole::made))]
fn add_item(types: &mut Listed<Made>, checker: &Checker<'_>, code: usize) -> Result<(), AllocError>
    requires { code < length checker.now.rows.now.1 }
    ensures { OnOk result (types.new ≡ types.old ++ made (context checker.now) (code_at checker.now.rows.now code)) }
{
    match checker.rows.code(code) {
        CodeNode::SubBody { items, stmts, .. } => add_both(types, checker, *items, *stmts),
        CodeNode::Package {
            name,
            visible,
            hidden,
        } => {
            let package = declared_number(&checker.reader(), *name);
            add_package(types, checker, package, *visible, *hidden)
        }
        CodeNode::PackageBody { name, parts } => {
            let inner = in_hidden(checker, declared_number(&checker.reader(), *name));
            add_made(types, &inner, *parts)
        }
        CodeNode::If {
            branches,
            otherwise,
            ..
        } => add_both(types, checker, *branches, *otherwise),
        CodeNode::Branch { stmts, .. } => add_made(types, checker, *stmts),
        CodeNode::Case { alternatives, .. } => add_made(types, checker, *alternatives),
        CodeNode::When { stmts, .. } => add_made(types, checker, *stmts),
        CodeNode::Loop { stmts, .. } => add_made(types, checker, *stmts),
        CodeNode::While { stmts, .. } => add_made(types, checker, *stmts),
        CodeNode::For { stmts, .. } => add_made(types, checker, *stmts),
        CodeNode::Block { items, stmts, .. } => add_both(types, checker, *items, *stmts),
        CodeNode::More { first, rest } => add_both(types, checker, *first, *rest),
        _ => add_type(types, checker, code),
    }
}

/// Adds those that code makes, item by item where it is a list.
#[cycle(making)]
#[tactic(auto, using(std::proofs::lemmas::Grind::common_steps), unfolding(type_definitions::specs::Whole::made))]
pub fn add_made(
    types: &mut Listed<Made>,
    checker: &Checker<'_>,
    code: usize,
) -> Result<(), AllocError>
    requires { code < length checker.now.rows.now.1 }
    ensures { OnOk result (types.new ≡ types.old ++ made (context checker.now) (code_at checker.now.rows.now code)) }
{
    let mut i = code;
    'items: while let CodeNode::More { first, rest } = checker.rows.code(i) {
        add_item(types, checker, *first)?;
        i = *rest;
    }
    add_item(types, checker, i)
}
