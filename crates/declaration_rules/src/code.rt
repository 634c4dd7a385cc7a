//! The sentences on all code.
ghost use Rattle.std.specs.Prelude.{◌≡◌, ◌<◌, ◌++◌, ◌&&◌, length, IfOk};
ghost use Rattle.resolved_tree.specs.Nodes.{code_at, tree_at};
ghost use Rattle.resolved_tree.specs.Trees.{code_items};
ghost use Rattle.type_definitions.specs.Faults.{noted};
ghost use Rattle.type_definitions.specs.Expressions.{own_type};
ghost use Rattle.type_definitions.specs.Statements.{coverage, is_one_choice, type_or_integer};
ghost use Rattle.type_definitions.specs.Declarations.{alternative_faults, alternatives_faults, choices_faults, choices_of, code_faults, is_last, selector_faults};
ghost use Rattle.type_definitions.specs.Gathered.{declared_number, in_hidden, in_visible};
ghost use Rattle.expression_types.specs.Here.{here};
ghost use Rattle.expression_rules.specs.Around.{context};

use crate::declared::{declared_number, has_none};
use crate::places::{in_body, in_hidden, in_loop, in_visible};
use crate::plain::plain_faults;
use crate::profiles::body_faults;
use expression_rules::Checker;
use expression_types::{BOOLEAN, INTEGER, Reader};
use resolved_tree::CodeNode;
use spark_base::Pos;
use statement_rules::{choice_faults, coverage, range_faults, type_or_integer};
use std::alloc::{AllocError, Global};
use type_definitions::{Fault, Where};
use type_settled::demand;

/// Whether a list ends here.
fn is_last(reader: &Reader<'_>, list: usize) -> bool
    requires { list < length reader.now.rows.now.1 }
    ensures { result ≡ is_last (code_at reader.now.rows.now list) }
{
    matches!(reader.rows.code(list), CodeNode::NoMore)
}

/// Whether a list has one choice.
#[tactic(auto, using(crate::proofs::Lists::one_item))]
fn is_one_choice(reader: &Reader<'_>, choices: usize) -> bool
    requires { choices < length reader.now.rows.now.1 }
    ensures { result ≡ is_one_choice (code_items (code_at reader.now.rows.now choices)) }
{
    match reader.rows.code(choices) {
        CodeNode::More { rest, .. } => has_none(reader, *rest),
        _ => false,
    }
}

/// With the faults of the expression of a `case`.
#[tactic(auto, using(expression_rules::proofs::Noted::noted_append))]
fn selector_faults(checker: &Checker<'_>, found: Option<Fault>, selector: usize) -> Option<Fault>
    requires { selector < length checker.now.rows.now.0 }
    ensures { result ≡ noted found (selector_faults (context checker.now) (tree_at checker.now.rows.now selector)) }
{
    let reader = checker.reader();
    let is_scalar = reader.scalar_own(reader.own_type(selector));
    let found = demand(found, 1, reader.position(selector), is_scalar);
    checker.inside(found, false, INTEGER, selector)
}

/// With the faults of each of a list of choices.
#[tactic(auto, using(expression_rules::proofs::Noted::noted_append))]
fn choices_faults(
    checker: &Checker<'_>,
    found: Option<Fault>,
    of: u32,
    alone: bool,
    choices: usize,
) -> Option<Fault>
    requires { choices < length checker.now.rows.now.1 }
    ensures { result ≡ noted found (choices_faults (context checker.now) of alone (code_at checker.now.rows.now choices)) }
{
    let mut found = found;
    let mut i = choices;
    'choices: while let CodeNode::More { first, rest } = checker.rows.code(i) {
        found = choice_faults(checker, found, of, alone, *first);
        i = *rest;
    }
    found
}

/// With the faults of an alternative of a `case` whose expression is of this type. `last` says that
/// no alternative follows it.
#[cycle(code)]
#[tactic(auto, using(expression_rules::proofs::Noted::noted_append), unfolding(type_definitions::specs::Declarations::alternative_faults))]
fn alternative_faults(
    alloc: Global,
    checker: &Checker<'_>,
    found: Option<Fault>,
    of: u32,
    last: bool,
    alternative: usize,
) -> Result<Option<Fault>, AllocError>
    requires { alternative < length checker.now.rows.now.1 }
    ensures { IfOk result (λ first. first ≡ noted found (alternative_faults (context checker.now) of last (code_at checker.now.rows.now alternative))) }
{
    match checker.rows.code(alternative) {
        CodeNode::When { choices, stmts } => {
            let alone = is_one_choice(&checker.reader(), *choices) && last;
            let found = choices_faults(checker, found, of, alone, *choices);
            code_faults(alloc, checker, found, *stmts)
        }
        _ => Ok(found),
    }
}

/// With the faults of each of a list of alternatives.
#[cycle(code)]
#[tactic(auto, using(expression_rules::proofs::Noted::noted_append), unfolding(type_definitions::specs::Declarations::alternatives_faults))]
fn alternatives_faults(
    alloc: Global,
    checker: &Checker<'_>,
    found: Option<Fault>,
    of: u32,
    alternatives: usize,
) -> Result<Option<Fault>, AllocError>
    requires { alternatives < length checker.now.rows.now.1 }
    ensures { IfOk result (λ first. first ≡ noted found (alternatives_faults (context checker.now) of (code_at checker.now.rows.now alternatives))) }
{
    let mut found = found;
    let mut i = alternatives;
    'alternatives: while let CodeNode::More { first, rest } = checker.rows.code(i) {
        let last = is_last(&checker.reader(), *rest);
        found = alternative_faults(alloc, checker, found, of, last, *first)?;
        i = *rest;
    }
    Ok(found)
}

/// With the faults of a `case`.
#[cycle(code)]
#[tactic(auto, using(expression_rules::proofs::Noted::noted_append))]
fn case_faults(
    alloc: Global,
    checker: &Checker<'_>,
    found: Option<Fault>,
    pos: Pos,
    selector: usize,
    alternatives: usize,
) -> Result<Option<Fault>, AllocError>
    requires selector { selector < length checker.now.rows.now.0 }
    requires alternatives { alternatives < length checker.now.rows.now.1 }
    ensures { IfOk result (λ first. first ≡ noted found (selector_faults (context checker.now) (tree_at checker.now.rows.now selector)
        ++ (coverage (context checker.now) pos (tree_at checker.now.rows.now selector) (choices_of (code_at checker.now.rows.now alternatives))
        ++ alternatives_faults (context checker.now) (type_or_integer (own_type (context checker.now) (tree_at checker.now.rows.now selector)))
        (code_at checker.now.rows.now alternatives)))) }
{
    let of = type_or_integer(checker.reader().own_type(selector));
    let found = selector_faults(checker, found, selector);
    let found = coverage(alloc, checker, found, pos, selector, alternatives)?;
    alternatives_faults(alloc, checker, found, of, alternatives)
}

/// With the faults of a package.
#[cycle(code)]
#[tactic(auto, using(expression_rules::proofs::Noted::noted_append))]
fn package_faults(
    alloc: Global,
    checker: &Checker<'_>,
    found: Option<Fault>,
    number: u32,
    visible: usize,
    hidden: usize,
) -> Result<Option<Fault>, AllocError>
    requires visible { visible < length checker.now.rows.now.1 }
    requires hidden { hidden < length checker.now.rows.now.1 }
    ensures { IfOk result (λ first. first ≡ noted found (code_faults (in_visible number (context checker.now)) (code_at checker.now.rows.now visible)
        ++ code_faults (in_hidden number (context checker.now)) (code_at checker.now.rows.now hidden))) }
{
    let found = code_faults(alloc, &in_visible(checker, number), found, visible)?;
    code_faults(alloc, &in_hidden(checker, number), found, hidden)
}

/// With the faults of both.
#[cycle(code)]
#[tactic(auto, using(expression_rules::proofs::Noted::noted_append))]
fn both_faults(
    alloc: Global,
    checker: &Checker<'_>,
    found: Option<Fault>,
    first: usize,
    second: usize,
) -> Result<Option<Fault>, AllocError>
    requires first { first < length checker.now.rows.now.1 }
    requires second { second < length checker.now.rows.now.1 }
    ensures { IfOk result (λ f. f ≡ noted found (code_faults (context checker.now) (code_at checker.now.rows.now first)
        ++ code_faults (context checker.now) (code_at checker.now.rows.now second))) }
{
    let found = code_faults(alloc, checker, found, first)?;
    code_faults(alloc, checker, found, second)
}

/// With the faults of a declaration, a statement, a branch or a list.
#[cycle(code)]
#[tactic(auto, using(expression_rules::proofs::Noted::noted_append), unfolding(type_definitions::specs::Declarations::code_faults))]
fn item_faults(
    alloc: Global,
    checker: &Checker<'_>,
    found: Option<Fault>,
    code: usize,
) -> Result<Option<Fault>, AllocError>
    requires { code < length checker.now.rows.now.1 }
    ensures { IfOk result (λ first. first ≡ noted found (code_faults (context checker.now) (code_at checker.now.rows.now code))) }
{
    match checker.rows.code(code) {
        CodeNode::SubBody {
            front,
            items,
            stmts,
            ..
        } => {
            let found = body_faults(checker, found, *front);
            let inner = in_body(checker, *front);
            both_faults(alloc, &inner, found, *items, *stmts)
        }
        CodeNode::Package {
            name,
            visible,
            hidden,
        } => {
            let package = declared_number(&checker.reader(), *name);
            package_faults(alloc, checker, found, package, *visible, *hidden)
        }
        CodeNode::PackageBody { name, parts } => {
            let inner = in_hidden(checker, declared_number(&checker.reader(), *name));
            code_faults(alloc, &inner, found, *parts)
        }
        CodeNode::If {
            branches,
            otherwise,
            ..
        } => both_faults(alloc, checker, found, *branches, *otherwise),
        CodeNode::Branch {
            condition,
            stmts,
            ..
        } => {
            let found = checker.faults(found, Where::Elsewhere, BOOLEAN, *condition);
            code_faults(alloc, checker, found, *stmts)
        }
        CodeNode::Case {
            pos,
            selector,
            alternatives,
        } => case_faults(alloc, checker, found, *pos, *selector, *alternatives),
        CodeNode::Loop { stmts, .. } => { code_faults(alloc, &in_loop(checker), found, *stmts) }
        CodeNode::While {
            condition,
            stmts,
            ..
        } => {
            let found = checker.faults(found, Where::Elsewhere, BOOLEAN, *condition);
            code_faults(alloc, &in_loop(checker), found, *stmts)
        }
        CodeNode::For { range, stmts, .. } => {
            let found = range_faults(checker, found, *range);
            code_faults(alloc, &in_loop(checker), found, *stmts)
        }
        CodeNode::Block { items, stmts, .. } => {
            both_faults(alloc, checker, found, *items, *stmts)
        }
        CodeNode::More { first, rest } => { both_faults(alloc, checker, found, *first, *rest) }
        _ => Ok(plain_faults(checker, found, code)),
    }
}

/// With the faults of code, item by item where it is a list.
#[cycle(code)]
#[tactic(auto, using(expression_rules::proofs::Noted::noted_append), unfolding(type_definitions::specs::Declarations::code_faults))]
pub fn code_faults(
    alloc: Global,
    checker: &Checker<'_>,
    found: Option<Fault>,
    code: usize,
) -> Result<Option<Fault>, AllocError>
    requires { code < length checker.now.rows.now.1 }
    ensures { IfOk result (λ first. first ≡ noted found (code_faults (context checker.now) (code_at checker.now.rows.now code))) }
{
    let mut found = found;
    let mut i = code;
    'items: while let CodeNode::More { first, rest } = checker.rows.code(i) {
        found = item_faults(alloc, checker, found, *first)?;
        i = *rest;
    }
    item_faults(alloc, checker, found, i)
}
