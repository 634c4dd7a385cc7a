//! The sentences on instances of Unchecked_Deallocation (Ada 2012, 12.3 and 13.11.2).
ghost use Rattle.std.specs.Prelude.{◌≡◌, ◌<◌, [], ◌∷◌, length};
ghost use Rattle.resolved_tree.specs.Nodes.{code_at, tree_at};
ghost use Rattle.type_definitions.specs.Faults.{noted};
ghost use Rattle.type_definitions.specs.Expressions.{associates, given_names};
ghost use Rattle.type_definitions.specs.Statements.{name_name, name_object};
ghost use Rattle.type_definitions.specs.Declarations.{actual_mark, actual_marks, all_types, denotes_deallocation, instance_faults, is_named_access, matches, names_type};
ghost use Rattle.type_definitions.specs.Gathered.{actual_type};
ghost use Rattle.expression_types.specs.Here.{here};
ghost use Rattle.expression_rules.specs.Around.{context};
ghost use Rattle.declaration_rules.specs.Actuals.{actual_for, is_for};

use crate::declared::declared_pos;
use ada_tree::Word;
use expression_rules::Checker;
use expression_types::{INTEGER, Reader, designated, same_word};
use resolved_tree::{Mark, Node};
use type_definitions::{Entry, Fault, Predefined, View};
use type_settled::demand;

/// The formals of Unchecked_Deallocation.
const NAME_OBJECT: [u8; 6] = *b"Object";

const NAME_NAME: [u8; 4] = *b"Name";

/// Whether a declaration is Unchecked_Deallocation.
fn denotes_deallocation(reader: &Reader<'_>, decl: Option<u32>) -> bool
    ensures { result ≡ denotes_deallocation (here reader.now).known decl }
{
    match decl {
        Some(number) => matches!(
            reader.known.entries.as_slice().get(number as usize),
            Some(Entry::Predefined {
                which: Predefined::Deallocation
            })
        ),
        None => false,
    }
}

/// Whether an actual is the mark of a type.
fn names_type(reader: &Reader<'_>, actual: usize) -> bool
    requires { actual < length reader.now.rows.now.0 }
    ensures { result ≡ names_type (here reader.now).known (tree_at reader.now.rows.now actual) }
{
    match reader.rows.node(actual) {
        Node::Named { decl, rest, .. } => reader.is_end(*rest) && reader.is_type(*decl),
        _ => false,
    }
}

/// With the fault of an actual that is a name and no mark of a complete type.
fn actual_mark(checker: &Checker<'_>, found: Option<Fault>, actual: usize) -> Option<Fault>
    requires { actual < length checker.now.rows.now.0 }
    ensures { result ≡ noted found (actual_mark (context checker.now).known (tree_at checker.now.rows.now actual)) }
{
    let reader = checker.reader();
    match checker.rows.node(actual) {
        Node::Named { pos, decl, .. } => {
            let holds = names_type(&reader, actual) && reader.is_complete(*decl, *pos);
            demand(found, 1, *pos, holds)
        }
        _ => found,
    }
}

/// Whether all actuals are marks of types.
fn all_types(reader: &Reader<'_>, args: usize) -> bool
    requires { args < length reader.now.rows.now.0 }
    ensures { result ≡ all_types (here reader.now).known (tree_at reader.now.rows.now args) }
{
    let mut i = args;
    'actuals: while let Node::Argument { value, rest, .. } = reader.rows.node(i) {
        if !names_type(reader, *value) {
            return false;
        }
        i = *rest;
    }
    true
}

/// With the faults of all actuals.
#[tactic(auto, using(expression_rules::proofs::Noted::noted_append))]
fn actual_marks(checker: &Checker<'_>, found: Option<Fault>, args: usize) -> Option<Fault>
    requires { args < length checker.now.rows.now.0 }
    ensures { result ≡ noted found (actual_marks (context checker.now).known (tree_at checker.now.rows.now args)) }
{
    let mut found = found;
    let mut i = args;
    'actuals: while let Node::Argument { value, rest, .. } = checker.rows.node(i) {
        found = actual_mark(checker, found, *value);
        i = *rest;
    }
    found
}

/// The declaration that an actual is, or else Integer.
fn actual_type(reader: &Reader<'_>, actual: usize) -> u32
    requires { actual < length reader.now.rows.now.0 }
    ensures { result ≡ actual_type (tree_at reader.now.rows.now actual) }
{
    match reader.rows.node(actual) {
        Node::Named { decl, rest, .. } if reader.is_end(*rest) => *decl,
        _ => INTEGER,
    }
}

/// Whether an actual is for a formal, by its position or its name.
fn is_for(position: usize, text: &[u8], number: usize, name: &Option<Word>) -> bool
    ensures { result ≡ is_for position text.now number name.now }
{
    match name {
        Some(word) => same_word(word.as_bytes(), text),
        None => number == position,
    }
}

/// The actual for a formal, by its position or its name.
fn actual_for(reader: &Reader<'_>, position: usize, text: &[u8], args: usize) -> u32
    requires { args < length reader.now.rows.now.0 }
    ensures { result ≡ actual_for position text.now 0 (tree_at reader.now.rows.now args) }
{
    let mut i = args;
    let mut number = 0;
    'actuals: while let Node::Argument { name, value, rest } = reader.rows.node(i) {
        if is_for(position, text, number, name) {
            return actual_type(reader, *value);
        }
        number += 1;
        i = *rest;
    }
    INTEGER
}

/// Whether a type is a named access type.
fn is_named_access(view: View) -> bool
    ensures { result ≡ is_named_access view }
{
    match view {
        View::Access { named, .. } => named,
        _ => false,
    }
}

/// Whether the actuals are a named access type and what it designates.
#[tactic(auto, using(crate::proofs::Actuals::name_is, crate::proofs::Actuals::object_is))]
fn matches(reader: &Reader<'_>, args: usize) -> bool
    requires { args < length reader.now.rows.now.0 }
    ensures { result ≡ matches (here reader.now) (tree_at reader.now.rows.now args) }
{
    let name = actual_for(reader, 1, &NAME_NAME, args);
    let object = actual_for(reader, 0, &NAME_OBJECT, args);
    is_named_access(reader.seen(name)) && reader.is_same(object, designated(reader.full(name)))
}

/// Whether there are two actuals, both by position or as Object and Name.
fn are_for_formals(reader: &Reader<'_>, args: usize) -> bool
    requires { args < length reader.now.rows.now.0 }
    ensures { result ≡ associates (name_object ∷ name_name ∷ []) (given_names (tree_at reader.now.rows.now args)) }
{
    reader.has_length(args, 2)
        && (reader.by_position(args)
            || reader.is_once(&NAME_OBJECT, args) && reader.is_once(&NAME_NAME, args))
}

/// With the faults of an instance.
#[tactic(auto, using(expression_rules::proofs::Noted::noted_append))]
pub fn instance_faults(
    checker: &Checker<'_>,
    found: Option<Fault>,
    name: usize,
    generic: Mark,
    args: usize,
) -> Option<Fault>
    requires name { name < length checker.now.rows.now.1 }
    requires args { args < length checker.now.rows.now.0 }
    ensures { result ≡ noted found (instance_faults (context checker.now) (code_at checker.now.rows.now name) generic (tree_at checker.now.rows.now args)) }
{
    let reader = checker.reader();
    let is_deallocation = denotes_deallocation(&reader, generic.decl);
    let found = demand(found, 3, generic.pos, is_deallocation);
    let are_types = all_types(&reader, args) && matches(&reader, args);
    let holds = are_for_formals(&reader, args) && are_types;
    let found = demand(found, 3, declared_pos(&reader, name), holds);
    actual_marks(checker, found, args)
}
