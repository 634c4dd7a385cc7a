//! The sentences on declarations of types and subtypes (Ada 2012, 3.2 to 3.10).
ghost use Rattle.std.specs.Prelude.{◌≡◌, ◌<◌, ◌++◌, length, not, is_none};
ghost use Rattle.resolved_tree.specs.Nodes.{code_at, tree_at};
ghost use Rattle.type_definitions.specs.Types.{info, is_nil};
ghost use Rattle.type_definitions.specs.Faults.{noted};
ghost use Rattle.type_definitions.specs.Declarations.{are_bounds, bound_faults, components_faults, constraint_faults, definition_faults, index_range, integer_mark, lies_within, record_faults, renamed_faults, subtype_faults, type_faults};
ghost use Rattle.expression_types.specs.Here.{here};
ghost use Rattle.expression_rules.specs.Around.{context};

use crate::declared::{declared_number, declared_pos};
use crate::marks::access_mark;
use expression_rules::Checker;
use expression_types::{INTEGER, Reader};
use resolved_tree::{CodeNode, Mark};
use statement_rules::{
    bounds_of, is_nothing, range_of_faults, scalar_mark, static_faults, static_value,
};
use type_definitions::{Fault, Where};
use type_settled::{demand, is_ahead};

/// With the faults of a static expression of which a type is demanded.
#[tactic(auto, using(expression_rules::proofs::Noted::noted_append))]
pub fn bound_faults(checker: &Checker<'_>, found: Option<Fault>, of: u32, e: usize) -> Option<Fault>
    requires { e < length checker.now.rows.now.0 }
    ensures { result ≡ noted found (bound_faults (context checker.now) of (tree_at checker.now.rows.now e)) }
{
    let found = checker.faults(found, Where::Elsewhere, of, e);
    static_faults(checker, found, e)
}

/// With the faults of both bounds.
#[tactic(auto, using(expression_rules::proofs::Noted::noted_append))]
fn both_bounds(
    checker: &Checker<'_>,
    found: Option<Fault>,
    of: u32,
    low: usize,
    high: usize,
) -> Option<Fault>
    requires low { low < length checker.now.rows.now.0 }
    requires high { high < length checker.now.rows.now.0 }
    ensures { result ≡ noted found (bound_faults (context checker.now) of (tree_at checker.now.rows.now low)
        ++ bound_faults (context checker.now) of (tree_at checker.now.rows.now high)) }
{
    let found = bound_faults(checker, found, of, low);
    bound_faults(checker, found, of, high)
}

/// With K1, where a mark denotes a type that isn't Integer or a subtype of it.
fn integer_mark(checker: &Checker<'_>, found: Option<Fault>, mark: Mark) -> Option<Fault>
    ensures { result ≡ noted found (integer_mark (context checker.now) mark) }
{
    let reader = checker.reader();
    let is_integer = reader.base(reader.marked(mark)) == INTEGER;
    demand(
        found,
        1,
        mark.pos,
        !reader.denotes_type(mark.decl) || is_integer,
    )
}

/// With the faults of the range of an array.
#[tactic(auto, using(expression_rules::proofs::Noted::noted_append))]
fn index_range(checker: &Checker<'_>, found: Option<Fault>, range: usize) -> Option<Fault>
    requires { range < length checker.now.rows.now.1 }
    ensures { result ≡ noted found (index_range (context checker.now) (code_at checker.now.rows.now range)) }
{
    let reader = checker.reader();
    match checker.rows.code(range) {
        CodeNode::Bounds { low, high } => both_bounds(checker, found, INTEGER, *low, *high),
        CodeNode::Marked { mark } => {
            let found = scalar_mark(checker, found, *mark);
            integer_mark(checker, found, *mark)
        }
        CodeNode::Constrained { mark, low, high } => {
            let is_complete = reader.is_complete(reader.marked(*mark), mark.pos);
            let holds = reader.denotes_type(mark.decl) && is_complete;
            let found = demand(found, 1, mark.pos, holds);
            let found = integer_mark(checker, found, *mark);
            both_bounds(checker, found, INTEGER, *low, *high)
        }
        CodeNode::RangeOf { name } => {
            let found = range_of_faults(checker, found, *name);
            demand(found, 7, reader.position(*name), false)
        }
        _ => found,
    }
}

/// With the faults of components that have one mark.
fn components_faults(checker: &Checker<'_>, found: Option<Fault>, group: usize) -> Option<Fault>
    requires { group < length checker.now.rows.now.1 }
    ensures { result ≡ noted found (components_faults (context checker.now).known (code_at checker.now.rows.now group)) }
{
    match checker.rows.code(group) {
        CodeNode::Components { mark, .. } => checker.mark_faults(found, *mark),
        _ => found,
    }
}

/// With the faults of the components of a record.
#[tactic(auto, using(expression_rules::proofs::Noted::noted_append))]
fn record_faults(checker: &Checker<'_>, found: Option<Fault>, list: usize) -> Option<Fault>
    requires { list < length checker.now.rows.now.1 }
    ensures { result ≡ noted found (record_faults (context checker.now).known (code_at checker.now.rows.now list)) }
{
    let mut found = found;
    let mut i = list;
    'groups: while let CodeNode::More { first, rest } = checker.rows.code(i) {
        found = components_faults(checker, found, *first);
        i = *rest;
    }
    found
}

/// With the faults of the definition of a type.
#[tactic(auto, using(expression_rules::proofs::Noted::noted_append))]
fn definition_faults(
    checker: &Checker<'_>,
    found: Option<Fault>,
    definition: usize,
) -> Option<Fault>
    requires { definition < length checker.now.rows.now.1 }
    ensures { result ≡ noted found (definition_faults (context checker.now) (code_at checker.now.rows.now definition)) }
{
    match checker.rows.code(definition) {
        CodeNode::Record { components } => record_faults(checker, found, *components),
        CodeNode::Array { range, mark } => {
            let found = index_range(checker, found, *range);
            checker.mark_faults(found, *mark)
        }
        CodeNode::Access { mark } => access_mark(checker, found, *mark),
        _ => found,
    }
}

/// Whether a type is the full type of a private type.
fn is_private(reader: &Reader<'_>, number: u32) -> bool
    ensures { result ≡ not (is_none (info (here reader.now).known.table number).seen_in) }
{
    match reader.known.table.as_slice().get(number as usize) {
        Some(info) => info.seen_in.is_some(),
        None => false,
    }
}

/// With the faults of the declaration of a type. Whether a private type has itself in it is asked
/// only where no fault before it is found.
#[tactic(auto, using(expression_rules::proofs::Noted::noted_append))]
pub fn type_faults(
    checker: &Checker<'_>,
    found: Option<Fault>,
    name: usize,
    definition: usize,
) -> Option<Fault>
    requires name { name < length checker.now.rows.now.1 }
    requires definition { definition < length checker.now.rows.now.1 }
    ensures { result ≡ noted found (type_faults (context checker.now) (code_at checker.now.rows.now name) (code_at checker.now.rows.now definition)) }
{
    let reader = checker.reader();
    let found = definition_faults(checker, found, definition);
    let pos = declared_pos(&reader, name);
    if is_ahead(found, 1, pos) {
        return found;
    }
    let number = declared_number(&reader, name);
    let holds = !is_private(&reader, number) || !checker.settled.holds_itself(number);
    demand(found, 1, pos, holds)
}

/// With the faults of a subtype without a constraint.
pub fn renamed_faults(checker: &Checker<'_>, found: Option<Fault>, mark: Mark) -> Option<Fault>
    ensures { result ≡ noted found (renamed_faults (context checker.now) mark) }
{
    let reader = checker.reader();
    let is_complete = reader.is_complete(reader.marked(mark), mark.pos);
    demand(
        found,
        1,
        mark.pos,
        reader.denotes_type(mark.decl) && is_complete,
    )
}

/// Whether a value is one of a type.
fn lies_within(reader: &Reader<'_>, parent: u32, e: usize) -> bool
    requires { e < length reader.now.rows.now.0 }
    ensures { result ≡ lies_within (here reader.now) parent (tree_at reader.now.rows.now e) }
{
    let (low, high) = bounds_of(reader.full(parent));
    let value = i64::from(static_value(reader, e));
    low <= value && value <= high
}

/// Whether a bound breaks no sentence by itself.
#[tactic(auto, using(statement_rules::proofs::Steps::none_noted))]
fn is_bound(checker: &Checker<'_>, parent: u32, e: usize) -> bool
    requires { e < length checker.now.rows.now.0 }
    ensures { result ≡ is_nil (bound_faults (context checker.now) parent (tree_at checker.now.rows.now e)) }
{
    is_nothing(bound_faults(checker, None, parent, e))
}

/// Whether two bounds break no sentence by themselves.
fn are_bounds(checker: &Checker<'_>, parent: u32, low: usize, high: usize) -> bool
    requires low { low < length checker.now.rows.now.0 }
    requires high { high < length checker.now.rows.now.0 }
    ensures { result ≡ are_bounds (context checker.now) parent (tree_at checker.now.rows.now low) (tree_at checker.now.rows.now high) }
{
    is_bound(checker, parent, low) && is_bound(checker, parent, high)
}

/// With the faults of the bounds of a subtype, as values of its parent.
#[tactic(auto, using(expression_rules::proofs::Noted::noted_append))]
fn constraint_faults(
    checker: &Checker<'_>,
    found: Option<Fault>,
    parent: u32,
    low: usize,
    high: usize,
) -> Option<Fault>
    requires low { low < length checker.now.rows.now.0 }
    requires high { high < length checker.now.rows.now.0 }
    ensures { result ≡ noted found (constraint_faults (context checker.now) parent (tree_at checker.now.rows.now low) (tree_at checker.now.rows.now high)) }
{
    let reader = checker.reader();
    let is_empty = static_value(&reader, high) < static_value(&reader, low);
    if !are_bounds(checker, parent, low, high) || is_empty {
        return found;
    }
    let holds = lies_within(&reader, parent, low);
    let found = demand(found, 7, reader.position(low), holds);
    let holds = lies_within(&reader, parent, high);
    demand(found, 7, reader.position(high), holds)
}

/// With the faults of a subtype with bounds of its own.
#[tactic(auto, using(expression_rules::proofs::Noted::noted_append))]
pub fn subtype_faults(
    checker: &Checker<'_>,
    found: Option<Fault>,
    mark: Mark,
    low: usize,
    high: usize,
) -> Option<Fault>
    requires low { low < length checker.now.rows.now.0 }
    requires high { high < length checker.now.rows.now.0 }
    ensures { result ≡ noted found (subtype_faults (context checker.now) mark (tree_at checker.now.rows.now low) (tree_at checker.now.rows.now high)) }
{
    let found = scalar_mark(checker, found, mark);
    let parent = checker.reader().marked(mark);
    let found = bound_faults(checker, found, parent, low);
    let found = bound_faults(checker, found, parent, high);
    constraint_faults(checker, found, parent, low, high)
}
