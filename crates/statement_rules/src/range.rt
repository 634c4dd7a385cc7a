//! The sentences on ranges (Ada 2012, 3.5, 3.6.2 and 5.5).
ghost use Rattle.std.specs.Prelude.{◌≡◌, ◌<◌, ◌&&◌, length, is_some};
ghost use Rattle.resolved_tree.specs.Nodes.{code_at, tree_at};
ghost use Rattle.resolved_tree.specs.Trees.{Bounds};
ghost use Rattle.type_definitions.specs.Faults.{noted};
ghost use Rattle.type_definitions.specs.Entries.{entry_of};
ghost use Rattle.type_definitions.specs.Statics.{is_static, value};
ghost use Rattle.type_definitions.specs.Statements.{is_array, known_value, range_faults, range_of_faults, ranged, scalar_mark, static_faults};
ghost use Rattle.expression_types.specs.Here.{here};
ghost use Rattle.expression_rules.specs.Around.{context};

use crate::choice::type_or_integer;
use expression_rules::Checker;
use expression_types::{INTEGER, Reader, is_scalar};
use resolved_tree::{CodeNode, Mark, Node};
use type_definitions::{Fault, Reading, View, Where};
use type_settled::demand;

/// Whether an expression is static and has a value.
pub fn has_static_value(reader: &Reader<'_>, e: usize) -> bool
    requires { e < length reader.now.rows.now.0 }
    ensures { result ≡ (is_static (here reader.now) (tree_at reader.now.rows.now e)
        && is_some (value (here reader.now) (tree_at reader.now.rows.now e))) }
{
    reader.is_static(e) && reader.value(e).is_some()
}

/// The value of a static expression, or 0 where it has none.
pub fn static_value(reader: &Reader<'_>, e: usize) -> i32
    requires { e < length reader.now.rows.now.0 }
    ensures { result ≡ known_value (value (here reader.now) (tree_at reader.now.rows.now e)) }
{
    match reader.value(e) {
        Some(number) => number.value,
        None => 0,
    }
}

/// With K7, unless an expression is static and has a value.
pub fn static_faults(checker: &Checker<'_>, found: Option<Fault>, e: usize) -> Option<Fault>
    requires { e < length checker.now.rows.now.0 }
    ensures { result ≡ noted found (static_faults (context checker.now) (tree_at checker.now.rows.now e)) }
{
    let reader = checker.reader();
    demand(found, 7, reader.position(e), has_static_value(&reader, e))
}

/// Whether a type is an array.
fn is_array(view: View) -> bool
    ensures { result ≡ is_array view }
{
    matches!(view, View::Elements { .. })
}

/// Whether a name without its `'Range` stands for an object or a type that is an array.
fn ranged(reader: &Reader<'_>, decl: u32, reading: Reading) -> bool
    ensures { result ≡ ranged (here reader.now) (entry_of (here reader.now).known decl) decl reading }
{
    match reading {
        Reading::Place { of } => reader.is_untyped(of) || is_array(reader.seen(of)),
        Reading::Off => reader.is_type(decl) && is_array(reader.seen(decl)),
        _ => false,
    }
}

/// With the faults of the range of this name.
#[tactic(auto, using(expression_rules::proofs::Noted::noted_append))]
pub fn range_of_faults(checker: &Checker<'_>, found: Option<Fault>, name: usize) -> Option<Fault>
    requires { name < length checker.now.rows.now.0 }
    ensures { result ≡ noted found (range_of_faults (context checker.now) (tree_at checker.now.rows.now name)) }
{
    let reader = checker.reader();
    match checker.rows.node(name) {
        Node::Named { pos, decl, rest } => {
            let is_range = ranged(&reader, *decl, reader.reading_of(*decl, *rest));
            let is_whole = !reader.is_type(*decl) || reader.is_end(*rest);
            let holds = is_range && reader.is_complete(*decl, *pos) && is_whole;
            let found = demand(found, 1, *pos, holds);
            checker.behind(found, reader.way_of(*decl), *rest)
        }
        _ => demand(found, 1, reader.position(name), false),
    }
}

/// With K1, unless a mark in front of a range denotes a type that is complete and scalar.
pub fn scalar_mark(checker: &Checker<'_>, found: Option<Fault>, mark: Mark) -> Option<Fault>
    ensures { result ≡ noted found (scalar_mark (context checker.now) mark) }
{
    let reader = checker.reader();
    let of = reader.marked(mark);
    let is_complete = reader.denotes_type(mark.decl) && reader.is_complete(of, mark.pos);
    demand(
        found,
        1,
        mark.pos,
        is_complete && is_scalar(reader.seen(of)),
    )
}

/// With the faults of two bounds, the second one of the type of the first.
#[tactic(auto, using(expression_rules::proofs::Noted::noted_append), unfolding(type_definitions::specs::Statements::range_faults))]
fn bounds_faults(
    checker: &Checker<'_>,
    found: Option<Fault>,
    low: usize,
    high: usize,
) -> Option<Fault>
    requires low { low < length checker.now.rows.now.0 }
    requires high { high < length checker.now.rows.now.0 }
    ensures { result ≡ noted found (range_faults (context checker.now)
        (Bounds (tree_at checker.now.rows.now low) (tree_at checker.now.rows.now high))) }
{
    let reader = checker.reader();
    let own = reader.own_type(low);
    let found = demand(found, 1, reader.position(low), reader.scalar_own(own));
    let found = checker.inside(found, false, INTEGER, low);
    checker.faults(found, Where::Elsewhere, type_or_integer(own), high)
}

/// With the faults of the range of a `for` loop.
#[tactic(auto, using(expression_rules::proofs::Noted::noted_append), unfolding(type_definitions::specs::Statements::range_faults))]
pub fn range_faults(checker: &Checker<'_>, found: Option<Fault>, range: usize) -> Option<Fault>
    requires { range < length checker.now.rows.now.1 }
    ensures { result ≡ noted found (range_faults (context checker.now) (code_at checker.now.rows.now range)) }
{
    match checker.rows.code(range) {
        CodeNode::Bounds { low, high } => bounds_faults(checker, found, *low, *high),
        CodeNode::Marked { mark } => scalar_mark(checker, found, *mark),
        CodeNode::Constrained { mark, low, high } => {
            let of = checker.reader().marked(*mark);
            let found = scalar_mark(checker, found, *mark);
            let found = checker.faults(found, Where::Elsewhere, of, *low);
            checker.faults(found, Where::Elsewhere, of, *high)
        }
        CodeNode::RangeOf { name } => range_of_faults(checker, found, *name),
        _ => found,
    }
}
