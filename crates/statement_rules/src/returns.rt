//! The sentences on `return` and on conditions (Ada 2012, 5.3, 5.7 and 6.5).
ghost use Rattle.std.specs.Prelude.{◌≡◌, ◌<◌, length, Some};
ghost use Rattle.resolved_tree.specs.Nodes.{tree_at};
ghost use Rattle.resolved_tree.specs.Trees.{More, NoMore, nowhere};
ghost use Rattle.type_definitions.specs.Faults.{noted};
ghost use Rattle.type_definitions.specs.Entries.{entry_of};
ghost use Rattle.type_definitions.specs.Expressions.{profile_of};
ghost use Rattle.type_definitions.specs.Statements.{condition, returned, sub_profile};
ghost use Rattle.expression_rules.specs.Around.{context};

use expression_rules::Checker;
use expression_types::{BOOLEAN, INTEGER, is_anonymous};
use resolved_tree::Node;
use spark_base::Pos;
use type_definitions::{Fault, Where};
use type_settled::demand;

/// With the faults of a `return` with this value, in this subprogram.
#[tactic(auto, using(expression_rules::proofs::Noted::noted_append))]
fn returned_value(
    checker: &Checker<'_>,
    found: Option<Fault>,
    sub: u32,
    value: usize,
) -> Option<Fault>
    requires { value < length checker.now.rows.now.0 }
    ensures { result ≡ noted found (returned (context checker.now) nowhere
        (Some (profile_of (entry_of (context checker.now).known sub))) (More (tree_at checker.now.rows.now value) NoMore)) }
{
    let reader = checker.reader();
    match reader.result(sub) {
        None => {
            let found = demand(found, 3, reader.position(value), false);
            checker.inside(found, true, INTEGER, value)
        }
        Some(of) => {
            if is_anonymous(reader.full(of)) {
                checker.return_source(found, of, value)
            } else {
                checker.faults(found, Where::Stored, of, value)
            }
        }
    }
}

/// With the faults of a `return` with a list of no value or one: it has a value in a function, and
/// none in a procedure.
pub fn returned(
    checker: &Checker<'_>,
    found: Option<Fault>,
    pos: Pos,
    value: usize,
) -> Option<Fault>
    requires { value < length checker.now.rows.now.0 }
    ensures { result ≡ noted found (returned (context checker.now) pos
        (sub_profile (context checker.now).known (context checker.now).sub) (tree_at checker.now.rows.now value)) }
{
    let Some(sub) = checker.sub else {
        return demand(found, 3, pos, false);
    };
    match checker.rows.node(value) {
        Node::NoMore => demand(found, 3, pos, checker.reader().result(sub).is_none()),
        Node::More { first, .. } => returned_value(checker, found, sub, *first),
        _ => found,
    }
}

/// With the faults of a list of no condition or one.
pub fn condition(checker: &Checker<'_>, found: Option<Fault>, list: usize) -> Option<Fault>
    requires { list < length checker.now.rows.now.0 }
    ensures { result ≡ noted found (condition (context checker.now) (tree_at checker.now.rows.now list)) }
{
    match checker.rows.node(list) {
        Node::More { first, .. } => checker.faults(found, Where::Elsewhere, BOOLEAN, *first),
        _ => found,
    }
}
