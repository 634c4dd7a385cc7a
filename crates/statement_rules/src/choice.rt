//! The sentences on one choice of a `case` (Ada 2012, 3.8.1 and 5.4).
ghost use Rattle.std.specs.Prelude.{◌≡◌, ◌<◌, ◌++◌, length};
ghost use Rattle.resolved_tree.specs.Nodes.{code_at, tree_at};
ghost use Rattle.type_definitions.specs.Faults.{noted};
ghost use Rattle.type_definitions.specs.Statements.{choice_expression, choice_faults, type_or_integer};
ghost use Rattle.expression_rules.specs.Around.{context};

use crate::range::has_static_value;
use expression_rules::Checker;
use expression_types::INTEGER;
use resolved_tree::CodeNode;
use type_definitions::{Fault, Own, Where};
use type_settled::demand;

/// The type that an expression has by itself, or else Integer.
pub fn type_or_integer(own: Own) -> u32
    ensures { result ≡ type_or_integer own }
{
    match own {
        Own::Of { of } => of,
        _ => INTEGER,
    }
}

/// With the faults of a value of a choice: it is static.
#[tactic(auto, using(expression_rules::proofs::Noted::noted_append))]
pub fn choice_expression(
    checker: &Checker<'_>,
    found: Option<Fault>,
    of: u32,
    e: usize,
) -> Option<Fault>
    requires { e < length checker.now.rows.now.0 }
    ensures { result ≡ noted found (choice_expression (context checker.now) of (tree_at checker.now.rows.now e)) }
{
    let reader = checker.reader();
    let found = checker.faults(found, Where::Elsewhere, of, e);
    demand(found, 4, reader.position(e), has_static_value(&reader, e))
}

/// With the faults of both ends of a choice.
#[tactic(auto, using(expression_rules::proofs::Noted::noted_append))]
pub fn choice_ends(
    checker: &Checker<'_>,
    found: Option<Fault>,
    of: u32,
    low: usize,
    high: usize,
) -> Option<Fault>
    requires low { low < length checker.now.rows.now.0 }
    requires high { high < length checker.now.rows.now.0 }
    ensures { result ≡ noted found (choice_expression (context checker.now) of (tree_at checker.now.rows.now low)
        ++ choice_expression (context checker.now) of (tree_at checker.now.rows.now high)) }
{
    let found = choice_expression(checker, found, of, low);
    choice_expression(checker, found, of, high)
}

/// With the faults of a choice. `alone` says that it is alone in the last alternative, as `others`
/// has to be.
pub fn choice_faults(
    checker: &Checker<'_>,
    found: Option<Fault>,
    of: u32,
    alone: bool,
    choice: usize,
) -> Option<Fault>
    requires { choice < length checker.now.rows.now.1 }
    ensures { result ≡ noted found (choice_faults (context checker.now) of alone (code_at checker.now.rows.now choice)) }
{
    match checker.rows.code(choice) {
        CodeNode::Value { value } => choice_expression(checker, found, of, *value),
        CodeNode::Interval { low, high } => choice_ends(checker, found, of, *low, *high),
        CodeNode::OthersChoice { pos } => demand(found, 4, *pos, alone),
        _ => found,
    }
}
