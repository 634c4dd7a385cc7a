//! The sentences on declarations of objects (Ada 2012, 3.3.1).
ghost use Rattle.std.specs.Prelude.{◌≡◌, ◌<◌, length};
ghost use Rattle.resolved_tree.specs.Nodes.{code_at, tree_at};
ghost use Rattle.type_definitions.specs.Faults.{noted};
ghost use Rattle.type_definitions.specs.Declarations.{has_one, initial_faults, object_faults};
ghost use Rattle.expression_types.specs.Here.{here};
ghost use Rattle.expression_rules.specs.Around.{context};

use crate::declared::{first_number, first_pos, is_single};
use crate::marks::{indicated, indication_faults, is_anonymous_indication};
use crate::places::starting;
use expression_rules::Checker;
use expression_types::Reader;
use resolved_tree::Node;
use type_definitions::{Fault, Where};
use type_settled::demand;

/// Whether a list of no value or one has one.
fn has_one(reader: &Reader<'_>, value: usize) -> bool
    requires { value < length reader.now.rows.now.0 }
    ensures { result ≡ has_one (tree_at reader.now.rows.now value) }
{
    matches!(reader.rows.node(value), Node::More { .. })
}

/// With the faults of an initial value, where there is one.
fn initial_faults(
    checker: &Checker<'_>,
    found: Option<Fault>,
    anonymous: bool,
    of: u32,
    value: usize,
) -> Option<Fault>
    requires { value < length checker.now.rows.now.0 }
    ensures { result ≡ noted found (initial_faults (context checker.now) anonymous of (tree_at checker.now.rows.now value)) }
{
    match checker.rows.node(value) {
        Node::More { first, .. } => {
            if anonymous {
                checker.source_faults(found, of, *first)
            } else {
                checker.faults(found, Where::Stored, of, *first)
            }
        }
        _ => found,
    }
}

/// With the faults of objects of this type.
#[tactic(auto, using(expression_rules::proofs::Noted::noted_append))]
pub fn object_faults(
    checker: &Checker<'_>,
    found: Option<Fault>,
    names: usize,
    constant: bool,
    of: usize,
    value: usize,
) -> Option<Fault>
    requires names { names < length checker.now.rows.now.1 }
    requires of { of < length checker.now.rows.now.1 }
    requires value { value < length checker.now.rows.now.0 }
    ensures { result ≡ noted found (object_faults (context checker.now) (code_at checker.now.rows.now names) constant
        (code_at checker.now.rows.now of) (tree_at checker.now.rows.now value)) }
{
    let reader = checker.reader();
    let named = indicated(&reader, first_number(&reader, names), of);
    let anonymous = is_anonymous_indication(&reader, of);
    let local = checker.sub.is_some() && !constant && has_one(&reader, value);
    let pos = first_pos(&reader, names);
    let found = indication_faults(checker, found, of);
    let found = demand(
        found,
        6,
        pos,
        !anonymous || is_single(&reader, names) && local,
    );
    let found = demand(
        found,
        5,
        pos,
        !(constant && checker.settled.is_owning(named)),
    );
    initial_faults(&starting(checker), found, anonymous, named, value)
}
