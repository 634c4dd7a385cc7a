//! The sentences on assignments (Ada 2012, 5.2).
ghost use Rattle.std.specs.Prelude.{◌≡◌, ◌<◌, length};
ghost use Rattle.resolved_tree.specs.Nodes.{tree_at};
ghost use Rattle.type_definitions.specs.Faults.{noted};
ghost use Rattle.type_definitions.specs.Entries.{entry_of};
ghost use Rattle.type_definitions.specs.Statements.{assign_faults, is_formal, is_object_entry, target_faults};
ghost use Rattle.expression_types.specs.Here.{here};
ghost use Rattle.expression_rules.specs.Around.{context};

use expression_rules::Checker;
use expression_types::{Reader, is_anonymous};
use resolved_tree::Node;
use type_definitions::{Entry, Fault, Kind, Reading, Where};
use type_settled::demand;

/// Whether a declaration is an object.
fn is_object(reader: &Reader<'_>, decl: u32) -> bool
    ensures { result ≡ is_object_entry (entry_of (here reader.now).known decl) }
{
    matches!(
        reader.known.entries.as_slice().get(decl as usize),
        Some(Entry::Object { .. })
    )
}

/// With the faults of the target of an assignment: it is a name of an object whose root is a
/// variable.
#[tactic(auto, using(expression_rules::proofs::Noted::noted_append))]
pub fn target_faults(checker: &Checker<'_>, found: Option<Fault>, target: usize) -> Option<Fault>
    requires { target < length checker.now.rows.now.0 }
    ensures { result ≡ noted found (target_faults (context checker.now) (tree_at checker.now.rows.now target)) }
{
    let reader = checker.reader();
    match checker.rows.node(target) {
        Node::Named { pos, decl, rest } => {
            if is_object(&reader, *decl) {
                let reading = reader.reading_of(*decl, *rest);
                let found = demand(found, 2, *pos, reader.is_variable(*decl, reading));
                checker.name_faults(found, target)
            } else {
                let found = demand(found, 2, *pos, false);
                checker.behind(found, reader.way_of(*decl), *rest)
            }
        }
        _ => demand(found, 2, reader.position(target), false),
    }
}

/// Whether a declaration is a formal.
fn is_formal(reader: &Reader<'_>, decl: u32) -> bool
    ensures { result ≡ is_formal (entry_of (here reader.now).known decl) }
{
    match reader.known.entries.as_slice().get(decl as usize) {
        Some(Entry::Object { object }) => matches!(object.kind, Kind::Formal),
        _ => false,
    }
}

/// With the faults of what is assigned to a target. The source for a whole object of an anonymous
/// access type is that of a formal, or of a borrower or observer.
pub fn assign_faults(
    checker: &Checker<'_>,
    found: Option<Fault>,
    target: usize,
    value: usize,
) -> Option<Fault>
    requires target { target < length checker.now.rows.now.0 }
    requires value { value < length checker.now.rows.now.0 }
    ensures { result ≡ noted found (assign_faults (context checker.now) (tree_at checker.now.rows.now target) (tree_at checker.now.rows.now value)) }
{
    let reader = checker.reader();
    let Node::Named { decl, rest, .. } = checker.rows.node(target) else {
        return found;
    };
    let Reading::Place { of } = reader.reading_of(*decl, *rest) else {
        return found;
    };
    if !(reader.is_end(*rest) && is_anonymous(reader.full(of))) {
        checker.faults(found, Where::Stored, of, value)
    } else if is_formal(&reader, *decl) {
        checker.formal_source(found, of, value)
    } else {
        checker.source_faults(found, of, value)
    }
}
