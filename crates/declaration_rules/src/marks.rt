//! The sentences on marks (Ada 2012, 3.2.2, 3.3.1 and 3.10).
ghost use Rattle.std.specs.Prelude.{◌≡◌, ◌<◌, length};
ghost use Rattle.resolved_tree.specs.Nodes.{code_at};
ghost use Rattle.type_definitions.specs.Faults.{noted};
ghost use Rattle.type_definitions.specs.Declarations.{access_mark, indication_faults};
ghost use Rattle.type_definitions.specs.Gathered.{anonymous_result, indicated, indicates_type, is_anonymous_indication, result_indicated};
ghost use Rattle.expression_types.specs.Here.{here};
ghost use Rattle.expression_rules.specs.Around.{context};

use expression_rules::Checker;
use expression_types::{INTEGER, Reader, has_value};
use resolved_tree::{CodeNode, Mark};
use type_definitions::Fault;
use type_settled::demand;

/// With the faults of the mark of an access type.
#[tactic(auto, using(expression_rules::proofs::Noted::noted_append))]
pub fn access_mark(checker: &Checker<'_>, found: Option<Fault>, mark: Mark) -> Option<Fault>
    ensures { result ≡ noted found (access_mark (context checker.now).known mark) }
{
    let reader = checker.reader();
    let denotes = reader.denotes_type(mark.decl);
    let is_possible = has_value(reader.full(reader.marked(mark)));
    let found = demand(found, 1, mark.pos, denotes);
    demand(found, 7, mark.pos, !denotes || is_possible)
}

/// With the faults of what an object, a formal or a result is of.
pub fn indication_faults(checker: &Checker<'_>, found: Option<Fault>, of: usize) -> Option<Fault>
    requires { of < length checker.now.rows.now.1 }
    ensures { result ≡ noted found (indication_faults (context checker.now).known (code_at checker.now.rows.now of)) }
{
    match checker.rows.code(of) {
        CodeNode::Plain { mark } => checker.mark_faults(found, *mark),
        CodeNode::Anonymous { mark, .. } => access_mark(checker, found, *mark),
        _ => found,
    }
}

/// Whether it is of an anonymous access type.
pub fn is_anonymous_indication(reader: &Reader<'_>, of: usize) -> bool
    requires { of < length reader.now.rows.now.1 }
    ensures { result ≡ is_anonymous_indication (code_at reader.now.rows.now of) }
{
    matches!(reader.rows.code(of), CodeNode::Anonymous { .. })
}

/// Whether its mark denotes a type.
pub fn indicates_type(reader: &Reader<'_>, of: usize) -> bool
    requires { of < length reader.now.rows.now.1 }
    ensures { result ≡ indicates_type (here reader.now).known (code_at reader.now.rows.now of) }
{
    match reader.rows.code(of) {
        CodeNode::Plain { mark } => reader.denotes_type(mark.decl),
        CodeNode::Anonymous { mark, .. } => reader.denotes_type(mark.decl),
        _ => true,
    }
}

/// The type that a declaration with this number has by it.
pub fn indicated(reader: &Reader<'_>, number: u32, of: usize) -> u32
    requires { of < length reader.now.rows.now.1 }
    ensures { result ≡ indicated (here reader.now).known number (code_at reader.now.rows.now of) }
{
    match reader.rows.code(of) {
        CodeNode::Plain { mark } => reader.marked(*mark),
        CodeNode::Anonymous { .. } => number,
        _ => INTEGER,
    }
}

/// The type of the result of a subprogram with this number, where there is one.
pub fn result_indicated(reader: &Reader<'_>, number: u32, list: usize) -> Option<u32>
    requires { list < length reader.now.rows.now.1 }
    ensures { result ≡ result_indicated (here reader.now).known number (code_at reader.now.rows.now list) }
{
    match reader.rows.code(list) {
        CodeNode::More { first, .. } => Some(indicated(reader, number, *first)),
        _ => None,
    }
}

/// Whether there is a result, of an anonymous access type.
pub fn anonymous_result(reader: &Reader<'_>, list: usize) -> bool
    requires { list < length reader.now.rows.now.1 }
    ensures { result ≡ anonymous_result (code_at reader.now.rows.now list) }
{
    match reader.rows.code(list) {
        CodeNode::More { first, .. } => is_anonymous_indication(reader, *first),
        _ => false,
    }
}
