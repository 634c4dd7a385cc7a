//! The sentences on the profiles of subprograms (Ada 2012, 6.1 and 6.3.1).
ghost use Rattle.std.specs.Prelude.{◌≡◌, ◌<◌, ◌&&◌, length, is_some};
ghost use Rattle.resolved_tree.specs.Nodes.{code_at};
ghost use Rattle.type_definitions.specs.Types.{full};
ghost use Rattle.type_definitions.specs.Faults.{noted};
ghost use Rattle.type_definitions.specs.Expressions.{is_anonymous, is_in, result_type};
ghost use Rattle.type_definitions.specs.Declarations.{body_faults, formal_faults, formals_faults, formals_group, front_faults, group_faults, is_traversable, profile_faults, result_faults};
ghost use Rattle.type_definitions.specs.Gathered.{declared_number, profile_from};
ghost use Rattle.expression_types.specs.Here.{here};
ghost use Rattle.expression_rules.specs.Around.{context};

use crate::declared::{declared_number, declared_pos, has_none};
use crate::marks::{
    indicated, indicates_type, indication_faults, is_anonymous_indication, result_indicated,
};
use crate::same_profile::{agrees, front_pos};
use expression_rules::Checker;
use expression_types::{INTEGER, Reader, is_access, is_anonymous, to_constant};
use place_names::Mode;
use resolved_tree::CodeNode;
use type_definitions::Fault;
use type_settled::demand;

/// Whether it is the mode `in`.
fn is_in(mode: Mode) -> bool
    ensures { result ≡ is_in mode }
{
    matches!(mode, Mode::In)
}

/// Whether a formal may be the first one of a traversal function with this result.
fn is_traversable(reader: &Reader<'_>, result_of: Option<u32>, mode: Mode, of: u32) -> bool
    ensures { result ≡ is_traversable (here reader.now) result_of mode of }
{
    let constant = to_constant(reader.full(result_of.unwrap_or(INTEGER)));
    is_in(mode) && is_access(reader.seen(of)) && (!to_constant(reader.full(of)) || constant)
}

/// With the faults of a formal of a subprogram with this result. `traversed` says that it is the
/// first one of a traversal function.
#[tactic(auto, using(expression_rules::proofs::Noted::noted_append))]
fn formal_faults(
    checker: &Checker<'_>,
    found: Option<Fault>,
    result_of: Option<u32>,
    traversed: bool,
    mode: Mode,
    of: usize,
    name: usize,
) -> Option<Fault>
    requires of { of < length checker.now.rows.now.1 }
    requires name { name < length checker.now.rows.now.1 }
    ensures { result ≡ noted found (formal_faults (context checker.now) (is_some result_of) result_of traversed mode
        (code_at checker.now.rows.now of) (code_at checker.now.rows.now name)) }
{
    let reader = checker.reader();
    let pos = declared_pos(&reader, name);
    let named = indicated(&reader, declared_number(&reader, name), of);
    let traversable = is_traversable(&reader, result_of, mode, named);
    let found = demand(found, 3, pos, result_of.is_none() || is_in(mode));
    let found = demand(
        found,
        6,
        pos,
        !is_anonymous_indication(&reader, of) || traversed,
    );
    demand(
        found,
        6,
        pos,
        !(traversed && indicates_type(&reader, of)) || traversable,
    )
}

/// With the faults of formals that have one mark.
#[tactic(auto, using(expression_rules::proofs::Noted::noted_append))]
fn group_faults(
    checker: &Checker<'_>,
    found: Option<Fault>,
    result_of: Option<u32>,
    traversed: bool,
    mode: Mode,
    of: usize,
    names: usize,
) -> Option<Fault>
    requires of { of < length checker.now.rows.now.1 }
    requires names { names < length checker.now.rows.now.1 }
    ensures { result ≡ noted found (group_faults (context checker.now) (is_some result_of) result_of traversed mode
        (code_at checker.now.rows.now of) (code_at checker.now.rows.now names)) }
{
    let mut found = found;
    let mut traversed = traversed;
    let mut i = names;
    'names: while let CodeNode::More { first, rest } = checker.rows.code(i) {
        found = formal_faults(checker, found, result_of, traversed, mode, of, *first);
        traversed = false;
        i = *rest;
    }
    found
}

/// With the faults of such formals and of their mark.
#[tactic(auto, using(expression_rules::proofs::Noted::noted_append))]
fn formals_group(
    checker: &Checker<'_>,
    found: Option<Fault>,
    result_of: Option<u32>,
    traversed: bool,
    group: usize,
) -> Option<Fault>
    requires { group < length checker.now.rows.now.1 }
    ensures { result ≡ noted found (formals_group (context checker.now) (is_some result_of) result_of traversed
        (code_at checker.now.rows.now group)) }
{
    match checker.rows.code(group) {
        CodeNode::Formals { names, mode, of } => {
            let found = indication_faults(checker, found, *of);
            group_faults(checker, found, result_of, traversed, *mode, *of, *names)
        }
        _ => found,
    }
}

/// With the faults of all formals.
#[tactic(auto, using(expression_rules::proofs::Noted::noted_append))]
fn formals_faults(
    checker: &Checker<'_>,
    found: Option<Fault>,
    result_of: Option<u32>,
    traversed: bool,
    formals: usize,
) -> Option<Fault>
    requires { formals < length checker.now.rows.now.1 }
    ensures { result ≡ noted found (formals_faults (context checker.now) (is_some result_of) result_of traversed
        (code_at checker.now.rows.now formals)) }
{
    let mut found = found;
    let mut traversed = traversed;
    let mut i = formals;
    'groups: while let CodeNode::More { first, rest } = checker.rows.code(i) {
        found = formals_group(checker, found, result_of, traversed, *first);
        traversed = false;
        i = *rest;
    }
    found
}

/// With the faults of what a function's result is of, where there is one.
fn result_faults(checker: &Checker<'_>, found: Option<Fault>, list: usize) -> Option<Fault>
    requires { list < length checker.now.rows.now.1 }
    ensures { result ≡ noted found (result_faults (context checker.now).known (code_at checker.now.rows.now list)) }
{
    match checker.rows.code(list) {
        CodeNode::More { first, .. } => indication_faults(checker, found, *first),
        _ => found,
    }
}

/// Whether a result is one of a traversal function: it is of an anonymous access type.
fn is_traversal(reader: &Reader<'_>, result_of: Option<u32>) -> bool
    ensures { result ≡ (is_some result_of && is_anonymous (full (here reader.now).known.table (result_type result_of))) }
{
    match result_of {
        Some(of) => is_anonymous(reader.full(of)),
        None => false,
    }
}

/// With the faults of the front of a subprogram.
#[tactic(auto, using(expression_rules::proofs::Noted::noted_append))]
pub fn front_faults(checker: &Checker<'_>, found: Option<Fault>, front: usize) -> Option<Fault>
    requires { front < length checker.now.rows.now.1 }
    ensures { result ≡ noted found (front_faults (context checker.now) (code_at checker.now.rows.now front)) }
{
    match checker.rows.code(front) {
        CodeNode::Front {
            name,
            formals,
            result,
        } => profile_faults(checker, found, *name, *formals, *result),
        _ => found,
    }
}

/// With the faults of a subprogram's identifier, formals and result.
#[tactic(auto, using(expression_rules::proofs::Noted::noted_append))]
fn profile_faults(
    checker: &Checker<'_>,
    found: Option<Fault>,
    name: usize,
    formals: usize,
    list: usize,
) -> Option<Fault>
    requires name { name < length checker.now.rows.now.1 }
    requires formals { formals < length checker.now.rows.now.1 }
    requires list { list < length checker.now.rows.now.1 }
    ensures { result ≡ noted found (profile_faults (context checker.now) (code_at checker.now.rows.now name)
        (code_at checker.now.rows.now formals) (code_at checker.now.rows.now list)
        (profile_from (context checker.now).known (declared_number (code_at checker.now.rows.now name))
        (code_at checker.now.rows.now formals) (code_at checker.now.rows.now list))) }
{
    let reader = checker.reader();
    let result_of = result_indicated(&reader, declared_number(&reader, name), list);
    let traversal = is_traversal(&reader, result_of);
    let found = result_faults(checker, found, list);
    let found = formals_faults(checker, found, result_of, traversal, formals);
    let holds = !(traversal && has_none(&reader, formals));
    demand(found, 6, declared_pos(&reader, name), holds)
}

/// With the faults of the front of a body: its profile is that of its declaration.
#[tactic(auto, using(expression_rules::proofs::Noted::noted_append))]
pub fn body_faults(checker: &Checker<'_>, found: Option<Fault>, front: usize) -> Option<Fault>
    requires { front < length checker.now.rows.now.1 }
    ensures { result ≡ noted found (body_faults (context checker.now) (code_at checker.now.rows.now front)) }
{
    let reader = checker.reader();
    let found = front_faults(checker, found, front);
    demand(found, 3, front_pos(&reader, front), agrees(&reader, front))
}
