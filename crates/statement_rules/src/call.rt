//! The sentences on calls that are statements (Ada 2012, 6.4).
ghost use Rattle.std.specs.Prelude.{◌≡◌, ◌<◌, ◌++◌, [], ◌∷◌, length, IfSome, Some};
ghost use Rattle.std.specs.Option.{option_map};
ghost use Rattle.resolved_tree.specs.Nodes.{tree_at};
ghost use Rattle.type_definitions.specs.Faults.{noted, demand};
ghost use Rattle.type_definitions.specs.Entries.{entry_of};
ghost use Rattle.type_definitions.specs.Expressions.{associates, given_names};
ghost use Rattle.type_definitions.specs.Statements.{actuals_of, call_faults, called, is_no, is_one, name_x, predefined_call, procedure_call, text_argument, variable_argument};
ghost use Rattle.expression_types.specs.Here.{here};
ghost use Rattle.expression_rules.specs.Around.{context};
ghost use Rattle.statement_rules.specs.Calls.{may_be_x};

use ada_tree::Word;
use expression_rules::Checker;
use expression_types::{INTEGER, Reader, same_word};
use resolved_tree::Node;
use spark_base::Pos;
use type_definitions::{Entry, Fault, Predefined, Profile, Role};
use type_settled::demand;

/// The formal of an instance of Unchecked_Deallocation (Ada 2012, 13.11.2).
const NAME_X: [u8; 1] = *b"X";

/// The actuals after the name of a call: none where something else stands there too.
fn actuals_of(reader: &Reader<'_>, rest: usize) -> Option<usize>
    requires { rest < length reader.now.rows.now.0 }
    ensures actuals { option_map (tree_at reader.now.rows.now) result ≡ actuals_of (tree_at reader.now.rows.now rest) }
    ensures within { IfSome result (λ n. n < length reader.now.rows.now.0) }
{
    match reader.rows.node(rest) {
        Node::NoMore => Some(rest),
        Node::More { first, rest } => {
            let is_last = reader.is_end(*rest);
            match reader.rows.node(*first) {
                Node::Applied { args } if is_last => Some(*args),
                _ => None,
            }
        }
        _ => None,
    }
}

/// Whether there are no actuals.
fn is_no(reader: &Reader<'_>, args: usize) -> bool
    requires { args < length reader.now.rows.now.0 }
    ensures { result ≡ is_no (given_names (tree_at reader.now.rows.now args)) }
{
    !matches!(reader.rows.node(args), Node::Argument { .. })
}

/// Whether there is one actual, by position.
#[tactic(auto, using(crate::proofs::Calls::one_given))]
fn is_one(reader: &Reader<'_>, args: usize) -> bool
    requires { args < length reader.now.rows.now.0 }
    ensures { result ≡ is_one (given_names (tree_at reader.now.rows.now args)) }
{
    match reader.rows.node(args) {
        Node::Argument {
            name: None,
            rest,
            ..
        } => is_no(reader, *rest),
        _ => false,
    }
}

/// Whether an actual may be for X: it is by position, or named so.
fn may_be_x(name: &Option<Word>) -> bool
    ensures { result ≡ may_be_x name.now }
{
    match name {
        Some(word) => same_word(&NAME_X, word.as_bytes()),
        None => true,
    }
}

/// Whether there is one actual, by position or as X.
#[tactic(auto, using(crate::proofs::Calls::one_for_x))]
fn is_for_x(reader: &Reader<'_>, args: usize) -> bool
    requires { args < length reader.now.rows.now.0 }
    ensures { result ≡ associates (name_x ∷ []) (given_names (tree_at reader.now.rows.now args)) }
{
    match reader.rows.node(args) {
        Node::Argument { name, rest, .. } => is_no(reader, *rest) && may_be_x(name),
        _ => false,
    }
}

/// With the faults of the first actual, which has to be a variable of this type.
#[tactic(auto, using(expression_rules::proofs::Noted::noted_append))]
fn variable_argument(
    checker: &Checker<'_>,
    found: Option<Fault>,
    of: u32,
    args: usize,
) -> Option<Fault>
    requires { args < length checker.now.rows.now.0 }
    ensures { result ≡ noted found (variable_argument (context checker.now) of (tree_at checker.now.rows.now args)) }
{
    match checker.rows.node(args) {
        Node::Argument { value, .. } => {
            let found = checker.around_variable(found, of, *value);
            checker.inside(found, false, of, *value)
        }
        _ => found,
    }
}

/// With the faults of the first actual, which has to be a string expression.
#[tactic(auto, using(expression_rules::proofs::Noted::noted_append))]
fn text_argument(checker: &Checker<'_>, found: Option<Fault>, args: usize) -> Option<Fault>
    requires { args < length checker.now.rows.now.0 }
    ensures { result ≡ noted found (text_argument (context checker.now) (tree_at checker.now.rows.now args)) }
{
    match checker.rows.node(args) {
        Node::Argument { value, .. } => {
            let found = checker.around_string(found, *value);
            checker.inside(found, false, INTEGER, *value)
        }
        _ => found,
    }
}

/// With the faults of a call of a predefined procedure.
#[tactic(auto, using(expression_rules::proofs::Noted::noted_append))]
fn predefined_call(
    checker: &Checker<'_>,
    found: Option<Fault>,
    pos: Pos,
    which: Predefined,
    args: usize,
) -> Option<Fault>
    requires { args < length checker.now.rows.now.0 }
    ensures { result ≡ noted found (predefined_call (context checker.now) pos which (tree_at checker.now.rows.now args)) }
{
    let reader = checker.reader();
    match which {
        Predefined::Put | Predefined::PutLine => {
            let found = demand(found, 3, pos, is_one(&reader, args));
            text_argument(checker, found, args)
        }
        Predefined::NewLine => demand(found, 3, pos, is_no(&reader, args)),
        Predefined::Get => {
            let found = demand(found, 3, pos, is_one(&reader, args));
            variable_argument(checker, found, INTEGER, args)
        }
        Predefined::EndOfFile | Predefined::Deallocation => demand(found, 3, pos, false),
    }
}

/// With the faults of a call of a procedure of the program.
#[tactic(auto, using(expression_rules::proofs::Noted::noted_append))]
fn procedure_call(
    checker: &Checker<'_>,
    found: Option<Fault>,
    pos: Pos,
    decl: u32,
    profile: &Profile,
    args: usize,
) -> Option<Fault>
    requires { args < length checker.now.rows.now.0 }
    ensures { result ≡ noted found (procedure_call (context checker.now) pos decl profile.now (tree_at checker.now.rows.now args)) }
{
    let fits = checker
        .reader()
        .fits_formals(profile.formals.as_slice(), args);
    let found = demand(found, 3, pos, profile.result.is_none() && fits);
    checker.arguments(found, Role::Actuals { of: decl }, args)
}

/// With the faults of a call of an instance of Unchecked_Deallocation for this access type.
#[tactic(auto, using(expression_rules::proofs::Noted::noted_append))]
fn instance_call(
    checker: &Checker<'_>,
    found: Option<Fault>,
    pos: Pos,
    name: u32,
    args: usize,
) -> Option<Fault>
    requires { args < length checker.now.rows.now.0 }
    ensures { result ≡ noted found (demand 3 pos (associates (name_x ∷ []) (given_names (tree_at checker.now.rows.now args)))
        ++ variable_argument (context checker.now) name (tree_at checker.now.rows.now args)) }
{
    let found = demand(found, 3, pos, is_for_x(&checker.reader(), args));
    variable_argument(checker, found, name, args)
}

/// With the faults of a call of what a declaration is, with these actuals.
fn called(
    checker: &Checker<'_>,
    found: Option<Fault>,
    pos: Pos,
    decl: u32,
    args: usize,
) -> Option<Fault>
    requires { args < length checker.now.rows.now.0 }
    ensures { result ≡ noted found (called (context checker.now) pos decl (entry_of (context checker.now).known decl)
        (Some (tree_at checker.now.rows.now args))) }
{
    match checker.reader().known.entries.as_slice().get(decl as usize) {
        Some(Entry::Subprogram { profile }) => {
            procedure_call(checker, found, pos, decl, profile, args)
        }
        Some(Entry::Instance { name }) => instance_call(checker, found, pos, *name, args),
        Some(Entry::Predefined { which }) => predefined_call(checker, found, pos, *which, args),
        _ => demand(found, 3, pos, false),
    }
}

/// With the faults of a call statement: its name is that of a procedure or of an instance.
pub fn call_faults(checker: &Checker<'_>, found: Option<Fault>, name: usize) -> Option<Fault>
    requires { name < length checker.now.rows.now.0 }
    ensures { result ≡ noted found (call_faults (context checker.now) (tree_at checker.now.rows.now name)) }
{
    let reader = checker.reader();
    match checker.rows.node(name) {
        Node::Named { pos, decl, rest } => match actuals_of(&reader, *rest) {
            Some(args) => called(checker, found, *pos, *decl, args),
            None => demand(found, 3, *pos, false),
        },
        _ => demand(found, 3, reader.position(name), false),
    }
}
