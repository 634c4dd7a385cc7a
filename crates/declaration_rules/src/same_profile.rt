//! Whether the profile of a body is that of its declaration (Ada 2012, 6.3.1).
ghost use Rattle.std.specs.Prelude.{◌≡◌, ◌<◌, ◌∷◌, ◌++◌, List, length, MatchOption, false};
ghost use Rattle.resolved_tree.specs.Nodes.{code_at};
ghost use Rattle.resolved_tree.specs.Trees.{Plain};
ghost use Rattle.type_definitions.specs.declared.table.FormalInfo.{FormalInfo};
ghost use Rattle.type_definitions.specs.Entries.{same_word};
ghost use Rattle.type_definitions.specs.Declarations.{agrees, front_pos, result_is, same_access, same_formal, same_formals, same_indicated, same_mode, same_result};
ghost use Rattle.type_definitions.specs.Gathered.{declared_text, formal_group, formal_groups, formal_infos, front_number};
ghost use Rattle.expression_types.specs.Here.{here};
ghost use Rattle.declaration_rules.specs.Formals.{formal_of};

use crate::declared::{NOWHERE, declared_number, declared_pos};
use crate::marks::{indicated, indicates_type};
use expression_types::{Reader, designated, is_anonymous, same_word, to_constant};
use place_names::Mode;
use resolved_tree::{CodeNode, Mark};
use spark_base::Pos;
use type_definitions::FormalInfo;

/// Whether two modes are one.
fn same_mode(mode: Mode, other: Mode) -> bool
    ensures { result ≡ same_mode mode other }
{
    match (mode, other) {
        (Mode::In, Mode::In) => true,
        (Mode::Out, Mode::Out) => true,
        (Mode::InOut, Mode::InOut) => true,
        _ => false,
    }
}

/// Whether two types of profiles are one type with the same bounds, or anonymous access types that
/// are both access-to-constant or neither, with such designated types.
fn same_indicated(reader: &Reader<'_>, s: u32, t: u32) -> bool
    ensures { result ≡ same_indicated (here reader.now).known.table s t }
{
    let first = reader.full(s);
    let second = reader.full(t);
    if is_anonymous(first) && is_anonymous(second) {
        to_constant(first) == to_constant(second)
            && reader.is_same(designated(first), designated(second))
    } else {
        reader.is_same(s, t)
    }
}

/// Whether an identifier is declared with this text.
fn has_text(reader: &Reader<'_>, text: &[u8], name: usize) -> bool
    requires { name < length reader.now.rows.now.1 }
    ensures { result ≡ same_word text.now (declared_text (code_at reader.now.rows.now name)) }
{
    match reader.rows.code(name) {
        CodeNode::Declared { text: word, .. } => same_word(text, word.as_bytes()),
        _ => same_word(text, &[]),
    }
}

/// Whether the specification's formal equals the body's, which has this mode, indication and
/// identifier.
fn same_formal(reader: &Reader<'_>, formal: &FormalInfo, mode: Mode, of: usize, name: usize) -> bool
    requires of { of < length reader.now.rows.now.1 }
    requires name { name < length reader.now.rows.now.1 }
    ensures { result ≡ same_formal (here reader.now).known.table formal.now (formal_of (here reader.now).known mode (code_at reader.now.rows.now of) (code_at reader.now.rows.now name)) }
{
    let named = indicated(reader, declared_number(reader, name), of);
    has_text(reader, formal.name.as_bytes(), name)
        && same_mode(formal.mode, mode)
        && (!indicates_type(reader, of) || same_indicated(reader, formal.of, named))
}

/// The formals of a declaration after the first, where that is this one of the body.
fn same_first<'f>(
    reader: &Reader<'_>,
    formals: &'f [FormalInfo],
    mode: Mode,
    of: usize,
    name: usize,
) -> Option<&'f [FormalInfo]>
    requires of { of < length reader.now.rows.now.1 }
    requires name { name < length reader.now.rows.now.1 }
    ensures { (rest : List FormalInfo) → MatchOption result
        (same_formals (here reader.now).known.table formals.now (formal_of (here reader.now).known mode (code_at reader.now.rows.now of) (code_at reader.now.rows.now name) ∷ rest) ≡ false)
        (λ left. same_formals (here reader.now).known.table formals.now (formal_of (here reader.now).known mode (code_at reader.now.rows.now of) (code_at reader.now.rows.now name) ∷ rest) ≡ same_formals (here reader.now).known.table left.now rest) }
{
    let (formal, left) = formals.split_first()?;
    if same_formal(reader, formal, mode, of, name) {
        Some(left)
    } else {
        None
    }
}

/// The formals of a declaration after those of the body that have one mark, where they are the
/// same.
fn same_group<'f>(
    reader: &Reader<'_>,
    formals: &'f [FormalInfo],
    mode: Mode,
    of: usize,
    names: usize,
) -> Option<&'f [FormalInfo]>
    requires of { of < length reader.now.rows.now.1 }
    requires names { names < length reader.now.rows.now.1 }
    ensures { (rest : List FormalInfo) → MatchOption result
        (same_formals (here reader.now).known.table formals.now (formal_group (here reader.now).known false mode (code_at reader.now.rows.now of) (code_at reader.now.rows.now names) ++ rest) ≡ false)
        (λ left. same_formals (here reader.now).known.table formals.now (formal_group (here reader.now).known false mode (code_at reader.now.rows.now of) (code_at reader.now.rows.now names) ++ rest) ≡ same_formals (here reader.now).known.table left.now rest) }
{
    let mut left = formals;
    let mut i = names;
    'names: while let CodeNode::More { first, rest } = reader.rows.code(i) {
        left = same_first(reader, left, mode, of, *first)?;
        i = *rest;
    }
    Some(left)
}

/// The same with an item of the body's list of formals.
fn same_item<'f>(
    reader: &Reader<'_>,
    formals: &'f [FormalInfo],
    item: usize,
) -> Option<&'f [FormalInfo]>
    requires { item < length reader.now.rows.now.1 }
    ensures { (rest : List FormalInfo) → MatchOption result
        (same_formals (here reader.now).known.table formals.now (formal_groups (here reader.now).known false (code_at reader.now.rows.now item) ++ rest) ≡ false)
        (λ left. same_formals (here reader.now).known.table formals.now (formal_groups (here reader.now).known false (code_at reader.now.rows.now item) ++ rest) ≡ same_formals (here reader.now).known.table left.now rest) }
{
    match reader.rows.code(item) {
        CodeNode::Formals { names, mode, of } => same_group(reader, formals, *mode, *of, *names),
        _ => Some(formals),
    }
}

/// Whether the formals of a declaration are those of the body.
fn same_formals(reader: &Reader<'_>, formals: &[FormalInfo], list: usize) -> bool
    requires { list < length reader.now.rows.now.1 }
    ensures { result ≡ same_formals (here reader.now).known.table formals.now (formal_infos (here reader.now).known false (code_at reader.now.rows.now list)) }
{
    let mut left = formals;
    let mut i = list;
    'items: while let CodeNode::More { first, rest } = reader.rows.code(i) {
        let Some(behind) = same_item(reader, left, *first) else {
            return false;
        };
        left = behind;
        i = *rest;
    }
    left.is_empty()
}

/// Whether a result is of an anonymous access type with this designated type.
fn same_access(reader: &Reader<'_>, of: u32, constant: bool, designated_here: u32) -> bool
    ensures { result ≡ same_access (here reader.now).known.table of constant designated_here }
{
    let view = reader.full(of);
    is_anonymous(view)
        && to_constant(view) == constant
        && reader.is_same(designated(view), designated_here)
}

/// Whether a result is of the type of this mark.
fn same_named(reader: &Reader<'_>, of: u32, mark: Mark) -> bool
    ensures { result ≡ result_is (here reader.now).known of (Plain mark) }
{
    let is_named = !is_anonymous(reader.full(of));
    !reader.denotes_type(mark.decl) || is_named && reader.is_same(of, reader.marked(mark))
}

/// Whether the type of a declaration's result is what the body says.
fn result_is(reader: &Reader<'_>, of: u32, indication: usize) -> bool
    requires { indication < length reader.now.rows.now.1 }
    ensures { result ≡ result_is (here reader.now).known of (code_at reader.now.rows.now indication) }
{
    match reader.rows.code(indication) {
        CodeNode::Plain { mark } => same_named(reader, of, *mark),
        CodeNode::Anonymous { constant, mark, .. } => {
            let is_same = same_access(reader, of, *constant, reader.marked(*mark));
            !reader.denotes_type(mark.decl) || is_same
        }
        _ => true,
    }
}

/// Whether the result of a declaration is that of the body.
fn same_result(reader: &Reader<'_>, result_of: Option<u32>, list: usize) -> bool
    requires { list < length reader.now.rows.now.1 }
    ensures { result ≡ same_result (here reader.now).known result_of (code_at reader.now.rows.now list) }
{
    match reader.rows.code(list) {
        CodeNode::More { first, .. } => match result_of {
            Some(of) => result_is(reader, of, *first),
            None => false,
        },
        _ => result_of.is_none(),
    }
}

/// The number of a subprogram.
pub fn front_number(reader: &Reader<'_>, front: usize) -> u32
    requires { front < length reader.now.rows.now.1 }
    ensures { result ≡ front_number (code_at reader.now.rows.now front) }
{
    match reader.rows.code(front) {
        CodeNode::Front { name, .. } => declared_number(reader, *name),
        _ => 0,
    }
}

/// The position of its identifier.
pub fn front_pos(reader: &Reader<'_>, front: usize) -> Pos
    requires { front < length reader.now.rows.now.1 }
    ensures { result ≡ front_pos (code_at reader.now.rows.now front) }
{
    match reader.rows.code(front) {
        CodeNode::Front { name, .. } => declared_pos(reader, *name),
        _ => NOWHERE,
    }
}

/// Whether the profile of a body is that of its declaration.
#[tactic(auto, using(crate::proofs::BodyFormals::infos_any))]
pub fn agrees(reader: &Reader<'_>, front: usize) -> bool
    requires { front < length reader.now.rows.now.1 }
    ensures { result ≡ agrees (here reader.now).known (code_at reader.now.rows.now front) }
{
    let number = front_number(reader, front);
    match reader.rows.code(front) {
        CodeNode::Front {
            formals,
            result,
            ..
        } => {
            same_formals(reader, reader.formals(number), *formals)
                && same_result(reader, reader.result(number), *result)
        }
        _ => true,
    }
}
