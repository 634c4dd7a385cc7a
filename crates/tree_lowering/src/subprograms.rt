//! What subprograms and the declarations of packages stand for.
#![tactic(auto, using(crate::proofs::Steps::before_step, expression_lowering::proofs::Steps::code_step, resolved_tree::proofs::Grown::grew_on, resolved_tree::proofs::Grown::kept, resolved_tree::proofs::Grown::kept_code, std::proofs::lemmas::Grind::common_steps), unfolding(crate::specs::Lowered::lowered_formal, crate::specs::Lowered::lowered_next_formal, crate::specs::Lowered::lowered_subspec, crate::specs::Lowered::lowered_subprogram, crate::specs::Lowered::decl_before))]

ghost use Rattle.std.specs.Prelude.{◌≡◌, ◌<◌, IfOk, length, map};
ghost use Rattle.resolved_tree.specs.Trees as t;
ghost use Rattle.resolved_tree.specs.Trees.{code_list};
ghost use Rattle.resolved_tree.specs.Nodes.{code_at, Grew, HoldsCode};
ghost use Rattle.tree_lowering.specs.Lowered.{decl_before, declared, declared_all, lowered_decls, lowered_formal, lowered_formals, lowered_indication, lowered_next_formal, lowered_subprogram, lowered_subspec, mode_of};

use crate::identifiers::{declared, declared_all};
use crate::items::{indication, item, items};
use crate::statements::stmts;
use ada_tree::{
    Decl, Formal, Formals, Identifier, Indication, NextFormal, NextIdentifier, SubprogramBody,
    Subspec,
};
use expression_lowering::{NumberIndex, mark};
use place_names::Mode;
use resolved_tree::{CodeNode, Rows};
use spark_base::{Boxed, Pos};
use std::alloc::AllocError;

/// [`in`] [`out`]
fn mode_of(in_word: Option<Pos>, out_word: Option<Pos>) -> Mode
    ensures { result ≡ mode_of in_word out_word }
{
    match (in_word, out_word) {
        (_, None) => Mode::In,
        (None, Some(_)) => Mode::Out,
        (Some(_), Some(_)) => Mode::InOut,
    }
}

/// Formals of what was made.
fn formals_of(
    first: &Identifier,
    rest: &[NextIdentifier],
    mode: Mode,
    of: usize,
    numbers: &NumberIndex,
    rows: &mut Rows,
) -> Result<usize, AllocError>
    requires { of < length rows.old.1 }
    ensures code { IfOk result (λ n. HoldsCode rows.new n (t.Formals (declared_all numbers.now first.now rest.now) mode (code_at rows.old of))) }
    ensures grew { Grew rows.old rows.new }
{
    let names = declared_all(first, rest, numbers, rows)?;
    rows.push_code(CodeNode::Formals { names, mode, of })
}

/// formal
fn formal(tree: &Formal, numbers: &NumberIndex, rows: &mut Rows) -> Result<usize, AllocError>
    ensures code { IfOk result (λ n. HoldsCode rows.new n (lowered_formal numbers.now tree.now)) }
    ensures grew { Grew rows.old rows.new }
{
    match tree {
        Formal::Moded {
            first,
            rest,
            in_word,
            out_word,
            mark: part,
            ..
        } => {
            let of = rows.push_code(CodeNode::Plain {
                mark: mark(part, numbers),
            })?;
            formals_of(
                first,
                rest.as_slice(),
                mode_of(*in_word, *out_word),
                of,
                numbers,
                rows,
            )
        }
        Formal::Anonymous {
            first,
            rest,
            access,
            constant,
            designated,
            ..
        } => {
            let of = rows.push_code(CodeNode::Anonymous {
                pos: *access,
                constant: constant.is_some(),
                mark: mark(designated, numbers),
            })?;
            formals_of(first, rest.as_slice(), Mode::In, of, numbers, rows)
        }
    }
}

/// {`;` formal}
fn next_formals(
    trees: &[NextFormal],
    numbers: &NumberIndex,
    rows: &mut Rows,
) -> Result<usize, AllocError>
    ensures code { IfOk result (λ n. HoldsCode rows.new n (code_list (map (lowered_next_formal numbers.now) trees.now))) }
    ensures grew { Grew rows.old rows.new }
{
    let mut made = rows.push_code(CodeNode::NoMore)?;
    let mut left = trees.len();
    'turns: while left > 0 {
        left -= 1;
        let NextFormal::Semicolon { formal: part, .. } = &trees[left];
        let first = formal(part.get(), numbers, rows)?;
        made = rows.push_code(CodeNode::More { first, rest: made })?;
    }
    Ok(made)
}

/// [formals]
fn formals(
    tree: &Option<Boxed<Formals>>,
    numbers: &NumberIndex,
    rows: &mut Rows,
) -> Result<usize, AllocError>
    ensures code { IfOk result (λ n. HoldsCode rows.new n (lowered_formals numbers.now tree.now)) }
    ensures grew { Grew rows.old rows.new }
{
    match tree {
        None => rows.push_code(CodeNode::NoMore),
        Some(part) => {
            let rest = next_formals(part.get().rest.as_slice(), numbers, rows)?;
            let first = formal(part.get().first.get(), numbers, rows)?;
            rows.push_code(CodeNode::More { first, rest })
        }
    }
}

/// [`return` (mark | anon)]
fn result_of(tree: &Indication, numbers: &NumberIndex, rows: &mut Rows) -> Result<usize, AllocError>
    ensures code { IfOk result (λ n. HoldsCode rows.new n (t.More (lowered_indication numbers.now tree.now) t.NoMore)) }
    ensures grew { Grew rows.old rows.new }
{
    let rest = rows.push_code(CodeNode::NoMore)?;
    let first = indication(tree, numbers, rows)?;
    rows.push_code(CodeNode::More { first, rest })
}

/// The front of a subprogram, with the list of no result or one.
fn front(
    id: &Identifier,
    part: &Option<Boxed<Formals>>,
    of: usize,
    numbers: &NumberIndex,
    rows: &mut Rows,
) -> Result<usize, AllocError>
    requires { of < length rows.old.1 }
    ensures code { IfOk result (λ n. HoldsCode rows.new n (t.Front (declared numbers.now id.now) (lowered_formals numbers.now part.now) (code_at rows.old of))) }
    ensures grew { Grew rows.old rows.new }
{
    let name = declared(id, numbers, rows)?;
    let formals = formals(part, numbers, rows)?;
    rows.push_code(CodeNode::Front {
        name,
        formals,
        result: of,
    })
}

/// subspec
fn subspec(tree: &Subspec, numbers: &NumberIndex, rows: &mut Rows) -> Result<usize, AllocError>
    ensures code { IfOk result (λ n. HoldsCode rows.new n (lowered_subspec numbers.now tree.now)) }
    ensures grew { Grew rows.old rows.new }
{
    match tree {
        Subspec::Procedure {
            name: id,
            formals: part,
            ..
        } => {
            let none = rows.push_code(CodeNode::NoMore)?;
            front(id, part, none, numbers, rows)
        }
        Subspec::Function {
            name: id,
            formals: part,
            result,
            ..
        } => {
            let of = result_of(result, numbers, rows)?;
            front(id, part, of, numbers, rows)
        }
    }
}

/// subbody
pub fn subprogram(
    tree: &SubprogramBody,
    numbers: &NumberIndex,
    rows: &mut Rows,
) -> Result<usize, AllocError>
    ensures code { IfOk result (λ n. HoldsCode rows.new n (lowered_subprogram numbers.now tree.now)) }
    ensures grew { Grew rows.old rows.new }
{
    let front = subspec(tree.spec.get(), numbers, rows)?;
    let items = items(tree.items.as_slice(), numbers, rows)?;
    let stmts = stmts(tree.stmts.get(), numbers, rows)?;
    rows.push_code(CodeNode::SubBody {
        front,
        items,
        stmts,
        end: tree.end,
    })
}

/// decl, before others
pub fn decl(
    tree: &Decl,
    rest: usize,
    numbers: &NumberIndex,
    rows: &mut Rows,
) -> Result<usize, AllocError>
    requires { rest < length rows.old.1 }
    ensures code { IfOk result (λ n. HoldsCode rows.new n (decl_before numbers.now (code_at rows.old rest) tree.now)) }
    ensures grew { Grew rows.old rows.new }
{
    match tree {
        Decl::OfItem { item: part, .. } => item(part.get(), rest, numbers, rows),
        Decl::Subprogram { spec, .. } => {
            let front = subspec(spec.get(), numbers, rows)?;
            let first = rows.push_code(CodeNode::SubDecl { front })?;
            rows.push_code(CodeNode::More { first, rest })
        }
    }
}

/// {decl}
pub fn decls(trees: &[Decl], numbers: &NumberIndex, rows: &mut Rows) -> Result<usize, AllocError>
    ensures code { IfOk result (λ n. HoldsCode rows.new n (lowered_decls numbers.now trees.now)) }
    ensures grew { Grew rows.old rows.new }
{
    let mut made = rows.push_code(CodeNode::NoMore)?;
    let mut left = trees.len();
    'turns: while left > 0 {
        left -= 1;
        made = decl(&trees[left], made, numbers, rows)?;
    }
    Ok(made)
}
