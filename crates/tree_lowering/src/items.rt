//! What items stand for.
#![tactic(auto, using(crate::proofs::Steps::before_step, expression_lowering::proofs::Steps::code_step, resolved_tree::proofs::Grown::grew_on, resolved_tree::proofs::Grown::kept, resolved_tree::proofs::Grown::kept_code, std::proofs::lemmas::Grind::common_steps), unfolding(crate::specs::Lowered::lowered_indication, crate::specs::Lowered::lowered_component, crate::specs::Lowered::lowered_subtype, crate::specs::Lowered::lowered_type, crate::specs::Lowered::lowered_declaration, crate::specs::Lowered::item_before))]

ghost use Rattle.std.specs.Prelude.{◌≡◌, ◌<◌, IfOk, is_some, length, map};
ghost use Rattle.resolved_tree.specs.Trees as t;
ghost use Rattle.resolved_tree.specs.Trees.{code_list};
ghost use Rattle.resolved_tree.specs.Nodes.{code_at, tree_at, Grew, HoldsCode};
ghost use Rattle.expression_lowering.specs.LoweredExpressions.{lowered_expr, mark_of};
ghost use Rattle.tree_lowering.specs.Lowered.{declared, declared_all, item_before, lowered_component, lowered_declaration, lowered_indication, lowered_items, lowered_subtype, lowered_type};

use crate::identifiers::{components, declared, declared_all, lone};
use ada_tree::{Component, Dotted, Expr, Identifier, Indication, Item, NextIdentifier};
use expression_lowering::{NumberIndex, args, expr, mark, range};
use resolved_tree::{CodeNode, Node, Rows};
use spark_base::Pos;
use std::alloc::AllocError;

/// mark | anon
pub fn indication(
    tree: &Indication,
    numbers: &NumberIndex,
    rows: &mut Rows,
) -> Result<usize, AllocError>
    ensures code { IfOk result (λ n. HoldsCode rows.new n (lowered_indication numbers.now tree.now)) }
    ensures grew { Grew rows.old rows.new }
{
    match tree {
        Indication::Mark { mark: of, .. } => rows.push_code(CodeNode::Plain {
            mark: mark(of, numbers),
        }),
        Indication::Anonymous {
            pos,
            constant,
            designated,
        } => rows.push_code(CodeNode::Anonymous {
            pos: *pos,
            constant: constant.is_some(),
            mark: mark(designated, numbers),
        }),
    }
}

/// comp
fn component(tree: &Component, numbers: &NumberIndex, rows: &mut Rows) -> Result<usize, AllocError>
    ensures code { IfOk result (λ n. HoldsCode rows.new n (lowered_component numbers.now tree.now)) }
    ensures grew { Grew rows.old rows.new }
{
    let Component::Fields {
        first,
        rest,
        mark: of,
        ..
    } = tree;
    let names = components(first, rest.as_slice(), rows)?;
    rows.push_code(CodeNode::Components {
        names,
        mark: mark(of, numbers),
    })
}

/// {comp}
fn next_components(
    trees: &[Component],
    numbers: &NumberIndex,
    rows: &mut Rows,
) -> Result<usize, AllocError>
    ensures code { IfOk result (λ n. HoldsCode rows.new n (code_list (map (lowered_component numbers.now) trees.now))) }
    ensures grew { Grew rows.old rows.new }
{
    let mut made = rows.push_code(CodeNode::NoMore)?;
    let mut left = trees.len();
    'turns: while left > 0 {
        left -= 1;
        let first = component(&trees[left], numbers, rows)?;
        made = rows.push_code(CodeNode::More { first, rest: made })?;
    }
    Ok(made)
}

/// `subtype` id `is` mark `range` low `..` high
fn constrained(
    id: &Identifier,
    of: &Dotted,
    low: &Expr,
    high: &Expr,
    numbers: &NumberIndex,
    rows: &mut Rows,
) -> Result<usize, AllocError>
    ensures code { IfOk result (λ n. HoldsCode rows.new n
        (t.ConstrainedSubtype (declared numbers.now id.now) (mark_of numbers.now of.now) (lowered_expr numbers.now low.now) (lowered_expr numbers.now high.now))) }
    ensures grew { Grew rows.old rows.new }
{
    let name = declared(id, numbers, rows)?;
    let low = expr(low, numbers, rows)?;
    let high = expr(high, numbers, rows)?;
    rows.push_code(CodeNode::ConstrainedSubtype {
        name,
        mark: mark(of, numbers),
        low,
        high,
    })
}

/// subtype
fn subtype(tree: &Item, numbers: &NumberIndex, rows: &mut Rows) -> Result<usize, AllocError>
    ensures code { IfOk result (λ n. HoldsCode rows.new n (lowered_subtype numbers.now tree.now)) }
    ensures grew { Grew rows.old rows.new }
{
    match tree {
        Item::Subtype {
            name: id,
            mark: of,
            ..
        } => {
            let name = declared(id, numbers, rows)?;
            rows.push_code(CodeNode::Subtype {
                name,
                mark: mark(of, numbers),
            })
        }
        Item::ConstrainedSubtype {
            name: id,
            mark: of,
            low,
            high,
            ..
        } => constrained(id, of, low.get(), high.get(), numbers, rows),
        _ => rows.push_code(CodeNode::NoMore),
    }
}

/// `type` id `is` definition
fn full_type(
    id: &Identifier,
    definition: usize,
    end: Pos,
    numbers: &NumberIndex,
    rows: &mut Rows,
) -> Result<usize, AllocError>
    requires { definition < length rows.old.1 }
    ensures code { IfOk result (λ n. HoldsCode rows.new n (t.TypeDecl (declared numbers.now id.now) (code_at rows.old definition) end)) }
    ensures grew { Grew rows.old rows.new }
{
    let name = declared(id, numbers, rows)?;
    rows.push_code(CodeNode::TypeDecl {
        name,
        definition,
        end,
    })
}

/// `(` id {`,` id} `)`
fn enumeration(
    first: &Identifier,
    rest: &[NextIdentifier],
    numbers: &NumberIndex,
    rows: &mut Rows,
) -> Result<usize, AllocError>
    ensures code { IfOk result (λ n. HoldsCode rows.new n (t.Enumeration (declared_all numbers.now first.now rest.now))) }
    ensures grew { Grew rows.old rows.new }
{
    let literals = declared_all(first, rest, numbers, rows)?;
    rows.push_code(CodeNode::Enumeration { literals })
}

/// comp {comp}
fn record_definition(
    first: &Component,
    rest: &[Component],
    numbers: &NumberIndex,
    rows: &mut Rows,
) -> Result<usize, AllocError>
    ensures code { IfOk result (λ n. HoldsCode rows.new n
        (t.Record (t.More (lowered_component numbers.now first.now) (code_list (map (lowered_component numbers.now) rest.now))))) }
    ensures grew { Grew rows.old rows.new }
{
    let rest = next_components(rest, numbers, rows)?;
    let first = component(first, numbers, rows)?;
    let components = rows.push_code(CodeNode::More { first, rest })?;
    rows.push_code(CodeNode::Record { components })
}

/// type
fn type_item(tree: &Item, numbers: &NumberIndex, rows: &mut Rows) -> Result<usize, AllocError>
    ensures code { IfOk result (λ n. HoldsCode rows.new n (lowered_type numbers.now tree.now)) }
    ensures grew { Grew rows.old rows.new }
{
    match tree {
        Item::IncompleteType { name: id, .. } => {
            let name = declared(id, numbers, rows)?;
            rows.push_code(CodeNode::Incomplete { name })
        }
        Item::PrivateType { name: id, .. } => {
            let name = declared(id, numbers, rows)?;
            rows.push_code(CodeNode::Private { name })
        }
        Item::EnumerationType {
            name: id,
            first,
            rest,
            semicolon,
            ..
        } => {
            let definition = enumeration(first, rest.as_slice(), numbers, rows)?;
            full_type(id, definition, *semicolon, numbers, rows)
        }
        Item::RecordType {
            name: id,
            first,
            rest,
            semicolon,
            ..
        } => {
            let definition = record_definition(first, rest.as_slice(), numbers, rows)?;
            full_type(id, definition, *semicolon, numbers, rows)
        }
        Item::ArrayType {
            name: id,
            range: index,
            element,
            semicolon,
            ..
        } => {
            let range = range(index, numbers, rows)?;
            let definition = rows.push_code(CodeNode::Array {
                range,
                mark: mark(element, numbers),
            })?;
            full_type(id, definition, *semicolon, numbers, rows)
        }
        Item::AccessType {
            name: id,
            designated,
            semicolon,
            ..
        } => {
            let definition = rows.push_code(CodeNode::Access {
                mark: mark(designated, numbers),
            })?;
            full_type(id, definition, *semicolon, numbers, rows)
        }
        _ => subtype(tree, numbers, rows),
    }
}

/// Objects, of a list of no value or one.
fn objects(
    first: &Identifier,
    rest: &[NextIdentifier],
    constant: bool,
    of: &Indication,
    value: usize,
    numbers: &NumberIndex,
    rows: &mut Rows,
) -> Result<usize, AllocError>
    requires { value < length rows.old.0 }
    ensures code { IfOk result (λ n. HoldsCode rows.new n
        (t.Objects (declared_all numbers.now first.now rest.now) constant (lowered_indication numbers.now of.now) (tree_at rows.old value))) }
    ensures grew { Grew rows.old rows.new }
{
    let names = declared_all(first, rest, numbers, rows)?;
    let of = indication(of, numbers, rows)?;
    rows.push_code(CodeNode::Objects {
        names,
        constant,
        of,
        value,
    })
}

/// type | subtype | object | instance
fn declaration(tree: &Item, numbers: &NumberIndex, rows: &mut Rows) -> Result<usize, AllocError>
    ensures code { IfOk result (λ n. HoldsCode rows.new n (lowered_declaration numbers.now tree.now)) }
    ensures grew { Grew rows.old rows.new }
{
    match tree {
        Item::Objects {
            first,
            rest,
            constant,
            indication: of,
            ..
        } => {
            let value = rows.push(Node::NoMore)?;
            objects(
                first,
                rest.as_slice(),
                constant.is_some(),
                of,
                value,
                numbers,
                rows,
            )
        }
        Item::InitializedObjects {
            first,
            rest,
            constant,
            indication: of,
            value: part,
            ..
        } => {
            let value = expr(part.get(), numbers, rows)?;
            let value = lone(value, rows)?;
            objects(
                first,
                rest.as_slice(),
                constant.is_some(),
                of,
                value,
                numbers,
                rows,
            )
        }
        Item::Numbers {
            first,
            rest,
            value: part,
            ..
        } => {
            let names = declared_all(first, rest.as_slice(), numbers, rows)?;
            let value = expr(part.get(), numbers, rows)?;
            rows.push_code(CodeNode::Numbers { names, value })
        }
        Item::Instance {
            name: id,
            generic,
            first,
            rest,
            ..
        } => {
            let name = declared(id, numbers, rows)?;
            let args = args(first.get(), rest.as_slice(), numbers, rows)?;
            rows.push_code(CodeNode::Instance {
                name,
                generic: mark(generic, numbers),
                args,
            })
        }
        _ => type_item(tree, numbers, rows),
    }
}

/// item, before others: clauses and pragmas leave nothing.
pub fn item(
    tree: &Item,
    rest: usize,
    numbers: &NumberIndex,
    rows: &mut Rows,
) -> Result<usize, AllocError>
    requires { rest < length rows.old.1 }
    ensures code { IfOk result (λ n. HoldsCode rows.new n (item_before numbers.now (code_at rows.old rest) tree.now)) }
    ensures grew { Grew rows.old rows.new }
{
    match tree {
        Item::Use { .. } | Item::Pragma { .. } => Ok(rest),
        _ => {
            let first = declaration(tree, numbers, rows)?;
            rows.push_code(CodeNode::More { first, rest })
        }
    }
}

/// {item}
pub fn items(trees: &[Item], numbers: &NumberIndex, rows: &mut Rows) -> Result<usize, AllocError>
    ensures code { IfOk result (λ n. HoldsCode rows.new n (lowered_items numbers.now trees.now)) }
    ensures grew { Grew rows.old rows.new }
{
    let mut made = rows.push_code(CodeNode::NoMore)?;
    let mut left = trees.len();
    'turns: while left > 0 {
        left -= 1;
        made = item(&trees[left], made, numbers, rows)?;
    }
    Ok(made)
}
