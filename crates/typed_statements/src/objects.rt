//! Declarations of objects.
#![tactic(auto, using(typed_tree::proofs::Grown::grew_on, typed_tree::proofs::Grown::grew_none))]

ghost use Rattle.std.specs.Prelude.{◌≡◌, ◌<◌, ◌++◌, length, map, IfOk, OnOk};
ghost use Rattle.std.specs.List.{All};
ghost use Rattle.resolved_tree.specs.Nodes.{code_at, tree_at};
ghost use Rattle.type_definitions.specs.Entries.{integer};
ghost use Rattle.type_definitions.specs.Declarations.{first_number};
ghost use Rattle.type_definitions.specs.Gathered.{indicated};
ghost use Rattle.typed_tree.specs.Trees.{More, NoMore};
ghost use Rattle.typed_tree.specs.Nodes.{typed_at, typed_code_at, Grew, HoldsAllCode, HoldsCode};
ghost use Rattle.typed_tree.specs.Expressions.{typed_expression, typed_optional};
ghost use Rattle.typed_tree.specs.Statements.{typed_object, typed_objects};
ghost use Rattle.typed_expressions.specs.Sites.{site};

use crate::declared::{declared_number, declared_pos, first_number, indicated};
use crate::optional::{alone, optional};
use expression_types::INTEGER;
use resolved_tree::CodeNode;
use std::alloc::AllocError;
use typed_expressions::Writer;
use typed_tree::{TypedCodeNode, TypedRows};

/// Adds the declaration of one object, with a list of no initial value or one that is there.
fn object(
    writer: &Writer<'_>,
    value: usize,
    name: usize,
    to: &mut TypedRows,
) -> Result<usize, AllocError>
    requires value { value < length to.old.0 }
    requires name { name < length writer.now.reader.rows.now.1 }
    ensures code { IfOk result (λ n. HoldsCode to.new n
        (typed_object (site writer.now) (typed_at to.old value) (code_at writer.now.reader.rows.now name))) }
    ensures grew { Grew to.old to.new }
{
    to.push_code(TypedCodeNode::Declare {
        pos: declared_pos(writer.reader.rows, name),
        object: writer.object_number(declared_number(writer.reader.rows, name)),
        value,
    })
}

/// Adds the declarations of several objects with the same list of no initial value or one, after
/// other code.
fn same_objects(
    writer: &Writer<'_>,
    names: usize,
    value: usize,
    made: &mut Vec<usize>,
    to: &mut TypedRows,
) -> Result<(), AllocError>
    requires names { names < length writer.now.reader.rows.now.1 }
    requires value { value < length to.old.0 }
    requires made { All (λ k. k < length to.old.1) made.old.items }
    ensures code { OnOk result (HoldsAllCode to.new made.new.items (map (typed_code_at to.old) made.old.items
        ++ typed_objects (site writer.now) (code_at writer.now.reader.rows.now names) (typed_at to.old value))) }
    ensures grew { Grew to.old to.new }
{
    let mut i = names;
    'names: while let CodeNode::More { first, rest } = writer.reader.rows.code(i) {
        let number = object(writer, value, *first, to)?;
        made.push(number)?;
        i = *rest;
    }
    Ok(())
}

/// Adds the declarations of objects, after other code. Their value stands once in the text.
pub fn objects(
    writer: &Writer<'_>,
    names: usize,
    of: usize,
    value: usize,
    made: &mut Vec<usize>,
    to: &mut TypedRows,
) -> Result<(), AllocError>
    requires names { names < length writer.now.reader.rows.now.1 }
    requires of { of < length writer.now.reader.rows.now.1 }
    requires value { value < length writer.now.reader.rows.now.0 }
    requires made { All (λ k. k < length to.old.1) made.old.items }
    ensures code { OnOk result (HoldsAllCode to.new made.new.items (map (typed_code_at to.old) made.old.items
        ++ typed_objects (site writer.now) (code_at writer.now.reader.rows.now names) (typed_optional (site writer.now)
        (indicated writer.now.reader.known.now (first_number (code_at writer.now.reader.rows.now names)) (code_at writer.now.reader.rows.now of))
        (tree_at writer.now.reader.rows.now value)))) }
    ensures grew { Grew to.old to.new }
{
    let want = indicated(&writer.reader, first_number(writer.reader.rows, names), of);
    let value = optional(writer, want, value, to)?;
    same_objects(writer, names, value, made, to)
}

/// Adds the declarations of named numbers, after other code.
pub fn numbers(
    writer: &Writer<'_>,
    names: usize,
    value: usize,
    made: &mut Vec<usize>,
    to: &mut TypedRows,
) -> Result<(), AllocError>
    requires names { names < length writer.now.reader.rows.now.1 }
    requires value { value < length writer.now.reader.rows.now.0 }
    requires made { All (λ k. k < length to.old.1) made.old.items }
    ensures code { OnOk result (HoldsAllCode to.new made.new.items (map (typed_code_at to.old) made.old.items
        ++ typed_objects (site writer.now) (code_at writer.now.reader.rows.now names)
        (More (typed_expression (site writer.now) integer (tree_at writer.now.reader.rows.now value)) NoMore))) }
    ensures grew { Grew to.old to.new }
{
    let number = writer.expression(INTEGER, value, to)?;
    let value = alone(number, to)?;
    same_objects(writer, names, value, made, to)
}
