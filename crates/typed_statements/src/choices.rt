//! Choices of a `case`.
#![tactic(auto, using(typed_tree::proofs::Grown::grew_on, typed_tree::proofs::Grown::grew_none))]

ghost use Rattle.std.specs.Prelude.{◌≡◌, ◌<◌, length, IfOk};
ghost use Rattle.resolved_tree.specs.Nodes.{code_at, tree_at};
ghost use Rattle.type_definitions.specs.Statements.{choice_value};
ghost use Rattle.expression_types.specs.Here.{here};
ghost use Rattle.typed_tree.specs.Nodes.{Grew, HoldsCode};
ghost use Rattle.typed_tree.specs.Statements.{typed_choice, typed_choices};

use expression_types::Reader;
use resolved_tree::CodeNode;
use std::alloc::AllocError;
use typed_expressions::Writer;
use typed_tree::{TypedCodeNode, TypedRows};

/// The value of a choice, or 0 where it has none.
fn choice_value(reader: &Reader<'_>, e: usize) -> i32
    requires { e < length reader.now.rows.now.0 }
    ensures { result ≡ choice_value (here reader.now) (tree_at reader.now.rows.now e) }
{
    match reader.value(e) {
        Some(number) => number.value,
        None => 0,
    }
}

/// Adds a choice.
fn choice(reader: &Reader<'_>, choice: usize, to: &mut TypedRows) -> Result<usize, AllocError>
    requires { choice < length reader.now.rows.now.1 }
    ensures code { IfOk result (λ n. HoldsCode to.new n
        (typed_choice (here reader.now) (code_at reader.now.rows.now choice))) }
    ensures grew { Grew to.old to.new }
{
    match reader.rows.code(choice) {
        CodeNode::Value { value } => {
            let value = choice_value(reader, *value);
            to.push_code(TypedCodeNode::Interval {
                low: value,
                high: value,
            })
        }
        CodeNode::Interval { low, high } => {
            let low = choice_value(reader, *low);
            let high = choice_value(reader, *high);
            to.push_code(TypedCodeNode::Interval { low, high })
        }
        _ => to.push_code(TypedCodeNode::Others),
    }
}

/// Adds the list of choices.
pub fn choices(writer: &Writer<'_>, choices: usize, to: &mut TypedRows) -> Result<usize, AllocError>
    requires { choices < length writer.now.reader.rows.now.1 }
    ensures code { IfOk result (λ n. HoldsCode to.new n
        (typed_choices (here writer.now.reader) (code_at writer.now.reader.rows.now choices))) }
    ensures grew { Grew to.old to.new }
{
    let mut made = Vec::new(writer.alloc);
    let mut i = choices;
    'choices: while let CodeNode::More { first, rest } = writer.reader.rows.code(i) {
        let number = choice(&writer.reader, *first, to)?;
        made.push(number)?;
        i = *rest;
    }
    to.code_list(&made)
}
