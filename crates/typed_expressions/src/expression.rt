//! All of an expression.
ghost use Rattle.std.specs.Prelude.{◌≡◌, ◌<◌, length, IfOk};
ghost use Rattle.resolved_tree.specs.Nodes.{tree_at};
ghost use Rattle.type_definitions.specs.Entries.{entry_of};
ghost use Rattle.typed_tree.specs.Nodes.{Grew, Holds};
ghost use Rattle.typed_tree.specs.Expressions.{called_function, object_type, typed_actuals, typed_expression, typed_imaged, typed_name, typed_steps};
ghost use Rattle.typed_expressions.specs.Sites.{site};
ghost use Rattle.typed_expressions.specs.Operands.{IsOperand};

use crate::operands::{Operand, operands};
use crate::strings::characters;
use crate::values::{number, value_of_type};
use crate::writer::Writer;
use expression_types::{element_type, operand_type, unary_type};
use resolved_tree::Node;
use spark_base::Pos;
use std::alloc::AllocError;
use type_definitions::{Reading, Role};
use typed_tree::{TypedNode, TypedRows};

impl<'p> Writer<'p> {
    /// Adds an expression of which `want` is demanded, or nothing where it has a type of its own.
    #[cycle(expression)]
    #[tactic(auto, using(typed_tree::proofs::Grown::grew_on, typed_tree::proofs::Grown::kept), unfolding(typed_tree::specs::Expressions::typed_expression))]
    pub fn expression(&self, want: u32, e: usize, to: &mut TypedRows) -> Result<usize, AllocError>
        requires { e < length self.now.reader.rows.now.0 }
        ensures tree { IfOk result (λ n. Holds to.new n (typed_expression (site self.now) want (tree_at self.now.reader.rows.now e))) }
        ensures grew { Grew to.old to.new }
    {
        match self.reader.rows.node(e) {
            Node::Number { value, .. } => number(i64::from(*value), to),
            Node::Text { text, .. } => {
                let text = characters(self.alloc, text)?;
                to.push(TypedNode::Text { text })
            }
            Node::Named { pos, decl, rest } => {
                let reading = self.reader.reading_of(*decl, *rest);
                self.name(*pos, *decl, reading, *rest, to)
            }
            Node::Parens { inner, .. } => {
                let inner = self.expression(want, *inner, to)?;
                to.push(TypedNode::Parens { inner })
            }
            Node::Unary {
                operator,
                operand,
                ..
            } => {
                if self.reader.is_alone(*operator, *operand) {
                    return to.push(TypedNode::Number {
                        value: -2_147_483_648,
                    });
                }
                let operand = self.expression(unary_type(*operator), *operand, to)?;
                to.push(TypedNode::Unary {
                    operator: *operator,
                    operand,
                })
            }
            Node::Binary {
                operator,
                left,
                right,
                ..
            } => {
                let first = self.operand(operand_type(*operator), *left, to)?;
                let second = self.operand(operand_type(*operator), *right, to)?;
                operands(*operator, first, second, to)
            }
            Node::Aggregate { args, .. } => {
                let parts = self.arguments(Role::Parts { of: want }, *args, to)?;
                to.push(TypedNode::Aggregate { of: want, parts })
            }
            Node::Others { value, .. } => {
                let value = self.expression(element_type(self.reader.seen(want)), *value, to)?;
                to.push(TypedNode::Alike { of: want, value })
            }
            Node::New { mark, value, .. } => {
                let of = self.reader.marked(*mark);
                let value = self.allocated(of, *value, to)?;
                to.push(TypedNode::New { of, value })
            }
            _ => to.push(TypedNode::Null),
        }
    }

    /// Adds an operand of an operator with two.
    #[cycle(expression)]
    fn operand(&self, want: u32, e: usize, to: &mut TypedRows) -> Result<Operand, AllocError>
        requires { e < length self.now.reader.rows.now.0 }
        ensures tree { IfOk result (λ o. IsOperand (site self.now) want (tree_at self.now.reader.rows.now e) to.new o) }
        ensures grew { Grew to.old to.new }
    {
        let number = self.expression(want, e, to)?;
        Ok(Operand {
            is_null: self.reader.is_null(e),
            pos: self.reader.position(e),
            number,
        })
    }

    /// Adds what a name is.
    #[cycle(expression)]
    #[tactic(auto, using(typed_tree::proofs::Grown::grew_on, typed_tree::proofs::Grown::kept))]
    fn name(
        &self,
        pos: Pos,
        d: u32,
        reading: Reading,
        rest: usize,
        to: &mut TypedRows,
    ) -> Result<usize, AllocError>
        requires { rest < length self.now.reader.rows.now.0 }
        ensures tree { IfOk result (λ n. Holds to.new n
            (typed_name (site self.now) pos d reading
            (typed_steps (site self.now) (object_type (entry_of self.now.reader.known.now d)) (tree_at self.now.reader.rows.now rest))
            (typed_actuals (site self.now) (called_function reading) (tree_at self.now.reader.rows.now rest))
            (typed_imaged (site self.now) (tree_at self.now.reader.rows.now rest)))) }
        ensures grew { Grew to.old to.new }
    {
        match reading {
            Reading::Off => to.push(TypedNode::Null),
            Reading::Place { of } => {
                let steps = self.steps(self.object_type(d), rest, to)?;
                to.push(TypedNode::Name {
                    pos,
                    object: self.object_number(d),
                    steps,
                    of,
                })
            }
            Reading::Value { of, value } => value_of_type(of, value, to),
            Reading::Call { function } => {
                let actuals = self.actuals(function, rest, to)?;
                to.push(TypedNode::Call {
                    pos,
                    sub: self.sub_number(function),
                    actuals,
                })
            }
            Reading::Image { of } => {
                let value = self.imaged(rest, to)?;
                to.push(TypedNode::Image { of, value })
            }
            Reading::EndOfFile => to.push(TypedNode::EndOfFile),
        }
    }
}
