//! Parts that several productions have.
ghost use Rattle.expression_parser.specs.Parts.{Passes};

use ada_tree::{Arg, Expr, NextArg, Operand, Rel, ShortOperand};
use spark_base::{Boxed, Listed, Pos};
use std::alloc::Global;
use token_reading::ReadFault;

/// args `)`
#[derive(Drop)]
pub struct Args {
    /// The first arg.
    pub first: Boxed<Arg>,
    /// The args after it.
    pub rest: Listed<NextArg>,
    /// `)`
    pub right_paren: Pos,
}

/// `others` `=>` expr `)`
#[derive(Drop)]
pub struct Others {
    /// `others`
    pub others: Pos,
    /// `=>`
    pub arrow: Pos,
    /// The expression.
    pub value: Boxed<Expr>,
    /// `)`
    pub right_paren: Pos,
}

/// What follows the first `and` or `or` of a chain.
#[derive(Drop)]
pub enum Chain {
    /// (`then` | `else`) rel {`and` `then` rel | `or` `else` rel}
    Short {
        /// `then` or `else`
        second_word: Pos,
        /// The second operand.
        second: Boxed<Rel>,
        /// The operands after it.
        rest: Listed<ShortOperand>,
    },
    /// rel {`and` rel | `or` rel}
    Long {
        /// The second operand.
        second: Boxed<Rel>,
        /// The operands after it.
        rest: Listed<Operand>,
    },
}

/// `range` expr `..` expr
#[derive(Drop)]
pub struct Constraint {
    /// `range`
    pub range: Pos,
    /// The lower bound.
    pub low: Boxed<Expr>,
    /// `..`
    pub dots: Pos,
    /// The upper bound.
    pub high: Boxed<Expr>,
}

/// What was read, in a box.
pub fn boxed<T: Drop>(alloc: Global, read: Result<T, ReadFault>) -> Result<Boxed<T>, ReadFault>
    ensures { Passes read result }
{
    Ok(Boxed::new(alloc, read?)?)
}
