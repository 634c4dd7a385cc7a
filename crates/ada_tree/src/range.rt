//! Ranges and choices.

use crate::expression::{Expr, Name};
use crate::identifier::Dotted;
use spark_base::{Boxed, Pos};

/// range (Ada 2012, 3.5 and 3.6.1).
#[derive(Drop)]
pub enum Range {
    /// expr `..` expr (Ada 2012, 3.5)
    Bounds {
        /// The position of the low bound.
        pos: Pos,
        /// The low bound.
        low: Boxed<Expr>,
        /// `..`
        dots: Pos,
        /// The high bound.
        high: Boxed<Expr>,
    },
    /// mark (Ada 2012, 3.2.2 and 3.6.1)
    Marked {
        /// The position of the mark.
        pos: Pos,
        /// The mark, or a name in its form.
        mark: Dotted,
    },
    /// mark `range` expr `..` expr (Ada 2012, 3.2.2 and 3.6.1)
    Constrained {
        /// The position of the mark.
        pos: Pos,
        /// The mark.
        mark: Dotted,
        /// `range`
        range: Pos,
        /// The low bound.
        low: Boxed<Expr>,
        /// `..`
        dots: Pos,
        /// The high bound.
        high: Boxed<Expr>,
    },
    /// name `'` `range` (Ada 2012, 4.1.4)
    RangeOf {
        /// The position of the name.
        pos: Pos,
        /// The prefix.
        name: Boxed<Name>,
        /// `'`
        apostrophe: Pos,
        /// `range`
        range: Pos,
    },
}

/// choice (Ada 2012, 3.8.1 and 5.4).
#[derive(Drop)]
pub enum Choice {
    /// expr
    Value {
        /// The position of the expression.
        pos: Pos,
        /// The expression.
        value: Boxed<Expr>,
    },
    /// expr `..` expr
    Interval {
        /// The position of the low bound.
        pos: Pos,
        /// The low bound.
        low: Boxed<Expr>,
        /// `..`
        dots: Pos,
        /// The high bound.
        high: Boxed<Expr>,
    },
    /// `others`
    Others {
        /// `others`
        pos: Pos,
    },
}

/// A further choice.
#[derive(Drop)]
pub enum NextChoice {
    /// `|` choice
    Bar {
        /// `|`
        pos: Pos,
        /// The choice.
        choice: Choice,
    },
}
