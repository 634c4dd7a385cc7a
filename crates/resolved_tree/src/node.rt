//! Nodes of expressions. A part of a node is named by its number.

use crate::operator::{Attribute, Operator, UnaryOperator};
use ada_tree::Word;
use spark_base::Pos;

/// A mark, or another name that is made of identifiers alone.
#[derive(Clone, Copy)]
pub struct Mark {
    /// Its first token.
    pub pos: Pos,
    /// The declaration that it denotes: none where an identifier follows what is no package.
    pub decl: Option<u32>,
}

/// A node of an expression, of what follows a name, or of a list of these. Each has the
/// position of the first token of what it stands for, where it has one.
#[derive(Drop)]
pub enum Node {
    /// A number.
    Number {
        pos: Pos,
        value: u32,
    },
    /// A string, with its quotes.
    Text {
        pos: Pos,
        text: Word,
    },
    /// `null`
    Null {
        pos: Pos,
    },
    /// A name: the declaration that its identifier denotes, or the last one of the identifiers
    /// after packages, and the list of what follows that.
    Named {
        pos: Pos,
        decl: u32,
        rest: usize,
    },
    /// An expression in parentheses.
    Parens {
        pos: Pos,
        inner: usize,
    },
    /// An operator with one operand.
    Unary {
        pos: Pos,
        operator: UnaryOperator,
        operand: usize,
    },
    /// An operator with two operands.
    Binary {
        pos: Pos,
        operator: Operator,
        left: usize,
        right: usize,
    },
    /// An aggregate with a list of arguments.
    Aggregate {
        pos: Pos,
        args: usize,
    },
    /// `(others => value)`
    Others {
        pos: Pos,
        value: usize,
    },
    /// An allocator: its mark, and a list of no argument or one, which is its value.
    New {
        pos: Pos,
        mark: Mark,
        value: usize,
    },
    /// `.` id
    Selected {
        selector: Word,
    },
    /// `.all`
    All,
    /// `(` args `)`
    Applied {
        args: usize,
    },
    /// `'` id
    Attr {
        attribute: Attribute,
    },
    /// The first of a list of arguments: the identifier before its `=>`, its expression, and the
    /// arguments after it.
    Argument {
        name: Option<Word>,
        value: usize,
        rest: usize,
    },
    /// The end of a list.
    NoMore,
    /// The first of a list, and those after it.
    More {
        first: usize,
        rest: usize,
    },
}
