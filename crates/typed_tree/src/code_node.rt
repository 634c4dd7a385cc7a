//! Nodes of typed statements. A part of a node is named by its number: among the nodes of
//! expressions where it is an expression or a list of expressions, else among these.

use type_definitions::Pos;

/// A node of a typed statement, a part of it, or a list of these.
#[derive(Clone, Copy)]
pub enum TypedCodeNode {
    /// The declaration of an object: the position of its identifier, its number, and a list of no
    /// initial value or one.
    Declare {
        pos: Pos,
        object: u32,
        value: usize,
    },
    /// target `:=` value, at the position of its first token.
    Assign {
        pos: Pos,
        target: usize,
        value: usize,
    },
    /// `null;`
    Skip {
        pos: Pos,
    },
    /// A call of a procedure: the position of its first token, the number of the subprogram, and
    /// the list of the actuals in the order of the formals.
    Call {
        pos: Pos,
        sub: u32,
        actuals: usize,
    },
    /// Put, Put_Line and New_Line: a list of no string expression or one, and whether a line ends.
    Output {
        pos: Pos,
        text: usize,
        line: bool,
    },
    /// Get: the name that takes the value.
    Input {
        pos: Pos,
        target: usize,
    },
    /// A call of an instance of Unchecked_Deallocation: the name that is freed.
    Release {
        pos: Pos,
        name: usize,
    },
    /// `if`: the list of its branches, and the list of the statements after `else`.
    If {
        branches: usize,
        otherwise: usize,
    },
    /// `if` or `elsif`: the condition and the list of statements.
    Branch {
        pos: Pos,
        condition: usize,
        stmts: usize,
    },
    /// `case`: its expression and the list of its alternatives.
    Case {
        pos: Pos,
        selector: usize,
        alternatives: usize,
    },
    /// A choice of the values from `low` to `high`: numbers, or positions of literals.
    Interval {
        low: i32,
        high: i32,
    },
    /// `others`
    Others,
    /// `when`: the list of choices and the list of statements.
    When {
        choices: usize,
        stmts: usize,
    },
    /// A plain `loop`.
    Loop {
        stmts: usize,
    },
    /// `while`
    While {
        pos: Pos,
        condition: usize,
        stmts: usize,
    },
    /// `for`: the number of its parameter, whether the order is reversed, the bounds, and the list
    /// of its statements. The type of the parameter is the one whose values it takes.
    For {
        pos: Pos,
        parameter: u32,
        reverse: bool,
        low: usize,
        high: usize,
        stmts: usize,
    },
    /// `exit`, with a list of no condition or one.
    Exit {
        pos: Pos,
        condition: usize,
    },
    /// `return`, with a list of no value or one.
    Return {
        pos: Pos,
        value: usize,
    },
    /// A block: the number of its scope, the list of its declarations and statements, and the
    /// position of its `end`.
    Block {
        scope: u32,
        stmts: usize,
        end: Pos,
    },
    /// The end of a list.
    NoMore,
    /// The first of a list, and those after it.
    More {
        first: usize,
        rest: usize,
    },
}
