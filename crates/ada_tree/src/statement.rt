//! Statements. They contain each other.

use crate::declaration::Item;
use crate::expression::{Expr, Name};
use crate::identifier::Identifier;
use crate::range::{Choice, NextChoice, Range};
use spark_base::{Boxed, Listed, Pos};

/// stmts (Ada 2012, 5.1).
#[cycle(statement)]
#[derive(Drop)]
pub enum Stmts {
    /// stmt {stmt}
    Sequence {
        /// The position of the first statement.
        pos: Pos,
        /// The first statement.
        first: Boxed<Stmt>,
        /// The statements after it.
        rest: Listed<Stmt>,
    },
}

/// stmt, a statement (Ada 2012, 5.1).
#[cycle(statement)]
#[derive(Drop)]
pub enum Stmt {
    /// `null` `;` (Ada 2012, 5.1)
    Null {
        /// `null`
        pos: Pos,
        /// `;`
        semicolon: Pos,
    },
    /// name `:=` expr `;` (Ada 2012, 5.2)
    Assign {
        /// The position of the target.
        pos: Pos,
        /// The target.
        target: Boxed<Name>,
        /// `:=`
        becomes: Pos,
        /// The source.
        value: Boxed<Expr>,
        /// `;`
        semicolon: Pos,
    },
    /// name `;` (Ada 2012, 6.4)
    Call {
        /// The position of the name.
        pos: Pos,
        /// The procedure with its actuals.
        name: Boxed<Name>,
        /// `;`
        semicolon: Pos,
    },
    /// `exit` `;` (Ada 2012, 5.7)
    Exit {
        /// `exit`
        pos: Pos,
        /// `;`
        semicolon: Pos,
    },
    /// `exit` `when` expr `;` (Ada 2012, 5.7)
    ExitWhen {
        /// `exit`
        pos: Pos,
        /// `when`
        when: Pos,
        /// The condition.
        condition: Boxed<Expr>,
        /// `;`
        semicolon: Pos,
    },
    /// `return` `;` (Ada 2012, 6.5)
    Return {
        /// `return`
        pos: Pos,
        /// `;`
        semicolon: Pos,
    },
    /// `return` expr `;` (Ada 2012, 6.5)
    ReturnValue {
        /// `return`
        pos: Pos,
        /// The value.
        value: Boxed<Expr>,
        /// `;`
        semicolon: Pos,
    },
    /// `if` expr `then` stmts {`elsif` expr `then` stmts} `end` `if` `;` (Ada 2012, 5.3)
    If {
        /// `if`
        pos: Pos,
        /// The condition.
        condition: Boxed<Expr>,
        /// `then`
        then: Pos,
        /// The statements where the condition holds.
        stmts: Boxed<Stmts>,
        /// The further conditions.
        elsifs: Listed<Elsif>,
        /// `end`
        end: Pos,
        /// `if`
        end_if: Pos,
        /// `;`
        semicolon: Pos,
    },
    /// `if` expr `then` stmts {`elsif` expr `then` stmts} `else` stmts `end` `if` `;`
    /// (Ada 2012, 5.3)
    IfElse {
        /// `if`
        pos: Pos,
        /// The condition.
        condition: Boxed<Expr>,
        /// `then`
        then: Pos,
        /// The statements where the condition holds.
        stmts: Boxed<Stmts>,
        /// The further conditions.
        elsifs: Listed<Elsif>,
        /// `else`
        otherwise: Pos,
        /// The statements where no condition holds.
        otherwise_stmts: Boxed<Stmts>,
        /// `end`
        end: Pos,
        /// `if`
        end_if: Pos,
        /// `;`
        semicolon: Pos,
    },
    /// `case` expr `is` when {when} `end` `case` `;` (Ada 2012, 5.4)
    Case {
        /// `case`
        pos: Pos,
        /// The selecting expression.
        selector: Boxed<Expr>,
        /// `is`
        is: Pos,
        /// The first alternative.
        first: Boxed<When>,
        /// The alternatives after it.
        rest: Listed<When>,
        /// `end`
        end: Pos,
        /// `case`
        end_case: Pos,
        /// `;`
        semicolon: Pos,
    },
    /// `loop` stmts `end` `loop` `;` (Ada 2012, 5.5)
    Loop {
        /// `loop`
        pos: Pos,
        /// The statements.
        stmts: Boxed<Stmts>,
        /// `end`
        end: Pos,
        /// `loop`
        end_loop: Pos,
        /// `;`
        semicolon: Pos,
    },
    /// `while` expr `loop` stmts `end` `loop` `;` (Ada 2012, 5.5)
    While {
        /// `while`
        pos: Pos,
        /// The condition.
        condition: Boxed<Expr>,
        /// `loop`
        loop_word: Pos,
        /// The statements.
        stmts: Boxed<Stmts>,
        /// `end`
        end: Pos,
        /// `loop`
        end_loop: Pos,
        /// `;`
        semicolon: Pos,
    },
    /// `for` id `in` [`reverse`] range `loop` stmts `end` `loop` `;` (Ada 2012, 5.5)
    For {
        /// `for`
        pos: Pos,
        /// The parameter.
        parameter: Identifier,
        /// `in`
        in_word: Pos,
        /// `reverse`
        reverse: Option<Pos>,
        /// The range.
        range: Range,
        /// `loop`
        loop_word: Pos,
        /// The statements.
        stmts: Boxed<Stmts>,
        /// `end`
        end: Pos,
        /// `loop`
        end_loop: Pos,
        /// `;`
        semicolon: Pos,
    },
    /// `begin` stmts `end` `;` (Ada 2012, 5.6)
    Block {
        /// `begin`
        pos: Pos,
        /// The statements.
        stmts: Boxed<Stmts>,
        /// `end`
        end: Pos,
        /// `;`
        semicolon: Pos,
    },
    /// `declare` {item} `begin` stmts `end` `;` (Ada 2012, 5.6)
    DeclareBlock {
        /// `declare`
        pos: Pos,
        /// The declarative part.
        items: Listed<Item>,
        /// `begin`
        begin: Pos,
        /// The statements.
        stmts: Boxed<Stmts>,
        /// `end`
        end: Pos,
        /// `;`
        semicolon: Pos,
    },
}

/// A further condition of an `if`.
#[cycle(statement)]
#[derive(Drop)]
pub enum Elsif {
    /// `elsif` expr `then` stmts (Ada 2012, 5.3)
    Branch {
        /// `elsif`
        pos: Pos,
        /// The condition.
        condition: Boxed<Expr>,
        /// `then`
        then: Pos,
        /// The statements.
        stmts: Boxed<Stmts>,
    },
}

/// when, an alternative of a `case` (Ada 2012, 5.4).
#[cycle(statement)]
#[derive(Drop)]
pub enum When {
    /// `when` choice {`|` choice} `=>` stmts
    Alternative {
        /// `when`
        pos: Pos,
        /// The first choice.
        first: Choice,
        /// The choices after it.
        rest: Listed<NextChoice>,
        /// `=>`
        arrow: Pos,
        /// The statements.
        stmts: Boxed<Stmts>,
    },
}
