//! Expressions and names. They contain each other.

use crate::identifier::{Dotted, Identifier};
use crate::operator::{AddingOperator, MultiplyingOperator, RelationalOperator, Sign};
use crate::word::Word;
use spark_base::{Boxed, Listed, Pos};

/// expr, an expression (Ada 2012, 4.4). A chain of one operator groups to the left.
#[cycle(expression)]
#[derive(Drop)]
pub enum Expr {
    /// rel
    LoneRelation {
        /// The position of the relation.
        pos: Pos,
        /// The relation.
        relation: Boxed<Rel>,
    },
    /// rel `and` rel {`and` rel} (Ada 2012, 4.4 and 4.5.1)
    And {
        /// The position of the first operand.
        pos: Pos,
        /// The first operand.
        first: Boxed<Rel>,
        /// `and`
        and: Pos,
        /// The second operand.
        second: Boxed<Rel>,
        /// The operands after it, each with its `and`.
        rest: Listed<Operand>,
    },
    /// rel `or` rel {`or` rel} (Ada 2012, 4.4 and 4.5.1)
    Or {
        /// The position of the first operand.
        pos: Pos,
        /// The first operand.
        first: Boxed<Rel>,
        /// `or`
        or: Pos,
        /// The second operand.
        second: Boxed<Rel>,
        /// The operands after it, each with its `or`.
        rest: Listed<Operand>,
    },
    /// rel `xor` rel {`xor` rel} (Ada 2012, 4.4 and 4.5.1)
    Xor {
        /// The position of the first operand.
        pos: Pos,
        /// The first operand.
        first: Boxed<Rel>,
        /// `xor`
        xor: Pos,
        /// The second operand.
        second: Boxed<Rel>,
        /// The operands after it, each with its `xor`.
        rest: Listed<Operand>,
    },
    /// rel `and` `then` rel {`and` `then` rel} (Ada 2012, 4.4 and 4.5.1)
    AndThen {
        /// The position of the first operand.
        pos: Pos,
        /// The first operand.
        first: Boxed<Rel>,
        /// `and`
        and: Pos,
        /// `then`
        then: Pos,
        /// The second operand.
        second: Boxed<Rel>,
        /// The operands after it, each with its `and` `then`.
        rest: Listed<ShortOperand>,
    },
    /// rel `or` `else` rel {`or` `else` rel} (Ada 2012, 4.4 and 4.5.1)
    OrElse {
        /// The position of the first operand.
        pos: Pos,
        /// The first operand.
        first: Boxed<Rel>,
        /// `or`
        or: Pos,
        /// `else`
        otherwise: Pos,
        /// The second operand.
        second: Boxed<Rel>,
        /// The operands after it, each with its `or` `else`.
        rest: Listed<ShortOperand>,
    },
}

/// A further operand of a chain of `and`, `or` or `xor`.
#[cycle(expression)]
#[derive(Drop)]
pub enum Operand {
    /// (`and` | `or` | `xor`) rel (Ada 2012, 4.4)
    FurtherOperand {
        /// The operator.
        pos: Pos,
        /// The operand.
        operand: Boxed<Rel>,
    },
}

/// A further operand of a chain of `and` `then` or `or` `else`.
#[cycle(expression)]
#[derive(Drop)]
pub enum ShortOperand {
    /// (`and` `then` | `or` `else`) rel (Ada 2012, 4.4)
    FurtherShortOperand {
        /// The first word of the operator.
        pos: Pos,
        /// Its second word.
        second_word: Pos,
        /// The operand.
        operand: Boxed<Rel>,
    },
}

/// rel, a relation (Ada 2012, 4.4).
#[cycle(expression)]
#[derive(Drop)]
pub enum Rel {
    /// sum
    LoneSum {
        /// The position of the sum.
        pos: Pos,
        /// The sum.
        sum: Sum,
    },
    /// sum (`=` | `/=` | `<` | `<=` | `>` | `>=`) sum (Ada 2012, 4.4 and 4.5.2)
    Compared {
        /// The position of the left operand.
        pos: Pos,
        /// The left operand.
        left: Boxed<Sum>,
        /// Which operator stands there.
        operator: RelationalOperator,
        /// The operator.
        operator_pos: Pos,
        /// The right operand.
        right: Boxed<Sum>,
    },
}

/// sum, a simple expression (Ada 2012, 4.4).
#[cycle(expression)]
#[derive(Drop)]
pub enum Sum {
    /// term {(`+` | `-` | `&`) term}
    Unsigned {
        /// The position of the first term.
        pos: Pos,
        /// The first term.
        first: Term,
        /// The terms after it.
        rest: Listed<NextTerm>,
    },
    /// (`+` | `-`) term {(`+` | `-` | `&`) term} (Ada 2012, 4.4 and 4.5.4)
    Signed {
        /// The sign.
        pos: Pos,
        /// Which sign stands there.
        sign: Sign,
        /// The first term.
        first: Term,
        /// The terms after it.
        rest: Listed<NextTerm>,
    },
}

/// A further term of a sum.
#[cycle(expression)]
#[derive(Drop)]
pub enum NextTerm {
    /// (`+` | `-` | `&`) term (Ada 2012, 4.4 and 4.5.3)
    FurtherTerm {
        /// The operator.
        pos: Pos,
        /// Which operator stands there.
        operator: AddingOperator,
        /// The term.
        term: Term,
    },
}

/// term (Ada 2012, 4.4).
#[cycle(expression)]
#[derive(Drop)]
pub enum Term {
    /// factor {(`*` | `/` | `mod` | `rem`) factor}
    Product {
        /// The position of the first factor.
        pos: Pos,
        /// The first factor.
        first: Factor,
        /// The factors after it.
        rest: Listed<NextFactor>,
    },
}

/// A further factor of a term.
#[cycle(expression)]
#[derive(Drop)]
pub enum NextFactor {
    /// (`*` | `/` | `mod` | `rem`) factor (Ada 2012, 4.4 and 4.5.5)
    FurtherFactor {
        /// The operator.
        pos: Pos,
        /// Which operator stands there.
        operator: MultiplyingOperator,
        /// The factor.
        factor: Factor,
    },
}

/// factor (Ada 2012, 4.4).
#[cycle(expression)]
#[derive(Drop)]
pub enum Factor {
    /// primary
    LonePrimary {
        /// The position of the primary.
        pos: Pos,
        /// The primary.
        primary: Primary,
    },
    /// `abs` primary (Ada 2012, 4.4 and 4.5.6)
    Abs {
        /// `abs`
        pos: Pos,
        /// The operand.
        primary: Primary,
    },
    /// `not` primary (Ada 2012, 4.4 and 4.5.6)
    Not {
        /// `not`
        pos: Pos,
        /// The operand.
        primary: Primary,
    },
}

/// primary (Ada 2012, 4.4).
#[cycle(expression)]
#[derive(Drop)]
pub enum Primary {
    /// number (Ada 2012, 2.4)
    Number {
        /// Its first digit.
        pos: Pos,
        /// Its value.
        number: u32,
    },
    /// string (Ada 2012, 2.6)
    Text {
        /// Its opening quote.
        pos: Pos,
        /// Its bytes, with its quotes.
        text: Word,
    },
    /// `null` (Ada 2012, 4.4)
    Null {
        /// `null`
        pos: Pos,
    },
    /// name (Ada 2012, 4.1)
    Named {
        /// The position of the name.
        pos: Pos,
        /// The name.
        name: Boxed<Name>,
    },
    /// `(` expr `)` (Ada 2012, 4.4)
    Parenthesized {
        /// `(`
        pos: Pos,
        /// The expression.
        expression: Boxed<Expr>,
        /// `)`
        right_paren: Pos,
    },
    /// aggregate (Ada 2012, 4.3)
    Aggregated {
        /// The position of the aggregate.
        pos: Pos,
        /// The aggregate.
        aggregate: Boxed<Aggregate>,
    },
    /// `new` mark (Ada 2012, 4.8)
    Allocated {
        /// `new`
        pos: Pos,
        /// The mark.
        mark: Dotted,
    },
    /// `new` mark `'` aggregate (Ada 2012, 4.7 and 4.8)
    AllocatedAggregate {
        /// `new`
        pos: Pos,
        /// The mark.
        mark: Dotted,
        /// `'`
        apostrophe: Pos,
        /// The aggregate.
        aggregate: Boxed<Aggregate>,
    },
    /// `new` mark `'` `(` expr `)` (Ada 2012, 4.7 and 4.8)
    AllocatedValue {
        /// `new`
        pos: Pos,
        /// The mark.
        mark: Dotted,
        /// `'`
        apostrophe: Pos,
        /// `(`
        left_paren: Pos,
        /// The value.
        value: Boxed<Expr>,
        /// `)`
        right_paren: Pos,
    },
}

/// aggregate (Ada 2012, 4.3).
#[cycle(expression)]
#[derive(Drop)]
pub enum Aggregate {
    /// `(` arg `,` arg {`,` arg} `)` (Ada 2012, 4.3.1 and 4.3.3)
    Several {
        /// `(`
        pos: Pos,
        /// The first component or element.
        first: Boxed<Arg>,
        /// `,`
        comma: Pos,
        /// The second one.
        second: Boxed<Arg>,
        /// The ones after it.
        rest: Listed<NextArg>,
        /// `)`
        right_paren: Pos,
    },
    /// `(` id `=>` expr `)` (Ada 2012, 4.3.1)
    Single {
        /// `(`
        pos: Pos,
        /// The name of the component.
        name: Identifier,
        /// `=>`
        arrow: Pos,
        /// Its value.
        value: Boxed<Expr>,
        /// `)`
        right_paren: Pos,
    },
    /// `(` `others` `=>` expr `)` (Ada 2012, 4.3.3)
    Others {
        /// `(`
        pos: Pos,
        /// `others`
        others: Pos,
        /// `=>`
        arrow: Pos,
        /// The value of each element.
        value: Boxed<Expr>,
        /// `)`
        right_paren: Pos,
    },
}

/// arg, an actual, an index, a component or an element (Ada 2012, 4.1.1, 4.3.1 and 6.4).
#[cycle(expression)]
#[derive(Drop)]
pub enum Arg {
    /// expr
    Positional {
        /// The position of the expression.
        pos: Pos,
        /// The expression.
        value: Boxed<Expr>,
    },
    /// id `=>` expr (Ada 2012, 4.3.1 and 6.4)
    Association {
        /// The position of the identifier.
        pos: Pos,
        /// The name of the formal or component.
        name: Identifier,
        /// `=>`
        arrow: Pos,
        /// The expression.
        value: Boxed<Expr>,
    },
}

/// A further arg.
#[cycle(expression)]
#[derive(Drop)]
pub enum NextArg {
    /// `,` arg
    FurtherArg {
        /// `,`
        pos: Pos,
        /// The arg.
        arg: Boxed<Arg>,
    },
}

/// name (Ada 2012, 4.1).
#[cycle(expression)]
#[derive(Drop)]
pub enum Name {
    /// id {`.` id | `.` `all` | `(` args `)` | `'` (id | `range`)}
    Prefixed {
        /// The position of the identifier.
        pos: Pos,
        /// The identifier.
        first: Identifier,
        /// What follows it.
        rest: Listed<Suffix>,
    },
}

/// What follows the first identifier of a name, or another suffix.
#[cycle(expression)]
#[derive(Drop)]
pub enum Suffix {
    /// `.` id (Ada 2012, 4.1.3)
    Selected {
        /// `.`
        pos: Pos,
        /// The selector.
        selector: Identifier,
    },
    /// `.` `all` (Ada 2012, 4.1)
    Dereferenced {
        /// `.`
        pos: Pos,
        /// `all`
        all: Pos,
    },
    /// `(` arg {`,` arg} `)` (Ada 2012, 4.1.1 and 6.4)
    Applied {
        /// `(`
        pos: Pos,
        /// The first index or actual.
        first: Boxed<Arg>,
        /// The ones after it.
        rest: Listed<NextArg>,
        /// `)`
        right_paren: Pos,
    },
    /// `'` id (Ada 2012, 4.1.4)
    Attribute {
        /// `'`
        pos: Pos,
        /// The attribute.
        attribute: Identifier,
    },
    /// `'` `range` (Ada 2012, 4.1.4)
    RangeAttribute {
        /// `'`
        pos: Pos,
        /// `range`
        range: Pos,
    },
}
