//! Operators and attributes, without the levels of the grammar.

/// An operator with two operands (Ada 2012, 4.5).
#[derive(Clone, Copy, PartialEq, Eq)]
pub enum Operator {
    /// `and`
    And,
    /// `or`
    Or,
    /// `xor`
    Xor,
    /// `and then`
    AndThen,
    /// `or else`
    OrElse,
    /// `=`
    Equal,
    /// `/=`
    NotEqual,
    /// `<`
    Less,
    /// `<=`
    LessEqual,
    /// `>`
    Greater,
    /// `>=`
    GreaterEqual,
    /// `+`
    Add,
    /// `-`
    Subtract,
    /// `&`
    Concatenate,
    /// `*`
    Multiply,
    /// `/`
    Divide,
    /// `mod`
    Modulo,
    /// `rem`
    Remainder,
}

/// An operator with one operand (Ada 2012, 4.5.4 and 4.5.6).
#[derive(Clone, Copy, PartialEq, Eq)]
pub enum UnaryOperator {
    /// `+`
    Plus,
    /// `-`
    Minus,
    /// `abs`
    Abs,
    /// `not`
    Not,
}

/// What follows an apostrophe (Ada 2012, 4.1.4).
#[derive(Clone, Copy, PartialEq, Eq)]
pub enum Attribute {
    /// First
    First,
    /// Last
    Last,
    /// Length
    Length,
    /// Range
    Range,
    /// Image
    Image,
    /// Another identifier
    Other,
}
