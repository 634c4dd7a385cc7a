//! On which side of an expression's border a token stands.

/// On which side of an expression's border a token stands: operators are counted along the tokens
/// within one outermost expression, and a token apart from all expressions ends the count
/// (`docs/TOOL.md`, "Limits").
#[derive(Clone, Copy, Debug, PartialEq, Eq)]
pub enum Side {
    /// The token stands in no expression, as the `;` of a statement.
    Apart,
    /// The token is part of an expression, as the `,` between the indexes of a value.
    Within,
}
