//! Whether words are a value of a type, by the bounds of the type.
#![tactic(auto)]

mod bounds;

pub use bounds::fits;
