//! Trees whose identifiers stand for declarations, without the levels of the grammar.
#![tactic(auto)]

mod code_node;
mod node;
mod operator;
mod rows;

pub use ada_tree::Word;
pub use code_node::CodeNode;
pub use node::{Mark, Node};
pub use operator::{Attribute, Operator, UnaryOperator};
pub use place_names::{Fact, Mode, PlaceName, Placed, Rule, Sel, State};
pub use rows::Rows;
pub use spark_base::{Listed, Pos};
