//! Typed programs: trees of expressions and statements that break no rule, with numbers of objects,
//! subprograms and types in place of identifiers.
//!
//! A typed tree has what control flow and a run need of the source, and nothing else: selectors are
//! numbers of components, implicit dereferences are written out, actuals stand in the order of the
//! formals, and declarations of objects are statements. What trees there are,
//! `specs/Trees.antt` lists; which one a resolved tree becomes, `specs/Expressions.antt` and
//! `specs/Statements.antt` define, and `specs/Programs.antt` does it for a program with its
//! objects, scopes and subprograms. `docs/LANGUAGE.md`, "Typed programs", says it in words.
//!
//! `TypedRows` keeps such trees as rows of nodes, whose parts are numbers of nodes before them.
#![tactic(auto)]

mod code_node;
mod node;
mod object;
mod print;
mod rows;

pub use code_node::TypedCodeNode;
pub use node::{ShortCircuit, TypedNode};
pub use object::{Object, ObjectKind};
pub use print::print_name;
pub use rows::TypedRows;
pub use type_definitions::{Fact, Listed, PlaceName, Placed, Pos, Rule, State};
