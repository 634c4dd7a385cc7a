//! The objects and the scopes of a typed program, and which subprograms have a body, from its
//! units.
//!
//! `objects` lists all objects with the declarations that make them, `scopes` of each scope the one
//! around it, and `bodies` the declarations of the subprograms that have a body, all in the order
//! of the text. What each of these is, `typed_tree/specs/Programs.antt` states, one definition for
//! one function here; `docs/LANGUAGE.md`, "Typed programs", says it in words. The only error is out
//! of memory, and more scopes or objects than a number of 32 bits counts are too much for it.
//!
//! The walks recurse only as deep as constructs nest. Time and memory are linear in the rows, the
//! number of declarations and the texts that the objects have.
#![tactic(auto)]

mod body;
mod declared;
mod declared_objects;
mod narrowed;
mod packages;
mod program;
mod scope;
mod walk;

pub use body::bodies;
pub use declared_objects::DeclaredObjects;
pub use program::objects;
pub use scope::scopes;
