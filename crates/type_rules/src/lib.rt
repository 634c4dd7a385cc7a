//! From files whose names have a meaning to the typed program and its types, or the first broken
//! sentence on types.
//!
//! `type_check` takes the files and makes a `Typed`, which no longer has the trees of the grammar.
//! Its parts are those of the definitions: `specs/Typed.antt` states it, over `type_definitions`,
//! `typed_tree` and `typing_steps`; `docs/LANGUAGE.md`, "Types" and "Typed programs", says it in
//! words. What breaks one of Y1 to Y3 or K1 to K8 is refused. Each step visits each tree a bounded
//! number of times; `docs/COSTS.md` names what isn't linear.
#![tactic(auto)]

mod check;
mod typed;

pub use check::type_check;
pub use typed::Typed;
