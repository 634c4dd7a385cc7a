//! Finds the first name with too many selectors in the points of a typed program.
//!
//! `deep_name` takes the rows and the bodies of a program, and gives the first position, in the
//! order of the text, of a name of an act, of a fact that it adds or of a leak check that has more
//! than `SELECTORS` selectors. Its answer is that of the definition over all points (`deep_name` in
//! `specs/Limits.antt` of `flow_paths`; `docs/TOOL.md`, "Limits"). No point and no name is made:
//! the code is read once, however many points end scopes after it, and so is the value that the
//! declarations of a list share. It refuses nothing. It takes no memory, time linear in the code,
//! and that of the access parts for each object and each name of an owning type.
#![tactic(auto)]

mod bodies;
mod depths;
mod found;
mod reader;
mod rows;
mod shallow;
mod statements;
mod trees;

pub use bodies::deep_name;
