//! What the tool answers to words, files and an input: definitions, and no code.
//!
//! `Product` (`specs/Product.antt`) has the bytes for both outputs and the status of each command;
//! `docs/TOOL.md` says it in words. `spark_tool` is proved to answer so, and the laws on runs speak
//! of the sources and the programs that stand in it.
#![tactic(auto)]

pub use self_test::{RunFault, run_program, self_test};
