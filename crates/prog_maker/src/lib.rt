//! Makes an Ada program of any size, which `spark` accepts: a measure for whoever builds or
//! packages it, and for a machine.
//!
//! `make_program` gives the text for a number n: a package with n procedures over lists of cells,
//! which allocate, borrow and observe, and a main procedure that calls each of them in turn. The
//! text is that of `specs/Texts.antt`; `docs/TOOL.md` says it in words. Nothing is refused here.
//! Time and memory are linear in n.
#![tactic(auto)]

mod program;

pub use program::make_program;
