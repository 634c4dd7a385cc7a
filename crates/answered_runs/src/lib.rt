//! What the tool answers, and the runs of what it accepts: definitions and laws, for readers.
//!
//! `tool_answers` says what the tool answers (`Product`). Status 0 of a check means that each named
//! file is there, and that the texts of all of them pass, as `accepted_runs` has it
//! (`proofs/Passing.antt`). So the laws on texts that pass speak of what `check` accepts: on its
//! runs (`proofs/Sound.antt`), on its lowering (`proofs/Lowered.antt`), and on its runs over a heap
//! that uses its slots again (`proofs/Recycled.antt`). What `run` is given runs soundly, if there
//! is a main procedure (`specs/Headline.antt`, `proofs/Headline.antt`): `spark_tool` promises that.
//! It can be run, too. Nothing here runs.
#![tactic(auto)]

pub use tool_answers::{RunFault, run_program, self_test};
