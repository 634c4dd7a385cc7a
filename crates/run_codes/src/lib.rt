//! What the executor runs, and that it does what the machine does: definitions and laws.
//!
//! A program is lowered once (`specs/Lowered.antt`): to expressions with offsets and kinds in place
//! (`specs/Codes.antt`), and to points. They are run over words without tags in one stack and in
//! cells (`specs/Flat.antt`, `specs/Points.antt`). What isn't typed isn't lowered. Which words stand
//! for those of the machine, `specs/Related.antt` says. Nothing here runs.
#![tactic(auto)]
