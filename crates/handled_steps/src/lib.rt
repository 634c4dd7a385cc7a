//! Steps and whole runs over a heap that uses its slots again, beside those over one that uses none
//! again: definitions and laws, for readers.
//!
//! `specs/States.antt` and `Steps.antt` say what points of lowered programs do over the words of
//! `handled_runs`, as `run_codes` says it over numbers. Which handle a new cell gets and whether there
//! is memory for it, the heap decides: so a step is a relation. Where a step stops, the heap has the
//! cells that it had before, and the slots that were made meanwhile. `specs/Alike.antt` ties states of
//! both to each other, and `specs/Looks.antt` collects what is asked of a step: that words of the stack
//! have the kinds that the code is of, that nothing is gone as the step begins, and that what leak checks
//! tell of is there. Then both take the same steps, or one over numbers ends with a trap
//! (`proofs/Steps.antt`). So it is with runs over numbers that put null in place of what is gone after
//! each step (`specs/Clear.antt`, `proofs/Runs.antt`): both write the same, tell the same leaks, end alike
//! and count alike. The slots number the greatest counts of live cells (`specs/Greatest.antt`). Nothing
//! here runs.
#![tactic(auto)]
