//! The machine that runs programs: definitions and laws.
//!
//! A run goes from point to point of the control flow. Its state has the variables of all frames
//! and the cells, each as words (`specs/Memory.antt`); cells have numbers that are never used
//! again, a value that was moved away stays where it was, as a stale copy, and a test tells each
//! touch of a freed cell. What expressions give, `specs/Evaluate.antt` says; what calls do,
//! `specs/Calls.antt`; what a point does, `specs/Step.antt`; and a whole run, `specs/Run.antt`.
//! `docs/RUN.md` says it in words. Nothing here runs.
#![tactic(auto)]
