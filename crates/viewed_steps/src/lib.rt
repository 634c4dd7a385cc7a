//! Runs of programs with borrowers and observers: what holds at each moment, and that each step
//! keeps it. Definitions and laws, for readers.
//!
//! A state is sound if it is well owned, if each borrower or observer with a value has one way of
//! owners to its cell, and if the roots of these ways last as long as the views may be used
//! (`specs/Sound.antt`). What is asked of a program is one record (`specs/Ready.antt`). Nothing
//! here runs.
#![tactic(auto)]
