//! That the points of a lowered program do what those of the machine do: laws.
//!
//! The states of both sides stand for each other (`specs/States.antt`), a step of the one is a step of
//! the other (`specs/Turns.antt`), and so are their runs (`specs/Outcomes.antt`). Nothing here runs.
#![tactic(auto)]
