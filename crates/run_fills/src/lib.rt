//! That values are moved and made as on the machine: laws.
//!
//! What is lowered as a value does over words without tags what the machine does with the expression:
//! both give the same value, with memories that stand for each other, or both stop
//! (`specs/Filled.antt`). Nothing here runs.
#![tactic(auto)]
