//! Labels that the edges of a graph carry, and what a worklist finds of them: definitions and laws.
//!
//! A `Flow` has the successors of each node, what a node makes of a label that leaves it, and the
//! labels that are there from the start (`specs/Flows.antt`). A label reaches a node exactly where
//! some path brings it there (`proofs/Paths.antt`). A worklist that takes a node, carries all its
//! labels along each of its edges, and puts a node back into the work where a label is new to it,
//! keeps `Searched` (`specs/Searches.antt`); where no work is left, the labels that it found at a
//! node are exactly those that reach it (`proofs/Worklist.antt`). No label is compared with another
//! and no order of labels is needed. Nothing here runs.
#![tactic(auto)]
