//! The points of control flow by numbers, as one pass over the text lays them out.
//!
//! `flow_paths` says which points a typed program has, by names. Here the same points are told by
//! numbers: a construct begins at the number that its first point has, and how many points it has
//! is known before they are laid out. `specs/Extents.antt` counts them, `specs/Prepared.antt` has
//! those of expressions, `specs/Statements.antt` those of statements, and `specs/Programs.antt`
//! those of whole programs. `proofs/Program.antt` shows that both are the same program. There is
//! no code here; what lays out a program promises these definitions.
#![tactic(auto)]
