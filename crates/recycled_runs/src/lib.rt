//! Runs over a heap that uses its slots again give what runs of the machine give: laws, for
//! readers.
//!
//! A lowered program's steps over such a heap are alike to its steps over numbers
//! (`handled_steps`), and these to the machine's (`run_points`), where nothing is gone as a step
//! begins. So beside a run of the machine goes one after each step of which null stands where it
//! moved (`ViewedFacts`), and beside that the runs over numbers and over handles. After each step
//! the stack has the words of the frames that there are (`proofs/Frames.antt` and `Machine.antt`,
//! by `Subs.antt`), and with null where something was moved the states still stand for each other
//! (`proofs/Nulls.antt`). So the next step is as the rules ask it, and whole runs give the same, or
//! memory is out (`proofs/Runs.antt`).
//!
//! What leak checks tell of is there, as it is owned where it stands (`proofs/Leaked.antt`,
//! `Parts.antt`): a name leads to a part of its variable or of a cell (`Walks.antt`, `Found.antt`),
//! and what a point has moved and made until then changes nothing there but marks (`More.antt`,
//! `Growing.antt`, `Later.antt`, `Targets.antt`). So it is in programs that are ready, whose names
//! own what is checked (`Checks.antt`, `Owns.antt`, `Ready.antt`). Nothing here runs.
//!
//! # Recycled cells
//!
//! What a run leaves in a heap that uses its slots again: definitions and laws, for readers.
//!
//! As a run ends, the live handles stand one to one for the cells that were made and not freed, and
//! have their words: an access value is the handle of its cell, and null where its place is gone
//! (`specs/RecycledCells/Cells.antt`).
//!
//! Before each step the heap has these cells (`proofs/RecycledCells/Standing.antt`). A step that
//! ends the run changes none of them: one that raises leaves the cells of before, and the end of
//! the main procedure copies nothing back (`Ended.antt` of the machine, `Kept.antt` of the heap).
//! So it is at the end (`Runs.antt`), and so in programs that are ready (`Ready.antt`). Nothing
//! here runs.
//!
//! # Viewed facts
//!
//! What facts without an element call moved is gone, with borrowers and observers: definitions and
//! laws, for readers.
//!
//! A fact may speak through a borrower: its name stands for a way of owners.
//! `specs/ViewedFacts/Exact.antt` says what is exact then. Each of the four steps of `soundness`,
//! and each change of a view, keeps facts exact under its act (`proofs/ViewedFacts/Steps.antt`); so
//! do the functions of the machine's memory (`Memories`), expressions without calls (`Evaluated`),
//! assignments (`Stored`), releases (`Releases`), input, output and loops (`Loops`), and other
//! instructions (`Instructions`). A leak check doesn't fail at a part that is called moved so
//! (`Checks`). Nothing here runs.
//!
//! ## Null places
//!
//! The machine with null in moved places takes the same steps: definitions and laws, for readers.
//!
//! `specs/ViewedFacts/NullPlaces/Cleared.antt` has the machine on a memory without marks, where
//! null stands in each place that was moved. `specs/ViewedFacts/NullPlaces/Agrees.antt` says when
//! two memories agree up to such places, and `specs/ViewedFacts/NullPlaces/Compares.antt` what is
//! asked of comparisons with null. What the machine does to memories that agree
//! (`proofs/ViewedFacts/NullPlaces/Memories.antt`) is of all states; what it looks at isn't gone
//! where the state is sound (`Only`, `Places`). So expressions (`Walks`, `Scalars`, `Evaluated`)
//! and instructions (`Instructions`, `Calls`) give the same in memories that agree, where names
//! behave (`Laws`); and if steps do, so do runs (`Runs`). `ViewedNulls` says that steps do. Nothing
//! here runs.
//!
//! ## Viewed nulls
//!
//! With null in moved places, runs of programs with borrowers and observers give the same: laws,
//! for readers.
//!
//! The machine with null in moved places, and memories that agree up to these, are those of
//! `NullPlaces`; it knows nothing of views. The word in the variable of a view is never gone: it
//! was copied from a place that was looked at. Nothing here runs.
#![tactic(auto)]
