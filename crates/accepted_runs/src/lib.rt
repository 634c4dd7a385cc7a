//! The runs of what `check` accepts are sound, and no leak check fails in them that the leak plan
//! excuses: definitions and laws, for readers.
//!
//! Texts pass if their tokens spell sources, and the program breaks no rule of names and of types
//! and no limit, and there are no reports (`specs/Passed.antt`). The files are parsed then, as
//! `settled_types` has it (`proofs/Parsed.antt`). So the laws of `ViewedFiles` speak of such texts
//! (`proofs/Views.antt`), and so do those of `ViewedFacts` (`proofs/ViewFacts.antt`) and of
//! `ViewedNulls` (`proofs/ViewNulls.antt`), where there is a main procedure (`specs/Mains.antt`).
//! Of one run `specs/Headline.antt` has it all (`proofs/Headline.antt`). The type of an accepted
//! program keeps that it is that of texts that pass (`proofs/Kept.antt`): so `execute` says that
//! what it runs runs soundly. That what `check` accepts passes, `answered_runs` says. Nothing here
//! runs.
//!
//! # Accepted lowered
//!
//! What `check` accepts is lowered and passes the tests before a run: laws, for readers.
//!
//! A program whose texts pass a check has codes to run by (`proofs/AcceptedLowered/Main.antt`): its
//! texts have at most as many tokens as there is room for (`Rooms`). It passes the tests of
//! `run_ready`, too, however it is laid out in rows (`Runnable`). Nothing here runs.
//!
//! # Accepted recycled
//!
//! The runs of what `check` accepts give the same over a heap that uses its slots again:
//! definitions and laws, for readers.
//!
//! `recycled_runs` has the law for programs that are ready, as the laws on steps ask. Those that
//! `check` accepts, with a main procedure, are ready, and pass the tests before a run
//! (`AcceptedLowered`). So what such a run gives is what the machine's run gives, or memory is out
//! (`specs/AcceptedRecycled/Runs.antt`, `proofs/AcceptedRecycled/Main.antt`). Nothing here runs.
//!
//! # Tested files
//!
//! Programs of parsed files pass the tests of `run_ready`: laws.
//!
//! Of files that break no rule of names and of typing the table of types is fit (`Fit`), the
//! formals of each subprogram ascend (`Formals`), and what is called is there (`Subs`, `Rows` in
//! `proofs/TestedFiles`). Nothing here runs.
//!
//! ## Run tables
//!
//! What programs without a fault of typing give to runs: laws.
//!
//! The sorts of the words of a type are those of its whole definition, and access values stand at
//! its access offsets (`Runs`). The main procedure and what is called are as frames that enter ask
//! (`Frames` in `proofs/TestedFiles/RunTables`). Nothing here runs.
//!
//! # Accepted cells
//!
//! The runs of what `check` accepts leave the cells of the machine's last state in a heap that uses
//! its slots again: laws, for readers.
//!
//! `RecycledCells` of `recycled_runs` says what that means, and has the law for programs that are
//! ready. Those that `check` accepts, with a main procedure, are ready, and pass the tests before a
//! run (`AcceptedLowered`). So it is for these, however the program is laid out in rows
//! (`proofs/AcceptedCells/Main.antt`). Nothing here runs.
//!
//! # Viewed files
//!
//! Borrowers and observers of files are in order, and the runs of accepted files with them are
//! sound. Definitions and laws, for readers.
//!
//! `ViewLaws` says what is asked of a program (`AreViewsInOrder`). Here it is proved of files that
//! break no rule. Objects and scopes have the numbers of their places in the text
//! (`specs/ViewedFiles/Places.antt`, `proofs/ViewedFiles/Placed.antt`), and so have those of each
//! body (`Laid`, `Bodies`); so code is layered (`Layers`). Typing has it that sources of views are
//! names or calls, and that views are variables of subprograms (`Sources`, `Walked`, `Units`, for
//! `specs/ViewedFiles/Sources.antt`; `Roots`). What is named was declared before, so sources are
//! older (`Joined`). What is stored as a view is a variable (`Stored`), and what traversal
//! functions give is taken by views (`Traversals`). Actuals that are copied back to are names of
//! what formals may hold (`Passed`). `Main` joins this, and `Files` has the law on runs. Nothing
//! here runs.
//!
//! ## View laws
//!
//! What an accepted program with borrowers and observers gives to soundness: definitions and laws,
//! for readers.
//!
//! What acts move is rooted in an object that the instruction names, whose scope ends at a point;
//! and by rule V1 no act changes what is named through an object that only sees (`Fixed`). Nothing
//! here runs.
#![tactic(auto)]

pub use run_ready::lower_ready;
