//! The resolved code of accepted files is orderly: laws, for readers.
//!
//! `OrderLaws` says what is asked of the resolved code of a program beside what typing and the
//! reports say (`IsOrderly`). Here is what the code of files has of it: Integer owns nothing, where
//! the code declares in order (`proofs/Whole.antt`); units are as the grammar has them, with each
//! exit in a loop (`Written`); and each declaration of an object has a number of its own (`Once`).
//! That what names denote is in scope stands in `SeenFiles`. Files are meant (`MeantFiles`):
//! packages are units alone (`Flat`), so types that are read while declarations are gathered are
//! those that are read at last (`settled_types`), and the table of types is as typed expressions
//! ask (`Laws`). `Main` joins this.
//!
//! The program as it is laid out has the signatures and modes of the typed one (`Classes`,
//! `Owners`). What is called has a body (`Called`); a formal is one of one subprogram (`Shared`);
//! formals of functions are of mode `in` (`Functions`); the main procedure has none (`Mains`).
//! Nothing here runs.
//!
//! # Seen files
//!
//! What names denote in accepted files is in scope where they stand, or an object of a package:
//! definitions and laws, for readers.
//!
//! A name denotes a declaration that ended before, in an enclosing region or in a package
//! (`specs/SeenFiles/Reached.antt`; `proofs/SeenFiles/Told.antt`, from what `name_events` says of
//! visibility). What ends where, and what is out of reach after its region, is followed event by
//! event (`Steps`, `Runs`), and along the trees of statements and units (`Statements`, `Units`,
//! `Files`). So resolved code fits (`specs/SeenFiles/Fits.antt`): the names of objects in it denote
//! what is in scope. Typed code is rooted in such objects alone (`Entries`, `Names`, `Typed`), and
//! what stays in scope after a unit is an object of a package (`Packages`). `Main` joins this.
//! Nothing here runs.
//!
//! # Meant files
//!
//! Files that are meant: trees are those of the grammar, identifiers denote what is declared, and
//! objects and formals have the types that are indicated. Definitions and laws, for readers.
//!
//! `TypedLaws` asks so of a text. Here it is proved of files that break no rule of names. Trees
//! are lowered to trees of the grammar (`proofs/MeantFiles/Trees.antt`, `Codes`). The events of a
//! text declare what its code declares, one by one (`Silent`, `Walk`, with
//! `specs/MeantFiles/Declarations.antt`), with numbers that count up or complete others (`Events`,
//! with `specs/MeantFiles/Counted.antt`); so subprograms have bodies (`Bodies`), and what is known
//! of subprograms is declared (`Puts`). What names denote is in scope, so it is an object of the
//! program (`Objects`, `Denoted`, for `specs/MeantFiles/Denoted.antt`). While declarations are
//! gathered, each that stands before has its kind and stays as it is (`Given`, `Stays`), and so do
//! rows of types that aren't declared again (`Rows`). So marks mean there what they mean at last,
//! and so do the lower bounds of loops, where the table is like the last one (`Ranges`, over
//! `settled_types`); and objects and formals have the types that are indicated (`Types`, for
//! `specs/MeantFiles/Typed.antt`). Anonymous access types have numbers of their own (`Apart`).
//! `Main` joins this. Nothing here runs.
//!
//! # Called subs
//!
//! What the calls of typed programs go to: definitions and laws.
//!
//! Each call at a point stands in the typed code of its subprogram
//! (`proofs/CalledSubs/Points.antt`), and goes to a subprogram that the resolved code declares
//! (`proofs/CalledSubs/Statements.antt`, `Entries.antt`). Nothing here runs.
//!
//! # Ready types
//!
//! The types of programs without a fault of typing meet what soundness asks of types: laws, for
//! readers.
//!
//! `proofs/ReadyTypes/Settled.antt` makes the premises on types of `soundness` out of what
//! `settled_types` proves of programs that declare in order, and `proofs/ReadyTypes/Files.antt`
//! says it of the code of files, with what `settled_types` asks of positions. Nothing here runs.
//!
//! # Typed files
//!
//! Files that break no rule of names and of types are typed: laws, for readers.
//!
//! `proofs/TypedFiles/Main.antt` has the law. The steps of such a program have expressions of the
//! types of their places (`AreTyped` of `TypedLaws`), its points have as many successors as their
//! instructions lead to, and it is typed as the machine says it (`is_typed`). Nothing here runs.
//!
//! ## Typed runs
//!
//! What typing says of the steps of runs: the expressions of each step have the types of their
//! places, calls and short circuits within expressions included. Definitions and laws, for readers.
//!
//! `TypedLaws` says what that is of instructions and of programs, and
//! `specs/TypedFiles/TypedRuns/Code.antt` of typed code. It goes by types where the machine's
//! `is_typed` goes by the sorts of words, and is the stronger of both
//! (`proofs/TypedFiles/TypedRuns/Words.antt`). What is asked of a text beside that it breaks no
//! sentence stands in `specs/TypedFiles/TypedRuns/Meant.antt`, and the law in
//! `proofs/TypedFiles/TypedRuns/Main.antt`. Nothing here runs.
//!
//! ## Typed texts
//!
//! Resolved code without a fault of typing is typed: laws, for readers.
//!
//! The table of types is as typing means it (`proofs/TypedFiles/Main.antt`), bounds of types are
//! values of Integer (`Bounds`), and points have as many successors as their instructions lead to
//! (`Counts`). What is asked of the code beside is that it is meant (`IsMeant` of
//! `specs/TypedFiles/TypedTexts/Meant.antt`). Then its steps have expressions of the types of their
//! places, and it is typed as the machine says it. Nothing here runs.
//!
//! ## Lowered laws
//!
//! Typed programs are lowered: definitions and laws, for readers.
//!
//! `specs/TypedFiles/LoweredLaws/Lowers.antt` says what `lowered_program` of `run_codes` needs
//! beside the types of a program: that what it names has room in a frame, that its loops start
//! before they turn, that successors are points, and that the positions of literals are words. Then
//! every expression (`proofs/TypedFiles/LoweredLaws/Words.antt`), value (`Values`), call
//! (`Actuals`), step (`Steps`) and program (`Programs`) is lowered. Nothing here runs.
//!
//! ## Lowered files
//!
//! Programs of parsed files are lowered: laws, for readers.
//!
//! What a use of an expression in code names has room where each object that the code declares has
//! a point of its own (`proofs/TypedFiles/LoweredFiles/Each.antt`, `Opened`, `Uses`, `Rooms`); so
//! the program that code without a broken rule means is as lowering asks (`Placed`, `Files`).
//! Nothing here runs.
//!
//! ## Lowered texts
//!
//! Texts without a fault of typing are lowered: a law, for readers (`proofs/TypedFiles/Main.antt`).
//! Nothing here runs.
//!
//! ## Lowered sources
//!
//! Parsed files that break no rule of names and of types are lowered: definitions and laws, for
//! readers.
//!
//! Of the premises of `LoweredTexts`, initial values of package objects call no function
//! (`OrderLaws`), since a sentence of typing forbids it. The positions of literals are words
//! (`Readings`, `Trees`, `Statements`), since a text has at most as many literals as tokens
//! (`Few`). `Main` has the law. Nothing here runs.
#![tactic(auto)]
