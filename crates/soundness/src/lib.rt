//! What each moment of the run of an accepted program keeps, and which steps keep it: definitions
//! and laws, for readers.
//!
//! A memory is seen by location, and what is in hand with it (`specs/Seen.antt`); what a step
//! changes is told by contents (`specs/Changes.antt`). `specs/Typed.antt` says when words have the
//! types of what they stand in, and `specs/Sound.antt` what the frames of a run are, and what is to
//! be proved of runs. What is asked of the expressions and instructions of a program stands in
//! `specs/TypedLaws/Needed.antt`.
//!
//! The functions of the machine's memory do what the steps of `OwnedWays` do (`proofs/Steps.antt`,
//! `Ends`, `Fresh`, `Frees`), and keep states sound (`Moments`) and words typed (`Lasting`). Names
//! lead where their ways reach, without a trap (`Walks`, `Stays`), and so do expressions without
//! calls (`Evaluated`). Of instructions it is said what they lead to as outcomes (`Instructions`,
//! `Loops`, `Operands`, `Endings`), and that they go on at successors with what owns in scope
//! (`Onward`). Sound states are well owned (`Owners`). What frames around the innermost one have
//! moved stands beside its facts (`Around`, `Inherited`), since it uses none of these package
//! objects (`Used`); owners see nothing of actuals and formals of scalar types (`Fixed`,
//! `Passing`); and where a call ends, its frame is removed (`Returning`). Before the first step
//! nothing is there (`Beginning`). That each step leads on, and so does the run, is a law of
//! `viewed_steps`, with borrowers and observers; `specs/Ready.antt` has a part of what it asks of
//! programs. docs/SOUNDNESS.md has what is open. Nothing here runs.
//!
//! # Owned ways
//!
//! Who owns what: places, the ways that names take to them, and what the four steps that all
//! instructions are made of do to both. Definitions and laws, for readers.
//!
//! A location is a variable, a cell, what an evaluation has in hand, or a part of one of these. A
//! word there is empty, gone, or the number of a cell. A way is a name whose indexes are evaluated;
//! it reaches a location through numbers that aren't gone. `specs/OwnedWays/Ways.antt` says it, and
//! when a state is sound: each number has one owner and is that of a live cell, each cell that
//! isn't freed is reached, and what ways find gone is known as moved, by a fact or by something
//! else.
//!
//! In such a state one way leads to one location (`proofs/OwnedWays/Unique.antt`). A move of words
//! from one place to another one, a cell that is made, a cell that is freed and a root that ends
//! keep it sound, where the facts allow the acts Move, Write, Free and EndScope (`Assigned`,
//! `Released`, `Dropped`); and where no fact has an element, what facts call moved stays gone in a
//! move (`Told`). Nothing here knows words in memory, types or points, and nothing runs.
//!
//! # Owned loans
//!
//! Borrowers and observers as owners see them: definitions and laws, for readers.
//!
//! A view is a borrower or observer. While it has a value, it has one way of owners to the cell
//! that it designates, and a name that is rooted in it stands for that way, gone on
//! (`specs/OwnedLoans/Views.antt`). A state is sound with views if it is well owned, what ways find
//! gone is moved by a fact of a name that stands for the way, and each view's way reaches its cell
//! and goes through a place of which a loan is known.
//!
//! Where the ways that two names stand for begin one another, one of the names begins the other, or
//! it meets a loan of the other, or two loans meet (`proofs/OwnedLoans/Meeting.antt`). Along
//! allowed acts nothing that was moved is lent, and what is borrowed is lent once (`Clear`). So the
//! way of a name whose act the facts allow meets nothing gone, and what is moved, written or freed
//! lies on no way of a view (`Safe`, `Allowed`). So the four steps that all instructions are made
//! of keep a state sound with views (`Moves`, `Freed`, `Ended`), and so do Borrow, Observe and
//! Reborrow (`Taken`). Nothing here knows words in memory, types or points, and nothing runs.
//!
//! # Part offsets
//!
//! Where the parts of a type stand among its words: definitions and laws, for readers.
//!
//! A part is told by the steps that lead to it (`specs/PartOffsets/Parts.antt`). Of two parts of a
//! type one is in the other, or their words are apart (`proofs/PartOffsets/Ranges.antt`). The parts
//! of named access types stand just at the offsets of the access parts of the type
//! (`proofs/PartOffsets/Leaves.antt`): so what moves, leak checks and owners look at by offset are
//! parts of types. All of it asks that a type's words and access parts are those of its whole
//! definition (`IsSettled`). Nothing here runs.
//!
//! # Exact facts
//!
//! What excused leak checks rest on: definitions and laws, for readers.
//!
//! `specs/ExactFacts/Exact.antt` says when of the leak checks of a step none fails that is excused,
//! and so of a run. What an excused one says of the facts at its point stands in
//! `proofs/ExactFacts/Spots.antt`, with the leak checks of a point by the typing of the text. What
//! steps keep that lead on, runs keep (`Budgets`). Facts after acts (`Frames`), ways and locations
//! (`Steps`), the access parts of types (`Parts`), memories (`Memories`) and single checks
//! (`Checks`) have laws that `ViewedFacts` goes by, which says that facts stay exact. Nothing here
//! runs.
//!
//! # Viewed soundness
//!
//! Programs with borrowers and observers in one frame: what their names and expressions come to,
//! and what is stored in a view. Definitions and laws, for readers.
//!
//! A memory holds views if the word of each view that has the number of a cell has that of the cell
//! that the view's way reaches (`specs/ViewedSoundness/Holds.antt`). In a state that is sound with
//! views (`OwnedLoans`), under acts that the facts allow, a name leads where the way that it stands
//! for reaches, or raises (`proofs/ViewedSoundness/Names.antt`); scalar expressions change nothing
//! (`Stays`); what expressions take, make and store keeps the state sound with views (`Moments`,
//! `Evaluated`, `Stored`); and so does a view that gets the value of its source (`Sources`,
//! `Viewing`). No name and no expression traps. Nothing here runs.
//!
//! # Fact laws
//!
//! What the rules on facts say together of accepted programs: definitions and laws, for readers.
//!
//! An accepted program has no reports (`flow_paths`, `AreReports`). On each control path of such a
//! program no act is forbidden by a fact that holds before it (`proofs/FactLaws/Accepted.antt`). It
//! rests on all rules on facts, O1 to O11 and O14: whatever one of them forbids at an act of some
//! path is a report.
//!
//! Along acts that are allowed, facts stay apart (`specs/FactLaws/Apart.antt`,
//! `proofs/FactLaws/Apart.antt`): no moved place overlaps one that is lent, and no borrowed place
//! overlaps one that is lent otherwise, to another holder or to the same one. Only three acts add
//! facts. A move adds moved places, none of which overlaps a loan by O4; a borrow adds a loan that
//! overlaps neither a moved place nor a loan by O5; an observation adds one that overlaps neither a
//! moved nor a borrowed place by O6. No other act adds facts, and a fact that ends leaves the
//! others apart.
//!
//! So on each control path of an accepted program, the facts before each act and after each point
//! are apart (`proofs/FactLaws/Paths.antt`). Nothing here runs.
//!
//! # Typed laws
//!
//! What typing says of accepted programs: their expressions have the types of their places.
//! Definitions and laws, for readers.
//!
//! `specs/TypedLaws/Fine.antt` says when an expression has a type, and what is asked of the table
//! of types and of trees; `specs/TypedLaws/Needed.antt` what soundness asks of expressions and of
//! instructions. Where no fault of typing is around an expression or in it, it has the type that
//! its place wants (`proofs/TypedLaws/Main.antt`). From that follow what soundness asks of it
//! (`Sound`) and the sorts of its words as the machine has them (`Sorts`). That the tables of
//! accepted programs are as asked for isn't proved yet: docs/SOUNDNESS.md has what is open. Nothing
//! here runs.
//!
//! ## Typed steps
//!
//! What typing says of the steps of runs: definitions, for readers.
//!
//! `specs/TypedLaws/TypedSteps/Steps.antt` says when the expressions of a step have the types of
//! their places. It is stronger than `is_typed` of `machine`, which goes by the sorts of words.
//! Nothing here runs.
//!
//! ## Typed points
//!
//! What typing says of the points of accepted programs: their instructions are as soundness asks.
//! Definitions and laws, for readers.
//!
//! `specs/TypedLaws/TypedPoints/Code.antt` says it of typed code and of points, and
//! `specs/TypedLaws/TypedPoints/Meant.antt` what is asked of a text beside that it breaks no
//! sentence. Expressions at their places (`proofs/TypedLaws/TypedPoints/Values.antt`), sources
//! (`Sources`), strings (`Strings`), declarations (`Statements`) and calls (`Calls`) come together
//! in bodies (`Bodies`), these in points (`Points`, `Laid`), and all of it in the law on programs
//! (`Main`). Objects and subprograms have the numbers of their declarations (`Numbers`).
//! `settled_types` and `sound_files` say what accepted programs meet of it, and docs/SOUNDNESS.md
//! has what is open. Nothing here runs.
#![tactic(auto)]
