//! What the types of a program are made of, where typing finds no fault in it: definitions and
//! laws, for readers.
//!
//! The words, the access parts and the owning of a type are counted up to a depth of as many types
//! as there are. They are those of whole definitions where no type has itself in it
//! (`specs/Wholes.antt`, `proofs/Wholes.antt`). So it is in a program that declares in order
//! (`specs/Orderly.antt`) and has no fault of typing (`proofs/Main.antt`): what a type is made of
//! was defined before it, or is a private type, which doesn't have itself in it
//! (`specs/Stamped.antt`, `proofs/Lone.antt`). A program is gathered twice, and the second turn
//! begins with the first one's types: what it gathers is looked at declaration by declaration,
//! where any types stand at first (`proofs/Turns.antt`, `Gathered`). Nothing here runs.
//!
//! # Orderly files
//!
//! The code that files stand for declares in order: definitions and laws, for readers.
//!
//! Each declaration has a number of its own, but where a full type completes a private or an
//! incomplete one, and where a body has that of its declaration (`IsOrderly` of `settled_types`).
//! Numbers are given in the order of the text, by what is known of names at each point
//! (`specs/OrderlyFiles/Regions.antt`, `proofs/OrderlyFiles/Steps.antt`, `Declares`), and the code
//! has them by the positions of identifiers (`specs/OrderlyFiles/Numbered.antt`). So it goes
//! construct by construct: expressions declare nothing (`proofs/OrderlyFiles/Mentions.antt`); then
//! come items, statements, and units (`Items`, `Statements`, `Units`, `Main`). It is asked that no
//! two identifiers have one position (`specs/OrderlyFiles/Apart.antt`), and that full types end
//! after the marks of definitions up to there (`specs/OrderlyFiles/Ended.antt`). No rule of names
//! need be kept. Nothing here runs.
//!
//! # Gathered laws
//!
//! What gathering makes of a program: types are made of types and based on types, and what is known
//! of declarations speaks of types. Definitions and laws, for readers.
//!
//! `specs/GatheredLaws/Made.antt` says which numbers stand for types, from the text alone, so that
//! it is the same in both turns of gathering. After both of them each row of the table and each
//! entry speaks of such numbers (`proofs/GatheredLaws/Gathered.antt`), where the program declares
//! in order (`Numbered`).
//!
//! Types that are based on one type agree: `proofs/GatheredLaws/Put.antt` has one more row, `Walk`
//! the code of a turn, and `Agreed` both turns. Anonymous access types are based on themselves
//! alone (`proofs/GatheredLaws/Views.antt`), if they have numbers of their own
//! (`specs/GatheredLaws/Views.antt`); code without them (`specs/GatheredLaws/Named.antt`) meets
//! that. The kinds of full types are known before the second turn (`Nodes`, `DefinedKinds`), so
//! that a subtype with bounds is of a scalar type there (`Bounded`, `Faultless`). With it, and with
//! what is said of literals and instances (`Entries`), follow the sentences of `Sentences`. Types
//! have components with names of their own, if records have (`Components`). So the table is as
//! `TypedLaws` asks (`Laws`). Nothing here runs.
//!
//! # File positions
//!
//! The identifiers of parsed files stand in the order of the text, and full types end after the
//! marks before them: definitions and laws, for readers.
//!
//! The tokens of a file have ascending positions (`proofs/FilePositions/Cuts.antt`), and spell its
//! tree. What the tree does with names goes in the order of its tokens, construct by construct
//! (`proofs/FilePositions/Expressions.antt`, `Statements`, `Units`). So the identifiers of all
//! files have ascending positions (`Ascending`, `Identifiers`), and no two of them have one
//! (`files_apart` of `Main`). The marks of definitions and the ends of full types go in that order,
//! too (`Stopped`), so each full type ends after the marks up to there (`Ended`, `files_ended` of
//! `Main`). `OrderlyFiles` asks for both. Nothing here runs.
//!
//! # Named files
//!
//! What the rules of names say of the code of files: definitions and laws, for readers.
//!
//! Where files break no rule of names, each record has components with names of their own
//! (`proofs/NamedFiles/Words.antt`, `Records`), as `GatheredLaws` asks for, and each subprogram has
//! formals with names of their own (`Formals`). And no library unit is a function (`Library`): it
//! would be a second declaration in its region, since no declaration of a subprogram stands there
//! (`Regions`, `Steady`). Nothing here runs.
//!
//! # Anonymous types
//!
//! Anonymous access types in programs without a fault of typing. Definitions and laws, for readers.
//!
//! Where a subprogram is declared apart, the anonymous type of its body's result belongs to the
//! declaration. A front that breaks no sentence has a result of such a type exactly if the
//! declaration has (`proofs/AnonymousTypes/Main.antt`), since marks denote types with names, and
//! numbers without a name have rows of anonymous access types alone
//! (`specs/AnonymousTypes/Shown.antt`). So each anonymous access type has a row of its own, if
//! their numbers are their own: what `GatheredLaws` asks of them. And a formal of such a type is
//! traversed, and of mode `in`. Nothing here runs.
//!
//! # Steady types
//!
//! Types that are read while declarations are gathered are those that are read at last: definitions
//! and laws, for readers.
//!
//! The units of a program are gathered twice, since a type may be used before its full type is
//! known. Two tables are alike where they say the same of each type but for the bounds in its
//! definition (`specs/SteadyTypes/Alike.antt`). In the second turn the table is like that of the
//! first one wherever a loop stands (`specs/SteadyTypes/Steady.antt`), and so it is at last, if the
//! first turn leaves what it puts of anonymous access types (`specs/SteadyTypes/Kept.antt`):
//! `proofs/SteadyTypes/Moves.antt` has what both turns make of entries, side by side, `Rows` the
//! rows, `Walk` the code of a unit, and `Main` all units. So each name leads from type to type in a
//! loop's range as it does at last; `sound_files` says that of names. Nothing here runs.
//!
//! # Table laws
//!
//! Tables of types that are fit for runs: definitions and laws.
//!
//! Where types have ranks, each a higher one than what it is made of, no type has itself in it
//! (`specs/TableLaws/Ranks.antt`, `proofs/TableLaws/Ranked.antt`). Then the sorts of the words of a
//! type are those of its whole definition, and access values stand at its access offsets
//! (`Tables`). The low bounds of the types of any program are values of Integer (`Gathers`).
//! Nothing here runs.
//!
//! # Order laws
//!
//! Which accepted programs are in order, by their resolved code: definitions and laws, for readers.
//!
//! `specs/OrderLaws/Written.antt` says when resolved code is as the grammar has it, and
//! `specs/OrderLaws/Orderly.antt` what is asked of a program beside what typing and the reports
//! say. The typed bodies of such code have declarations before statements
//! (`proofs/OrderLaws/Bodies.antt`), and are as the layout needs them, since the parameter of each
//! loop is of a scalar type (`Settled`). Where each declaration of an object has a number of its
//! own, so have the objects of each subprogram (`Numbers`, `Parts`, `Units`). The initial values of
//! package objects name nothing that owns (`Starting`, `Unmoved`). With that the subprograms are in
//! order (`Whole`, `Accepted`). docs/SOUNDNESS.md has what is open. Nothing here runs.
//!
//! ## Ready laws
//!
//! What the layout of an accepted program has to say, so that soundness speaks of its runs:
//! definitions and laws, for readers.
//!
//! `specs/OrderLaws/ReadyLaws/InOrder.antt` says when the subprograms of a typed program are in
//! order; nothing in it speaks of points, paths or facts. Of such a program: the package objects
//! are declared one by one (`proofs/OrderLaws/ReadyLaws/Elaborated.antt`), no return comes after
//! another one (`Returned`), what typed calls pass stays within what it names (`Actuals`), and its
//! scopes are as `specs/Ready.antt` of `soundness` asks (`Ready`). `ViewedFiles` says when it is
//! ready. Nothing here runs.
//!
//! ## Package values
//!
//! The values that package objects are declared with: definitions and laws, for readers.
//!
//! A sentence of typing says that they call no function of the program. So in code without a fault
//! of typing no such value has a call (`proofs/OrderLaws/PackageValues/Still.antt`, `Packages`),
//! and the points of the package objects declare them, one by one, without calls (`Declared`,
//! `Main`). Nothing here runs.
//!
//! ## Scope laws
//!
//! What the points of a subprogram have in scope, and where they lead: definitions and laws, for
//! readers.
//!
//! `specs/OrderLaws/ScopeLaws/Code.antt` says what is asked of code beside what `flow_paths` asks
//! (`is_settled`): that exits stand in loops and alternatives in a `case`, that each object is
//! declared once, and that what is named is in scope. `specs/OrderLaws/ScopeLaws/Order.antt` says
//! what holds of points then: an object isn't in scope where it is declared, and is the last one
//! where its scope ends; at the end of a procedure the formals alone are in scope; and what an
//! instruction names is in scope at its point.
//!
//! Of each point of a subprogram that is so (`proofs/OrderLaws/ScopeLaws/Ordered.antt`, `Seen`),
//! and each point has as many successors as its instruction leads to (`Successors`). The
//! temporaries that an instruction takes are the last ones in scope
//! (`specs/OrderLaws/ScopeLaws/Supplied.antt`; `proofs/OrderLaws/ScopeLaws/Supplied.antt`,
//! `Filled`, `Relaid`, `Temporaries`). In functions nothing but a return leads to what follows one
//! (`specs/OrderLaws/ScopeLaws/Returning.antt`, `proofs/OrderLaws/ScopeLaws/Returning.antt`).
//! Nothing here knows facts, and nothing runs.
//!
//! ### Layered scopes
//!
//! In which order objects stand in scope, and what follows where scopes end. Definitions and laws,
//! for readers.
//!
//! Code is layered if each object that is in scope where another one is declared is older than it,
//! and the objects of a block have the scope of the block, which no observer around it has
//! (`specs/OrderLaws/ScopeLaws/LayeredScopes/Layered.antt`). So at each point what is in scope is
//! older than what is declared there, or than the object whose scope ends there; and where the
//! scope of an object ends that has the scope of an observer, the end of another one of that scope
//! follows (`specs/OrderLaws/ScopeLaws/LayeredScopes/Points.antt`,
//! `proofs/OrderLaws/ScopeLaws/LayeredScopes/Layered.antt`). Nothing here runs.
#![tactic(auto)]
