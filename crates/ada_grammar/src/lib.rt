//! Pure readers of each production of the grammar, and their laws.
//!
//! For each production there is a reader of lists of tokens (`specs/Expressions.antt`,
//! `specs/Items.antt`, `specs/Statements.antt`, `specs/Units.antt`), made of the combinators of
//! `token_reading`, and a law in the file of `proofs/` with that name: what the reader takes is the
//! spelling of the tree that it gives, each spelling is taken, and the tokens before a refused one
//! are the longest viable prefix. A parser whose functions give what these readers give has their
//! laws. Two more laws say how tokens count for the limits: `specs/Nesting.antt` and
//! `specs/Outermost.antt` state them. `proofs/Small*.antt` compare small sources with trees that
//! were written apart from the spelling.
//! `docs/LANGUAGE.md`, "Grammar", has the productions. Nothing here runs.
#![tactic(auto)]
