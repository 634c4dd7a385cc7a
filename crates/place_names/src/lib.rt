//! Names of places, what a program does to them, the facts that hold of them, and the rules that a
//! fact breaks.
//!
//! A `PlaceName` is an object and at most 16 selectors; a `PlaceTail` has the selectors alone.
//! `Parts` are the access parts of a type, which the type and all its uses share. An `Act` names
//! places, and a `Fact` says of one that it was moved or is lent; contracts see both with names as
//! plain values. `Rule` and `State` have the codes and words of reports. `specs/Names.antt` states
//! what names say, `specs/Facts.antt` what each act changes, `specs/Rules.antt` what a fact
//! forbids, and `specs/Reports.antt` the reports of a path in their order. `docs/RULES.md` says it
//! all in words. A 17th selector is refused, with `TooDeep`. No call but `Parts::from_vec` takes
//! memory, and each takes time linear in the selectors of its names.
#![tactic(auto)]

mod act;
mod fact;
mod parts;
mod place_name;
mod place_tail;
mod rule;
mod selector;

pub use act::{Act, Mode, Placed};
pub use fact::Fact;
pub use parts::Parts;
pub use place_name::{PlaceName, TooDeep};
pub use place_tail::PlaceTail;
pub use rule::{Loan, Rule, State};
pub use selector::{Sel, agrees};
