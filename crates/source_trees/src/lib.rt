//! The trees of texts: definitions, and no code.
//!
//! `AreRead` (`specs/Trees.antt`) says that trees are those of the tokens of some texts, file by
//! file and within the limits; `AreNamed`, that they break no rule of names either.
#![tactic(auto)]
