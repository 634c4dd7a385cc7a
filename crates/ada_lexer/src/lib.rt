//! Cuts the bytes of a source file into tokens, or tells the first lexical fault.
//!
//! `lex` takes the whole text and gives `Token`s that borrow from it, with their positions; the
//! last one is the end of the file. `specs/Tokens.antt` states what a token is; `docs/LANGUAGE.md`,
//! "Lexical elements", says it in words (Ada 2012, 2.1 to 2.9). `lex` refuses a byte that begins no
//! token, an identifier or number out of form, an open string, and a token past `room`. Time is
//! linear in the text, and memory in the number of tokens.
#![tactic(auto)]

mod character;
mod cut;
mod delimiter;
mod keyword;
mod number;
mod piece;
mod position;
mod refusal;
mod string;
mod token;
mod word;

pub use cut::lex;
pub use refusal::LexRefusal;
pub use token::{Reserved, Symbol, Token, TokenKind};
