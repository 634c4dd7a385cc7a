//! Runs a command: takes it from the words, reads its files, checks the sources, and writes the
//! answer; or writes a program that is made, or the line of its run.
//!
//! `run_tool` takes the words after the program's name, the outside (files, input, two outputs) and a
//! store for the cells of a run, and gives a status. What it writes and answers, `Product` of
//! `tool_answers` defines; `docs/TOOL.md` says it in words. It refuses words that give no command,
//! files that can't be read, and sources that a stage refuses: each looks at all files before the
//! next one begins, the lexer first, then the grammar, the rules of names, those of types, and the
//! limits of programs. Up to the trees, time and memory are linear in the sources; the tokens are
//! given back before names are looked at. Then they are what `name_resolve` and `program_check` name.
#![tactic(auto)]

mod answer;
mod check;
mod codes;
mod command;
mod deliver;
mod finding;
mod lexing;
mod parsing;
mod reading;
mod selftest;
mod start;
mod stop;
mod tool;

pub use tool::run_tool;
