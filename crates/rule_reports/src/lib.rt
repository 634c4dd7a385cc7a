//! Writes refusals, reports and leak checks as lines of text.
//!
//! `refusal_line` takes a position and a `Code`, `report_line` and `report_lines` take reports,
//! `leak_plan_line` and `leak_plan_lines` leak checks, and `summary_line` the counts of a self test;
//! the lines are bytes, each ended by a line feed. Files, types and objects are given by number, and
//! printed by their names. What each line is, `specs/Lines.antt` states, over the table of codes in
//! `specs/Codes.antt`; `docs/TOOL.md`, "Lines", says it in words. Nothing is refused here. Time and
//! memory are linear in the texts.
#![tactic(auto)]

mod code;
mod leak;
mod refusal;
mod report;
mod summary;

pub use code::Code;
pub use leak::{leak_plan_line, leak_plan_lines};
pub use refusal::{accepted_line, refusal_line, usage_line};
pub use report::{report_line, report_lines};
pub use summary::{Summary, summary_line};
