//! Lists of reports in their order, each once.
//!
//! A `ReportSet` takes `PrintedReport`s one after the other, in any order and any number of times.
//! Such a report has the text of its name, by which reports are ordered; the caller that makes it
//! gives the text. `into_ordered` gives them back sorted and without repeats. The order is that of
//! `place_names` (`specs/PrintedReports.antt`). Where each text is that of its name, and the
//! reports are those of some property, the list is the one list of them (`proofs/Collected.antt`);
//! `docs/RULES.md`, "Reports", says the order in words.
//! Adding one takes time logarithmic in those that are there, and memory for one more.
#![tactic(auto)]

mod printed_report;
mod report_set;

pub use printed_report::PrintedReport;
pub use report_set::ReportSet;
