//! Reports that come in any order, and more than once.
use place_names::{PlaceName, Rule, State};
use report_lists::{PrintedReport, ReportSet};
use spark_base::Pos;
use std::alloc::{AllocError, Global};
use std::test::Fail;

/// The line, the rule, the word, the object, and the text of its name.
type Row = (u32, Rule, Option<State>, u32, &'static str);

/// The reports as they come. The numbers after them say where each stands in the end.
const COME: [(Row, usize); 10] = [
    ((9, Rule::O1, Some(State::Moved), 1, "X"), 7),
    ((8, Rule::O4, Some(State::Moved), 1, "X"), 4),
    ((8, Rule::O1, Some(State::Borrowed), 1, "X"), 2),
    ((8, Rule::O1, Some(State::Moved), 1, "X"), 1),
    ((8, Rule::O1, Some(State::Moved), 2, "X"), 0),
    ((8, Rule::O1, Some(State::Moved), 3, "b"), 3),
    ((9, Rule::O1, Some(State::Moved), 1, "X"), 7),
    ((8, Rule::V1, None, 1, "X"), 6),
    ((8, Rule::A1, None, 1, "X"), 5),
    ((8, Rule::O1, Some(State::Moved), 1, "X"), 1),
];

fn printed(alloc: Global, row: &Row) -> Result<PrintedReport, AllocError> {
    let text = Vec::from_slice(alloc, row.4.as_bytes())?;
    Ok(PrintedReport {
        pos: Pos {
            file: 0,
            line: row.0,
            column: 1,
        },
        rule: row.1,
        name: PlaceName::new(row.3),
        state: row.2,
        text,
    })
}

fn is_row(report: &PrintedReport, row: &Row) -> bool {
    report.pos.line == row.0
        && report.rule == row.1
        && report.state == row.2
        && report.name.root() == row.3
        && report.text.as_slice() == row.4.as_bytes()
}

fn ordered(alloc: Global) -> Result<Vec<PrintedReport>, AllocError> {
    let mut set = ReportSet::new(alloc);
    for row in &COME {
        set.insert(printed(alloc, &row.0)?)?;
    }
    set.into_ordered(alloc)
}

#[test]
fn reports(rt: HostRuntime) -> Result<(), Fail> {
    let reports = ordered(rt.alloc())?;
    assert!(rt; reports.len() == 8);
    for row in &COME {
        match reports.get(row.1) {
            Some(report) => assert!(rt; is_row(report, &row.0)),
            None => return Err(Fail::new("too few")),
        }
    }
    Ok(())
}
