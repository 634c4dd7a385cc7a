//! Calls of the outside that fail, and a file that isn't there.
use crate::command::{Faults, NO_FAULTS, NONE, check, run_line, with_line};
use std::test::Fail;

const REJECTED: &str = "Y := X; Free (X);";

const ACCEPTED: &str = "null;";

const REPORT: &str = "f.adb:8:15: O14 X: moved\n";

/// Each row: line 8, the failing calls, what is written to each output, and the status. One call
/// opens the file, one reads it, and one finds its end.
const ROWS: [(&str, Faults, &str, &str, u8); 7] = [
    (REJECTED, (0, NONE, NONE), "", "", 7),
    (REJECTED, (1, NONE, NONE), "", "", 7),
    (REJECTED, (2, NONE, NONE), "", "", 7),
    (REJECTED, (NONE, NONE, 0), "", "", 8),
    (ACCEPTED, (NONE, 0, NONE), "", "", 8),
    (REJECTED, (3, 0, 1), "", REPORT, 1),
    (ACCEPTED, (3, 1, 0), "accepted\n", "", 0),
];

#[test]
fn faults_of_the_outside(rt: HostRuntime) -> Result<(), Fail> {
    for row in &ROWS {
        let (line, faults, out, err, status) = *row;
        let response = check(rt.alloc(), with_line(rt.alloc(), line)?, None, faults)?;
        assert!(rt; response.is(out, err, status), "{line} {status}");
    }
    Ok(())
}

#[test]
fn a_missing_file(rt: HostRuntime) -> Result<(), Fail> {
    let text = with_line(rt.alloc(), "?")?;
    let response = run_line(rt.alloc(), "check f.adb z.adb", text, None, NO_FAULTS)?;
    assert!(rt; response.is("", "", 7));
    Ok(())
}
