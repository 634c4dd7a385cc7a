//! Lines and statuses of how runs end.
use code_rows::Exception;
use run_command::{Ending, Ran, counts_line, ending_line, ending_status};
use spark_base::Pos;
use std::test::Fail;

const POS: Pos = Pos {
    file: 0,
    line: 16,
    column: 29,
};

/// Each row: an ending, how many leak checks failed, the line with a budget of 100 steps, and the
/// status.
const ROWS: [(Ending, u64, &str, u8); 6] = [
    (Ending::Normal, 0, "", 0),
    (Ending::Normal, 1, "", 5),
    (
        Ending::Raised {
            exception: Exception::ConstraintError,
            pos: POS,
        },
        0,
        "m.adb:16:29: raised Constraint_Error\n",
        3,
    ),
    (
        Ending::Raised {
            exception: Exception::EndError,
            pos: POS,
        },
        2,
        "m.adb:16:29: raised End_Error\n",
        3,
    ),
    (Ending::Spent, 0, "steps spent: 100\n", 4),
    (Ending::Spent, 1, "steps spent: 100\n", 4),
];

#[test]
fn lines_and_statuses(rt: HostRuntime) -> Result<(), Fail> {
    let alloc = rt.alloc();
    let files = vec![in alloc; String::from_str(alloc, "m.adb")?]?;
    for row in &ROWS {
        let (ending, leaked, text, status) = *row;
        let line = ending_line(alloc, &files, 100, ending)?;
        let ran = Ran {
            ending,
            steps: 100,
            made: 3,
            freed: 1,
            leaked,
        };
        assert!(rt; line.as_slice() == text.as_bytes(), "{text}");
        assert!(rt; ending_status(&ran) == status, "{status}");
    }
    Ok(())
}

/// Each row: the counts of a run, how many slots it needs, and the line.
const COUNTS: [(u64, u64, u64, u64, u64, &str); 2] = [
    (
        0,
        0,
        0,
        0,
        0,
        "steps 0, made 0, freed 0, leaked 0, slots 0\n",
    ),
    (
        4_294_967_296,
        12,
        10,
        1,
        7,
        "steps 4294967296, made 12, freed 10, leaked 1, slots 7\n",
    ),
];

#[test]
fn lines_of_counts(rt: HostRuntime) -> Result<(), Fail> {
    let alloc = rt.alloc();
    for row in &COUNTS {
        let (steps, made, freed, leaked, slots, text) = *row;
        let ran = Ran {
            ending: Ending::Normal,
            steps,
            made,
            freed,
            leaked,
        };
        let line = counts_line(alloc, &ran, slots)?;
        assert!(rt; line.as_slice() == text.as_bytes(), "{text}");
    }
    Ok(())
}
