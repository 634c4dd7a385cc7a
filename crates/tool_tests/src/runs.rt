//! Runs: endings and statuses, faults of the outside, and inputs.
use crate::command::{Faults, NO_FAULTS, NONE, repeated, run_on, words_of};
use spark_base::MemSource;
use std::test::Fail;

const NULL: &str = "procedure Main is begin null; end Main;";

const PRINTS: &str =
    "with Ada.Text_IO; use Ada.Text_IO; procedure Main is begin Put_Line (\"a\"); end Main;";

const RAISES: &str = "with Ada.Text_IO; use Ada.Text_IO;
procedure Main is N : Integer := 0; begin
Put (\"b\");
N := 1 / N;
end Main;";

const LEAKS: &str = "procedure Main is type Ptr is access Integer;
X : Ptr := new Integer'(1); begin
X := null;
end Main;";

const NO_MAIN: &str = "package P is end P;";

const REPORTED: &str = "package P is type Ptr is access Integer; procedure Q; end P;
package body P is procedure Q is X, Y : Ptr; begin
Y := X; X.all := 1; end Q; end P;";

/// Each row: the words before the file's name, its text, the failing calls, what is written to each
/// output, and the status.
const ROWS: [(&str, &str, Faults, &str, &str, u8); 11] = [
    ("run --steps=0", NULL, NO_FAULTS, "", "steps spent: 0\n", 4),
    ("run --steps=1", NULL, NO_FAULTS, "", "steps spent: 1\n", 4),
    ("run --steps=2", NULL, NO_FAULTS, "", "", 0),
    ("run", PRINTS, NO_FAULTS, "a\n", "", 0),
    ("run", PRINTS, (NONE, 0, NONE), "", "", 8),
    (
        "run",
        RAISES,
        NO_FAULTS,
        "b",
        "f.adb:4:1: raised Constraint_Error\n",
        3,
    ),
    ("run", RAISES, (NONE, NONE, 0), "b", "", 8),
    (
        "run",
        LEAKS,
        NO_FAULTS,
        "",
        "f.adb:3:1: leak of cell 1\n",
        5,
    ),
    (
        "run",
        NO_MAIN,
        NO_FAULTS,
        "",
        "f.adb:1:1: N5 body missing\n",
        2,
    ),
    (
        "run",
        REPORTED,
        NO_FAULTS,
        "",
        "f.adb:1:1: N5 body missing\n",
        2,
    ),
    (
        "check",
        REPORTED,
        NO_FAULTS,
        "",
        "f.adb:3:9: O3 X.all: moved\n",
        1,
    ),
];

#[test]
fn endings_and_faults(rt: HostRuntime) -> Result<(), Fail> {
    let alloc = rt.alloc();
    for row in &ROWS {
        let (front, text, faults, out, err, status) = *row;
        let mut words = words_of(alloc, front)?;
        words.push(String::from_str(alloc, "f.adb")?)?;
        let text = Vec::from_slice(alloc, text.as_bytes())?;
        let stored = vec![in alloc; (String::from_str(alloc, "f.adb")?, text)]?;
        let mut input = MemSource::new(Vec::new(alloc), Vec::new(alloc));
        let response = run_on(alloc, &words, stored, &mut input, faults)?;
        assert!(rt; response.is(out, err, status), "{front} {status} {err}");
    }
    Ok(())
}

/// Each row: how many blanks are the input, the call of it that fails, what is written to the second
/// output, and the status.
const INPUTS: [(usize, u64, &str, u8); 3] = [
    (16_777_216, NONE, "", 0),
    (16_777_217, NONE, "input too large\n", 10),
    (1, 1, "", 7),
];

#[test]
fn inputs(rt: HostRuntime) -> Result<(), Fail> {
    let alloc = rt.alloc();
    for row in &INPUTS {
        let (blanks, fails, err, status) = *row;
        let words = words_of(alloc, "run f.adb")?;
        let text = Vec::from_slice(alloc, NULL.as_bytes())?;
        let stored = vec![in alloc; (String::from_str(alloc, "f.adb")?, text)]?;
        let bytes = repeated(alloc, "", " ", blanks, "")?;
        let mut input = MemSource::new(bytes, Vec::from_slice(alloc, &[fails])?);
        let response = run_on(alloc, &words, stored, &mut input, NO_FAULTS)?;
        assert!(rt; response.is("", err, status), "{blanks} {status}");
    }
    Ok(())
}
