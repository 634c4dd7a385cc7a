//! The nine-line program with other statements.
use crate::command::{NO_FAULTS, check, with_line};
use std::test::Fail;

/// Each row: line 8, what is written to each output, and the status.
const LINES: [(&str, &str, &str, u8); 13] = [
    (
        "X := new Integer'(7); Y := X; N := X.all; Free (Y);",
        "",
        "f.adb:8:36: O1 X.all: moved\n",
        1,
    ),
    ("X := null; Free (X); Free (X);", "accepted\n", "", 0),
    (
        "Y := X; X.all := 1; X := Y; X.all := 1;",
        "",
        "f.adb:8:9: O3 X.all: moved\n",
        1,
    ),
    ("Y := X; Free (X);", "", "f.adb:8:15: O14 X: moved\n", 1),
    ("if X = null then null; end if;", "accepted\n", "", 0),
    (
        "X := X; Y := X; X := x; N := 1_0;",
        "",
        "f.adb:8:22: O4 X: moved\n",
        1,
    ),
    (
        "X := X; Y := X; X := x; N := 10;",
        "",
        "f.adb:8:22: O4 X: moved\n",
        1,
    ),
    (
        "Y := X; x.ALL := X.all; free (x);",
        "",
        "f.adb:8:9: O3 X.all: moved\nf.adb:8:18: O1 X.all: moved\nf.adb:8:31: O14 X: moved\n",
        1,
    ),
    (
        "X := new Integer'(7); \"",
        "",
        "f.adb:8:23: L4 unclosed string\n",
        2,
    ),
    ("N := 1__0;", "", "f.adb:8:6: L3 bad number\n", 2),
    ("N := 2147483647;", "accepted\n", "", 0),
    ("N := 2147483648;", "", "f.adb:8:6: K7 not static\n", 2),
    ("N := 2147483649;", "", "f.adb:8:6: L3 bad number\n", 2),
];

#[test]
fn one_line_of_statements(rt: HostRuntime) -> Result<(), Fail> {
    for row in &LINES {
        let (line, out, err, status) = *row;
        let response = check(rt.alloc(), with_line(rt.alloc(), line)?, None, NO_FAULTS)?;
        assert!(rt; response.is(out, err, status), "{line}");
    }
    Ok(())
}
