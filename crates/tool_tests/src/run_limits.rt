//! Runs at the limits of live words, of words of frames and of points, and just past them.
use crate::command::{NO_FAULTS, repeated, run_line};
use std::alloc::{AllocError, Global};
use std::test::Fail;

/// It makes cells of 65,536 words, of which there is room for 256.
const CELLS: &str = "procedure Main is
type Big is array (1 .. 65536) of Integer; type Big_Ptr is access Big;
type Row is array (1 .. 257) of Big_Ptr; R : Row;
begin
for I in 1 .. ";

const MAKES: &str = " loop R (I) := new Big; end loop;
end Main;
";

/// A line for each of the first cells, all at one position.
fn leak_lines(alloc: Global, front: &str, count: u32) -> Result<String, AllocError> {
    let mut text = String::new(alloc);
    for number in 0..count {
        write!(text, "{front}{}\n", number + 1)?;
    }
    Ok(text)
}

/// Each row: how many cells are made, how many are lost at the end, what is written after their
/// lines, and the status.
const ROWS: [(&str, u32, &str, u8); 2] = [
    ("256", 256, "", 5),
    ("257", 0, "f.adb:5:24: raised Storage_Error\n", 3),
];

#[test]
fn live_words(rt: HostRuntime) -> Result<(), Fail> {
    let alloc = rt.alloc();
    for row in &ROWS {
        let (cells, lost, ending, status) = *row;
        let text = repeated(alloc, CELLS, cells, 1, MAKES)?;
        let response = run_line(alloc, "run f.adb", text, None, NO_FAULTS)?;
        let mut err = leak_lines(alloc, "f.adb:6:1: leak of cell ", lost)?;
        err.push_str(ending)?;
        assert!(rt; response.is("", err.as_str(), status), "{cells}");
    }
    Ok(())
}

/// Each call has a frame of more than 65,536 words.
const FRAMES: &str = "package P is
type Big is array (1 .. 65536) of Integer;
procedure Deep (N : Integer);
end P;
package body P is
procedure Deep (N : Integer) is A : Big; begin
if N > 0 then Deep (N - 1); end if;
end Deep;
end P;
with P; use P;
procedure Main is begin
Deep (";

/// Each row: the actual of the first call, what is written to the second output, and the status.
const CALLS: [(&str, &str, u8); 2] = [
    ("62", "", 0),
    ("63", "f.adb:7:15: raised Storage_Error\n", 3),
];

#[test]
fn words_of_frames(rt: HostRuntime) -> Result<(), Fail> {
    let alloc = rt.alloc();
    for row in &CALLS {
        let (actual, err, status) = *row;
        let text = repeated(alloc, FRAMES, actual, 1, ");\nend Main;\n")?;
        let response = run_line(alloc, "run f.adb", text, None, NO_FAULTS)?;
        assert!(rt; response.is("", err, status), "{actual}");
    }
    Ok(())
}

/// Each row: the words, what is written to the second output, and the status. The program has as
/// many points as there may be, and each of them is one step.
const STEPS: [(&str, &str, u8); 2] = [
    ("run --steps=16384 f.adb", "", 0),
    ("run --steps=16383 f.adb", "steps spent: 16383\n", 4),
];

#[test]
fn steps_of_the_most_points(rt: HostRuntime) -> Result<(), Fail> {
    let alloc = rt.alloc();
    for row in &STEPS {
        let (line, err, status) = *row;
        let text = repeated(
            alloc,
            "procedure Main is begin ",
            "null; ",
            16_383,
            "end Main;",
        )?;
        let response = run_line(alloc, line, text, None, NO_FAULTS)?;
        assert!(rt; response.is("", err, status), "{line}");
    }
    Ok(())
}
