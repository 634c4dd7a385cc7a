//! Refusals of one file, and which of two files is refused.
use crate::command::{NO_FAULTS, check};
use std::test::Fail;

/// Each row: a file, and its refusal.
const ONE: [(&str, &str); 11] = [
    ("", "f.adb:1:1: P1 syntax\n"),
    ("-- none\n", "f.adb:2:1: P1 syntax\n"),
    (
        "procedure Main is begin raise Program_Error; end Main;",
        "f.adb:1:25: P3 construct left out\n",
    ),
    (
        "procedure Main is begin end Main;",
        "f.adb:1:25: P1 syntax\n",
    ),
    (
        "procedure Main is begin N := 1; end Main;",
        "f.adb:1:25: N1 unknown name\n",
    ),
    (
        "procedure Main is N, n : Integer; begin null; end Main;",
        "f.adb:1:22: N2 declared twice\n",
    ),
    (
        "procedure Main is begin Ada.Text_IO.New_Line; end Main;",
        "f.adb:1:25: N3 not visible\n",
    ),
    (
        "procedure Main is N : T; type T is (A); begin null; end Main;",
        "f.adb:1:23: N4 used before its declaration\n",
    ),
    (
        "procedure Main is type T; begin null; end Main;",
        "f.adb:1:24: N5 body missing\n",
    ),
    (
        "procedure Main is begin null; end Mein;",
        "f.adb:1:35: N6 closing name differs\n",
    ),
    // the first position decides
    (
        "procedure Main is N, n : Integer; begin M := 1; end Mein;",
        "f.adb:1:22: N2 declared twice\n",
    ),
];

#[test]
fn one_file(rt: HostRuntime) -> Result<(), Fail> {
    for row in &ONE {
        let text = Vec::from_slice(rt.alloc(), row.0.as_bytes())?;
        let response = check(rt.alloc(), text, None, NO_FAULTS)?;
        assert!(rt; response.is("", row.1, 2), "{}", row.1);
    }
    Ok(())
}

/// Each row: two files, and the refusal.
const TWO: [(&str, &str, &str); 8] = [
    (
        "procedure A is begin null; end A;",
        "procedure B is begin end B;",
        "g.adb:1:22: P1 syntax\n",
    ),
    (
        "procedure A is begin raise; end A;",
        "procedure B is begin end B;",
        "f.adb:1:22: P3 construct left out\n",
    ),
    (
        "procedure A is begin end A;",
        "procedure B is begin N := 1__0; end B;",
        "g.adb:1:27: L3 bad number\n",
    ),
    (
        "procedure A is begin null; end A;",
        "procedure B is begin null; end B;",
        "g.adb:1:11: N2 declared twice\n",
    ),
    (
        "procedure A is begin N := 1; end A;",
        "procedure B is begin null; end B;",
        "f.adb:1:22: N1 unknown name\n",
    ),
    (
        "procedure A is begin N := 1; end A;",
        "procedure B is begin end B;",
        "g.adb:1:22: P1 syntax\n",
    ),
    (
        "package body P is end P;",
        "package P is N : Integer; end P;",
        "f.adb:1:14: N4 used before its declaration\n",
    ),
    (
        "package P is N : Integer; end P;",
        "procedure A is begin P.N := 1; end A;",
        "g.adb:1:22: N3 not visible\n",
    ),
];

#[test]
fn two_files(rt: HostRuntime) -> Result<(), Fail> {
    for row in &TWO {
        let first = Vec::from_slice(rt.alloc(), row.0.as_bytes())?;
        let second = Vec::from_slice(rt.alloc(), row.1.as_bytes())?;
        let response = check(rt.alloc(), first, Some(second), NO_FAULTS)?;
        assert!(rt; response.is("", row.2, 2), "{}", row.2);
    }
    Ok(())
}

/// Files that nothing refuses, alone and beside another one.
#[test]
fn no_refusal(rt: HostRuntime) -> Result<(), Fail> {
    let alloc = rt.alloc();
    let text = Vec::from_slice(alloc, b"procedure Main is begin null; end Main;")?;
    let response = check(alloc, text, None, NO_FAULTS)?;
    assert!(rt; response.is("accepted\n", "", 0));
    let first = Vec::from_slice(alloc, b"package P is N : Integer; end P;")?;
    let second = Vec::from_slice(alloc, b"procedure A is begin null; end A;")?;
    let response = check(alloc, first, Some(second), NO_FAULTS)?;
    assert!(rt; response.is("accepted\n", "", 0));
    Ok(())
}
