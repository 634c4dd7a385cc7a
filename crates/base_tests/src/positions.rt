//! Positions as text.
use spark_base::{Pos, position_text};
use std::test::Fail;

const NAMES: [&str; 2] = ["f.adb", "g.adb"];

/// Each row: the file, the line, the column, and the text.
const TEXTS: [(u16, u32, u32, &str); 3] = [
    (0, 8, 36, "f.adb:8:36"),
    (1, 1, 1, "g.adb:1:1"),
    (1, 4_294_967_295, 10, "g.adb:4294967295:10"),
];

#[test]
fn texts(rt: HostRuntime) -> Result<(), Fail> {
    let mut files = Vec::new(rt.alloc());
    for name in &NAMES {
        files.push(String::from_str(rt.alloc(), name)?)?;
    }
    for row in &TEXTS {
        let (file, line, column, want) = *row;
        assert!(rt; (file as usize) < files.len());
        let text = position_text(rt.alloc(), &files, Pos { file, line, column })?;
        assert!(rt; text.as_slice() == want.as_bytes(), "{want}");
    }
    Ok(())
}
