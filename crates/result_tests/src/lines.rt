//! Lines of leaks.
use run_results::{Leak, push_lines};
use spark_base::Pos;
use std::test::Fail;

/// Each row: the file, the line, the column, and the number of the cell.
const LEAKS: [(u16, u32, u32, u64); 3] = [
    (0, 17, 1, 1),
    (1, 4, 74, 12),
    // no file has this number
    (2, 1, 1, 3),
];

const LINES: &str =
    "m.adb:17:1: leak of cell 1\nt.adb:4:74: leak of cell 12\n:1:1: leak of cell 3\n";

#[test]
fn lines(rt: HostRuntime) -> Result<(), Fail> {
    let mut files = Vec::new(rt.alloc());
    files.push(String::from_str(rt.alloc(), "m.adb")?)?;
    files.push(String::from_str(rt.alloc(), "t.adb")?)?;
    let mut leaks = Vec::new(rt.alloc());
    'leaks: for row in &LEAKS {
        let (file, line, column, number) = *row;
        leaks.push(Leak {
            number,
            pos: Pos { file, line, column },
        })?;
    }
    let mut text = Vec::new(rt.alloc());
    push_lines(rt.alloc(), &files, &leaks, &mut text)?;
    assert!(rt; text.as_slice() == LINES.as_bytes());
    Ok(())
}
