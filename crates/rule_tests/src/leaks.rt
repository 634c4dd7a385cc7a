//! Lines of leak checks, written out by hand from the form of each line and of the names in it.
use crate::reports::{name, objects, table};
use crate::texts::files;
use flow_paths::LeakLine;
use place_names::Sel;
use rule_reports::{leak_plan_line, leak_plan_lines};
use spark_base::Pos;
use std::test::Fail;

const NONE: &[Sel] = &[];

const NEXT: &[Sel] = &[Sel::Deref, Sel::Field(1)];

const ELEM: &[Sel] = &[Sel::Elem];

/// Each row: the file, the line and the column, the object and the selectors of the name, whether
/// the check is excused, and its line. The objects are X, R and Lists.Head.
const CHECKS: [(u16, u32, u32, u32, &[Sel], bool, &str); 4] = [
    (0, 16, 9, 0, NONE, true, "m.adb:16:9: X excused\n"),
    (0, 17, 1, 0, NONE, false, "m.adb:17:1: X checked\n"),
    (0, 17, 1, 1, ELEM, false, "m.adb:17:1: R(?) checked\n"),
    (
        1,
        2,
        3,
        2,
        NEXT,
        true,
        "src/Other.ADB:2:3: Lists.Head.all.Next excused\n",
    ),
];

/// The line of each leak check, and all of them one after the other.
#[test]
fn leak_checks(rt: HostRuntime) -> Result<(), Fail> {
    let alloc = rt.alloc();
    let files = files(alloc)?;
    let table = table(alloc)?;
    let objects = objects(alloc)?;
    let mut checks = Vec::new(alloc);
    let mut wanted = Vec::new(alloc);
    for row in &CHECKS {
        let (file, line, column, root, sels, excused, want) = *row;
        let check = LeakLine {
            pos: Pos { file, line, column },
            name: name(root, sels)?,
            excused,
        };
        let text = leak_plan_line(alloc, &files, &table, &objects, &check)?;
        assert!(rt; text.as_slice() == want.as_bytes(), "{want}");
        checks.push(check)?;
        wanted.extend_from_slice(want.as_bytes())?;
    }
    let lines = leak_plan_lines(alloc, &files, &table, &objects, &checks)?;
    assert!(rt; lines.as_slice() == wanted.as_slice());
    Ok(())
}
