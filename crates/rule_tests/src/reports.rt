//! Lines of reports, written out by hand from the form of each line and of the names in it.
use crate::texts::files;
use ada_tree::Word;
use flow_paths::Report;
use place_names::{Mode, PlaceName, Rule, Sel, State};
use rule_reports::{report_line, report_lines};
use spark_base::{Listed, Pos};
use std::alloc::{AllocError, Global};
use std::test::Fail;
use type_definitions::{Component, Info, Shape};
use typed_tree::{Object, ObjectKind};

/// type Cell; type Ptr is access Cell; type Row is array (1 .. 3) of Ptr; subtype Link is Ptr;
const INTEGER: u32 = 0;

const CELL: u32 = 1;

const PTR: u32 = 2;

const ROW: u32 = 3;

const LINK: u32 = 4;

/// X : Ptr; R : Row; and Head : Link in the package Lists.
const X: u32 = 0;

const R: u32 = 1;

const HEAD: u32 = 2;

/// A type, which is no subtype.
fn info(shape: Shape, number: u32) -> Info {
    Info {
        shape,
        base: number,
        parent: None,
        seen_in: None,
        completed: None,
        bounded: true,
    }
}

/// A record with a value and a pointer to the next one.
fn cell(alloc: Global) -> Result<Shape, AllocError> {
    let mut components = Listed::new(alloc);
    components.push(Component {
        name: Word::new(alloc, b"Value")?,
        of: INTEGER,
    })?;
    components.push(Component {
        name: Word::new(alloc, b"Next")?,
        of: PTR,
    })?;
    Ok(Shape::Fields { components })
}

/// The types, by number.
pub(crate) fn table(alloc: Global) -> Result<Vec<Info>, AllocError> {
    let mut table = Vec::new(alloc);
    let whole = Shape::Whole {
        low: i32::MIN,
        high: i32::MAX,
    };
    table.push(info(whole, INTEGER))?;
    table.push(info(cell(alloc)?, CELL))?;
    let pointer = Shape::Access {
        designated: CELL,
        constant: false,
        named: true,
    };
    table.push(info(pointer, PTR))?;
    let row = Shape::Elements {
        low: 1,
        high: 3,
        element: PTR,
    };
    table.push(info(row, ROW))?;
    table.push(info(Shape::Same { of: PTR }, LINK))?;
    Ok(table)
}

fn object(alloc: Global, name: &[u8], home: Option<Word>, of: u32) -> Result<Object, AllocError> {
    Ok(Object {
        name: Word::new(alloc, name)?,
        package: home,
        of,
        kind: ObjectKind::Variable,
        mode: Mode::In,
        scope: 0,
    })
}

/// The objects, by number.
pub(crate) fn objects(alloc: Global) -> Result<Vec<Object>, AllocError> {
    let mut objects = Vec::new(alloc);
    objects.push(object(alloc, b"X", None, PTR)?)?;
    objects.push(object(alloc, b"R", None, ROW)?)?;
    let home = Word::new(alloc, b"Lists")?;
    objects.push(object(alloc, b"Head", Some(home), LINK)?)?;
    Ok(objects)
}

const NONE: &[Sel] = &[];

const ALL: &[Sel] = &[Sel::Deref];

const VALUE: &[Sel] = &[Sel::Deref, Sel::Field(0)];

const NEXT: &[Sel] = &[Sel::Deref, Sel::Field(1), Sel::Deref, Sel::Field(1)];

const ELEM: &[Sel] = &[Sel::Elem, Sel::Deref, Sel::Field(0)];

/// Each row: the file, the line and the column, the rule, the object and the selectors of the name,
/// the word, and the line of the report.
const REPORTS: [(u16, u32, u32, Rule, u32, &[Sel], Option<State>, &str); 10] = [
    (
        0,
        8,
        36,
        Rule::O1,
        X,
        ALL,
        Some(State::Moved),
        "m.adb:8:36: O1 X.all: moved\n",
    ),
    (
        1,
        12,
        7,
        Rule::O3,
        X,
        VALUE,
        Some(State::Observed),
        "src/Other.ADB:12:7: O3 X.all.Value: observed\n",
    ),
    (
        1,
        12,
        7,
        Rule::O14,
        HEAD,
        NEXT,
        Some(State::Borrowed),
        "src/Other.ADB:12:7: O14 Lists.Head.all.Next.all.Next: borrowed\n",
    ),
    (
        0,
        4_294_967_295,
        1,
        Rule::O10,
        R,
        ELEM,
        Some(State::Moved),
        "m.adb:4294967295:1: O10 R(?).all.Value: moved\n",
    ),
    (
        0,
        1,
        1,
        Rule::A1,
        X,
        NONE,
        None,
        "m.adb:1:1: A1 X: overlaps another actual\n",
    ),
    (
        0,
        1,
        2,
        Rule::A2,
        HEAD,
        NONE,
        None,
        "m.adb:1:2: A2 Lists.Head: overlaps a global of the callee\n",
    ),
    (
        0,
        1,
        3,
        Rule::V1,
        X,
        NONE,
        None,
        "m.adb:1:3: V1 X: constant view\n",
    ),
    (
        0,
        1,
        4,
        Rule::V2,
        X,
        NONE,
        None,
        "m.adb:1:4: V2 X: source ends before the observer\n",
    ),
    (
        0,
        1,
        5,
        Rule::V3,
        X,
        NONE,
        None,
        "m.adb:1:5: V3 X: not rooted in the traversed parameter\n",
    ),
    (
        0,
        1,
        6,
        Rule::V4,
        X,
        NONE,
        None,
        "m.adb:1:6: V4 X: not rooted in the borrower\n",
    ),
];

pub(crate) fn name(root: u32, sels: &[Sel]) -> Result<PlaceName, Fail> {
    let mut made = PlaceName::new(root);
    for sel in sels {
        made.push(*sel)?;
    }
    Ok(made)
}

/// The line of each report, and all of them one after the other.
#[test]
fn reports(rt: HostRuntime) -> Result<(), Fail> {
    let alloc = rt.alloc();
    let files = files(alloc)?;
    let table = table(alloc)?;
    let objects = objects(alloc)?;
    let mut reports = Vec::new(alloc);
    let mut wanted = Vec::new(alloc);
    for row in &REPORTS {
        let (file, line, column, rule, root, sels, state, want) = *row;
        let report = Report {
            pos: Pos { file, line, column },
            rule,
            name: name(root, sels)?,
            state,
        };
        let text = report_line(alloc, &files, &table, &objects, &report)?;
        assert!(rt; text.as_slice() == want.as_bytes(), "{want}");
        reports.push(report)?;
        wanted.extend_from_slice(want.as_bytes())?;
    }
    let lines = report_lines(alloc, &files, &table, &objects, &reports)?;
    assert!(rt; lines.as_slice() == wanted.as_slice());
    Ok(())
}
