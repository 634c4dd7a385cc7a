//! Words that give no command, those that do, in any order, and how many files one takes.
use crate::command::{NO_FAULTS, NONE, run, with_line, words_of};
use std::test::Fail;

const USAGE: &str =
    "usage: spark check FILE... | run [--steps=N] [--stats] FILE... | leaks FILE... | make N | selftest N\n";

const LINES: [&str; 50] = [
    "",
    "check",
    "check ",
    "check -",
    "check --",
    "check f.adb -x",
    "check f.adb ",
    "check f.adb --steps=1",
    "check f.adb --stats",
    "Check f.adb",
    " f.adb",
    "run",
    "run --steps=1",
    "run --steps= f.adb",
    "run --steps f.adb",
    "run --steps=-1 f.adb",
    "run --steps=1x f.adb",
    "run --steps=1  f.adb",
    "run --steps=4294967297 f.adb",
    "run --steps=00000000001 f.adb",
    "run --steps=1 f.adb --steps=1",
    "run -- f.adb",
    "run --stats",
    "run --stats=1 f.adb",
    "run --stat f.adb",
    "run --stats --stats f.adb",
    "run --steps=1 --stats --stats f.adb",
    "run --steps=1 --stats --steps=1 f.adb",
    "leaks",
    "leaks f.adb -x",
    "leaks f.adb --steps=1",
    "leaks f.adb --stats",
    "selftest",
    "selftest 0",
    "selftest 10001",
    "selftest 000001",
    "selftest 1 1",
    "selftest 1 -x",
    "selftest 1 --stats",
    "make",
    "make 0",
    "make 10001",
    "make 000001",
    "make ",
    "make 1 1",
    "make 1 -x",
    "make -1",
    "make +1",
    "make 1.0",
    "--help",
];

#[test]
fn words_out_of_form(rt: HostRuntime) -> Result<(), Fail> {
    let alloc = rt.alloc();
    for line in &LINES {
        let words = words_of(alloc, line)?;
        let response = run(alloc, &words, Vec::new(alloc), NO_FAULTS)?;
        assert!(rt; response.is("", USAGE, 6), "{line}");
    }
    let response = run(alloc, &[], Vec::new(alloc), NO_FAULTS)?;
    assert!(rt; response.is("", USAGE, 6));
    let response = run(alloc, &[], Vec::new(alloc), (NONE, NONE, 0))?;
    assert!(rt; response.is("", "", 8));
    Ok(())
}

/// A number may have leading zeros.
const MADE_LINES: [&str; 2] = ["make 1", "make 00001"];

const MADE: &str = "with Ada.Unchecked_Deallocation;
package Work is
type Cell; type List is access Cell;
type Cell is record Value : Integer; Next : List; end record;
procedure Free is new Ada.Unchecked_Deallocation (Cell, List);
procedure P1 (L : in out List);
end Work;
package body Work is
procedure P1 (L : in out List) is begin L := new Cell'(1, L); end P1;
end Work;
with Work; use Work; with Ada.Text_IO; use Ada.Text_IO;
procedure Main is L : List;
begin
P1 (L);
Put_Line (Integer'Image (L.Value));
declare Old : List; begin while L /= null loop Old := L; L := Old.Next; Free (Old); end loop; end;
end Main;
";

#[test]
fn a_made_program(rt: HostRuntime) -> Result<(), Fail> {
    let alloc = rt.alloc();
    for line in &MADE_LINES {
        let words = words_of(alloc, line)?;
        let response = run(alloc, &words, Vec::new(alloc), NO_FAULTS)?;
        assert!(rt; response.is(MADE, "", 0), "{line}");
    }
    let words = words_of(alloc, "make 1")?;
    let response = run(alloc, &words, Vec::new(alloc), (0, NONE, 0))?;
    assert!(rt; response.is(MADE, "", 0));
    let response = run(alloc, &words, Vec::new(alloc), (NONE, 0, NONE))?;
    assert!(rt; response.is("", "", 8));
    Ok(())
}

/// Each row: the first word, how often the same file is named, what is written to the second output,
/// and the status.
const COUNTS: [(&str, u32, &str, u8); 6] = [
    ("check", 64, "f.adb:2:11: N2 declared twice\n", 2),
    ("check", 65, USAGE, 6),
    ("run", 64, "f.adb:2:11: N2 declared twice\n", 2),
    ("run", 65, USAGE, 6),
    ("leaks", 64, "f.adb:2:11: N2 declared twice\n", 2),
    ("leaks", 65, USAGE, 6),
];

#[test]
fn many_files(rt: HostRuntime) -> Result<(), Fail> {
    let alloc = rt.alloc();
    for row in &COUNTS {
        let (first, count, err, status) = *row;
        let mut words = words_of(alloc, first)?;
        for _file in 0..count {
            words.push(String::from_str(alloc, "f.adb")?)?;
        }
        let text = with_line(alloc, "null;")?;
        let stored = vec![in alloc; (String::from_str(alloc, "f.adb")?, text)]?;
        let response = run(alloc, &words, stored, NO_FAULTS)?;
        assert!(rt; response.is("", err, status), "{first} {count}");
    }
    Ok(())
}

const NULL: &str = "procedure Main is begin null; end Main;";

const SHARED: &str = "package P is end P;";

/// Each row: words that are a command, what is written to the second output, and the status. The run
/// takes two steps.
const ORDERS: [(&str, &str, u8); 16] = [
    ("run f.adb", "", 0),
    ("run --steps=2 f.adb", "", 0),
    ("run f.adb --steps=1", "steps spent: 1\n", 4),
    ("run f.adb --steps=2", "", 0),
    ("run p.ads --steps=1 f.adb", "steps spent: 1\n", 4),
    ("run p.ads f.adb --steps=0", "steps spent: 0\n", 4),
    ("run --steps=0000000000 f.adb", "steps spent: 0\n", 4),
    ("run --steps=0000000001 f.adb", "steps spent: 1\n", 4),
    ("run f.adb --steps=0000000002", "", 0),
    ("run --steps=1234567890 f.adb", "", 0),
    ("run --steps=4294967296 f.adb", "", 0),
    (
        "run --stats f.adb",
        "steps 2, made 0, freed 0, leaked 0, slots 0\n",
        0,
    ),
    (
        "run p.ads f.adb --stats --steps=2",
        "steps 2, made 0, freed 0, leaked 0, slots 0\n",
        0,
    ),
    (
        "run --steps=1 p.ads --stats f.adb",
        "steps spent: 1\nsteps 1, made 0, freed 0, leaked 0, slots 0\n",
        4,
    ),
    (
        "run --stats p.ads --steps=0 f.adb",
        "steps spent: 0\nsteps 0, made 0, freed 0, leaked 0, slots 0\n",
        4,
    ),
    ("leaks p.ads f.adb", "", 0),
];

#[test]
fn words_in_any_order(rt: HostRuntime) -> Result<(), Fail> {
    let alloc = rt.alloc();
    for row in &ORDERS {
        let (line, err, status) = *row;
        let words = words_of(alloc, line)?;
        let mut stored = vec![in alloc;
            (
                String::from_str(alloc, "f.adb")?,
                Vec::from_slice(alloc, NULL.as_bytes())?
            ),
        ]?;
        stored.push((
            String::from_str(alloc, "p.ads")?,
            Vec::from_slice(alloc, SHARED.as_bytes())?,
        ))?;
        let response = run(alloc, &words, stored, NO_FAULTS)?;
        assert!(rt; response.is("", err, status), "{line}");
    }
    Ok(())
}
