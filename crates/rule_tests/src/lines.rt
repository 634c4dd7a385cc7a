//! Lines of refusals, and the fixed lines, written out by hand from the table of codes and the form
//! of each line.
use crate::texts::files;
use rule_reports::{Code, Summary, accepted_line, refusal_line, summary_line, usage_line};
use spark_base::Pos;
use std::test::Fail;

/// Each row: the file, the line, the column, the code, and the line.
const REFUSALS: [(u16, u32, u32, Code, &str); 8] = [
    (0, 1, 1, Code::S1, "m.adb:1:1: S1 sources too large\n"),
    (0, 1, 1, Code::P1, "m.adb:1:1: P1 syntax\n"),
    (0, 1, 25, Code::N1, "m.adb:1:25: N1 unknown name\n"),
    (0, 1, 25, Code::P3, "m.adb:1:25: P3 construct left out\n"),
    (0, 1, 403, Code::P2, "m.adb:1:403: P2 nesting too deep\n"),
    (1, 16, 6, Code::M1, "src/Other.ADB:16:6: M1 name too deep\n"),
    (
        1,
        4_294_967_295,
        10,
        Code::G2,
        "src/Other.ADB:4294967295:10: G2 too many facts\n",
    ),
    // no file has this number
    (2, 3, 4, Code::G1, ":3:4: G1 too many points\n"),
];

#[test]
fn refusals(rt: HostRuntime) -> Result<(), Fail> {
    let files = files(rt.alloc())?;
    for row in &REFUSALS {
        let (file, line, column, code, want) = *row;
        let text = refusal_line(rt.alloc(), &files, Pos { file, line, column }, code)?;
        assert!(rt; text.as_slice() == want.as_bytes(), "{want}");
    }
    Ok(())
}

const USAGE: &str =
    "usage: spark check FILE... | run [--steps=N] [--stats] FILE... | leaks FILE... | make N | selftest N\n";

#[test]
fn fixed_lines(rt: HostRuntime) {
    assert!(rt; accepted_line() == "accepted\n" && usage_line() == USAGE);
}

/// Each row: a code, its letters, and its text.
const CODES: [(Code, &str, &str); 29] = [
    (Code::S1, "S1", "sources too large"),
    (Code::L1, "L1", "bad byte"),
    (Code::L2, "L2", "bad identifier"),
    (Code::L3, "L3", "bad number"),
    (Code::L4, "L4", "unclosed string"),
    (Code::L5, "L5", "too many tokens"),
    (Code::P1, "P1", "syntax"),
    (Code::P2, "P2", "nesting too deep"),
    (Code::P3, "P3", "construct left out"),
    (Code::N1, "N1", "unknown name"),
    (Code::N2, "N2", "declared twice"),
    (Code::N3, "N3", "not visible"),
    (Code::N4, "N4", "used before its declaration"),
    (Code::N5, "N5", "body missing"),
    (Code::N6, "N6", "closing name differs"),
    (Code::Y1, "Y1", "type too large"),
    (Code::Y2, "Y2", "too many access parts"),
    (Code::Y3, "Y3", "array without elements"),
    (Code::K1, "K1", "wrong type"),
    (Code::K2, "K2", "not a variable"),
    (Code::K3, "K3", "wrong profile"),
    (Code::K4, "K4", "choice missing or doubled"),
    (Code::K5, "K5", "owning expression out of place"),
    (Code::K6, "K6", "anonymous access out of place"),
    (Code::K7, "K7", "not static"),
    (Code::K8, "K8", "package value"),
    (Code::M1, "M1", "name too deep"),
    (Code::G1, "G1", "too many points"),
    (Code::G2, "G2", "too many facts"),
];

#[test]
fn codes(rt: HostRuntime) {
    for row in &CODES {
        let (code, letters, text) = *row;
        assert!(rt; code.letters() == letters, "{letters}");
        assert!(rt; code.text() == text, "{text}");
    }
}

/// Each row: what a self test tells, and its line.
const SUMMARIES: [(Summary, &str); 2] = [
    (
        Summary {
            number: 3,
            bytes: 3,
            steps: 29,
            made: 1,
            freed: 1,
            leaked: 0,
        },
        "selftest 3: output 3 bytes, steps 29, made 1, freed 1, leaked 0\n",
    ),
    (
        Summary {
            number: 10000,
            bytes: 7,
            steps: 16_731_674,
            made: 3334,
            freed: 3333,
            leaked: 1,
        },
        "selftest 10000: output 7 bytes, steps 16731674, made 3334, freed 3333, leaked 1\n",
    ),
];

#[test]
fn summaries(rt: HostRuntime) -> Result<(), Fail> {
    for row in &SUMMARIES {
        let text = summary_line(rt.alloc(), row.0)?;
        assert!(rt; text.as_slice() == row.1.as_bytes(), "{}", row.1);
    }
    Ok(())
}
