//! Names of places, compared and at their limit, and the words of reports.
use place_names::{PlaceName, PlaceTail, Rule, Sel, State, TooDeep, agrees};
use std::test::Fail;

const NONE: &[Sel] = &[];

const NEXT: &[Sel] = &[Sel::Deref, Sel::Field(1)];

const VALUE: &[Sel] = &[Sel::Deref, Sel::Field(0)];

const ELEM: &[Sel] = &[Sel::Elem];

const ELEM_NEXT: &[Sel] = &[Sel::Elem, Sel::Deref];

fn name(root: u32, sels: &[Sel]) -> Result<PlaceName, TooDeep> {
    let mut made = PlaceName::new(root);
    for sel in sels {
        made.push(*sel)?;
    }
    Ok(made)
}

/// Each row: the object and the selectors of `k`, those of `m`, and whether `k` is a prefix of `m`,
/// overlaps it and covers it.
const COMPARED: [(u32, &[Sel], u32, &[Sel], [bool; 3]); 9] = [
    (1, NONE, 1, NONE, [true, true, true]),
    (1, NONE, 2, NONE, [false, false, false]),
    (1, NONE, 1, NEXT, [true, true, true]),
    (1, NEXT, 1, NONE, [false, true, false]),
    (1, NEXT, 1, VALUE, [false, false, false]),
    (1, NONE, 1, ELEM, [true, true, true]),
    (1, ELEM, 1, ELEM, [true, true, false]),
    (1, ELEM, 1, ELEM_NEXT, [true, true, false]),
    (1, ELEM, 1, NEXT, [false, false, false]),
];

#[test]
fn names_compared(rt: HostRuntime) -> Result<(), Fail> {
    for row in &COMPARED {
        let k = name(row.0, row.1)?;
        let m = name(row.2, row.3)?;
        assert!(rt; [k.is_prefix(&m), k.overlaps(&m), k.covers(&m)] == row.4);
        assert!(rt; m.overlaps(&k) == k.overlaps(&m));
    }
    Ok(())
}

/// Each row: two selectors, and whether they agree.
const SELECTORS: [(Sel, Sel, bool); 4] = [
    (Sel::Field(3), Sel::Field(3), true),
    (Sel::Field(3), Sel::Field(4), false),
    (Sel::Elem, Sel::Elem, true),
    (Sel::Elem, Sel::Deref, false),
];

#[test]
fn selectors_agree(rt: HostRuntime) {
    for row in &SELECTORS {
        assert!(rt; agrees(row.0, row.1) == row.2);
    }
}

const SIXTEEN: [Sel; 16] = [Sel::Elem; 16];

/// A name takes 16 selectors, and no 17th.
#[test]
fn sixteen_selectors(rt: HostRuntime) -> Result<(), Fail> {
    let mut deep = name(7, &SIXTEEN)?;
    let is_refused = deep.push(Sel::Deref).is_err();
    assert!(rt; is_refused && deep.root() == 7 && deep.sels() == SIXTEEN.as_slice());
    Ok(())
}

/// So do the selectors alone.
#[test]
fn sixteen_selectors_alone(rt: HostRuntime) -> Result<(), Fail> {
    let mut tail = PlaceTail::new();
    for sel in &SIXTEEN {
        tail.push(*sel)?;
    }
    let is_refused = tail.push(Sel::Deref).is_err();
    assert!(rt; is_refused && tail.sels() == SIXTEEN.as_slice());
    Ok(())
}

const WORDS: [(State, &str); 3] = [
    (State::Moved, "moved"),
    (State::Borrowed, "borrowed"),
    (State::Observed, "observed"),
];

const CODES: [(Rule, &str); 6] = [
    (Rule::O1, "O1"),
    (Rule::O10, "O10"),
    (Rule::O11, "O11"),
    (Rule::O14, "O14"),
    (Rule::A2, "A2"),
    (Rule::V4, "V4"),
];

#[test]
fn words_and_codes(rt: HostRuntime) {
    for row in &WORDS {
        assert!(rt; row.0.text() == row.1, "{}", row.1);
    }
    for row in &CODES {
        assert!(rt; row.0.text() == row.1, "{}", row.1);
    }
}
