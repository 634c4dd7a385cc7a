//! Sources just within the limits of nesting and of operators, and just past them.
use crate::table::demand;
use spark_base::{NESTING, OPERATORS};
use std::alloc::Global;
use std::test::Fail;

/// Each row: what stands in front of the constructs, the opener of one, the same with a mark, what
/// stands within and after them, and how many may be open there. The one past the limit is
/// refused, though no source goes on after it.
const CONSTRUCTS: [(&str, &str, &str, &str, &str, &str, u32); 18] = [
    (
        "procedure P is begin ",
        "begin ",
        "~begin ",
        "null; ",
        "end; ",
        "end;",
        63,
    ),
    (
        "procedure P is begin ",
        "declare begin ",
        "~declare begin ",
        "null; ",
        "end; ",
        "end;",
        63,
    ),
    (
        "procedure P is begin ",
        "loop ",
        "~loop ",
        "null; ",
        "end loop; ",
        "end;",
        63,
    ),
    (
        "procedure P is begin ",
        "while A loop ",
        "~while A loop ",
        "null; ",
        "end loop; ",
        "end;",
        63,
    ),
    (
        "procedure P is begin ",
        "for I in A loop ",
        "~for I in A loop ",
        "null; ",
        "end loop; ",
        "end;",
        63,
    ),
    (
        "procedure P is begin ",
        "if A then ",
        "~if A then ",
        "null; ",
        "end if; ",
        "end;",
        63,
    ),
    (
        "procedure P is begin ",
        "if A then null; else ",
        "~if A then null; else ",
        "null; ",
        "end if; ",
        "end;",
        63,
    ),
    (
        "procedure P is begin ",
        "case A is when B => ",
        "~case A is when B => ",
        "null; ",
        "end case; ",
        "end;",
        63,
    ),
    (
        "procedure P is begin X := ",
        "(",
        "~(",
        "A",
        ")",
        "; end;",
        63,
    ),
    (
        "procedure P is begin X := ",
        "A (",
        "A ~(",
        "A",
        ")",
        "; end;",
        63,
    ),
    (
        "procedure P is begin X := ",
        "(A => ",
        "~(A => ",
        "A",
        ")",
        "; end;",
        63,
    ),
    (
        "procedure P is begin X := ",
        "new T'(",
        "new T'~(",
        "A",
        ")",
        "; end;",
        63,
    ),
    ("package P is X : T := ", "(", "~(", "A", ")", "; end;", 63),
    (
        "package body P is procedure Q is begin ",
        "begin ",
        "~begin ",
        "null; ",
        "end; ",
        "end; end;",
        62,
    ),
    (
        "package body P is procedure Q is X : T := ",
        "(",
        "~(",
        "A",
        ")",
        "; begin null; end; end;",
        62,
    ),
    (
        "package P is procedure Q is new G (",
        "(",
        "~(",
        "A",
        ")",
        "); end;",
        62,
    ),
    (
        "procedure P is procedure Q is new G (",
        "(",
        "~(",
        "A",
        ")",
        "); begin null; end;",
        62,
    ),
    (
        "procedure P is type T is array (",
        "(",
        "~(",
        "A",
        ") ",
        ".. 1) of T; begin null; end;",
        62,
    ),
];

#[test]
fn nesting(rt: HostRuntime) -> Result<(), Fail> {
    for row in &CONSTRUCTS {
        let (front, opener, marked, inner, closer, back, room) = *row;
        let whole = [
            (front, 1),
            (opener, room),
            (inner, 1),
            (closer, room),
            (back, 1),
        ];
        demand(rt.alloc(), opener, &whole, "accepted")?;
        demand(
            rt.alloc(),
            opener,
            &[(front, 1), (opener, room), (marked, 1)],
            "P2",
        )?;
    }
    Ok(())
}

/// Fails unless the parser answers so to each marked text within so many blocks.
fn demand_deep(
    alloc: Global,
    count: u32,
    front: &'static str,
    texts: &[&'static str],
    back: &'static str,
) -> Result<(), Fail> {
    for row in texts {
        let text = *row;
        let parts = [
            ("procedure P is begin ", 1),
            ("begin ", count),
            (front, 1),
            (text, 1),
            (back, 1),
            ("end; ", count),
            ("end;", 1),
        ];
        demand(alloc, text, &parts, "P2")?;
    }
    Ok(())
}

/// Items that all constructs stand around which may be open.
const DEEPEST_ITEMS: [&str; 16] = [
    "type T is ~(A);",
    "type T is ~record A : B; end record;",
    "type T is array ~(1 .. 2) of B;",
    "type T;",
    "type T is private;",
    "type T is access A;",
    "subtype S is T range 1 .. 2;",
    "subtype S is T range ~(1) .. 2;",
    "subtype S is T range 1 .. F ~(2);",
    "A : B := 1;",
    "A : B := ~(1);",
    "A : constant := F ~(1);",
    "procedure Q is new G ~(A);",
    "use A;",
    "pragma SPARK_Mode;",
    "pragma SPARK_Mode ~(On);",
];

#[test]
fn in_deepest_items(rt: HostRuntime) -> Result<(), Fail> {
    demand_deep(
        rt.alloc(),
        NESTING - 2,
        "declare ",
        &DEEPEST_ITEMS,
        " begin null; end; ",
    )
}

/// Items that all but one of the constructs stand around which may be open.
const DEEP_ITEMS: [&str; 10] = [
    "type T is (A);",
    "type T is record A : B; end record;",
    "type T is array (1 .. 2) of B;",
    "type T is array (F ~(1) .. 2) of B;",
    "type T is array (A ~(1)'Range) of B;",
    "A : B := (1);",
    "A : B := (~(1));",
    "procedure Q is new G (A);",
    "procedure Q is new G (F ~(1));",
    "pragma SPARK_Mode (On);",
];

#[test]
fn in_deep_items(rt: HostRuntime) -> Result<(), Fail> {
    demand_deep(
        rt.alloc(),
        NESTING - 3,
        "declare ",
        &DEEP_ITEMS,
        " begin null; end; ",
    )
}

/// Statements that all constructs stand around which may be open.
const DEEPEST_STATEMENTS: [&str; 13] = [
    "null; X := 1; P; X.all := Y.Z; exit; exit when A; return; return B;",
    "X := ~(1);",
    "X ~(1) := 1;",
    "P ~(1);",
    "exit when ~(A);",
    "return new T'~(1);",
    "null; null; ~loop null; end loop;",
    "~while A loop null; end loop;",
    "~for I in T loop null; end loop;",
    "~if A then null; end if;",
    "~case X is when 1 => null; end case;",
    "~declare begin null; end;",
    "~begin null; end;",
];

#[test]
fn in_deepest_statements(rt: HostRuntime) -> Result<(), Fail> {
    demand_deep(rt.alloc(), NESTING - 1, "", &DEEPEST_STATEMENTS, " ")
}

/// Statements that all but one of the constructs stand around which may be open.
const DEEP_STATEMENTS: [&str; 15] = [
    "X := (1);",
    "X (1) := F (2);",
    "X := F (G ~(1));",
    "if A then null; end if;",
    "if ~(A) then null; end if;",
    "if A then null; elsif ~(B) then null; end if;",
    "if A then null; else ~begin null; end; end if;",
    "case ~(X) is when 1 => null; end case;",
    "case X is when ~(1) => null; end case;",
    "case X is when 1 => P ~(1); end case;",
    "while ~(A) loop null; end loop;",
    "for I in 1 .. F ~(2) loop null; end loop;",
    "loop P ~(1); end loop;",
    "begin ~begin null; end; end;",
    "declare X : T := ~(1); begin null; end;",
];

#[test]
fn in_deep_statements(rt: HostRuntime) -> Result<(), Fail> {
    demand_deep(rt.alloc(), NESTING - 2, "", &DEEP_STATEMENTS, " ")
}

const OPERATED: [(&str, &str, &str); 10] = [
    ("procedure P is begin X := A", " + A", "; end;"),
    ("procedure P is begin X := A", " and A", "; end;"),
    ("procedure P is begin X := A", " or else A", "; end;"),
    ("procedure P is begin X := A", " and (A)", "; end;"),
    ("procedure P is begin X := A", " * A", "; end;"),
    ("procedure P is begin X := (1, A", " & A", ", 2); end;"),
    ("procedure P is begin P (A", " - A", "); end;"),
    (
        "procedure P is begin if A",
        " xor A",
        " then null; end if; end;",
    ),
    ("procedure P is X : T := A", " mod A", "; begin null; end;"),
    ("package P is X : constant := A", " rem A", "; end;"),
];

#[test]
fn operators(rt: HostRuntime) -> Result<(), Fail> {
    for row in &OPERATED {
        let (front, operator, back) = *row;
        demand(
            rt.alloc(),
            operator,
            &[(front, 1), (operator, OPERATORS), (back, 1)],
            "accepted",
        )?;
        let more = [(front, 1), (operator, OPERATORS), ("~", 1), (operator, 1)];
        demand(rt.alloc(), operator, &more, "P2")?;
    }
    Ok(())
}

/// Each row: a front, what stands between two halves of the operators, the last operator with a
/// mark, and the code.
///
/// The count begins anew in each outermost expression, and then the end of the file is refused; it
/// goes on through parentheses and further arguments.
const HALVES: [(&str, &str, &str, &str); 9] = [
    ("procedure P is begin X := A", "; X := A", " + A~", "P1"),
    (
        "procedure P is begin X := A",
        "; if A = B then null; end if; X := A",
        " + A~",
        "P1",
    ),
    ("procedure P is X : T := A", "; Y : T := A", " + A~", "P1"),
    ("procedure P is begin P (A", "); P (A", " + A~", "P1"),
    ("procedure P is begin X (A", ") := (A", " + A~", "P1"),
    ("procedure P is begin X := (A", ", A", " ~+ A", "P2"),
    ("procedure P is begin X := (A", ", (A), (A", " ~+ A", "P2"),
    ("procedure P is begin X := B (A", ") (A", " ~+ A", "P2"),
    ("procedure P is begin P (A", ", A", " + A~", "P1"),
];

#[test]
fn counts(rt: HostRuntime) -> Result<(), Fail> {
    for row in &HALVES {
        let (front, middle, last, code) = *row;
        let half = (" + A", OPERATORS / 2);
        demand(
            rt.alloc(),
            middle,
            &[(front, 1), half, (middle, 1), half, (last, 1)],
            code,
        )?;
    }
    Ok(())
}

/// The limit is met before what no source goes on with, and after it nothing is looked at.
#[test]
fn order(rt: HostRuntime) -> Result<(), Fail> {
    let deep = [
        ("procedure P is begin X := ", 1),
        ("(", NESTING - 1),
        ("~(; raise", 1),
    ];
    demand(rt.alloc(), "65 constructs", &deep, "P2")?;
    let wrong = [
        ("procedure P is begin ~raise; X := ", 1),
        ("(", NESTING),
        (";", 1),
    ];
    demand(rt.alloc(), "an earlier word", &wrong, "P3")
}
