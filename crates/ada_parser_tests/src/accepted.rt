//! A source for each alternative of the grammar.
use crate::table::demand_all;
use std::test::Fail;

const UNITS: [&str; 20] = [
    "procedure P is begin null; end;",
    "procedure P is begin null; end P;",
    "procedure P is begin null; end Q;",
    "procedure P with SPARK_Mode is begin null; end;",
    "procedure P (A : T) is begin null; end;",
    "procedure P (A : T; B, C : in A.T) with spark_mode => ON is begin null; end;",
    "function F return T is begin return; end;",
    "function F return access T is X : T; begin return X; end;",
    "function F (A : in T; B : out T; C : in out T; D : access T; E : access constant T) return access constant A.T is begin return A; end F;",
    "with A; with B, C.D; use A; use B, C; use type B.T, T; pragma SPARK_Mode; pragma Spark_Mode (On); procedure P is begin null; end;",
    "package P is end;",
    "with A; package P is end P;",
    "package P with SPARK_Mode => On is private end P;",
    "package P is X : T; procedure Q; procedure R is new G (T); procedure S (A : T) with SPARK_Mode; function F return T; use A; private type T is private; function F return access T with SPARK_Mode => On; end P;",
    "package body P is end;",
    "with A; package body P with SPARK_Mode is end P;",
    "package body P is X : T; procedure Q is begin null; end; procedure R is new G (T); procedure S; procedure U with SPARK_Mode; procedure V with SPARK_Mode is begin null; end V; end;",
    "package body P is procedure Q (A : T); procedure R (A : T) is begin null; end; procedure S (A : T) with SPARK_Mode => On is Y : T; begin null; end; end;",
    "package body P is function F return T; function G return T is begin return; end; function H (A : T) return T with SPARK_Mode is begin return; end; type T; end;",
    "package P is end; package body P is end; with P; procedure Q is begin null; end;",
];

#[test]
fn accepts_units(rt: HostRuntime) -> Result<(), Fail> {
    demand_all(rt.alloc(), "", &UNITS, "", "accepted")
}

const ITEMS: [&str; 24] = [
    "type T;",
    "type T is private;",
    "type T is (A);",
    "type T is (A, B, C);",
    "type T is record A : T; B, C : D.E; end record;",
    "type T is array (1 .. 2) of A.T;",
    "type T is array (T) of T;",
    "type T is array (A.T range 1 .. 2) of T;",
    "type T is array (A'Range) of T;",
    "type T is array (A (1).B'Range) of T;",
    "type T is array (A (1) .. B) of T;",
    "type T is array (A'Range .. 1) of T;",
    "type T is access A.T;",
    "subtype T is A.B;",
    "subtype T is A range 1 .. X + 1;",
    "X : T;",
    "X, Y : constant access constant T;",
    "X : T := 1;",
    "X : constant T := (1, 2);",
    "X : access T := null;",
    "X, Y : constant := 1;",
    "procedure Q is new A.B (T, C => D);",
    "use A; use type A.B;",
    "pragma SPARK_Mode; pragma SPARK_Mode (On);",
];

#[test]
fn accepts_items(rt: HostRuntime) -> Result<(), Fail> {
    demand_all(
        rt.alloc(),
        "procedure P is ",
        &ITEMS,
        " begin null; end;",
        "accepted",
    )?;
    demand_all(rt.alloc(), "package P is ", &ITEMS, " end;", "accepted")?;
    demand_all(
        rt.alloc(),
        "package body P is ",
        &ITEMS,
        " end;",
        "accepted",
    )
}

const STATEMENTS: [&str; 19] = [
    "null; null;",
    "X := 1; X.all := 1; X (1) := 1; X.Y'Z := 1;",
    "P; P (1); A.P (X => 1, 2);",
    "exit; exit when X = 1;",
    "return; return 1;",
    "if A then null; end if;",
    "if A then null; elsif B then null; elsif C then null; end if;",
    "if A then null; elsif B then null; else null; end if;",
    "case X is when 1 => null; when 2 | 3 .. 4 => null; when others => null; end case;",
    "case X is when others | A => null; end case;",
    "loop null; end loop;",
    "while A loop null; end loop;",
    "for I in 1 .. 2 loop null; end loop;",
    "for I in reverse T loop null; end loop;",
    "for I in T range 1 .. 2 loop null; end loop;",
    "for I in A'Range loop null; end loop;",
    "begin null; end;",
    "declare begin null; end;",
    "declare X : T; procedure Q is new G (T); begin null; end;",
];

#[test]
fn accepts_statements(rt: HostRuntime) -> Result<(), Fail> {
    demand_all(
        rt.alloc(),
        "procedure P is begin ",
        &STATEMENTS,
        " end;",
        "accepted",
    )?;
    demand_all(
        rt.alloc(),
        "package body P is function F return T is begin ",
        &STATEMENTS,
        " end F; end;",
        "accepted",
    )
}

const EXPRESSIONS: [&str; 25] = [
    "A and B and C",
    "A or B or C",
    "A xor B xor C",
    "A and then B and then C",
    "A or else B or else C",
    "(A and B) or C",
    "A = B and C /= D and E < F and G <= H and I > J and K >= L",
    "- A + B - C & D",
    "+ A * B / C mod D rem E",
    "- abs A * not B",
    "1",
    "\"text\"",
    "null",
    "A.B.all.C (1) (2, D => 3)'First'Last",
    "A'Range",
    "((A))",
    "(1, 2)",
    "(A => 1)",
    "(A => 1, 2, B => C)",
    "(others => (others => 1))",
    "new A.T",
    "new T'(1)",
    "new T'(A => 1)",
    "new T'(1, 2)",
    "new T'(others => 1)",
];

#[test]
fn accepts_expressions(rt: HostRuntime) -> Result<(), Fail> {
    demand_all(
        rt.alloc(),
        "procedure P is begin X := ",
        &EXPRESSIONS,
        "; end;",
        "accepted",
    )
}
