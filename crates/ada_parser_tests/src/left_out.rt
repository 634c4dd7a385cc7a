//! Each word of what the language leaves out, at a position where no source has it.
use crate::table::demand_all;
use std::test::Fail;

const WORDS: [&str; 39] = [
    "procedure P is begin ~abort T; end;",
    "package P is type T is ~abstract private; end;",
    "procedure P is begin ~accept E; end;",
    "procedure P is X : ~aliased T; begin null; end;",
    "procedure P is begin X := ~all; end;",
    "procedure P is type T is access ~all A; begin null; end;",
    "procedure P is begin X.all.Y := A'~all; end;",
    "procedure P is use ~all type T; begin null; end;",
    "procedure P is begin X ~at 1; end;",
    "procedure P is begin ~delay X; end;",
    "procedure P is type T is ~delta X; begin null; end;",
    "procedure P is type T is ~digits 5; begin null; end;",
    "procedure P is begin X ~do null; end;",
    "procedure P is ~entry E; begin null; end;",
    "procedure P is begin null; ~exception when others => null; end;",
    "procedure P is X : ~exception; begin null; end;",
    "~generic package P is end;",
    "procedure P is begin ~goto X; end;",
    "procedure P is type T is ~interface; begin null; end;",
    "~limited with A; package P is end;",
    "package P is private type T is ~limited private; end;",
    "procedure P is ~new G (T);",
    "procedure P is type T is ~new Integer; begin null; end;",
    "package body P is procedure Q (A : T) is ~new G (T); end;",
    "package P is ~overriding procedure Q; end;",
    "package P is ~protected type T is end; end;",
    "procedure P is begin ~raise E; end;",
    "procedure P is X : T ~renames Y; begin null; end;",
    "package P ~renames Q;",
    "procedure P is begin ~requeue E; end;",
    "procedure P is begin ~select null; end select; end;",
    "~separate (A) procedure P is begin null; end;",
    "procedure P is ~separate;",
    "procedure P is begin if ~some then null; end if; end;",
    "procedure P is type T is ~synchronized interface; begin null; end;",
    "procedure P is type T is ~tagged null record; begin null; end;",
    "package body P is ~task body T is begin null; end; end;",
    "procedure P is begin ~terminate; end;",
    "procedure P is begin X ~until Y; end;",
];

#[test]
fn refuses_words(rt: HostRuntime) -> Result<(), Fail> {
    demand_all(rt.alloc(), "", &WORDS, "", "P3")
}

const IDENTIFIERS: [&str; 3] = [
    "procedure P is begin X ~Raise_It; end;",
    "procedure P is begin X := Y ~Z; end;",
    "package P is X : T ~\"new\"; end;",
];

#[test]
fn refuses_identifiers(rt: HostRuntime) -> Result<(), Fail> {
    demand_all(rt.alloc(), "", &IDENTIFIERS, "", "P1")
}
