//! Lists that are made and freed.
use crate::program::{NO_FAULTS, run};
use run_results::{Ending, Ran};
use std::alloc::{AllocError, Global};
use std::test::Fail;

/// What the programs below begin with.
pub(crate) const BEGIN: &str = "with Ada.Text_IO; use Ada.Text_IO;
with Ada.Integer_Text_IO; use Ada.Integer_Text_IO;
with Ada.Unchecked_Deallocation;
procedure Main is
   type Cell;
   type List is access Cell;
   type Cell is record
      Value : Integer;
      Next : List;
   end record;
   type Int_Ptr is access Integer;
   procedure Free is new Ada.Unchecked_Deallocation (Cell, List);
   procedure Drop is new Ada.Unchecked_Deallocation (Integer, Int_Ptr);
";

const SUMS: &str = "L, Old : List; V, Sum : Integer;
begin
while not End_Of_File loop Get (V); L := new Cell'(V, L); end loop;
declare C : access constant Cell := L; begin
while C /= null loop Sum := Sum + C.Value; C := C.Next; end loop; end;
Put_Line (Integer'Image (Sum));
while L /= null loop Old := L; L := Old.Next; Free (Old); end loop;
end Main;
";

const REPEATS: &str = "L, Old : List;
begin
for R in 1 .. 100 loop
for I in 1 .. 1000 loop L := new Cell'(I, L); end loop;
while L /= null loop Old := L; L := Old.Next; Free (Old); end loop;
end loop;
end Main;
";

const TRAVERSES: &str = "package P is
type Cell; type List is access Cell;
type Cell is record Value : Integer; Next : List; end record;
function Last (L : access Cell) return access Cell;
end P;
package body P is
function Last (L : access Cell) return access Cell is
B : access Cell := L; begin
while B.Next /= null loop B := B.Next; end loop; return B; end Last;
end P;
with P, Ada.Text_IO; use P, Ada.Text_IO;
procedure Main is X : List := new Cell'(1, new Cell'(2, null)); begin
declare B : access Cell := Last (X); begin B.Value := 9; end;
Put_Line (Integer'Image (X.Next.Value));
end Main;
";

/// A program of these lines.
pub(crate) fn source(alloc: Global, lines: &str) -> Result<String, AllocError> {
    format!(in alloc; "{BEGIN}{lines}")
}

/// A normal end with these counts.
fn ended(steps: u64, made: u64, freed: u64, leaked: u64) -> Ran {
    Ran {
        ending: Ending::Normal,
        steps,
        made,
        freed,
        leaked,
    }
}

/// The numbers from 1 on, a line each.
fn numbers(alloc: Global, count: u32) -> Result<String, AllocError> {
    let mut text = String::new(alloc);
    for n in 0..count {
        let number = n + 1;
        text.push_str(format!(in alloc; "{number}\n")?.as_str())?;
    }
    Ok(text)
}

#[test]
fn sums(rt: HostRuntime) -> Result<(), Fail> {
    let alloc = rt.alloc();
    let text = source(alloc, SUMS)?;
    let input = numbers(alloc, 1000)?;
    // Declare, four times; Test, Input, Assign; Declare; Test, Assign, Assign; EndScope; Output; Test,
    // Assign, Assign, Release; EndScope, twice; Finish. Each loop has 1,000 turns and one more Test
    let answer = run(alloc, text.as_str(), input.as_str(), 20_000, NO_FAULTS)?;
    assert!(rt; answer.is(" 500500\n", "", Ok(ended(10_013, 1000, 1000, 0)), 1000));
    Ok(())
}

#[test]
fn repeats(rt: HostRuntime) -> Result<(), Fail> {
    let alloc = rt.alloc();
    let text = source(alloc, REPEATS)?;
    // Declare, twice; Start; 100 times Next, Start, Next and Assign 1,000 times, Next, Test and Assign,
    // Assign, Release 1,000 times, Test; Next; EndScope, twice; Finish
    let answer = run(alloc, text.as_str(), "", 1_000_000, NO_FAULTS)?;
    assert!(rt; answer.is("", "", Ok(ended(600_407, 100_000, 100_000, 0)), 1000));
    Ok(())
}

#[test]
fn traverses(rt: HostRuntime) -> Result<(), Fail> {
    // Declare; Call; Declare, Test, Assign, Test, Hold, EndScope, Finish of the function; Declare;
    // Assign; EndScope; Output; EndScope, whose leak check fails; Finish
    let answer = run(rt.alloc(), TRAVERSES, "", 1000, NO_FAULTS)?;
    let line = "m.adb:15:1: leak of cell 2\n";
    assert!(rt; answer.is(" 9\n", line, Ok(ended(15, 2, 0, 1)), 2));
    Ok(())
}
