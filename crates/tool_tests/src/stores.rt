//! Runs over both stores, and over one that counts its reads.
ghost use Rattle.slot_heap.specs.Heaps.{no_heap};

use crate::command::{NO_FAULTS, Response, repeated, run_over, words_of};
use crate::counting::Counting;
use slot_heap::{ReuseStore, Store};
use spark_base::MemSource;
use std::alloc::{AllocError, Global};
use std::test::Fail;
use word_heap::WordStore;

/// The declarations of the programs below but for that of a traversal.
const HEAD: &str = "with Ada.Text_IO; use Ada.Text_IO;
with Ada.Integer_Text_IO; use Ada.Integer_Text_IO;
with Ada.Unchecked_Deallocation;
procedure Main is
type Cell;
type List is access Cell;
type Cell is record
Value : Integer;
Next : List;
end record;
type Int_Ptr is access Integer;
procedure Free is new Ada.Unchecked_Deallocation (Cell, List);
procedure Drop is new Ada.Unchecked_Deallocation (Integer, Int_Ptr);
";

/// It makes a list of the numbers of its input, adds them up, and frees the list.
const SUMS: &str = "L, Old : List; V, Sum : Integer;
begin
while not End_Of_File loop Get (V); L := new Cell'(V, L); end loop;
declare C : access constant Cell := L; begin
while C /= null loop Sum := Sum + C.Value; C := C.Next; end loop; end;
Put_Line (Integer'Image (Sum));
while L /= null loop Old := L; L := Old.Next; Free (Old); end loop;
end Main;
";

/// It makes a list and frees it, over and over.
const ROUNDS: &str = "L, Old : List;
begin
for R in 1 .. 100 loop
for I in 1 .. 1000 loop L := new Cell'(I, L); end loop;
while L /= null loop Old := L; L := Old.Next; Free (Old); end loop;
end loop;
end Main;
";

/// It has a whole source of its own.
const TRAVERSES: &str = "package P is
type Cell; type List is access Cell;
type Cell is record Value : Integer; Next : List; end record;
function Last (L : access Cell) return access Cell;
end P;
package body P is
function Last (L : access Cell) return access Cell is
B : access Cell := L; begin
while B.Next /= null loop B := B.Next; end loop; return B; end Last;
end P;
with P, Ada.Text_IO; use P, Ada.Text_IO;
procedure Main is X : List := new Cell'(1, new Cell'(2, null)); begin
declare B : access Cell := Last (X); begin B.Value := 9; end;
Put_Line (Integer'Image (X.Next.Value));
end Main;
";

/// A cell of one type takes the slot of one of another type.
const TWO_TYPES: &str =
    "type Pair is record A, B : Integer; end record; type Pair_Ptr is access Pair;
procedure Gone is new Ada.Unchecked_Deallocation (Pair, Pair_Ptr);
X : List := new Cell'(5, null); Y : Pair_Ptr;
begin
Free (X); Y := new Pair; Put (Integer'Image (Y.A)); Gone (Y);
end Main;
";

/// A moved pointer is assigned to: its cell has gone elsewhere, and no leak check fails there.
const MOVES: &str = "X : List := new Cell'(1, null);
begin
X := X;
end Main;
";

/// It frees cells of two sizes, and makes others in their slots.
const USES_AGAIN: &str = "X : List := new Cell'(5, null); I : Int_Ptr;
begin
Free (X); I := new Integer'(3); Drop (I); X := new Cell'(6, null);
Put_Line (Integer'Image (X.Value)); Free (X);
end Main;
";

/// It prints what a cell holds, and frees it.
const PRINTS: &str = "X : Int_Ptr := new Integer'(7);
begin
Put_Line (Integer'Image (X.all));
Drop (X);
end Main;
";

/// It makes a cell in a step that raises: it counts as freed.
const RAISES: &str =
    "type Pair is record First : List; Second : Integer; end record; type Pair_Ptr is access Pair;
P : Pair_Ptr; N : Integer;
begin
P := new Pair'(new Cell'(2, null), 1 / N);
end Main;
";

/// Each row: the front of a source, the rest of it, how many numbers are its input, what is written
/// to each output, the status, and how many slots are made.
const ROWS: [(&str, &str, u32, &str, &str, u8, u64); 8] = [
    (
        HEAD,
        SUMS,
        1_000,
        " 500500\n",
        "steps 10013, made 1000, freed 1000, leaked 0, slots 1000\n",
        0,
        1_000,
    ),
    (
        HEAD,
        ROUNDS,
        0,
        "",
        "steps 600407, made 100000, freed 100000, leaked 0, slots 1000\n",
        0,
        1_000,
    ),
    (
        "",
        TRAVERSES,
        0,
        " 9\n",
        "f.adb:15:1: leak of cell 2\nsteps 15, made 2, freed 0, leaked 1, slots 2\n",
        5,
        2,
    ),
    (
        HEAD,
        TWO_TYPES,
        0,
        " 0",
        "steps 9, made 2, freed 2, leaked 0, slots 1\n",
        0,
        1,
    ),
    (
        HEAD,
        MOVES,
        0,
        "",
        "f.adb:17:1: leak of cell 1\nsteps 4, made 1, freed 0, leaked 1, slots 1\n",
        5,
        1,
    ),
    (
        HEAD,
        USES_AGAIN,
        0,
        " 6\n",
        "steps 11, made 3, freed 3, leaked 0, slots 2\n",
        0,
        2,
    ),
    (
        HEAD,
        PRINTS,
        0,
        " 7\n",
        "steps 5, made 1, freed 1, leaked 0, slots 1\n",
        0,
        1,
    ),
    (
        HEAD,
        RAISES,
        0,
        "",
        "f.adb:17:1: raised Constraint_Error\nsteps 3, made 1, freed 1, leaked 0, slots 1\n",
        3,
        1,
    ),
];

/// The lines `1`, `2` and so on.
fn numbers(alloc: Global, count: u32) -> Result<Vec<u8>, AllocError> {
    let mut text = Vec::new(alloc);
    for number in 0..count {
        let line = format!(in alloc; "{}\n", number + 1)?;
        text.extend_from_slice(line.as_bytes())?;
    }
    Ok(text)
}

/// What `run --stats f.adb` does over a store, with so many numbers as its input.
fn response_over<R: Store>(
    alloc: Global,
    front: &str,
    rest: &str,
    count: u32,
    store: &mut R,
) -> Result<Response, AllocError>
    requires { R.Means store.old no_heap }
{
    let words = words_of(alloc, "run --stats f.adb")?;
    let text = repeated(alloc, front, rest, 1, "")?;
    let stored = vec![in alloc; (String::from_str(alloc, "f.adb")?, text)]?;
    let mut input = MemSource::new(numbers(alloc, count)?, Vec::new(alloc));
    run_over(alloc, &words, stored, &mut input, store, NO_FAULTS)
}

#[test]
fn values_in_slots(rt: HostRuntime) -> Result<(), Fail> {
    let alloc = rt.alloc();
    for row in &ROWS {
        let (front, rest, count, out, err, status, slots) = *row;
        let mut store = ReuseStore::new(alloc);
        let response = response_over(alloc, front, rest, count, &mut store)?;
        assert!(rt; response.is(out, err, status), "{out} {err} {status}");
        assert!(rt; store.slots() == slots, "{slots}");
    }
    Ok(())
}

#[test]
fn numbers_in_slots(rt: HostRuntime) -> Result<(), Fail> {
    let alloc = rt.alloc();
    for row in &ROWS {
        let (front, rest, count, out, err, status, slots) = *row;
        let mut store = WordStore::new(alloc);
        let response = response_over(alloc, front, rest, count, &mut store)?;
        assert!(rt; response.is(out, err, status), "{out} {err} {status}");
        assert!(rt; store.slots() == slots, "{slots}");
    }
    Ok(())
}

/// Each cell of the list is read for its value, for the one after it, and for that once more as it is
/// freed.
#[test]
fn reads_of_cells(rt: HostRuntime) -> Result<(), Fail> {
    let alloc = rt.alloc();
    let mut store = Counting::new(ReuseStore::new(alloc));
    let response = response_over(alloc, HEAD, SUMS, 1_000, &mut store)?;
    let counts = "steps 10013, made 1000, freed 1000, leaked 0, slots 1000\n";
    assert!(rt; response.is(" 500500\n", counts, 0));
    assert!(rt; store.reads() >= 3_000);
    Ok(())
}
