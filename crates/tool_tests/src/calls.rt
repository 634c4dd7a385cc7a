//! Runs in which one call of the outside fails, whichever it is, and runs of files that are cut
//! short.
use crate::command::{Faults, NO_FAULTS, NONE, Response, run_on, words_of};
use spark_base::MemSource;
use std::alloc::{AllocError, Global};
use std::test::Fail;

/// It makes a list of the numbers of its input, adds them up, and frees the list.
const SUMS: &str = "with Ada.Text_IO; use Ada.Text_IO;
with Ada.Integer_Text_IO; use Ada.Integer_Text_IO;
with Ada.Unchecked_Deallocation;
procedure Main is
type Cell;
type List is access Cell;
type Cell is record
Value : Integer;
Next : List;
end record;
type Int_Ptr is access Integer;
procedure Free is new Ada.Unchecked_Deallocation (Cell, List);
procedure Drop is new Ada.Unchecked_Deallocation (Integer, Int_Ptr);
L, Old : List; V, Sum : Integer;
begin
while not End_Of_File loop Get (V); L := new Cell'(V, L); end loop;
declare C : access constant Cell := L; begin
while C /= null loop Sum := Sum + C.Value; C := C.Next; end loop; end;
Put_Line (Integer'Image (Sum));
while L /= null loop Old := L; L := Old.Next; Free (Old); end loop;
end Main;";

/// It prints each number of its input, and loses a cell for each. Both outputs get more bytes than
/// one call writes.
const LOSES: &str = "with Ada.Text_IO; use Ada.Text_IO;
with Ada.Integer_Text_IO; use Ada.Integer_Text_IO;
procedure Main is
type Int_Ptr is access Integer;
X : Int_Ptr; V : Integer;
begin
while not End_Of_File loop
Get (V); Put_Line (\"number\" & Integer'Image (V) & \" of those that are to be read, and a cell for it\");
X := new Integer'(V);
end loop;
X := null;
end Main;
";

/// The lines `1`, `2` and so on.
fn numbers(alloc: Global, count: u32) -> Result<Vec<u8>, AllocError> {
    let mut text = Vec::new(alloc);
    for number in 0..count {
        let line = format!(in alloc; "{}\n", number + 1)?;
        text.extend_from_slice(line.as_bytes())?;
    }
    Ok(text)
}

/// What a command does with so many numbers as its input, where a call of the outside fails, or
/// the call of the input with this number.
fn response_to(
    alloc: Global,
    line: &str,
    text: &[u8],
    count: u32,
    faults: Faults,
    fails: u64,
) -> Result<Response, AllocError> {
    let words = words_of(alloc, line)?;
    let text = Vec::from_slice(alloc, text)?;
    let stored = vec![in alloc; (String::from_str(alloc, "f.adb")?, text)]?;
    let mut input = MemSource::new(numbers(alloc, count)?, Vec::from_slice(alloc, &[fails])?);
    run_on(alloc, &words, stored, &mut input, faults)
}

/// What it does where the call with this number fails, of the files, the input, the first output or
/// the second one.
fn failing(
    alloc: Global,
    line: &str,
    text: &[u8],
    count: u32,
    what: u8,
    number: u64,
) -> Result<Response, AllocError> {
    match what {
        0 => response_to(alloc, line, text, count, (number, NONE, NONE), NONE),
        1 => response_to(alloc, line, text, count, NO_FAULTS, number),
        2 => response_to(alloc, line, text, count, (NONE, number, NONE), NONE),
        _ => response_to(alloc, line, text, count, (NONE, NONE, number), NONE),
    }
}

/// Whether the answer is that of a failed call with this number. Where something was read, no output
/// was called. Where something was written, both outputs hold prefixes of the whole, and neither was
/// called again: the other one was called so often before.
fn is_of_fault(response: &Response, whole: &Response, what: u8, number: u64, others: u64) -> bool {
    let calls = number.saturating_add(1);
    let called = (response.out.calls(), response.err.calls());
    match what {
        0 | 1 => response.is("", "", 7) && called == (0, 0),
        2 => is_cut(response, whole) && called == (calls, others),
        _ => is_cut(response, whole) && called == (others, calls),
    }
}

/// Whether the status is 8, and both outputs hold prefixes of the whole.
fn is_cut(response: &Response, whole: &Response) -> bool {
    response.status == 8
        && whole.out.bytes().starts_with(response.out.bytes())
        && whole.err.bytes().starts_with(response.err.bytes())
}

/// Whether the answer is that of a run without a fault.
fn is_whole(response: &Response, whole: &Response) -> bool {
    response.status == whole.status
        && response.out.bytes() == whole.out.bytes()
        && response.err.bytes() == whole.err.bytes()
}

/// Lets each of the calls that are made fail, and then the one after them, which makes no
/// difference. The number of the first call where the answer is another is told.
fn first_wrong(alloc: Global, row: &Row) -> Result<Option<u64>, AllocError> {
    let (line, text, count, what, made, others) = *row;
    let text = text.as_bytes();
    let whole = response_to(alloc, line, text, count, NO_FAULTS, NONE)?;
    for number in 0..made {
        let response = failing(alloc, line, text, count, what, number)?;
        let before = match others.get(number as usize) {
            Some(calls) => *calls,
            None => 0,
        };
        if !is_of_fault(&response, &whole, what, number, before) {
            return Ok(Some(number));
        }
    }
    let response = failing(alloc, line, text, count, what, made)?;
    Ok(if is_whole(&response, &whole) {
        None
    } else {
        Some(made)
    })
}

const RUN: &str = "run f.adb";

const STATS: &str = "run --stats f.adb";

/// A command, a program, how many numbers are its input, what is called, and how often: the files
/// (0), the input (1), the first output (2) or the second one (3). For each of these calls, how often
/// the other output is called before it.
type Row = (&'static str, &'static str, u32, u8, u64, [u64; 3]);

/// The lines of `LOSES` have 57 to 60 bytes, and its leak lines 26 to 29. Once there are 65,536 of
/// them, they are written: the output in the turns 1,111 and 2,204, the leak lines in the turn 2,300,
/// and the rest of both at the end, that of the output first.
const CALLS: [Row; 12] = [
    (RUN, SUMS, 1_000, 0, 3, [0, 0, 0]),
    (RUN, SUMS, 1_000, 1, 2, [0, 0, 0]),
    (RUN, SUMS, 1_000, 2, 1, [0, 0, 0]),
    (RUN, SUMS, 1_000, 3, 0, [0, 0, 0]),
    (STATS, SUMS, 1_000, 0, 3, [0, 0, 0]),
    (STATS, SUMS, 1_000, 1, 2, [0, 0, 0]),
    (STATS, SUMS, 1_000, 2, 1, [0, 0, 0]),
    (STATS, SUMS, 1_000, 3, 1, [1, 0, 0]),
    (RUN, LOSES, 3_000, 0, 3, [0, 0, 0]),
    (RUN, LOSES, 3_000, 1, 2, [0, 0, 0]),
    (RUN, LOSES, 3_000, 2, 3, [0, 0, 1]),
    (RUN, LOSES, 3_000, 3, 2, [2, 3, 0]),
];

#[test]
fn each_call_fails(rt: HostRuntime) -> Result<(), Fail> {
    for row in &CALLS {
        let (line, _, _, what, made, _) = *row;
        let wrong = first_wrong(rt.alloc(), row)?;
        assert!(rt; wrong.is_none(), "{line} {what} {made}");
    }
    Ok(())
}

/// Each strict prefix that ends before the last semicolon is refused.
#[test]
fn files_that_are_cut_short(rt: HostRuntime) -> Result<(), Fail> {
    let alloc = rt.alloc();
    let text = SUMS.as_bytes();
    for end in 0..text.len() {
        let response = response_to(alloc, RUN, &text[..end], 3, NO_FAULTS, NONE)?;
        assert!(rt; response.status == 2, "{end}");
        assert!(rt; response.out.bytes().is_empty(), "{end}");
    }
    let response = response_to(alloc, RUN, text, 3, NO_FAULTS, NONE)?;
    assert!(rt; response.is(" 6\n", "", 0));
    Ok(())
}
