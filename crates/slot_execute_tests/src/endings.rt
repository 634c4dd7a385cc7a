//! How runs end, what they write, and their counts.
use crate::program::{NO_FAULTS, run};
use code_rows::Exception;
use run_results::{Ending, Ran};
use spark_base::Pos;
use std::test::Fail;

const PLAIN: &str = "procedure M is begin null; end M;";

const DIVIDES: &str = "procedure M is X : Integer := 0; begin X := 1 / X; end M;";

const LEAKS: &str =
    "procedure M is type P is access Integer; X : P := new Integer'(1); begin null; end M;";

const FREES: &str =
    "with Ada.Unchecked_Deallocation;\nprocedure M is type P is access Integer;\nprocedure Free is new Ada.Unchecked_Deallocation (Integer, P);\nX : P := new Integer'(1);\nbegin Free (X); end M;\n";

const WRITES: &str =
    "with Ada.Text_IO; use Ada.Text_IO;\nprocedure M is begin\nfor I in 1 .. 2 loop Put (Integer'Image (I)); end loop; New_Line; end M;\n";

const READS: &str =
    "with Ada.Text_IO; use Ada.Text_IO;\nwith Ada.Integer_Text_IO; use Ada.Integer_Text_IO;\nprocedure M is X : Integer;\nbegin Get (X); Put_Line (Integer'Image (X)); end M;\n";

const CALLS: &str =
    "package P is\nfunction Twice (X : Integer) return Integer;\nend P;\npackage body P is\nfunction Twice (X : Integer) return Integer is\nbegin return X + X; end Twice;\nend P;\nwith Ada.Text_IO; use Ada.Text_IO;\nwith P; use P;\nprocedure M is\nbegin Put_Line (Integer'Image (Twice (Twice (3)))); end M;\n";

const COPIES: &str =
    "package P is\nprocedure Swap (A, B : in out Integer; Sum : out Integer);\nend P;\npackage body P is\nprocedure Swap (A, B : in out Integer; Sum : out Integer) is\nOld : Integer := A;\nbegin A := B; B := Old; Sum := A + B; end Swap;\nend P;\nwith Ada.Text_IO; use Ada.Text_IO;\nwith P; use P;\nprocedure M is\nX : Integer := 1;\nY : Integer := 20;\nZ : Integer;\nbegin\nSwap (X, Y, Z);\nPut_Line (Integer'Image (X) & Integer'Image (Y) & Integer'Image (Z));\nend M;\n";

const DEEP: &str =
    "package P is\nfunction Sum (N : Integer) return Integer;\nend P;\npackage body P is\nfunction Sum (N : Integer) return Integer is\nbegin\nif N = 0 then return 0; end if;\nreturn N + Sum (N - 1);\nend Sum;\nend P;\nwith Ada.Text_IO; use Ada.Text_IO;\nwith P; use P;\nprocedure M is\nbegin Put_Line (Integer'Image (Sum (200))); end M;\n";

/// The object of each frame of Down has 65,536 words.
const FULL: &str =
    "package P is\ntype Row is array (1 .. 256) of Integer;\ntype Square is array (1 .. 256) of Row;\nprocedure Down;\nend P;\npackage body P is\nprocedure Down is\nS : Square;\nbegin\nDown;\nend Down;\nend P;\nwith P; use P;\nprocedure M is\nbegin\nDown; end M;\n";

/// A run without cells that ends normally.
fn normal(steps: u64) -> Ran {
    counted(Ending::Normal, steps, 0, 0, 0)
}

/// A run with these counts.
fn counted(ending: Ending, steps: u64, made: u64, freed: u64, leaked: u64) -> Ran {
    Ran {
        ending,
        steps,
        made,
        freed,
        leaked,
    }
}

/// An exception at a place.
fn raised(exception: Exception, line: u32, column: u32) -> Ending {
    Ending::Raised {
        exception,
        pos: Pos {
            file: 0,
            line,
            column,
        },
    }
}

#[test]
fn normal_ends(rt: HostRuntime) -> Result<(), Fail> {
    let alloc = rt.alloc();
    // Skip; Finish
    let plain = run(alloc, PLAIN, "", 100, NO_FAULTS)?;
    assert!(rt; plain.is("", "", Ok(normal(2)), 0));
    // Start; Next and Output, twice; Next; Output; Finish
    let writes = run(alloc, WRITES, "", 100, NO_FAULTS)?;
    assert!(rt; writes.is(" 1 2\n", "", Ok(normal(8)), 0));
    // Declare; Input; Output; Finish
    let reads = run(alloc, READS, " -7 8", 100, NO_FAULTS)?;
    assert!(rt; reads.is("-7\n", "", Ok(normal(4)), 0));
    // Call; Hold; Finish; the same again; Output; Finish
    let calls = run(alloc, CALLS, "", 100, NO_FAULTS)?;
    assert!(rt; calls.is(" 12\n", "", Ok(normal(8)), 0));
    Ok(())
}

#[test]
fn calls(rt: HostRuntime) -> Result<(), Fail> {
    let alloc = rt.alloc();
    // Declare, three times; Call; Declare, Assign, three times, Finish; Output; Finish
    let copies = run(alloc, COPIES, "", 100, NO_FAULTS)?;
    assert!(rt; copies.is(" 20 1 21\n", "", Ok(normal(11)), 0));
    // Call; of 200 calls Test, Call, Hold, Finish; of the last one Test, Hold, Finish; Output; Finish
    let deep = run(alloc, DEEP, "", 1000, NO_FAULTS)?;
    assert!(rt; deep.is(" 20100\n", "", Ok(normal(806)), 0));
    Ok(())
}

#[test]
fn full_stack(rt: HostRuntime) -> Result<(), Fail> {
    // 2 words of the first frames, and 65,537 of each of Down: 63 of these fit into 4,194,304 words.
    // Call; of 62 frames Declare and Call; Declare; and the call that raises
    let full = run(rt.alloc(), FULL, "", 1000, NO_FAULTS)?;
    let ending = raised(Exception::StorageError, 10, 1);
    assert!(rt; full.is("", "", Ok(counted(ending, 127, 0, 0, 0)), 0));
    Ok(())
}

#[test]
fn cells_and_leaks(rt: HostRuntime) -> Result<(), Fail> {
    let alloc = rt.alloc();
    // Declare; Release; EndScope; Finish
    let frees = run(alloc, FREES, "", 100, NO_FAULTS)?;
    assert!(rt; frees.is("", "", Ok(counted(Ending::Normal, 4, 1, 1, 0)), 1));
    // Declare; Skip; EndScope, whose leak check fails; Finish
    let leaks = run(alloc, LEAKS, "", 100, NO_FAULTS)?;
    let line = "m.adb:1:80: leak of cell 1\n";
    assert!(rt; leaks.is("", line, Ok(counted(Ending::Normal, 4, 1, 0, 1)), 1));
    Ok(())
}

#[test]
fn exceptions(rt: HostRuntime) -> Result<(), Fail> {
    let alloc = rt.alloc();
    // a step that raises counts
    let divides = run(alloc, DIVIDES, "", 100, NO_FAULTS)?;
    let ending = raised(Exception::ConstraintError, 1, 40);
    assert!(rt; divides.is("", "", Ok(counted(ending, 2, 0, 0, 0)), 0));
    let reads = run(alloc, READS, "seven", 100, NO_FAULTS)?;
    let ending = raised(Exception::DataError, 4, 7);
    assert!(rt; reads.is("", "", Ok(counted(ending, 2, 0, 0, 0)), 0));
    let reads = run(alloc, READS, " \n", 100, NO_FAULTS)?;
    let ending = raised(Exception::EndError, 4, 7);
    assert!(rt; reads.is("", "", Ok(counted(ending, 2, 0, 0, 0)), 0));
    Ok(())
}

#[test]
fn budgets(rt: HostRuntime) -> Result<(), Fail> {
    for steps in 0..4u64 {
        let plain = run(rt.alloc(), PLAIN, "", steps, NO_FAULTS)?;
        let ran = if steps < 2 {
            counted(Ending::Spent, steps, 0, 0, 0)
        } else {
            normal(2)
        };
        assert!(rt; plain.is("", "", Ok(ran), 0), "{steps}");
    }
    Ok(())
}
