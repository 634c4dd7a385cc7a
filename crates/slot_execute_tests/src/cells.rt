//! Cells whose slots are used again.
use crate::lists::source;
use crate::program::{NO_FAULTS, run};
use code_rows::Exception;
use run_results::{Ending, Ran};
use spark_base::Pos;
use std::test::Fail;

const ONE: &str = "X : Int_Ptr := new Integer'(7);
begin
Put_Line (Integer'Image (X.all));
Drop (X);
end Main;
";

const TWO_TYPES: &str =
    "type Pair is record A, B : Integer; end record; type Pair_Ptr is access Pair;
procedure Gone is new Ada.Unchecked_Deallocation (Pair, Pair_Ptr);
X : List := new Cell'(5, null); Y : Pair_Ptr;
begin
Free (X); Y := new Pair; Put (Integer'Image (Y.A)); Gone (Y);
end Main;
";

const TWO_SIZES: &str = "X : List := new Cell'(5, null); I : Int_Ptr;
begin
Free (X); I := new Integer'(3); Drop (I); X := new Cell'(6, null);
Put_Line (Integer'Image (X.Value)); Free (X);
end Main;
";

/// The step that raises makes no cell.
const RAISES: &str = "X : List; Z : Integer := 0;
begin
X := new Cell'(1, new Cell'(2 / Z, null));
end Main;
";

/// The cell that the raising step made counts as freed.
const RAISES_LATE: &str = "subtype Small is Integer range 1 .. 9;
type Box is record Left : Int_Ptr; Right : Small; end record;
type Box_Ptr is access Box;
X : Int_Ptr := new Integer'(1); B : Box_Ptr; Z : Integer := 10;
begin
B := new Box'(new Integer'(5), Z);
end Main;
";

/// A run with these counts.
fn counted(ending: Ending, steps: u64, made: u64, freed: u64, leaked: u64) -> Ran {
    Ran {
        ending,
        steps,
        made,
        freed,
        leaked,
    }
}

#[test]
fn used_again(rt: HostRuntime) -> Result<(), Fail> {
    let alloc = rt.alloc();
    let text = source(alloc, ONE)?;
    // Declare; Output; Release; EndScope; Finish
    let one = run(alloc, text.as_str(), "", 100, NO_FAULTS)?;
    assert!(rt; one.is(" 7\n", "", Ok(counted(Ending::Normal, 5, 1, 1, 0)), 1));
    let text = source(alloc, TWO_TYPES)?;
    // Declare, twice; Release; Assign; Output; Release; EndScope, twice; Finish. Both cells have two
    // words
    let types = run(alloc, text.as_str(), "", 100, NO_FAULTS)?;
    assert!(rt; types.is(" 0", "", Ok(counted(Ending::Normal, 9, 2, 2, 0)), 1));
    let text = source(alloc, TWO_SIZES)?;
    // Declare, twice; Release; Assign; Release; Assign; Output; Release; EndScope, twice; Finish
    let sizes = run(alloc, text.as_str(), "", 100, NO_FAULTS)?;
    assert!(rt; sizes.is(" 6\n", "", Ok(counted(Ending::Normal, 11, 3, 3, 0)), 2));
    Ok(())
}

#[test]
fn raising_steps(rt: HostRuntime) -> Result<(), Fail> {
    let alloc = rt.alloc();
    let text = source(alloc, RAISES_LATE)?;
    // Declare, three times; Assign, which raises
    let late = run(alloc, text.as_str(), "", 100, NO_FAULTS)?;
    let ending = Ending::Raised {
        exception: Exception::ConstraintError,
        pos: Pos {
            file: 0,
            line: 19,
            column: 1,
        },
    };
    assert!(rt; late.is("", "", Ok(counted(ending, 4, 2, 1, 0)), 2));
    let text = source(alloc, RAISES)?;
    // Declare, twice; Assign, which raises
    let first = run(alloc, text.as_str(), "", 100, NO_FAULTS)?;
    let ending = Ending::Raised {
        exception: Exception::ConstraintError,
        pos: Pos {
            file: 0,
            line: 16,
            column: 1,
        },
    };
    assert!(rt; first.is("", "", Ok(counted(ending, 3, 0, 0, 0)), 0));
    Ok(())
}
