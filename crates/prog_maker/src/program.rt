//! The text of the program.
ghost use Rattle.std.specs.Prelude.{◌≡◌, ◌++◌, IfOk, OnOk};
ghost use Rattle.prog_maker.specs.Texts.{allocates, bodies_begin, body, borrows, call, declaration, ending, for_each, main_begins, observes, opening, program_text};

use std::alloc::{AllocError, Global};

/// What comes before the declarations of the procedures.
const OPENING: &str =
    "with Ada.Unchecked_Deallocation;\npackage Work is\ntype Cell; type List is access Cell;\ntype Cell is record Value : Integer; Next : List; end record;\nprocedure Free is new Ada.Unchecked_Deallocation (Cell, List);\n";

/// What comes between the declarations and the bodies.
const BODIES_BEGIN: &str = "end Work;\npackage body Work is\n";

/// What comes between the bodies and the calls.
const MAIN_BEGINS: &str =
    "end Work;\nwith Work; use Work; with Ada.Text_IO; use Ada.Text_IO;\nprocedure Main is L : List;\nbegin\n";

/// What comes after the calls.
const ENDING: &str =
    "Put_Line (Integer'Image (L.Value));\ndeclare Old : List; begin while L /= null loop Old := L; L := Old.Next; Free (Old); end loop; end;\nend Main;\n";

/// A procedure that allocates.
fn allocates(alloc: Global, i: u32) -> Result<Vec<u8>, AllocError>
    ensures { IfOk result (λ made. made.items ≡ allocates i) }
{
    Ok(format!(in alloc;
        "procedure P{i} (L : in out List) is begin L := new Cell'({i}, L); end P{i};\n"
    )?.into_bytes())
}

/// A procedure that borrows.
fn borrows(alloc: Global, i: u32) -> Result<Vec<u8>, AllocError>
    ensures { IfOk result (λ made. made.items ≡ borrows i) }
{
    Ok(format!(in alloc;
        "procedure P{i} (L : in out List) is B : access Cell := L; begin B.Value := B.Value + {i}; end P{i};\n"
    )?.into_bytes())
}

/// A procedure that observes.
fn observes(alloc: Global, i: u32) -> Result<Vec<u8>, AllocError>
    ensures { IfOk result (λ made. made.items ≡ observes i) }
{
    Ok(format!(in alloc;
        "procedure P{i} (L : in out List) is S : Integer; begin declare C : access constant Cell := L; begin while C /= null loop S := (S + C.Value) mod 1000; C := C.Next; end loop; end; L.Value := S; end P{i};\n"
    )?.into_bytes())
}

/// The body of a procedure.
fn body(alloc: Global, i: u32) -> Result<Vec<u8>, AllocError>
    ensures { IfOk result (λ made. made.items ≡ body i) }
{
    match i % 3 {
        1 => allocates(alloc, i),
        2 => borrows(alloc, i),
        _ => observes(alloc, i),
    }
}

/// Adds the declarations of the procedures.
fn add_declarations(alloc: Global, n: u32, text: &mut Vec<u8>) -> Result<(), AllocError>
    ensures { OnOk result (text.new.items ≡ text.old.items ++ for_each declaration n) }
{
    'numbers: for k in 0..n {
        let i = k + 1;
        let made = format!(in alloc; "procedure P{i} (L : in out List);\n")?;
        text.extend_from_slice(made.as_bytes())?;
    }
    Ok(())
}

/// Adds their bodies.
fn add_bodies(alloc: Global, n: u32, text: &mut Vec<u8>) -> Result<(), AllocError>
    ensures { OnOk result (text.new.items ≡ text.old.items ++ for_each body n) }
{
    'numbers: for k in 0..n {
        let made = body(alloc, k + 1)?;
        text.extend_from_slice(&made)?;
    }
    Ok(())
}

/// Adds their calls.
fn add_calls(alloc: Global, n: u32, text: &mut Vec<u8>) -> Result<(), AllocError>
    ensures { OnOk result (text.new.items ≡ text.old.items ++ for_each call n) }
{
    'numbers: for k in 0..n {
        let i = k + 1;
        let made = format!(in alloc; "P{i} (L);\n")?;
        text.extend_from_slice(made.as_bytes())?;
    }
    Ok(())
}

/// The program for a number (`docs/TOOL.md`, "The made program").
pub fn make_program(alloc: Global, n: u32) -> Result<Vec<u8>, AllocError>
    ensures { IfOk result (λ text. text.items ≡ program_text n) }
{
    let mut text = Vec::new(alloc);
    text.extend_from_slice(OPENING.as_bytes())?;
    add_declarations(alloc, n, &mut text)?;
    text.extend_from_slice(BODIES_BEGIN.as_bytes())?;
    add_bodies(alloc, n, &mut text)?;
    text.extend_from_slice(MAIN_BEGINS.as_bytes())?;
    add_calls(alloc, n, &mut text)?;
    text.extend_from_slice(ENDING.as_bytes())?;
    Ok(text)
}
