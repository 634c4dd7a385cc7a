//! The declarations of the language itself.
ghost use Rattle.std.specs.Prelude.{◌≡◌, [], ◌∷◌, ◌++◌, List, OnOk, IfOk, take};
ghost use Rattle.name_events.specs.Declarations.{Entry};
ghost use Rattle.name_events.specs.Predefined.{predefined_entries, predefined_entry};
ghost use Rattle.name_resolve.specs.Stands.{EntriesStand};

use crate::declarations::Declarations;
use ada_tree::Word;
use name_events::{Declaration, DeclarationForm, RegionPart};
use spark_base::Pos;
use std::alloc::{AllocError, Global};

/// Adds a declaration of the language itself, which stands in this region and has that one as its
/// own.
fn add(
    alloc: Global,
    made: &mut Declarations,
    number: usize,
    form: DeclarationForm,
    regions: (usize, usize),
    name: &[u8],
) -> Result<(), AllocError>
    ensures { OnOk result ((declared ended : List Entry) → EntriesStand made.old declared [] ended []
        → EntriesStand made.new (declared ++ predefined_entry number form regions.0 regions.1 name.now ∷ []) []
        (ended ++ predefined_entry number form regions.0 regions.1 name.now ∷ []) []) }
{
    let word = Word::new(alloc, name)?;
    let declaration = Declaration {
        number,
        pos: Pos {
            file: 0,
            line: 1,
            column: 1,
        },
        form,
        region: regions.0,
        part: RegionPart::Visible,
        own_region: regions.1,
    };
    made.predefine(&word, declaration)?;
    Ok(())
}

/// The types Integer, Natural, Positive and Boolean, and False.
fn add_types(alloc: Global, made: &mut Declarations) -> Result<(), AllocError>
    ensures { OnOk result (EntriesStand made.old [] [] [] [] → EntriesStand made.new (take 5 predefined_entries) [] (take 5 predefined_entries) []) }
{
    add(
        alloc,
        made,
        0,
        DeclarationForm::FullType,
        (0, 0),
        b"integer",
    )?;
    add(
        alloc,
        made,
        1,
        DeclarationForm::FullType,
        (0, 0),
        b"natural",
    )?;
    add(
        alloc,
        made,
        2,
        DeclarationForm::FullType,
        (0, 0),
        b"positive",
    )?;
    add(
        alloc,
        made,
        3,
        DeclarationForm::FullType,
        (0, 0),
        b"boolean",
    )?;
    add(alloc, made, 4, DeclarationForm::Literal, (0, 0), b"false")?;
    Ok(())
}

/// True, the packages Ada and Ada.Text_IO, and two procedures of that.
fn add_ada(alloc: Global, made: &mut Declarations) -> Result<(), AllocError>
    ensures { OnOk result (EntriesStand made.old (take 5 predefined_entries) [] (take 5 predefined_entries) [] → EntriesStand made.new (take 10 predefined_entries) [] (take 10 predefined_entries) []) }
{
    add(alloc, made, 5, DeclarationForm::Literal, (0, 0), b"true")?;
    add(alloc, made, 6, DeclarationForm::Package, (0, 1), b"ada")?;
    add(alloc, made, 7, DeclarationForm::Package, (1, 2), b"text_io")?;
    add(
        alloc,
        made,
        8,
        DeclarationForm::ProcedureBody,
        (2, 0),
        b"put",
    )?;
    add(
        alloc,
        made,
        9,
        DeclarationForm::ProcedureBody,
        (2, 0),
        b"put_line",
    )?;
    Ok(())
}

/// What is left of Ada.Text_IO, Ada.Integer_Text_IO, and Ada.Unchecked_Deallocation.
fn add_procedures(alloc: Global, made: &mut Declarations) -> Result<(), AllocError>
    ensures { OnOk result (EntriesStand made.old (take 10 predefined_entries) [] (take 10 predefined_entries) [] → EntriesStand made.new predefined_entries [] predefined_entries []) }
{
    add(
        alloc,
        made,
        10,
        DeclarationForm::ProcedureBody,
        (2, 0),
        b"new_line",
    )?;
    add(
        alloc,
        made,
        11,
        DeclarationForm::FunctionBody,
        (2, 0),
        b"end_of_file",
    )?;
    add(
        alloc,
        made,
        12,
        DeclarationForm::Package,
        (1, 3),
        b"integer_text_io",
    )?;
    add(
        alloc,
        made,
        13,
        DeclarationForm::ProcedureBody,
        (3, 0),
        b"get",
    )?;
    add(
        alloc,
        made,
        14,
        DeclarationForm::Generic,
        (1, 0),
        b"unchecked_deallocation",
    )?;
    Ok(())
}

/// The declarations of the language itself, which have ended.
pub fn predefined(alloc: Global) -> Result<Declarations, AllocError>
    ensures { IfOk result (λ made. EntriesStand made predefined_entries [] predefined_entries []) }
{
    let mut made = Declarations::new(alloc);
    add_types(alloc, &mut made)?;
    add_ada(alloc, &mut made)?;
    add_procedures(alloc, &mut made)?;
    Ok(made)
}
