//! Names as text.
ghost use Rattle.std.specs.Prelude.{◌≡◌, ◌++◌, IfOk, OnOk};
ghost use Rattle.type_definitions.specs.Types.{meant_type};
ghost use Rattle.typed_tree.specs.Printed.{package_text, part_text, part_type, printed, selected_text, selected_type, selectors_text};

use crate::object::Object;
use std::alloc::{AllocError, Global};
use type_definitions::{Info, PlaceName, Sel, Shape, Word};

/// The declaration of Integer.
const INTEGER: u32 = 0;

/// The type that is meant by a subtype without a constraint.
fn meant_type(table: &[Info], t: u32) -> u32
    ensures { result ≡ meant_type table.now t }
{
    match table.get(t as usize) {
        Some(info) => match &info.shape {
            Shape::Same { of } => *of,
            _ => t,
        },
        None => t,
    }
}

/// Where a selector leads from a place of a type with this definition.
fn part_type(shape: &Shape, sel: Sel) -> u32
    ensures { result ≡ part_type shape.now sel }
{
    match (shape, sel) {
        (Shape::Fields { components }, Sel::Field(i)) => {
            match components.as_slice().get(i as usize) {
                Some(component) => component.of,
                None => INTEGER,
            }
        }
        (Shape::Access { designated, .. }, Sel::Deref) => *designated,
        (Shape::Elements { element, .. }, Sel::Elem) => *element,
        _ => INTEGER,
    }
}

/// Appends how a selector is printed there.
fn part_text(shape: &Shape, sel: Sel, text: &mut Vec<u8>) -> Result<(), AllocError>
    ensures { OnOk result (text.new.items ≡ text.old.items ++ part_text shape.now sel) }
{
    match sel {
        Sel::Deref => text.extend_from_slice(b".all"),
        Sel::Elem => text.extend_from_slice(b"(?)"),
        Sel::Field(i) => {
            text.extend_from_slice(b".")?;
            if let Shape::Fields { components } = shape {
                if let Some(component) = components.as_slice().get(i as usize) {
                    text.extend_from_slice(component.name.as_bytes())?;
                }
            }
            Ok(())
        }
    }
}

/// Where a selector leads from a place of a type.
fn selected_type(table: &[Info], of: u32, sel: Sel) -> u32
    ensures { result ≡ selected_type table.now of sel }
{
    match table.get(meant_type(table, of) as usize) {
        Some(info) => part_type(&info.shape, sel),
        None => INTEGER,
    }
}

/// Appends how a selector is printed there.
fn selected_text(table: &[Info], of: u32, sel: Sel, text: &mut Vec<u8>) -> Result<(), AllocError>
    ensures { OnOk result (text.new.items ≡ text.old.items ++ selected_text table.now of sel) }
{
    match table.get(meant_type(table, of) as usize) {
        Some(info) => part_text(&info.shape, sel, text),
        None => Ok(()),
    }
}

/// The identifier of an object, after that of its package and a dot where it has one.
fn object_text(alloc: Global, home: &Option<Word>, name: &Word) -> Result<Vec<u8>, AllocError>
    ensures { IfOk result (λ text. text.items ≡ package_text home.now ++ name.now) }
{
    let mut text = Vec::new(alloc);
    if let Some(home) = home {
        text.extend_from_slice(home.as_bytes())?;
        text.extend_from_slice(b".")?;
    }
    text.extend_from_slice(name.as_bytes())?;
    Ok(text)
}

/// A name as reports show it (`docs/RULES.md`, "Names of places"): the identifiers of its object
/// and of the selectors as declared. The only error is out of memory.
pub fn print_name(
    alloc: Global,
    table: &[Info],
    objects: &[Object],
    name: &PlaceName,
) -> Result<Vec<u8>, AllocError>
    ensures { IfOk result (λ text. text.items ≡ printed table.now objects.now name.now) }
{
    match objects.get(name.root() as usize) {
        Some(object) => {
            let mut text = object_text(alloc, &object.package, &object.name)?;
            append_selectors(table, object.of, name.sels(), &mut text)?;
            Ok(text)
        }
        None => Ok(Vec::new(alloc)),
    }
}

/// Appends how the selectors of a place of a type are printed.
fn append_selectors(
    table: &[Info],
    of: u32,
    sels: &[Sel],
    text: &mut Vec<u8>,
) -> Result<(), AllocError>
    ensures { OnOk result (text.new.items ≡ text.old.items ++ selectors_text table.now of sels.now) }
{
    let mut of = of;
    'sels: for sel in sels {
        selected_text(table, of, *sel, text)?;
        of = selected_type(table, of, *sel);
    }
    Ok(())
}
