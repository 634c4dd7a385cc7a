//! What is known before the first unit: the predefined types, and what is declared within Ada.
ghost use Rattle.std.specs.Prelude.{◌≡◌, ◌++◌, ◌-◌, false, replicate, [], IfOk, pos, negsuc};
ghost use Rattle.type_definitions.specs.Types.{no_type};
ghost use Rattle.type_definitions.specs.Whole.{at_first, no_mark, predefined_entries, predefined_types, whole};

use crate::known::own_info;
use ada_tree::Word;
use expression_types::{BOOLEAN, INTEGER, UNTYPED};
use spark_base::Listed;
use std::alloc::{AllocError, Global};
use type_definitions::{Entry, Info, Known, Predefined, Shape};

/// Integer, or a predefined subtype of it, with this low bound.
fn whole(low: i32) -> Info
    ensures { result ≡ whole low }
{
    let shape = Shape::Whole {
        low,
        high: i32::MAX,
    };
    own_info(shape, INTEGER)
}

/// A record without components: the definition of what is no type.
fn no_components(alloc: Global) -> Shape
    ensures { result ≡ Shape.Fields [] }
{
    Shape::Fields {
        components: Listed::new(alloc),
    }
}

/// What stands for a type where a mark denotes none: Integer, or where it is asked which fault is
/// told, no type that is known.
fn no_mark(alloc: Global, asked: bool) -> Info
    ensures { result ≡ no_mark asked }
{
    if asked {
        return own_info(no_components(alloc), UNTYPED);
    }
    Info {
        shape: Shape::Same { of: INTEGER },
        base: INTEGER,
        parent: Some(INTEGER),
        seen_in: None,
        completed: None,
        bounded: true,
    }
}

/// The predefined types, and what stands for one where a mark denotes none.
fn predefined_types(alloc: Global, asked: bool) -> Result<Listed<Info>, AllocError>
    ensures { IfOk result (λ table. table ≡ predefined_types asked) }
{
    let mut literals = Listed::new(alloc);
    literals.push(Word::new(alloc, b"False")?)?;
    literals.push(Word::new(alloc, b"True")?)?;
    let boolean = Shape::Listed {
        literals,
        low: 0,
        high: 1,
    };
    let mut table = Listed::new(alloc);
    table.push(whole(i32::MIN))?;
    table.push(whole(0))?;
    table.push(whole(1))?;
    table.push(own_info(boolean, BOOLEAN))?;
    table.push(no_mark(alloc, asked))?;
    Ok(table)
}

/// A subprogram of a predefined package.
fn predefined(which: Predefined) -> Entry
    ensures { result ≡ Entry.Predefined which }
{
    Entry::Predefined { which }
}

/// A literal of Boolean.
fn literal(position: u32) -> Entry
    ensures { result ≡ Entry.Literal BOOLEAN position }
{
    Entry::Literal {
        of: BOOLEAN,
        position,
    }
}

/// What the predefined declarations are.
fn predefined_entries(alloc: Global) -> Result<Listed<Entry>, AllocError>
    ensures { IfOk result (λ entries. entries ≡ predefined_entries) }
{
    let entries = [
        Entry::Type,
        Entry::Type,
        Entry::Type,
        Entry::Type,
        literal(0),
        literal(1),
        Entry::Package,
        Entry::Package,
        predefined(Predefined::Put),
        predefined(Predefined::PutLine),
        predefined(Predefined::NewLine),
        predefined(Predefined::EndOfFile),
        Entry::Package,
        predefined(Predefined::Get),
        predefined(Predefined::Deallocation),
    ];
    Ok(Listed::from_vec(Vec::from_array(alloc, entries)?))
}

/// What no declaration is known to be a type of.
fn no_type(alloc: Global) -> Info
    ensures { result ≡ no_type }
{
    own_info(no_components(alloc), 0)
}

/// What so many declarations are before the first unit, the predefined ones included.
pub fn entries_at_first(alloc: Global, count: usize) -> Result<Listed<Entry>, AllocError>
    ensures { IfOk result (λ entries. entries ≡ (at_first false count).entries) }
{
    let mut entries = predefined_entries(alloc)?;
    'entries: for _entry in 0..count.saturating_sub(15) {
        entries.push(Entry::Nothing)?;
    }
    Ok(entries)
}

/// What is known before the first unit of so many declarations, the predefined ones included.
pub fn at_first(alloc: Global, asked: bool, count: usize) -> Result<Known, AllocError>
    ensures { IfOk result (λ known. known ≡ at_first asked count) }
{
    let entries = entries_at_first(alloc, count)?;
    let mut table = predefined_types(alloc, asked)?;
    'types: for _type in 0..count.saturating_sub(5) {
        table.push(no_type(alloc))?;
    }
    Ok(Known { entries, table })
}
