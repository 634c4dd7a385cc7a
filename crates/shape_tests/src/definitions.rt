//! The definitions of types.
ghost use Rattle.std.specs.Prelude.{◌≡◌, IfOk};
ghost use Rattle.shape_tests.specs.Tables.{info_of, one_word, three_types};

use place_names::Parts;
use spark_base::Listed;
use std::alloc::{AllocError, Global};
use std::test::Fail;
use type_definitions::{Info, Shape};
use type_table::{TypeSize, TypeTable};

/// The size of a type with one word.
fn one_word() -> TypeSize
    ensures { result ≡ one_word }
{
    TypeSize {
        words: 1,
        owning: false,
        parts: Parts::none(),
    }
}

/// A subtype of Integer.
fn info(shape: Shape) -> Info
    ensures { result ≡ info_of shape }
{
    Info {
        shape,
        base: 0,
        parent: None,
        seen_in: None,
        completed: None,
        bounded: true,
    }
}

/// A type, a subtype of it without a constraint, and what no source has: a subtype of that one
/// which doesn't lead to the type at once.
fn three_types(alloc: Global) -> Result<TypeTable, AllocError>
    ensures { IfOk result (λ table. table ≡ three_types) }
{
    let whole = info(Shape::Whole { low: 1, high: 9 });
    let infos = vec![in alloc;
        whole,
        info(Shape::Same { of: 0 }),
        info(Shape::Same { of: 1 }),
    ]?;
    let sizes = vec![in alloc; one_word(), one_word(), one_word()]?;
    Ok(TypeTable::new(Listed::from_vec(infos), sizes))
}

/// Whether it is the definition of the first of them.
fn is_first(shape: &Shape) -> bool {
    matches!(shape, Shape::Whole { low: 1, high: 9 })
}

/// Whether it is that of a record without components.
fn is_empty(shape: &Shape) -> bool {
    match shape {
        Shape::Fields { components } => components.is_empty(),
        _ => false,
    }
}

#[test]
fn definitions(rt: HostRuntime) -> Result<(), Fail> {
    let table = three_types(rt.alloc())?;
    assert!(rt; is_first(table.shape(0)));
    assert!(rt; is_first(table.shape(1)));
    assert!(rt; is_empty(table.shape(2)));
    Ok(())
}
