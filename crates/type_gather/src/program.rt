//! The declarations of a program.
ghost use Rattle.std.specs.Prelude.{◌≡◌, ◌<◌, false, All, IfOk, length, map};
ghost use Rattle.resolved_tree.specs.Nodes.{code_at};
ghost use Rattle.type_definitions.specs.Whole.{at_first, gather_units, known_with, outside};
ghost use Rattle.expression_types.specs.ComponentNames.{FindAllComponents};

use crate::gathering::Gathering;
use crate::predefined::{at_first, entries_at_first};
use expression_types::WordIndex;
use resolved_tree::Rows;
use std::alloc::{AllocError, Global};
use type_definitions::Known;

/// All units, one after the other, from what is known before them.
fn turn(
    alloc: Global,
    rows: &Rows,
    units: &[usize],
    known: Known,
    components: Vec<Option<WordIndex>>,
) -> Result<Gathering, AllocError>
    requires there { All (λ u. u < length rows.now.1) units.now }
    requires found { FindAllComponents components.items known.table }
    ensures { IfOk result (λ made. made.known ≡ (gather_units (map (code_at rows.now) units.now) (outside known)).known) }
{
    let mut gathering = Gathering {
        alloc,
        known,
        components,
        home: None,
        within: None,
        sub: None,
    };
    'units: for unit in units {
        gathering.gather(rows, *unit)?;
    }
    Ok(gathering)
}

/// What is known before the first unit, but for the types, which are known already.
fn afresh(alloc: Global, known: Known, count: usize) -> Result<Known, AllocError>
    ensures { IfOk result (λ made. made ≡ record (at_first false count) { table = known.table }) }
{
    let Known { entries, table } = known;
    drop(entries);
    Ok(Known {
        entries: entries_at_first(alloc, count)?,
        table,
    })
}

/// What all declarations of a program are: `rows` has its code, `units` are the numbers of its
/// units in the order of their text, and `count` is how many declarations it has, the predefined
/// ones included. Where it is `asked` which fault is told, a mark that denotes no type stands for
/// no type that is known. The only error is out of memory.
pub fn gather(
    alloc: Global,
    rows: &Rows,
    units: &[usize],
    count: usize,
    asked: bool,
) -> Result<Known, AllocError>
    requires { All (λ u. u < length rows.now.1) units.now }
    ensures { IfOk result (λ made. made ≡ known_with asked (record { count = count; units = map (code_at rows.now) units.now })) }
{
    let before = at_first(alloc, asked, count)?;
    let first = turn(alloc, rows, units, before, Vec::new(alloc))?;
    let Gathering {
        alloc: _,
        known,
        components,
        home: _,
        within: _,
        sub: _,
    } = first;
    let before = afresh(alloc, known, count)?;
    let second = turn(alloc, rows, units, before, components)?;
    let Gathering {
        alloc: _,
        known,
        components: _,
        home: _,
        within: _,
        sub: _,
    } = second;
    Ok(known)
}
