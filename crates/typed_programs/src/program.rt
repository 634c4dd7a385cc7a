//! The typed program.
ghost use Rattle.std.specs.Prelude.{◌≡◌, ◌<◌, flat_map, length, map, IfOk};
ghost use Rattle.std.specs.List.{All};
ghost use Rattle.resolved_tree.specs.Nodes.{code_at};
ghost use Rattle.type_definitions.specs.Whole.{outside};
ghost use Rattle.expression_types.specs.ComponentNames.{FindAllComponents};
ghost use Rattle.expression_types.specs.FormalNames.{FindAllFormals};
ghost use Rattle.typed_tree.specs.Programs.{bodies_in, typed_program};
ghost use Rattle.typed_expressions.specs.Sites.{site};
ghost use Rattle.typed_programs.specs.Parts.{HoldsProgram};
ghost use Rattle.typed_programs.specs.Made.{program_with};

use crate::parts::ProgramParts;
use expression_types::{Reader, WordIndex, component_indexes, formal_indexes};
use resolved_tree::Rows;
use spark_base::Listed;
use std::alloc::{AllocError, Global};
use type_definitions::Known;
use typed_expressions::{Numbering, Writer};
use typed_objects::{DeclaredObjects, bodies, objects, scopes};
use typed_statements::{main_sub, subprograms};
use typed_tree::{Object, TypedRows};

/// The numbers of the subprograms that have a body.
fn body_numbers(alloc: Global, rows: &Rows, units: &[usize]) -> Result<Numbering, AllocError>
    requires { All (λ u. u < length rows.now.1) units.now }
    ensures { IfOk result (λ made. made ≡ flat_map bodies_in (map (code_at rows.now) units.now)) }
{
    let order = bodies(alloc, rows, units)?;
    Numbering::new(alloc, order)
}

/// A writer that stands outside of all packages and subprograms.
fn writer_outside<'p>(
    alloc: Global,
    rows: &'p Rows,
    known: &'p Known,
    components: &'p [Option<WordIndex>],
    formals: &'p [Option<WordIndex>],
    objects: &'p Numbering,
    bodies: &'p Numbering,
) -> Writer<'p>
    requires components { FindAllComponents components.now known.now.table }
    requires formals { FindAllFormals formals.now known.now.entries }
    ensures site { site result ≡ record { context = outside known.now; objects = objects.now; bodies = bodies.now } }
    ensures rows { result.reader.rows.now ≡ rows.now }
{
    let reader = Reader {
        alloc,
        rows,
        known,
        components,
        formals,
        home: None,
        within: None,
        sub: None,
        in_loop: false,
        starts: false,
    };
    Writer {
        alloc,
        reader,
        objects,
        bodies,
    }
}

/// The program with these objects and scopes.
fn program(
    writer: &Writer<'_>,
    units: &[usize],
    objects: Listed<Object>,
    scopes: Listed<u32>,
) -> Result<ProgramParts, AllocError>
    requires { All (λ u. u < length writer.now.reader.rows.now.1) units.now }
    ensures { IfOk result (λ made. HoldsProgram made
        (program_with (site writer.now) objects scopes (map (code_at writer.now.reader.rows.now) units.now))) }
{
    let mut rows = TypedRows::new(writer.alloc);
    let subs = subprograms(writer, units, &mut rows)?;
    let main = main_sub(writer, units);
    Ok(ProgramParts {
        rows,
        objects,
        scopes,
        subs: Listed::from_vec(subs),
        main,
    })
}

/// The typed program that units mean. `rows` has the code of the program, `known` is what its
/// declarations are, and `units` are the numbers of its units in the order of their text. The only
/// error is out of memory.
#[tactic(auto, unfolding(typed_tree::specs::Programs::typed_program))]
pub fn typed_program(
    alloc: Global,
    rows: &Rows,
    known: &Known,
    units: &[usize],
) -> Result<ProgramParts, AllocError>
    requires { All (λ u. u < length rows.now.1) units.now }
    ensures { IfOk result (λ made. HoldsProgram made (typed_program known.now (map (code_at rows.now) units.now))) }
{
    let DeclaredObjects { objects, numbers } = objects(alloc, rows, known, units)?;
    let object_numbers = Numbering::new(alloc, numbers.into_vec())?;
    let body_numbers = body_numbers(alloc, rows, units)?;
    let scopes = Listed::from_vec(scopes(alloc, rows, units)?);
    let components = component_indexes(alloc, known.table.as_slice());
    let formals = formal_indexes(alloc, known.entries.as_slice());
    let writer = writer_outside(
        alloc,
        rows,
        known,
        components.as_slice(),
        formals.as_slice(),
        &object_numbers,
        &body_numbers,
    );
    program(&writer, units, objects, scopes)
}
