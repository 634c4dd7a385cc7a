//! Temporaries, and the words of a frame.
ghost use Rattle.std.specs.Prelude.{◌≡◌, ◌+◌, ◌++◌, IfOk, OnOk, map, sum};
ghost use Rattle.type_definitions.specs.Types.{words};
ghost use Rattle.flow_paths.specs.Laid.{object_words, result_of};
ghost use Rattle.program_typing.specs.Typings.{typing};
ghost use Rattle.sub_summary.specs.Gathered.{declared_by, declared_of, filled_by, filled_of, words_of};

use flow_paths::{Instr, Point};
use program_typing::ProgramTyping;
use std::alloc::{AllocError, Global};

/// The declaration of Integer.
const INTEGER: u32 = 0;
/// The declaration of Boolean.
const BOOLEAN: u32 = 3;

/// The type of what a function gives.
fn result_of(given: Option<u32>) -> u32
    ensures { result ≡ result_of given }
{
    match given {
        Some(of) => of,
        None => INTEGER,
    }
}

/// Adds the type of the temporary that an instruction fills first.
fn add_filled(
    program: &ProgramTyping<'_>,
    instr: &Instr,
    types: &mut Vec<u32>,
) -> Result<(), AllocError>
    ensures { OnOk result (types.new.items ≡ types.old.items ++ filled_by (typing program.now) instr.now) }
{
    match instr {
        Instr::Call {
            sub,
            result: Some(_),
            ..
        } => types.push(result_of(program.result(*sub)))?,
        Instr::Evaluate {
            left_of: Some(_),
            ..
        } => types.push(BOOLEAN)?,
        _ => {}
    }
    Ok(())
}

/// The types of the temporaries that some points fill, in order.
pub fn filled_types(
    alloc: Global,
    program: &ProgramTyping<'_>,
    points: &[Point],
) -> Result<Vec<u32>, AllocError>
    ensures { IfOk result (λ types. types.items ≡ filled_of (typing program.now) points.now) }
{
    let mut types = Vec::new(alloc);
    'points: for point in points {
        add_filled(program, &point.instr, &mut types)?;
    }
    Ok(types)
}

/// A sum with one more; more than can be counted is out of memory.
fn plus(total: u64, words: u32) -> Result<u64, AllocError>
    ensures { IfOk result (λ sum. sum ≡ total + words) }
{
    match total.checked_add(u64::from(words)) {
        Some(sum) => Ok(sum),
        None => Err(AllocError),
    }
}

/// A sum with the words of the object that an instruction declares.
fn with_declared(program: &ProgramTyping<'_>, total: u64, instr: &Instr) -> Result<u64, AllocError>
    ensures { IfOk result (λ made. made ≡ total + sum (map (object_words (typing program.now)) (declared_by instr.now))) }
{
    match instr {
        Instr::Declare { object, .. } => plus(total, program.words(program.object_type(*object))),
        Instr::Start { parameter, .. } => {
            plus(total, program.words(program.object_type(*parameter)))
        }
        _ => Ok(total),
    }
}

/// A sum with the words of some objects.
fn with_objects(program: &ProgramTyping<'_>, total: u64, objects: &[u32]) -> Result<u64, AllocError>
    ensures { IfOk result (λ made. made ≡ total + sum (map (object_words (typing program.now)) objects.now)) }
{
    let mut made = total;
    'objects: for x in objects {
        made = plus(made, program.words(program.object_type(*x)))?;
    }
    Ok(made)
}

/// A sum with the words of the objects that some points declare.
fn with_points(program: &ProgramTyping<'_>, total: u64, points: &[Point]) -> Result<u64, AllocError>
    ensures { IfOk result (λ made. made ≡ total + sum (map (object_words (typing program.now)) (declared_of points.now))) }
{
    let mut made = total;
    'points: for point in points {
        made = with_declared(program, made, &point.instr)?;
    }
    Ok(made)
}

/// A sum with the words of some types.
fn with_types(program: &ProgramTyping<'_>, total: u64, types: &[u32]) -> Result<u64, AllocError>
    ensures { IfOk result (λ made. made ≡ total + sum (map (words (typing program.now).table) types.now)) }
{
    let mut made = total;
    'types: for of in types {
        made = plus(made, program.words(*of))?;
    }
    Ok(made)
}

/// The words of a frame: those of its formals, of the objects that its points declare and of its
/// temporaries, and one more.
pub fn frame_words(
    program: &ProgramTyping<'_>,
    formals: &[u32],
    points: &[Point],
    types: &[u32],
) -> Result<u64, AllocError>
    ensures { IfOk result (λ made. made ≡ words_of (typing program.now) formals.now points.now types.now) }
{
    let formal_words = with_objects(program, 1, formals)?;
    let object_words = with_points(program, formal_words, points)?;
    with_types(program, object_words, types)
}
