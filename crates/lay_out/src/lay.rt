//! The layout of a typed program.
ghost use Rattle.std.specs.Prelude.{◌≡◌, ◌++◌, IfOk, map};
ghost use Rattle.typed_tree.specs.Programs.{TypedProgram};
ghost use Rattle.typed_programs.specs.Parts.{HoldsProgram};
ghost use Rattle.flow_paths.specs.Laid.{flow_program};
ghost use Rattle.flow_paths.specs.Limits.{beyond, lay_fault};
ghost use Rattle.numbered_points.specs.Programs.{waiting_object};
ghost use Rattle.program_typing.specs.Typings.{typing};
ghost use Rattle.laid_program.specs.Programs.{program_of};
ghost use Rattle.lay_out.specs.Refusals.{Judges};
ghost use Rattle.lay_out.specs.Parts.{parts_of};
ghost use Rattle.lay_out.specs.Subs.{subs_of};
ghost use Rattle.lay_out.specs.Programs.{known_of, numbered_in, source, AreLaid};

use crate::known::{bodies, scope_ends, signatures};
use crate::laid_subs::LaidSubs;
use crate::refusal::LayRefusal;
use crate::sub_writer::SubWriter;
use ada_tree::Word;
use bare_points::{Sizes, preps, spans};
use deep_names::deep_name;
use flow_acts::{ActWriter, CallRows};
use laid_program::Laid;
use place_names::Mode;
use program_typing::ProgramTyping;
use spark_base::Listed;
use std::alloc::{AllocError, Global};
use sub_layout::declared_words;
use type_rules::Typed;
use typed_programs::ProgramParts;
use typed_tree::{Object, ObjectKind};

/// The subprograms of a typed program in which no name has too many selectors. `known` is what is
/// known of its parts.
fn laid_subs(
    alloc: Global,
    typed: &Typed,
    known: &ProgramTyping<'_>,
) -> Result<LaidSubs, LayRefusal>
    requires known { typing known.now ≡ known_of typed.now }
    ensures laid { IfOk result (λ made. AreLaid typed.now made) }
    ensures judges { Judges result (beyond (subs_of (numbered_in typed.now))) }
{
    let calls = CallRows::new(alloc, &typed.rows)?;
    let ends = scope_ends(alloc, known)?;
    let preps = preps(alloc, &typed.rows)?;
    let spans = spans(alloc, &typed.rows, &ends, preps.as_slice())?;
    let words = declared_words(alloc, known, &typed.rows)?;
    let writer = SubWriter {
        acts: ActWriter {
            alloc,
            rows: &calls,
            typing: *known,
        },
        sizes: Sizes {
            alloc,
            rows: &typed.rows,
            ends: &ends,
            preps: preps.as_slice(),
            spans: spans.as_slice(),
        },
        words: &words,
    };
    writer.all(typed.subs.as_slice())
}

/// The subprograms of a typed program, where it is within all limits.
fn laid_within(alloc: Global, typed: &Typed) -> Result<LaidSubs, LayRefusal>
    ensures laid { IfOk result (λ made. AreLaid typed.now made) }
    ensures judges { Judges result (lay_fault (flow_program typed.now.table (source typed.now))) }
{
    let signatures = signatures(alloc, typed.subs.as_slice())?;
    let bodies = bodies(alloc, typed.subs.as_slice())?;
    let known = ProgramTyping {
        table: &typed.table,
        objects: typed.objects.as_slice(),
        subs: &signatures,
    };
    match deep_name(&typed.rows, &known, &bodies) {
        Some(pos) => Err(LayRefusal::NameTooDeep(pos)),
        None => laid_subs(alloc, typed, &known),
    }
}

/// A temporary of this type.
fn temporary(alloc: Global, of: u32) -> Object
    ensures { result ≡ waiting_object of }
{
    Object {
        name: Word::from_listed(Listed::new(alloc)),
        package: None,
        of,
        kind: ObjectKind::Temporary,
        mode: Mode::In,
        scope: 0,
    }
}

/// Objects, and then temporaries of these types.
fn with_temporaries(
    alloc: Global,
    objects: Listed<Object>,
    types: &[u32],
) -> Result<Listed<Object>, AllocError>
    ensures { IfOk result (λ all. all ≡ objects ++ map waiting_object types.now) }
{
    let mut all = objects;
    'types: for of in types {
        all.push(temporary(alloc, *of))?;
    }
    Ok(all)
}

/// Lays out a program: the points of each subprogram with their acts, leak checks and successors,
/// its facts and the words of its frame. A program beyond a limit is refused, at the first name in
/// the order of the text with more than 16 selectors, or else at the first subprogram with more
/// than 16,384 points or more than 512 facts.
pub fn lay_out(alloc: Global, typed: Typed) -> Result<Laid, LayRefusal>
    ensures judges { (p : TypedProgram) → HoldsProgram (parts_of typed) p → Judges result (lay_fault (flow_program typed.table p)) }
    ensures laid { IfOk result (λ laid. (p : TypedProgram) → HoldsProgram (parts_of typed) p → program_of laid ≡ flow_program typed.table p) }
    ensures names { IfOk result (λ laid. laid.names ≡ typed.names) }
{
    let LaidSubs { subs, types } = laid_within(alloc, &typed)?;
    let (names, table, parts) = typed.into_parts();
    let ProgramParts {
        rows,
        objects,
        scopes,
        subs: _,
        main,
    } = parts;
    let objects = with_temporaries(alloc, objects, &types)?;
    Ok(Laid {
        names,
        table,
        rows,
        objects,
        scopes,
        subs,
        main,
    })
}
