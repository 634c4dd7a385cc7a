//! The typed program of files, or the first broken sentence on types.
ghost use Rattle.std.specs.Prelude.{◌≡◌, IfOk};
ghost use Rattle.name_resolve.specs.Inputs.{trees_of};
ghost use Rattle.type_definitions.specs.Refusals.{Judges};
ghost use Rattle.type_definitions.specs.Whole.{type_fault};
ghost use Rattle.typing_steps.specs.Programs.{program_of};
ghost use Rattle.type_rules.specs.Typed.{IsTyped};

use crate::typed::Typed;
use name_resolve::Resolved;
use resolved_tree::Rows;
use std::alloc::Global;
use type_definitions::TypeRefusal;
use type_sizes::sized_table;
use typed_programs::{ProgramParts, typed_program};
use typing_steps::{check_units, lowered, settled, told};

/// The names of the files. All else that was resolved is dropped.
fn names_of(resolved: Resolved) -> Vec<String>
    ensures { result ≡ resolved.names }
{
    let Resolved { names, .. } = resolved;
    names
}

/// The typed program of the files and its types, where they break no sentence on types: else the
/// first one, Y1 to Y3 before K1 to K8, and in the order of the text. The trees of the files are
/// dropped before anything is made of them but their code in rows.
pub fn type_check(alloc: Global, resolved: Resolved) -> Result<Typed, TypeRefusal>
    ensures judges { Judges result (type_fault (program_of (trees_of resolved.files.items))) }
    ensures typed { IfOk result (λ made. IsTyped (trees_of resolved.files.items) made.table
        (record { rows = made.rows; objects = made.objects; scopes = made.scopes; subs = made.subs; main = made.main })) }
    ensures names { IfOk result (λ made. made.names ≡ resolved.names) }
{
    let mut rows = Rows::new(alloc);
    let lowered = lowered(alloc, &resolved, &mut rows)?;
    let decls = resolved.decls.as_slice();
    let count = decls.len();
    let names = names_of(resolved);
    let units = lowered.as_slice();
    let settled = settled(alloc, &rows, units, count)?;
    if let Err(refusal) = check_units(alloc, &rows, &settled, units) {
        return Err(told(alloc, &rows, units, count, refusal));
    }
    let parts = typed_program(alloc, &rows, settled.known(), units)?;
    let table = sized_table(alloc, settled)?;
    let ProgramParts {
        rows: typed_rows,
        objects,
        scopes,
        subs,
        main,
    } = parts;
    Ok(Typed {
        names,
        table,
        rows: typed_rows,
        objects,
        scopes,
        subs,
        main,
    })
}
