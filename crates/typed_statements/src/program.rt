//! The subprograms of a whole program.
#![tactic(auto, using(typed_tree::proofs::Grown::grew_on, typed_tree::proofs::Grown::grew_none, std::proofs::lemmas::Grind::common_steps))]

ghost use Rattle.std.specs.Prelude.{◌≡◌, ◌<◌, ◌∷◌, ◌++◌, length, map, IfOk, OnOk};
ghost use Rattle.std.specs.List.{All};
ghost use Rattle.resolved_tree.specs.Nodes.{code_at};
ghost use Rattle.typed_tree.specs.Nodes.{Grew};
ghost use Rattle.typed_tree.specs.Programs.{elaboration, main_of, over_units, subs_in};
ghost use Rattle.typed_expressions.specs.Sites.{site};
ghost use Rattle.typed_statements.specs.Bodies.{sub_at, HoldsSub, HoldsSubs};

use crate::declared::front_number;
use crate::elaborate::elaborated;
use crate::subs::{Subprogram, subs};
use resolved_tree::CodeNode;
use spark_base::{Listed, Pos};
use std::alloc::AllocError;
use typed_expressions::Writer;
use typed_tree::TypedRows;

/// The position of what has none in the text.
const BEGINNING: Pos = Pos {
    file: 0,
    line: 1,
    column: 1,
};

/// Adds the code of subprogram 0: the declarations of all package objects. `units` are the numbers
/// of the units, in the order of their text.
pub fn elaboration(
    writer: &Writer<'_>,
    units: &[usize],
    to: &mut TypedRows,
) -> Result<Subprogram, AllocError>
    requires { All (λ u. u < length writer.now.reader.rows.now.1) units.now }
    ensures sub { IfOk result (λ made. HoldsSub to.new made
        (elaboration (site writer.now) (map (code_at writer.now.reader.rows.now) units.now))) }
    ensures grew { Grew to.old to.new }
{
    let mut made = Vec::new(writer.alloc);
    let mut next = 1u32;
    'units: for unit in units {
        elaborated(writer, *unit, &mut next, &mut made, to)?;
    }
    let body = to.code_list(&made)?;
    Ok(Subprogram {
        pos: BEGINNING,
        end: BEGINNING,
        formals: Listed::new(writer.alloc),
        result: None,
        body,
    })
}

/// Adds the bodies of all subprograms of a program, in the order of the text, after others.
pub fn sub_bodies(
    writer: &Writer<'_>,
    units: &[usize],
    found: &mut Vec<Subprogram>,
    to: &mut TypedRows,
) -> Result<(), AllocError>
    requires units { All (λ u. u < length writer.now.reader.rows.now.1) units.now }
    requires found { All (λ b. b.body < length to.old.1) found.old.items }
    ensures subs { OnOk result (HoldsSubs to.new found.new.items (map (sub_at to.old) found.old.items
        ++ over_units (subs_in (site writer.now)) 1 (map (code_at writer.now.reader.rows.now) units.now))) }
    ensures grew { Grew to.old to.new }
{
    let mut next = 1u32;
    'units: for unit in units {
        subs(writer, *unit, &mut next, found, to)?;
    }
    Ok(())
}

/// Adds the code of all subprograms of a program. The first one is subprogram 0.
pub fn subprograms(
    writer: &Writer<'_>,
    units: &[usize],
    to: &mut TypedRows,
) -> Result<Vec<Subprogram>, AllocError>
    requires { All (λ u. u < length writer.now.reader.rows.now.1) units.now }
    ensures subs { IfOk result (λ found. HoldsSubs to.new found.items
        (elaboration (site writer.now) (map (code_at writer.now.reader.rows.now) units.now)
        ∷ over_units (subs_in (site writer.now)) 1 (map (code_at writer.now.reader.rows.now) units.now))) }
    ensures grew { Grew to.old to.new }
{
    let mut found = Vec::new(writer.alloc);
    let first = elaboration(writer, units, to)?;
    found.push(first)?;
    sub_bodies(writer, units, &mut found, to)?;
    Ok(found)
}

/// The number of the main procedure: it is the one library procedure.
pub fn main_sub(writer: &Writer<'_>, units: &[usize]) -> Option<u32>
    requires { All (λ u. u < length writer.now.reader.rows.now.1) units.now }
    ensures { result ≡ main_of (site writer.now) (map (code_at writer.now.reader.rows.now) units.now) }
{
    'units: for unit in units {
        if let CodeNode::SubBody { front, .. } = writer.reader.rows.code(*unit) {
            return Some(writer.sub_number(front_number(writer.reader.rows, *front)));
        }
    }
    None
}
