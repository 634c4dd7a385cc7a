//! Declarations of package objects.
#![tactic(auto, using(typed_tree::proofs::Grown::grew_on, typed_tree::proofs::Grown::grew_none, std::proofs::lemmas::Grind::common_steps))]

ghost use Rattle.std.specs.Prelude.{◌≡◌, ◌<◌, ◌+◌, ◌++◌, length, map, OnOk};
ghost use Rattle.std.specs.List.{All};
ghost use Rattle.resolved_tree.specs.Nodes.{code_at};
ghost use Rattle.type_definitions.specs.Gathered.{in_hidden, in_visible};
ghost use Rattle.typed_tree.specs.Nodes.{typed_code_at, Grew, HoldsAllCode};
ghost use Rattle.typed_tree.specs.Statements.{scope_count, statements};
ghost use Rattle.typed_tree.specs.Programs.{elaborated, placed};
ghost use Rattle.typed_expressions.specs.Sites.{site};

use crate::declared::declared_number;
use crate::places::{in_hidden, in_visible};
use crate::scopes::behind;
use crate::walk::statements;
use resolved_tree::CodeNode;
use std::alloc::AllocError;
use typed_expressions::Writer;
use typed_tree::TypedRows;

/// Adds the declarations of both parts of a specification, after other code.
fn package(
    writer: &Writer<'_>,
    number: u32,
    visible: usize,
    hidden: usize,
    next: &mut u32,
    made: &mut Vec<usize>,
    to: &mut TypedRows,
) -> Result<(), AllocError>
    requires visible { visible < length writer.now.reader.rows.now.1 }
    requires hidden { hidden < length writer.now.reader.rows.now.1 }
    requires made { All (λ k. k < length to.old.1) made.old.items }
    ensures code { OnOk result (HoldsAllCode to.new made.new.items (map (typed_code_at to.old) made.old.items
        ++ (statements (placed (in_visible number) (site writer.now)) next.old (code_at writer.now.reader.rows.now visible)
        ++ statements (placed (in_hidden number) (site writer.now))
        (next.old + scope_count (code_at writer.now.reader.rows.now visible)) (code_at writer.now.reader.rows.now hidden)))) }
    ensures next { OnOk result (next.new ≡ next.old
        + (scope_count (code_at writer.now.reader.rows.now visible) + scope_count (code_at writer.now.reader.rows.now hidden))) }
    ensures grew { Grew to.old to.new }
{
    statements(&in_visible(writer, number), visible, next, made, to)?;
    statements(&in_hidden(writer, number), hidden, next, made, to)
}

/// Adds the declarations of the objects of a package, after other code.
#[tactic(auto, using(typed_tree::proofs::Grown::grew_on, typed_tree::proofs::Grown::grew_none, std::proofs::lemmas::Grind::common_steps), unfolding(typed_tree::specs::Statements::scope_count))]
pub fn elaborated(
    writer: &Writer<'_>,
    unit: usize,
    next: &mut u32,
    made: &mut Vec<usize>,
    to: &mut TypedRows,
) -> Result<(), AllocError>
    requires unit { unit < length writer.now.reader.rows.now.1 }
    requires made { All (λ k. k < length to.old.1) made.old.items }
    ensures code { OnOk result (HoldsAllCode to.new made.new.items (map (typed_code_at to.old) made.old.items
        ++ elaborated (site writer.now) next.old (code_at writer.now.reader.rows.now unit))) }
    ensures next { OnOk result (next.new ≡ next.old + scope_count (code_at writer.now.reader.rows.now unit)) }
    ensures grew { Grew to.old to.new }
{
    match writer.reader.rows.code(unit) {
        CodeNode::Package {
            name,
            visible,
            hidden,
        } => {
            let number = declared_number(writer.reader.rows, *name);
            package(writer, number, *visible, *hidden, next, made, to)
        }
        CodeNode::PackageBody { name, parts } => {
            let number = declared_number(writer.reader.rows, *name);
            statements(&in_hidden(writer, number), *parts, next, made, to)
        }
        _ => {
            *next = behind(writer.reader.rows, unit, *next)?;
            Ok(())
        }
    }
}
