//! What the rules ask of the instruction of a point.
ghost use Rattle.std.specs.Prelude.{◌≡◌, ℕ};
ghost use Rattle.typed_tree.specs.Nodes.{typed_at, typed_code_at};
ghost use Rattle.flow_paths.specs.Instructions.{instruction_of};
ghost use Rattle.flow_paths.specs.Names.{source, written};
ghost use Rattle.flow_paths.specs.Effects.{writes_text};
ghost use Rattle.flow_paths.specs.Views.{is_assignment};
ghost use Rattle.flow_paths.specs.Limits.{source_pos, written_pos};
ghost use Rattle.traversal_funcs.specs.Instructions.{instruction, procedure_of, first_written};

use flow_paths::Instr;
use spark_base::Pos;
use typed_tree::{TypedNode, TypedRows};

/// Whether it is an assignment.
pub(crate) fn is_assignment(rows: &TypedRows, instr: &Instr) -> bool
    ensures { result ≡ is_assignment (instruction rows.now instr.now) }
{
    matches!(instr, Instr::Assign { .. })
}

/// Whether it calls Put, Put_Line, New_Line or Get.
pub(crate) fn writes_text(rows: &TypedRows, instr: &Instr) -> bool
    ensures { result ≡ writes_text (instruction rows.now instr.now) }
{
    matches!(instr, Instr::Output { .. } | Instr::Input { .. })
}

/// The procedure that it calls.
pub(crate) fn procedure(rows: &TypedRows, instr: &Instr) -> Option<u32>
    ensures { result ≡ procedure_of (instruction rows.now instr.now) }
{
    match instr {
        Instr::Call {
            sub,
            result: None,
            ..
        } => Some(*sub),
        _ => None,
    }
}

/// Where a name stands that is a whole tree, or else `pos`.
#[tactic(auto, using(crate::proofs::Rows::typed_past))]
fn name_pos(rows: &TypedRows, e: usize, pos: Pos) -> Pos
    ensures { result ≡ written_pos pos (written (typed_at rows.now e)) }
{
    if e >= rows.len() {
        return pos;
    }
    match rows.node(e) {
        TypedNode::Name { pos: at, .. } => *at,
        _ => pos,
    }
}

/// Where the name stands that begins a list.
#[tactic(auto, using(crate::proofs::Rows::typed_past))]
fn first_pos(rows: &TypedRows, list: usize, pos: Pos) -> Pos
    ensures { result ≡ written_pos pos (first_written (typed_at rows.now list)) }
{
    if list >= rows.len() {
        return pos;
    }
    match rows.node(list) {
        TypedNode::More { first, .. } => name_pos(rows, *first, pos),
        _ => pos,
    }
}

/// Where the source of an assignment stands, if it is a name or a traversal call.
#[tactic(auto, using(crate::proofs::Rows::typed_past))]
fn written_source(rows: &TypedRows, e: usize, pos: Pos) -> Pos
    ensures { result ≡ written_pos pos (source (typed_at rows.now e)) }
{
    if e >= rows.len() {
        return pos;
    }
    match rows.node(e) {
        TypedNode::Call { actuals, .. } => first_pos(rows, *actuals, pos),
        _ => name_pos(rows, e, pos),
    }
}

/// The position of the source of an assignment, and else `pos`.
pub(crate) fn source_pos(rows: &TypedRows, instr: &Instr, pos: Pos) -> Pos
    ensures { result ≡ source_pos (instruction rows.now instr.now) pos }
{
    match instr {
        Instr::Assign { source, .. } => written_source(rows, *source, pos),
        _ => pos,
    }
}
