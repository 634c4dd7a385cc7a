//! The objects that the text of a subprogram uses itself.
ghost use Rattle.std.specs.Prelude.{◌≡◌, ℕ, ◌&&◌, ◌==◌, false, get_or, IfOk, OnOk};
ghost use Rattle.std.specs.List.{list_any};
ghost use Rattle.flow_paths.specs.Instructions.{instruction_of};
ghost use Rattle.flow_paths.specs.Effects.{reads_text, actual_writes, act_writes, act_reads};
ghost use Rattle.typed_tree.specs.Nodes.{typed_at, typed_code_at};
ghost use Rattle.call_effects.specs.Uses.{AreAsked, node_asks, text_uses, act_uses, acts_use, is_root, laid_uses, instr_calls, laid_calls};
ghost use Rattle.call_effects.specs.Rows.{IsFiled};
ghost use Rattle.call_effects.specs.Spreads.{AreUsersOf, AreCallers};

use crate::rows::{empty_rows, file};
use flow_paths::{Instr, LaidSub, Point};
use place_names::{Act, Mode, Placed};
use spark_base::Listed;
use std::alloc::{AllocError, Global};
use typed_tree::{TypedNode, TypedRows};

/// What is known of a tree.
fn asks_at(asked: &[bool], i: usize) -> bool
    ensures { result ≡ get_or asked.now i false }
{
    match asked.get(i) {
        Some(asks) => *asks,
        None => false,
    }
}

/// Whether a node asks for the end of the file, by what is known of its parts.
fn node_asks(node: &TypedNode, asked: &[bool]) -> bool
    ensures { result ≡ node_asks (λ i. get_or asked.now i false) node.now }
{
    match node {
        TypedNode::EndOfFile => true,
        TypedNode::Name { steps, .. } => asks_at(asked, *steps),
        TypedNode::Component { rest, .. } => asks_at(asked, *rest),
        TypedNode::Designated { rest } => asks_at(asked, *rest),
        TypedNode::Element { index, rest, .. } => asks_at(asked, *index) || asks_at(asked, *rest),
        TypedNode::Call { actuals, .. } => asks_at(asked, *actuals),
        TypedNode::Parens { inner } => asks_at(asked, *inner),
        TypedNode::Image { value, .. } => asks_at(asked, *value),
        TypedNode::Unary { operand, .. } => asks_at(asked, *operand),
        TypedNode::Binary { left, right, .. } => asks_at(asked, *left) || asks_at(asked, *right),
        TypedNode::Short { left, right, .. } => asks_at(asked, *left) || asks_at(asked, *right),
        TypedNode::IsNull { name, .. } => asks_at(asked, *name),
        TypedNode::Aggregate { parts, .. } => asks_at(asked, *parts),
        TypedNode::Alike { value, .. } => asks_at(asked, *value),
        TypedNode::New { value, .. } => asks_at(asked, *value),
        TypedNode::More { first, rest } => asks_at(asked, *first) || asks_at(asked, *rest),
        TypedNode::Number { .. }
        | TypedNode::Literal { .. }
        | TypedNode::Null
        | TypedNode::Text { .. }
        | TypedNode::NoMore => false,
    }
}

/// For each tree whether it asks for the end of the file.
pub(crate) fn asked(alloc: Global, rows: &TypedRows) -> Result<Vec<bool>, AllocError>
    ensures { IfOk result (λ asked. AreAsked rows.now asked.items) }
{
    let mut asked = Vec::new(alloc);
    'nodes: for i in 0..rows.len() {
        let asks = node_asks(rows.node(i), asked.as_slice());
        asked.push(asks)?;
    }
    Ok(asked)
}

/// Whether an instruction asks for the end of the file.
fn reads_text(rows: &TypedRows, asked: &[bool], instr: &Instr) -> bool
    requires { AreAsked rows.now asked.now }
    ensures { result ≡ reads_text (instruction_of (typed_at rows.now) (typed_code_at rows.now) instr.now) }
{
    match instr {
        Instr::Declare { value, .. } => asks_at(asked, *value),
        Instr::Assign { target, source } => asks_at(asked, *target) || asks_at(asked, *source),
        Instr::Call { actuals, .. } => asks_at(asked, *actuals),
        Instr::Output { text, .. } => asks_at(asked, *text),
        Instr::Input { target } => asks_at(asked, *target),
        Instr::Release { name } => asks_at(asked, *name),
        Instr::Test { condition } => asks_at(asked, *condition),
        Instr::Choose { selector, .. } => asks_at(asked, *selector),
        Instr::Start { low, high, .. } => asks_at(asked, *low) || asks_at(asked, *high),
        Instr::Evaluate { operand, .. } => asks_at(asked, *operand),
        Instr::LeaveLoop { condition } => asks_at(asked, *condition),
        Instr::Hold { value } => asks_at(asked, *value),
        Instr::Skip | Instr::Next { .. } | Instr::EndScope { .. } | Instr::Finish | Instr::Fall =>
            false,
    }
}

/// Whether an instruction writes, or else reads, Ada.Text_IO.
fn text_uses(writes: bool, rows: &TypedRows, asked: &[bool], instr: &Instr) -> bool
    requires { AreAsked rows.now asked.now }
    ensures { result ≡ text_uses writes (instruction_of (typed_at rows.now) (typed_code_at rows.now) instr.now) }
{
    if writes {
        matches!(instr, Instr::Output { .. } | Instr::Input { .. })
    } else {
        reads_text(rows, asked, instr)
    }
}

/// Whether an actual of this mode is written.
fn actual_writes(mode: Mode, access: bool) -> bool
    ensures { result ≡ actual_writes mode access }
{
    match mode {
        Mode::In => access,
        Mode::Out | Mode::InOut => true,
    }
}

/// The object that an act writes.
fn written_root(act: &Act) -> Option<u32>
    ensures { (g : ℕ) → act_writes g act.now ≡ is_root g result }
{
    match act {
        Act::Write { name }
        | Act::Move { name, .. }
        | Act::Free { name }
        | Act::Borrow { name, .. } => Some(name.root()),
        Act::Actual {
            name,
            mode,
            access,
            ..
        } if actual_writes(*mode, *access) => Some(name.root()),
        _ => None,
    }
}

/// The object that an act reads.
fn read_root(act: &Act) -> Option<u32>
    ensures { (g : ℕ) → act_reads g act.now ≡ is_root g result }
{
    match act {
        Act::Read { name }
        | Act::Look { name }
        | Act::Observe { name, .. }
        | Act::Give { name, .. } => Some(name.root()),
        Act::Actual {
            name,
            mode,
            access,
            ..
        } if !actual_writes(*mode, *access) => Some(name.root()),
        _ => None,
    }
}

/// The object that an act writes, or else reads.
fn used_root(writes: bool, act: &Act) -> Option<u32>
    ensures { (g : ℕ) → act_uses writes g act.now ≡ is_root g result }
{
    if writes {
        written_root(act)
    } else {
        read_root(act)
    }
}

/// Files a subprogram under an object, where there is one.
fn file_root(root: Option<u32>, rows: &mut Vec<Listed<usize>>, p: usize) -> Result<(), AllocError>
    ensures { OnOk result (IsFiled p (λ g. is_root g root) rows.old.items rows.new.items) }
{
    match root {
        Some(g) => Ok(file(rows, g as usize, p)?),
        None => Ok(()),
    }
}

/// Files a subprogram under what some acts write, or else read.
fn file_acts(
    writes: bool,
    acts: &[Placed],
    rows: &mut Vec<Listed<usize>>,
    p: usize,
) -> Result<(), AllocError>
    ensures { OnOk result (IsFiled p (λ g. acts_use writes g acts.now) rows.old.items rows.new.items) }
{
    'acts: for placed in acts {
        file_root(used_root(writes, &placed.act), rows, p)?;
    }
    Ok(())
}

/// Files a subprogram under Ada.Text_IO, if it uses that.
fn file_text(uses: bool, users: &mut Vec<Listed<usize>>, p: usize) -> Result<(), AllocError>
    ensures { OnOk result (IsFiled p (λ g. g == 0 && uses) users.old.items users.new.items) }
{
    if uses { Ok(file(users, 0, p)?) } else { Ok(()) }
}

/// Files a subprogram under what a point of it writes, or else reads.
fn file_point(
    writes: bool,
    rows: &TypedRows,
    asked: &[bool],
    point: &Point,
    users: &mut Vec<Listed<usize>>,
    p: usize,
) -> Result<(), AllocError>
    requires { AreAsked rows.now asked.now }
    ensures { OnOk result (IsFiled p (λ g. laid_uses writes rows.now g point.now) users.old.items users.new.items) }
{
    file_text(text_uses(writes, rows, asked, &point.instr), users, p)?;
    file_acts(writes, point.acts.as_slice(), users, p)?;
    Ok(())
}

/// Files a subprogram under what its points write, or else read.
fn file_points(
    writes: bool,
    rows: &TypedRows,
    asked: &[bool],
    points: &[Point],
    users: &mut Vec<Listed<usize>>,
    p: usize,
) -> Result<(), AllocError>
    requires { AreAsked rows.now asked.now }
    ensures { OnOk result (IsFiled p (λ g. list_any (laid_uses writes rows.now g) points.now) users.old.items users.new.items) }
{
    'points: for point in points {
        file_point(writes, rows, asked, point, users, p)?;
    }
    Ok(())
}

/// For each of so many objects the subprograms whose own text writes, or else reads, it.
pub(crate) fn users(
    alloc: Global,
    writes: bool,
    rows: &TypedRows,
    asked: &[bool],
    subs: &[LaidSub],
    size: usize,
) -> Result<Vec<Listed<usize>>, AllocError>
    requires { AreAsked rows.now asked.now }
    ensures { IfOk result (λ users. AreUsersOf writes rows.now size subs.now users.items) }
{
    let mut users = empty_rows(alloc, size)?;
    'subs: for p in 0..subs.len() {
        file_points(
            writes,
            rows,
            asked,
            subs[p].points.as_slice(),
            &mut users,
            p,
        )?;
    }
    Ok(users)
}

/// The subprogram that an instruction calls.
fn called(instr: &Instr) -> Option<u32>
    ensures { (q : ℕ) → instr_calls q instr.now ≡ is_root q result }
{
    match instr {
        Instr::Call { sub, .. } => Some(*sub),
        _ => None,
    }
}

/// Files a subprogram under what its points call.
fn file_calls(
    points: &[Point],
    callers: &mut Vec<Listed<usize>>,
    p: usize,
) -> Result<(), AllocError>
    ensures { OnOk result (IsFiled p (λ q. list_any (laid_calls q) points.now) callers.old.items callers.new.items) }
{
    'points: for point in points {
        file_root(called(&point.instr), callers, p)?;
    }
    Ok(())
}

/// For each subprogram, those that call it.
pub(crate) fn callers(alloc: Global, subs: &[LaidSub]) -> Result<Vec<Listed<usize>>, AllocError>
    ensures { IfOk result (λ callers. AreCallers subs.now callers.items) }
{
    let mut callers = empty_rows(alloc, subs.len())?;
    'subs: for p in 0..subs.len() {
        file_calls(subs[p].points.as_slice(), &mut callers, p)?;
    }
    Ok(callers)
}
