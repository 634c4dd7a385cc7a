//! The effects of all subprograms.
ghost use Rattle.std.specs.Prelude.{◌≡◌, ℕ, ◌+◌, ◌<◌, ◌≤◌, length, IfOk, OnOk};
ghost use Rattle.spark_base.specs.Lists.{Has};
ghost use Rattle.flow_paths.specs.Laid.{flow_typing};
ghost use Rattle.flow_paths.specs.Effects.{AreEffects, is_global};
ghost use Rattle.laid_program.specs.Programs.{program_of};
ghost use Rattle.call_effects.specs.Uses.{AreAsked};
ghost use Rattle.call_effects.specs.Spreads.{AreCallers, AreOrdered, ListsMore, AreWhole};

use crate::rows::empty_lists;
use crate::spread::spread;
use crate::uses::{asked, callers, users};
use flow_paths::Effects;
use laid_program::Laid;
use program_typing::ProgramTyping;
use spark_base::Listed;
use std::alloc::{AllocError, Global};

/// Whether an object is Ada.Text_IO or a package object.
fn is_global(laid: &Laid, g: u32) -> bool
    ensures { result ≡ is_global (flow_typing (program_of laid.now)) g }
{
    let typing = ProgramTyping {
        table: &laid.table,
        objects: laid.objects.as_slice(),
        subs: &[],
    };
    g == 0 || typing.is_package_object(g)
}

/// The numbers of all objects are below this one, and that of Ada.Text_IO is.
fn number_behind(laid: &Laid) -> usize
    ensures some { 0 < result }
    ensures all { length laid.now.objects ≤ result }
{
    match laid.objects.len() {
        0 => 1,
        count => count,
    }
}

/// Puts an object into the lists of the subprograms that use it, where it is Ada.Text_IO or a
/// package object and these use it in their own text.
fn list_object(
    alloc: Global,
    laid: &Laid,
    callers: &[Listed<usize>],
    users: &[usize],
    lists: &mut Vec<Listed<u32>>,
    g: usize,
) -> Result<(), AllocError>
    requires callers { AreCallers laid.now.subs callers.now }
    requires within { (p : ℕ) → Has users.now p → p < length laid.now.subs }
    requires ordered { AreOrdered (length laid.now.subs) g lists.old.items }
    ensures ordered { OnOk result (AreOrdered (length laid.now.subs) (g + 1) lists.new.items) }
    ensures listed { OnOk result (ListsMore laid.now g users.now lists.old.items lists.new.items) }
{
    let Ok(object) = u32::try_from(g) else {
        return Err(AllocError);
    };
    if is_global(laid, object) {
        Ok(spread(alloc, callers, users, lists, object)?)
    } else {
        Ok(())
    }
}

/// For each subprogram the objects that it writes, or else reads, over all chains of calls.
fn used(
    alloc: Global,
    laid: &Laid,
    callers: &[Listed<usize>],
    asked: &[bool],
    writes: bool,
) -> Result<Vec<Listed<u32>>, AllocError>
    requires callers { AreCallers laid.now.subs callers.now }
    requires asked { AreAsked laid.now.rows asked.now }
    ensures { IfOk result (λ lists. AreWhole writes laid.now lists.items) }
{
    let subs = laid.subs.as_slice();
    let size = number_behind(laid);
    let users = users(alloc, writes, &laid.rows, asked, subs, size)?;
    let mut lists = empty_lists(alloc, subs.len())?;
    'objects: for g in 0..size {
        list_object(alloc, laid, callers, users[g].as_slice(), &mut lists, g)?;
    }
    Ok(lists)
}

/// The package objects, and Ada.Text_IO, that each subprogram reads and writes, itself or through
/// what it calls (`docs/FLOW.md`, "Effects").
pub fn effects(alloc: Global, laid: &Laid) -> Result<Effects, AllocError>
    ensures { IfOk result (λ effects. AreEffects (program_of laid.now) effects) }
{
    let asked = asked(alloc, &laid.rows)?;
    let callers = callers(alloc, laid.subs.as_slice())?;
    let read = used(alloc, laid, &callers, &asked, false)?;
    let written = used(alloc, laid, &callers, &asked, true)?;
    Ok(Effects {
        read: Listed::from_vec(read),
        written: Listed::from_vec(written),
    })
}
