//! Where places lead.
ghost use Rattle.std.specs.Prelude.{◌<◌, length, IsTrue, Ok};
ghost use Rattle.code_rows.specs.Rows.{code_at, place_of, is_place_below};
ghost use Rattle.run_codes.specs.Codes.{InFrame, InPackages, Behind, Local};
ghost use Rattle.run_codes.specs.Lowered.{no_index};
ghost use Rattle.slot_words.specs.Reading.{ReadsCell, GivesCell, ReadsSpot, GivesSpot};

use crate::quick::evaluate;
use crate::words;
use crate::words::{names, word};
use code_rows::{Node, Nodes, Place, Stop};
use slot_heap::Store;
use slot_memory::{Memory, Spot};

/// The place at an offset in the cell that an access value designates.
#[inline(always)]
fn in_cell<R: Store>(memory: &Memory<R>, pointer: i64, at: u64) -> Result<Spot, Stop>
    requires { ReadsCell R.Means memory.now at pointer }
    ensures { GivesCell R.Means memory.now at pointer result }
{
    memory.spot_behind(pointer, at)
}

/// The place at an offset in the cell that an access value designates.
#[inline(never)]
#[tactic(auto, using(crate::proofs::Spots::behind_rules))]
fn behind<R: Store>(nodes: &Nodes, memory: &Memory<R>, pointer: u32, at: u32) -> Result<Spot, Stop>
    requires there { pointer < length nodes.now }
    requires whole { ReadsSpot R.Means memory.now (Behind (code_at nodes.now pointer) at no_index) }
    ensures { GivesSpot R.Means memory.now (Behind (code_at nodes.now pointer) at no_index) result }
{
    let pointer = word(nodes, memory, pointer)?;
    in_cell(memory, pointer, at as u64)
}

/// The place at two offsets in the cell that an access value designates.
#[tactic(auto, using(crate::proofs::Spots::behind_at_rules))]
fn behind_at<R: Store>(
    nodes: &Nodes,
    memory: &Memory<R>,
    pointer: u32,
    at: u32,
    index: u32,
) -> Result<Spot, Stop>
    requires there { pointer < length nodes.now }
    requires index { index < length nodes.now }
    requires whole { ReadsSpot R.Means memory.now (Behind (code_at nodes.now pointer) at (code_at nodes.now index)) }
    ensures { GivesSpot R.Means memory.now (Behind (code_at nodes.now pointer) at (code_at nodes.now index)) result }
{
    names(nodes, memory, pointer)?;
    let index = word(nodes, memory, index)?;
    let pointer = word(nodes, memory, pointer)?;
    in_cell(memory, pointer, at as u64 + index.unsigned_abs())
}

/// The place at an offset in the frame.
#[inline(always)]
fn local<R: Store>(memory: &Memory<R>, at: u32) -> Spot
    requires { ReadsSpot R.Means memory.now (InFrame at no_index) }
    ensures { GivesSpot R.Means memory.now (InFrame at no_index) (Ok result) }
{
    memory.local_spot(at, 0)
}

/// The place at an offset among the package objects.
#[inline(always)]
fn global<R: Store>(memory: &Memory<R>, at: u32) -> Spot
    requires { ReadsSpot R.Means memory.now (InPackages at no_index) }
    ensures { GivesSpot R.Means memory.now (InPackages at no_index) (Ok result) }
{
    memory.global_spot(at, 0)
}

/// The place at two offsets in the frame.
#[inline(always)]
#[tactic(auto, using(crate::proofs::Spots::frame_rules))]
fn local_at<R: Store>(nodes: &Nodes, memory: &Memory<R>, at: u32, index: u32) -> Result<Spot, Stop>
    requires there { index < length nodes.now }
    requires whole { ReadsSpot R.Means memory.now (InFrame at (code_at nodes.now index)) }
    ensures { GivesSpot R.Means memory.now (InFrame at (code_at nodes.now index)) result }
{
    let index = evaluate(nodes, memory, index)?;
    Ok(memory.local_spot(at, index))
}

/// The place at two offsets among the package objects.
#[inline(always)]
#[tactic(auto, using(crate::proofs::Spots::package_rules))]
fn global_at<R: Store>(nodes: &Nodes, memory: &Memory<R>, at: u32, index: u32) -> Result<Spot, Stop>
    requires there { index < length nodes.now }
    requires whole { ReadsSpot R.Means memory.now (InPackages at (code_at nodes.now index)) }
    ensures { GivesSpot R.Means memory.now (InPackages at (code_at nodes.now index)) result }
{
    let index = evaluate(nodes, memory, index)?;
    Ok(memory.global_spot(at, index))
}

/// Where a place is, or why there is none.
#[inline(never)]
fn any_spot<R: Store>(nodes: &Nodes, memory: &Memory<R>, place: Place) -> Result<Spot, Stop>
    requires there { IsTrue (is_place_below (length nodes.now) place) }
    requires whole { ReadsSpot R.Means memory.now (place_of (code_at nodes.now) place) }
    ensures { GivesSpot R.Means memory.now (place_of (code_at nodes.now) place) result }
{
    match place {
        Place::Local { at } => Ok(local(memory, at)),
        Place::LocalAt { at, index } => local_at(nodes, memory, at, index),
        Place::Global { at } => Ok(global(memory, at)),
        Place::GlobalAt { at, index } => global_at(nodes, memory, at, index),
        Place::Behind { pointer, at } => behind(nodes, memory, pointer, at),
        Place::BehindAt { pointer, at, index } => behind_at(nodes, memory, pointer, at, index),
    }
}

// ---- frequent places

/// The place at an offset in the cell that a word of the frame designates.
#[inline(always)]
#[tactic(auto, using(crate::proofs::Spots::behind_rules))]
fn behind_local<R: Store>(memory: &Memory<R>, from: u32, at: u32) -> Result<Spot, Stop>
    requires { ReadsSpot R.Means memory.now (Behind (Local from no_index) at no_index) }
    ensures { GivesSpot R.Means memory.now (Behind (Local from no_index) at no_index) result }
{
    let pointer = words::local(memory, from);
    in_cell(memory, pointer, at as u64)
}

/// The place at an offset in the cell that an access value designates.
#[inline(always)]
fn behind_name<R: Store>(
    nodes: &Nodes,
    memory: &Memory<R>,
    pointer: u32,
    at: u32,
) -> Result<Spot, Stop>
    requires there { pointer < length nodes.now }
    requires whole { ReadsSpot R.Means memory.now (Behind (code_at nodes.now pointer) at no_index) }
    ensures { GivesSpot R.Means memory.now (Behind (code_at nodes.now pointer) at no_index) result }
{
    if let Node::Local { at: from } = nodes.node(pointer) {
        return behind_local(memory, from, at);
    }
    behind(nodes, memory, pointer, at)
}

/// Where a place is, or why there is none.
#[inline(always)]
pub fn spot<R: Store>(nodes: &Nodes, memory: &Memory<R>, place: Place) -> Result<Spot, Stop>
    requires there { IsTrue (is_place_below (length nodes.now) place) }
    requires whole { ReadsSpot R.Means memory.now (place_of (code_at nodes.now) place) }
    ensures { GivesSpot R.Means memory.now (place_of (code_at nodes.now) place) result }
{
    if let Place::Local { at } = place {
        return Ok(local(memory, at));
    }
    if let Place::Behind { pointer, at } = place {
        return behind_name(nodes, memory, pointer, at);
    }
    any_spot(nodes, memory, place)
}
