//! The declarations of identifiers, by the positions of these.
//!
//! Identifiers in the order of the text are searched by halves, those of one line where it can be.
//! Of others a map is made, so that no order costs more than look-ups by hash.
ghost use Rattle.std.specs.Prelude.{◌≡◌, ◌≤◌, IfOk, IfSome, IsTrue, Some, length};
ghost use Rattle.expression_lowering.specs.NumberIndexes.{BeginsBehind, EndsBefore, Finds, FoundBy, InTextOrder};
ghost use Rattle.name_events.specs.Identified.{number_at};

use crate::line_starts::LineStarts;
use indexmap::IndexMap;
use name_events::Identified;
use spark_base::Pos;
use std::alloc::{AllocError, Global};
use std::cmp::Ordering;
use std::marker::Model;

type Key = (u16, (u32, u32));

/// Identifiers with their declarations, which can be looked up by their positions.
#[derive(Drop)]
pub struct NumberIndex {
    all: Vec<Identified>,
    /// The numbers by position. None are needed where `all` is in the order of the text, as what
    /// the rules of names give is: then `all` itself is searched.
    by_pos: Option<IndexMap<Key, u32>>,
    /// Where to search first.
    lines: LineStarts,
}

impl Model for NumberIndex {
    ghost use Rattle.std.specs.Prelude.{List};
    ghost use Rattle.name_events.specs.declared.declaration.Identified.{Identified};

    ghost Value = { List Identified };

    ghost use Rattle.expression_lowering.specs.NumberIndexes.{FoundBy};

    ghost view = { λ index. index.all.items };

    ghost invariant = { λ index. FoundBy index.by_pos index.all.items };
}

fn key(pos: Pos) -> Key
    ensures { result ≡ (pos.file, (pos.line, pos.column)) }
{
    (pos.file, (pos.line, pos.column))
}

/// The numbers by position: the first one counts.
fn by_pos(alloc: Global, all: &[Identified]) -> Result<IndexMap<Key, u32>, AllocError>
    ensures { IfOk result (λ made. Finds made.entries all.now) }
{
    let mut made = IndexMap::new(alloc);
    let mut left = all.len();
    'turns: while left > 0 {
        left -= 1;
        let identified = all[left];
        made.insert(key(identified.pos), identified.number)?;
    }
    Ok(made)
}

/// Whether each identifier stands before all later ones of the list.
fn is_in_text_order(all: &[Identified]) -> bool
    ensures { IsTrue result → InTextOrder all.now }
{
    all.is_sorted_by(|one, next| one.pos.cmp(&next.pos).is_lt())
}

/// The numbers by position, or nothing where the identifiers are in the order of the text.
fn by_pos_unless_in_order(
    alloc: Global,
    all: &[Identified],
) -> Result<Option<IndexMap<Key, u32>>, AllocError>
    ensures { IfOk result (λ made. FoundBy made all.now) }
{
    if is_in_text_order(all) {
        return Ok(None);
    }
    Ok(Some(by_pos(alloc, all)?))
}

/// Whether all identifiers before a place stand before a position.
fn ends_before(all: &[Identified], from: usize, pos: Pos) -> bool
    requires order { InTextOrder all.now }
    requires within { from ≤ length all.now }
    ensures { IsTrue result → EndsBefore all.now from pos }
{
    from == 0 || all[from - 1].pos.cmp(&pos).is_lt()
}

/// Whether all identifiers from a place on follow a position.
fn begins_behind(all: &[Identified], to: usize, pos: Pos) -> bool
    requires order { InTextOrder all.now }
    requires within { to ≤ length all.now }
    ensures { IsTrue result → BeginsBehind all.now to pos }
{
    to == all.len() || pos.cmp(&all[to].pos).is_lt()
}

/// The number of the identifier at a position, if it stands between two places among identifiers in
/// the order of the text.
fn number_between(all: &[Identified], from: usize, to: usize, pos: Pos) -> Option<u32>
    requires order { InTextOrder all.now }
    requires within { to ≤ length all.now }
    ensures found { IfSome result (λ number. number_at all.now pos ≡ Some number) }
    ensures around { EndsBefore all.now from pos → BeginsBehind all.now to pos → result ≡ number_at all.now pos }
{
    let mut low = from;
    let mut high = to;
    'halves: while low < high {
        let middle = low + (high - low) / 2;
        match all[middle].pos.cmp(&pos) {
            Ordering::Less => low = middle + 1,
            Ordering::Equal => return Some(all[middle].number),
            Ordering::Greater => high = middle,
        }
    }
    None
}

/// The number of the identifier at a position, among identifiers in the order of the text: on its
/// line if `lines` has that, else among all.
fn number_in_order(all: &[Identified], lines: &LineStarts, pos: Pos) -> Option<u32>
    requires { InTextOrder all.now }
    ensures { result ≡ number_at all.now pos }
{
    if let Some((from, to)) = lines.around(pos) {
        if from <= to && to <= all.len() {
            let number = number_between(all, from, to, pos);
            if number.is_some() || ends_before(all, from, pos) && begins_behind(all, to, pos) {
                return number;
            }
        }
    }
    number_between(all, 0, all.len(), pos)
}

impl NumberIndex {
    /// The index of these identifiers.
    pub fn new(alloc: Global, all: &[Identified]) -> Result<NumberIndex, AllocError>
        ensures { IfOk result (λ made. made ≡ all.now) }
    {
        let by_pos = by_pos_unless_in_order(alloc, all)?;
        let lines = LineStarts::new(alloc, all)?;
        let all = Vec::from_slice(alloc, all)?;
        Ok(NumberIndex { all, by_pos, lines })
    }

    /// How many identifiers there are.
    pub fn len(&self) -> usize
        ensures { result ≡ length self.now }
    {
        self.all.len()
    }

    /// The number of the declaration of the identifier at a position.
    pub fn get(&self, pos: Pos) -> Option<u32>
        ensures { result ≡ number_at self.now pos }
    {
        match &self.by_pos {
            Some(by_pos) => by_pos.get(&key(pos)).copied(),
            None => number_in_order(&self.all, &self.lines, pos),
        }
    }
}
