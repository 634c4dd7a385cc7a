//! What a point moves out of spots.
ghost use Rattle.std.specs.Prelude.{◌≡◌, ◌++◌, ◌∷◌, [], false, List, map, OnOk, OnErr, IsErrOf, IsTrue};
ghost use Rattle.run_values.specs.declared.value.Kind as kinds;
ghost use Rattle.run_codes.specs.Flat.{is_broken, Given};
ghost use Rattle.handled_runs.specs.Changes.{moving, settled};
ghost use Rattle.slot_memory.specs.Memory.{Knows, Changes, beyond, elsewhere};
ghost use Rattle.slot_memory.specs.Moves.{IsThere, Clears, moved_spots};
ghost use Rattle.slot_memory.specs.Spots.{spot_of};

use crate::memory::Memory;
use crate::spot::{Move, Spot};
use code_rows::Stop;
use run_values::Kind;
use slot_heap::Store;

/// Notes the access values at some offsets from a spot.
#[inline(always)]
fn push_moves(spot: &Spot, offsets: &[u32], moves: &mut Vec<Move>) -> Result<(), Stop>
    ensures pushed { OnOk result (moved_spots moves.new.items ≡ moved_spots moves.old.items ++ map (beyond (spot_of spot.now)) offsets.now) }
    ensures memory { OnErr result (IsErrOf result Stop.Memory) }
{
    'offsets: for i in 0..offsets.len() {
        moves.push(Move {
            spot: spot.same(),
            offset: offsets[i],
        })?;
    }
    Ok(())
}

impl<'s, R: Store> Memory<'s, R> {
    /// The access values at some offsets from a spot are moved out. They stand there until `settle`.
    #[inline(always)]
    pub fn move_out(&mut self, spot: Spot, offsets: &[u32]) -> Result<(), Stop>
        ensures moved { OnOk result ((ks : List kinds.Kind) → Changes R.Means self.old (λ s. Given (moving s (spot_of spot) ks offsets.now)) self.new) }
        ensures memory { OnErr result (IsErrOf result Stop.Memory) }
        ensures elsewhere { elsewhere self.new ≡ elsewhere self.old }
    {
        push_moves(&spot, offsets, &mut self.moves)
    }

    /// Null stands where an access value is moved from.
    #[inline(always)]
    fn clear(&mut self, spot: Spot, offset: u32)
        requires { Knows R.Means self.old (λ s. IsThere s (beyond (spot_of spot) offset)) }
        ensures cleared { Clears R.Means self.old (beyond (spot_of spot) offset) self.new }
        ensures moves { self.new.moves ≡ self.old.moves }
        ensures elsewhere { elsewhere self.new ≡ elsewhere self.old }
    {
        match spot {
            Spot::Stack { index } => self.stack[index + offset as usize] = 0,
            Spot::Cell { cell, at } => self.heap.put(cell, at + offset, Kind::Access, 0),
        }
    }

    /// Whether nothing is moved.
    #[inline(always)]
    pub fn is_settled(&self) -> bool
        ensures { IsTrue result → self.now.moves ≡ [] }
    {
        self.moves.is_empty()
    }

    /// The access value at a spot is moved out, where nothing else is: it is gone at once.
    #[inline(always)]
    pub fn take_out(&mut self, spot: Spot)
        requires none { self.old.moves ≡ [] }
        requires whole { Knows R.Means (record self.old { moves = beyond (spot_of spot) 0 ∷ [] }) (λ s. is_broken (settled s) ≡ false) }
        ensures settled { Changes R.Means (record self.old { moves = beyond (spot_of spot) 0 ∷ [] }) settled self.new }
        ensures elsewhere { elsewhere self.new ≡ elsewhere self.old }
    {
        self.clear(spot, 0);
    }

    /// What is moved out is gone: null stands in its place.
    pub fn settle(&mut self)
        requires { Knows R.Means self.old (λ s. is_broken (settled s) ≡ false) }
        ensures settled { Changes R.Means self.old settled self.new }
        ensures elsewhere { elsewhere self.new ≡ elsewhere self.old }
    {
        'moves: for i in 0..self.moves.len() {
            let moved = &self.moves[i];
            let spot = moved.spot.same();
            let offset = moved.offset;
            self.clear(spot, offset);
        }
        self.moves.clear();
    }
}
