//! A program as it is run.
ghost use Rattle.std.specs.Prelude.{◌≡◌, ◌<◌, ◌++◌, ◌∷◌, [], length, slice_get, Some, map, IfSome, IsTrue};
ghost use Rattle.code_rows.specs.Points.{some, is_range, is_does_there, is_point_there, is_sub_there, does_of, point_of, sub_of, program_of, IsWhole, CodesGrew};

use crate::point::{Does, Point, Room, Sub};
use crate::range::Range;
use crate::rows::Rows;
use spark_base::Pos;
use std::alloc::Global;

/// A program as it is run: its rows, the types of values that points take, its points, what stands in
/// its frames, its subprograms, and the number of the main procedure.
pub struct Codes {
    pub rows: Rows,
    pub types: Vec<u32>,
    pub points: Vec<Point>,
    pub rooms: Vec<Room>,
    pub subs: Vec<Sub>,
    pub main: Option<u32>,
}

impl Drop for Codes {
    fn drop(self) {
        let Self {
            rows: _,
            types: _,
            points: _,
            rooms: _,
            subs: _,
            main: _,
        } = self;
    }
}

impl Codes {
    /// A program without points.
    pub fn new(alloc: Global, main: Option<u32>) -> Codes
        ensures points { (program_of result).points ≡ [] }
        ensures subs { (program_of result).subs ≡ [] }
        ensures main { result.main ≡ main }
        ensures rooms { result.rooms.items ≡ [] }
        ensures whole { IsWhole result }
    {
        Codes {
            rows: Rows::new(alloc),
            types: Vec::new(alloc),
            points: Vec::new(alloc),
            rooms: Vec::new(alloc),
            subs: Vec::new(alloc),
            main,
        }
    }

    /// The point with this number.
    pub fn point(&self, n: u32) -> Point
        requires whole { IsWhole self.now }
        requires there { n < length self.now.points.items }
        ensures point { slice_get (program_of self.now).points n ≡ Some (point_of self.now result) }
        ensures there { IsTrue (is_point_there self.now result) }
    {
        self.points[n as usize]
    }

    /// The subprogram with this number.
    pub fn sub(&self, n: u32) -> Sub
        requires whole { IsWhole self.now }
        requires there { n < length self.now.subs.items }
        ensures sub { slice_get (program_of self.now).subs n ≡ Some (sub_of self.now result) }
        ensures there { IsTrue (is_sub_there self.now result) }
    {
        self.subs[n as usize]
    }

    /// Adds types, and says which ones they are.
    fn push_types(&mut self, types: &[u32]) -> Option<Range>
        requires whole { IsWhole self.old }
        ensures types { IfSome result (λ r. IsTrue (is_range self.new.types.items r) × (some self.new.types.items r ≡ types.now)) }
        ensures program { program_of self.new ≡ program_of self.old }
        ensures grew { CodesGrew self.old self.new }
        ensures rows { self.new.rows ≡ self.old.rows }
        ensures whole { IsWhole self.new }
    {
        let first = u32::try_from(self.types.len()).ok()?;
        let count = u32::try_from(types.len()).ok()?;
        self.types.extend_from_slice(types).ok()?;
        Some(Range { first, count })
    }

    /// Adds a point whose parts are there.
    fn push_row(&mut self, point: Point) -> Option<()>
        requires whole { IsWhole self.old }
        requires there { IsTrue (is_point_there self.old point) }
        ensures point { IfSome result (λ _. (program_of self.new).points ≡ (program_of self.old).points ++ point_of self.old point ∷ []) }
        ensures grew { CodesGrew self.old self.new }
        ensures rows { self.new.rows ≡ self.old.rows }
        ensures subs { (program_of self.new).subs ≡ (program_of self.old).subs }
        ensures whole { IsWhole self.new }
    {
        self.points.push(point).ok()
    }

    /// Adds a point, whose parts are there. None: there are too many types, or there is too little
    /// memory.
    #[tactic(auto, using(crate::proofs::Kept::codes_on))]
    pub fn push_point(&mut self, takes: &[u32], does: Does, pos: Pos) -> Option<()>
        requires whole { IsWhole self.old }
        requires there { IsTrue (is_does_there self.old.rows does) }
        ensures point { IfSome result (λ _. (program_of self.new).points ≡ (program_of self.old).points ++ record { takes = takes.now; does = does_of self.old.rows does; pos = pos } ∷ []) }
        ensures grew { CodesGrew self.old self.new }
        ensures rows { self.new.rows ≡ self.old.rows }
        ensures subs { (program_of self.new).subs ≡ (program_of self.old).subs }
        ensures whole { IsWhole self.new }
    {
        let takes = self.push_types(takes)?;
        self.push_row(Point { does, takes, pos })
    }

    /// Adds what stands in a frame. None: there is too little memory.
    pub fn push_room(&mut self, room: Room) -> Option<()>
        requires whole { IsWhole self.old }
        ensures room { IfSome result (λ _. self.new.rooms.items ≡ self.old.rooms.items ++ room ∷ []) }
        ensures program { program_of self.new ≡ program_of self.old }
        ensures grew { CodesGrew self.old self.new }
        ensures rows { self.new.rows ≡ self.old.rows }
        ensures whole { IsWhole self.new }
    {
        self.rooms.push(room).ok()?;
        Some(())
    }

    /// Adds a subprogram. None: there is too little memory.
    pub fn push_sub(&mut self, sub: Sub) -> Option<()>
        requires whole { IsWhole self.old }
        requires there { IsTrue (is_sub_there self.old sub) }
        ensures sub { IfSome result (λ _. (program_of self.new).subs ≡ (program_of self.old).subs ++ sub_of self.old sub ∷ []) }
        ensures points { (program_of self.new).points ≡ (program_of self.old).points }
        ensures grew { CodesGrew self.old self.new }
        ensures rows { self.new.rows ≡ self.old.rows }
        ensures whole { IsWhole self.new }
    {
        self.subs.push(sub).ok()
    }
}
