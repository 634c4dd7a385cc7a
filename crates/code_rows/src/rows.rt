//! What the points of a program are made of.
ghost use Rattle.std.specs.Prelude.{◌≡◌, ◌++◌, ◌∷◌, [], map, IfSome, IsTrue};
ghost use Rattle.code_rows.specs.Points.{some, is_range, actual_of, is_actual_there, text_of, is_text_there, choice_of, is_choice_there, AreSound, RowsGrew};

use crate::fills::Fills;
use crate::nodes::Nodes;
use crate::point::{Actual, Choice, Text};
use crate::range::Range;
use std::alloc::Global;

/// What the points of a program are made of. Ranges name actuals, pieces of strings, bytes and
/// choices.
pub struct Rows {
    pub nodes: Nodes,
    pub fills: Fills,
    pub actuals: Vec<Actual>,
    pub texts: Vec<Text>,
    pub bytes: Vec<u8>,
    pub choices: Vec<Choice>,
}

impl Drop for Rows {
    fn drop(self) {
        let Self {
            nodes: _,
            fills: _,
            actuals: _,
            texts: _,
            bytes: _,
            choices: _,
        } = self;
    }
}

impl Rows {
    /// No rows.
    pub fn new(alloc: Global) -> Rows
        ensures nodes { result.nodes ≡ [] }
        ensures fills { result.fills ≡ [] }
        ensures actuals { result.actuals.items ≡ [] }
        ensures texts { result.texts.items ≡ [] }
        ensures bytes { result.bytes.items ≡ [] }
        ensures choices { result.choices.items ≡ [] }
    {
        Rows {
            nodes: Nodes::new(alloc),
            fills: Fills::new(alloc),
            actuals: Vec::new(alloc),
            texts: Vec::new(alloc),
            bytes: Vec::new(alloc),
            choices: Vec::new(alloc),
        }
    }

    /// Adds an actual. None: there is too little memory.
    pub fn push_actual(&mut self, actual: Actual) -> Option<()>
        requires sound { AreSound self.old }
        requires there { IsTrue (is_actual_there self.old actual) }
        ensures actual { IfSome result (λ _. map (actual_of self.new) self.new.actuals.items ≡ map (actual_of self.old) self.old.actuals.items ++ actual_of self.old actual ∷ []) }
        ensures grew { RowsGrew self.old self.new }
        ensures sound { AreSound self.new }
    {
        self.actuals.push(actual).ok()
    }

    /// Adds a piece of a string. None: there is too little memory.
    pub fn push_text(&mut self, text: Text) -> Option<()>
        requires sound { AreSound self.old }
        requires there { IsTrue (is_text_there self.old text) }
        ensures text { IfSome result (λ _. map (text_of self.new) self.new.texts.items ≡ map (text_of self.old) self.old.texts.items ++ text_of self.old text ∷ []) }
        ensures grew { RowsGrew self.old self.new }
        ensures sound { AreSound self.new }
    {
        self.texts.push(text).ok()
    }

    /// Adds bytes, and says which ones they are. None: there are too many, or there is too little
    /// memory.
    pub fn push_bytes(&mut self, bytes: &[u8]) -> Option<Range>
        requires sound { AreSound self.old }
        ensures bytes { IfSome result (λ r. IsTrue (is_range self.new.bytes.items r) × (some self.new.bytes.items r ≡ bytes.now)) }
        ensures texts { self.new.texts ≡ self.old.texts }
        ensures grew { RowsGrew self.old self.new }
        ensures sound { AreSound self.new }
    {
        let first = u32::try_from(self.bytes.len()).ok()?;
        let count = u32::try_from(bytes.len()).ok()?;
        self.bytes.extend_from_slice(bytes).ok()?;
        Some(Range { first, count })
    }

    /// Adds a choice. None: there is too little memory.
    pub fn push_choice(&mut self, choice: Choice) -> Option<()>
        requires sound { AreSound self.old }
        requires there { IsTrue (is_choice_there choice) }
        ensures choice { IfSome result (λ _. map choice_of self.new.choices.items ≡ map choice_of self.old.choices.items ++ choice_of choice ∷ []) }
        ensures grew { RowsGrew self.old self.new }
        ensures sound { AreSound self.new }
    {
        self.choices.push(choice).ok()
    }
}
