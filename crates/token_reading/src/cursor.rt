//! A cursor over the tokens of a file, and the readers of one token.
ghost use Rattle.std.specs.Prelude.{◌≡◌, [], ◌∷◌, length, map};
ghost use Rattle.std.specs.Option.{is_some};
ghost use lib.Dec.{leb};
ghost use Rattle.spark_base.specs.declared.limits.TheConstants.{NESTING, OPERATORS};
ghost use Rattle.std.specs.Char.{to_ascii_lowercase};
ghost use Rattle.token_reading.specs.Spelled.{told};
ghost use Rattle.token_reading.specs.declared.side.Side.TheVariants.{Apart};
ghost use Rattle.token_reading.specs.Weights.{rests};
ghost use Rattle.token_reading.specs.Kinds.{of_kind};
ghost use Rattle.token_reading.specs.Reading as reading;
ghost use Rattle.token_reading.specs.Reading.{Reads, starts, of_word, of_symbol, of_ident, of_number, of_string};

use crate::fault::ReadFault;
use crate::kind::{Kind, is_of_kinds};
use crate::side::Side;
use crate::token::{
    is_called, is_file_end, is_identifier, is_string, number_of, symbol_position, word_position,
};
use ada_lexer::{Reserved, Symbol, Token};
use spark_base::{Listed, NESTING, OPERATORS, Pos};
use std::alloc::Global;
use std::marker::Model;

/// The operators of the outermost expression after a token on this side that is none, where so
/// many stand before it.
fn counted(side: Side, count: u32) -> u32
    ensures { result ≡ rests side count }
{
    match side {
        Side::Apart => 0,
        Side::Within => count,
    }
}

/// Whether so many open constructs are all that may be.
fn has_all_levels(depth: u32) -> bool
    ensures { result ≡ leb NESTING depth }
{
    depth >= NESTING
}

/// The tokens that haven't been read, and how many operators the outermost expression has so far.
/// Where a method gives a fault, the tokens stay as they are.
#[derive(Drop)]
pub struct Cursor<'t, 's> {
    rest: &'t [Token<'s>],
    count: u32,
}

impl<'t, 's> Model for Cursor<'t, 's> {
    ghost use Rattle.std.specs.Prelude.{map};
    ghost use Rattle.token_reading.specs.Spelled.{told};
    ghost use Rattle.token_reading.specs.Reading.{Ahead, ahead_code};

    ghost Value = { Ahead };

    ghost coded = { ahead_code };

    ghost view = { λ cursor. record { operators = cursor.count; tokens = map told cursor.rest.now } };
}

impl<'t, 's> Cursor<'t, 's> {
    /// A cursor at the first of the tokens, with no operator so far.
    pub fn new(tokens: &'t [Token<'s>]) -> Cursor<'t, 's>
        ensures operators { result.operators ≡ 0 }
        ensures tokens { result.tokens ≡ map told tokens.now }
    {
        Cursor {
            rest: tokens,
            count: 0,
        }
    }

    /// Whether the next token is this reserved word.
    #[tactic(auto, using(crate::proofs::FirstKinds::is_word))]
    pub fn sees_word(&self, word: Reserved) -> bool
        ensures { result ≡ starts (of_word word ∷ []) self.now.tokens }
    {
        match self.rest.split_first() {
            Some((token, _)) => word_position(token, word).is_some(),
            None => false,
        }
    }

    /// Whether the next token is this delimiter.
    #[tactic(auto, using(crate::proofs::FirstKinds::is_symbol))]
    pub fn sees_symbol(&self, symbol: Symbol) -> bool
        ensures { result ≡ starts (of_symbol symbol ∷ []) self.now.tokens }
    {
        match self.rest.split_first() {
            Some((token, _)) => symbol_position(token, symbol).is_some(),
            None => false,
        }
    }

    /// Whether the next token is a number.
    #[tactic(auto, using(crate::proofs::FirstKinds::is_number))]
    pub fn sees_number(&self) -> bool
        ensures { result ≡ starts (of_number ∷ []) self.now.tokens }
    {
        match self.rest.split_first() {
            Some((token, _)) => number_of(token).is_some(),
            None => false,
        }
    }

    /// Whether the next token is an identifier.
    #[tactic(auto, using(crate::proofs::FirstKinds::is_ident))]
    pub fn sees_identifier(&self) -> bool
        ensures { result ≡ starts (of_ident ∷ []) self.now.tokens }
    {
        match self.rest.split_first() {
            Some((token, _)) => is_identifier(token),
            None => false,
        }
    }

    /// Whether the next token is a string.
    #[tactic(auto, using(crate::proofs::FirstKinds::is_string))]
    pub fn sees_string(&self) -> bool
        ensures { result ≡ starts (of_string ∷ []) self.now.tokens }
    {
        match self.rest.split_first() {
            Some((token, _)) => is_string(token),
            None => false,
        }
    }

    /// Whether the next token is of one of these kinds.
    pub fn sees_any(&self, kinds: &[Kind]) -> bool
        ensures { result ≡ starts (map of_kind kinds.now) self.now.tokens }
    {
        match self.rest.split_first() {
            Some((token, _)) => is_of_kinds(token, kinds),
            None => false,
        }
    }

    /// The position of the next token, which stays. At the end of the file it is refused, since no
    /// part begins there.
    pub fn position(&mut self) -> Result<Pos, ReadFault>
        ensures { Reads reading.here self.old result self.new }
    {
        let Some(token) = self.rest.first() else {
            return Err(ReadFault::Refused);
        };
        if is_file_end(token) {
            return Err(ReadFault::Refused);
        }
        Ok(token.pos)
    }

    /// Whether the outermost expression has all the operators that it may have.
    fn has_all_operators(&self) -> bool
        ensures { result ≡ leb OPERATORS self.now.operators }
    {
        self.count >= OPERATORS
    }

    /// Reads this reserved word.
    pub fn word(&mut self, side: Side, word: Reserved) -> Result<Pos, ReadFault>
        ensures { Reads (reading.word side word) self.old result self.new }
    {
        let Some(token) = self.rest.first() else {
            return Err(ReadFault::Refused);
        };
        let Some(pos) = word_position(token, word) else {
            return Err(ReadFault::Refused);
        };
        self.count = counted(side, self.count);
        self.rest = &self.rest[1..];
        Ok(pos)
    }

    /// Reads this reserved word apart from all expressions, which opens a construct where so many
    /// are open. It exceeds the limit where these are all that may be.
    pub fn opens_word(&mut self, word: Reserved, depth: u32) -> Result<Pos, ReadFault>
        ensures { Reads (reading.opens_word word depth) self.old result self.new }
    {
        let Some(token) = self.rest.first() else {
            return Err(ReadFault::Refused);
        };
        let Some(pos) = word_position(token, word) else {
            return Err(ReadFault::Refused);
        };
        if has_all_levels(depth) {
            return Err(ReadFault::OverLimit);
        }
        self.count = 0;
        self.rest = &self.rest[1..];
        Ok(pos)
    }

    /// Reads this reserved word, which is an operator. It exceeds the limit where the outermost
    /// expression has all the operators that it may have.
    pub fn operator_word(&mut self, word: Reserved) -> Result<Pos, ReadFault>
        ensures { Reads (reading.operator_word word) self.old result self.new }
    {
        let Some(token) = self.rest.first() else {
            return Err(ReadFault::Refused);
        };
        let Some(pos) = word_position(token, word) else {
            return Err(ReadFault::Refused);
        };
        if self.has_all_operators() {
            return Err(ReadFault::OverLimit);
        }
        self.count += 1;
        self.rest = &self.rest[1..];
        Ok(pos)
    }

    /// Reads this delimiter.
    pub fn symbol(&mut self, side: Side, symbol: Symbol) -> Result<Pos, ReadFault>
        ensures { Reads (reading.symbol side symbol) self.old result self.new }
    {
        let Some(token) = self.rest.first() else {
            return Err(ReadFault::Refused);
        };
        let Some(pos) = symbol_position(token, symbol) else {
            return Err(ReadFault::Refused);
        };
        self.count = counted(side, self.count);
        self.rest = &self.rest[1..];
        Ok(pos)
    }

    /// Reads this delimiter, which opens a construct where so many are open. It exceeds the limit
    /// where these are all that may be.
    pub fn opens_symbol(&mut self, side: Side, symbol: Symbol, depth: u32) -> Result<Pos, ReadFault>
        ensures { Reads (reading.opens_symbol side symbol depth) self.old result self.new }
    {
        let Some(token) = self.rest.first() else {
            return Err(ReadFault::Refused);
        };
        let Some(pos) = symbol_position(token, symbol) else {
            return Err(ReadFault::Refused);
        };
        if has_all_levels(depth) {
            return Err(ReadFault::OverLimit);
        }
        self.count = counted(side, self.count);
        self.rest = &self.rest[1..];
        Ok(pos)
    }

    /// Reads this delimiter, which is an operator. It exceeds the limit where the outermost
    /// expression has all the operators that it may have.
    pub fn operator_symbol(&mut self, symbol: Symbol) -> Result<Pos, ReadFault>
        ensures { Reads (reading.operator_symbol symbol) self.old result self.new }
    {
        let Some(token) = self.rest.first() else {
            return Err(ReadFault::Refused);
        };
        let Some(pos) = symbol_position(token, symbol) else {
            return Err(ReadFault::Refused);
        };
        if self.has_all_operators() {
            return Err(ReadFault::OverLimit);
        }
        self.count += 1;
        self.rest = &self.rest[1..];
        Ok(pos)
    }

    /// Reads a number, as its position and its value.
    pub fn number(&mut self) -> Result<(Pos, u32), ReadFault>
        ensures { Reads reading.number self.old result self.new }
    {
        let Some(token) = self.rest.first() else {
            return Err(ReadFault::Refused);
        };
        let Some(number) = number_of(token) else {
            return Err(ReadFault::Refused);
        };
        self.rest = &self.rest[1..];
        Ok(number)
    }

    /// Reads an identifier, as its position and a copy of its bytes.
    pub fn identifier(&mut self, alloc: Global, side: Side) -> Result<(Pos, Listed<u8>), ReadFault>
        ensures { Reads (reading.ident side) self.old result self.new }
    {
        let Some(token) = self.rest.first() else {
            return Err(ReadFault::Refused);
        };
        if !is_identifier(token) {
            return Err(ReadFault::Refused);
        }
        let text = Listed::from_vec(Vec::from_slice(alloc, token.text)?);
        let pos = token.pos;
        self.count = counted(side, self.count);
        self.rest = &self.rest[1..];
        Ok((pos, text))
    }

    /// Reads an identifier apart from all expressions that has this spelling in lower case.
    pub fn identifier_called(
        &mut self,
        alloc: Global,
        name: &[u8],
    ) -> Result<(Pos, Listed<u8>), ReadFault>
        requires { map to_ascii_lowercase name.now ≡ name.now }
        ensures { Reads (reading.ident_called name.now) self.old result self.new }
    {
        let Some(token) = self.rest.first() else {
            return Err(ReadFault::Refused);
        };
        if !is_called(token, name) {
            return Err(ReadFault::Refused);
        }
        let text = Listed::from_vec(Vec::from_slice(alloc, token.text)?);
        let pos = token.pos;
        self.count = 0;
        self.rest = &self.rest[1..];
        Ok((pos, text))
    }

    /// Reads a string, as its position and a copy of its bytes, with its quotes.
    pub fn string(&mut self, alloc: Global) -> Result<(Pos, Listed<u8>), ReadFault>
        ensures { Reads reading.string self.old result self.new }
    {
        let Some(token) = self.rest.first() else {
            return Err(ReadFault::Refused);
        };
        if !is_string(token) {
            return Err(ReadFault::Refused);
        }
        let text = Listed::from_vec(Vec::from_slice(alloc, token.text)?);
        let pos = token.pos;
        self.rest = &self.rest[1..];
        Ok((pos, text))
    }

    /// Reads this reserved word, apart from all expressions, where it is the next token.
    pub fn optional_word(&mut self, word: Reserved) -> Result<Option<Pos>, ReadFault>
        ensures { Reads (reading.optional (of_word word ∷ []) (reading.word Apart word)) self.old result self.new }
    {
        if self.sees_word(word) {
            return Ok(Some(self.word(Side::Apart, word)?));
        }
        Ok(None)
    }

    /// Reads the end of the file.
    pub fn file_end(&mut self) -> Result<(), ReadFault>
        ensures { Reads reading.file_end self.old result self.new }
    {
        let Some(token) = self.rest.first() else {
            return Err(ReadFault::Refused);
        };
        if !is_file_end(token) {
            return Err(ReadFault::Refused);
        }
        self.count = 0;
        self.rest = &self.rest[1..];
        Ok(())
    }

    /// How many tokens haven't been read, with the end of the file.
    pub fn left(&self) -> usize
        ensures { result ≡ length self.now.tokens }
    {
        self.rest.len()
    }
}
