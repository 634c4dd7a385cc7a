//! How many points code has, and how many temporaries they fill.
ghost use Rattle.std.specs.Prelude.{◌≡◌, ◌+◌, ◌*◌, get_or, IfOk};
ghost use Rattle.numbered_points.specs.Extents.{extent, nothing, both, in_turns, ending_with};

use std::alloc::AllocError;
use std::marker::Model;

/// The points that a construct has wherever it stands, how many exits and how many returns leave
/// it, and how many temporaries its points fill.
#[derive(Clone, Copy)]
pub struct Span {
    own: usize,
    exits: usize,
    returns: usize,
    filled: usize,
}

impl Model for Span {
    ghost use Rattle.numbered_points.specs.Extents.{Extent};

    ghost Value = { Extent };

    ghost view = { λ span. record { own = span.own; exits = span.exits; returns = span.returns; filled = span.filled } };

    ghost inverse = { λ span. record { own = span.own; exits = span.exits; returns = span.returns; filled = span.filled } };
}

/// The sum of two counts. More than a number counts is too much for memory.
pub fn sum(a: usize, b: usize) -> Result<usize, AllocError>
    ensures { IfOk result (λ n. n ≡ a + b) }
{
    match a.checked_add(b) {
        Some(n) => Ok(n),
        None => Err(AllocError),
    }
}

/// The product of two counts. More than a number counts is too much for memory.
pub fn product(a: usize, b: usize) -> Result<usize, AllocError>
    ensures { IfOk result (λ n. n ≡ a * b) }
{
    match a.checked_mul(b) {
        Some(n) => Ok(n),
        None => Err(AllocError),
    }
}

impl Span {
    /// The one with these counts.
    pub fn new(own: usize, exits: usize, returns: usize, filled: usize) -> Span
        ensures { result ≡ extent own exits returns filled }
    {
        Span {
            own,
            exits,
            returns,
            filled,
        }
    }

    /// That of what has no points.
    pub fn nothing() -> Span
        ensures { result ≡ nothing }
    {
        Span::new(0, 0, 0, 0)
    }

    /// That of the node with this number.
    pub fn at(spans: &[Span], i: usize) -> Span
        ensures { result ≡ get_or spans.now i nothing }
    {
        match spans.get(i) {
            Some(span) => *span,
            None => Span::nothing(),
        }
    }

    /// The points that a construct has wherever it stands.
    pub fn own(self) -> usize
        ensures { result ≡ self.own }
    {
        self.own
    }

    /// How many exits leave it.
    pub fn exits(self) -> usize
        ensures { result ≡ self.exits }
    {
        self.exits
    }

    /// How many returns leave it.
    pub fn returns(self) -> usize
        ensures { result ≡ self.returns }
    {
        self.returns
    }

    /// How many temporaries its points fill.
    pub fn filled(self) -> usize
        ensures { result ≡ self.filled }
    {
        self.filled
    }

    /// That of one part and another after it.
    pub fn and(self, other: Span) -> Result<Span, AllocError>
        ensures { IfOk result (λ made. made ≡ both self other) }
    {
        Ok(Span {
            own: sum(self.own, other.own)?,
            exits: sum(self.exits, other.exits)?,
            returns: sum(self.returns, other.returns)?,
            filled: sum(self.filled, other.filled)?,
        })
    }

    /// That of a loop around it. Exits leave no further.
    pub fn in_turns(self) -> Span
        ensures { result ≡ in_turns self }
    {
        Span::new(self.own, 0, self.returns, self.filled)
    }

    /// That of a block around it with so many objects whose scopes end.
    pub fn ending_with(self, objects: usize) -> Result<Span, AllocError>
        ensures { IfOk result (λ made. made ≡ ending_with objects self) }
    {
        let left = sum(self.exits, self.returns)?;
        let ends = product(left, objects)?;
        Ok(Span {
            own: sum(sum(self.own, objects)?, ends)?,
            exits: self.exits,
            returns: self.returns,
            filled: self.filled,
        })
    }
}
