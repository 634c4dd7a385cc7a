//! A name taken out of an expression, and what a name is where it is shorter than its type allows.
//!
//! A reader that meets an expression learns only after it that a name or an identifier had to stand
//! there.
#![tactic(auto, using(crate::proofs::LoneLevels::lone_levels))]

ghost use Rattle.std.specs.Prelude.{◌≡◌, IfOk, is_some};
ghost use Rattle.ada_tree.specs.Lone.{lone_name, rel_name, sum_name, term_name, factor_name, primary_name, selected_part, selected_parts, dotted_or_name, sole_identifier, range_positions, range_prefix};

use crate::expression::{Expr, Factor, Name, Primary, Rel, Suffix, Sum, Term};
use crate::identifier::{Dotted, Identifier, NextPart};
use spark_base::{Listed, Pos};
use std::alloc::{AllocError, Global};

impl Expr {
    /// The name that an expression is, where it is a name alone: no operator and no parenthesis
    /// around it.
    pub fn into_name(self) -> Option<Name>
        ensures { result ≡ lone_name self }
    {
        match self {
            Expr::LoneRelation { relation, .. } => Box::into_inner(relation.into_box()).into_name(),
            _ => None,
        }
    }
}

impl Rel {
    fn into_name(self) -> Option<Name>
        ensures { result ≡ rel_name self }
    {
        match self {
            Rel::LoneSum { sum, .. } => sum.into_name(),
            Rel::Compared { .. } => None,
        }
    }
}

impl Sum {
    fn into_name(self) -> Option<Name>
        ensures { result ≡ sum_name self }
    {
        match self {
            Sum::Unsigned { first, rest, .. } => {
                if rest.is_empty() {
                    first.into_name()
                } else {
                    None
                }
            }
            Sum::Signed { .. } => None,
        }
    }
}

impl Term {
    fn into_name(self) -> Option<Name>
        ensures { result ≡ term_name self }
    {
        let Term::Product { first, rest, .. } = self;
        if rest.is_empty() {
            first.into_name()
        } else {
            None
        }
    }
}

impl Factor {
    fn into_name(self) -> Option<Name>
        ensures { result ≡ factor_name self }
    {
        match self {
            Factor::LonePrimary { primary, .. } => primary.into_name(),
            Factor::Abs { .. } | Factor::Not { .. } => None,
        }
    }
}

impl Primary {
    fn into_name(self) -> Option<Name>
        ensures { result ≡ primary_name self }
    {
        match self {
            Primary::Named { name, .. } => Some(Box::into_inner(name.into_box())),
            _ => None,
        }
    }
}

impl Suffix {
    /// Whether it is `.` id.
    fn is_selected(&self) -> bool
        ensures { result ≡ is_some (selected_part self.now) }
    {
        matches!(self, Suffix::Selected { .. })
    }

    /// The positions of `'` and `range`.
    fn range_positions(&self) -> Option<(Pos, Pos)>
        ensures { result ≡ range_positions self.now }
    {
        match self {
            Suffix::RangeAttribute { pos, range } => Some((*pos, *range)),
            _ => None,
        }
    }

    fn into_part(self) -> Option<NextPart>
        ensures { result ≡ selected_part self }
    {
        match self {
            Suffix::Selected { pos, selector } => Some(NextPart::FurtherPart {
                pos,
                name: selector,
            }),
            _ => None,
        }
    }
}

/// Whether each of them is `.` id.
fn are_selected(suffixes: &[Suffix]) -> bool
    ensures { result ≡ is_some (selected_parts suffixes.now) }
{
    'suffixes: for suffix in suffixes {
        if !suffix.is_selected() {
            return false;
        }
    }
    true
}

impl Name {
    fn into_parts(self) -> (Pos, Identifier, Vec<Suffix>)
        ensures { self ≡ Name.Prefixed result.0 result.1 result.2.items }
    {
        let Name::Prefixed { pos, first, rest } = self;
        (pos, first, rest.into_vec())
    }

    /// The dotted name that a name is, where each of its suffixes is `.` id, and else the name as
    /// it was. The list of its parts is a new one, so memory may run out.
    pub fn into_dotted(self, alloc: Global) -> Result<Result<Dotted, Name>, AllocError>
        ensures { IfOk result (λ found. found ≡ dotted_or_name self) }
    {
        let (pos, first, suffixes) = self.into_parts();
        if !are_selected(suffixes.as_slice()) {
            let rest = Listed::from_vec(suffixes);
            return Ok(Err(Name::Prefixed { pos, first, rest }));
        }
        let mut parts = Listed::new(alloc);
        'suffixes: for suffix in suffixes {
            if let Some(part) = suffix.into_part() {
                parts.push(part)?;
            }
        }
        Ok(Ok(Dotted {
            pos,
            first,
            rest: parts,
        }))
    }

    /// The identifier that a name is, where it has no suffix.
    pub fn into_identifier(self) -> Option<Identifier>
        ensures { result ≡ sole_identifier self }
    {
        let Name::Prefixed { first, rest, .. } = self;
        if rest.is_empty() { Some(first) } else { None }
    }

    /// The name in front of its last suffix, where that is `'` `range`, and the positions of both.
    pub fn split_range(self) -> Option<(Name, Pos, Pos)>
        ensures { result ≡ range_prefix self }
    {
        let (pos, first, mut suffixes) = self.into_parts();
        let Some(last) = suffixes.pop() else {
            return None;
        };
        let Some((apostrophe, range)) = last.range_positions() else {
            return None;
        };
        let rest = Listed::from_vec(suffixes);
        Some((Name::Prefixed { pos, first, rest }, apostrophe, range))
    }
}
