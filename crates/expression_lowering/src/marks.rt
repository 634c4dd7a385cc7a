//! Which declarations identifiers, marks and the fronts of names denote.
#![tactic(auto, unfolding(crate::specs::LoweredExpressions::selected_number, name_events::specs::ExpressionOutline::part_name))]

ghost use Rattle.std.specs.Prelude.{◌≡◌, ◌≤◌, Some, length};
ghost use Rattle.std.specs.Str.{str_eq_ignore_ascii_case};
ghost use Rattle.expression_lowering.specs.LoweredExpressions.{attribute_of, last_of, last_part, leading_numbers, mark_of, number_of, selected_number};

use crate::number_index::NumberIndex;
use ada_tree::{Dotted, Identifier, NextPart, Suffix};
use resolved_tree::{Attribute, Mark};

/// The number of the declaration of an identifier, 0 where it has none.
pub fn number_of(id: &Identifier, numbers: &NumberIndex) -> u32
    ensures { result ≡ number_of numbers.now id.now }
{
    numbers.get(id.pos).unwrap_or(0)
}

/// The declaration of the last of these identifiers, where each has one.
fn last_part(first: u32, rest: &[NextPart], numbers: &NumberIndex) -> Option<u32>
    ensures { result ≡ last_part numbers.now (Some first) rest.now }
{
    let mut decl = first;
    'parts: for part in rest {
        let NextPart::FurtherPart { name, .. } = part;
        decl = numbers.get(name.pos)?;
    }
    Some(decl)
}

/// mark
pub fn mark(tree: &Dotted, numbers: &NumberIndex) -> Mark
    ensures { result ≡ mark_of numbers.now tree.now }
{
    let first = number_of(&tree.first, numbers);
    Mark {
        pos: tree.pos,
        decl: last_part(first, tree.rest.as_slice(), numbers),
    }
}

/// The declaration of `.` id, if it has one.
fn selected_number(tree: &Suffix, numbers: &NumberIndex) -> Option<u32>
    ensures { result ≡ selected_number numbers.now tree.now }
{
    match tree {
        Suffix::Selected { selector, .. } => numbers.get(selector.pos),
        Suffix::Dereferenced { .. }
        | Suffix::Applied { .. }
        | Suffix::Attribute { .. }
        | Suffix::RangeAttribute { .. } => None,
    }
}

/// The declaration of the last one of the leading identifiers of a name, and how many of its
/// suffixes these are.
pub fn front(first: u32, rest: &[Suffix], numbers: &NumberIndex) -> (u32, usize)
    ensures decl { result.0 ≡ last_of first (leading_numbers numbers.now rest.now) }
    ensures used { result.1 ≡ length (leading_numbers numbers.now rest.now) }
    ensures within { result.1 ≤ length rest.now }
{
    let mut decl = first;
    let mut used = 0;
    'suffixes: for suffix in rest {
        match selected_number(suffix, numbers) {
            None => return (decl, used),
            Some(number) => {
                decl = number;
                used += 1;
            }
        }
    }
    (decl, used)
}

/// Whether two words are the same but for letter case.
fn is_same_word(a: &[u8], b: &[u8]) -> bool
    ensures { result ≡ str_eq_ignore_ascii_case a.now b.now }
{
    a.eq_ignore_ascii_case(b)
}

/// The attribute that an identifier spells.
pub fn attribute(id: &Identifier) -> Attribute
    ensures { result ≡ attribute_of id.now }
{
    let word = id.text.as_bytes();
    if is_same_word(word, b"first") {
        Attribute::First
    } else if is_same_word(word, b"last") {
        Attribute::Last
    } else if is_same_word(word, b"length") {
        Attribute::Length
    } else if is_same_word(word, b"image") {
        Attribute::Image
    } else {
        Attribute::Other
    }
}
