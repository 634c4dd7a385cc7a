//! Items of the input (Ada 2012, A.10.8, and A.10.5 for End_Of_File). No call here takes memory.
ghost use Rattle.std.specs.Prelude.{◌≡◌, ◌+◌, ◌≤◌, length, drop};
ghost use Rattle.run_values.specs.Items as spec;

/// What Get finds.
#[derive(Clone, Copy, Debug, PartialEq, Eq)]
pub enum Item {
    /// Nothing: only blanks, tabs and ends of lines are left. Get raises End_Error.
    Missing,
    /// An item that isn't the number of a value of Integer, as `1_0`. Get raises Data_Error.
    Bad,
    /// A number, and the index after its last byte.
    Number { value: i32, end: usize },
}

/// Whether the byte separates items: a blank, a tab, a carriage return or a line feed (Ada 2012,
/// A.10.6 and A.10.8).
fn is_separator(b: u8) -> bool
    ensures { result ≡ spec.is_separator b }
{
    matches!(b, b' ' | b'\t' | b'\r' | b'\n')
}

/// How many bytes at the front of a text separate items.
fn separator_length(text: &[u8]) -> usize
    ensures value { result ≡ spec.separator_length text.now }
    ensures within { result ≤ length text.now }
{
    text.iter().take_while(|b| is_separator(**b)).count()
}

/// How many bytes at the front of a text belong to an item.
fn item_length(text: &[u8]) -> usize
    ensures value { result ≡ spec.item_length text.now }
    ensures within { result ≤ length text.now }
{
    text.iter().take_while(|b| !is_separator(**b)).count()
}

/// The value of an optional sign and one or more digits, where it is one of Integer. Any number of
/// zeros may lead.
#[tactic(auto, using(crate::proofs::Numbers::number_no_text))]
fn number(text: &[u8]) -> Option<i32>
    ensures { result ≡ spec.number text.now }
{
    match str::from_utf8(text) {
        Ok(text) => text.parse::<i32>().ok(),
        Err(_) => None,
    }
}

/// The item with this value, if it has one, and this end.
fn item_of(value: Option<i32>, end: usize) -> Item
    ensures { result ≡ spec.item_of value end }
{
    match value {
        Some(value) => Item::Number { value, end },
        None => Item::Bad,
    }
}

/// The next item from an index on, as Get finds it (A.10.8). What separates items is skipped, and
/// the longest run of other bytes is taken.
pub fn next_item(input: &[u8], at: usize) -> Item
    requires { at ≤ length input.now }
    ensures value { result ≡ spec.next_item input.now at }
    ensures within { spec.EndsWithin at (length input.now) result }
{
    let start = at + separator_length(&input[at..]);
    let len = item_length(&input[start..]);
    let end = start + len;
    if len == 0 {
        return Item::Missing;
    }
    item_of(number(&input[start..end]), end)
}

/// Whether the input is at its end, as End_Of_File says (A.10.5): the rest is empty, or is one line
/// feed.
pub fn at_end(input: &[u8], at: usize) -> bool
    requires { at ≤ length input.now }
    ensures { result ≡ spec.at_end (drop at input.now) }
{
    matches!(&input[at..], [] | [b'\n'])
}
