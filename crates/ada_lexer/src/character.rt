//! Classes of bytes (Ada 2012, 2.1 and 2.2).

ghost use Rattle.std.specs.Prelude.{◌≡◌, slice_index};
ghost use Rattle.ada_lexer.specs.Characters as spec;

/// The byte at an index, or 0 after the end.
pub fn byte(text: &[u8], at: usize) -> u8
    ensures { result ≡ slice_index text.now at }
{
    if at < text.len() { text[at] } else { 0 }
}

/// Whether the byte is a blank, a tab, a line feed, a vertical tab, a form feed or a carriage
/// return.
pub fn is_separator(b: u8) -> bool
    ensures { result ≡ spec.is_separator b }
{
    b == b' ' || (9 <= b && b <= 13)
}

/// Whether the byte is a letter, of either case.
pub fn is_letter(b: u8) -> bool
    ensures { result ≡ spec.is_letter b }
{
    b.is_ascii_alphabetic()
}

/// Whether the byte is a decimal digit.
pub fn is_digit(b: u8) -> bool
    ensures { result ≡ spec.is_digit b }
{
    b.is_ascii_digit()
}

/// Whether the byte is a graphic character, as a blank.
pub fn is_graphic(b: u8) -> bool
    ensures { result ≡ spec.is_graphic b }
{
    32 <= b && b <= 126
}
