//! Numbers in words.
ghost use Rattle.std.specs.Prelude.{◌≡◌, ◌≤◌, length, IfSome};
ghost use Rattle.std.specs.Char.{is_ascii_digit};
ghost use Rattle.std.specs.List.{list_all};
ghost use Rattle.command_words.specs.Words as spec;

/// Whether a text has digits alone.
fn are_digits(text: &str) -> bool
    ensures { result ≡ list_all is_ascii_digit text.now }
{
    text.as_bytes().iter().all(|byte| byte.is_ascii_digit())
}

/// The value of one or more digits, of which there are at most ten.
fn digits_value(text: &str) -> Option<u64>
    requires few { length text.now ≤ 10 }
    ensures { result ≡ spec.number_in text.now }
{
    if are_digits(text) {
        text.parse::<u64>().ok()
    } else {
        None
    }
}

/// A value between two bounds.
fn between(low: u64, high: u64, value: u64) -> Option<u64>
    ensures value { result ≡ spec.between low high value }
    ensures within { IfSome result (λ n. n ≤ high) }
{
    if low <= value && value <= high {
        Some(value)
    } else {
        None
    }
}

/// The value of digits, at most so many, where it lies between two bounds.
pub(crate) fn number(text: &str, most: usize, low: u64, high: u64) -> Option<u64>
    requires few { most ≤ 10 }
    ensures value { result ≡ spec.number_of most low high text.now }
    ensures within { IfSome result (λ n. n ≤ high) }
{
    if text.len() > most {
        return None;
    }
    match digits_value(text) {
        Some(value) => between(low, high, value),
        None => None,
    }
}
