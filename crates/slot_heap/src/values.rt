//! Words, and the values that they are kept for.
ghost use Rattle.std.specs.Prelude.{◌≡◌, true};
ghost use Rattle.slot_heap.specs.Words.{slot_word, slot_value, is_slot_word};

use run_values::{Handle, Kind, Value};

/// The word that a value is kept as.
pub fn word_of(value: Value) -> i64
    ensures { result ≡ slot_word value }
{
    match value {
        Value::Int(v) => v as i64,
        Value::Enum(n) => n as i64,
        Value::Null => 0,
        Value::Cell(h) => h.number() as i64 + 1,
    }
}

/// The access value that a word is.
fn access_of(word: i64) -> Value
    requires { is_slot_word Kind.Access word ≡ true }
    ensures { result ≡ slot_value Kind.Access word }
{
    if word == 0 {
        Value::Null
    } else {
        Value::Cell(Handle::new(word as u64 - 1))
    }
}

/// The value of a kind that a word is kept for.
pub fn value_of(kind: Kind, word: i64) -> Value
    requires { is_slot_word kind word ≡ true }
    ensures { result ≡ slot_value kind word }
{
    match kind {
        Kind::Int => Value::Int(word as i32),
        Kind::Enum => Value::Enum(word as u32),
        Kind::Access => access_of(word),
    }
}
