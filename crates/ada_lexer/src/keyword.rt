//! Tells reserved words from identifiers (Ada 2012, 2.9).

ghost use Rattle.std.specs.Prelude.{◌≡◌, map};
ghost use Rattle.std.specs.Str.{str_eq_ignore_ascii_case};
ghost use Rattle.ada_lexer.specs.ReservedWords as spec;

use crate::token::Reserved;

// The reserved words by length, so that a word is compared with few of them.

const OF_TWO: [(&[u8], Reserved); 7] = [
    (b"at", Reserved::KwAt),
    (b"do", Reserved::KwDo),
    (b"if", Reserved::KwIf),
    (b"in", Reserved::KwIn),
    (b"is", Reserved::KwIs),
    (b"of", Reserved::KwOf),
    (b"or", Reserved::KwOr),
];

const OF_THREE: [(&[u8], Reserved); 12] = [
    (b"abs", Reserved::KwAbs),
    (b"all", Reserved::KwAll),
    (b"and", Reserved::KwAnd),
    (b"end", Reserved::KwEnd),
    (b"for", Reserved::KwFor),
    (b"mod", Reserved::KwMod),
    (b"new", Reserved::KwNew),
    (b"not", Reserved::KwNot),
    (b"out", Reserved::KwOut),
    (b"rem", Reserved::KwRem),
    (b"use", Reserved::KwUse),
    (b"xor", Reserved::KwXor),
];

const OF_FOUR: [(&[u8], Reserved); 13] = [
    (b"body", Reserved::KwBody),
    (b"case", Reserved::KwCase),
    (b"else", Reserved::KwElse),
    (b"exit", Reserved::KwExit),
    (b"goto", Reserved::KwGoto),
    (b"loop", Reserved::KwLoop),
    (b"null", Reserved::KwNull),
    (b"some", Reserved::KwSome),
    (b"task", Reserved::KwTask),
    (b"then", Reserved::KwThen),
    (b"type", Reserved::KwType),
    (b"when", Reserved::KwWhen),
    (b"with", Reserved::KwWith),
];

const OF_FIVE: [(&[u8], Reserved); 11] = [
    (b"abort", Reserved::KwAbort),
    (b"array", Reserved::KwArray),
    (b"begin", Reserved::KwBegin),
    (b"delay", Reserved::KwDelay),
    (b"delta", Reserved::KwDelta),
    (b"elsif", Reserved::KwElsif),
    (b"entry", Reserved::KwEntry),
    (b"raise", Reserved::KwRaise),
    (b"range", Reserved::KwRange),
    (b"until", Reserved::KwUntil),
    (b"while", Reserved::KwWhile),
];

const OF_SIX: [(&[u8], Reserved); 9] = [
    (b"accept", Reserved::KwAccept),
    (b"access", Reserved::KwAccess),
    (b"digits", Reserved::KwDigits),
    (b"others", Reserved::KwOthers),
    (b"pragma", Reserved::KwPragma),
    (b"record", Reserved::KwRecord),
    (b"return", Reserved::KwReturn),
    (b"select", Reserved::KwSelect),
    (b"tagged", Reserved::KwTagged),
];

const OF_SEVEN: [(&[u8], Reserved); 10] = [
    (b"aliased", Reserved::KwAliased),
    (b"declare", Reserved::KwDeclare),
    (b"generic", Reserved::KwGeneric),
    (b"limited", Reserved::KwLimited),
    (b"package", Reserved::KwPackage),
    (b"private", Reserved::KwPrivate),
    (b"renames", Reserved::KwRenames),
    (b"requeue", Reserved::KwRequeue),
    (b"reverse", Reserved::KwReverse),
    (b"subtype", Reserved::KwSubtype),
];

const OF_EIGHT: [(&[u8], Reserved); 4] = [
    (b"abstract", Reserved::KwAbstract),
    (b"constant", Reserved::KwConstant),
    (b"function", Reserved::KwFunction),
    (b"separate", Reserved::KwSeparate),
];

const OF_NINE: [(&[u8], Reserved); 5] = [
    (b"exception", Reserved::KwException),
    (b"interface", Reserved::KwInterface),
    (b"procedure", Reserved::KwProcedure),
    (b"protected", Reserved::KwProtected),
    (b"terminate", Reserved::KwTerminate),
];

const OF_TEN: [(&[u8], Reserved); 1] = [(b"overriding", Reserved::KwOverriding)];

const OF_TWELVE: [(&[u8], Reserved); 1] = [(b"synchronized", Reserved::KwSynchronized)];

fn is_same_word(a: &[u8], b: &[u8]) -> bool
    ensures { result ≡ str_eq_ignore_ascii_case a.now b.now }
{
    a.eq_ignore_ascii_case(b)
}

/// The entry of a table whose spelling is `word` but for letter case.
fn entry_of(mut table: &[(&[u8], Reserved)], word: &[u8]) -> Option<Reserved>
    ensures { let entries = map (λ entry. (entry.0.now, entry.1)) table.entry.now in
        result ≡ spec.entry_of entries word.now }
{
    'entries: while let [entry, rest @ ..] = table {
        if is_same_word(entry.0, word) {
            return Some(entry.1);
        }
        table = rest;
    }
    None
}

/// The reserved word that these bytes spell, in any letter case.
pub fn reserved(word: &[u8]) -> Option<Reserved>
    ensures { result ≡ spec.reserved word.now }
{
    match word.len() {
        2 => entry_of(&OF_TWO, word),
        3 => entry_of(&OF_THREE, word),
        4 => entry_of(&OF_FOUR, word),
        5 => entry_of(&OF_FIVE, word),
        6 => entry_of(&OF_SIX, word),
        7 => entry_of(&OF_SEVEN, word),
        8 => entry_of(&OF_EIGHT, word),
        9 => entry_of(&OF_NINE, word),
        10 => entry_of(&OF_TEN, word),
        12 => entry_of(&OF_TWELVE, word),
        _ => None,
    }
}
