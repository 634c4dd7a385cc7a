//! What a word is to the codes of refusals.
ghost use Rattle.std.specs.Prelude.{◌≡◌};
ghost use Rattle.ada_tree.specs.Refusals.{is_left_out_word};

use ada_lexer::Reserved;

/// Whether a word begins or continues what is left out of the language (`docs/LANGUAGE.md`,
/// "Grammar").
/// Where the refused token is such a word, the code is P3, else P1.
pub fn is_left_out(word: Reserved) -> bool
    ensures { result ≡ is_left_out_word word }
{
    match word {
        // of tasks and time
        Reserved::KwAbort
        | Reserved::KwAccept
        | Reserved::KwDelay
        | Reserved::KwEntry
        | Reserved::KwProtected
        | Reserved::KwRequeue
        | Reserved::KwSelect
        | Reserved::KwSynchronized
        | Reserved::KwTask
        | Reserved::KwTerminate
        | Reserved::KwUntil => true,
        // of types and declarations
        Reserved::KwAbstract
        | Reserved::KwAliased
        | Reserved::KwDelta
        | Reserved::KwDigits
        | Reserved::KwInterface
        | Reserved::KwLimited
        | Reserved::KwNew
        | Reserved::KwOverriding
        | Reserved::KwRenames
        | Reserved::KwTagged => true,
        // of units, statements and expressions
        Reserved::KwAll
        | Reserved::KwAt
        | Reserved::KwDo
        | Reserved::KwException
        | Reserved::KwGeneric
        | Reserved::KwGoto
        | Reserved::KwRaise
        | Reserved::KwSeparate
        | Reserved::KwSome => true,
        _ => false,
    }
}
