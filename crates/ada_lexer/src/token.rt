//! What a text is cut into (Ada 2012, 2.1 to 2.9).

use spark_base::Pos;

/// A reserved word (Ada 2012, 2.9). Letter case makes no difference.
#[derive(Clone, Copy, PartialEq, Eq)]
pub enum Reserved {
    /// `abort`
    KwAbort,
    /// `abs`
    KwAbs,
    /// `abstract`
    KwAbstract,
    /// `accept`
    KwAccept,
    /// `access`
    KwAccess,
    /// `aliased`
    KwAliased,
    /// `all`
    KwAll,
    /// `and`
    KwAnd,
    /// `array`
    KwArray,
    /// `at`
    KwAt,
    /// `begin`
    KwBegin,
    /// `body`
    KwBody,
    /// `case`
    KwCase,
    /// `constant`
    KwConstant,
    /// `declare`
    KwDeclare,
    /// `delay`
    KwDelay,
    /// `delta`
    KwDelta,
    /// `digits`
    KwDigits,
    /// `do`
    KwDo,
    /// `else`
    KwElse,
    /// `elsif`
    KwElsif,
    /// `end`
    KwEnd,
    /// `entry`
    KwEntry,
    /// `exception`
    KwException,
    /// `exit`
    KwExit,
    /// `for`
    KwFor,
    /// `function`
    KwFunction,
    /// `generic`
    KwGeneric,
    /// `goto`
    KwGoto,
    /// `if`
    KwIf,
    /// `in`
    KwIn,
    /// `interface`
    KwInterface,
    /// `is`
    KwIs,
    /// `limited`
    KwLimited,
    /// `loop`
    KwLoop,
    /// `mod`
    KwMod,
    /// `new`
    KwNew,
    /// `not`
    KwNot,
    /// `null`
    KwNull,
    /// `of`
    KwOf,
    /// `or`
    KwOr,
    /// `others`
    KwOthers,
    /// `out`
    KwOut,
    /// `overriding`
    KwOverriding,
    /// `package`
    KwPackage,
    /// `pragma`
    KwPragma,
    /// `private`
    KwPrivate,
    /// `procedure`
    KwProcedure,
    /// `protected`
    KwProtected,
    /// `raise`
    KwRaise,
    /// `range`
    KwRange,
    /// `record`
    KwRecord,
    /// `rem`
    KwRem,
    /// `renames`
    KwRenames,
    /// `requeue`
    KwRequeue,
    /// `return`
    KwReturn,
    /// `reverse`
    KwReverse,
    /// `select`
    KwSelect,
    /// `separate`
    KwSeparate,
    /// `some`
    KwSome,
    /// `subtype`
    KwSubtype,
    /// `synchronized`
    KwSynchronized,
    /// `tagged`
    KwTagged,
    /// `task`
    KwTask,
    /// `terminate`
    KwTerminate,
    /// `then`
    KwThen,
    /// `type`
    KwType,
    /// `until`
    KwUntil,
    /// `use`
    KwUse,
    /// `when`
    KwWhen,
    /// `while`
    KwWhile,
    /// `with`
    KwWith,
    /// `xor`
    KwXor,
}

/// A delimiter, of one byte or of two (Ada 2012, 2.2).
#[derive(Clone, Copy, PartialEq, Eq)]
pub enum Symbol {
    /// `&`
    Ampersand,
    /// `'`
    Apostrophe,
    /// `(`
    LeftParenthesis,
    /// `)`
    RightParenthesis,
    /// `*`
    Star,
    /// `+`
    Plus,
    /// `,`
    Comma,
    /// `-`
    Minus,
    /// `.`
    Dot,
    /// `/`
    Slash,
    /// `:`
    Colon,
    /// `;`
    Semicolon,
    /// `<`
    Less,
    /// `=`
    Equal,
    /// `>`
    Greater,
    /// `|`
    Bar,
    /// `=>`
    Arrow,
    /// `..`
    DoubleDot,
    /// `:=`
    Becomes,
    /// `/=`
    NotEqual,
    /// `>=`
    GreaterEqual,
    /// `<=`
    LessEqual,
}

/// What kind of token stands at a position.
#[derive(Clone, Copy, PartialEq, Eq)]
pub enum TokenKind {
    /// A reserved word.
    Word(Reserved),
    /// An identifier (Ada 2012, 2.3). Letter case makes no difference; the token's text keeps it.
    Ident,
    /// A decimal literal without a point and an exponent (Ada 2012, 2.4.1), with its value, at most
    /// 2147483648. Underscores between digits don't change it.
    Number(u32),
    /// A string literal (Ada 2012, 2.6). The token's text has its quotes, and doubled ones as they
    /// stand.
    Str,
    /// A delimiter.
    Symbol(Symbol),
    /// The end of the file, just past its last byte.
    EndOfFile,
}

/// A token, the slice of the source that it was cut from, and where its first byte stands.
#[derive(Clone, Copy)]
pub struct Token<'s> {
    /// What stands there.
    pub kind: TokenKind,
    /// The bytes of the token as they stand in the source; empty at the end of the file.
    pub text: &'s [u8],
    /// The position of the first byte.
    pub pos: Pos,
}
