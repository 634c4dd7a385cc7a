//! Each reserved word in lower case, in upper case, and with a capital.
use crate::tokens::kinds;
use ada_lexer::{Reserved, TokenKind};
use std::test::Fail;

const WORDS: [(&str, Reserved); 73] = [
    ("abort ABORT Abort", Reserved::KwAbort),
    ("abs ABS Abs", Reserved::KwAbs),
    ("abstract ABSTRACT Abstract", Reserved::KwAbstract),
    ("accept ACCEPT Accept", Reserved::KwAccept),
    ("access ACCESS Access", Reserved::KwAccess),
    ("aliased ALIASED Aliased", Reserved::KwAliased),
    ("all ALL All", Reserved::KwAll),
    ("and AND And", Reserved::KwAnd),
    ("array ARRAY Array", Reserved::KwArray),
    ("at AT At", Reserved::KwAt),
    ("begin BEGIN Begin", Reserved::KwBegin),
    ("body BODY Body", Reserved::KwBody),
    ("case CASE Case", Reserved::KwCase),
    ("constant CONSTANT Constant", Reserved::KwConstant),
    ("declare DECLARE Declare", Reserved::KwDeclare),
    ("delay DELAY Delay", Reserved::KwDelay),
    ("delta DELTA Delta", Reserved::KwDelta),
    ("digits DIGITS Digits", Reserved::KwDigits),
    ("do DO Do", Reserved::KwDo),
    ("else ELSE Else", Reserved::KwElse),
    ("elsif ELSIF Elsif", Reserved::KwElsif),
    ("end END End", Reserved::KwEnd),
    ("entry ENTRY Entry", Reserved::KwEntry),
    ("exception EXCEPTION Exception", Reserved::KwException),
    ("exit EXIT Exit", Reserved::KwExit),
    ("for FOR For", Reserved::KwFor),
    ("function FUNCTION Function", Reserved::KwFunction),
    ("generic GENERIC Generic", Reserved::KwGeneric),
    ("goto GOTO Goto", Reserved::KwGoto),
    ("if IF If", Reserved::KwIf),
    ("in IN In", Reserved::KwIn),
    ("interface INTERFACE Interface", Reserved::KwInterface),
    ("is IS Is", Reserved::KwIs),
    ("limited LIMITED Limited", Reserved::KwLimited),
    ("loop LOOP Loop", Reserved::KwLoop),
    ("mod MOD Mod", Reserved::KwMod),
    ("new NEW New", Reserved::KwNew),
    ("not NOT Not", Reserved::KwNot),
    ("null NULL Null", Reserved::KwNull),
    ("of OF Of", Reserved::KwOf),
    ("or OR Or", Reserved::KwOr),
    ("others OTHERS Others", Reserved::KwOthers),
    ("out OUT Out", Reserved::KwOut),
    ("overriding OVERRIDING Overriding", Reserved::KwOverriding),
    ("package PACKAGE Package", Reserved::KwPackage),
    ("pragma PRAGMA Pragma", Reserved::KwPragma),
    ("private PRIVATE Private", Reserved::KwPrivate),
    ("procedure PROCEDURE Procedure", Reserved::KwProcedure),
    ("protected PROTECTED Protected", Reserved::KwProtected),
    ("raise RAISE Raise", Reserved::KwRaise),
    ("range RANGE Range", Reserved::KwRange),
    ("record RECORD Record", Reserved::KwRecord),
    ("rem REM Rem", Reserved::KwRem),
    ("renames RENAMES Renames", Reserved::KwRenames),
    ("requeue REQUEUE Requeue", Reserved::KwRequeue),
    ("return RETURN Return", Reserved::KwReturn),
    ("reverse REVERSE Reverse", Reserved::KwReverse),
    ("select SELECT Select", Reserved::KwSelect),
    ("separate SEPARATE Separate", Reserved::KwSeparate),
    ("some SOME Some", Reserved::KwSome),
    ("subtype SUBTYPE Subtype", Reserved::KwSubtype),
    (
        "synchronized SYNCHRONIZED Synchronized",
        Reserved::KwSynchronized,
    ),
    ("tagged TAGGED Tagged", Reserved::KwTagged),
    ("task TASK Task", Reserved::KwTask),
    ("terminate TERMINATE Terminate", Reserved::KwTerminate),
    ("then THEN Then", Reserved::KwThen),
    ("type TYPE Type", Reserved::KwType),
    ("until UNTIL Until", Reserved::KwUntil),
    ("use USE Use", Reserved::KwUse),
    ("when WHEN When", Reserved::KwWhen),
    ("while WHILE While", Reserved::KwWhile),
    ("with WITH With", Reserved::KwWith),
    ("xor XOR Xor", Reserved::KwXor),
];

#[test]
fn words(rt: HostRuntime) -> Result<(), Fail> {
    for row in &WORDS {
        let (text, reserved) = *row;
        let word = TokenKind::Word(reserved);
        let found = kinds(rt.alloc(), text)?;
        assert!(rt; found.as_slice() == [word, word, word].as_slice(), "{text}");
    }
    Ok(())
}
