//! The positions and the codes of refusals.
ghost use Rattle.std.specs.Prelude.{◌≡◌};
ghost use Rattle.answered_runs.specs.tool_answers.Product as spec;
ghost use Rattle.spark_tool.specs.Refusals as refusals;

use crate::parsing::SourceRefusal;
use ada_lexer::LexRefusal;
use ada_parser::ParseRefusal;
use lay_out::LayRefusal;
use name_resolve::NameRefusal;
use program_check::ProgramRefusal;
use rule_reports::Code;
use spark_base::Pos;
use type_definitions::TypeRefusal;

/// The position and the code of a lexical fault, or nothing where it is out of memory.
fn lexical_code(fault: LexRefusal) -> Option<(Pos, Code)>
    ensures { result ≡ spec.lexical_code fault }
{
    match fault {
        LexRefusal::BadByte(pos) => Some((pos, Code::L1)),
        LexRefusal::BadIdentifier(pos) => Some((pos, Code::L2)),
        LexRefusal::BadNumber(pos) => Some((pos, Code::L3)),
        LexRefusal::OpenString(pos) => Some((pos, Code::L4)),
        LexRefusal::TooMany(pos) => Some((pos, Code::L5)),
        LexRefusal::Memory => None,
    }
}

/// Those of a token that the grammar refuses.
fn parse_code(refusal: ParseRefusal) -> Option<(Pos, Code)>
    ensures { result ≡ refusals.parse_code refusal }
{
    match refusal {
        ParseRefusal::Syntax(pos) => Some((pos, Code::P1)),
        ParseRefusal::TooDeep(pos) => Some((pos, Code::P2)),
        ParseRefusal::LeftOut(pos) => Some((pos, Code::P3)),
        ParseRefusal::Memory => None,
    }
}

/// Those of texts that have no trees.
pub(crate) fn source_code(refusal: SourceRefusal) -> Option<(Pos, Code)>
    ensures { result ≡ refusals.source_code refusal }
{
    match refusal {
        SourceRefusal::Lexical(fault) => lexical_code(fault),
        SourceRefusal::Syntactic(refusal) => parse_code(refusal),
    }
}

/// Those of a broken rule of names.
pub(crate) fn naming_code(refusal: NameRefusal) -> Option<(Pos, Code)>
    ensures { result ≡ refusals.naming_code refusal }
{
    match refusal {
        NameRefusal::Unknown(pos) => Some((pos, Code::N1)),
        NameRefusal::Twice(pos) => Some((pos, Code::N2)),
        NameRefusal::NotVisible(pos) => Some((pos, Code::N3)),
        NameRefusal::TooEarly(pos) => Some((pos, Code::N4)),
        NameRefusal::NoBody(pos) => Some((pos, Code::N5)),
        NameRefusal::WrongEnd(pos) => Some((pos, Code::N6)),
        NameRefusal::Memory => None,
    }
}

/// Those of a broken sentence on types.
fn type_code(refusal: TypeRefusal) -> Option<(Pos, Code)>
    ensures { result ≡ spec.type_code refusal }
{
    match refusal {
        TypeRefusal::TooLarge(pos) => Some((pos, Code::Y1)),
        TypeRefusal::TooManyParts(pos) => Some((pos, Code::Y2)),
        TypeRefusal::NoElements(pos) => Some((pos, Code::Y3)),
        TypeRefusal::WrongType(pos) => Some((pos, Code::K1)),
        TypeRefusal::NotVariable(pos) => Some((pos, Code::K2)),
        TypeRefusal::WrongProfile(pos) => Some((pos, Code::K3)),
        TypeRefusal::BadChoices(pos) => Some((pos, Code::K4)),
        TypeRefusal::OwningPlace(pos) => Some((pos, Code::K5)),
        TypeRefusal::AnonymousPlace(pos) => Some((pos, Code::K6)),
        TypeRefusal::NotStatic(pos) => Some((pos, Code::K7)),
        TypeRefusal::PackageValue(pos) => Some((pos, Code::K8)),
        TypeRefusal::Memory => None,
    }
}

/// Those of a limit that a program is beyond.
fn layout_code(refusal: LayRefusal) -> Option<(Pos, Code)>
    ensures { result ≡ refusals.layout_code refusal }
{
    match refusal {
        LayRefusal::NameTooDeep(pos) => Some((pos, Code::M1)),
        LayRefusal::TooManyPoints(pos) => Some((pos, Code::G1)),
        LayRefusal::TooManyFacts(pos) => Some((pos, Code::G2)),
        LayRefusal::Memory => None,
    }
}

/// Those of a program that isn't checked.
pub(crate) fn program_code(refusal: ProgramRefusal) -> Option<(Pos, Code)>
    ensures { result ≡ refusals.program_code refusal }
{
    match refusal {
        ProgramRefusal::Mistyped(refusal) => type_code(refusal),
        ProgramRefusal::Beyond(refusal) => layout_code(refusal),
        ProgramRefusal::Memory => None,
    }
}
