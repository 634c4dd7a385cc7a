//! Declarations as later stages see them.
ghost use Rattle.std.specs.Prelude.{◌≡◌, ◌-◌, IfOk, IfErr, map};
ghost use Rattle.name_events.specs.Denotes.{kind_of};
ghost use Rattle.name_resolve.specs.declared.refusal.NameRefusal.TheVariants.{Memory};
ghost use Rattle.name_resolve.specs.Infos.{info};

use crate::entry_index::PREDEFINED_COUNT;
use crate::refusal::{NameRefusal, narrowed};
use name_events::{DeclInfo, DeclKind, Declaration, DeclarationForm};
use std::alloc::Global;

/// How many regions within Ada have no number of their own.
const UNNUMBERED_REGIONS: usize = 3;

/// What a form declares, as later stages see it.
fn kind_of(form: DeclarationForm) -> DeclKind
    ensures { result ≡ kind_of form }
{
    match form {
        DeclarationForm::Package => DeclKind::Package,
        DeclarationForm::Generic => DeclKind::Predefined,
        DeclarationForm::IncompleteType
        | DeclarationForm::PrivateType
        | DeclarationForm::FullType
        | DeclarationForm::Subtype => DeclKind::TypeName,
        DeclarationForm::Literal => DeclKind::Literal,
        DeclarationForm::Object => DeclKind::Object,
        DeclarationForm::Formal => DeclKind::Formal,
        DeclarationForm::LoopParameter => DeclKind::Parameter,
        DeclarationForm::SubprogramDeclaration
        | DeclarationForm::ProcedureBody
        | DeclarationForm::FunctionBody => DeclKind::Subprogram,
        DeclarationForm::Instance => DeclKind::Instance,
    }
}

/// A declaration as later stages see it.
fn info(declaration: Declaration) -> Result<DeclInfo, NameRefusal>
    ensures ok { IfOk result (λ made. made ≡ info declaration) }
    ensures memory { IfErr result (λ refusal. refusal ≡ Memory) }
{
    let region = narrowed(declaration.region.saturating_sub(UNNUMBERED_REGIONS))?;
    let pos = declaration.pos;
    if declaration.number < PREDEFINED_COUNT {
        let kind = DeclKind::Predefined;
        return Ok(DeclInfo { pos, kind, region });
    }
    let kind = kind_of(declaration.form);
    Ok(DeclInfo { pos, kind, region })
}

/// Declarations as later stages see them.
pub fn infos(alloc: Global, declarations: &[Declaration]) -> Result<Vec<DeclInfo>, NameRefusal>
    ensures ok { IfOk result (λ made. made.items ≡ map info declarations.now) }
    ensures memory { IfErr result (λ refusal. refusal ≡ Memory) }
{
    let mut made = Vec::new(alloc);
    'turns: for declaration in declarations {
        made.push(info(*declaration)?)?;
    }
    Ok(made)
}
