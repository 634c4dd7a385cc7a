//! What a declaration is.
ghost use Rattle.std.specs.Prelude.{◌≡◌, ◌||◌, ◌&&◌};
ghost use Rattle.name_events.specs.Declarations.{is_package, is_visible, is_type_form, is_generic_form, is_body_form, is_procedure_body, same_part};
ghost use Rattle.name_events.specs.Completions.{awaits, completes_form};
ghost use Rattle.name_resolve.specs.Tables.{is_completion};

use name_events::{Declaration, DeclarationForm, RegionPart};

/// Whether one of two is true.
pub fn either(a: bool, b: bool) -> bool
    ensures { result ≡ (a || b) }
{
    a || b
}

/// Whether both are true.
pub fn both(a: bool, b: bool) -> bool
    ensures { result ≡ (a && b) }
{
    a && b
}

/// Whether it is a package.
pub fn is_package(declaration: Declaration) -> bool
    ensures { result ≡ is_package declaration }
{
    match declaration.form {
        DeclarationForm::Package => true,
        _ => false,
    }
}

/// Whether it is a generic unit.
pub fn is_generic(form: DeclarationForm) -> bool
    ensures { result ≡ is_generic_form form }
{
    match form {
        DeclarationForm::Generic => true,
        _ => false,
    }
}

/// Whether it is a type or a subtype.
pub fn is_type(form: DeclarationForm) -> bool
    ensures { result ≡ is_type_form form }
{
    match form {
        DeclarationForm::IncompleteType
        | DeclarationForm::PrivateType
        | DeclarationForm::FullType
        | DeclarationForm::Subtype => true,
        _ => false,
    }
}

/// Whether it is a procedure with its body.
pub fn is_procedure_body(form: DeclarationForm) -> bool
    ensures { result ≡ is_procedure_body form }
{
    match form {
        DeclarationForm::ProcedureBody => true,
        _ => false,
    }
}

/// Whether it is a subprogram with its body.
pub fn is_body(form: DeclarationForm) -> bool
    ensures { result ≡ is_body_form form }
{
    match form {
        DeclarationForm::ProcedureBody | DeclarationForm::FunctionBody => true,
        _ => false,
    }
}

/// Whether it asks for a completion.
pub fn awaits(form: DeclarationForm) -> bool
    ensures { result ≡ awaits form }
{
    match form {
        DeclarationForm::IncompleteType
        | DeclarationForm::PrivateType
        | DeclarationForm::SubprogramDeclaration => true,
        _ => false,
    }
}

/// Whether one of this form may complete another.
pub fn is_completion(form: DeclarationForm) -> bool
    ensures { result ≡ is_completion form }
{
    match form {
        DeclarationForm::FullType
        | DeclarationForm::ProcedureBody
        | DeclarationForm::FunctionBody => true,
        _ => false,
    }
}

/// Whether two parts are the same.
pub fn same_part(a: RegionPart, b: RegionPart) -> bool
    ensures { result ≡ same_part a b }
{
    match (a, b) {
        (RegionPart::Visible, RegionPart::Visible)
        | (RegionPart::Private, RegionPart::Private)
        | (RegionPart::Body, RegionPart::Body) => true,
        _ => false,
    }
}

/// Whether it stands in a visible part.
pub fn is_visible(declaration: Declaration) -> bool
    ensures { result ≡ is_visible declaration }
{
    same_part(declaration.part, RegionPart::Visible)
}

/// Whether a declaration of the second form in the second part completes one of the first form in
/// the first part.
pub fn completes(
    old: DeclarationForm,
    old_part: RegionPart,
    new: DeclarationForm,
    new_part: RegionPart,
) -> bool
    ensures { result ≡ completes_form old old_part new new_part }
{
    match (old, new) {
        (DeclarationForm::IncompleteType, DeclarationForm::FullType) => same_part(
            old_part, new_part,
        ),
        (DeclarationForm::PrivateType, DeclarationForm::FullType) => {
            same_part(old_part, RegionPart::Visible) && same_part(new_part, RegionPart::Private)
        }
        (DeclarationForm::SubprogramDeclaration, DeclarationForm::ProcedureBody)
        | (DeclarationForm::SubprogramDeclaration, DeclarationForm::FunctionBody) => true,
        _ => false,
    }
}
