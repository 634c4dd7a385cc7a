//! Questions about access types.
ghost use Rattle.std.specs.Prelude.{◌≡◌};
ghost use Rattle.flow_paths.specs.Objects.{is_borrowing, is_observing, is_anonymous, is_named_access, is_variable_access, designated_of};

use type_definitions::View;

/// Whether a type is an anonymous access-to-variable type.
pub fn is_borrowing(view: View) -> bool
    ensures { result ≡ is_borrowing view }
{
    match view {
        View::Access {
            constant,
            named,
            ..
        } => !named && !constant,
        _ => false,
    }
}

/// Whether a type is an anonymous access-to-constant type.
pub fn is_observing(view: View) -> bool
    ensures { result ≡ is_observing view }
{
    match view {
        View::Access {
            constant,
            named,
            ..
        } => !named && constant,
        _ => false,
    }
}

/// Whether a type is an anonymous access type.
pub fn is_anonymous(view: View) -> bool
    ensures { result ≡ is_anonymous view }
{
    is_borrowing(view) || is_observing(view)
}

/// Whether a type is a named access-to-variable type.
pub fn is_named_access(view: View) -> bool
    ensures { result ≡ is_named_access view }
{
    match view {
        View::Access {
            constant,
            named,
            ..
        } => named && !constant,
        _ => false,
    }
}

/// Whether a type is an access-to-variable type, named or anonymous.
pub fn is_variable_access(view: View) -> bool
    ensures { result ≡ is_variable_access view }
{
    match view {
        View::Access { constant, .. } => !constant,
        _ => false,
    }
}

/// What the type with this number and view designates. A type that is no access type gives itself.
pub fn designated_of(t: u32, view: View) -> u32
    ensures { result ≡ designated_of t view }
{
    match view {
        View::Access { designated, .. } => designated,
        _ => t,
    }
}
