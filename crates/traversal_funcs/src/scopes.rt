//! Which scope encloses which.
ghost use Rattle.std.specs.Prelude.{◌≡◌};
ghost use Rattle.flow_paths.specs.Views.{encloses};
ghost use Rattle.traversal_funcs.specs.Scopes.{around};

/// The scope around a scope, which is its own number where there is none.
fn around(scopes: &[u32], b: u32) -> u32
    ensures { result ≡ around scopes.now b }
{
    match scopes.get(b as usize) {
        Some(outer) => *outer,
        None => b,
    }
}

/// Whether a scope encloses another one, or is that one.
pub(crate) fn encloses(scopes: &[u32], a: u32, b: u32) -> bool
    ensures { result ≡ encloses scopes.now a b }
{
    let mut at = b;
    let mut steps = scopes.len();
    'outwards: while at != a && steps > 0 {
        let outer = around(scopes, at);
        if outer == at {
            return false;
        }
        at = outer;
        steps -= 1;
    }
    at == a
}
