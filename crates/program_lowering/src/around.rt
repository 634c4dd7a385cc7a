//! What the points of a subprogram are lowered by.
ghost use Rattle.std.specs.Prelude.{◌≡◌};

use run_lowering::Site;
use typed_tree::TypedRows;

/// What the expressions of a point are lowered by, the code of the program, and of the subprogram:
/// the type of its result, the number of its first point, how many points it has, and whether it
/// declares the objects of packages.
pub(crate) struct Around<'p> {
    pub(crate) site: Site<'p>,
    pub(crate) code: &'p TypedRows,
    pub(crate) result: Option<u32>,
    pub(crate) first: u32,
    pub(crate) count: usize,
    pub(crate) is_first: bool,
    ghost same_code: { code.now ≡ site.rows.now },
}

impl Drop for Around<'_> {
    fn drop(self) {
        let Self {
            site,
            code: _,
            result: _,
            first: _,
            count: _,
            is_first: _,
        } = self;
        let Site {
            typing: _,
            alloc: _,
            rows: _,
            own: _,
            package_objects: _,
            own_offsets: _,
            package_offsets: _,
            takes: _,
            starts: _,
        } = site;
    }
}
