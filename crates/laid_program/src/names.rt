//! What names are printed by.

use spark_base::Listed;
use type_table::TypeTable;
use typed_tree::Object;

/// The files, the types and the objects of a program: all that its reports are printed by.
pub struct Names {
    /// The names of its files.
    pub names: Vec<String>,
    /// Its types.
    pub table: TypeTable,
    /// Its objects.
    pub objects: Listed<Object>,
}

impl Drop for Names {
    fn drop(self) {
        let Self {
            names: _,
            table: _,
            objects: _,
        } = self;
    }
}
