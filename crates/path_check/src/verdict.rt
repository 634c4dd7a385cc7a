//! The verdict on a program.

use crate::accepted::AcceptedProgram;
use flow_paths::Report;
use laid_program::Names;
use spark_base::Listed;

/// Whether a program is accepted.
#[derive(Drop)]
pub enum Verdict {
    /// It has no reports.
    Accepted(AcceptedProgram),
    /// It has these reports, in order, and is printed by these names.
    Rejected {
        names: Names,
        reports: Listed<Report>,
    },
}
