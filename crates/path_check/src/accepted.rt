//! Programs without reports.
ghost use Rattle.std.specs.Prelude.{◌≡◌, []};
ghost use Rattle.flow_paths.specs.Effects.{AreEffects};
ghost use Rattle.flow_paths.specs.Reports.{AreReports};
ghost use Rattle.laid_program.specs.Programs.{program_of};

use flow_paths::Effects;
use laid_program::Laid;

/// A program that is laid out and has no reports, with what its subprograms read and write. It has
/// its own `Drop`, so that owners needn't prove its fields' drops again.
pub struct AcceptedProgram {
    laid: Laid,
    effects: Effects,
    ghost are_effects: { ∥ AreEffects (program_of laid) effects ∥₁ },
    ghost accepted: { ∥ AreReports (program_of laid) effects [] ∥₁ },
}

impl Drop for AcceptedProgram {
    fn drop(self) {
        let Self {
            laid: _,
            effects: _,
        } = self;
    }
}

impl AcceptedProgram {
    /// A program that has no reports.
    pub(crate) fn new(laid: Laid, effects: Effects) -> AcceptedProgram
        requires are_effects { AreEffects (program_of laid) effects }
        requires accepted { AreReports (program_of laid) effects [] }
        ensures laid { result.laid ≡ laid }
        ensures effects { result.effects ≡ effects }
    {
        AcceptedProgram { laid, effects }
    }

    /// The program.
    pub fn laid(&self) -> &Laid
        ensures value { result.now ≡ self.now.laid }
        ensures accepted { ∥ AreReports (program_of result.now) self.now.effects [] ∥₁ }
    {
        &self.laid
    }

    /// What its subprograms read and write.
    pub fn effects(&self) -> &Effects
        ensures value { result.now ≡ self.now.effects }
        ensures are_effects { ∥ AreEffects (program_of self.now.laid) result.now ∥₁ }
    {
        &self.effects
    }
}
