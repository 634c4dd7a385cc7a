//! Objects of the frame, and the expressions of a point.
ghost use Rattle.std.specs.Prelude.{◌≡◌, ◌+◌, ◌<◌, IfSome, IsTrue, Some, length, map};
ghost use Rattle.flow_paths.specs.Names.{waiting};
ghost use Rattle.machine.specs.Evaluate.{AsValue};
ghost use Rattle.run_codes.specs.Lowered.{lowered, place, value};
ghost use Rattle.run_codes.specs.Programs.{is_loop, own_offset, own_loop, type_of, use_for};
ghost use Rattle.run_lowering.specs.Offsets.{kept_in};
ghost use Rattle.run_lowering.specs.Sites.{site, use_of};
ghost use Rattle.run_lowering.specs.Found.{placed, is_there, lowered_in};
ghost use Rattle.code_rows.specs.Values.{fill_at};
ghost use Rattle.code_rows.specs.Points.{AreSound, RowsGrew};
ghost use Rattle.program_lowering.specs.Arounds.{around, known, tree, actuals_in, texts_in};

use crate::around::Around;
use code_rows::Rows;
use program_typing::is_anonymous;
use run_lowering::{Filled, Found, Kept, Typed};

/// Whether the first room of an object is that of the parameter of a loop.
fn is_loop(kept: &[Kept], x: u32) -> bool
    ensures { result ≡ is_loop x (map kept_in kept.now) }
{
    'kept: for one in kept {
        if one.object == x {
            return one.loops;
        }
    }
    false
}

impl<'p> Around<'p> {
    /// The offset of an object that the subprogram itself declares.
    pub(crate) fn own_offset(&self, x: u32) -> Option<u32>
        ensures { IfSome result (λ at. own_offset (around self.now) x ≡ Some at) }
    {
        if self.site.typing.is_package_object(x) != self.is_first {
            return None;
        }
        self.site.own_offset(x)
    }

    /// The same of the parameter of a loop.
    pub(crate) fn own_loop(&self, x: u32) -> Option<u32>
        ensures { IfSome result (λ at. own_loop (around self.now) x ≡ Some at) }
    {
        if !is_loop(self.site.own, x) {
            return None;
        }
        self.own_offset(x)
    }

    /// The type of an object.
    pub(crate) fn type_of(&self, x: u32) -> u32
        ensures { result ≡ type_of (around self.now) x }
    {
        self.site.typing.object_type(x)
    }

    // ---- expressions

    /// An expression that only reads, where so many values are taken before.
    #[tactic(auto, using(crate::proofs::Rows::nodes_more, crate::proofs::Rows::nodes_sound, crate::proofs::Rows::nodes_actuals, crate::proofs::Rows::nodes_texts))]
    pub(crate) fn word(&self, rows: &mut Rows, k: usize, n: usize) -> Option<Typed>
        requires { AreSound rows.old }
        ensures word { IfSome result (λ t. lowered (site self.now.site) k AsValue (tree self.now n) ≡ Some (lowered_in rows.new.nodes t)) }
        ensures there { IfSome result (λ t. t.node < length rows.new.nodes) }
        ensures taken { IfSome result (λ t. t.taken ≡ k + waiting (tree self.now n)) }
        ensures grew { IfSome result (λ t. RowsGrew rows.old rows.new) }
        ensures sound { IfSome result (λ t. AreSound rows.new) }
        ensures actuals { IfSome result (λ t. actuals_in rows.new ≡ actuals_in rows.old) }
        ensures texts { IfSome result (λ t. texts_in rows.new ≡ texts_in rows.old) }
    {
        self.site.word(&mut rows.nodes, k, n, false)
    }

    /// The place of a name, where so many values are taken before.
    #[tactic(auto, using(crate::proofs::Rows::nodes_more, crate::proofs::Rows::nodes_sound, crate::proofs::Rows::nodes_actuals, crate::proofs::Rows::nodes_texts))]
    pub(crate) fn place(&self, rows: &mut Rows, k: usize, n: usize) -> Option<Found>
        requires { AreSound rows.old }
        ensures place { IfSome result (λ f. place (site self.now.site) k (tree self.now n) ≡ Some (placed rows.new.nodes f)) }
        ensures there { IfSome result (λ f. IsTrue (is_there rows.new.nodes f)) }
        ensures taken { IfSome result (λ f. f.taken ≡ k + waiting (tree self.now n)) }
        ensures grew { IfSome result (λ f. RowsGrew rows.old rows.new) }
        ensures sound { IfSome result (λ f. AreSound rows.new) }
        ensures actuals { IfSome result (λ f. actuals_in rows.new ≡ actuals_in rows.old) }
        ensures texts { IfSome result (λ f. texts_in rows.new ≡ texts_in rows.old) }
    {
        self.site.place(&mut rows.nodes, k, n)
    }

    /// A value that a place of a type takes, where so many values are taken before.
    #[tactic(auto, using(crate::proofs::Rows::parts_grew, crate::proofs::Rows::parts_sound, crate::proofs::Rows::parts_actuals, crate::proofs::Rows::parts_texts, code_rows::proofs::Kept::sound_within))]
    pub(crate) fn value(
        &self,
        rows: &mut Rows,
        k: usize,
        n: usize,
        want: u32,
        looked_at: bool,
    ) -> Option<Filled>
        requires { AreSound rows.old }
        ensures value { IfSome result (λ v. value (site self.now.site) k (use_of looked_at) want (tree self.now n) ≡ Some (fill_at rows.new.nodes rows.new.fills v.fill)) }
        ensures there { IfSome result (λ v. v.fill < length rows.new.fills) }
        ensures taken { IfSome result (λ v. v.taken ≡ k + waiting (tree self.now n)) }
        ensures grew { IfSome result (λ v. RowsGrew rows.old rows.new) }
        ensures sound { IfSome result (λ v. AreSound rows.new) }
        ensures actuals { IfSome result (λ v. actuals_in rows.new ≡ actuals_in rows.old) }
        ensures texts { IfSome result (λ v. texts_in rows.new ≡ texts_in rows.old) }
    {
        self.site
            .value(&mut rows.nodes, &mut rows.fills, k, n, want, looked_at)
    }

    /// Whether values of a type are looked at.
    pub(crate) fn is_looked_at(&self, of: u32) -> bool
        ensures { use_of result ≡ use_for (known self.now).table of }
    {
        is_anonymous(self.site.typing.full(of))
    }
}
