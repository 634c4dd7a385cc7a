//! Reads the input.
ghost use Rattle.std.specs.Prelude.{◌≡◌, ◌≢◌, ◌≤◌, Err, IfOk, IfSome, length};
ghost use Rattle.std.specs.Io.KnownBytes.{IsAtEnd};
ghost use Rattle.spark_base.specs.Outside.{Rose};
ghost use Rattle.run_command.specs.Inputs.{IsWithin};

use crate::fault::RunFault;
use spark_base::{INPUT_BYTES, Source};
use std::alloc::Global;

/// How many bytes are asked for at once.
const PIECE: usize = 16_384;

/// All bytes of a source, or nothing where it has more than a run may have. At most one byte past
/// the limit is taken.
pub fn read_input<S: Source>(alloc: Global, input: &mut S) -> Result<Option<Vec<u8>>, RunFault>
    ensures bytes { IfOk result (λ found. IfSome (S.left input.old) (λ bytes. IsWithin bytes INPUT_BYTES found)) }
    ensures within { IfOk result (λ found. IfSome found (λ text. length text.items ≤ INPUT_BYTES)) }
    ensures at_end { IfOk result (λ found. IfSome found (λ text. IfSome (S.left input.old) (λ bytes. IsAtEnd (S.left input.new)))) }
    ensures fault { result ≡ Err RunFault.Read → Rose (S.faults input.old) (S.faults input.new) }
    ensures no_fault { result ≢ Err RunFault.Read → S.faults input.new ≡ S.faults input.old }
    ensures nothing_written { result ≢ Err RunFault.Write }
{
    let mut text = Vec::new(alloc);
    let mut chunk = [0u8; PIECE];
    'pieces: while text.len() <= INPUT_BYTES {
        let wanted = PIECE.min(INPUT_BYTES + 1 - text.len());
        let piece = &mut chunk[..wanted];
        let Ok(count) = input.read(piece) else {
            return Err(RunFault::Read);
        };
        if count == 0 {
            return Ok(Some(text));
        }
        text.extend_from_slice(&piece[..count])?;
    }
    Ok(None)
}
