//! Bytes that go to a sink in pieces.
ghost use Rattle.std.specs.Prelude.{◌≡◌, ◌≢◌, ◌≤◌, Err, OnOk, OnErr, IfOk};
ghost use Rattle.std.specs.Io.KnownBytes.{Appends};
ghost use Rattle.spark_base.specs.Outside.{Rose, AppendsPrefix};
ghost use Rattle.run_results.specs.Pieces.{AppendsIf};

use crate::ran::ExecFault;
use spark_base::Sink;

/// Bytes are written once there are so many.
const PIECE: usize = 65_536;

/// Writes all of the bytes, which may be none. Where it fails, some of the front may be written.
pub fn write_all<K: Sink>(bytes: &[u8], sink: &mut K) -> Result<(), ExecFault>
    ensures written { OnOk result (Appends (K.written sink.old) (K.written sink.new) bytes.now) }
    ensures front { OnErr result (AppendsPrefix (K.written sink.old) (K.written sink.new) bytes.now) }
    ensures later { K.faults sink.old ≤ K.faults sink.new }
    ensures cause { result ≡ Err ExecFault.WriteFault → Rose (K.faults sink.old) (K.faults sink.new) }
    ensures no_fault { result ≢ Err ExecFault.WriteFault → K.faults sink.new ≡ K.faults sink.old }
{
    if !bytes.is_empty() {
        sink.write(bytes)?;
    }
    Ok(())
}

/// Writes the bytes once there are many, else none of them; and tells whether it did.
pub fn write_long<K: Sink>(bytes: &[u8], sink: &mut K) -> Result<bool, ExecFault>
    ensures written { IfOk result (λ done. AppendsIf done (K.written sink.old) (K.written sink.new) bytes.now) }
    ensures front { OnErr result (AppendsPrefix (K.written sink.old) (K.written sink.new) bytes.now) }
    ensures later { K.faults sink.old ≤ K.faults sink.new }
    ensures cause { result ≡ Err ExecFault.WriteFault → Rose (K.faults sink.old) (K.faults sink.new) }
    ensures no_fault { result ≢ Err ExecFault.WriteFault → K.faults sink.new ≡ K.faults sink.old }
{
    if bytes.len() < PIECE {
        return Ok(false);
    }
    write_all(bytes, sink)?;
    Ok(true)
}
