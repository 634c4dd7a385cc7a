//! Writes an answer.
ghost use Rattle.std.specs.Prelude.{◌≡◌, ◌≢◌, ◌⊎◌, ◌≤◌, Err, IfOk, OnOk, OnErr};
ghost use Rattle.std.specs.Io.KnownBytes.{Appends, Keeps};
ghost use Rattle.spark_base.specs.Outside.{Rose, AppendsPrefix};
ghost use Rattle.answered_runs.specs.run_command.Answers.{Tells, TellsFront};
ghost use Rattle.spark_tool.specs.Answers.{answer_of};

use crate::answer::{Answer, Stream};
use crate::stop::Stop;
use spark_base::{Sink, SinkFault};

/// Appends a text, whole, if it has any byte.
fn write_text<K: Sink>(sink: &mut K, text: &[u8]) -> Result<(), Stop>
    ensures ok { OnOk result (Appends (K.written sink.old) (K.written sink.new) text.now) }
    ensures front { OnErr result (AppendsPrefix (K.written sink.old) (K.written sink.new) text.now) }
    ensures memory { result ≡ Err Stop.Memory → Keeps (K.written sink.old) (K.written sink.new) }
    ensures fault { result ≡ Err Stop.Write → Rose (K.faults sink.old) (K.faults sink.new) }
    ensures no_fault { result ≢ Err Stop.Write → K.faults sink.new ≡ K.faults sink.old }
    ensures no_read { result ≢ Err Stop.Read }
{
    if text.is_empty() {
        return Ok(());
    }
    match sink.write(text) {
        Ok(()) => Ok(()),
        Err(SinkFault::Failed) => Err(Stop::Write),
        Err(SinkFault::Memory) => Err(Stop::Memory),
    }
}

/// Writes an answer to its output; the other one stays as it was.
pub(crate) fn deliver<K: Sink>(answer: &Answer, out: &mut K, err: &mut K) -> Result<(), Stop>
    ensures out { OnOk result (Appends (K.written out.old) (K.written out.new) (answer_of answer.now).out) }
    ensures err { OnOk result (Appends (K.written err.old) (K.written err.new) (answer_of answer.now).err) }
    ensures front_of_out { OnErr result (AppendsPrefix (K.written out.old) (K.written out.new) (answer_of answer.now).out) }
    ensures front_of_err { OnErr result (AppendsPrefix (K.written err.old) (K.written err.new) (answer_of answer.now).err) }
    ensures memory { result ≡ Err Stop.Memory → Keeps (K.written out.old) (K.written out.new) × Keeps (K.written err.old) (K.written err.new) }
    ensures fault { result ≡ Err Stop.Write → Rose (K.faults out.old) (K.faults out.new) ⊎ Rose (K.faults err.old) (K.faults err.new) }
    ensures no_fault { result ≢ Err Stop.Write → (K.faults out.new ≡ K.faults out.old) × (K.faults err.new ≡ K.faults err.old) }
    ensures no_read { result ≢ Err Stop.Read }
{
    match answer.stream {
        Stream::Out => write_text(out, &answer.text),
        Stream::Err => write_text(err, &answer.text),
    }
}

/// Writes an answer, and gives its status.
pub(crate) fn write_answer<K: Sink>(answer: &Answer, out: &mut K, err: &mut K) -> Result<u8, Stop>
    ensures told { IfOk result (Tells (answer_of answer.now) (K.written out.old) (K.written out.new) (K.written err.old) (K.written err.new)) }
    ensures status { IfOk result (λ status. status ≡ answer.now.status) }
    ensures front { OnErr result (TellsFront (answer_of answer.now) (K.written out.old) (K.written out.new) (K.written err.old) (K.written err.new)) }
    ensures memory { result ≡ Err Stop.Memory → Keeps (K.written out.old) (K.written out.new) × Keeps (K.written err.old) (K.written err.new) }
    ensures fault { result ≡ Err Stop.Write → Rose (K.faults out.old) (K.faults out.new) ⊎ Rose (K.faults err.old) (K.faults err.new) }
    ensures no_fault { result ≢ Err Stop.Write → (K.faults out.new ≡ K.faults out.old) × (K.faults err.new ≡ K.faults err.old) }
    ensures no_read { result ≢ Err Stop.Read }
{
    deliver(answer, out, err)?;
    Ok(answer.status)
}
