//! The call that the program makes.
ghost use Rattle.std.specs.Prelude.{◌≡◌, ◌≢◌, ◌<◌, ◌⊎◌, ℕ, List, true, false, Err, IfOk, OnOk, OnErr, IfSome, IsSomeAnd, IsTrue, None, [], ◌∷◌, map, string_bytes};
ghost use Rattle.std.specs.Io.KnownBytes.{IsAtEnd, Keeps};
ghost use Rattle.spark_base.specs.Lists.{Has};
ghost use Rattle.spark_base.specs.Outside.{Rose};
ghost use Rattle.slot_heap.specs.Heaps.{no_heap};
ghost use Rattle.answered_runs.specs.run_command.Answers.{Grows, Tells, TellsFront};
ghost use Rattle.answered_runs.specs.tool_answers.Commands.{command_of, reads_files, runs, uses_store};
ghost use Rattle.answered_runs.specs.tool_answers.Product.{Product, fixed_answer, unread};
ghost use Rattle.spark_tool.specs.Promises.{IsStatus, IsRegular, IsUnrun, HasInput, Delivers, DeliversFront, DeliversNoMore, Leaves};
ghost use Rattle.spark_tool.specs.Refusals.{Gives, IsFor, IsMade, IsReady, MakesFor};

use crate::answer::usage_answer;
use crate::command::command_outcome;
use crate::deliver::write_answer;
use crate::finding::Outcome;
use crate::start::{start, test};
use crate::stop::Stop;
use command_words::{WordFault, read_words};
use slot_heap::Store;
use spark_base::{FileStore, Sink, Source};
use std::alloc::Global;

/// What the words ask for, before anything is written and before anything is run.
fn words_outcome<F: FileStore>(
    alloc: Global,
    words: &[String],
    files: &mut F,
) -> Result<Outcome, Stop>
    requires { F.words files.old ≡ map string_bytes words.now }
    ensures gives { IfOk result (λ made. IfSome (F.stored files.old)
        (λ stored. Gives stored (command_of (map string_bytes words.now)) made)) }
    ensures makes { IfOk result (λ made. IfSome (F.stored files.old) (λ stored. MakesFor stored (command_of (map string_bytes words.now)) made)) }
    ensures fixed { IfOk result (λ made. IfSome (fixed_answer (command_of (map string_bytes words.now))) (λ told. IsMade told made)) }
    ensures ready { IfOk result IsReady }
    ensures only { IfOk result (IsFor (command_of (map string_bytes words.now))) }
    ensures fault { result ≡ Err Stop.Read → Rose (F.faults files.old) (F.faults files.new)
        ⊎ IsSomeAnd (F.stored files.old) (λ stored. (bytes : List ℕ) → Product stored bytes (map string_bytes words.now) unread) }
    ensures reads { result ≡ Err Stop.Read → IsTrue (reads_files (command_of (map string_bytes words.now))) }
    ensures no_fault { result ≢ Err Stop.Read → F.faults files.new ≡ F.faults files.old }
    ensures nothing_written { result ≢ Err Stop.Write }
{
    match read_words(alloc, words) {
        Ok(command) => command_outcome(alloc, &command, files),
        Err(WordFault::Usage) => Ok(Outcome::Answers(usage_answer(alloc)?)),
        Err(WordFault::Memory) => Err(Stop::Memory),
    }
}

/// Writes the answer or runs the program, or says why nothing is answered.
fn carry_out<F: FileStore, S: Source, R: Store, K: Sink>(
    alloc: Global,
    words: &[String],
    files: &mut F,
    input: &mut S,
    store: &mut R,
    out: &mut K,
    err: &mut K,
) -> Result<u8, Stop>
    requires files { F.words files.old ≡ map string_bytes words.now }
    requires store { R.Means store.old no_heap }
    ensures answered { IfOk result (λ status. IfSome (F.stored files.old)
        (λ stored. (bytes : List ℕ) → HasInput (runs (command_of (map string_bytes words.now))) (S.left input.old) bytes
        → Delivers stored bytes (map string_bytes words.now)
        (K.written out.old) (K.written out.new) (K.written err.old) (K.written err.new) status)) }
    ensures fixed { IfOk result (λ status. IfSome (fixed_answer (command_of (map string_bytes words.now)))
        (λ told. Tells told (K.written out.old) (K.written out.new) (K.written err.old) (K.written err.new) status)) }
    ensures usage { IfOk result (λ status. status ≡ 6 → command_of (map string_bytes words.now) ≡ None) }
    ensures regular { IfOk result IsRegular }
    ensures unrun { IfOk result (λ status. IsUnrun status → Keeps (K.written out.old) (K.written out.new)) }
    ensures silent { runs (command_of (map string_bytes words.now)) ≡ false
        → IfOk result (λ status. status ≢ 0 → Keeps (K.written out.old) (K.written out.new)) }
    ensures grows { Grows (K.written out.old) (K.written out.new) × Grows (K.written err.old) (K.written err.new) }
    ensures all_read { runs (command_of (map string_bytes words.now)) ≡ true
        → IfOk result (λ status. IsUnrun status ⊎ IfSome (S.left input.old) (λ bytes. IsAtEnd (S.left input.new))) }
    ensures input { runs (command_of (map string_bytes words.now)) ≡ false → input.new ≡ input.old }
    ensures early { IfOk result (λ status. Has (1 ∷ 2 ∷ 6 ∷ []) status → input.new ≡ input.old) }
    ensures left { IfOk result (λ status. IfSome (F.stored files.old)
        (λ stored. (bytes : List ℕ) → HasInput (runs (command_of (map string_bytes words.now))) (S.left input.old) bytes
        → Leaves stored bytes (map string_bytes words.now) (R.Means store.new))) }
    ensures unrun_store { IfOk result (λ status. IsUnrun status → store.new ≡ store.old) }
    ensures unread_store { result ≡ Err Stop.Read → store.new ≡ store.old }
    ensures idle_store { uses_store (command_of (map string_bytes words.now)) ≡ false → store.new ≡ store.old }
    ensures read { result ≡ Err Stop.Read → Rose (F.faults files.old) (F.faults files.new)
        ⊎ ((runs (command_of (map string_bytes words.now)) ≡ true) × Rose (S.faults input.old) (S.faults input.new))
        ⊎ IsSomeAnd (F.stored files.old) (λ stored. (bytes : List ℕ) → Product stored bytes (map string_bytes words.now) unread) }
    ensures reads { result ≡ Err Stop.Read → IsTrue (reads_files (command_of (map string_bytes words.now))) }
    ensures write { result ≡ Err Stop.Write → Rose (K.faults out.old) (K.faults out.new) ⊎ Rose (K.faults err.old) (K.faults err.new) }
    ensures front { result ≡ Err Stop.Write → IfSome (F.stored files.old)
        (λ stored. (bytes : List ℕ) → HasInput (runs (command_of (map string_bytes words.now))) (S.left input.old) bytes
        → DeliversFront stored bytes (map string_bytes words.now)
        (K.written out.old) (K.written out.new) (K.written err.old) (K.written err.new)) }
    ensures memory { result ≡ Err Stop.Memory → IfSome (F.stored files.old)
        (λ stored. (bytes : List ℕ) → HasInput (runs (command_of (map string_bytes words.now))) (S.left input.old) bytes
        → DeliversNoMore stored bytes (map string_bytes words.now)
        (K.written out.old) (K.written out.new) (K.written err.old) (K.written err.new)) }
    ensures fixed_front { result ≡ Err Stop.Write → IfSome (fixed_answer (command_of (map string_bytes words.now)))
        (λ told. TellsFront told (K.written out.old) (K.written out.new) (K.written err.old) (K.written err.new)) }
    ensures nothing { result ≡ Err Stop.Read → Keeps (K.written out.old) (K.written out.new) × Keeps (K.written err.old) (K.written err.new) }
    ensures nothing_unrun { result ≡ Err Stop.Memory → runs (command_of (map string_bytes words.now)) ≡ false
        → Keeps (K.written out.old) (K.written out.new) × Keeps (K.written err.old) (K.written err.new) }
    ensures no_read_fault { result ≢ Err Stop.Read → (F.faults files.new ≡ F.faults files.old) × (S.faults input.new ≡ S.faults input.old) }
    ensures no_write_fault { result ≢ Err Stop.Write → (K.faults out.new ≡ K.faults out.old) × (K.faults err.new ≡ K.faults err.old) }
{
    match words_outcome(alloc, words, files)? {
        Outcome::Answers(answer) => write_answer(&answer, out, err),
        Outcome::Runs(program, steps, stats) => {
            start(alloc, &program, steps, stats, input, store, out, err)
        }
        Outcome::Tests(program, number) => test(alloc, program, number, store, out, err),
    }
}

/// Runs the command that the words give (`docs/TOOL.md`). `check` reads the files that they name,
/// checks the sources, and writes the reports, a refusal or that there is nothing to report. `run`
/// does the same, and then runs the program on the input. `make` writes a program. The words are
/// those after the program's name. The cells of a run stand in the store, which has no live handle
/// and no slots before it. The answer is the status of the program.
pub fn run_tool<F: FileStore, S: Source, R: Store, K: Sink>(
    alloc: Global,
    words: &[String],
    files: &mut F,
    input: &mut S,
    store: &mut R,
    out: &mut K,
    err: &mut K,
) -> u8
    requires files { F.words files.old ≡ map string_bytes words.now }
    requires store { R.Means store.old no_heap }

    ensures status { IsStatus result }

    // All but 7, 8 and 9: both streams get the defined bytes, and the status is the defined one; of
    // a run where the input tells its bytes.
    ensures defined { IsRegular result → IfSome (F.stored files.old)
        (λ stored. (bytes : List ℕ) → HasInput (runs (command_of (map string_bytes words.now))) (S.left input.old) bytes
        → Delivers stored bytes (map string_bytes words.now)
        (K.written out.old) (K.written out.new) (K.written err.old) (K.written err.new) result) }

    // Where no count rose in the call, that is so of each status but 9, and 7 too is the defined
    // one.
    ensures complete { ¬ Rose (F.faults files.old) (F.faults files.new)
        → (runs (command_of (map string_bytes words.now)) ≡ true → ¬ Rose (S.faults input.old) (S.faults input.new))
        → ¬ Rose (K.faults out.old) (K.faults out.new) → ¬ Rose (K.faults err.old) (K.faults err.new)
        → result ≢ 9 → IfSome (F.stored files.old)
        (λ stored. (bytes : List ℕ) → HasInput (runs (command_of (map string_bytes words.now))) (S.left input.old) bytes
        → Delivers stored bytes (map string_bytes words.now)
        (K.written out.old) (K.written out.new) (K.written err.old) (K.written err.new) result) }

    // Where no file is read, that is so whatever the store tells: of the usage line and of a program
    // that is made.
    ensures fixed { IsRegular result → IfSome (fixed_answer (command_of (map string_bytes words.now)))
        (λ told. Tells told (K.written out.old) (K.written out.new) (K.written err.old) (K.written err.new) result) }

    // 6: only where the words give no command.
    ensures usage { result ≡ 6 → command_of (map string_bytes words.now) ≡ None }

    // 7: only with a command that reads files, and only where their count rose or a named file isn't
    // there, or with `run` where the count of the input rose. Nothing is written.
    ensures read_fault { result ≡ 7 → Rose (F.faults files.old) (F.faults files.new)
        ⊎ ((runs (command_of (map string_bytes words.now)) ≡ true) × Rose (S.faults input.old) (S.faults input.new))
        ⊎ IsSomeAnd (F.stored files.old) (λ stored. (bytes : List ℕ) → Product stored bytes (map string_bytes words.now) unread) }
    ensures reads { result ≡ 7 → IsTrue (reads_files (command_of (map string_bytes words.now))) }
    ensures nothing { result ≡ 7 → Keeps (K.written out.old) (K.written out.new) × Keeps (K.written err.old) (K.written err.new) }

    // 8: only where the count of an output rose. Both streams hold a front of the defined bytes, of a
    // run where the input tells its bytes; and where no file is read, whatever the store tells.
    ensures write_fault { result ≡ 8 → Rose (K.faults out.old) (K.faults out.new) ⊎ Rose (K.faults err.old) (K.faults err.new) }
    ensures front { result ≡ 8 → IfSome (F.stored files.old)
        (λ stored. (bytes : List ℕ) → HasInput (runs (command_of (map string_bytes words.now))) (S.left input.old) bytes
        → DeliversFront stored bytes (map string_bytes words.now)
        (K.written out.old) (K.written out.new) (K.written err.old) (K.written err.new)) }
    ensures fixed_front { result ≡ 8 → IfSome (fixed_answer (command_of (map string_bytes words.now)))
        (λ told. TellsFront told (K.written out.old) (K.written out.new) (K.written err.old) (K.written err.new)) }

    // 9: both streams hold a front of the bytes of whatever answer is defined. Where nothing is run,
    // nothing is written.
    ensures memory { result ≡ 9 → IfSome (F.stored files.old)
        (λ stored. (bytes : List ℕ) → HasInput (runs (command_of (map string_bytes words.now))) (S.left input.old) bytes
        → DeliversNoMore stored bytes (map string_bytes words.now)
        (K.written out.old) (K.written out.new) (K.written err.old) (K.written err.new)) }
    ensures nothing_unrun { result ≡ 9 → runs (command_of (map string_bytes words.now)) ≡ false
        → Keeps (K.written out.old) (K.written out.new) × Keeps (K.written err.old) (K.written err.new) }

    // Nothing goes to `out` with 1, 2, 6, 7 and 10, and but for `run` with 9. Bytes are only added.
    ensures unrun { IsUnrun result → Keeps (K.written out.old) (K.written out.new) }
    ensures silent { runs (command_of (map string_bytes words.now)) ≡ false → result ≢ 0 → result ≢ 8
        → Keeps (K.written out.old) (K.written out.new) }
    ensures grows { Grows (K.written out.old) (K.written out.new) × Grows (K.written err.old) (K.written err.new) }

    // A run has read the input to its end. Every other command leaves it as it was, and so does
    // `run` with 1, 2 and 6.
    ensures all_read { IsRegular result → runs (command_of (map string_bytes words.now)) ≡ true
        → IsUnrun result ⊎ IfSome (S.left input.old) (λ bytes. IsAtEnd (S.left input.new)) }
    ensures input { runs (command_of (map string_bytes words.now)) ≡ false → input.new ≡ input.old }
    ensures early { Has (1 ∷ 2 ∷ 6 ∷ []) result → input.new ≡ input.old }

    // The store has what the run leaves in it, where the input tells its bytes. Where nothing is run,
    // it stays as it was.
    ensures left { IsRegular result → IfSome (F.stored files.old)
        (λ stored. (bytes : List ℕ) → HasInput (runs (command_of (map string_bytes words.now))) (S.left input.old) bytes
        → Leaves stored bytes (map string_bytes words.now) (R.Means store.new)) }
    ensures unrun_store { IsUnrun result → store.new ≡ store.old }
    ensures idle_store { uses_store (command_of (map string_bytes words.now)) ≡ false → store.new ≡ store.old }

    // A count that isn't the cause of the answer stays.
    ensures no_read_fault { result ≢ 7 → (F.faults files.new ≡ F.faults files.old) × (S.faults input.new ≡ S.faults input.old) }
    ensures no_write_fault { result ≢ 8 → (K.faults out.new ≡ K.faults out.old) × (K.faults err.new ≡ K.faults err.old) }
{
    match carry_out(alloc, words, files, input, store, out, err) {
        Ok(status) => status,
        Err(stop) => stop.status(),
    }
}
