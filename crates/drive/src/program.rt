//! The program.
ghost use Rattle.std.specs.Prelude.{◌≡◌, ◌≢◌, ◌⊎◌, ◌≤◌, ℕ, List, false, map, string_bytes};
ghost use Rattle.w_outside.specs.Outside.{Grew, Rose};
ghost use Rattle.words.specs.Line.{line_of};
ghost use Rattle.words.specs.Request.{IsWithinSteps, taken_by};
ghost use Rattle.words.specs.declared.request.Action.TheVariants.{Run as RunFor};
ghost use Rattle.s_generate.specs.Generated.{generated as generated_script};
ghost use Rattle.replies.specs.Answer.{ActionGives, Answer, HasStatus, generated_steps};
ghost use Rattle.runs.specs.Delivery.{Answers, Answered, Stopped, MayFail, Replies};
ghost use Rattle.intake.specs.Intake.{IsInputOf, IsShort};
ghost use Rattle.runs.specs.Leaving.{Leaves};

use crate::finishing::{Process, finish};
use crate::linking::run_files;
use crate::scripts::act_on_script;
use intake::{Input, judge_text, open};
use replies::{Output, Status, Stop, refuse};
use runs::deliver;
use s_generate::generate;
use std::alloc::Global;
use traces::audit;
use w_outside::{Fault, Inputs, Sink};
use words::{Action, Request, WordsFault, request_of};

/// How many steps a generated script is run for.
const GENERATED_STEPS: u64 = 10_000_000_000;

static USAGE: &[u8] =
    b"usage: stackwasm check FILE | run FILE [--steps N] [--stats] | build FILE | gen N | dump FILE | asm FILE | link FILE.. [--steps N] [--stats] | trace FILE [--steps N] | audit FILE TRACE [--steps N]\n";

/// Does with a script, a text or a module what is asked for. What a run prints goes to out; the answer is what is left to write. What is not
/// used any more is let go where the process goes on.
pub(crate) fn act<O: Sink>(
    alloc: Global,
    action: Action,
    input: Input,
    process: Process,
    out: &mut O,
) -> Result<Output, Stop>
    requires steps { IsWithinSteps action }
    requires bytes { (b : List ℕ) × IsInputOf (taken_by action) input b }
    requires short { IsShort input }
    ensures leaves { (b : List ℕ) → IsInputOf (taken_by action) input b → Leaves (ActionGives action b) result
        (Grew (O.held out.old) (O.held out.new)) (Rose (O.faults out.old) (O.faults out.new)) }
    ensures later { O.faults out.old ≤ O.faults out.new }
{
    match input {
        Input::Script(bytes) => act_on_script(alloc, action, bytes.as_slice(), out),
        Input::Text(bytes) => {
            let checked = judge_text(alloc, bytes.as_slice())?;
            drop(bytes);
            finish(alloc, action, checked, process, out)
        }
        Input::Module(module) => {
            let checked = module.judge(alloc)?;
            finish(alloc, action, checked, process, out)
        }
    }
}

// Runs the script that is generated for this number. What a run prints goes to out; the answer is what is left to write.
fn run_generated<O: Sink>(alloc: Global, number: u32, out: &mut O) -> Result<Output, Stop>
    ensures leaves { Leaves (ActionGives (RunFor generated_steps false) (generated_script number)) result
        (Grew (O.held out.old) (O.held out.new)) (Rose (O.faults out.old) (O.faults out.new)) }
    ensures later { O.faults out.old ≤ O.faults out.new }
{
    let bytes = generate(alloc, number)?;
    let action = Action::Run {
        steps: GENERATED_STEPS,
        stats: false,
    };
    let input = Input::of_bytes(alloc, action.takes(), bytes)?;
    act(alloc, action, input, Process::Ends, out)
}

// The answer to the words. What a run prints goes to out; the answer is what is left to write.
fn answer<F: Inputs, O: Sink>(
    alloc: Global,
    words: &[String],
    files: &mut F,
    out: &mut O,
) -> Result<Output, Stop>
    ensures leaves { Leaves (MayFail (Rose (F.faults files.old) (F.faults files.new))
        (Answer (line_of (map string_bytes words.now)) (F.file files.old))) result
        (Grew (O.held out.old) (O.held out.new)) (Rose (O.faults out.old) (O.faults out.new)) }
    ensures later { (F.faults files.old ≤ F.faults files.new) × (O.faults out.old ≤ O.faults out.new) }
    ensures names { (n : List ℕ) → F.file files.new n ≡ F.file files.old n }
{
    match request_of(alloc, words) {
        Ok(Request::OnFile { file, action }) => {
            let input = open(alloc, files, file, action.takes())?;
            act(alloc, action, input, Process::Ends, out)
        }
        Ok(
            Request::OnFiles {
                files: names,
                steps,
                stats,
            },
        ) => run_files(alloc, files, names.as_slice(), steps, stats, out),
        Ok(Request::Audited { file, trace, steps }) => audit(alloc, files, file, trace, steps),
        Ok(Request::Generated(number)) => run_generated(alloc, number, out),
        Err(WordsFault::Bad) => Err(refuse(alloc, USAGE, Status::Usage)),
        Err(WordsFault::OutOfMemory) => Err(Stop::OutOfMemory),
    }
}

// Answers the words.
fn respond<F: Inputs, O: Sink, E: Sink>(
    alloc: Global,
    words: &[String],
    files: &mut F,
    out: &mut O,
    err: &mut E,
) -> Result<Status, Fault>
    ensures replies { Replies (MayFail (Rose (F.faults files.old) (F.faults files.new))
        (Answer (line_of (map string_bytes words.now)) (F.file files.old))) result
        (Grew (O.held out.old) (O.held out.new)) (Grew (E.held err.old) (E.held err.new))
        (Rose (O.faults out.old) (O.faults out.new) ⊎ Rose (E.faults err.old) (E.faults err.new)) }
    ensures names { (n : List ℕ) → F.file files.new n ≡ F.file files.old n }
    ensures later { (F.faults files.old ≤ F.faults files.new) × (O.faults out.old ≤ O.faults out.new)
        × (E.faults err.old ≤ E.faults err.new) }
{
    let left = answer(alloc, words, files, out);
    deliver(left, out, err)
}

/// The program: does what the words ask for with the files, and says how it ended.
pub fn command<F: Inputs, O: Sink, E: Sink>(
    alloc: Global,
    words: &[String],
    files: &mut F,
    out: &mut O,
    err: &mut E,
) -> Status
    // With any status but a write fault and want of memory, the answer to the words was written, or where reading
    // failed the line `read fault`, and the status is its own.
    ensures answered { Answered result (MayFail (Rose (F.faults files.old) (F.faults files.new))
        (Answer (line_of (map string_bytes words.now)) (F.file files.old)))
        (Grew (O.held out.old) (O.held out.new)) (Grew (E.held err.old) (E.held err.new)) }
    // With these two, a first part of that, and nothing more.
    ensures stopped { Stopped result (MayFail (Rose (F.faults files.old) (F.faults files.new))
        (Answer (line_of (map string_bytes words.now)) (F.file files.old)))
        (Grew (O.held out.old) (O.held out.new)) (Grew (E.held err.old) (E.held err.new)) }
    // A write fault comes only where a sink counted one.
    ensures write_fault { result ≡ Status.WriteFault
        → Rose (O.faults out.old) (O.faults out.new) ⊎ Rose (E.faults err.old) (E.faults err.new) }
    // A read fault comes only where the files counted one, or where it is the answer, for a file that isn't there.
    ensures read_fault { result ≡ Status.ReadFault → Rose (F.faults files.old) (F.faults files.new)
        ⊎ HasStatus (line_of (map string_bytes words.now)) (F.file files.old) 6 }
    // Where nothing failed, the answer was written, unless memory ran out.
    ensures complete { ¬ (Rose (F.faults files.old) (F.faults files.new))
        → ¬ (Rose (O.faults out.old) (O.faults out.new))
        → ¬ (Rose (E.faults err.old) (E.faults err.new)) → result ≢ Status.OutOfMemory
        → Answers (Answer (line_of (map string_bytes words.now)) (F.file files.old)) result
        (Grew (O.held out.old) (O.held out.new)) (Grew (E.held err.old) (E.held err.new)) }
    // No file changes, and no count falls.
    ensures names { (n : List ℕ) → F.file files.new n ≡ F.file files.old n }
    ensures later { (F.faults files.old ≤ F.faults files.new) × (O.faults out.old ≤ O.faults out.new)
        × (E.faults err.old ≤ E.faults err.new) }
{
    match respond(alloc, words, files, out, err) {
        Ok(status) => status,
        Err(Fault::Failed) => Status::WriteFault,
        Err(Fault::OutOfMemory) => Status::OutOfMemory,
    }
}
