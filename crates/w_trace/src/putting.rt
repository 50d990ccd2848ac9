//! Writing the lines of a trace.
ghost use Rattle.std.specs.Prelude.{◌≡◌, ◌+◌, ◌≤◌, ◌++◌, ◌∷◌, [], length, map, decimal, IsErrOf, OnErr, OnOk};
ghost use Rattle.arrayvec.specs.ArrayVec.{array_vec_len};
ghost use Rattle.w_outside.specs.Outside.{Grew, GrewByFront, HasCause};
ghost use Rattle.w_words.specs.Words.{behind_spaces};
ghost use Rattle.w_trace.specs.declared.line.Line.TheVariants as line;
ghost use Rattle.w_trace.specs.Endings.{trap_text, ending_text};
ghost use Rattle.w_trace.specs.Lines.{kind_name, kind_numbers, line_bytes};

use crate::ending_texts::{run_limit_text, trap_name};
use crate::event::{Event, EventKind};
use crate::trace::Ending;
use arrayvec::ArrayVec;
use itoa::Buffer;
use w_outside::{Fault, Sink, put};
use w_reduce::Trap;

// Room for the longest line, that of a switch: a number, a name and three more numbers.
const ROOM: usize = 96;

// The bytes of a line.
type LineText = ArrayVec<u8, ROOM>;

// Adds a text for which there is room.
fn add_text(line: &mut LineText, text: &str)
    requires { array_vec_len line.old + length text.now ≤ ROOM }
    ensures items { line.new.items ≡ line.old.items ++ text.now }
    ensures len { array_vec_len line.new ≡ array_vec_len line.old + length text.now }
{
    let Ok(()) = line.try_extend_from_slice(text.as_bytes()) else {
        unreachable!()
    };
}

// Adds a number, of twenty digits at most.
fn add_number(line: &mut LineText, number: u64)
    requires { array_vec_len line.old + 20 ≤ ROOM }
    ensures items { line.new.items ≡ line.old.items ++ decimal number }
    ensures len { array_vec_len line.new ≤ array_vec_len line.old + 20 }
{
    let mut buffer = Buffer::new();
    add_text(line, buffer.format(number));
}

// Adds a number behind a space.
fn add_number_word(line: &mut LineText, number: u64)
    requires { array_vec_len line.old + 21 ≤ ROOM }
    ensures items { line.new.items ≡ line.old.items ++ behind_spaces (decimal number ∷ []) }
    ensures len { array_vec_len line.new ≤ array_vec_len line.old + 21 }
{
    line.push(b' ');
    add_number(line, number);
}

// Adds what a reduction does with continuations: its name and its numbers, each behind a space.
fn add_kind(line: &mut LineText, kind: EventKind)
    requires { array_vec_len line.old + 70 ≤ ROOM }
    ensures items { line.new.items ≡ line.old.items ++ behind_spaces (kind_name kind ∷ map decimal (kind_numbers kind)) }
    ensures len { array_vec_len line.new ≤ array_vec_len line.old + 70 }
{
    match kind {
        EventKind::New(new) => {
            add_text(line, " new");
            add_number_word(line, new);
        }
        EventKind::Bind(old, new) => {
            add_text(line, " bind");
            add_number_word(line, old);
            add_number_word(line, new);
        }
        EventKind::Resume(old) => {
            add_text(line, " resume");
            add_number_word(line, old);
        }
        EventKind::Suspend(tag, new) => {
            add_text(line, " suspend");
            add_number_word(line, u64::from(tag));
            add_number_word(line, new);
        }
        EventKind::Switch(old, tag, new) => {
            add_text(line, " switch");
            add_number_word(line, old);
            add_number_word(line, u64::from(tag));
            add_number_word(line, new);
        }
        EventKind::Exit => add_text(line, " exit"),
    }
}

// The line of an event.
fn event_line(event: &Event) -> LineText
    ensures { result.items ≡ line_bytes (line.Event event.now) }
{
    let mut line = LineText::new();
    add_number(&mut line, event.step);
    add_kind(&mut line, event.kind);
    line.push(b'\n');
    line
}

// Adds a trap's text. The longest has the index of a tag behind its name.
fn add_trap(line: &mut LineText, trap: Trap)
    requires { array_vec_len line.old + 35 ≤ ROOM }
    ensures items { line.new.items ≡ line.old.items ++ trap_text trap }
    ensures len { array_vec_len line.new ≤ array_vec_len line.old + 35 }
{
    add_text(line, trap_name(trap));
    if let Trap::Unhandled(tag) = trap {
        add_number_word(line, u64::from(tag));
    }
}

// Adds how a run ends.
fn add_ending(line: &mut LineText, ending: Ending)
    requires { array_vec_len line.old + 35 ≤ ROOM }
    ensures items { line.new.items ≡ line.old.items ++ ending_text ending }
    ensures len { array_vec_len line.new ≤ array_vec_len line.old + 35 }
{
    match ending {
        Ending::Ended => add_text(line, "ended"),
        Ending::Trapped(trap) => add_trap(line, trap),
        Ending::Limit(name) => add_text(line, run_limit_text(name)),
        Ending::Running => add_text(line, "running"),
    }
}

// The last line of a trace.
fn end_line(taken: u64, ending: Ending) -> LineText
    ensures { result.items ≡ line_bytes (line.End taken ending) }
{
    let mut line = LineText::new();
    add_text(&mut line, "end");
    add_number_word(&mut line, taken);
    line.push(b' ');
    add_ending(&mut line, ending);
    line.push(b'\n');
    line
}

/// Writes the line of an event. It fails where the sink fails or is out of memory, and then a first part of the line is written.
pub fn put_event<S: Sink>(event: &Event, sink: &mut S) -> Result<(), Fault>
    ensures ok { OnOk result (Grew (S.held sink.old) (S.held sink.new) (line_bytes (line.Event event.now))) }
    ensures err { OnErr result (GrewByFront (S.held sink.old) (S.held sink.new) (line_bytes (line.Event event.now))) }
    ensures cause { HasCause (S.faults sink.old) (S.faults sink.new) result }
    // Memory runs out in the sink alone.
    ensures memory { IsErrOf result Fault.OutOfMemory → S.allocates }
{
    let text = event_line(event);
    put(sink, text.as_slice())
}

/// Writes the last line of a trace: how many reductions the run took, and how it ended. It fails as `put_event` does.
pub fn put_end<S: Sink>(taken: u64, ending: Ending, sink: &mut S) -> Result<(), Fault>
    ensures ok { OnOk result (Grew (S.held sink.old) (S.held sink.new) (line_bytes (line.End taken ending))) }
    ensures err { OnErr result (GrewByFront (S.held sink.old) (S.held sink.new) (line_bytes (line.End taken ending))) }
    ensures cause { HasCause (S.faults sink.old) (S.faults sink.new) result }
    ensures memory { IsErrOf result Fault.OutOfMemory → S.allocates }
{
    let text = end_line(taken, ending);
    put(sink, text.as_slice())
}
