//! Reading the text of a trace, line by line.
ghost use Rattle.std.specs.Prelude.{◌≡◌, ◌⊎◌, ℕ, Err, IfOk, IfErr};
ghost use Rattle.w_trace.specs.declared.trace_fault.TraceFault.TheVariants as fault;
ghost use Rattle.w_trace.specs.Lines.{IsTextOf, IsText, IsWrongAt};

use crate::line::Line;
use crate::line_words::line_said;
use crate::trace::Trace;
use crate::trace_fault::TraceFault;
use lists::ListOf;
use std::alloc::Global;
use w_words::line_end;

// The trace whose text these bytes are, or the least line that is wrong.
fn read_lines(alloc: Global, bytes: &[u8]) -> Result<Trace, TraceFault>
    ensures ok { IfOk result (λ x. IsTextOf x bytes.now) }
    ensures err { IfErr result (λ e. (l : ℕ) → e ≡ fault.Line l → IsWrongAt bytes.now l) }
{
    let mut events = ListOf::new(alloc);
    let mut at: usize = 0;
    while let Some(end) = line_end(bytes, at) {
        let Some(line) = line_said(&bytes[at..end]) else {
            return Err(TraceFault::Line(events.len()));
        };
        at = end + 1;
        match line {
            Line::Event(event) => events.push(event)?,
            Line::End(taken, ending) => {
                // Nothing stands behind the end line.
                if at < bytes.len() {
                    return Err(TraceFault::Line(events.len() + 1));
                }
                return Ok(Trace {
                    events,
                    taken,
                    ending,
                });
            }
        }
    }
    Err(TraceFault::Line(events.len()))
}

/// The trace whose text these bytes are. `Line(l)`: with line l, counted from 0, no text goes on, and with each line before it one
/// does; what stands behind the last line feed is a line too, also where nothing does. `OutOfMemory` may come of any bytes.
pub fn read_events(alloc: Global, bytes: &[u8]) -> Result<Trace, TraceFault>
    // The trace has this text, or the line is wrong.
    ensures ok { IfOk result (λ x. IsTextOf x bytes.now) }
    ensures err { IfErr result (λ e. (l : ℕ) → e ≡ fault.Line l → IsWrongAt bytes.now l) }

    // The trace of a text is given, and a line that is wrong is answered, unless memory runs out.
    ensures only_ok { IsText bytes.now → IfErr result (λ e. e ≡ fault.OutOfMemory) }
    ensures only_err { (l : ℕ) → IsWrongAt bytes.now l → (result ≡ Err (fault.Line l)) ⊎ (result ≡ Err fault.OutOfMemory) }
{
    read_lines(alloc, bytes)
}
