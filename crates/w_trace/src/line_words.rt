//! What a line of a trace says.
ghost use Rattle.std.specs.Prelude.{◌≡◌};
ghost use Rattle.w_words.specs.Words.{spaced};
ghost use Rattle.w_trace.specs.Reading.{ending_said, end_in, switch_in, kind_by, kind_in, event_in, line_in, line_said};

use crate::ending_words::ending_said;
use crate::event::{Event, EventKind};
use crate::line::Line;
use crate::trace::Ending;
use w_words::{Words, index_of, is, number_of};

// How a run ends, in the words to come.
fn ending_in(words: &Words) -> Option<Ending>
    ensures { result ≡ ending_said (spaced words.now) }
{
    let text = words.rest()?;
    ending_said(text)
}

// The end line, behind `end`.
fn end_in(words: &mut Words) -> Option<Line>
    ensures { result ≡ end_in words.old }
{
    let word = words.next()?;
    let taken = number_of(word, 64)?;
    let ending = ending_in(words)?;
    Some(Line::End(taken, ending))
}

// What `switch` consumes, its tag, and what it makes.
fn switch_in(words: &mut Words) -> Option<EventKind>
    ensures { result ≡ switch_in words.old }
{
    let old = number_of(words.next()?, 64)?;
    let (tag, new) = words.pair()?;
    let tag = index_of(tag)?;
    let new = number_of(new, 64)?;
    Some(EventKind::Switch(old, tag, new))
}

// An event by its name, and the numbers behind it.
fn kind_by(name: &[u8], words: &mut Words) -> Option<EventKind>
    ensures { result ≡ kind_by name.now words.old }
{
    if is(name, "new") {
        let new = number_of(words.only()?, 64)?;
        return Some(EventKind::New(new));
    }
    if is(name, "bind") {
        let (old, new) = words.pair()?;
        return Some(EventKind::Bind(number_of(old, 64)?, number_of(new, 64)?));
    }
    if is(name, "resume") {
        let old = number_of(words.only()?, 64)?;
        return Some(EventKind::Resume(old));
    }
    if is(name, "suspend") {
        let (tag, new) = words.pair()?;
        return Some(EventKind::Suspend(index_of(tag)?, number_of(new, 64)?));
    }
    if is(name, "switch") {
        return switch_in(words);
    }
    if is(name, "exit") && words.next().is_none() {
        return Some(EventKind::Exit);
    }
    None
}

// An event, behind the number of its reduction.
fn kind_in(words: &mut Words) -> Option<EventKind>
    ensures { result ≡ kind_in words.old }
{
    let name = words.next()?;
    kind_by(name, words)
}

// An event, and the number of its reduction.
fn event_in(first: &[u8], words: &mut Words) -> Option<Line>
    ensures { result ≡ event_in first.now words.old }
{
    let step = number_of(first, 64)?;
    let kind = kind_in(words)?;
    Some(Line::Event(Event { step, kind }))
}

/// What a line says, without its line feed. `None` exactly where no line is spelled so.
#[tactic(auto, unfolding(crate::specs::Reading::line_said))]
pub(crate) fn line_said(line: &[u8]) -> Option<Line>
    ensures { result ≡ line_said line.now }
{
    let mut words = Words::of_line(line);
    let first = words.next()?;
    if is(first, "end") {
        end_in(&mut words)
    } else {
        event_in(first, &mut words)
    }
}
