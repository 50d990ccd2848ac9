//! How a run ends, as the end line of a trace says.
ghost use Rattle.std.specs.Prelude.{◌≡◌};
ghost use Rattle.w_trace.specs.Reading.{bounds_trap_said, plain_trap_said, unhandled_said, trap_said, limit_said, limit_or_trap_said, ending_said};

use crate::trace::Ending;
use w_reduce::{RunLimit, Trap};
use w_words::{behind, index_of, is};

// A trap of memories, tables and references.
fn bounds_trap_said(text: &[u8]) -> Option<Trap>
    ensures { result ≡ bounds_trap_said text.now }
{
    if is(text, "trap memory out of bounds") {
        return Some(Trap::MemoryOutOfBounds);
    }
    if is(text, "trap table out of bounds") {
        return Some(Trap::TableOutOfBounds);
    }
    if is(text, "trap undefined element") {
        return Some(Trap::UndefinedElement);
    }
    if is(text, "trap null element") {
        return Some(Trap::NullElement);
    }
    if is(text, "trap null reference") {
        return Some(Trap::NullReference);
    }
    None
}

// Any other trap that has no tag.
fn plain_trap_said(text: &[u8]) -> Option<Trap>
    ensures { result ≡ plain_trap_said text.now }
{
    if is(text, "trap unreachable") {
        return Some(Trap::Unreachable);
    }
    if is(text, "trap divide by zero") {
        return Some(Trap::DivideByZero);
    }
    if is(text, "trap integer overflow") {
        return Some(Trap::IntegerOverflow);
    }
    if is(text, "trap call type mismatch") {
        return Some(Trap::CallTypeMismatch);
    }
    if is(text, "trap consumed continuation") {
        return Some(Trap::ConsumedContinuation);
    }
    None
}

// A tag that nothing handles.
fn unhandled_said(text: &[u8]) -> Option<Trap>
    ensures { result ≡ unhandled_said text.now }
{
    let rest = behind(text, "trap unhandled ")?;
    let tag = index_of(rest)?;
    Some(Trap::Unhandled(tag))
}

// A trap.
fn trap_said(text: &[u8]) -> Option<Trap>
    ensures { result ≡ trap_said text.now }
{
    if let Some(trap) = plain_trap_said(text) {
        return Some(trap);
    }
    match bounds_trap_said(text) {
        Some(trap) => Some(trap),
        None => unhandled_said(text),
    }
}

// A limit.
fn limit_said(text: &[u8]) -> Option<RunLimit>
    ensures { result ≡ limit_said text.now }
{
    if is(text, "limit frames") {
        return Some(RunLimit::Frames);
    }
    if is(text, "limit handles") {
        return Some(RunLimit::Handles);
    }
    if is(text, "limit conts") {
        return Some(RunLimit::Conts);
    }
    None
}

// A limit, or a trap.
fn limit_or_trap_said(text: &[u8]) -> Option<Ending>
    ensures { result ≡ limit_or_trap_said text.now }
{
    if let Some(name) = limit_said(text) {
        return Some(Ending::Limit(name));
    }
    let trap = trap_said(text)?;
    Some(Ending::Trapped(trap))
}

/// How a run ends, as its text says.
pub(crate) fn ending_said(text: &[u8]) -> Option<Ending>
    ensures { result ≡ ending_said text.now }
{
    if is(text, "ended") {
        return Some(Ending::Ended);
    }
    if is(text, "running") {
        return Some(Ending::Running);
    }
    limit_or_trap_said(text)
}
