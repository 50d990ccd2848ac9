//! Answers in buffers.
ghost use Rattle.std.specs.Prelude.{◌≡◌, length};
ghost use Rattle.words.specs.Request.{IsWithinSteps};
ghost use Rattle.replies.specs.Answer.{ActionGives, OnBytes};
ghost use Rattle.handing.specs.Handed.{Handed, Hands, HandsTexts};

use drive::command_on_bytes;
use fronts::FrontSink;
use replies::Status;
use std::alloc::Global;
use words::Action;

/// Hands over what a sink took that keeps no more than a buffer holds, and says how much it took.
pub(crate) fn hand(sink: &FrontSink, buffer: &mut [u8]) -> u64
    requires { sink.now.most ≡ length buffer.old }
    ensures { Handed sink.now.text buffer.old buffer.new result }
{
    let front = sink.front();
    buffer[..front.len()].copy_from_slice(front);
    sink.count()
}

/// Hands over what two sinks took that keep no more than the buffers hold, where the call that wrote to them ended so. With
/// `Status::OutOfMemory` nothing is handed over.
pub(crate) fn hand_over(
    status: Status,
    written: &FrontSink,
    told: &FrontSink,
    out: &mut [u8],
    out_length: &mut u64,
    err: &mut [u8],
    err_length: &mut u64,
) -> Status
    ensures { HandsTexts written.now.text told.now.text status result
        (record { out = out.old; out_length = out_length.old; err = err.old; err_length = err_length.old })
        (record { out = out.new; out_length = out_length.new; err = err.new; err_length = err_length.new }) }
{
    // no contract of a sink says that what it keeps at most stays, so it is asked
    let keeps = written.most() == out.len() && told.most() == err.len();
    if matches!(status, Status::OutOfMemory) || !keeps {
        *out_length = 0;
        *err_length = 0;
        return Status::OutOfMemory;
    }
    *out_length = hand(written, out);
    *err_length = hand(told, err);
    status
}

/// Does with bytes in memory what is asked for, and hands the answer over: each buffer takes as much of its text as it holds, and each length
/// says how long the text is, up to 2^64 - 1. With `Status::OutOfMemory` nothing is handed over. It takes no memory for what a buffer doesn't
/// hold, however much a run prints.
pub fn hand_answer(
    alloc: Global,
    action: Action,
    bytes: &[u8],
    out: &mut [u8],
    out_length: &mut u64,
    err: &mut [u8],
    err_length: &mut u64,
) -> Status
    requires { IsWithinSteps action }
    ensures { Hands (OnBytes (ActionGives action) bytes.now) result
        (record { out = out.old; out_length = out_length.old; err = err.old; err_length = err_length.old })
        (record { out = out.new; out_length = out_length.new; err = err.new; err_length = err_length.new }) }
{
    let mut written = FrontSink::new(alloc, out.len());
    let mut told = FrontSink::new(alloc, err.len());
    let status = command_on_bytes(alloc, action, bytes, &mut written, &mut told);
    hand_over(status, &written, &told, out, out_length, err, err_length)
}
