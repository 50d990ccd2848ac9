//! The lines that the program writes.
ghost use Rattle.std.specs.Prelude.{◌≡◌, ◌++◌, ℕ, List, IfOk, OnOk, codes, option_map, slice_get};
ghost use Rattle.std.specs.Borrow.{Bor};
ghost use Rattle.w_reduce.specs.Values.{val};
ghost use Rattle.w_trace.specs.Endings.{run_limit_text as the_run_limit_text};
ghost use Rattle.s_agrees.specs.Agrees.{tag_names};
ghost use Rattle.replies.specs.Answer.{line, count_text, result_line, malformed, wrong_text, limit, size_limit_text, start_limit_text, trapped, invalid, no_printer, counts_line, no_trace, unsound, differs, audit_line as the_audit_line, bad_script, faulted, file_text as the_file_text, no_import};

use itoa::{Buffer, Integer};
use s_judge::ScriptFault;
use s_syntax::{Definition, Script};
use std::alloc::{AllocError, Global};
use w_decode::DecodeFault;
use w_items::ValidFault;
use w_reduce::{RunLimit, StartLimit, Trap};
use w_rules::SizeLimit;
use w_trace::{run_limit_text, trap_name};
use w_types::Value;

// Appends a text and a number.
fn push_number<I: Integer>(line: &mut Vec<u8>, text: &[u8], number: I) -> Result<(), AllocError>
    ensures { OnOk result (line.new.items ≡ line.old.items ++ (text.now ++ I.text number)) }
{
    let mut buffer = Buffer::new();
    line.extend_from_slice(text)?;
    line.extend_from_slice(buffer.format(number).as_bytes())?;
    Ok(())
}

// A text and a number, as a line.
fn number_line<I: Integer>(alloc: Global, text: &[u8], number: I) -> Result<Vec<u8>, AllocError>
    ensures { IfOk result (λ v. v.items ≡ line (text.now ++ I.text number)) }
{
    let mut line = Vec::new(alloc);
    push_number(&mut line, text, number)?;
    line.push(b'\n')?;
    Ok(line)
}

// A text, as a line.
fn text_line(alloc: Global, text: &str) -> Result<Vec<u8>, AllocError>
    ensures { IfOk result (λ v. v.items ≡ line text.now) }
{
    let mut line = Vec::from_slice(alloc, text.as_bytes())?;
    line.push(b'\n')?;
    Ok(line)
}

/// The line of a result: an integer, signed, or a reference by its address.
pub fn value_line(alloc: Global, value: Value) -> Result<Vec<u8>, AllocError>
    ensures { IfOk result (λ v. v.items ≡ result_line (val value)) }
{
    match value {
        Value::I32(bits) => number_line(alloc, b"= ", bits.cast_signed()),
        Value::I64(bits) => number_line(alloc, b"= ", bits.cast_signed()),
        Value::Null => Ok(Vec::from_slice(alloc, b"= null\n")?),
        Value::Func(address) => number_line(alloc, b"= func ", address),
        Value::Cont(reference) => number_line(alloc, b"= cont ", reference.serial),
    }
}

/// The line of bytes that spell no module.
pub fn malformed_line(alloc: Global, fault: DecodeFault) -> Result<Vec<u8>, AllocError>
    ensures { IfOk result (λ v. v.items ≡ (malformed fault).err) }
{
    match fault {
        DecodeFault::Header => Ok(Vec::from_slice(alloc, b"malformed header\n")?),
        DecodeFault::Frame(index) => number_line(alloc, b"malformed frame ", index),
        DecodeFault::Content(index) => number_line(alloc, b"malformed content ", index),
        DecodeFault::Counts => Ok(Vec::from_slice(alloc, b"malformed counts\n")?),
        DecodeFault::OutOfMemory => Ok(Vec::from_slice(alloc, b"\n")?),
    }
}

/// The line of bytes with whose line of this number, counted from 0, no text goes on.
pub fn wrong_line(alloc: Global, number: usize) -> Result<Vec<u8>, AllocError>
    ensures { IfOk result (λ v. v.items ≡ (wrong_text number).err) }
{
    number_line(alloc, b"text ", number)
}

/// The line of a limit on a module that is passed.
pub fn size_limit_line(name: SizeLimit) -> &'static [u8]
    ensures { result.now ≡ (limit (size_limit_text name)).err }
{
    match name {
        SizeLimit::Types => b"limit types\n",
        SizeLimit::Params => b"limit params\n",
        SizeLimit::Locals => b"limit locals\n",
    }
}

/// The line of a limit of a run that is passed.
pub fn run_limit_line(alloc: Global, name: RunLimit) -> Result<Vec<u8>, AllocError>
    ensures { IfOk result (λ v. v.items ≡ (limit (the_run_limit_text name)).err) }
{
    text_line(alloc, run_limit_text(name))
}

/// The line of a limit that is passed where a run begins.
pub fn start_limit_line(name: StartLimit) -> &'static [u8]
    ensures { result.now ≡ (limit (start_limit_text name)).err }
{
    match name {
        StartLimit::Memory => b"limit memory\n",
        StartLimit::Table => b"limit table\n",
    }
}

// What is told of the tag of this number: the name of its effect, or that it is the tag of groups.
fn tag_name(script: &Script, number: u32) -> Option<&[u8]>
    ensures { option_map (λ (name : Bor (List ℕ)). name.now) result ≡ slice_get (tag_names script.now.declarations) number }
{
    let mut left = number;
    for declaration in script.declarations.as_slice() {
        if let Definition::Effect(_) = declaration.definition {
            if left == 0 {
                return Some(declaration.name.as_bytes());
            }
            left -= 1;
        }
    }
    if left == 0 {
        return Some(b"group");
    }
    None
}

// The line of an effect that no handler in place has a clause for, or of a switch that no group is around, by the tag.
fn unhandled_line(alloc: Global, script: &Script, tag: u32) -> Result<Vec<u8>, AllocError>
    ensures { IfOk result (λ v. v.items ≡ (faulted script.now (Trap.Unhandled tag)).err) }
{
    let mut line = Vec::from_slice(alloc, b"fault unhandled ")?;
    if let Some(name) = tag_name(script, tag) {
        line.extend_from_slice(name)?;
    }
    line.push(b'\n')?;
    Ok(line)
}

/// The line of a trap.
pub fn trap_line(alloc: Global, trap: Trap) -> Result<Vec<u8>, AllocError>
    ensures { IfOk result (λ v. v.items ≡ (trapped trap).err) }
{
    match trap {
        Trap::Unhandled(tag) => number_line(alloc, b"trap unhandled ", tag),
        _ => text_line(alloc, trap_name(trap)),
    }
}

/// The line of a script's fault, for which the trap of its module stands.
pub fn fault_line(alloc: Global, script: &Script, trap: Trap) -> Result<Vec<u8>, AllocError>
    ensures { IfOk result (λ v. v.items ≡ (faulted script.now trap).err) }
{
    match trap {
        Trap::Unreachable => Ok(Vec::from_slice(alloc, b"fault failed\n")?),
        Trap::DivideByZero => Ok(Vec::from_slice(alloc, b"fault divzero\n")?),
        Trap::IntegerOverflow => Ok(Vec::from_slice(alloc, b"fault overflow\n")?),
        Trap::ConsumedContinuation => Ok(Vec::from_slice(alloc, b"fault reused\n")?),
        Trap::TableOutOfBounds => Ok(Vec::from_slice(alloc, b"fault empty\n")?),
        Trap::NullReference => Ok(Vec::from_slice(alloc, b"fault empty\n")?),
        Trap::Unhandled(tag) => unhandled_line(alloc, script, tag),
        Trap::MemoryOutOfBounds => trap_line(alloc, trap),
        Trap::UndefinedElement => trap_line(alloc, trap),
        Trap::NullElement => trap_line(alloc, trap),
        Trap::CallTypeMismatch => trap_line(alloc, trap),
    }
}

/// The line of a module that is not accepted.
pub fn invalid_line(alloc: Global, fault: ValidFault) -> Result<Vec<u8>, AllocError>
    ensures { IfOk result (λ v. v.items ≡ (invalid fault).err) }
{
    match fault {
        ValidFault::Limit(name) => Ok(Vec::from_slice(alloc, size_limit_line(name))?),
        ValidFault::TypeAt(index) => number_line(alloc, b"invalid type ", index),
        ValidFault::Import(index) => number_line(alloc, b"invalid import ", index),
        ValidFault::Table(index) => number_line(alloc, b"invalid table ", index),
        ValidFault::Memory => Ok(Vec::from_slice(alloc, b"invalid memory\n")?),
        ValidFault::Tag(index) => number_line(alloc, b"invalid tag ", index),
        ValidFault::Global(index) => number_line(alloc, b"invalid global ", index),
        ValidFault::Element(index) => number_line(alloc, b"invalid element ", index),
        ValidFault::Data(index) => number_line(alloc, b"invalid data ", index),
        ValidFault::Start => Ok(Vec::from_slice(alloc, b"invalid start\n")?),
        ValidFault::Export(index) => number_line(alloc, b"invalid export ", index),
        ValidFault::Function(index) => number_line(alloc, b"invalid function ", index),
        ValidFault::OutOfMemory => Ok(Vec::from_slice(alloc, b"\n")?),
    }
}

/// The line of a module for whose import of this index nothing is there.
pub fn printer_line(alloc: Global, index: usize) -> Result<Vec<u8>, AllocError>
    ensures { IfOk result (λ v. v.items ≡ (no_printer index).err) }
{
    number_line(alloc, b"no printer ", index)
}

/// The line of a file for whose import of this index nothing is there.
pub fn import_line(alloc: Global, index: usize) -> Result<Vec<u8>, AllocError>
    ensures { IfOk result (λ v. v.items ≡ (no_import index).err) }
{
    number_line(alloc, b"no import ", index)
}

/// What stands before a line that is told of a file of this number.
pub fn file_text(alloc: Global, number: usize) -> Result<Vec<u8>, AllocError>
    ensures { IfOk result (λ v. v.items ≡ the_file_text number) }
{
    let mut text = Vec::new(alloc);
    push_number(&mut text, b"file ", number)?;
    text.push(b' ')?;
    Ok(text)
}

// The line of a declaration that breaks a rule.
fn rule_line(alloc: Global, declaration: usize, rule: u8) -> Result<Vec<u8>, AllocError>
    ensures { IfOk result (λ v. v.items ≡ line (count_text (count_text (codes "rule ") declaration ++ codes " ") rule)) }
{
    let mut line = Vec::new(alloc);
    push_number(&mut line, b"rule ", declaration)?;
    push_number(&mut line, b" ", rule)?;
    line.push(b'\n')?;
    Ok(line)
}

/// The line of a script that is refused.
pub fn script_line(alloc: Global, fault: ScriptFault) -> Result<Vec<u8>, AllocError>
    ensures { IfOk result (λ v. v.items ≡ (bad_script fault).err) }
{
    match fault {
        ScriptFault::TooLong => Ok(Vec::from_slice(alloc, b"limit script\n")?),
        ScriptFault::Lex(at) => number_line(alloc, b"lex ", at),
        ScriptFault::Parse(at) => number_line(alloc, b"parse ", at),
        ScriptFault::Deep => Ok(Vec::from_slice(alloc, b"deep\n")?),
        ScriptFault::Rule(declaration, rule) => rule_line(alloc, declaration, rule.number()),
        ScriptFault::OutOfMemory => Ok(Vec::from_slice(alloc, b"\n")?),
    }
}

/// The line of statistics: how many reductions, and how many continuations were made, are consumed and live.
pub fn stats_line(
    alloc: Global,
    steps: u64,
    made: u64,
    consumed: u64,
    live: u64,
) -> Result<Vec<u8>, AllocError>
    ensures { IfOk result (λ v. v.items ≡ counts_line steps made consumed live) }
{
    let mut line = Vec::new(alloc);
    push_number(&mut line, b"stats steps ", steps)?;
    push_number(&mut line, b" made ", made)?;
    push_number(&mut line, b" consumed ", consumed)?;
    push_number(&mut line, b" live ", live)?;
    line.push(b'\n')?;
    Ok(line)
}

/// The line of a file that is no trace, by the number of the line with which it goes wrong.
pub fn no_trace_line(alloc: Global, number: usize) -> Result<Vec<u8>, AllocError>
    ensures { IfOk result (λ v. v.items ≡ (no_trace number).err) }
{
    number_line(alloc, b"trace ", number)
}

/// The line of a trace whose event of this number is unsound.
pub fn unsound_line(alloc: Global, number: usize) -> Result<Vec<u8>, AllocError>
    ensures { IfOk result (λ v. v.items ≡ (unsound number).err) }
{
    number_line(alloc, b"unsound ", number)
}

/// The line of a trace whose line of this number isn't the run's.
pub fn differs_line(alloc: Global, number: usize) -> Result<Vec<u8>, AllocError>
    ensures { IfOk result (λ v. v.items ≡ (differs number).err) }
{
    number_line(alloc, b"differs ", number)
}

/// The line of an audit that found nothing: how many continuations were made, are consumed and live.
pub fn audit_line(alloc: Global, made: u64, consumed: u64, live: u64) -> Result<Vec<u8>, AllocError>
    ensures { IfOk result (λ v. v.items ≡ the_audit_line made consumed live) }
{
    let mut line = Vec::new(alloc);
    push_number(&mut line, b"ok trace made ", made)?;
    push_number(&mut line, b" consumed ", consumed)?;
    push_number(&mut line, b" live ", live)?;
    line.push(b'\n')?;
    Ok(line)
}
