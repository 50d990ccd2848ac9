//! Reading the text of a module, line by line.
ghost use Rattle.std.specs.Prelude.{◌≡◌, ◌≤◌, ℕ, List, length, IfOk, IfErr, Ok, Err, option_map};
ghost use Rattle.w_syntax.specs.declared.module.Module.{Module as TheModule};
ghost use Rattle.w_lines.specs.Kept.{kept};
ghost use Rattle.w_lines.specs.Spelling.{line_of};
ghost use Rattle.w_text.specs.declared.fault.TextFault.TheVariants as fault;
ghost use Rattle.w_text.specs.Machine.{State, Fresh};
ghost use Rattle.w_text.specs.Standing.{on_line};
ghost use Rattle.w_text.specs.Assembled.{Stands, SteppedTo, Ended};
ghost use Rattle.w_text.specs.Text.{Text, IsWrongAt};
ghost use Rattle.w_text.specs.Answers.{IsAnswer};

use crate::assembly::Assembly;
use crate::fault::TextFault;
use std::alloc::{AllocError, Global};
use w_lines::line_of;
use w_syntax::Module;
use w_words::line_end;

// Takes a line: `false` exactly where no module goes on with it.
fn take_line(alloc: Global, assembly: &mut Assembly, line: &[u8]) -> Result<bool, AllocError>
    requires { (s : State) × Stands s assembly.old }
    ensures { IfOk result (λ r. (s : State) → Stands s assembly.old → SteppedTo (on_line s (option_map kept (line_of line.now))) r assembly.new) }
{
    match line_of(alloc, line)? {
        Some(line) => assembly.step(line),
        None => Ok(false),
    }
}

// Takes all lines: how many they are, or the least one that is wrong.
fn take_lines(alloc: Global, assembly: &mut Assembly, text: &[u8]) -> Result<usize, TextFault>
    requires none_yet { Stands Fresh assembly.old }
    requires short { length text.now ≤ 16777216 }
    ensures ok { IfOk result (λ n. Ended text.now n assembly.new) }
    ensures err { IfErr result (λ e. (l : ℕ) → e ≡ fault.Line l → IsWrongAt text.now l) }
{
    let mut at: usize = 0;
    let mut number: usize = 0;
    while let Some(end) = line_end(text, at) {
        let taken = take_line(alloc, assembly, &text[at..end])?;
        if !taken {
            return Err(TextFault::Line(number));
        }
        at = end + 1;
        number += 1;
    }
    if at < text.len() {
        return Err(TextFault::Line(number));
    }
    Ok(number)
}

// The module whose text these bytes are, or the least line that is wrong.
fn assemble(alloc: Global, text: &[u8]) -> Result<Module, TextFault>
    requires { length text.now ≤ 16777216 }
    ensures ok { IfOk result (λ m. Text text.now m) }
    ensures err { IfErr result (λ e. (l : ℕ) → e ≡ fault.Line l → IsWrongAt text.now l) }
{
    let mut assembly = Assembly::new(alloc);
    let number = take_lines(alloc, &mut assembly, text)?;
    match assembly.finish()? {
        Some(program) => Ok(program),
        None => Err(TextFault::Line(number)),
    }
}

/// The module whose text these bytes are, which are at most 2^24, as many as a file may have. `Line(l)`: with line l, counted from 0,
/// no text goes on, and with each line before it one does; what stands behind the last line feed is a line too, also where nothing
/// does. `OutOfMemory` may come of any bytes.
pub fn asm(alloc: Global, text: &[u8]) -> Result<Module, TextFault>
    requires { length text.now ≤ 16777216 }
    // The module has this text, and the line is wrong.
    ensures ok { IfOk result (λ m. Text text.now m) }
    ensures err { IfErr result (λ e. (l : ℕ) → e ≡ fault.Line l → IsWrongAt text.now l) }

    // The module of a text is given, and a line that is wrong is answered, unless memory runs out.
    ensures only_ok { (m : TheModule) → Text text.now m → IsAnswer (Ok m) result }
    ensures only_err { (l : ℕ) → IsWrongAt text.now l → IsAnswer (Err (fault.Line l)) result }
{
    assemble(alloc, text)
}
