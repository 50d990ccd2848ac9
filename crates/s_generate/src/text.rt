//! Writing the script, line by line.
ghost use Rattle.std.specs.Prelude.{◌≡◌, ◌≤◌, ◌++◌, IfOk, OnOk, decimal};
ghost use Rattle.s_generate.specs.Generated.{call_line, calls, declarations, main_line, generated};

use itoa::Buffer;
use std::alloc::{AllocError, Global};

// What stands before the calls.
const DECLARATIONS: &[u8] =
    b"effect tick/1;\nfn task(id, n) { let i = 0; while i < n { do tick(id); i = i + 1; } return 0; }\nhandler count(ticks, total) { return(x) { print ticks; return total; } on tick(w) k { return resume k(0) with (ticks + 1, total + w); } }\nfn all() {\n";

// Appends a text and a number.
fn push_number(script: &mut Vec<u8>, text: &[u8], number: u64) -> Result<(), AllocError>
    ensures { OnOk result (script.new.items ≡ script.old.items ++ (text.now ++ decimal number)) }
{
    let mut buffer = Buffer::new();
    script.extend_from_slice(text)?;
    script.extend_from_slice(buffer.format(number).as_bytes())?;
    Ok(())
}

// Appends the line that calls the task of this number.
fn push_call(script: &mut Vec<u8>, id: u64) -> Result<(), AllocError>
    requires { id ≤ 4294967295 }
    ensures { OnOk result (script.new.items ≡ script.old.items ++ call_line id) }
{
    push_number(script, b"task(", id)?;
    push_number(script, b", ", 37 * id % 97 + 1)?;
    script.extend_from_slice(b");\n")?;
    Ok(())
}

// Appends the calls of tasks 1 to n.
fn push_calls(script: &mut Vec<u8>, n: u32) -> Result<(), AllocError>
    ensures { OnOk result (script.new.items ≡ script.old.items ++ calls n) }
{
    for before in 0..n {
        push_call(script, u64::from(before) + 1)?;
    }
    Ok(())
}

// Appends `main`, which prints n and handles all tasks.
fn push_main(script: &mut Vec<u8>, n: u64) -> Result<(), AllocError>
    ensures { OnOk result (script.new.items ≡ script.old.items ++ main_line n) }
{
    push_number(script, b"}\nfn main() { print ", n)?;
    script.extend_from_slice(b"; return handle all() with count(0, 0); }\n")?;
    Ok(())
}

/// The script of n tasks: task i performs the effect (37 i) mod 97 + 1 times, with i. Its `main` prints n and then how often it was performed,
/// and returns the sum of what it was performed with. It fails only for want of memory.
pub fn generate(alloc: Global, n: u32) -> Result<Vec<u8>, AllocError>
    ensures value { IfOk result (λ script. script.items ≡ generated n) }
{
    let mut script = Vec::from_slice(alloc, DECLARATIONS)?;
    push_calls(&mut script, n)?;
    push_main(&mut script, u64::from(n))?;
    Ok(script)
}
