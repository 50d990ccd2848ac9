//! Functions: locals and bodies.
ghost use Rattle.std.specs.Prelude.{◌≡◌, ◌++◌, OnOk, IfOk};
ghost use Rattle.std.specs.List.{flat_map};
ghost use Rattle.w_encode.specs.Canon.{run_written, func_written, code_written};

use crate::put::{Put, put_bytes, put_vec};
use std::alloc::{AllocError, Global};
use w_syntax::{Func, LocalRun};

impl Put for LocalRun {
    ghost written = { run_written };

    fn put(&self, out: &mut Vec<u8>) -> Result<(), AllocError> {
        self.count.put(out)?;
        self.kind.put(out)
    }
}

impl Put for Func {
    ghost written = { func_written };

    fn put(&self, out: &mut Vec<u8>) -> Result<(), AllocError> {
        put_vec(self.locals.as_slice(), out)?;
        self.body.put(out)
    }
}

// Writes the code of a function: its size, and so many bytes.
fn put_code(alloc: Global, func: &Func, out: &mut Vec<u8>) -> Result<(), AllocError>
    ensures { OnOk result (out.new.items ≡ out.old.items ++ code_written func.now) }
{
    let mut contents = Vec::new(alloc);
    func.put(&mut contents)?;
    put_bytes(contents.as_slice(), out)
}

/// Writes the code of each of these functions.
pub(crate) fn put_codes(alloc: Global, funcs: &[Func], out: &mut Vec<u8>) -> Result<(), AllocError>
    ensures { OnOk result (out.new.items ≡ out.old.items ++ flat_map code_written funcs.now) }
{
    for func in funcs {
        put_code(alloc, func, out)?;
    }
    Ok(())
}
