//! Bodies.
ghost use Rattle.std.specs.Prelude.{◌≡◌, ◌++◌, OnOk};
ghost use Rattle.std.specs.List.{flat_map};
ghost use Rattle.w_encode.specs.InstructionsWritten.{kind_code, expr_written};
ghost use Rattle.w_encode.specs.FlatWritten.{instr_written, packed_written};

use crate::put::Put;
use std::alloc::AllocError;
use w_syntax::{BlockKind, Body, Instr, PackedInstr};

fn kind_code(kind: BlockKind) -> u8
    ensures { result ≡ kind_code kind }
{
    match kind {
        BlockKind::Block => 0x02,
        BlockKind::Loop => 0x03,
    }
}

impl Put for Instr {
    ghost written = { instr_written };

    fn put(&self, out: &mut Vec<u8>) -> Result<(), AllocError> {
        match self {
            Instr::Plain(op) => op.put(out)?,
            Instr::Block(kind, block, _) => {
                out.push(kind_code(*kind))?;
                block.put(out)?;
            }
            Instr::If(block, _, _) => {
                out.push(0x04)?;
                block.put(out)?;
            }
            Instr::Else => out.push(0x05)?,
            Instr::End => out.push(0x0B)?,
        }
        Ok(())
    }
}

impl Put for PackedInstr {
    ghost written = { packed_written };

    fn put(&self, out: &mut Vec<u8>) -> Result<(), AllocError> {
        let view = self.view();
        view.instr().put(out)
    }
}

fn put_instrs(instrs: &[PackedInstr], out: &mut Vec<u8>) -> Result<(), AllocError>
    ensures { OnOk result (out.new.items ≡ out.old.items ++ flat_map packed_written instrs.now) }
{
    for instr in instrs {
        instr.put(out)?;
    }
    Ok(())
}

impl Put for Body {
    ghost written = { expr_written };

    fn put(&self, out: &mut Vec<u8>) -> Result<(), AllocError> {
        put_instrs(self.instrs(), out)
    }
}
