//! Memory instructions, by their opcodes.
ghost use Rattle.std.specs.Prelude.{◌≡◌, ◌++◌, ◌∷◌, OnOk};
ghost use Rattle.w_leb.specs.Number.{shortest};
ghost use Rattle.w_encode.specs.InstructionsWritten.{load_code, store_code, memarg_written, two_written, memory_written};

use crate::put::Put;
use std::alloc::AllocError;
use w_syntax::{LoadOp, MemArg, MemoryOp, StoreOp};

fn load_code(operation: LoadOp) -> u8
    ensures { result ≡ load_code operation }
{
    match operation {
        LoadOp::I32Load => 0x28,
        LoadOp::I64Load => 0x29,
        LoadOp::I32Load8S => 0x2C,
        LoadOp::I32Load8U => 0x2D,
        LoadOp::I32Load16S => 0x2E,
        LoadOp::I32Load16U => 0x2F,
        LoadOp::I64Load8S => 0x30,
        LoadOp::I64Load8U => 0x31,
        LoadOp::I64Load16S => 0x32,
        LoadOp::I64Load16U => 0x33,
        LoadOp::I64Load32S => 0x34,
        LoadOp::I64Load32U => 0x35,
    }
}

fn store_code(operation: StoreOp) -> u8
    ensures { result ≡ store_code operation }
{
    match operation {
        StoreOp::I32Store => 0x36,
        StoreOp::I64Store => 0x37,
        StoreOp::I32Store8 => 0x3A,
        StoreOp::I32Store16 => 0x3B,
        StoreOp::I64Store8 => 0x3C,
        StoreOp::I64Store16 => 0x3D,
        StoreOp::I64Store32 => 0x3E,
    }
}

impl Put for MemArg {
    ghost written = { memarg_written };

    fn put(&self, out: &mut Vec<u8>) -> Result<(), AllocError> {
        u32::from(self.align).put(out)?;
        self.offset.put(out)
    }
}

/// Writes an opcode with two indices behind it.
pub(crate) fn put_two(
    opcode: &[u8],
    first: u32,
    second: u32,
    out: &mut Vec<u8>,
) -> Result<(), AllocError>
    ensures { OnOk result (out.new.items ≡ out.old.items ++ (opcode.now ++ two_written first second)) }
{
    out.extend_from_slice(opcode)?;
    first.put(out)?;
    second.put(out)
}

/// Writes an opcode with an index behind it.
pub(crate) fn put_one(opcode: &[u8], index: u32, out: &mut Vec<u8>) -> Result<(), AllocError>
    ensures { OnOk result (out.new.items ≡ out.old.items ++ (opcode.now ++ shortest index)) }
{
    out.extend_from_slice(opcode)?;
    index.put(out)
}

impl Put for MemoryOp {
    ghost written = { memory_written };

    fn put(&self, out: &mut Vec<u8>) -> Result<(), AllocError> {
        match *self {
            MemoryOp::Load(operation, argument) => {
                out.push(load_code(operation))?;
                argument.put(out)
            }
            MemoryOp::Store(operation, argument) => {
                out.push(store_code(operation))?;
                argument.put(out)
            }
            MemoryOp::Size(memory) => put_one(&[0x3F], memory, out),
            MemoryOp::Grow(memory) => put_one(&[0x40], memory, out),
            MemoryOp::Init(segment, memory) => put_two(&[0xFC, 8], segment, memory, out),
            MemoryOp::DataDrop(segment) => put_one(&[0xFC, 9], segment, out),
            MemoryOp::Copy(written, read) => put_two(&[0xFC, 10], written, read, out),
            MemoryOp::Fill(memory) => put_one(&[0xFC, 11], memory, out),
        }
    }
}
