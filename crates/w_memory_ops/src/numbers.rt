//! What loads and stores move, and where.
ghost use Rattle.std.specs.Prelude.{◌≡◌, ◌+◌, ◌^◌, ◌<◌, length, min};
ghost use Rattle.w_reduce.specs.Memories.{loaded, loaded_size, loaded_type, stored_size, stored_type};
ghost use Rattle.w_stands.specs.Numbers.{IsNumber, bits_in, value_of};

use w_memory::Mem;
use w_num::{i32_extend8_s, i32_extend16_s, i64_extend8_s, i64_extend16_s, i64_extend32_s};
use w_stands::{i32_of, i64_of};
use w_syntax::{LoadOp, StoreOp};
use w_types::Value;

// The bytes of a page.
const PAGE: u64 = 65536;

/// How many bytes a load reads.
#[inline(always)]
pub(crate) fn loaded_size(operation: LoadOp) -> u32
    ensures { result ≡ loaded_size operation }
{
    match operation {
        LoadOp::I32Load => 4,
        LoadOp::I64Load => 8,
        LoadOp::I32Load8S => 1,
        LoadOp::I32Load8U => 1,
        LoadOp::I32Load16S => 2,
        LoadOp::I32Load16U => 2,
        LoadOp::I64Load8S => 1,
        LoadOp::I64Load8U => 1,
        LoadOp::I64Load16S => 2,
        LoadOp::I64Load16U => 2,
        LoadOp::I64Load32S => 4,
        LoadOp::I64Load32U => 4,
    }
}

/// The value that a load makes of the number that it read.
#[inline(always)]
pub(crate) fn extended(operation: LoadOp, number: u64) -> Value
    requires { number < 256 ^ loaded_size operation }
    ensures { result ≡ value_of (loaded_type operation) (loaded operation number) }
{
    match operation {
        LoadOp::I32Load => Value::I32(number as u32),
        LoadOp::I64Load => Value::I64(number),
        LoadOp::I32Load8S => Value::I32(i32_extend8_s(number as u32)),
        LoadOp::I32Load8U => Value::I32(number as u32),
        LoadOp::I32Load16S => Value::I32(i32_extend16_s(number as u32)),
        LoadOp::I32Load16U => Value::I32(number as u32),
        LoadOp::I64Load8S => Value::I64(i64_extend8_s(number)),
        LoadOp::I64Load8U => Value::I64(number),
        LoadOp::I64Load16S => Value::I64(i64_extend16_s(number)),
        LoadOp::I64Load16U => Value::I64(number),
        LoadOp::I64Load32S => Value::I64(i64_extend32_s(number)),
        LoadOp::I64Load32U => Value::I64(number),
    }
}

/// How many low bytes of its number a store writes.
#[inline(always)]
pub(crate) fn stored_size(operation: StoreOp) -> u32
    ensures { result ≡ stored_size operation }
{
    match operation {
        StoreOp::I32Store => 4,
        StoreOp::I64Store => 8,
        StoreOp::I32Store8 => 1,
        StoreOp::I32Store16 => 2,
        StoreOp::I64Store8 => 1,
        StoreOp::I64Store16 => 2,
        StoreOp::I64Store32 => 4,
    }
}

/// The number that a store takes.
#[inline(always)]
pub(crate) fn stored_bits(operation: StoreOp, value: Value) -> u64
    requires { IsNumber (stored_type operation) value }
    ensures { result ≡ bits_in value }
{
    match operation {
        StoreOp::I32Store | StoreOp::I32Store8 | StoreOp::I32Store16 => u64::from(i32_of(value)),
        StoreOp::I64Store | StoreOp::I64Store8 | StoreOp::I64Store16 | StoreOp::I64Store32 => {
            i64_of(value)
        }
    }
}

/// The address of an access. A sum that is no u64 is past the end of every memory, and so the end stands for it.
#[inline(always)]
pub(crate) fn address(memory: &Mem, base: u32, offset: u64) -> u64
    ensures { min result (length memory.now.bytes) ≡ min (base + offset) (length memory.now.bytes) }
{
    match u64::from(base).checked_add(offset) {
        Some(at) => at,
        None => PAGE * u64::from(memory.size()),
    }
}
