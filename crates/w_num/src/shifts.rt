//! Shifts and rotations.
ghost use Rattle.std.specs.Prelude.{◌≡◌};
ghost use Rattle.w_num.specs.Shifts.{ishl, ishr_s, ishr_u, irotl, irotr};

/// `i32.shl`: shifted left (`ishl`; Core, numerics, integer operations).
#[inline]
pub fn i32_shl(a: u32, b: u32) -> u32
    ensures { result ≡ ishl 32 a b }
{
    a.wrapping_shl(b)
}

/// `i32.shr_s`: shifted right, with copies of the sign (`ishr_s`; Core, numerics, integer operations).
#[inline]
pub fn i32_shr_s(a: u32, b: u32) -> u32
    ensures { result ≡ ishr_s 32 a b }
{
    a.cast_signed().wrapping_shr(b).cast_unsigned()
}

/// `i32.shr_u`: shifted right, with zeros (`ishr_u`; Core, numerics, integer operations).
#[inline]
pub fn i32_shr_u(a: u32, b: u32) -> u32
    ensures { result ≡ ishr_u 32 a b }
{
    a.wrapping_shr(b)
}

/// `i32.rotl`: rotated left (`irotl`; Core, numerics, integer operations).
#[inline]
pub fn i32_rotl(a: u32, b: u32) -> u32
    ensures { result ≡ irotl 32 a b }
{
    a.rotate_left(b)
}

/// `i32.rotr`: rotated right (`irotr`; Core, numerics, integer operations).
#[inline]
pub fn i32_rotr(a: u32, b: u32) -> u32
    ensures { result ≡ irotr 32 a b }
{
    a.rotate_right(b)
}

/// `i64.shl`: shifted left (`ishl`; Core, numerics, integer operations).
#[inline]
pub fn i64_shl(a: u64, b: u64) -> u64
    ensures { result ≡ ishl 64 a b }
{
    a.wrapping_shl((b % 64) as u32)
}

/// `i64.shr_s`: shifted right, with copies of the sign (`ishr_s`; Core, numerics, integer operations).
#[inline]
pub fn i64_shr_s(a: u64, b: u64) -> u64
    ensures { result ≡ ishr_s 64 a b }
{
    a.cast_signed()
        .wrapping_shr((b % 64) as u32)
        .cast_unsigned()
}

/// `i64.shr_u`: shifted right, with zeros (`ishr_u`; Core, numerics, integer operations).
#[inline]
pub fn i64_shr_u(a: u64, b: u64) -> u64
    ensures { result ≡ ishr_u 64 a b }
{
    a.wrapping_shr((b % 64) as u32)
}

/// `i64.rotl`: rotated left (`irotl`; Core, numerics, integer operations).
#[inline]
pub fn i64_rotl(a: u64, b: u64) -> u64
    ensures { result ≡ irotl 64 a b }
{
    a.rotate_left((b % 64) as u32)
}

/// `i64.rotr`: rotated right (`irotr`; Core, numerics, integer operations).
#[inline]
pub fn i64_rotr(a: u64, b: u64) -> u64
    ensures { result ≡ irotr 64 a b }
{
    a.rotate_right((b % 64) as u32)
}
