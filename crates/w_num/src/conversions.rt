//! Conversions between widths.
ghost use Rattle.std.specs.Prelude.{◌≡◌};
ghost use Rattle.w_num.specs.Conversions.{wrap, extend_s, extend_u, iextend_s};

/// `i32.wrap_i64`: the low 32 bits (`wrap`; Core, numerics, conversions).
#[inline]
pub fn i32_wrap_i64(a: u64) -> u32
    ensures { result ≡ wrap 64 32 a }
{
    (a & 0xffff_ffff) as u32
}

/// `i64.extend_i32_s`: the signed number, in 64 bits (`extend_s`; Core, numerics, conversions).
#[inline]
pub fn i64_extend_i32_s(a: u32) -> u64
    ensures { result ≡ extend_s 32 64 a }
{
    i64::from(a.cast_signed()).cast_unsigned()
}

/// `i64.extend_i32_u`: the same number, in 64 bits (`extend_u`; Core, numerics, conversions).
#[inline]
pub fn i64_extend_i32_u(a: u32) -> u64
    ensures { result ≡ extend_u 32 64 a }
{
    u64::from(a)
}

/// `i32.extend8_s`: the low 8 bits, signed, in 32 bits (`iextend8_s`; Core, numerics, integer operations).
#[inline]
pub fn i32_extend8_s(a: u32) -> u32
    ensures { result ≡ iextend_s 8 32 a }
{
    let low = (a & 0xff) as u8;
    i32::from(low.cast_signed()).cast_unsigned()
}

/// `i32.extend16_s`: the low 16 bits, signed, in 32 bits (`iextend16_s`; Core, numerics, integer operations).
#[inline]
pub fn i32_extend16_s(a: u32) -> u32
    ensures { result ≡ iextend_s 16 32 a }
{
    let low = (a & 0xffff) as u16;
    i32::from(low.cast_signed()).cast_unsigned()
}

/// `i64.extend8_s`: the low 8 bits, signed, in 64 bits (`iextend8_s`; Core, numerics, integer operations).
#[inline]
pub fn i64_extend8_s(a: u64) -> u64
    ensures { result ≡ iextend_s 8 64 a }
{
    let low = (a & 0xff) as u8;
    i64::from(low.cast_signed()).cast_unsigned()
}

/// `i64.extend16_s`: the low 16 bits, signed, in 64 bits (`iextend16_s`; Core, numerics, integer operations).
#[inline]
pub fn i64_extend16_s(a: u64) -> u64
    ensures { result ≡ iextend_s 16 64 a }
{
    let low = (a & 0xffff) as u16;
    i64::from(low.cast_signed()).cast_unsigned()
}

/// `i64.extend32_s`: the low 32 bits, signed, in 64 bits (`iextend32_s`; Core, numerics, integer operations).
#[inline]
pub fn i64_extend32_s(a: u64) -> u64
    ensures { result ≡ iextend_s 32 64 a }
{
    let low = (a & 0xffff_ffff) as u32;
    i64::from(low.cast_signed()).cast_unsigned()
}
