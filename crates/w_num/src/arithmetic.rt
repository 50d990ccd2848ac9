//! Sums, differences and products.
ghost use Rattle.std.specs.Prelude.{◌≡◌};
ghost use Rattle.w_num.specs.Arithmetic.{iadd, isub, imul};

/// `i32.add`: the sum (`iadd`; Core, numerics, integer operations).
#[inline]
pub fn i32_add(a: u32, b: u32) -> u32
    ensures { result ≡ iadd 32 a b }
{
    a.wrapping_add(b)
}

/// `i32.sub`: the difference (`isub`; Core, numerics, integer operations).
#[inline]
pub fn i32_sub(a: u32, b: u32) -> u32
    ensures { result ≡ isub 32 a b }
{
    a.wrapping_sub(b)
}

/// `i32.mul`: the product (`imul`; Core, numerics, integer operations).
#[inline]
pub fn i32_mul(a: u32, b: u32) -> u32
    ensures { result ≡ imul 32 a b }
{
    a.wrapping_mul(b)
}

/// `i64.add`: the sum (`iadd`; Core, numerics, integer operations).
#[inline]
pub fn i64_add(a: u64, b: u64) -> u64
    ensures { result ≡ iadd 64 a b }
{
    a.wrapping_add(b)
}

/// `i64.sub`: the difference (`isub`; Core, numerics, integer operations).
#[inline]
pub fn i64_sub(a: u64, b: u64) -> u64
    ensures { result ≡ isub 64 a b }
{
    a.wrapping_sub(b)
}

/// `i64.mul`: the product (`imul`; Core, numerics, integer operations).
#[inline]
pub fn i64_mul(a: u64, b: u64) -> u64
    ensures { result ≡ imul 64 a b }
{
    a.wrapping_mul(b)
}
