//! Tests and comparisons, which answer 1 or 0.
ghost use Rattle.std.specs.Prelude.{◌≡◌};
ghost use Rattle.w_num.specs.Comparisons.{ieqz, ieq, ine, ilt_s, ilt_u, igt_s, igt_u, ile_s, ile_u, ige_s, ige_u};

/// `i32.eqz`: whether it is 0 (`ieqz`; Core, numerics, integer operations).
#[inline]
pub fn i32_eqz(a: u32) -> u32
    ensures { result ≡ ieqz 32 a }
{
    u32::from(a == 0)
}

/// `i32.eq`: whether they are equal (`ieq`; Core, numerics, integer operations).
#[inline]
pub fn i32_eq(a: u32, b: u32) -> u32
    ensures { result ≡ ieq 32 a b }
{
    u32::from(a == b)
}

/// `i32.ne`: whether they differ (`ine`; Core, numerics, integer operations).
#[inline]
pub fn i32_ne(a: u32, b: u32) -> u32
    ensures { result ≡ ine 32 a b }
{
    u32::from(a != b)
}

/// `i32.lt_s`: whether the first is below the second, both signed (`ilt_s`; Core, numerics, integer operations).
#[inline]
pub fn i32_lt_s(a: u32, b: u32) -> u32
    ensures { result ≡ ilt_s 32 a b }
{
    u32::from(a.cast_signed() < b.cast_signed())
}

/// `i32.lt_u`: whether the first is below the second (`ilt_u`; Core, numerics, integer operations).
#[inline]
pub fn i32_lt_u(a: u32, b: u32) -> u32
    ensures { result ≡ ilt_u 32 a b }
{
    u32::from(a < b)
}

/// `i32.gt_s`: whether the first is above the second, both signed (`igt_s`; Core, numerics, integer operations).
#[inline]
pub fn i32_gt_s(a: u32, b: u32) -> u32
    ensures { result ≡ igt_s 32 a b }
{
    u32::from(a.cast_signed() > b.cast_signed())
}

/// `i32.gt_u`: whether the first is above the second (`igt_u`; Core, numerics, integer operations).
#[inline]
pub fn i32_gt_u(a: u32, b: u32) -> u32
    ensures { result ≡ igt_u 32 a b }
{
    u32::from(a > b)
}

/// `i32.le_s`: whether the first is at most the second, both signed (`ile_s`; Core, numerics, integer operations).
#[inline]
pub fn i32_le_s(a: u32, b: u32) -> u32
    ensures { result ≡ ile_s 32 a b }
{
    u32::from(a.cast_signed() <= b.cast_signed())
}

/// `i32.le_u`: whether the first is at most the second (`ile_u`; Core, numerics, integer operations).
#[inline]
pub fn i32_le_u(a: u32, b: u32) -> u32
    ensures { result ≡ ile_u 32 a b }
{
    u32::from(a <= b)
}

/// `i32.ge_s`: whether the first is at least the second, both signed (`ige_s`; Core, numerics, integer operations).
#[inline]
pub fn i32_ge_s(a: u32, b: u32) -> u32
    ensures { result ≡ ige_s 32 a b }
{
    u32::from(a.cast_signed() >= b.cast_signed())
}

/// `i32.ge_u`: whether the first is at least the second (`ige_u`; Core, numerics, integer operations).
#[inline]
pub fn i32_ge_u(a: u32, b: u32) -> u32
    ensures { result ≡ ige_u 32 a b }
{
    u32::from(a >= b)
}

/// `i64.eqz`: whether it is 0 (`ieqz`; Core, numerics, integer operations).
#[inline]
pub fn i64_eqz(a: u64) -> u32
    ensures { result ≡ ieqz 64 a }
{
    u32::from(a == 0)
}

/// `i64.eq`: whether they are equal (`ieq`; Core, numerics, integer operations).
#[inline]
pub fn i64_eq(a: u64, b: u64) -> u32
    ensures { result ≡ ieq 64 a b }
{
    u32::from(a == b)
}

/// `i64.ne`: whether they differ (`ine`; Core, numerics, integer operations).
#[inline]
pub fn i64_ne(a: u64, b: u64) -> u32
    ensures { result ≡ ine 64 a b }
{
    u32::from(a != b)
}

/// `i64.lt_s`: whether the first is below the second, both signed (`ilt_s`; Core, numerics, integer operations).
#[inline]
pub fn i64_lt_s(a: u64, b: u64) -> u32
    ensures { result ≡ ilt_s 64 a b }
{
    u32::from(a.cast_signed() < b.cast_signed())
}

/// `i64.lt_u`: whether the first is below the second (`ilt_u`; Core, numerics, integer operations).
#[inline]
pub fn i64_lt_u(a: u64, b: u64) -> u32
    ensures { result ≡ ilt_u 64 a b }
{
    u32::from(a < b)
}

/// `i64.gt_s`: whether the first is above the second, both signed (`igt_s`; Core, numerics, integer operations).
#[inline]
pub fn i64_gt_s(a: u64, b: u64) -> u32
    ensures { result ≡ igt_s 64 a b }
{
    u32::from(a.cast_signed() > b.cast_signed())
}

/// `i64.gt_u`: whether the first is above the second (`igt_u`; Core, numerics, integer operations).
#[inline]
pub fn i64_gt_u(a: u64, b: u64) -> u32
    ensures { result ≡ igt_u 64 a b }
{
    u32::from(a > b)
}

/// `i64.le_s`: whether the first is at most the second, both signed (`ile_s`; Core, numerics, integer operations).
#[inline]
pub fn i64_le_s(a: u64, b: u64) -> u32
    ensures { result ≡ ile_s 64 a b }
{
    u32::from(a.cast_signed() <= b.cast_signed())
}

/// `i64.le_u`: whether the first is at most the second (`ile_u`; Core, numerics, integer operations).
#[inline]
pub fn i64_le_u(a: u64, b: u64) -> u32
    ensures { result ≡ ile_u 64 a b }
{
    u32::from(a <= b)
}

/// `i64.ge_s`: whether the first is at least the second, both signed (`ige_s`; Core, numerics, integer operations).
#[inline]
pub fn i64_ge_s(a: u64, b: u64) -> u32
    ensures { result ≡ ige_s 64 a b }
{
    u32::from(a.cast_signed() >= b.cast_signed())
}

/// `i64.ge_u`: whether the first is at least the second (`ige_u`; Core, numerics, integer operations).
#[inline]
pub fn i64_ge_u(a: u64, b: u64) -> u32
    ensures { result ≡ ige_u 64 a b }
{
    u32::from(a >= b)
}
