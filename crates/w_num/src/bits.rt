//! Counts of bits, and operations bit by bit.
ghost use Rattle.std.specs.Prelude.{◌≡◌};
ghost use Rattle.w_num.specs.Bits.{iclz, ictz, ipopcnt, iand, ior, ixor};

/// `i32.clz`: how many zeros the bits begin with (`iclz`; Core, numerics, integer operations).
#[inline]
pub fn i32_clz(a: u32) -> u32
    ensures { result ≡ iclz 32 a }
{
    a.leading_zeros()
}

/// `i32.ctz`: how many zeros the bits end with (`ictz`; Core, numerics, integer operations).
#[inline]
pub fn i32_ctz(a: u32) -> u32
    ensures { result ≡ ictz 32 a }
{
    a.trailing_zeros()
}

/// `i32.popcnt`: how many bits are 1 (`ipopcnt`; Core, numerics, integer operations).
#[inline]
pub fn i32_popcnt(a: u32) -> u32
    ensures { result ≡ ipopcnt 32 a }
{
    a.count_ones()
}

/// `i32.and`: the bits that both have (`iand`; Core, numerics, integer operations).
#[inline]
pub fn i32_and(a: u32, b: u32) -> u32
    ensures { result ≡ iand 32 a b }
{
    a & b
}

/// `i32.or`: the bits that either has (`ior`; Core, numerics, integer operations).
#[inline]
pub fn i32_or(a: u32, b: u32) -> u32
    ensures { result ≡ ior 32 a b }
{
    a | b
}

/// `i32.xor`: the bits that one of them has (`ixor`; Core, numerics, integer operations).
#[inline]
pub fn i32_xor(a: u32, b: u32) -> u32
    ensures { result ≡ ixor 32 a b }
{
    a ^ b
}

/// `i64.clz`: how many zeros the bits begin with (`iclz`; Core, numerics, integer operations).
#[inline]
pub fn i64_clz(a: u64) -> u64
    ensures { result ≡ iclz 64 a }
{
    u64::from(a.leading_zeros())
}

/// `i64.ctz`: how many zeros the bits end with (`ictz`; Core, numerics, integer operations).
#[inline]
pub fn i64_ctz(a: u64) -> u64
    ensures { result ≡ ictz 64 a }
{
    u64::from(a.trailing_zeros())
}

/// `i64.popcnt`: how many bits are 1 (`ipopcnt`; Core, numerics, integer operations).
#[inline]
pub fn i64_popcnt(a: u64) -> u64
    ensures { result ≡ ipopcnt 64 a }
{
    u64::from(a.count_ones())
}

/// `i64.and`: the bits that both have (`iand`; Core, numerics, integer operations).
#[inline]
pub fn i64_and(a: u64, b: u64) -> u64
    ensures { result ≡ iand 64 a b }
{
    a & b
}

/// `i64.or`: the bits that either has (`ior`; Core, numerics, integer operations).
#[inline]
pub fn i64_or(a: u64, b: u64) -> u64
    ensures { result ≡ ior 64 a b }
{
    a | b
}

/// `i64.xor`: the bits that one of them has (`ixor`; Core, numerics, integer operations).
#[inline]
pub fn i64_xor(a: u64, b: u64) -> u64
    ensures { result ≡ ixor 64 a b }
{
    a ^ b
}
