//! Quotients and remainders.
ghost use Rattle.std.specs.Prelude.{◌≡◌};
ghost use Rattle.w_num.specs.Division.{idiv_s, idiv_u, irem_s, irem_u};

use crate::fault::NumFault;

/// `i32.div_s`: the signed quotient, rounded toward zero (`idiv_s`; Core, numerics, integer operations).
#[inline]
pub fn i32_div_s(a: u32, b: u32) -> Result<u32, NumFault>
    ensures { result ≡ idiv_s 32 a b }
{
    if b == 0 {
        return Err(NumFault::DivZero);
    }
    let quotient: Option<i32> = a.cast_signed().checked_div(b.cast_signed());
    match quotient {
        Some(quotient) => Ok(quotient.cast_unsigned()),
        None => Err(NumFault::Overflow),
    }
}

/// `i32.div_u`: the quotient, rounded down (`idiv_u`; Core, numerics, integer operations).
#[inline]
pub fn i32_div_u(a: u32, b: u32) -> Result<u32, NumFault>
    ensures { result ≡ idiv_u 32 a b }
{
    if b == 0 {
        return Err(NumFault::DivZero);
    }
    Ok(a / b)
}

/// `i32.rem_s`: the signed remainder, with the sign of the dividend (`irem_s`; Core, numerics, integer operations).
#[inline]
pub fn i32_rem_s(a: u32, b: u32) -> Result<u32, NumFault>
    ensures { result ≡ irem_s 32 a b }
{
    if b == 0 {
        return Err(NumFault::DivZero);
    }
    Ok(
        a.cast_signed()
            .wrapping_rem(b.cast_signed())
            .cast_unsigned(),
    )
}

/// `i32.rem_u`: the remainder (`irem_u`; Core, numerics, integer operations).
#[inline]
pub fn i32_rem_u(a: u32, b: u32) -> Result<u32, NumFault>
    ensures { result ≡ irem_u 32 a b }
{
    if b == 0 {
        return Err(NumFault::DivZero);
    }
    Ok(a % b)
}

/// `i64.div_s`: the signed quotient, rounded toward zero (`idiv_s`; Core, numerics, integer operations).
#[inline]
pub fn i64_div_s(a: u64, b: u64) -> Result<u64, NumFault>
    ensures { result ≡ idiv_s 64 a b }
{
    if b == 0 {
        return Err(NumFault::DivZero);
    }
    let quotient: Option<i64> = a.cast_signed().checked_div(b.cast_signed());
    match quotient {
        Some(quotient) => Ok(quotient.cast_unsigned()),
        None => Err(NumFault::Overflow),
    }
}

/// `i64.div_u`: the quotient, rounded down (`idiv_u`; Core, numerics, integer operations).
#[inline]
pub fn i64_div_u(a: u64, b: u64) -> Result<u64, NumFault>
    ensures { result ≡ idiv_u 64 a b }
{
    if b == 0 {
        return Err(NumFault::DivZero);
    }
    Ok(a / b)
}

/// `i64.rem_s`: the signed remainder, with the sign of the dividend (`irem_s`; Core, numerics, integer operations).
#[inline]
pub fn i64_rem_s(a: u64, b: u64) -> Result<u64, NumFault>
    ensures { result ≡ irem_s 64 a b }
{
    if b == 0 {
        return Err(NumFault::DivZero);
    }
    Ok(
        a.cast_signed()
            .wrapping_rem(b.cast_signed())
            .cast_unsigned(),
    )
}

/// `i64.rem_u`: the remainder (`irem_u`; Core, numerics, integer operations).
#[inline]
pub fn i64_rem_u(a: u64, b: u64) -> Result<u64, NumFault>
    ensures { result ≡ irem_u 64 a b }
{
    if b == 0 {
        return Err(NumFault::DivZero);
    }
    Ok(a % b)
}
