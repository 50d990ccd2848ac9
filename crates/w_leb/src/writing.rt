//! Writing one number by its shortest spelling.
ghost use Rattle.std.specs.Prelude.{◌≡◌, ◌<◌, ◌≤◌, ◌^◌, List, ℕ, length};
ghost use Rattle.w_leb.specs.Number.{Unsigned, Signed, IsInBits, shortest, shortest_signed, of_size, byte_of};

use arrayvec::ArrayVec;

// The shortest spelling of an unsigned number, which is the same at each width that holds it.
fn put_number(v: u64) -> ArrayVec<u8, 10>
    ensures { result.items ≡ shortest v }
{
    let mut out = ArrayVec::new();
    let mut left = v;
    while left >= 128 {
        out.push((left % 128 + 128) as u8);
        left /= 128;
    }
    out.push(left as u8);
    out
}

/// The shortest spelling of an unsigned number of 32 bits, of one to five bytes (Core, binary format, values).
pub fn put_u32(v: u32) -> ArrayVec<u8, 10>
    ensures canonical { result.items ≡ shortest v }
    ensures spelled { Unsigned 32 result.items v }
    ensures least { (b : List ℕ) → Unsigned 32 b v → length result.items ≤ length b }
{
    put_number(v as u64)
}

/// The shortest spelling of an unsigned number of 64 bits, of one to ten bytes (Core, binary format, values).
pub fn put_u64(v: u64) -> ArrayVec<u8, 10>
    ensures canonical { result.items ≡ shortest v }
    ensures spelled { Unsigned 64 result.items v }
    ensures least { (b : List ℕ) → Unsigned 64 b v → length result.items ≤ length b }
{
    put_number(v)
}

// The low seven bits of a number that is left, or of -left - 1, and whether more bytes follow.
fn low_bits(negative: bool, left: u64, more: bool) -> u8
    ensures { result ≡ byte_of negative left more }
{
    let low = (left % 128) as u8;
    let low = if negative { 127 - low } else { low };
    if more { low + 128 } else { low }
}

// The shortest spelling of `size`, or of -size - 1, so that a negative number is divided as one that is not.
fn put_of_size(negative: bool, size: u64) -> ArrayVec<u8, 10>
    requires { size < 2 ^ 63 }
    ensures { result.items ≡ shortest_signed (of_size negative size) }
{
    let mut out = ArrayVec::new();
    let mut left = size;
    while left >= 64 {
        out.push(low_bits(negative, left, true));
        left /= 128;
    }
    out.push(low_bits(negative, left, false));
    out
}

// The shortest spelling of a signed number, which is the same at each width that holds it.
fn put_signed(v: i64) -> ArrayVec<u8, 10>
    ensures { result.items ≡ shortest_signed v }
{
    if v < 0 {
        put_of_size(true, -(v + 1) as u64)
    } else {
        put_of_size(false, v as u64)
    }
}

/// The shortest spelling of a signed number of 32 bits, of one to five bytes (Core, binary format, values).
pub fn put_s32(v: i32) -> ArrayVec<u8, 10>
    ensures canonical { result.items ≡ shortest_signed v }
    ensures spelled { Signed 32 result.items v }
    ensures least { (b : List ℕ) → Signed 32 b v → length result.items ≤ length b }
{
    put_signed(v as i64)
}

/// The shortest spelling of a signed number of 33 bits, from -2^32 to 2^32 - 1, of one to five bytes (Core, binary format,
/// values).
pub fn put_s33(v: i64) -> ArrayVec<u8, 10>
    requires { IsInBits 33 v }
    ensures canonical { result.items ≡ shortest_signed v }
    ensures spelled { Signed 33 result.items v }
    ensures least { (b : List ℕ) → Signed 33 b v → length result.items ≤ length b }
{
    put_signed(v)
}

/// The shortest spelling of a signed number of 64 bits, of one to ten bytes (Core, binary format, values).
pub fn put_s64(v: i64) -> ArrayVec<u8, 10>
    ensures canonical { result.items ≡ shortest_signed v }
    ensures spelled { Signed 64 result.items v }
    ensures least { (b : List ℕ) → Signed 64 b v → length result.items ≤ length b }
{
    put_signed(v)
}
