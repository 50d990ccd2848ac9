//! Reading one number, or one byte, at a place.
ghost use Rattle.std.specs.Prelude.{◌≡◌, ◌<◌, ◌≤◌, ◌^◌, IfSome, Some, length};
ghost use Rattle.w_leb.specs.Format.{ReadsAt, BeginsAt, byte};
ghost use Rattle.w_leb.specs.Number.{Unsigned, unsigned, Signed, signed, IsInBits};

/// The byte at a place, and the place after it. `None` exactly at the end and past it.
pub fn read_byte(bytes: &[u8], at: usize) -> Option<(u8, usize)>
    ensures { ReadsAt byte bytes.now at result }
{
    if at >= bytes.len() {
        return None;
    }
    Some((bytes[at], at + 1))
}

// An unsigned number of so many bits.
fn unsigned_at(bytes: &[u8], at: usize, width: u32) -> Option<(u64, usize)>
    requires { width ≤ 64 }
    ensures reads { ReadsAt (unsigned width) bytes.now at result }
    ensures fits { IfSome result (λ x. x.0 < 2 ^ width) }
{
    let Some((byte, next)) = read_byte(bytes, at) else {
        return None;
    };
    if byte < 128 {
        if width < 7 && byte >= 1 << width {
            return None;
        }
        return Some((byte as u64, next));
    }
    if width <= 7 {
        return None;
    }
    let Some((high, next)) = unsigned_at(bytes, next, width - 7) else {
        return None;
    };
    Some((byte as u64 - 128 + 128 * high, next))
}

// The number that is spelled by one byte here. `None` says nothing of what stands here.
#[inline(always)]
fn unsigned_byte(bytes: &[u8], at: usize, width: u32) -> Option<(u64, usize)>
    requires { 7 ≤ width }
    ensures reads { IfSome result (λ x. ReadsAt (unsigned width) bytes.now at (Some x)) }
    ensures fits { IfSome result (λ x. x.0 < 2 ^ width) }
{
    let (byte, next) = read_byte(bytes, at)?;
    if byte < 128 {
        Some((byte as u64, next))
    } else {
        None
    }
}

// The same of two bytes.
#[inline(always)]
fn unsigned_pair(bytes: &[u8], at: usize, width: u32) -> Option<(u64, usize)>
    requires low { 14 ≤ width }
    requires high { width ≤ 64 }
    ensures reads { IfSome result (λ x. ReadsAt (unsigned width) bytes.now at (Some x)) }
    ensures fits { IfSome result (λ x. x.0 < 2 ^ width) }
{
    let (byte, next) = read_byte(bytes, at)?;
    if byte < 128 {
        return None;
    }
    let (high, next) = unsigned_byte(bytes, next, width - 7)?;
    Some((byte as u64 - 128 + 128 * high, next))
}

// The same, with no call where one byte spells it, or two.
#[inline(always)]
fn unsigned_from(bytes: &[u8], at: usize, width: u32) -> Option<(u64, usize)>
    requires low { 14 ≤ width }
    requires high { width ≤ 64 }
    ensures reads { ReadsAt (unsigned width) bytes.now at result }
    ensures fits { IfSome result (λ x. x.0 < 2 ^ width) }
{
    if let Some(found) = unsigned_byte(bytes, at, width) {
        return Some(found);
    }
    if let Some(found) = unsigned_pair(bytes, at, width) {
        return Some(found);
    }
    unsigned_at(bytes, at, width)
}

/// The unsigned number of 32 bits that is spelled at a place, in any spelling of at most five bytes, and the place after it
/// (Core, binary format, values). `None` exactly where no spelling begins.
#[inline]
pub fn read_u32(bytes: &[u8], at: usize) -> Option<(u32, usize)>
    ensures reads { ReadsAt (unsigned 32) bytes.now at result }
    ensures begins { BeginsAt (Unsigned 32) bytes.now at result }
{
    let Some((value, next)) = unsigned_from(bytes, at, 32) else {
        return None;
    };
    Some((value as u32, next))
}

/// The unsigned number of 64 bits that is spelled at a place, in any spelling of at most ten bytes, and the place after it
/// (Core, binary format, values). `None` exactly where no spelling begins.
#[inline]
pub fn read_u64(bytes: &[u8], at: usize) -> Option<(u64, usize)>
    ensures reads { ReadsAt (unsigned 64) bytes.now at result }
    ensures begins { BeginsAt (Unsigned 64) bytes.now at result }
{
    unsigned_from(bytes, at, 64)
}

// A signed number of so many bits. It stands out of line, so that readers of instructions have what one byte spells in line.
#[inline(never)]
fn signed_at(bytes: &[u8], at: usize, width: u32) -> Option<(i64, usize)>
    requires low { 0 < width }
    requires high { width ≤ 64 }
    ensures reads { ReadsAt (signed width) bytes.now at result }
    ensures fits { IfSome result (λ x. IsInBits width x.0) }
{
    let Some((byte, next)) = read_byte(bytes, at) else {
        return None;
    };
    if byte < 64 {
        if width < 7 && byte >= 1 << (width - 1) {
            return None;
        }
        return Some((byte as i64, next));
    }
    if byte < 128 {
        let below = 128 - byte;
        if width < 7 && below > 1 << (width - 1) {
            return None;
        }
        return Some((-(below as i64), next));
    }
    if width <= 7 {
        return None;
    }
    let Some((high, next)) = signed_at(bytes, next, width - 7) else {
        return None;
    };
    Some(((byte - 128) as i64 + 128 * high, next))
}

// The number that is spelled by one byte here. `None` says nothing of what stands here.
#[inline(always)]
fn signed_byte(bytes: &[u8], at: usize, width: u32) -> Option<(i64, usize)>
    requires { 7 ≤ width }
    ensures reads { IfSome result (λ x. ReadsAt (signed width) bytes.now at (Some x)) }
    ensures fits { IfSome result (λ x. IsInBits width x.0) }
{
    let (byte, next) = read_byte(bytes, at)?;
    if byte < 64 {
        return Some((byte as i64, next));
    }
    if byte < 128 {
        let below = 128 - byte;
        return Some((-(below as i64), next));
    }
    None
}

// The same of two bytes.
#[inline(always)]
fn signed_pair(bytes: &[u8], at: usize, width: u32) -> Option<(i64, usize)>
    requires low { 14 ≤ width }
    requires high { width ≤ 64 }
    ensures reads { IfSome result (λ x. ReadsAt (signed width) bytes.now at (Some x)) }
    ensures fits { IfSome result (λ x. IsInBits width x.0) }
{
    let (byte, next) = read_byte(bytes, at)?;
    if byte < 128 {
        return None;
    }
    let (high, next) = signed_byte(bytes, next, width - 7)?;
    Some(((byte - 128) as i64 + 128 * high, next))
}

// The same, with no call where one byte spells it, or two.
#[inline(always)]
fn signed_from(bytes: &[u8], at: usize, width: u32) -> Option<(i64, usize)>
    requires low { 14 ≤ width }
    requires high { width ≤ 64 }
    ensures reads { ReadsAt (signed width) bytes.now at result }
    ensures fits { IfSome result (λ x. IsInBits width x.0) }
{
    if let Some(found) = signed_byte(bytes, at, width) {
        return Some(found);
    }
    if let Some(found) = signed_pair(bytes, at, width) {
        return Some(found);
    }
    signed_at(bytes, at, width)
}

/// The signed number of 32 bits that is spelled at a place, in any spelling of at most five bytes, and the place after it
/// (Core, binary format, values). `None` exactly where no spelling begins.
#[inline(always)]
pub fn read_s32(bytes: &[u8], at: usize) -> Option<(i32, usize)>
    ensures reads { ReadsAt (signed 32) bytes.now at result }
    ensures begins { BeginsAt (Signed 32) bytes.now at result }
{
    let Some((value, next)) = signed_from(bytes, at, 32) else {
        return None;
    };
    Some((value as i32, next))
}

/// The signed number of 33 bits, from -2^32 to 2^32 - 1, that is spelled at a place, in any spelling of at most five bytes,
/// and the place after it (Core, binary format, values). `None` exactly where no spelling begins.
pub fn read_s33(bytes: &[u8], at: usize) -> Option<(i64, usize)>
    ensures reads { ReadsAt (signed 33) bytes.now at result }
    ensures begins { BeginsAt (Signed 33) bytes.now at result }
    ensures fits { IfSome result (λ x. IsInBits 33 x.0) }
{
    signed_at(bytes, at, 33)
}

/// The signed number of 64 bits that is spelled at a place, in any spelling of at most ten bytes, and the place after it
/// (Core, binary format, values). `None` exactly where no spelling begins.
#[inline(always)]
pub fn read_s64(bytes: &[u8], at: usize) -> Option<(i64, usize)>
    ensures reads { ReadsAt (signed 64) bytes.now at result }
    ensures begins { BeginsAt (Signed 64) bytes.now at result }
{
    signed_from(bytes, at, 64)
}
