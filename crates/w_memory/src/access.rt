//! Loads and stores of 1, 2, 4 or 8 bytes, the lowest first.
ghost use Rattle.std.specs.Prelude.{◌≡◌, ◌+◌, ◌^◌, ◌<◌, ◌≤◌, length, IfNone, IfSome, IsTrue};
ghost use Rattle.w_memory.specs.Bytes.{bytes_of, number_of};
ghost use Rattle.w_memory.specs.Memory.{is_access_size, left_by, load, store};
ghost use Rattle.w_memory.specs.Parts.{part, written};

use crate::mem::Mem;

fn read_2(bytes: &[u8], at: usize) -> u16
    requires { at + 2 ≤ length bytes.now }
    ensures { result ≡ number_of (part bytes.now at 2) }
{
    u16::from_le_bytes([bytes[at], bytes[at + 1]])
}

fn read_4(bytes: &[u8], at: usize) -> u32
    requires { at + 4 ≤ length bytes.now }
    ensures { result ≡ number_of (part bytes.now at 4) }
{
    u32::from_le_bytes([bytes[at], bytes[at + 1], bytes[at + 2], bytes[at + 3]])
}

fn read_8(bytes: &[u8], at: usize) -> u64
    requires { at + 8 ≤ length bytes.now }
    ensures { result ≡ number_of (part bytes.now at 8) }
{
    u64::from_le_bytes([
        bytes[at],
        bytes[at + 1],
        bytes[at + 2],
        bytes[at + 3],
        bytes[at + 4],
        bytes[at + 5],
        bytes[at + 6],
        bytes[at + 7],
    ])
}

// The number of so many bytes.
#[inline]
fn read(bytes: &[u8], at: usize, size: u32) -> u64
    requires access { IsTrue (is_access_size size) }
    requires within { at + size ≤ length bytes.now }
    ensures number { result ≡ number_of (part bytes.now at size) }
    ensures fits { result < 256 ^ size }
{
    match size {
        1 => bytes[at] as u64,
        2 => read_2(bytes, at) as u64,
        4 => read_4(bytes, at) as u64,
        _ => read_8(bytes, at),
    }
}

// Writes the low bytes of a number.
#[inline]
fn write(bytes: &mut [u8], at: usize, size: u32, v: u64)
    requires access { IsTrue (is_access_size size) }
    requires within { at + size ≤ length bytes.old }
    ensures { bytes.new ≡ written bytes.old at (bytes_of size v) }
{
    let low = v.to_le_bytes();
    match size {
        1 => bytes[at..at + 1].copy_from_slice(&low[..1]),
        2 => bytes[at..at + 2].copy_from_slice(&low[..2]),
        4 => bytes[at..at + 4].copy_from_slice(&low[..4]),
        _ => bytes[at..at + 8].copy_from_slice(&low),
    }
}

impl Mem {
    /// The number that `size` bytes, 1, 2, 4 or 8, spell from byte `at` on, the lowest first (Core, execution, `t.load`). `None`, a trap,
    /// exactly where `at + size` passes the end; the sum doesn't wrap.
    #[inline]
    #[tactic(auto, unfolding(crate::specs::Memory::load))]
    pub fn load(&self, at: u64, size: u32) -> Option<u64>
        requires { IsTrue (is_access_size size) }
        ensures outcome { result ≡ load self.now at size }
        ensures fits { IfSome result (λ n. n < 256 ^ size) }
    {
        let bytes = self.bytes.as_slice();
        if at.saturating_add(size as u64) > bytes.len() as u64 {
            return None;
        }
        Some(read(bytes, at as usize, size))
    }

    /// Writes the low `size` bytes of `v`, 1, 2, 4 or 8, from byte `at` on, the lowest first (Core, execution, `t.store`). `None`, a trap,
    /// exactly where `at + size` passes the end, and then nothing changed; the sum doesn't wrap.
    #[inline]
    #[tactic(auto, unfolding(crate::specs::Memory::store))]
    pub fn store(&mut self, at: u64, size: u32, v: u64) -> Option<()>
        requires { IsTrue (is_access_size size) }
        ensures outcome { store self.old at size v ≡ left_by result self.new }
        ensures unchanged { IfNone result (self.new ≡ self.old) }
    {
        if at.saturating_add(size as u64) > self.bytes.len() as u64 {
            return None;
        }
        write(self.bytes.as_mut_slice(), at as usize, size, v);
        Some(())
    }
}
