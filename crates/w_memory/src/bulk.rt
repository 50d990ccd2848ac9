//! Filling, copying within a memory, and copying from a data segment or another memory.
ghost use Rattle.std.specs.Prelude.{◌≡◌, ◌+◌, ◌≤◌, length, replicate, IfNone};
ghost use Rattle.w_memory.specs.Memory.{copy, fill, init, left_by};
ghost use Rattle.w_memory.specs.Parts.{is_within, part, written};

use crate::mem::Mem;

fn fill_part(bytes: &mut [u8], to: usize, byte: u8, n: usize)
    requires { to + n ≤ length bytes.old }
    ensures { bytes.new ≡ written bytes.old to (replicate n byte) }
{
    bytes[to..to + n].fill(byte);
}

fn copy_part(bytes: &mut [u8], to: usize, from: usize, n: usize)
    requires within { to + n ≤ length bytes.old }
    requires source { from + n ≤ length bytes.old }
    ensures { bytes.new ≡ written bytes.old to (part bytes.old from n) }
{
    bytes.copy_within(from..from + n, to);
}

fn init_part(bytes: &mut [u8], source: &[u8], to: usize, from: usize, n: usize)
    requires within { to + n ≤ length bytes.old }
    requires source { from + n ≤ length source.now }
    ensures { bytes.new ≡ written bytes.old to (part source.now from n) }
{
    bytes[to..to + n].copy_from_slice(&source[from..from + n]);
}

impl Mem {
    // Whether so many bytes from a place on don't pass the end.
    fn has_part(&self, at: u32, n: u32) -> bool
        ensures { result ≡ is_within at n self.now.bytes }
    {
        at as u64 + n as u64 <= self.bytes.len() as u64
    }

    /// Writes a byte `n` times, from byte `to` on (Core, execution, `memory.fill`). `None`, a trap, exactly where `to + n` passes the end,
    /// also for `n` = 0, and then nothing changed.
    #[tactic(auto, unfolding(crate::specs::Memory::fill))]
    pub fn fill(&mut self, to: u32, byte: u8, n: u32) -> Option<()>
        ensures outcome { fill self.old to byte n ≡ left_by result self.new }
        ensures unchanged { IfNone result (self.new ≡ self.old) }
    {
        if !self.has_part(to, n) {
            return None;
        }
        fill_part(self.bytes.as_mut_slice(), to as usize, byte, n as usize);
        Some(())
    }

    /// Writes the `n` bytes from `from` on, as they were before, from byte `to` on (Core, execution, `memory.copy`). `None`, a trap,
    /// exactly where `from + n` or `to + n` passes the end, also for `n` = 0, and then nothing changed.
    #[tactic(auto, unfolding(crate::specs::Memory::copy))]
    pub fn copy(&mut self, to: u32, from: u32, n: u32) -> Option<()>
        ensures outcome { copy self.old to from n ≡ left_by result self.new }
        ensures unchanged { IfNone result (self.new ≡ self.old) }
    {
        if !self.has_part(to, n) || !self.has_part(from, n) {
            return None;
        }
        copy_part(
            self.bytes.as_mut_slice(),
            to as usize,
            from as usize,
            n as usize,
        );
        Some(())
    }

    /// Writes the `n` bytes of a data segment from `from` on, from byte `to` of the memory on (Core, execution, `memory.init`). `None`, a
    /// trap, exactly where `from + n` passes the segment's end or `to + n` the memory's, also for `n` = 0, and then nothing changed.
    #[tactic(auto, unfolding(crate::specs::Memory::init))]
    pub fn init(&mut self, source: &[u8], to: u32, from: u32, n: u32) -> Option<()>
        ensures outcome { init self.old source.now to from n ≡ left_by result self.new }
        ensures unchanged { IfNone result (self.new ≡ self.old) }
    {
        if !self.has_part(to, n) || from as u64 + n as u64 > source.len() as u64 {
            return None;
        }
        init_part(
            self.bytes.as_mut_slice(),
            source,
            to as usize,
            from as usize,
            n as usize,
        );
        Some(())
    }

    /// Writes the `n` bytes of another memory from `from` on, from byte `to` of this one on (Core, execution, `memory.copy`). `None`, a
    /// trap, exactly where `from + n` passes the end of the other or `to + n` that of this one, also for `n` = 0, and then nothing
    /// changed.
    pub fn copy_from(&mut self, source: &Mem, to: u32, from: u32, n: u32) -> Option<()>
        ensures outcome { init self.old source.now.bytes to from n ≡ left_by result self.new }
        ensures unchanged { IfNone result (self.new ≡ self.old) }
    {
        self.init(source.bytes.as_slice(), to, from, n)
    }
}
