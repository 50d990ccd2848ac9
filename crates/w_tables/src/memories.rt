//! Memories.
ghost use Rattle.std.specs.Prelude.{◌≡◌, ◌≢◌, ◌<◌, length, IfSome, slice_get, slice_set};
ghost use Rattle.std.specs.Borrow.{sem};
ghost use Rattle.w_memory.specs.Memory.{init};
ghost use Rattle.w_tables.specs.Lending.{LendsMemory};
ghost use Rattle.w_tables.specs.Operations as op;
ghost use Rattle.w_tables.specs.Operations.{bytes_at, memory_at};
ghost use Rattle.w_tables.specs.Outcomes.{outcome};

use crate::store::{DataSegment, Store};
use w_memory::Mem;

// The bytes of a data segment, or none where none is named.
#[inline]
fn bytes_at(datas: &[DataSegment], segment: Option<u32>) -> &[u8]
    requires segment { IfSome segment (λ d. d < length datas.now) }
    ensures bytes { result.now ≡ bytes_at datas.now segment }
{
    match segment {
        Some(d) => {
            let data = &datas[d as usize];
            data.bytes.as_slice()
        }
        None => &[],
    }
}

// Copies bytes of a memory to another place in it.
fn copy_within(memories: &mut [Mem], at: usize, to: u32, from: u32, n: u32) -> Option<()>
    requires memory { at < length memories.old }
    ensures left { outcome memories.old (λ m. slice_set memories.old at m) (init (memory_at memories.old at) (memory_at memories.old at).bytes to from n) ≡ (result, memories.new) }
{
    memories[at].copy(to, from, n)
}

// Copies bytes of one memory to another.
fn copy_between(
    memories: &mut [Mem],
    dst: usize,
    src: usize,
    to: u32,
    from: u32,
    n: u32,
) -> Option<()>
    requires target { dst < length memories.old }
    requires source { src < length memories.old }
    requires apart { dst ≢ src }
    ensures left { outcome memories.old (λ m. slice_set memories.old dst m) (init (memory_at memories.old dst) (memory_at memories.old src).bytes to from n) ≡ (result, memories.new) }
{
    if dst < src {
        let (front, back) = memories.split_at_mut(src);
        let target = &mut front[dst];
        return target.copy_from(&back[0], to, from, n);
    }
    let (front, back) = memories.split_at_mut(dst);
    let target = &mut back[0];
    target.copy_from(&front[src], to, from, n)
}

impl Store {
    /// The memory at an address (Core, execution, memory instructions).
    #[inline]
    pub fn memory(&self, memory: u32) -> &Mem
        requires memory { memory < length self.now.memories }
        ensures memory { slice_get self.now.memories memory ≡ Some result.now }
    {
        &self.memories[memory as usize]
    }

    /// The memory at an address, to be changed, and the bytes of the data segment at an address, or no bytes where none is given (Core,
    /// execution, `memory.init`, which takes both).
    #[inline]
    pub fn memory_with(&mut self, memory: u32, segment: Option<u32>) -> (&mut Mem, &[u8])
        requires memory { memory < length self.old.memories }
        requires segment { IfSome segment (λ d. d < length self.old.datas) }
        ensures* writes_back { sem 𝓛 (LendsMemory self.entry memory result.0) }
        ensures memory { slice_get self.old.memories memory ≡ Some result.0.now }
        ensures bytes { result.1.now ≡ bytes_at self.old.datas segment }
    {
        let datas = self.datas.as_slice();
        let memories = &mut self.memories;
        (&mut memories[memory as usize], bytes_at(datas, segment))
    }

    /// Writes the `n` bytes of the memory `src` that stand from `from` on, as they were before, from byte `to` of the memory `dst` on
    /// (Core, execution, `memory.copy`). `None`, a trap, exactly where either range passes the end of its memory, also for `n` = 0, and
    /// then nothing changed.
    #[tactic(auto, unfolding(crate::specs::Operations::memory_copy))]
    pub fn memory_copy(&mut self, dst: u32, src: u32, to: u32, from: u32, n: u32) -> Option<()>
        requires target { dst < length self.old.memories }
        requires source { src < length self.old.memories }
        ensures outcome { op.memory_copy self.old dst src to from n ≡ (result, self.new) }
    {
        if dst == src {
            return copy_within(self.memories.as_mut_slice(), dst as usize, to, from, n);
        }
        copy_between(
            self.memories.as_mut_slice(),
            dst as usize,
            src as usize,
            to,
            from,
            n,
        )
    }
}
