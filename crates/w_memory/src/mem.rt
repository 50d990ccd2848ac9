//! A linear memory, its size, and how it grows.
ghost use Rattle.std.specs.Prelude.{◌≡◌, ◌≤◌, ◌*◌, length, IfOk, OnErr};
ghost use Rattle.w_memory.specs.Memory.{fresh, grow, most_pages, page_count, page_limit, page_size};

use std::alloc::{AllocError, Global};
use std::marker::Model;

// The bytes of a page.
const PAGE: usize = 65536;

// No memory has more pages.
const PAGE_LIMIT: u32 = 256;

/// One linear memory (Core, structure, memory instances): bytes, a whole number of pages of 65,536 and at most 256 of them, and a
/// maximum of pages if it has one. Contracts see the bytes and the maximum.
#[derive(Drop)]
pub struct Mem {
    pub(crate) bytes: Vec<u8>,
    max: Option<u32>,
}

impl Model for Mem {
    ghost use Rattle.w_memory.specs.Memory.{IsWhole, Memory};

    ghost Value = { Memory };

    ghost view = { λ a. record { bytes = a.bytes.items; max = a.max } };

    ghost invariant = { λ a. IsWhole a.bytes.items };
}

// How many pages a memory with this maximum may come to.
fn most_pages(max: Option<u32>) -> u32
    ensures { result ≡ most_pages max }
{
    match max {
        Some(max) => max.min(PAGE_LIMIT),
        None => PAGE_LIMIT,
    }
}

impl Mem {
    /// A memory of `min` pages of zeros, and this maximum in pages (Core, execution, allocation of memories). It fails only for want of
    /// memory.
    #[tactic(auto, unfolding(crate::specs::Memory::fresh))]
    pub fn new(alloc: Global, min: u32, max: Option<u32>) -> Result<Mem, AllocError>
        requires { min ≤ page_limit }
        ensures { IfOk result (λ m. m ≡ fresh min max) }
    {
        let mut bytes = Vec::new(alloc);
        bytes.resize(PAGE * min as usize, 0)?;
        Ok(Mem { bytes, max })
    }

    /// The size in pages, at most 256 (Core, execution, `memory.size`).
    pub fn size(&self) -> u32
        ensures pages { result ≡ page_count self.now }
        ensures whole { length self.now.bytes ≡ page_size * result }
        ensures bounded { result ≤ page_limit }
    {
        (self.bytes.len() / PAGE) as u32
    }

    /// Adds so many pages of zeros and answers the size before, in pages; or answers -1 and changes nothing, exactly where the sum
    /// passes the maximum or 256 pages (Core, execution, `memory.grow`). For want of memory it fails and changes nothing.
    #[tactic(auto, unfolding(crate::specs::Memory::grow, crate::specs::Memory::grown))]
    pub fn grow(&mut self, pages: u32) -> Result<i32, AllocError>
        ensures grown { IfOk result (λ answer. grow self.old pages ≡ (answer, self.new)) }
        ensures err { OnErr result (self.new ≡ self.old) }
    {
        let before = self.size();
        let most = most_pages(self.max);
        if before > most || pages > most - before {
            return Ok(-1);
        }
        self.bytes.resize(PAGE * (before + pages) as usize, 0)?;
        Ok(before as i32)
    }
}
