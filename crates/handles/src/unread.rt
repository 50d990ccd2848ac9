//! What was printed and not read.
ghost use Rattle.std.specs.Prelude.{◌≡◌, ◌++◌, ⊤, [], Some, drop, length, min, take};

use std::alloc::Global;
use std::marker::Model;
use w_outside::{Fault, Sink};

/// A text that is written behind and read in front.
#[derive(Drop)]
pub struct Unread {
    bytes: Vec<u8>,
    /// So many of the bytes were read.
    read: usize,
}

impl Model for Unread {
    ghost use Rattle.std.specs.Prelude.{◌≤◌, ℕ, List, drop, length};
    ghost use Rattle.std.specs.Coded.{coded_list, coded_ℕ};

    ghost Value = { List ℕ };

    ghost coded = { coded_list coded_ℕ };

    ghost view = { λ a. drop a.read a.bytes.items };

    ghost invariant = { λ a. a.read ≤ length a.bytes.items };
}

impl Unread {
    /// Nothing was written.
    pub(crate) fn new(alloc: Global) -> Unread
        ensures { result ≡ [] }
    {
        Unread {
            bytes: Vec::new(alloc),
            read: 0,
        }
    }

    /// Reads the first bytes that weren't read, as many as a buffer takes, and says how many.
    pub(crate) fn read(&mut self, buffer: &mut [u8]) -> usize
        ensures count { result ≡ min (length buffer.old) (length self.old) }
        ensures content { buffer.new ≡ take result self.old ++ drop result buffer.old }
        ensures rest { self.new ≡ drop result self.old }
    {
        let unread = &self.bytes[self.read..];
        let count = buffer.len().min(unread.len());
        buffer[..count].copy_from_slice(&unread[..count]);
        self.read += count;
        if self.read == self.bytes.len() {
            self.bytes.clear();
            self.read = 0;
        }
        count
    }
}

impl Sink for Unread {
    ghost held = { λ s. Some s };

    ghost faults = { λ _. 0 };

    ghost allocates = { ⊤ };

    fn write(&mut self, piece: &[u8]) -> Result<usize, Fault> {
        self.bytes.extend_from_slice(piece)?;
        Ok(piece.len())
    }
}
