//! Sinks for what may be longer than there is room for.
ghost use Rattle.std.specs.Prelude.{◌≡◌, [], Some, ⊤, length, take, min};
ghost use Rattle.fronts.specs.Fronts.{most_counted};

use crate::written::and_piece;
use http_server::Log;
use std::alloc::Global;
use std::marker::Model;
use std::mem;
use w_outside::{Fault, Sink};

/// A sink that takes all, keeps the first bytes, as many as it may, and counts all of them. It takes no more memory than for what it keeps.
#[derive(Drop)]
pub struct FrontSink {
    front: Vec<u8>,
    most: usize,
    count: u64,
    written: Log<u8, u8>,
}

impl Model for FrontSink {
    ghost use Rattle.fronts.specs.Fronts.{Taken, taken_code, IsKept, text_of};

    ghost Value = { Taken };

    ghost coded = { taken_code };

    ghost view = { λ a. record { text = text_of a.written.items; most = a.most } };

    ghost invariant = { λ a. IsKept (record { text = text_of a.written.items; most = a.most }) a.front.items a.count };
}

impl FrontSink {
    /// An empty sink that keeps so many bytes at most.
    pub fn new(alloc: Global, most: usize) -> FrontSink
        ensures { result ≡ record { text = []; most = most } }
    {
        FrontSink {
            front: Vec::new(alloc),
            most,
            count: 0,
            written: Log::new(),
        }
    }

    /// The first bytes that were taken.
    pub fn front(&self) -> &[u8]
        ensures { result.now ≡ take self.now.most self.now.text }
    {
        self.front.as_slice()
    }

    /// How many bytes are kept at most.
    pub fn most(&self) -> usize
        ensures { result ≡ self.now.most }
    {
        self.most
    }

    /// How many bytes were taken, up to 2^64 - 1.
    pub fn count(&self) -> u64
        ensures { result ≡ min (length self.now.text) most_counted }
    {
        self.count
    }
}

impl Sink for FrontSink {
    ghost held = { λ s. Some s.text };

    ghost faults = { λ _. 0 };

    ghost allocates = { ⊤ };

    fn write(&mut self, piece: &[u8]) -> Result<usize, Fault> {
        let room = self.most - self.front.len();
        let kept = room.min(piece.len());
        self.front.extend_from_slice(&piece[..kept])?;
        self.count = self.count.saturating_add(piece.len() as u64);
        self.written = and_piece(mem::replace(&mut self.written, Log::new()), piece);
        Ok(piece.len())
    }
}
