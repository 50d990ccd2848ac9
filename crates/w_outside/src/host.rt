//! Real files and streams. What they hold is not told, so an `open` that finds every file would meet the contracts here,
//! and so would a `read` that is always at the end: that they do what the system does is tested, and not proved.
ghost use Rattle.std.specs.Prelude.{◌≡◌, [], Some, None};
ghost use Rattle.w_outside.specs.Outside.{untold, told_where_closed};

use crate::{Fault, Inputs, Sink};
use std::fs;
use std::io::{Read, Write};
use std::rt::Files;

/// The files of the machine that the program runs on. A name without a file is a fault like any other.
#[derive(Drop)]
pub struct HostInputs<R: Files + Drop> {
    rt: R,
    file: Option<R::File>,
    faults: u64,
}

impl<R: Files + Drop> HostInputs<R> {
    /// The files that the runtime reaches, with none open and no fault counted.
    pub fn new(rt: R) -> Self
        ensures left { ⟦<HostInputs<R> as Inputs>⟧.left result ≡ Some [] }
        ensures faults { ⟦<HostInputs<R> as Inputs>⟧.faults result ≡ 0 }
    {
        HostInputs {
            rt,
            file: None,
            faults: 0,
        }
    }
}

impl<R: Files + Drop> Inputs for HostInputs<R> {
    ghost file = { λ _ _. untold };

    ghost left = { λ s. told_where_closed s.file };

    ghost faults = { λ s. s.faults };

    fn open(&mut self, name: &str) -> Result<bool, Fault> {
        self.file = None;
        match fs::open(&self.rt, name) {
            Ok(file) => {
                self.file = Some(file);
                Ok(true)
            }
            Err(_) => {
                self.faults = self.faults.saturating_add(1);
                Err(Fault::Failed)
            }
        }
    }

    fn read(&mut self, buf: &mut [u8]) -> Result<usize, Fault> {
        match &mut self.file {
            None => Ok(0),
            Some(file) => match file.read(buf) {
                Ok(count) => Ok(count),
                Err(_) => {
                    self.faults = self.faults.saturating_add(1);
                    Err(Fault::Failed)
                }
            },
        }
    }
}

/// A stream of the machine. A write of something that takes nothing is a fault.
#[derive(Drop)]
pub struct HostSink<W: Write + Drop> {
    stream: W,
    faults: u64,
}

impl<W: Write + Drop> HostSink<W> {
    /// A sink over a stream, with no fault counted.
    pub fn new(stream: W) -> Self
        ensures { ⟦<HostSink<W> as Sink>⟧.faults result ≡ 0 }
    {
        HostSink { stream, faults: 0 }
    }
}

impl<W: Write + Drop> Sink for HostSink<W> {
    ghost held = { λ _. None };

    ghost faults = { λ s. s.faults };

    ghost allocates = { ⊥ };

    fn write(&mut self, piece: &[u8]) -> Result<usize, Fault> {
        match self.stream.write(piece) {
            Ok(count) if count > 0 || piece.is_empty() => Ok(count),
            _ => {
                self.faults = self.faults.saturating_add(1);
                Err(Fault::Failed)
            }
        }
    }
}
