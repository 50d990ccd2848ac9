//! The bytes of a file, taken in as they are read.
ghost use Rattle.std.specs.Prelude.{◌≡◌, ◌++◌, ℕ, List, [], IfOk, OnOk};
ghost use Rattle.words.specs.declared.request.Takes.{Takes as TheTakes};
ghost use Rattle.intake.specs.Intake.{IsInputOf, TakesIn};

use crate::module_intake::{ModuleIntake, begin_module};
use replies::FileKind;
use std::alloc::{AllocError, Global};
use std::mem;
use words::Takes;

/// So many bytes say whether a file begins as modules do.
const FRONT_LENGTH: usize = 4;

/// What a file is to what takes files.
#[derive(Drop)]
pub enum Input {
    /// A script, by its bytes.
    Script(Vec<u8>),
    /// The text of a module, by its bytes.
    Text(Vec<u8>),
    /// A module, whose bytes are not kept.
    Module(ModuleIntake),
}

/// A file whose bytes come in pieces.
#[derive(Drop)]
pub enum Intake {
    /// Its bytes, which are too few to say what it is.
    Front(Vec<u8>),
    Known(Input),
}

impl Input {
    /// What the bytes are to what takes such files.
    pub fn of_bytes(alloc: Global, takes: Takes, bytes: Vec<u8>) -> Result<Input, AllocError>
        ensures { IfOk result (λ input. IsInputOf takes input bytes.items) }
    {
        match FileKind::of(takes, bytes.as_slice()) {
            FileKind::Script => Ok(Input::Script(bytes)),
            FileKind::Text => Ok(Input::Text(bytes)),
            FileKind::Module => Ok(Input::Module(begin_module(alloc, bytes.as_slice())?)),
        }
    }

    /// The same of bytes that are lent. Those of a module are not copied.
    pub fn of_slice(alloc: Global, takes: Takes, bytes: &[u8]) -> Result<Input, AllocError>
        ensures { IfOk result (λ input. IsInputOf takes input bytes.now) }
    {
        match FileKind::of(takes, bytes) {
            FileKind::Script => Ok(Input::Script(Vec::from_slice(alloc, bytes)?)),
            FileKind::Text => Ok(Input::Text(Vec::from_slice(alloc, bytes)?)),
            FileKind::Module => Ok(Input::Module(begin_module(alloc, bytes)?)),
        }
    }
}

impl Intake {
    /// No bytes yet.
    pub fn new(alloc: Global) -> Intake
        ensures { (taking : TheTakes) → TakesIn taking result [] }
    {
        Intake::Front(Vec::new(alloc))
    }

    // Takes in the next piece behind bytes that are too few.
    fn take_front(
        &mut self,
        alloc: Global,
        takes: Takes,
        front: Vec<u8>,
        piece: &[u8],
    ) -> Result<(), AllocError>
        ensures { OnOk result (TakesIn takes self.new (front.items ++ piece.now)) }
    {
        let mut bytes = front;
        bytes.extend_from_slice(piece)?;
        let next = if bytes.len() < FRONT_LENGTH {
            Intake::Front(bytes)
        } else {
            Intake::Known(Input::of_bytes(alloc, takes, bytes)?)
        };
        drop(mem::replace(self, next));
        Ok(())
    }

    /// Takes in the next piece.
    pub fn take(&mut self, alloc: Global, takes: Takes, piece: &[u8]) -> Result<(), AllocError>
        ensures { OnOk result ((b : List ℕ) → TakesIn takes self.old b → TakesIn takes self.new (b ++ piece.now)) }
    {
        match self {
            Intake::Front(bytes) => {
                let front = mem::replace(bytes, Vec::new(alloc));
                self.take_front(alloc, takes, front, piece)
            }
            Intake::Known(Input::Script(bytes)) => {
                bytes.extend_from_slice(piece)?;
                Ok(())
            }
            Intake::Known(Input::Text(bytes)) => {
                bytes.extend_from_slice(piece)?;
                Ok(())
            }
            Intake::Known(Input::Module(module)) => module.take(piece),
        }
    }

    /// What the file is, where its bytes are all there.
    pub fn end(self, alloc: Global, takes: Takes) -> Result<Input, AllocError>
        ensures { (b : List ℕ) → TakesIn takes self b → IfOk result (λ input. IsInputOf takes input b) }
    {
        match self {
            Intake::Front(bytes) => Input::of_bytes(alloc, takes, bytes),
            Intake::Known(input) => Ok(input),
        }
    }
}
