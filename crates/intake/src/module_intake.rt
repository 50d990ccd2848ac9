//! A module that is judged as its bytes come.
ghost use Rattle.std.specs.Prelude.{◌≡◌, ◌≢◌, ◌++◌, ℕ, List, [], IfOk, IfErr, OnOk};
ghost use Rattle.w_syntax.specs.Spells.{Spells};
ghost use Rattle.w_rules.specs.Limits.{Within};
ghost use Rattle.w_rules.specs.Valid.{Valid};
ghost use Rattle.w_decode.specs.Pieces.{IsSound};
ghost use Rattle.replies.specs.Answer.{BytesRefusal, malformed};
ghost use Rattle.intake.specs.Intake.{IsModuleOf};
ghost use Rattle.replies.specs.Stop.{Refuses};

use crate::judging::accept_rest;
use replies::{Status, Stop, malformed_line, refuse_by};
use std::alloc::{AllocError, Global};
use w_decode::{DecodeFault, Decoder};
use w_rules::Checked;
use w_valid::Gradual;

/// A module of which some bytes came: decoded as far as they go, each body judged as it closed.
#[derive(Drop)]
pub struct ModuleIntake {
    pub(crate) decoder: Decoder,
    pub(crate) gradual: Gradual,
}

// Why bytes are refused that have this fault.
fn malformed_refusal(alloc: Global, fault: DecodeFault) -> Stop
    ensures { Refuses (λ reply. (fault ≢ DecodeFault.OutOfMemory) × (reply ≡ malformed fault)) result }
{
    match fault {
        DecodeFault::OutOfMemory => Stop::OutOfMemory,
        fault => match malformed_line(alloc, fault) {
            Ok(line) => refuse_by(alloc, line, Status::Malformed),
            Err(_) => Stop::OutOfMemory,
        },
    }
}

impl ModuleIntake {
    /// No bytes yet.
    pub(crate) fn new(alloc: Global) -> Result<ModuleIntake, AllocError>
        ensures { IfOk result (λ intake. IsModuleOf intake []) }
    {
        let gradual = Gradual::begin(alloc)?;
        let decoder = Decoder::new(alloc)?;
        Ok(ModuleIntake { decoder, gradual })
    }

    // Judges the bodies that closed since the last piece.
    fn judge_bodies(&mut self) -> Result<(), AllocError>
        requires { IsSound self.old.decoder }
        ensures { OnOk result ((b : List ℕ) → IsModuleOf self.old b → IsModuleOf self.new b) }
    {
        for index in self.gradual.judged()..self.decoder.closed() as usize {
            self.gradual.body(self.decoder.so_far(), index as u32)?;
        }
        Ok(())
    }

    /// Takes in the next piece. What is wrong with the bytes is not looked at before all are there: it fails only when out of memory.
    pub(crate) fn take(&mut self, piece: &[u8]) -> Result<(), AllocError>
        ensures { OnOk result ((b : List ℕ) → IsModuleOf self.old b → IsModuleOf self.new (b ++ piece.now)) }
    {
        match self.decoder.feed(piece) {
            Ok(()) => self.judge_bodies(),
            Err(DecodeFault::OutOfMemory) => Err(AllocError),
            Err(_) => Ok(()),
        }
    }

    /// The module that the bytes spell, where it is valid and within its limits.
    pub fn judge(self, alloc: Global) -> Result<Checked, Stop>
        requires { (b : List ℕ) × IsModuleOf self b }
        ensures spelled { (b : List ℕ) → IsModuleOf self b → IfOk result (λ checked. Spells b checked) }
        ensures within { IfOk result Within }
        ensures valid { IfOk result Valid }
        ensures refused { (b : List ℕ) → IsModuleOf self b → IfErr result (Refuses (BytesRefusal b)) }
    {
        let ModuleIntake { decoder, gradual } = self;
        match decoder.finish() {
            Ok(candidate) => accept_rest(alloc, gradual, candidate),
            Err(fault) => {
                drop(gradual);
                Err(malformed_refusal(alloc, fault))
            }
        }
    }
}

/// The first bytes of a module.
pub(crate) fn begin_module(alloc: Global, bytes: &[u8]) -> Result<ModuleIntake, AllocError>
    ensures { IfOk result (λ m. IsModuleOf m bytes.now) }
{
    let mut module = ModuleIntake::new(alloc)?;
    match module.take(bytes) {
        Ok(()) => Ok(module),
        Err(error) => {
            drop(module);
            Err(error)
        }
    }
}

/// The module that bytes are a spelling of, where it is valid and within its limits.
pub fn judge_bytes(alloc: Global, bytes: &[u8]) -> Result<Checked, Stop>
    ensures spelled { IfOk result (λ checked. Spells bytes.now checked) }
    ensures within { IfOk result Within }
    ensures valid { IfOk result Valid }
    ensures refused { IfErr result (Refuses (BytesRefusal bytes.now)) }
{
    begin_module(alloc, bytes)?.judge(alloc)
}
