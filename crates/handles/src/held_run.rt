//! A run that is held.
ghost use Rattle.std.specs.Prelude.{◌≡◌, ◌≢◌, ◌+◌, ◌≤◌, ◌<◌, None, Some, IfSome, [], IfOk};
ghost use Rattle.w_machine.specs.Position.{Runs, most_reductions};
ghost use Rattle.w_machine.specs.RunStop.{stopped_in};
ghost use Rattle.w_machine.specs.declared.outcome.Outcome.TheVariants as outcome;

use crate::unread::Unread;
use std::alloc::{AllocError, Global};
use w_machine::{Machine, Outcome};
use words::MOST_STEPS;

/// A machine, and what its run printed and wasn't read.
#[derive(Drop)]
pub struct HeldRun {
    pub(crate) machine: Machine,
    pub(crate) unread: Unread,
}

impl HeldRun {
    /// The run of a machine, of which nothing was printed.
    pub(crate) fn of(alloc: Global, machine: Machine) -> Result<Box<HeldRun>, AllocError>
        ensures { IfOk result (λ run. (run.value.machine ≡ machine) × (run.value.unread ≡ [])) }
    {
        let unread = Unread::new(alloc);
        Ok(Box::new(alloc, HeldRun { machine, unread })?)
    }

    /// Takes so many reductions at most, or says that they were too many with those that were taken.
    pub(crate) fn step(&mut self, steps: u64) -> Option<Outcome>
        ensures steps { self.old.machine.taken + steps ≤ most_reductions → IfSome result (λ o.
            Runs self.old.machine steps (stopped_in o) self.new.machine (Some self.old.unread) (Some self.new.unread)) }
        ensures some { self.old.machine.taken + steps ≤ most_reductions → result ≢ None }
        ensures sure { self.old.machine.stop ≡ None → result ≢ Some outcome.WriteFault }
        ensures too_many { most_reductions < self.old.machine.taken + steps → (result ≡ None) × (self.new ≡ self.old) }
    {
        match self.machine.taken().checked_add(steps) {
            Some(end) if end <= MOST_STEPS => { Some(self.machine.run(steps, &mut self.unread)) }
            _ => None,
        }
    }
}
