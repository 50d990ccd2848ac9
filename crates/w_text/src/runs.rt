//! The locals of a function, as their lines come.
ghost use Rattle.std.specs.Prelude.{◌≡◌, ◌<◌, ◌^◌};
ghost use Rattle.w_syntax.specs.Locals.{total};
ghost use Rattle.w_text.specs.Machine.{unlike_last, may_follow};

use std::alloc::{AllocError, Global};
use std::marker::Model;
use w_syntax::{LocalRun, Locals, are_one_type};

/// The runs so far: none is empty, neighbours have unlike types, and there are fewer than 2^32 locals. Contracts see the list of
/// runs.
#[derive(Drop)]
pub(crate) struct Runs {
    runs: Vec<LocalRun>,
    // How many locals they are.
    count: u64,
}

impl Model for Runs {
    ghost use Rattle.std.specs.Prelude.{◌≡◌, List};
    ghost use Rattle.w_syntax.specs.declared.locals.LocalRun.{LocalRun as Run};
    ghost use Rattle.w_syntax.specs.Locals.{total};
    ghost use Rattle.w_text.specs.Parts.{LocalsFit};

    ghost Value = { List Run };

    ghost view = { λ a. a.runs.items };

    ghost invariant = { λ a. LocalsFit a.runs.items × (a.count ≡ total a.runs.items) };
}

// Whether a run is of another type than the last of these.
fn is_unlike_last(runs: &[LocalRun], run: LocalRun) -> bool
    ensures { result ≡ unlike_last runs.now run }
{
    match runs.last() {
        None => true,
        Some(last) => !are_one_type(last.kind, run.kind),
    }
}

// Whether a run may follow these, of which there are so many locals.
fn may_follow(runs: &[LocalRun], locals: u64, run: LocalRun) -> bool
    requires total { locals ≡ total runs.now }
    requires few { locals < 2 ^ 32 }
    ensures { result ≡ may_follow runs.now run }
{
    let count = u64::from(run.count);
    is_unlike_last(runs, run) && count != 0 && locals + count < 1 << 32
}

impl Runs {
    ghost use Rattle.std.specs.Prelude.{◌≡◌, [], ◌∷◌, ◌++◌, cond, IfOk};
    ghost use Rattle.w_text.specs.Machine.{may_follow};

    /// No runs yet.
    #[tactic(auto, using(crate::proofs::LocalsSoFar::none_yet, crate::proofs::LocalsSoFar::none_total))]
    pub(crate) fn new(alloc: Global) -> Runs
        ensures { result ≡ [] }
    {
        Runs {
            runs: Vec::new(alloc),
            count: 0,
        }
    }

    #[tactic(auto, using(crate::proofs::LocalsSoFar::one_more, crate::proofs::Told::total_more))]
    /// Takes one more run, where it may follow. It fails only for want of memory.
    pub(crate) fn push(&mut self, run: LocalRun) -> Result<bool, AllocError>
        ensures { IfOk result (λ taken. (taken ≡ may_follow self.old run) × (self.new ≡ cond taken (self.old ++ run ∷ []) self.old)) }
    {
        let LocalRun { count, kind } = run;
        let taken = may_follow(self.runs.as_slice(), self.count, run);
        if taken {
            self.runs.push(LocalRun { count, kind })?;
            self.count += u64::from(count);
        }
        Ok(taken)
    }

    /// The locals. It fails only for want of memory.
    pub(crate) fn into_locals(self, alloc: Global) -> Result<Locals, AllocError>
        ensures { IfOk result (λ locals. locals ≡ self) }
    {
        match Locals::of_runs(alloc, self.runs)? {
            Some(locals) => Ok(locals),
            None => unreachable!(),
        }
    }
}
