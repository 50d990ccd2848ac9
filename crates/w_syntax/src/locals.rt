//! The locals of a function.
ghost use Rattle.std.specs.Prelude.{◌≡◌, ◌<◌, ◌^◌, ◌+◌, ◌↔◌, IfOk, OnOk, IsTrue, reverse};
ghost use Rattle.w_syntax.specs.Locals.{join, joined, same_kind, total};

use std::alloc::{AllocError, Global};
use std::marker::Model;
use w_types::PackedType;

/// So many locals of one type, one behind the other.
#[derive(Clone, Copy)]
pub struct LocalRun {
    pub count: u32,
    pub kind: PackedType,
}

/// The locals of a function behind its parameters, as runs: neighbours of one type are joined, there are no runs of none, and
/// there are fewer than 2^32 locals (Core, binary format, code section). Contracts see the list of runs.
#[derive(Drop)]
pub struct Locals {
    runs: Vec<LocalRun>,
}

impl Model for Locals {
    ghost use Rattle.std.specs.Prelude.{◌≡◌, ◌<◌, ◌^◌, List};
    ghost use Rattle.w_syntax.specs.declared.locals.LocalRun.{LocalRun as Run};
    ghost use Rattle.w_syntax.specs.Locals.{joined, total};

    ghost Value = { List Run };

    ghost view = { λ a. a.runs.items };

    ghost invariant = { λ a. (joined a.runs.items ≡ a.runs.items) × (total a.runs.items < 2 ^ 32) };
}

// Whether the locals are fewer than 2^32.
fn are_few(runs: &[LocalRun]) -> bool
    ensures { IsTrue result ↔ (total runs.now < 2 ^ 32) }
{
    let mut left = u32::MAX;
    for run in runs {
        if run.count > left {
            return false;
        }
        left -= run.count;
    }
    true
}

/// Whether two types are one: the same words, whatever groups there are.
#[tactic(auto, using(crate::proofs::SameKind::kinds_alike))]
pub fn are_one_type(one: PackedType, other: PackedType) -> bool
    ensures { result ≡ same_kind one other }
{
    one.whole() == other.whole()
}

// Puts a run before the runs, which stand from the last to the first.
fn prepend_run(run: LocalRun, backwards: &mut Vec<LocalRun>) -> Result<(), AllocError>
    requires { run.count + total (reverse backwards.old.items) < 2 ^ 32 }
    ensures { OnOk result (reverse backwards.new.items ≡ join run (reverse backwards.old.items)) }
{
    if run.count == 0 {
        return Ok(());
    }
    let Some(next) = backwards.pop() else {
        backwards.push(run)?;
        return Ok(());
    };
    if are_one_type(run.kind, next.kind) {
        backwards.push(LocalRun {
            count: run.count + next.count,
            kind: next.kind,
        })?;
        return Ok(());
    }
    backwards.push(next)?;
    backwards.push(run)?;
    Ok(())
}

// The runs with neighbours of one type joined, and without runs of none, in no more room than all the runs take.
fn joined_runs(alloc: Global, mut runs: Vec<LocalRun>) -> Result<Vec<LocalRun>, AllocError>
    requires { total runs.items < 2 ^ 32 }
    ensures { IfOk result (λ v. v.items ≡ joined runs.items) }
{
    let mut backwards = Vec::with_capacity(alloc, runs.len())?;
    while let Some(run) = runs.pop() {
        prepend_run(run, &mut backwards)?;
    }
    backwards.reverse();
    Ok(backwards)
}

impl Locals {
    ghost use Rattle.std.specs.Prelude.{◌≡◌, ◌<◌, ◌^◌, IfOk};
    ghost use Rattle.w_syntax.specs.Locals.{joined, total, locals_of_runs};

    /// The locals of these runs, joined. `None` where there are 2^32 or more. It fails only for want of memory.
    pub fn of_runs(alloc: Global, runs: Vec<LocalRun>) -> Result<Option<Locals>, AllocError>
        ensures { IfOk result (λ locals. locals ≡ locals_of_runs runs.items) }
    {
        if !are_few(runs.as_slice()) {
            return Ok(None);
        }
        let runs = joined_runs(alloc, runs)?;
        Ok(Some(Locals { runs }))
    }

    /// The runs themselves.
    pub fn into_runs(self) -> Vec<LocalRun>
        ensures runs { result.items ≡ self }
        ensures joined { joined result.items ≡ result.items }
        ensures few { total result.items < 2 ^ 32 }
    {
        self.runs
    }

    /// The runs.
    pub fn as_slice(&self) -> &[LocalRun]
        ensures runs { result.now ≡ self.now }
        ensures joined { joined result.now ≡ result.now }
        ensures few { total result.now < 2 ^ 32 }
    {
        self.runs.as_slice()
    }
}
