//! The types of a body's locals, by their runs.
ghost use Rattle.std.specs.Prelude.{◌≡◌, ℕ, IfOk, slice_get};
ghost use Rattle.std.specs.List.Sorted.{IsNonDecreasingBy};
ghost use Rattle.std.specs.Option.{option_map};
ghost use Rattle.w_rules.specs.Bodies.{has_default as is_defaultable};
ghost use Rattle.w_locals.specs.Locals.{SplitsAt, ends_from, is_set_run, kind_of};
ghost use Rattle.std.specs.List.{list_all};

use crate::items::item_at;
use std::alloc::{AllocError, Global};
use std::marker::Model;
use w_syntax::LocalRun;
use w_types::{PackedType, ValType};

/// A body's parameters and the runs of its other locals, with the index behind each run, so that a type is found without writing the
/// runs out. Contracts see the parameters and the runs.
#[derive(Drop)]
pub(crate) struct LocalTypes<'a> {
    params: &'a [PackedType],
    runs: &'a [LocalRun],
    ends: Vec<u64>,
    // whether the locals of each run are set from the beginning
    defaults: bool,
}

impl<'a> Model for LocalTypes<'a> {
    ghost use Rattle.std.specs.Prelude.{◌≡◌, length};
    ghost use Rattle.w_locals.specs.Locals.{Declared, ends_from, is_set_run};
    ghost use Rattle.std.specs.List.{list_all};

    ghost Value = { Declared };

    ghost view = { λ a. record { params = a.params.now; runs = a.runs.now } };

    ghost invariant = { λ a. (a.ends.items ≡ ends_from (length a.params.now) a.runs.now) × (a.defaults ≡ list_all is_set_run a.runs.now) };
}

// Whether a local of this type is set from the beginning.
fn has_default(kind: PackedType) -> bool
    ensures { result ≡ is_defaultable kind }
{
    match kind.whole() {
        ValType::I32 | ValType::I64 => true,
        ValType::Ref(reference) => reference.nullable,
    }
}

// Whether the locals of each run are set from the beginning.
fn have_defaults(runs: &[LocalRun]) -> bool
    ensures { result ≡ list_all is_set_run runs.now }
{
    runs.iter().all(|run| has_default(run.kind))
}

// The index behind each run. It fails where an index passes 64 bits, as when out of memory.
fn run_ends(alloc: Global, start: u64, runs: &[LocalRun]) -> Result<Vec<u64>, AllocError>
    ensures { IfOk result (λ ends. ends.items ≡ ends_from start runs.now) }
{
    let mut ends = Vec::new(alloc);
    let mut end = start;
    for run in runs {
        end = end.checked_add(run.count as u64).ok_or(AllocError)?;
        ends.push(end)?;
    }
    Ok(ends)
}

// How many runs end at the local or before it.
#[inline(always)]
fn runs_before(ends: &[u64], local: u32) -> usize
    requires { IsNonDecreasingBy (λ (end : ℕ). end) ends.now }
    ensures { SplitsAt ends.now local result }
{
    ends.partition_point(|end| *end <= local as u64)
}

// The type of the locals of a run.
#[inline(always)]
fn run_type(runs: &[LocalRun], run: usize) -> Option<PackedType>
    ensures { option_map kind_of (slice_get runs.now run) ≡ result }
{
    Some(item_at(runs, run)?.kind)
}

impl<'a> LocalTypes<'a> {
    ghost use Rattle.std.specs.Prelude.{◌≡◌, IfOk, slice_get};
    ghost use Rattle.w_locals.specs.Locals.{first_in, is_off, types_in};

    /// Those of these parameters and runs.
    pub(crate) fn new(
        alloc: Global,
        params: &'a [PackedType],
        runs: &'a [LocalRun],
    ) -> Result<LocalTypes<'a>, AllocError>
        ensures { IfOk result (λ types. types ≡ record { params = params.now; runs = runs.now }) }
    {
        let ends = run_ends(alloc, params.len() as u64, runs)?;
        Ok(LocalTypes {
            params,
            runs,
            ends,
            defaults: have_defaults(runs),
        })
    }

    /// The type of a local.
    #[inline(always)]
    pub(crate) fn get(&self, local: u32) -> Option<PackedType>
        ensures { slice_get (types_in self.now) local ≡ result }
    {
        match item_at(self.params, local as usize) {
            Some(kind) => Some(kind),
            None => run_type(self.runs, runs_before(self.ends.as_slice(), local)),
        }
    }

    /// Whether a local is set where the body begins.
    pub(crate) fn is_set_first(&self, local: u32) -> Option<bool>
        ensures { slice_get (first_in self.now) local ≡ result }
    {
        if (local as usize) < self.params.len() {
            return Some(true);
        }
        Some(has_default(self.get(local)?))
    }

    /// Whether a local is there and not set where the body begins.
    #[inline(always)]
    pub(crate) fn is_unset_first(&self, local: u32) -> bool
        ensures { result ≡ is_off (slice_get (first_in self.now) local) }
    {
        if self.defaults {
            return false;
        }
        match self.is_set_first(local) {
            Some(is_set) => !is_set,
            None => false,
        }
    }
}
