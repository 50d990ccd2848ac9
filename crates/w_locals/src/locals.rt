//! Which locals are set: a log of those that were set, which the end of a block takes back.
ghost use Rattle.std.specs.Prelude.{◌≡◌};
ghost use Rattle.w_locals.specs.Locals.{Places, is_logged as stands_in_log};

use crate::items::item_at;
use crate::local_types::LocalTypes;
use std::alloc::{AllocError, Global};
use std::collections::BTreeMap;
use std::marker::Model;
use w_syntax::LocalRun;
use w_types::PackedType;

/// The types of a body's locals, and which of them are set: now, and where each open block began. Contracts see the types and one list
/// of flags for each block, the innermost first.
#[derive(Drop)]
pub struct Locals<'a> {
    types: LocalTypes<'a>,
    // the locals that were set, and where a local stands in this log, as long as it does
    log: Vec<u32>,
    places: BTreeMap<u32, usize>,
    // how long the log was where each open block began
    marks: Vec<usize>,
    // whether the body has ended
    has_ended: bool,
}

impl<'a> Model for Locals<'a> {
    ghost use Rattle.std.specs.Prelude.{[], length, reverse, if◌then◌else◌};
    ghost use Rattle.w_locals.specs.Locals.{LocalState, types_in, first_in, snapshots, Descends, Places};

    ghost Value = { LocalState };

    ghost view = { λ a. record { types = types_in a.types; sets = if a.has_ended then [] else snapshots (first_in a.types) a.log.items (reverse a.marks.items) } };

    ghost invariant = { λ a. Descends (length a.log.items) (reverse a.marks.items) × Places a.places a.log.items };
}

// Whether the log has the local.
fn is_logged(log: &[u32], places: &BTreeMap<u32, usize>, local: u32) -> bool
    requires { Places places.now log.now }
    ensures { result ≡ stands_in_log log.now local }
{
    match places.get(&local) {
        Some(place) => match item_at(log, *place) {
            Some(found) => found == local,
            None => false,
        },
        None => false,
    }
}

impl<'a> Locals<'a> {
    ghost use Rattle.std.specs.Prelude.{◌≡◌, ◌∷◌, ◌++◌, [], OnOk, IfOk, slice_get};
    ghost use Rattle.w_rules.specs.Bodies.{types_of_runs, set_first};
    ghost use Rattle.w_rules.specs.InstructionTypes.{get_type};
    ghost use Rattle.w_locals.specs.Locals.{first_set, is_off, outer_sets, set_in_first, twice};
    ghost use Rattle.w_locals.specs.Locals.{gives_type};

    /// Where a body with these parameters and further locals begins. It fails only when out of memory.
    pub fn begin(
        alloc: Global,
        params: &'a [PackedType],
        runs: &'a [LocalRun],
    ) -> Result<Locals<'a>, AllocError>
        ensures types { IfOk result (λ locals. locals.types
            ≡ params.now ++ types_of_runs runs.now) }
        ensures sets { IfOk result (λ locals. locals.sets ≡ set_first params.now runs.now ∷ []) }
    {
        let types = LocalTypes::new(alloc, params, runs)?;
        Ok(Locals {
            types,
            log: Vec::new(alloc),
            places: BTreeMap::new(alloc),
            marks: Vec::new(alloc),
            has_ended: false,
        })
    }

    /// The type of a local.
    #[inline(always)]
    pub fn get(&self, local: u32) -> Option<PackedType>
        ensures { slice_get self.now.types local ≡ result }
    {
        self.types.get(local)
    }

    // Whether a local is there and not set.
    #[inline(always)]
    fn is_unset(&self, local: u32) -> bool
        ensures { result ≡ is_off (slice_get (first_set self.now.sets) local) }
    {
        if !self.types.is_unset_first(local) {
            return false;
        }
        if self.has_ended {
            return false;
        }
        !is_logged(self.log.as_slice(), &self.places, local)
    }

    /// The type of a local that is set.
    #[inline(always)]
    pub fn get_set(&self, local: u32) -> Option<PackedType>
        ensures { get_type (slice_get self.now.types local) (slice_get
            (first_set self.now.sets) local) ≡ gives_type result }
    {
        if self.has_ended {
            return None;
        }
        if self.is_unset(local) {
            return None;
        }
        self.get(local)
    }

    /// Sets a local, where it is there.
    pub fn set(&mut self, local: u32) -> Result<(), AllocError>
        ensures types { self.new.types ≡ self.old.types }
        ensures sets { OnOk result (self.new.sets ≡ set_in_first local self.old.sets) }
    {
        if !self.is_unset(local) {
            return Ok(());
        }
        self.places.insert(local, self.log.len())?;
        self.log.push(local)?;
        Ok(())
    }

    /// A block begins.
    pub fn enter_block(&mut self) -> Result<(), AllocError>
        ensures types { self.new.types ≡ self.old.types }
        ensures sets { OnOk result (self.new.sets ≡ twice self.old.sets) }
    {
        self.marks.push(self.log.len())?;
        Ok(())
    }

    /// The innermost block, or the body where none is open, ends: what it set is forgotten.
    pub fn leave_block(&mut self)
        ensures types { self.new.types ≡ self.old.types }
        ensures sets { self.new.sets ≡ outer_sets self.old.sets }
    {
        match self.marks.pop() {
            Some(mark) => self.log.truncate(mark),
            None => self.has_ended = true,
        }
    }
}
