//! The store of continuations.

use slab::Slab;
use std::alloc::{AllocError, Global};
use std::marker::Model;
use w_types::ContRef;

/// What is kept of each continuation that is not consumed (stack-switching explainer, continuations). A continuation's address is the
/// number of those that were made before it, and is never used again; the place where it is kept is. Contracts see the entries by
/// address, and how many more continuations fit with no memory taken.
#[derive(Drop)]
pub struct ContStore<T> {
    // each with its address, under its place
    entries: Slab<(u64, T)>,
    made: u64,
    spare: usize,
}

impl<T> Model for ContStore<T> {
    ghost use Rattle.w_conts.specs.Conts.{Conts, conts_code};
    ghost use Rattle.w_conts.specs.Slots.{conts_of, IsSound};

    ghost Value = { Conts T };

    ghost coded = { conts_code T.code };

    ghost view = { λ a. conts_of a.entries a.made a.spare };

    ghost invariant = { λ a. IsSound a.entries a.made a.spare };
}

impl<T> ContStore<T> {
    ghost use Rattle.std.specs.Prelude.{◌≡◌, ◌+◌, ◌-◌, ◌^◌, ◌<◌, [], OnOk, OnErr, OnSome, IfNone, length, option_copied};
    ghost use Rattle.w_conts.specs.Conts.{kept_at, live_of, consumed_of, with_spare, with_entry, without_entry, IsOf, KeepsReferences};

    /// The store with no continuation made and no room taken (stack-switching explainer, continuations).
    pub fn new(alloc: Global) -> ContStore<T>
        ensures empty { result ≡ record { entries = []; spare = 0 } }
    {
        ContStore {
            entries: Slab::new(alloc),
            made: 0,
            spare: 0,
        }
    }

    /// How many continuations were made (stack-switching explainer, continuations): those that are live, and those that were consumed.
    #[inline]
    pub fn made(&self) -> u64
        ensures count { result ≡ length self.now.entries }
    {
        self.made
    }

    /// How many continuations are not consumed (stack-switching explainer, continuations).
    #[inline]
    pub fn live(&self) -> u64
        ensures count { result ≡ live_of self.now }
    {
        self.entries.len() as u64
    }

    /// How many continuations were consumed (stack-switching explainer, continuations).
    #[inline]
    pub fn consumed(&self) -> u64
        ensures count { result ≡ consumed_of self.now }
        ensures all { result + live_of self.now ≡ length self.now.entries }
    {
        self.made - self.entries.len() as u64
    }

    /// Takes the room for one more continuation, so that `put` takes no memory (stack-switching explainer, continuations). The error is
    /// want of memory, and leaves the store as it was. References stay good.
    pub fn reserve_one(&mut self) -> Result<(), AllocError>
        ensures ok { OnOk result (self.new ≡ with_spare (self.old.spare + 1) self.old) }
        ensures err { OnErr result (self.new ≡ self.old) }
        ensures references { KeepsReferences self.old self.new }
    {
        if self.spare == usize::MAX {
            return Err(AllocError);
        }
        self.entries.reserve(self.spare + 1)?;
        self.spare += 1;
        Ok(())
    }

    /// Gives back the room for one continuation that was not made (stack-switching explainer, continuations). References stay good.
    pub fn release_one(&mut self)
        requires room { 0 < self.old.spare }
        ensures after { self.new ≡ with_spare (self.old.spare - 1) self.old }
        ensures references { KeepsReferences self.old self.new }
    {
        self.spare -= 1;
    }

    /// Keeps a new continuation under the next address, in room that was taken before, and gives the reference to it (stack-switching
    /// explainer, continuations). References to others stay good.
    pub fn put(&mut self, what: T) -> ContRef
        requires room { 0 < self.old.spare }
        requires few { length self.old.entries < 2 ^ 40 }
        ensures serial { result.serial ≡ length self.old.entries }
        ensures after { self.new ≡ with_entry result.place what self.old }
        ensures of { IsOf result self.new }
        ensures references { KeepsReferences self.old self.new }
    {
        let serial = self.made;
        let place = self.entries.insert_reserved((serial, what));
        self.made += 1;
        self.spare -= 1;
        ContRef { place, serial }
    }

    /// What is kept of a continuation of this store; `None` exactly where it was consumed (stack-switching explainer, continuations).
    pub fn look(&self, r: ContRef) -> Option<&T>
        requires of { IsOf r self.now }
        ensures kept { option_copied result ≡ kept_at self.now r.serial }
    {
        match self.entries.get(r.place) {
            None => None,
            Some(entry) => {
                if entry.0 == r.serial {
                    Some(&entry.1)
                } else {
                    None
                }
            }
        }
    }

    /// Consumes a continuation of this store and hands out what was kept, whose room is spare again; `None`, with nothing changed,
    /// exactly where it was consumed before (stack-switching explainer, continuations). References stay good.
    pub fn take(&mut self, r: ContRef) -> Option<T>
        requires of { IsOf r self.old }
        ensures value { result ≡ kept_at self.old r.serial }
        ensures some { OnSome result (self.new ≡ without_entry r.serial self.old) }
        ensures none { IfNone result (self.new ≡ self.old) }
        ensures references { KeepsReferences self.old self.new }
    {
        if self.look(r).is_none() {
            return None;
        }
        // a slab's capacity is below 2^64, and spare room is part of it
        let _ = self.entries.capacity();
        match self.entries.try_remove(r.place) {
            Some((_, what)) => {
                self.spare += 1;
                Some(what)
            }
            None => unreachable!(),
        }
    }
}
