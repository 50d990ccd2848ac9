//! Which value names are bound before a place.
ghost use Rattle.std.specs.Prelude.{◌≡◌, slice_get};
ghost use Rattle.s_check.specs.Views.{type_at};

use crate::bound::{Binding, ValueType};
use s_syntax::Name;
use std::alloc::{AllocError, Global};
use std::collections::BTreeMap;
use std::marker::Model;

/// The value names that are bound before a place in its block or one around it, with their types. Contracts see the list of them, in order.
#[derive(Drop)]
pub(crate) struct Scope<'a> {
    bound: Vec<Binding<'a>>,
    // where a name stands there; one whose block has ended may still have a place, at which it no longer stands
    places: BTreeMap<&'a [u8], usize>,
}

impl<'a> Model for Scope<'a> {
    ghost use Rattle.s_check.specs.Scopes.{Scope as TheScope};
    ghost use Rattle.s_check.specs.Views.{scope_of, Places};

    ghost Value = { TheScope };

    ghost view = { λ a. scope_of a.bound.items };

    ghost invariant = { λ a. Places a.places a.bound.items };
}

// The type of what stands at a place, where it has this name.
fn type_at<'a>(bound: &[Binding<'a>], place: usize, name: &Name) -> Option<ValueType<'a>>
    ensures value { result ≡ type_at (slice_get bound.now place) name.now }
{
    match bound.get(place) {
        Some(binding) => {
            if binding.name == name {
                Some(binding.ty)
            } else {
                None
            }
        }
        None => None,
    }
}

impl<'a> Scope<'a> {
    ghost use Rattle.std.specs.Prelude.{◌≡◌, [], length, take, OnOk};
    ghost use Rattle.std.specs.Option.{option_map};
    ghost use Rattle.s_check.specs.Scopes.{type_in, bind};
    ghost use Rattle.s_check.specs.Views.{type_of, bound_of};

    /// No name is bound.
    pub fn new(alloc: Global) -> Scope<'a>
        ensures value { result ≡ [] }
    {
        Scope {
            bound: Vec::new(alloc),
            places: BTreeMap::new(alloc),
        }
    }

    /// How many names are bound.
    pub fn len(&self) -> usize
        ensures value { result ≡ length self.now }
    {
        self.bound.len()
    }

    /// The type of a name, where it is bound.
    pub fn find(&self, name: &'a Name) -> Option<ValueType<'a>>
        ensures value { option_map type_of result ≡ type_in self.now name.now }
    {
        match self.places.get(&name.as_bytes()) {
            Some(place) => type_at(self.bound.as_slice(), *place, name),
            None => None,
        }
    }

    /// Binds a name, where it is not bound yet. It fails only for want of memory.
    pub fn bind(&mut self, binding: Binding<'a>) -> Result<(), AllocError>
        ensures value { OnOk result (self.new ≡ bind (bound_of binding.entry) self.old) }
    {
        if self.find(binding.name).is_some() {
            return Ok(());
        }
        self.places
            .insert(binding.name.as_bytes(), self.bound.len())?;
        self.bound.push(binding)?;
        Ok(())
    }

    /// A block ends: just the first so many names stay.
    pub fn leave(&mut self, count: usize)
        ensures value { self.new ≡ take count self.old }
    {
        self.bound.truncate(count);
    }
}
