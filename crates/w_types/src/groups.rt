//! The types of a module.
ghost use Rattle.std.specs.Prelude.{◌≡◌, [], ◌++◌, IfOk, OnOk, length, slice_get};
ghost use Rattle.std.specs.Option.{option_copied};
ghost use Rattle.w_types.specs.Groups.{subtypes_of, types_of, places_in, places_of, type_at};

use crate::packed_type::PackedType;
use crate::types::{CompType, FuncType, RecGroup, SubType};
use lists::ListOf;
use std::alloc::{AllocError, Global};
use std::marker::Model;

/// Where a type stands: the number of its group, and its position in the group.
#[derive(Clone, Copy, PartialEq, Eq)]
pub(crate) struct Place {
    pub group: usize,
    pub position: usize,
}

/// The groups of types of a module, in order. A type is found by its index, which counts through the groups. Contracts see the
/// list of groups.
#[derive(Drop)]
pub struct RecGroups {
    groups: Vec<RecGroup>,
    places: Vec<Place>,
}

impl Model for RecGroups {
    ghost use Rattle.std.specs.Prelude.{◌≡◌, List};
    ghost use Rattle.w_types.specs.declared.types.RecGroup.{RecGroup};

    ghost Value = { List RecGroup };

    ghost use Rattle.w_types.specs.Groups.{places_of};

    ghost view = { λ a. a.groups.items };

    ghost invariant = { λ a. a.places.items ≡ places_of 0 a.groups.items };
}

// Adds the places of the first so many types of a group.
fn push_places(places: &mut Vec<Place>, group: usize, count: usize) -> Result<(), AllocError>
    ensures { OnOk result (places.new.items ≡ places.old.items ++ places_in group 0 count) }
{
    for position in 0..count {
        places.push(Place { group, position })?;
    }
    Ok(())
}

// The same types, in a list of their own.
fn copy_types(alloc: Global, types: &ListOf<PackedType>) -> Result<ListOf<PackedType>, AllocError>
    ensures { IfOk result (λ copy. copy ≡ types.now) }
{
    let items = Vec::from_slice(alloc, types.as_slice())?;
    Ok(ListOf::from_vec(items))
}

// The same composite type, with lists of its own.
fn copy_composite(alloc: Global, kind: &CompType) -> Result<CompType, AllocError>
    ensures { IfOk result (λ copy. copy ≡ kind.now) }
{
    match kind {
        CompType::Func(kind) => Ok(CompType::Func(FuncType {
            params: copy_types(alloc, &kind.params)?,
            results: copy_types(alloc, &kind.results)?,
        })),
        CompType::Cont(function) => Ok(CompType::Cont(*function)),
    }
}

// The same type, with lists of its own.
fn copy_type(alloc: Global, kind: &SubType) -> Result<SubType, AllocError>
    ensures { IfOk result (λ copy. copy ≡ kind.now) }
{
    let supertypes = Vec::from_slice(alloc, kind.supertypes.as_slice())?;
    Ok(SubType {
        is_final: kind.is_final,
        supertypes: ListOf::from_vec(supertypes),
        composite: copy_composite(alloc, &kind.composite)?,
    })
}

// The same group, with types of its own.
fn copy_group(alloc: Global, group: &RecGroup) -> Result<RecGroup, AllocError>
    ensures { IfOk result (λ copy. copy ≡ group.now) }
{
    let mut types = ListOf::new(alloc);
    for kind in group.types.as_slice() {
        types.push(copy_type(alloc, kind)?)?;
    }
    Ok(RecGroup { types })
}

impl RecGroups {
    /// The same groups, with types of their own. It fails only for want of memory.
    pub fn copy(&self, alloc: Global) -> Result<RecGroups, AllocError>
        ensures { IfOk result (λ copy. copy ≡ self.now) }
    {
        let mut groups = Vec::new(alloc);
        for group in &self.groups {
            groups.push(copy_group(alloc, group)?)?;
        }
        RecGroups::from_vec(alloc, groups)
    }

    /// These groups, in order. It fails only for want of memory.
    pub fn from_vec(alloc: Global, groups: Vec<RecGroup>) -> Result<RecGroups, AllocError>
        ensures { IfOk result (λ r. r ≡ groups.items) }
    {
        let mut places = Vec::new(alloc);
        for (number, group) in groups.iter().enumerate() {
            push_places(&mut places, number, group.types.len())?;
        }
        Ok(RecGroups { groups, places })
    }

    /// No groups.
    #[tactic(auto, unfolding(crate::specs::Groups::places_of))]
    pub fn new(alloc: Global) -> RecGroups
        ensures { result ≡ [] }
    {
        RecGroups {
            groups: Vec::new(alloc),
            places: Vec::new(alloc),
        }
    }

    /// The groups.
    pub fn into_vec(self) -> Vec<RecGroup>
        ensures { result.items ≡ self }
    {
        let RecGroups { groups, places: _ } = self;
        groups
    }

    /// The groups.
    pub fn as_slice(&self) -> &[RecGroup]
        ensures { result.now ≡ self.now }
    {
        self.groups.as_slice()
    }

    /// How many types there are.
    #[tactic(auto, using(crate::proofs::PlacesOfTypes::as_many_types))]
    pub fn type_count(&self) -> usize
        ensures { result ≡ length (types_of self.now) }
    {
        self.places.len()
    }

    // Where the type of this index stands.
    fn place(&self, index: usize) -> Option<Place>
        ensures { result ≡ slice_get (places_of 0 self.now) index }
    {
        self.places.get(index).copied()
    }

    // The type at a place.
    fn at(&self, place: Place) -> Option<&SubType>
        ensures { option_copied result ≡ type_at self.now place }
    {
        match self.groups.get(place.group) {
            Some(group) => group.types.as_slice().get(place.position),
            None => None,
        }
    }

    /// The type of this index, with its supertypes.
    pub fn subtype(&self, index: usize) -> Option<&SubType>
        ensures { option_copied result ≡ slice_get (subtypes_of self.now) index }
    {
        match self.place(index) {
            Some(place) => self.at(place),
            None => None,
        }
    }

    /// The composite type of this index.
    pub fn get(&self, index: usize) -> Option<&CompType>
        ensures { option_copied result ≡ slice_get (types_of self.now) index }
    {
        match self.subtype(index) {
            Some(kind) => Some(&kind.composite),
            None => None,
        }
    }
}
