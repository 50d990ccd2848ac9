//! The classes of the types of a module.
ghost use Rattle.std.specs.Prelude.{◌≡◌, ◌<◌, ◌≤◌, ◌+◌, ◌++◌, ◌∷◌, [], length, map, IfOk, OnOk, List, Some};
ghost use Rattle.w_types.specs.declared.types.RecGroup.{RecGroup as TheGroup};
ghost use Rattle.w_types.specs.Groups.{subtypes_of};
ghost use Rattle.w_canon.specs.Classed.{Classed};
ghost use Rattle.w_canon.specs.Entries.{kind_of, entries_from};
ghost use Rattle.w_canon.specs.IsClassesOf.{OneClass, HaveFirsts};
ghost use Rattle.w_canon.specs.Numbers.{Finds};
ghost use Rattle.w_canon.specs.Parents.{first_at, parent_by, parents_from};
ghost use Rattle.w_canon.specs.Spanned.{AreEntries, spanned};

use crate::entry::{Class, Entry, Kind};
use crate::forest::{Span, is_under, spans_of};
use crate::key::{Word, key_of};
use std::alloc::{AllocError, Global};
use std::collections::BTreeMap;
use std::marker::Model;
use w_types::{CompType, RecGroup};

/// The classes of the types of a module: two types have one class exactly where they are equivalent (Core, types, recursive
/// types). Contracts see the list of the types' entries.
#[derive(Debug, Drop)]
pub struct Classes {
    entries: Vec<Entry>,
}

impl Model for Classes {
    ghost use Rattle.std.specs.Prelude.{List};
    ghost use Rattle.w_canon.specs.declared.entry.Entry.{Entry};

    ghost Value = { List Entry };

    ghost view = { λ a. a.entries.items };

    ghost use Rattle.w_canon.specs.IsClassesOf.{HaveFirsts, HaveSpans};

    ghost invariant = { λ a. HaveFirsts a.entries.items × HaveSpans a.entries.items };
}

fn kind_of(kind: &CompType) -> Kind
    ensures { result ≡ kind_of kind.now }
{
    match kind {
        CompType::Func(_) => Kind::Func,
        CompType::Cont(_) => Kind::Cont,
    }
}

// Adds the entries of the types of a group, where the first group equal to it begins with this type.
fn push_entries(entries: &mut Vec<Entry>, first: usize, group: &RecGroup) -> Result<(), AllocError>
    ensures { OnOk result (entries.new.items ≡ entries.old.items ++ entries_from first 0 group.now.types) }
{
    for (position, kind) in group.types.as_slice().iter().enumerate() {
        entries.push(Entry {
            class: Class {
                group: first,
                position,
            },
            kind: kind_of(&kind.composite),
            span: Span { from: 0, to: 0 },
        })?;
    }
    Ok(())
}

// The number of the first group with this key, which is the given one where no group had it.
fn first_with(
    numbers: &mut BTreeMap<Vec<Word>, usize>,
    key: Vec<Word>,
    number: usize,
) -> Result<usize, AllocError>
    ensures { IfOk result (λ first. Finds numbers.old numbers.new key.items number first) }
{
    if let Some(first) = numbers.get(&key) {
        return Ok(*first);
    }
    numbers.insert(key, number)?;
    Ok(number)
}

// Adds the types of one group more. A group of none has no key, so that no two keys lead to one type.
fn add_group(
    alloc: Global,
    numbers: &mut BTreeMap<Vec<Word>, usize>,
    entries: &mut Vec<Entry>,
    group: &RecGroup,
) -> Result<(), AllocError>
    ensures { OnOk result ((gs : List TheGroup) → Classed numbers.old gs entries.old.items → Classed numbers.new (gs ++ group.now ∷ []) entries.new.items) }
{
    if group.types.len() == 0 {
        return Ok(());
    }
    let start = entries.len();
    let key = key_of(alloc, entries.as_slice(), group)?;
    let first = first_with(numbers, key, start)?;
    push_entries(entries, first, group)?;
    Ok(())
}

// The first type of the class of a type.
fn first_of(entries: &[Entry], index: usize) -> usize
    requires within { index < length entries.now }
    requires firsts { HaveFirsts entries.now }
    ensures is { Some result ≡ first_at entries.now index }
    ensures class { OneClass entries.now index result }
{
    let class = entries[index].class;
    class.group + class.position
}

// What stands above a type with these supertypes in the forest of classes.
fn parent_of(entries: &[Entry], index: usize, supertypes: &[u32]) -> Option<usize>
    requires within { index < length entries.now }
    requires firsts { HaveFirsts entries.now }
    ensures { result ≡ parent_by entries.now index supertypes.now }
{
    match supertypes {
        [supertype] => {
            let supertype = *supertype as usize;
            if supertype < index {
                Some(first_of(entries, supertype))
            } else {
                None
            }
        }
        _ => None,
    }
}

// Adds what stands above the types of a group.
fn push_parents(
    parents: &mut Vec<Option<usize>>,
    entries: &[Entry],
    group: &RecGroup,
) -> Result<(), AllocError>
    requires firsts { HaveFirsts entries.now }
    requires within { length parents.old.items + length group.now.types ≤ length entries.now }
    ensures { OnOk result (parents.new.items ≡ parents.old.items ++ parents_from entries.now (length parents.old.items) group.now.types) }
{
    for kind in group.types.as_slice() {
        let parent = parent_of(entries, parents.len(), kind.supertypes.as_slice());
        parents.push(parent)?;
    }
    Ok(())
}

// What stands above the types of groups.
fn parents_of(
    alloc: Global,
    entries: &[Entry],
    groups: &[RecGroup],
) -> Result<Vec<Option<usize>>, AllocError>
    requires firsts { HaveFirsts entries.now }
    requires as_many { length entries.now ≡ length (subtypes_of groups.now) }
    ensures { IfOk result (λ parents. parents.items ≡ parents_from entries.now 0 (subtypes_of groups.now)) }
{
    let mut parents = Vec::new(alloc);
    for group in groups {
        push_parents(&mut parents, entries, group)?;
    }
    Ok(parents)
}

// The entries, each with the span of its class.
fn with_spans(alloc: Global, entries: &[Entry], spans: &[Span]) -> Result<Vec<Entry>, AllocError>
    requires firsts { HaveFirsts entries.now }
    requires as_many { length spans.now ≡ length entries.now }
    ensures { IfOk result (λ list. list.items ≡ map (spanned spans.now) entries.now) }
{
    let mut list = Vec::new(alloc);
    for index in 0..entries.len() {
        let entry = entries[index];
        list.push(Entry {
            class: entry.class,
            kind: entry.kind,
            span: spans[first_of(entries, index)],
        })?;
    }
    Ok(list)
}

// The entries of the types of groups, with no spans.
fn entries_of(alloc: Global, groups: &[RecGroup]) -> Result<Vec<Entry>, AllocError>
    ensures { IfOk result (λ entries. AreEntries groups.now entries.items) }
{
    let mut numbers = BTreeMap::new(alloc);
    let mut entries = Vec::new(alloc);
    for group in groups {
        add_group(alloc, &mut numbers, &mut entries, group)?;
    }
    Ok(entries)
}

impl Classes {
    ghost use Rattle.std.specs.Prelude.{◌≡◌, ◌↔◌, ◌<◌, IsTrue, IfOk, IfSome, List, slice_get};
    ghost use Rattle.w_types.specs.declared.types.RecGroup.{RecGroup};
    ghost use Rattle.w_canon.specs.Equivalence.{SameIndex};
    ghost use Rattle.w_canon.specs.IsClassesOf.{HaveSpans, IsClassesOf, OneClass};
    ghost use Rattle.w_canon.specs.Matching.{IndexMatches};
    ghost use Rattle.w_canon.specs.Tests.{one_class_test, one_below_test, same_test, index_test, kind_test};

    /// Finds the classes of the types of these groups. It fails only for want of memory.
    pub fn of_groups(alloc: Global, groups: &[RecGroup]) -> Result<Classes, AllocError>
        ensures { IfOk result (λ c. IsClassesOf groups.now c) }
    {
        let entries = entries_of(alloc, groups)?;
        let parents = parents_of(alloc, entries.as_slice(), groups)?;
        let spans = spans_of(alloc, parents.as_slice())?;
        let entries = with_spans(alloc, entries.as_slice(), spans.as_slice())?;
        Ok(Classes { entries })
    }

    // Whether two types have one class.
    fn have_one_class(&self, i: u32, j: u32) -> bool
        ensures { result ≡ one_class_test (slice_get self.now i) (slice_get self.now j) }
    {
        match (self.entries.get(i as usize), self.entries.get(j as usize)) {
            (Some(one), Some(other)) => one.class == other.class,
            _ => false,
        }
    }

    // Whether the class of the first type stands under that of the second, or is it.
    fn is_below(&self, i: u32, j: u32) -> bool
        ensures { result ≡ one_below_test (slice_get self.now i) (slice_get self.now j) }
    {
        match (self.entries.get(i as usize), self.entries.get(j as usize)) {
            (Some(one), Some(other)) => is_under(one.span, other.span),
            _ => false,
        }
    }

    /// Whether two types are equivalent (Core, types, recursive types). An index that no type has is equivalent to itself alone.
    pub fn same(&self, i: u32, j: u32) -> bool
        ensures computed { result ≡ same_test self.now i j }
        ensures related { (gs : List RecGroup) → IsClassesOf gs self.now → (IsTrue result ↔ SameIndex gs i j) }
    {
        i == j || self.have_one_class(i, j)
    }

    /// Whether a type matches another (Core, validation, matching): it is equivalent to it, or its supertype matches it. An index that
    /// no type has matches itself alone.
    pub fn matches_index(&self, i: u32, j: u32) -> bool
        ensures computed { result ≡ index_test self.now i j }
        ensures related { (gs : List RecGroup) → IsClassesOf gs self.now → (IsTrue result ↔ IndexMatches gs i j) }
    {
        self.same(i, j) || self.is_below(i, j)
    }

    /// Says of the entries that spans hold a place, and that those of two classes begin at two.
    #[inline(always)]
    pub fn have_spans(&self)
        ensures { HaveSpans self.now }
    {
        let _ = &self.entries;
    }

    /// The entry of the type of this index, whose span is not empty.
    pub fn entry(&self, index: u32) -> Option<Entry>
        ensures is { result ≡ slice_get self.now index }
        ensures proper { IfSome result (λ entry. entry.span.from < entry.span.to) }
    {
        self.entries.get(index as usize).copied()
    }

    // The index of the first type of the class of the one of this index.
    pub(crate) fn first(&self, index: u32) -> Option<usize>
        ensures { IfSome result (λ first. OneClass self.now index first) }
    {
        let index = index as usize;
        if index < self.entries.len() {
            Some(first_of(self.entries.as_slice(), index))
        } else {
            None
        }
    }

    // Whether the type of this index is of this kind.
    pub(crate) fn is_of_kind(&self, index: u32, kind: Kind) -> bool
        ensures { result ≡ kind_test self.now index kind }
    {
        match self.entries.get(index as usize) {
            Some(entry) => entry.kind == kind,
            None => false,
        }
    }
}
