//! Lists, groups of types, and names.
use lists::ListOf;
use std::alloc::{AllocError, Global};
use std::process::Abort;
use std::test::Fail;
use w_syntax::Name;
use w_types::{CompType, RecGroup, RecGroups, SubType};

#[test]
fn a_list_gives_what_was_pushed_in_order(rt: HostRuntime) -> Result<(), Fail> {
    let alloc = rt.alloc();
    let mut list: ListOf<u32> = ListOf::new(alloc);
    assert_eq!(rt; list.len(), 0);
    list.push(7)?;
    list.push(3)?;
    list.push(7)?;
    assert_eq!(rt; list.as_slice(), [7, 3, 7].as_slice());
    assert_eq!(rt; list.len(), 3);
    let mut again = ListOf::from_vec(list.into_vec());
    again.push(9)?;
    assert_eq!(rt; again.as_slice(), [7, 3, 7, 9].as_slice());
    Ok(())
}

// A group of final continuation types of these indices, without supertypes.
fn group(alloc: Global, indices: &[u32]) -> Result<RecGroup, AllocError> {
    let mut types = ListOf::new(alloc);
    for index in indices {
        types.push(SubType::alone(alloc, CompType::Cont(*index)))?;
    }
    Ok(RecGroup { types })
}

// The function type of which a type is a continuation, where it is one.
fn continued(types: &RecGroups, index: usize) -> Option<u32> {
    match types.get(index) {
        Some(CompType::Cont(function)) => Some(*function),
        Some(CompType::Func(_)) | None => None,
    }
}

// How many supertypes a type has, where there is one.
fn supertypes(types: &RecGroups, index: usize) -> Option<usize> {
    match types.subtype(index) {
        Some(found) => Some(found.supertypes.len()),
        None => None,
    }
}

// Three groups: of one type, of none, and of two.
fn three_groups(alloc: Global) -> Result<RecGroups, AllocError> {
    let mut groups = Vec::new(alloc);
    let indices: [&[u32]; 3] = [&[70], &[], &[71, 72]];
    for indices in indices {
        groups.push(group(alloc, indices)?)?;
    }
    RecGroups::from_vec(alloc, groups)
}

fn types_are_those_of_the_groups(rt: &impl Abort, types: &RecGroups) {
    assert_eq!(rt; types.type_count(), 3);
    let rows = [(0, Some(70)), (1, Some(71)), (2, Some(72)), (3, None)];
    for (index, function) in rows {
        assert_eq!(rt; continued(types, index), function, "{index}");
    }
    assert_eq!(rt; types.as_slice().len(), 3);
    assert_eq!(rt; supertypes(types, 2), Some(0));
    assert_eq!(rt; supertypes(types, 3), None);
}

#[test]
fn types_are_counted_through_their_groups(rt: HostRuntime) -> Result<(), Fail> {
    let types = three_groups(rt.alloc())?;
    types_are_those_of_the_groups(&rt, &types);
    assert_eq!(rt; types.into_vec().len(), 3);
    assert_eq!(rt; RecGroups::new(rt.alloc()).type_count(), 0);
    Ok(())
}

#[test]
fn a_name_gives_its_text(rt: HostRuntime) -> Result<(), Fail> {
    let name = Name::new(String::from_str(rt.alloc(), "main")?);
    assert_eq!(rt; name.as_str(), "main");
    Ok(())
}
