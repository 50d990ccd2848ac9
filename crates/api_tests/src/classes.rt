//! Equivalence and matching where no module shows them.
use std::alloc::Global;
use std::process::Abort;
use std::test::Fail;
use w_canon::Classes;
use w_decode::decode;
use w_syntax::Module;
use w_types::{CompType, FuncType};

// Types [(ref null func)] to [(ref 0)], [(ref 0)] to [(ref null func)] and [(ref null func)] to [(ref null func)].
static MODULE: [u8; 28] = [
    0x00, 0x61, 0x73, 0x6D, 0x01, 0x00, 0x00, 0x00, 0x01, 0x12, 0x03, 0x60, 0x01, 0x70, 0x01, 0x64,
    0x00, 0x60, 0x01, 0x64, 0x00, 0x01, 0x70, 0x60, 0x01, 0x70, 0x01, 0x70,
];

// Function types [] to []: an open one, a final one below it, and a final one that stands alone; and continuations of the first two.
static BELOW: [u8; 29] = [
    0x00, 0x61, 0x73, 0x6D, 0x01, 0x00, 0x00, 0x00, 0x01, 0x13, 0x05, // five types
    0x50, 0x00, 0x60, 0x00, 0x00, // open
    0x4F, 0x01, 0x00, 0x60, 0x00, 0x00, // below type 0
    0x60, 0x00, 0x00, // alone
    0x5D, 0x00, 0x5D, 0x01, // continuations
];

// The composite type of this index.
fn composite(module: &Module, index: usize) -> Result<&CompType, Fail> {
    match module.types.get(index) {
        Some(found) => Ok(found),
        None => Err(Fail::from("no type")),
    }
}

// The function type of this index.
fn function(module: &Module, index: usize) -> Result<&FuncType, Fail> {
    match module.types.get(index) {
        Some(CompType::Func(found)) => Ok(found),
        Some(CompType::Cont(_)) | None => Err(Fail::from("no function type")),
    }
}

fn functions_match_with_parameters_reversed(
    rt: &impl Abort,
    module: &Module,
    classes: &Classes,
) -> Result<(), Fail> {
    let wide = function(module, 0)?;
    let narrow = function(module, 1)?;
    let same = function(module, 2)?;
    assert!(rt; classes.matches_func(wide, narrow));
    assert!(rt; !classes.matches_func(narrow, wide));
    assert!(rt; classes.matches_func(wide, wide));
    assert!(rt; !classes.matches_func(narrow, same));
    assert!(rt; classes.matches_func(same, narrow));
    Ok(())
}

fn an_index_that_no_type_has_is_equivalent_to_itself_alone(rt: &impl Abort, classes: &Classes) {
    assert!(rt; classes.same(0, 0));
    assert!(rt; classes.same(3, 3));
    assert!(rt; !classes.same(3, 0));
    assert!(rt; !classes.same(3, 4));
}

fn compare(alloc: Global, rt: &impl Abort, module: &Module) -> Result<(), Fail> {
    let classes = Classes::of_groups(alloc, module.types.as_slice())?;
    an_index_that_no_type_has_is_equivalent_to_itself_alone(rt, &classes);
    functions_match_with_parameters_reversed(rt, module, &classes)
}

fn a_type_matches_its_supertype(rt: &impl Abort, classes: &Classes) {
    assert!(rt; classes.matches_index(1, 0));
    assert!(rt; !classes.matches_index(0, 1));
    assert!(rt; !classes.matches_index(2, 0));
    assert!(rt; !classes.matches_index(1, 2));
    assert!(rt; classes.matches_index(2, 2));
    assert!(rt; !classes.same(0, 2));
}

fn composite_types_match_by_their_parts(
    rt: &impl Abort,
    module: &Module,
    classes: &Classes,
) -> Result<(), Fail> {
    let function = composite(module, 2)?;
    let wide = composite(module, 3)?;
    let narrow = composite(module, 4)?;
    assert!(rt; classes.matches_comp(composite(module, 0)?, function));
    assert!(rt; classes.matches_comp(narrow, wide));
    assert!(rt; !classes.matches_comp(wide, narrow));
    assert!(rt; !classes.matches_comp(function, wide));
    Ok(())
}

fn compare_below(alloc: Global, rt: &impl Abort, module: &Module) -> Result<(), Fail> {
    let classes = Classes::of_groups(alloc, module.types.as_slice())?;
    a_type_matches_its_supertype(rt, &classes);
    composite_types_match_by_their_parts(rt, module, &classes)
}

#[test]
fn declared_supertypes_are_matched(rt: HostRuntime) -> Result<(), Fail> {
    let module = decode(rt.alloc(), &BELOW)?;
    let result = compare_below(rt.alloc(), &rt, &module);
    drop(module);
    result
}

#[test]
fn types_are_told_apart(rt: HostRuntime) -> Result<(), Fail> {
    let module = decode(rt.alloc(), &MODULE)?;
    let result = compare(rt.alloc(), &rt, &module);
    drop(module);
    result
}
