//! Whole modules from bytes: decoded, validated, written and run, and what validation found of them.
ghost use Rattle.std.specs.Prelude.{◌≡◌, IfOk};

use std::alloc::Global;
use std::process::Abort;
use std::test::Fail;
use w_decode::decode;
use w_encode::encode;
use w_inst::instantiate;
use w_machine::{Machine, Outcome, Stepped};
use w_outside::SureSink;
use w_rules::Checked;
use w_valid::validate;

// Types [] to [i64] and [] to []. Main, of the first, is 6 times 7; the second function has an if in which three operands stand
// on those around it; the third, behind it, has two blocks in an if, and what stands behind an unreachable.
static MODULE: [u8; 88] = [
    0x00, 0x61, 0x73, 0x6D, 0x01, 0x00, 0x00, 0x00, // header
    0x01, 0x08, 0x02, 0x60, 0x00, 0x01, 0x7E, 0x60, 0x00, 0x00, // types
    0x03, 0x04, 0x03, 0x00, 0x01, 0x01, // functions
    0x07, 0x08, 0x01, 0x04, 0x6D, 0x61, 0x69, 0x6E, 0x00, 0x00, // exports
    0x09, 0x05, 0x01, 0x03, 0x00, 0x01, 0x02, // elements
    0x0A, 0x2D, 0x03, // codes
    0x07, 0x00, 0x42, 0x06, 0x42, 0x07, 0x7E, 0x0B, //
    0x11, 0x00, 0x42, 0x01, 0x41, 0x01, 0x04, 0x40, 0x42, 0x01, 0x42, 0x01, 0x1A, 0x1A, 0x0B, 0x1A,
    0x01, 0x0B, //
    0x11, 0x00, 0x41, 0x01, 0x04, 0x40, 0x02, 0x40, 0x02, 0x40, 0x0B, 0x0B, 0x00, 0x42, 0x01, 0x1A,
    0x0B, 0x0B,
];

// The module, decoded and validated.
fn checked(alloc: Global) -> Result<Checked, Fail> {
    let module = decode(alloc, &MODULE)?;
    Ok(validate(alloc, module)?)
}

#[test]
fn a_module_is_written_as_it_was_given(rt: HostRuntime) -> Result<(), Fail> {
    let module = decode(rt.alloc(), &MODULE)?;
    let written = encode(rt.alloc(), &module);
    drop(module);
    assert_eq!(rt; written?.as_slice(), MODULE.as_slice());
    Ok(())
}

fn what_bodies_need_is_known(rt: &impl Abort, checked: &Checked) {
    let rows = [(0, 2, 1), (1, 3, 2), (2, 1, 4), (3, 0, 0)];
    for (function, height, depth) in rows {
        assert_eq!(rt; checked.height(function), height, "{function}");
        assert_eq!(rt; checked.depth(function), depth, "{function}");
    }
}

fn declared_functions_and_classes_are_known(rt: &impl Abort, checked: &Checked) {
    let declared = [(0, true), (1, false), (2, true), (3, false)];
    for (function, is_declared) in declared {
        assert_eq!(rt; checked.declared(function), is_declared, "{function}");
    }
    assert!(rt; checked.classes().same(0, 0));
    assert!(rt; !checked.classes().same(0, 1));
    assert_eq!(rt; checked.module().functions.len(), 3);
}

#[test]
fn what_validation_found_is_known(rt: HostRuntime) -> Result<(), Fail> {
    let checked = checked(rt.alloc())?;
    what_bodies_need_is_known(&rt, &checked);
    declared_functions_and_classes_are_known(&rt, &checked);
    drop(checked);
    Ok(())
}

// The product takes six reductions: main's invoke, two constants, the product, and the exits of the label and of the frame.
fn takes_three(rt: &impl Abort, machine: &mut Machine, out: &mut SureSink)
    requires { machine.old.taken ≡ 0 }
{
    assert!(rt; matches!(machine.run(3, out), Outcome::Running));
    assert_eq!(rt; machine.taken(), 3);
    assert_eq!(rt; machine.results().len(), 0);
    assert_eq!(rt; machine.made(), 0);
    assert_eq!(rt; machine.consumed(), 0);
    assert_eq!(rt; machine.live(), 0);
}

// One more, by itself.
fn takes_one(rt: &impl Abort, machine: &mut Machine, out: &mut SureSink) {
    if machine.taken() == 3 {
        assert!(rt; matches!(machine.step(out), Stepped::Went));
        assert_eq!(rt; machine.taken(), 4);
    }
    assert_eq!(rt; machine.taken(), 4);
}

// A machine of the module, at its beginning.
fn machine(alloc: Global) -> Result<Machine, Fail>
    ensures { IfOk result (λ machine. machine.taken ≡ 0) }
{
    let checked = checked(alloc)?;
    match instantiate(alloc, &checked) {
        Ok(instance) => Ok(Machine::new(alloc, checked, instance)?),
        Err(_) => {
            drop(checked);
            Err(Fail::from("no instance"))
        }
    }
}

fn take_four(alloc: Global, rt: &impl Abort, out: &mut SureSink) -> Result<(), Fail> {
    let mut machine = machine(alloc)?;
    takes_three(rt, &mut machine, out);
    takes_one(rt, &mut machine, out);
    drop(machine);
    Ok(())
}

#[test]
fn reductions_are_counted(rt: HostRuntime) -> Result<(), Fail> {
    let mut out = SureSink::new(rt.alloc())?;
    let taken = take_four(rt.alloc(), &rt, &mut out);
    assert_eq!(rt; out.held().len(), 0);
    taken
}
