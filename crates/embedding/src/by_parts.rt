//! The parts one after another: bytes, a module, one that is checked, an instance, a machine, values.

use anyhow::Error;
use std::alloc::Global;
use w_decode::decode;
use w_inst::instantiate;
use w_machine::{Machine, Outcome};
use w_outside::SureSink;
use w_types::Value;
use w_valid::validate;

// A module whose main, of type [] to [i64], is 6 times 7.
static MODULE: [u8; 40] = [
    0x00, 0x61, 0x73, 0x6D, 0x01, 0x00, 0x00, 0x00, // header
    0x01, 0x05, 0x01, 0x60, 0x00, 0x01, 0x7E, // types
    0x03, 0x02, 0x01, 0x00, // functions
    0x07, 0x08, 0x01, 0x04, 0x6D, 0x61, 0x69, 0x6E, 0x00, 0x00, // exports
    0x0A, 0x09, 0x01, 0x07, 0x00, 0x42, 0x06, 0x42, 0x07, 0x7E, 0x0B, // codes
];

/// Runs a module that stands in memory for at most a million reductions, and prints what it came to.
pub(crate) fn run_module(rt: &impl Print, alloc: Global) -> Result<(), Error> {
    let module = decode(alloc, &MODULE)?;
    let checked = validate(alloc, module)?;
    match instantiate(alloc, &checked) {
        Ok(instance) => {
            let mut machine = Machine::new(alloc, checked, instance)?;
            let mut out = SureSink::new(alloc)?;
            let outcome = machine.run(1_000_000, &mut out);
            let reported = report(rt, &machine, outcome);
            drop(machine);
            reported
        }
        Err(fault) => {
            drop(checked);
            Err(fault.into())
        }
    }
}

// Prints what a machine has come to.
fn report(rt: &impl Print, machine: &Machine, outcome: Outcome) -> Result<(), Error> {
    match outcome {
        Outcome::Ended => {
            for value in machine.results() {
                if let Value::I64(bits) = value {
                    println!(rt;
                        "{} after {} reductions",
                        bits.cast_signed(),
                        machine.taken()
                    )?;
                }
            }
        }
        Outcome::Running => println!(rt; "still running")?,
        _ => println!(rt; "stopped")?,
    }
    Ok(())
}
