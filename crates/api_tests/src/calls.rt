//! The program over files and sinks that cannot fail, and its statuses.
use drive::{Status, command, command_on_bytes};
use std::test::Fail;
use w_outside::{SureInputs, SureSink};
use words::{Action, DEFAULT_STEPS, MOST_STEPS};

#[test]
fn the_program_answers_over_files_that_cannot_fail(rt: HostRuntime) -> Result<(), Fail> {
    let alloc = rt.alloc();
    let header = [0x00, 0x61, 0x73, 0x6D, 0x01, 0x00, 0x00, 0x00].to_vec(alloc)?;
    let files = vec![in alloc; (String::from_str(alloc, "x")?, header)]?;
    let mut inputs = SureInputs::new(alloc, files)?;
    let mut out = SureSink::new(alloc)?;
    let mut err = SureSink::new(alloc)?;
    let mut words = Vec::new(alloc);
    for word in ["stackwasm", "check", "x"] {
        words.push(String::from_str(alloc, word)?)?;
    }
    let status = command(alloc, words.as_slice(), &mut inputs, &mut out, &mut err);
    assert_eq!(rt; status.code(), 0);
    assert_eq!(rt; out.held(), b"ok module\n".as_slice());
    assert_eq!(rt; err.held().len(), 0);
    Ok(())
}

#[test]
fn bytes_in_memory_are_checked(rt: HostRuntime) -> Result<(), Fail> {
    let alloc = rt.alloc();
    let header = [0x00, 0x61, 0x73, 0x6D, 0x01, 0x00, 0x00, 0x00];
    let mut out = SureSink::new(alloc)?;
    let mut err = SureSink::new(alloc)?;
    let status = command_on_bytes(alloc, Action::Check, header.as_slice(), &mut out, &mut err);
    assert_eq!(rt; status.code(), 0);
    assert_eq!(rt; out.held(), b"ok module\n".as_slice());
    assert_eq!(rt; err.held().len(), 0);
    Ok(())
}

#[test]
fn bytes_in_memory_are_run(rt: HostRuntime) -> Result<(), Fail> {
    let alloc = rt.alloc();
    let script = b"fn main() { print 6; return 6 * 7; }";
    let action = Action::Run {
        steps: 1_000,
        stats: false,
    };
    let mut out = SureSink::new(alloc)?;
    let mut err = SureSink::new(alloc)?;
    let status = command_on_bytes(alloc, action, script.as_slice(), &mut out, &mut err);
    assert_eq!(rt; status.code(), 0);
    assert_eq!(rt; out.held(), b"6\n= 42\n".as_slice());
    assert_eq!(rt; err.held().len(), 0);
    Ok(())
}

#[test]
fn statuses_have_their_codes(rt: HostRuntime) {
    let rows = [
        (Status::Done, 0),
        (Status::Usage, 2),
        (Status::Malformed, 3),
        (Status::Invalid, 4),
        (Status::ReadFault, 6),
        (Status::WriteFault, 7),
        (Status::OutOfMemory, 8),
        (Status::Limit, 9),
        (Status::Running, 10),
    ];
    for (status, code) in rows {
        assert_eq!(rt; status.code(), code);
    }
    assert_eq!(rt; DEFAULT_STEPS, 100_000_000);
    assert_eq!(rt; MOST_STEPS, 1_099_511_627_776);
}
