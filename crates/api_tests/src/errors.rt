//! What errors say, which no command prints.
use std::test::Fail;
use w_decode::DecodeFault;
use w_inst::InstFault;
use w_outside::Fault;
use w_reduce::{StartLimit, Trap};
use w_rules::SizeLimit;
use w_trace::{OnceFault, TraceFault};
use w_valid::ValidFault;

#[test]
fn faults_of_bytes_name_their_section(rt: HostRuntime) -> Result<(), Fail> {
    let rows = [
        (
            DecodeFault::Header,
            "the bytes do not begin with the header of a module",
        ),
        (DecodeFault::Frame(0), "section 0 is not framed"),
        (
            DecodeFault::Content(12),
            "the contents of section 12 are not spelled",
        ),
        (
            DecodeFault::Counts,
            "the counts of the sections do not agree",
        ),
        (DecodeFault::OutOfMemory, "out of memory"),
    ];
    for (fault, text) in rows {
        assert_eq!(rt; fault.to_string(rt.alloc())?.as_str(), text);
    }
    Ok(())
}

#[test]
fn faults_of_modules_name_their_item(rt: HostRuntime) -> Result<(), Fail> {
    let rows = [
        (ValidFault::Limit(SizeLimit::Types), "limit Types is passed"),
        (ValidFault::TypeAt(1), "type 1 is not valid"),
        (ValidFault::Import(2), "import 2 is not valid"),
        (ValidFault::Table(3), "table 3 is not valid"),
        (ValidFault::Memory, "the memory is not valid"),
        (ValidFault::Tag(4), "tag 4 is not valid"),
        (ValidFault::Global(5), "global 5 is not valid"),
        (ValidFault::Element(6), "element segment 6 is not valid"),
        (ValidFault::Data(7), "data segment 7 is not valid"),
        (ValidFault::Start, "the start is not valid"),
        (ValidFault::Export(8), "export 8 is not valid"),
        (ValidFault::Function(9), "function 9 is not valid"),
        (ValidFault::OutOfMemory, "out of memory"),
    ];
    for (fault, text) in rows {
        assert_eq!(rt; fault.to_string(rt.alloc())?.as_str(), text);
    }
    Ok(())
}

#[test]
fn faults_of_runs_and_of_the_outside_are_said(rt: HostRuntime) -> Result<(), Fail> {
    let alloc = rt.alloc();
    let rows = [
        (
            InstFault::Import(2),
            "no function of the host is there for import 2",
        ),
        (InstFault::NoEntry, "there is no entry"),
        (
            InstFault::Limit(StartLimit::Memory),
            "a memory or a table is too large at first",
        ),
        (
            InstFault::Trap(Trap::MemoryOutOfBounds),
            "an active segment passes an end",
        ),
        (InstFault::OutOfMemory, "out of memory"),
    ];
    for (fault, text) in rows {
        assert_eq!(rt; fault.to_string(alloc)?.as_str(), text);
    }
    assert_eq!(rt; Fault::Failed.to_string(alloc)?.as_str(), "the call failed");
    assert_eq!(rt;
        Fault::OutOfMemory.to_string(alloc)?.as_str(),
        "out of memory"
    );
    Ok(())
}

#[test]
fn faults_of_traces_name_their_line(rt: HostRuntime) -> Result<(), Fail> {
    let alloc = rt.alloc();
    assert_eq!(rt;
        TraceFault::Line(2).to_string(alloc)?.as_str(),
        "no text of a trace goes on with line 2"
    );
    assert_eq!(rt;
        TraceFault::OutOfMemory.to_string(alloc)?.as_str(),
        "out of memory"
    );
    assert_eq!(rt;
        OnceFault::Unsound(3).to_string(alloc)?.as_str(),
        "event 3 consumes what is not live, or makes what is not the next"
    );
    assert_eq!(rt;
        OnceFault::OutOfMemory.to_string(alloc)?.as_str(),
        "out of memory"
    );
    Ok(())
}
