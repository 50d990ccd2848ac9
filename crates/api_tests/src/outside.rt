//! Files and sinks: in memory, with and without calls that fail, and of the machine.
use std::alloc::{AllocError, Global};
use std::fs;
use std::test::Fail;
use w_outside::{
    Fault, HostInputs, HostSink, Inputs, MemInputs, MemSink, Sink, SureInputs, SureSink, put,
};

// Two files, of which the second has the first one's name, and a third that is empty.
fn three_files(alloc: Global) -> Result<Vec<(String, Vec<u8>)>, AllocError> {
    let mut files = Vec::new(alloc);
    files.push((
        String::from_str(alloc, "a")?,
        Vec::from_slice(alloc, b"hello")?,
    ))?;
    files.push((
        String::from_str(alloc, "a")?,
        Vec::from_slice(alloc, b"other")?,
    ))?;
    files.push((String::from_str(alloc, "b")?, Vec::new(alloc)))?;
    Ok(files)
}

#[test]
fn files_in_memory_give_their_bytes_and_fail_at_the_listed_calls(
    rt: HostRuntime,
) -> Result<(), Fail> {
    let alloc = rt.alloc();
    let fails = Vec::from_slice(alloc, &[3u64, 7])?;
    let mut files = MemInputs::new(alloc, three_files(alloc)?, fails)?;
    let mut buffer = [0u8; 3];
    assert_eq!(rt; files.open("none"), Ok(false));
    assert_eq!(rt; files.open("a"), Ok(true));
    assert_eq!(rt; files.read(&mut buffer), Ok(3));
    assert_eq!(rt; buffer, *b"hel");
    assert_eq!(rt; files.read(&mut buffer), Err(Fault::Failed));
    assert_eq!(rt; files.read(&mut buffer), Ok(2));
    assert_eq!(rt; buffer, *b"lol");
    assert_eq!(rt; files.read(&mut buffer), Ok(0));
    assert_eq!(rt; files.open("b"), Ok(true));
    assert_eq!(rt; files.open("a"), Err(Fault::Failed));
    assert_eq!(rt; files.read(&mut buffer), Ok(0));
    Ok(())
}

#[test]
fn sure_files_give_their_bytes(rt: HostRuntime) -> Result<(), Fail> {
    let alloc = rt.alloc();
    let mut files = SureInputs::new(alloc, three_files(alloc)?)?;
    let mut buffer = [0u8; 8];
    assert_eq!(rt; files.open("a"), Ok(true));
    assert_eq!(rt; files.read(&mut buffer), Ok(5));
    assert_eq!(rt; buffer, *b"hello\0\0\0");
    assert_eq!(rt; files.open("c"), Ok(false));
    assert_eq!(rt; files.read(&mut buffer), Ok(0));
    Ok(())
}

#[test]
fn a_sink_in_memory_keeps_what_it_took_before_and_after_a_fault(
    rt: HostRuntime,
) -> Result<(), Fail> {
    let alloc = rt.alloc();
    let mut sink = MemSink::new(alloc, Vec::from_slice(alloc, &[1u64])?)?;
    assert_eq!(rt; put(&mut sink, b"ab"), Ok(()));
    assert_eq!(rt; put(&mut sink, b"cd"), Err(Fault::Failed));
    assert_eq!(rt; put(&mut sink, b"ef"), Ok(()));
    assert_eq!(rt; sink.held(), b"abef".as_slice());
    Ok(())
}

#[test]
fn a_sure_sink_takes_whole_pieces(rt: HostRuntime) -> Result<(), Fail> {
    let mut sink = SureSink::new(rt.alloc())?;
    assert_eq!(rt; sink.write(b"abc"), Ok(3));
    assert_eq!(rt; sink.write(b""), Ok(0));
    assert_eq!(rt; put(&mut sink, b"de"), Ok(()));
    assert_eq!(rt; sink.held(), b"abcde".as_slice());
    Ok(())
}

#[test]
fn a_file_of_the_machine_is_read(rt: HostRuntime) -> Result<(), Fail> {
    let mut buffer = [0u8; 4];
    fs::write(&rt, "read_by_a_test", b"12345")?;
    let mut files = HostInputs::new(&rt);
    assert_eq!(rt; files.read(&mut buffer), Ok(0));
    assert_eq!(rt; files.open("read_by_a_test"), Ok(true));
    assert_eq!(rt; files.read(&mut buffer), Ok(4));
    assert_eq!(rt; buffer, *b"1234");
    assert_eq!(rt; files.open("not_there"), Err(Fault::Failed));
    assert_eq!(rt; files.read(&mut buffer), Ok(0));
    fs::remove_file(&rt, "read_by_a_test")?;
    Ok(())
}

#[test]
fn a_stream_of_the_machine_is_written(rt: HostRuntime) -> Result<(), Fail> {
    let mut sink = HostSink::new(fs::create(&rt, "written_by_a_test")?);
    assert_eq!(rt; put(&mut sink, b"abc"), Ok(()));
    assert_eq!(rt; put(&mut sink, b""), Ok(()));
    drop(sink);
    let text = fs::read_to_string(&rt, "written_by_a_test")?;
    assert_eq!(rt; text.as_str(), "abc");
    fs::remove_file(&rt, "written_by_a_test")?;
    Ok(())
}
