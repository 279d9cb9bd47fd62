use crate::{Listen, MemListen, MemSink, MemSource, ReadEnd, Seq, read_all, write_all};
use std::alloc::{AllocError, Global};
use std::test::Fail;

/// A source of three bytes, some of whose calls fail.
fn three_bytes(alloc: Global, failing: &[u64]) -> Result<MemSource, AllocError> {
    Ok(MemSource::new(
        Seq::of(Vec::from_slice(alloc, b"abc")?),
        Seq::of(Vec::from_slice(alloc, failing)?),
    ))
}

/// A sink with room for three bytes.
fn room_for_three(alloc: Global) -> Result<MemSink, AllocError> {
    MemSink::new(alloc, 3, Seq::new(alloc))
}

#[test]
fn reads_to_the_end_a_fault_or_the_limit(rt: HostRuntime) -> Result<(), Fail> {
    let alloc = rt.alloc();
    let mut source = three_bytes(alloc, &[])?;
    let taken = read_all(alloc, &mut source, 3)?;
    assert_eq!(rt; taken.bytes.as_slice(), b"abc".as_slice());
    assert_eq!(rt; taken.end, ReadEnd::Ended);
    let mut source = three_bytes(alloc, &[1])?;
    assert_eq!(rt; read_all(alloc, &mut source, 3)?.end, ReadEnd::Failed);
    let mut source = three_bytes(alloc, &[])?;
    assert_eq!(rt; read_all(alloc, &mut source, 2)?.end, ReadEnd::Full);
    Ok(())
}

#[test]
fn writes_as_far_as_there_is_room(rt: HostRuntime) -> Result<(), Fail> {
    let mut sink = room_for_three(rt.alloc())?;
    assert_eq!(rt; write_all(&mut sink, b"ab"), Ok(()));
    assert!(rt; write_all(&mut sink, b"cd").is_err());
    assert_eq!(rt; sink.bytes(), b"ab".as_slice());
    Ok(())
}

#[test]
fn hands_out_connections_once(rt: HostRuntime) -> Result<(), Fail> {
    let alloc = rt.alloc();
    let mut conns = Vec::new(alloc);
    conns.push((three_bytes(alloc, &[])?, room_for_three(alloc)?))?;
    let mut listener = MemListen::new(alloc, Seq::of(conns), Seq::new(alloc))?;
    match listener.accept() {
        Ok(Some((input, output))) => listener.done(input, output),
        _ => assert!(rt; false, "a connection was left"),
    }
    assert!(rt; matches!(&listener.accept(), Ok(None)));
    Ok(())
}
