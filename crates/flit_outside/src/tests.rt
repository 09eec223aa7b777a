use super::*;
use crate::whole::{ReadError, read_all, write_all};
use std::io::Cursor;
use std::test::Fail;

const TEXT: &[u8] = b"twenty bytes of text";

#[test]
fn a_source_fails_at_its_calls(rt: HostRuntime) -> Result<(), Fail> {
    let bytes = TEXT.to_vec(rt.alloc())?;
    let mut source = MemSource::new(bytes, 8, vec![in rt.alloc(); 2]?);
    let mut into = [0u8; 16];
    assert_eq!(rt; source.read(&mut into), Ok(8));
    assert_eq!(rt; &into[..8], b"twenty b".as_slice());
    assert_eq!(rt; source.read(&mut into), Err(Failed));
    assert_eq!(rt; source.read(&mut into[..3]), Ok(3));
    assert_eq!(rt; source.read(&mut into), Ok(8));
    assert_eq!(rt; source.read(&mut into), Ok(1));
    assert_eq!(rt; source.read(&mut into), Ok(0));
    Ok(())
}

#[test]
fn a_sink_takes_up_to_its_room(rt: HostRuntime) -> Result<(), Fail> {
    let mut sink = MemSink::new(rt.alloc(), 8, vec![in rt.alloc(); 2]?, 12)?;
    assert_eq!(rt; sink.write(TEXT), Ok(8));
    assert_eq!(rt; sink.write(TEXT), Err(Failed));
    assert_eq!(rt; sink.write(TEXT), Ok(4));
    assert_eq!(rt; sink.write(TEXT), Err(Failed));
    assert_eq!(rt; sink.write(&[]), Ok(0));
    assert_eq!(rt; sink.bytes(), b"twenty btwen".as_slice());
    let mut none = MemSink::new(rt.alloc(), 0, Vec::new(rt.alloc()), 12)?;
    assert_eq!(rt; write_all(&mut none, TEXT), Err(Failed));
    assert_eq!(rt; none.bytes().len(), 0);
    Ok(())
}

// A text of 20 bytes is read in four calls, of which the last finds the end.
#[test]
fn each_read_fails_in_turn(rt: HostRuntime) -> Result<(), Fail> {
    for call in 1..=5 {
        let bytes = TEXT.to_vec(rt.alloc())?;
        let mut source = MemSource::new(bytes, 8, vec![in rt.alloc(); call]?);
        match read_all(rt.alloc(), &mut source, 100) {
            Ok(read) => {
                assert_eq!(rt; call, 5);
                assert_eq!(rt; read.as_slice(), TEXT);
            }
            Err(error) => {
                assert!(rt; call < 5);
                assert_eq!(rt; error, ReadError::Fault);
            }
        }
    }
    Ok(())
}

// A text of 20 bytes is written in three calls.
#[test]
fn each_write_fails_in_turn(rt: HostRuntime) -> Result<(), Fail> {
    let taken = [0, 8, 16, 20];
    for (before, length) in taken.iter().enumerate() {
        let call = before as u64 + 1;
        let mut sink = MemSink::new(rt.alloc(), 8, vec![in rt.alloc(); call]?, 100)?;
        let written = write_all(&mut sink, TEXT);
        assert_eq!(rt; written.is_ok(), call == 4);
        assert_eq!(rt; sink.bytes().len(), *length);
    }
    Ok(())
}

#[test]
fn a_limit_leaves_the_rest(rt: HostRuntime) -> Result<(), Fail> {
    let bytes = TEXT.to_vec(rt.alloc())?;
    let mut source = MemSource::new(bytes, 8, Vec::new(rt.alloc()));
    let front = read_all(rt.alloc(), &mut source, 12).ok().ok_or("read")?;
    assert_eq!(rt; front.as_slice(), b"twenty bytes".as_slice());
    let rest = read_all(rt.alloc(), &mut source, 100).ok().ok_or("read")?;
    assert_eq!(rt; rest.as_slice(), b" of text".as_slice());
    Ok(())
}

#[test]
fn std_readers_and_writers_are_wrapped(rt: HostRuntime) -> Result<(), Fail> {
    let mut source = StdSource::new(Cursor::new(TEXT));
    let read = read_all(rt.alloc(), &mut source, 100).ok().ok_or("read")?;
    let mut room = [0u8; 12];
    let mut sink = StdSink::new(Cursor::new(&mut room[..]));
    assert_eq!(rt; write_all(&mut sink, &read), Err(Failed));
    assert_eq!(rt; &room, b"twenty bytes");
    Ok(())
}

#[test]
fn a_failure_is_said(rt: HostRuntime) -> Result<(), Fail> {
    let said = Failed.to_string(rt.alloc())?;
    assert_eq!(rt; said.as_str(), "a read or a write failed");
    Ok(())
}
