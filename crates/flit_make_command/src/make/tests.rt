ghost use Rattle.std.specs.Prelude.{◌≤◌};

use super::*;
use flit_outside::{Failed, MemSink, MemSource};
use std::test::Fail;

const SMALL: &[u8] = b"flit 1
structure hash 256
place adjacent
rows 10
workers 2
1 insert 28
2 insert 5
1 contains 10
end
";

/// A run of the command, on a source that fails at its first read and a sink that takes 8 bytes in a call and fails at
/// this one: how it ended, and what the sink took.
fn run(alloc: Global, line: &[&str], failing_write: u64) -> Result<(Status, Vec<u8>), Fail> {
    let mut words = Words::new(alloc);
    for word in line {
        words.push(word)?;
    }
    let mut source = MemSource::new(Vec::new(alloc), 8, vec![in alloc; 1]?);
    let mut sink = MemSink::new(alloc, 8, vec![in alloc; failing_write]?, 1000)?;
    let status = flit_make(alloc, &words, &mut source, &mut sink);
    Ok((status, sink.bytes().to_vec(alloc)?))
}

#[test]
fn a_trace_is_made(rt: HostRuntime) -> Result<(), Fail> {
    let (status, taken) = run(rt.alloc(), &["make", "7", "3", "16", "2"], 0)?;
    assert_eq!(rt; status, Status::Done);
    assert_eq!(rt; taken.as_slice(), SMALL);
    Ok(())
}

#[test]
fn a_failing_write_is_told(rt: HostRuntime) -> Result<(), Fail> {
    for call in 1..=4u64 {
        let (status, taken) = run(rt.alloc(), &["make", "7", "3", "16", "2"], call)?;
        assert_eq!(rt; status, Status::WriteFault, "at write {call}");
        assert_eq!(rt; taken.len() as u64, 8 * (call - 1));
    }
    Ok(())
}

#[test]
fn other_words_are_usage(rt: HostRuntime) -> Result<(), Fail> {
    let lines: [&[&str]; 6] = [
        &[],
        &["make"],
        &["step"],
        &["make", "7", "0", "16", "2"],
        &["make", "7", "3", "16", "65"],
        &["make", "7", "03", "16", "2"],
    ];
    for line in lines {
        let (status, taken) = run(rt.alloc(), line, 1)?;
        assert_eq!(rt; status, Status::Usage);
        assert_eq!(rt; taken.len(), 0);
    }
    Ok(())
}
