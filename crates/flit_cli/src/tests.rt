use crate::*;
use std::sync::Wait;
use std::test::Fail;
use std::thread::Threads;

/// A run of the program, on a source that fails at its first read: how it ended, and how many bytes its sink took.
fn run<R: AllocGlobal + Threads + Wait + Sync>(
    rt: &R,
    line: &[&str],
) -> Result<(Status, usize), Fail> {
    let alloc = rt.alloc();
    let mut words = Words::new(alloc);
    for word in line {
        words.push(word)?;
    }
    let mut source = MemSource::new(Vec::new(alloc), 8, vec![in alloc; 1]?);
    let mut sink = MemSink::new(alloc, 8, Vec::new(alloc), 1000)?;
    let Ended { status, told } = flit(rt, alloc, &words, &mut source, &mut sink);
    if told.is_some() {
        return Err(Fail::from("nothing was run"));
    }
    Ok((status, sink.bytes().len()))
}

#[test]
fn each_command_is_run_by_its_words(rt: HostRuntime) -> Result<(), Fail> {
    let reading: [&[&str]; 8] = [
        &["step"],
        &["step", "--events"],
        &["step", "--summary"],
        &["step", "--image"],
        &["run"],
        &["run", "--summary"],
        &["run", "--image"],
        &["recover"],
    ];
    for line in reading {
        let (status, taken) = run(&rt, line)?;
        assert_eq!(rt; status, Status::ReadFault);
        assert_eq!(rt; taken, 0);
    }
    let (status, taken) = run(&rt, &["make", "7", "3", "16", "2"])?;
    assert_eq!(rt; status, Status::Done);
    assert_eq!(rt; taken, 100);
    Ok(())
}

#[test]
fn other_words_are_usage(rt: HostRuntime) -> Result<(), Fail> {
    let lines: [&[&str]; 7] = [
        &[],
        &["run", "--events"],
        &["queue"],
        &["check"],
        &["step", "--detect"],
        &["make", "7", "0", "16", "2"],
        &["recover", "step"],
    ];
    for line in lines {
        let (status, taken) = run(&rt, line)?;
        assert_eq!(rt; status, Status::Usage);
        assert_eq!(rt; taken, 0);
    }
    Ok(())
}
