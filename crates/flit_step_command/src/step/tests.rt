ghost use Rattle.std.specs.Prelude.{◌≤◌};

use super::*;
use flit_outside::{MemSink, MemSource};
use flit_recover::Damage;
use flit_statuses::ImageFault;
use flit_trace::Bound;
use std::test::Fail;

const ONE_INSERT: &[u8] = b"flit 1\nstructure list\nrows 4\nworkers 1\n1 insert 5\nend\n";

const ONE_INSERT_REPORT: &[u8] =
    b"call 1 insert 5 yes\nhistory 1 1 insert 5 yes\nworker 1 loads 1 omitted 1 queued 0 persists 3 failed 0 helped 0 tries 1\nkeys 5\nfree 3\n";

const ONE_INSERT_EVENTS: &[u8] =
    b"event 1 load 0 0:0\nevent 1 readtag 0 0\nevent 1 draw 0\nevent 1 load 1 0:0\nevent 1 load 2 0:0\nevent 1 store 1 1:5\nevent 1 store 2 1:0\nevent 1 persist 1 1:5 0:0\nevent 1 persist 2 1:0 0:0\nevent 1 raise 0 0\nevent 1 exchange 0 0:0 1:4 0:0\nevent 1 persist 0 1:4 0:0\nevent 1 lower 0 1\ncall 1 insert 5 yes\nhistory 1 1 insert 5 yes\nworker 1 loads 1 omitted 1 queued 0 persists 3 failed 0 helped 0 tries 1\nkeys 5\nfree 3\n";

const ONE_INSERT_COUNTS: &[u8] = b"calls 1\ndone 1\nstopped 0\nfull 0\nworn 0\nkeys 1\n";

const BUCKET: &[u8] = b"flit 1\nstructure hash 256\nrows 4\nworkers 1\n1 insert 1\nend\n";

const BUCKET_IMAGE: &[u8] =
    b"image 1\nstructure hash 256\nrows 4\nword 177 1:4\nword 256 1:1\nword 257 1:0\nend\n";

const UNLAWFUL_START: &[u8] =
    b"flit 2\nstructure list\nrows 4\nworkers 1\nstart 2\nword 0 1:4\nword 1 1:5\nword 2 1:4\nbegin\nend\n";

/// A run of the command, on a source that fails at this read and a sink that fails at this write, both in pieces of so
/// many bytes: how it ended, and what the sink took.
fn run(
    alloc: Global,
    words: &[&str],
    trace: &[u8],
    piece: usize,
    failing_read: u64,
    failing_write: u64,
) -> Result<(Status, Vec<u8>), Fail>
    requires { 1 ≤ piece }
{
    let mut given = Words::new(alloc);
    for word in words {
        given.push(word)?;
    }
    let failing_reads = vec![in alloc; failing_read]?;
    let failing_writes = vec![in alloc; failing_write]?;
    let mut source = MemSource::new(trace.to_vec(alloc)?, piece, failing_reads);
    let mut sink = MemSink::new(alloc, piece, failing_writes, 1000)?;
    let status = flit_step(alloc, &given, &mut source, &mut sink);
    Ok((status, sink.bytes().to_vec(alloc)?))
}

#[test]
fn each_option_has_its_text(rt: HostRuntime) -> Result<(), Fail> {
    let runs: [(&[&str], &[u8], &[u8]); 4] = [
        (&["step"], ONE_INSERT, ONE_INSERT_REPORT),
        (&["step", "--events"], ONE_INSERT, ONE_INSERT_EVENTS),
        (&["step", "--summary"], ONE_INSERT, ONE_INSERT_COUNTS),
        (&["step", "--image"], BUCKET, BUCKET_IMAGE),
    ];
    for (words, trace, text) in runs {
        let (status, taken) = run(rt.alloc(), words, trace, 8, 0, 0)?;
        assert_eq!(rt; status, Status::Done);
        assert_eq!(rt; taken.as_slice(), text);
    }
    Ok(())
}

// The reads of one insert's trace are eight, in pieces of eight bytes, of which the last finds the end; the writes of its
// report are seventeen.
#[test]
fn each_fault_is_told(rt: HostRuntime) -> Result<(), Fail> {
    for call in 1..=8 {
        let (status, taken) = run(rt.alloc(), &["step"], ONE_INSERT, 8, call, 0)?;
        assert_eq!(rt; status, Status::ReadFault, "at read {call}");
        assert_eq!(rt; taken.len(), 0);
    }
    for call in 1..=17u64 {
        let (status, taken) = run(rt.alloc(), &["step"], ONE_INSERT, 8, 0, call)?;
        assert_eq!(rt; status, Status::WriteFault, "at write {call}");
        assert_eq!(rt; taken.len() as u64, 8 * (call - 1));
    }
    let (status, _) = run(rt.alloc(), &["step"], ONE_INSERT, 8, 9, 18)?;
    assert_eq!(rt; status, Status::Done);
    Ok(())
}

#[test]
fn a_sink_that_fails_at_its_third_call(rt: HostRuntime) -> Result<(), Fail> {
    let (status, taken) = run(rt.alloc(), &["step"], ONE_INSERT, 8, 0, 3)?;
    assert_eq!(rt; status, Status::WriteFault);
    assert_eq!(rt; taken.as_slice(), &ONE_INSERT_REPORT[..16]);
    Ok(())
}

#[test]
fn a_sink_of_no_pieces_takes_nothing(rt: HostRuntime) -> Result<(), Fail> {
    let mut words = Words::new(rt.alloc());
    words.push("step")?;
    let mut source = MemSource::new(ONE_INSERT.to_vec(rt.alloc())?, 8, Vec::new(rt.alloc()));
    let mut sink = MemSink::new(rt.alloc(), 0, Vec::new(rt.alloc()), 1000)?;
    let status = flit_step(rt.alloc(), &words, &mut source, &mut sink);
    assert_eq!(rt; status, Status::WriteFault);
    assert_eq!(rt; sink.bytes().len(), 0);
    Ok(())
}

// Usage comes before a source that fails at its first read.
#[test]
fn other_words_come_first(rt: HostRuntime) -> Result<(), Fail> {
    let lists: [&[&str]; 8] = [
        &[],
        &["step", "--fast"],
        &["step", "--detect"],
        &["steps"],
        &["step", "step"],
        &["step", "--events", "--image"],
        &["run"],
        &["queue"],
    ];
    for words in lists {
        let (status, taken) = run(rt.alloc(), words, ONE_INSERT, 8, 1, 0)?;
        assert_eq!(rt; status, Status::Usage);
        assert_eq!(rt; taken.len(), 0);
    }
    Ok(())
}

#[test]
fn the_first_fault_is_told_with_its_line(rt: HostRuntime) -> Result<(), Fail> {
    let damage = Damage::Shared { row: 1 };
    let limit = Bound::Rows;
    let texts: [(&[u8], Status); 6] = [
        (b"", Status::BadTrace { line: 1 }),
        (
            b"flit 1\nstructure list\nrows 4\nworkers 1\n1 insert 5\n",
            Status::BadTrace { line: 6 },
        ),
        (
            b"flit 1\nstructure list\nrows 0\nworkers 1\nend\n",
            Status::BadTrace { line: 3 },
        ),
        (
            b"flit 1\nstructure list\nrows 1048576\nworkers 1\nend\n",
            Status::Limit { line: 3, limit },
        ),
        (
            b"flit 1\nstructure list\nplace lines\nrows 4\nworkers 1\nend\n",
            Status::BadTrace { line: 0 },
        ),
        (UNLAWFUL_START, Status::BadImage(ImageFault::Damage(damage))),
    ];
    for (text, told) in texts {
        let (status, taken) = run(rt.alloc(), &["step", "--image"], text, 8, 0, 1)?;
        assert_eq!(rt; status, told);
        assert_eq!(rt; taken.len(), 0);
    }
    Ok(())
}
