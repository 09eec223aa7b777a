use super::*;
use crossbeam_utils::atomic::AtomicCell;
use flit_model::Reply;
use flit_outside::{MemSink, MemSource};
use flit_recover::Damage;
use flit_statuses::ImageFault;
use flit_trace::Bound;
use flit_workers::NoGate;
use std::process::Abort;
use std::test::Fail;
use std::thread::yield_now;

const TWO_WORKERS: &str =
    "flit 1\nstructure list\nrows 4\nworkers 2\n1 insert 3\n2 insert 4\nend\n";

const TWO_WORKERS_REPORT: &str = "call 1 insert 3 yes\ncall 2 insert 4 yes\nkeys 3 4\nfree 2\n";

const TWO_WORKERS_SUMMARY: &str = "calls 2\ndone 2\nstopped 0\nfull 0\nworn 0\nkeys 2\n";

const VALUES: &str =
    "flit 2\nstructure list\nrows 4\nworkers 1\n1 insert 5 70\n1 insert 5 80\n1 get 5\n1 get 6\nend\n";

const VALUES_REPORT: &str =
    "call 1 insert 5 70 yes\ncall 1 insert 5 80 no\ncall 1 get 5 value 70\ncall 1 get 6 no\nkeys 5\nvalues 70\nfree 3\n";

const VALUES_IMAGE: &str =
    "image 2\nstructure list\nrows 4\nword 0 1:4\nword 1 1:5\nword 2 1:0\nword 9 1:70\nend\n";

const STARTED: &str =
    "flit 2\nstructure list\nrows 4\nworkers 1\nstart 1\nword 0 3:8\nword 1 1:5\nword 2 2:1\nword 3 1:5\nword 4 1:0\nbegin\n1 get 5\n1 insert 6 9\nend\n";

const STARTED_REPORT: &str =
    "call 1 get 5 value 0\ncall 1 insert 6 9 yes\nkeys 5 6\nvalues 0 9\nfree 2\n";

const TURNED: &str =
    "flit 1\nstructure list\nrows 4\nworkers 1\n1 insert 5\nturn 1 3\nstop 1 11\nahead all\nend\n";

const TURNED_REPORT: &str = "call 1 insert 5 stopped\nkeys\nfree 4\n";

const DAMAGED: &str =
    "flit 2\nstructure list\nrows 4\nworkers 1\nstart 2\nword 0 1:4\nword 1 1:5\nword 2 1:4\nbegin\nend\n";

const CUT: &str = "flit 1\nstructure list\nrows 4\nworkers 1\n1 insert 5\n";

const MANY_ROWS: &str = "flit 1\nstructure list\nrows 1048576\nworkers 1\nend\n";

/// How a run of the command ended, whether a run was told of, and what the sink took.
#[derive(Drop)]
pub struct Taken {
    pub status: Status,
    pub told: bool,
    pub text: Vec<u8>,
}

/// A run of the command, on a source that fails at these reads and a sink that fails at these writes, both in pieces of
/// so many bytes.
pub fn run<G: Gate + Sync, R: AllocGlobal + Threads + Wait + Sync>(
    rt: &R,
    words: &[&str],
    trace: &str,
    failing_read: u64,
    failing_write: u64,
    gate: &G,
) -> Result<Taken, Fail> {
    let alloc = rt.alloc();
    let mut given = Words::new(alloc);
    for word in words {
        given.push(word)?;
    }
    let failing_reads = vec![in alloc; failing_read]?;
    let failing_writes = vec![in alloc; failing_write]?;
    let mut source = MemSource::new(trace.as_bytes().to_vec(alloc)?, 8, failing_reads);
    let mut sink = MemSink::new(alloc, 8, failing_writes, 100000)?;
    let Ended { status, told } = flit_run(rt, alloc, &given, &mut source, &mut sink, gate);
    Ok(Taken {
        status,
        told: told.is_some(),
        text: sink.bytes().to_vec(alloc)?,
    })
}

/// The command ends well with this text.
fn is_written<G: Gate + Sync, R: AllocGlobal + Abort + Threads + Wait + Sync>(
    rt: &R,
    words: &[&str],
    trace: &str,
    text: &str,
    gate: &G,
) -> Result<(), Fail> {
    let taken = run(rt, words, trace, 0, 0, gate)?;
    assert_eq!(rt; taken.status, Status::Done);
    assert!(rt; taken.told);
    assert_eq!(rt; taken.text.as_slice(), text.as_bytes());
    Ok(())
}

#[test]
fn a_run_of_two_workers(rt: HostRuntime) -> Result<(), Fail> {
    is_written(&rt, &["run"], TWO_WORKERS, TWO_WORKERS_REPORT, &NoGate)?;
    is_written(
        &rt,
        &["run", "--summary"],
        TWO_WORKERS,
        TWO_WORKERS_SUMMARY,
        &NoGate,
    )
}

#[test]
fn values_in_a_trace(rt: HostRuntime) -> Result<(), Fail> {
    is_written(&rt, &["run"], VALUES, VALUES_REPORT, &NoGate)?;
    is_written(&rt, &["run", "--image"], VALUES, VALUES_IMAGE, &NoGate)?;
    is_written(&rt, &["run"], STARTED, STARTED_REPORT, &NoGate)
}

/// Turn lines and ahead lines play no part: the image is the shadows.
#[test]
fn turns_play_no_part(rt: HostRuntime) -> Result<(), Fail> {
    is_written(&rt, &["run"], TURNED, TURNED_REPORT, &NoGate)
}

#[test]
fn refusals(rt: HostRuntime) -> Result<(), Fail> {
    let damage = ImageFault::Damage(Damage::Shared { row: 1 });
    let rows = Status::Limit {
        line: 3,
        limit: Bound::Rows,
    };
    let refused = [
        (DAMAGED, Status::BadImage(damage)),
        (CUT, Status::BadTrace { line: 6 }),
        (MANY_ROWS, rows),
    ];
    for (trace, status) in refused {
        let taken = run(&rt, &["run"], trace, 0, 0, &NoGate)?;
        assert_eq!(&rt; taken.status, status);
        assert!(&rt; !taken.told && taken.text.is_empty());
    }
    let taken = run(&rt, &["step"], TWO_WORKERS, 1, 0, &NoGate)?;
    assert_eq!(&rt; taken.status, Status::Usage);
    assert!(&rt; !taken.told);
    Ok(())
}

/// Each read and each write fails in turn. The text is taken in pieces of 8 bytes.
#[test]
fn every_fault(rt: HostRuntime) -> Result<(), Fail> {
    let reads = TWO_WORKERS.len() as u64 / 8 + 2;
    for call in 1..reads + 1 {
        let taken = run(&rt, &["run"], TWO_WORKERS, call, 0, &NoGate)?;
        assert_eq!(&rt; taken.status, Status::ReadFault);
        assert!(&rt; !taken.told && taken.text.is_empty());
    }
    let report = TWO_WORKERS_REPORT.as_bytes();
    for written in 0..report.len() / 8 {
        let taken = run(&rt, &["run"], TWO_WORKERS, 0, written as u64 + 1, &NoGate)?;
        assert_eq!(&rt; taken.status, Status::WriteFault);
        assert!(&rt; taken.told);
        assert_eq!(&rt; taken.text.as_slice(), &report[..8 * written]);
    }
    Ok(())
}

/// Holds the first call of one worker until that of the other was answered, for some turns, and counts what it is told.
#[derive(Drop)]
struct Holding {
    held: u32,
    answered: AtomicCell<bool>,
    late: AtomicCell<bool>,
    begun: AtomicCell<u32>,
    ended: AtomicCell<u32>,
}

/// What a worker counts for, of two.
fn share_of(worker: u32) -> u32 {
    if worker == 1 { 1 } else { 100 }
}

impl Gate for Holding {
    fn before(&self, worker: u32, number: u32) {
        self.begun.fetch_add(share_of(worker));
        if worker != self.held || number != 1 {
            return;
        }
        for _ in 0..10000000 {
            if self.answered.load() {
                return;
            }
            yield_now();
        }
        self.late.store(true);
    }

    fn after(&self, worker: u32, _number: u32, _reply: Reply) {
        self.ended.fetch_add(share_of(worker));
        if worker != self.held {
            self.answered.store(true);
        }
    }
}

/// Workers that are run one after another are late, or one of their calls isn't told.
#[test]
fn the_gate(rt: HostRuntime) -> Result<(), Fail> {
    for held in 1..3 {
        let gate = Holding {
            held,
            answered: AtomicCell::new(false),
            late: AtomicCell::new(false),
            begun: AtomicCell::new(0),
            ended: AtomicCell::new(0),
        };
        is_written(&rt, &["run"], TWO_WORKERS, TWO_WORKERS_REPORT, &gate)?;
        assert!(&rt; !gate.late.load());
        assert_eq!(&rt; gate.begun.load(), 101);
        assert_eq!(&rt; gate.ended.load(), 101);
    }
    Ok(())
}
