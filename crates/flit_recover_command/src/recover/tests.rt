ghost use Rattle.std.specs.Prelude.{◌≤◌};

use super::*;
use flit_image::ImageError;
use flit_outside::{MemSink, MemSource};
use flit_recover::Damage;
use flit_statuses::ImageFault;
use std::test::Fail;

const REMOVED: &[u8] =
    b"image 1\nstructure list\nrows 4\nword 0 3:8\nword 1 1:5\nword 2 2:1\nword 3 1:5\nword 4 1:0\nend\n";

const REMOVED_REPORT: &[u8] = b"keys 5\nunreached 1 3 4\n";

const VALUED: &[u8] = b"image 2\nstructure list\nrows 2\nword 0 1:4\nword 1 1:7\nword 5 1:70\nend";

const VALUED_REPORT: &[u8] = b"keys 7\nvalues 70\nunreached 2\n";

const EMPTY_TREE: &[u8] = b"image 1\nstructure tree\nrows 2\nend\n";

const EMPTY_TREE_REPORT: &[u8] = b"keys\nunreached 6 7\n";

const TWO_CHAINS: &[u8] =
    b"image 1\nstructure hash 2\nrows 4\nword 0 1:4\nword 1 1:4\nword 2 1:0\nword 3 1:0\nend\n";

const CUT: &[u8] =
    b"image 1\nstructure hash 2\nrows 4\nword 0 1:4\nword 1 1:4\nword 2 1:0\nword 3 1";

const FIXED_ROW: &[u8] = b"image 1\nstructure tree\nrows 1\nword 4 1:20\nend\n";

/// A run of the command, on a source that fails at this read and a sink that fails at this write, both in pieces of so
/// many bytes: how it ended, and what the sink took.
fn run(
    alloc: Global,
    words: &[&str],
    image: &[u8],
    piece: usize,
    failing_read: u64,
    failing_write: u64,
) -> Result<(Status, Vec<u8>), Fail>
    requires { 1 ≤ piece }
{
    let mut given = Words::new(alloc);
    for word in words {
        given.push(word)?;
    }
    let failing_reads = vec![in alloc; failing_read]?;
    let failing_writes = vec![in alloc; failing_write]?;
    let mut source = MemSource::new(image.to_vec(alloc)?, piece, failing_reads);
    let mut sink = MemSink::new(alloc, piece, failing_writes, 1000)?;
    let status = flit_recover(alloc, &given, &mut source, &mut sink);
    Ok((status, sink.bytes().to_vec(alloc)?))
}

#[test]
fn images_are_recovered(rt: HostRuntime) -> Result<(), Fail> {
    let runs = [
        (REMOVED, REMOVED_REPORT),
        (VALUED, VALUED_REPORT),
        (EMPTY_TREE, EMPTY_TREE_REPORT),
    ];
    for (image, report) in runs {
        let (status, taken) = run(rt.alloc(), &["recover"], image, 8, 0, 0)?;
        assert_eq!(rt; status, Status::Done);
        assert_eq!(rt; taken.as_slice(), report);
    }
    Ok(())
}

#[test]
fn bad_images_are_told(rt: HostRuntime) -> Result<(), Fail> {
    let (status, taken) = run(rt.alloc(), &["recover"], TWO_CHAINS, 8, 0, 0)?;
    let damage = Damage::Shared { row: 1 };
    assert_eq!(rt; status, Status::BadImage(ImageFault::Damage(damage)));
    assert_eq!(rt; taken.len(), 0);
    let (status, _) = run(rt.alloc(), &["recover"], FIXED_ROW, 8, 0, 0)?;
    let damage = Damage::Shared { row: 5 };
    assert_eq!(rt; status, Status::BadImage(ImageFault::Damage(damage)));
    let (status, _) = run(rt.alloc(), &["recover"], CUT, 8, 0, 0)?;
    let fault = ImageError::BadLine { line: 7 };
    assert_eq!(rt; status, Status::BadImage(ImageFault::Text(fault)));
    Ok(())
}

#[test]
fn other_faults_are_told(rt: HostRuntime) -> Result<(), Fail> {
    let (status, _) = run(rt.alloc(), &["recover"], REMOVED, 8, 3, 0)?;
    assert_eq!(rt; status, Status::ReadFault);
    let (status, taken) = run(rt.alloc(), &["recover"], REMOVED, 8, 0, 2)?;
    assert_eq!(rt; status, Status::WriteFault);
    assert_eq!(rt; taken.as_slice(), &REMOVED_REPORT[..8]);
    let (status, _) = run(rt.alloc(), &["step"], REMOVED, 8, 0, 0)?;
    assert_eq!(rt; status, Status::Usage);
    Ok(())
}
