use crate::*;
use flit_image::ImageError;
use flit_recover::Damage;
use flit_trace::Bound;
use std::test::Fail;

#[test]
fn statuses_have_their_codes_and_lines(rt: HostRuntime) -> Result<(), Fail> {
    let limit = Status::Limit {
        line: 3,
        limit: Bound::Rows,
    };
    let bad_text = Status::BadImage(ImageFault::Text(ImageError::BadLine { line: 7 }));
    let bad_header = Status::BadImage(ImageFault::Text(ImageError::BadHeader));
    let damaged = Status::BadImage(ImageFault::Damage(Damage::Shared { row: 5 }));
    let all = [
        (Status::Usage, 2, "flit: usage"),
        (Status::BadTrace { line: 6 }, 3, "flit: bad trace at line 6"),
        (limit, 4, "flit: limit rows at line 3"),
        (bad_text, 5, "flit: bad image: text 2 line 7"),
        (bad_header, 5, "flit: bad image: text 1"),
        (damaged, 5, "flit: bad image: damage 5 at 5"),
        (Status::ReadFault, 6, "flit: read fault"),
        (Status::WriteFault, 7, "flit: write fault"),
        (Status::NoMemory, 8, "flit: no memory"),
    ];
    for (status, code, said) in all {
        assert_eq!(rt; status.code(), code);
        let line = fault_line(status).ok_or("no line")?;
        assert_eq!(rt; line.as_str(), said);
    }
    assert_eq!(rt; Status::Done.code(), 0);
    assert!(rt; fault_line(Status::Done).is_none());
    Ok(())
}
