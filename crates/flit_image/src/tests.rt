use super::*;
use std::test::Fail;

const LIST: &[u8] =
    b"image 1\nstructure list\nrows 4\nword 0 3:8\nword 1 1:5\nword 2 2:1\nword 3 1:5\nword 4 1:0\nend\n";

const CUT: &[u8] =
    b"image 1\nstructure hash 2\nrows 4\nword 0 1:4\nword 1 1:4\nword 2 1:0\nword 3 1";

const VALUED: &[u8] = b"image 2\nstructure list\nrows 1\nword 3 0:7t\nend\n";

const TREE: &[u8] = b"image 1\nstructure tree\nrows 1\nword 15 1:9\nend";

const LIFTED: &[u8] =
    b"image 2\nstructure list\nrows 4\nword 0 3:8\nword 1 1:5\nword 2 2:1\nword 3 1:5\nword 4 1:0\nend\n";

#[test]
fn a_list_is_read_and_written_back(rt: HostRuntime) -> Result<(), Fail> {
    let image = read_image(rt.alloc(), LIST)?;
    let words = [
        25769803784,
        8589934597,
        17179869185,
        8589934597,
        8589934592,
        0,
        0,
        0,
        0,
    ];
    assert_eq!(rt; image.words.as_slice(), words.as_slice());
    assert!(rt; !image.values);
    let text = write_image(rt.alloc(), &image)?;
    assert_eq!(rt; text.as_slice(), LIST);
    let lifted = lift(rt.alloc(), &image)?;
    assert_eq!(rt; lifted.words.len(), 13);
    let text = write_image(rt.alloc(), &lifted)?;
    assert_eq!(rt; text.as_slice(), LIFTED);
    Ok(())
}

#[test]
fn two_prefixes_are_read(rt: HostRuntime) {
    for end in 0..LIST.len() + 1 {
        let whole = end + 1 >= LIST.len();
        assert_eq!(rt; read_image(rt.alloc(), &LIST[..end]).is_ok(), whole);
        assert_eq!(rt; view_image(rt.alloc(), &LIST[..end]).is_ok(), whole);
    }
}

#[test]
fn a_cut_line_is_bad(rt: HostRuntime) {
    let bad = Some(ImageError::BadLine { line: 7 });
    assert_eq!(rt; read_image(rt.alloc(), CUT).err(), bad);
    assert_eq!(rt; view_image(rt.alloc(), CUT).err(), bad);
}

#[test]
fn values_and_tags_are_read(rt: HostRuntime) -> Result<(), Fail> {
    let image = read_image(rt.alloc(), VALUED)?;
    assert!(rt; image.values);
    assert_eq!(rt; image.words.as_slice(), [0, 0, 0, 4294967303].as_slice());
    let text = write_image(rt.alloc(), &image)?;
    assert_eq!(rt; text.as_slice(), VALUED);
    Ok(())
}

#[test]
fn a_view_lends_lines(rt: HostRuntime) -> Result<(), Fail> {
    let view = view_image(rt.alloc(), VALUED)?;
    assert_eq!(rt; view.words().len(), 4);
    assert_eq!(rt; view.word(3), 4294967303);
    assert_eq!(rt; view.line(3), Some(b"word 3 0:7t".as_slice()));
    assert_eq!(rt; view.line(2), None);
    assert_eq!(rt; view.layout().rows, 1);
    Ok(())
}

#[test]
fn a_tree_begins_fresh(rt: HostRuntime) -> Result<(), Fail> {
    let image = read_image(rt.alloc(), TREE)?;
    assert_eq!(rt; image.words.len(), 18);
    assert_eq!(rt; image.words[0], 4294967295);
    assert_eq!(rt; image.words[15], 8589934601);
    Ok(())
}
