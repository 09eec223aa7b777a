use super::*;
use crate::draws::{drawn, next_state};
use std::test::Fail;

const SMALL: &[u8] = b"flit 1
structure hash 256
place adjacent
rows 10
workers 2
1 insert 28
2 insert 5
1 contains 10
end
";

#[test]
fn the_worked_example_is_made(rt: HostRuntime) -> Result<(), Fail> {
    let text = generator_text(rt.alloc(), 7, 3, 16, 2)?;
    assert_eq!(rt; text.as_slice(), SMALL);
    Ok(())
}

#[test]
fn the_first_draws_of_seed_7(rt: HostRuntime) -> Result<(), Fail> {
    let steps = [
        (7, 1282168116, 19564),
        (1282168116, 642666333, 9806),
        (642666333, 712265938, 10868),
        (712265938, 1486001571, 22674),
        (1486001571, 2131988640, 32531),
        (2131988640, 220562521, 3365),
    ];
    for (state, next, draw) in steps {
        assert!(rt; state < 2147483648u64);
        let behind = next_state(state);
        assert_eq!(rt; behind, next);
        assert_eq!(rt; drawn(behind), draw);
    }
    Ok(())
}

#[test]
fn the_greatest_numbers_are_taken(rt: HostRuntime) -> Result<(), Fail> {
    let text = generator_text(rt.alloc(), 2147483647, 100, 32768, 64)?;
    assert!(rt; text.ends_with(b"\nend\n"));
    let least = generator_text(rt.alloc(), 0, 1, 1, 1)?;
    assert!(rt; least.ends_with(b"workers 1\n1 insert 0\nend\n"));
    Ok(())
}
