use super::*;
use std::alloc::Global;
use std::test::Fail;

fn words_of(alloc: Global, line: &[&str]) -> Result<Words, Fail> {
    let mut words = Words::new(alloc);
    for word in line {
        words.push(word)?;
    }
    Ok(words)
}

#[test]
fn each_command_has_its_words(rt: HostRuntime) -> Result<(), Fail> {
    let commands: [(&[&str], Command); 11] = [
        (&["run"], Command::Run(None)),
        (
            &["run", "--summary"],
            Command::Run(Some(RunOption::Summary)),
        ),
        (&["run", "--image"], Command::Run(Some(RunOption::Image))),
        (&["step"], Command::Step(None)),
        (
            &["step", "--events"],
            Command::Step(Some(StepOption::Events)),
        ),
        (
            &["step", "--summary"],
            Command::Step(Some(StepOption::Summary)),
        ),
        (&["step", "--image"], Command::Step(Some(StepOption::Image))),
        (
            &["step", "--detect"],
            Command::Step(Some(StepOption::Detect)),
        ),
        (&["recover"], Command::Recover),
        (&["queue"], Command::Queue),
        (&["check"], Command::Check),
    ];
    for (line, command) in commands {
        let words = words_of(rt.alloc(), line)?;
        assert_eq!(rt; command_of(&words), Some(command));
    }
    Ok(())
}

#[test]
fn make_has_four_numbers_in_their_ranges(rt: HostRuntime) -> Result<(), Fail> {
    let least = Making {
        seed: 0,
        calls: 1,
        keys: 1,
        workers: 1,
    };
    let words = words_of(rt.alloc(), &["make", "0", "1", "1", "1"])?;
    assert_eq!(rt; command_of(&words), Some(Command::Make(least)));
    let most = Making {
        seed: 2147483647,
        calls: 500000,
        keys: 32768,
        workers: 64,
    };
    let words = words_of(rt.alloc(), &["make", "2147483647", "500000", "32768", "64"])?;
    assert_eq!(rt; command_of(&words), Some(Command::Make(most)));
    Ok(())
}

#[test]
fn other_words_name_no_command(rt: HostRuntime) -> Result<(), Fail> {
    let lines: [&[&str]; 16] = [
        &[],
        &[""],
        &["steps"],
        &["step", "--fast"],
        &["step", "--events", "--image"],
        &["run", "--detect"],
        &["recover", "--image"],
        &["make"],
        &["make", "7", "3", "16"],
        &["make", "7", "3", "16", "2", "1"],
        &["make", "2147483648", "3", "16", "2"],
        &["make", "7", "0", "16", "2"],
        &["make", "7", "3", "32769", "2"],
        &["make", "7", "3", "16", "65"],
        &["make", "07", "3", "16", "2"],
        &["mate", "7", "3", "16", "2"],
    ];
    for line in lines {
        let words = words_of(rt.alloc(), line)?;
        assert_eq!(rt; command_of(&words), None);
    }
    Ok(())
}

#[test]
fn words_are_kept_in_order(rt: HostRuntime) -> Result<(), Fail> {
    let mut words = Words::new(rt.alloc());
    assert!(rt; words.is(&[]));
    words.push("step")?;
    words.push("--image")?;
    assert!(rt; words.is(&["step", "--image"]));
    assert!(rt; !words.is(&["--image", "step"]));
    assert!(rt; !words.is(&["step"]));
    assert_eq!(rt; words.get(1), Some("--image"));
    assert_eq!(rt; words.get(2), None);
    Ok(())
}
