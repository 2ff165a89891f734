//! What the program takes as its words: the table of its options.

use command_words::{Choice, Task, WordsFault, read_words};
use std::alloc::Global;

/// The words after the program's name, read. Want of memory is told as such.
fn read(alloc: Global, words: &[&str]) -> Result<Choice, WordsFault> {
    let mut line = Vec::new(alloc);
    for word in words {
        let word = String::from_str(alloc, word).map_err(|_| WordsFault::NoMemory)?;
        line.push(word).map_err(|_| WordsFault::NoMemory)?;
    }
    read_words(alloc, &line)
}

/// Each option has its default, and each is read before or after the task.
#[test]
fn options_and_defaults(rt: HostRuntime) {
    let bare = Choice {
        task: Task::Run,
        workers: 1,
        trace: false,
        seed: 0,
        size: 100,
    };
    assert_eq!(rt; read(rt.alloc(), &["axinet", "run"]), Ok(bare));
    let plan = Choice {
        task: Task::Plan,
        ..bare
    };
    assert_eq!(rt; read(rt.alloc(), &["axinet", "plan"]), Ok(plan));
    let full = Choice {
        task: Task::Check,
        workers: 64,
        trace: true,
        seed: u64::MAX,
        size: 16384,
    };
    let words = [
        "axinet",
        "--workers=64",
        "--trace=all",
        "check",
        "--seed",
        "18446744073709551615",
        "--size=16384",
    ];
    assert_eq!(rt; read(rt.alloc(), &words), Ok(full));
}

/// Values out of their ranges, other names, and questions for help are refused.
#[test]
fn refused_words(rt: HostRuntime) {
    for words in [
        &["axinet"][..],
        &["axinet", "walk"],
        &["axinet", "run", "check"],
        &["axinet", "run", "--workers=0"],
        &["axinet", "run", "--workers=65"],
        &["axinet", "run", "--trace=some"],
        &["axinet", "run", "--seed=18446744073709551616"],
        &["axinet", "run", "--size=16385"],
        &["axinet", "run", "--seed=1", "--seed=2"],
        &["axinet", "--help"],
    ] {
        assert_eq!(rt; read(rt.alloc(), words), Err(WordsFault::Usage));
    }
}
