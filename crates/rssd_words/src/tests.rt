use super::*;
use die_image::{ImageHead, SchemeName};
use std::alloc::Global;
use std::test::Fail;

const HEAD: ImageHead = ImageHead {
    scheme: SchemeName::Rs16,
    blocks: 2,
    pages: 2,
    sectors: 1,
    reuse_max: 0,
};

/// The command of words that one space parts.
fn read(alloc: Global, line: &str) -> Result<Option<Command>, Fail> {
    let mut words = Vec::new(alloc);
    for word in line.split(' ') {
        words.push(String::from_str(alloc, word)?)?;
    }
    Ok(read_words(words.as_slice()))
}

#[test]
fn each_command_is_read(rt: HostRuntime) -> Result<(), Fail> {
    let seed = 18446744073709551615;
    for (line, command) in [
        ("replay rs16 2 2 1 0", Command::Replay(HEAD)),
        ("run", Command::Run),
        ("format rs16 2 2 1 0", Command::Format(HEAD)),
        (
            "make 18446744073709551615 20000 rs16 2 2 1 0",
            Command::Make {
                seed,
                count: 20_000,
                head: HEAD,
            },
        ),
        ("upgrade", Command::Upgrade),
        ("queue rs16 2 2 1 0", Command::Queue(HEAD)),
        (
            "worn rs16 2 2 1 0 2 4294967295",
            Command::Worn {
                head: HEAD,
                reserve: 2,
                bad: u32::MAX,
            },
        ),
        ("pair rs16 2 2 1 0", Command::Pair(HEAD)),
        ("audit", Command::Audit),
    ] {
        assert_eq!(rt; read(rt.alloc(), line)?, Some(command));
    }
    Ok(())
}

#[test]
fn bad_words_are_no_command(rt: HostRuntime) -> Result<(), Fail> {
    assert_eq!(rt; read_words(&[]), None);
    for line in [
        "replay rs99 2 2 1 0",
        "replay rs16 1 2 1 0",
        "replay rs16 2 2 2 0",
        "replay rs16 02 2 1 0",
        "replay rs16 +2 2 1 0",
        "replay rs16 2 2 1 100000000000000000000000000000000000000000",
        "make 0 20001 rs16 2 2 1 0",
        "worn rs16 2 2 1 0 3 0",
        "worn rs16 2 2 1 0 0 4294967296",
        "pair rs16 3 2 3 0",
        "run run",
    ] {
        assert_eq!(rt; read(rt.alloc(), line)?, None);
    }
    Ok(())
}
