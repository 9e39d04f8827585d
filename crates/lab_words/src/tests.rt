use super::*;
use die_image::{ImageHead, SchemeName};
use lab_lines::Kind;
use std::alloc::Global;
use std::test::Fail;

const HEAD: ImageHead = ImageHead {
    scheme: SchemeName::Rs16,
    blocks: 2,
    pages: 2,
    sectors: 1,
    reuse_max: 0,
};

/// What words ask for that one space parts.
fn read(alloc: Global, line: &str) -> Result<Option<Asked>, Fail> {
    let mut words = Vec::new(alloc);
    for word in line.split(' ') {
        words.push(String::from_str(alloc, word)?)?;
    }
    Ok(read_words(words.as_slice()))
}

#[test]
fn both_orders_are_read(rt: HostRuntime) -> Result<(), Fail> {
    let die = blank(DieKind::Plain);
    let played = Asked {
        from: LinesFrom::Stream,
        voice: Voice::Loud,
        every: 10,
        die,
    };
    assert_eq!(rt;
        read(rt.alloc(), "play loud 10 rs16 2 2 1 0")?,
        Some(played)
    );
    let drawn = Asked {
        from: LinesFrom::Drawn {
            kind: Kind::Hot,
            seed: 1,
            count: 5,
            idle: 1_000,
        },
        voice: Voice::Progress,
        every: 1,
        die,
    };
    assert_eq!(rt;
        read(rt.alloc(), "draw progress hot 1 5 1000 1 rs16 2 2 1 0")?,
        Some(drawn)
    );
    Ok(())
}

/// A blank die of this kind.
fn blank(kind: DieKind) -> DieFrom {
    DieFrom::Blank(AskedDie { head: HEAD, kind })
}

#[test]
fn each_kind_of_die_is_read(rt: HostRuntime) -> Result<(), Fail> {
    let worn = DieKind::Worn {
        reserve: 2,
        bad: u32::MAX,
    };
    for (line, die) in [
        ("play quiet 1 rs16 2 2 1 0", blank(DieKind::Plain)),
        ("play quiet 1 worn rs16 2 2 1 0 2 4294967295", blank(worn)),
        ("play quiet 1 pair rs16 2 2 1 0", blank(DieKind::Pair)),
        ("play quiet 1 run", DieFrom::Image),
    ] {
        let asked = Asked {
            from: LinesFrom::Stream,
            voice: Voice::Quiet,
            every: 1,
            die,
        };
        assert_eq!(rt; read(rt.alloc(), line)?, Some(asked));
    }
    Ok(())
}

#[test]
fn bad_words_ask_for_nothing(rt: HostRuntime) -> Result<(), Fail> {
    for line in [
        "play",
        "play loud 0 rs16 2 2 1 0",
        "play soft 10 rs16 2 2 1 0",
        "draw quiet hot 1 5 1001 1 rs16 2 2 1 0",
        "draw quiet cold 1 5 0 1 rs16 2 2 1 0",
        "draw quiet hot 1 05 0 1 rs16 2 2 1 0",
        "play loud 10 rs16 2 2 2 0",
        "play loud 10 replay rs16 2 2 1 0",
        "play loud 10 pair rs16 3 2 3 0",
        "play loud 10 worn rs16 2 2 1 0 3 0",
        "play loud 10 worn rs16 2 2 1 0 0 4294967296",
        "play loud 10 worn rs16 2 2 1 0",
        "play loud 10 run rs16 2 2 1 0",
        "play loud 10 upgrade",
    ] {
        assert_eq!(rt; read(rt.alloc(), line)?, None);
    }
    Ok(())
}
