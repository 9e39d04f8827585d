use super::*;
use rssd_script::Line;
use std::alloc::Global;
use std::process::Abort;
use std::test::Fail;

#[test]
fn the_words_of_seed_0_are_those_of_their_authors(rt: HostRuntime) -> Result<(), Fail> {
    let plan = Plan {
        kind: Kind::Uniform,
        sectors: 10,
        sector_bytes: 16,
        idle: 0,
    };
    let mut drawn = Drawn::new(rt.alloc(), plan, 0, 1)?;
    assert_eq!(rt; drawn.left(), 1);
    // The words are e220a8397b1dcdaf, 6e789e6aa1b965f4, 06c45d188009454f and f88bb8a8724c81ec.
    match drawn.next_line(rt.alloc()) {
        Ok(Some(Line::Write { sector, bytes })) => {
            assert_eq!(rt; sector, 0);
            assert_eq!(rt;
                bytes.as_slice(),
                b"\x4f\x45\x09\x80\x18\x5d\xc4\x06\xec\x81\x4c\x72\xa8\xb8\x8b\xf8".as_slice()
            );
        }
        _ => assert!(rt; false),
    }
    assert!(rt; matches!(drawn.next_line(rt.alloc()), Ok(None)));
    drawn_lines_are_those_of_their_seed();
    Ok(())
}

/// Whether the next lines are these: a letter for the kind of the line, and its number.
fn assert_draws(alloc: Global, rt: &impl Abort, kind: Kind, lines: &[(u8, u32)]) {
    let plan = Plan {
        kind,
        sectors: 30,
        sector_bytes: 16,
        idle: 250,
    };
    let mut drawn = Drawn::new(alloc, plan, 7, 12).expect(rt, "a workload");
    for line in lines {
        let told = match drawn.next_line(alloc) {
            Ok(Some(Line::Write { sector, .. })) => (b'w', sector),
            Ok(Some(Line::Read { sector })) => (b'r', sector),
            Ok(Some(Line::Idle { n })) => (b'i', n),
            _ => (b'?', 0),
        };
        assert_eq!(rt; told, *line);
    }
}

// The lines of seed 7 that a second program, in Python, draws.
#[test]
fn each_kind_draws_the_lines_of_its_seed(rt: HostRuntime) {
    let alloc = rt.alloc();
    let hot = [
        (b'w', 2),
        (b'w', 1),
        (b'w', 0),
        (b'w', 0),
        (b'w', 1),
        (b'w', 2),
        (b'i', 4),
    ];
    assert_draws(alloc, &rt, Kind::Hot, &hot);
    let zipf = [
        (b'w', 3),
        (b'w', 0),
        (b'w', 2),
        (b'w', 5),
        (b'w', 0),
        (b'w', 8),
        (b'i', 4),
    ];
    assert_draws(alloc, &rt, Kind::Zipf, &zipf);
    let turns = [
        (b'w', 0),
        (b'w', 1),
        (b'w', 2),
        (b'w', 3),
        (b'w', 4),
        (b'w', 5),
        (b'i', 4),
    ];
    assert_draws(alloc, &rt, Kind::Sequential, &turns);
    let mixed = [
        (b'w', 24),
        (b'r', 15),
        (b'w', 12),
        (b'i', 4),
        (b'w', 0),
        (b'r', 7),
        (b'r', 17),
    ];
    assert_draws(alloc, &rt, Kind::Mixed, &mixed);
}
