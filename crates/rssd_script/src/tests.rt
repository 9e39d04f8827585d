use super::*;
use std::alloc::Global;
use std::test::Fail;

// Each kind of line, in its one spelling.
const KINDS: &[u8] =
    b"write 0 a500\nwrite 1 -\nread 4294967295\ntrim 0\nidle 4\ncut 1 mask:0000000000000004\ncut 1000000 all\ncut 7 none\nfailread 3\nmount\nstat\n";

/// The lines of a text that comes in two pieces.
fn read_in_two(alloc: Global, front: &[u8], back: &[u8]) -> Result<Vec<Line>, Fail> {
    let mut reader = ScriptReader::new(alloc);
    reader.feed(front)?;
    reader.feed(back)?;
    Ok(reader.end()?)
}

#[test]
fn a_script_is_the_same_wherever_it_is_cut(rt: HostRuntime) -> Result<(), Fail> {
    for (text, lines) in [
        (KINDS, 11),
        (b"write 0 a5\nread 0\n".as_slice(), 2),
        (
            b"write 0 01\nwrite 0 02\nwrite 0 03\nwrite 0 04\nread 0\nstat\n",
            6,
        ),
        (
            b"write 0 a5\nwrite 1 01\nmount\nread 0\nwrite 0 5a\nmount\nread 0\nread 1\n",
            8,
        ),
        (
            b"write 0 01\ncut 1 mask:0000000000000004\nwrite 0 02\nmount\nread 0\nstat\n",
            6,
        ),
        (
            b"write 0 11\ncut 3 all\nwrite 0 33\nmount\ntrim 0\nidle 4\nread 0\nstat",
            8,
        ),
        (b"", 0),
    ] {
        for cut in 0..=text.len() {
            let read = read_in_two(rt.alloc(), &text[..cut], &text[cut..])?;
            assert_eq!(rt; read.len(), lines, "cut at {cut}");
        }
    }
    Ok(())
}

#[test]
fn sta_and_t_are_stat(rt: HostRuntime) -> Result<(), Fail> {
    let lines = read_in_two(rt.alloc(), b"sta", b"t")?;
    assert_eq!(rt; lines.len(), 1);
    assert!(rt; matches!(&lines[0], Line::Stat));
    Ok(())
}

#[test]
fn the_first_bad_line_is_named(rt: HostRuntime) {
    for (text, line) in [
        (b"\n".as_slice(), 1),
        (b"stat\n\nstat", 2),
        (b"stat\nstat\nstat\nstat\nstat\nstat\nStat", 7),
        (b"read 01", 1),
        (b"mount\nread  1", 2),
        (b"read 4294967296", 1),
        (b"cut 0 all", 1),
        (b"cut 1000001 all", 1),
        (b"cut 1 mask:000000000000004", 1),
        (b"write 0 0", 1),
        (b"write 0 AB", 1),
        (b"write 0 ", 1),
        (b"stat ", 1),
    ] {
        let refusal = parse(rt.alloc(), text).err();
        assert_eq!(rt;
            refusal,
            Some(ScriptError::BadLine(line)),
            "bad line {line}"
        );
    }
}

#[test]
fn the_longest_script_has_1048576_bytes(rt: HostRuntime) -> Result<(), Fail> {
    let mut text = Vec::new(rt.alloc());
    for _ in 0..209_711 {
        text.extend_from_slice(b"stat\n")?;
    }
    text.extend_from_slice(b"read 0\nread 0\nread 0\n")?;
    assert_eq!(rt; parse(rt.alloc(), text.as_slice())?.len(), 209_714);
    text.push(b's')?;
    let refusal = parse(rt.alloc(), text.as_slice()).err();
    assert_eq!(rt; refusal, Some(ScriptError::TooLong));
    assert_eq!(rt; parse(rt.alloc(), b"")?.len(), 0);
    Ok(())
}

#[test]
#[tactic(auto, unfolding(crate::specs::Script::IsWithinGrammar))]
fn lines_and_replies_are_printed(rt: HostRuntime) -> Result<(), Fail> {
    let bytes = SectorBytes::of(rt.alloc(), b"\xa5\x00")?;
    assert_eq!(rt; bytes.as_slice(), b"\xa5\x00".as_slice());
    let write = print_line(rt.alloc(), &Line::Write { sector: 12, bytes })?;
    assert_eq!(rt; write.as_slice(), b"write 12 a500\n".as_slice());
    let torn = TornWord::Mask(4);
    let cut = print_line(rt.alloc(), &Line::Cut { n: 1, torn })?;
    assert_eq!(rt; cut.as_slice(), b"cut 1 mask:0000000000000004\n".as_slice());
    let read = ReplyBytes::of(b"\x00\xa5");
    assert_eq!(rt; read.as_slice(), b"\x00\xa5".as_slice());
    assert_eq!(rt;
        print_reply(&Reply::Bytes(read)).as_slice(),
        b"00a5\n".as_slice()
    );
    let stat = Reply::Stat {
        first: 3,
        second: 1,
        declined: 0,
        moved: 0,
        erased: 18446744073709551615,
    };
    assert_eq!(rt;
        print_reply(&stat).as_slice(),
        b"first 3 second 1 declined 0 moved 0 erased 18446744073709551615\n".as_slice()
    );
    for (reply, text) in [
        (Reply::Bytes(ReplyBytes::of(b"")), b"-\n".as_slice()),
        (Reply::Moves(12), b"12\n"),
        (Reply::Done, b"ok\n"),
        (Reply::NoSpare, b"no spare\n"),
    ] {
        assert_eq!(rt; print_reply(&reply).as_slice(), text);
    }
    Ok(())
}

#[test]
fn a_sector_is_told_by_its_number_and_its_bytes(rt: HostRuntime) {
    for (sector, bytes, line) in [
        (0, [].as_slice(), b"0 -\n".as_slice()),
        (70, &[0x0f, 0xa9, 0xff], b"70 0fa9ff\n"),
        (
            4294967295,
            b"seventeen letters",
            b"4294967295 736576656e7465656e206c657474657273\n",
        ),
    ] {
        assert_eq!(rt; print_sector(sector, bytes).as_slice(), line);
    }
}
