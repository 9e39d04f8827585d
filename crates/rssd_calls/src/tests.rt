//! The top call on sources and sinks in memory.

use rssd_io::{MemSink, MemSource};
use rssd_run::rssd;
use std::alloc::Global;
use std::process::Abort;
use std::test::Fail;

/// The head of `format rs16 2 2 1 0`; four pages of 56 bytes follow it.
const HEAD: [u8; 32] = [
    0x57, 0x4f, 0x4d, 0x46, 0x4c, 0x41, 0x53, 0x48, 2, 0, 2, 0, 2, 0, 0, 0, 2, 0, 0, 0, 1, 0, 0, 0,
    0, 0, 0, 0, 2, 0, 0, 0,
];

/// Slot 0 of the page that has the first record of sector 0.
const FIRST_SLOT: [u8; 16] = [1, 0, 0, 0, 0, 1, 0, 0, 0, 0, 0, 0, 0, 1, 0x66, 0];

/// What a call is given beside its words. A take or give of the number at `fail` fails, and `out` has this room.
#[derive(Clone, Copy)]
struct Ends<'a> {
    image: &'a [u8],
    script: &'a [u8],
    fail: Fails,
    room: u32,
}

/// Which calls fail; 0 stands for none.
#[derive(Clone, Copy)]
struct Fails {
    image: u64,
    script: u64,
    image_out: u64,
}

const NONE: Fails = Fails {
    image: 0,
    script: 0,
    image_out: 0,
};

/// What a call answers, and what its sinks then have.
#[derive(Drop)]
struct Outcome {
    status: u8,
    out: Vec<u8>,
    image: Vec<u8>,
}

/// A source of these bytes, of which one call fails.
fn source(alloc: Global, rt: &impl Abort, bytes: &[u8], fail: u64) -> MemSource {
    MemSource::new(
        Vec::from_slice(alloc, bytes).expect(rt, "bytes"),
        Vec::from_slice(alloc, &[fail]).expect(rt, "a list"),
    )
}

/// A sink with this room, of which one call fails.
fn sink(alloc: Global, rt: &impl Abort, room: u32, fail: u64) -> MemSink {
    let fail_at = Vec::from_slice(alloc, &[fail]).expect(rt, "a list");
    MemSink::new(alloc, room, fail_at).expect(rt, "a sink")
}

/// Answers a line of words.
fn call(alloc: Global, rt: &impl Abort, line: &str, ends: Ends) -> Outcome {
    let mut words = Vec::new(alloc);
    for word in line.split(' ') {
        words
            .push(String::from_str(alloc, word).expect(rt, "a word"))
            .ok()
            .expect(rt, "a word");
    }
    let mut image = source(alloc, rt, ends.image, ends.fail.image);
    let mut script = source(alloc, rt, ends.script, ends.fail.script);
    let mut out = sink(alloc, rt, ends.room, 0);
    let mut image_out = sink(alloc, rt, 512, ends.fail.image_out);
    let status = rssd(
        alloc,
        &words,
        &mut image,
        &mut script,
        &mut out,
        &mut image_out,
    );
    Outcome {
        status,
        out: Vec::from_slice(alloc, out.bytes()).expect(rt, "bytes"),
        image: Vec::from_slice(alloc, image_out.bytes()).expect(rt, "bytes"),
    }
}

/// The image of a head and four pages, the first of which begins so.
fn image(alloc: Global, page: &[u8]) -> Result<Vec<u8>, Fail> {
    let mut image = Vec::from_slice(alloc, &HEAD)?;
    image.extend_from_slice(page)?;
    image.resize(256, 0)?;
    Ok(image)
}

/// The image after `write 0 a5`: cells 1, 4, 6 and 9 of page 0 are charged, and slot 0 has its record.
fn written(alloc: Global) -> Result<Vec<u8>, Fail> {
    let mut page = [0; 40];
    page[0] = 0x52;
    page[1] = 0x02;
    page[24..].copy_from_slice(&FIRST_SLOT);
    image(alloc, &page)
}

#[test]
fn a_replay_answers_its_script(rt: HostRuntime) {
    for (line, script, text) in [
        (
            "replay plain16 4 2 3 1",
            b"write 0 a5\nread 0\n".as_slice(),
            b"first\na5\n".as_slice(),
        ),
        (
            "replay plain16 4 2 3 1",
            b"read 2\nread 3\nwrite 2 -\nread 2",
            b"-\nrange\nfirst\n-\n",
        ),
        (
            "replay plain16 2 2 1 0",
            b"write 0 01\nwrite 0 02\nwrite 0 03\nwrite 0 04\nwrite 0 05\nread 0\n",
            b"first\nfirst\nfirst\nfirst\nfirst\n05\n",
        ),
    ] {
        let ends = Ends {
            image: b"",
            script,
            fail: NONE,
            room: 64,
        };
        let got = call(rt.alloc(), &rt, line, ends);
        assert_eq!(rt; (got.status, got.out.as_slice()), (0, text));
        assert!(rt; got.image.is_empty());
    }
}

#[test]
fn bad_words_and_bad_lines_are_told(rt: HostRuntime) {
    for (line, script, status, text) in [
        (
            "replay plain16 4 2 3 1",
            b"read 0\nread 0\nRead 0\n".as_slice(),
            3,
            b"bad line 3\n".as_slice(),
        ),
        ("replay plain16 4 2 3 1", b"read 0\n\n", 3, b"bad line 2\n"),
        ("run", b"read\n", 3, b"bad line 1\n"),
        ("replay plain16 4 2 03 1", b"", 2, b"bad words\n"),
        ("replay plain16 4 2 6 1", b"", 2, b"bad words\n"),
        ("audit 1", b"", 2, b"bad words\n"),
    ] {
        let ends = Ends {
            image: b"",
            script,
            fail: NONE,
            room: 64,
        };
        let got = call(rt.alloc(), &rt, line, ends);
        assert_eq!(rt; (got.status, got.out.as_slice()), (status, text));
        assert!(rt; got.image.is_empty());
    }
}

/// Runs a script on an image: this is what `out` and `image_out` then have.
fn assert_runs(
    alloc: Global,
    rt: &impl Abort,
    image: &[u8],
    script: &[u8],
    out: &[u8],
    new: &[u8],
) {
    let ends = Ends {
        image,
        script,
        fail: NONE,
        room: 64,
    };
    let got = call(alloc, rt, "run", ends);
    assert_eq!(rt; (got.status, got.out.as_slice()), (0, out));
    assert_eq!(rt; got.image.as_slice(), new);
}

#[test]
fn a_run_reads_an_image_and_gives_the_cells_as_they_stand(rt: HostRuntime) -> Result<(), Fail> {
    let (blank, written) = (image(rt.alloc(), b"")?, written(rt.alloc())?);
    assert_runs(
        rt.alloc(),
        &rt,
        &blank,
        b"write 0 a5\n",
        b"first\n",
        &written,
    );
    assert_runs(rt.alloc(), &rt, &written, b"read 0\n", b"a5\n", &written);
    Ok(())
}

#[test]
fn format_gives_a_blank_image_and_upgrade_a_new_one(rt: HostRuntime) -> Result<(), Fail> {
    let blank = image(rt.alloc(), b"")?;
    let mut old = Vec::from_slice(rt.alloc(), &HEAD[..28])?;
    old.resize(252, 0)?;
    assert!(rt; 8 < old.len());
    old[8] = 1;
    for line in ["format rs16 2 2 1 0", "upgrade"] {
        let ends = Ends {
            image: &old,
            script: b"",
            fail: NONE,
            room: 64,
        };
        let got = call(rt.alloc(), &rt, line, ends);
        assert_eq!(rt; (got.status, got.out.len()), (0, 0));
        assert_eq!(rt; got.image.as_slice(), blank.as_slice());
    }
    Ok(())
}

#[test]
fn an_end_that_fails_is_told(rt: HostRuntime) -> Result<(), Fail> {
    let blank = image(rt.alloc(), b"")?;
    let (image, script, image_out) = (1, 1, 2);
    for (fail, room, status, text, given) in [
        (Fails { script, ..NONE }, 64, 5, b"".as_slice(), 0),
        (Fails { image, ..NONE }, 64, 5, b"", 0),
        (NONE, 5, 6, b"", 0),
        (Fails { image_out, ..NONE }, 64, 6, b"first\n", 32),
    ] {
        let ends = Ends {
            image: &blank,
            script: b"write 0 a5\n",
            fail,
            room,
        };
        let got = call(rt.alloc(), &rt, "run", ends);
        assert_eq!(rt; (got.status, got.out.as_slice()), (status, text));
        assert_eq!(rt; got.image.as_slice(), &HEAD[..given]);
    }
    Ok(())
}

#[test]
fn an_audit_tells_its_verdict_and_keeps_it_where_out_fails(rt: HostRuntime) -> Result<(), Fail> {
    let sound = written(rt.alloc())?;
    let mut unsound = sound.clone()?;
    assert!(rt; 70 < unsound.len());
    unsound[70] = 0x67;
    for (image, image_fails, room, status, text) in [
        (&sound, 0, 64, 0, b"sound\n0 a5\n".as_slice()),
        (&sound, 0, 8, 6, b"sound\n"),
        (&sound, 1, 64, 5, b""),
        (&unsound, 0, 64, 8, b"unsound header 0 0\n"),
        (&unsound, 0, 8, 8, b""),
    ] {
        let ends = Ends {
            image,
            script: b"no line\n",
            fail: Fails {
                image: image_fails,
                ..NONE
            },
            room,
        };
        let got = call(rt.alloc(), &rt, "audit", ends);
        assert_eq!(rt; (got.status, got.out.as_slice()), (status, text));
        assert!(rt; got.image.is_empty());
    }
    Ok(())
}

#[test]
fn a_script_of_more_than_a_mebibyte_is_too_long(rt: HostRuntime) -> Result<(), Fail> {
    let script = vec![in rt.alloc(); b'\n'; 1_048_577]?;
    let ends = Ends {
        image: b"",
        script: &script,
        fail: NONE,
        room: 64,
    };
    let got = call(rt.alloc(), &rt, "replay plain16 4 2 3 1", ends);
    assert_eq!(rt;
        (got.status, got.out.as_slice()),
        (3, b"script too long\n".as_slice())
    );
    Ok(())
}
