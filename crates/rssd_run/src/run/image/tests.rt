use super::*;
use rssd_io::{MemSink, MemSource};
use std::alloc::Global;
use std::test::Fail;

// The first bytes of the image of `format rs16 2 2 1 0`; 224 zero bytes follow, in 4 pages.
const HEAD: [u8; 32] = [
    0x57, 0x4f, 0x4d, 0x46, 0x4c, 0x41, 0x53, 0x48, 2, 0, 2, 0, 2, 0, 0, 0, 2, 0, 0, 0, 1, 0, 0, 0,
    0, 0, 0, 0, 2, 0, 0, 0,
];

/// A source of so many bytes, the head and zero bytes behind it, with this first byte. The call of this number fails.
fn source(alloc: Global, first: u8, length: usize, fail_at: u64) -> Result<MemSource, Fail> {
    let mut image = Vec::from_slice(alloc, &HEAD)?;
    image[0] = first;
    image.resize(length, 0)?;
    Ok(MemSource::new(image, Vec::from_slice(alloc, &[fail_at])?))
}

#[test]
fn an_image_is_read_no_further_than_its_answer(rt: HostRuntime) -> Result<(), Fail> {
    for (first, length, fail_at, why) in [
        (0x57, 256, 1, ImageReadError::Fault),
        (0x57, 256, 2, ImageReadError::Fault),
        (0x57, 256, 3, ImageReadError::Fault),
        (0x57, 31, 9, ImageReadError::Refused(ImageError::Short)),
        (0x57, 255, 9, ImageReadError::Refused(ImageError::Short)),
        (0x57, 257, 3, ImageReadError::Refused(ImageError::Long)),
        (0x57, 5_000, 3, ImageReadError::Refused(ImageError::Long)),
        (0x58, 256, 2, ImageReadError::Refused(ImageError::Magic)),
    ] {
        let mut image = source(rt.alloc(), first, length, fail_at)?;
        let read = read_image(ImageReader::new(rt.alloc()), &mut image);
        assert_eq!(rt; read.err(), Some(why), "{length}, {fail_at}");
    }
    Ok(())
}

#[test]
fn an_image_is_given_in_a_head_and_pages(rt: HostRuntime) -> Result<(), Fail> {
    let mut image = source(rt.alloc(), 0x57, 256, 9)?;
    let (head, cells) = read_image(ImageReader::new(rt.alloc()), &mut image).expect(
        &rt, "an image",
    );
    for (room, given) in [(256, 256), (255, 200), (32, 32), (31, 0)] {
        let mut out = MemSink::new(rt.alloc(), room, Vec::new(rt.alloc()))?;
        let done = give_image(&head, &cells, &mut out);
        assert_eq!(rt; done.is_ok(), room == 256);
        assert_eq!(rt; out.bytes().len(), given);
        assert!(rt; HEAD.starts_with(out.bytes()) || out.bytes().starts_with(&HEAD));
    }
    Ok(())
}
