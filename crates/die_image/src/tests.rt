use super::*;
use std::alloc::Global;
use std::test::Fail;

// The first bytes of the image of `format rs16 2 2 1 0`; 224 zero bytes follow.
const HEAD: [u8; 32] = [
    0x57, 0x4f, 0x4d, 0x46, 0x4c, 0x41, 0x53, 0x48, 2, 0, 2, 0, 2, 0, 0, 0, 2, 0, 0, 0, 1, 0, 0, 0,
    0, 0, 0, 0, 2, 0, 0, 0,
];

// The same head in version 1.
const OLD_HEAD: [u8; 28] = [
    0x57, 0x4f, 0x4d, 0x46, 0x4c, 0x41, 0x53, 0x48, 1, 0, 2, 0, 2, 0, 0, 0, 2, 0, 0, 0, 1, 0, 0, 0,
    0, 0, 0, 0,
];

/// A head and zero bytes after it.
fn blank(alloc: Global, head: &[u8], cells: usize) -> Result<Vec<u8>, Fail> {
    let mut image = Vec::from_slice(alloc, head)?;
    for _ in 0..cells {
        image.push(0)?;
    }
    Ok(image)
}

#[test]
fn a_damaged_image_names_its_damage(rt: HostRuntime) -> Result<(), Fail> {
    for (place, byte, error) in [
        (0, 0x58, ImageError::Magic),
        (8, 3, ImageError::Version),
        (10, 8, ImageError::Shape),
        (20, 2, ImageError::Shape),
        (28, 3, ImageError::Shape),
        (56, 2, ImageError::PadCells),
        (32 + 56 + 24 + 31, 1, ImageError::PadCells),
    ] {
        let mut image = blank(rt.alloc(), &HEAD, 224)?;
        assert!(rt; place < image.len());
        image[place] = byte;
        assert_eq!(rt;
            decode(rt.alloc(), image.as_slice()).err(),
            Some(error),
            "byte {place}"
        );
    }
    for (cells, error) in [(223, ImageError::Short), (225, ImageError::Long)] {
        let image = blank(rt.alloc(), &HEAD, cells)?;
        assert_eq!(rt; decode(rt.alloc(), image.as_slice()).err(), Some(error));
    }
    assert_eq!(rt; decode(rt.alloc(), b"").err(), Some(ImageError::Short));
    Ok(())
}

#[test]
fn the_version_comes_before_the_shape(rt: HostRuntime) -> Result<(), Fail> {
    let old = blank(rt.alloc(), &OLD_HEAD, 224)?;
    assert_eq!(rt;
        decode(rt.alloc(), old.as_slice()).err(),
        Some(ImageError::Version)
    );
    let new = blank(rt.alloc(), &HEAD, 224)?;
    assert_eq!(rt;
        decode_old(rt.alloc(), new.as_slice()).err(),
        Some(ImageError::Version)
    );
    Ok(())
}

#[test]
fn an_old_image_is_written_in_the_new_version(rt: HostRuntime) -> Result<(), Fail> {
    let old = blank(rt.alloc(), &OLD_HEAD, 224)?;
    let (head, cells) = decode_old(rt.alloc(), old.as_slice())?;
    let new = encode(rt.alloc(), &head, cells.as_slice())?;
    assert_eq!(rt; new.as_slice(), blank(rt.alloc(), &HEAD, 224)?.as_slice());
    Ok(())
}

#[test]
fn a_head_has_32_bytes_before_the_cells(rt: HostRuntime) {
    let head = ImageHead {
        scheme: SchemeName::Rs16,
        blocks: 2,
        pages: 2,
        sectors: 1,
        reuse_max: 0,
    };
    assert_eq!(rt; encode_head(&head), HEAD);
}

#[test]
fn images_are_read_byte_by_byte(rt: HostRuntime) -> Result<(), Fail> {
    // rs16, flip16 and ham16, each with 2 blocks of 2 pages.
    for (scheme, slots, bytes) in [(2, 2, 256), (6, 2, 232), (8, 3, 376)] {
        let mut image = blank(rt.alloc(), &HEAD, bytes - 32)?;
        assert!(rt; 32 <= image.len());
        image[10] = scheme;
        image[28] = slots;
        let mut reader = ImageReader::new(rt.alloc());
        for byte in &image {
            assert!(rt; reader.wants() > 0);
            reader.feed(&[*byte])?;
        }
        assert_eq!(rt; reader.wants(), 1);
        let (head, cells) = reader.end()?;
        assert_eq!(rt; head.scheme.number(), u16::from(scheme));
        assert_eq!(rt; head.scheme.generations(), u32::from(slots));
        assert_eq!(rt; cells.len(), bytes - 32);
    }
    Ok(())
}

#[test]
fn an_old_image_is_read_in_pieces(rt: HostRuntime) -> Result<(), Fail> {
    let mut reader = ImageReader::old(rt.alloc());
    assert_eq!(rt; reader.wants(), 28);
    reader.feed(&OLD_HEAD)?;
    assert_eq!(rt; reader.wants(), 225);
    let cells = blank(rt.alloc(), b"", 224)?;
    let piece = cells.as_slice();
    assert!(rt; piece.len() as u64 <= reader.wants());
    reader.feed(piece)?;
    assert!(rt; reader.end().is_ok());
    Ok(())
}

#[test]
fn schemes_have_names_and_numbers(rt: HostRuntime) {
    assert_eq!(rt; SchemeName::of_name("ham512"), SchemeName::of_number(9));
    assert_eq!(rt; SchemeName::of_name("rs99"), None);
    assert_eq!(rt; SchemeName::of_number(0), None);
    assert_eq!(rt; SchemeName::of_number(10), None);
    for n in 1..10 {
        assert_eq!(rt;
            SchemeName::of_number(n).map(|scheme| scheme.number()),
            Some(n)
        );
    }
    let scheme = SchemeName::Coset512;
    assert_eq!(rt;
        (scheme.sector_bytes(), scheme.page_bytes(), scheme.span()),
        (512, 576, 2)
    );
}

#[test]
fn the_last_sector_leaves_a_page(rt: HostRuntime) {
    for (sectors, is_within) in [(0, false), (1, true), (2, false)] {
        let head = ImageHead {
            scheme: SchemeName::Rs16,
            blocks: 2,
            pages: 2,
            sectors,
            reuse_max: 2,
        };
        assert_eq!(rt; within_limits(&head), is_within);
    }
}
