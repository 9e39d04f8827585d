use super::*;
use rssd_script::Line;
use std::test::Fail;

#[test]
fn the_first_line_of_seed_0_is_a_write(rt: HostRuntime) -> Result<(), Fail> {
    assert_eq!(rt; make(rt.alloc(), 1, 0, 1, 16)?.len(), 0);
    let lines = make(rt.alloc(), 0, 1, 1, 16)?;
    assert_eq!(rt; lines.len(), 1);
    match &lines[0] {
        Line::Write { sector, bytes } => {
            assert_eq!(rt; *sector, 0);
            assert_eq!(rt;
                bytes.as_slice(),
                b"\x4f\x45\x09\x80\x18\x5d\xc4\x06\xec\x81\x4c\x72\xa8\xb8\x8b\xf8".as_slice()
            );
        }
        _ => assert!(rt; false),
    }
    Ok(())
}

#[test]
fn a_large_workload_is_made(rt: HostRuntime) -> Result<(), Fail> {
    assert_eq!(rt; make(rt.alloc(), 1, 5000, 1500, 512)?.len(), 5000);
    Ok(())
}
