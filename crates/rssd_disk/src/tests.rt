use crate::handshake::greet;
use crate::serving::{Ended, ROOM};
use rssd_io::{MemSink, MemSource};
use std::test::Fail;

#[test]
fn a_client_that_goes_is_told_the_size(rt: HostRuntime) -> Result<(), Fail> {
    let asked =
        *b"\x00\x00\x00\x03IHAVEOPT\x00\x00\x00\x07\x00\x00\x00\x06\x00\x00\x00\x00\x00\x00";
    let mut told = Vec::new(rt.alloc());
    told.extend_from_slice(b"NBDMAGICIHAVEOPT\x00\x03")?;
    told.extend_from_slice(
        b"\x00\x03\xe8\x89\x04\x55\x65\xa9\x00\x00\x00\x07\x00\x00\x00\x03\x00\x00\x00\x0c",
    )?;
    told.extend_from_slice(b"\x00\x00\x00\x00\x00\x00\x00\x00\x10\x00\x00\x6d")?;
    told.extend_from_slice(
        b"\x00\x03\xe8\x89\x04\x55\x65\xa9\x00\x00\x00\x07\x00\x00\x00\x03\x00\x00\x00\x0e",
    )?;
    told.extend_from_slice(b"\x00\x03\x00\x00\x00\x01\x00\x00\x10\x00\x00\x10\x00\x00")?;
    told.extend_from_slice(
        b"\x00\x03\xe8\x89\x04\x55\x65\xa9\x00\x00\x00\x07\x00\x00\x00\x01\x00\x00\x00\x00",
    )?;
    let mut from = MemSource::new(asked.to_vec(rt.alloc())?, Vec::new(rt.alloc()));
    let mut to = MemSink::new(rt.alloc(), 200, Vec::new(rt.alloc()))?;
    let mut room = vec![in rt.alloc(); 0u8; ROOM]?;
    assert_eq!(rt; greet(&mut from, &mut to, &mut room, 4096), Ok(()));
    assert_eq!(rt; to.bytes(), told.as_slice());
    Ok(())
}

#[test]
fn an_unknown_option_is_declined_and_a_client_that_leaves_is_let_go(
    rt: HostRuntime,
) -> Result<(), Fail> {
    let asked =
        *b"\x00\x00\x00\x01IHAVEOPT\x00\x00\x00\x08\x00\x00\x00\x00IHAVEOPT\x00\x00\x00\x02\x00\x00\x00\x00";
    let mut told = Vec::new(rt.alloc());
    told.extend_from_slice(b"NBDMAGICIHAVEOPT\x00\x03")?;
    told.extend_from_slice(
        b"\x00\x03\xe8\x89\x04\x55\x65\xa9\x00\x00\x00\x08\x80\x00\x00\x01\x00\x00\x00\x00",
    )?;
    told.extend_from_slice(
        b"\x00\x03\xe8\x89\x04\x55\x65\xa9\x00\x00\x00\x02\x00\x00\x00\x01\x00\x00\x00\x00",
    )?;
    let mut from = MemSource::new(asked.to_vec(rt.alloc())?, Vec::new(rt.alloc()));
    let mut to = MemSink::new(rt.alloc(), 200, Vec::new(rt.alloc()))?;
    let mut room = vec![in rt.alloc(); 0u8; ROOM]?;
    assert_eq!(rt;
        greet(&mut from, &mut to, &mut room, 4096),
        Err(Ended::Left)
    );
    assert_eq!(rt; to.bytes(), told.as_slice());
    Ok(())
}
