use super::*;
use std::test::Fail;

#[test]
fn commas_part_the_numbers(rt: HostRuntime) -> Result<(), Fail> {
    let line = csv_line(b"trim,", &[7, 0], 18_446_744_073_709_551_615);
    assert_eq!(rt;
        line.as_slice(),
        b"trim,7,0,18446744073709551615\n".as_slice()
    );
    Ok(())
}
