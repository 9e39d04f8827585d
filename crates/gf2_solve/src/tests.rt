//! The worked basis, and a full one.

use crate::{Basis, Offered};
use std::test::Fail;

#[test]
fn the_worked_basis(rt: HostRuntime) -> Result<(), Fail> {
    let mut basis = Basis::new(rt.alloc())?;
    assert_eq!(rt; basis.offer(2, 0), Offered::Taken(0));
    assert_eq!(rt; basis.offer(3, 1), Offered::Taken(1));
    assert_eq!(rt; basis.offer(1, 2), Offered::Spanned);
    assert_eq!(rt; basis.express(1), Some(3));
    assert_eq!(rt; basis.express(4), None);
    assert_eq!(rt; basis.express(0), Some(0));
    basis.clear();
    assert_eq!(rt; basis.express(1), None);
    Ok(())
}

#[test]
fn a_full_basis_takes_no_more(rt: HostRuntime) -> Result<(), Fail> {
    let mut basis = Basis::new(rt.alloc())?;
    for place in 0..128u32 {
        assert_eq!(rt;
            basis.offer(u128::MAX << place, place + 7),
            Offered::Taken(place)
        );
    }
    assert_eq!(rt; basis.offer(5, 0), Offered::Spanned);
    assert_eq!(rt; basis.express(1), Some(3));
    Ok(())
}
