//! Blocks at the ends of words.
use super::*;
use std::test::Fail;

#[test]
fn the_lowest_comes_first_over_the_ends_of_words(rt: HostRuntime) -> Result<(), Fail> {
    let mut set = BlockSet::new();
    assert_eq!(rt; set.lowest(), None);
    set.insert(1023);
    set.insert(64);
    set.insert(63);
    set.insert(0);
    assert!(rt; set.has(63) && set.has(64) && set.has(1023));
    assert!(rt; !set.has(1) && !set.has(62) && !set.has(65));
    assert_eq!(rt; set.lowest(), Some(0));
    set.remove(0);
    set.remove(1);
    assert_eq!(rt; set.lowest(), Some(63));
    set.put(63, false);
    assert_eq!(rt; set.lowest(), Some(64));
    set.remove(64);
    assert_eq!(rt; set.lowest(), Some(1023));
    set.put(960, true);
    assert_eq!(rt; set.lowest(), Some(960));
    set.remove(960);
    set.remove(1023);
    assert_eq!(rt; set.lowest(), None);
    Ok(())
}
