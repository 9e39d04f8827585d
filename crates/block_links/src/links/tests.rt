//! The worked row of two lists, and the ends of a list.
use super::*;
use std::test::Fail;

#[test]
fn a_node_leaves_its_list_and_the_next_one_is_first(rt: HostRuntime) -> Result<(), Fail> {
    let mut links = Links::new(rt.alloc(), 3, 2)?;
    links.push_back(0, 2);
    links.push_back(0, 1);
    links.push_back(1, 0);
    links.unlink(2);
    assert_eq!(rt; links.front(0), Some(1));
    assert_eq!(rt; links.bucket_of(2), None);
    assert_eq!(rt; links.bucket_of(0), Some(1));
    Ok(())
}

#[test]
fn an_emptied_list_takes_nodes_again(rt: HostRuntime) -> Result<(), Fail> {
    let mut links = Links::new(rt.alloc(), 2, 1)?;
    assert_eq!(rt; links.front(0), None);
    links.push_back(0, 1);
    links.unlink(1);
    assert_eq!(rt; links.front(0), None);
    links.push_back(0, 0);
    links.push_back(0, 1);
    assert_eq!(rt; links.front(0), Some(0));
    Ok(())
}
