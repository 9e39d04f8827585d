//! Rows of the queue, worked by hand.

use crate::{Ask, AskBytes, PutRefusal, Queue, Tagged, laws};
use std::process::Abort;
use std::test::Fail;

fn read(tag: u32, sector: u32) -> Tagged {
    Tagged {
        tag,
        ask: Ask::Read { sector },
    }
}

fn trim(tag: u32, sector: u32) -> Tagged {
    Tagged {
        tag,
        ask: Ask::Trim { sector },
    }
}

fn write(tag: u32, sector: u32) -> Tagged {
    Tagged {
        tag,
        ask: Ask::Write {
            sector,
            bytes: AskBytes::of(&[0xa5]),
        },
    }
}

/// The tag of the next command, or 0 where nothing waits.
fn next_tag(queue: &mut Queue) -> u32 {
    match queue.next() {
        Some(command) => command.tag,
        None => 0,
    }
}

/// Why the command is refused, as its number; 0 where it is accepted.
fn put_number(queue: &mut Queue, command: Tagged) -> u32 {
    match queue.put(command) {
        Ok(()) => 0,
        Err(PutRefusal::Full) => 1,
        Err(PutRefusal::TagBusy) => 2,
        Err(PutRefusal::BadSector) => 3,
        Err(PutRefusal::Long) => 4,
    }
}

#[test]
fn a_read_overtakes_writes_of_other_sectors(rt: HostRuntime) -> Result<(), Fail> {
    let mut queue = Queue::new(rt.alloc(), 3, 16)?;
    queue.put(write(1, 0))?;
    queue.put(write(2, 1))?;
    queue.put(read(3, 2))?;
    queue.put(read(4, 0))?;
    for tag in [3, 1, 4, 2, 0] {
        assert_eq!(rt; next_tag(&mut queue), tag);
    }
    Ok(())
}

#[test]
fn the_oldest_is_passed_32_times(rt: HostRuntime) -> Result<(), Fail> {
    let mut queue = Queue::new(rt.alloc(), 3, 16)?;
    queue.put(write(1, 0))?;
    for tag in 2..34 {
        queue.put(read(tag, 1))?;
        assert_eq!(rt; next_tag(&mut queue), tag);
    }
    queue.put(read(34, 1))?;
    assert_eq!(rt; next_tag(&mut queue), 1);
    assert_eq!(rt; next_tag(&mut queue), 34);
    Ok(())
}

#[test]
fn a_read_that_is_the_oldest_passes_nothing(rt: HostRuntime) -> Result<(), Fail> {
    let mut queue = Queue::new(rt.alloc(), 3, 16)?;
    for tag in 1..33 {
        queue.put(read(tag, 0))?;
    }
    for tag in 1..33 {
        assert_eq!(rt; next_tag(&mut queue), tag);
    }
    Ok(())
}

#[test]
fn puts_are_refused_in_order(rt: HostRuntime) -> Result<(), Fail> {
    let mut queue = Queue::new(rt.alloc(), 3, 4)?;
    for tag in 1..32 {
        assert_eq!(rt; put_number(&mut queue, trim(tag, 2)), 0);
    }
    let long = AskBytes::of(&[1, 2, 3, 4, 5]);
    assert_eq!(rt; put_number(&mut queue, read(31, 3)), 2);
    assert_eq!(rt; put_number(&mut queue, read(32, 3)), 3);
    let ask = Ask::Write {
        sector: 2,
        bytes: long,
    };
    assert_eq!(rt; put_number(&mut queue, Tagged { tag: 32, ask }), 4);
    assert_eq!(rt; put_number(&mut queue, read(32, 0)), 0);
    assert_eq!(rt; put_number(&mut queue, read(1, 0)), 1);
    Ok(())
}

#[test]
fn a_write_waits_filled_up_with_zero_bytes(rt: HostRuntime) -> Result<(), Fail> {
    let mut queue = Queue::new(rt.alloc(), 1, 4)?;
    queue.put(write(7, 0))?;
    let command = queue.next().ok_or("nothing waits")?;
    assert_eq!(rt; command.tag, 7);
    match &command.ask {
        Ask::Write { bytes, .. } => {
            assert_eq!(rt; bytes.as_slice(), [0xa5, 0, 0, 0].as_slice());
        }
        Ask::Read { .. } | Ask::Trim { .. } => panic!(rt; "not the write"),
    }
    Ok(())
}

/// How many serves there are to the answer of the last of 32 writes, where after each serve a read of another sector is put.
fn serves_to_the_last(rt: &impl Abort, queue: &mut Queue) -> u32 {
    for serves in 1..2000 {
        if next_tag(queue) == 32 {
            return serves;
        }
        assert!(rt; put_number(queue, read(100 + serves, 1)) == 0);
    }
    0
}

#[test]
fn the_last_of_a_full_queue_is_served_by_the_1024th_serve(rt: HostRuntime) -> Result<(), Fail> {
    let mut queue = Queue::new(rt.alloc(), 2, 16)?;
    for tag in 1..33 {
        queue.put(write(tag, 0))?;
    }
    assert_eq!(rt; serves_to_the_last(&rt, &mut queue), 1024);
    Ok(())
}

#[test]
fn the_laws_hold() {
    laws::each_command_is_answered_once();
    laws::each_sector_keeps_its_order();
    laws::reads_give_the_rows_of_the_order();
    laws::every_command_is_served_in_time();
}
