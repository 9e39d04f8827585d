//! The table of the states of a block, row by row: which call makes which state of which.
ghost use Rattle.std.specs.Prelude.{IsTrue};
ghost use Rattle.block_state.specs.State.{InRange};

use super::*;
use crate::unit::{offer, pass};
use std::test::Fail;

/// The call that makes a row of the table.
#[derive(Clone, Copy, Debug)]
enum Call {
    SetState,
    Close,
    RecycleDue,
    Pass,
}

const CLEAN: State = State::Clean;

const REUSED: State = State::Reused;

const BLANK: State = State::Spare { blank: true };

const UNERASED: State = State::Spare { blank: false };

fn active(fill: u32) -> State {
    State::Active { fill }
}

fn used(level: u32) -> State {
    State::Used { level }
}

fn recycled(level: u32, next: u32) -> State {
    State::Recycled { level, next }
}

/// Whether the numbers of a state fit 4 pages, 2 units and 3 generations.
fn fits(state: State) -> bool
    ensures { IsTrue result → InRange 4 2 3 state }
{
    match state {
        State::Active { fill } => fill < 4,
        State::Used { level } => level < 2,
        State::Recycled { level, next } => 0 < level && level < 3 && next < 2,
        State::Clean | State::Reused | State::Spare { .. } => true,
    }
}

#[test]
fn states_change_by_the_rows_of_the_table(rt: HostRuntime) -> Result<(), Fail> {
    let rows = [
        (CLEAN, Call::SetState, active(0)),
        (used(1), Call::SetState, active(0)),
        (recycled(1, 1), Call::SetState, active(0)),
        (REUSED, Call::SetState, active(0)),
        (active(1), Call::SetState, active(2)),
        (active(3), Call::Close, used(0)),
        (used(0), Call::RecycleDue, recycled(1, 0)),
        (used(1), Call::RecycleDue, recycled(2, 0)),
        (recycled(2, 0), Call::Pass, recycled(2, 1)),
        (recycled(1, 1), Call::Pass, used(1)),
        (recycled(2, 1), Call::Pass, REUSED),
        (BLANK, Call::SetState, active(2)),
        (used(0), Call::SetState, UNERASED),
        (recycled(1, 0), Call::SetState, UNERASED),
        (REUSED, Call::SetState, UNERASED),
        (UNERASED, Call::SetState, BLANK),
        (BLANK, Call::SetState, UNERASED),
    ];
    for (from, call, to) in rows {
        let mut book = Book::new(rt.alloc(), 1, 4, 2, 3)?;
        assert!(rt; fits(from) && fits(to));
        book.set_state(0, from);
        match call {
            Call::SetState => book.set_state(0, to),
            Call::Close => {
                assert_eq!(rt; book.active(), Some(0));
                book.close(0);
            }
            Call::RecycleDue => recycle_due(&mut book, 1),
            Call::Pass => {
                let unit = offer(&book).expect(&rt, "an offer");
                pass(&mut book, unit);
            }
        }
        assert_eq!(rt; book.blocks(), 1);
        assert_eq!(rt; book.state_of(0), to, "{call:?} of {from:?}");
    }
    Ok(())
}
