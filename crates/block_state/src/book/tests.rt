//! The worked row of victims, the lowest blocks of the kinds, and a long run against plain lists.
ghost use Rattle.std.specs.Prelude.{◌≡◌, ◌<◌, length, IsTrue};
ghost use Rattle.block_state.specs.State.{is_spare, InRange};
ghost use Rattle.block_state.specs.Book.{HasOneSpare, state_at};

use super::*;
use std::test::Fail;

// Blocks 2, 0 and 1 are closed in this order, with one live record each.
#[test]
fn the_oldest_of_the_fewest_is_the_victim(rt: HostRuntime) -> Result<(), Fail> {
    let mut book = Book::new(rt.alloc(), 3, 2, 2, 2)?;
    book.add_live(2);
    book.add_live(0);
    book.add_live(1);
    book.set_state(2, State::Used { level: 0 });
    book.set_state(0, State::Used { level: 0 });
    book.set_state(1, State::Used { level: 0 });
    assert_eq!(rt; book.victim(), Some(2));
    book.drop_live(2);
    book.add_live(2);
    assert_eq!(rt; book.victim(), Some(0));
    book.zero_live(1);
    assert_eq!(rt; book.victim(), Some(1));
    assert_eq!(rt; book.idle_victim(1), Some(0));
    Ok(())
}

// 70 blocks, so that a set has two words that are not 0.
#[test]
fn the_lowest_block_of_each_kind_is_found(rt: HostRuntime) -> Result<(), Fail> {
    let mut book = Book::new(rt.alloc(), 70, 2, 2, 2)?;
    assert_eq!(rt; book.lowest_clean(), Some(0));
    assert_eq!(rt; book.lowest_recycled(), None);
    assert_eq!(rt; book.lowest_empty_used(), None);
    book.add_live(1);
    book.set_state(0, State::Reused);
    book.set_state(1, State::Used { level: 0 });
    book.set_state(69, State::Used { level: 0 });
    assert_eq!(rt; book.lowest_clean(), Some(2));
    assert_eq!(rt; book.lowest_empty_used(), Some(69));
    book.drop_live(1);
    assert_eq!(rt; book.lowest_empty_used(), Some(1));
    book.set_state(69, State::Recycled { level: 1, next: 0 });
    book.set_state(64, State::Recycled { level: 1, next: 1 });
    assert_eq!(rt; book.lowest_recycled(), Some(64));
    assert_eq!(rt; book.recycled_count(), 2);
    book.set_state(64, State::Reused);
    assert_eq!(rt; book.lowest_recycled(), Some(69));
    assert_eq!(rt; book.recycled_count(), 1);
    Ok(())
}

/// Whether a block is Spare.
fn is_spare_at(book: &Book, block: u32) -> bool
    requires { block < length book.now.states }
    ensures { result ≡ is_spare (state_at book.now block) }
{
    matches!(book.state_of(block), State::Spare { .. })
}

/// Whether there are three blocks, of which the last is the one Spare.
fn is_last_spare(book: &Book) -> bool
    ensures { IsTrue result → HasOneSpare book.now }
{
    let blocks = book.blocks();
    if blocks != 3 {
        return false;
    }
    let first = is_spare_at(book, 0);
    if first {
        return false;
    }
    let second = is_spare_at(book, 1);
    if second {
        return false;
    }
    is_spare_at(book, 2)
}

#[test]
fn the_active_block_closes_as_used(rt: HostRuntime) -> Result<(), Fail> {
    let mut book = Book::new(rt.alloc(), 3, 4, 3, 2)?;
    assert_eq!(rt; book.blocks(), 3);
    assert_eq!(rt; book.pages(), 4);
    assert_eq!(rt; book.units(), 3);
    assert_eq!(rt; book.generations(), 2);
    book.set_state(2, State::Spare { blank: true });
    assert!(rt; is_last_spare(&book));
    assert_eq!(rt; book.spare(), 2);
    book.set_state(0, State::Active { fill: 3 });
    assert_eq!(rt; book.active(), Some(0));
    book.close(0);
    assert_eq!(rt; book.state_of(0), State::Used { level: 0 });
    assert_eq!(rt; book.active(), None);
    assert_eq!(rt; book.live(0), 0);
    Ok(())
}

/// A book as plain lists, in which each question looks at every closed block.
#[derive(Drop)]
struct Plain {
    states: Vec<State>,
    live: Vec<u32>,
    order: Vec<u32>,
}

impl Plain {
    fn new(alloc: Global, blocks: usize) -> Result<Plain, OutOfMemory> {
        Ok(Plain {
            states: vec![in alloc; State::Clean; blocks]?,
            live: vec![in alloc; 0; blocks]?,
            order: Vec::new(alloc),
        })
    }

    fn state_of(&self, block: u32) -> State {
        self.states
            .get(block as usize)
            .copied()
            .unwrap_or(State::Clean)
    }

    fn live(&self, block: u32) -> u32 {
        self.live.get(block as usize).copied().unwrap_or(0)
    }

    fn set_state(&mut self, block: u32, state: State) -> Result<(), OutOfMemory> {
        let was = self.state_of(block).is_closed();
        if let Some(slot) = self.states.get_mut(block as usize) {
            *slot = state;
        }
        if was && !state.is_closed() {
            self.order.retain(|&other| other != block);
        }
        if !was && state.is_closed() {
            self.order.push(block)?;
        }
        Ok(())
    }

    fn set_live(&mut self, block: u32, count: u32) -> Result<(), OutOfMemory> {
        if let Some(slot) = self.live.get_mut(block as usize) {
            *slot = count;
        }
        if self.state_of(block).is_closed() {
            self.order.retain(|&other| other != block);
            self.order.push(block)?;
        }
        Ok(())
    }

    fn least(&self, fewest: u32, most: u32) -> Option<u32> {
        let mut least = None;
        for &block in &self.order {
            let count = self.live(block);
            let fewer = match least {
                Some(best) => count < self.live(best),
                None => true,
            };
            if fewest <= count && count <= most && fewer {
                least = Some(block);
            }
        }
        least
    }

    fn lowest_clean(&self) -> Option<u32> {
        (0..8).find(|&block| self.state_of(block) == State::Clean)
    }

    fn lowest_recycled(&self) -> Option<u32> {
        (0..8).find(|&block| matches!(self.state_of(block), State::Recycled { .. }))
    }

    fn lowest_empty_used(&self) -> Option<u32> {
        (0..8).find(|&block| matches!(self.state_of(block), State::Used { .. })
            && self.live(block) == 0)
    }

    fn recycled_count(&self) -> usize {
        self.states
            .iter()
            .filter(|state| matches!(state, State::Recycled { .. }))
            .count()
    }
}

/// A state for 4 pages, 2 units and 3 generations.
fn state_from(pick: u32) -> State
    ensures { InRange 4 2 3 result }
{
    match pick % 8 {
        0 => State::Clean,
        1 => State::Active { fill: pick / 8 % 4 },
        2 => State::Spare {
            blank: pick / 8 % 2 == 0,
        },
        3 => State::Reused,
        4 | 5 => State::Recycled {
            level: 1 + pick / 8 % 2,
            next: pick / 16 % 2,
        },
        _ => State::Used {
            level: pick / 8 % 2,
        },
    }
}

/// Makes one call of the book, where its condition holds, and does the same to plain lists.
fn change(book: &mut Book, plain: &mut Plain, block: u32, pick: u32) -> Result<(), OutOfMemory>
    requires shape { (book.old.pages ≡ 4) × (book.old.units ≡ 2) × (book.old.generations ≡ 3) × (length book.old.states ≡ 8) }
    requires block { block < 8 }
    ensures shape { (book.new.pages ≡ 4) × (book.new.units ≡ 2) × (book.new.generations ≡ 3) × (length book.new.states ≡ 8) }
{
    let count = plain.live(block);
    let state = state_from(pick / 8);
    match pick % 8 {
        0 | 1 | 2 if book.live(block) < 12 => {
            book.add_live(block);
            plain.set_live(block, count.saturating_add(1))
        }
        3 | 4 if book.live(block) > 0 => {
            book.drop_live(block);
            plain.set_live(block, count.saturating_sub(1))
        }
        5 => {
            book.zero_live(block);
            plain.set_live(block, 0)
        }
        6 if book.active() == Some(block) => {
            book.close(block);
            plain.set_state(block, State::Used { level: 0 })
        }
        _ if !state.is_active() || book.active().is_none() => {
            book.set_state(block, state);
            plain.set_state(block, state)
        }
        _ => Ok(()),
    }
}

#[test]
fn ten_thousand_calls_agree_with_plain_lists(rt: HostRuntime) -> Result<(), Fail> {
    let mut book = Book::new(rt.alloc(), 8, 4, 2, 3)?;
    let mut plain = Plain::new(rt.alloc(), 8)?;
    let mut random = 1u64;
    for _ in 0..10_000 {
        random = random
            .wrapping_mul(6_364_136_223_846_793_005)
            .wrapping_add(1_442_695_040_888_963_407);
        let block = (random >> 32) as u32 % 8;
        let pick = (random >> 40) as u32;
        change(&mut book, &mut plain, block, pick)?;
        assert_eq!(rt; book.state_of(block), plain.state_of(block));
        assert_eq!(rt; book.live(block), plain.live(block));
        assert_eq!(rt; book.victim(), plain.least(0, u32::MAX));
        assert_eq!(rt; book.idle_victim(pick % 16), plain.least(1, pick % 16));
        assert_eq!(rt; book.lowest_clean(), plain.lowest_clean());
        assert_eq!(rt; book.lowest_recycled(), plain.lowest_recycled());
        assert_eq!(rt; book.lowest_empty_used(), plain.lowest_empty_used());
        assert_eq!(rt; book.recycled_count() as usize, plain.recycled_count());
    }
    Ok(())
}
